//! The errors of a FLAC file.

use bitstream_io::Error;
use std::alloc::AllocError;

/// The reasons that a file is not decoded.
#[derive(Debug, Drop, thiserror::Error)]
pub enum FlacError {
    /// The error of the decoder of `flac_codec`.
    #[error("{0}")]
    Codec(flac_codec::FlacError),
    /// The MD5 of the samples differs from STREAMINFO.
    #[error("the MD5 of the samples is another than the metadata says")]
    WrongMd5,
}

impl FlacError {
    /// Returns true for an error of the reader and for a failed allocation, which are no fault of the file.
    pub fn is_from_outside(&self) -> bool {
        matches!(
            self,
            FlacError::Codec(flac_codec::FlacError::Reader(Error::Stream(_) | Error::OutOfMemory))
        )
    }
}

impl From<flac_codec::FlacError> for FlacError {
    fn from(error: flac_codec::FlacError) -> FlacError {
        FlacError::Codec(error)
    }
}

impl From<AllocError> for FlacError {
    fn from(error: AllocError) -> FlacError {
        FlacError::Codec(flac_codec::FlacError::from(error))
    }
}
