//! The errors of an encoded subframe, frame or file.

use bitstream_io::Error;
use std::alloc::{AllocError, AllocFailed};

/// The reasons for which a subframe, a frame or a file is not decoded.
#[derive(Debug, Drop, thiserror::Error)]
pub enum FlacError {
    /// The bits were not read, or an allocation failed.
    #[error("{0}")]
    Reader(Error),
    /// No frame begins here: the first 15 bits are not its sync code.
    #[error("no frame begins here")]
    NoSync,
    /// A bit that must be 0 is 1.
    #[error("a reserved bit is set")]
    ReservedBit,
    /// The code of the block size is reserved.
    #[error("the block size is reserved")]
    ReservedBlockSize,
    /// The block has 65536 samples, which is forbidden.
    #[error("a block of 65536 samples is forbidden")]
    ForbiddenBlockSize,
    /// The code of the sample rate is forbidden.
    #[error("the sample rate is not allowed")]
    ForbiddenSampleRate,
    /// The code of the channels is reserved.
    #[error("the channels are reserved")]
    ReservedChannels,
    /// The code of the bits of a sample is reserved.
    #[error("the sample size is reserved")]
    ReservedSampleSize,
    /// The bytes of the coded number encode no number.
    #[error("no coded number")]
    NotCoded,
    /// The coded number has more bytes than it needs.
    #[error("the coded number is longer than it has to be")]
    LongCoded,
    /// The type of the subframe is reserved.
    #[error("the type of the subframe is reserved")]
    ReservedSubframe,
    /// The number of wasted bits is not below the number of bits of a sample.
    #[error("too many wasted bits")]
    TooManyWastedBits,
    /// The precision of the coefficients is reserved.
    #[error("the precision of the coefficients is reserved")]
    ReservedPrecision,
    /// The shift of the prediction is negative.
    #[error("the shift of the prediction is negative")]
    NegativeShift,
    /// The coding of the residual is reserved.
    #[error("the coding of the residual is reserved")]
    ReservedResidual,
    /// The block does not divide into whole partitions.
    #[error("the partitions do not fit the block")]
    Partitions,
    /// The first partition has fewer samples than the prediction needs.
    #[error("the partitions do not fit the block")]
    ShortBlock,
    /// The checksum of the frame's header does not match its bits.
    #[error("the checksum of the frame's header is wrong")]
    HeaderChecksum,
    /// The checksum of the frame does not match its bits.
    #[error("the checksum of the frame is wrong")]
    FrameChecksum,
    /// The file does not begin with `fLaC`.
    #[error("no FLAC file")]
    NoFlac,
    /// The first block of metadata is not a STREAMINFO of 34 bytes.
    #[error("the metadata begins with no STREAMINFO")]
    NoStreamInfo,
    /// The frame has another number of channels than STREAMINFO.
    #[error("the frame has {0} channels, and STREAMINFO has {1}")]
    OtherChannels(u8, u8),
    /// The samples of the frame have another number of bits than STREAMINFO.
    #[error("the samples of the frame have {0} bits, and those of STREAMINFO have {1}")]
    OtherSampleSize(u8, u8),
    /// The frame has another sample rate than STREAMINFO.
    #[error("the frame has {0} samples a second, and STREAMINFO has {1}")]
    OtherSampleRate(u32, u32),
    /// The channels have the first number of samples, and STREAMINFO the second.
    #[error("the number of samples is another than the metadata says")]
    OtherSampleCount(u64, u64),
}

impl From<Error> for FlacError {
    ghost use Rattle.flac_codec.specs.Errors.{becomes_flac};

    ghost from_gives = { becomes_flac };

    fn from(error: Error) -> FlacError {
        FlacError::Reader(error)
    }
}

impl<T: Drop> From<AllocFailed<T>> for FlacError {
    ghost use Rattle.std.specs.Prelude.{◌≡◌};
    ghost use Rattle.bitstream_io.specs.Callers.{OutOfMemory};
    ghost use Rattle.flac_codec.specs.declared.error.FlacError.TheVariants.{Reader};

    ghost from_gives = { λ _ error. error ≡ Reader OutOfMemory };

    fn from(_refused: AllocFailed<T>) -> FlacError {
        FlacError::Reader(Error::OutOfMemory)
    }
}

impl From<AllocError> for FlacError {
    ghost use Rattle.std.specs.Prelude.{◌≡◌};
    ghost use Rattle.bitstream_io.specs.Callers.{OutOfMemory};
    ghost use Rattle.flac_codec.specs.declared.error.FlacError.TheVariants.{Reader};

    ghost from_gives = { λ _ error. error ≡ Reader OutOfMemory };

    fn from(_refused: AllocError) -> FlacError {
        FlacError::Reader(Error::OutOfMemory)
    }
}
