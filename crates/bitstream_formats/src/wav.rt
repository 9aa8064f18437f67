//! WAV: the format of the samples, and the bytes before them.

use crate::riff_chunk::RiffChunk;
use crate::wav_format::{Coding, WavFormat};
use bitstream_io::Error;

/// The smallest size of a chunk `data` that means all bytes up to the end of the file. Programs write such a size if they do
/// not know it.
pub const NO_SIZE: u32 = 0xffff_fffe;

/// The reasons that a file has no samples that are whole numbers (PCM).
#[derive(Clone, Copy, Debug, PartialEq, thiserror::Error)]
pub enum WavError {
    /// The file does not begin with `RIFF`, its size and `WAVE`.
    #[error("the file does not begin with RIFF, its size and WAVE")]
    NotWav,
    /// No chunk `fmt ` of at least 16 bytes precedes the samples.
    #[error("no chunk `fmt ` of at least 16 bytes precedes the samples")]
    NoFormat,
    /// The samples are not whole numbers.
    #[error("the samples are not whole numbers (PCM)")]
    NotPcm,
    /// The file has no chunk `data`.
    #[error("the file has no chunk `data`")]
    NoData,
}

/// Returns the 44 bytes before the samples of a file. `size` is the number of bytes of all samples, or 2^32 - 1 if it is
/// not known.
///
/// # Errors
///
/// None: each part has its bytes.
pub fn wav_start(format: &WavFormat, size: u32) -> Result<[u8; 44], Error> {
    let mut start = [0u8; 44];
    let all = size.saturating_add(36);
    let chunks = [(0, *b"RIFF", all), (12, *b"fmt ", 16), (36, *b"data", size)];
    for (at, id, size) in chunks {
        RiffChunk { id, size }.pack_into(&mut start[at..])?;
    }
    start[8..12].copy_from_slice(b"WAVE");
    format.pack_into(&mut start[20..])?;
    Ok(start)
}

/// Returns the format at the start of the bytes of a chunk `fmt `, of samples that are whole numbers. The first 40 bytes
/// suffice.
///
/// # Errors
///
/// `NoFormat` for fewer than 16 bytes, and `NotPcm` if the samples are not whole numbers.
pub fn pcm_format(bytes: &[u8]) -> Result<WavFormat, WavError> {
    let Ok(format) = WavFormat::parse(bytes) else {
        return Err(WavError::NoFormat);
    };
    let is_pcm = match format.coding {
        Coding::Pcm => true,
        // The extension has the coding in bytes 24 and 25.
        Coding::Extensible => bytes.get(24..26).unwrap_or(&[]) == [1, 0].as_slice(),
        _ => false,
    };
    if is_pcm {
        Ok(format)
    } else {
        Err(WavError::NotPcm)
    }
}
