//! Samples to bytes, and back.
ghost use Rattle.std.specs.Prelude.{◌≡◌, ◌⊎◌, ◌<◌, ◌≤◌, ◌^◌, ℤ, List, MatchResult, length};
ghost use Rattle.std.specs.List.{All};
ghost use Rattle.std.specs.Result.{IsErrAnd};
ghost use Rattle.bitstream_io.specs.Callers.{bits, result_map, sure_answer, FitsSignedBits, High, MayAllocate, OutOfMemory, OwnAnswer};
ghost use Rattle.flac_codec.specs.Errors.{becomes_flac};
ghost use Rattle.flac_codec.specs.declared.error.FlacError.TheVariants.{Reader};
ghost use Rattle.flac_codec.specs.Subframe.{subframe_decoder, Decodes};

use crate::error::FlacError;
use crate::reading::read_subframe;
use crate::writing::write_subframe;
use bitstream_io::{BE, BitReader, BitWrite, BitWriter, Error, Growing};
use std::alloc::Global;

/// Returns a subframe of samples of `width` bits, up to a whole byte.
///
/// # Errors
///
/// An allocation failed.
pub fn encode(alloc: Global, width: u32, samples: &[i64]) -> Result<Vec<u8>, Error>
    requires some { 1 ≤ width }
    requires within { width ≤ 64 }
    requires fit { All (FitsSignedBits width) samples.now }
    ensures { MatchResult result (λ bytes. Decodes bytes.items width (length samples.now) samples.now)
        (λ error. error ≡ OutOfMemory) }
{
    let mut writer = BitWriter::<_, BE>::new(Growing::new(Vec::new(alloc)));
    write_subframe(&mut writer, alloc, width, samples)?;
    writer.byte_align()?;
    Ok(writer.into_writer().into_vec())
}

/// Returns the `count` samples of `width` bits of a subframe at the start of `bytes`.
///
/// # Errors
///
/// Returns the errors of [`read_subframe`].
pub fn decode(alloc: Global, width: u32, count: u32, bytes: &[u8]) -> Result<Vec<i64>, FlacError>
    ensures meaning { OwnAnswer becomes_flac (λ answer. answer)
        (sure_answer ((subframe_decoder High width count).reads 0 (bits High bytes.now)))
        (result_map (λ found. found.items) result)
        ⊎ (IsErrAnd (result_map (λ found. found.items) result) (becomes_flac OutOfMemory)
        × MayAllocate (subframe_decoder High width count) 0 (bits High bytes.now)) }
    ensures back { (samples : List ℤ) → Decodes bytes.now width count samples
        → MatchResult result (λ found. found.items ≡ samples) (λ error. error ≡ Reader OutOfMemory) }
{
    read_subframe(&mut BitReader::<_, BE>::over(bytes), alloc, width, count)
}

/// Encodes samples, and decodes what was encoded: the samples again.
///
/// # Errors
///
/// An allocation failed.
pub fn round_trip(alloc: Global, width: u32, samples: &[i64]) -> Result<Vec<i64>, FlacError>
    requires some { 1 ≤ width }
    requires within { width ≤ 64 }
    requires short { length samples.now < 2 ^ 32 }
    requires fit { All (FitsSignedBits width) samples.now }
    ensures { MatchResult result (λ found. found.items ≡ samples.now) (λ error. error ≡ Reader OutOfMemory) }
{
    let bytes = encode(alloc, width, samples)?;
    let found = decode(alloc, width, samples.len() as u32, bytes.as_slice())?;
    Ok(found)
}
