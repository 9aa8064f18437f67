//! The bytes of which STREAMINFO has the MD5 (section 8.2).
ghost use Rattle.std.specs.Prelude.{◌≡◌, get_or, map, pos, MatchResult};
ghost use Rattle.bitstream_io.specs.Callers.{OutOfMemory};
ghost use Rattle.flac_codec.specs.Samples.{byte_count, sample_bytes, samples_at};

use crate::file::sample_count;
use bitstream_io::Error;
use std::alloc::Global;

/// Returns samples of `sample_size` bits in whole bytes, at most 8, the lowest byte first. The samples of all channels at
/// one time follow each other.
///
/// # Errors
///
/// An allocation failed.
pub fn sample_bytes(alloc: Global, sample_size: u8, channels: &[Vec<i64>]) -> Result<Vec<u8>, Error>
    ensures { MatchResult result
        (λ bytes. bytes.items ≡ sample_bytes sample_size (map (λ channel. channel.items) channels.now))
        (λ error. error ≡ OutOfMemory) }
{
    let mut bytes = Vec::new(alloc);
    for place in 0..sample_count(channels) {
        let samples = samples_at(alloc, sample_size, channels, place)?;
        bytes.extend_from_slice(samples.as_slice())?;
    }
    Ok(bytes)
}

/// Returns the samples of all channels at a place.
fn samples_at(
    alloc: Global,
    sample_size: u8,
    channels: &[Vec<i64>],
    place: usize,
) -> Result<Vec<u8>, Error>
    ensures { MatchResult result
        (λ bytes. bytes.items ≡ samples_at sample_size (map (λ channel. channel.items) channels.now) place)
        (λ error. error ≡ OutOfMemory) }
{
    let mut bytes = Vec::new(alloc);
    for channel in channels {
        let whole = sample_at(channel.as_slice(), place).to_le_bytes();
        bytes.extend_from_slice(&whole[..byte_count(sample_size)])?;
    }
    Ok(bytes)
}

/// Returns the number of bytes of a sample.
fn byte_count(sample_size: u8) -> usize
    ensures { result ≡ byte_count sample_size }
{
    ((sample_size as usize + 7) / 8).min(8)
}

/// Returns a sample, or 0 after the end.
fn sample_at(samples: &[i64], place: usize) -> i64
    ensures { result ≡ get_or samples.now place (pos 0) }
{
    if place < samples.len() {
        samples[place]
    } else {
        0
    }
}
