//! Files in memory (sections 6, 8 and 9), encoded.
ghost use Rattle.std.specs.Prelude.{◌≡◌, ◌+◌, ◌<◌, ◌≤◌, ◌^◌, drop, length, map, take, MatchResult};
ghost use Rattle.std.specs.Int.NonZero.{non_zero_u8_get};
ghost use Rattle.std.specs.List.{All};
ghost use Rattle.bitstream_io.specs.Callers.{FitsSignedBits, OutOfMemory};
ghost use Rattle.flac_codec.specs.Encodable.{count_of, IsFile, IsFormat};
ghost use Rattle.flac_codec.specs.File.{channels_at, file_at, file_header};
ghost use Rattle.flac_codec.specs.StreamInfo.{Fits};
ghost use Rattle.flac_codec.specs.Written.{IsBlock};
ghost use Rattle.flac_codec.specs.declared.error.FlacError.TheVariants.{Reader};
ghost use Rattle.flac_codec.specs.declared.stream_info.StreamInfo.{StreamInfo};

use crate::error::FlacError;
use crate::file::{File, FileHeader, decode_file, sample_count};
use crate::fits::bytes_fit;
use crate::framing::encode_frame;
use crate::header::FrameHeader;
use crate::starting::encode_info;
use crate::stereo::best_channels;
use crate::stream_info::StreamInfo;
use bitstream_io::Error;
use std::alloc::Global;
use std::num::NonZero;

/// Returns a file of these channels, left before right, in frames of `block_size` samples of each channel. The last frame
/// may have fewer.
///
/// # Errors
///
/// An allocation failed.
pub fn encode_file(
    alloc: Global,
    header: &FileHeader,
    block_size: u16,
    channels: &[Vec<i64>],
) -> Result<Vec<u8>, Error>
    requires { IsFile header.now block_size channels.now }
    ensures { MatchResult result
        (λ bytes. file_at bytes.items ≡ Ok (header.now, map (λ channel. channel.items) channels.now))
        (λ error. error ≡ OutOfMemory) }
{
    let info = stream_info_of(header, block_size, channels);
    let mut bytes = encode_info(alloc, &info, true)?;
    let frames = encode_blocks(alloc, header.sample_size, block_size, channels)?;
    bytes.extend_from_slice(frames.as_slice())?;
    Ok(bytes)
}

/// Encodes a file, and decodes what was encoded: the header and the samples again.
///
/// # Errors
///
/// An allocation failed.
pub fn file_round_trip(
    alloc: Global,
    header: &FileHeader,
    block_size: u16,
    channels: &[Vec<i64>],
) -> Result<File, FlacError>
    requires { IsFile header.now block_size channels.now }
    ensures { MatchResult result
        (λ file. (file.header ≡ header.now)
        × (map (λ channel. channel.items) file.channels.items ≡ map (λ channel. channel.items) channels.now))
        (λ error. error ≡ Reader OutOfMemory) }
{
    let bytes = encode_file(alloc, header, block_size, channels)?;
    let file = decode_file(alloc, bytes.as_slice())?;
    Ok(file)
}

/// Returns STREAMINFO of a file. The sizes of its frames are not known.
fn stream_info_of(header: &FileHeader, block_size: u16, channels: &[Vec<i64>]) -> StreamInfo
    requires { IsFile header.now block_size channels.now }
    ensures fits { Fits result }
    ensures header { file_header result ≡ header.now }
    ensures format { IsFormat header.now.sample_size (length channels.now) result }
    ensures count { result.total_samples ≡ count_of channels.now }
{
    bytes_fit(&header.checksum);
    StreamInfo {
        minimum_block_size: block_size,
        maximum_block_size: block_size,
        minimum_frame_size: 0,
        maximum_frame_size: 0,
        sample_rate: header.sample_rate,
        channels: non_zero(channels.len() as u8),
        bits_per_sample: non_zero(header.sample_size),
        total_samples: sample_count(channels) as u64,
        checksum: header.checksum,
    }
}

/// Returns a number that is not 0, as such.
fn non_zero(number: u8) -> NonZero<u8>
    requires { 1 ≤ number }
    ensures { non_zero_u8_get result ≡ number }
{
    match NonZero::<u8>::new(number) {
        Some(found) => found,
        None => NonZero::<u8>::MIN,
    }
}

/// Returns frames of all samples.
fn encode_blocks(
    alloc: Global,
    sample_size: u8,
    block_size: u16,
    channels: &[Vec<i64>],
) -> Result<Vec<u8>, Error>
    requires some { 4 ≤ sample_size }
    requires within { sample_size ≤ 32 }
    requires block { 16 ≤ block_size }
    requires one { 1 ≤ length channels.now }
    requires eight { length channels.now ≤ 8 }
    requires short { count_of channels.now < 2 ^ 36 }
    requires whole { All (λ channel. length channel.items ≡ count_of channels.now) channels.now }
    requires fit { All (λ channel. All (FitsSignedBits sample_size) channel.items) channels.now }
    ensures { MatchResult result
        (λ bytes. (info : StreamInfo) → IsFormat sample_size (length channels.now) info
        → channels_at info bytes.items ≡ Ok (map (λ channel. channel.items) channels.now))
        (λ error. error ≡ OutOfMemory) }
{
    let count = sample_count(channels);
    let mut bytes = Vec::new(alloc);
    let mut start = 0;
    let mut number = 0;
    while start < count {
        let size = block_of(block_size, count - start);
        let block = encode_block(alloc, sample_size, number, channels, start, size)?;
        bytes.extend_from_slice(block.as_slice())?;
        start += size;
        number += 1;
    }
    Ok(bytes)
}

/// Returns the number of samples of the next frame, if `rest` are left.
fn block_of(block_size: u16, rest: usize) -> usize
    requires block { 1 ≤ block_size }
    requires some { 1 ≤ rest }
    ensures some { 1 ≤ result }
    ensures few { result ≤ block_size }
    ensures within { result ≤ rest }
{
    if rest < block_size as usize {
        rest
    } else {
        block_size as usize
    }
}

/// Returns a frame of `size` samples of each channel, from `start` on.
fn encode_block(
    alloc: Global,
    sample_size: u8,
    number: u64,
    channels: &[Vec<i64>],
    start: usize,
    size: usize,
) -> Result<Vec<u8>, Error>
    requires some { 4 ≤ sample_size }
    requires within { sample_size ≤ 32 }
    requires number { number < 2 ^ 36 }
    requires one { 1 ≤ length channels.now }
    requires eight { length channels.now ≤ 8 }
    requires block { 1 ≤ size }
    requires short { size < 65536 }
    requires there { All (λ channel. start + size ≤ length channel.items) channels.now }
    requires fit { All (λ channel. All (FitsSignedBits sample_size) channel.items) channels.now }
    ensures { MatchResult result
        (λ bytes. IsBlock sample_size (length channels.now) bytes.items
        (map (λ channel. take size (drop start channel.items)) channels.now))
        (λ error. error ≡ OutOfMemory) }
{
    let block = parts_of(alloc, channels, start, size)?;
    let coding = best_channels(channels.len() as u8, block.as_slice());
    let header = FrameHeader {
        variable: false,
        block_size: size as u32,
        sample_rate: 0,
        channels: coding,
        sample_size: 0,
        number,
    };
    let bytes = encode_frame(alloc, sample_size, &header, block.as_slice())?;
    Ok(bytes)
}

/// Returns `size` samples of each channel, from `start` on.
fn parts_of(
    alloc: Global,
    channels: &[Vec<i64>],
    start: usize,
    size: usize,
) -> Result<Vec<Vec<i64>>, Error>
    requires { All (λ channel. start + size ≤ length channel.items) channels.now }
    ensures { MatchResult result
        (λ found. map (λ channel. channel.items) found.items
        ≡ map (λ channel. take size (drop start channel.items)) channels.now)
        (λ error. error ≡ OutOfMemory) }
{
    let mut parts = Vec::new(alloc);
    for channel in channels {
        let part = part_of(alloc, channel.as_slice(), start, size)?;
        parts.push(part)?;
    }
    Ok(parts)
}

/// Returns `size` samples, from `start` on.
fn part_of(alloc: Global, samples: &[i64], start: usize, size: usize) -> Result<Vec<i64>, Error>
    requires { start + size ≤ length samples.now }
    ensures { MatchResult result (λ found. found.items ≡ take size (drop start samples.now))
        (λ error. error ≡ OutOfMemory) }
{
    let mut part = Vec::new(alloc);
    part.extend_from_slice(&samples[start..start + size])?;
    Ok(part)
}
