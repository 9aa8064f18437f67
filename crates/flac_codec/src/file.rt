//! Files in memory (sections 6, 8 and 9), decoded.
ghost use Rattle.std.specs.Prelude.{◌≡◌, ◌≤◌, [], get_or, length, map, IfOk, MatchResult};
ghost use Rattle.std.specs.Int.NonZero.{non_zero_u8_get};
ghost use Rattle.bitstream_io.specs.Callers.{result_map, OutOfMemory};
ghost use Rattle.flac_codec.specs.Channels.{channel_count};
ghost use Rattle.flac_codec.specs.File.{block_at, blocks_at, channel_of, channels_at, checked_frame_at, channels_of, count_holds, file_at, file_header, frames_at, is_of_file, rate_of, sample_count};
ghost use Rattle.flac_codec.specs.Frame.{IsUnlessRefused, IsWhateverFollows};
ghost use Rattle.flac_codec.specs.declared.error.FlacError.TheVariants.{Reader};

use crate::error::FlacError;
use crate::fits::channel_count;
use crate::frame::{Frame, decode_frame, width_of};
use crate::header::FrameHeader;
use crate::metadata::{info_at, metadata_end};
use crate::stream_info::StreamInfo;
use std::alloc::Global;

/// The properties of all samples of a file.
#[derive(Clone, Copy, Debug, PartialEq)]
pub struct FileHeader {
    /// Samples a second, below 2^20.
    pub sample_rate: u32,
    /// The bits of a sample, 4 to 32.
    pub sample_size: u8,
    /// The MD5 of all samples, or zeros if it is not known. The codec does not compute it.
    pub checksum: [u8; 16],
}

/// A file that was decoded.
#[derive(Debug, Drop)]
pub struct File {
    /// The properties of all samples.
    pub header: FileHeader,
    /// The samples of each channel, left before right.
    pub channels: Vec<Vec<i64>>,
}

/// Decodes a file, which has all the bytes. Blocks of metadata after STREAMINFO are skipped. The MD5 of the samples is not
/// compared.
///
/// # Errors
///
/// `NoFlac` and `NoStreamInfo` for the start of the file, the errors of [`decode_frame`] for each frame, and then
/// `OtherChannels`, `OtherSampleSize` or `OtherSampleRate` for one that differs from STREAMINFO. `OtherSampleCount` at the
/// end of the file. If the bytes end first, it returns `Reader(EndOfInput)`, and if an allocation fails,
/// `Reader(OutOfMemory)`.
pub fn decode_file(alloc: Global, bytes: &[u8]) -> Result<File, FlacError>
    ensures { IsUnlessRefused (file_at bytes.now)
        (result_map (λ file. (file.header, map (λ channel. channel.items) file.channels.items)) result) }
{
    let start = info_at(bytes)?;
    let frames = metadata_end(start.last, &bytes[42..])?;
    decode_frames(alloc, &start.info, frames)
}

/// Decodes the part of a file after its metadata.
fn decode_frames(alloc: Global, info: &StreamInfo, bytes: &[u8]) -> Result<File, FlacError>
    ensures { IsUnlessRefused (frames_at info.now bytes.now)
        (result_map (λ file. (file.header, map (λ channel. channel.items) file.channels.items)) result) }
{
    let channels = decode_channels(alloc, info, bytes)?;
    check_count(info, channels.as_slice())?;
    Ok(File {
        header: file_header(info),
        channels,
    })
}

/// Returns what STREAMINFO says of all samples.
pub(crate) fn file_header(info: &StreamInfo) -> FileHeader
    ensures { result ≡ file_header info.now }
{
    FileHeader {
        sample_rate: info.sample_rate,
        sample_size: info.bits_per_sample.get(),
        checksum: info.checksum,
    }
}

/// Decodes the channels of frames up to the end.
fn decode_channels(
    alloc: Global,
    info: &StreamInfo,
    bytes: &[u8],
) -> Result<Vec<Vec<i64>>, FlacError>
    ensures { IsUnlessRefused (channels_at info.now bytes.now)
        (result_map (λ found. map (λ channel. channel.items) found.items) result) }
{
    let blocks = decode_blocks(alloc, info, bytes)?;
    join_channels(alloc, blocks.as_slice(), info.channels.get())
}

/// Decodes frames up to the end, and returns the channels of each.
fn decode_blocks(
    alloc: Global,
    info: &StreamInfo,
    bytes: &[u8],
) -> Result<Vec<Vec<Vec<i64>>>, FlacError>
    ensures { IsUnlessRefused (blocks_at (length bytes.now) info.now bytes.now [])
        (result_map (λ blocks. map (λ block. map (λ channel. channel.items) block.items) blocks.items) result) }
{
    let mut blocks = Vec::new(alloc);
    let mut rest = bytes;
    while !rest.is_empty() {
        let frame = decode_block(alloc, info, rest)?;
        blocks.push(frame.channels)?;
        rest = &rest[frame.size..];
    }
    Ok(blocks)
}

/// Decodes the frame at the start of bytes, and compares it with STREAMINFO.
pub(crate) fn decode_block(
    alloc: Global,
    info: &StreamInfo,
    bytes: &[u8],
) -> Result<Frame, FlacError>
    ensures found { IsUnlessRefused (block_at info.now bytes.now)
        (result_map (λ frame. (map (λ channel. channel.items) frame.channels.items, frame.size)) result) }
    ensures meant { IsUnlessRefused (checked_frame_at info.now bytes.now)
        (result_map (λ frame. ((frame.header, map (λ channel. channel.items) frame.channels.items), frame.size)) result) }
    ensures further { IsWhateverFollows (checked_frame_at info.now) bytes.now
        (result_map (λ frame. ((frame.header, map (λ channel. channel.items) frame.channels.items), frame.size)) result) }
    ensures some { IfOk result (λ frame. 1 ≤ frame.size) }
    ensures within { IfOk result (λ frame. frame.size ≤ length bytes.now) }
{
    let frame = decode_frame(alloc, info.bits_per_sample.get(), bytes)?;
    check_header(info, &frame.header)?;
    Ok(frame)
}

/// Compares the header of a frame with STREAMINFO.
fn check_header(info: &StreamInfo, header: &FrameHeader) -> Result<(), FlacError>
    ensures { result ≡ is_of_file info.now header.now }
{
    let channels = channel_count(header.channels);
    if channels != info.channels.get() {
        return Err(FlacError::OtherChannels(channels, info.channels.get()));
    }
    let sample_size = info.bits_per_sample.get();
    let width = width_of(sample_size, header);
    if width != sample_size {
        return Err(FlacError::OtherSampleSize(width, sample_size));
    }
    let rate = rate_of(info.sample_rate, header);
    if rate != info.sample_rate {
        return Err(FlacError::OtherSampleRate(rate, info.sample_rate));
    }
    Ok(())
}

/// Returns the sample rate of a frame. `sample_rate` is the rate of the file, for a header that leaves it to
/// STREAMINFO.
fn rate_of(sample_rate: u32, header: &FrameHeader) -> u32
    ensures { result ≡ rate_of sample_rate header.now }
{
    if header.sample_rate == 0 {
        sample_rate
    } else {
        header.sample_rate
    }
}

/// Returns the first `count` channels of frames, each of all frames.
pub(crate) fn join_channels(
    alloc: Global,
    blocks: &[Vec<Vec<i64>>],
    count: u8,
) -> Result<Vec<Vec<i64>>, FlacError>
    ensures { MatchResult result
        (λ found. map (λ channel. channel.items) found.items
        ≡ channels_of (map (λ block. map (λ channel. channel.items) block.items) blocks.now) count)
        (λ error. error ≡ Reader OutOfMemory) }
{
    let mut channels = Vec::new(alloc);
    for number in 0..count {
        let channel = join_channel(alloc, blocks, number as usize)?;
        channels.push(channel)?;
    }
    Ok(channels)
}

/// Returns the samples of a channel in all blocks.
fn join_channel(
    alloc: Global,
    blocks: &[Vec<Vec<i64>>],
    number: usize,
) -> Result<Vec<i64>, FlacError>
    ensures { MatchResult result
        (λ found. found.items ≡ channel_of (map (λ block. map (λ channel. channel.items) block.items) blocks.now) number)
        (λ error. error ≡ Reader OutOfMemory) }
{
    let mut samples = Vec::new(alloc);
    for block in blocks {
        samples.extend_from_slice(samples_of(block.as_slice(), number))?;
    }
    Ok(samples)
}

/// Returns the samples of a channel, or none if there is no such channel.
fn samples_of<'a>(channels: &'a [Vec<i64>], number: usize) -> &'a [i64]
    ensures { result.now ≡ get_or (map (λ channel. channel.items) channels.now) number [] }
{
    if number < channels.len() {
        channels[number].as_slice()
    } else {
        &[]
    }
}

/// Compares the number of samples with STREAMINFO, in which 0 means unknown.
fn check_count(info: &StreamInfo, channels: &[Vec<i64>]) -> Result<(), FlacError>
    ensures { result ≡ count_holds info.now (map (λ channel. channel.items) channels.now) }
{
    if info.total_samples == 0 {
        return Ok(());
    }
    let count = sample_count(channels) as u64;
    if count != info.total_samples {
        return Err(FlacError::OtherSampleCount(count, info.total_samples));
    }
    Ok(())
}

/// Returns the number of samples of the first channel.
pub(crate) fn sample_count(channels: &[Vec<i64>]) -> usize
    ensures { result ≡ sample_count (map (λ channel. channel.items) channels.now) }
{
    samples_of(channels, 0).len()
}
