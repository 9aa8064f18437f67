//! Decodes frames in memory (section 9).
ghost use Rattle.std.specs.Prelude.{◌≡◌, ◌≤◌, map, length, IfOk};
ghost use Rattle.bitstream_io.specs.Callers.{result_map, High};
ghost use Rattle.flac_codec.specs.Channels.{channels_decoder};
ghost use Rattle.flac_codec.specs.Frame.{crc16_holds, crc8_holds, found, frame_at, header_at, width_of, IsUnlessRefused, IsWhateverFollows};
ghost use Rattle.flac_codec.specs.Header.{header_decoder};

use crate::channels::read_channels;
use crate::checksum::{crc8, crc16};
use crate::error::FlacError;
use crate::header::{FrameHeader, read_header};
use bitstream_io::{BE, Error, SliceReader};
use std::alloc::Global;

/// A frame that was decoded.
#[derive(Debug, Drop)]
pub struct Frame {
    /// The header.
    pub header: FrameHeader,
    /// The samples of each channel, left before right.
    pub channels: Vec<Vec<i64>>,
    /// The number of bytes of the frame.
    pub size: usize,
}

// A header at the start of bytes, and how many of them it has.
#[derive(Drop)]
struct HeaderAt {
    header: FrameHeader,
    size: usize,
}

// Channels at the start of bytes, and how many of them they have.
#[derive(Drop)]
struct ChannelsAt {
    channels: Vec<Vec<i64>>,
    size: usize,
}

/// Decodes the frame at the start of bytes. `sample_size` is the number of bits of a sample in the file, for a header that
/// leaves it to STREAMINFO.
///
/// # Errors
///
/// Returns the first error in this order: an error of [`read_header`], `HeaderChecksum`, an error of [`read_channels`],
/// `FrameChecksum`. If the bytes end first, it returns `Reader(EndOfInput)`, and if an allocation fails,
/// `Reader(OutOfMemory)`.
pub fn decode_frame(alloc: Global, sample_size: u8, bytes: &[u8]) -> Result<Frame, FlacError>
    ensures found { IsUnlessRefused (frame_at sample_size bytes.now)
        (result_map (λ frame. ((frame.header, map (λ channel. channel.items) frame.channels.items), frame.size)) result) }
    ensures further { IsWhateverFollows (frame_at sample_size) bytes.now
        (result_map (λ frame. ((frame.header, map (λ channel. channel.items) frame.channels.items), frame.size)) result) }
{
    let start = header_at(bytes)?;
    let width = width_of(sample_size, &start.header);
    let body = find_channels(alloc, &start.header, width, &bytes[start.size..])?;
    let size = start.size + body.size;
    check_crc16(bytes, size)?;
    Ok(Frame {
        header: start.header,
        channels: body.channels,
        size: size + 2,
    })
}

/// Decodes the header at the start of bytes, and compares its checksum.
fn header_at(bytes: &[u8]) -> Result<HeaderAt, FlacError>
    ensures found { result_map (λ start. (start.header, start.size)) result ≡ header_at bytes.now }
    ensures further { IsWhateverFollows header_at bytes.now (result_map (λ start. (start.header, start.size)) result) }
    ensures within { IfOk result (λ start. start.size ≤ length bytes.now) }
{
    let start = find_header(bytes)?;
    check_crc8(bytes, start.size)?;
    Ok(HeaderAt {
        header: start.header,
        size: start.size + 1,
    })
}

/// Reads the header at the start of bytes.
fn find_header(bytes: &[u8]) -> Result<HeaderAt, FlacError>
    ensures found { result_map (λ start. (start.header, start.size)) result ≡ found (header_decoder High) bytes.now }
    ensures further { IsWhateverFollows (found (header_decoder High)) bytes.now
        (result_map (λ start. (start.header, start.size)) result) }
    ensures within { IfOk result (λ start. start.size ≤ length bytes.now) }
{
    let mut reader = SliceReader::<BE>::over(bytes);
    let header = read_header(&mut reader)?;
    Ok(HeaderAt {
        header,
        size: bytes.len() - reader.rest().len(),
    })
}

/// Returns the number of bits of a frame's samples. `sample_size` is their number in the file, for a header that leaves
/// it to STREAMINFO.
pub(crate) fn width_of(sample_size: u8, header: &FrameHeader) -> u8
    ensures { result ≡ width_of sample_size header.now }
{
    if header.sample_size == 0 {
        sample_size
    } else {
        header.sample_size
    }
}

/// Reads the channels at the start of bytes.
fn find_channels(
    alloc: Global,
    header: &FrameHeader,
    width: u8,
    bytes: &[u8],
) -> Result<ChannelsAt, FlacError>
    ensures found { IsUnlessRefused
        (found (channels_decoder High header.now.channels width header.now.block_size) bytes.now)
        (result_map (λ body. (map (λ channel. channel.items) body.channels.items, body.size)) result) }
    ensures further { IsWhateverFollows (found (channels_decoder High header.now.channels width header.now.block_size)) bytes.now
        (result_map (λ body. (map (λ channel. channel.items) body.channels.items, body.size)) result) }
    ensures within { IfOk result (λ body. body.size ≤ length bytes.now) }
{
    let mut reader = SliceReader::<BE>::over(bytes);
    let channels = read_channels(
        &mut reader,
        alloc,
        header.channels,
        width,
        header.block_size,
    )?;
    Ok(ChannelsAt {
        channels,
        size: bytes.len() - reader.rest().len(),
    })
}

/// Compares the byte after the first `size` bytes with their CRC-8.
fn check_crc8(bytes: &[u8], size: usize) -> Result<(), FlacError>
    ensures { result ≡ crc8_holds bytes.now size }
{
    if size >= bytes.len() {
        return Err(FlacError::Reader(Error::EndOfInput));
    }
    if crc8(&bytes[..size]) != bytes[size] {
        return Err(FlacError::HeaderChecksum);
    }
    Ok(())
}

/// Compares the two bytes after the first `size` bytes with their CRC-16.
fn check_crc16(bytes: &[u8], size: usize) -> Result<(), FlacError>
    requires { size ≤ length bytes.now }
    ensures { result ≡ crc16_holds bytes.now size }
{
    if bytes.len() - size < 2 {
        return Err(FlacError::Reader(Error::EndOfInput));
    }
    let checksum = 256 * bytes[size] as u16 + bytes[size + 1] as u16;
    if crc16(&bytes[..size]) != checksum {
        return Err(FlacError::FrameChecksum);
    }
    Ok(())
}
