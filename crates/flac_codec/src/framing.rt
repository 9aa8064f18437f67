//! Encodes frames in memory (section 9).
ghost use Rattle.std.specs.Prelude.{◌≡◌, ◌≤◌, length, map, MatchResult};
ghost use Rattle.std.specs.List.{All};
ghost use Rattle.bitstream_io.specs.Callers.{FitsSignedBits, High, OutOfMemory};
ghost use Rattle.flac_codec.specs.Channels.{channel_count, channels_decoder};
ghost use Rattle.flac_codec.specs.Frame.{found, frame_at, header_at, width_of, IsFoundIn};
ghost use Rattle.flac_codec.specs.declared.error.FlacError.TheVariants.{Reader};
ghost use Rattle.flac_codec.specs.Header.{header_decoder, IsHeader};

use crate::channel_writing::write_channels;
use crate::checksum::{crc8, crc16};
use crate::error::FlacError;
use crate::frame::{Frame, decode_frame, width_of};
use crate::header::{Channels, FrameHeader};
use crate::heading::write_header;
use bitstream_io::{BE, BitWrite, BitWriter, Error, Growing};
use std::alloc::Global;

/// Returns a frame of these channels, left before right. `sample_size` is the number of bits of a sample in the file, for
/// a header that leaves it to STREAMINFO.
///
/// # Errors
///
/// An allocation failed.
pub fn encode_frame(
    alloc: Global,
    sample_size: u8,
    header: &FrameHeader,
    channels: &[Vec<i64>],
) -> Result<Vec<u8>, Error>
    requires valid { IsHeader header.now }
    requires some { 1 ≤ width_of sample_size header.now }
    requires within { width_of sample_size header.now ≤ 32 }
    requires count { length channels.now ≡ channel_count header.now.channels }
    requires whole { All (λ channel. length channel.items ≡ header.now.block_size) channels.now }
    requires fit { All (λ channel. All (FitsSignedBits (width_of sample_size header.now)) channel.items) channels.now }
    ensures { MatchResult result
        (λ bytes. IsFoundIn (frame_at sample_size) bytes.items (header.now, map (λ channel. channel.items) channels.now))
        (λ error. error ≡ OutOfMemory) }
{
    let width = width_of(sample_size, header);
    let mut bytes = encode_header(alloc, header)?;
    let body = encode_channels(alloc, header.channels, width, channels, header.block_size)?;
    bytes.extend_from_slice(body.as_slice())?;
    let checksum = crc16(bytes.as_slice());
    bytes.push((checksum >> 8) as u8)?;
    bytes.push((checksum & 0xff) as u8)?;
    Ok(bytes)
}

/// Encodes a frame, and decodes what was encoded: the header and the samples again.
///
/// # Errors
///
/// An allocation failed.
pub fn frame_round_trip(
    alloc: Global,
    sample_size: u8,
    header: &FrameHeader,
    channels: &[Vec<i64>],
) -> Result<Frame, FlacError>
    requires valid { IsHeader header.now }
    requires some { 1 ≤ width_of sample_size header.now }
    requires within { width_of sample_size header.now ≤ 32 }
    requires count { length channels.now ≡ channel_count header.now.channels }
    requires whole { All (λ channel. length channel.items ≡ header.now.block_size) channels.now }
    requires fit { All (λ channel. All (FitsSignedBits (width_of sample_size header.now)) channel.items) channels.now }
    ensures { MatchResult result
        (λ frame. (frame.header ≡ header.now)
        × (map (λ channel. channel.items) frame.channels.items ≡ map (λ channel. channel.items) channels.now))
        (λ error. error ≡ Reader OutOfMemory) }
{
    let bytes = encode_frame(alloc, sample_size, header, channels)?;
    let frame = decode_frame(alloc, sample_size, bytes.as_slice())?;
    Ok(frame)
}

/// Returns a header and its checksum.
fn encode_header(alloc: Global, header: &FrameHeader) -> Result<Vec<u8>, Error>
    requires { IsHeader header.now }
    ensures { MatchResult result (λ bytes. IsFoundIn header_at bytes.items header.now) (λ error. error ≡ OutOfMemory) }
{
    let mut bytes = header_bytes(alloc, header)?;
    let checksum = crc8(bytes.as_slice());
    bytes.push(checksum)?;
    Ok(bytes)
}

/// Returns a header without its checksum.
fn header_bytes(alloc: Global, header: &FrameHeader) -> Result<Vec<u8>, Error>
    requires { IsHeader header.now }
    ensures { MatchResult result (λ bytes. IsFoundIn (found (header_decoder High)) bytes.items header.now)
        (λ error. error ≡ OutOfMemory) }
{
    let mut writer = BitWriter::<_, BE>::new(Growing::new(Vec::new(alloc)));
    write_header(&mut writer, header)?;
    writer.byte_align()?;
    Ok(writer.into_writer().into_vec())
}

/// Returns channels, up to a whole byte.
fn encode_channels(
    alloc: Global,
    channels: Channels,
    width: u8,
    samples: &[Vec<i64>],
    block_size: u32,
) -> Result<Vec<u8>, Error>
    requires some { 1 ≤ width }
    requires within { width ≤ 32 }
    requires count { length samples.now ≡ channel_count channels }
    requires whole { All (λ channel. length channel.items ≡ block_size) samples.now }
    requires fit { All (λ channel. All (FitsSignedBits width) channel.items) samples.now }
    ensures { MatchResult result
        (λ bytes. IsFoundIn (found (channels_decoder High channels width block_size)) bytes.items
        (map (λ channel. channel.items) samples.now))
        (λ error. error ≡ OutOfMemory) }
{
    let mut writer = BitWriter::<_, BE>::new(Growing::new(Vec::new(alloc)));
    write_channels(&mut writer, alloc, channels, width, samples, block_size)?;
    writer.byte_align()?;
    Ok(writer.into_writer().into_vec())
}
