//! Writes the header of a frame (section 9.1).
ghost use Rattle.std.specs.Prelude.{◌≡◌, ◌<◌, ◌≤◌, Ok};
ghost use Rattle.bitstream_io.specs.Callers.{WritesAll};
ghost use Rattle.flac_codec.specs.Header.{block_size_writes, channels_of, codes_writes, header_decoder, header_writes, sample_rate_writes, sample_size_of, AreCodes, IsBlockSizeCode, IsChannels, IsHeader, IsSampleRate, IsSampleRateCode, IsSampleSize};
ghost use Rattle.flac_codec.specs.Subframe.{WritesValue};

use crate::coded::write_coded;
use crate::header::{BLOCK_SIZES, Channels, Codes, FrameHeader, SAMPLE_RATES};
use bitstream_io::{BitWrite, BitWriteExt, Bits, Error};

/// Writes a header, without its checksum.
///
/// # Errors
///
/// Returns the errors of the writer.
pub fn write_header<W: BitWrite>(writer: &mut W, header: &FrameHeader) -> Result<(), Error>
    requires { IsHeader header.now }
    ensures { WritesValue W.sink (header_decoder W.sink.order) header.now writer.old result writer.new }
{
    let codes = codes_of(header);
    write_coded_header(writer, codes, header)
}

/// Returns the codes for a header: where possible, codes that no number follows.
fn codes_of(header: &FrameHeader) -> Codes
    requires { IsHeader header.now }
    ensures { AreCodes header.now result }
{
    Codes {
        variable: header.variable,
        block_size: block_size_code(header.block_size),
        sample_rate: sample_rate_code(header.sample_rate),
        channels: channels_code(header.channels),
        sample_size: sample_size_code(header.sample_size),
    }
}

/// Returns a code for a block size.
fn block_size_code(size: u32) -> u8
    ensures { IsBlockSizeCode size result }
{
    for code in 0..16u8 {
        if BLOCK_SIZES[code as usize] == size {
            return code;
        }
    }
    if size <= 256 { 6 } else { 7 }
}

/// Returns a code for a sample rate.
fn sample_rate_code(rate: u32) -> u8
    requires { IsSampleRate rate }
    ensures { IsSampleRateCode rate result }
{
    for code in 0..12u8 {
        if SAMPLE_RATES[code as usize] == rate {
            return code;
        }
    }
    if rate % 1000 == 0 && rate < 256_000 {
        return 12;
    }
    if rate < 65536 { 13 } else { 14 }
}

/// Returns the code for a coding of the channels.
fn channels_code(channels: Channels) -> u8
    requires { IsChannels channels }
    ensures code { channels_of result ≡ Ok channels }
    ensures few { result < 16 }
{
    match channels {
        Channels::Independent(count) => count - 1,
        Channels::LeftSide => 8,
        Channels::SideRight => 9,
        Channels::MidSide => 10,
    }
}

/// Returns the code for a sample size.
fn sample_size_code(size: u8) -> u8
    requires { IsSampleSize size }
    ensures code { sample_size_of result ≡ Ok size }
    ensures small { result < 8 }
{
    match size {
        8 => 1,
        12 => 2,
        16 => 4,
        20 => 5,
        24 => 6,
        32 => 7,
        _ => 0,
    }
}

/// Writes a header with these codes.
fn write_coded_header<W: BitWrite>(
    writer: &mut W,
    codes: Codes,
    header: &FrameHeader,
) -> Result<(), Error>
    requires fits { IsHeader header.now }
    requires coded { AreCodes header.now codes }
    ensures { WritesValue W.sink (header_decoder W.sink.order) header.now writer.old result writer.new }
{
    write_parts(writer, codes, header)
}

/// Writes the parts of a header in order.
fn write_parts<W: BitWrite>(writer: &mut W, codes: Codes, header: &FrameHeader) -> Result<(), Error>
    requires { IsHeader header.now }
    ensures { WritesAll W.sink (header_writes W.sink.order codes header.now) writer.old result writer.new }
{
    write_codes(writer, codes)?;
    write_coded(writer, header.number)?;
    write_block_size(writer, codes.block_size, header.block_size)?;
    write_sample_rate(writer, codes.sample_rate, header.sample_rate)
}

/// Writes the sync code and the codes.
fn write_codes<W: BitWrite>(writer: &mut W, codes: Codes) -> Result<(), Error>
    ensures { WritesAll W.sink (codes_writes W.sink.order codes) writer.old result writer.new }
{
    writer.write::<Bits<15>, u16>(0x7ffc)?;
    writer.write_bit(codes.variable)?;
    writer.write::<Bits<4>, u8>(codes.block_size)?;
    writer.write::<Bits<4>, u8>(codes.sample_rate)?;
    writer.write::<Bits<4>, u8>(codes.channels)?;
    writer.write::<Bits<3>, u8>(codes.sample_size)?;
    writer.write_bit(false)
}

/// Writes a block size if its code says that it follows.
fn write_block_size<W: BitWrite>(writer: &mut W, code: u8, size: u32) -> Result<(), Error>
    requires { 1 ≤ size }
    ensures { WritesAll W.sink (block_size_writes W.sink.order code size) writer.old result writer.new }
{
    if code == 6 {
        return writer.write::<Bits<8>, u32>(size - 1);
    }
    if code == 7 {
        return writer.write::<Bits<16>, u32>(size - 1);
    }
    Ok(())
}

/// Writes a sample rate if its code says that it follows.
fn write_sample_rate<W: BitWrite>(writer: &mut W, code: u8, rate: u32) -> Result<(), Error>
    ensures { WritesAll W.sink (sample_rate_writes W.sink.order code rate) writer.old result writer.new }
{
    if code == 12 {
        return writer.write::<Bits<8>, u32>(rate / 1000);
    }
    if code == 13 {
        return writer.write::<Bits<16>, u32>(rate);
    }
    if code == 14 {
        return writer.write::<Bits<16>, u32>(rate / 10);
    }
    Ok(())
}
