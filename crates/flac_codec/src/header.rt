//! Reads the header of a frame (section 9.1).
ghost use Rattle.std.specs.Prelude.{◌≡◌, ◌<◌, IfOk};
ghost use Rattle.bitstream_io.specs.Callers.{ReadsOwn};
ghost use Rattle.flac_codec.specs.Errors.{becomes_flac};
ghost use Rattle.flac_codec.specs.Header.{block_size_decoder, channels_of, codes_decoder, header_decoder, numbers_decoder, sample_rate_decoder, sample_size_of};

use crate::coded::read_coded;
use crate::error::FlacError;
use bitstream_io::{BitRead, BitReadExt, Bits};

/// The coding of the channels of a frame.
#[derive(Clone, Copy, Debug, PartialEq, Eq)]
pub enum Channels {
    /// One to eight independent channels.
    Independent(u8),
    /// Two channels: the left one, and the difference of left and right, which has one more bit.
    LeftSide,
    /// Two channels: the difference of left and right, which has one more bit, and the right one.
    SideRight,
    /// Two channels: the mean of left and right, and their difference, which has one more bit.
    MidSide,
}

/// The header of a frame.
#[derive(Clone, Copy, Debug, PartialEq, Eq)]
pub struct FrameHeader {
    /// True if `number` is the number of the frame's first sample, and not of the frame.
    pub variable: bool,
    /// The number of samples of each channel, 1 to 65535.
    pub block_size: u32,
    /// The number of samples a second, or 0 if only STREAMINFO states it.
    pub sample_rate: u32,
    /// The coding of the channels.
    pub channels: Channels,
    /// The number of bits of a sample, 8 to 32, or 0 if only STREAMINFO states it.
    pub sample_size: u8,
    /// The number of the frame, or of its first sample.
    pub number: u64,
}

// The codes of a header, as they are read.
#[derive(Clone, Copy)]
pub(crate) struct Codes {
    pub(crate) variable: bool,
    pub(crate) block_size: u8,
    pub(crate) sample_rate: u8,
    pub(crate) channels: u8,
    pub(crate) sample_size: u8,
}

// The block sizes, sample rates and sample sizes by their codes.
pub(crate) const BLOCK_SIZES: [u32; 16] = [
    0, 192, 576, 1152, 2304, 4608, 0, 0, 256, 512, 1024, 2048, 4096, 8192, 16384, 32768,
];

pub(crate) const SAMPLE_RATES: [u32; 12] = [
    0, 88_200, 176_400, 192_000, 8_000, 16_000, 22_050, 24_000, 32_000, 44_100, 48_000, 96_000,
];

const SAMPLE_SIZES: [u8; 8] = [0, 8, 12, 0, 16, 20, 24, 32];

/// Reads a header, without its checksum.
///
/// # Errors
///
/// `NoSync` unless the first 15 bits are the sync code, and `ReservedBit` if the last of the first 32 bits is 1.
/// `ReservedChannels`, `ReservedSampleSize`, `ReservedBlockSize`, `ForbiddenBlockSize` and `ForbiddenSampleRate` for
/// codes that are reserved or forbidden. `NotCoded` and `LongCoded` for the number. The errors of the reader.
pub fn read_header<R: BitRead>(reader: &mut R) -> Result<FrameHeader, FlacError>
    ensures { ReadsOwn R.source becomes_flac (header_decoder R.source.order) reader.old result reader.new }
{
    let codes = read_codes(reader)?;
    let channels = channels_of(codes.channels)?;
    let sample_size = sample_size_of(codes.sample_size)?;
    read_numbers(reader, codes, channels, sample_size)
}

/// Reads the sync code and the codes.
fn read_codes<R: BitRead>(reader: &mut R) -> Result<Codes, FlacError>
    ensures reads { ReadsOwn R.source becomes_flac (codes_decoder R.source.order) reader.old result reader.new }
    ensures small { IfOk result (λ codes. (codes.block_size < 16) × (codes.sample_rate < 16) × (codes.sample_size < 8)) }
{
    let sync = reader.read::<Bits<15>, u16>()?;
    if sync != 0x7ffc {
        return Err(FlacError::NoSync);
    }
    let variable = reader.read_bit()?;
    let block_size = reader.read::<Bits<4>, u8>()?;
    let sample_rate = reader.read::<Bits<4>, u8>()?;
    let channels = reader.read::<Bits<4>, u8>()?;
    let sample_size = reader.read::<Bits<3>, u8>()?;
    let reserved = reader.read_bit()?;
    if reserved {
        return Err(FlacError::ReservedBit);
    }
    Ok(Codes {
        variable,
        block_size,
        sample_rate,
        channels,
        sample_size,
    })
}

/// Returns the coding of the channels that a code means.
fn channels_of(code: u8) -> Result<Channels, FlacError>
    ensures { result ≡ channels_of code }
{
    match code {
        0..=7 => Ok(Channels::Independent(code + 1)),
        8 => Ok(Channels::LeftSide),
        9 => Ok(Channels::SideRight),
        10 => Ok(Channels::MidSide),
        _ => Err(FlacError::ReservedChannels),
    }
}

/// Returns the sample size that a code means, in bits, or 0 if STREAMINFO states it.
fn sample_size_of(code: u8) -> Result<u8, FlacError>
    requires { code < 8 }
    ensures { result ≡ sample_size_of code }
{
    if code == 3 {
        return Err(FlacError::ReservedSampleSize);
    }
    Ok(SAMPLE_SIZES[code as usize])
}

/// Reads the numbers after the codes.
fn read_numbers<R: BitRead>(
    reader: &mut R,
    codes: Codes,
    channels: Channels,
    sample_size: u8,
) -> Result<FrameHeader, FlacError>
    requires block { codes.block_size < 16 }
    requires rate { codes.sample_rate < 16 }
    ensures { ReadsOwn R.source becomes_flac (numbers_decoder R.source.order codes channels sample_size)
        reader.old result reader.new }
{
    let number = read_coded(reader)?;
    let block_size = read_block_size(reader, codes.block_size)?;
    let sample_rate = read_sample_rate(reader, codes.sample_rate)?;
    Ok(FrameHeader {
        variable: codes.variable,
        block_size,
        sample_rate,
        channels,
        sample_size,
        number,
    })
}

/// Returns the block size that a code means. Reads it if the code is 6 or 7.
fn read_block_size<R: BitRead>(reader: &mut R, code: u8) -> Result<u32, FlacError>
    requires { code < 16 }
    ensures { ReadsOwn R.source becomes_flac (block_size_decoder R.source.order code) reader.old result reader.new }
{
    if code == 0 {
        return Err(FlacError::ReservedBlockSize);
    }
    if code == 6 {
        return Ok(reader.read::<Bits<8>, u32>()? + 1);
    }
    if code == 7 {
        let less = reader.read::<Bits<16>, u32>()?;
        if less == 65535 {
            return Err(FlacError::ForbiddenBlockSize);
        }
        return Ok(less + 1);
    }
    Ok(BLOCK_SIZES[code as usize])
}

/// Returns the sample rate that a code means. Reads it if the code is 12, 13 or 14.
fn read_sample_rate<R: BitRead>(reader: &mut R, code: u8) -> Result<u32, FlacError>
    requires { code < 16 }
    ensures { ReadsOwn R.source becomes_flac (sample_rate_decoder R.source.order code) reader.old result reader.new }
{
    if code == 12 {
        return Ok(reader.read::<Bits<8>, u32>()? * 1000);
    }
    if code == 13 {
        return Ok(reader.read::<Bits<16>, u32>()?);
    }
    if code == 14 {
        return Ok(reader.read::<Bits<16>, u32>()? * 10);
    }
    if code == 15 {
        return Err(FlacError::ForbiddenSampleRate);
    }
    Ok(SAMPLE_RATES[code as usize])
}
