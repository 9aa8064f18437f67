//! Numbers of up to 36 bits that are coded as UTF-8 encodes characters (section 9.1.5).
ghost use Rattle.std.specs.Prelude.{◌≡◌, ◌++◌, ◌+◌, ◌*◌, ◌<◌, ◌≤◌, ◌^◌, ℕ, Bool, List, Ok, length};
ghost use Rattle.bitstream_io.specs.Callers.{Order, ReadsOwn, WritesAll, Done, write_sequence};
ghost use Rattle.flac_codec.specs.Coded.{bytes_needed, coded_decoder, coded_writes, least_of, rest_decoder, rest_writes, shortest};
ghost use Rattle.flac_codec.specs.Errors.{becomes_flac};

use crate::error::FlacError;
use bitstream_io::{BitRead, BitReadExt, BitWrite, BitWriteExt, Bits, Error};

/// Reads a coded number, below 2^36.
///
/// # Errors
///
/// `NotCoded` for a first byte 0b10.., for a later byte that does not begin with 0b10, and for a
/// run of more than 7 ones: the run is read up to its 0, also after the first byte, so a first byte
/// 0xff returns `EndOfInput` if no 0 comes. `LongCoded` for a number that fewer bytes can code. Else
/// the errors of the reader. The faulty bits are consumed.
pub fn read_coded<R: BitRead>(reader: &mut R) -> Result<u64, FlacError>
    ensures { ReadsOwn R.source becomes_flac (coded_decoder R.source.order) reader.old result reader.new }
{
    let ones = reader.read_unary::<Bits<0>>()?;
    if ones == 0 {
        let number = reader.read::<Bits<7>, u64>()?;
        return Ok(number);
    }
    if ones == 1 {
        return Err(FlacError::NotCoded);
    }
    if ones > 7 {
        return Err(FlacError::NotCoded);
    }
    let first: u64 = reader.read_var(7 - ones)?;
    read_rest(reader, least_of(ones), ones - 1, first)
}

/// Returns the least number that needs `bytes` bytes.
fn least_of(bytes: u32) -> u64
    requires two { 2 ≤ bytes }
    requires seven { bytes ≤ 7 }
    ensures { result ≡ least_of bytes }
{
    if bytes == 2 {
        1 << 7
    } else {
        1 << (5 * bytes - 4)
    }
}

/// Returns the number, or `LongCoded` if fewer bytes can code it.
fn shortest(least: u64, number: u64) -> Result<u64, FlacError>
    ensures { result ≡ shortest least number }
{
    if number < least {
        return Err(FlacError::LongCoded);
    }
    Ok(number)
}

/// Reads the bytes that follow the bits of `number`. Each adds six bits.
fn read_rest<R: BitRead>(
    reader: &mut R,
    least: u64,
    bytes: u32,
    number: u64,
) -> Result<u64, FlacError>
    requires { (number + 1) * 64 ^ bytes ≤ 2 ^ 42 }
    ensures { ReadsOwn R.source becomes_flac (rest_decoder R.source.order least bytes number)
        reader.old result reader.new }
{
    if bytes == 0 {
        return shortest(least, number);
    }
    reader.read_const::<Bits<2>, Bits<2>, FlacError>(FlacError::NotCoded)?;
    let six = reader.read::<Bits<6>, u64>()?;
    read_rest(reader, least, bytes - 1, 64 * number + six)
}

/// Writes a number in as few bytes as it needs.
///
/// # Errors
///
/// Returns the errors of the writer.
pub(crate) fn write_coded<W: BitWrite>(writer: &mut W, number: u64) -> Result<(), Error>
    requires { number < 2 ^ 36 }
    ensures { WritesAll W.sink (coded_writes W.sink.order number) writer.old result writer.new }
{
    if number < 0x80 {
        writer.write_unary::<Bits<0>>(0)?;
        return writer.write::<Bits<7>, u64>(number);
    }
    let bytes = bytes_needed(number);
    writer.write_unary::<Bits<0>>(bytes)?;
    writer.write_var(7 - bytes, number >> (6 * (bytes - 1)))?;
    write_rest(writer, bytes - 1, number)
}

/// Returns the number of bytes that a number from 2^7 on needs.
fn bytes_needed(number: u64) -> u32
    ensures { result ≡ bytes_needed number }
{
    if number < 0x800 {
        2
    } else if number < 0x1_0000 {
        3
    } else if number < 0x20_0000 {
        4
    } else if number < 0x400_0000 {
        5
    } else if number < 0x8000_0000 {
        6
    } else {
        7
    }
}

/// Writes the last bytes of a number: six bits each.
fn write_rest<W: BitWrite>(writer: &mut W, bytes: u32, number: u64) -> Result<(), Error>
    requires { bytes < 7 }
    ensures { WritesAll W.sink (rest_writes W.sink.order bytes number) writer.old result writer.new }
{
    if bytes == 0 {
        return Ok(());
    }
    writer.write_const::<Bits<2>, Bits<2>>()?;
    writer.write::<Bits<6>, u64>((number >> (6 * (bytes - 1))) % 64)?;
    write_rest(writer, bytes - 1, number)
}

/// A coded number is read back as it was written, in either order of bits, at any place.
pub fn coded_numbers_round_trip()
    ensures { (o : Order) (number at from : ℕ) (more : List Bool) → number < 2 ^ 36
        → let word = write_sequence (coded_writes o number) at in
        (coded_decoder o).reads from (word ++ more) ≡ Done (length word) (Ok (Ok number)) }
{}
