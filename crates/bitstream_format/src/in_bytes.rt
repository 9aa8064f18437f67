//! Numbers of whole bytes in a byte order of their own, such as a little-endian number in a big-endian format.
//! Code printed by `./format` calls these functions.
ghost use Rattle.bitstream_format.specs.InBytes.{in_bytes_decoder, in_bytes_word, signed_in_bytes_decoder, signed_in_bytes_word};
ghost use Rattle.std.specs.Prelude.{◌∷◌, []};
ghost use Rattle.bitstream_io.specs.Callers.{Reads, WritesAll, result_map};

use bitstream_io::{
    BitRead, BitReadExt, BitWrite, BitWriteExt, Endianness, Error, Numeric, SignedInteger,
    UnsignedInteger,
};

/// Reads an unsigned number from its bytes, in the byte order F. The bits of each byte are read in the reader's
/// order.
///
/// # Errors
///
/// The errors of the reader, after which it has failed.
pub fn read_in_bytes<F: Endianness, U: UnsignedInteger, R: BitRead>(
    reader: &mut R,
) -> Result<U, Error>
    ensures { Reads R.source (in_bytes_decoder R.source.order F.order U.BYTES)
        reader.old (result_map U.value result) reader.new }
{
    let number = reader.read_as_to::<F, U>()?;
    number.known();
    Ok(number)
}

/// Reads a signed number from its bytes, in the byte order F. The bits of each byte are read in the reader's order.
///
/// # Errors
///
/// The errors of the reader, after which it has failed.
pub fn read_signed_in_bytes<F: Endianness, S: SignedInteger, R: BitRead>(
    reader: &mut R,
) -> Result<S, Error>
    ensures { Reads R.source (signed_in_bytes_decoder R.source.order F.order S.BYTES)
        reader.old (result_map S.integer result) reader.new }
{
    let number = reader.read_as_to::<F, S>()?;
    number.known();
    Ok(number)
}

/// Writes the bytes of an unsigned number, in the byte order F. The bits of each byte are written in the sink's
/// order.
///
/// # Errors
///
/// The errors of the sink. The bits before the error stay written.
pub fn write_in_bytes<F: Endianness, U: UnsignedInteger, W: BitWrite>(
    writer: &mut W,
    number: U,
) -> Result<(), Error>
    ensures { WritesAll W.sink (in_bytes_word W.sink.order F.order U.BYTES (U.value number) ∷ [])
        writer.old result writer.new }
{
    number.known();
    writer.write_as_from::<F, U>(number)
}

/// Writes the bytes of a signed number, in the byte order F. The bits of each byte are written in the sink's order.
///
/// # Errors
///
/// The errors of the sink. The bits before the error stay written.
pub fn write_signed_in_bytes<F: Endianness, S: SignedInteger, W: BitWrite>(
    writer: &mut W,
    number: S,
) -> Result<(), Error>
    ensures { WritesAll W.sink (signed_in_bytes_word W.sink.order F.order S.BYTES (S.integer number) ∷ [])
        writer.old result writer.new }
{
    number.known();
    writer.write_as_from::<F, S>(number)
}

/// Writes the lowest 16 bits of a number as two bytes, in the byte order F. The bits of each byte are written in the
/// sink's order.
///
/// # Errors
///
/// The errors of the sink. The bits before the error stay written.
pub fn write_two_bytes<F: Endianness, W: BitWrite>(writer: &mut W, number: u64) -> Result<(), Error>
    ensures { WritesAll W.sink (in_bytes_word W.sink.order F.order 2 number ∷ []) writer.old result writer.new }
{
    let low = number % 65536;
    write_in_bytes::<F, u16, W>(writer, low as u16)
}

/// Writes the lowest 32 bits of a number as four bytes, in the byte order F. The bits of each byte are written in the
/// sink's order.
///
/// # Errors
///
/// The errors of the sink. The bits before the error stay written.
pub fn write_four_bytes<F: Endianness, W: BitWrite>(
    writer: &mut W,
    number: u64,
) -> Result<(), Error>
    ensures { WritesAll W.sink (in_bytes_word W.sink.order F.order 4 number ∷ []) writer.old result writer.new }
{
    let low = number % 4294967296;
    write_in_bytes::<F, u32, W>(writer, low as u32)
}
