//! Numbers of variable length, as in QUIC (RFC 9000, section 16).
//!
//! A number below 2^62 is written as two bits that state its length, and then as 6, 14, 30 or 62 bits: the
//! fewest that hold it. A read accepts more bits than needed.
ghost use Rattle.bitstream_format.specs.Varint.{varint_decoder, varint_length, varint_width, varint_writes};
ghost use Rattle.std.specs.Prelude.{◌≡◌, ◌++◌, ◌<◌, ◌^◌, ℕ, Bool, List, Ok, length};
ghost use Rattle.bitstream_io.specs.Callers.{Done, Order, Reads, WritesAll, write_sequence};

use bitstream_io::{BitRead, BitReadExt, BitWrite, BitWriteExt, Bits, Error};

/// Returns the number of bits after the first two bits. `length` is the number that the first two bits encode.
fn varint_width(length: u32) -> u32
    ensures { result ≡ varint_width length }
{
    match length {
        0 => 6,
        1 => 14,
        2 => 30,
        _ => 62,
    }
}

/// Returns the number that the first two bits encode before a number.
fn varint_length(value: u64) -> u32
    ensures { result ≡ varint_length value }
{
    if value < 64 {
        0
    } else if value < 16384 {
        1
    } else if value < 1073741824 {
        2
    } else {
        3
    }
}

/// Reads a number of 1, 2, 4 or 8 bytes.
///
/// # Errors
///
/// The errors of the reader, after which it has failed.
///
/// # Examples
///
/// The numbers of RFC 9000, A.1:
///
/// ```
/// use bitstream_format::varint::read_varint;
/// use bitstream_io::{BE, BitReader};
///
/// let mut reader = BitReader::<_, BE>::over(&[0x9d, 0x7f, 0x3e, 0x7d, 0x7b, 0xbd, 0x25, 0x40, 0x25]);
/// assert_eq!(rt; read_varint(&mut reader)?, 494_878_333);
/// assert_eq!(rt; read_varint(&mut reader)?, 15_293);
/// assert_eq!(rt; read_varint(&mut reader)?, 37);
/// assert_eq!(rt; read_varint(&mut reader)?, 37);
/// ```
pub fn read_varint<R: BitRead>(reader: &mut R) -> Result<u64, Error>
    ensures { Reads R.source (varint_decoder R.source.order) reader.old result reader.new }
{
    let length = reader.read::<Bits<2>, u32>()?;
    reader.read_var(varint_width(length))
}

/// Writes a number in 1, 2, 4 or 8 bytes: the fewest that hold it.
///
/// # Errors
///
/// `Checked` for 2^62 or more. If so, nothing is written. Otherwise, the errors of the sink.
pub fn write_varint<W: BitWrite>(writer: &mut W, value: u64) -> Result<(), Error>
    ensures { WritesAll W.sink (varint_writes W.sink.order value) writer.old result writer.new }
{
    if 4611686018427387904 <= value {
        return writer.write_unsigned_var(62, value);
    }
    let length = varint_length(value);
    writer.write_unsigned_var(2, length)?;
    writer.write_unsigned_var(varint_width(length), value)
}

/// A number is read back as it was written, in either order of bits, at any position.
pub fn varint_round_trip()
    ensures { (o : Order) (value at from : ℕ) (more : List Bool) → value < 2 ^ 62
        → let word = write_sequence (varint_writes o value) at in
        (varint_decoder o).reads from (word ++ more) ≡ Done (length word) (Ok value) }
{}
