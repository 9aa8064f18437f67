//! Exponential Golomb numbers, as in the parameter sets of H.264 and H.265.
//!
//! A number below 2^32 - 1 is written as n zeros, a one, and n more bits. The one and the bits after it are the
//! number plus 1. A signed number is written as its index in the order 0, 1, -1, 2, -2, and so on.
ghost use Rattle.std.specs.Prelude.{◌≡◌, ◌++◌, ◌^◌, ◌<◌, ◌-◌, ℕ, ℤ, Bool, List, Ok, IfOk, length, unsigned_abs};
ghost use Rattle.bitstream_io.specs.Callers.{Done, Reads, write_sequence, WritesAll, Order};
ghost use Rattle.bitstream_io.specs.Golomb.{se_decoder, se_writes, ue_decoder, ue_writes};

use crate::error::Error;
use crate::number::Bits;
use crate::read::{BitRead, BitReadExt};
use crate::write::{BitWrite, BitWriteExt};

/// Reads an unsigned number, `ue(v)`.
///
/// # Errors
///
/// `VariableWidthOverflow` for more than 31 leading zeros. The zeros and the one after them have
/// been read, and the reader continues after them. Otherwise, the errors of the reader.
///
/// # Examples
///
/// ```
/// use bitstream_io::golomb::{read_se, read_ue};
/// use bitstream_io::{BE, BitReader};
///
/// // 1, 010, 00100 and 011
/// let mut reader = BitReader::<_, BE>::over(&[0xa2, 0x30]);
/// let numbers = [read_ue(&mut reader)?, read_ue(&mut reader)?, read_ue(&mut reader)?];
/// assert_eq!(rt; numbers, [0, 1, 3]);
/// assert_eq!(rt; read_se(&mut reader)?, -1);
/// ```
pub fn read_ue<R: BitRead>(reader: &mut R) -> Result<u32, Error>
    ensures reads { Reads R.source (ue_decoder R.source.order) reader.old result reader.new }
    ensures below { IfOk result (λ value. value < 2 ^ 32 - 1) }
{
    let zeros = reader.read_unary::<Bits<1>>()?;
    if zeros > 31 {
        return Err(Error::VariableWidthOverflow);
    }
    let rest: u32 = reader.read_var(zeros)?;
    Ok((1 << zeros) - 1 + rest)
}

/// Reads a signed number, `se(v)`.
///
/// # Errors
///
/// The errors of [`read_ue`].
pub fn read_se<R: BitRead>(reader: &mut R) -> Result<i32, Error>
    ensures { Reads R.source (se_decoder R.source.order) reader.old result reader.new }
{
    let place = read_ue(reader)?;
    let half = (place / 2) as i32;
    Ok(if place % 2 == 1 { half + 1 } else { -half })
}

/// Writes an unsigned number, `ue(v)`.
///
/// # Errors
///
/// `Checked` for `u32::MAX`, which has no encoding. If so, nothing is written. Otherwise, the errors of the sink.
pub fn write_ue<W: BitWrite>(writer: &mut W, value: u32) -> Result<(), Error>
    ensures { WritesAll W.sink (ue_writes W.sink.order value) writer.old result writer.new }
{
    if value == u32::MAX {
        return writer.write::<Bits<31>, u32>(value);
    }
    let more = value + 1;
    let zeros = 31 - more.leading_zeros();
    writer.write_unary::<Bits<1>>(zeros)?;
    writer.write_var(zeros, more - (1 << zeros))
}

/// Writes a signed number, `se(v)`.
///
/// # Errors
///
/// `Checked` for `i32::MIN`, which has no encoding. If so, nothing is written. Otherwise, the errors of the sink.
pub fn write_se<W: BitWrite>(writer: &mut W, value: i32) -> Result<(), Error>
    ensures { WritesAll W.sink (se_writes W.sink.order value) writer.old result writer.new }
{
    if value == i32::MIN {
        return write_ue(writer, u32::MAX);
    }
    let twice = 2 * value.unsigned_abs();
    write_ue(writer, if value > 0 { twice - 1 } else { twice })
}

/// An unsigned number is read back as it was written, in either order of bits, at any position.
pub fn unsigned_golomb_numbers_round_trip()
    ensures { (o : Order) (value at from : ℕ) (more : List Bool) → value < 2 ^ 32 - 1
        → let word = write_sequence (ue_writes o value) at in
        (ue_decoder o).reads from (word ++ more) ≡ Done (length word) (Ok value) }
{}

/// A signed number is read back as it was written, in either order of bits, at any position.
pub fn signed_golomb_numbers_round_trip()
    ensures { (o : Order) (value : ℤ) (at from : ℕ) (more : List Bool)
        → unsigned_abs value < 2 ^ 31
        → let word = write_sequence (se_writes o value) at in
        (se_decoder o).reads from (word ++ more) ≡ Done (length word) (Ok value) }
{}
