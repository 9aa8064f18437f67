//! Reads and writes of checked values.
ghost use Rattle.std.specs.Prelude.{◌≡◌, ℤ, Bool, List, length, IfOk};
ghost use Rattle.bitstream_count.specs.Codec.{Decoder};
ghost use Rattle.bitstream_number.specs.Word.{Order};
ghost use Rattle.bitstream_order.specs.Moving.Gather.{result_map};
ghost use Rattle.bitstream_stream.specs.Reading.Reads.{Reads};
ghost use Rattle.bitstream_stream.specs.Writing.Sink.{Writes};
ghost use Rattle.bitstream_stream.specs.Writing.WriteTable.{plain};
ghost use Rattle.bitstream_value.specs.Checked.{KeptWith};

mod sealed;
mod signed;
mod unsigned;

use crate::checked::sealed::Sealed;
use bitstream_count::count::{Checked, Holds};
use bitstream_count::error::Error;
use bitstream_stream::read::BitRead;
use bitstream_stream::write::BitWrite;

/// A checked value: a number with a count of bits that holds it, so that writing it is never
/// rejected. Only [`Checked`](bitstream_count::count::Checked), with each of the four types of
/// counts, implements this trait.
///
/// # Errors
///
/// The errors of the reader ([`BitRead`]) and of the sink ([`BitWrite`]). The calls below list only
/// further errors.
///
/// # Examples
///
/// ```
/// use bitstream_io::{BE, BitCount, BitReadExt, BitReader, BitWriteExt, BitWriter};
/// use bitstream_io::{Checkable, CheckedUnsigned};
///
/// let mut reader = BitReader::<_, BE>::new([0xb7].as_slice());
/// let level: CheckedUnsigned<8, u8> = reader.read_checked(BitCount::new::<4>())?;
/// assert_eq!(rt; (level.written_bits(), level.into_value()), (4, 11));
/// let mut writer = BitWriter::<_, BE>::new(Vec::new(rt.alloc()));
/// writer.write_checked(level)?;
/// writer.write_checked(level)?;
/// assert_eq!(rt; writer.into_writer().as_slice(), [0xbb].as_slice());
/// ```
pub trait Checkable: Sealed + Copy {
    // The encoding of a value, in either order.
    ghost word: { Order → Self → List Bool };

    /// Writes the value in the number of bits of its count.
    fn write<W: BitWrite>(&self, writer: &mut W) -> Result<(), Error>
        ensures writes { Writes W.sink (plain (word W.sink.order self.now))
            writer.old result writer.new };

    /// Returns the number of bits that writing the value takes.
    fn written_bits(&self) -> u32
        ensures bits { (o : Order) → result ≡ length (word o self.now) };
}

/// A checked value that can be read: a number, with the count of its bits.
///
/// # Errors
///
/// As for [`Checkable`].
pub trait CheckablePrimitive: Checkable {
    /// The type of the count.
    type CountType;

    // The count and the number of a value, and the decoder of both at a count, in either order.
    ghost counted: { Self → Self.CountType × ℤ };

    ghost reads: { Order → Self.CountType → Decoder (Self.CountType × ℤ) };

    /// Reads a number of `count` bits, and returns it with the count.
    ///
    /// # Errors
    ///
    /// `ReadBits` if the type has fewer than `count` bits. If so, no bit is read.
    fn read<R: BitRead>(reader: &mut R, count: Self::CountType) -> Result<Self, Error>
        ensures reads { Reads R.source (reads R.source.order count)
            reader.old (result_map counted result) reader.new };
}

/// Pairs the value of a result with a count. The caller proves that the count holds the value.
#[inline(always)]
fn keep<C: Holds<T> + Copy, T>(count: C, answer: Result<T, Error>) -> Result<Checked<C, T>, Error>
    requires { IfOk answer (C.holds count) }
    ensures { KeptWith count answer result }
{
    match answer {
        Ok(value) => Ok(Checked::of(count, value)),
        Err(error) => Err(error),
    }
}
