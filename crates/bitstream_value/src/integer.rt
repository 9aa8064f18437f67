//! Types whose values are read and written as bits.
ghost use Rattle.std.specs.Prelude.{ℕ, List, IfOk};
ghost use Rattle.bitstream_number.specs.Word.{Order};
ghost use Rattle.bitstream_count.specs.Codec.{Decoder, Encoder};
ghost use Rattle.bitstream_stream.specs.Reading.Reads.{Reads};
ghost use Rattle.bitstream_stream.specs.Writing.Sink.{WritesAll};

mod array;
mod boolean;
mod non_zero;
mod signed;
mod unsigned;

use bitstream_count::count::{BitCount, Count};
use bitstream_count::error::Error;
use bitstream_number::number::Width;
use bitstream_stream::read::BitRead;
use bitstream_stream::write::BitWrite;

/// A type whose values are read and written in a given number of bits: the integers, `bool`,
/// `NonZero` types, `Option`s of these, and arrays.
///
/// An array is its items in order, each in that number of bits. If an item meets an error, the
/// items before it stay read or written. An array of no items makes no call. Any other value is one
/// call: if it is rejected for its width or value, no bit is read or written.
///
/// # Errors
///
/// The errors of the reader ([`BitRead`]) and of the sink ([`BitWrite`]). The calls below list only
/// further errors.
///
/// A value that was read in n bits fits n bits: an unsigned number is below 2^n, a signed number is from -2^(n-1) to
/// 2^(n-1) - 1, and a `NonZero` is at most 2^n. The contracts state this, so adding to a field that is narrower than
/// its type needs no overflow check.
pub trait Integer: Sized {
    // The decoder and the encoders of a value in a number of bits, in either order.
    ghost reads: { Order → ℕ → Decoder Self };

    ghost writes: { Order → ℕ → Self → List Encoder };

    // The widths at which no value is rejected for its width.
    ghost IsWidth: { ℕ → Type 0 };

    // The known range of a value that was read in a number of bits.
    ghost Fits: { ℕ → Self → Type 0 };

    /// Reads a value of `B::BITS` bits, a width that is never rejected.
    fn read<B: Width, R: BitRead>(reader: &mut R) -> Result<Self, Error>
        requires { IsWidth B.BITS }
        // It follows the type's decoder at `B::BITS` bits.
        ensures reads { Reads R.source (reads R.source.order B.BITS) reader.old result reader.new }
        // A value that is returned fits `B::BITS` bits.
        ensures fits { IfOk result (λ value. Fits B.BITS value) }
    {
        Self::read_var(reader, BitCount::unknown(B::BITS))
    }

    /// Reads a value of `bits` bits.
    ///
    /// # Errors
    ///
    /// `ReadBits` if the type has fewer than `bits` bits. `NoSignBit` for a signed number of 0
    /// bits. `BoolWidth` for a `bool` if `bits` is not 1. `NonZeroWidth` for a `NonZero` if `bits`
    /// is at least the size of its type in bits. If so, no bit of the value is read.
    fn read_var<C: Count, R: BitRead>(reader: &mut R, bits: C) -> Result<Self, Error>
        // It follows the type's decoder at `bits` bits.
        ensures reads { Reads R.source (reads R.source.order (C.number bits))
            reader.old result reader.new }
        // A value that is returned fits `bits` bits.
        ensures fits { IfOk result (λ value. Fits (C.number bits) value) };

    /// Writes a value in `B::BITS` bits, a width that is never rejected.
    ///
    /// # Errors
    ///
    /// `Checked(ExcessiveValue)` if the value needs more than `B::BITS` bits. If so, no bit of it is
    /// written.
    fn write<B: Width, W: BitWrite>(self, writer: &mut W) -> Result<(), Error>
        requires { IsWidth B.BITS }
        ensures writes { WritesAll W.sink (writes W.sink.order B.BITS self)
            writer.old result writer.new }
    {
        self.write_var(writer, BitCount::unknown(B::BITS))
    }

    /// Writes a value in `bits` bits.
    ///
    /// # Errors
    ///
    /// `NoSignBit`, `BoolWidth` and `NonZeroWidth` as for [`read_var`](Integer::read_var).
    /// Otherwise, `Checked(ExcessiveBits)` if the type has fewer than `bits` bits. Otherwise,
    /// `Checked(ExcessiveValue)` if the value needs more than `bits` bits. After each of these errors, no bit
    /// of the value is written.
    fn write_var<C: Count, W: BitWrite>(self, writer: &mut W, bits: C) -> Result<(), Error>
        ensures writes { WritesAll W.sink (writes W.sink.order (C.number bits) self)
            writer.old result writer.new };
}

/// A type whose values are also read and written in groups of bits (variable width): the integers,
/// `NonZero` types, `Option`s of these, and arrays.
///
/// A value is written in the fewest groups that hold it. A `NonZero` is read and written as its
/// number minus 1. An array is its items in order, as it is for [`Integer`]. Any other value is one
/// call.
///
/// # Errors
///
/// The errors of the reader ([`BitRead`]) and of the sink ([`BitWrite`]). The calls below list only
/// further errors.
pub trait VBRInteger: Integer {
    // The decoder and the encoders of a value in groups of a number of bits, in either
    // order.
    ghost reads_vbr: { Order → ℕ → Decoder Self };

    ghost writes_vbr: { Order → ℕ → Self → List Encoder };

    // The sizes that a group may have, in bits.
    ghost IsFieldSize: { ℕ → Type 0 };

    /// Reads a value in groups of `F::BITS` bits.
    ///
    /// # Errors
    ///
    /// `VariableWidthOverflow` if a number does not fit its type, or if a group begins after the
    /// type's bits. `RedundantGroup` if a number has two or more groups and the last group is 0.
    /// The groups up to the one that shows the error have been read.
    fn read_vbr<F: Width, R: BitRead>(reader: &mut R) -> Result<Self, Error>
        requires { IsFieldSize F.BITS }
        ensures reads { Reads R.source (reads_vbr R.source.order F.BITS)
            reader.old result reader.new };

    /// Writes a value in groups of `F::BITS` bits.
    fn write_vbr<F: Width, W: BitWrite>(self, writer: &mut W) -> Result<(), Error>
        requires { IsFieldSize F.BITS }
        ensures writes { WritesAll W.sink (writes_vbr W.sink.order F.BITS self)
            writer.old result writer.new };
}
