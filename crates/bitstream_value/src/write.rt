//! Calls that write values of any type.
ghost use Rattle.bitstream_stream.specs.Writing.Sink.{Writes, WritesAll};
ghost use Rattle.bitstream_stream.specs.Writing.WriteTable.{plain};
ghost use Rattle.bitstream_value.specs.Own.{WritesOwn};
ghost use Rattle.bitstream_value.specs.Tree.{bit_by_bit};

use crate::build::{ToBitStream, ToBitStreamUsing, ToBitStreamWith};
use crate::checked::Checkable;
use crate::huffman::ToBits;
use crate::integer::{Integer, VBRInteger};
use bitstream_count::count::{BitCount, Count};
use bitstream_count::error::Error;
use bitstream_number::number::Width;
use bitstream_stream::write::BitWrite;

/// Writes values of any [`Integer`] and [`VBRInteger`] type, checked values, and symbols of prefix
/// codes. Every sink of bits has these calls.
///
/// # Examples
///
/// ```
/// use bitstream_io::{BitWriteExt, BitWriter, Bits, LE};
///
/// let mut writer = BitWriter::<_, LE>::new(Vec::new(rt.alloc()));
/// writer.write::<Bits<1>, [bool; 4]>([true, false, true, true])?;
/// writer.write_var::<i8>(4, -1)?;
/// assert_eq!(rt; writer.into_writer().as_slice(), [0xfd].as_slice());
/// ```
pub trait BitWriteExt: BitWrite {
    /// Writes a value in `B::BITS` bits.
    ///
    /// # Errors
    ///
    /// As [`Integer::write`].
    fn write<B: Width, I: Integer>(&mut self, value: I) -> Result<(), Error>
        requires { I.IsWidth B.BITS }
        ensures writes { WritesAll Self.sink (I.writes Self.sink.order B.BITS value)
            self.old result self.new };

    /// Writes a value in `bits` bits.
    ///
    /// # Errors
    ///
    /// As [`Integer::write_var`].
    fn write_var<I: Integer>(&mut self, bits: u32, value: I) -> Result<(), Error>
        ensures writes { WritesAll Self.sink (I.writes Self.sink.order bits value)
            self.old result self.new };

    /// Writes a value in `bits` bits.
    ///
    /// # Errors
    ///
    /// As [`Integer::write_var`].
    fn write_counted<C: Count, I: Integer>(&mut self, bits: C, value: I) -> Result<(), Error>
        ensures writes { WritesAll Self.sink (I.writes Self.sink.order (C.number bits) value)
            self.old result self.new };

    /// Writes a value of variable width, in groups of `F::BITS` bits.
    ///
    /// # Errors
    ///
    /// As [`VBRInteger::write_vbr`].
    fn write_vbr<F: Width, I: VBRInteger>(&mut self, value: I) -> Result<(), Error>
        requires { I.IsFieldSize F.BITS }
        ensures writes { WritesAll Self.sink (I.writes_vbr Self.sink.order F.BITS value)
            self.old result self.new };

    /// Writes a checked value in the number of bits of its count. The value is never rejected.
    ///
    /// # Errors
    ///
    /// As [`Checkable::write`].
    fn write_checked<C: Checkable>(&mut self, value: C) -> Result<(), Error>
        ensures writes { Writes Self.sink (plain (C.word Self.sink.order value))
            self.old result self.new };

    /// Writes the code word of a symbol of a prefix code, or nothing if the symbol has none.
    ///
    /// # Errors
    ///
    /// As [`ToBits::to_bits`].
    fn write_huffman<T: ToBits>(&mut self, code: &T, symbol: T::Symbol) -> Result<(), Error>
        ensures writes { WritesAll Self.sink (bit_by_bit (T.word code.now symbol))
            self.old result self.new };

    /// Writes a value of a type that implements its own writes.
    ///
    /// # Errors
    ///
    /// As [`ToBitStream::to_writer`].
    fn build<T: ToBitStream>(&mut self, value: &T) -> Result<(), T::Error>
        ensures writes { WritesOwn Self.sink T.becomes (T.writes Self.sink.order value.now)
            (T.answers value.now) self.old result self.new };

    /// Writes a value that needs a borrowed context.
    ///
    /// # Errors
    ///
    /// As [`ToBitStreamWith::to_writer`].
    fn build_with<T: ToBitStreamWith>(
        &mut self,
        value: &T,
        context: &T::Context,
    ) -> Result<(), T::Error>
        ensures writes { WritesOwn Self.sink T.becomes
            (T.writes Self.sink.order value.now context.now) (T.answers value.now context.now)
            self.old result self.new };

    /// Writes a value that needs a context by value.
    ///
    /// # Errors
    ///
    /// As [`ToBitStreamUsing::to_writer`].
    fn build_using<T: ToBitStreamUsing>(
        &mut self,
        value: &T,
        context: T::Context,
    ) -> Result<(), T::Error>
        ensures writes { WritesOwn Self.sink T.becomes
            (T.writes Self.sink.order value.now context) (T.answers value.now context)
            self.old result self.new };
}

impl<W: BitWrite> BitWriteExt for W {
    #[inline(always)]
    fn write<B: Width, I: Integer>(&mut self, value: I) -> Result<(), Error> {
        value.write::<B, W>(self)
    }

    #[inline(always)]
    fn write_var<I: Integer>(&mut self, bits: u32, value: I) -> Result<(), Error> {
        value.write_var(self, BitCount::unknown(bits))
    }

    #[inline(always)]
    fn write_counted<C: Count, I: Integer>(&mut self, bits: C, value: I) -> Result<(), Error> {
        value.write_var(self, bits)
    }

    #[inline(always)]
    fn write_vbr<F: Width, I: VBRInteger>(&mut self, value: I) -> Result<(), Error> {
        value.write_vbr::<F, W>(self)
    }

    #[inline(always)]
    fn write_checked<C: Checkable>(&mut self, value: C) -> Result<(), Error> {
        value.write(self)
    }

    fn write_huffman<T: ToBits>(&mut self, code: &T, symbol: T::Symbol) -> Result<(), Error> {
        code.to_bits(symbol, self)
    }

    #[inline(always)]
    fn build<T: ToBitStream>(&mut self, value: &T) -> Result<(), T::Error> {
        value.to_writer(self)
    }

    #[inline(always)]
    fn build_with<T: ToBitStreamWith>(
        &mut self,
        value: &T,
        context: &T::Context,
    ) -> Result<(), T::Error> {
        value.to_writer(self, context)
    }

    #[inline(always)]
    fn build_using<T: ToBitStreamUsing>(
        &mut self,
        value: &T,
        context: T::Context,
    ) -> Result<(), T::Error> {
        value.to_writer(self, context)
    }
}
