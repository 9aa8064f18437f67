//! Calls that read values of any type.
ghost use Rattle.std.specs.Prelude.{IfOk};
ghost use Rattle.bitstream_order.specs.Moving.Gather.{result_map};
ghost use Rattle.bitstream_stream.specs.Reading.Reads.{Reads};
ghost use Rattle.bitstream_value.specs.Grows.{OwnReads};

use crate::checked::CheckablePrimitive;
use crate::huffman::FromBits;
use crate::integer::{Integer, VBRInteger};
use crate::parse::{FromBitStream, FromBitStreamUsing, FromBitStreamWith};
use bitstream_count::count::{BitCount, Count};
use bitstream_count::error::Error;
use bitstream_number::number::Width;
use bitstream_stream::read::BitRead;

/// Reads values of any [`Integer`] and [`VBRInteger`] type, checked values, and symbols of prefix
/// codes. Every reader of bits has these calls.
///
/// # Examples
///
/// ```
/// use bitstream_io::{BitRead, BitReadExt, BitReader, Bits, LE};
/// use std::num::NonZero;
///
/// let mut reader = BitReader::<_, LE>::new([0x0d, 0x03].as_slice());
/// let flags = reader.read::<Bits<1>, [bool; 4]>()?;
/// assert_eq!(rt; flags, [true, false, true, true]);
/// reader.byte_align();
/// let track: Option<NonZero<u8>> = reader.read_var(2)?;
/// assert_eq!(rt; track.map(|n| n.get()), Some(3));
/// ```
pub trait BitReadExt: BitRead {
    /// Reads a value of `B::BITS` bits.
    ///
    /// # Errors
    ///
    /// As [`Integer::read`].
    fn read<B: Width, I: Integer>(&mut self) -> Result<I, Error>
        requires { I.IsWidth B.BITS }
        // It follows the type's decoder at `B::BITS` bits.
        ensures reads { Reads Self.source (I.reads Self.source.order B.BITS)
            self.old result self.new }
        // A value that is returned fits `B::BITS` bits.
        ensures fits { IfOk result (λ value. I.Fits B.BITS value) };

    /// Reads a value of `bits` bits.
    ///
    /// # Errors
    ///
    /// As [`Integer::read_var`].
    fn read_var<I: Integer>(&mut self, bits: u32) -> Result<I, Error>
        // It follows the type's decoder at `bits` bits.
        ensures reads { Reads Self.source (I.reads Self.source.order bits)
            self.old result self.new }
        // A value that is returned fits `bits` bits.
        ensures fits { IfOk result (λ value. I.Fits bits value) };

    /// Reads a value of `bits` bits.
    ///
    /// # Errors
    ///
    /// As [`Integer::read_var`].
    fn read_counted<C: Count, I: Integer>(&mut self, bits: C) -> Result<I, Error>
        // It follows the type's decoder at `bits` bits.
        ensures reads { Reads Self.source (I.reads Self.source.order (C.number bits))
            self.old result self.new }
        // A value that is returned fits `bits` bits.
        ensures fits { IfOk result (λ value. I.Fits (C.number bits) value) };

    /// Reads a value of variable width, in groups of `F::BITS` bits.
    ///
    /// # Errors
    ///
    /// As [`VBRInteger::read_vbr`].
    fn read_vbr<F: Width, I: VBRInteger>(&mut self) -> Result<I, Error>
        requires { I.IsFieldSize F.BITS }
        ensures reads { Reads Self.source (I.reads_vbr Self.source.order F.BITS)
            self.old result self.new };

    /// Reads a number of `count` bits, and returns it with the count.
    ///
    /// # Errors
    ///
    /// As [`CheckablePrimitive::read`].
    fn read_checked<C: CheckablePrimitive>(&mut self, count: C::CountType) -> Result<C, Error>
        ensures reads { Reads Self.source (C.reads Self.source.order count)
            self.old (result_map C.counted result) self.new };

    /// Reads the code word of a symbol of a prefix code, and returns the symbol.
    ///
    /// # Errors
    ///
    /// As [`FromBits::from_bits`].
    fn read_huffman<T: FromBits>(&mut self, code: &T) -> Result<T::Symbol, Error>
        ensures reads { Reads Self.source (T.decoder code.now) self.old result self.new };

    /// Reads a value of a type that implements its own reads.
    ///
    /// # Errors
    ///
    /// As [`FromBitStream::from_reader`].
    fn parse<F: FromBitStream>(&mut self) -> Result<F, F::Error>
        ensures reads { OwnReads F.grows Self.source F.becomes (F.reads Self.source.order)
            self.old result self.new };

    /// Reads a value that needs a borrowed context.
    ///
    /// # Errors
    ///
    /// As [`FromBitStreamWith::from_reader`].
    fn parse_with<F: FromBitStreamWith>(&mut self, context: &F::Context) -> Result<F, F::Error>
        ensures reads { OwnReads F.grows Self.source F.becomes (F.reads Self.source.order context.now)
            self.old result self.new };

    /// Reads a value that needs a context by value.
    ///
    /// # Errors
    ///
    /// As [`FromBitStreamUsing::from_reader`].
    fn parse_using<F: FromBitStreamUsing>(&mut self, context: F::Context) -> Result<F, F::Error>
        ensures reads { OwnReads F.grows Self.source F.becomes (F.reads Self.source.order context)
            self.old result self.new };
}

impl<R: BitRead> BitReadExt for R {
    fn read<B: Width, I: Integer>(&mut self) -> Result<I, Error> {
        I::read::<B, R>(self)
    }

    #[inline]
    fn read_var<I: Integer>(&mut self, bits: u32) -> Result<I, Error> {
        I::read_var(self, BitCount::unknown(bits))
    }

    fn read_counted<C: Count, I: Integer>(&mut self, bits: C) -> Result<I, Error> {
        I::read_var(self, bits)
    }

    fn read_vbr<F: Width, I: VBRInteger>(&mut self) -> Result<I, Error> {
        I::read_vbr::<F, R>(self)
    }

    fn read_checked<C: CheckablePrimitive>(&mut self, count: C::CountType) -> Result<C, Error> {
        C::read(self, count)
    }

    fn read_huffman<T: FromBits>(&mut self, code: &T) -> Result<T::Symbol, Error> {
        code.from_bits(self)
    }

    fn parse<F: FromBitStream>(&mut self) -> Result<F, F::Error> {
        F::from_reader(self)
    }

    fn parse_with<F: FromBitStreamWith>(&mut self, context: &F::Context) -> Result<F, F::Error> {
        F::from_reader(self, context)
    }

    fn parse_using<F: FromBitStreamUsing>(&mut self, context: F::Context) -> Result<F, F::Error> {
        F::from_reader(self, context)
    }
}
