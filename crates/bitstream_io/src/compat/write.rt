//! The older names of the calls of a sink of bits.
ghost use Rattle.std.specs.Prelude.{◌≡◌, ◌%◌, ◌≤◌, ◌↔◌, true, false, IsTrue};
ghost use Rattle.bitstream_order.specs.Parts.{value_bytes};
ghost use Rattle.bitstream_stream.specs.Writing.Sink.{Sink, Writes, WritesAll};
ghost use Rattle.bitstream_stream.specs.Writing.WriteTable.{bit as one_bit, unsigned, signed, buffer, zeros, unary_word, align};
ghost use Rattle.bitstream_value.specs.Own.{WritesOwn};
ghost use Rattle.bitstream_value.specs.Tree.{bit_by_bit};

use bitstream_count::error::Error;
use bitstream_number::number::{Bits, Primitive, SignedInteger, UnsignedInteger, Width};
use bitstream_order::order::Endianness;
use bitstream_stream::write::BitWrite;
use bitstream_value::build::{ToBitStream, ToBitStreamWith};
use bitstream_value::huffman::ToBits;
use bitstream_value::integer::Integer;
use bitstream_value::write::BitWriteExt;

/// Writes bits, under the names of earlier versions. Every sink of bits has these calls. Code that
/// uses them imports this trait instead of [`BitWrite`] and [`BitWriteExt`], since some of the
/// names are the same.
///
/// # Errors
///
/// The comment of each call names a current call. Both return the same result, and leave the sink in
/// the same state.
///
/// # Examples
///
/// ```
/// use bitstream_io::{BE, BitWrite2, BitWriter, Bits};
///
/// let mut writer = BitWriter::<_, BE>::new(Vec::new(rt.alloc()));
/// writer.write_out::<Bits<4>, u8>(10)?;
/// writer.write_unsigned_out::<Bits<2>, u8>(2)?;
/// writer.write_signed_out::<Bits<2>, i8>(-1)?;
/// writer.write_unary0(3)?;
/// writer.write_unsigned(4, 5u8)?;
/// assert_eq!(rt; writer.into_writer().as_slice(), [0xab, 0xe5].as_slice());
/// ```
pub trait BitWrite2 {
    // The meaning of the sink's states.
    ghost sink: { Sink Self };

    /// Writes one bit, as [`BitWrite::write_bit`].
    fn write_bit(&mut self, bit: bool) -> Result<(), Error>
        ensures writes { Writes sink (one_bit bit) self.old result self.new };

    /// Writes a value in `bits` bits, as [`BitWriteExt::write_var`].
    fn write<I: Integer>(&mut self, bits: u32, value: I) -> Result<(), Error>
        ensures writes { WritesAll sink (I.writes sink.order bits value)
            self.old result self.new };

    /// Writes a value in `B::BITS` bits, as [`BitWriteExt::write`].
    fn write_out<B: Width, I: Integer>(&mut self, value: I) -> Result<(), Error>
        requires { I.IsWidth B.BITS }
        ensures writes { WritesAll sink (I.writes sink.order B.BITS value)
            self.old result self.new };

    /// Writes an unsigned number in `bits` bits, as [`BitWrite::write_unsigned_var`].
    fn write_unsigned<U: UnsignedInteger>(&mut self, bits: u32, value: U) -> Result<(), Error>
        ensures writes { Writes sink (unsigned sink.order U.BITS_SIZE bits (U.value value))
            self.old result self.new };

    /// Writes an unsigned number in `B::BITS` bits, as [`BitWrite::write_unsigned`].
    fn write_unsigned_out<B: Width, U: UnsignedInteger>(&mut self, value: U) -> Result<(), Error>
        requires { B.BITS ≤ U.BITS_SIZE }
        ensures writes { Writes sink (unsigned sink.order U.BITS_SIZE B.BITS (U.value value))
            self.old result self.new };

    /// Writes a signed number in `bits` bits, as [`BitWrite::write_signed_var`].
    fn write_signed<S: SignedInteger>(&mut self, bits: u32, value: S) -> Result<(), Error>
        ensures writes { Writes sink (signed sink.order S.BITS_SIZE bits (S.integer value))
            self.old result self.new };

    /// Writes a signed number in `B::BITS` bits, as [`BitWrite::write_signed`].
    fn write_signed_out<B: Width, S: SignedInteger>(&mut self, value: S) -> Result<(), Error>
        requires some { 1 ≤ B.BITS }
        requires within { B.BITS ≤ S.BITS_SIZE }
        ensures writes { Writes sink (signed sink.order S.BITS_SIZE B.BITS (S.integer value))
            self.old result self.new };

    /// Writes the bytes of a value, as [`BitWrite::write_from`].
    fn write_from<V: Primitive>(&mut self, value: V) -> Result<(), Error>
        ensures writes { Writes sink
            (buffer sink.order (value_bytes sink.order V.be_bytes V.le_bytes value))
            self.old result self.new };

    /// Writes the bytes of a value in the byte order F, as [`BitWrite::write_as_from`].
    fn write_as_from<F: Endianness, V: Primitive>(&mut self, value: V) -> Result<(), Error>
        ensures writes { Writes sink
            (buffer sink.order (value_bytes F.order V.be_bytes V.le_bytes value))
            self.old result self.new };

    /// Writes `bits` zeros, as [`BitWrite::pad`].
    fn pad(&mut self, bits: u32) -> Result<(), Error>
        ensures writes { Writes sink (zeros bits) self.old result self.new };

    /// Writes bytes, as [`BitWrite::write_bytes`].
    fn write_bytes(&mut self, bytes: &[u8]) -> Result<(), Error>
        ensures writes { Writes sink (buffer sink.order bytes.now) self.old result self.new };

    /// Writes `value` ones, and then a 0, as [`BitWrite::write_unary`] of `Bits<0>`.
    fn write_unary0(&mut self, value: u32) -> Result<(), Error>
        ensures writes { Writes sink (unary_word false value) self.old result self.new };

    /// Writes `value` zeros, and then a 1, as [`BitWrite::write_unary`] of `Bits<1>`.
    fn write_unary1(&mut self, value: u32) -> Result<(), Error>
        ensures writes { Writes sink (unary_word true value) self.old result self.new };

    /// Returns true if the sink is at a byte boundary, as [`BitWrite::byte_aligned`].
    fn byte_aligned(&self) -> bool
        ensures aligned { IsTrue result ↔ ((sink.failed self.now ≡ false)
            × (sink.len self.now % 8 ≡ 0)) };

    /// Writes zeros up to the next byte boundary, as [`BitWrite::byte_align`].
    fn byte_align(&mut self) -> Result<(), Error>
        ensures writes { Writes sink align self.old result self.new };

    /// Writes the code word of a symbol of a prefix code, as [`BitWriteExt::write_huffman`].
    fn write_huffman<T: ToBits>(&mut self, code: &T, symbol: T::Symbol) -> Result<(), Error>
        ensures writes { WritesAll sink (bit_by_bit (T.word code.now symbol))
            self.old result self.new };

    /// Writes a value of a type that implements its own writes, as [`BitWriteExt::build`].
    fn build<T: ToBitStream>(&mut self, value: &T) -> Result<(), T::Error>
        ensures writes { WritesOwn sink T.becomes (T.writes sink.order value.now)
            (T.answers value.now) self.old result self.new };

    /// Writes a value that needs a borrowed context, as [`BitWriteExt::build_with`].
    fn build_with<T: ToBitStreamWith>(
        &mut self,
        value: &T,
        context: &T::Context,
    ) -> Result<(), T::Error>
        ensures writes { WritesOwn sink T.becomes (T.writes sink.order value.now context.now)
            (T.answers value.now context.now) self.old result self.new };
}

impl<W: BitWrite> BitWrite2 for W {
    ghost sink = { W.sink };

    fn write_bit(&mut self, bit: bool) -> Result<(), Error> {
        BitWrite::write_bit(self, bit)
    }

    fn write<I: Integer>(&mut self, bits: u32, value: I) -> Result<(), Error> {
        BitWriteExt::write_var(self, bits, value)
    }

    fn write_out<B: Width, I: Integer>(&mut self, value: I) -> Result<(), Error> {
        BitWriteExt::write::<B, I>(self, value)
    }

    fn write_unsigned<U: UnsignedInteger>(&mut self, bits: u32, value: U) -> Result<(), Error> {
        BitWrite::write_unsigned_var(self, bits, value)
    }

    fn write_unsigned_out<B: Width, U: UnsignedInteger>(&mut self, value: U) -> Result<(), Error> {
        BitWrite::write_unsigned::<B, U>(self, value)
    }

    fn write_signed<S: SignedInteger>(&mut self, bits: u32, value: S) -> Result<(), Error> {
        BitWrite::write_signed_var(self, bits, value)
    }

    fn write_signed_out<B: Width, S: SignedInteger>(&mut self, value: S) -> Result<(), Error> {
        BitWrite::write_signed::<B, S>(self, value)
    }

    fn write_from<V: Primitive>(&mut self, value: V) -> Result<(), Error> {
        BitWrite::write_from(self, value)
    }

    fn write_as_from<F: Endianness, V: Primitive>(&mut self, value: V) -> Result<(), Error> {
        BitWrite::write_as_from::<F, V>(self, value)
    }

    fn pad(&mut self, bits: u32) -> Result<(), Error> {
        BitWrite::pad(self, bits)
    }

    fn write_bytes(&mut self, bytes: &[u8]) -> Result<(), Error> {
        BitWrite::write_bytes(self, bytes)
    }

    fn write_unary0(&mut self, value: u32) -> Result<(), Error> {
        BitWrite::write_unary::<Bits<0>>(self, value)
    }

    fn write_unary1(&mut self, value: u32) -> Result<(), Error> {
        BitWrite::write_unary::<Bits<1>>(self, value)
    }

    fn byte_aligned(&self) -> bool {
        BitWrite::byte_aligned(self)
    }

    fn byte_align(&mut self) -> Result<(), Error> {
        BitWrite::byte_align(self)
    }

    fn write_huffman<T: ToBits>(&mut self, code: &T, symbol: T::Symbol) -> Result<(), Error> {
        BitWriteExt::write_huffman(self, code, symbol)
    }

    fn build<T: ToBitStream>(&mut self, value: &T) -> Result<(), T::Error> {
        BitWriteExt::build(self, value)
    }

    fn build_with<T: ToBitStreamWith>(
        &mut self,
        value: &T,
        context: &T::Context,
    ) -> Result<(), T::Error> {
        BitWriteExt::build_with(self, value, context)
    }
}
