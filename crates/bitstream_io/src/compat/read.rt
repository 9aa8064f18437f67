//! The older names of the calls of a reader of bits.
ghost use Rattle.std.specs.Prelude.{◌≡◌, ◌%◌, ◌≤◌, ◌↔◌, true, false, length, Ok, IsTrue};
ghost use Rattle.bitstream_order.specs.Parts.{value_bytes};
ghost use Rattle.bitstream_order.specs.Moving.Gather.{result_map};
ghost use Rattle.bitstream_stream.specs.Reading.Reads.{BitSource, Reads, ReadsGrowing};
ghost use Rattle.bitstream_value.specs.Grows.{OwnReads};
ghost use Rattle.bitstream_stream.specs.Reading.ReadTable.{bit_decoder, signed_decoder, unary_decoder, bytes_decoder, skip_decoder, align_decoder};

use bitstream_count::error::Error;
use bitstream_number::number::{Bits, Primitive, SignedInteger, Width};
use bitstream_order::order::Endianness;
use bitstream_stream::read::BitRead;
use bitstream_value::huffman::FromBits;
use bitstream_value::integer::Integer;
use bitstream_value::parse::{FromBitStream, FromBitStreamWith};
use bitstream_value::read::BitReadExt;
use std::alloc::Allocator;

/// Reads bits, under the names of earlier versions. Every reader of bits has these calls. Code that
/// uses them imports this trait instead of [`BitRead`] and [`BitReadExt`], since some of the names
/// are the same.
///
/// # Errors
///
/// The comment of each call names a current call. Both return the same result, and leave the reader
/// in the same state.
///
/// # Examples
///
/// ```
/// use bitstream_io::{BE, BitRead2, BitReader, Error};
///
/// let mut reader = BitReader::<_, BE>::new([0xb1, 0xed, 0x3b, 0xc1].as_slice());
/// for (bits, value) in [(2, 2), (3, 6), (5, 7), (3, 5), (19, 342977)] {
///     assert_eq!(rt; reader.read::<u32>(bits)?, value);
/// }
/// assert!(rt; matches!(reader.read::<u32>(1), Err(Error::EndOfInput)));
/// ```
pub trait BitRead2 {
    // The meaning of the reader's states.
    ghost source: { BitSource Self };

    /// Reads one bit, as [`BitRead::read_bit`].
    fn read_bit(&mut self) -> Result<bool, Error>
        ensures reads { Reads source bit_decoder self.old result self.new };

    /// Reads a value of `bits` bits, as [`BitReadExt::read_var`].
    fn read<I: Integer>(&mut self, bits: u32) -> Result<I, Error>
        ensures reads { Reads source (I.reads source.order bits) self.old result self.new };

    /// Reads a value of `B::BITS` bits, as [`BitReadExt::read`].
    fn read_in<B: Width, I: Integer>(&mut self) -> Result<I, Error>
        requires { I.IsWidth B.BITS }
        ensures reads { Reads source (I.reads source.order B.BITS) self.old result self.new };

    /// Reads a signed number of `bits` bits, as [`BitRead::read_signed_var`].
    fn read_signed<S: SignedInteger>(&mut self, bits: u32) -> Result<S, Error>
        ensures reads { Reads source (signed_decoder source.order S.BITS_SIZE bits)
            self.old (result_map S.integer result) self.new };

    /// Reads a signed number of `B::BITS` bits, as [`BitRead::read_signed`].
    fn read_signed_in<B: Width, S: SignedInteger>(&mut self) -> Result<S, Error>
        requires some { 1 ≤ B.BITS }
        requires within { B.BITS ≤ S.BITS_SIZE }
        ensures reads { Reads source (signed_decoder source.order S.BITS_SIZE B.BITS)
            self.old (result_map S.integer result) self.new };

    /// Reads a value from its bytes, as [`BitRead::read_to`].
    fn read_to<V: Primitive>(&mut self) -> Result<V, Error>
        ensures reads { Reads source (bytes_decoder source.order V.BYTES) self.old
            (result_map (value_bytes source.order V.be_bytes V.le_bytes) result) self.new };

    /// Reads a value from its bytes in the byte order F, as [`BitRead::read_as_to`].
    fn read_as_to<F: Endianness, V: Primitive>(&mut self) -> Result<V, Error>
        ensures reads { Reads source (bytes_decoder source.order V.BYTES) self.old
            (result_map (value_bytes F.order V.be_bytes V.le_bytes) result) self.new };

    /// Skips `bits` bits, as [`BitRead::skip`].
    fn skip(&mut self, bits: u32) -> Result<(), Error>
        ensures reads { Reads source (skip_decoder bits) self.old result self.new };

    /// Fills a buffer with bytes, as [`BitRead::read_bytes`].
    fn read_bytes(&mut self, buf: &mut [u8]) -> Result<(), Error>
        ensures reads { Reads source (bytes_decoder source.order (length buf.old))
            self.old (result_map (λ _. buf.new) result) self.new };

    /// Reads the bytes of a V, as [`BitRead::read_to_bytes`].
    fn read_to_bytes<V: Primitive>(&mut self) -> Result<V::Bytes, Error>
        ensures reads { Reads source (bytes_decoder source.order V.BYTES)
            self.old (result_map V.Bytes.items result) self.new };

    /// Reads `bytes` bytes into a vector, as [`BitRead::read_to_vec`].
    fn read_to_vec<A: Allocator>(&mut self, alloc: A, bytes: usize) -> Result<Vec<u8, A>, Error>
        ensures reads { ReadsGrowing source (bytes_decoder source.order bytes)
            self.old (result_map (λ v. v.items) result) self.new };

    /// Reads the number of bits before the next 0, as [`BitRead::read_unary`] of `Bits<0>`.
    fn read_unary0(&mut self) -> Result<u32, Error>
        ensures reads { Reads source (unary_decoder false) self.old result self.new };

    /// Reads the number of bits before the next 1, as [`BitRead::read_unary`] of `Bits<1>`.
    fn read_unary1(&mut self) -> Result<u32, Error>
        ensures reads { Reads source (unary_decoder true) self.old result self.new };

    /// Returns true if the reader is at a byte boundary, as [`BitRead::byte_aligned`].
    fn byte_aligned(&self) -> bool
        ensures { IsTrue result ↔ (((source.state self.now).failed ≡ false)
            × ((source.state self.now).taken % 8 ≡ 0)) };

    /// Skips the bits up to the next byte boundary, as [`BitRead::byte_align`].
    fn byte_align(&mut self)
        ensures reads { Reads source align_decoder self.old (Ok tt) self.new };

    /// Reads the code word of a symbol of a prefix code, as [`BitReadExt::read_huffman`].
    fn read_huffman<T: FromBits>(&mut self, code: &T) -> Result<T::Symbol, Error>
        ensures reads { Reads source (T.decoder code.now) self.old result self.new };

    /// Reads a value of a type that implements its own reads, as [`BitReadExt::parse`].
    fn parse<F: FromBitStream>(&mut self) -> Result<F, F::Error>
        ensures reads { OwnReads F.grows source F.becomes (F.reads source.order)
            self.old result self.new };

    /// Reads a value that needs a borrowed context, as [`BitReadExt::parse_with`].
    fn parse_with<F: FromBitStreamWith>(&mut self, context: &F::Context) -> Result<F, F::Error>
        ensures reads { OwnReads F.grows source F.becomes (F.reads source.order context.now)
            self.old result self.new };
}

impl<R: BitRead> BitRead2 for R {
    ghost source = { R.source };

    fn read_bit(&mut self) -> Result<bool, Error> {
        BitRead::read_bit(self)
    }

    fn read<I: Integer>(&mut self, bits: u32) -> Result<I, Error> {
        BitReadExt::read_var(self, bits)
    }

    fn read_in<B: Width, I: Integer>(&mut self) -> Result<I, Error> {
        BitReadExt::read::<B, I>(self)
    }

    fn read_signed<S: SignedInteger>(&mut self, bits: u32) -> Result<S, Error> {
        BitRead::read_signed_var(self, bits)
    }

    fn read_signed_in<B: Width, S: SignedInteger>(&mut self) -> Result<S, Error> {
        BitRead::read_signed::<B, S>(self)
    }

    fn read_to<V: Primitive>(&mut self) -> Result<V, Error> {
        BitRead::read_to(self)
    }

    fn read_as_to<F: Endianness, V: Primitive>(&mut self) -> Result<V, Error> {
        BitRead::read_as_to::<F, V>(self)
    }

    fn skip(&mut self, bits: u32) -> Result<(), Error> {
        BitRead::skip(self, bits)
    }

    fn read_bytes(&mut self, buf: &mut [u8]) -> Result<(), Error> {
        BitRead::read_bytes(self, buf)
    }

    fn read_to_bytes<V: Primitive>(&mut self) -> Result<V::Bytes, Error> {
        BitRead::read_to_bytes::<V>(self)
    }

    fn read_to_vec<A: Allocator>(&mut self, alloc: A, bytes: usize) -> Result<Vec<u8, A>, Error> {
        BitRead::read_to_vec(self, alloc, bytes)
    }

    fn read_unary0(&mut self) -> Result<u32, Error> {
        BitRead::read_unary::<Bits<0>>(self)
    }

    fn read_unary1(&mut self) -> Result<u32, Error> {
        BitRead::read_unary::<Bits<1>>(self)
    }

    fn byte_aligned(&self) -> bool {
        BitRead::byte_aligned(self)
    }

    fn byte_align(&mut self) {
        BitRead::byte_align(self)
    }

    fn read_huffman<T: FromBits>(&mut self, code: &T) -> Result<T::Symbol, Error> {
        BitReadExt::read_huffman(self, code)
    }

    fn parse<F: FromBitStream>(&mut self) -> Result<F, F::Error> {
        BitReadExt::parse(self)
    }

    fn parse_with<F: FromBitStreamWith>(&mut self, context: &F::Context) -> Result<F, F::Error> {
        BitReadExt::parse_with(self, context)
    }
}
