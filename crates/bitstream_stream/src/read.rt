//! The calls of a reader of bits.
ghost use Rattle.std.specs.Prelude.{◌≡◌, ℕ, ◌+◌, ◌%◌, ◌^◌, ◌<◌, ◌≤◌, ◌⊎◌, ◌↔◌, ◌==◌, false, length, Ok, IsTrue};
ghost use Rattle.bitstream_order.specs.Parts.{value_bytes};
ghost use Rattle.bitstream_order.specs.Moving.Gather.{result_map};
ghost use Rattle.bitstream_stream.specs.Reading.Reads.{BitSource, Reads, ReadsConst, ReadsGrowing, failed_reader, lent_source};
ghost use Rattle.bitstream_stream.specs.Reading.ReadTable.{bit_decoder, unsigned_decoder, signed_decoder, const_decoder, unary_decoder, count_decoder, align_decoder, bytes_decoder, skip_decoder, is_full, groups_decoder, vbr_decoder, any_vbr_decoder, signed_vbr_decoder, any_signed_vbr_decoder};

use crate::piece::{GROWTH, grow};
use crate::vbr::is_redundant;
use crate::width::count_bits;
use crate::zigzag::unzigzag;
use bitstream_count::count::{BitCount, Count, SignedCount};
use bitstream_count::error::Error;
use bitstream_number::number::{Numeric, Primitive, SignedInteger, UnsignedInteger, Width};
use bitstream_order::order::Endianness;
use std::alloc::Allocator;

pub mod place;
pub mod reader;
pub mod slice_reader;

/// Reads bits.
///
/// # Errors
///
/// If a request to the stream fails, a call returns `EndOfInput`, `OutOfMemory`, or `Stream` with the
/// kind of the failure. The reader has then failed. From then on each call that reads a value
/// returns `Failed`, before any other check and also at a width of 0 bits. After any other error
/// the reader continues where it was, unless the documentation of the call states otherwise. The
/// calls below list only their additional errors.
///
/// # Examples
///
/// ```
/// use bitstream_io::{BE, BitCount, BitRead, BitReader, Bits, Error};
///
/// let mut reader = BitReader::<_, BE>::new([0x7e, 0x58].as_slice());
/// reader.read_const::<Bits<4>, Bits<7>, Error>(Error::NoSignBit)?;
/// assert_eq!(rt; reader.read_signed::<Bits<4>, i32>()?, -2);
/// let last = reader.read_count::<BitCount<7>>()?;
/// assert_eq!(rt; reader.read_unsigned_counted::<_, u8>(last)?, 3);
/// reader.byte_align();
/// assert!(rt; matches!(reader.read_bit(), Err(Error::EndOfInput)));
/// assert!(rt; matches!(reader.read_bit(), Err(Error::Failed)));
/// ```
pub trait BitRead {
    // The meaning of the reader's states.
    ghost source: { BitSource Self };

    /// Reads an unsigned number of `bits` bits.
    ///
    /// # Errors
    ///
    /// `ReadBits` if the type has fewer than `bits` bits. If so, no bit is taken.
    fn read_unsigned_counted<C: Count, U: UnsignedInteger>(&mut self, bits: C) -> Result<U, Error>
        ensures reads { Reads source (unsigned_decoder source.order U.BITS_SIZE (C.number bits))
            self.old (result_map U.value result) self.new };

    /// Reads a signed number, a two's complement of `bits` bits.
    ///
    /// # Errors
    ///
    /// `ReadBits` if the type has fewer than `bits` bits. If so, no bit is taken.
    fn read_signed_counted<C: SignedCount, S: SignedInteger>(&mut self, bits: C) -> Result<S, Error>
        ensures reads { Reads source (signed_decoder source.order S.BITS_SIZE (C.number bits))
            self.old (result_map S.integer result) self.new };

    /// Reads a value from its bytes, in the reader's byte order.
    fn read_to<V: Primitive>(&mut self) -> Result<V, Error>
        ensures reads { Reads source (bytes_decoder source.order V.BYTES) self.old
            (result_map (value_bytes source.order V.be_bytes V.le_bytes) result) self.new };

    /// Reads a value from its bytes, in the byte order F. The bits of each byte are read in the
    /// reader's order.
    fn read_as_to<F: Endianness, V: Primitive>(&mut self) -> Result<V, Error>
        ensures reads { Reads source (bytes_decoder source.order V.BYTES) self.old
            (result_map (value_bytes F.order V.be_bytes V.le_bytes) result) self.new };

    /// Returns true if the reader is at a byte boundary and has not failed.
    fn byte_aligned(&self) -> bool
        ensures { IsTrue result ↔ (((source.state self.now).failed ≡ false)
            × ((source.state self.now).taken % 8 ≡ 0)) };

    /// Skips the bits up to the next byte boundary. They are queued, so no request is made. A
    /// reader that has failed is unchanged.
    fn byte_align(&mut self)
        ensures reads { Reads source align_decoder self.old (Ok tt) self.new };

    /// Makes the reader fail, and drops its queue.
    fn fail(&mut self)
        ensures { source.state self.new ≡ failed_reader (source.state self.old) };

    /// Reads one bit, and returns true if it is 1.
    fn read_bit(&mut self) -> Result<bool, Error>
        ensures reads { Reads source bit_decoder self.old result self.new }
    {
        let bit: u8 = self.read_unsigned_var(1)?;
        Ok(bit == 1)
    }

    /// Reads an unsigned number of `bits` bits.
    ///
    /// # Errors
    ///
    /// The errors of [`read_unsigned_counted`](BitRead::read_unsigned_counted).
    fn read_unsigned_var<U: UnsignedInteger>(&mut self, bits: u32) -> Result<U, Error>
        ensures reads { Reads source (unsigned_decoder source.order U.BITS_SIZE bits)
            self.old (result_map U.value result) self.new }
    {
        self.read_unsigned_counted(BitCount::unknown(bits))
    }

    /// Reads an unsigned number of `B::BITS` bits, at most the width of U.
    fn read_unsigned<B: Width, U: UnsignedInteger>(&mut self) -> Result<U, Error>
        requires { B.BITS ≤ U.BITS_SIZE }
        ensures reads { Reads source (unsigned_decoder source.order U.BITS_SIZE B.BITS)
            self.old (result_map U.value result) self.new }
    {
        self.read_unsigned_var(B::BITS)
    }

    /// Reads a signed number, a two's complement of `bits` bits.
    ///
    /// # Errors
    ///
    /// `NoSignBit` at 0 bits. If so, no bit is taken. Otherwise the errors of
    /// [`read_signed_counted`](BitRead::read_signed_counted).
    fn read_signed_var<S: SignedInteger>(&mut self, bits: u32) -> Result<S, Error>
        ensures reads { Reads source (signed_decoder source.order S.BITS_SIZE bits)
            self.old (result_map S.integer result) self.new }
    {
        match BitCount::unknown(bits).signed_count() {
            Some(count) => self.read_signed_counted(count),
            None => {
                let _: u8 = self.read_unsigned_var(0)?;
                Err(Error::NoSignBit)
            }
        }
    }

    /// Reads a signed number, a two's complement of `B::BITS` bits, at most the width of S.
    fn read_signed<B: Width, S: SignedInteger>(&mut self) -> Result<S, Error>
        requires some { 1 ≤ B.BITS }
        requires within { B.BITS ≤ S.BITS_SIZE }
        ensures reads { Reads source (signed_decoder source.order S.BITS_SIZE B.BITS)
            self.old (result_map S.integer result) self.new }
    {
        self.read_signed_var(B::BITS)
    }

    /// Reads a number of `B::BITS` bits, which must be `V::BITS`.
    ///
    /// # Errors
    ///
    /// `err` if the number is not `V::BITS`. If so, its bits have been taken. Every other error is
    /// converted into an E.
    fn read_const<B: Width, V: Width, E: From<Error> + Drop>(&mut self, err: E) -> Result<(), E>
        requires word { B.BITS ≤ 32 }
        requires value { (V.BITS < 2 ^ B.BITS) ⊎ (B.BITS ≡ 0) }
        ensures reads { ReadsConst source E.from_gives (const_decoder source.order B.BITS V.BITS) err
            self.old result self.new }
    {
        let value: u32 = self.read_unsigned::<B, u32>()?;
        if value == V::BITS { Ok(()) } else { Err(err) }
    }

    /// Reads a unary number: the number of bits before the stop bit, which is `S::BITS`, 0 or 1.
    ///
    /// # Errors
    ///
    /// `RunTooLong` if 4294967296 (2^32) bits come before any stop bit. These bits have been
    /// taken, and the reader has failed.
    fn read_unary<S: Width>(&mut self) -> Result<u32, Error>
        requires { S.BITS < 2 }
        ensures reads { Reads source (unary_decoder (S.BITS == 1)) self.old result self.new }
    {
        let stop = S::BITS == 1;
        let mut count = 0u32;
        loop {
            if self.read_bit()? == stop {
                return Ok(count);
            }
            if count == u32::MAX {
                self.fail();
                return Err(Error::RunTooLong);
            }
            count += 1;
        }
    }

    /// Reads a count of bits, in the fewest bits that hold `C::MAX`. `C::MAX` must be a power of
    /// two minus 1, so that every number of these bits is a count.
    fn read_count<C: Count>(&mut self) -> Result<C, Error>
        requires some { 0 < C.MAX }
        requires full { IsTrue (is_full 32 C.MAX) }
        ensures reads { Reads source (count_decoder source.order C.MAX)
            self.old (result_map C.number result) self.new }
    {
        let number = self.read_unsigned_var(count_bits(C::MAX))?;
        match C::of(number) {
            Some(count) => Ok(count),
            // `C::MAX` is 1 less than a power of two, so it is the greatest number that these bits
            // hold.
            None => unreachable!(),
        }
    }

    /// Fills a buffer with bytes. After an error the contents of the buffer are unspecified.
    fn read_bytes(&mut self, buf: &mut [u8]) -> Result<(), Error>
        ensures reads { Reads source (bytes_decoder source.order (length buf.old))
            self.old (result_map (λ _. buf.new) result) self.new }
    {
        let _: u8 = self.read_unsigned_var(0)?;
        for at in 0..buf.len() {
            buf[at] = self.read_unsigned_var(8)?;
        }
        Ok(())
    }

    /// Reads the bytes of a V: `read_to_bytes::<[u8; 4]>()` returns an array of four bytes.
    fn read_to_bytes<V: Primitive>(&mut self) -> Result<V::Bytes, Error>
        ensures reads { Reads source (bytes_decoder source.order V.BYTES)
            self.old (result_map V.Bytes.items result) self.new }
    {
        let mut bytes = V::buffer();
        self.read_bytes(V::as_bytes_mut(&mut bytes))?;
        Ok(bytes)
    }

    /// Reads `bytes` bytes into a vector. At most 4096 bytes are requested at a time, and the
    /// vector grows as they arrive. So a length beyond the end of the stream costs little memory.
    ///
    /// # Errors
    ///
    /// `OutOfMemory` if an allocation for the bytes fails. If so, the reader has failed.
    fn read_to_vec<A: Allocator>(&mut self, alloc: A, bytes: usize) -> Result<Vec<u8, A>, Error>
        ensures reads { ReadsGrowing source (bytes_decoder source.order bytes)
            self.old (result_map (λ v. v.items) result) self.new }
    {
        let mut buf = Vec::new(alloc);
        let _: u8 = self.read_unsigned_var(0)?;
        let mut at = 0;
        while at < bytes {
            let end = at + GROWTH.min(bytes - at);
            let Ok(()) = grow(&mut buf, end) else {
                self.fail();
                return Err(Error::OutOfMemory);
            };
            self.read_bytes(&mut buf.as_mut_slice()[at..])?;
            at = end;
        }
        Ok(buf)
    }

    /// Skips `bits` bits, whatever their values.
    fn skip(&mut self, bits: u32) -> Result<(), Error>
        ensures reads { Reads source (skip_decoder bits) self.old result self.new }
    {
        let _: u128 = self.read_unsigned_var(bits % 128)?;
        for _done in 0..bits / 128 {
            let _: u128 = self.read_unsigned_var(128)?;
        }
        Ok(())
    }

    /// Reads the groups of an unsigned number of variable width, by
    /// [`read_unsigned_vbr`](BitRead::read_unsigned_vbr) if `strict` is true, and otherwise by
    /// [`read_unsigned_vbr_any`](BitRead::read_unsigned_vbr_any).
    ///
    /// # Errors
    ///
    /// The errors of [`read_unsigned_vbr`](BitRead::read_unsigned_vbr), but `RedundantGroup` only
    /// if `strict` is true.
    fn read_groups<F: Width, U: UnsignedInteger>(&mut self, strict: bool) -> Result<U, Error>
        requires some { 2 ≤ F.BITS }
        requires within { F.BITS < U.BITS_SIZE }
        ensures reads { Reads source
            (groups_decoder strict source.order F.BITS U.BITS_SIZE (2 ^ U.BITS_SIZE))
            self.old (result_map U.value result) self.new }
    {
        let payload = F::BITS - 1;
        let mask = (U::ONE << payload) - U::ONE;
        let mut value = U::ZERO;
        let mut shift = 0;
        while shift < U::BITS_SIZE {
            let group: U = if F::BITS > 8 {
                self.read_unsigned::<F, U>()?
            } else {
                U::from_u8(self.read_unsigned::<F, u8>()?)
            };
            let digits = group & mask;
            let placed = digits << shift;
            value |= placed;
            if group == digits {
                return if is_redundant(strict, shift, digits) {
                    Err(Error::RedundantGroup)
                } else if placed >> shift == digits {
                    Ok(value)
                } else {
                    Err(Error::VariableWidthOverflow)
                };
            }
            shift += payload;
        }
        Err(Error::VariableWidthOverflow)
    }

    /// Reads an unsigned number of variable width, in groups of `F::BITS` bits. The highest bit of
    /// a group is 1 if another group follows, and 0 otherwise. The other bits are digits of the
    /// number, the lowest digits first. The format is the `vbr` of LLVM's bitstreams.
    ///
    /// # Errors
    ///
    /// `VariableWidthOverflow` if the number does not fit in U, or if a group begins beyond the
    /// bits of U. `RedundantGroup` if there are two or more groups and the last one is 0. So each
    /// number has only one accepted encoding. After an error, the groups up to the faulty one have
    /// been taken, and the reader continues after them.
    fn read_unsigned_vbr<F: Width, U: UnsignedInteger>(&mut self) -> Result<U, Error>
        requires some { 2 ≤ F.BITS }
        requires within { F.BITS < U.BITS_SIZE }
        ensures reads { Reads source
            (vbr_decoder source.order F.BITS U.BITS_SIZE (2 ^ U.BITS_SIZE))
            self.old (result_map U.value result) self.new }
    {
        self.read_groups::<F, U>(true)
    }

    /// Reads an unsigned number of variable width, even if its last groups are 0.
    ///
    /// # Errors
    ///
    /// `VariableWidthOverflow`, as for [`read_unsigned_vbr`](BitRead::read_unsigned_vbr).
    fn read_unsigned_vbr_any<F: Width, U: UnsignedInteger>(&mut self) -> Result<U, Error>
        requires some { 2 ≤ F.BITS }
        requires within { F.BITS < U.BITS_SIZE }
        ensures reads { Reads source
            (any_vbr_decoder source.order F.BITS U.BITS_SIZE (2 ^ U.BITS_SIZE))
            self.old (result_map U.value result) self.new }
    {
        self.read_groups::<F, U>(false)
    }

    /// Reads a signed number of variable width. It is encoded as an unsigned number, by the zigzag
    /// encoding of Protocol Buffers: x as 2x, or as -2x - 1 if x is negative.
    ///
    /// # Errors
    ///
    /// The errors of [`read_unsigned_vbr`](BitRead::read_unsigned_vbr).
    fn read_signed_vbr<F: Width, S: SignedInteger>(&mut self) -> Result<S, Error>
        requires some { 2 ≤ F.BITS }
        requires within { F.BITS < S.BITS_SIZE }
        ensures reads { Reads source (signed_vbr_decoder source.order F.BITS S.BITS_SIZE)
            self.old (result_map S.integer result) self.new }
    {
        let place = self.read_unsigned_vbr::<F, S::Unsigned>()?;
        Ok(unzigzag(place))
    }

    /// Reads a signed number of variable width, even if its last groups are 0.
    ///
    /// # Errors
    ///
    /// The errors of [`read_unsigned_vbr_any`](BitRead::read_unsigned_vbr_any).
    fn read_signed_vbr_any<F: Width, S: SignedInteger>(&mut self) -> Result<S, Error>
        requires some { 2 ≤ F.BITS }
        requires within { F.BITS < S.BITS_SIZE }
        ensures reads { Reads source (any_signed_vbr_decoder source.order F.BITS S.BITS_SIZE)
            self.old (result_map S.integer result) self.new }
    {
        let place = self.read_unsigned_vbr_any::<F, S::Unsigned>()?;
        Ok(unzigzag(place))
    }

    /// Returns the reader by reference, for a function that takes a reader by value.
    fn by_ref(&mut self) -> &mut Self
        // It refers to this reader, unchanged.
        ensures value { result.now ≡ self.old }
        // The result is this same reference, so calls on it change this reader.
        ensures same_reference { result.ghost_name ≡ self.entry.ghost_name }
    {
        self
    }
}

impl<R: BitRead> BitRead for &mut R {
    ghost source = { lent_source R.source };

    fn read_unsigned_counted<C: Count, U: UnsignedInteger>(&mut self, bits: C) -> Result<U, Error> {
        (**self).read_unsigned_counted(bits)
    }

    fn read_signed_counted<C: SignedCount, S: SignedInteger>(
        &mut self,
        bits: C,
    ) -> Result<S, Error> {
        (**self).read_signed_counted(bits)
    }

    fn read_to<V: Primitive>(&mut self) -> Result<V, Error> {
        (**self).read_to()
    }

    fn read_as_to<F: Endianness, V: Primitive>(&mut self) -> Result<V, Error> {
        (**self).read_as_to::<F, V>()
    }

    fn byte_aligned(&self) -> bool {
        (**self).byte_aligned()
    }

    fn byte_align(&mut self) {
        (**self).byte_align()
    }

    fn fail(&mut self) {
        (**self).fail()
    }

    fn read_bit(&mut self) -> Result<bool, Error> {
        (**self).read_bit()
    }

    fn read_unsigned_var<U: UnsignedInteger>(&mut self, bits: u32) -> Result<U, Error> {
        (**self).read_unsigned_var(bits)
    }

    fn read_unsigned<B: Width, U: UnsignedInteger>(&mut self) -> Result<U, Error> {
        (**self).read_unsigned::<B, U>()
    }

    fn read_signed_var<S: SignedInteger>(&mut self, bits: u32) -> Result<S, Error> {
        (**self).read_signed_var(bits)
    }

    fn read_signed<B: Width, S: SignedInteger>(&mut self) -> Result<S, Error> {
        (**self).read_signed::<B, S>()
    }

    fn read_const<B: Width, V: Width, F: From<Error> + Drop>(&mut self, err: F) -> Result<(), F> {
        (**self).read_const::<B, V, F>(err)
    }

    fn read_unary<S: Width>(&mut self) -> Result<u32, Error> {
        (**self).read_unary::<S>()
    }

    fn read_count<C: Count>(&mut self) -> Result<C, Error> {
        (**self).read_count()
    }

    fn read_bytes(&mut self, buf: &mut [u8]) -> Result<(), Error> {
        (**self).read_bytes(buf)
    }

    fn read_to_bytes<V: Primitive>(&mut self) -> Result<V::Bytes, Error> {
        (**self).read_to_bytes::<V>()
    }

    fn read_to_vec<A: Allocator>(&mut self, alloc: A, bytes: usize) -> Result<Vec<u8, A>, Error> {
        (**self).read_to_vec(alloc, bytes)
    }

    fn skip(&mut self, bits: u32) -> Result<(), Error> {
        (**self).skip(bits)
    }

    fn read_groups<F: Width, U: UnsignedInteger>(&mut self, strict: bool) -> Result<U, Error> {
        (**self).read_groups::<F, U>(strict)
    }

    fn read_unsigned_vbr<F: Width, U: UnsignedInteger>(&mut self) -> Result<U, Error> {
        (**self).read_unsigned_vbr::<F, U>()
    }

    fn read_unsigned_vbr_any<F: Width, U: UnsignedInteger>(&mut self) -> Result<U, Error> {
        (**self).read_unsigned_vbr_any::<F, U>()
    }

    fn read_signed_vbr<F: Width, S: SignedInteger>(&mut self) -> Result<S, Error> {
        (**self).read_signed_vbr::<F, S>()
    }

    fn read_signed_vbr_any<F: Width, S: SignedInteger>(&mut self) -> Result<S, Error> {
        (**self).read_signed_vbr_any::<F, S>()
    }
}
