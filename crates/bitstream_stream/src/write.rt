//! The calls of a sink of bits.
use crate::vbr::{split_group, vbr_bits};
use crate::width::count_bits;
use crate::write::code_word::CodeWord;
use crate::write::run::run_without_stop;
use crate::zigzag::zigzag;
use bitstream_count::count::{BitCount, Count, SignedCount};
use bitstream_count::error::Error;
use bitstream_number::number::{Numeric, Primitive, SignedInteger, UnsignedInteger, Width};
use bitstream_order::order::Endianness;

pub mod code_word;
mod run;
pub mod writer;

/// Writes bits.
///
/// # Errors
///
/// If a request to the stream fails, a call returns `OutOfMemory`, or `Stream` with the kind of the
/// failure. The sink has then failed, and its queued bits are lost. From then on each call that
/// writes returns `Failed`, before any other check and also at a width of 0 bits. A sink with a
/// limit returns `CounterOverflow` if the bits would exceed the limit. After this and any other
/// error no bit is written, and the sink is unchanged. The calls below list only their additional
/// errors.
///
/// # Examples
///
/// ```
/// use bitstream_io::{BE, BitCount, BitWrite, BitWriter, Bits};
///
/// let mut writer = BitWriter::<_, BE>::new(Vec::new(rt.alloc()));
/// let count = BitCount::<7>::new::<2>();
/// writer.write_const::<Bits<4>, Bits<7>>()?;
/// writer.write_signed::<Bits<4>, i32>(-2)?;
/// writer.write_count(count)?;
/// writer.write_unsigned_counted(count, 3u8)?;
/// writer.byte_align()?;
/// assert_eq!(rt; writer.into_writer().as_slice(), [0x7e, 0x58].as_slice());
/// ```
pub trait BitWrite {
    ghost use Rattle.std.specs.Prelude.{◌≡◌, ℕ, ◌+◌, ◌%◌, ◌^◌, ◌<◌, ◌≤◌, ◌↔◌, ◌⊎◌, ◌==◌, Bool, true, false, IsTrue};
    ghost use Rattle.bitstream_number.specs.Word.{word};
    ghost use Rattle.bitstream_order.specs.Parts.{value_bytes};
    ghost use Rattle.bitstream_stream.specs.Writing.CodeWord.{code_bits};
    ghost use Rattle.bitstream_stream.specs.Writing.Sink.{Sink, Writes, WritesAll, IsWithin};
    ghost use Rattle.bitstream_stream.specs.Writing.WriteTable.{unsigned, signed, plain, unary_word, bit as one_bit, bit_by_bit, count as count_decoder, align, buffer, zeros, vbr, signed_vbr};

    // The meaning of the sink's states.
    ghost sink: { Sink Self };

    /// Writes an unsigned number in `count` bits. At 0 bits any number is accepted, and nothing is
    /// written.
    ///
    /// # Errors
    ///
    /// `Checked(ExcessiveBits)` if the type has fewer than `count` bits. Otherwise
    /// `Checked(ExcessiveValue)` if the number needs more than `count` bits.
    fn write_unsigned_counted<C: Count, U: UnsignedInteger>(
        &mut self,
        count: C,
        value: U,
    ) -> Result<(), Error>
        ensures writes { Writes sink
            (unsigned sink.order U.BITS_SIZE (C.number count) (U.value value))
            self.old result self.new };

    /// Writes a signed number in two's complement, in `count` bits.
    ///
    /// # Errors
    ///
    /// `Checked(ExcessiveBits)` if the type has fewer than `count` bits. Otherwise
    /// `Checked(ExcessiveValue)` if the number needs more than `count` bits.
    fn write_signed_counted<C: SignedCount, S: SignedInteger>(
        &mut self,
        count: C,
        value: S,
    ) -> Result<(), Error>
        ensures writes { Writes sink
            (signed sink.order S.BITS_SIZE (C.number count) (S.integer value))
            self.old result self.new };

    /// Writes the bytes of a value, in the sink's byte order.
    fn write_from<V: Primitive>(&mut self, value: V) -> Result<(), Error>
        ensures writes { Writes sink
            (buffer sink.order (value_bytes sink.order V.be_bytes V.le_bytes value))
            self.old result self.new };

    /// Writes the bytes of a value, in the byte order F. The bits of each byte are written in the
    /// sink's order.
    fn write_as_from<F: Endianness, V: Primitive>(&mut self, value: V) -> Result<(), Error>
        ensures writes { Writes sink
            (buffer sink.order (value_bytes F.order V.be_bytes V.le_bytes value))
            self.old result self.new };

    /// Returns true if the sink is at a byte boundary and has not failed.
    fn byte_aligned(&self) -> bool
        ensures aligned { IsTrue result ↔ ((sink.failed self.now ≡ false)
            × (sink.len self.now % 8 ≡ 0)) };

    /// Returns true if `bits` more bits fit. A `BitWriter` has no limit, so it always returns true.
    fn has_room(&self, bits: u128) -> bool
        ensures room { IsTrue result ↔ IsWithin sink.limit (sink.len self.now + bits) };

    /// Writes an unsigned number in `bits` bits. At 0 bits any number is accepted, and nothing is
    /// written.
    ///
    /// # Errors
    ///
    /// The errors of [`write_unsigned_counted`](BitWrite::write_unsigned_counted).
    fn write_unsigned_var<U: UnsignedInteger>(&mut self, bits: u32, value: U) -> Result<(), Error>
        ensures writes { Writes sink (unsigned sink.order U.BITS_SIZE bits (U.value value))
            self.old result self.new }
    {
        self.write_unsigned_counted(BitCount::unknown(bits), value)
    }

    /// Writes an unsigned number in `B::BITS` bits, at most the width of U.
    ///
    /// # Errors
    ///
    /// `Checked(ExcessiveValue)` if the number needs more than `B::BITS` bits.
    fn write_unsigned<B: Width, U: UnsignedInteger>(&mut self, value: U) -> Result<(), Error>
        requires { B.BITS ≤ U.BITS_SIZE }
        ensures writes { Writes sink (unsigned sink.order U.BITS_SIZE B.BITS (U.value value))
            self.old result self.new }
    {
        self.write_unsigned_var(B::BITS, value)
    }

    /// Writes a signed number in two's complement, in `bits` bits.
    ///
    /// # Errors
    ///
    /// `NoSignBit` at 0 bits. Otherwise the errors of
    /// [`write_signed_counted`](BitWrite::write_signed_counted).
    fn write_signed_var<S: SignedInteger>(&mut self, bits: u32, value: S) -> Result<(), Error>
        ensures writes { Writes sink (signed sink.order S.BITS_SIZE bits (S.integer value))
            self.old result self.new }
    {
        match BitCount::unknown(bits).signed_count() {
            Some(count) => self.write_signed_counted(count, value),
            None => {
                self.write_unsigned_var(0, 0u8)?;
                Err(Error::NoSignBit)
            }
        }
    }

    /// Writes a signed number in two's complement, in `B::BITS` bits, at most the width of S.
    ///
    /// # Errors
    ///
    /// `Checked(ExcessiveValue)` if the number needs more than `B::BITS` bits.
    fn write_signed<B: Width, S: SignedInteger>(&mut self, value: S) -> Result<(), Error>
        requires some { 1 ≤ B.BITS }
        requires within { B.BITS ≤ S.BITS_SIZE }
        ensures writes { Writes sink (signed sink.order S.BITS_SIZE B.BITS (S.integer value))
            self.old result self.new }
    {
        self.write_signed_var(B::BITS, value)
    }

    /// Writes the number `V::BITS` in `B::BITS` bits.
    fn write_const<B: Width, V: Width>(&mut self) -> Result<(), Error>
        requires word { B.BITS ≤ 32 }
        requires value { (V.BITS < 2 ^ B.BITS) ⊎ (B.BITS ≡ 0) }
        ensures writes { Writes sink (plain (word sink.order B.BITS V.BITS))
            self.old result self.new }
    {
        self.write_unsigned::<B, u32>(V::BITS)
    }

    /// Writes a unary number: `value` bits that are not the stop bit, and then the stop bit, which
    /// is `S::BITS`, 0 or 1.
    fn write_unary<S: Width>(&mut self, value: u32) -> Result<(), Error>
        requires { S.BITS < 2 }
        ensures writes { Writes sink (unary_word (S.BITS == 1) value) self.old result self.new }
    {
        self.write_unsigned_var(0, 0u8)?;
        if !self.has_room(value as u128 + 1) {
            return Err(Error::CounterOverflow);
        }
        let stop = S::BITS == 1;
        self.write_unsigned_var(value % 128, run_without_stop::<u128>(stop, value % 128))?;
        for _done in 0..value / 128 {
            self.write_unsigned_var(128, run_without_stop::<u128>(stop, 128))?;
        }
        self.write_bit(stop)
    }

    /// Writes a count of bits, in the fewest bits that hold `C::MAX`.
    fn write_count<C: Count>(&mut self, count: C) -> Result<(), Error>
        requires { 0 < C.MAX }
        ensures writes { Writes sink (count_decoder sink.order C.MAX (C.number count))
            self.old result self.new }
    {
        self.write_unsigned_var(count_bits(C::MAX), count.bits())
    }

    /// Writes one bit: 1 for `true`.
    fn write_bit(&mut self, bit: bool) -> Result<(), Error>
        ensures writes { Writes sink (one_bit bit) self.old result self.new }
    {
        self.write_unsigned_var(1, u8::from(bit))
    }

    /// Writes the bits of a code word, one after another.
    ///
    /// # Errors
    ///
    /// The errors of [`write_bit`](BitWrite::write_bit). The bits before the error stay written.
    /// Writing a code word of no bits always succeeds.
    fn write_code_word(&mut self, word: CodeWord) -> Result<(), Error>
        // Each bit has the effect of a call of `write_bit`.
        ensures writes { WritesAll sink (bit_by_bit (code_bits word)) self.old result self.new }
    {
        for at in 0..word.len() {
            self.write_bit(word.bit(at))?;
        }
        Ok(())
    }

    /// Writes zeros up to the next byte boundary.
    fn byte_align(&mut self) -> Result<(), Error>
        ensures writes { Writes sink align self.old result self.new }
    {
        self.write_unsigned_var(0, 0u8)?;
        if !self.byte_aligned() && !self.has_room(7) {
            return Err(Error::CounterOverflow);
        }
        while !self.byte_aligned() {
            self.write_bit(false)?;
        }
        Ok(())
    }

    /// Writes bytes.
    fn write_bytes(&mut self, bytes: &[u8]) -> Result<(), Error>
        ensures writes { Writes sink (buffer sink.order bytes.now) self.old result self.new }
    {
        self.write_unsigned_var(0, 0u8)?;
        if !self.has_room(bytes.len() as u128 * 8) {
            return Err(Error::CounterOverflow);
        }
        for byte in bytes {
            self.write_unsigned_var(8, *byte)?;
        }
        Ok(())
    }

    /// Writes `bits` zero bits.
    fn pad(&mut self, bits: u32) -> Result<(), Error>
        ensures writes { Writes sink (zeros bits) self.old result self.new }
    {
        self.write_unsigned_var(0, 0u8)?;
        if !self.has_room(bits as u128) {
            return Err(Error::CounterOverflow);
        }
        self.write_unsigned_var(bits % 128, 0u128)?;
        for _done in 0..bits / 128 {
            self.write_unsigned_var(128, 0u128)?;
        }
        Ok(())
    }

    /// Writes an unsigned number of variable width, in the fewest groups of `F::BITS` bits that
    /// hold it. The highest bit of a group is 1 if another group follows, and 0 otherwise. The other
    /// bits are digits of the number, the lowest digits first. The format is the `vbr` of LLVM's
    /// bitstreams.
    fn write_unsigned_vbr<F: Width, U: UnsignedInteger>(&mut self, value: U) -> Result<(), Error>
        requires some { 2 ≤ F.BITS }
        requires within { F.BITS < U.BITS_SIZE }
        ensures writes { Writes sink (vbr sink.order F.BITS (U.value value))
            self.old result self.new }
    {
        self.write_unsigned_var(0, 0u8)?;
        if !self.has_room(vbr_bits::<F, U>(value) as u128) {
            return Err(Error::CounterOverflow);
        }
        let mut rest = value;
        while let Some((group, next)) = split_group::<F, U>(rest) {
            self.write_unsigned::<F, U>(group)?;
            rest = next;
        }
        self.write_unsigned::<F, U>(rest)
    }

    /// Writes a signed number of variable width. It is encoded as an unsigned number, by the zigzag
    /// encoding of Protocol Buffers: x as 2x, or as -2x - 1 if x is negative.
    fn write_signed_vbr<F: Width, S: SignedInteger>(&mut self, value: S) -> Result<(), Error>
        requires some { 2 ≤ F.BITS }
        requires within { F.BITS < S.BITS_SIZE }
        ensures writes { Writes sink (signed_vbr sink.order F.BITS (S.integer value))
            self.old result self.new }
    {
        self.write_unsigned_vbr::<F, S::Unsigned>(zigzag(value))
    }

    /// Returns the sink by reference, for a function that takes a sink by value.
    fn by_ref(&mut self) -> &mut Self
    where
        Self: Sized,
        // The result is this same reference, so calls on it change this sink.
        ensures same_reference { result.ghost_name ≡ self.entry.ghost_name }
        // It refers to this sink, unchanged.
        ensures same_value { result.now ≡ self.old }
    {
        self
    }
}

impl<W: BitWrite> BitWrite for &mut W {
    ghost use Rattle.bitstream_stream.specs.Writing.Sink.{lent_sink};

    ghost sink = { lent_sink W.sink };

    fn write_unsigned_counted<C: Count, U: UnsignedInteger>(
        &mut self,
        count: C,
        value: U,
    ) -> Result<(), Error> {
        (**self).write_unsigned_counted(count, value)
    }

    fn write_signed_counted<C: SignedCount, S: SignedInteger>(
        &mut self,
        count: C,
        value: S,
    ) -> Result<(), Error> {
        (**self).write_signed_counted(count, value)
    }

    fn write_from<V: Primitive>(&mut self, value: V) -> Result<(), Error> {
        (**self).write_from(value)
    }

    fn write_as_from<F: Endianness, V: Primitive>(&mut self, value: V) -> Result<(), Error> {
        (**self).write_as_from::<F, V>(value)
    }

    fn byte_aligned(&self) -> bool {
        (**self).byte_aligned()
    }

    fn has_room(&self, bits: u128) -> bool {
        (**self).has_room(bits)
    }

    fn write_unsigned_var<U: UnsignedInteger>(&mut self, bits: u32, value: U) -> Result<(), Error> {
        (**self).write_unsigned_var(bits, value)
    }

    fn write_unsigned<B: Width, U: UnsignedInteger>(&mut self, value: U) -> Result<(), Error> {
        (**self).write_unsigned::<B, U>(value)
    }

    fn write_signed_var<S: SignedInteger>(&mut self, bits: u32, value: S) -> Result<(), Error> {
        (**self).write_signed_var(bits, value)
    }

    fn write_signed<B: Width, S: SignedInteger>(&mut self, value: S) -> Result<(), Error> {
        (**self).write_signed::<B, S>(value)
    }

    fn write_const<B: Width, V: Width>(&mut self) -> Result<(), Error> {
        (**self).write_const::<B, V>()
    }

    fn write_unary<S: Width>(&mut self, value: u32) -> Result<(), Error> {
        (**self).write_unary::<S>(value)
    }

    fn write_count<C: Count>(&mut self, count: C) -> Result<(), Error> {
        (**self).write_count(count)
    }

    fn write_bit(&mut self, bit: bool) -> Result<(), Error> {
        (**self).write_bit(bit)
    }

    fn write_code_word(&mut self, word: CodeWord) -> Result<(), Error> {
        (**self).write_code_word(word)
    }

    fn byte_align(&mut self) -> Result<(), Error> {
        (**self).byte_align()
    }

    fn write_bytes(&mut self, bytes: &[u8]) -> Result<(), Error> {
        (**self).write_bytes(bytes)
    }

    fn pad(&mut self, bits: u32) -> Result<(), Error> {
        (**self).pad(bits)
    }

    fn write_unsigned_vbr<F: Width, U: UnsignedInteger>(&mut self, value: U) -> Result<(), Error> {
        (**self).write_unsigned_vbr::<F, U>(value)
    }

    fn write_signed_vbr<F: Width, S: SignedInteger>(&mut self, value: S) -> Result<(), Error> {
        (**self).write_signed_vbr::<F, S>(value)
    }
}
