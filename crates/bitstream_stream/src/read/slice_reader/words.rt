//! Reads of numbers from bytes in memory: a window of eight bytes serves up to 56 bits.
ghost use Rattle.std.specs.Prelude.{◌≡◌, ◌+◌, ◌*◌, ◌<◌, ◌≤◌, false, length};
ghost use Rattle.bitstream_order.specs.Moving.Gather.{result_map};
ghost use Rattle.bitstream_stream.specs.Reading.Reads.{Reads};
ghost use Rattle.bitstream_stream.specs.Reading.ReadTable.{unsigned_decoder, signed_decoder};

use super::SliceReader;
use super::window::{load, load_bits, load_first};
use bitstream_count::error::Error;
use bitstream_number::number::{Numeric, SignedInteger, UnsignedInteger};
use bitstream_order::kernels::sign::signed_of;
use bitstream_order::order::Endianness;

impl<'a, E: Endianness> SliceReader<'a, E> {
    ghost use Rattle.bitstream_stream.specs.Reading.MemorySource.{memory_source};
    ghost use Rattle.bitstream_stream.specs.Reading.MemoryTakes.{StaysAtEnd, TakesNumber};

    /// Takes a number of at most 56 bits. Its bits must be left.
    #[inline(always)]
    fn take_few(&mut self, bits: u32) -> u64
        requires few { bits ≤ 56 }
        requires enough { self.old.bit + bits ≤ 8 * length self.old.bytes.now }
        ensures { TakesNumber E.order bits result self.old self.new }
    {
        let value = E::middle(load::<E>(self.bytes), self.bit, bits);
        self.go_on(bits);
        value
    }

    /// Takes a number of more than 56 bits. Its bits must be left.
    #[inline(never)]
    fn take_many<U: UnsignedInteger>(&mut self, bits: u32) -> U
        requires many { 56 < bits }
        requires room { bits ≤ U.BITS_SIZE }
        requires enough { self.old.bit + bits ≤ 8 * length self.old.bytes.now }
        ensures { TakesNumber E.order bits (U.value result) self.old self.new }
    {
        // Two or three numbers of at most 56 bits each.
        let first = U::from_u64(self.take_few(56));
        let more = bits - 56;
        if more <= 56 {
            let second = U::from_u64(self.take_few(more));
            return E::put(first, 56, second, more);
        }
        let second = U::from_u64(self.take_few(56));
        let last = U::from_u64(self.take_few(more - 56));
        E::put(E::put(first, 56, second, 56), 112, last, more - 56)
    }

    /// Takes a number. Its bits must be left.
    #[inline(always)]
    fn take_word<U: UnsignedInteger>(&mut self, bits: u32) -> U
        requires room { bits ≤ U.BITS_SIZE }
        requires enough { self.old.bit + bits ≤ 8 * length self.old.bytes.now }
        ensures { TakesNumber E.order bits (U.value result) self.old self.new }
    {
        if bits <= 56 {
            U::from_u64(self.take_few(bits))
        } else {
            self.take_many(bits)
        }
    }

    /// Reads a number that is near the end or has many bits.
    #[inline(never)]
    fn read_slow<U: UnsignedInteger>(&mut self, bits: u32) -> Result<U, Error>
        requires fine { self.old.failed ≡ false }
        requires room { bits ≤ U.BITS_SIZE }
        ensures reads { Reads (memory_source E.order) (unsigned_decoder E.order U.BITS_SIZE bits)
            self.old (result_map U.value result) self.new }
        ensures stays { StaysAtEnd E.order self.old result self.new }
    {
        if self.has(bits) {
            Ok(self.take_word(bits))
        } else {
            Err(self.refuse())
        }
    }

    /// Reads a number. `constant` is true if `bits` is known at compile time.
    #[inline(always)]
    pub(super) fn read_word<U: UnsignedInteger>(
        &mut self,
        bits: u32,
        constant: bool,
    ) -> Result<U, Error>
        ensures reads { Reads (memory_source E.order) (unsigned_decoder E.order U.BITS_SIZE bits)
            self.old (result_map U.value result) self.new }
        ensures stays { StaysAtEnd E.order self.old result self.new }
    {
        if self.failed {
            return Err(Error::Failed);
        }
        // Tested before anything is taken, so a rejected read takes no bit.
        if bits > U::BITS_SIZE {
            return Err(Error::ReadBits);
        }
        // Eight bytes hold the next 56 bits, at whatever bit of the first byte they start.
        if bits > 56 {
            return self.read_slow(bits);
        }
        match load_bits::<E>(self.bytes, self.bit + bits, constant) {
            Some(value) => {
                let word = E::middle(value, self.bit, bits);
                self.go_on(bits);
                Ok(U::from_u64(word))
            }
            None => Err(self.refuse()),
        }
    }

    /// Reads one bit as a number.
    #[inline(always)]
    pub(super) fn read_one(&mut self) -> Result<u64, Error>
        ensures reads { Reads (memory_source E.order) (unsigned_decoder E.order 64 1) self.old result self.new }
        ensures stays { StaysAtEnd E.order self.old result self.new }
    {
        if self.failed {
            return Err(Error::Failed);
        }
        let bytes = self.bytes;
        if bytes.is_empty() {
            return Err(self.refuse());
        }
        let bit = E::middle(load_first::<1, E>(bytes), self.bit, 1);
        self.go_on(1);
        Ok(bit)
    }

    /// Reads the two's complement of a number.
    #[inline(always)]
    pub(super) fn read_signed_word<S: SignedInteger>(
        &mut self,
        bits: u32,
        constant: bool,
    ) -> Result<S, Error>
        ensures reads { Reads (memory_source E.order) (signed_decoder E.order S.BITS_SIZE bits)
            self.old (result_map S.integer result) self.new }
        ensures stays { StaysAtEnd E.order self.old result self.new }
    {
        if self.failed {
            return Err(Error::Failed);
        }
        if bits == 0 {
            return Err(Error::NoSignBit);
        }
        // The same bits as an unsigned number: its type has the same size.
        let word: S::Unsigned = self.read_word(bits, constant)?;
        Ok(signed_of(word, bits))
    }
}
