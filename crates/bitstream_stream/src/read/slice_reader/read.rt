//! The calls of a reader of bits, over bytes in memory.
ghost use Rattle.std.specs.Prelude.{◌≡◌, ◌==◌, length};
ghost use Rattle.bitstream_order.specs.Moving.Gather.{result_map};
ghost use Rattle.bitstream_order.specs.Parts.{value_bytes};
ghost use Rattle.bitstream_stream.specs.Reading.Reads.{Reads};
ghost use Rattle.bitstream_stream.specs.Reading.ReadTable.{bit_decoder, bytes_decoder, unsigned_decoder, signed_decoder, skip_decoder, unary_decoder};

use super::SliceReader;
use super::run::run_in_window;
use crate::read::BitRead;
use bitstream_count::count::{Count, SignedCount};
use bitstream_count::error::Error;
use bitstream_number::number::{Numeric, Primitive, SignedInteger, UnsignedInteger, Width};
use bitstream_order::order::Endianness;

impl<'a, E: Endianness> BitRead for SliceReader<'a, E> {
    ghost use Rattle.bitstream_stream.specs.Reading.MemorySource.{memory_source};
    ghost use Rattle.bitstream_stream.specs.Reading.MemoryTakes.{StaysAtEnd};

    ghost source = { memory_source E.order };

    #[inline(always)]
    fn read_unsigned_counted<C: Count, U: UnsignedInteger>(&mut self, bits: C) -> Result<U, Error>
        ensures reads { Reads ⟦<Self as BitRead>⟧.source (unsigned_decoder E.order U.BITS_SIZE (C.number bits))
            self.old (result_map U.value result) self.new }
        ensures stays { StaysAtEnd E.order self.old result self.new }
    {
        self.read_word(bits.bits(), false)
    }

    #[inline(always)]
    fn read_signed_counted<C: SignedCount, S: SignedInteger>(&mut self, bits: C) -> Result<S, Error>
        ensures reads { Reads ⟦<Self as BitRead>⟧.source (signed_decoder E.order S.BITS_SIZE (C.number bits))
            self.old (result_map S.integer result) self.new }
        ensures stays { StaysAtEnd E.order self.old result self.new }
    {
        self.read_signed_word(bits.bits(), false)
    }

    #[inline(always)]
    fn read_bit(&mut self) -> Result<bool, Error>
        ensures reads { Reads ⟦<Self as BitRead>⟧.source bit_decoder
            self.old result self.new }
        ensures stays { StaysAtEnd E.order self.old result self.new }
    {
        let bit = self.read_one()?;
        Ok(bit % 2 == 1)
    }

    #[inline(always)]
    fn read_unsigned_var<U: UnsignedInteger>(&mut self, bits: u32) -> Result<U, Error>
        ensures reads { Reads ⟦<Self as BitRead>⟧.source (unsigned_decoder E.order U.BITS_SIZE bits)
            self.old (result_map U.value result) self.new }
        ensures stays { StaysAtEnd E.order self.old result self.new }
    {
        self.read_word(bits, false)
    }

    #[inline(always)]
    fn read_unsigned<B: Width, U: UnsignedInteger>(&mut self) -> Result<U, Error>
        ensures reads { Reads ⟦<Self as BitRead>⟧.source (unsigned_decoder E.order U.BITS_SIZE B.BITS)
            self.old (result_map U.value result) self.new }
        ensures stays { StaysAtEnd E.order self.old result self.new }
    {
        self.read_word(B::BITS, true)
    }

    #[inline(always)]
    fn read_signed_var<S: SignedInteger>(&mut self, bits: u32) -> Result<S, Error>
        ensures reads { Reads ⟦<Self as BitRead>⟧.source (signed_decoder E.order S.BITS_SIZE bits)
            self.old (result_map S.integer result) self.new }
        ensures stays { StaysAtEnd E.order self.old result self.new }
    {
        self.read_signed_word(bits, false)
    }

    #[inline(always)]
    fn read_signed<B: Width, S: SignedInteger>(&mut self) -> Result<S, Error>
        ensures reads { Reads ⟦<Self as BitRead>⟧.source (signed_decoder E.order S.BITS_SIZE B.BITS)
            self.old (result_map S.integer result) self.new }
        ensures stays { StaysAtEnd E.order self.old result self.new }
    {
        self.read_signed_word(B::BITS, true)
    }

    #[inline(always)]
    fn read_to<V: Primitive>(&mut self) -> Result<V, Error>
        ensures reads { Reads ⟦<Self as BitRead>⟧.source (bytes_decoder E.order V.BYTES)
            self.old (result_map (value_bytes E.order V.be_bytes V.le_bytes) result) self.new }
        ensures stays { StaysAtEnd E.order self.old result self.new }
    {
        self.read_as_to::<E, V>()
    }

    #[inline(always)]
    fn read_as_to<F: Endianness, V: Primitive>(&mut self) -> Result<V, Error>
        ensures reads { Reads ⟦<Self as BitRead>⟧.source (bytes_decoder E.order V.BYTES)
            self.old (result_map (value_bytes F.order V.be_bytes V.le_bytes) result) self.new }
        ensures stays { StaysAtEnd E.order self.old result self.new }
    {
        let mut bytes = V::buffer();
        self.read_bytes(V::as_bytes_mut(&mut bytes))?;
        Ok(F::value_of_bytes(bytes))
    }

    #[inline(always)]
    fn read_unary<S: Width>(&mut self) -> Result<u32, Error>
        ensures reads { Reads ⟦<Self as BitRead>⟧.source (unary_decoder (S.BITS == 1)) self.old result self.new }
        ensures stays { StaysAtEnd E.order self.old result self.new }
    {
        let stop = S::BITS == 1;
        // Usually the stop bit is in the next eight bytes.
        if !self.failed && self.bytes.len() >= 8 {
            let run = run_in_window::<E>(self.bytes, self.bit, stop);
            if run + self.bit < 64 {
                self.go_to((self.bit + run + 1) as u64);
                return Ok(run);
            }
        }
        // Otherwise the run is long, or it is near the end.
        self.read_run(stop)
    }

    #[inline(always)]
    fn read_bytes(&mut self, buf: &mut [u8]) -> Result<(), Error>
        ensures reads { Reads ⟦<Self as BitRead>⟧.source (bytes_decoder E.order (length buf.old))
            self.old (result_map (λ _. buf.new) result) self.new }
        ensures stays { StaysAtEnd E.order self.old result self.new }
    {
        if self.failed {
            return Err(Error::Failed);
        }
        if self.bit == 0 {
            self.read_aligned(buf)
        } else {
            self.read_shifted(buf)
        }
    }

    fn skip(&mut self, bits: u32) -> Result<(), Error>
        ensures reads { Reads ⟦<Self as BitRead>⟧.source (skip_decoder bits)
            self.old result self.new }
        ensures stays { StaysAtEnd E.order self.old result self.new }
    {
        if self.failed {
            return Err(Error::Failed);
        }
        // Counted from the first byte left, as `bit` is.
        let total = self.bit as u64 + bits as u64;
        let bytes = self.bytes;
        if (total + 7) / 8 > bytes.len() as u64 {
            return Err(self.refuse());
        }
        self.go_to(total);
        Ok(())
    }

    fn byte_aligned(&self) -> bool {
        !self.failed && self.bit == 0
    }

    fn byte_align(&mut self) {
        // A reader that has failed keeps its place.
        if !self.failed {
            self.go_on((8 - self.bit) % 8);
        }
    }

    fn fail(&mut self) {
        self.failed = true;
    }
}
