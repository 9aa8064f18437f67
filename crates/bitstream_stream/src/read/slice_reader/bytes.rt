//! Reads of whole bytes in memory, and loans of parts of them.
ghost use Rattle.std.specs.Prelude.{◌≡◌, ℕ, ◌+◌, ◌*◌, ◌≤◌, false, [], List, length, take, Some, IfOk};
ghost use Rattle.bitstream_order.specs.Moving.Gather.{result_map};
ghost use Rattle.bitstream_stream.specs.Reading.Reads.{Reads};
ghost use Rattle.bitstream_stream.specs.Reading.ReadTable.{bytes_decoder, whole_bytes_decoder};
ghost use Rattle.bitstream_stream.specs.Reading.Reader.{new_reader_state};

use super::SliceReader;
use bitstream_count::error::Error;
use bitstream_order::kernels::shift::shift;
use bitstream_order::order::Endianness;

impl<'a, E: Endianness> SliceReader<'a, E> {
    ghost use Rattle.bitstream_stream.specs.Reading.MemorySource.{memory_source};
    ghost use Rattle.bitstream_stream.specs.Reading.MemoryTakes.{StaysAtEnd};

    /// Reads bytes at a byte boundary.
    #[inline(always)]
    pub(super) fn read_aligned(&mut self, buf: &mut [u8]) -> Result<(), Error>
        requires fine { self.old.failed ≡ false }
        requires none { self.old.bit ≡ 0 }
        ensures reads { Reads (memory_source E.order) (bytes_decoder E.order (length buf.old)) self.old
            (result_map (λ _. buf.new) result) self.new }
        ensures stays { StaysAtEnd E.order self.old result self.new }
    {
        let count = buf.len();
        let bytes = self.bytes;
        if bytes.len() < count {
            return Err(self.refuse());
        }
        buf.copy_from_slice(&bytes[..count]);
        self.go_bytes(count);
        Ok(())
    }

    /// Reads bytes that do not start at a byte boundary.
    pub(super) fn read_shifted(&mut self, buf: &mut [u8]) -> Result<(), Error>
        requires fine { self.old.failed ≡ false }
        requires some { 1 ≤ self.old.bit }
        ensures reads { Reads (memory_source E.order) (bytes_decoder E.order (length buf.old)) self.old
            (result_map (λ _. buf.new) result) self.new }
        ensures stays { StaysAtEnd E.order self.old result self.new }
    {
        let count = buf.len();
        let bytes = self.bytes;
        // Off a byte boundary the bits lie in one byte more than the buffer has.
        if bytes.len() <= count {
            return Err(self.refuse());
        }
        // The rest of the first byte is the queue, which is put before the other bytes.
        let queued = 8 - self.bit;
        let queue = E::first(E::rest(bytes[0], self.bit), queued);
        buf.copy_from_slice(&bytes[1..count + 1]);
        // The bits left over are not taken: the number of bits taken of the last byte equals the
        // number of bits taken of the first byte.
        let _left = shift::<E>(queue, queued, buf);
        self.go_bytes(count);
        Ok(())
    }

    /// Drops the bits up to the next whole byte, as `byte_align` does. Then takes the next `count`
    /// bytes, and lends them without a copy.
    ///
    /// # Errors
    ///
    /// `EndOfInput` if fewer bytes are left. If so, the reader has failed. `Failed` if it had failed
    /// before.
    pub fn take_bytes(&mut self, count: usize) -> Result<&'a [u8], Error>
        // Takes only the bits up to a whole byte and then `count` bytes, or returns an error.
        ensures reads { Reads (memory_source E.order) (whole_bytes_decoder count) self.old
            (result_map (λ _. tt) result) self.new }
        // If it succeeds, it lends the first `count` of the bytes of which no bit was taken.
        ensures bytes { IfOk result (λ lent. (bytes : List ℕ)
            → ((memory_source E.order).state self.old).bytes ≡ Some bytes
            → lent.now ≡ take count bytes) }
    {
        if self.failed {
            return Err(Error::Failed);
        }
        // The bits up to a whole byte are dropped even if too few bytes are left.
        self.go_on((8 - self.bit) % 8);
        let bytes = self.bytes;
        if bytes.len() < count {
            return Err(self.refuse());
        }
        self.go_bytes(count);
        Ok(&bytes[..count])
    }

    /// Takes the next `count` bytes, as [`take_bytes`](SliceReader::take_bytes) does, and returns a
    /// reader of only these bytes.
    ///
    /// # Errors
    ///
    /// `EndOfInput` if fewer bytes are left. If so, this reader has failed. `Failed` if it had failed
    /// before.
    pub fn part(&mut self, count: usize) -> Result<SliceReader<'a, E>, Error>
        // Takes only the bits up to a whole byte and then `count` bytes, or returns an error.
        ensures reads { Reads (memory_source E.order) (whole_bytes_decoder count) self.old
            (result_map (λ _. tt) result) self.new }
        // If it succeeds, it is a new reader of the first `count` of the bytes of which no bit was
        // taken.
        ensures part { IfOk result (λ part. (bytes : List ℕ)
            → ((memory_source E.order).state self.old).bytes ≡ Some bytes
            → (memory_source E.order).state part ≡ new_reader_state (Some (take count bytes)) []) }
    {
        match self.take_bytes(count) {
            Ok(bytes) => Ok(SliceReader::over(bytes)),
            Err(error) => Err(error),
        }
    }
}
