//! The moves of a reader of bytes in memory, and its failure at the end.
ghost use Rattle.std.specs.Prelude.{◌≡◌, ℕ, ◌+◌, ◌*◌, ◌<◌, ◌≤◌, ◌↔◌, IsTrue, ◌∷◌, length};
ghost use Rattle.bitstream_count.specs.declared.error.Error.TheVariants.{EndOfInput};
ghost use Rattle.bitstream_order.specs.Refusal.{Refusal};
ghost use Rattle.bitstream_stream.specs.Reading.Memory.{end_of};

use super::SliceReader;
use bitstream_count::error::Error;
use bitstream_order::ghosts::GhostRefusals;
use bitstream_order::order::Endianness;

/// Records a failed request at the end of some bytes. It does nothing at run time.
fn note_end(refusals: &mut GhostRefusals, _left: &[u8])
    ghost by: { Refusal }
    requires { by ≡ end_of _left.now }
    ensures { refusals.new.list ≡ by ∷ refusals.old.list }
{
    refusals.push(0);
}

impl<'a, E: Endianness> SliceReader<'a, E> {
    ghost use Rattle.bitstream_stream.specs.Reading.MemoryTakes.{GoesOn, FailsAtEnd};

    /// Returns true if `bits` bits are left.
    #[inline(always)]
    pub(super) fn has(&self, bits: u32) -> bool
        requires { bits ≤ 128 }
        ensures { IsTrue result ↔ (self.now.bit + bits ≤ 8 * length self.now.bytes.now) }
    {
        ((self.bit + bits + 7) / 8) as usize <= self.bytes.len()
    }

    /// Makes the reader fail at the end of its bytes.
    #[inline(never)]
    pub(super) fn refuse(&mut self) -> Error
        ensures error { result ≡ EndOfInput }
        // The reader has failed at its place, and a failed request at the end of its bytes is
        // recorded.
        ensures state { FailsAtEnd self.old self.new }
    {
        self.failed = true;
        let bytes = self.bytes;
        // A byte of which bits are taken counts as fetched, so it is not left.
        if self.bit > 0 {
            note_end(&mut self.refusals, &bytes[1..]);
        } else {
            note_end(&mut self.refusals, bytes);
        }
        Error::EndOfInput
    }

    /// Goes to a bit, counted from the first byte left.
    #[inline(always)]
    pub(super) fn go_to(&mut self, total: u64)
        requires forward { self.old.bit ≤ total }
        requires enough { total ≤ 8 * length self.old.bytes.now }
        ensures { (n : ℕ) → self.old.bit + n ≡ total → GoesOn n self.old self.new }
    {
        let bytes = self.bytes;
        self.bytes = &bytes[(total / 8) as usize..];
        self.bit = (total % 8) as u32;
    }

    /// Advances by whole bytes.
    #[inline(always)]
    pub(super) fn go_bytes(&mut self, count: usize)
        requires { self.old.bit + 8 * count ≤ 8 * length self.old.bytes.now }
        ensures { GoesOn (8 * count) self.old self.new }
    {
        let bytes = self.bytes;
        self.bytes = &bytes[count..];
    }

    /// Advances by a number of bits.
    #[inline(always)]
    pub(super) fn go_on(&mut self, bits: u32)
        requires few { bits ≤ 128 }
        requires enough { self.old.bit + bits ≤ 8 * length self.old.bytes.now }
        ensures { GoesOn bits self.old self.new }
    {
        let total = self.bit + bits;
        let bytes = self.bytes;
        self.bytes = &bytes[(total / 8) as usize..];
        self.bit = total % 8;
    }
}
