//! Runs of equal bits in memory.
ghost use Rattle.std.specs.Prelude.{◌≡◌, ◌+◌, ◌*◌, ◌<◌, ◌≤◌, not, drop, length, replicate};
ghost use Rattle.bitstream_count.specs.Unary.{lead};
ghost use Rattle.bitstream_number.specs.Word.{bits, word};
ghost use Rattle.bitstream_stream.specs.Reading.Memory.{rest_bits};
ghost use Rattle.bitstream_stream.specs.Reading.Reads.{Reads};
ghost use Rattle.bitstream_stream.specs.Reading.ReadTable.{unary_decoder};

use super::SliceReader;
use super::window::load_eight;
use bitstream_count::error::Error;
use bitstream_order::order::Endianness;

/// Skips the first `bit` bits, and returns the number of bits before the next `stop` bit, if that
/// stop bit is in the first eight bytes.
#[inline(always)]
pub(super) fn run_in_window<E: Endianness>(bytes: &[u8], bit: u32, stop: bool) -> u32
    requires few { bit < 8 }
    requires eight { 8 ≤ length bytes.now }
    ensures most { result ≤ 64 }
    // If the sum of `bit` and the result is less than 64, the result is the number of bits before
    // the stop bit.
    ensures run { result + bit < 64 → result ≡ lead stop (rest_bits E.order bytes.now bit) }
{
    E::lead_behind(load_eight::<E>(bytes), bit, stop)
}

/// Returns 64 bits that differ from `stop`, as a number.
fn window_without<E: Endianness>(stop: bool) -> u64
    ensures { word E.order 64 result ≡ replicate 64 (not stop) }
{
    if stop { 0 } else { u64::MAX }
}

/// Returns the number of leading bytes without a `stop` bit, counted eight at a time.
fn bytes_without<E: Endianness>(bytes: &[u8], stop: bool) -> usize
    ensures within { result ≤ length bytes.now }
    // The bits of these bytes come before the first bit that is `stop`.
    ensures run { lead stop (bits E.order bytes.now)
        ≡ 8 * result + lead stop (bits E.order (drop result bytes.now)) }
{
    let without = window_without::<E>(stop);
    let mut at = 0;
    while bytes.len() - at >= 8 && load_eight::<E>(&bytes[at..]) == without {
        at += 8;
    }
    at
}

/// Returns `first` plus the number of bits other than `stop` at the start of some bytes.
fn run_from<E: Endianness>(bytes: &[u8], first: u32, stop: bool) -> u128
    ensures { result ≡ first + lead stop (bits E.order bytes.now) }
{
    let mut at = bytes_without::<E>(bytes, stop);
    let mut count = first as u128 + 8 * at as u128;
    while at < bytes.len() {
        let lead = E::run_length(bytes[at], stop);
        // The stop bit is in this byte.
        if lead < 8 {
            return count + lead as u128;
        }
        count += 8;
        at += 1;
    }
    // There is no stop bit, so all bits count.
    count
}

/// Skips the first `bit` bits of some bytes, and returns the number of bits before the next `stop`
/// bit, or of all bits left if there is none.
pub(super) fn run_length<E: Endianness>(bytes: &[u8], bit: u32, stop: bool) -> u128
    requires few { bit < 8 }
    requires some { 0 < bit → 1 ≤ length bytes.now }
    ensures { result ≡ lead stop (rest_bits E.order bytes.now bit) }
{
    if bit == 0 {
        return run_from::<E>(bytes, 0, stop);
    }
    // The bits after the rest of the first byte are meaningless, so a stop bit there does not
    // count.
    let lead = E::run_length(E::rest(bytes[0], bit), stop);
    if lead < 8 - bit {
        return lead as u128;
    }
    run_from::<E>(&bytes[1..], 8 - bit, stop)
}

impl<'a, E: Endianness> SliceReader<'a, E> {
    ghost use Rattle.bitstream_stream.specs.Reading.MemorySource.{memory_source};
    ghost use Rattle.bitstream_stream.specs.Reading.MemoryTakes.{StaysAtEnd};

    /// Reads a run that is long or near the end.
    #[inline(never)]
    pub(super) fn read_run(&mut self, stop: bool) -> Result<u32, Error>
        ensures reads { Reads (memory_source E.order) (unary_decoder stop) self.old result self.new }
        ensures stays { StaysAtEnd E.order self.old result self.new }
    {
        if self.failed {
            return Err(Error::Failed);
        }
        let run = run_length::<E>(self.bytes, self.bit, stop);
        let most = 8 * self.bytes.len() as u128 - self.bit as u128;
        // Only 2^32 bits are taken, as in every reader.
        if run > u32::MAX as u128 {
            self.go_to(self.bit as u64 + 4294967296);
            self.failed = true;
            return Err(Error::RunTooLong);
        }
        // All bits left are in the run: there is no stop bit.
        if run >= most {
            return Err(self.refuse());
        }
        self.go_to(self.bit as u64 + run as u64 + 1);
        Ok(run as u32)
    }
}
