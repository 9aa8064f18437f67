//! A reader of the bits of bytes in memory, which knows its place, the bytes left and its end.
ghost use Rattle.std.specs.Prelude.{◌≡◌, ◌+◌, ◌-◌, ◌*◌, ◌<◌, ◌≤◌, ◌^◌, ◌↔◌, IsTrue, false, [], length, min, Some, IfSome};
ghost use Rattle.bitstream_order.specs.Streaming.Tail.{IsTail};
ghost use Rattle.bitstream_stream.specs.Reading.Reader.{new_reader_state};

use crate::capped::capped;
use crate::read::BitRead;
use bitstream_order::ghosts::GhostRefusals;
use bitstream_order::order::Endianness;
use std::marker::PhantomData;

mod bytes;
mod convert;
mod moves;
mod read;
mod run;
mod seek;
mod window;
mod words;

/// Reads bits from bytes in memory: [`over`](SliceReader::over) makes one.
///
/// It has no queue: its place is a bit of the bytes. So it reports the number of bits
/// [read](SliceReader::bits_read) and [left](SliceReader::bits_left) and the
/// [rest](SliceReader::rest) of the bytes, and it can [seek](SliceReader::seek_bits) to any bit. It
/// fails only at the end of the bytes, with [`EndOfInput`](bitstream_count::error::Error). A single
/// read that fails takes no bit. If a call made of several reads fails, its completed reads stay
/// taken: groups, array items, bits of a prefix code, or pieces of 4096 bytes of
/// [read_to_vec](crate::read::BitRead::read_to_vec). [take_bytes](SliceReader::take_bytes) and
/// [part](SliceReader::part) keep the alignment that they begin with. After such an error the
/// reader has failed: each later call for a value returns `Failed`, until a seek. The
/// [bits read](SliceReader::bits_read), the [bits left](SliceReader::bits_left) and the rest still
/// report where it stopped.
///
/// # Examples
///
/// ```
/// use bitstream_io::{BE, BitRead, Error, SliceReader};
///
/// let mut reader = SliceReader::<BE>::over(&[0xb1, 0xed, 0x3b]);
/// assert_eq!(rt; reader.read_unsigned_var::<u16>(12)?, 0xb1e);
/// assert_eq!(rt; (reader.bits_read(), reader.bits_left()), (12, 12));
/// assert_eq!(rt; reader.rest(), [0x3b].as_slice());
/// assert!(rt; matches!(reader.read_unsigned_var::<u16>(13), Err(Error::EndOfInput)));
/// ```
#[derive(Drop)]
pub struct SliceReader<'a, E> {
    all: &'a [u8],
    // The bytes from the byte that holds the next bit on.
    bytes: &'a [u8],
    // The number of bits already taken from that byte.
    bit: u32,
    failed: bool,
    refusals: GhostRefusals,
    order: PhantomData<E>,
    ghost tail: { IsTail bytes.now all.now },
    ghost few: { bit < 8 },
    ghost some: { 0 < bit → 1 ≤ length bytes.now },
}

impl<'a, E: Endianness> SliceReader<'a, E> {
    ghost use Rattle.bitstream_stream.specs.Reading.Reads.{bits_left};
    ghost use Rattle.bitstream_stream.specs.Reading.Memory.{taken_bits};
    ghost use Rattle.bitstream_stream.specs.Reading.MemorySeek.{memory_bytes};
    ghost use Rattle.bitstream_stream.specs.Reading.MemorySource.{memory_source};

    /// Returns a reader of these bytes, at their start.
    pub fn over(bytes: &'a [u8]) -> SliceReader<'a, E>
        // Nothing is taken or queued yet, and the bytes left are these.
        ensures state { (memory_source E.order).state result ≡ new_reader_state (Some bytes.now) [] }
        ensures bytes { memory_bytes result ≡ bytes.now }
    {
        SliceReader {
            all: bytes,
            bytes,
            bit: 0,
            failed: false,
            refusals: GhostRefusals::new(),
            order: PhantomData,
        }
    }

    /// Returns the number of bits taken.
    fn taken(&self) -> u128
        ensures { result ≡ taken_bits self.now.all.now self.now.bytes.now self.now.bit }
    {
        8 * (self.all.len() - self.bytes.len()) as u128 + self.bit as u128
    }

    /// Returns the number of bits read, or 2^64 - 1 if that number is greater. A call that failed
    /// because too few bits were left counts only the parts that it had read before.
    pub fn bits_read(&self) -> u64
        ensures { result ≡ min ((memory_source E.order).state self.now).taken u64.MAX }
    {
        capped(self.taken())
    }

    /// Returns the number of bits left, or 2^64 - 1 if that number is greater. After a failure
    /// these are the bits of the slice after the [bits read](SliceReader::bits_read), although no
    /// call reads them.
    pub fn bits_left(&self) -> u64
        // The bits of all bytes that were not taken, even after a failure.
        ensures all { result
            ≡ min (8 * length (memory_bytes self.now) - ((memory_source E.order).state self.now).taken) u64.MAX }
        // Unless the reader has failed, the result is at most the number of bits left.
        ensures most { ((memory_source E.order).state self.now).failed ≡ false
            → IfSome (bits_left E.order ((memory_source E.order).state self.now))
            (λ left. result ≤ length left) }
        // If that number is below 2^64 and the reader has not failed, it is the result.
        ensures exact { ((memory_source E.order).state self.now).failed ≡ false
            → IfSome (bits_left E.order ((memory_source E.order).state self.now))
            (λ left. length left < 2 ^ 64 → result ≡ length left) }
    {
        capped(8 * self.bytes.len() as u128 - self.bit as u128)
    }

    /// Returns true if no bit is left: all bits of the slice were read. A failure does not change that.
    pub fn is_at_end(&self) -> bool
        // True if and only if all bits of all bytes were taken, even after a failure.
        ensures all { IsTrue result
            ↔ (((memory_source E.order).state self.now).taken ≡ 8 * length (memory_bytes self.now)) }
        // Unless the reader has failed, true if and only if no bit is left.
        ensures left { ((memory_source E.order).state self.now).failed ≡ false
            → IfSome (bits_left E.order ((memory_source E.order).state self.now))
            (λ left. IsTrue result ↔ (length left ≡ 0)) }
    {
        self.bytes.is_empty()
    }

    /// Returns the bytes of which no bit is taken, even if the reader has failed.
    pub fn rest(&self) -> &'a [u8]
        ensures { ((memory_source E.order).state self.now).bytes ≡ Some result.now }
    {
        let bytes = self.bytes;
        if self.bit > 0 { &bytes[1..] } else { bytes }
    }
}
