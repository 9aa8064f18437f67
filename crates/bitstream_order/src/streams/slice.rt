//! Bytes in memory, as a source whose reads fail only if too few bytes are left.
ghost use Rattle.std.specs.Prelude.{◌≡◌, ◌+◌, ◌^◌, ◌<◌, [], length, unsigned_abs, Some};
ghost use Rattle.std.specs.Int.{FitsUnsigned, w64};
ghost use Rattle.std.specs.Option.{SomeIff};
ghost use Rattle.bitstream_order.specs.Streaming.Tail.{IsTail};

use crate::kernels::copy::{copy, copy_prefix};
use crate::streams::seek::SeekSource;
use crate::streams::source::Source;
use std::io;
use std::io::{ErrorKind, SeekFrom};

/// A source that reads a slice of bytes, starting at its first byte. A read fails if, and only if,
/// it asks for more bytes than are left. The kind of the error is then `UnexpectedEof`, and no byte
/// is taken. The results of a reader over a `Slice` therefore depend only on the bytes. (std's
/// contract does not state this for a `&[u8]` as a stream.)
///
/// A `Slice` seeks as std's `Cursor` does. A position past the end is allowed, and no bytes are
/// left there. A seek fails if, and only if, the new position in bytes would be below 0 or above
/// 2^64 - 1. The kind of the error is then `InvalidInput`, and the position is unchanged.
///
/// # Examples
///
/// ```
/// use bitstream_io::{BE, BitRead, BitReader, Error};
///
/// let mut reader = BitReader::<_, BE>::over(&[0xb1, 0xed]);
/// assert_eq!(rt; reader.read_unsigned_var::<u16>(12)?, 0xb1e);
/// assert!(rt; matches!(reader.read_unsigned_var::<u8>(8), Err(Error::EndOfInput)));
/// ```
#[derive(Drop)]
pub struct Slice<'a> {
    // The bytes left.
    bytes: &'a [u8],
    all: &'a [u8],
    // The number of bytes from the end to the position, if the position is past the end, or else 0.
    past: u64,
    ghost tail: { IsTail bytes.now all.now },
    ghost ended: { 0 < past → bytes.now ≡ [] },
    ghost places: { length all.now + past < 2 ^ 64 },
}

impl<'a> Slice<'a> {
    ghost use Rattle.bitstream_order.specs.Streaming.Slice.{byte_meant, slice_bytes, slice_left, slice_place, slice_remaining};

    /// Returns a source that reads these bytes, starting at the first byte.
    pub fn new(bytes: &'a [u8]) -> Slice<'a>
        // All these bytes are left.
        ensures bytes { slice_left result ≡ bytes.now }
        // They are all bytes of the source, from position 0 on.
        ensures all { slice_bytes result ≡ bytes.now }
        ensures place { slice_place result ≡ 0 }
    {
        Slice {
            bytes,
            all: bytes,
            past: 0,
        }
    }

    /// Returns the bytes left.
    pub fn rest(&self) -> &'a [u8]
        ensures { slice_remaining self.now ≡ Some result.now }
    {
        self.bytes
    }

    /// Returns the position in bytes from the start.
    fn place(&self) -> u64
        ensures { result ≡ slice_place self.now }
    {
        (self.all.len() - self.bytes.len()) as u64 + self.past
    }

    /// Returns the position in bytes that `to` means, or `None` if that is below 0 or above
    /// 2^64 - 1.
    fn place_meant(&self, to: SeekFrom) -> Option<u64>
        ensures { SomeIff result
            (FitsUnsigned w64 (byte_meant (slice_place self.now) (length (slice_bytes self.now)) to))
            (unsigned_abs (byte_meant (slice_place self.now) (length (slice_bytes self.now)) to)) }
    {
        match to {
            SeekFrom::Start(place) => Some(place),
            SeekFrom::End(offset) => (self.all.len() as u64).checked_add_signed(offset),
            SeekFrom::Current(offset) => self.place().checked_add_signed(offset),
        }
    }

    /// Moves to a position in bytes from the start.
    fn go_to(&mut self, place: u64)
        // The position may be past the end.
        ensures place { slice_place self.new ≡ place }
        ensures all { slice_bytes self.new ≡ slice_bytes self.old }
    {
        let all = self.all;
        let prefix = place.min(all.len() as u64);
        self.bytes = &all[prefix as usize..];
        self.past = place - prefix;
    }
}

impl<'a> Source for Slice<'a> {
    ghost use Rattle.bitstream_order.specs.Streaming.Slice.{slice_stream};

    ghost stream = { slice_stream };

    #[inline(always)]
    fn read_exact(&mut self, buf: &mut [u8]) -> io::Result<()> {
        let bytes = self.bytes;
        if bytes.len() < buf.len() {
            return Err(io::Error::from(ErrorKind::UnexpectedEof));
        }
        let (prefix, back) = bytes.split_at(buf.len());
        copy(buf, prefix);
        self.bytes = back;
        Ok(())
    }

    /// Takes the next `count` bytes. If `constant` is true, copies only these bytes. Otherwise,
    /// fills the whole buffer if enough bytes are left.
    #[inline(always)]
    fn read_prefix(&mut self, buf: &mut [u8], count: usize, constant: bool) -> io::Result<()> {
        if constant {
            return self.read_exact(&mut buf[..count]);
        }
        let bytes = self.bytes;
        if !copy_prefix(buf, bytes, count) {
            return Err(io::Error::from(ErrorKind::UnexpectedEof));
        }
        let (_, rest) = bytes.split_at(count);
        self.bytes = rest;
        Ok(())
    }
}

impl<'a> SeekSource for Slice<'a> {
    ghost use Rattle.bitstream_order.specs.Streaming.Slice.{slice_bytes, slice_place, slice_refuses_seek};

    ghost position = { λ slice. Some (slice_place slice) };

    ghost bytes = { λ slice. Some (slice_bytes slice) };

    ghost refuses_seek = { slice_refuses_seek };

    fn seek(&mut self, to: SeekFrom) -> io::Result<u64> {
        match self.place_meant(to) {
            Some(place) => {
                self.go_to(place);
                Ok(place)
            }
            None => Err(io::Error::from(ErrorKind::InvalidInput)),
        }
    }
}
