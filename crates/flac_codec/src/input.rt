//! The bytes of a reader, fetched in pieces.
ghost use Rattle.std.specs.Prelude.{◌≡◌, ◌+◌, ◌*◌, ◌<◌, ◌≤◌, length, max, drop, false, true, IfErr, IfOk, OnOk};
ghost use Rattle.std.specs.Io.KnownBytes.{IsAtEnd, Keeps, ReadConsumes};
ghost use Rattle.flac_codec.specs.Outside.{IsOutside};

use bitstream_io::Error;
use std::alloc::{AllocError, Global};
use std::io::{ErrorKind, Read};

/// The number of bytes that one request asks for.
const PIECE: usize = 16384;

/// A reader, and the bytes that were fetched from it and are not yet taken.
///
/// It asks its reader for 16 KiB at a time, and keeps only the bytes that are not yet taken.
#[derive(Drop)]
pub struct Input<R> {
    alloc: Global,
    reader: R,
    // The first `start` of these bytes are taken.
    bytes: Vec<u8>,
    start: usize,
    ghost within: { start ≤ length bytes.items },
}

impl<R: Read> Input<R> {
    ghost use Rattle.flac_codec.specs.Input.{bytes_left, fetched};

    /// Returns an input over a reader. Nothing is fetched yet.
    pub fn new(alloc: Global, reader: R) -> Input<R>
    where
        R: Drop,
        ensures { bytes_left R.remaining result ≡ R.remaining reader }
    {
        Input {
            alloc,
            reader,
            bytes: Vec::new(alloc),
            start: 0,
        }
    }

    /// Returns the bytes that were fetched and are not yet taken.
    pub fn bytes(&self) -> &[u8]
        ensures { result.now ≡ fetched self.now }
    {
        &self.bytes[self.start..]
    }

    /// Takes the first `count` of the fetched bytes, or all of them.
    pub fn take(&mut self, count: usize)
        ensures fetched { fetched self.new ≡ drop count (fetched self.old) }
        ensures reader { self.new.reader ≡ self.old.reader }
    {
        self.start += count.min(self.bytes.len() - self.start);
    }

    /// Fetches bytes until at least `count` of them are there, or the reader ends. Returns true if they are there, and false if
    /// the fetched bytes are all that are left. Fetches none if they are there; otherwise at most 2 * `count` bytes and one piece
    /// more are there in the end.
    ///
    /// # Errors
    ///
    /// `OutOfMemory` if an allocation fails, and `Stream` if the reader fails. The bytes left stay the same.
    pub fn fill(&mut self, count: usize) -> Result<bool, Error>
        // If the bytes left are known, they stay the same.
        ensures left { Keeps (bytes_left R.remaining self.old) (bytes_left R.remaining self.new) }
        ensures enough { IfOk result (λ there. there ≡ true → count ≤ length (fetched self.new)) }
        ensures few { IfOk result (λ there. there ≡ false → length (fetched self.new) < count) }
        // The bytes that are there are no more than before, or than twice as many and a piece.
        ensures most { length (fetched self.new) ≤ max (length (fetched self.old)) (2 * count + 16384) }
        ensures end { IfOk result (λ there. there ≡ false → IsAtEnd (R.remaining self.new.reader)) }
        ensures outside { IfErr result IsOutside }
    {
        if self.bytes.len() - self.start >= count {
            return Ok(true);
        }
        self.drop_taken()?;
        while self.bytes.len() < count.saturating_mul(2) {
            if !self.fetch()? {
                return Ok(self.bytes.len() - self.start >= count);
            }
        }
        Ok(true)
    }

    /// Fetches bytes by one request. Returns false at the end of the reader.
    fn fetch(&mut self) -> Result<bool, Error>
        ensures left { Keeps (bytes_left R.remaining self.old) (bytes_left R.remaining self.new) }
        ensures start { self.new.start ≡ self.old.start }
        ensures more { IfOk result (λ there. there ≡ true → length self.old.bytes.items < length self.new.bytes.items) }
        ensures most { length self.new.bytes.items ≤ length self.old.bytes.items + 16384 }
        ensures end { IfOk result (λ there. there ≡ false → IsAtEnd (R.remaining self.new.reader)) }
        ensures outside { IfErr result IsOutside }
    {
        let there = self.bytes.len();
        self.bytes.resize(there.saturating_add(PIECE), 0)?;
        match read_some(&mut self.reader, &mut self.bytes[there..]) {
            Ok(count) => {
                self.bytes.truncate(there + count);
                Ok(count > 0)
            }
            Err(error) => {
                self.bytes.truncate(there);
                Err(error)
            }
        }
    }

    /// Drops the bytes that are taken.
    fn drop_taken(&mut self) -> Result<(), AllocError>
        ensures fetched { fetched self.new ≡ fetched self.old }
        ensures reader { self.new.reader ≡ self.old.reader }
        ensures start { OnOk result (self.new.start ≡ 0) }
    {
        if self.start > 0 {
            let mut rest = Vec::new(self.alloc);
            rest.extend_from_slice(&self.bytes[self.start..])?;
            self.bytes = rest;
            self.start = 0;
        }
        Ok(())
    }
}

/// Reads some bytes by one request, which is repeated if it was interrupted. Returns their number, which is 0 only at the end
/// of the reader or for an empty buffer.
fn read_some<R: Read>(reader: &mut R, buf: &mut [u8]) -> Result<usize, Error>
    ensures bound { IfOk result (λ count. count ≤ length buf.new) }
    ensures bytes { ReadConsumes (R.remaining reader.old) (R.remaining reader.new) result buf.new }
    ensures outside { IfErr result IsOutside }
{
    for _ in 0..u64::MAX {
        match reader.read(buf) {
            Ok(count) => return Ok(count),
            Err(error) => {
                if error.kind() != ErrorKind::Interrupted {
                    return Err(Error::Stream(error.kind()));
                }
            }
        }
    }
    Err(Error::Stream(ErrorKind::Interrupted))
}
