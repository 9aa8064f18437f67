//! Prints records as lines of JSON.
//!
//! Made by `./format --program` from ../bitstream_callers/formats/primary_header.fields: edit that file and make this one anew.

use crate::ended::Ended;
use crate::primary_header_json::print_primary_header;
use crate::skip::Skip;
use bitstream_callers::primary_header::{PrimaryHeader, PrimaryHeaderError};
use bitstream_io::{BE, BitReader, Error};
use std::alloc::Global;
use std::io;
use std::io::{ErrorKind, Read, Write};

/// The number of bytes that are requested at once.
const CHUNK: usize = 65536;

/// The number of the next record, the byte that comes next, and the bytes before the record: all, and those left.
#[derive(Clone, Copy, Debug)]
struct Position {
    number: u64,
    byte: u64,
    skip: u64,
    left: u64,
}

impl Position {
    /// Moves past a record of `size` bytes, after which `skip` bytes are to be skipped.
    fn pass(&mut self, size: usize, skip: u64) {
        self.number = self.number.saturating_add(1);
        self.byte = self.byte.saturating_add(size as u64);
        self.skip = skip;
        self.left = skip;
    }

    /// Skips the bytes to skip that are in `bytes`, and returns the bytes after them.
    fn skip<'a>(&mut self, bytes: &'a [u8]) -> &'a [u8] {
        let count = self.left.min(bytes.len() as u64);
        self.byte = self.byte.saturating_add(count);
        self.left = self.left.saturating_sub(count);
        bytes.get(count as usize..).unwrap_or(&[])
    }
}

/// Returns true if the bytes end inside the record.
fn is_torn(error: &PrimaryHeaderError) -> bool {
    matches!(error, PrimaryHeaderError::Reader(Error::EndOfInput))
}

/// Prints the whole records at the start of some bytes, and returns the bytes that are left.
fn show_held<'a, W: Write>(
    held: &'a [u8],
    skip: Skip<'_>,
    at: &mut Position,
    out: &mut W,
) -> Result<&'a [u8], Ended> {
    let mut rest = held;
    for _ in 0..held.len() {
        rest = at.skip(rest);
        if rest.is_empty() {
            break;
        }
        let mut reader = BitReader::<_, BE>::over(rest);
        match PrimaryHeader::read(&mut reader) {
            Ok(record) => {
                print_primary_header(&record, out)?;
                out.write_all(b"\n")?;
                let size = rest.len().saturating_sub(reader.rest().len());
                rest = reader.rest();
                at.pass(size, skip.after(&record, at.number)?);
            }
            Err(error) if is_torn(&error) => break,
            Err(error) => {
                return Err(Ended::Refused {
                    number: at.number,
                    start: at.byte,
                    error,
                });
            }
        }
    }
    Ok(rest)
}

/// Requests some bytes. If a signal interrupts the request, requests them again.
fn read_some<R: Read>(input: &mut R, chunk: &mut [u8]) -> io::Result<usize> {
    for _ in 0..u64::MAX {
        match input.read(chunk) {
            Err(error) if error.kind() == ErrorKind::Interrupted => {}
            done => return done,
        }
    }
    Ok(0)
}

/// Prints each record of an input, and skips bytes after it. All that was read is printed before more is requested.
pub fn show<R: Read, W: Write>(
    alloc: Global,
    input: &mut R,
    skip: Skip<'_>,
    out: &mut W,
) -> Result<(), Ended> {
    let mut chunk = vec![in alloc; 0u8; CHUNK]?;
    let mut held: Vec<u8> = Vec::new(alloc);
    let mut at = Position {
        number: 0,
        byte: 0,
        skip: 0,
        left: 0,
    };
    for _ in 0..u64::MAX {
        out.flush()?;
        let count = read_some(input, chunk.as_mut_slice())?;
        let Some(more) = chunk.get(..count) else {
            break
        };
        if more.is_empty() {
            break;
        }
        held.extend_from_slice(more)?;
        let left = show_held(held.as_slice(), skip, &mut at, out)?.len();
        let done = held.len().saturating_sub(left);
        held.as_mut_slice().copy_within(done.., 0);
        held.truncate(left);
    }
    ended(at, held.len())
}

/// Returns an error unless the input ends after a record. `held` is the number of bytes of the next record.
fn ended(at: Position, held: usize) -> Result<(), Ended> {
    if at.left > 0 {
        return Err(Ended::Short {
            number: at.number.saturating_sub(1),
            missing: at.left,
            size: at.skip,
        });
    }
    if held == 0 {
        return Ok(());
    }
    Err(Ended::Torn {
        number: at.number,
        start: at.byte,
        end: at.byte.saturating_add(held as u64),
    })
}
