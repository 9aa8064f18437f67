//! Bytes in memory, as the streams that a play reads.
use crate::call::{Call, number};
use crate::form::Form;
use crate::objection::Objection;
use bitstream_io::{SeekSource, Slice, Source};
use std::io;
use std::io::{Cursor, Read, Seek, SeekFrom};

/// Bytes in memory.
#[derive(Drop)]
pub enum Memory<'a> {
    /// std's cursor.
    Cursor(Cursor<&'a [u8]>),
    /// The library's own source.
    Slice(Slice<'a>),
}

impl<'a> Memory<'a> {
    /// Returns a cursor over bytes at the byte to which the first call sets it, or at the first byte.
    pub fn cursor(bytes: &'a [u8], calls: &[Call<'_>]) -> Result<Memory<'a>, Objection> {
        let mut cursor = Cursor::new(bytes);
        if let Some(call) = calls.first() {
            if matches!(call.form, Form::Cursor) {
                cursor.set_position(number(call.value)?);
            }
        }
        Ok(Memory::Cursor(cursor))
    }

    /// Returns the index of its current byte.
    pub fn position(&mut self) -> usize {
        match Seek::seek(self, SeekFrom::Current(0)) {
            Ok(at) => at as usize,
            Err(_) => usize::MAX,
        }
    }
}

impl Read for Memory<'_> {
    fn read(&mut self, buf: &mut [u8]) -> io::Result<usize> {
        match self {
            Memory::Cursor(cursor) => cursor.read(buf),
            Memory::Slice(slice) => {
                Source::read_exact(slice, buf)?;
                Ok(buf.len())
            }
        }
    }
}

impl Seek for Memory<'_> {
    fn seek(&mut self, to: SeekFrom) -> io::Result<u64> {
        match self {
            Memory::Cursor(cursor) => Seek::seek(cursor, to),
            Memory::Slice(slice) => SeekSource::seek(slice, to),
        }
    }
}
