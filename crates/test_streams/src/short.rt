//! A stream with short reads and writes.
ghost use Rattle.std.specs.Prelude.{◌≡◌, ◌≤◌, IfOk, true};
ghost use Rattle.std.specs.Io.KnownBytes.{ReadConsumes, WriteAppends};
ghost use Rattle.std.specs.Io.{ReadsAtMost, WritesAtMost};

use std::io;
use std::io::{Read, Seek, SeekFrom, Write};

/// Moves only one byte at each `read` or `write`, if `short` is true.
#[derive(Drop)]
pub struct Short<S> {
    /// The stream that it wraps.
    pub inner: S,
    /// True for short reads and writes of one byte, false to pass requests on unchanged.
    pub short: bool,
}

impl<S: Read> Read for Short<S> {
    ghost remaining = { λ d. S.remaining d.inner };

    fn read(&mut self, buf: &mut [u8]) -> io::Result<usize>
        ensures bound { ReadsAtMost result buf.new }
        ensures bytes { ReadConsumes (S.remaining self.old.inner) (S.remaining self.new.inner)
            result buf.new }
        ensures one { self.old.short ≡ true → IfOk result (λ n. n ≤ 1) }
        ensures same { self.new.short ≡ self.old.short }
    {
        if self.short && !buf.is_empty() {
            self.inner.read(&mut buf[..1])
        } else {
            self.inner.read(buf)
        }
    }
}

impl<S: Write> Write for Short<S> {
    ghost contents = { λ d. S.contents d.inner };

    fn write(&mut self, buf: &[u8]) -> io::Result<usize>
        ensures bound { WritesAtMost result buf.now }
        ensures bytes { WriteAppends (S.contents self.old.inner) (S.contents self.new.inner)
            result buf.now }
        ensures one { self.old.short ≡ true → IfOk result (λ n. n ≤ 1) }
        ensures same { self.new.short ≡ self.old.short }
    {
        if self.short && !buf.is_empty() {
            self.inner.write(&buf[..1])
        } else {
            self.inner.write(buf)
        }
    }

    fn flush(&mut self) -> io::Result<()> {
        self.inner.flush()
    }
}

impl<S: Seek> Seek for Short<S> {
    ghost stream_position = { λ d. S.stream_position d.inner };

    ghost stream_bytes = { λ d. S.stream_bytes d.inner };

    fn seek(&mut self, to: SeekFrom) -> io::Result<u64> {
        self.inner.seek(to)
    }
}
