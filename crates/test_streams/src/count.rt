//! A stream that counts.
ghost use Rattle.std.specs.Prelude.{◌≡◌, OnOk};
ghost use Rattle.test_streams.specs.Counting.{count_up, counted_if_refused};
ghost use Rattle.std.specs.Io.{ReadsAtMost, WritesAtMost};
ghost use Rattle.std.specs.Io.KnownBytes.{ReadConsumes, WriteAppends, Consumes, Appends, Keeps};
ghost use Rattle.std.specs.Io.Seek.{SeekMoves};

use std::io;
use std::io::{Read, Seek, SeekFrom, Write};

/// Counts the requests made of a stream, and the refused ones.
#[derive(Drop)]
pub struct Count<S> {
    /// The stream that it wraps.
    pub inner: S,
    /// The number of requests made.
    pub requests: u64,
    /// The number of requests refused.
    pub refused: u64,
}

impl<S> Count<S> {
    /// Counts a request with its result.
    fn note<T>(&mut self, answer: &io::Result<T>)
        ensures inner { self.new.inner ≡ self.old.inner }
        ensures requests { self.new.requests ≡ count_up self.old.requests }
        ensures refused { self.new.refused ≡ counted_if_refused answer.now self.old.refused }
    {
        self.requests = self.requests.saturating_add(1);
        if answer.is_err() {
            self.refused = self.refused.saturating_add(1);
        }
    }
}

impl<S: Read> Read for Count<S> {
    ghost remaining = { λ c. S.remaining c.inner };

    fn read(&mut self, buf: &mut [u8]) -> io::Result<usize>
        ensures bound { ReadsAtMost result buf.new }
        ensures bytes { ReadConsumes (S.remaining self.old.inner) (S.remaining self.new.inner)
            result buf.new }
        ensures requests { self.new.requests ≡ count_up self.old.requests }
        ensures refused { self.new.refused ≡ counted_if_refused result self.old.refused }
    {
        let answer = self.inner.read(buf);
        self.note(&answer);
        answer
    }

    fn read_exact(&mut self, buf: &mut [u8]) -> io::Result<()>
        ensures bytes { OnOk result (Consumes (S.remaining self.old.inner) (S.remaining self.new.inner)
            buf.new) }
        ensures requests { self.new.requests ≡ count_up self.old.requests }
        ensures refused { self.new.refused ≡ counted_if_refused result self.old.refused }
    {
        let answer = self.inner.read_exact(buf);
        self.note(&answer);
        answer
    }
}

impl<S: Write> Write for Count<S> {
    ghost contents = { λ c. S.contents c.inner };

    fn write(&mut self, buf: &[u8]) -> io::Result<usize>
        ensures bound { WritesAtMost result buf.now }
        ensures bytes { WriteAppends (S.contents self.old.inner) (S.contents self.new.inner)
            result buf.now }
        ensures requests { self.new.requests ≡ count_up self.old.requests }
        ensures refused { self.new.refused ≡ counted_if_refused result self.old.refused }
    {
        let answer = self.inner.write(buf);
        self.note(&answer);
        answer
    }

    fn write_all(&mut self, buf: &[u8]) -> io::Result<()>
        ensures bytes { OnOk result (Appends (S.contents self.old.inner) (S.contents self.new.inner)
            buf.now) }
        ensures requests { self.new.requests ≡ count_up self.old.requests }
        ensures refused { self.new.refused ≡ counted_if_refused result self.old.refused }
    {
        let answer = self.inner.write_all(buf);
        self.note(&answer);
        answer
    }

    fn flush(&mut self) -> io::Result<()>
        ensures bytes { Keeps (S.contents self.old.inner) (S.contents self.new.inner) }
        ensures requests { self.new.requests ≡ count_up self.old.requests }
        ensures refused { self.new.refused ≡ counted_if_refused result self.old.refused }
    {
        let answer = self.inner.flush();
        self.note(&answer);
        answer
    }
}

impl<S: Seek> Seek for Count<S> {
    ghost stream_position = { λ c. S.stream_position c.inner };

    ghost stream_bytes = { λ c. S.stream_bytes c.inner };

    fn seek(&mut self, to: SeekFrom) -> io::Result<u64>
        ensures moves { SeekMoves (S.stream_position self.old.inner) (S.stream_position self.new.inner)
            (S.stream_bytes self.old.inner) to result }
        ensures bytes { Keeps (S.stream_bytes self.old.inner) (S.stream_bytes self.new.inner) }
        ensures requests { self.new.requests ≡ count_up self.old.requests }
        ensures refused { self.new.refused ≡ counted_if_refused result self.old.refused }
    {
        let answer = self.inner.seek(to);
        self.note(&answer);
        answer
    }
}
