//! A stream that refuses.
ghost use Rattle.std.specs.Prelude.{◌≡◌, OnOk, IsOk, IsErrAnd};
ghost use Rattle.test_streams.specs.Refusing.{left_after};
ghost use Rattle.std.specs.IoError.{error_kind};
ghost use Rattle.std.specs.Io.{ReadsAtMost, WritesAtMost};
ghost use Rattle.std.specs.Io.KnownBytes.{ReadConsumes, WriteAppends, Consumes, Appends, Keeps};
ghost use Rattle.std.specs.Io.Seek.{SeekMoves};

use std::io;
use std::io::{ErrorKind, Read, Seek, SeekFrom, Write};

/// Serves `left` requests and refuses the next one. Refuses each later one too, unless `once` is true.
/// A refused request moves no byte.
#[derive(Drop)]
pub struct Refuse<S> {
    /// The stream that it wraps.
    pub inner: S,
    /// The number of requests that it serves before the next one that it refuses; `None` if it
    /// serves all.
    pub left: Option<u32>,
    /// True if it refuses only one request.
    pub once: bool,
    /// The kind of each refusal, which is not `Interrupted`: std would ask again.
    pub kind: ErrorKind,
}

impl<S> Refuse<S> {
    /// Counts a request down, or refuses it.
    fn ask(&mut self) -> io::Result<()>
        ensures refuses { self.old.left ≡ Some 0 → IsErrAnd result (λ e. error_kind e ≡ self.old.kind) }
        ensures serves { ¬ (self.old.left ≡ Some 0) → IsOk result }
        ensures inner { self.new.inner ≡ self.old.inner }
        ensures same { (self.new.once ≡ self.old.once) × (self.new.kind ≡ self.old.kind) }
        ensures left { self.new.left ≡ left_after self.old.once self.old.left }
    {
        let Some(left) = self.left else {
            return Ok(());
        };
        if left > 0 {
            self.left = Some(left - 1);
            return Ok(());
        }
        if self.once {
            self.left = None;
        }
        Err(io::Error::from(self.kind))
    }
}

impl<S: Read> Read for Refuse<S> {
    ghost remaining = { λ r. S.remaining r.inner };

    fn read(&mut self, buf: &mut [u8]) -> io::Result<usize>
        ensures bound { ReadsAtMost result buf.new }
        ensures bytes { ReadConsumes (S.remaining self.old.inner) (S.remaining self.new.inner)
            result buf.new }
        ensures refuses { self.old.left ≡ Some 0 → IsErrAnd result (λ e. error_kind e ≡ self.old.kind) }
        ensures untouched { self.old.left ≡ Some 0 → self.new.inner ≡ self.old.inner }
        ensures same { (self.new.once ≡ self.old.once) × (self.new.kind ≡ self.old.kind) }
        ensures left { self.new.left ≡ left_after self.old.once self.old.left }
    {
        // A request that is refused takes no byte.
        self.ask()?;
        self.inner.read(buf)
    }

    fn read_exact(&mut self, buf: &mut [u8]) -> io::Result<()>
        ensures bytes { OnOk result (Consumes (S.remaining self.old.inner) (S.remaining self.new.inner)
            buf.new) }
        ensures refuses { self.old.left ≡ Some 0 → IsErrAnd result (λ e. error_kind e ≡ self.old.kind) }
        ensures untouched { self.old.left ≡ Some 0 → self.new.inner ≡ self.old.inner }
        ensures same { (self.new.once ≡ self.old.once) × (self.new.kind ≡ self.old.kind) }
        ensures left { self.new.left ≡ left_after self.old.once self.old.left }
    {
        self.ask()?;
        self.inner.read_exact(buf)
    }
}

impl<S: Write> Write for Refuse<S> {
    ghost contents = { λ r. S.contents r.inner };

    fn write(&mut self, buf: &[u8]) -> io::Result<usize>
        ensures bound { WritesAtMost result buf.now }
        ensures bytes { WriteAppends (S.contents self.old.inner) (S.contents self.new.inner)
            result buf.now }
        ensures refuses { self.old.left ≡ Some 0 → IsErrAnd result (λ e. error_kind e ≡ self.old.kind) }
        ensures untouched { self.old.left ≡ Some 0 → self.new.inner ≡ self.old.inner }
        ensures same { (self.new.once ≡ self.old.once) × (self.new.kind ≡ self.old.kind) }
        ensures left { self.new.left ≡ left_after self.old.once self.old.left }
    {
        self.ask()?;
        self.inner.write(buf)
    }

    fn write_all(&mut self, buf: &[u8]) -> io::Result<()>
        ensures bytes { OnOk result (Appends (S.contents self.old.inner) (S.contents self.new.inner)
            buf.now) }
        ensures refuses { self.old.left ≡ Some 0 → IsErrAnd result (λ e. error_kind e ≡ self.old.kind) }
        ensures untouched { self.old.left ≡ Some 0 → self.new.inner ≡ self.old.inner }
        ensures same { (self.new.once ≡ self.old.once) × (self.new.kind ≡ self.old.kind) }
        ensures left { self.new.left ≡ left_after self.old.once self.old.left }
    {
        self.ask()?;
        self.inner.write_all(buf)
    }

    fn flush(&mut self) -> io::Result<()>
        ensures bytes { Keeps (S.contents self.old.inner) (S.contents self.new.inner) }
        ensures refuses { self.old.left ≡ Some 0 → IsErrAnd result (λ e. error_kind e ≡ self.old.kind) }
        ensures untouched { self.old.left ≡ Some 0 → self.new.inner ≡ self.old.inner }
        ensures same { (self.new.once ≡ self.old.once) × (self.new.kind ≡ self.old.kind) }
        ensures left { self.new.left ≡ left_after self.old.once self.old.left }
    {
        // A flush is a request too.
        self.ask()?;
        self.inner.flush()
    }
}

impl<S: Seek> Seek for Refuse<S> {
    ghost stream_position = { λ r. S.stream_position r.inner };

    ghost stream_bytes = { λ r. S.stream_bytes r.inner };

    fn seek(&mut self, to: SeekFrom) -> io::Result<u64>
        ensures moves { SeekMoves (S.stream_position self.old.inner) (S.stream_position self.new.inner)
            (S.stream_bytes self.old.inner) to result }
        ensures bytes { Keeps (S.stream_bytes self.old.inner) (S.stream_bytes self.new.inner) }
        ensures refuses { self.old.left ≡ Some 0 → IsErrAnd result (λ e. error_kind e ≡ self.old.kind) }
        ensures untouched { self.old.left ≡ Some 0 → self.new.inner ≡ self.old.inner }
        ensures same { (self.new.once ≡ self.old.once) × (self.new.kind ≡ self.old.kind) }
        ensures left { self.new.left ≡ left_after self.old.once self.old.left }
    {
        self.ask()?;
        self.inner.seek(to)
    }
}
