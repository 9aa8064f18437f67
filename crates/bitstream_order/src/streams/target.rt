//! Targets of bytes.
ghost use Rattle.std.specs.Prelude.{◌≡◌, [], IfErr, OnOk, length};
ghost use Rattle.bitstream_order.specs.Streaming.Lent.{lent_output};
ghost use Rattle.bitstream_order.specs.Streams.{OutputStream};
ghost use Rattle.std.specs.Io.KnownBytes.{Appends, Keeps};
ghost use Rattle.std.specs.IoError.{error_kind};

use crate::streams::lent::Lent;
use std::io;
use std::io::Write;

/// A target of bytes: any `Write`, or a target that is [`Lent`].
pub trait Target {
    // The properties of the target are the bytes that it holds, if they are known; the references
    // through which it is reached, which a request does not change; the ways in which a request may
    // fail, with the kinds of the errors; and the effect of a flush that succeeded. std's contract
    // states neither of the last two for a `Write`.
    ghost stream: { OutputStream Self };

    /// Writes all bytes by one request.
    ///
    /// # Errors
    ///
    /// The errors of [`Write::write_all`] of the target. After an error, the bytes written may be
    /// unknown.
    fn write_all(&mut self, bytes: &[u8]) -> io::Result<()>
        // If it succeeds and the contents are known, the bytes are appended to them.
        ensures bytes { OnOk result (Appends (stream.contents self.old) (stream.contents self.new) bytes.now) }
        // The target is reached by the same references as before.
        ensures references { stream.references self.new ≡ stream.references self.old }
        // The target's properties allow a request of this length to fail with this error.
        ensures refused { IfErr result
            (λ e. stream.refuses self.old (length bytes.now) (error_kind e) self.new) };

    /// Flushes the target by one request, which sends no bytes: the target passes on the bytes that
    /// it has buffered.
    ///
    /// # Errors
    ///
    /// The errors of [`Write::flush`] of the target.
    fn flush(&mut self) -> io::Result<()>
        // If the target's contents are known, they are unchanged.
        ensures bytes { Keeps (stream.contents self.old) (stream.contents self.new) }
        // If it succeeds, the target changes as its properties state for a flush.
        ensures flushed { OnOk result (stream.flushes self.old self.new) }
        // The target is reached by the same references as before.
        ensures references { stream.references self.new ≡ stream.references self.old }
        // The target's properties allow a request of 0 bytes to fail with this error.
        ensures refused { IfErr result (λ e. stream.refuses self.old 0 (error_kind e) self.new) };
}

impl<W: Write> Target for W {
    ghost stream = { record {
      contents = λ w. W.contents w;
      references = λ _. [];
      refuses = λ _ _ _ _. Unit {0};
      flushes = λ _ _. Unit {0};
    } };

    #[inline(always)]
    fn write_all(&mut self, bytes: &[u8]) -> io::Result<()> {
        Write::write_all(self, bytes)
    }

    fn flush(&mut self) -> io::Result<()> {
        Write::flush(self)
    }
}

impl<'a, T: Target> Target for Lent<'a, T> {
    ghost stream = { lent_output T.stream };

    #[inline(always)]
    fn write_all(&mut self, bytes: &[u8]) -> io::Result<()> {
        Target::write_all(&mut *self.at, bytes)
    }

    fn flush(&mut self) -> io::Result<()> {
        Target::flush(&mut *self.at)
    }
}
