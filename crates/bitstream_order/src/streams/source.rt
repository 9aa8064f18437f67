//! Sources of bytes.
ghost use Rattle.std.specs.Prelude.{◌≡◌, ◌≤◌, [], IfErr, OnOk, length, take};
ghost use Rattle.bitstream_order.specs.Streaming.Lent.{lent_input};
ghost use Rattle.bitstream_order.specs.Streams.{InputStream};
ghost use Rattle.std.specs.Io.KnownBytes.{Consumes};
ghost use Rattle.std.specs.IoError.{error_kind};

use crate::streams::lent::Lent;
use std::io;
use std::io::Read;

/// A source of bytes: any `Read`, or a source that is [`Lent`].
pub trait Source {
    // The properties of the source are the bytes left, if they are known; the references through
    // which it is reached, which a request does not change; the ways in which a request may fail,
    // with the kinds of the errors; and the other effects of a request that took bytes. std's
    // contract states neither of the last two for a `Read`.
    ghost stream: { InputStream Self };

    /// Fills the whole buffer by one request.
    ///
    /// # Errors
    ///
    /// The errors of [`Read::read_exact`] of the source. After an error, the number of bytes that
    /// were taken may be unknown.
    fn read_exact(&mut self, buf: &mut [u8]) -> io::Result<()>
        // If it succeeds and the bytes left are known, the buffer holds the next bytes, and they
        // are taken.
        ensures bytes { OnOk result (Consumes (stream.remaining self.old) (stream.remaining self.new) buf.new) }
        // If it succeeds, the source changes as its properties state for a request of this length.
        ensures takes { OnOk result (stream.takes self.old (length buf.old) self.new) }
        // The source is reached by the same references as before.
        ensures references { stream.references self.new ≡ stream.references self.old }
        // The source's properties allow a request of this length to fail with this error.
        ensures refused { IfErr result
            (λ e. stream.refuses self.old (length buf.old) (error_kind e) self.new) };

    /// Fills the first `count` bytes of the buffer, by one request for only these bytes. The buffer
    /// must have at least `count` bytes. Its other bytes are unspecified after the call: a source
    /// in memory may fill them too, since a copy of constant length is cheaper. `constant` is true
    /// if `count` is a compile-time constant, and changes speed only.
    ///
    /// # Errors
    ///
    /// The errors of [`read_exact`](Source::read_exact).
    #[inline(always)]
    fn read_prefix(&mut self, buf: &mut [u8], count: usize, _constant: bool) -> io::Result<()>
        requires { count ≤ length buf.old }
        // If it succeeds and the bytes left are known, the first `count` bytes of the buffer are
        // the next bytes, and they are taken.
        ensures bytes { OnOk result
            (Consumes (stream.remaining self.old) (stream.remaining self.new) (take count buf.new)) }
        ensures len { length buf.new ≡ length buf.old }
        // If it succeeds, the source changes as its properties state for a request of this length.
        ensures takes { OnOk result (stream.takes self.old count self.new) }
        // The source is reached by the same references as before.
        ensures references { stream.references self.new ≡ stream.references self.old }
        // The source's properties allow a request of this length to fail with this error.
        ensures refused { IfErr result (λ e. stream.refuses self.old count (error_kind e) self.new) }
    {
        self.read_exact(&mut buf[..count])
    }
}

impl<R: Read> Source for R {
    ghost stream = { record {
      remaining = λ r. R.remaining r;
      references = λ _. [];
      refuses = λ _ _ _ _. Unit {0};
      takes = λ _ _ _. Unit {0};
    } };

    #[inline(always)]
    fn read_exact(&mut self, buf: &mut [u8]) -> io::Result<()> {
        Read::read_exact(self, buf)
    }
}

impl<'a, S: Source> Source for Lent<'a, S> {
    ghost stream = { lent_input S.stream };

    #[inline(always)]
    fn read_exact(&mut self, buf: &mut [u8]) -> io::Result<()> {
        Source::read_exact(&mut *self.at, buf)
    }

    #[inline(always)]
    fn read_prefix(&mut self, buf: &mut [u8], count: usize, constant: bool) -> io::Result<()> {
        Source::read_prefix(&mut *self.at, buf, count, constant)
    }
}
