//! Sources that can seek.
ghost use Rattle.std.specs.Prelude.{◌≡◌, ℕ, List, IfErr, Option};
ghost use Rattle.std.specs.Io.KnownBytes.{Keeps};
ghost use Rattle.std.specs.Io.Seek.{SeekMoves};
ghost use Rattle.std.specs.IoError.{error_kind};
ghost use Rattle.std.specs.declared.io.ErrorKind.{ErrorKind};
ghost use Rattle.std.specs.declared.io.traits.SeekFrom.{SeekFrom};

use crate::streams::lent::Lent;
use crate::streams::source::Source;
use std::io;
use std::io::{Read, Seek, SeekFrom};

/// A source that can seek: any `Read + Seek`, or a [`Lent`] source that can seek.
pub trait SeekSource: Source {
    // The position in bytes, if it is known.
    ghost position: { Self → Option ℕ };

    // All bytes from position 0 on, if they are known.
    ghost bytes: { Self → Option (List ℕ) };

    // The ways in which a seek may fail, with the kinds of the errors. std's contract does not
    // state this for a `Read + Seek`.
    ghost refuses_seek: { Self → SeekFrom → ErrorKind → Self → Type 0 };

    /// Moves to another position by one request. Returns the new position in bytes from the start.
    ///
    /// # Errors
    ///
    /// The errors of [`Seek::seek`] of the source. After an error, the position is unchanged.
    fn seek(&mut self, to: SeekFrom) -> io::Result<u64>
        // If the source's position is known, the new position is the result, or is the old position
        // if the seek fails. If its bytes are known too, the result is the position that `to`
        // means.
        ensures moves { SeekMoves (position self.old) (position self.new)
            (bytes self.old) to result }
        // If the source's bytes are known, they are unchanged.
        ensures bytes { Keeps (bytes self.old) (bytes self.new) }
        // The source is reached by the same references as before.
        ensures references { Self.stream.references self.new ≡ Self.stream.references self.old }
        // The source's properties allow this seek to fail with this error.
        ensures refused { IfErr result (λ e. refuses_seek self.old to (error_kind e) self.new) };
}

impl<R: Read + Seek> SeekSource for R {
    ghost position = { λ r. R.stream_position r };

    ghost bytes = { λ r. R.stream_bytes r };

    ghost refuses_seek = { λ _ _ _ _. Unit {0} };

    fn seek(&mut self, to: SeekFrom) -> io::Result<u64> {
        Seek::seek(self, to)
    }
}

impl<'a, S: SeekSource> SeekSource for Lent<'a, S> {
    ghost position = { λ lent. S.position lent.at.now };

    ghost bytes = { λ lent. S.bytes lent.at.now };

    ghost refuses_seek = { λ before to kind after.
        S.refuses_seek before.at.now to kind after.at.now };

    fn seek(&mut self, to: SeekFrom) -> io::Result<u64> {
        SeekSource::seek(&mut *self.at, to)
    }
}
