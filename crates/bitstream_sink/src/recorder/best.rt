//! The better of two recorders.
ghost use Rattle.std.specs.Prelude.{◌≡◌, ◌<◌, ◌↔◌, false, IsTrue};

use crate::recorder::BitRecorder;
use bitstream_order::order::Endianness;
use bitstream_stream::write::BitWrite;
use std::alloc::{Allocator, Global};
use std::mem;

/// A sink that can be cleared and compared with another one.
pub trait Recorder: BitWrite + Sized {
    ghost use Rattle.std.specs.Borrow.{MutBor};
    ghost use Rattle.std.specs.Fn.{FnOnceReturnsAtMut};
    ghost use Rattle.bitstream_sink.specs.Best.{Best};

    // Nothing was recorded, and no allocation failed.
    ghost is_empty: { Self → Type 0 };

    /// Clears the recorded bits and any failure.
    fn begin_anew(&mut self)
        ensures { is_empty self.new };

    /// Returns true if this recorder has not failed and has fewer bits than `other`.
    fn is_better_than(&self, other: &Self) -> bool
        ensures { IsTrue result ↔ ((Self.sink.failed self.now ≡ false)
            × (Self.sink.len self.now < Self.sink.len other.now)) };

    /// Clears `candidate`, records into it with `f`, and returns the shorter of the two recorders. Returns this
    /// recorder on a tie, or if the candidate has failed. If the candidate wins, `*candidate` becomes this recorder.
    /// Otherwise, it stays as `f` left it.
    ///
    /// # Errors
    ///
    /// The errors of `f`. After an error the candidate stays as `f` left it, and this recorder is lost.
    final fn best<F, X>(self, candidate: &mut Self, f: X) -> Result<Self, F>
    where
        Self: Drop,
        X: FnOnce(&mut Self) -> Result<(), F>,
        requires { (p : MutBor Self) → is_empty p.now → X.pre f p }
        ensures { Best Self.sink is_empty (FnOnceReturnsAtMut X.FnOnce f)
            self result candidate.new }
    {
        candidate.begin_anew();
        f(candidate)?;
        if candidate.is_better_than(&self) {
            Ok(mem::replace(candidate, self))
        } else {
            Ok(self)
        }
    }
}

impl<N, E: Endianness, A: Allocator> Recorder for BitRecorder<N, E, A> {
    ghost use Rattle.bitstream_sink.specs.Recorder.{IsEmptyRecorder};

    ghost is_empty = { IsEmptyRecorder };

    fn begin_anew(&mut self) {
        self.clear();
    }

    fn is_better_than(&self, other: &Self) -> bool {
        !self.writer.failed() && self.bits() < other.bits()
    }
}

impl<N, E: Endianness> BitRecorder<N, E, Global> {
    ghost use Rattle.std.specs.Borrow.{MutBor};
    ghost use Rattle.std.specs.Fn.{FnOnceReturnsAtMut};
    ghost use Rattle.bitstream_sink.specs.Best.{Best};
    ghost use Rattle.bitstream_sink.specs.Recorder.{IsEmptyRecorder};

    /// Returns the better of this recorder and a candidate, as [`Recorder::best`] does, but without an import of that
    /// trait.
    ///
    /// # Errors
    ///
    /// The errors of `f`, as for [`Recorder::best`].
    pub fn best<F, X>(self, candidate: &mut Self, f: X) -> Result<Self, F>
    where
        X: FnOnce(&mut Self) -> Result<(), F>,
        requires { (p : MutBor (BitRecorder N E Global)) → IsEmptyRecorder p.now → X.pre f p }
        ensures { Best ⟦<Self as BitWrite>⟧.sink IsEmptyRecorder (FnOnceReturnsAtMut X.FnOnce f)
            self result candidate.new }
    {
        Recorder::best(self, candidate, f)
    }
}
