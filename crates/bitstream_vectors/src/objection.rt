//! The reasons for which a row fails.

use std::alloc::{AllocError, AllocFailed};

/// The differences between a row and a play.
#[derive(Clone, Copy, Drop)]
pub enum Difference {
    /// The row has a form that the head of its file does not name.
    Form,
    /// A call has a width, a greatest number or a constant that no table of the player has.
    Unlisted,
    /// A result over std's bytes in memory.
    Answer,
    /// A result over a `Slice`.
    Sliced,
    /// A result, or the number of bits read, of the reader of bytes in memory.
    InMemory,
    /// A result over a stream with short reads and writes of one byte.
    Short,
    /// A result, the requests or the bytes over a stream that fails.
    Refused,
    /// The bytes, or their number.
    Bytes,
    /// The place in bits.
    Place,
    /// The number of requests.
    Requests,
    /// A result, or the number of bits, of a counter or a recorder next to a writer.
    Beside,
    /// The number of bits that a counter or a recorder holds.
    Length,
}

impl Difference {
    /// Returns the text that is printed before the row.
    pub fn text(self) -> &'static str {
        match self {
            Difference::Form => "has a form that the player does not know",
            Difference::Unlisted => "has a width or constant that the player does not list",
            Difference::Answer => "differs in an answer",
            Difference::Sliced => "differs over a slice",
            Difference::InMemory => "differs on the reader of bytes in memory",
            Difference::Short => "differs over a stream with short reads",
            Difference::Refused => "differs over a stream that refuses",
            Difference::Bytes => "differs in its bytes",
            Difference::Place => "differs in its place",
            Difference::Requests => "differs in its requests",
            Difference::Beside => "differs on a counter or a recorder beside the writer",
            Difference::Length => "differs in its number of bits",
        }
    }
}

/// The reasons for which a row fails.
#[derive(Clone, Copy, Drop)]
pub enum Objection {
    /// The row and a play differ.
    Differs(Difference),
    /// An allocation failed.
    OutOfMemory,
}

impl Objection {
    /// A row with a form that the head of its file does not name.
    pub const BAD_FORM: Objection = Objection::Differs(Difference::Form);

    /// A row with a number that is in no table of the player.
    pub const UNLISTED: Objection = Objection::Differs(Difference::Unlisted);
}

impl From<AllocError> for Objection {
    fn from(_refused: AllocError) -> Objection {
        Objection::OutOfMemory
    }
}

impl<T: Drop> From<AllocFailed<T>> for Objection {
    fn from(_refused: AllocFailed<T>) -> Objection {
        Objection::OutOfMemory
    }
}

/// Objects if something does not hold.
pub fn agrees(holds: bool, what: Difference) -> Result<(), Objection> {
    if holds {
        Ok(())
    } else {
        Err(Objection::Differs(what))
    }
}
