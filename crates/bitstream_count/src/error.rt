//! The errors of calls on streams of bits.
ghost use Rattle.std.specs.Prelude.{◌≡◌};
ghost use Rattle.std.specs.IoError.{error_kind};
ghost use Rattle.bitstream_count.specs.Kind.{kind_of};
ghost use Rattle.bitstream_count.specs.declared.error.Error.TheVariants.{OutOfMemory, Checked};

use crate::checked_error::CheckedError;
use std::alloc::{AllocError, AllocFailed};
use std::io;
use std::io::ErrorKind;

/// The errors of a call.
///
/// After `EndOfInput`, `Stream`, `OutOfMemory` and `RunTooLong`, and after a `Place` of a seek
/// from the stream's end, a bit reader or writer has failed: each later call that reads or writes a
/// value returns `Failed`. After `VariableWidthOverflow` and `RedundantGroup` the reader continues
/// after the groups that it took. After any other error of a single call nothing has changed.
#[derive(Debug, Drop, thiserror::Error)]
pub enum Error {
    /// A read of more bits than the type has.
    #[error("excessive bits for type read")]
    ReadBits,
    /// A write of more bits than the type has, or of a value with more bits than its count.
    #[error(transparent)]
    Checked(CheckedError),
    /// A signed value of 0 bits.
    #[error("signed values need at least 1 bit for sign")]
    NoSignBit,
    /// A `bool` in a number of bits other than 1.
    #[error("booleans require exactly 1 bit")]
    BoolWidth,
    /// A `NonZero` value with a count of its type's size in bits or more.
    #[error("bit count must be less than the type's size in bits")]
    NonZeroWidth,
    /// A variable-width value outside its type's range.
    #[error("variable bit rate overflow")]
    VariableWidthOverflow,
    /// A variable-width value of two or more groups whose last group is 0.
    #[error("redundant variable width group")]
    RedundantGroup,
    /// A count above the limit of the counter's type.
    #[error("bitstream accumulator overflow")]
    CounterOverflow,
    /// A unary value of 2^32 or more.
    #[error("unary run too long")]
    RunTooLong,
    /// The input ended: a read of the stream failed with the kind `UnexpectedEof`, or bytes in
    /// memory had too few bits left.
    #[error("end of input")]
    EndOfInput,
    /// A request to the stream failed with an error of this kind.
    #[error("stream fault")]
    Stream(ErrorKind),
    /// A memory allocation failed.
    #[error("out of memory")]
    OutOfMemory,
    /// A position before the first bit, or past the greatest position.
    #[error("bit position out of range")]
    Place,
    /// The reader or writer had already failed.
    #[error("failed before")]
    Failed,
}

impl Error {
    /// Returns the kind of the `io::Error` that this error converts to.
    pub fn kind(&self) -> ErrorKind
        ensures { result ≡ kind_of self.now }
    {
        match self {
            Error::ReadBits
            | Error::Checked(_)
            | Error::NoSignBit
            | Error::BoolWidth
            | Error::NonZeroWidth
            | Error::Place => ErrorKind::InvalidInput,
            Error::VariableWidthOverflow | Error::CounterOverflow => ErrorKind::StorageFull,
            Error::RedundantGroup | Error::RunTooLong => ErrorKind::InvalidData,
            Error::EndOfInput => ErrorKind::UnexpectedEof,
            Error::Stream(kind) => *kind,
            Error::OutOfMemory => ErrorKind::OutOfMemory,
            Error::Failed => ErrorKind::Other,
        }
    }
}

impl From<CheckedError> for Error {
    ghost from_gives = { λ c e. e ≡ Checked c };

    fn from(refused: CheckedError) -> Error {
        Error::Checked(refused)
    }
}

impl From<AllocError> for Error {
    ghost from_gives = { λ _ e. e ≡ OutOfMemory };

    fn from(_refused: AllocError) -> Error {
        Error::OutOfMemory
    }
}

impl<T: Drop> From<AllocFailed<T>> for Error {
    ghost from_gives = { λ _ e. e ≡ OutOfMemory };

    fn from(_refused: AllocFailed<T>) -> Error {
        Error::OutOfMemory
    }
}

impl From<Error> for io::Error {
    ghost from_gives = { λ e i. error_kind i ≡ kind_of e };

    fn from(error: Error) -> io::Error {
        io::Error::from(error.kind())
    }
}
