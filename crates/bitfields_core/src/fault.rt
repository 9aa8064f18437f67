//! The reasons that a call fails, and their printed text.

ghost use Rattle.std.specs.Prelude.{◌≡◌};
ghost use Rattle.bitfields_core.specs.Fault.{fault, reason_status, reason_text};
ghost use Rattle.bitfields_core.specs.declared.fault.Reason.TheVariants.{OutOfMemory};

use std::alloc::{AllocError, AllocFailed};
use std::io;
use std::io::ErrorKind;

/// The reasons that a call fails.
#[derive(Clone, Copy, Debug, PartialEq, Eq, Drop)]
pub enum Reason {
    /// There are not three arguments, or they do not name a command and an order of bits.
    BadArguments,
    /// A layout has more than 256 segments between commas.
    TooManyFields,
    /// A segment of a layout spells no field.
    BadLayout,
    /// The input has no line for a value.
    ValueMissing,
    /// A line spells no value of the field's kind.
    ValueMisspelt,
    /// A line spells a value that is out of the field's range.
    ValueDoesNotFit,
    /// Lines remain after the last value.
    ValueLeftOver,
    /// The bits end within a field.
    BitsEnded,
    /// A constant's bits hold another number.
    ConstantDiffers,
    /// A variable-width or unary number passes its limit.
    LimitPassed,
    /// Bits of a padding or an alignment are not all 0. Only repacking checks that.
    PaddingNotZero,
    /// A byte follows the last field. Only repacking checks that.
    BytesLeftOver,
    /// A request to a stream failed.
    StreamFault,
    /// An allocation failed.
    OutOfMemory,
}

/// The failure of a call: the program's exit status, the field (counted from 1, or 0 if none is
/// named), and the reason.
#[derive(Clone, Copy, Debug, PartialEq, Eq, Drop)]
pub struct Fault {
    pub status: u8,
    pub field: usize,
    pub reason: Reason,
}

impl Fault {
    /// Returns the fault of a field (0 if none is named), with the exit status of its reason.
    pub fn new(field: usize, reason: Reason) -> Fault
        ensures { result ≡ fault field reason }
    {
        Fault {
            status: reason.status(),
            field,
            reason,
        }
    }
}

/// Converts a stream's error to a fault that names no field: `OutOfMemory` if that is the error's
/// kind, and otherwise `StreamFault`.
impl From<io::Error> for Fault {
    ghost use Rattle.std.specs.IoError.{error_kind};
    ghost use Rattle.bitfields_core.specs.Fault.{refusal_reason};

    ghost from_gives = { λ e f. f ≡ fault 0 (refusal_reason (error_kind e)) };

    fn from(error: io::Error) -> Fault {
        match error.kind() {
            ErrorKind::OutOfMemory => Fault::new(0, Reason::OutOfMemory),
            _ => Fault::new(0, Reason::StreamFault),
        }
    }
}

/// Converts a failed allocation to a fault that names no field: `OutOfMemory`.
impl From<AllocError> for Fault {
    ghost from_gives = { λ _ f. f ≡ fault 0 OutOfMemory };

    fn from(_refused: AllocError) -> Fault {
        Fault::new(0, Reason::OutOfMemory)
    }
}

/// Converts a failed allocation as an [`AllocError`] is converted.
impl<T: Drop> From<AllocFailed<T>> for Fault {
    ghost from_gives = { λ _ f. f ≡ fault 0 OutOfMemory };

    fn from(_refused: AllocFailed<T>) -> Fault {
        Fault::new(0, Reason::OutOfMemory)
    }
}

impl Reason {
    /// Returns the exit status for this reason.
    pub fn status(self) -> u8
        ensures { result ≡ reason_status self }
    {
        match self {
            Reason::BadArguments | Reason::TooManyFields | Reason::BadLayout => 2,
            Reason::ValueMissing
            | Reason::ValueMisspelt
            | Reason::ValueDoesNotFit
            | Reason::ValueLeftOver => 3,
            Reason::BitsEnded
            | Reason::ConstantDiffers
            | Reason::LimitPassed
            | Reason::PaddingNotZero
            | Reason::BytesLeftOver => 4,
            Reason::StreamFault | Reason::OutOfMemory => 5,
        }
    }

    /// Returns the text that is printed for this reason.
    pub fn text(self) -> &'static str
        ensures { result.now ≡ reason_text self }
    {
        match self {
            Reason::BadArguments => "bad arguments",
            Reason::TooManyFields => "too many fields",
            Reason::BadLayout => "bad layout",
            Reason::ValueMissing => "value missing",
            Reason::ValueMisspelt => "value misspelt",
            Reason::ValueDoesNotFit => "value does not fit",
            Reason::ValueLeftOver => "value left over",
            Reason::BitsEnded => "bits ended",
            Reason::ConstantDiffers => "constant differs",
            Reason::LimitPassed => "limit passed",
            Reason::PaddingNotZero => "padding not zero",
            Reason::BytesLeftOver => "bytes left over",
            Reason::StreamFault => "stream fault",
            Reason::OutOfMemory => "out of memory",
        }
    }
}
