//! The texts and kinds of errors.
use crate::asserts::{holds_of, same};
use bitstream_io::write::Overflowed;
use bitstream_io::{CheckedError, Error};
use std::alloc::Global;
use std::io;
use std::io::ErrorKind;
use std::process::Abort;

/// Errors, their texts, and the kinds of the `io::Error`s to which they convert.
const ROWS: [(Error, &str, ErrorKind); 15] = [
    (
        Error::ReadBits,
        "excessive bits for type read",
        ErrorKind::InvalidInput,
    ),
    (
        Error::Checked(CheckedError::ExcessiveBits),
        "excessive bits for type written",
        ErrorKind::InvalidInput,
    ),
    (
        Error::Checked(CheckedError::ExcessiveValue),
        "excessive value for bits written",
        ErrorKind::InvalidInput,
    ),
    (
        Error::NoSignBit,
        "signed values need at least 1 bit for sign",
        ErrorKind::InvalidInput,
    ),
    (
        Error::BoolWidth,
        "booleans require exactly 1 bit",
        ErrorKind::InvalidInput,
    ),
    (
        Error::NonZeroWidth,
        "bit count must be less than the type's size in bits",
        ErrorKind::InvalidInput,
    ),
    (
        Error::VariableWidthOverflow,
        "variable bit rate overflow",
        ErrorKind::StorageFull,
    ),
    (
        Error::RedundantGroup,
        "redundant variable width group",
        ErrorKind::InvalidData,
    ),
    (
        Error::CounterOverflow,
        "bitstream accumulator overflow",
        ErrorKind::StorageFull,
    ),
    (
        Error::RunTooLong,
        "unary run too long",
        ErrorKind::InvalidData,
    ),
    (Error::EndOfInput, "end of input", ErrorKind::UnexpectedEof),
    (
        Error::Stream(ErrorKind::TimedOut),
        "stream fault",
        ErrorKind::TimedOut,
    ),
    (Error::OutOfMemory, "out of memory", ErrorKind::OutOfMemory),
    (
        Error::Place,
        "bit position out of range",
        ErrorKind::InvalidInput,
    ),
    (Error::Failed, "failed before", ErrorKind::Other),
];

/// Returns true if an error has this text and this kind, and the same kind as an `io::Error`.
fn says(alloc: Global, error: Error, text: &str, kind: ErrorKind) -> bool {
    let own = error.kind() == kind;
    let said = matches!(format!(in alloc; "{error}"), Ok(said) if said.as_str() == text);
    said & own & (io::Error::from(error).kind() == kind)
}

/// Asserts that each of these errors has its text and kind.
fn each_says(rt: &impl Abort, alloc: Global, rows: [(Error, &str, ErrorKind); 15]) {
    for (error, text, kind) in rows {
        holds_of(rt, says(alloc, error, text, kind), text);
    }
}

#[test]
fn each_error_has_its_text_and_kind(rt: HostRuntime) {
    each_says(&rt, rt.alloc(), ROWS);
    let said = format!(in rt.alloc(); "{Overflowed}").expect(&rt, "memory is left");
    same(&rt, said.as_str(), "overflow occured in counter");
}
