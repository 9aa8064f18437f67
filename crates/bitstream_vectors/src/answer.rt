//! Results of calls, as rows spell them.

use crate::objection::Objection;
use bitstream_io::{CheckedError, Error};
use std::alloc::Global;
use std::io::ErrorKind;
use std::num::ParseIntError;
use std::str::FromStr;

/// The result of a write call, if its row spells one.
pub type Answer = Result<Result<(), Error>, Objection>;

/// The name of an error.
pub fn error_name(error: &Error) -> &'static str {
    match error {
        Error::ReadBits => "ReadBits",
        Error::Checked(error) => checked_name(*error),
        Error::CounterOverflow => "CounterOverflow",
        Error::NoSignBit => "NoSignBit",
        Error::BoolWidth => "BoolWidth",
        Error::NonZeroWidth => "NonZeroWidth",
        Error::VariableWidthOverflow => "VariableWidthOverflow",
        Error::RedundantGroup => "RedundantGroup",
        Error::RunTooLong => "RunTooLong",
        Error::EndOfInput => "EndOfInput",
        Error::OutOfMemory => "OutOfMemory",
        Error::Place => "Place",
        Error::Failed => "Failed",
        Error::Stream(kind) => stream_name(*kind),
    }
}

fn checked_name(error: CheckedError) -> &'static str {
    match error {
        CheckedError::ExcessiveBits => "ExcessiveBits",
        CheckedError::ExcessiveValue => "ExcessiveValue",
    }
}

/// The error kinds of the player's streams, as the rows spell the errors of their calls.
const KINDS: [(ErrorKind, &str); 3] = [
    (ErrorKind::BrokenPipe, "Stream(BrokenPipe)"),
    (ErrorKind::ConnectionReset, "Stream(ConnectionReset)"),
    (ErrorKind::UnexpectedEof, "Stream(UnexpectedEof)"),
];

fn stream_name(kind: ErrorKind) -> &'static str {
    let mut name = "another error";
    for (known, spelled) in KINDS {
        if known == kind {
            name = spelled;
        }
    }
    name
}

/// Returns true if a text is the result of a call: `ok`, or the name of the error.
pub fn is_done(want: &str, answer: &Result<(), Error>) -> bool {
    match answer {
        Ok(()) => want == "ok",
        Err(error) => want == error_name(error),
    }
}

/// Returns true if a text is the result of a call: the number, or the name of the error.
pub fn is_number<T: FromStr<Err = ParseIntError> + PartialEq + Drop>(
    want: &str,
    answer: Result<T, Error>,
) -> bool {
    match answer {
        Ok(number) => match want.parse::<T>() {
            Ok(want) => want == number,
            Err(_) => false,
        },
        Err(error) => want == error_name(&error),
    }
}

/// Returns true if a text is the result of a call: a number, `none`, or the name of the error.
pub fn is_optional<T: FromStr<Err = ParseIntError> + PartialEq + Drop>(
    want: &str,
    answer: Result<Option<T>, Error>,
) -> bool {
    match answer {
        Ok(Some(number)) => is_number(want, Ok(number)),
        Ok(None) => want == "none",
        Err(error) => want == error_name(&error),
    }
}

/// Returns the bytes that hexadecimal digits spell, two digits a byte; `-` spells none.
pub fn bytes_of(alloc: Global, text: &str) -> Result<Vec<u8>, Objection> {
    let mut bytes = Vec::new(alloc);
    if text == "-" {
        return Ok(bytes);
    }
    for pair in text.as_bytes().chunks(2) {
        let Some(byte) = byte_of(pair) else {
            return Err(Objection::BAD_FORM);
        };
        bytes.push(byte)?;
    }
    Ok(bytes)
}

/// Returns true if hexadecimal digits spell these bytes, as [`bytes_of`] reads them.
pub fn are_bytes(want: &str, bytes: &[u8]) -> bool {
    if want == "-" {
        return bytes.is_empty();
    }
    let mut same = want.len() == bytes.len().saturating_mul(2);
    for (pair, byte) in want.as_bytes().chunks(2).zip(bytes) {
        same &= byte_of(pair) == Some(*byte);
    }
    same
}

fn byte_of(pair: &[u8]) -> Option<u8> {
    match pair {
        [high, low] => match (digit_of(*high), digit_of(*low)) {
            (Some(high), Some(low)) => Some((high << 4) | low),
            _ => None,
        },
        _ => None,
    }
}

/// Returns the number of a hexadecimal digit.
fn digit_of(digit: u8) -> Option<u8> {
    match digit {
        b'0'..=b'9' => Some(digit - b'0'),
        b'A'..=b'F' => Some(digit - b'A' + 10),
        _ => None,
    }
}
