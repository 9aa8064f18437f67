//! Assertions as functions, and the results of calls as truths. A test that is a list of calls without
//! a branch is proved in a third of the time that it takes with the macros and `?`.
use bitstream_io::Error;
use std::fmt::Debug;
use std::process::Abort;

/// Asserts that a value is the wanted one.
pub(crate) fn same<T: PartialEq + Debug + Drop>(rt: &impl Abort, value: T, wanted: T) {
    assert_eq!(rt; value, wanted);
}

/// Asserts that bytes are the wanted ones.
pub(crate) fn are(rt: &impl Abort, bytes: &[u8], wanted: &[u8]) {
    assert_eq!(rt; bytes, wanted);
}

/// Asserts that something holds.
pub(crate) fn holds(rt: &impl Abort, what: bool) {
    assert!(rt; what);
}

/// Asserts that something holds, and names it if not.
pub(crate) fn holds_of(rt: &impl Abort, what: bool, text: &str) {
    assert!(rt; what, "{text}");
}

/// Asserts that each of these holds, and reports the first that does not.
pub(crate) fn each_holds(rt: &impl Abort, what: &[bool]) {
    for (at, holds) in what.iter().enumerate() {
        assert!(rt; *holds, "{at}");
    }
}

/// Returns true if a call returns the wanted value.
pub(crate) fn gives<T: PartialEq + Drop, E: Drop>(answer: Result<T, E>, wanted: T) -> bool {
    match answer {
        Ok(value) => value == wanted,
        Err(_) => false,
    }
}

/// Returns true if a call returns `EndOfInput`.
pub(crate) fn ended<T: Drop>(answer: Result<T, Error>) -> bool {
    matches!(answer, Err(Error::EndOfInput))
}

/// Returns true if a call returns `Failed`.
pub(crate) fn failed<T: Drop>(answer: Result<T, Error>) -> bool {
    matches!(answer, Err(Error::Failed))
}
