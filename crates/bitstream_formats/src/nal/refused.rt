//! A refused unit.

use std::fmt;

/// A refused unit. It is displayed as its number, its place, and the error.
#[derive(Debug, Drop)]
pub struct RefusedUnit<E> {
    /// The number of the unit in the stream, from 0.
    pub number: u64,
    /// The place of its first byte in the stream, after its start code.
    pub byte: usize,
    /// The place of the reader, in bits of the unit without its emulation prevention bytes.
    pub bit: u64,
    /// The error.
    pub error: E,
}

impl<E: fmt::Display> fmt::Display for RefusedUnit<E> {
    fn fmt<W: fmt::Write>(&self, f: &mut fmt::Formatter<W>) -> fmt::Result {
        write!(
            f,
            "unit {} at byte {}, bit {}: {}",
            self.number, self.byte, self.bit, self.error
        )
    }
}
