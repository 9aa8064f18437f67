//! The place of an error.

/// An error, and the place of the reader, counted in bits from the start of the bytes.
#[derive(Debug, Drop)]
pub struct At<E> {
    /// The place of the reader, in bits.
    pub bit: u64,
    /// The error.
    pub error: E,
}
