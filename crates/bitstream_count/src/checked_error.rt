//! The reasons why a value does not fit a count of bits.

/// The reasons why a value does not fit a count of bits.
#[derive(Clone, Copy, Debug, PartialEq, Eq, Drop, thiserror::Error)]
pub enum CheckedError {
    /// The count has more bits than the value's type.
    #[error("excessive bits for type written")]
    ExcessiveBits,
    /// The value has more bits than the count.
    #[error("excessive value for bits written")]
    ExcessiveValue,
}
