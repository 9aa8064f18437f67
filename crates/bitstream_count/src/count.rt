//! Counts of bits, and values that are known to fit one.

mod bit_count;
mod checked;
mod fixed;
mod kinds;
mod mask;
mod sealed;
mod signed_bit_count;

pub use crate::checked_error::CheckedError;
pub use crate::count::bit_count::BitCount;
pub use crate::count::checked::{
    Checked, CheckedSigned, CheckedSignedFixed, CheckedUnsigned, CheckedUnsignedFixed, Holds,
};
pub use crate::count::fixed::{FixedBitCount, FixedSignedBitCount};
pub use crate::count::kinds::{Count, SignedCount};
pub use crate::count::mask::LsbMask;
pub use crate::count::signed_bit_count::SignedBitCount;
