//! The ten integer types as numbers, and the properties that generic code uses.

mod numeric;
mod primitive;
mod signed;
mod types;
mod unsigned;
mod width;

pub use crate::number::numeric::Numeric;
pub use crate::number::primitive::{Buffer, Primitive};
pub use crate::number::signed::SignedInteger;
pub use crate::number::unsigned::UnsignedInteger;
pub use crate::number::width::{Bits, Width};
