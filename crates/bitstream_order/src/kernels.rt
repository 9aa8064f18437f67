//! The functions that move bits: they take bits from a port, send bits to it, shift them, convert
//! signs, count unary numbers and copy bytes.

pub(crate) mod copy;
pub mod gather;
pub mod send;
pub mod shift;
pub mod sign;
pub mod unary;
