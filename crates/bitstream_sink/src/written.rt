//! A counter of written bits, without a parameter for the order.

use crate::bit_counter::BitCounter;
use bitstream_order::order::BigEndian;

/// Counts the bits written to it, as [`BitCounter`] does, without a parameter for the order: an
/// encoding has the same length in both orders of bits. The counter's own order is big-endian.
///
/// If the sum is above N's greatest value, a call returns `CounterOverflow` and adds nothing.
/// Errors of a width or a value are returned first, as in a writer.
///
/// # Examples
///
/// ```
/// use bitstream_io::{BitWrite, BitsWritten, Bits};
///
/// let mut counter = BitsWritten::<u16>::new();
/// counter.write_unsigned_var(3, 5u8)?;
/// counter.write_unary::<Bits<0>>(2)?;
/// counter.byte_align()?;
/// counter.write_bytes(&[1, 2])?;
/// assert_eq!(rt; counter.written(), 24);
/// ```
pub type BitsWritten<N> = BitCounter<N, BigEndian>;
