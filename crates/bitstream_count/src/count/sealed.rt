//! Seals the traits of counts: only the types of this crate implement them.

use crate::count::bit_count::BitCount;
use crate::count::fixed::{FixedBitCount, FixedSignedBitCount};
use crate::count::signed_bit_count::SignedBitCount;

/// A count type of this crate.
pub trait Sealed {}

impl<const MAX: u32> Sealed for BitCount<MAX> {}

impl<const MAX: u32> Sealed for SignedBitCount<MAX> {}

impl<const BITS: u32> Sealed for FixedBitCount<BITS> {}

impl<const BITS: u32> Sealed for FixedSignedBitCount<BITS> {}
