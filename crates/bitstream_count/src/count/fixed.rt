//! Counts of bits whose number is part of the type.

ghost use Rattle.std.specs.Prelude.{◌≡◌, ◌≢◌, ◌≤◌, MatchResult};

use crate::count::bit_count::BitCount;
use crate::count::kinds::{Count, SignedCount};
use crate::count::signed_bit_count::SignedBitCount;

/// A count of BITS bits.
#[derive(Copy, Clone, Debug)]
pub struct FixedBitCount<const BITS: u32>;

impl<const BITS: u32> From<FixedBitCount<BITS>> for BitCount<BITS> {
    ghost from_gives = { λ _ r. r ≡ BITS };

    fn from(_count: FixedBitCount<BITS>) -> BitCount<BITS> {
        BitCount::new::<BITS>()
    }
}

impl<const BITS: u32, const MAX: u32> TryFrom<BitCount<MAX>> for FixedBitCount<BITS> {
    type Error = BitCount<MAX>;

    ghost try_from_gives = { λ c r. MatchResult r (λ _. c ≡ BITS) (λ e. (c ≢ BITS) × (e ≡ c)) };

    /// Returns the count of BITS bits.
    ///
    /// # Errors
    ///
    /// The count itself, if its number of bits is not BITS.
    fn try_from(count: BitCount<MAX>) -> Result<FixedBitCount<BITS>, BitCount<MAX>> {
        if count.bits() == BITS {
            Ok(FixedBitCount)
        } else {
            Err(count)
        }
    }
}

/// A count of BITS bits, including the sign bit. BITS is at least 1.
#[derive(Copy, Clone, Debug)]
pub struct FixedSignedBitCount<const BITS: u32> {
    ghost some: { 1 ≤ BITS },
}

impl<const BITS: u32> From<FixedSignedBitCount<BITS>> for SignedBitCount<BITS> {
    ghost from_gives = { λ _ r. r ≡ BITS };

    fn from(_count: FixedSignedBitCount<BITS>) -> SignedBitCount<BITS> {
        SignedBitCount::new::<BITS>()
    }
}

impl<const BITS: u32, const MAX: u32> TryFrom<SignedBitCount<MAX>> for FixedSignedBitCount<BITS> {
    type Error = SignedBitCount<MAX>;

    ghost try_from_gives = { λ c r. MatchResult r (λ _. c ≡ BITS) (λ e. (c ≢ BITS) × (e ≡ c)) };

    /// Returns the count of BITS bits.
    ///
    /// # Errors
    ///
    /// The count itself, if its number of bits is not BITS.
    fn try_from(
        count: SignedBitCount<MAX>,
    ) -> Result<FixedSignedBitCount<BITS>, SignedBitCount<MAX>> {
        if count.bits() == BITS {
            Ok(FixedSignedBitCount {})
        } else {
            Err(count)
        }
    }
}
