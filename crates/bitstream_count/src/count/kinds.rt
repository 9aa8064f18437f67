//! The traits of counts of bits, for any greatest number of bits.

ghost use Rattle.std.specs.Prelude.{◌≡◌, ℕ, ◌<◌, ◌≤◌, MatchOption};
ghost use Rattle.bitstream_count.specs.Counts.{IsOutOfRange};

use crate::count::sealed::Sealed;

/// A count of bits, from 0 to `MAX`. `BitCount<MAX>` is the only one.
pub trait Count: Sealed + Copy {
    /// The greatest number of bits.
    const MAX: u32;

    ghost MAX: { ℕ };

    ghost number: { Self → ℕ };

    /// Returns the number of bits.
    fn bits(self) -> u32
        ensures value { result ≡ number self }
        ensures bound { result ≤ MAX };

    /// Returns a count of `bits` bits, or `None` if that is above `MAX`.
    fn of(bits: u32) -> Option<Self>
        ensures { MatchOption result (MAX < bits) (λ n. (bits ≤ MAX) × (number n ≡ bits)) };
}

/// A count of bits, from 1 to `MAX`, including the sign bit. `SignedBitCount<MAX>` is the only one.
pub trait SignedCount: Sealed + Copy {
    /// The greatest number of bits.
    const MAX: u32;

    ghost MAX: { ℕ };

    ghost number: { Self → ℕ };

    /// Returns the number of bits, including the sign bit.
    fn bits(self) -> u32
        ensures value { result ≡ number self }
        // The result is at least 1, since the sign bit counts.
        ensures some { 1 ≤ result }
        ensures bound { result ≤ MAX };

    /// Returns a count of `bits` bits, or `None` if that is 0 or above `MAX`.
    fn of(bits: u32) -> Option<Self>
        ensures { MatchOption result (IsOutOfRange 1 MAX bits)
            (λ n. (1 ≤ bits) × (bits ≤ MAX) × (number n ≡ bits)) };
}
