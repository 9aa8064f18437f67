//! Counts of bits for unsigned values.

ghost use Rattle.std.specs.Prelude.{◌≡◌, ℕ, ◌+◌, ◌-◌, ◌^◌, ◌<◌, ◌≤◌, false, min, Option, Some, MatchResult, decimal};
ghost use Rattle.std.specs.Fmt.{styled_decimal};
ghost use Rattle.std.specs.Option.{SomeIff};
ghost use Rattle.bitstream_count.specs.Counts.{in_range};

use crate::count::checked::{Checked, CheckedUnsigned};
use crate::count::kinds::Count;
use crate::count::mask::lowest_bits;
use bitstream_number::number::{Numeric, UnsignedInteger};
use std::fmt;
use std::marker::Model;
use std::ops::RangeInclusive;

/// A count of bits, from 0 to MAX.
///
/// # Examples
///
/// ```
/// use bitstream_io::{BitCount, Count};
///
/// let count = BitCount::<8>::new::<5>();
/// assert_eq!(rt; count.checked_add::<16>(11).map(|sum| sum.bits()), Some(16));
/// assert_eq!(rt; count.checked_add::<16>(12).map(|sum| sum.bits()), None);
/// let range = count.range::<u8>();
/// assert_eq!(rt; (*range.start(), *range.end()), (0, 31));
/// ```
#[derive(Copy, Clone, Debug, Hash, PartialEq, Eq)]
pub struct BitCount<const MAX: u32> {
    bits: u32,
}

impl<const MAX: u32> Model for BitCount<MAX> {
    ghost Value = { ℕ };

    ghost view = { λ a. a.bits };

    ghost invariant = { λ a. a.bits ≤ MAX };

    ghost inverse = { λ n. record { bits = n } };
}

impl<const MAX: u32> BitCount<MAX> {
    /// Returns a count of BITS bits.
    pub fn new<const BITS: u32>() -> Self
        requires { BITS ≤ MAX }
        ensures { result ≡ BITS }
    {
        BitCount { bits: BITS }
    }

    /// Returns a count of `bits` more bits, or `None` if that is above NEW_MAX.
    pub fn checked_add<const NEW_MAX: u32>(self, bits: u32) -> Option<BitCount<NEW_MAX>>
        ensures { SomeIff result (self.entry + bits ≤ NEW_MAX) (self.entry + bits) }
    {
        match self.bits.checked_add(bits) {
            Some(sum) if sum <= NEW_MAX => Some(BitCount { bits: sum }),
            _ => None,
        }
    }

    /// Returns a count of `bits` fewer bits, or `None` if that is below 0 or above NEW_MAX.
    pub fn checked_sub<const NEW_MAX: u32>(self, bits: u32) -> Option<BitCount<NEW_MAX>>
        ensures { SomeIff result ((bits ≤ self.entry) × (self.entry - bits ≤ NEW_MAX))
            (self.entry - bits) }
    {
        match self.bits.checked_sub(bits) {
            Some(left) if left <= NEW_MAX => Some(BitCount { bits: left }),
            _ => None,
        }
    }

    /// Applies `f` to the number of bits, and returns a count of the result. Returns `None` if `f`
    /// returns `None` or a number above NEW_MAX.
    pub fn try_map<const NEW_MAX: u32, F: FnOnce(u32) -> Option<u32>>(
        self,
        f: F,
    ) -> Option<BitCount<NEW_MAX>>
        requires { F.pre f self }
        ensures { (made : Option ℕ) × F.post f self.entry made
            × (result ≡ in_range 0 NEW_MAX made) }
    {
        match f(self.bits) {
            Some(bits) if bits <= NEW_MAX => Some(BitCount { bits }),
            _ => None,
        }
    }

    /// Returns MAX, the greatest number of bits.
    pub fn max(&self) -> u32
        ensures { result ≡ MAX }
    {
        MAX
    }

    /// Returns the smaller of this count and a count of `bits` bits.
    pub fn min(self, bits: u32) -> Self
        ensures { result ≡ min self.entry bits }
    {
        BitCount {
            bits: self.bits.min(bits),
        }
    }

    /// Returns the value 0 with this count.
    pub fn none<U: UnsignedInteger>(self) -> CheckedUnsigned<MAX, U>
        requires { self ≤ U.BITS_SIZE }
        ensures count { result.0 ≡ self.entry }
        ensures value { U.value result.1 ≡ 0 }
    {
        Checked::of(self, U::ZERO)
    }

    /// Returns the greatest value of this number of bits, 2^n - 1, with this count.
    pub fn all<U: UnsignedInteger>(self) -> CheckedUnsigned<MAX, U>
        requires { self ≤ U.BITS_SIZE }
        ensures count { result.0 ≡ self.entry }
        // For n bits, the value is 2^n - 1.
        ensures value { U.value result.1 ≡ 2 ^ self.entry - 1 }
    {
        Checked::of(self, lowest_bits(self.bits))
    }

    /// Returns the range of the values of this number of bits: 0 to 2^n - 1, or all values of U if
    /// n is U's size in bits or more.
    pub fn range<U: UnsignedInteger>(&self) -> RangeInclusive<U>
        ensures start { U.value result.start ≡ 0 }
        // For n bits, the range ends at 2^n - 1, or at U's greatest value if n is U's size in bits
        // or more.
        ensures end { U.value result.end ≡ 2 ^ (min self.now U.BITS_SIZE) - 1 }
        ensures open { result.exhausted ≡ false }
    {
        let (_, end) = self.min(U::BITS_SIZE).all::<U>().into_count_value();
        U::ZERO..=end
    }
}

impl BitCount<4294967295> {
    /// Returns a count of `bits` bits, for a number that is known only at run time.
    pub fn unknown(bits: u32) -> Self
        ensures { result ≡ bits }
    {
        BitCount { bits }
    }
}

impl<const MAX: u32> Count for BitCount<MAX> {
    const MAX: u32 = MAX;

    ghost MAX = { MAX };

    ghost number = { λ n. n };

    fn bits(self) -> u32 {
        self.bits
    }

    fn of(bits: u32) -> Option<BitCount<MAX>> {
        if bits <= MAX {
            Some(BitCount { bits })
        } else {
            None
        }
    }
}

impl<const MAX: u32> TryFrom<u32> for BitCount<MAX> {
    type Error = u32;

    ghost try_from_gives = { λ n r. MatchResult r
        (λ c. (n ≤ MAX) × (c ≡ n)) (λ e. (MAX < n) × (e ≡ n)) };

    /// Returns a count of `bits` bits.
    ///
    /// # Errors
    ///
    /// The number itself, if it is above MAX.
    fn try_from(bits: u32) -> Result<BitCount<MAX>, u32> {
        BitCount::of(bits).ok_or(bits)
    }
}

impl<const MAX: u32> From<BitCount<MAX>> for u32 {
    ghost from_gives = { λ c r. r ≡ c };

    fn from(count: BitCount<MAX>) -> u32 {
        count.bits
    }
}

impl<const MAX: u32> fmt::Display for BitCount<MAX> {
    ghost output = { λ c. Some (decimal c) };

    ghost styled_output = { λ c s. Some (styled_decimal s c) };

    fn fmt<W: fmt::Write>(&self, f: &mut fmt::Formatter<W>) -> fmt::Result {
        let bits = self.bits;
        fmt::Display::fmt(&bits, f)
    }
}
