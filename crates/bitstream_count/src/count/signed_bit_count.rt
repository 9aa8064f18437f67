//! Counts of bits for signed values.

ghost use Rattle.std.specs.Prelude.{◌≡◌, ℕ, pos, ◌+◌, ◌-◌, ◌^◌, ◌<◌, ◌≤◌, ◌-ℤ◌, false, min, Option, Some, MatchResult, decimal};
ghost use Rattle.std.specs.Fmt.{styled_decimal};
ghost use Rattle.std.specs.Option.{SomeIff};
ghost use Rattle.bitstream_count.specs.Counts.{IsOutOfRange, in_range};

use crate::count::bit_count::BitCount;
use crate::count::kinds::{Count, SignedCount};
use crate::count::mask::lowest_bits;
use bitstream_number::number::{Numeric, SignedInteger, UnsignedInteger};
use std::fmt;
use std::marker::Model;
use std::ops::RangeInclusive;

/// A count of bits, from 1 to MAX, including the sign bit.
///
/// # Examples
///
/// ```
/// use bitstream_io::{SignedBitCount, SignedCount};
///
/// let count = SignedBitCount::<8>::new::<4>();
/// let range = count.range::<i8>();
/// assert_eq!(rt; (*range.start(), *range.end()), (-8, 7));
/// assert_eq!(rt; count.checked_sub::<8>(4).map(|left| left.bits()), None);
/// ```
#[derive(Copy, Clone, Debug, Hash, PartialEq, Eq)]
pub struct SignedBitCount<const MAX: u32> {
    count: BitCount<MAX>,
}

impl<const MAX: u32> Model for SignedBitCount<MAX> {
    ghost Value = { ℕ };

    ghost view = { λ a. a.count };

    ghost invariant = { λ a. 1 ≤ a.count };

    ghost inverse = { λ n. record { count = n } };
}

impl<const MAX: u32> BitCount<MAX> {
    /// Returns a signed count of the same number of bits, or `None` if that is 0.
    pub fn signed_count(&self) -> Option<SignedBitCount<MAX>>
        ensures { SomeIff result (0 < self.now) self.now }
    {
        let count = *self;
        if count.bits() == 0 {
            None
        } else {
            Some(SignedBitCount { count })
        }
    }
}

impl<const MAX: u32> SignedBitCount<MAX> {
    /// Returns a count of BITS bits.
    pub fn new<const BITS: u32>() -> Self
        requires some { 1 ≤ BITS }
        requires most { BITS ≤ MAX }
        ensures { result ≡ BITS }
    {
        SignedBitCount {
            count: BitCount::new::<BITS>(),
        }
    }

    /// Returns a count of `bits` more bits, or `None` if that is above NEW_MAX.
    pub fn checked_add<const NEW_MAX: u32>(self, bits: u32) -> Option<SignedBitCount<NEW_MAX>>
        ensures { SomeIff result (self.entry + bits ≤ NEW_MAX) (self.entry + bits) }
    {
        let sum = self.count.checked_add::<NEW_MAX>(bits)?;
        sum.signed_count()
    }

    /// Returns a count of `bits` fewer bits, or `None` if that is below 1 or above NEW_MAX.
    pub fn checked_sub<const NEW_MAX: u32>(self, bits: u32) -> Option<SignedBitCount<NEW_MAX>>
        ensures { SomeIff result ((bits < self.entry) × (self.entry - bits ≤ NEW_MAX))
            (self.entry - bits) }
    {
        let left = self.count.checked_sub::<NEW_MAX>(bits)?;
        left.signed_count()
    }

    /// Applies `f` to the number of bits, and returns a count of the result. Returns `None` if `f`
    /// returns `None`, 0 or a number above NEW_MAX.
    pub fn try_map<const NEW_MAX: u32, F: FnOnce(u32) -> Option<u32>>(
        self,
        f: F,
    ) -> Option<SignedBitCount<NEW_MAX>>
        requires { F.pre f self }
        ensures { (made : Option ℕ) × F.post f self.entry made
            × (result ≡ in_range 1 NEW_MAX made) }
    {
        let made = self.count.try_map::<NEW_MAX, F>(f)?;
        made.signed_count()
    }

    /// Returns MAX, the greatest number of bits.
    pub fn max(&self) -> u32
        ensures { result ≡ MAX }
    {
        MAX
    }

    /// Returns a `BitCount` of the same number of bits, including the sign bit.
    pub fn count(&self) -> BitCount<MAX>
        ensures { result ≡ self.now }
    {
        self.count
    }

    /// Returns a `BitCount` of the bits without the sign bit: one fewer.
    pub fn unsigned_count(&self) -> BitCount<MAX>
        ensures { result ≡ self.now - 1 }
    {
        self.count.min(self.count.bits() - 1)
    }

    /// Returns the range of the values of this number of bits: -2^(n-1) to 2^(n-1) - 1, or all
    /// values of S if n is S's size in bits or more.
    pub fn range<S: SignedInteger>(&self) -> RangeInclusive<S>
        // For n bits, the range begins at -2^(n-1), or at S's least value if n is S's size in bits
        // or more.
        ensures start { S.integer result.start ≡ pos 0 -ℤ pos (2 ^ (min self.now S.BITS_SIZE - 1)) }
        // It ends at 2^(n-1) - 1, or at S's greatest value if n is S's size in bits or more.
        ensures end { S.integer result.end ≡ pos (2 ^ (min self.now S.BITS_SIZE - 1) - 1) }
        ensures open { result.exhausted ≡ false }
    {
        let bits = self.count.min(S::BITS_SIZE).bits();
        let start = S::Unsigned::ZERO.as_negative(bits);
        let end = lowest_bits::<S::Unsigned>(bits - 1).as_non_negative();
        start..=end
    }
}

impl<const MAX: u32> SignedCount for SignedBitCount<MAX> {
    const MAX: u32 = MAX;

    ghost MAX = { MAX };

    ghost number = { λ n. n };

    fn bits(self) -> u32 {
        self.count.bits()
    }

    fn of(bits: u32) -> Option<SignedBitCount<MAX>> {
        let count = BitCount::of(bits)?;
        count.signed_count()
    }
}

impl<const MAX: u32> TryFrom<BitCount<MAX>> for SignedBitCount<MAX> {
    type Error = ();

    ghost try_from_gives = { λ c r. MatchResult r (λ s. (0 < c) × (s ≡ c)) (λ _. c ≡ 0) };

    /// Returns a signed count of the same number of bits.
    ///
    /// # Errors
    ///
    /// `()` if that is 0.
    fn try_from(count: BitCount<MAX>) -> Result<SignedBitCount<MAX>, ()> {
        count.signed_count().ok_or(())
    }
}

impl<const MAX: u32> TryFrom<u32> for SignedBitCount<MAX> {
    type Error = u32;

    ghost try_from_gives = { λ n r. MatchResult r
        (λ c. (1 ≤ n) × (n ≤ MAX) × (c ≡ n)) (λ e. IsOutOfRange 1 MAX n × (e ≡ n)) };

    /// Returns a count of `bits` bits.
    ///
    /// # Errors
    ///
    /// The number itself, if it is 0 or above MAX.
    fn try_from(bits: u32) -> Result<SignedBitCount<MAX>, u32> {
        SignedBitCount::of(bits).ok_or(bits)
    }
}

impl<const MAX: u32> From<SignedBitCount<MAX>> for u32 {
    ghost from_gives = { λ c r. r ≡ c };

    fn from(count: SignedBitCount<MAX>) -> u32 {
        count.bits()
    }
}

impl<const MAX: u32> fmt::Display for SignedBitCount<MAX> {
    ghost output = { λ c. Some (decimal c) };

    ghost styled_output = { λ c s. Some (styled_decimal s c) };

    fn fmt<W: fmt::Write>(&self, f: &mut fmt::Formatter<W>) -> fmt::Result {
        let count = self.count;
        fmt::Display::fmt(&count, f)
    }
}
