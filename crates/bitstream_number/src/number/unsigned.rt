//! Unsigned integers.

ghost use Rattle.std.specs.Prelude.{◌≡◌, ◌↔◌, ℕ, ℤ, pos, ◌-◌, ◌*◌, ◌/◌, ◌%◌, ◌^◌, ◌<◌, ◌≤◌, ◌-ℤ◌, Some, bit_and, bit_or, bit_xor, IsTrue};
ghost use Rattle.std.specs.Ordering.{nat_cmp};
ghost use Rattle.std.specs.Option.{SomeIff};
ghost use Rattle.bitstream_number.specs.Word.{High, Low, bytes};

use crate::number::numeric::Numeric;
use crate::number::width::Width;

/// An unsigned integer type: `u8`, `u16`, `u32`, `u64` or `u128`.
///
/// # Examples
///
/// ```
/// use bitstream_io::UnsignedInteger;
///
/// assert_eq!(rt; UnsignedInteger::checked_shl(3u8, 7), Some(128));
/// assert_eq!(rt; UnsignedInteger::checked_shl(3u8, 8), None);
/// assert_eq!(rt; UnsignedInteger::shl_default(3u8, 8), 0);
/// ```
pub trait UnsignedInteger: Numeric {
    /// The value with only its most significant bit set.
    const MSB_BIT: Self;

    ghost MSB_BIT: { Self };

    /// The value with only its least significant bit set.
    const LSB_BIT: Self;

    ghost LSB_BIT: { Self };

    /// The value with all bits set: the greatest value of the type.
    const ALL: Self;

    ghost ALL: { Self };

    /// The signed type of the same size.
    type Signed: Copy;

    // The number of a value, the value of a number, and the number of a signed value.
    ghost value: { Self → ℕ };

    ghost of: { ℕ → Self };

    ghost signed: { Self.Signed → ℤ };

    /// Converts a `u64` to this type. The number must be in the type's range.
    fn from_u64(number: u64) -> Self
        requires { number < 2 ^ Self.BITS_SIZE }
        ensures { value result ≡ number };

    /// Converts a number to the signed type. Its most significant bit must be 0.
    fn as_non_negative(self) -> Self::Signed
        requires { value self < 2 ^ (Self.BITS_SIZE - 1) }
        ensures { signed result ≡ pos (value self) };

    /// Sets the sign bit of a two's complement of `bits` bits: returns `self` - 2^(bits - 1).
    fn as_negative(self, bits: u32) -> Self::Signed
        requires some { 1 ≤ bits }
        requires within { bits ≤ Self.BITS_SIZE }
        requires below { value self < 2 ^ (bits - 1) }
        ensures { signed result ≡ pos (value self) -ℤ pos (2 ^ (bits - 1)) };

    /// Does what [`as_negative`](UnsignedInteger::as_negative) does, for `B::BITS` bits.
    fn as_negative_fixed<B: Width>(self) -> Self::Signed
        requires some { 1 ≤ B.BITS }
        requires within { B.BITS ≤ Self.BITS_SIZE }
        requires below { value self < 2 ^ (B.BITS - 1) }
        ensures { signed result ≡ pos (value self) -ℤ pos (2 ^ (B.BITS - 1)) }
    {
        self.as_negative(B::BITS)
    }

    /// Shifts to the left. Returns `None` if `rhs` is `BITS_SIZE` or more.
    fn checked_shl(self, rhs: u32) -> Option<Self>
        ensures { SomeIff result (rhs < Self.BITS_SIZE)
            (of ((value self * 2 ^ rhs) % 2 ^ Self.BITS_SIZE)) };

    /// Shifts to the right. Returns `None` if `rhs` is `BITS_SIZE` or more.
    fn checked_shr(self, rhs: u32) -> Option<Self>
        ensures { SomeIff result (rhs < Self.BITS_SIZE) (of (value self / 2 ^ rhs)) };

    /// Shifts to the left. Returns 0 if `rhs` is `BITS_SIZE` or more.
    fn shl_default(self, rhs: u32) -> Self
        ensures { value result ≡ (value self * 2 ^ rhs) % 2 ^ Self.BITS_SIZE }
    {
        match self.checked_shl(rhs) {
            Some(shifted) => shifted,
            None => Self::ZERO,
        }
    }

    /// Shifts to the right. Returns 0 if `rhs` is `BITS_SIZE` or more.
    fn shr_default(self, rhs: u32) -> Self
        ensures { value result ≡ value self / 2 ^ rhs }
    {
        self.known();
        match self.checked_shr(rhs) {
            Some(shifted) => shifted,
            None => Self::ZERO,
        }
    }

    ghost integer_law: { (x : Self) → Self.integer x ≡ pos (value x) };

    ghost fits_law: { (n : ℕ) → Self.fits (pos n) ↔ (n < 2 ^ Self.BITS_SIZE) };

    ghost wrap_law: { (n : ℕ) → Self.wrap (pos n) ≡ pos (n % 2 ^ Self.BITS_SIZE) };

    ghost eq_value_law: { (a b : Self) → IsTrue (Self.eq a b) ↔ (value a ≡ value b) };

    ghost order_value_law: { (a b : Self)
        → Self.partial_cmp a b ≡ Some (nat_cmp (value a) (value b)) };

    // The number of a converted byte, and the fact that a value is in the type's range.
    ghost byte_law: { (x : Self) (u : ℕ) → Self.integer x ≡ Self.wrap (pos u) → u < 256
        → value x ≡ u };

    ghost known_law: { (x : Self) → Self.fits (Self.integer x) → value x < 2 ^ Self.BITS_SIZE };

    ghost value_of_law: { (n : ℕ) → n < 2 ^ Self.BITS_SIZE → value (of n) ≡ n };

    ghost of_value_law: { (x : Self) → of (value x) ≡ x };

    ghost ZERO_value_law: { value Self.ZERO ≡ 0 };

    ghost ONE_value_law: { value Self.ONE ≡ 1 };

    ghost LSB_law: { value LSB_BIT ≡ 1 };

    ghost MSB_law: { value MSB_BIT ≡ 2 ^ (Self.BITS_SIZE - 1) };

    ghost ALL_law: { value ALL ≡ 2 ^ Self.BITS_SIZE - 1 };

    // The bytes are the number's digits.
    ghost be_law: { (x : Self) → value x < 2 ^ Self.BITS_SIZE
        → Self.be_bytes x ≡ bytes High Self.BYTES (value x) };

    ghost le_law: { (x : Self) → value x < 2 ^ Self.BITS_SIZE
        → Self.le_bytes x ≡ bytes Low Self.BYTES (value x) };

    ghost shl_law: { (a : Self) (k : ℕ) (r : Self) → Self.shl_gives a k r
        → value r ≡ (value a * 2 ^ k) % 2 ^ Self.BITS_SIZE };

    ghost shr_law: { (a : Self) (k : ℕ) (r : Self) → Self.shr_gives a k r
        → value r ≡ value a / 2 ^ k };

    ghost and_law: { (a b r : Self) → Self.bitand_gives a b r
        → value r ≡ bit_and (value a) (value b) };

    ghost or_law: { (a b r : Self) → Self.bitor_gives a b r
        → value r ≡ bit_or (value a) (value b) };

    ghost xor_law: { (a b r : Self) → Self.bitxor_gives a b r
        → value r ≡ bit_xor (value a) (value b) };

    ghost not_law: { (a r : Self) → Self.not_gives a r
        → value r ≡ 2 ^ Self.BITS_SIZE - 1 - value a };

    ghost can_sub_value_law: { (a b : Self) → value b ≤ value a → Self.can_sub a b };

    ghost sub_value_law: { (a b r : Self) → Self.sub_gives a b r → value r ≡ value a - value b };

    ghost can_modulo_law: { (a b : Self) → 0 < value b → Self.can_rem a b };

    ghost modulo_law: { (a b r : Self) → Self.rem_gives a b r → value r ≡ value a % value b };
}
