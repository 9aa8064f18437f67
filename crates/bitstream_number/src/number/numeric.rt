//! Signed and unsigned integers.

ghost use Rattle.std.specs.Prelude.{◌≡◌, ◌≢◌, ◌↔◌, ℕ, ℤ, pos, negsuc, ◌*◌, ◌<◌, ◌≤◌, ◌-ℤ◌, Some, IsTrue, int_rem};
ghost use Rattle.std.specs.Ordering.{int_cmp};

use crate::number::primitive::Primitive;
use std::fmt::Debug;
use std::ops::{
    BitAnd, BitOr, BitOrAssign, BitXor, Not, Rem, RemAssign, Shl, ShlAssign, Shr, ShrAssign, Sub,
};

/// An integer type, signed or unsigned.
pub trait Numeric: Primitive
    + Copy
    + Default
    + Debug
    + PartialOrd
    + Shl<u32, Output = Self>
    + ShlAssign<u32>
    + Shr<u32, Output = Self>
    + ShrAssign<u32>
    + Rem<Self, Output = Self>
    + RemAssign<Self>
    + BitAnd<Self, Output = Self>
    + BitOr<Self, Output = Self>
    + BitOrAssign<Self>
    + BitXor<Self, Output = Self>
    + Not<Output = Self>
    + Sub<Self, Output = Self> {
    /// The number of bits of a value.
    const BITS_SIZE: u32;

    ghost BITS_SIZE: { ℕ };

    /// The value 0.
    const ZERO: Self;

    ghost ZERO: { Self };

    /// The value 1.
    const ONE: Self;

    ghost ONE: { Self };

    // The number of a value, the numbers in the type's range, and a number wrapped into that range.
    ghost integer: { Self → ℤ };

    ghost fits: { ℤ → Type 0 };

    ghost wrap: { ℤ → ℤ };

    /// Does nothing at run time. Its contract states that the value's number is in the type's
    /// range.
    fn known(self)
        ensures { fits (integer self) };

    /// Converts from a byte. `i8` takes the byte as a two's complement.
    fn from_u8(u: u8) -> Self
        ensures { integer result ≡ wrap (pos u) };

    /// Converts to a byte. The number must be from 0 to 255.
    fn to_u8(self) -> u8
        requires { (n : ℕ) × (n < 256) × (integer self ≡ pos n) }
        ensures { integer self ≡ pos result };

    ghost size_law: { BITS_SIZE ≡ 8 * Self.BYTES };

    ghost least_law: { 1 ≤ Self.BYTES };

    ghost most_law: { BITS_SIZE ≤ 128 };

    ghost ZERO_law: { integer ZERO ≡ pos 0 };

    ghost ONE_law: { integer ONE ≡ pos 1 };

    ghost eq_law: { (a b : Self) → IsTrue (Self.eq a b) ↔ (integer a ≡ integer b) };

    ghost order_law: { (a b : Self)
        → Self.partial_cmp a b ≡ Some (int_cmp (integer a) (integer b)) };

    // The bitwise operators can always be computed, and so can a shift by less than `BITS_SIZE`.
    ghost can_shl_law: { (a : Self) (k : ℕ) → k < BITS_SIZE → Self.can_shl a k };

    ghost can_shr_law: { (a : Self) (k : ℕ) → k < BITS_SIZE → Self.can_shr a k };

    ghost can_bitand_law: { (a b : Self) → Self.can_bitand a b };

    ghost can_bitor_law: { (a b : Self) → Self.can_bitor a b };

    ghost can_bitxor_law: { (a b : Self) → Self.can_bitxor a b };

    ghost can_not_law: { (a : Self) → Self.can_not a };

    // A difference that fits in the type can be computed, and is exact.
    ghost can_sub_law: { (a b : Self) → fits (integer a -ℤ integer b) → Self.can_sub a b };

    ghost sub_law: { (a b r : Self) → Self.sub_gives a b r → fits (integer a -ℤ integer b)
        → integer r ≡ integer a -ℤ integer b };

    // A remainder by a number other than 0 and -1 can be computed.
    ghost can_rem_law: { (a b : Self) → fits (integer a) → fits (integer b)
        → integer b ≢ pos 0 → integer b ≢ negsuc 0 → Self.can_rem a b };

    ghost rem_law: { (a b r : Self) → Self.rem_gives a b r
        → integer r ≡ int_rem (integer a) (integer b) };

    // An assigning operator (`<<=` and so on) has the same clauses as the plain operator.
    ghost can_shl_assign_law: { (a : Self) (k : ℕ) → Self.can_shl a k → Self.can_shl_assign a k };

    ghost shl_assign_law: { (a : Self) (k : ℕ) (r : Self) → Self.shl_assign_gives a k r
        → Self.shl_gives a k r };

    ghost can_shr_assign_law: { (a : Self) (k : ℕ) → Self.can_shr a k → Self.can_shr_assign a k };

    ghost shr_assign_law: { (a : Self) (k : ℕ) (r : Self) → Self.shr_assign_gives a k r
        → Self.shr_gives a k r };

    ghost can_rem_assign_law: { (a b : Self) → Self.can_rem a b → Self.can_rem_assign a b };

    ghost rem_assign_law: { (a b r : Self) → Self.rem_assign_gives a b r → Self.rem_gives a b r };

    ghost can_bitor_assign_law: { (a b : Self) → Self.can_bitor_assign a b };

    ghost bitor_assign_law: { (a b r : Self) → Self.bitor_assign_gives a b r
        → Self.bitor_gives a b r };
}
