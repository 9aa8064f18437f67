//! Signed integers.

ghost use Rattle.std.specs.Prelude.{◌≡◌, ◌↔◌, ℕ, ℤ, pos, ◌-◌, ◌%◌, ◌^◌, ◌≤◌, ◌+ℤ◌, ◌≤ℤ◌, ◌<ℤ◌, IsTrue};
ghost use Rattle.std.specs.Int as int;
ghost use Rattle.bitstream_number.specs.Word.{High, Low, bytes, residue, FitsSignedBits, signed_from};

use crate::number::numeric::Numeric;
use crate::number::unsigned::UnsignedInteger;
use crate::number::width::Width;

/// A signed integer type: `i8`, `i16`, `i32`, `i64` or `i128`.
pub trait SignedInteger: Numeric {
    /// The unsigned type of the same size.
    type Unsigned: UnsignedInteger<Signed = Self>;

    /// Returns true if the number is negative.
    fn is_negative(self) -> bool
        ensures { IsTrue result ↔ (Self.integer self <ℤ pos 0) };

    /// Converts a number that is not negative to the unsigned type.
    fn as_non_negative(self) -> Self::Unsigned
        requires { pos 0 ≤ℤ Self.integer self }
        ensures { pos (Self.Unsigned.value result) ≡ Self.integer self };

    /// Returns the two's complement of a negative number in `bits` bits, without its sign bit: the
    /// number plus 2^(bits - 1).
    fn as_negative(self, bits: u32) -> Self::Unsigned
        requires some { 1 ≤ bits }
        requires within { bits ≤ Self.BITS_SIZE }
        requires negative { Self.integer self <ℤ pos 0 }
        requires above { pos 0 ≤ℤ (Self.integer self +ℤ pos (2 ^ (bits - 1))) }
        ensures { pos (Self.Unsigned.value result) ≡ Self.integer self +ℤ pos (2 ^ (bits - 1)) };

    /// Does what [`as_negative`](SignedInteger::as_negative) does, for `B::BITS` bits.
    fn as_negative_fixed<B: Width>(self) -> Self::Unsigned
        requires some { 1 ≤ B.BITS }
        requires within { B.BITS ≤ Self.BITS_SIZE }
        requires negative { Self.integer self <ℤ pos 0 }
        requires above { pos 0 ≤ℤ (Self.integer self +ℤ pos (2 ^ (B.BITS - 1))) }
        ensures { pos (Self.Unsigned.value result) ≡ Self.integer self +ℤ pos (2 ^ (B.BITS - 1)) }
    {
        self.as_negative(B::BITS)
    }

    ghost signed_law: { (x : Self) → Self.Unsigned.signed x ≡ Self.integer x };

    ghost same_size_law: { Self.Unsigned.BITS_SIZE ≡ Self.BITS_SIZE };

    ghost same_bytes_law: { Self.Unsigned.BYTES ≡ Self.BYTES };

    ghost fits_law: { (z : ℤ) → Self.fits z ↔ FitsSignedBits Self.BITS_SIZE z };

    ghost wrap_law: { (n : ℕ)
        → Self.wrap (pos n) ≡ signed_from Self.BITS_SIZE (n % 2 ^ Self.BITS_SIZE) };

    // A shift to the right rounds down.
    ghost shr_law: { (a : Self) (k : ℕ) (r : Self) → Self.shr_gives a k r
        → Self.integer r ≡ int.int_shr (Self.integer a) k };

    // The bytes encode the number modulo 2^BITS_SIZE.
    ghost be_law: { (x : Self) → Self.fits (Self.integer x)
        → Self.be_bytes x ≡ bytes High Self.BYTES (residue Self.BITS_SIZE (Self.integer x)) };

    ghost le_law: { (x : Self) → Self.fits (Self.integer x)
        → Self.le_bytes x ≡ bytes Low Self.BYTES (residue Self.BITS_SIZE (Self.integer x)) };
}
