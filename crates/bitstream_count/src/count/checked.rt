//! Values that are known to fit a count of bits.

ghost use Rattle.std.specs.Prelude.{◌≡◌, ℕ, negsuc, ◌%◌, ◌^◌, ◌<◌, ◌≤◌, ◌↔◌, ⊤, IsTrue, MatchResult};
ghost use Rattle.bitstream_number.specs.Word.{FitsSignedBits};
ghost use Rattle.bitstream_count.specs.Checks.{HoldsUnsigned, HoldsSigned, AcceptsUnsigned, RefusesUnsigned, RefusesSigned};

use crate::checked_error::CheckedError;
use crate::count::bit_count::BitCount;
use crate::count::fixed::{FixedBitCount, FixedSignedBitCount};
use crate::count::kinds::{Count, SignedCount};
use crate::count::sealed::Sealed;
use crate::count::signed_bit_count::SignedBitCount;
use bitstream_number::number::{Numeric, SignedInteger, UnsignedInteger};
use std::alloc::AllocError;
use std::marker::Model;

/// A type of counts that hold values of type T. It is the bound of a function over any [`Checked`].
/// Only the four count types of this crate implement it.
pub trait Holds<T>: Sealed {
    // A count holds a value.
    ghost holds: { Self → T → Type 0 };
}

impl<const MAX: u32, U: UnsignedInteger> Holds<U> for BitCount<MAX> {
    ghost holds = { λ n v. HoldsUnsigned U.BITS_SIZE n (U.value v) };
}

impl<const MAX: u32, S: SignedInteger> Holds<S> for SignedBitCount<MAX> {
    ghost holds = { λ n v. HoldsSigned S.BITS_SIZE n (S.integer v) };
}

impl<const BITS: u32, U: UnsignedInteger> Holds<U> for FixedBitCount<BITS> {
    ghost holds = { λ _ v. HoldsUnsigned U.BITS_SIZE BITS (U.value v) };
}

impl<const BITS: u32, S: SignedInteger> Holds<S> for FixedSignedBitCount<BITS> {
    ghost holds = { λ _ v. HoldsSigned S.BITS_SIZE BITS (S.integer v) };
}

/// A value with a count of bits that holds it. The count is at most the size in bits of the value's
/// type.
///
/// # Examples
///
/// ```
/// use bitstream_io::{BitCount, CheckedError, CheckedUnsigned};
///
/// let count = BitCount::<8>::new::<3>();
/// let value = CheckedUnsigned::new(count, 7u8);
/// assert_eq!(rt; value.map(|v| v.into_value()).ok(), Some(7));
/// let value = CheckedUnsigned::new(count, 8u8);
/// assert!(rt; matches!(value, Err(CheckedError::ExcessiveValue)));
/// ```
#[derive(Debug)]
pub struct Checked<C: Holds<T>, T> {
    count: C,
    value: T,
}

impl<C: Holds<T>, T> Model for Checked<C, T> {
    ghost Value = { C × T };

    ghost view = { λ a. (a.count, a.value) };

    ghost invariant = { λ a. C.holds a.count a.value };

    ghost inverse = { λ p. record { count = p.0; value = p.1 } };
}

impl<C: Holds<T> + Copy, T: Copy> Copy for Checked<C, T> {}

impl<C: Holds<T> + Copy, T: Copy> Clone for Checked<C, T> {
    ghost is_clone = { λ x y. y ≡ x };

    ghost is_infallible = { λ _. ⊤ };

    fn clone(&self) -> Result<Self, AllocError> {
        Ok(*self)
    }
}

/// An unsigned value with a count from 0 to MAX bits that holds it.
pub type CheckedUnsigned<const MAX: u32, T> = Checked<BitCount<MAX>, T>;

/// A signed value with a count from 1 to MAX bits that holds it.
pub type CheckedSigned<const MAX: u32, T> = Checked<SignedBitCount<MAX>, T>;

/// An unsigned value that fits in BITS bits.
pub type CheckedUnsignedFixed<const BITS: u32, T> = Checked<FixedBitCount<BITS>, T>;

/// A signed value that fits in BITS bits.
pub type CheckedSignedFixed<const BITS: u32, T> = Checked<FixedSignedBitCount<BITS>, T>;

impl<C: Holds<T>, T> Checked<C, T> {
    /// Returns the value with a count. The caller proves that the count holds the value.
    pub fn of(count: C, value: T) -> Self
        requires { C.holds count value }
        ensures count { result.0 ≡ count }
        ensures value { result.1 ≡ value }
    {
        Checked { count, value }
    }
}

impl<C: Holds<T> + Copy, T: Copy> Checked<C, T> {
    /// Returns the count and the value.
    pub fn into_count_value(self) -> (C, T)
        ensures count { result.0 ≡ self.0 }
        ensures value { result.1 ≡ self.1 }
        // The count holds the value.
        ensures holds { C.holds result.0 result.1 }
    {
        (self.count, self.value)
    }

    /// Returns the value.
    pub fn into_value(self) -> T
        ensures value { result ≡ self.1 }
        // The count stored with the value holds it.
        ensures holds { C.holds self.0 result }
    {
        self.value
    }

    /// Returns the value by reference.
    pub fn as_ref(&self) -> &T
        ensures value { result.now ≡ self.now.1 }
        // The count stored with the value holds it.
        ensures holds { C.holds self.now.0 result.now }
    {
        &self.value
    }
}

/// Checks that a value fits in `bits` bits, and returns the value to store. At 0 bits any value is
/// accepted, and 0 is stored.
///
/// # Errors
///
/// `ExcessiveBits` if U has fewer than `bits` bits. Otherwise `ExcessiveValue` if the value needs
/// more than `bits` bits.
fn check_unsigned<U: UnsignedInteger>(bits: u32, value: U) -> Result<U, CheckedError>
    ensures { MatchResult result
        (λ v. AcceptsUnsigned U.BITS_SIZE bits (U.value value)
        × (U.value v ≡ U.value value % 2 ^ bits))
        (RefusesUnsigned U.BITS_SIZE bits (U.value value)) }
{
    if bits > U::BITS_SIZE {
        Err(CheckedError::ExcessiveBits)
    } else if bits == 0 {
        Ok(U::ZERO)
    } else if value.shr_default(bits) == U::ZERO {
        Ok(value)
    } else {
        Err(CheckedError::ExcessiveValue)
    }
}

/// Returns -1.
fn negative_one<S: SignedInteger>() -> S
    ensures { S.integer result ≡ negsuc 0 }
{
    S::ZERO - S::ONE
}

/// Checks that a value fits in `bits` bits, and returns the value.
///
/// # Errors
///
/// `ExcessiveBits` if S has fewer than `bits` bits. Otherwise `ExcessiveValue` if the value needs
/// more than `bits` bits.
fn check_signed<S: SignedInteger>(bits: u32, value: S) -> Result<S, CheckedError>
    requires { 1 ≤ bits }
    ensures { MatchResult result
        (λ v. HoldsSigned S.BITS_SIZE bits (S.integer value) × (v ≡ value))
        (RefusesSigned S.BITS_SIZE bits (S.integer value)) }
{
    if bits > S::BITS_SIZE {
        return Err(CheckedError::ExcessiveBits);
    }
    let above = value >> (bits - 1);
    if above == S::ZERO || above == negative_one() {
        Ok(value)
    } else {
        Err(CheckedError::ExcessiveValue)
    }
}

impl<const MAX: u32, U: UnsignedInteger> Checked<BitCount<MAX>, U> {
    /// Returns the value with this count. At 0 bits any value is accepted, and 0 is stored.
    ///
    /// # Errors
    ///
    /// `ExcessiveBits` if U has fewer bits than the count. Otherwise `ExcessiveValue` if the value
    /// needs more bits than the count.
    pub fn new(count: BitCount<MAX>, value: U) -> Result<Self, CheckedError>
        ensures { MatchResult result
            (λ c. AcceptsUnsigned U.BITS_SIZE count.entry (U.value value) × (c.0 ≡ count.entry)
            × (U.value c.1 ≡ U.value value % 2 ^ count.entry))
            (RefusesUnsigned U.BITS_SIZE count.entry (U.value value)) }
    {
        let value = check_unsigned(count.bits(), value)?;
        Ok(Checked { count, value })
    }

    /// Returns the value with a count of BITS bits. BITS is at most the type's size in bits.
    ///
    /// # Errors
    ///
    /// `ExcessiveValue` if the value needs more than BITS bits.
    pub fn new_fixed<const BITS: u32>(value: U) -> Result<Self, CheckedError>
        requires some { BITS ≤ MAX }
        requires within { BITS ≤ U.BITS_SIZE }
        ensures { MatchResult result
            (λ c. AcceptsUnsigned U.BITS_SIZE BITS (U.value value) × (c.0 ≡ BITS)
            × (U.value c.1 ≡ U.value value % 2 ^ BITS))
            (RefusesUnsigned U.BITS_SIZE BITS (U.value value)) }
    {
        Self::new(BitCount::new::<BITS>(), value)
    }
}

impl<const MAX: u32, S: SignedInteger> Checked<SignedBitCount<MAX>, S> {
    /// Returns the value with this count.
    ///
    /// # Errors
    ///
    /// `ExcessiveBits` if S has fewer bits than the count. Otherwise `ExcessiveValue` if the value
    /// needs more bits than the count.
    pub fn new(count: SignedBitCount<MAX>, value: S) -> Result<Self, CheckedError>
        ensures { MatchResult result
            (λ c. HoldsSigned S.BITS_SIZE count.entry (S.integer value)
            × (c.0 ≡ count.entry) × (c.1 ≡ value))
            (RefusesSigned S.BITS_SIZE count.entry (S.integer value)) }
    {
        let value = check_signed(count.bits(), value)?;
        Ok(Checked { count, value })
    }

    /// Returns the value with a count of BITS bits. BITS is at most the type's size in bits.
    ///
    /// # Errors
    ///
    /// `ExcessiveValue` if the value needs more than BITS bits.
    pub fn new_fixed<const BITS: u32>(value: S) -> Result<Self, CheckedError>
        requires some { 1 ≤ BITS }
        requires most { BITS ≤ MAX }
        requires within { BITS ≤ S.BITS_SIZE }
        ensures { MatchResult result
            (λ c. HoldsSigned S.BITS_SIZE BITS (S.integer value) × (c.0 ≡ BITS) × (c.1 ≡ value))
            (RefusesSigned S.BITS_SIZE BITS (S.integer value)) }
    {
        Self::new(SignedBitCount::new::<BITS>(), value)
    }
}

impl<const BITS: u32, U: UnsignedInteger> Checked<FixedBitCount<BITS>, U> {
    /// Returns the value with a count of BITS bits. BITS is at most the type's size in bits.
    ///
    /// # Errors
    ///
    /// `ExcessiveValue` if the value needs more than BITS bits.
    pub fn new_fixed(value: U) -> Result<Self, CheckedError>
        requires { BITS ≤ U.BITS_SIZE }
        ensures { MatchResult result
            (λ c. AcceptsUnsigned U.BITS_SIZE BITS (U.value value)
            × (U.value c.1 ≡ U.value value % 2 ^ BITS))
            (RefusesUnsigned U.BITS_SIZE BITS (U.value value)) }
    {
        let value = check_unsigned(BITS, value)?;
        let count = FixedBitCount;
        Ok(Checked { count, value })
    }
}

impl<const BITS: u32, S: SignedInteger> Checked<FixedSignedBitCount<BITS>, S> {
    /// Returns the value with a count of BITS bits. BITS is at most the type's size in bits.
    ///
    /// # Errors
    ///
    /// `ExcessiveValue` if the value needs more than BITS bits.
    pub fn new_fixed(value: S) -> Result<Self, CheckedError>
        requires some { 1 ≤ BITS }
        requires within { BITS ≤ S.BITS_SIZE }
        ensures { MatchResult result
            (λ c. HoldsSigned S.BITS_SIZE BITS (S.integer value) × (c.1 ≡ value))
            (RefusesSigned S.BITS_SIZE BITS (S.integer value)) }
    {
        let value = check_signed(BITS, value)?;
        let count = FixedSignedBitCount {};
        Ok(Checked { count, value })
    }
}
