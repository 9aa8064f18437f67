//! Splits of numbers into their lowest bits and the bits above.

ghost use Rattle.std.specs.Prelude.{◌≡◌, ℕ, ◌+◌, ◌-◌, ◌*◌, ◌%◌, ◌^◌, ◌≤◌, min};

use crate::count::bit_count::BitCount;
use crate::count::checked::{Checked, CheckedUnsigned};
use crate::count::kinds::Count;
use bitstream_number::number::{Numeric, UnsignedInteger};
use std::marker::{Model, PhantomData};

/// A split of the numbers of type U into their lowest bits and the bits above.
///
/// # Examples
///
/// ```
/// use bitstream_io::BitCount;
///
/// let (high, low) = BitCount::<8>::new::<3>().mask_lsb::<u8>().split(222);
/// assert_eq!(rt; high, 27);
/// assert_eq!(rt; low.into_value(), 6);
/// ```
#[derive(Drop)]
pub struct LsbMask<const MAX: u32, U: UnsignedInteger> {
    count: BitCount<MAX>,
    numbers: PhantomData<U>,
}

impl<const MAX: u32, U: UnsignedInteger> Model for LsbMask<MAX, U> {
    ghost Value = { ℕ };

    ghost view = { λ a. a.count };

    ghost invariant = { λ a. a.count ≤ U.BITS_SIZE };
}

/// Returns the number whose lowest `bits` bits are 1 and whose other bits are 0.
pub(crate) fn lowest_bits<U: UnsignedInteger>(bits: u32) -> U
    requires { bits ≤ U.BITS_SIZE }
    ensures { U.value result ≡ 2 ^ bits - 1 }
{
    U::ALL.shr_default(U::BITS_SIZE - bits)
}

impl<const MAX: u32> BitCount<MAX> {
    /// Returns a split at this number of bits, or at the type's size in bits if that is less.
    pub fn mask_lsb<U: UnsignedInteger>(self) -> LsbMask<MAX, U>
        ensures { result ≡ min self.entry U.BITS_SIZE }
    {
        LsbMask {
            count: self.min(U::BITS_SIZE),
            numbers: PhantomData,
        }
    }
}

impl<const MAX: u32, U: UnsignedInteger> LsbMask<MAX, U> {
    /// Splits `v`: returns the bits above as a number, and then the lowest bits as a number.
    pub fn split(&self, v: U) -> (U, CheckedUnsigned<MAX, U>)
        // The count of the low value is n, the number of bits at which this mask splits.
        ensures count { result.1.0 ≡ self.now }
        // The number is the high value times 2^n, plus the low value.
        ensures split { U.value v ≡ U.value result.0 * 2 ^ self.now + U.value result.1.1 }
        // The low value is the number modulo 2^n.
        ensures low { U.value result.1.1 ≡ U.value v % 2 ^ self.now }
    {
        let bits = self.count.bits();
        let high = v.shr_default(bits);
        let low = v & lowest_bits(bits);
        (high, Checked::of(self.count, low))
    }
}
