//! Numbers whose bits are all equal.
ghost use Rattle.std.specs.Prelude.{◌≡◌, ℕ, ◌^◌, ◌<◌, ◌≤◌, not, replicate};
ghost use Rattle.bitstream_number.specs.Word.{Order, word};

use bitstream_number::number::{Numeric, UnsignedInteger};

/// Returns the number whose n bits all differ from the stop bit.
#[inline(always)]
pub(crate) fn run_without_stop<U: UnsignedInteger>(stop: bool, n: u32) -> U
    requires { n ≤ U.BITS_SIZE }
    // The n-bit encoding of the number has no stop bit, in either order.
    ensures word { (o : Order) → word o n (U.value result) ≡ replicate n (not stop) }
    ensures below { U.value result < 2 ^ n }
{
    if stop {
        U::ZERO
    } else {
        U::ALL.shr_default(U::BITS_SIZE - n)
    }
}
