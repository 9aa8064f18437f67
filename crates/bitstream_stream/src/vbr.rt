//! The length of a number of variable width, and its groups.
ghost use Rattle.std.specs.Prelude.{◌≡◌, ℕ, ◌+◌, ◌<◌, ◌≤◌, IfSome, None, length};
ghost use Rattle.bitstream_number.specs.Word.{Order};
ghost use Rattle.bitstream_count.specs.Vbr.{vbr_word};
ghost use Rattle.bitstream_stream.specs.Groups.{IsFirstGroup, IsLastGroup, rejects};

use bitstream_number::number::{Numeric, UnsignedInteger, Width};

/// Returns the number of bits that a number takes in groups of `F::BITS` bits.
#[inline(always)]
pub fn vbr_bits<F: Width, U: UnsignedInteger>(value: U) -> u32
    requires some { 2 ≤ F.BITS }
    requires within { F.BITS < U.BITS_SIZE }
    ensures { (o : Order) → length (vbr_word o F.BITS (U.value value)) ≡ result }
{
    value.known();
    // One bit of a group states whether another group follows.
    let payload = F::BITS - 1;
    let mut bits = F::BITS;
    let mut rest = value;
    // Each iteration counts two groups.
    while rest.shr_default(2 * payload) != U::ZERO {
        bits += 2 * F::BITS;
        rest = rest.shr_default(2 * payload);
    }
    // One or two groups are left.
    if rest >> payload != U::ZERO {
        bits += F::BITS;
    }
    bits
}

/// Splits a number into its first group and the rest, which the later groups hold. The first group
/// holds the lowest digits. The bit above them is 1: another group follows. Returns `None` if one
/// group holds the number.
#[inline(always)]
pub(crate) fn split_group<F: Width, U: UnsignedInteger>(value: U) -> Option<(U, U)>
    requires some { 2 ≤ F.BITS }
    requires within { F.BITS < U.BITS_SIZE }
    // If two parts are returned, the number's groups are the first part and then the groups of the
    // second part, which is less than the number.
    ensures first { IfSome result (λ parts.
        IsFirstGroup F.BITS (U.value value) (U.value parts.0) (U.value parts.1)) }
    // If `None` is returned, the number has one group: its encoding in `F::BITS` bits.
    ensures last { result ≡ None → IsLastGroup F.BITS (U.value value) }
{
    let payload = F::BITS - 1;
    let rest = value >> payload;
    if rest == U::ZERO {
        return None;
    }
    // The bit that states that another group follows.
    let more = U::ONE << payload;
    let digits = value & (more - U::ONE);
    Some((more | digits, rest))
}

/// Returns the number of bits above which gathered groups are sent. Groups of whole bytes are sent
/// one by one, which leaves the queue unchanged.
#[inline(always)]
pub(crate) fn most_gathered<F: Width, U: UnsignedInteger>() -> u32
    requires { F.BITS < U.BITS_SIZE }
    ensures { result + F.BITS ≤ U.BITS_SIZE }
{
    if F::BITS % 8 == 0 {
        0
    } else {
        U::BITS_SIZE - F::BITS
    }
}

/// Returns true if a strict read rejects a number's last group: it is 0, and it follows groups with
/// the number's lowest `shift` digits.
#[inline(always)]
pub(crate) fn is_redundant<U: UnsignedInteger>(strict: bool, shift: u32, last: U) -> bool
    ensures { result ≡ rejects strict shift (U.value last) }
{
    strict && shift > 0 && last == U::ZERO
}
