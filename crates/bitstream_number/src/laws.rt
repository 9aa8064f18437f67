//! Laws of encodings, bytes and numbers, independent of any reader or writer.
//!
//! The contract of each function is a law. The n-bit encoding of a number is the list of the n bits
//! that are written for it. A law that is only about encodings has an empty body. A law about
//! numbers calls the functions that it is about, for any type that its bound allows.

ghost use Rattle.std.specs.Prelude.{◌≡◌, ℕ, ℤ, pos, ◌+◌, ◌*◌, ◌%◌, ◌^◌, ◌<◌, ◌≤◌, ◌+ℤ◌, ◌*ℤ◌, ◌≤ℤ◌, ◌<ℤ◌, Bool, List, ◌++◌, length};
ghost use Rattle.bitstream_number.specs.Word.{Order, High, Low, word, number, bits, bytes, FitsSignedBits, signed_word, signed_number, zig, zag};

use crate::number::{Numeric, Primitive, SignedInteger, UnsignedInteger};

/// The n-bit encoding of a number has n bits, and represents the number modulo 2^n.
pub fn words_hold_numbers()
    // The n-bit encoding of a number has n bits.
    ensures length { (o : Order) (n v : ℕ) → length (word o n v) ≡ n }
    // It represents v modulo 2^n.
    ensures number { (o : Order) (n v : ℕ) → number o (word o n v) ≡ v % 2 ^ n }
    // A list of bits is the encoding of the number that it represents.
    ensures word { (o : Order) (w : List Bool) → word o (length w) (number o w) ≡ w }
    // Two numbers below 2^n are equal if their n-bit encodings are equal.
    ensures same { (o : Order) (n u v : ℕ) → u < 2 ^ n → v < 2 ^ n
        → word o n u ≡ word o n v → u ≡ v }
    // A signed number that fits in n bits, where n is not 0, round-trips through its two's
    // complement.
    ensures signed { (o : Order) (n : ℕ) (x : ℤ) → 0 < n → FitsSignedBits n x
        → signed_number o (signed_word o n x) ≡ x }
{}

/// The number that two concatenated encodings represent is computed from the numbers that each of
/// them represents.
pub fn words_split()
    // Big-endian: the first encoding is the high part of the combined number.
    ensures high { (first second : List Bool) → number High (first ++ second)
        ≡ number High first * 2 ^ length second + number High second }
    // Little-endian: the first encoding is the low part of the combined number.
    ensures low { (first second : List Bool) → number Low (first ++ second)
        ≡ number Low first + number Low second * 2 ^ length first }
{}

/// The bits of the n bytes of a number are its 8n-bit encoding.
pub fn bytes_are_words()
    ensures { (o : Order) (n v : ℕ) → bits o (bytes o n v) ≡ word o (8 * n) v }
{}

/// Each signed number has exactly one place in the zigzag order 0, -1, 1, -2, 2 and so on, and each
/// place holds exactly one number.
pub fn zigzags_round_trip()
    // `zag` undoes `zig`.
    ensures signed { (x : ℤ) → zag (zig x) ≡ x }
    // `zig` undoes `zag`.
    ensures unsigned { (n : ℕ) → zig (zag n) ≡ n }
{}

/// Masking a value with its lowest bits takes it modulo a power of 2.
pub fn masks_are_remainders<U: UnsignedInteger>(value: U, bits: u32) -> U
    requires some { 1 ≤ bits }
    requires within { bits ≤ U.BITS_SIZE }
    ensures { U.value result ≡ U.value value % 2 ^ bits }
{
    value & (U::ALL >> (U::BITS_SIZE - bits))
}

/// If one value has only bits above the bits of another value, `|` of the two is their sum.
pub fn ors_are_sums<U: UnsignedInteger>(high: U, low: U) -> U
    requires { (n : ℕ) × (U.value high % 2 ^ n ≡ 0) × (U.value low < 2 ^ n) }
    ensures { U.value result ≡ U.value high + U.value low }
{
    high | low
}

/// A shift by the type's size in bits or more returns 0.
pub fn shifts_past_the_size_are_zero<U: UnsignedInteger>(value: U, by: u32) -> (U, U)
    requires { U.BITS_SIZE ≤ by }
    // The left shift returns 0.
    ensures left { U.value result.0 ≡ 0 }
    // The right shift returns 0.
    ensures right { U.value result.1 ≡ 0 }
{
    value.known();
    (value.shl_default(by), value.shr_default(by))
}

/// A right shift of a signed value divides it by a power of 2 and rounds down.
pub fn signed_shifts_round_down<S: SignedInteger>(value: S, by: u32) -> S
    requires { by < S.BITS_SIZE }
    // The result times 2^`by` is at most the value.
    ensures below { (S.integer result *ℤ pos (2 ^ by)) ≤ℤ S.integer value }
    // One more than the result, times 2^`by`, is above the value.
    ensures above { S.integer value <ℤ ((S.integer result +ℤ pos 1) *ℤ pos (2 ^ by)) }
{
    value >> by
}

/// An unsigned value round-trips through its bytes, in either byte order.
pub fn unsigned_bytes_round_trip<U: UnsignedInteger>(value: U) -> (U, U)
    // The value of its big-endian bytes is the same number.
    ensures high { U.value result.0 ≡ U.value value }
    // The value of its little-endian bytes is the same number.
    ensures low { U.value result.1 ≡ U.value value }
{
    let high = U::from_be_bytes(value.to_be_bytes());
    let low = U::from_le_bytes(value.to_le_bytes());
    value.known();
    high.known();
    low.known();
    (high, low)
}

/// A signed value round-trips through its bytes, in either byte order.
pub fn signed_bytes_round_trip<S: SignedInteger>(value: S) -> (S, S)
    // The value of its big-endian bytes is the same number.
    ensures high { S.integer result.0 ≡ S.integer value }
    // The value of its little-endian bytes is the same number.
    ensures low { S.integer result.1 ≡ S.integer value }
{
    let high = S::from_be_bytes(value.to_be_bytes());
    let low = S::from_le_bytes(value.to_le_bytes());
    value.known();
    high.known();
    low.known();
    (high, low)
}

/// Bytes round-trip through the value that they encode, in either byte order.
pub fn values_round_trip<V: Primitive>(high: V::Bytes, low: V::Bytes) -> (V::Bytes, V::Bytes)
    // The big-endian bytes of the value made of them are the same bytes.
    ensures high { V.Bytes.items result.0 ≡ V.Bytes.items high }
    // The little-endian bytes of the value made of them are the same bytes.
    ensures low { V.Bytes.items result.1 ≡ V.Bytes.items low }
{
    (
        V::from_be_bytes(high).to_be_bytes(),
        V::from_le_bytes(low).to_le_bytes(),
    )
}
