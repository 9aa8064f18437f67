//! Laws of counts, and of unary and variable-width encodings, independent of any reader or writer.
//!
//! The contract of each function is a law. A law about counts calls the functions that it is
//! about. A law about encodings has an empty body.

ghost use Rattle.std.specs.Hash as fed;
ghost use Rattle.std.specs.List.{fold};
ghost use Rattle.std.specs.Prelude.{◌≡◌, ◌↔◌, ℕ, ◌^◌, ◌<◌, ◌≤◌, ◌++◌, Bool, true, false, Err, IsOk, IsTrue, List, Ok, Some, length, not, replicate, take, ◌⊎◌, ℤ};
ghost use Rattle.bitstream_count.specs.Codec.{Done};
ghost use Rattle.bitstream_count.specs.Unary.{unary, read_unary};
ghost use Rattle.bitstream_count.specs.declared.error.Error.{Error};
ghost use Rattle.bitstream_count.specs.declared.error.Error.TheVariants.{RunTooLong};
ghost use Rattle.bitstream_number.specs.Word.{Order, FitsSignedBits, zig, zag};
ghost use Rattle.bitstream_count.specs.Vbr.{Vbr, IsAccepted, vbr_word, read_vbr};

use crate::count::{BitCount, FixedBitCount, FixedSignedBitCount, SignedBitCount};
use std::hash::{Hash, Hasher};

/// Two counts are equal exactly if their numbers of bits are equal.
pub fn equal_counts_are_equal_numbers<const MAX: u32>(a: &BitCount<MAX>, b: &BitCount<MAX>) -> bool
    ensures { IsTrue result ↔ (a.now ≡ b.now) }
{
    a == b
}

/// Two signed counts are equal exactly if their numbers of bits are equal.
pub fn equal_signed_counts_are_equal_numbers<const MAX: u32>(
    a: &SignedBitCount<MAX>,
    b: &SignedBitCount<MAX>,
) -> bool
    ensures { IsTrue result ↔ (a.now ≡ b.now) }
{
    a == b
}

/// A count hashes as its number does, so that equal counts hash alike.
pub fn counts_hash_as_their_numbers<const MAX: u32, H: Hasher>(count: &BitCount<MAX>, state: &mut H)
    ensures { state.new ≡ fold H.write state.old (fed.u32 count.now) }
{
    count.hash(state);
}

/// A signed count hashes as its number does, so that equal signed counts hash alike.
pub fn signed_counts_hash_as_their_numbers<const MAX: u32, H: Hasher>(
    count: &SignedBitCount<MAX>,
    state: &mut H,
)
    ensures { state.new ≡ fold H.write state.old (fed.u32 count.now) }
{
    count.hash(state);
}

/// A count round-trips through its number.
pub fn counts_round_trip<const MAX: u32>(count: BitCount<MAX>) -> Result<BitCount<MAX>, u32>
    ensures { result ≡ Ok count.entry }
{
    BitCount::try_from(u32::from(count))
}

/// A signed count round-trips through its number, and through the `BitCount` of the same number of
/// bits.
pub fn signed_counts_round_trip<const MAX: u32>(
    count: SignedBitCount<MAX>,
) -> (
    Result<SignedBitCount<MAX>, u32>,
    Result<SignedBitCount<MAX>, ()>,
    Option<SignedBitCount<MAX>>,
)
    // The count round-trips through its number.
    ensures number { result.0 ≡ Ok count.entry }
    // It round-trips through the `BitCount` of the same number of bits.
    ensures count { result.1 ≡ Ok count.entry }
    // It round-trips through `signed_count` of that `BitCount`.
    ensures signed { result.2 ≡ Some count.entry }
{
    (
        SignedBitCount::try_from(u32::from(count)),
        SignedBitCount::try_from(count.count()),
        count.count().signed_count(),
    )
}

/// A fixed count round-trips through the `BitCount` of the same number of bits.
pub fn fixed_counts_round_trip<const BITS: u32>(
    count: FixedBitCount<BITS>,
) -> Result<FixedBitCount<BITS>, BitCount<BITS>>
    ensures { IsOk result }
{
    FixedBitCount::try_from(BitCount::from(count))
}

/// A fixed signed count round-trips through the `SignedBitCount` of the same number of bits.
pub fn fixed_signed_counts_round_trip<const BITS: u32>(
    count: FixedSignedBitCount<BITS>,
) -> Result<FixedSignedBitCount<BITS>, SignedBitCount<BITS>>
    ensures { IsOk result }
{
    FixedSignedBitCount::try_from(SignedBitCount::from(count))
}

/// A unary encoding is never a prefix of another unary encoding with the same stop bit.
pub fn unary_words_begin_no_other()
    ensures { (stop : Bool) (j k : ℕ) (x y : List Bool)
        → unary stop j ++ x ≡ unary stop k ++ y → j ≡ k }
{}

/// A unary read of the encoding of a number below 2^32 returns that number, whatever bits follow.
pub fn unary_words_read_back()
    ensures { (stop : Bool) (k : ℕ) (rest : List Bool) → k < 2 ^ 32
        → read_unary stop (unary stop k ++ rest) ≡ Done (length (unary stop k)) (Ok k) }
{}

/// A unary read returns a number only if the bits begin with the number's unary encoding. It
/// returns `RunTooLong` only if the bits begin with 2^32 bits that are not the stop bit.
pub fn unary_words_alone_are_read()
    // If a number is returned, it is below 2^32, and the bits taken are its unary encoding.
    ensures number { (stop : Bool) (bits : List Bool) (n k : ℕ)
        → read_unary stop bits ≡ Done n (Ok k)
        → (k < 2 ^ 32) × (n ≤ length bits) × (take n bits ≡ unary stop k) }
    // The only error is `RunTooLong`. Then 2^32 bits are taken, and none of them is the stop bit.
    ensures error { (stop : Bool) (bits : List Bool) (n : ℕ) (error : Error)
        → read_unary stop bits ≡ Done n (Err error)
        → (error ≡ RunTooLong) × (n ≡ 2 ^ 32) × (n ≤ length bits)
        × (take n bits ≡ replicate n (not stop)) }
{}

/// A variable-width encoding is never a prefix of another variable-width encoding with groups of
/// the same size.
pub fn variable_width_words_begin_no_other()
    ensures { (o : Order) (field : ℕ) (u v x y : List Bool) (a b : ℕ) → 0 < field
        → Vbr false o field u a → Vbr false o field v b → u ++ x ≡ v ++ y → (u ≡ v) × (a ≡ b) }
{}

/// A variable-width read of an accepted encoding returns its number, whatever bits follow.
pub fn variable_width_words_read_back()
    ensures { (strict : Bool) (o : Order) (field width limit : ℕ) (w : List Bool) (v : ℕ) (rest : List Bool)
        → 2 ≤ field → IsAccepted strict o field width limit w v
        → read_vbr strict o field width limit (w ++ rest) ≡ Done (length w) (Ok v) }
{}

/// A variable-width read returns a number only if the bits begin with an accepted encoding of that
/// number.
pub fn variable_width_words_alone_are_read()
    ensures { (strict : Bool) (o : Order) (field width limit : ℕ) (bits : List Bool) (n v : ℕ) → 2 ≤ field
        → read_vbr strict o field width limit bits ≡ Done n (Ok v)
        → IsAccepted strict o field width limit (take n bits) v × (n ≤ length bits) }
{}

/// The strict reader accepts the encoding that is written for a number, and no other encoding of
/// that number. The same holds for signed numbers.
pub fn variable_width_words_are_the_only_ones()
    // The strict reader accepts the encoding that is written for a number below the limit.
    ensures accepted { (o : Order) (field width limit v : ℕ) → 2 ≤ field → 0 < width
        → limit ≤ 2 ^ width → v < limit → IsAccepted true o field width limit (vbr_word o field v) v }
    // Every encoding of a number that it accepts is the encoding that is written for that number.
    ensures only { (o : Order) (field width limit v : ℕ) (w : List Bool) → 2 ≤ field
        → IsAccepted true o field width limit w v → w ≡ vbr_word o field v }
    // The strict reader accepts the encoding that is written for a signed number of the type.
    ensures signed_accepted { (o : Order) (field width : ℕ) (x : ℤ) → 2 ≤ field → 0 < width
        → FitsSignedBits width x
        → IsAccepted true o field width (2 ^ width) (vbr_word o field (zig x)) (zig x) }
    // Every encoding of a signed number that it accepts is the encoding that is written for that
    // number.
    ensures signed_only { (o : Order) (field width v : ℕ) (x : ℤ) (w : List Bool) → 2 ≤ field
        → IsAccepted true o field width (2 ^ width) w v → zag v ≡ x → w ≡ vbr_word o field (zig x) }
{}

/// The encoding that is written for a number is the shortest encoding of that number that the
/// lenient reader accepts. The same holds for signed numbers.
pub fn variable_width_words_are_shortest()
    // The lenient reader accepts the encoding that is written for a number below the limit.
    ensures accepted { (o : Order) (field width limit v : ℕ) → 2 ≤ field → 0 < width
        → limit ≤ 2 ^ width → v < limit → IsAccepted false o field width limit (vbr_word o field v) v }
    // Every other encoding of a number that it accepts is longer than the one that is written.
    ensures shortest { (o : Order) (field width limit v : ℕ) (w : List Bool) → 2 ≤ field
        → IsAccepted false o field width limit w v
        → (w ≡ vbr_word o field v) ⊎ (length (vbr_word o field v) < length w) }
    // The lenient reader accepts the encoding that is written for a signed number of the type.
    ensures signed_accepted { (o : Order) (field width : ℕ) (x : ℤ) → 2 ≤ field → 0 < width
        → FitsSignedBits width x
        → IsAccepted false o field width (2 ^ width) (vbr_word o field (zig x)) (zig x) }
    // Every other encoding of a signed number that it accepts is longer than the one that is
    // written.
    ensures signed_shortest { (o : Order) (field width v : ℕ) (x : ℤ) (w : List Bool) → 2 ≤ field
        → IsAccepted false o field width (2 ^ width) w v → zag v ≡ x
        → (w ≡ vbr_word o field (zig x)) ⊎ (length (vbr_word o field (zig x)) < length w) }
{}
