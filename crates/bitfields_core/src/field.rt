//! The fields of a layout, and the segments of text that spell them.

ghost use Rattle.std.specs.Prelude.{◌≡◌, ◌==◌, ◌-◌, ◌^◌, ◌≤◌, position};
ghost use Rattle.bitfields_core.specs.Layout.{constant as constant_of, field_of, group_size as group_size_of};

use crate::decimal::decimal_between;

/// A field of a layout, with its numbers.
#[derive(Clone, Copy, Drop)]
pub enum Field {
    /// `uN`: an unsigned number of N bits.
    Unsigned(u32),
    /// `iN`: a signed number of N bits, in two's complement.
    Signed(u32),
    /// `n0` and `n1`: a unary number, with this stop bit.
    Unary(bool),
    /// `v4` and `v8`: a number of variable width.
    Variable(GroupSize),
    /// `l4` and `l8`: a number of variable width. When it is read, it may end in groups of 0.
    Lenient(GroupSize),
    /// `s4` and `s8`: a signed number of variable width.
    SignedVariable(GroupSize),
    /// `bN`: N bytes.
    Bytes(u32),
    /// `cN=V`: the unsigned number V in N bits. It has no value. It is an error if the bits hold
    /// another number.
    Constant { bits: u32, value: u32 },
    /// `pN`: N zeros. Any N bits are read for it.
    Padding(u32),
    /// `a`: zeros up to the next byte boundary.
    Align,
}

/// The number of bits of each group of a number of variable width.
#[derive(Clone, Copy, Drop)]
pub enum GroupSize {
    /// 4 bits.
    Four,
    /// 8 bits.
    Eight,
}

/// Returns the field that a segment of a layout spells, if it spells one.
pub fn parse_field(segment: &[u8]) -> Option<Field>
    ensures { result ≡ field_of segment.now }
{
    let (letter, rest) = segment.split_first()?;
    match *letter {
        b'u' => decimal_between(1, 128, rest).map(Field::Unsigned),
        b'i' => decimal_between(1, 128, rest).map(Field::Signed),
        b'n' => decimal_between(0, 1, rest).map(|stop| Field::Unary(stop == 1)),
        b'v' => group_size(rest).map(Field::Variable),
        b'l' => group_size(rest).map(Field::Lenient),
        b's' => group_size(rest).map(Field::SignedVariable),
        b'b' => decimal_between(1, 65536, rest).map(Field::Bytes),
        b'c' => constant(rest),
        b'p' => decimal_between(1, 4096, rest).map(Field::Padding),
        b'a' if rest.is_empty() => Some(Field::Align),
        _ => None,
    }
}

/// Returns the size of the groups that a text spells, if it spells one.
fn group_size(text: &[u8]) -> Option<GroupSize>
    ensures { result ≡ group_size_of text.now }
{
    match decimal_between(4, 8, text) {
        Some(4) => Some(GroupSize::Four),
        Some(8) => Some(GroupSize::Eight),
        _ => None,
    }
}

/// Returns the constant that a text spells, if it spells one: its number of bits, `=`, and a number
/// that fits them.
fn constant(text: &[u8]) -> Option<Field>
    ensures { result ≡ constant_of text.now }
{
    let sign = sign_at(text)?;
    let bits = decimal_between(1, 32, &text[..sign])?;
    let value = decimal_between(0, greatest(bits), &text[sign + 1..])?;
    Some(Field::Constant { bits, value })
}

/// Returns the place of the first `=`.
fn sign_at(text: &[u8]) -> Option<usize>
    ensures { result ≡ position (λ b. b == 61) text.now }
{
    text.iter().position(|byte| *byte == b'=')
}

/// Returns the greatest number of `bits` bits.
fn greatest(bits: u32) -> u32
    requires some { 1 ≤ bits }
    requires most { bits ≤ 32 }
    ensures { result ≡ 2 ^ bits - 1 }
{
    u32::MAX >> (32 - bits)
}
