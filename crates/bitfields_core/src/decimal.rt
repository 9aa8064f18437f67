//! Decimals, as layouts and value lines spell numbers.

ghost use Rattle.std.specs.Prelude.{◌≡◌, ◌≤◌, ◌<◌, ◌+◌, ◌-◌, ◌^◌, pos, map, Ok, IfOk};
ghost use Rattle.std.specs.List.{list_all};
ghost use Rattle.std.specs.Char.{is_ascii_digit};
ghost use Rattle.bitfields_core.specs.Decimal.{is_decimal as spells_decimal, decimal_below, decimal_within, bytes_within, negative as negative_of, positive as positive_of, signed_within};

use crate::fault::Reason;
use crate::lines::parts;
use bitstream_io::script::ByteList;
use std::alloc::{AllocError, Global};

/// Returns true if a text is `0`, or a digit 1 to 9 followed by digits.
fn is_decimal(text: &[u8]) -> bool
    ensures { result ≡ spells_decimal text.now }
{
    !text.is_empty() && (text[0] != b'0' || text.len() == 1) && all_digits(text)
}

fn all_digits(text: &[u8]) -> bool
    ensures { result ≡ list_all is_ascii_digit text.now }
{
    text.iter().all(|b| b.is_ascii_digit())
}

/// Returns the number that a text spells.
///
/// # Errors
///
/// `ValueMisspelt` if the text is no decimal. `ValueDoesNotFit` if the number is 2^128 or more.
pub fn decimal(text: &[u8]) -> Result<u128, Reason>
    ensures { result ≡ decimal_below (2 ^ 128) text.now }
{
    if !is_decimal(text) {
        return Err(Reason::ValueMisspelt);
    }
    let mut value: u128 = 0;
    for byte in text {
        let digit = u128::from(*byte - b'0');
        if value > (u128::MAX - digit) / 10 {
            return Err(Reason::ValueDoesNotFit);
        }
        value = value * 10 + digit;
    }
    Ok(value)
}

/// Returns the number from `low` to `high` that a text spells, if it spells one.
pub fn decimal_between(low: u32, high: u32, text: &[u8]) -> Option<u32>
    ensures { result ≡ decimal_within low high text.now }
{
    match decimal(text) {
        Ok(value) if u128::from(low) <= value && value <= u128::from(high) => Some(value as u32),
        _ => None,
    }
}

/// Returns the number below 2^width that a text spells.
///
/// # Errors
///
/// `ValueMisspelt` if the text is no decimal. `ValueDoesNotFit` if the number needs more than
/// `width` bits.
#[tactic(auto, using(crate::proofs::DecimalLemmas::wider))]
pub fn decimal_of_width(width: u32, text: &[u8]) -> Result<u128, Reason>
    requires { width ≤ 128 }
    ensures { result ≡ decimal_below (2 ^ width) text.now }
{
    match decimal(text) {
        Ok(value) if width < 128 && value >> width != 0 => Err(Reason::ValueDoesNotFit),
        Ok(value) => Ok(value),
        Err(reason) => Err(reason),
    }
}

/// Returns the number that a text spells, if it is at most `greatest`.
fn decimal_up_to(greatest: u128, text: &[u8]) -> Result<u128, Reason>
    ensures { result ≡ decimal_below (greatest + 1) text.now }
{
    match decimal(text) {
        Ok(value) if value > greatest => Err(Reason::ValueDoesNotFit),
        Ok(value) => Ok(value),
        Err(reason) => Err(reason),
    }
}

/// Returns the signed number of `width` bits that a text spells: a decimal, or `-` before a decimal
/// other than 0.
///
/// # Errors
///
/// `ValueMisspelt` if the text is neither. `ValueDoesNotFit` if the number needs more than `width`
/// bits.
pub fn signed_of_width(width: u32, text: &[u8]) -> Result<i128, Reason>
    requires some { 1 ≤ width }
    requires most { width ≤ 128 }
    ensures { result ≡ signed_within width text.now }
{
    let (first, rest) = text.split_first().ok_or(Reason::ValueMisspelt)?;
    if *first == b'-' {
        negative(width, rest)
    } else {
        positive(width, text)
    }
}

/// Returns the signed number of `width` bits that a decimal spells.
fn positive(width: u32, text: &[u8]) -> Result<i128, Reason>
    requires some { 1 ≤ width }
    requires most { width ≤ 128 }
    ensures { result ≡ positive_of (decimal_below (2 ^ (width - 1)) text.now) }
{
    match decimal_of_width(width - 1, text) {
        Ok(value) => Ok(non_negative(value)),
        Err(reason) => Err(reason),
    }
}

/// Returns a number as a signed number.
fn non_negative(value: u128) -> i128
    requires { value < 2 ^ 127 }
    ensures { result ≡ pos value }
{
    value as i128
}

/// Returns the negative number of `width` bits that a decimal spells after a sign.
fn negative(width: u32, text: &[u8]) -> Result<i128, Reason>
    requires some { 1 ≤ width }
    requires most { width ≤ 128 }
    ensures { result ≡ negative_of (decimal_below (2 ^ (width - 1) + 1) text.now) }
{
    match decimal_up_to(half(width), text) {
        Ok(value) => negated(value),
        Err(reason) => Err(reason),
    }
}

/// Returns 2^(width - 1).
fn half(width: u32) -> u128
    requires some { 1 ≤ width }
    requires most { width ≤ 128 }
    ensures { result ≡ 2 ^ (width - 1) }
{
    1 << (width - 1)
}

/// Returns the negative of a number that follows a sign.
fn negated(value: u128) -> Result<i128, Reason>
    requires { value ≤ 2 ^ 127 }
    ensures { result ≡ negative_of (Ok value) }
{
    match value.checked_sub(1) {
        Some(below) => Ok(!(below as i128)),
        None => Err(Reason::ValueMisspelt),
    }
}

/// Returns the bytes that a text spells: `count` decimals up to 255, with single spaces between
/// them. Otherwise, the reason is `ValueMisspelt` if the text is no list of `count` decimals, and
/// `ValueDoesNotFit` if one of them is above 255.
///
/// # Errors
///
/// `AllocError` if an allocation fails.
pub fn spaced_bytes(
    alloc: Global,
    count: u32,
    text: &[u8],
) -> Result<Result<ByteList, Reason>, AllocError>
    ensures { IfOk result (λ bytes. bytes ≡ bytes_within count text.now) }
{
    let parts = parts(alloc, b' ', text)?;
    if parts.len() != count as usize || !are_decimals(&parts) {
        return Ok(Err(Reason::ValueMisspelt));
    }
    let mut bytes = Vec::with_capacity(alloc, parts.len())?;
    for part in &parts {
        match decimal_of_width(8, part) {
            Ok(value) => bytes.push(value as u8)?,
            Err(reason) => return Ok(Err(reason)),
        }
    }
    Ok(Ok(ByteList::new(bytes)))
}

/// Returns true if each text is a decimal.
fn are_decimals(texts: &[&[u8]]) -> bool
    ensures { result ≡ list_all spells_decimal (map (λ x. x.now) texts.now) }
{
    for text in texts {
        if !is_decimal(text) {
            return false;
        }
    }
    true
}
