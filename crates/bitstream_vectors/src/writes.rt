//! Write calls of the rows.
ghost use Rattle.std.specs.Prelude.{◌≡◌, ◌≤◌, ◌<◌, ◌^◌, ◌⊎◌};

use crate::answer::{Answer, bytes_of, is_done};
use crate::call::{Call, number, optional};
use crate::checked::write_checked;
use crate::fixed::write_fixed;
use crate::form::{Form, Items, Number, Size};
use crate::objection::Objection;
use crate::symbols::{write_limited, write_symbol};
use crate::variable::{write_variable, write_variable_pair};
use crate::whole::write_whole;
use bitstream_io::{BitCount, BitWrite, BitWriteExt, Bits, Integer, Width};
use std::alloc::Global;
use std::num::{NonZero, ParseIntError};
use std::str::FromStr;

/// Makes a write call, and returns true if the result is the expected one.
pub fn write_call<W: BitWrite>(
    alloc: Global,
    writer: &mut W,
    call: &Call<'_>,
    want: &str,
) -> Result<bool, Objection> {
    match call.form {
        Form::Aligned => Ok(want == if writer.byte_aligned() { "yes" } else { "no" }),
        Form::Fixed(number) => write_fixed(writer, number, call.bits, call.value, want),
        Form::Variable(kind, size, field) => {
            write_variable(writer, kind, size, field, call.value, want)
        }
        _ => Ok(is_done(want, &write(alloc, writer, call)?)),
    }
}

/// Makes a call that writes.
fn write<W: BitWrite>(alloc: Global, mut writer: &mut W, call: &Call<'_>) -> Answer {
    let value = call.value;
    match call.form {
        Form::Array(items) => write_array(alloc, writer, items, call.bits, value),
        Form::Bytes | Form::Pad | Form::Whole(_, _) => write_whole(alloc, &mut writer, call),
        Form::Limited(stop, most) => write_limited(writer, stop, most, value),
        Form::Prefix(tree, by) => write_symbol(alloc, writer, tree, by, value),
        Form::VariablePair(field) => write_variable_pair(writer, field, value),
        form => write_in_bits(writer, form, call.bits, value),
    }
}

/// Makes a call that writes a number or a `bool` in `bits` bits, or digits.
fn write_in_bits<W: BitWrite>(writer: &mut W, form: Form, bits: u32, value: &str) -> Answer {
    match form {
        Form::Align => Ok(writer.byte_align()),
        Form::Bit => write_bit(writer, value),
        Form::Bool => write_bool(writer, bits, value),
        Form::Checked(number) => write_checked(writer, number, bits, value),
        Form::Const => write_const(writer, bits, value),
        Form::Count => write_count(writer, bits, value),
        Form::Counted(number) => write_counted(writer, number, bits, value),
        Form::NonZero(size) => write_non_zero(writer, size, bits, value),
        Form::Optional(size) => write_optional(writer, size, bits, value),
        Form::Unary(stop) => write_unary(writer, stop, value),
        Form::Value(number) => write_number(writer, number, bits, value),
        Form::Word(number) => write_word(writer, number, bits, value),
        _ => Err(Objection::BAD_FORM),
    }
}

/// Writes the bit that a binary digit spells.
fn write_bit<W: BitWrite>(writer: &mut W, digit: &str) -> Answer {
    Ok(writer.write_bit(truth(digit)?))
}

/// Writes the `bool` that a binary digit spells.
fn write_bool<W: BitWrite>(writer: &mut W, bits: u32, digit: &str) -> Answer {
    Ok(writer.write_var(bits, truth(digit)?))
}

/// Writes the number of digits that a text spells, and a stop digit.
fn write_unary<W: BitWrite>(writer: &mut W, stop: bool, value: &str) -> Answer {
    let digits = number::<u32>(value)?;
    Ok(if stop {
        writer.write_unary::<Bits<1>>(digits)
    } else {
        writer.write_unary::<Bits<0>>(digits)
    })
}

/// Returns the `bool` that a binary digit spells.
fn truth(digit: &str) -> Result<bool, Objection> {
    match digit {
        "0" => Ok(false),
        "1" => Ok(true),
        _ => Err(Objection::BAD_FORM),
    }
}

/// Writes the value that a text spells.
fn write_value<I: Integer + FromStr<Err = ParseIntError>, W: BitWrite>(
    writer: &mut W,
    bits: u32,
    value: &str,
) -> Answer {
    Ok(writer.write_var::<I>(bits, number(value)?))
}

fn write_number<W: BitWrite>(writer: &mut W, number: Number, bits: u32, value: &str) -> Answer {
    match number {
        Number::Unsigned(size) => unsigned!(size, write_value(writer, bits, value)),
        Number::Signed(size) => signed!(size, write_value(writer, bits, value)),
    }
}

/// Writes a number whose width is a count of at most 128 bits. Objects to a type that no row has.
fn write_counted<W: BitWrite>(writer: &mut W, kind: Number, bits: u32, value: &str) -> Answer {
    let Ok(count) = BitCount::<128>::try_from(bits) else {
        return Err(Objection::BAD_FORM);
    };
    match kind {
        Number::Unsigned(Size::Bits8) => Ok(writer.write_counted::<_, u8>(count, number(value)?)),
        Number::Unsigned(Size::Bits16) => Ok(writer.write_counted::<_, u16>(count, number(value)?)),
        Number::Signed(Size::Bits8) => Ok(writer.write_counted::<_, i8>(count, number(value)?)),
        _ => Err(Objection::UNLISTED),
    }
}

/// Writes a number in `bits` bits by `write_unsigned_var` or `write_signed_var`. Objects to a type that no
/// row has.
fn write_word<W: BitWrite>(writer: &mut W, kind: Number, bits: u32, value: &str) -> Answer {
    Ok(match kind {
        Number::Unsigned(Size::Bits8) => writer.write_unsigned_var::<u8>(bits, number(value)?),
        Number::Unsigned(Size::Bits32) => writer.write_unsigned_var::<u32>(bits, number(value)?),
        Number::Unsigned(Size::Bits128) => writer.write_unsigned_var::<u128>(bits, number(value)?),
        Number::Signed(Size::Bits8) => writer.write_signed_var::<i8>(bits, number(value)?),
        Number::Signed(Size::Bits32) => writer.write_signed_var::<i32>(bits, number(value)?),
        _ => return Err(Objection::UNLISTED),
    })
}

fn write_non_zero<W: BitWrite>(writer: &mut W, size: Size, bits: u32, value: &str) -> Answer {
    match size {
        Size::Bits8 => write_value::<NonZero<u8>, W>(writer, bits, value),
        Size::Bits16 => write_value::<NonZero<u16>, W>(writer, bits, value),
        Size::Bits32 => write_value::<NonZero<u32>, W>(writer, bits, value),
        Size::Bits64 => write_value::<NonZero<u64>, W>(writer, bits, value),
        Size::Bits128 => write_value::<NonZero<u128>, W>(writer, bits, value),
    }
}

/// Writes a number that is not 0, or none if the text spells 0.
fn write_any<N: FromStr<Err = ParseIntError>, W: BitWrite>(
    writer: &mut W,
    bits: u32,
    value: &str,
) -> Answer
where
    Option<N>: Integer,
{
    Ok(writer.write_var::<Option<N>>(bits, optional(value)?))
}

fn write_optional<W: BitWrite>(writer: &mut W, size: Size, bits: u32, value: &str) -> Answer {
    match size {
        Size::Bits8 => write_any::<NonZero<u8>, W>(writer, bits, value),
        Size::Bits16 => write_any::<NonZero<u16>, W>(writer, bits, value),
        Size::Bits32 => write_any::<NonZero<u32>, W>(writer, bits, value),
        Size::Bits64 => write_any::<NonZero<u64>, W>(writer, bits, value),
        Size::Bits128 => write_any::<NonZero<u128>, W>(writer, bits, value),
    }
}

fn write_array<W: BitWrite>(
    alloc: Global,
    writer: &mut W,
    items: Items,
    bits: u32,
    value: &str,
) -> Answer {
    match items {
        Items::Bytes => write_bytes(alloc, writer, bits, value),
        Items::None if value == "-" => Ok(writer.write_var::<[u8; 0]>(bits, [])),
        Items::None => Err(Objection::BAD_FORM),
        Items::Signed => Ok(writer.write_var::<[i8; 2]>(bits, pair_of(value)?)),
        Items::Truths => Ok(writer.write_var::<[bool; 4]>(bits, truths_of(value)?)),
    }
}

fn write_bytes<W: BitWrite>(alloc: Global, writer: &mut W, bits: u32, value: &str) -> Answer {
    let bytes = bytes_of(alloc, value)?;
    let [a, b, c, d] = bytes.as_slice() else {
        return Err(Objection::BAD_FORM);
    };
    Ok(writer.write_var(bits, [*a, *b, *c, *d]))
}

/// Returns the two values that a text spells, with a comma between them.
pub fn pair_of<T: FromStr<Err = ParseIntError> + Drop>(text: &str) -> Result<[T; 2], Objection> {
    match text.split_once(',') {
        Some((first, second)) => Ok([number(first)?, number(second)?]),
        None => Err(Objection::BAD_FORM),
    }
}

/// Returns the four `bool`s that binary digits spell.
pub fn truths_of(text: &str) -> Result<[bool; 4], Objection> {
    match text.as_bytes() {
        [a, b, c, d] => Ok([*a == b'1', *b == b'1', *c == b'1', *d == b'1']),
        _ => Err(Objection::BAD_FORM),
    }
}

/// Writes a count of at most MAX.
fn write_count_below<const MAX: u32, W: BitWrite>(writer: &mut W, value: u32) -> Answer
    requires { 0 < MAX }
{
    match BitCount::<MAX>::try_from(value) {
        Ok(count) => Ok(writer.write_count(count)),
        Err(_) => Err(Objection::BAD_FORM),
    }
}

fn write_count<W: BitWrite>(writer: &mut W, max: u32, value: &str) -> Answer {
    let value = number::<u32>(value)?;
    match max {
        1 => write_count_below::<1, W>(writer, value),
        3 => write_count_below::<3, W>(writer, value),
        5 => write_count_below::<5, W>(writer, value),
        7 => write_count_below::<7, W>(writer, value),
        63 => write_count_below::<63, W>(writer, value),
        100 => write_count_below::<100, W>(writer, value),
        127 => write_count_below::<127, W>(writer, value),
        4294967295 => write_count_below::<4294967295, W>(writer, value),
        _ => Err(Objection::UNLISTED),
    }
}

/// Writes the constant `V::BITS` in `B::BITS` bits.
fn write_const_in<B: Width, V: Width, W: BitWrite>(writer: &mut W) -> Answer
    requires word { B.BITS ≤ 32 }
    requires value { (V.BITS < 2 ^ B.BITS) ⊎ (B.BITS ≡ 0) }
{
    Ok(writer.write_const::<B, V>())
}

fn write_const<W: BitWrite>(writer: &mut W, bits: u32, value: &str) -> Answer {
    match (bits, number::<u32>(value)?) {
        (0, 0) => write_const_in::<Bits<0>, Bits<0>, W>(writer),
        (0, 1) => write_const_in::<Bits<0>, Bits<1>, W>(writer),
        (1, 1) => write_const_in::<Bits<1>, Bits<1>, W>(writer),
        (3, 5) => write_const_in::<Bits<3>, Bits<5>, W>(writer),
        (4, 2) => write_const_in::<Bits<4>, Bits<2>, W>(writer),
        (5, 19) => write_const_in::<Bits<5>, Bits<19>, W>(writer),
        (8, 177) => write_const_in::<Bits<8>, Bits<177>, W>(writer),
        (12, 2643) => write_const_in::<Bits<12>, Bits<2643>, W>(writer),
        (32, 4294967295) => write_const_in::<Bits<32>, Bits<4294967295>, W>(writer),
        _ => Err(Objection::UNLISTED),
    }
}
