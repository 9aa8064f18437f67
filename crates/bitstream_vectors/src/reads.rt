//! Read calls of the rows.
ghost use Rattle.std.specs.Prelude.{◌≡◌, ◌≤◌, ◌<◌, ◌^◌, ◌⊎◌};

use crate::answer::{are_bytes, error_name, is_number, is_optional};
use crate::call::{Call, number};
use crate::checked::read_checked;
use crate::fixed::read_fixed;
use crate::form::{Form, Items, Number, Size};
use crate::objection::Objection;
use crate::symbols::{read_limited, read_symbol};
use crate::variable::{read_variable, read_variable_pair};
use crate::whole::{WholeRead, read_whole};
use crate::writes::{pair_of, truths_of};
use bitstream_io::{BitCount, BitRead, BitReadExt, Bits, Count, Error, Integer, Width};
use std::alloc::Global;
use std::num::{NonZero, ParseIntError};
use std::str::FromStr;

/// Makes a read call, and returns true if the result is the expected one.
pub fn read_call<R: BitRead + WholeRead>(
    alloc: Global,
    reader: &mut R,
    call: &Call<'_>,
    want: &str,
) -> Result<bool, Objection> {
    match call.form {
        Form::Array(items) => read_array(reader, items, call.bits, want),
        Form::Bytes | Form::Skip | Form::Vector | Form::Whole(_, _) => {
            read_whole(alloc, reader, call, want)
        }
        Form::Const => read_const(reader, call.bits, number(call.value)?, want),
        Form::Limited(stop, most) => read_limited(reader, stop, most, want),
        Form::Prefix(tree, _) => read_symbol(alloc, reader, tree, want),
        Form::Variable(value, size, field) => read_variable(reader, value, size, field, want),
        Form::VariablePair(field) => read_variable_pair(reader, field, want),
        form => read_in_bits(reader, form, call.bits, want),
    }
}

/// Makes a call that reads a number or a `bool` in `bits` bits, or reads digits, or moves to the end of a
/// byte, or asks whether the reader is there.
fn read_in_bits<R: BitRead>(
    reader: &mut R,
    form: Form,
    bits: u32,
    want: &str,
) -> Result<bool, Objection> {
    match form {
        Form::Align => Ok(align(reader, want)),
        Form::Aligned => Ok(is_aligned(reader, want)),
        Form::Bit => Ok(read_bit(reader, want)),
        Form::Bool => Ok(read_bool(reader, bits, want)),
        Form::Checked(number) => Ok(read_checked(reader, number, bits, want)),
        Form::Count => read_count(reader, bits, want),
        Form::Counted(number) => read_counted(reader, number, bits, want),
        Form::Fixed(number) => read_fixed(reader, number, bits, want),
        Form::NonZero(size) => Ok(read_non_zero(reader, size, bits, want)),
        Form::Optional(size) => Ok(read_optional(reader, size, bits, want)),
        Form::Unary(false) => Ok(read_unary::<Bits<0>, R>(reader, want)),
        Form::Unary(true) => Ok(read_unary::<Bits<1>, R>(reader, want)),
        Form::Value(number) => Ok(read_number(reader, number, bits, want)),
        Form::Word(number) => read_word(reader, number, bits, want),
        _ => Err(Objection::BAD_FORM),
    }
}

/// Moves to the end of a byte, which cannot fail.
fn align<R: BitRead>(reader: &mut R, want: &str) -> bool {
    reader.byte_align();
    want == "ok"
}

/// Returns true if a text is the result of asking whether a reader is at the end of a byte.
fn is_aligned<R: BitRead>(reader: &R, want: &str) -> bool {
    want == if reader.byte_aligned() { "yes" } else { "no" }
}

fn read_bit<R: BitRead>(reader: &mut R, want: &str) -> bool {
    is_truth(want, reader.read_bit())
}

fn read_bool<R: BitRead>(reader: &mut R, bits: u32, want: &str) -> bool {
    is_truth(want, reader.read_var::<bool>(bits))
}

/// Reads digits up to the stop digit S.
fn read_unary<S: Width, R: BitRead>(reader: &mut R, want: &str) -> bool
    requires { S.BITS < 2 }
{
    is_number(want, reader.read_unary::<S>())
}

/// Returns true if a text is the result of a call: a binary digit, or the name of the error.
fn is_truth(want: &str, answer: Result<bool, Error>) -> bool {
    match answer {
        Ok(bit) => want == if bit { "1" } else { "0" },
        Err(error) => want == error_name(&error),
    }
}

/// Reads a value of a row.
fn read_value<I: Integer + FromStr<Err = ParseIntError> + PartialEq + Drop, R: BitRead>(
    reader: &mut R,
    bits: u32,
    want: &str,
) -> bool {
    is_number(want, reader.read_var::<I>(bits))
}

fn read_number<R: BitRead>(reader: &mut R, number: Number, bits: u32, want: &str) -> bool {
    match number {
        Number::Unsigned(size) => unsigned!(size, read_value(reader, bits, want)),
        Number::Signed(size) => signed!(size, read_value(reader, bits, want)),
    }
}

fn read_non_zero<R: BitRead>(reader: &mut R, size: Size, bits: u32, want: &str) -> bool {
    match size {
        Size::Bits8 => read_value::<NonZero<u8>, R>(reader, bits, want),
        Size::Bits16 => read_value::<NonZero<u16>, R>(reader, bits, want),
        Size::Bits32 => read_value::<NonZero<u32>, R>(reader, bits, want),
        Size::Bits64 => read_value::<NonZero<u64>, R>(reader, bits, want),
        Size::Bits128 => read_value::<NonZero<u128>, R>(reader, bits, want),
    }
}

fn read_optional<R: BitRead>(reader: &mut R, size: Size, bits: u32, want: &str) -> bool {
    match size {
        Size::Bits8 => is_optional(want, reader.read_var::<Option<NonZero<u8>>>(bits)),
        Size::Bits16 => is_optional(want, reader.read_var::<Option<NonZero<u16>>>(bits)),
        Size::Bits32 => is_optional(want, reader.read_var::<Option<NonZero<u32>>>(bits)),
        Size::Bits64 => is_optional(want, reader.read_var::<Option<NonZero<u64>>>(bits)),
        Size::Bits128 => is_optional(want, reader.read_var::<Option<NonZero<u128>>>(bits)),
    }
}

/// Reads a number whose width is a count of at most 128 bits. Returns true if the result is the number or
/// the error that `want` spells. Objects to a type that no row has.
fn read_counted<R: BitRead>(
    reader: &mut R,
    number: Number,
    bits: u32,
    want: &str,
) -> Result<bool, Objection> {
    let Ok(count) = BitCount::<128>::try_from(bits) else {
        return Err(Objection::BAD_FORM);
    };
    match number {
        Number::Unsigned(Size::Bits8) => Ok(is_number(want, reader.read_counted::<_, u8>(count))),
        Number::Unsigned(Size::Bits16) => Ok(is_number(want, reader.read_counted::<_, u16>(count))),
        Number::Signed(Size::Bits8) => Ok(is_number(want, reader.read_counted::<_, i8>(count))),
        _ => Err(Objection::UNLISTED),
    }
}

/// Reads a number of `bits` bits by `read_unsigned_var` or `read_signed_var`. Objects to a type that no row
/// has.
fn read_word<R: BitRead>(
    reader: &mut R,
    number: Number,
    bits: u32,
    want: &str,
) -> Result<bool, Objection> {
    match number {
        Number::Unsigned(Size::Bits8) => Ok(is_number(want, reader.read_unsigned_var::<u8>(bits))),
        Number::Unsigned(Size::Bits16) => Ok(is_number(
            want,
            reader.read_unsigned_var::<u16>(bits),
        )),
        Number::Unsigned(Size::Bits32) => Ok(is_number(
            want,
            reader.read_unsigned_var::<u32>(bits),
        )),
        Number::Unsigned(Size::Bits128) => {
            Ok(is_number(want, reader.read_unsigned_var::<u128>(bits)))
        }
        Number::Signed(Size::Bits8) => Ok(is_number(want, reader.read_signed_var::<i8>(bits))),
        Number::Signed(Size::Bits32) => Ok(is_number(want, reader.read_signed_var::<i32>(bits))),
        _ => Err(Objection::UNLISTED),
    }
}

fn read_array<R: BitRead>(
    reader: &mut R,
    items: Items,
    bits: u32,
    want: &str,
) -> Result<bool, Objection> {
    match items {
        Items::Bytes => Ok(are_four(want, reader.read_var::<[u8; 4]>(bits))),
        Items::None => Ok(is_empty(want, reader.read_var::<[u8; 0]>(bits))),
        Items::Signed => is_pair(want, reader.read_var::<[i8; 2]>(bits)),
        Items::Truths => are_truths(want, reader.read_var::<[bool; 4]>(bits)),
    }
}

/// Returns true if a text is the result of a call: four bytes, or the name of the error.
fn are_four(want: &str, answer: Result<[u8; 4], Error>) -> bool {
    match answer {
        Ok(bytes) => are_bytes(want, bytes.as_slice()),
        Err(error) => want == error_name(&error),
    }
}

/// Returns true if a text is the result of a call: `-` for no item, or the name of the error.
fn is_empty(want: &str, answer: Result<[u8; 0], Error>) -> bool {
    match answer {
        Ok(_) => want == "-",
        Err(error) => want == error_name(&error),
    }
}

/// Returns true if a text is the result of a call: four `bool`s, or the name of the error.
fn are_truths(want: &str, answer: Result<[bool; 4], Error>) -> Result<bool, Objection> {
    match answer {
        Ok(truths) => Ok(truths_of(want)? == truths),
        Err(error) => Ok(want == error_name(&error)),
    }
}

/// Returns true if a text is the result of a call: two numbers with a comma between them, or the
/// name of the error.
pub fn is_pair<T: FromStr<Err = ParseIntError> + PartialEq + Drop>(
    want: &str,
    answer: Result<[T; 2], Error>,
) -> Result<bool, Objection> {
    match answer {
        Ok(pair) => Ok(pair_of::<T>(want)? == pair),
        Err(error) => Ok(want == error_name(&error)),
    }
}

/// Returns true if a text is the result of a call: a count, or the name of the error.
fn is_count<const MAX: u32>(want: &str, answer: Result<BitCount<MAX>, Error>) -> bool {
    is_number(want, answer.map(|count| count.bits()))
}

fn read_count<R: BitRead>(reader: &mut R, max: u32, want: &str) -> Result<bool, Objection> {
    match max {
        1 => Ok(is_count::<1>(want, reader.read_count())),
        3 => Ok(is_count::<3>(want, reader.read_count())),
        7 => Ok(is_count::<7>(want, reader.read_count())),
        63 => Ok(is_count::<63>(want, reader.read_count())),
        127 => Ok(is_count::<127>(want, reader.read_count())),
        4294967295 => Ok(is_count::<4294967295>(want, reader.read_count())),
        _ => Err(Objection::UNLISTED),
    }
}

/// The reasons that a constant was not read.
#[derive(Drop)]
enum NotRead {
    Differs,
    Refused(Error),
}

impl From<Error> for NotRead {
    fn from(error: Error) -> NotRead {
        NotRead::Refused(error)
    }
}

/// Reads the constant `V::BITS` in `B::BITS` bits.
fn read_const_in<B: Width, V: Width, R: BitRead>(reader: &mut R, want: &str) -> bool
    requires word { B.BITS ≤ 32 }
    requires value { (V.BITS < 2 ^ B.BITS) ⊎ (B.BITS ≡ 0) }
{
    match reader.read_const::<B, V, NotRead>(NotRead::Differs) {
        Ok(()) => want == "ok",
        Err(NotRead::Differs) => want == "Differs",
        Err(NotRead::Refused(error)) => want == error_name(&error),
    }
}

fn read_const<R: BitRead>(
    reader: &mut R,
    bits: u32,
    value: u32,
    want: &str,
) -> Result<bool, Objection> {
    match (bits, value) {
        (0, 0) => Ok(read_const_in::<Bits<0>, Bits<0>, R>(reader, want)),
        (0, 1) => Ok(read_const_in::<Bits<0>, Bits<1>, R>(reader, want)),
        (1, 1) => Ok(read_const_in::<Bits<1>, Bits<1>, R>(reader, want)),
        (3, 5) => Ok(read_const_in::<Bits<3>, Bits<5>, R>(reader, want)),
        (4, 2) => Ok(read_const_in::<Bits<4>, Bits<2>, R>(reader, want)),
        (5, 19) => Ok(read_const_in::<Bits<5>, Bits<19>, R>(reader, want)),
        (8, 177) => Ok(read_const_in::<Bits<8>, Bits<177>, R>(reader, want)),
        (12, 2643) => Ok(read_const_in::<Bits<12>, Bits<2643>, R>(reader, want)),
        (32, 4294967295) => Ok(read_const_in::<Bits<32>, Bits<4294967295>, R>(reader, want)),
        _ => Err(Objection::UNLISTED),
    }
}
