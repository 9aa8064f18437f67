//! The values of fields: how lines spell them, and how they are printed.

ghost use Rattle.std.specs.Prelude.{◌≡◌, ◌++◌, ◌≤◌, ◌<◌, ◌^◌, length, map, string_bytes, IfOk, OnOk};
ghost use Rattle.bitstream_io.specs.Word.{FitsSignedBits};
ghost use Rattle.bitfields_core.specs.Layout.{IsField};
ghost use Rattle.bitfields_core.specs.Value.{printed_line, value_count, value_kind as value_kind_of, value_in as value_in_of, value_of, IsKind, FitsKind, first_unsigned as first_unsigned_of, first_signed as first_signed_of, first_bytes as first_bytes_of};

use crate::decimal::{decimal_of_width, signed_of_width, spaced_bytes};
use crate::fault::Reason;
use crate::field::Field;
use bitstream_io::script::ByteList;
use std::alloc::{AllocError, Global};
use std::fmt;
use std::fmt::Write;

/// A value of a field, by its kind.
#[derive(Drop)]
pub enum FieldValue {
    /// A number without a sign.
    Unsigned(u128),
    /// A signed number.
    Signed(i128),
    /// Bytes.
    Bytes(ByteList),
}

/// The value as its line spells it.
impl fmt::Display for FieldValue {
    ghost use Rattle.std.specs.Prelude.{Some};
    ghost use Rattle.bitfields_core.specs.Value.{value_text};

    ghost output = { λ v. Some (value_text v) };

    fn fmt<W: fmt::Write>(&self, f: &mut fmt::Formatter<W>) -> fmt::Result {
        match self {
            FieldValue::Unsigned(value) => write!(f, "{value}"),
            FieldValue::Signed(value) => write!(f, "{value}"),
            FieldValue::Bytes(bytes) => write!(
                f,
                "{}",
                Spaced {
                    bytes: bytes.as_slice()
                }
            ),
        }
    }
}

/// Bytes, printed as decimals with single spaces between them.
#[derive(Drop)]
struct Spaced<'a> {
    bytes: &'a [u8],
}

impl fmt::Display for Spaced<'_> {
    ghost use Rattle.std.specs.Prelude.{Some};
    ghost use Rattle.bitfields_core.specs.Decimal.{bytes_text};

    ghost output = { λ s. Some (bytes_text s.bytes.now) };

    fn fmt<W: fmt::Write>(&self, f: &mut fmt::Formatter<W>) -> fmt::Result {
        let Some((first, rest)) = self.bytes.split_first() else {
            return Ok(());
        };
        write!(f, "{first}")?;
        for byte in rest {
            write!(f, " {byte}")?;
        }
        Ok(())
    }
}

/// The kind of a field's value, which decides what its line spells.
#[derive(Clone, Copy, Drop)]
pub enum ValueKind {
    /// The field has no value, and no line.
    Absent,
    /// An unsigned number of this many bits.
    Unsigned(u32),
    /// A signed number of this many bits.
    Signed(u32),
    /// This many bytes.
    Bytes(u32),
}

/// Returns the kind of a field's value.
pub fn value_kind(field: Field) -> ValueKind
    ensures kind { result ≡ value_kind_of field }
    ensures in_range { IsField field → IsKind result }
{
    match field {
        Field::Unsigned(width) => ValueKind::Unsigned(width),
        Field::Signed(width) => ValueKind::Signed(width),
        Field::Unary(_) => ValueKind::Unsigned(32),
        Field::Variable(_) | Field::Lenient(_) => ValueKind::Unsigned(64),
        Field::SignedVariable(_) => ValueKind::Signed(64),
        Field::Bytes(count) => ValueKind::Bytes(count),
        Field::Constant { .. } | Field::Padding(_) | Field::Align => ValueKind::Absent,
    }
}

/// Returns the value of a field, which the first line spells, or `None` if the field has no value. Otherwise, the
/// reason is `ValueMissing` if there is no line, `ValueMisspelt` if the line spells no value of this kind, and
/// `ValueDoesNotFit` if a number needs more bits.
///
/// # Errors
///
/// `AllocError` if an allocation fails. Only the bytes of a `bN` allocate.
pub fn value_in(
    alloc: Global,
    field: Field,
    lines: &[&[u8]],
) -> Result<Result<Option<FieldValue>, Reason>, AllocError>
    requires { IsField field }
    ensures value { IfOk result (λ value. value
        ≡ value_in_of field (map (λ x. x.now) lines.now)) }
    ensures line { IfOk result (λ value. OnOk value (value_count field ≤ length lines.now)) }
{
    match value_kind(field) {
        ValueKind::Absent => Ok(Ok(None)),
        ValueKind::Unsigned(width) => Ok(unsigned_in(width, lines)),
        ValueKind::Signed(width) => Ok(signed_in(width, lines)),
        ValueKind::Bytes(count) => bytes_in(alloc, count, lines),
    }
}

/// Returns the unsigned number of `width` bits that the first line spells.
fn unsigned_in(width: u32, lines: &[&[u8]]) -> Result<Option<FieldValue>, Reason>
    requires { width ≤ 128 }
    ensures value { result ≡ value_of (ValueKind.Unsigned width) (map (λ x. x.now) lines.now) }
    ensures line { OnOk result (1 ≤ length lines.now) }
{
    let line = lines.first().ok_or(Reason::ValueMissing)?;
    let value = decimal_of_width(width, line)?;
    Ok(Some(FieldValue::Unsigned(value)))
}

/// Returns the signed number of `width` bits that the first line spells.
fn signed_in(width: u32, lines: &[&[u8]]) -> Result<Option<FieldValue>, Reason>
    requires some { 1 ≤ width }
    requires most { width ≤ 128 }
    ensures value { result ≡ value_of (ValueKind.Signed width) (map (λ x. x.now) lines.now) }
    ensures line { OnOk result (1 ≤ length lines.now) }
{
    let line = lines.first().ok_or(Reason::ValueMissing)?;
    let value = signed_of_width(width, line)?;
    Ok(Some(FieldValue::Signed(value)))
}

/// Returns the `count` bytes that the first line spells.
fn bytes_in(
    alloc: Global,
    count: u32,
    lines: &[&[u8]],
) -> Result<Result<Option<FieldValue>, Reason>, AllocError>
    ensures value { IfOk result (λ value. value
        ≡ value_of (ValueKind.Bytes count) (map (λ x. x.now) lines.now)) }
    ensures line { IfOk result (λ value. OnOk value (1 ≤ length lines.now)) }
{
    let Some(line) = lines.first() else {
        return Ok(Err(Reason::ValueMissing));
    };
    match spaced_bytes(alloc, count, line)? {
        Ok(bytes) => Ok(Ok(Some(FieldValue::Bytes(bytes)))),
        Err(reason) => Ok(Err(reason)),
    }
}

/// Returns the first value, which is an unsigned number of `width` bits.
pub fn first_unsigned(width: u32, values: &[FieldValue]) -> u128
    requires { FitsKind (ValueKind.Unsigned width) values.now }
    ensures first { result ≡ first_unsigned_of values.now }
    ensures fits { result < 2 ^ width }
{
    match &values[0] {
        FieldValue::Unsigned(value) => *value,
        _ => unreachable!(),
    }
}

/// Returns the first value, which is a signed number of `width` bits.
pub fn first_signed(width: u32, values: &[FieldValue]) -> i128
    requires { FitsKind (ValueKind.Signed width) values.now }
    ensures first { result ≡ first_signed_of values.now }
    ensures fits { FitsSignedBits width result }
{
    match &values[0] {
        FieldValue::Signed(value) => *value,
        _ => unreachable!(),
    }
}

/// Returns the first value, which is `count` bytes.
pub fn first_bytes(count: u32, values: &[FieldValue]) -> &[u8]
    requires { FitsKind (ValueKind.Bytes count) values.now }
    ensures { result.now ≡ first_bytes_of values.now }
{
    match &values[0] {
        FieldValue::Bytes(bytes) => bytes.as_slice(),
        _ => unreachable!(),
    }
}

/// Appends the line of a value: its text, and LF.
///
/// # Errors
///
/// `AllocError` if an allocation fails. If so, a part of the line may have been written.
pub fn print_value(lines: &mut String, value: FieldValue) -> Result<(), AllocError>
    ensures { OnOk result (string_bytes lines.new ≡ string_bytes lines.old ++ printed_line value) }
{
    writeln!(lines, "{value}")
}
