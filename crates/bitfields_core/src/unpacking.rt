//! Unpacking: reads the values of a layout's fields from packed bits, and returns them as lines.

ghost use Rattle.std.specs.Prelude.{◌≡◌, ◌++◌, ◌^◌, ℕ, List, Some, true, length, string_bytes, IfOk, IsErr, IsSome, OnOk, None, Ok, Err, if◌then◌else◌};
ghost use Rattle.bitstream_io.specs.Gather.{result_map};
ghost use Rattle.bitstream_io.specs.Refusal.{MayRefuseRead, TrueEnds};
ghost use Rattle.bitstream_io.specs.ReadTable.{unary_decoder, vbr_decoder, any_vbr_decoder, signed_vbr_decoder};
ghost use Rattle.bitstream_io.specs.Reads.{Reads};
ghost use Rattle.bitfields_core.specs.Layout.{group_bits};
ghost use Rattle.bitfields_core.specs.Unpacking.{asks_memory, byte_count, field_read, read_reason as read_reason_of, IsSaid, ReadsField, ReadsLines, UnpacksBytes};
ghost use Rattle.bitfields_core.specs.Value.{value_list, printed_lines};

use crate::fault::{Fault, Reason};
use crate::field::{Field, GroupSize};
use crate::field_value::{FieldValue, print_value};
use crate::layout::Layout;
use bitstream_io::script::ByteList;
use bitstream_io::{BitRead, BitReader, Bits, Endianness, Error, Lent, Source};
use std::alloc::{AllocError, Global};

/// Unpacks the fields of a layout from a stream, beginning at its first byte. Returns the line of
/// each value, ended by LF. Requests no byte after the last field. After a failed request, the
/// stream stays as the request left it.
///
/// # Errors
///
/// `BitsEnded` at the first field whose bits are not all there. `ConstantDiffers` at the first
/// constant whose bits hold another number. `LimitPassed` at the first field whose number passes
/// its limit or ends in a redundant group. `StreamFault` or `OutOfMemory` at the field for which a
/// request to the stream failed. `OutOfMemory` at the field for whose bytes or line an allocation
/// failed. If the stream fails only at the end of input, as a `Slice` does, the bits alone decide
/// the result, unless an allocation fails.
pub fn unpack<E: Endianness, R: Source>(
    alloc: Global,
    layout: &Layout,
    input: &mut R,
) -> Result<Vec<u8>, Fault>
    ensures unpacks { UnpacksBytes R.stream E.order layout.now
        input.old (result_map (λ v. v.items) result) input.new }
    ensures said { TrueEnds (MayRefuseRead R.stream) → (xs : List ℕ)
        → R.stream.remaining input.old ≡ Some xs
        → IsSaid E.order layout.now xs (result_map (λ v. v.items) result) }
{
    let mut reader = BitReader::<Lent<R>, E>::new(Lent::new(input));
    let lines = unpack_from(alloc, layout.fields(), &mut reader)?;
    Ok(lines.into_bytes())
}

/// Unpacks fields from a reader by their read calls, in order. Returns the line of each value,
/// ended by LF.
///
/// # Errors
///
/// A fault at the first field whose call returns an error, at the first constant whose bits hold
/// another number, or at the first field for whose bytes or line an allocation fails. No call is made
/// after it.
pub fn unpack_from<R: BitRead>(
    alloc: Global,
    fields: &[Field],
    reader: &mut R,
) -> Result<String, Fault>
    ensures { ReadsLines R.source fields.now reader.old (result_map (λ s. string_bytes s) result) reader.new }
{
    let mut lines = String::new(alloc);
    for (index, field) in fields.iter().enumerate() {
        let Ok(room) = room_for(alloc, *field) else {
            return Err(Fault::new(index + 1, Reason::OutOfMemory));
        };
        match unpack_field(*field, room, reader) {
            Ok(value) => {
                if print_field(&mut lines, value).is_err() {
                    return Err(Fault::new(index + 1, Reason::OutOfMemory));
                }
            }
            Err(reason) => return Err(Fault::new(index + 1, reason)),
        }
    }
    Ok(lines)
}

/// Reads a field and returns its value, if it has one. `room` is the buffer for the bytes of a
/// `bN`.
///
/// # Errors
///
/// `ConstantDiffers` if the bits of a constant hold another number. These bits have been read.
/// Otherwise, the reason for the reader's error.
pub fn unpack_field<R: BitRead>(
    field: Field,
    mut room: Vec<u8>,
    reader: &mut R,
) -> Result<Option<FieldValue>, Reason>
    requires { length room.items ≡ byte_count field }
    ensures { ReadsField field_read R.source field reader.old result reader.new }
{
    match field {
        Field::Unsigned(width) => {
            let value = reader.read_unsigned_var::<u128>(width)?;
            Ok(Some(FieldValue::Unsigned(value)))
        }
        Field::Signed(width) => {
            let value = reader.read_signed_var::<i128>(width)?;
            Ok(Some(FieldValue::Signed(value)))
        }
        Field::Unary(stop) => {
            let value = read_run(stop, reader)?;
            Ok(Some(FieldValue::Unsigned(value as u128)))
        }
        Field::Variable(size) => {
            let value = read_groups(size, reader)?;
            Ok(Some(FieldValue::Unsigned(value as u128)))
        }
        Field::Lenient(size) => {
            let value = read_any_groups(size, reader)?;
            Ok(Some(FieldValue::Unsigned(value as u128)))
        }
        Field::SignedVariable(size) => {
            let value = read_signed_groups(size, reader)?;
            Ok(Some(FieldValue::Signed(widened(value))))
        }
        Field::Bytes(_) => {
            reader.read_bytes(room.as_mut_slice())?;
            Ok(Some(FieldValue::Bytes(ByteList::new(room))))
        }
        Field::Constant { bits, value } => {
            let held: u32 = reader.read_unsigned_var(bits)?;
            no_value_if(held == value)
        }
        Field::Padding(bits) => {
            reader.skip(bits)?;
            Ok(None)
        }
        Field::Align => {
            reader.byte_align();
            Ok(None)
        }
    }
}

/// Reads a unary number with this stop bit.
fn read_run<R: BitRead>(stop: bool, reader: &mut R) -> Result<u32, Error>
    ensures { Reads R.source (unary_decoder stop) reader.old result reader.new }
{
    match stop {
        false => reader.read_unary::<Bits<0>>(),
        true => reader.read_unary::<Bits<1>>(),
    }
}

/// Reads a number in groups of this size.
fn read_groups<R: BitRead>(size: GroupSize, reader: &mut R) -> Result<u64, Error>
    ensures { Reads R.source (vbr_decoder R.source.order (group_bits size) 64 (2 ^ 64))
        reader.old result reader.new }
{
    match size {
        GroupSize::Four => reader.read_unsigned_vbr::<Bits<4>, u64>(),
        GroupSize::Eight => reader.read_unsigned_vbr::<Bits<8>, u64>(),
    }
}

/// Reads a number in groups of this size. Its last groups may be 0.
fn read_any_groups<R: BitRead>(size: GroupSize, reader: &mut R) -> Result<u64, Error>
    ensures { Reads R.source (any_vbr_decoder R.source.order (group_bits size) 64 (2 ^ 64))
        reader.old result reader.new }
{
    match size {
        GroupSize::Four => reader.read_unsigned_vbr_any::<Bits<4>, u64>(),
        GroupSize::Eight => reader.read_unsigned_vbr_any::<Bits<8>, u64>(),
    }
}

/// Reads a signed number in groups of this size.
fn read_signed_groups<R: BitRead>(size: GroupSize, reader: &mut R) -> Result<i64, Error>
    ensures { Reads R.source (signed_vbr_decoder R.source.order (group_bits size) 64)
        reader.old result reader.new }
{
    match size {
        GroupSize::Four => reader.read_signed_vbr::<Bits<4>, i64>(),
        GroupSize::Eight => reader.read_signed_vbr::<Bits<8>, i64>(),
    }
}

/// Returns a buffer for the bytes that are read for a field. For a field that is not `bN`, it has
/// no bytes.
///
/// # Errors
///
/// `AllocError` if an allocation fails.
pub fn room_for(alloc: Global, field: Field) -> Result<Vec<u8>, AllocError>
    ensures room { IfOk result (λ room. length room.items ≡ byte_count field) }
    ensures asks { IsErr result → asks_memory field ≡ true }
{
    match field {
        Field::Bytes(count) => vec![in alloc; 0; count as usize],
        _ => Ok(Vec::new(alloc)),
    }
}

/// Returns no value, or `ConstantDiffers` if the bits of a constant hold another number.
fn no_value_if(same: bool) -> Result<Option<FieldValue>, Reason>
    ensures { result ≡ (if same then Ok None else Err Reason.ConstantDiffers) }
{
    if same {
        Ok(None)
    } else {
        Err(Reason::ConstantDiffers)
    }
}

/// Returns a number in a wider type.
fn widened(value: i64) -> i128
    ensures { result ≡ value }
{
    value as i128
}

/// Returns the reason for an error of a reader.
fn read_reason(error: Error) -> Reason
    ensures { result ≡ read_reason_of error }
{
    match error {
        Error::EndOfInput => Reason::BitsEnded,
        Error::OutOfMemory => Reason::OutOfMemory,
        Error::RunTooLong | Error::VariableWidthOverflow | Error::RedundantGroup => {
            Reason::LimitPassed
        }
        _ => Reason::StreamFault,
    }
}

/// The reason for an error of a reader.
impl From<Error> for Reason {
    ghost use Rattle.bitfields_core.specs.Unpacking.{IsReadReason};

    ghost from_gives = { IsReadReason };

    fn from(error: Error) -> Reason {
        read_reason(error)
    }
}

/// Appends the line of a field's value, if it has one.
fn print_field(lines: &mut String, value: Option<FieldValue>) -> Result<(), AllocError>
    ensures line { OnOk result
        (string_bytes lines.new ≡ string_bytes lines.old ++ printed_lines (value_list value)) }
    ensures some { IsErr result → IsSome value }
{
    match value {
        Some(value) => print_value(lines, value),
        None => Ok(()),
    }
}
