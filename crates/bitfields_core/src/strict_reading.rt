//! Strict reading of packed fields: accepts only the bits that packing writes.

ghost use Rattle.std.specs.Prelude.{◌≡◌, ◌≤◌, IfOk, None, length};
ghost use Rattle.bitstream_io.specs.Alignment.{to_boundary};
ghost use Rattle.bitstream_io.specs.Gather.{result_map};
ghost use Rattle.bitstream_io.specs.Reads.{Reads};
ghost use Rattle.bitfields_core.specs.Repacking.{exact_read, if_zeros as if_zeros_of, zeros_decoder, ReadsPacked};
ghost use Rattle.bitfields_core.specs.Unpacking.{byte_count, ReadsField};

use crate::fault::{Fault, Reason};
use crate::field::Field;
use crate::field_value::FieldValue;
use crate::unpacking::{room_for, unpack_field};
use crate::values::push_value;
use bitstream_io::{BitRead, Error};
use std::alloc::Global;

/// Reads packed fields and the last alignment from a reader, by the read calls of the fields, in
/// order. Returns the values.
///
/// # Errors
///
/// The errors of [`unpack_from`](crate::unpacking::unpack_from), and `PaddingNotZero` at the first
/// field `pN` or `a` whose bits are not all 0. For the last alignment, the fault names no field
/// (field 0).
pub fn read_packed_from<R: BitRead>(
    alloc: Global,
    fields: &[Field],
    reader: &mut R,
) -> Result<Vec<FieldValue>, Fault>
    ensures { ReadsPacked R.source fields.now reader.old (result_map (λ v. v.items) result) reader.new }
{
    let mut values = Vec::new(alloc);
    for (index, field) in fields.iter().enumerate() {
        let Ok(room) = room_for(alloc, *field) else {
            return Err(Fault::new(index + 1, Reason::OutOfMemory));
        };
        match read_exact_field(*field, room, reader) {
            Ok(value) => {
                if push_value(&mut values, value).is_err() {
                    return Err(Fault::new(index + 1, Reason::OutOfMemory));
                }
            }
            Err(reason) => return Err(Fault::new(index + 1, reason)),
        }
    }
    match read_alignment(reader) {
        Ok(_) => Ok(values),
        Err(reason) => Err(Fault::new(0, reason)),
    }
}

/// Reads a packed field and returns its value, if it has one. `room` is the buffer for the bytes of
/// a `bN`.
///
/// # Errors
///
/// `PaddingNotZero` if the bits of a field `pN` or `a` are not all 0. These bits have been read.
/// Otherwise, the errors of [`unpack_field`].
fn read_exact_field<R: BitRead>(
    field: Field,
    room: Vec<u8>,
    reader: &mut R,
) -> Result<Option<FieldValue>, Reason>
    requires { length room.items ≡ byte_count field }
    ensures { ReadsField exact_read R.source field reader.old result reader.new }
{
    match field {
        Field::Padding(bits) => read_padding(bits, reader),
        Field::Align => read_alignment(reader),
        _ => unpack_field(field, room, reader),
    }
}

/// Reads `bits` bits of padding.
///
/// # Errors
///
/// `PaddingNotZero` if not all bits are 0. Otherwise, the reason for the reader's error.
fn read_padding<R: BitRead>(bits: u32, reader: &mut R) -> Result<Option<FieldValue>, Reason>
    ensures { ReadsField exact_read R.source (Field.Padding bits) reader.old result reader.new }
{
    let zero = read_zeros(bits, reader)?;
    if_zeros(zero)
}

/// Reads the padding up to the next byte boundary.
///
/// # Errors
///
/// `PaddingNotZero` if not all bits are 0. Otherwise, the reason for the reader's error.
fn read_alignment<R: BitRead>(reader: &mut R) -> Result<Option<FieldValue>, Reason>
    ensures reads { ReadsField exact_read R.source Field.Align reader.old result reader.new }
    ensures none { IfOk result (λ value. value ≡ None) }
{
    let zero = read_to_boundary(7, reader)?;
    if_zeros(zero)
}

/// Returns no value, or `PaddingNotZero` if the bits of a padding are not all 0.
fn if_zeros(zero: bool) -> Result<Option<FieldValue>, Reason>
    ensures is { result ≡ if_zeros_of zero }
    ensures none { IfOk result (λ value. value ≡ None) }
{
    if zero {
        Ok(None)
    } else {
        Err(Reason::PaddingNotZero)
    }
}

/// Reads `bits` bits. Returns true if all are 0.
fn read_zeros<R: BitRead>(bits: u32, reader: &mut R) -> Result<bool, Error>
    ensures { Reads R.source (zeros_decoder bits) reader.old result reader.new }
{
    if bits <= 128 {
        let word: u128 = reader.read_unsigned_var(bits)?;
        return Ok(word == 0);
    }
    let word: u128 = reader.read_unsigned_var(128)?;
    let rest = read_zeros(bits - 128, reader)?;
    Ok((word == 0) & rest)
}

/// Reads the bits up to the next byte boundary, at most `most` bits. Returns true if all are 0.
fn read_to_boundary<R: BitRead>(most: u32, reader: &mut R) -> Result<bool, Error>
    requires { to_boundary (R.source.state reader.old).taken ≤ most }
    ensures { Reads R.source (zeros_decoder (to_boundary (R.source.state reader.old).taken))
        reader.old result reader.new }
{
    if reader.byte_aligned() {
        return Ok(true);
    }
    let bit = reader.read_bit()?;
    let rest = read_to_boundary(most - 1, reader)?;
    Ok(!bit & rest)
}
