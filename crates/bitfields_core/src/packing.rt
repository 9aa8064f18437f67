//! Packing: writes the encodings of an input's values, and aligns at the end.

ghost use Rattle.std.specs.Prelude.{◌≡◌, false, None, [], ◌∷◌, ◌++◌};
ghost use Rattle.bitstream_io.specs.Sink.{Writes, WritesAll};
ghost use Rattle.bitstream_io.specs.WriteTable.{align, unary_word, vbr, signed_vbr};
ghost use Rattle.bitfields_core.specs.Layout.{group_bits};
ghost use Rattle.bitfields_core.specs.Packing.{field_write, field_writes, packed_bits, WritesBits, write_reason as write_reason_of, Packs, PacksValues};
ghost use Rattle.bitfields_core.specs.Value.{lines as lines_of, values as values_of, FitsField, Fit};

use crate::fault::{Fault, Reason};
use crate::field::{Field, GroupSize};
use crate::field_value::{FieldValue, first_bytes, first_signed, first_unsigned};
use crate::layout::Layout;
use crate::values::{behind_value, values};
use bitstream_io::{BitWrite, BitWriter, Bits, Endianness, Error, Lent, Target};
use std::alloc::Global;

/// Packs the values that an input spells for a layout: writes the fields' encodings, and fills the
/// last byte with zeros.
///
/// # Errors
///
/// At the first value field with a fault: `ValueMissing` if its line is missing, `ValueMisspelt` if
/// the line spells no value of the field's kind, `ValueDoesNotFit` if the number needs more bits.
/// Otherwise, `ValueLeftOver` (field 0) if lines remain, or `OutOfMemory` (field 0). After these
/// errors the stream is unchanged, since all values are read before the first byte is written.
/// Otherwise, `StreamFault` or `OutOfMemory` (field 0) if a request to the stream fails; the stream
/// stays as the failed request left it.
pub fn pack<E: Endianness, W: Target>(
    alloc: Global,
    layout: &Layout,
    input: &[u8],
    output: &mut W,
) -> Result<(), Fault>
    ensures { Packs W.stream E.order layout.now
        (values_of 1 layout.now (lines_of input.now)) output.old result output.new }
{
    let values = values(alloc, layout, input)?;
    pack_values::<E, W>(layout, &values, output)
}

/// Packs values that fit a layout: writes the fields' encodings, and fills the last byte with zeros.
///
/// # Errors
///
/// `StreamFault` or `OutOfMemory` (field 0) if a request to the stream fails; the stream stays as the failed request
/// left it.
pub fn pack_values<E: Endianness, W: Target>(
    layout: &Layout,
    values: &[FieldValue],
    output: &mut W,
) -> Result<(), Fault>
    requires fit { Fit layout.now values.now }
    ensures { PacksValues W.stream E.order layout.now values.now output.old result output.new }
{
    let mut writer = BitWriter::<Lent<W>, E>::new(Lent::new(output));
    match pack_to(layout, values, &mut writer) {
        Ok(()) => Ok(()),
        Err(error) => Err(Fault::new(0, write_reason(error))),
    }
}

/// Packs values that fit a layout: makes the write calls of the fields and aligns.
///
/// # Errors
///
/// The error of the first call that returns one. No call is made after it. A sink without a limit
/// returns an error only if a request to its stream fails or it has failed before.
pub fn pack_to<W: BitWrite>(
    layout: &Layout,
    values: &[FieldValue],
    writer: &mut W,
) -> Result<(), Error>
    requires fit { Fit layout.now values.now }
    ensures calls { WritesAll W.sink (field_writes W.sink.order layout.now values.now ++ align ∷ [])
        writer.old result writer.new }
    ensures adds { W.sink.failed writer.old ≡ false → W.sink.limit ≡ None
        → WritesBits W.sink (packed_bits W.sink.order layout.now values.now (W.sink.len writer.old))
        writer.old result writer.new }
{
    append_fields(layout.fields(), values, writer)?;
    writer.byte_align()
}

/// Makes the write calls of `fields`, with their values.
///
/// # Errors
///
/// The error of the first call that returns one. No call is made after it.
pub fn append_fields<W: BitWrite>(
    fields: &[Field],
    values: &[FieldValue],
    writer: &mut W,
) -> Result<(), Error>
    requires fit { Fit fields.now values.now }
    ensures { WritesAll W.sink (field_writes W.sink.order fields.now values.now)
        writer.old result writer.new }
{
    let mut rest = values;
    for field in fields {
        append_field(*field, rest, writer)?;
        rest = behind_value(*field, rest);
    }
    Ok(())
}

/// Makes the write call of a field, with the first of `values`.
fn append_field<W: BitWrite>(
    field: Field,
    values: &[FieldValue],
    writer: &mut W,
) -> Result<(), Error>
    requires fit { FitsField field values.now }
    ensures { Writes W.sink (field_write W.sink.order field values.now)
        writer.old result writer.new }
{
    match field {
        Field::Unsigned(width) => writer.write_unsigned_var(width, first_unsigned(width, values)),
        Field::Signed(width) => writer.write_signed_var(width, first_signed(width, values)),
        Field::Unary(stop) => append_run(stop, first_unsigned(32, values) as u32, writer),
        Field::Variable(size) => append_groups(size, first_unsigned(64, values) as u64, writer),
        Field::Lenient(size) => append_groups(size, first_unsigned(64, values) as u64, writer),
        Field::SignedVariable(size) => {
            append_signed_groups(size, first_signed(64, values), writer)
        }
        Field::Bytes(count) => writer.write_bytes(first_bytes(count, values)),
        Field::Constant { bits, value } => writer.write_unsigned_var(bits, value),
        Field::Padding(bits) => writer.pad(bits),
        Field::Align => writer.byte_align(),
    }
}

/// Writes a unary number with this stop bit.
fn append_run<W: BitWrite>(stop: bool, value: u32, writer: &mut W) -> Result<(), Error>
    ensures { Writes W.sink (unary_word stop value) writer.old result writer.new }
{
    match stop {
        false => writer.write_unary::<Bits<0>>(value),
        true => writer.write_unary::<Bits<1>>(value),
    }
}

/// Writes a number in groups of this size.
fn append_groups<W: BitWrite>(size: GroupSize, value: u64, writer: &mut W) -> Result<(), Error>
    ensures { Writes W.sink (vbr W.sink.order (group_bits size) value)
        writer.old result writer.new }
{
    match size {
        GroupSize::Four => writer.write_unsigned_vbr::<Bits<4>, u64>(value),
        GroupSize::Eight => writer.write_unsigned_vbr::<Bits<8>, u64>(value),
    }
}

/// Writes a signed number in groups of this size.
fn append_signed_groups<W: BitWrite>(
    size: GroupSize,
    value: i128,
    writer: &mut W,
) -> Result<(), Error>
    ensures { Writes W.sink (signed_vbr W.sink.order (group_bits size) value)
        writer.old result writer.new }
{
    match size {
        GroupSize::Four => writer.write_signed_vbr::<Bits<4>, i128>(value),
        GroupSize::Eight => writer.write_signed_vbr::<Bits<8>, i128>(value),
    }
}

/// Returns the reason for an error of a writer.
fn write_reason(error: Error) -> Reason
    ensures { result ≡ write_reason_of error }
{
    match error {
        Error::OutOfMemory => Reason::OutOfMemory,
        _ => Reason::StreamFault,
    }
}
