//! The values that an input spells for the fields of a layout.

ghost use Rattle.std.specs.Prelude.{◌≡◌, ◌+◌, ◌++◌, [], ◌∷◌, ◌^◌, ◌≤◌, length, drop, map, IfOk, IsErr, IsSome, OnOk, IsOkUnless};
ghost use Rattle.std.specs.List.{All};
ghost use Rattle.bitfields_core.specs.Fault.{fault};
ghost use Rattle.bitfields_core.specs.Layout.{IsField, IsLayout, IsUnlessMemory};
ghost use Rattle.bitstream_io.specs.Gather.{result_map};
ghost use Rattle.bitfields_core.specs.Value.{lines as lines_of, values as values_of, value_in as value_in_of, value_count as value_count_of, Fit, value_list};

use crate::fault::{Fault, Reason};
use crate::field::Field;
use crate::field_value::{FieldValue, ValueKind, value_in, value_kind};
use crate::layout::Layout;
use crate::lines::lines;
use std::alloc::Global;

/// Returns the values that an input spells for the value fields of a layout, in their order.
///
/// # Errors
///
/// The errors that [`pack`](crate::pack) returns before it writes.
pub fn values(alloc: Global, layout: &Layout, input: &[u8]) -> Result<Vec<FieldValue>, Fault>
    ensures values { IsUnlessMemory (values_of 1 layout.now (lines_of input.now))
        (result_map (λ v. v.items) result) }
    ensures fit { IfOk result (λ v. Fit layout.now v.items) }
{
    let lines = lines(alloc, input)?;
    read_values(alloc, layout.fields(), &lines)
}

fn read_values(alloc: Global, fields: &[Field], lines: &[&[u8]]) -> Result<Vec<FieldValue>, Fault>
    requires { IsLayout fields.now }
    ensures { IsUnlessMemory (values_of 1 fields.now (map (λ x. x.now) lines.now))
        (result_map (λ v. v.items) result) }
{
    let mut values = Vec::new(alloc);
    let mut rest = lines;
    for (index, field) in fields.iter().enumerate() {
        let value = match value_in(alloc, *field, rest)? {
            Ok(value) => value,
            Err(reason) => return Err(Fault::new(index + 1, reason)),
        };
        push_value(&mut values, value)?;
        rest = behind_value(*field, rest);
    }
    if !rest.is_empty() {
        return Err(Fault::new(0, Reason::ValueLeftOver));
    }
    Ok(values)
}

/// Appends a field's value, if it has one.
///
/// # Errors
///
/// `OutOfMemory` (field 0) if an allocation fails. If so, no value is appended.
pub fn push_value(values: &mut Vec<FieldValue>, value: Option<FieldValue>) -> Result<(), Fault>
    ensures pushed { OnOk result (values.new.items ≡ values.old.items ++ value_list value) }
    ensures memory { IsOkUnless result (fault 0 Reason.OutOfMemory) }
    ensures some { IsErr result → IsSome value }
{
    if let Some(value) = value {
        values.push(value)?;
    }
    Ok(())
}

/// Returns the number of values of a field, which is the number of its lines.
pub fn value_count(field: Field) -> usize
    ensures { result ≡ value_count_of field }
{
    match value_kind(field) {
        ValueKind::Absent => 0,
        ValueKind::Unsigned(_) | ValueKind::Signed(_) | ValueKind::Bytes(_) => 1,
    }
}

/// Returns the items (lines or values) after the items of a field.
pub fn behind_value<T>(field: Field, items: &[T]) -> &[T]
    requires { value_count_of field ≤ length items.now }
    ensures { result.now ≡ drop (value_count_of field) items.now }
{
    &items[value_count(field)..]
}
