//! Layouts: lists of fields.

ghost use Rattle.std.specs.Prelude.{◌≡◌, ◌≤◌, length, map, IfOk};
ghost use Rattle.bitfields_core.specs.Layout.{layout_of, fields_of, segments as segments_of, IsLayout, IsUnlessMemory};

use crate::fault::{Fault, Reason};
use crate::field::{Field, parse_field};
use std::alloc::{AllocError, Global};
use std::marker::Model;

/// A list of 1 to 256 fields. The numbers of each field are in their ranges.
#[derive(Drop)]
pub struct Layout {
    fields: Vec<Field>,
}

impl Model for Layout {
    ghost use Rattle.std.specs.Prelude.{List};
    ghost use Rattle.bitfields_core.specs.declared.field.Field.{Field};

    ghost Value = { List Field };

    ghost use Rattle.bitfields_core.specs.Layout.{IsLayout};

    ghost view = { λ l. l.fields.items };

    ghost invariant = { λ l. IsLayout l.fields.items };
}

const MOST_FIELDS: usize = 256;

/// Returns the layout that a text spells: 1 to 256 fields joined by commas.
///
/// # Errors
///
/// `TooManyFields` (field 0) if there are more than 256 segments between commas, `BadLayout` at the
/// first segment that spells no field, or `OutOfMemory` (field 0).
pub fn parse_layout(alloc: Global, text: &str) -> Result<Layout, Fault>
    ensures { IsUnlessMemory (layout_of text.now) result }
{
    let parts = segments(alloc, text)?;
    if parts.len() > MOST_FIELDS {
        return Err(Fault::new(0, Reason::TooManyFields));
    }
    parse_fields(alloc, &parts)
}

/// Returns the layout of the segments.
fn parse_fields(alloc: Global, parts: &[&str]) -> Result<Layout, Fault>
    requires some { 1 ≤ length parts.now }
    requires few { length parts.now ≤ 256 }
    ensures { IsUnlessMemory (fields_of 1 (map (λ x. x.now) parts.now)) result }
{
    let mut fields = Vec::new(alloc);
    for (index, segment) in parts.iter().enumerate() {
        let Some(field) = parse_field(segment.as_bytes()) else {
            return Err(Fault::new(index + 1, Reason::BadLayout));
        };
        fields.push(field)?;
    }
    Ok(Layout { fields })
}

/// Returns the segments between commas.
fn segments(alloc: Global, text: &str) -> Result<Vec<&str>, AllocError>
    ensures segments { IfOk result (λ v. map (λ x. x.now) v.items ≡ segments_of text.now) }
    ensures some { IfOk result (λ v. 1 ≤ length v.items) }
{
    text.split(',').collect(alloc)
}

impl Layout {
    /// Returns the fields.
    pub fn fields(&self) -> &[Field]
        ensures fields { result.now ≡ self.now }
        ensures is_layout { IsLayout self.now }
    {
        &self.fields
    }
}
