//! Exponential Golomb numbers as elements (section 9.1 of H.264, 9.2 of H.265).

use crate::element::Syntax;
use bitstream_io::{BE, Error, golomb};

/// Reads an unsigned number, `ue(v)`.
pub(crate) fn read_ue(
    syntax: &mut Syntax<'_, '_, '_, BE>,
    name: &'static str,
) -> Result<u32, Error> {
    let place = syntax.place();
    let value = golomb::read_ue(syntax.reader)?;
    syntax.note(place, name, value as i64)?;
    Ok(value)
}

/// Reads a signed number, `se(v)`.
pub(crate) fn read_se(
    syntax: &mut Syntax<'_, '_, '_, BE>,
    name: &'static str,
) -> Result<i32, Error> {
    let place = syntax.place();
    let value = golomb::read_se(syntax.reader)?;
    syntax.note(place, name, value as i64)?;
    Ok(value)
}
