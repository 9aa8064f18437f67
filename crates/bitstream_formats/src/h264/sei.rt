//! Supplemental enhancement information (section 7.3.2.3): the type and the size of each message.

use super::H264Error;
use crate::element::Syntax;
use crate::nal::read_trailing_bits;
use bitstream_io::{BE, Error};

/// Reads the type and the size of each message, skips its payload, and reads the bits that end the
/// unit. The last 1 of the unit is at `last`.
pub(super) fn read_messages(
    syntax: &mut Syntax<'_, '_, '_, BE>,
    last: u64,
) -> Result<(), H264Error> {
    for _ in 0..u32::MAX {
        read_sum(syntax, "last_payload_type_byte")?;
        let size = read_sum(syntax, "last_payload_size_byte")?;
        syntax.reader.take_bytes(size)?;
        if syntax.place() >= last {
            break;
        }
    }
    read_trailing_bits(syntax, last)?;
    Ok(())
}

/// Reads a number that is a sum of bytes: each byte before the last one is 255.
fn read_sum(syntax: &mut Syntax<'_, '_, '_, BE>, name: &'static str) -> Result<usize, Error> {
    let mut sum = 0usize;
    for _ in 0..u32::MAX {
        if syntax.reader.rest().first() != Some(&0xff) {
            break;
        }
        syntax.number("ff_byte", 8)?;
        sum = sum.saturating_add(255);
    }
    let byte = syntax.number(name, 8)?;
    Ok(sum.saturating_add(byte as usize))
}
