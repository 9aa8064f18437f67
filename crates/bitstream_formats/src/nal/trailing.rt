//! The bits that end a unit (section 7.3.2.11): a 1, and zeros up to the end of the unit. Slice data may have
//! zero words after them.

use super::UnitError;
use crate::element::Syntax;
use bitstream_io::{BE, BitRead};

/// Returns the place of the last 1 of some bytes, in bits, or 0 if no bit is 1.
pub(crate) fn last_one(bytes: &[u8]) -> u64 {
    let mut stop = 0u64;
    for (at, byte) in bytes.iter().enumerate() {
        if *byte != 0 {
            let low = 7u64.saturating_sub(byte.trailing_zeros() as u64);
            stop = (at as u64).saturating_mul(8).saturating_add(low);
        }
    }
    stop
}

/// Reads the bits after a parameter set, up to the next whole byte. The last 1 of the unit is at `last`.
pub(crate) fn read_trailing_bits(
    syntax: &mut Syntax<'_, '_, '_, BE>,
    last: u64,
) -> Result<(), UnitError> {
    if syntax.reader.is_at_end() {
        return Err(UnitError::NoStopBit);
    }
    let stop = syntax.place();
    if !syntax.flag("rbsp_stop_one_bit")? {
        return Err(UnitError::NoStopBit);
    }
    for _ in 0..7 {
        if syntax.reader.byte_aligned() {
            break;
        }
        if syntax.flag("rbsp_alignment_zero_bit")? {
            return Err(UnitError::BitAfterStop);
        }
    }
    if last > stop {
        return Err(UnitError::BitAfterStop);
    }
    Ok(())
}

/// Checks the end of an access unit delimiter after its header: three bits, and the bits that end a unit.
pub(crate) fn check_delimiter(
    syntax: &mut Syntax<'_, '_, '_, BE>,
    last: u64,
) -> Result<(), UnitError> {
    syntax.bits(3)?;
    let stop = syntax.place();
    if syntax.reader.is_at_end() || !syntax.reader.read_bit()? {
        return Err(UnitError::NoStopBit);
    }
    if last > stop {
        return Err(UnitError::BitAfterStop);
    }
    Ok(())
}
