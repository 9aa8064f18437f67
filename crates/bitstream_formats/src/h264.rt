//! H.264 (ITU-T H.264, ISO/IEC 14496-10): the units of a byte stream, and the elements of its sequence
//! and picture parameter sets and of its slice headers. [`Stream`] reads a whole stream, and continues
//! after a refused unit.

ghost use Rattle.std.specs.Prelude.{◌≡◌, IsErr};

use crate::at::At;
use crate::element::{Element, Syntax};
use crate::nal::{UnitError, last_one, read_trailing_bits};
use bitstream_io::{BE, BitRead, Error, SliceReader};
use std::alloc::Global;

mod pps;
mod scaling;
mod sei;
mod sets;
mod slice;
mod sps;
mod stream;
mod vui;
mod weights;

pub use crate::nal::{Units, emulation_round_trip, remove_emulation};
use pps::read_pps;
use sei::read_messages;
pub use sets::{ParameterSets, PictureOrder, PictureSet, SequenceSet};
use slice::{SliceUnit, read_slice};
use sps::read_sps;
pub use stream::Stream;

/// The reason why a unit is refused.
#[derive(Debug, Drop, thiserror::Error)]
pub enum H264Error {
    /// An error of the unit itself, whatever its contents are.
    #[error("{0}")]
    Unit(UnitError),
    /// The number of a sequence parameter set is above 31.
    #[error("the number of a sequence parameter set is {0}, and the greatest is 31")]
    SequenceNumber(u32),
    /// The number of a picture parameter set is above 255.
    #[error("the number of a picture parameter set is {0}, and the greatest is 255")]
    PictureNumber(u32),
    /// A picture parameter set names a sequence parameter set that was not read.
    #[error("sequence parameter set {0} is missing")]
    MissingSequence(u32),
    /// A slice names a picture parameter set that was not read.
    #[error("picture parameter set {0} is missing")]
    MissingPicture(u32),
    /// The type of a slice is above 9.
    #[error("the type of the slice is {0}, and the greatest is 9")]
    SliceType(u32),
    /// The number of a frame or its order has more than 16 bits.
    #[error("the number of a frame or its order has more than 16 bits")]
    TooManyBits,
    /// A list of references has more than 32 pictures.
    #[error("more than 32 references")]
    TooManyReferences,
    /// A command on references is reserved.
    #[error("the command {0} on references is reserved")]
    Command(u32),
    /// A slice has more than 66 changes to a list of references, or more than 66 commands that mark them.
    #[error("more than 66 commands on references")]
    TooManyCommands,
    /// A bit `cabac_alignment_one_bit` before the data of a slice is 0.
    #[error("cabac_alignment_one_bit is not 1")]
    AlignmentBit,
    /// A buffer has more than 32 schedules.
    #[error("more than 32 schedules of a buffer")]
    TooManySchedules,
    /// A picture has more than one group of slices.
    #[error("more than one group of slices: not supported")]
    SliceGroups,
    /// A cycle has more than 255 frames.
    #[error("more than 255 frames in a cycle")]
    TooManyFrames,
}

impl From<UnitError> for H264Error {
    fn from(error: UnitError) -> H264Error {
        H264Error::Unit(error)
    }
}

impl From<Error> for H264Error {
    fn from(error: Error) -> H264Error {
        H264Error::Unit(UnitError::Reader(error))
    }
}

/// The kind of a unit.
#[derive(Clone, Copy, Debug, PartialEq, Eq)]
pub enum Unit {
    /// A sequence parameter set.
    Sequence,
    /// A picture parameter set.
    Picture,
    /// A slice, of which only the header is read.
    Slice,
    /// Supplemental enhancement information: the types and the sizes of its messages are read.
    Supplement,
    /// An access unit delimiter.
    Delimiter,
    /// Another kind of unit. Only its header is read.
    Other,
}

/// Reads a unit without its start code, and appends the elements of its header and of the contents that
/// [`Unit`] names. Their places are counted in bits of the unit without its emulation prevention bytes,
/// as the standard counts them.
///
/// Stores a parameter set in `sets` once all of it is read, in place of an earlier set with the same
/// number. Uses `sets` to read a picture parameter set or a slice, which name the sets that they need.
/// Reads the header of a slice in units of type 1 and 5. Slices of other layers and auxiliary slices
/// count as other units.
///
/// Checks the end of the unit: the stop bit is 1 and the bits after it are 0. The data of slices and
/// the contents of other units are not read, so the last 1 of such a unit counts as its stop bit. It
/// must come after the header.
///
/// # Errors
///
/// The errors of [`H264Error`]. After an error `sets` is unchanged, and the elements read before it are appended.
pub fn read_unit(
    alloc: Global,
    sets: &mut ParameterSets,
    unit: &[u8],
    elements: &mut Vec<Element>,
) -> Result<Unit, At<H264Error>>
    ensures { IsErr result → sets.new ≡ sets.old }
{
    let payload = match remove_emulation(alloc, unit) {
        Ok(payload) => payload,
        Err(_) => return Err(At {
            bit: 0,
            error: H264Error::Unit(UnitError::Reader(Error::OutOfMemory)),
        }),
    };
    let bytes = payload.as_slice();
    let mut reader = SliceReader::over(bytes);
    let mut syntax = Syntax {
        reader: &mut reader,
        elements,
        index: None,
        start: 0,
    };
    match read_set(&mut syntax, sets, last_one(bytes)) {
        Ok(unit) => Ok(unit),
        Err(error) => Err(At {
            bit: reader.bits_read(),
            error,
        }),
    }
}

/// Reads the header of a unit, and the part of its contents that is read. The last 1 of the unit is at `last`.
fn read_set(
    syntax: &mut Syntax<'_, '_, '_, BE>,
    sets: &mut ParameterSets,
    last: u64,
) -> Result<Unit, H264Error>
    ensures { IsErr result → sets.new ≡ sets.old }
{
    if syntax.reader.is_at_end() {
        return Err(H264Error::Unit(UnitError::EmptyUnit));
    }
    if syntax.flag("forbidden_zero_bit")? {
        return Err(H264Error::Unit(UnitError::Forbidden));
    }
    let reference = syntax.number("nal_ref_idc", 2)?;
    match syntax.number("nal_unit_type", 5)? {
        7 => {
            let (number, set) = read_sps(syntax)?;
            read_trailing_bits(syntax, last)?;
            sets.keep_sequence(number, set);
            Ok(Unit::Sequence)
        }
        8 => {
            let (number, set) = read_pps(syntax, sets, last)?;
            read_trailing_bits(syntax, last)?;
            sets.keep_picture(number, set);
            Ok(Unit::Picture)
        }
        kind => read_other(syntax, sets, kind, reference, last),
    }
}

/// Reads the known part of a unit without a parameter set. If its contents end in trailing bits, a 1
/// follows the header: the last 1 of the unit, at `last`, is the stop bit, and zeros follow it.
fn read_other(
    syntax: &mut Syntax<'_, '_, '_, BE>,
    sets: &ParameterSets,
    kind: u32,
    reference: u32,
    last: u64,
) -> Result<Unit, H264Error> {
    match kind {
        1..=6 | 12 | 13 | 15 | 19..=21 if last < 8 => Err(H264Error::Unit(UnitError::NoStopBit)),
        1 | 5 => {
            let unit = SliceUnit {
                is_idr: kind == 5,
                is_reference: reference > 0,
            };
            read_slice(syntax, sets, unit, last)?;
            Ok(Unit::Slice)
        }
        6 => {
            read_messages(syntax, last)?;
            Ok(Unit::Supplement)
        }
        9 => {
            syntax.number("primary_pic_type", 3)?;
            read_trailing_bits(syntax, last)?;
            Ok(Unit::Delimiter)
        }
        _ => Ok(Unit::Other),
    }
}
