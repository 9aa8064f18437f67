//! H.265 (ITU-T H.265, ISO/IEC 23008-2): the units of a byte stream, and the elements of its video,
//! sequence and picture parameter sets. [`Stream`] reads a whole stream, and continues after a refused
//! unit.

ghost use Rattle.std.specs.Prelude.{◌≡◌, IsErr};

use crate::at::At;
use crate::element::{Element, Syntax};
use crate::nal::{UnitError, check_delimiter, last_one, read_trailing_bits, remove_emulation};
use bitstream_io::{BE, BitRead, Error, SliceReader};
use std::alloc::Global;

mod extensions;
mod hrd;
mod palette;
mod pps;
mod profile;
mod references;
mod scaling;
mod sets;
mod sps;
mod stream;
mod vps;
mod vui;

pub use crate::nal::Units;
use pps::read_pps;
pub use sets::{ParameterSets, VideoSet};
use sps::read_sps;
pub use stream::Stream;
use vps::read_vps;

/// The reason why a unit is refused.
#[derive(Debug, Drop, thiserror::Error)]
pub enum H265Error {
    /// An error of the unit itself, whatever its contents are.
    #[error("{0}")]
    Unit(UnitError),
    /// The number of a sequence parameter set is above 15.
    #[error("the number of a sequence parameter set is {0}, and the greatest is 15")]
    SequenceNumber(u32),
    /// The number of a picture parameter set is above 63.
    #[error("the number of a picture parameter set is {0}, and the greatest is 63")]
    PictureNumber(u32),
    /// A sequence parameter set of another layer names a video parameter set that was not read.
    #[error("video parameter set {0} is missing")]
    MissingVideo(u32),
    /// A stream has more than seven temporal sub-layers.
    #[error("more than 7 temporal sub-layers")]
    TooManySubLayers,
    /// A stream has more than 1024 sets of layers.
    #[error("more than 1024 sets of layers")]
    TooManyLayerSets,
    /// A video parameter set has more HRD parameters than sets of layers.
    #[error("more HRD parameters than sets of layers")]
    TooManyHrdParameters,
    /// A buffer has more than 32 schedules.
    #[error("more than 32 schedules of a buffer")]
    TooManySchedules,
    /// The order count of a picture has more than 16 bits.
    #[error("more than 16 bits of the order count of a picture")]
    OrderTooLong,
    /// Samples have more than 16 bits.
    #[error("samples of more than 16 bits")]
    SamplesTooDeep,
    /// There are more than 64 short-term reference picture sets.
    #[error("more than 64 short-term reference picture sets")]
    TooManyReferenceSets,
    /// A reference picture set has more than 16 pictures.
    #[error("more than 16 pictures in a reference picture set")]
    TooManyReferences,
    /// There are more than 32 long-term reference pictures.
    #[error("more than 32 long-term reference pictures")]
    TooManyLongTerm,
    /// A picture has more than 20 columns or 22 rows of tiles.
    #[error("more than 20 columns or 22 rows of tiles")]
    TooManyTiles,
    /// A list of chroma offsets has more than six of them.
    #[error("more than 6 offsets of chroma")]
    TooManyOffsets,
    /// A picture refers to more than 63 layers.
    #[error("more than 63 layers with offsets")]
    TooManyLayers,
    /// A palette has more than 128 colors.
    #[error("more than 128 colors of a palette")]
    PaletteTooLong,
    /// A set has a palette, and no bit depth of its own.
    #[error("a palette without the bit depth of its samples: not supported")]
    PaletteDepth,
    /// A set maps the colors of one layer to the colors of another.
    #[error("a table that maps colors: not supported")]
    ColorMapping,
    /// A set has an extension for pictures with depth, of 3D-HEVC.
    #[error("an extension of 3D-HEVC: not supported")]
    Extension3d,
}

impl From<UnitError> for H265Error {
    fn from(error: UnitError) -> H265Error {
        H265Error::Unit(error)
    }
}

impl From<Error> for H265Error {
    fn from(error: Error) -> H265Error {
        H265Error::Unit(UnitError::Reader(error))
    }
}

/// The kind of a unit.
#[derive(Clone, Copy, Debug, PartialEq, Eq)]
pub enum Unit {
    /// A video parameter set.
    Video,
    /// A sequence parameter set.
    Sequence,
    /// A picture parameter set.
    Picture,
    /// Another kind of unit. Only its header is read.
    Other,
}

/// A reader of the bits of a unit, with the elements read.
type Nal<'r, 'a, 'b> = Syntax<'r, 'a, 'b, BE>;

/// Reads a unit without its start code, and appends the elements of its header and of a parameter set.
/// Their places are counted in bits of the unit without its emulation prevention bytes, as the standard
/// counts them.
///
/// Stores a video parameter set in `sets` once all of it is read, in place of an earlier set with the
/// same number. A sequence parameter set of another layer may take its number of sub-layers from there.
///
/// Checks the end of the unit: the stop bit is 1 and the bits after it are 0. The contents of other
/// units are not read, so the last 1 of such a unit counts as its stop bit. It must come after the
/// header.
///
/// # Errors
///
/// The errors of [`H265Error`]. After an error `sets` is unchanged, and the elements read before it are appended.
pub fn read_unit(
    alloc: Global,
    sets: &mut ParameterSets,
    unit: &[u8],
    elements: &mut Vec<Element>,
) -> Result<Unit, At<H265Error>>
    ensures { IsErr result → sets.new ≡ sets.old }
{
    let payload = match remove_emulation(alloc, unit) {
        Ok(payload) => payload,
        Err(_) => return Err(At {
            bit: 0,
            error: H265Error::Unit(UnitError::Reader(Error::OutOfMemory)),
        }),
    };
    let bytes = payload.as_slice();
    let mut reader = SliceReader::over(bytes);
    let mut syntax = Syntax {
        reader: &mut reader,
        elements,
        index: None,
        start: 0,
    };
    match read_set(&mut syntax, sets, last_one(bytes)) {
        Ok(unit) => Ok(unit),
        Err(error) => Err(At {
            bit: reader.bits_read(),
            error,
        }),
    }
}

/// Reads the header of a unit, and a parameter set after it. The last 1 of the unit is at `last`.
fn read_set(
    syntax: &mut Nal<'_, '_, '_>,
    sets: &mut ParameterSets,
    last: u64,
) -> Result<Unit, H265Error>
    ensures { IsErr result → sets.new ≡ sets.old }
{
    if syntax.reader.is_at_end() {
        return Err(H265Error::Unit(UnitError::EmptyUnit));
    }
    if syntax.flag("forbidden_zero_bit")? {
        return Err(H265Error::Unit(UnitError::Forbidden));
    }
    let kind = syntax.number("nal_unit_type", 6)?;
    let layer = syntax.number("nuh_layer_id", 6)?;
    syntax.number("nuh_temporal_id_plus1", 3)?;
    match kind {
        32 => {
            let (number, set) = read_vps(syntax, last)?;
            read_trailing_bits(syntax, last)?;
            sets.keep_video(number, set);
            Ok(Unit::Video)
        }
        33 => {
            read_sps(syntax, sets, layer, last)?;
            read_trailing_bits(syntax, last)?;
            Ok(Unit::Sequence)
        }
        34 => {
            read_pps(syntax, last)?;
            read_trailing_bits(syntax, last)?;
            Ok(Unit::Picture)
        }
        _ => {
            check_end(syntax, kind, last)?;
            Ok(Unit::Other)
        }
    }
}

/// Checks the end of a unit of which only the header is read. If contents of its type end in trailing
/// bits, a 1 follows the header: the last 1 of the unit, at `last`, is the stop bit, and zeros follow
/// it.
fn check_end(syntax: &mut Nal<'_, '_, '_>, kind: u32, last: u64) -> Result<(), UnitError> {
    match kind {
        35 => check_delimiter(syntax, last),
        0..=9 | 16..=21 | 38..=40 if last < 16 => Err(UnitError::NoStopBit),
        _ => Ok(()),
    }
}
