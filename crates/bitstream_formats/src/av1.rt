//! AV1 (AV1 Bitstream and Decoding Process Specification, 2019): the headers of the OBUs of a stream,
//! each with its size, and the sequence headers.

use crate::at::At;
use crate::element::{Element, Syntax};
use bitstream_io::{BE, BitRead, BitReadExt, Bits, Error, SliceReader};

mod leb128;
mod sequence;

pub use leb128::{leb128_numbers_round_trip, read_leb128};
use sequence::read_sequence;

/// The reasons that an OBU is not read.
#[derive(Debug, Drop, thiserror::Error)]
pub enum Av1Error {
    /// The bits were not read.
    #[error("{0}")]
    Reader(Error),
    /// The first bit of an OBU is not 0.
    #[error("the forbidden bit is set")]
    Forbidden,
    /// An OBU of a stream without frames has no size.
    #[error("an OBU has no size field")]
    NoSize,
    /// The size is 2^32 or more, or has more than eight bytes.
    #[error("the size of an OBU is too large")]
    TooLarge,
    /// The bit `trailing_one_bit`, which ends a sequence header, is 0.
    #[error("trailing_one_bit is not 1")]
    NoTrailingOne,
    /// A bit after `trailing_one_bit` is 1.
    #[error("a bit after trailing_one_bit is 1")]
    BitAfterTrailingOne,
}

impl From<Error> for Av1Error {
    ghost use Rattle.bitstream_formats.specs.Leb128.{becomes_av1};

    ghost from_gives = { becomes_av1 };

    fn from(error: Error) -> Av1Error {
        Av1Error::Reader(error)
    }
}

/// The elements of an OBU that are read.
type Obu<'r, 'a, 'b> = Syntax<'r, 'a, 'b, BE>;

/// The OBUs of a stream in the low-overhead format, or of a frame of a container.
#[derive(Drop)]
pub struct Obus<'a> {
    reader: SliceReader<'a, BE>,
    // True if an OBU without a size ends with the bytes.
    is_frame: bool,
}

impl<'a> Obus<'a> {
    /// Returns the OBUs of these bytes, each of which has its size.
    pub fn over(bytes: &'a [u8]) -> Obus<'a> {
        Obus {
            reader: SliceReader::over(bytes),
            is_frame: false,
        }
    }

    /// Returns the OBUs of a frame. The last one may have no size: it ends with the frame.
    pub fn of_frame(bytes: &'a [u8]) -> Obus<'a> {
        Obus {
            reader: SliceReader::over(bytes),
            is_frame: true,
        }
    }

    /// Returns the bytes from the next OBU on.
    pub fn rest(&self) -> &'a [u8] {
        self.reader.rest()
    }

    /// Reads an OBU, and appends the elements of its header and, for a sequence header, of its
    /// contents. Returns true if there was an OBU.
    ///
    /// # Errors
    ///
    /// The errors of [`Av1Error`]. The elements read before the error are appended. After an error in a
    /// sequence header, the next call reads the next OBU. After an error in the header of an OBU, no
    /// later OBU is found.
    pub fn next_obu(&mut self, elements: &mut Vec<Element>) -> Result<bool, At<Av1Error>> {
        if self.reader.is_at_end() {
            return Ok(false);
        }
        let mut syntax = Syntax {
            reader: &mut self.reader,
            elements,
            index: None,
            start: 0,
        };
        let (kind, size) = match read_header(&mut syntax) {
            Ok(header) => header,
            Err(error) => return Err(At {
                bit: self.reader.bits_read(),
                error,
            }),
        };
        let start = self.reader.bits_read();
        let mut part = match self.contents(size) {
            Ok(part) => part,
            Err(error) => return Err(At { bit: start, error }),
        };
        if kind != 1 {
            return Ok(true);
        }
        let mut syntax = Syntax {
            reader: &mut part,
            elements,
            index: None,
            start,
        };
        match read_whole_sequence(&mut syntax) {
            Ok(()) => Ok(true),
            Err(error) => Err(At {
                bit: start.saturating_add(part.bits_read()),
                error,
            }),
        }
    }

    /// Returns a reader of the contents of an OBU, which has a size or takes the rest of a frame.
    fn contents(&mut self, size: Option<u32>) -> Result<SliceReader<'a, BE>, Av1Error> {
        let size = match size {
            Some(size) => size as usize,
            None if self.is_frame => self.reader.rest().len(),
            None => return Err(Av1Error::NoSize),
        };
        Ok(self.reader.part(size)?)
    }
}

/// Reads a sequence header, and checks the bits after it: a 1, and zeros up to the end of the OBU.
fn read_whole_sequence(syntax: &mut Obu<'_, '_, '_>) -> Result<(), Av1Error> {
    read_sequence(syntax)?;
    if !syntax.flag("trailing_one_bit")? {
        return Err(Av1Error::NoTrailingOne);
    }
    for _ in 0..7 {
        if syntax.reader.byte_aligned() {
            break;
        }
        if syntax.reader.read_bit()? {
            return Err(Av1Error::BitAfterTrailingOne);
        }
    }
    if syntax.reader.rest().iter().any(|byte| *byte != 0) {
        return Err(Av1Error::BitAfterTrailingOne);
    }
    Ok(())
}

/// Reads the header of an OBU. Returns its type, and the number of bytes after the header if it states one.
fn read_header(syntax: &mut Obu<'_, '_, '_>) -> Result<(u32, Option<u32>), Av1Error> {
    if syntax.flag("obu_forbidden_bit")? {
        return Err(Av1Error::Forbidden);
    }
    let kind = syntax.number("obu_type", 4)?;
    let extension = syntax.flag("obu_extension_flag")?;
    let has_size = syntax.flag("obu_has_size_field")?;
    syntax.flag("obu_reserved_1bit")?;
    if extension {
        syntax.number("temporal_id", 3)?;
        syntax.number("spatial_id", 2)?;
        syntax.number("extension_header_reserved_3bits", 3)?;
    }
    if !has_size {
        return Ok((kind, None));
    }
    let place = syntax.place();
    let size = read_leb128(syntax.reader)?;
    syntax.note(place, "obu_size", size as i64)?;
    Ok((kind, Some(size)))
}
