//! ADTS, the frames of AAC in a stream (ISO/IEC 14496-3, section 1.A).
ghost use Rattle.std.specs.Prelude.{◌≡◌, IfOk, IfSome};
ghost use Rattle.bitstream_formats.specs.AdtsFrame.{HasHeader, header_bytes};

use crate::adts_header::{AdtsHeader, AdtsHeaderError};
use crate::at::At;
use crate::element::{Element, Index, Syntax};
use bitstream_io::{BE, BitRead, Error, SliceReader};

/// Errors of [`Frames::next_frame`].
#[derive(Debug, Drop, thiserror::Error)]
pub enum AdtsError {
    /// The header was not read, or the bytes end before the frame does.
    #[error(transparent)]
    Header(#[from] AdtsHeaderError),
    /// The length of the frame is less than the length of its header.
    #[error("the frame is shorter than its header")]
    FrameTooShort,
}

impl From<Error> for AdtsError {
    fn from(error: Error) -> AdtsError {
        AdtsError::Header(AdtsHeaderError::Reader(error))
    }
}

/// The frames of a stream.
#[derive(Drop)]
pub struct Frames<'a> {
    reader: SliceReader<'a, BE>,
}

impl<'a> Frames<'a> {
    /// Returns the frames of these bytes.
    pub fn over(bytes: &'a [u8]) -> Frames<'a> {
        Frames {
            reader: SliceReader::over(bytes),
        }
    }

    /// Returns the bytes from the next frame on.
    pub fn rest(&self) -> &'a [u8] {
        self.reader.rest()
    }

    /// Reads a frame, and appends the elements of its header. If the header has a checksum, these
    /// include the places of the raw data blocks. Returns the header, or `None` at the end.
    ///
    /// # Errors
    ///
    /// The errors of [`AdtsError`]. The elements read before the error are appended: before
    /// `FrameTooShort`, they include the checksum.
    pub fn next_frame(
        &mut self,
        elements: &mut Vec<Element>,
    ) -> Result<Option<AdtsHeader>, At<AdtsError>>
        ensures { IfOk result (λ header. IfSome header HasHeader) }
    {
        if self.reader.is_at_end() {
            return Ok(None);
        }
        match read_frame(&mut self.reader, elements) {
            Ok(header) => Ok(Some(header)),
            Err(error) => Err(At {
                bit: self.reader.bits_read(),
                error,
            }),
        }
    }
}

/// Reads a frame.
fn read_frame(
    reader: &mut SliceReader<'_, BE>,
    elements: &mut Vec<Element>,
) -> Result<AdtsHeader, AdtsError>
    ensures { IfOk result HasHeader }
{
    let start = reader.bits_read();
    let header = AdtsHeader::read(reader)?;
    let mut syntax = Syntax {
        reader,
        elements,
        index: None,
        start: 0,
    };
    note_header(&mut syntax, start, &header)?;
    if !header.protection_absent {
        read_checksum(&mut syntax, header.blocks)?;
    }
    let length = header.frame_length as usize;
    let before = header_bytes(&header);
    if length < before {
        return Err(AdtsError::FrameTooShort);
    }
    let _blocks = syntax.reader.take_bytes(length - before)?;
    Ok(header)
}

/// Returns the bytes of a frame before its first raw data block.
fn header_bytes(header: &AdtsHeader) -> usize
    ensures { result ≡ header_bytes header.now }
{
    if header.protection_absent {
        7
    } else {
        9 + 2 * header.blocks as usize
    }
}

/// Reads the checksum of a header, after the places of all raw data blocks but the first. `blocks` is
/// the number of places.
fn read_checksum(syntax: &mut Syntax<'_, '_, '_, BE>, blocks: u8) -> Result<(), Error> {
    for at in 0..blocks as u32 {
        syntax.index = Some(Index::One(at.saturating_add(1)));
        syntax.number("raw_data_block_position", 16)?;
    }
    syntax.index = None;
    syntax.number("crc_check", 16)?;
    Ok(())
}

/// Notes the elements of a header that begins at some bit.
fn note_header(
    syntax: &mut Syntax<'_, '_, '_, BE>,
    start: u64,
    header: &AdtsHeader,
) -> Result<(), Error> {
    let elements = [
        ("syncword", 0xfff),
        ("ID", header.mpeg_2 as i64),
        ("layer", 0),
        ("protection_absent", header.protection_absent as i64),
        ("profile_ObjectType", header.profile as i64),
        ("sampling_frequency_index", header.frequency as i64),
        ("private_bit", header.private as i64),
        ("channel_configuration", header.channels as i64),
        ("original_copy", header.original as i64),
        ("home", header.home as i64),
        ("copyright_identification_bit", header.copyright_id as i64),
        (
            "copyright_identification_start",
            header.copyright_start as i64,
        ),
        ("aac_frame_length", header.frame_length as i64),
        ("adts_buffer_fullness", header.fullness as i64),
        ("number_of_raw_data_blocks_in_frame", header.blocks as i64),
    ];
    for (at, (name, value)) in AdtsHeader::PLACES.into_iter().zip(elements) {
        syntax.note(start.saturating_add(at), name, value)?;
    }
    Ok(())
}
