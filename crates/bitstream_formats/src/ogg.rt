//! Ogg (RFC 3533): pages with their checksums and packets, and the first byte of a packet of Opus
//! (RFC 6716, section 3.1).

use crate::at::At;
use crate::crc::crc_byte;
use crate::element::{Element, Syntax};
use crate::ogg_header::{OggHeader, OggHeaderError};
use bitstream_io::{BE, BitRead, BitReadExt, Bits, Error, LE, SliceReader};

/// The reasons that a page is not read.
#[derive(Debug, Drop, thiserror::Error)]
pub enum OggError {
    /// The header was not read, or the bytes end before the page does.
    #[error(transparent)]
    Header(#[from] OggHeaderError),
    /// The checksum of the page differs from its bytes.
    #[error("the checksum of the page is wrong")]
    Checksum,
}

impl From<Error> for OggError {
    fn from(error: Error) -> OggError {
        OggError::Header(OggHeaderError::Reader(error))
    }
}

/// Returns the checksum of a page. The page's own checksum, in bytes 22 to 25, counts as zeros.
pub fn page_checksum(page: &[u8]) -> u32 {
    let mut crc = 0;
    for (at, byte) in page.iter().enumerate() {
        crc = crc_byte(crc, if (22..26).contains(&at) { 0 } else { *byte });
    }
    crc
}

/// The pages of a stream.
#[derive(Drop)]
pub struct Pages<'a> {
    reader: SliceReader<'a, LE>,
}

impl<'a> Pages<'a> {
    /// Returns the pages of these bytes.
    pub fn over(bytes: &'a [u8]) -> Pages<'a> {
        Pages {
            reader: SliceReader::over(bytes),
        }
    }

    /// Returns the bytes from the next page on.
    pub fn rest(&self) -> &'a [u8] {
        self.reader.rest()
    }

    /// Reads a page, and appends the elements of its header, the length of each packet that ends in it,
    /// and the first byte of each packet that begins in it, read as in Opus. Returns true if there was
    /// a page.
    ///
    /// # Errors
    ///
    /// The errors of [`OggError`]. The elements read before the error are appended.
    pub fn next_page(&mut self, elements: &mut Vec<Element>) -> Result<bool, At<OggError>> {
        if self.reader.is_at_end() {
            return Ok(false);
        }
        match read_page(&mut self.reader, elements) {
            Ok(()) => Ok(true),
            Err(error) => Err(At {
                bit: self.reader.bits_read(),
                error,
            }),
        }
    }
}

/// Reads a page.
fn read_page(
    reader: &mut SliceReader<'_, LE>,
    elements: &mut Vec<Element>,
) -> Result<(), OggError> {
    let bytes = reader.rest();
    let start = reader.bits_read();
    let header = OggHeader::read(reader)?;
    let mut syntax = Syntax {
        reader,
        elements,
        index: None,
        start: 0,
    };
    note_header(&mut syntax, start, &header)?;
    let laces = syntax.reader.take_bytes(header.segments as usize)?;
    read_packets(&mut syntax, laces, header.continued)?;
    let length = bytes.len().saturating_sub(syntax.reader.rest().len());
    let page = bytes.get(..length).unwrap_or(bytes);
    if page_checksum(page) != header.checksum {
        return Err(OggError::Checksum);
    }
    Ok(())
}

/// Notes the elements of a header that begins at some bit. The byte of flags is one element.
fn note_header(
    syntax: &mut Syntax<'_, '_, '_, LE>,
    start: u64,
    header: &OggHeader,
) -> Result<(), Error> {
    let flags = header.continued as u32
        + 2 * header.first as u32
        + 4 * header.last as u32
        + 8 * header.unused as u32;
    let elements = [
        Some(("capture_pattern", 0x5367_674f)),
        Some(("version", 0)),
        Some(("header_type", flags as i64)),
        None,
        None,
        None,
        Some(("granule_position", header.granule.cast_signed())),
        Some(("bitstream_serial_number", header.serial as i64)),
        Some(("page_sequence_number", header.sequence as i64)),
        Some(("CRC_checksum", header.checksum as i64)),
        Some(("page_segments", header.segments as i64)),
    ];
    for (at, element) in OggHeader::PLACES.into_iter().zip(elements) {
        if let Some((name, value)) = element {
            syntax.note(start.saturating_add(at), name, value)?;
        }
    }
    Ok(())
}

/// Reads the packets of a page. `goes_on` is true if the first one began in an earlier page.
fn read_packets(
    syntax: &mut Syntax<'_, '_, '_, LE>,
    laces: &[u8],
    goes_on: bool,
) -> Result<(), OggError> {
    let mut begins = !goes_on;
    let mut place = syntax.place();
    let mut length = 0i64;
    for lace in laces {
        let packet = syntax.reader.take_bytes(*lace as usize)?;
        length = length.saturating_add(*lace as i64);
        if begins {
            note_opus(syntax, packet, place)?;
        }
        begins = *lace < 255;
        if begins {
            syntax.note(place, "packet_length", length)?;
            place = syntax.place();
            length = 0;
        }
    }
    Ok(())
}

/// Notes the first byte of a packet, read as in Opus. Notes nothing if the packet has no byte.
fn note_opus(
    syntax: &mut Syntax<'_, '_, '_, LE>,
    packet: &[u8],
    place: u64,
) -> Result<(), OggError> {
    if packet.is_empty() {
        return Ok(());
    }
    let mut reader = SliceReader::<BE>::over(packet);
    let config = reader.read::<Bits<5>, u8>()?;
    let stereo = reader.read_bit()?;
    let code = reader.read::<Bits<2>, u8>()?;
    syntax.note(place, "config", config as i64)?;
    syntax.note(place.saturating_add(5), "s", stereo as i64)?;
    syntax.note(place.saturating_add(6), "c", code as i64)?;
    Ok(())
}
