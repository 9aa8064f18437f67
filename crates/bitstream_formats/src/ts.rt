//! MPEG transport streams (ISO/IEC 13818-1): packets with their adaptation fields, the headers of the
//! PES packets that begin in them, and the tables of programs.

use crate::at::At;
use crate::element::{Element, Syntax};
use crate::ts_header::{TsHeader, TsHeaderError};
use bitstream_io::{BE, Error, SliceReader};
use std::alloc::Global;

mod programs;
mod section;
mod tables;

pub use tables::Tables;

/// The bytes of a packet.
pub const PACKET: usize = 188;

/// The reasons that a packet is not read.
#[derive(Debug, Drop, thiserror::Error)]
pub enum TsError {
    /// The bits were not read: the contents of the packet or of a section do not fit in it.
    #[error("{0}")]
    Reader(Error),
    /// The header of the packet was not read.
    #[error(transparent)]
    Header(#[from] TsHeaderError),
    /// A section of a table of programs has more bytes after its length than are allowed.
    #[error("the section has {0} bytes, and at most 1021 are allowed")]
    SectionTooLong(u32),
    /// The checksum of a section differs from its bytes.
    #[error("the checksum of the section is wrong")]
    SectionChecksum,
    /// A descriptor continues after the end of its list.
    #[error("a descriptor goes on after the end of its list")]
    DescriptorTooLong,
    /// A packet before this one is missing, so a section is not whole.
    #[error("a packet is missing, and a section is not whole")]
    MissingPacket,
    /// A section begins before the previous section ends.
    #[error("a section begins before the last one ends")]
    SectionCut,
}

impl From<Error> for TsError {
    fn from(error: Error) -> TsError {
        TsError::Reader(error)
    }
}

/// The packets of a stream.
#[derive(Drop)]
pub struct Packets<'a> {
    reader: SliceReader<'a, BE>,
    tables: Tables,
}

impl<'a> Packets<'a> {
    /// Returns the packets of these bytes.
    pub fn over(alloc: Global, bytes: &'a [u8]) -> Packets<'a> {
        Packets {
            reader: SliceReader::over(bytes),
            tables: Tables::new(alloc),
        }
    }

    /// Returns the bytes from the next packet on.
    pub fn rest(&self) -> &'a [u8] {
        self.reader.rest()
    }

    /// Reads a packet, and appends its elements, as [`Tables::read_packet`] does. Returns true if
    /// there was a packet.
    ///
    /// # Errors
    ///
    /// The errors of [`TsError`]. The elements read before the error are appended.
    pub fn next_packet(
        &mut self,
        alloc: Global,
        elements: &mut Vec<Element>,
    ) -> Result<bool, At<TsError>> {
        if self.reader.is_at_end() {
            return Ok(false);
        }
        let place = self.reader.bits_read();
        match self.reader.take_bytes(PACKET) {
            Ok(packet) => {
                self.tables.read_packet(alloc, packet, place, elements)?;
                Ok(true)
            }
            Err(error) => Err(At {
                bit: place,
                error: TsError::Reader(error),
            }),
        }
    }
}

type Packet<'r, 'a, 'b> = Syntax<'r, 'a, 'b, BE>;

/// Returns true if a packet has a payload, which is not scrambled.
fn is_clear(header: &TsHeader) -> bool {
    header.payload && header.scrambling == 0
}

/// Reads the header of a packet, and its adaptation field.
fn read_header(syntax: &mut Packet<'_, '_, '_>) -> Result<TsHeader, TsError> {
    let start = syntax.place();
    let header = TsHeader::read(&mut *syntax.reader)?;
    note_header(syntax, start, &header)?;
    if header.adapted {
        read_adaptation(syntax)?;
    }
    Ok(header)
}

/// Notes the elements of a header that begins at some bit. The two bits of the adaptation field and of the
/// payload are one element.
fn note_header(
    syntax: &mut Packet<'_, '_, '_>,
    start: u64,
    header: &TsHeader,
) -> Result<(), Error> {
    let control = 2 * header.adapted as i64 + header.payload as i64;
    let elements = [
        Some(("sync_byte", 0x47)),
        Some(("transport_error_indicator", header.damaged as i64)),
        Some(("payload_unit_start_indicator", header.starts as i64)),
        Some(("transport_priority", header.priority as i64)),
        Some(("PID", header.pid as i64)),
        Some(("transport_scrambling_control", header.scrambling as i64)),
        Some(("adaptation_field_control", control)),
        None,
        Some(("continuity_counter", header.continuity as i64)),
    ];
    for (at, element) in TsHeader::PLACES.into_iter().zip(elements) {
        if let Some((name, value)) = element {
            syntax.note(start.saturating_add(at), name, value)?;
        }
    }
    Ok(())
}

/// Reads an adaptation field.
fn read_adaptation(syntax: &mut Packet<'_, '_, '_>) -> Result<(), TsError> {
    let length = syntax.number("adaptation_field_length", 8)? as usize;
    let start = syntax.place();
    let mut part = syntax.reader.part(length)?;
    if length == 0 {
        return Ok(());
    }
    let mut field = Syntax {
        reader: &mut part,
        elements: &mut *syntax.elements,
        index: None,
        start,
    };
    field.flag("discontinuity_indicator")?;
    field.flag("random_access_indicator")?;
    field.flag("elementary_stream_priority_indicator")?;
    let has_pcr = field.flag("PCR_flag")?;
    let has_opcr = field.flag("OPCR_flag")?;
    let splices = field.flag("splicing_point_flag")?;
    let has_private = field.flag("transport_private_data_flag")?;
    field.flag("adaptation_field_extension_flag")?;
    if has_pcr {
        read_clock(&mut field, "program_clock_reference")?;
    }
    if has_opcr {
        read_clock(&mut field, "original_program_clock_reference")?;
    }
    if splices {
        field.number("splice_countdown", 8)?;
    }
    if has_private {
        field.number("transport_private_data_length", 8)?;
    }
    Ok(())
}

/// Reads a clock of 27 MHz: 33 bits that count units of 300 ticks, and 9 bits that count ticks.
fn read_clock(field: &mut Packet<'_, '_, '_>, name: &'static str) -> Result<(), TsError> {
    let place = field.place();
    let base = field.bits(33)?;
    field.bits(6)?;
    let extension = field.bits(9)?;
    field.note(place, name, (base * 300 + extension) as i64)?;
    Ok(())
}

/// Returns true if the header of a PES packet of this stream has only its length.
fn is_bare(id: u32) -> bool {
    matches!(id, 0xbc | 0xbe | 0xbf | 0xf0 | 0xf1 | 0xf2 | 0xf8 | 0xff)
}

/// Reads the header of a PES packet if a PES packet begins here, and not a section of a table.
fn read_pes(syntax: &mut Packet<'_, '_, '_>) -> Result<(), TsError> {
    if !syntax.reader.rest().starts_with([0, 0, 1].as_slice()) {
        return Ok(());
    }
    syntax.number("packet_start_code_prefix", 24)?;
    let id = syntax.number("stream_id", 8)?;
    syntax.number("PES_packet_length", 16)?;
    if is_bare(id) {
        return Ok(());
    }
    syntax.number("marker", 2)?;
    syntax.number("PES_scrambling_control", 2)?;
    syntax.flag("PES_priority")?;
    syntax.flag("data_alignment_indicator")?;
    syntax.flag("copyright")?;
    syntax.flag("original_or_copy")?;
    let stamps = syntax.number("PTS_DTS_flags", 2)?;
    syntax.flag("ESCR_flag")?;
    syntax.flag("ES_rate_flag")?;
    syntax.flag("DSM_trick_mode_flag")?;
    syntax.flag("additional_copy_info_flag")?;
    syntax.flag("PES_CRC_flag")?;
    syntax.flag("PES_extension_flag")?;
    syntax.number("PES_header_data_length", 8)?;
    if stamps >= 2 {
        read_time_stamp(syntax, "PTS")?;
    }
    if stamps == 3 {
        read_time_stamp(syntax, "DTS")?;
    }
    Ok(())
}

/// Reads a time stamp of 33 bits, in units of 90 kHz: three parts with a bit after each.
fn read_time_stamp(syntax: &mut Packet<'_, '_, '_>, name: &'static str) -> Result<(), TsError> {
    let place = syntax.place();
    syntax.bits(4)?;
    let high = syntax.bits(3)?;
    syntax.bits(1)?;
    let middle = syntax.bits(15)?;
    syntax.bits(1)?;
    let low = syntax.bits(15)?;
    syntax.bits(1)?;
    syntax.note(place, name, ((high << 30) + (middle << 15) + low) as i64)?;
    Ok(())
}
