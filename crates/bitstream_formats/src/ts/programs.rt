//! The tables of programs (section 2.4.4): the program association table, and program maps.

use super::{Packet, TsError};
use crate::at::At;
use crate::crc::crc_byte;
use crate::element::{Element, Index, Syntax};
use bitstream_io::{BE, Error, SliceReader};

/// The greatest length of a section of these tables.
const LONGEST: u32 = 1021;

/// The greatest number of entries in a section of at most 1,024 bytes.
const ENTRIES: u32 = 256;

/// Returns the checksum of a section. It is 0 for a section that ends with its correct checksum.
pub fn section_checksum(section: &[u8]) -> u32 {
    let mut crc = 0xffff_ffff;
    for byte in section {
        crc = crc_byte(crc, *byte);
    }
    crc
}

/// Reads a whole section of a PID, and appends its elements, with their places in the section. If the
/// section is not of a table of programs, it reads only the start.
///
/// # Errors
///
/// The errors of [`TsError`]. The elements read before the error are appended.
pub(super) fn read_section(
    id: u32,
    section: &[u8],
    elements: &mut Vec<Element>,
) -> Result<(), At<TsError>> {
    let mut reader = SliceReader::<BE>::over(section);
    let mut syntax = Syntax {
        reader: &mut reader,
        elements,
        index: None,
        start: 0,
    };
    match read_table(&mut syntax, id, section) {
        Ok(()) => Ok(()),
        Err(error) => Err(At {
            bit: reader.bits_read(),
            error,
        }),
    }
}

/// Reads the table of a section, and checks it.
fn read_table(syntax: &mut Packet<'_, '_, '_>, id: u32, section: &[u8]) -> Result<(), TsError> {
    let table = syntax.number("table_id", 8)?;
    syntax.flag("section_syntax_indicator")?;
    syntax.bits(3)?;
    let length = syntax.number("section_length", 12)?;
    if table != if id == 0 { 0 } else { 2 } {
        return Ok(());
    }
    if length > LONGEST {
        return Err(TsError::SectionTooLong(length));
    }
    let end = (section.len() as u64).saturating_sub(4).saturating_mul(8);
    if id == 0 {
        read_association(syntax, end)?;
    } else {
        read_map(syntax, end)?;
    }
    syntax.number("CRC_32", 32)?;
    if section_checksum(section) != 0 {
        return Err(TsError::SectionChecksum);
    }
    Ok(())
}

/// Reads the version and the number of a section.
fn read_version(syntax: &mut Packet<'_, '_, '_>) -> Result<(), Error> {
    syntax.bits(2)?;
    syntax.number("version_number", 5)?;
    syntax.flag("current_next_indicator")?;
    syntax.number("section_number", 8)?;
    syntax.number("last_section_number", 8)?;
    Ok(())
}

/// Reads the part of the program association table between its length and a bit of the section.
fn read_association(syntax: &mut Packet<'_, '_, '_>, end: u64) -> Result<(), Error> {
    syntax.number("transport_stream_id", 16)?;
    read_version(syntax)?;
    for at in 0..ENTRIES {
        if syntax.place() >= end {
            break;
        }
        syntax.index = Some(Index::One(at));
        let program = syntax.number("program_number", 16)?;
        syntax.bits(3)?;
        let name = if program == 0 {
            "network_PID"
        } else {
            "program_map_PID"
        };
        syntax.number(name, 13)?;
    }
    syntax.index = None;
    Ok(())
}

/// Reads the part of a program map between its length and a bit of the section.
fn read_map(syntax: &mut Packet<'_, '_, '_>, end: u64) -> Result<(), TsError> {
    syntax.number("program_number", 16)?;
    read_version(syntax)?;
    syntax.bits(3)?;
    syntax.number("PCR_PID", 13)?;
    syntax.bits(4)?;
    let length = syntax.number("program_info_length", 12)?;
    read_descriptors(syntax, length, None)?;
    for at in 0..ENTRIES {
        if syntax.place() >= end {
            break;
        }
        syntax.index = Some(Index::One(at));
        syntax.number("stream_type", 8)?;
        syntax.bits(3)?;
        syntax.number("elementary_PID", 13)?;
        syntax.bits(4)?;
        let length = syntax.number("ES_info_length", 12)?;
        read_descriptors(syntax, length, Some(at))?;
    }
    syntax.index = None;
    Ok(())
}

/// Reads the descriptors of a program or of one of its streams, of `length` bytes.
fn read_descriptors(
    syntax: &mut Packet<'_, '_, '_>,
    length: u32,
    stream: Option<u32>,
) -> Result<(), TsError> {
    let end = syntax
        .place()
        .saturating_add((length as u64).saturating_mul(8));
    for at in 0..length {
        if syntax.place() >= end {
            break;
        }
        read_descriptor(syntax, stream, at)?;
    }
    syntax.index = None;
    if syntax.place() > end {
        return Err(TsError::DescriptorTooLong);
    }
    Ok(())
}

/// Reads a descriptor as bytes.
fn read_descriptor(
    syntax: &mut Packet<'_, '_, '_>,
    stream: Option<u32>,
    number: u32,
) -> Result<(), Error> {
    syntax.index = Some(match stream {
        None => Index::One(number),
        Some(stream) => Index::Two(stream, number),
    });
    syntax.number("descriptor_tag", 8)?;
    let length = syntax.number("descriptor_length", 8)?;
    for at in 0..length {
        syntax.index = Some(match stream {
            None => Index::Two(number, at),
            Some(stream) => Index::Three(stream, number, at),
        });
        syntax.number("descriptor_byte", 8)?;
    }
    Ok(())
}
