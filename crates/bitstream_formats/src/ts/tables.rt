//! The tables of programs: the PIDs that have them, and the sections in their packets.

use super::programs::read_section;
use super::section::{Follows, Section};
use super::{PACKET, TsError, is_clear, read_header, read_pes};
use crate::at::At;
use crate::element::{Element, Syntax};
use crate::ts_header::TsHeader;
use bitstream_io::{BE, Error, SliceReader};
use std::alloc::{AllocError, Global};

/// The number of PIDs.
const PIDS: usize = 8192;

/// The byte that fills a packet after its last section.
const STUFFING: u8 = 0xff;

/// The PIDs with program maps.
#[derive(Drop)]
struct Maps {
    // For each PID, 0 if it has no program map, otherwise the number of the section that names it, plus 1.
    named: Vec<u16>,
}

impl Maps {
    /// Returns true if a PID has a program map.
    fn has(&self, id: u32) -> bool {
        match self.named.get(id as usize) {
            Some(named) => *named > 0,
            None => false,
        }
    }

    /// Keeps the PIDs that a section of the program association table names. `elements` are the
    /// elements of the section. These PIDs replace the PIDs of an earlier section with the same number.
    fn keep(&mut self, elements: &[Element]) -> Result<(), AllocError> {
        if value_of(elements, "current_next_indicator") != Some(1) {
            return Ok(());
        }
        let number = value_of(elements, "section_number").unwrap_or(0);
        let mark = (number & 0xff) as u16 + 1;
        self.named.resize(PIDS, 0)?;
        for named in self.named.as_mut_slice() {
            if *named == mark {
                *named = 0;
            }
        }
        self.mark(elements, mark);
        Ok(())
    }

    /// Marks the PIDs that are named.
    fn mark(&mut self, elements: &[Element], mark: u16) {
        for element in elements {
            if element.name == "program_map_PID"
                && let Some(named) = self.named.get_mut((element.value & 0x1fff) as usize)
            {
                *named = mark;
            }
        }
    }
}

/// Returns the value of the first element with this name.
fn value_of(elements: &[Element], name: &str) -> Option<i64> {
    for element in elements {
        if element.name == name {
            return Some(element.value);
        }
    }
    None
}

/// The tables of programs of a stream: the program association table, and the program maps that it
/// names. A section of the former replaces an earlier section with the same number. An incomplete
/// section takes memory for its bytes, at most 4 KiB for each PID.
#[derive(Drop)]
pub struct Tables {
    maps: Maps,
    // The sections that are being read, one for each PID.
    sections: Vec<Section>,
}

impl Tables {
    /// Returns tables without a section.
    pub fn new(alloc: Global) -> Tables {
        Tables {
            maps: Maps {
                named: Vec::new(alloc),
            },
            sections: Vec::new(alloc),
        }
    }

    /// Returns true if the packets of a PID have sections of a table of programs.
    pub fn has(&self, id: u32) -> bool {
        id == 0 || self.maps.has(id)
    }

    /// Reads a packet of [`PACKET`] bytes that begins at the bit `place` of a stream. Appends the elements of its
    /// header and of its adaptation field. Also appends the elements of the header of a PES packet that begins in
    /// it, or of the sections of a table of programs that end in it. The places of elements are counted in bits of
    /// the stream. An element of a section may be in an earlier packet.
    ///
    /// A packet with the same counter as the packet before it is a copy: its sections are not read again.
    ///
    /// # Errors
    ///
    /// The errors of [`TsError`]. The elements read before the error are appended. After an error in a
    /// section, the rest of the packet is skipped.
    pub fn read_packet(
        &mut self,
        alloc: Global,
        packet: &[u8],
        place: u64,
        elements: &mut Vec<Element>,
    ) -> Result<(), At<TsError>> {
        if packet.len() < PACKET {
            return Err(too_short(place));
        }
        let mut reader = SliceReader::<BE>::over(packet);
        let mut syntax = Syntax {
            reader: &mut reader,
            elements: &mut *elements,
            index: None,
            start: place,
        };
        match read_contents(&mut syntax, self) {
            Ok(None) => Ok(()),
            Ok(Some(header)) => {
                let payload = Payload {
                    bytes: reader.rest(),
                    place: place.saturating_add(reader.bits_read()),
                };
                self.read_sections(alloc, header, payload, elements)
            }
            Err(error) => Err(At {
                bit: place.saturating_add(reader.bits_read()),
                error,
            }),
        }
    }

    /// Reads the sections in the payload of a packet.
    fn read_sections(
        &mut self,
        alloc: Global,
        header: TsHeader,
        payload: Payload<'_>,
        elements: &mut Vec<Element>,
    ) -> Result<(), At<TsError>> {
        let place = payload.place;
        let Ok(number) = self.number_of(alloc, header.pid as u32) else {
            return Err(no_memory(place));
        };
        let Some(section) = self.sections.get_mut(number) else {
            return Ok(());
        };
        let follows = section.follow(header.continuity as u32);
        if follows == Follows::Copy {
            return Ok(());
        }
        let lost = follows == Follows::Gap && section.is_open();
        if lost {
            section.clear();
        }
        if header.starts {
            begin(&mut self.maps, section, payload, elements)?;
        } else if section.is_open() {
            feed(&mut self.maps, section, payload, elements)?;
        }
        if lost {
            return Err(At {
                bit: place,
                error: TsError::MissingPacket,
            });
        }
        Ok(())
    }

    /// Returns the number of the section of a PID, which is added if there is none.
    fn number_of(&mut self, alloc: Global, id: u32) -> Result<usize, AllocError> {
        for (number, section) in self.sections.iter().enumerate() {
            if section.id() == id {
                return Ok(number);
            }
        }
        self.sections.push(Section::new(alloc, id))?;
        Ok(self.sections.len().saturating_sub(1))
    }
}

/// The bytes of a packet after its header, and the bit of the stream at which they begin.
#[derive(Clone, Copy)]
struct Payload<'a> {
    bytes: &'a [u8],
    place: u64,
}

impl<'a> Payload<'a> {
    /// Returns `bytes`, which are the last of these bytes, with their place.
    fn rest(&self, bytes: &'a [u8]) -> Payload<'a> {
        let before = self.bytes.len().saturating_sub(bytes.len()) as u64;
        Payload {
            bytes,
            place: self.place.saturating_add(before.saturating_mul(8)),
        }
    }
}

/// Returns the error of a failed allocation.
fn no_memory(bit: u64) -> At<TsError> {
    At {
        bit,
        error: TsError::Reader(Error::OutOfMemory),
    }
}

/// Returns the error of a packet that ends early.
fn too_short(bit: u64) -> At<TsError> {
    At {
        bit,
        error: TsError::Reader(Error::EndOfInput),
    }
}

/// Reads a packet up to its payload, and the header of a PES packet that begins in it. Returns the
/// packet's header if its payload has sections of a table of programs.
fn read_contents(
    syntax: &mut Syntax<'_, '_, '_, BE>,
    tables: &Tables,
) -> Result<Option<TsHeader>, TsError> {
    let header = read_header(syntax)?;
    if !is_clear(&header) {
        return Ok(None);
    }
    if tables.has(header.pid as u32) {
        return Ok(Some(header));
    }
    if header.starts && (0x20..0x1fff).contains(&(header.pid as u32)) {
        read_pes(syntax)?;
    }
    Ok(None)
}

/// Reads the sections in a payload in which one begins: the rest of the section before it, and the
/// sections from the byte that the pointer field names.
fn begin(
    maps: &mut Maps,
    section: &mut Section,
    payload: Payload<'_>,
    elements: &mut Vec<Element>,
) -> Result<(), At<TsError>> {
    let place = payload.place;
    let Some((pointer, rest)) = payload.bytes.split_first() else {
        return Err(too_short(place));
    };
    let noted = elements.push(Element {
        place,
        name: "pointer_field",
        index: None,
        value: *pointer as i64,
    });
    if noted.is_err() {
        return Err(no_memory(place));
    }
    let Some((before, behind)) = rest.split_at_checked(*pointer as usize) else {
        return Err(too_short(place));
    };
    let mut cut = false;
    if section.is_open() {
        let before = Payload {
            bytes: before,
            place: place.saturating_add(8),
        };
        feed(maps, section, before, elements)?;
        cut = section.is_open();
        section.clear();
    }
    feed(maps, section, payload.rest(behind), elements)?;
    if cut {
        return Err(At {
            bit: place,
            error: TsError::SectionCut,
        });
    }
    Ok(())
}

/// Reads the sections in some bytes. The last one may continue in the next packet.
fn feed(
    maps: &mut Maps,
    section: &mut Section,
    bytes: Payload<'_>,
    elements: &mut Vec<Element>,
) -> Result<(), At<TsError>> {
    let mut rest = bytes;
    for _ in 0..bytes.bytes.len() {
        if rest.bytes.is_empty() || (!section.is_open() && rest.bytes.first() == Some(&STUFFING)) {
            break;
        }
        let Ok(behind) = section.take(rest.bytes, rest.place) else {
            return Err(no_memory(rest.place));
        };
        rest = rest.rest(behind);
        if section.is_whole() {
            let read = finish(maps, section, elements);
            section.clear();
            read?;
        }
    }
    Ok(())
}

/// Reads a whole section, and keeps the program maps that it names.
fn finish(
    maps: &mut Maps,
    section: &Section,
    elements: &mut Vec<Element>,
) -> Result<(), At<TsError>> {
    let from = elements.len();
    let read = read_section(section.id(), section.bytes(), elements);
    section.move_places(elements, from);
    if let Err(At { bit, error }) = read {
        return Err(At {
            bit: section.place_of(bit),
            error,
        });
    }
    let new = elements.as_slice().get(from..).unwrap_or(&[]);
    if section.id() == 0 && maps.keep(new).is_err() {
        return Err(no_memory(section.place_of(0)));
    }
    Ok(())
}
