//! The pages of Ogg, and the packets of MPEG transport streams.

use crate::unit::{Fault, ReadUnits, Step, Unit};
use anyhow::Error;
use bitstream_formats::element::Index;
use bitstream_formats::{ogg, ts};
use std::alloc::{AllocError, Global};
use std::io::Write;

/// The pages of an Ogg file.
#[derive(Drop)]
pub struct OggUnits<'a> {
    file: &'a [u8],
    at: usize,
    // The logical streams of which the first page was read.
    streams: Vec<Stream>,
}

/// A logical stream of Ogg.
#[derive(Clone, Copy, Debug)]
struct Stream {
    serial: i64,
    codec: &'static str,
}

/// The greatest number of logical streams whose codecs are kept.
const STREAMS: usize = 256;

impl<'a> OggUnits<'a> {
    /// Returns the pages of a file.
    pub fn over(alloc: Global, file: &'a [u8]) -> OggUnits<'a> {
        OggUnits {
            file,
            at: 0,
            streams: Vec::new(alloc),
        }
    }

    /// Returns the codec of the page that was read. The first packet of a stream names it.
    fn codec_of(&mut self, unit: &Unit, page: &[u8]) -> Result<&'static str, AllocError> {
        let serial = unit.value_of("bitstream_serial_number").unwrap_or(0);
        let begins = unit.value_of("header_type").unwrap_or(0) & 2 != 0;
        if begins {
            let segments = unit.value_of("page_segments").unwrap_or(0).max(0) as usize;
            let packet = page.get(27 + segments..).unwrap_or(&[]);
            let codec = codec(packet);
            self.keep(Stream { serial, codec })?;
            return Ok(codec);
        }
        for stream in self.streams.as_slice() {
            if stream.serial == serial {
                return Ok(stream.codec);
            }
        }
        Ok("unknown")
    }

    /// Keeps a stream, in place of an earlier stream with the same number.
    fn keep(&mut self, stream: Stream) -> Result<(), AllocError> {
        for kept in self.streams.as_mut_slice() {
            if kept.serial == stream.serial {
                *kept = stream;
                return Ok(());
            }
        }
        if self.streams.len() < STREAMS {
            self.streams.push(stream)?;
        }
        Ok(())
    }
}

/// Returns the name of the codec whose first packet this is.
fn codec(packet: &[u8]) -> &'static str {
    let codecs: [(&[u8], &str); 9] = [
        (b"OpusHead", "Opus"),
        (b"\x01vorbis", "Vorbis"),
        (b"\x7fFLAC", "FLAC"),
        (b"Speex   ", "Speex"),
        (b"\x80theora", "Theora"),
        (b"fishead\0", "Skeleton"),
        (b"BBCD\0", "Dirac"),
        (b"\x80kate", "Kate"),
        (b"OVP80", "VP8"),
    ];
    for (magic, name) in codecs {
        if packet.starts_with(magic) {
            return name;
        }
    }
    "unknown"
}

impl ReadUnits for OggUnits<'_> {
    fn next_unit<W: Write>(
        &mut self,
        alloc: Global,
        unit: &mut Unit,
        _out: &mut W,
    ) -> Result<Step, Error> {
        let start = self.at;
        let bytes = self.file.get(start..).unwrap_or(&[]);
        if bytes.is_empty() {
            return Ok(Step::End);
        }
        unit.begin("page", start as u64);
        let mut pages = ogg::Pages::over(bytes);
        let read = pages.next_page(&mut unit.elements);
        let left = pages.rest().len();
        let codec = self.codec_of(unit, bytes)?;
        if codec != "Opus" {
            unit.elements
                .retain(|element| !matches!(element.name, "config" | "s" | "c"));
        }
        unit.move_places(start as u64);
        unit.note_text("codec", None, String::from_str(alloc, codec)?)?;
        self.at = match &read {
            Ok(_) => self.file.len().saturating_sub(left),
            Err(_) => find(self.file, start.saturating_add(1), b"OggS"),
        };
        Ok(Step::of(alloc, read, 0)?)
    }

    fn bytes_done(&self) -> u64 {
        self.at as u64
    }
}

/// Returns the place of the next `pattern` from a place on, or the place of the end if there is none.
fn find(bytes: &[u8], from: usize, pattern: &[u8]) -> usize {
    for at in from..bytes.len() {
        if bytes.get(at..).unwrap_or(&[]).starts_with(pattern) {
            return at;
        }
    }
    bytes.len()
}

/// The packets of a transport stream: of 188 bytes, or of 192 bytes with a time stamp before each packet, as in M2TS.
#[derive(Drop)]
pub struct TsUnits<'a> {
    file: &'a [u8],
    at: usize,
    // The number of bytes before each packet: 4 or 0.
    stamp: usize,
    tables: ts::Tables,
}

/// The first byte of a packet.
const SYNC: u8 = 0x47;

impl<'a> TsUnits<'a> {
    /// Returns the packets of a file.
    pub fn over(alloc: Global, file: &'a [u8]) -> TsUnits<'a> {
        let is_sync = |at: usize| file.get(at) == Some(&SYNC);
        let plain = is_sync(0) && (file.len() <= ts::PACKET || is_sync(ts::PACKET));
        let stamped = is_sync(4) && (file.len() <= ts::PACKET + 4 || is_sync(ts::PACKET + 8));
        TsUnits {
            file,
            at: 0,
            stamp: if stamped && !plain { 4 } else { 0 },
            tables: ts::Tables::new(alloc),
        }
    }

    /// Returns the place of the next packet from a place on, or of the end. Another packet or the end must follow it.
    fn find_packet(&self, from: usize) -> usize {
        let size = ts::PACKET.saturating_add(self.stamp);
        for at in from..self.file.len() {
            let first = at.saturating_add(self.stamp);
            let next = first.saturating_add(size);
            let follows = next >= self.file.len() || self.file.get(next) == Some(&SYNC);
            if follows && self.file.get(first) == Some(&SYNC) {
                return at;
            }
        }
        self.file.len()
    }
}

impl ReadUnits for TsUnits<'_> {
    fn next_unit<W: Write>(
        &mut self,
        alloc: Global,
        unit: &mut Unit,
        _out: &mut W,
    ) -> Result<Step, Error> {
        let start = self.at;
        let bytes = self.file.get(start..).unwrap_or(&[]);
        if bytes.is_empty() {
            return Ok(Step::End);
        }
        unit.begin("packet", start as u64);
        let packet = bytes.get(self.stamp..).unwrap_or(&[]);
        let one = packet.get(..ts::PACKET).unwrap_or(packet);
        if one.is_empty() {
            self.at = self.file.len();
            return Ok(Step::Refused(Fault::of(alloc, 0, "end of input")?));
        }
        let first = start.saturating_add(self.stamp) as u64;
        let place = first.saturating_mul(8);
        let read = self
            .tables
            .read_packet(alloc, one, place, &mut unit.elements);
        note_table(alloc, unit)?;
        if self.stamp == 4 {
            push_stamp(unit, start as u64, bytes)?;
        }
        let end = (first as usize)
            .saturating_add(ts::PACKET)
            .min(self.file.len());
        self.at = if one.first() == Some(&SYNC) {
            end
        } else {
            self.find_packet(start.saturating_add(1))
        };
        Ok(Step::of(alloc, read, place)?)
    }

    fn bytes_done(&self) -> u64 {
        self.at as u64
    }
}

/// Appends the elements of the time stamp before a packet of M2TS, at a byte of the file.
fn push_stamp(unit: &mut Unit, byte: u64, bytes: &[u8]) -> Result<(), AllocError> {
    let [a, b, c, d, ..] = bytes else {
        return Ok(());
    };
    let stamp = u32::from_be_bytes([*a, *b, *c, *d]);
    let place = byte.saturating_mul(8);
    unit.push(place, "copy_permission_indicator", (stamp >> 30) as i64)?;
    unit.push(
        place.saturating_add(2),
        "arrival_time_stamp",
        (stamp & 0x3fff_ffff) as i64,
    )
}

/// Names the table of programs of the sections that end in a packet, and the types of a program's streams.
fn note_table(alloc: Global, unit: &mut Unit) -> Result<(), AllocError> {
    if unit.value_of("transport_stream_id").is_some() {
        unit.kind = "PAT";
    } else if unit.value_of("PCR_PID").is_some() {
        unit.kind = "PMT";
    }
    let mut types = Vec::new(alloc);
    for element in unit.elements.as_slice() {
        if let ("stream_type", Some(Index::One(at))) = (element.name, element.index) {
            types.push((at, element.value))?;
        }
    }
    for (at, kind) in types.as_slice() {
        let name = String::from_str(alloc, stream_type(*kind))?;
        unit.note_text("stream_type_name", Some(*at), name)?;
    }
    Ok(())
}

/// Returns the name of a stream type (table 2-34 of ISO/IEC 13818-1, and three types of ATSC and SCTE).
fn stream_type(kind: i64) -> &'static str {
    match kind {
        0x01 => "MPEG-1 video",
        0x02 => "MPEG-2 video",
        0x03 => "MPEG-1 audio",
        0x04 => "MPEG-2 audio",
        0x05 => "private sections",
        0x06 => "private data in PES packets",
        0x07 => "MHEG",
        0x08 | 0x0a..=0x0d => "DSM-CC",
        0x0e => "auxiliary data",
        0x0f => "AAC in ADTS",
        0x10 => "MPEG-4 video",
        0x11 => "AAC in LATM",
        0x12 => "MPEG-4 systems in PES packets",
        0x13 => "MPEG-4 systems in sections",
        0x14 => "synchronized download",
        0x15 => "metadata in PES packets",
        0x16 => "metadata in sections",
        0x17..=0x19 => "metadata in a carousel or download",
        0x1a => "IPMP",
        0x1b => "H.264 video",
        0x1c => "MPEG-4 audio",
        0x1d => "MPEG-4 text",
        0x1e => "auxiliary video",
        0x1f => "SVC video",
        0x20 => "MVC video",
        0x21 => "JPEG 2000 video",
        0x22 => "MPEG-2 stereo video",
        0x23 => "H.264 stereo video",
        0x24 => "H.265 video",
        0x81 => "AC-3 audio",
        0x86 => "SCTE-35 splices",
        0x87 => "E-AC-3 audio",
        _ => "unknown",
    }
}
