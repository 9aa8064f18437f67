//! The frames of ADTS, and the blocks and frames of FLAC.

use crate::settings::ByteOrder;
use crate::unit::{Fault, ReadUnits, Step, Unit};
use anyhow::{Error, anyhow};
use bitstream_formats::adts;
use bitstream_formats::at::At;
use bitstream_formats::flac::{AfterTag, Decoder, FlacError, append_pcm};
use bitstream_formats::wav::wav_start;
use bitstream_formats::wav_format::{Coding, WavFormat};
use flac_codec::stream_info::StreamInfo;
use flac_codec::{Channels, Frame, Metadata, MetadataReader};
use std::alloc::{AllocError, Global};
use std::fmt::Display;
use std::io::{Read, Write};

/// The frames of ADTS, after a tag of ID3v2 if there is one.
#[derive(Drop)]
pub struct AdtsUnits<'a> {
    file: &'a [u8],
    at: usize,
}

/// Returns the length of an ADTS frame in bytes, if one begins with these bytes.
fn frame_length(bytes: &[u8]) -> Option<usize> {
    let [a, b, _, d, e, f, ..] = bytes else {
        return None;
    };
    if *a != 0xff || *b & 0xf6 != 0xf0 {
        return None;
    }
    Some(((*d & 3) as usize) << 11 | (*e as usize) << 3 | (*f >> 5) as usize)
}

impl<'a> AdtsUnits<'a> {
    /// Returns the frames of a file.
    pub fn over(file: &'a [u8]) -> AdtsUnits<'a> {
        AdtsUnits { file, at: 0 }
    }

    /// Returns the bytes from a place on.
    fn from(&self, at: usize) -> &'a [u8] {
        self.file.get(at..).unwrap_or(&[])
    }

    /// Returns the place of the next frame from a place on. Another frame or the end must follow it.
    fn find_frame(&self, from: usize) -> usize {
        for at in from..self.file.len() {
            if let Some(length) = frame_length(self.from(at)) {
                let next = self.from(at.saturating_add(length));
                if length >= 7 && (next.is_empty() || frame_length(next).is_some()) {
                    return at;
                }
            }
        }
        self.file.len()
    }

    /// Reads the header of the ID3v2 tag with which the file begins.
    fn read_tag(&mut self, unit: &mut Unit) -> Result<Step, Error> {
        unit.begin("ID3v2", 0);
        let [_, _, _, version, revision, flags, a, b, c, d, ..] = self.file else {
            self.at = self.file.len();
            return Ok(Step::End);
        };
        let size = ((*a & 127) as usize) << 21
            | ((*b & 127) as usize) << 14
            | ((*c & 127) as usize) << 7
            | (*d & 127) as usize;
        unit.push(24, "version", *version as i64)?;
        unit.push(32, "revision", *revision as i64)?;
        unit.push(40, "flags", *flags as i64)?;
        unit.push(48, "size", size as i64)?;
        let footer = if *flags & 0x10 != 0 { 10 } else { 0 };
        self.at = (10 + size + footer).min(self.file.len());
        Ok(Step::Read)
    }
}

impl ReadUnits for AdtsUnits<'_> {
    fn next_unit<W: Write>(
        &mut self,
        alloc: Global,
        unit: &mut Unit,
        _out: &mut W,
    ) -> Result<Step, Error> {
        let start = self.at;
        let bytes = self.from(start);
        if start == 0 && bytes.starts_with(b"ID3".as_slice()) && bytes.len() >= 10 {
            return self.read_tag(unit);
        }
        // An ID3v1 tag may end the file.
        let is_tag = bytes.len() == 128 && bytes.starts_with(b"TAG".as_slice());
        if bytes.is_empty() || is_tag {
            return Ok(Step::End);
        }
        unit.begin("frame", start as u64);
        let mut frames = adts::Frames::over(bytes);
        let read = frames.next_frame(&mut unit.elements);
        unit.move_places(start as u64);
        self.at = match &read {
            Ok(_) => self.file.len().saturating_sub(frames.rest().len()),
            Err(_) => self.find_frame(start.saturating_add(1)),
        };
        Ok(Step::of(alloc, read, 0)?)
    }

    fn bytes_done(&self) -> u64 {
        self.at as u64
    }
}

/// The error of a FLAC stream in Ogg.
const OGG: &str = "an Ogg file: FLAC in Ogg is not decoded";

/// The kinds of output for a FLAC file.
#[derive(Clone, Copy, Debug, PartialEq, Eq)]
pub enum Output {
    /// Nothing: the file is only checked.
    Nothing,
    /// The elements of the blocks of metadata, and of the headers of the frames, which are also checked.
    Headers,
    /// The samples, as whole bytes with a sign.
    Samples(ByteOrder),
    /// A WAV file.
    Wav,
}

/// The blocks of metadata of a FLAC file, and then its frames, which are decoded.
#[derive(Drop)]
pub struct FlacUnits<R: Read> {
    output: Output,
    // The place of the next unit, in bytes.
    at: u64,
    // The file, up to its start.
    reader: Option<R>,
    // The blocks of metadata, up to the frames.
    metadata: Option<MetadataReader<AfterTag<R>>>,
    // The frames.
    decoder: Option<Decoder<AfterTag<R>>>,
    // The samples of a frame, as bytes. This memory is used for each frame.
    bytes: Vec<u8>,
}

impl<R: Read + Drop> FlacUnits<R> {
    /// Returns the units of a reader. Reading them writes `output`.
    pub fn over(alloc: Global, reader: R, output: Output) -> FlacUnits<R> {
        FlacUnits {
            output,
            at: 0,
            reader: Some(reader),
            metadata: None,
            decoder: None,
            bytes: Vec::new(alloc),
        }
    }

    /// Returns the step for a rejected unit, after which no other is found.
    fn refuse<E: Display + Drop>(
        &mut self,
        alloc: Global,
        bit: u64,
        error: E,
    ) -> Result<Step, Error> {
        self.metadata = None;
        self.decoder = None;
        Ok(Step::Refused(Fault::of(alloc, bit, error)?))
    }

    /// Returns the step for metadata that is rejected.
    ///
    /// # Errors
    ///
    /// The error, if it is one of the reader, or an allocation failed.
    fn refuse_metadata(
        &mut self,
        alloc: Global,
        error: flac_codec::FlacError,
    ) -> Result<Step, Error> {
        let error = FlacError::Codec(error);
        if error.is_from_outside() {
            return Err(anyhow!("{error}"));
        }
        self.refuse(alloc, 0, error)
    }

    /// Reads the start of a file: a tag of ID3v2, the marker, and STREAMINFO.
    fn begin(&mut self, alloc: Global, unit: &mut Unit, reader: R) -> Result<Step, Error> {
        unit.begin("file", 0);
        let reader = AfterTag::new(alloc, reader)?;
        self.at = reader.tag_size();
        if self.at == 0 && reader.head().is_empty() {
            return Ok(Step::End);
        }
        unit.begin("file", self.at);
        if reader.head().starts_with(b"OggS".as_slice()) {
            return self.refuse(alloc, 0, OGG);
        }
        match MetadataReader::new(alloc, reader) {
            Ok(metadata) => {
                let place = self.at.saturating_add(4);
                self.at = self.at.saturating_add(42);
                unit.begin("STREAMINFO", place);
                note_head(unit, 0, 34)?;
                note_stream_info(alloc, unit, metadata.stream_info())?;
                self.metadata = Some(metadata);
                Ok(Step::Read)
            }
            Err(error) => self.refuse_metadata(alloc, error),
        }
    }

    /// Reads a block of metadata. After the last one, decodes the first frame.
    fn read_block<W: Write>(
        &mut self,
        alloc: Global,
        unit: &mut Unit,
        out: &mut W,
    ) -> Result<Step, Error> {
        unit.begin("block", self.at);
        let Some(metadata) = &mut self.metadata else {
            return Ok(Step::End);
        };
        match take_block(alloc, unit, metadata, self.output) {
            Ok(Some(block)) => {
                self.at = self.at.saturating_add(block.size as u64);
                Ok(Step::Read)
            }
            Ok(None) => self.begin_frames(alloc, unit, out),
            Err(error) => self.refuse_metadata(alloc, error),
        }
    }

    /// Begins the frames, and decodes the first one.
    fn begin_frames<W: Write>(
        &mut self,
        alloc: Global,
        unit: &mut Unit,
        out: &mut W,
    ) -> Result<Step, Error> {
        let Some(metadata) = self.metadata.take() else {
            return Ok(Step::End);
        };
        if self.output == Output::Wav {
            out.write_all(&start_of(metadata.stream_info())?)?;
        }
        match metadata.into_decoder() {
            Ok(frames) => self.decoder = Some(Decoder::with_md5(alloc, frames)),
            Err(error) => return self.refuse_metadata(alloc, error),
        }
        self.read_frame(alloc, unit, out)
    }

    /// Decodes a frame.
    fn read_frame<W: Write>(
        &mut self,
        alloc: Global,
        unit: &mut Unit,
        out: &mut W,
    ) -> Result<Step, Error> {
        unit.begin("frame", self.at);
        let Some(decoder) = &mut self.decoder else {
            return Ok(Step::End);
        };
        let sample_size = decoder.stream_info().bits_per_sample.get();
        match decoder.next_frame(alloc) {
            Ok(Some(mut frame)) => {
                note_frame(alloc, unit, self.at.saturating_mul(8), &frame)?;
                self.at = self.at.saturating_add(frame.size as u64);
                self.bytes.clear();
                append_bytes(&mut frame, sample_size, self.output, &mut self.bytes)?;
                out.write_all(self.bytes.as_slice())?;
                Ok(Step::Read)
            }
            Ok(None) => {
                self.decoder = None;
                Ok(Step::End)
            }
            Err(At { bit: _, error }) if error.is_from_outside() => Err(anyhow!("{error}")),
            Err(At { bit, error }) => self.refuse(alloc, bit, error),
        }
    }
}

impl<R: Read + Drop> ReadUnits for FlacUnits<R> {
    fn next_unit<W: Write>(
        &mut self,
        alloc: Global,
        unit: &mut Unit,
        out: &mut W,
    ) -> Result<Step, Error> {
        if let Some(reader) = self.reader.take() {
            self.begin(alloc, unit, reader)
        } else if self.metadata.is_some() {
            self.read_block(alloc, unit, out)
        } else {
            self.read_frame(alloc, unit, out)
        }
    }

    fn bytes_done(&self) -> u64 {
        self.at
    }
}

/// Returns the first 44 bytes of a WAV file with the samples of a FLAC file.
fn start_of(info: &StreamInfo) -> Result<[u8; 44], Error> {
    let bytes = info.bits_per_sample.get().div_ceil(8) as u16;
    let channels = info.channels.get() as u16;
    let block_size = channels.saturating_mul(bytes);
    let size = info.total_samples.saturating_mul(block_size as u64);
    let format = WavFormat {
        coding: Coding::Pcm,
        channels,
        sample_rate: info.sample_rate,
        byte_rate: info.sample_rate.saturating_mul(block_size as u32),
        block_size,
        bits_per_sample: bytes.saturating_mul(8),
    };
    let is_known = size > 0 && size < 0xffff_ff00;
    Ok(wav_start(&format, if is_known { size as u32 } else { u32::MAX })?)
}

/// Appends the samples of a frame as bytes, if they are written.
fn append_bytes(
    frame: &mut Frame,
    sample_size: u8,
    output: Output,
    bytes: &mut Vec<u8>,
) -> Result<(), AllocError> {
    match output {
        Output::Nothing | Output::Headers => Ok(()),
        Output::Samples(order) => {
            append_pcm(sample_size, frame.channels.as_slice(), bytes)?;
            order.turn(sample_size, bytes.as_mut_slice());
            Ok(())
        }
        Output::Wav => append_wav(frame, sample_size, bytes),
    }
}

/// Appends the samples of a frame as in WAV: a sample fills the highest bits of its bytes, and a single byte has no sign.
fn append_wav(frame: &mut Frame, sample_size: u8, bytes: &mut Vec<u8>) -> Result<(), AllocError> {
    let more = 7 - (sample_size as u32 + 7) % 8;
    if more > 0 {
        for channel in &mut frame.channels {
            for sample in channel {
                *sample = sample.wrapping_shl(more);
            }
        }
    }
    append_pcm(sample_size, frame.channels.as_slice(), bytes)?;
    if sample_size <= 8 {
        for byte in bytes {
            *byte ^= 0x80;
        }
    }
    Ok(())
}

/// Returns the number that some bytes spell, highest byte first, or 0 if there are too few bytes.
fn big(bytes: &[u8], at: usize, count: usize) -> u64 {
    let mut number = 0u64;
    for byte in bytes.get(at..).unwrap_or(&[]).iter().take(count) {
        number = (number & 0xff_ffff_ffff_ffff) << 8 | *byte as u64;
    }
    number
}

/// Returns the number that four bytes spell, highest byte first, or 0 if there are too few bytes.
fn length_at(bytes: &[u8], at: usize) -> usize {
    match bytes.get(at..).unwrap_or(&[]).first_chunk::<4>() {
        Some(four) => u32::from_be_bytes(*four) as usize,
        None => 0,
    }
}

/// Takes the next block of metadata. If its elements are printed, adds them to the unit.
fn take_block<R: Read>(
    alloc: Global,
    unit: &mut Unit,
    metadata: &mut MetadataReader<R>,
    output: Output,
) -> Result<Option<Metadata>, flac_codec::FlacError> {
    if output == Output::Headers {
        if let Some(block) = metadata.fetch_block()? {
            let bytes = metadata.bytes().get(4..block.size).unwrap_or(&[]);
            note_block(alloc, unit, block.kind, bytes)?;
        }
    }
    metadata.next_block()
}

/// Adds the header of a block of metadata to the unit: the block's type, and the number of bytes after its header.
fn note_head(unit: &mut Unit, kind: u8, length: i64) -> Result<(), AllocError> {
    let place = unit.byte.saturating_mul(8);
    unit.push(place.saturating_add(1), "block_type", kind as i64)?;
    unit.push(place.saturating_add(8), "block_length", length)
}

/// Adds the elements of a metadata block of a type to the unit. `bytes` are those after its header.
fn note_block(alloc: Global, unit: &mut Unit, kind: u8, bytes: &[u8]) -> Result<(), AllocError> {
    note_head(unit, kind, bytes.len() as i64)?;
    let place = unit.byte.saturating_mul(8).saturating_add(32);
    unit.kind = kind_of(kind);
    match kind {
        2 => unit.push(place, "application_id", big(bytes, 0, 4).cast_signed()),
        3 => note_seek_points(unit, place, bytes),
        4 => note_comments(alloc, unit, bytes),
        6 => note_picture(alloc, unit, place, bytes),
        _ => Ok(()),
    }
}

/// Returns the name of a type of metadata blocks.
fn kind_of(kind: u8) -> &'static str {
    match kind {
        0 => "STREAMINFO",
        1 => "PADDING",
        2 => "APPLICATION",
        3 => "SEEKTABLE",
        4 => "VORBIS_COMMENT",
        5 => "CUESHEET",
        6 => "PICTURE",
        _ => "block",
    }
}

/// Adds the fields of STREAMINFO to the unit.
fn note_stream_info(alloc: Global, unit: &mut Unit, info: &StreamInfo) -> Result<(), AllocError> {
    let place = unit.byte.saturating_mul(8).saturating_add(32);
    let fields = [
        (0, "minimum_block_size", info.minimum_block_size as i64),
        (16, "maximum_block_size", info.maximum_block_size as i64),
        (32, "minimum_frame_size", info.minimum_frame_size as i64),
        (56, "maximum_frame_size", info.maximum_frame_size as i64),
        (80, "sample_rate", info.sample_rate as i64),
        (100, "channels", info.channels.get() as i64),
        (103, "bits_per_sample", info.bits_per_sample.get() as i64),
        (108, "total_samples", info.total_samples.cast_signed()),
    ];
    for (at, name, value) in fields {
        unit.push(place.saturating_add(at), name, value)?;
    }
    let mut digits = String::new(alloc);
    for byte in info.checksum {
        let text = format!(in alloc; "{byte:02x}")?;
        digits.push_str(text.as_str())?;
    }
    unit.note_text("MD5", None, digits)
}

/// Adds the points of a seek table to the unit.
fn note_seek_points(unit: &mut Unit, place: u64, bytes: &[u8]) -> Result<(), AllocError> {
    for (at, point) in bytes.chunks_exact(18).enumerate() {
        let place = place.saturating_add((at as u64).saturating_mul(144));
        unit.push(place, "sample_number", big(point, 0, 8).cast_signed())?;
        unit.push(
            place.saturating_add(64),
            "stream_offset",
            big(point, 8, 8).cast_signed(),
        )?;
        unit.push(
            place.saturating_add(128),
            "frame_samples",
            big(point, 16, 2).cast_signed(),
        )?;
    }
    Ok(())
}

/// Splits off a text that begins with its length. Returns the text and the rest, or `None` if there are
/// too few bytes.
fn split_text(bytes: &[u8]) -> Option<(&[u8], &[u8])> {
    let (length, rest) = bytes.split_first_chunk::<4>()?;
    rest.split_at_checked(u32::from_le_bytes(*length) as usize)
}

/// Adds the texts of a Vorbis comment to the unit.
fn note_comments(alloc: Global, unit: &mut Unit, bytes: &[u8]) -> Result<(), AllocError> {
    let Some((vendor, rest)) = split_text(bytes) else {
        return Ok(());
    };
    unit.note_text("vendor", None, String::from_utf8_lossy(alloc, vendor)?)?;
    let mut rest = rest.get(4..).unwrap_or(&[]);
    for index in 0..u32::MAX {
        let Some((text, after)) = split_text(rest) else {
            break;
        };
        unit.note_text(
            "comment",
            Some(index),
            String::from_utf8_lossy(alloc, text)?,
        )?;
        rest = after;
    }
    Ok(())
}

/// Adds the kind and the sizes of a picture to the unit.
fn note_picture(
    alloc: Global,
    unit: &mut Unit,
    place: u64,
    bytes: &[u8],
) -> Result<(), AllocError> {
    unit.push(place, "picture_type", big(bytes, 0, 4).cast_signed())?;
    let media = length_at(bytes, 4);
    let at = media.saturating_add(8);
    let text = length_at(bytes, at);
    let sizes = at.saturating_add(4).saturating_add(text);
    let media = bytes.get(8..at).unwrap_or(&[]);
    unit.note_text("media_type", None, String::from_utf8_lossy(alloc, media)?)?;
    let names = ["width", "height", "color_depth", "colors", "data_length"];
    for (number, name) in names.iter().enumerate() {
        let at = sizes.saturating_add(number.saturating_mul(4));
        let place = place.saturating_add((at as u64).saturating_mul(8));
        unit.push(place, *name, big(bytes, at, 4).cast_signed())?;
    }
    Ok(())
}

/// Adds a frame's header to the unit. The frame begins at the bit `place`.
fn note_frame(alloc: Global, unit: &mut Unit, place: u64, frame: &Frame) -> Result<(), AllocError> {
    let header = frame.header;
    let (count, coding) = match header.channels {
        Channels::Independent(count) => (count, "independent"),
        Channels::LeftSide => (2, "left/side"),
        Channels::SideRight => (2, "side/right"),
        Channels::MidSide => (2, "mid/side"),
    };
    let fields = [
        (15, "blocking_strategy", i64::from(header.variable)),
        (16, "block_size", i64::from(header.block_size)),
        (20, "sample_rate", i64::from(header.sample_rate)),
        (24, "channels", i64::from(count)),
        (28, "bits_per_sample", i64::from(header.sample_size)),
        (32, "coded_number", header.number.cast_signed()),
    ];
    for (at, name, value) in fields {
        unit.push(place.saturating_add(at), name, value)?;
    }
    unit.note_text("stereo", None, String::from_str(alloc, coding)?)
}
