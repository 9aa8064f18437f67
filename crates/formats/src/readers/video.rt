//! The units of H.264 and AV1.

use crate::readers::messages::note_messages;
use crate::unit::{Fault, ReadUnits, Step, Unit};
use anyhow::Error;
use bitstream_formats::{av1, h264};
use std::alloc::{AllocError, Global};
use std::io::Write;

/// The NAL units of an H.264 stream.
#[derive(Drop)]
pub struct H264Units<'a> {
    // `None` if there is no start code.
    stream: Option<h264::Stream<'a>>,
    done: u64,
}

impl<'a> H264Units<'a> {
    /// Returns the units of a stream.
    pub fn over(file: &'a [u8]) -> H264Units<'a> {
        H264Units {
            stream: h264::Stream::over(file).ok(),
            done: 0,
        }
    }
}

impl ReadUnits for H264Units<'_> {
    fn next_unit<W: Write>(
        &mut self,
        alloc: Global,
        unit: &mut Unit,
        _out: &mut W,
    ) -> Result<Step, Error> {
        let Some(stream) = &mut self.stream else {
            return Ok(Step::End);
        };
        self.done = stream.place() as u64;
        unit.begin("NAL_unit", self.done);
        let read = stream.next_unit(alloc, &mut unit.elements);
        unit.kind = nal_unit(unit.value_of("nal_unit_type"));
        note_picture(alloc, unit)?;
        note_slice(alloc, unit)?;
        if unit.kind == "SEI" {
            note_messages(alloc, unit)?;
        }
        match read {
            Ok(Some(_)) => Ok(Step::Read),
            Ok(None) => Ok(Step::End),
            Err(refused) => Ok(Step::Refused(Fault::of(alloc, refused.bit, refused.error)?)),
        }
    }

    fn bytes_done(&self) -> u64 {
        self.done
    }
}

/// Returns the name of a NAL unit of this type.
fn nal_unit(kind: Option<i64>) -> &'static str {
    match kind {
        Some(1) => "slice",
        Some(2..=4) => "slice_data_partition",
        Some(5) => "IDR_slice",
        Some(6) => "SEI",
        Some(7) => "SPS",
        Some(8) => "PPS",
        Some(9) => "access_unit_delimiter",
        Some(10) => "end_of_seq",
        Some(11) => "end_of_stream",
        Some(12) => "filler_data",
        Some(13) => "SPS_extension",
        Some(14) => "prefix_NAL_unit",
        Some(15) => "subset_SPS",
        Some(19) => "auxiliary_slice",
        Some(20) => "slice_extension",
        _ => "NAL_unit",
    }
}

/// Notes the kind of a slice.
fn note_slice(alloc: Global, unit: &mut Unit) -> Result<(), AllocError> {
    let name = match unit.value_of("slice_type") {
        Some(0 | 5) => "P",
        Some(1 | 6) => "B",
        Some(2 | 7) => "I",
        Some(3 | 8) => "SP",
        Some(4 | 9) => "SI",
        _ => return Ok(()),
    };
    unit.note_text("slice", None, String::from_str(alloc, name)?)
}

/// Returns the name of a profile of H.264.
fn h264_profile(unit: &Unit, profile: i64) -> &'static str {
    let constrained = unit.value_of("constraint_set1_flag") == Some(1);
    let intra = unit.value_of("constraint_set3_flag") == Some(1);
    match profile {
        44 => "CAVLC 4:4:4 Intra",
        66 if constrained => "Constrained Baseline",
        66 => "Baseline",
        77 => "Main",
        88 => "Extended",
        100 => "High",
        110 if intra => "High 10 Intra",
        110 => "High 10",
        122 if intra => "High 4:2:2 Intra",
        122 => "High 4:2:2",
        244 if intra => "High 4:4:4 Intra",
        244 => "High 4:4:4 Predictive",
        83 | 86 => "Scalable",
        118 | 128 | 138 | 139 => "Multiview",
        _ => "unknown",
    }
}

/// Notes the profile of a sequence parameter set and the size of its pictures.
fn note_picture(alloc: Global, unit: &mut Unit) -> Result<(), AllocError> {
    if unit.kind != "SPS" {
        return Ok(());
    }
    if let Some(profile) = unit.value_of("profile_idc") {
        let name = h264_profile(unit, profile);
        unit.note_text("profile", None, String::from_str(alloc, name)?)?;
    }
    let (Some(columns), Some(rows)) = (
        unit.value_of("pic_width_in_mbs_minus1"),
        unit.value_of("pic_height_in_map_units_minus1"),
    ) else {
        return Ok(());
    };
    let frames = unit.value_of("frame_mbs_only_flag") != Some(0);
    let (across, down) = crop_units(unit, frames);
    let width = size_of(
        blocks_of(columns, 16),
        across,
        unit.value_of("frame_crop_left_offset"),
        unit.value_of("frame_crop_right_offset"),
    );
    let height = size_of(
        blocks_of(rows, if frames { 16 } else { 32 }),
        down,
        unit.value_of("frame_crop_top_offset"),
        unit.value_of("frame_crop_bottom_offset"),
    );
    unit.note("width", width)?;
    unit.note("height", height)?;
    if let Some(count) = unit.value_of("max_num_ref_frames") {
        unit.note("reference_frames", count)?;
    }
    Ok(())
}

/// Returns the number of samples in a unit of cropping, horizontally and vertically.
pub fn crop_units(unit: &Unit, frames: bool) -> (i64, i64) {
    let separate = unit.value_of("separate_colour_plane_flag") == Some(1);
    let chroma = match unit.value_of("chroma_format_idc") {
        _ if separate => 0,
        Some(chroma) => chroma,
        None => 1,
    };
    let across = if chroma == 1 || chroma == 2 { 2 } else { 1 };
    let down = if chroma == 1 { 2 } else { 1 };
    (across, if frames { down } else { 2 * down })
}

/// Returns the number of samples of a side, from its number of blocks minus one.
fn blocks_of(minus_one: i64, block: i64) -> i64 {
    minus_one.saturating_add(1).saturating_mul(block)
}

/// Returns the number of samples of a side without the cropped ones at both ends.
pub fn size_of(samples: i64, crop_unit: i64, first: Option<i64>, last: Option<i64>) -> i64 {
    let cropped = first.unwrap_or(0).saturating_add(last.unwrap_or(0));
    samples.saturating_sub(cropped.saturating_mul(crop_unit))
}

/// The OBUs of an AV1 stream, bare or in an IVF file.
#[derive(Drop)]
pub struct Av1Units<'a> {
    file: &'a [u8],
    // True if the file is an IVF file.
    ivf: bool,
    // The bytes read, up to the first byte of `obus`.
    at: usize,
    // The OBUs of the current IVF frame, or of the file.
    obus: av1::Obus<'a>,
    // The bytes of those OBUs.
    length: usize,
}

/// The first bytes of an IVF file.
const IVF: [u8; 4] = [b'D', b'K', b'I', b'F'];

/// Returns the number that some bytes spell, lowest byte first, or 0 if there are too few bytes.
fn little(bytes: &[u8], at: usize, count: usize) -> i64 {
    let mut number = 0i64;
    for byte in bytes.get(at..).unwrap_or(&[]).iter().take(count).rev() {
        number = (number & 0x7f_ffff_ffff_ffff) << 8 | *byte as i64;
    }
    number
}

impl<'a> Av1Units<'a> {
    /// Returns the units of a file.
    pub fn over(file: &'a [u8]) -> Av1Units<'a> {
        let ivf = file.starts_with(IVF.as_slice());
        let bytes: &'a [u8] = if ivf { &[] } else { file };
        Av1Units {
            file,
            ivf,
            at: 0,
            obus: av1::Obus::over(bytes),
            length: bytes.len(),
        }
    }

    /// Reads the header of an IVF file.
    fn read_ivf(&mut self, alloc: Global, unit: &mut Unit) -> Result<Step, Error> {
        unit.begin("IVF_header", 0);
        let bytes = self.file;
        let fields = [
            ("version", 4, 2),
            ("header_length", 6, 2),
            ("width", 12, 2),
            ("height", 14, 2),
            ("timebase_denominator", 16, 4),
            ("timebase_numerator", 20, 4),
            ("frame_count", 24, 4),
        ];
        for (name, at, count) in fields {
            unit.push(
                (at as u64).saturating_mul(8),
                name,
                little(bytes, at, count),
            )?;
        }
        let codec = bytes.get(8..12).unwrap_or(&[]);
        unit.note_text("codec", None, String::from_utf8_lossy(alloc, codec)?)?;
        let length = little(bytes, 6, 2).max(32) as usize;
        self.at = length.min(bytes.len());
        if codec != b"AV01".as_slice() {
            self.at = bytes.len();
            return Ok(Step::Refused(Fault::of(alloc, 64, "the codec of the file is not AV1")?));
        }
        Ok(Step::Read)
    }

    /// Reads the header of an IVF frame.
    fn read_frame(&mut self, alloc: Global, unit: &mut Unit) -> Result<Step, Error> {
        let start = self.at;
        unit.begin("IVF_frame", start as u64);
        let place = (start as u64).saturating_mul(8);
        let bytes = self.file.get(start..).unwrap_or(&[]);
        let size = little(bytes, 0, 4);
        unit.push(place, "frame_size", size)?;
        unit.push(place.saturating_add(32), "timestamp", little(bytes, 4, 8))?;
        let payload = bytes.get(12..).unwrap_or(&[]);
        self.at = self.file.len().saturating_sub(payload.len());
        match payload.get(..size.max(0) as usize) {
            Some(frame) if bytes.len() >= 12 => {
                self.obus = av1::Obus::of_frame(frame);
                self.length = frame.len();
                Ok(Step::Read)
            }
            _ => {
                self.at = self.file.len();
                Ok(Step::Refused(Fault::of(alloc, 0, "end of input")?))
            }
        }
    }

    /// Reads an OBU.
    fn read_obu(&mut self, alloc: Global, unit: &mut Unit) -> Result<Step, Error> {
        let before = self.obus.rest().len();
        let inside = self.length.saturating_sub(before);
        let byte = self.at.saturating_add(inside) as u64;
        unit.begin("OBU", byte);
        let read = self.obus.next_obu(&mut unit.elements);
        unit.kind = obu(unit.value_of("obu_type"));
        unit.move_places(self.at as u64);
        note_sequence(alloc, unit)?;
        let step = Step::of(alloc, read, (inside as u64).saturating_mul(8))?;
        let taken = before.saturating_sub(self.obus.rest().len());
        if matches!(&step, Step::Refused(_)) && !is_whole(unit, taken) {
            self.end_frame();
        } else if self.obus.rest().is_empty() {
            self.end_frame();
        }
        Ok(step)
    }

    /// Moves on to the place after the OBUs read.
    fn end_frame(&mut self) {
        self.at = self.at.saturating_add(self.length).min(self.file.len());
        self.obus = av1::Obus::over(&[]);
        self.length = 0;
    }
}

/// Returns true if all bytes of an OBU are among the `taken` bytes.
fn is_whole(unit: &Unit, taken: usize) -> bool {
    match unit.value_of("obu_size") {
        Some(size) => i64::try_from(taken).unwrap_or(i64::MAX) >= size.saturating_add(2),
        None => false,
    }
}

impl ReadUnits for Av1Units<'_> {
    fn next_unit<W: Write>(
        &mut self,
        alloc: Global,
        unit: &mut Unit,
        _out: &mut W,
    ) -> Result<Step, Error> {
        if !self.obus.rest().is_empty() {
            self.read_obu(alloc, unit)
        } else if self.at >= self.file.len() || !self.ivf {
            Ok(Step::End)
        } else if self.at == 0 {
            self.read_ivf(alloc, unit)
        } else {
            self.read_frame(alloc, unit)
        }
    }

    fn bytes_done(&self) -> u64 {
        let inside = self.length.saturating_sub(self.obus.rest().len());
        self.at.saturating_add(inside) as u64
    }
}

/// Returns the name of an OBU of this type.
fn obu(kind: Option<i64>) -> &'static str {
    match kind {
        Some(1) => "sequence_header",
        Some(2) => "temporal_delimiter",
        Some(3) => "frame_header",
        Some(4) => "tile_group",
        Some(5) => "metadata",
        Some(6) => "frame",
        Some(7) => "redundant_frame_header",
        Some(8) => "tile_list",
        Some(15) => "padding",
        _ => "OBU",
    }
}

/// Notes the profile of a sequence header and the size of its frames.
fn note_sequence(alloc: Global, unit: &mut Unit) -> Result<(), AllocError> {
    let Some(profile) = unit.value_of("seq_profile") else {
        return Ok(());
    };
    let name = match profile {
        0 => "Main",
        1 => "High",
        2 => "Professional",
        _ => "unknown",
    };
    unit.note_text("profile", None, String::from_str(alloc, name)?)?;
    if let Some(width) = unit.value_of("max_frame_width_minus_1") {
        unit.note("width", width.saturating_add(1))?;
    }
    if let Some(height) = unit.value_of("max_frame_height_minus_1") {
        unit.note("height", height.saturating_add(1))?;
    }
    Ok(())
}
