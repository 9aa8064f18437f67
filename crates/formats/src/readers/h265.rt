//! The units of H.265.

use crate::readers::video::{crop_units, size_of};
use crate::unit::{Fault, ReadUnits, Step, Unit};
use anyhow::Error;
use bitstream_formats::h265::Stream;
use std::alloc::{AllocError, Global};
use std::io::Write;

/// The NAL units of an H.265 stream.
#[derive(Drop)]
pub struct H265Units<'a> {
    // `None` if there is no start code.
    stream: Option<Stream<'a>>,
    done: u64,
}

impl<'a> H265Units<'a> {
    /// Returns the units of a stream.
    pub fn over(file: &'a [u8]) -> H265Units<'a> {
        H265Units {
            stream: Stream::over(file).ok(),
            done: 0,
        }
    }
}

impl ReadUnits for H265Units<'_> {
    fn next_unit<W: Write>(
        &mut self,
        alloc: Global,
        unit: &mut Unit,
        _out: &mut W,
    ) -> Result<Step, Error> {
        let Some(stream) = &mut self.stream else {
            return Ok(Step::End);
        };
        self.done = stream.units().place() as u64;
        unit.begin("NAL_unit", self.done);
        let read = stream.next_unit(alloc, &mut unit.elements);
        unit.kind = nal_unit(unit.value_of("nal_unit_type"));
        note_sequence(alloc, unit)?;
        match read {
            Ok(Some(_)) => Ok(Step::Read),
            Ok(None) => Ok(Step::End),
            Err(refused) => Ok(Step::Refused(Fault::of(alloc, refused.bit, refused.error)?)),
        }
    }

    fn bytes_done(&self) -> u64 {
        self.done
    }
}

/// Returns the name of a NAL unit of this type.
fn nal_unit(kind: Option<i64>) -> &'static str {
    match kind {
        Some(0) => "TRAIL_N",
        Some(1) => "TRAIL_R",
        Some(2) => "TSA_N",
        Some(3) => "TSA_R",
        Some(4) => "STSA_N",
        Some(5) => "STSA_R",
        Some(6) => "RADL_N",
        Some(7) => "RADL_R",
        Some(8) => "RASL_N",
        Some(9) => "RASL_R",
        Some(16) => "BLA_W_LP",
        Some(17) => "BLA_W_RADL",
        Some(18) => "BLA_N_LP",
        Some(19) => "IDR_W_RADL",
        Some(20) => "IDR_N_LP",
        Some(21) => "CRA",
        Some(32) => "VPS",
        Some(33) => "SPS",
        Some(34) => "PPS",
        Some(35) => "access_unit_delimiter",
        Some(36) => "end_of_seq",
        Some(37) => "end_of_bitstream",
        Some(38) => "filler_data",
        Some(39) => "prefix_SEI",
        Some(40) => "suffix_SEI",
        _ => "NAL_unit",
    }
}

/// Returns the name of a profile.
fn profile_name(profile: i64) -> &'static str {
    match profile {
        1 => "Main",
        2 => "Main 10",
        3 => "Main Still Picture",
        4 => "Format Range Extensions",
        5 => "High Throughput",
        6 => "Multiview Main",
        7 => "Scalable Main",
        8 => "3D Main",
        9 => "Screen-Extended",
        10 => "Scalable Format Range Extensions",
        11 => "High Throughput Screen-Extended",
        _ => "unknown",
    }
}

/// Notes the profile, the tier and the level of a sequence parameter set, and the size of its pictures.
fn note_sequence(alloc: Global, unit: &mut Unit) -> Result<(), AllocError> {
    if unit.kind != "SPS" {
        return Ok(());
    }
    if let Some(profile) = unit.value_of("general_profile_idc") {
        let name = profile_name(profile);
        unit.note_text("profile", None, String::from_str(alloc, name)?)?;
    }
    if let Some(tier) = unit.value_of("general_tier_flag") {
        let name = if tier == 0 { "Main" } else { "High" };
        unit.note_text("tier", None, String::from_str(alloc, name)?)?;
    }
    if let Some(level) = unit.value_of("general_level_idc") {
        // A level of 3.1 is 93.
        let text = format!(in alloc; "{}.{}", level / 30, level % 30 / 3)?;
        unit.note_text("level", None, text)?;
    }
    note_size(unit)
}

/// Notes the size of the pictures of a sequence parameter set.
fn note_size(unit: &mut Unit) -> Result<(), AllocError> {
    let (Some(columns), Some(rows)) = (
        unit.value_of("pic_width_in_luma_samples"),
        unit.value_of("pic_height_in_luma_samples"),
    ) else {
        return Ok(());
    };
    let (across, down) = crop_units(unit, true);
    let width = size_of(
        columns,
        across,
        unit.value_of("conf_win_left_offset"),
        unit.value_of("conf_win_right_offset"),
    );
    let height = size_of(
        rows,
        down,
        unit.value_of("conf_win_top_offset"),
        unit.value_of("conf_win_bottom_offset"),
    );
    unit.note("width", width)?;
    unit.note("height", height)
}
