//! The parameters of hypothetical reference decoders (section E.2.2).

use super::{H265Error, Nal};
use crate::element::Index;
use crate::nal::read_ue;
use bitstream_io::Error;

/// The parameters that all sub-layers share.
#[derive(Clone, Copy)]
pub(super) struct Common {
    // True if there are schedules for all units.
    units: bool,
    // True if there are schedules for the units with slices.
    slices: bool,
    // True if there are parameters for parts of pictures.
    parts: bool,
}

impl Common {
    /// Returns no parameters.
    pub(super) fn none() -> Common {
        Common {
            units: false,
            slices: false,
            parts: false,
        }
    }
}

/// Reads the parameters of `lower` sub-layers and of the highest one. Returns the shared parameters,
/// which are read first if they are not `known` from an earlier call.
pub(super) fn read_hrd(
    syntax: &mut Nal<'_, '_, '_>,
    known: Option<Common>,
    lower: u32,
) -> Result<Common, H265Error> {
    let common = match known {
        Some(common) => common,
        None => read_common(syntax)?,
    };
    for at in 0..=lower {
        syntax.index = Some(Index::One(at));
        let schedules = read_rate(syntax)?;
        if common.units {
            read_schedules(syntax, schedules, common.parts)?;
        }
        if common.slices {
            read_schedules(syntax, schedules, common.parts)?;
        }
    }
    syntax.index = None;
    Ok(common)
}

/// Reads the parameters that all sub-layers share.
fn read_common(syntax: &mut Nal<'_, '_, '_>) -> Result<Common, Error> {
    let units = syntax.flag("nal_hrd_parameters_present_flag")?;
    let slices = syntax.flag("vcl_hrd_parameters_present_flag")?;
    let mut parts = false;
    if units || slices {
        parts = syntax.flag("sub_pic_hrd_params_present_flag")?;
        if parts {
            syntax.number("tick_divisor_minus2", 8)?;
            syntax.number("du_cpb_removal_delay_increment_length_minus1", 5)?;
            syntax.flag("sub_pic_cpb_params_in_pic_timing_sei_flag")?;
            syntax.number("dpb_output_delay_du_length_minus1", 5)?;
        }
        syntax.number("bit_rate_scale", 4)?;
        syntax.number("cpb_size_scale", 4)?;
        if parts {
            syntax.number("cpb_size_du_scale", 4)?;
        }
        syntax.number("initial_cpb_removal_delay_length_minus1", 5)?;
        syntax.number("au_cpb_removal_delay_length_minus1", 5)?;
        syntax.number("dpb_output_delay_length_minus1", 5)?;
    }
    Ok(Common {
        units,
        slices,
        parts,
    })
}

/// Reads the picture rate of a sub-layer, and returns the number of its schedules.
fn read_rate(syntax: &mut Nal<'_, '_, '_>) -> Result<u32, H265Error> {
    let is_fixed = syntax.flag("fixed_pic_rate_general_flag")?
        || syntax.flag("fixed_pic_rate_within_cvs_flag")?;
    let mut has_low_delay = false;
    if is_fixed {
        read_ue(syntax, "elemental_duration_in_tc_minus1")?;
    } else {
        has_low_delay = syntax.flag("low_delay_hrd_flag")?;
    }
    if has_low_delay {
        return Ok(1);
    }
    let count = read_ue(syntax, "cpb_cnt_minus1")?;
    if count > 31 {
        return Err(H265Error::TooManySchedules);
    }
    Ok(count + 1)
}

/// Reads the schedules of a sub-layer.
fn read_schedules(syntax: &mut Nal<'_, '_, '_>, count: u32, parts: bool) -> Result<(), Error> {
    for at in 0..count {
        syntax.index = Some(Index::One(at));
        read_ue(syntax, "bit_rate_value_minus1")?;
        read_ue(syntax, "cpb_size_value_minus1")?;
        if parts {
            read_ue(syntax, "cpb_size_du_value_minus1")?;
            read_ue(syntax, "bit_rate_du_value_minus1")?;
        }
        syntax.flag("cbr_flag")?;
    }
    Ok(())
}
