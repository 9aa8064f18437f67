//! Video parameter sets (section 7.3.2.1).

use super::extensions::read_extension_data;
use super::hrd::{Common, read_hrd};
use super::profile::read_profile_tier_level;
use super::sets::VideoSet;
use super::{H265Error, Nal};
use crate::element::Index;
use crate::nal::read_ue;
use bitstream_io::Error;

/// The element names of the numbers of pictures that a decoder keeps.
#[derive(Clone, Copy)]
pub(super) struct Ordering {
    present: &'static str,
    buffered: &'static str,
    reordered: &'static str,
    latency: &'static str,
}

/// The names in a video parameter set.
const VIDEO: Ordering = Ordering {
    present: "vps_sub_layer_ordering_info_present_flag",
    buffered: "vps_max_dec_pic_buffering_minus1",
    reordered: "vps_max_num_reorder_pics",
    latency: "vps_max_latency_increase_plus1",
};

/// The names in a sequence parameter set.
pub(super) const SEQUENCE: Ordering = Ordering {
    present: "sps_sub_layer_ordering_info_present_flag",
    buffered: "sps_max_dec_pic_buffering_minus1",
    reordered: "sps_max_num_reorder_pics",
    latency: "sps_max_latency_increase_plus1",
};

/// Reads a video parameter set and returns its number. The last 1 of the unit is at `last`.
pub(super) fn read_vps(
    syntax: &mut Nal<'_, '_, '_>,
    last: u64,
) -> Result<(u32, VideoSet), H265Error> {
    let number = syntax.number("vps_video_parameter_set_id", 4)?;
    syntax.flag("vps_base_layer_internal_flag")?;
    syntax.flag("vps_base_layer_available_flag")?;
    syntax.number("vps_max_layers_minus1", 6)?;
    let lower = syntax.number("vps_max_sub_layers_minus1", 3)?;
    if lower > 6 {
        return Err(H265Error::TooManySubLayers);
    }
    syntax.flag("vps_temporal_id_nesting_flag")?;
    syntax.number("vps_reserved_0xffff_16bits", 16)?;
    read_profile_tier_level(syntax, lower)?;
    read_ordering(syntax, &VIDEO, lower)?;
    let sets = read_layer_sets(syntax)?;
    if syntax.flag("vps_timing_info_present_flag")? {
        read_timing(syntax, sets, lower)?;
    }
    if syntax.flag("vps_extension_flag")? {
        read_extension_data(syntax, "vps_extension_data_flag", last)?;
    }
    Ok((
        number,
        VideoSet {
            sub_layers: lower + 1,
        },
    ))
}

/// Reads the numbers of pictures that a decoder keeps, for the highest sub-layer or for the `lower`
/// ones too.
pub(super) fn read_ordering(
    syntax: &mut Nal<'_, '_, '_>,
    names: &'static Ordering,
    lower: u32,
) -> Result<(), Error> {
    let first = if syntax.flag(names.present)? {
        0
    } else {
        lower
    };
    for at in first..=lower {
        syntax.index = Some(Index::One(at));
        read_ue(syntax, names.buffered)?;
        read_ue(syntax, names.reordered)?;
        read_ue(syntax, names.latency)?;
    }
    syntax.index = None;
    Ok(())
}

/// Reads the layer sets, and returns their number.
fn read_layer_sets(syntax: &mut Nal<'_, '_, '_>) -> Result<u32, H265Error> {
    let highest = syntax.number("vps_max_layer_id", 6)?;
    let more = read_ue(syntax, "vps_num_layer_sets_minus1")?;
    if more > 1023 {
        return Err(H265Error::TooManyLayerSets);
    }
    for set in 0..more {
        read_layer_set(syntax, set + 1, highest)?;
    }
    Ok(more + 1)
}

/// Reads which layers a layer set includes.
fn read_layer_set(syntax: &mut Nal<'_, '_, '_>, set: u32, highest: u32) -> Result<(), Error> {
    for layer in 0..=highest {
        syntax.index = Some(Index::Two(set, layer));
        syntax.flag("layer_id_included_flag")?;
    }
    syntax.index = None;
    Ok(())
}

/// Reads the times of pictures.
fn read_timing(syntax: &mut Nal<'_, '_, '_>, sets: u32, lower: u32) -> Result<(), H265Error> {
    syntax.number("vps_num_units_in_tick", 32)?;
    syntax.number("vps_time_scale", 32)?;
    if syntax.flag("vps_poc_proportional_to_timing_flag")? {
        read_ue(syntax, "vps_num_ticks_poc_diff_one_minus1")?;
    }
    let count = read_ue(syntax, "vps_num_hrd_parameters")?;
    if count > sets {
        return Err(H265Error::TooManyHrdParameters);
    }
    read_hrd_parameters(syntax, count, lower)
}

/// Reads the parameters of hypothetical decoders.
fn read_hrd_parameters(
    syntax: &mut Nal<'_, '_, '_>,
    count: u32,
    lower: u32,
) -> Result<(), H265Error> {
    let mut common = Common::none();
    for at in 0..count {
        syntax.index = Some(Index::One(at));
        read_ue(syntax, "hrd_layer_set_idx")?;
        let is_new = at == 0 || syntax.flag("cprms_present_flag")?;
        syntax.index = None;
        let known = if is_new { None } else { Some(common) };
        common = read_hrd(syntax, known, lower)?;
    }
    Ok(())
}
