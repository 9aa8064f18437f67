//! Sequence parameter sets (sections 7.3.2.2 and F.7.3.2.2).

use super::extensions::read_sps_extensions;
use super::palette::Depths;
use super::profile::read_profile_tier_level;
use super::references::{read_long_term, read_short_term_sets};
use super::scaling::read_scaling_lists;
use super::sets::ParameterSets;
use super::vps::{SEQUENCE, read_ordering};
use super::vui::read_vui;
use super::{H265Error, Nal};
use crate::nal::read_ue;
use bitstream_io::Error;

/// The temporal sub-layers of a sequence parameter set.
#[derive(Clone, Copy)]
struct SubLayers {
    // The number of sub-layers below the highest one.
    lower: u32,
    // True if the set is in another layer and leaves out the elements of the video parameter set.
    is_extended: bool,
}

/// Reads a sequence parameter set of a layer. The last 1 of the unit is at `last`.
pub(super) fn read_sps(
    syntax: &mut Nal<'_, '_, '_>,
    sets: &ParameterSets,
    layer: u32,
    last: u64,
) -> Result<(), H265Error> {
    let sub_layers = read_sub_layers(syntax, sets, layer)?;
    if !sub_layers.is_extended {
        syntax.flag("sps_temporal_id_nesting_flag")?;
        read_profile_tier_level(syntax, sub_layers.lower)?;
    }
    let number = read_ue(syntax, "sps_seq_parameter_set_id")?;
    if number > 15 {
        return Err(H265Error::SequenceNumber(number));
    }
    let depths = if sub_layers.is_extended {
        read_format_number(syntax)?;
        None
    } else {
        Some(read_format(syntax)?)
    };
    let order = read_ue(syntax, "log2_max_pic_order_cnt_lsb_minus4")?;
    if order > 12 {
        return Err(H265Error::OrderTooLong);
    }
    if !sub_layers.is_extended {
        read_ordering(syntax, &SEQUENCE, sub_layers.lower)?;
    }
    read_blocks(syntax)?;
    if syntax.flag("scaling_list_enabled_flag")? {
        read_scaling(syntax, sub_layers.is_extended)?;
    }
    read_tools(syntax)?;
    read_short_term_sets(syntax)?;
    if syntax.flag("long_term_ref_pics_present_flag")? {
        read_long_term(syntax, order + 4)?;
    }
    syntax.flag("sps_temporal_mvp_enabled_flag")?;
    syntax.flag("strong_intra_smoothing_enabled_flag")?;
    if syntax.flag("vui_parameters_present_flag")? {
        read_vui(syntax, sub_layers.lower)?;
    }
    if syntax.flag("sps_extension_present_flag")? {
        read_sps_extensions(syntax, depths, last)?;
    }
    Ok(())
}

/// Reads the number of the video parameter set, and the number of sub-layers.
fn read_sub_layers(
    syntax: &mut Nal<'_, '_, '_>,
    sets: &ParameterSets,
    layer: u32,
) -> Result<SubLayers, H265Error> {
    let named = syntax.number("sps_video_parameter_set_id", 4)?;
    let lower = if layer == 0 {
        syntax.number("sps_max_sub_layers_minus1", 3)?
    } else {
        syntax.number("sps_ext_or_max_sub_layers_minus1", 3)?
    };
    if lower < 7 {
        return Ok(SubLayers {
            lower,
            is_extended: false,
        });
    }
    if layer == 0 {
        return Err(H265Error::TooManySubLayers);
    }
    match sets.video(named) {
        Some(set) => Ok(SubLayers {
            lower: set.sub_layers.saturating_sub(1),
            is_extended: true,
        }),
        None => Err(H265Error::MissingVideo(named)),
    }
}

/// Reads the number of a picture format of the video parameter set.
fn read_format_number(syntax: &mut Nal<'_, '_, '_>) -> Result<(), Error> {
    if syntax.flag("update_rep_format_flag")? {
        syntax.number("sps_rep_format_idx", 8)?;
    }
    Ok(())
}

/// Reads the format of pictures: their size, chroma and bit depths.
fn read_format(syntax: &mut Nal<'_, '_, '_>) -> Result<Depths, H265Error> {
    let chroma_format = read_ue(syntax, "chroma_format_idc")?;
    if chroma_format == 3 {
        syntax.flag("separate_colour_plane_flag")?;
    }
    read_ue(syntax, "pic_width_in_luma_samples")?;
    read_ue(syntax, "pic_height_in_luma_samples")?;
    if syntax.flag("conformance_window_flag")? {
        read_ue(syntax, "conf_win_left_offset")?;
        read_ue(syntax, "conf_win_right_offset")?;
        read_ue(syntax, "conf_win_top_offset")?;
        read_ue(syntax, "conf_win_bottom_offset")?;
    }
    let luma = read_ue(syntax, "bit_depth_luma_minus8")?;
    let chroma = read_ue(syntax, "bit_depth_chroma_minus8")?;
    Depths::of(chroma_format == 0, luma, chroma)
}

/// Reads the sizes of blocks.
fn read_blocks(syntax: &mut Nal<'_, '_, '_>) -> Result<(), Error> {
    read_ue(syntax, "log2_min_luma_coding_block_size_minus3")?;
    read_ue(syntax, "log2_diff_max_min_luma_coding_block_size")?;
    read_ue(syntax, "log2_min_luma_transform_block_size_minus2")?;
    read_ue(syntax, "log2_diff_max_min_luma_transform_block_size")?;
    read_ue(syntax, "max_transform_hierarchy_depth_inter")?;
    read_ue(syntax, "max_transform_hierarchy_depth_intra")?;
    Ok(())
}

/// Reads the scaling lists, or the layer with the same lists.
fn read_scaling(syntax: &mut Nal<'_, '_, '_>, is_extended: bool) -> Result<(), Error> {
    if is_extended && syntax.flag("sps_infer_scaling_list_flag")? {
        syntax.number("sps_scaling_list_ref_layer_id", 6)?;
        return Ok(());
    }
    if syntax.flag("sps_scaling_list_data_present_flag")? {
        read_scaling_lists(syntax)?;
    }
    Ok(())
}

/// Reads the flags of coding tools.
fn read_tools(syntax: &mut Nal<'_, '_, '_>) -> Result<(), Error> {
    syntax.flag("amp_enabled_flag")?;
    syntax.flag("sample_adaptive_offset_enabled_flag")?;
    if syntax.flag("pcm_enabled_flag")? {
        syntax.number("pcm_sample_bit_depth_luma_minus1", 4)?;
        syntax.number("pcm_sample_bit_depth_chroma_minus1", 4)?;
        read_ue(syntax, "log2_min_pcm_luma_coding_block_size_minus3")?;
        read_ue(syntax, "log2_diff_max_min_pcm_luma_coding_block_size")?;
        syntax.flag("pcm_loop_filter_disabled_flag")?;
    }
    Ok(())
}
