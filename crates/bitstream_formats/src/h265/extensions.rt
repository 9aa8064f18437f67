//! The extensions of sequence and picture parameter sets: format ranges, several layers, and screen
//! content (sections 7.3.2.2, 7.3.2.3 and F.7.3.2.3).

use super::palette::{Depths, read_colors};
use super::{H265Error, Nal};
use crate::element::Index;
use crate::nal::{read_se, read_ue};
use bitstream_io::Error;

/// The extensions of a set.
#[derive(Clone, Copy)]
struct Extensions {
    range: bool,
    layers: bool,
    depth: bool,
    screen: bool,
    more: bool,
}

/// Reads the bits of unknown extensions, up to the last 1 of the unit.
pub(super) fn read_extension_data(
    syntax: &mut Nal<'_, '_, '_>,
    name: &'static str,
    last: u64,
) -> Result<(), Error> {
    for _ in syntax.place()..last {
        syntax.flag(name)?;
    }
    Ok(())
}

/// Reads the extensions of a sequence parameter set. `depths` is `None` if the set has no bit depths.
pub(super) fn read_sps_extensions(
    syntax: &mut Nal<'_, '_, '_>,
    depths: Option<Depths>,
    last: u64,
) -> Result<(), H265Error> {
    let extensions = Extensions {
        range: syntax.flag("sps_range_extension_flag")?,
        layers: syntax.flag("sps_multilayer_extension_flag")?,
        depth: syntax.flag("sps_3d_extension_flag")?,
        screen: syntax.flag("sps_scc_extension_flag")?,
        more: syntax.number("sps_extension_4bits", 4)? > 0,
    };
    if extensions.range {
        read_sps_range(syntax)?;
    }
    if extensions.layers {
        syntax.flag("inter_view_mv_vert_constraint_flag")?;
    }
    if extensions.depth {
        return Err(H265Error::Extension3d);
    }
    if extensions.screen {
        read_sps_screen(syntax, depths)?;
    }
    if extensions.more {
        read_extension_data(syntax, "sps_extension_data_flag", last)?;
    }
    Ok(())
}

/// Reads the range extension of a sequence parameter set.
fn read_sps_range(syntax: &mut Nal<'_, '_, '_>) -> Result<(), Error> {
    syntax.flag("transform_skip_rotation_enabled_flag")?;
    syntax.flag("transform_skip_context_enabled_flag")?;
    syntax.flag("implicit_rdpcm_enabled_flag")?;
    syntax.flag("explicit_rdpcm_enabled_flag")?;
    syntax.flag("extended_precision_processing_flag")?;
    syntax.flag("intra_smoothing_disabled_flag")?;
    syntax.flag("high_precision_offsets_enabled_flag")?;
    syntax.flag("persistent_rice_adaptation_enabled_flag")?;
    syntax.flag("cabac_bypass_alignment_enabled_flag")?;
    Ok(())
}

/// Reads the screen content extension of a sequence parameter set.
fn read_sps_screen(syntax: &mut Nal<'_, '_, '_>, depths: Option<Depths>) -> Result<(), H265Error> {
    syntax.flag("sps_curr_pic_ref_enabled_flag")?;
    if syntax.flag("palette_mode_enabled_flag")? {
        read_ue(syntax, "palette_max_size")?;
        read_ue(syntax, "delta_palette_max_predictor_size")?;
        if syntax.flag("sps_palette_predictor_initializers_present_flag")? {
            read_sps_palette(syntax, depths)?;
        }
    }
    syntax.number("motion_vector_resolution_control_idc", 2)?;
    syntax.flag("intra_boundary_filtering_disabled_flag")?;
    Ok(())
}

/// Reads the colors of a sequence parameter set.
fn read_sps_palette(syntax: &mut Nal<'_, '_, '_>, depths: Option<Depths>) -> Result<(), H265Error> {
    let count = read_ue(syntax, "sps_num_palette_predictor_initializers_minus1")?;
    let Some(depths) = depths else {
        return Err(H265Error::PaletteDepth);
    };
    let name = "sps_palette_predictor_initializer";
    read_colors(syntax, name, count.saturating_add(1), depths)
}

/// Reads the extensions of a picture parameter set. `skips` is true if the transform may be skipped.
pub(super) fn read_pps_extensions(
    syntax: &mut Nal<'_, '_, '_>,
    skips: bool,
    last: u64,
) -> Result<(), H265Error> {
    let extensions = Extensions {
        range: syntax.flag("pps_range_extension_flag")?,
        layers: syntax.flag("pps_multilayer_extension_flag")?,
        depth: syntax.flag("pps_3d_extension_flag")?,
        screen: syntax.flag("pps_scc_extension_flag")?,
        more: syntax.number("pps_extension_4bits", 4)? > 0,
    };
    if extensions.range {
        read_pps_range(syntax, skips)?;
    }
    if extensions.layers {
        read_pps_layers(syntax)?;
    }
    if extensions.depth {
        return Err(H265Error::Extension3d);
    }
    if extensions.screen {
        read_pps_screen(syntax)?;
    }
    if extensions.more {
        read_extension_data(syntax, "pps_extension_data_flag", last)?;
    }
    Ok(())
}

/// Reads the range extension of a picture parameter set.
fn read_pps_range(syntax: &mut Nal<'_, '_, '_>, skips: bool) -> Result<(), H265Error> {
    if skips {
        read_ue(syntax, "log2_max_transform_skip_block_size_minus2")?;
    }
    syntax.flag("cross_component_prediction_enabled_flag")?;
    if syntax.flag("chroma_qp_offset_list_enabled_flag")? {
        read_chroma_offsets(syntax)?;
    }
    read_ue(syntax, "log2_sao_offset_scale_luma")?;
    read_ue(syntax, "log2_sao_offset_scale_chroma")?;
    Ok(())
}

/// Reads the list of chroma offsets for blocks.
fn read_chroma_offsets(syntax: &mut Nal<'_, '_, '_>) -> Result<(), H265Error> {
    read_ue(syntax, "diff_cu_chroma_qp_offset_depth")?;
    let more = read_ue(syntax, "chroma_qp_offset_list_len_minus1")?;
    if more > 5 {
        return Err(H265Error::TooManyOffsets);
    }
    for at in 0..=more {
        syntax.index = Some(Index::One(at));
        read_se(syntax, "cb_qp_offset_list")?;
        read_se(syntax, "cr_qp_offset_list")?;
    }
    syntax.index = None;
    Ok(())
}

/// Reads the multilayer extension of a picture parameter set.
fn read_pps_layers(syntax: &mut Nal<'_, '_, '_>) -> Result<(), H265Error> {
    syntax.flag("poc_reset_info_present_flag")?;
    if syntax.flag("pps_infer_scaling_list_flag")? {
        syntax.number("pps_scaling_list_ref_layer_id", 6)?;
    }
    let count = read_ue(syntax, "num_ref_loc_offsets")?;
    if count > 63 {
        return Err(H265Error::TooManyLayers);
    }
    for at in 0..count {
        read_layer_offsets(syntax, at)?;
    }
    syntax.index = None;
    if syntax.flag("colour_mapping_enabled_flag")? {
        return Err(H265Error::ColorMapping);
    }
    Ok(())
}

/// Reads the region of a picture that matches a region of another layer's picture, and the resampling
/// phases.
fn read_layer_offsets(syntax: &mut Nal<'_, '_, '_>, at: u32) -> Result<(), Error> {
    syntax.index = Some(Index::One(at));
    let layer = Some(Index::One(syntax.number("ref_loc_offset_layer_id", 6)?));
    if syntax.flag("scaled_ref_layer_offset_present_flag")? {
        syntax.index = layer;
        read_se(syntax, "scaled_ref_layer_left_offset")?;
        read_se(syntax, "scaled_ref_layer_top_offset")?;
        read_se(syntax, "scaled_ref_layer_right_offset")?;
        read_se(syntax, "scaled_ref_layer_bottom_offset")?;
    }
    syntax.index = Some(Index::One(at));
    if syntax.flag("ref_region_offset_present_flag")? {
        syntax.index = layer;
        read_se(syntax, "ref_region_left_offset")?;
        read_se(syntax, "ref_region_top_offset")?;
        read_se(syntax, "ref_region_right_offset")?;
        read_se(syntax, "ref_region_bottom_offset")?;
    }
    syntax.index = Some(Index::One(at));
    if syntax.flag("resample_phase_set_present_flag")? {
        syntax.index = layer;
        read_ue(syntax, "phase_hor_luma")?;
        read_ue(syntax, "phase_ver_luma")?;
        read_ue(syntax, "phase_hor_chroma_plus8")?;
        read_ue(syntax, "phase_ver_chroma_plus8")?;
    }
    Ok(())
}

/// Reads the screen content extension of a picture parameter set.
fn read_pps_screen(syntax: &mut Nal<'_, '_, '_>) -> Result<(), H265Error> {
    syntax.flag("pps_curr_pic_ref_enabled_flag")?;
    if syntax.flag("residual_adaptive_colour_transform_enabled_flag")? {
        syntax.flag("pps_slice_act_qp_offsets_present_flag")?;
        read_se(syntax, "pps_act_y_qp_offset_plus5")?;
        read_se(syntax, "pps_act_cb_qp_offset_plus5")?;
        read_se(syntax, "pps_act_cr_qp_offset_plus3")?;
    }
    if syntax.flag("pps_palette_predictor_initializers_present_flag")? {
        read_pps_palette(syntax)?;
    }
    Ok(())
}

/// Reads the colors of a picture parameter set.
fn read_pps_palette(syntax: &mut Nal<'_, '_, '_>) -> Result<(), H265Error> {
    let count = read_ue(syntax, "pps_num_palette_predictor_initializers")?;
    if count == 0 {
        return Ok(());
    }
    let is_monochrome = syntax.flag("monochrome_palette_flag")?;
    let luma = read_ue(syntax, "luma_bit_depth_entry_minus8")?;
    let mut chroma = 0;
    if !is_monochrome {
        chroma = read_ue(syntax, "chroma_bit_depth_entry_minus8")?;
    }
    let depths = Depths::of(is_monochrome, luma, chroma)?;
    read_colors(syntax, "pps_palette_predictor_initializer", count, depths)
}
