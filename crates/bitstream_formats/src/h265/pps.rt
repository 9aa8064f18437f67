//! Picture parameter sets (section 7.3.2.3).

use super::extensions::read_pps_extensions;
use super::scaling::read_scaling_lists;
use super::{H265Error, Nal};
use crate::element::Index;
use crate::nal::{read_se, read_ue};
use bitstream_io::Error;

/// Reads a picture parameter set. The last 1 of the unit is at `last`.
pub(super) fn read_pps(syntax: &mut Nal<'_, '_, '_>, last: u64) -> Result<(), H265Error> {
    let number = read_ue(syntax, "pps_pic_parameter_set_id")?;
    if number > 63 {
        return Err(H265Error::PictureNumber(number));
    }
    let named = read_ue(syntax, "pps_seq_parameter_set_id")?;
    if named > 15 {
        return Err(H265Error::SequenceNumber(named));
    }
    let skips = read_coding(syntax)?;
    let has_tiles = syntax.flag("tiles_enabled_flag")?;
    syntax.flag("entropy_coding_sync_enabled_flag")?;
    if has_tiles {
        read_tiles(syntax)?;
    }
    syntax.flag("pps_loop_filter_across_slices_enabled_flag")?;
    if syntax.flag("deblocking_filter_control_present_flag")? {
        read_deblocking(syntax)?;
    }
    if syntax.flag("pps_scaling_list_data_present_flag")? {
        read_scaling_lists(syntax)?;
    }
    syntax.flag("lists_modification_present_flag")?;
    read_ue(syntax, "log2_parallel_merge_level_minus2")?;
    syntax.flag("slice_segment_header_extension_present_flag")?;
    if syntax.flag("pps_extension_present_flag")? {
        read_pps_extensions(syntax, skips, last)?;
    }
    Ok(())
}

/// Reads the elements on coding. Returns true if the transform may be skipped.
fn read_coding(syntax: &mut Nal<'_, '_, '_>) -> Result<bool, Error> {
    syntax.flag("dependent_slice_segments_enabled_flag")?;
    syntax.flag("output_flag_present_flag")?;
    syntax.number("num_extra_slice_header_bits", 3)?;
    syntax.flag("sign_data_hiding_enabled_flag")?;
    syntax.flag("cabac_init_present_flag")?;
    read_ue(syntax, "num_ref_idx_l0_default_active_minus1")?;
    read_ue(syntax, "num_ref_idx_l1_default_active_minus1")?;
    read_se(syntax, "init_qp_minus26")?;
    syntax.flag("constrained_intra_pred_flag")?;
    let skips = syntax.flag("transform_skip_enabled_flag")?;
    if syntax.flag("cu_qp_delta_enabled_flag")? {
        read_ue(syntax, "diff_cu_qp_delta_depth")?;
    }
    read_se(syntax, "pps_cb_qp_offset")?;
    read_se(syntax, "pps_cr_qp_offset")?;
    syntax.flag("pps_slice_chroma_qp_offsets_present_flag")?;
    syntax.flag("weighted_pred_flag")?;
    syntax.flag("weighted_bipred_flag")?;
    syntax.flag("transquant_bypass_enabled_flag")?;
    Ok(skips)
}

/// Reads the columns and the rows of tiles.
fn read_tiles(syntax: &mut Nal<'_, '_, '_>) -> Result<(), H265Error> {
    let columns = read_ue(syntax, "num_tile_columns_minus1")?;
    let rows = read_ue(syntax, "num_tile_rows_minus1")?;
    if columns > 19 || rows > 21 {
        return Err(H265Error::TooManyTiles);
    }
    if !syntax.flag("uniform_spacing_flag")? {
        read_sizes(syntax, "column_width_minus1", columns)?;
        read_sizes(syntax, "row_height_minus1", rows)?;
    }
    syntax.flag("loop_filter_across_tiles_enabled_flag")?;
    Ok(())
}

/// Reads the sizes of `count` tiles.
fn read_sizes(syntax: &mut Nal<'_, '_, '_>, name: &'static str, count: u32) -> Result<(), Error> {
    for at in 0..count {
        syntax.index = Some(Index::One(at));
        read_ue(syntax, name)?;
    }
    syntax.index = None;
    Ok(())
}

/// Reads the settings of the deblocking filter.
fn read_deblocking(syntax: &mut Nal<'_, '_, '_>) -> Result<(), Error> {
    syntax.flag("deblocking_filter_override_enabled_flag")?;
    if !syntax.flag("pps_deblocking_filter_disabled_flag")? {
        read_se(syntax, "pps_beta_offset_div2")?;
        read_se(syntax, "pps_tc_offset_div2")?;
    }
    Ok(())
}
