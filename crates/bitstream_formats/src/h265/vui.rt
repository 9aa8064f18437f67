//! Video usability information (section E.2.1).

use super::hrd::read_hrd;
use super::{H265Error, Nal};
use crate::nal::{read_signal, read_ue};
use bitstream_io::Error;

/// Reads video usability information. There are `lower` sub-layers below the highest one.
pub(super) fn read_vui(syntax: &mut Nal<'_, '_, '_>, lower: u32) -> Result<(), H265Error> {
    read_signal(syntax)?;
    syntax.flag("neutral_chroma_indication_flag")?;
    syntax.flag("field_seq_flag")?;
    syntax.flag("frame_field_info_present_flag")?;
    if syntax.flag("default_display_window_flag")? {
        read_ue(syntax, "def_disp_win_left_offset")?;
        read_ue(syntax, "def_disp_win_right_offset")?;
        read_ue(syntax, "def_disp_win_top_offset")?;
        read_ue(syntax, "def_disp_win_bottom_offset")?;
    }
    if syntax.flag("vui_timing_info_present_flag")? {
        read_timing(syntax, lower)?;
    }
    if syntax.flag("bitstream_restriction_flag")? {
        read_restriction(syntax)?;
    }
    Ok(())
}

/// Reads the times of pictures.
fn read_timing(syntax: &mut Nal<'_, '_, '_>, lower: u32) -> Result<(), H265Error> {
    syntax.number("vui_num_units_in_tick", 32)?;
    syntax.number("vui_time_scale", 32)?;
    if syntax.flag("vui_poc_proportional_to_timing_flag")? {
        read_ue(syntax, "vui_num_ticks_poc_diff_one_minus1")?;
    }
    if syntax.flag("vui_hrd_parameters_present_flag")? {
        read_hrd(syntax, None, lower)?;
    }
    Ok(())
}

/// Reads the restrictions of a stream.
fn read_restriction(syntax: &mut Nal<'_, '_, '_>) -> Result<(), Error> {
    syntax.flag("tiles_fixed_structure_flag")?;
    syntax.flag("motion_vectors_over_pic_boundaries_flag")?;
    syntax.flag("restricted_ref_pic_lists_flag")?;
    read_ue(syntax, "min_spatial_segmentation_idc")?;
    read_ue(syntax, "max_bytes_per_pic_denom")?;
    read_ue(syntax, "max_bits_per_min_cu_denom")?;
    read_ue(syntax, "log2_max_mv_length_horizontal")?;
    read_ue(syntax, "log2_max_mv_length_vertical")?;
    Ok(())
}
