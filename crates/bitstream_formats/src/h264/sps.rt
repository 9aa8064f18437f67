//! Sequence parameter sets (section 7.3.2.1.1).

use super::H264Error;
use super::scaling::read_scaling_lists;
use super::sets::{PictureOrder, SequenceSet};
use super::vui::read_vui;
use crate::element::{Index, Syntax};
use crate::nal::{read_se, read_ue};
use bitstream_io::{BE, Error};

/// Returns true if the parameter sets of a profile have a chroma format.
fn has_chroma(profile: u32) -> bool {
    matches!(
        profile,
        44 | 83 | 86 | 100 | 110 | 118 | 122 | 128 | 138 | 244
    )
}

/// Reads a sequence parameter set and returns its number.
pub(super) fn read_sps(
    syntax: &mut Syntax<'_, '_, '_, BE>,
) -> Result<(u32, SequenceSet), H264Error> {
    let profile = syntax.number("profile_idc", 8)?;
    read_constraints(syntax)?;
    syntax.number("level_idc", 8)?;
    let number = read_ue(syntax, "seq_parameter_set_id")?;
    if number > 31 {
        return Err(H264Error::SequenceNumber(number));
    }
    let (chroma_format, separate_planes) = if has_chroma(profile) {
        read_chroma(syntax)?
    } else {
        (1, false)
    };
    let frame_bits = read_bits(syntax, "log2_max_frame_num_minus4")?;
    let order = read_order(syntax)?;
    read_ue(syntax, "max_num_ref_frames")?;
    syntax.flag("gaps_in_frame_num_allowed_flag")?;
    let frames_only = read_picture(syntax)?;
    if syntax.flag("vui_parameters_present_flag")? {
        read_vui(syntax)?;
    }
    Ok((
        number,
        SequenceSet {
            profile,
            chroma_format,
            separate_planes,
            frame_bits,
            order,
            frames_only,
        },
    ))
}

/// Reads the constraints that a stream keeps beyond its profile.
fn read_constraints(syntax: &mut Syntax<'_, '_, '_, BE>) -> Result<(), Error> {
    syntax.flag("constraint_set0_flag")?;
    syntax.flag("constraint_set1_flag")?;
    syntax.flag("constraint_set2_flag")?;
    syntax.flag("constraint_set3_flag")?;
    syntax.flag("constraint_set4_flag")?;
    syntax.flag("constraint_set5_flag")?;
    syntax.number("reserved_zero_2bits", 2)?;
    Ok(())
}

/// Reads the format of chroma and the scaling lists. Returns the format, and true if the planes are separate.
fn read_chroma(syntax: &mut Syntax<'_, '_, '_, BE>) -> Result<(u32, bool), Error> {
    let chroma = read_ue(syntax, "chroma_format_idc")?;
    let separate = chroma == 3 && syntax.flag("separate_colour_plane_flag")?;
    read_ue(syntax, "bit_depth_luma_minus8")?;
    read_ue(syntax, "bit_depth_chroma_minus8")?;
    syntax.flag("qpprime_y_zero_transform_bypass_flag")?;
    if syntax.flag("seq_scaling_matrix_present_flag")? {
        let count = if chroma == 3 { 12 } else { 8 };
        read_scaling_lists(syntax, "seq_scaling_list_present_flag", count)?;
    }
    Ok((chroma, separate))
}

/// Reads a number of bits, stored less 4. Returns the number of bits, at most 16.
fn read_bits(syntax: &mut Syntax<'_, '_, '_, BE>, name: &'static str) -> Result<u32, H264Error> {
    let more = read_ue(syntax, name)?;
    if more > 12 {
        return Err(H264Error::TooManyBits);
    }
    Ok(more + 4)
}

/// Reads the coding of the order of pictures.
fn read_order(syntax: &mut Syntax<'_, '_, '_, BE>) -> Result<PictureOrder, H264Error> {
    match read_ue(syntax, "pic_order_cnt_type")? {
        0 => Ok(PictureOrder::Low(read_bits(syntax, "log2_max_pic_order_cnt_lsb_minus4")?)),
        1 => read_cycle(syntax),
        _ => Ok(PictureOrder::Decoding),
    }
}

/// Reads a cycle of offsets, and returns the way in which slices differ from it.
fn read_cycle(syntax: &mut Syntax<'_, '_, '_, BE>) -> Result<PictureOrder, H264Error> {
    let same = syntax.flag("delta_pic_order_always_zero_flag")?;
    read_se(syntax, "offset_for_non_ref_pic")?;
    read_se(syntax, "offset_for_top_to_bottom_field")?;
    let count = read_ue(syntax, "num_ref_frames_in_pic_order_cnt_cycle")?;
    if count > 255 {
        return Err(H264Error::TooManyFrames);
    }
    for at in 0..count {
        syntax.index = Some(Index::One(at));
        read_se(syntax, "offset_for_ref_frame")?;
    }
    syntax.index = None;
    if same {
        Ok(PictureOrder::Decoding)
    } else {
        Ok(PictureOrder::Cycle)
    }
}

/// Reads the size of a picture. Returns true if no picture is a field.
fn read_picture(syntax: &mut Syntax<'_, '_, '_, BE>) -> Result<bool, Error> {
    read_ue(syntax, "pic_width_in_mbs_minus1")?;
    read_ue(syntax, "pic_height_in_map_units_minus1")?;
    let frames_only = syntax.flag("frame_mbs_only_flag")?;
    if !frames_only {
        syntax.flag("mb_adaptive_frame_field_flag")?;
    }
    syntax.flag("direct_8x8_inference_flag")?;
    if syntax.flag("frame_cropping_flag")? {
        read_ue(syntax, "frame_crop_left_offset")?;
        read_ue(syntax, "frame_crop_right_offset")?;
        read_ue(syntax, "frame_crop_top_offset")?;
        read_ue(syntax, "frame_crop_bottom_offset")?;
    }
    Ok(frames_only)
}
