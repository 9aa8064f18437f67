//! Video usability information, with the parameters of hypothetical decoders (annex E).

use super::H264Error;
use crate::element::{Index, Syntax};
use crate::nal::{read_signal, read_ue};
use bitstream_io::{BE, Error};

/// Reads video usability information.
pub(super) fn read_vui(syntax: &mut Syntax<'_, '_, '_, BE>) -> Result<(), H264Error> {
    read_signal(syntax)?;
    if syntax.flag("timing_info_present_flag")? {
        syntax.number("num_units_in_tick", 32)?;
        syntax.number("time_scale", 32)?;
        syntax.flag("fixed_frame_rate_flag")?;
    }
    let nal = syntax.flag("nal_hrd_parameters_present_flag")?;
    if nal {
        read_hrd(syntax)?;
    }
    let vcl = syntax.flag("vcl_hrd_parameters_present_flag")?;
    if vcl {
        read_hrd(syntax)?;
    }
    if nal || vcl {
        syntax.flag("low_delay_hrd_flag")?;
    }
    syntax.flag("pic_struct_present_flag")?;
    if syntax.flag("bitstream_restriction_flag")? {
        read_restriction(syntax)?;
    }
    Ok(())
}

/// Reads the parameters of a hypothetical decoder.
fn read_hrd(syntax: &mut Syntax<'_, '_, '_, BE>) -> Result<(), H264Error> {
    let count = read_ue(syntax, "cpb_cnt_minus1")?;
    syntax.number("bit_rate_scale", 4)?;
    syntax.number("cpb_size_scale", 4)?;
    if count > 31 {
        return Err(H264Error::TooManySchedules);
    }
    for at in 0..count + 1 {
        syntax.index = Some(Index::One(at));
        read_ue(syntax, "bit_rate_value_minus1")?;
        read_ue(syntax, "cpb_size_value_minus1")?;
        syntax.flag("cbr_flag")?;
    }
    syntax.index = None;
    syntax.number("initial_cpb_removal_delay_length_minus1", 5)?;
    syntax.number("cpb_removal_delay_length_minus1", 5)?;
    syntax.number("dpb_output_delay_length_minus1", 5)?;
    syntax.number("time_offset_length", 5)?;
    Ok(())
}

/// Reads the restrictions of a stream.
fn read_restriction(syntax: &mut Syntax<'_, '_, '_, BE>) -> Result<(), Error> {
    syntax.flag("motion_vectors_over_pic_boundaries_flag")?;
    read_ue(syntax, "max_bytes_per_pic_denom")?;
    read_ue(syntax, "max_bits_per_mb_denom")?;
    read_ue(syntax, "log2_max_mv_length_horizontal")?;
    read_ue(syntax, "log2_max_mv_length_vertical")?;
    read_ue(syntax, "max_num_reorder_frames")?;
    read_ue(syntax, "max_dec_frame_buffering")?;
    Ok(())
}
