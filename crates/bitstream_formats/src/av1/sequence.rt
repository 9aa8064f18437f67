//! Sequence headers (section 5.5).

use super::Obu;
use crate::element::Index;
use bitstream_io::{BitRead, BitReadExt, Bits, Error};

/// Reads an unsigned number of variable length, `uvlc()`.
fn read_uvlc(syntax: &mut Obu<'_, '_, '_>, name: &'static str) -> Result<u32, Error> {
    let place = syntax.place();
    let zeros = syntax.reader.read_unary::<Bits<1>>()?;
    let value = if zeros >= 32 {
        u32::MAX
    } else {
        let rest: u32 = syntax.reader.read_var(zeros)?;
        (1u32 << zeros) - 1 + rest
    };
    syntax.note(place, name, value as i64)?;
    Ok(value)
}

/// Reads a sequence header, without the bits after it.
pub(super) fn read_sequence(syntax: &mut Obu<'_, '_, '_>) -> Result<(), Error> {
    let profile = syntax.number("seq_profile", 3)?;
    syntax.flag("still_picture")?;
    let reduced = syntax.flag("reduced_still_picture_header")?;
    if reduced {
        syntax.index = Some(Index::One(0));
        syntax.number("seq_level_idx", 5)?;
        syntax.index = None;
    } else {
        let delay_length = read_timing(syntax)?;
        let delays = syntax.flag("initial_display_delay_present_flag")?;
        read_operating_points(syntax, delay_length, delays)?;
    }
    read_frame_size(syntax, reduced)?;
    syntax.flag("use_128x128_superblock")?;
    syntax.flag("enable_filter_intra")?;
    syntax.flag("enable_intra_edge_filter")?;
    if !reduced {
        read_tools(syntax)?;
    }
    syntax.flag("enable_superres")?;
    syntax.flag("enable_cdef")?;
    syntax.flag("enable_restoration")?;
    read_color(syntax, profile)?;
    syntax.flag("film_grain_params_present")?;
    Ok(())
}

/// Reads the timing information. Returns the number of bits of a buffer's delay, if there is a
/// decoder model.
fn read_timing(syntax: &mut Obu<'_, '_, '_>) -> Result<Option<u32>, Error> {
    if !syntax.flag("timing_info_present_flag")? {
        return Ok(None);
    }
    syntax.number("num_units_in_display_tick", 32)?;
    syntax.number("time_scale", 32)?;
    if syntax.flag("equal_picture_interval")? {
        read_uvlc(syntax, "num_ticks_per_picture_minus_1")?;
    }
    if !syntax.flag("decoder_model_info_present_flag")? {
        return Ok(None);
    }
    let length = syntax.number("buffer_delay_length_minus_1", 5)? + 1;
    syntax.number("num_units_in_decoding_tick", 32)?;
    syntax.number("buffer_removal_time_length_minus_1", 5)?;
    syntax.number("frame_presentation_time_length_minus_1", 5)?;
    Ok(Some(length))
}

/// Reads the operating points.
fn read_operating_points(
    syntax: &mut Obu<'_, '_, '_>,
    delay_length: Option<u32>,
    delays: bool,
) -> Result<(), Error> {
    let count = syntax.number("operating_points_cnt_minus_1", 5)?;
    for at in 0..count + 1 {
        syntax.index = Some(Index::One(at));
        read_operating_point(syntax, delay_length, delays)?;
    }
    syntax.index = None;
    Ok(())
}

/// Reads an operating point.
fn read_operating_point(
    syntax: &mut Obu<'_, '_, '_>,
    delay_length: Option<u32>,
    delays: bool,
) -> Result<(), Error> {
    syntax.number("operating_point_idc", 12)?;
    if syntax.number("seq_level_idx", 5)? > 7 {
        syntax.flag("seq_tier")?;
    }
    if let Some(length) = delay_length {
        if syntax.flag("decoder_model_present_for_this_op")? {
            syntax.number("decoder_buffer_delay", length)?;
            syntax.number("encoder_buffer_delay", length)?;
            syntax.flag("low_delay_mode_flag")?;
        }
    }
    if delays && syntax.flag("initial_display_delay_present_for_this_op")? {
        syntax.number("initial_display_delay_minus_1", 4)?;
    }
    Ok(())
}

/// Reads the size of a frame.
fn read_frame_size(syntax: &mut Obu<'_, '_, '_>, reduced: bool) -> Result<(), Error> {
    let width = syntax.number("frame_width_bits_minus_1", 4)? + 1;
    let height = syntax.number("frame_height_bits_minus_1", 4)? + 1;
    syntax.number("max_frame_width_minus_1", width)?;
    syntax.number("max_frame_height_minus_1", height)?;
    if !reduced && syntax.flag("frame_id_numbers_present_flag")? {
        syntax.number("delta_frame_id_length_minus_2", 4)?;
        syntax.number("additional_frame_id_length_minus_1", 3)?;
    }
    Ok(())
}

/// Reads the flags of the coding tools.
fn read_tools(syntax: &mut Obu<'_, '_, '_>) -> Result<(), Error> {
    syntax.flag("enable_interintra_compound")?;
    syntax.flag("enable_masked_compound")?;
    syntax.flag("enable_warped_motion")?;
    syntax.flag("enable_dual_filter")?;
    let hints = syntax.flag("enable_order_hint")?;
    if hints {
        syntax.flag("enable_jnt_comp")?;
        syntax.flag("enable_ref_frame_mvs")?;
    }
    let chosen = syntax.flag("seq_choose_screen_content_tools")?;
    let screen = chosen || syntax.number("seq_force_screen_content_tools", 1)? > 0;
    if screen && !syntax.flag("seq_choose_integer_mv")? {
        syntax.number("seq_force_integer_mv", 1)?;
    }
    if hints {
        syntax.number("order_hint_bits_minus_1", 3)?;
    }
    Ok(())
}

/// Reads the format of the colors.
fn read_color(syntax: &mut Obu<'_, '_, '_>, profile: u32) -> Result<(), Error> {
    let high = syntax.flag("high_bitdepth")?;
    let twelve = profile == 2 && high && syntax.flag("twelve_bit")?;
    let mono = profile != 1 && syntax.flag("mono_chrome")?;
    let mut srgb = false;
    if syntax.flag("color_description_present_flag")? {
        let primaries = syntax.number("color_primaries", 8)?;
        let transfer = syntax.number("transfer_characteristics", 8)?;
        let matrix = syntax.number("matrix_coefficients", 8)?;
        srgb = primaries == 1 && transfer == 13 && matrix == 0;
    }
    if mono {
        syntax.flag("color_range")?;
        return Ok(());
    }
    if !srgb {
        syntax.flag("color_range")?;
        read_subsampling(syntax, profile, twelve)?;
    }
    syntax.flag("separate_uv_delta_q")?;
    Ok(())
}

/// Reads the subsampling of the colors.
fn read_subsampling(syntax: &mut Obu<'_, '_, '_>, profile: u32, twelve: bool) -> Result<(), Error> {
    let mut both = profile == 0;
    if profile == 2 && twelve {
        both = syntax.flag("subsampling_x")? && syntax.flag("subsampling_y")?;
    }
    if both {
        syntax.number("chroma_sample_position", 2)?;
    }
    Ok(())
}
