//! The display of pictures: the first elements of video usability information (annex E of both
//! formats).

use super::read_ue;
use crate::element::Syntax;
use bitstream_io::{BE, Error};

/// Reads the elements on the display of pictures.
pub(crate) fn read_signal(syntax: &mut Syntax<'_, '_, '_, BE>) -> Result<(), Error> {
    if syntax.flag("aspect_ratio_info_present_flag")? {
        if syntax.number("aspect_ratio_idc", 8)? == 255 {
            syntax.number("sar_width", 16)?;
            syntax.number("sar_height", 16)?;
        }
    }
    if syntax.flag("overscan_info_present_flag")? {
        syntax.flag("overscan_appropriate_flag")?;
    }
    if syntax.flag("video_signal_type_present_flag")? {
        syntax.number("video_format", 3)?;
        syntax.flag("video_full_range_flag")?;
        if syntax.flag("colour_description_present_flag")? {
            syntax.number("colour_primaries", 8)?;
            syntax.number("transfer_characteristics", 8)?;
            syntax.number("matrix_coefficients", 8)?;
        }
    }
    if syntax.flag("chroma_loc_info_present_flag")? {
        read_ue(syntax, "chroma_sample_loc_type_top_field")?;
        read_ue(syntax, "chroma_sample_loc_type_bottom_field")?;
    }
    Ok(())
}
