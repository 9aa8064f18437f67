//! The weights of the pictures that predict a slice (section 7.3.3.2).

use crate::element::{Index, Syntax};
use crate::nal::{read_se, read_ue};
use bitstream_io::{BE, Error};

/// The names of the elements of a list of pictures.
#[derive(Clone, Copy)]
struct Names {
    luma_flag: &'static str,
    luma_weight: &'static str,
    luma_offset: &'static str,
    chroma_flag: &'static str,
    chroma_weight: &'static str,
    chroma_offset: &'static str,
}

/// The names of the first list.
const FIRST: Names = Names {
    luma_flag: "luma_weight_l0_flag",
    luma_weight: "luma_weight_l0",
    luma_offset: "luma_offset_l0",
    chroma_flag: "chroma_weight_l0_flag",
    chroma_weight: "chroma_weight_l0",
    chroma_offset: "chroma_offset_l0",
};

/// The names of the second list.
const SECOND: Names = Names {
    luma_flag: "luma_weight_l1_flag",
    luma_weight: "luma_weight_l1",
    luma_offset: "luma_offset_l1",
    chroma_flag: "chroma_weight_l1_flag",
    chroma_weight: "chroma_weight_l1",
    chroma_offset: "chroma_offset_l1",
};

/// Reads the weights of one list or of both. `last` has the index of the last picture of each list.
pub(super) fn read_weights(
    syntax: &mut Syntax<'_, '_, '_, BE>,
    has_chroma: bool,
    last: [u32; 2],
    is_both: bool,
) -> Result<(), Error> {
    read_ue(syntax, "luma_log2_weight_denom")?;
    if has_chroma {
        read_ue(syntax, "chroma_log2_weight_denom")?;
    }
    read_list(syntax, &FIRST, has_chroma, last[0])?;
    if is_both {
        read_list(syntax, &SECOND, has_chroma, last[1])?;
    }
    Ok(())
}

/// Reads the weights of a list of pictures. `last` is the index of its last picture.
fn read_list(
    syntax: &mut Syntax<'_, '_, '_, BE>,
    names: &Names,
    has_chroma: bool,
    last: u32,
) -> Result<(), Error> {
    for at in 0..=last {
        syntax.index = Some(Index::One(at));
        if syntax.flag(names.luma_flag)? {
            read_se(syntax, names.luma_weight)?;
            read_se(syntax, names.luma_offset)?;
        }
        if has_chroma && syntax.flag(names.chroma_flag)? {
            for part in 0..2 {
                syntax.index = Some(Index::Two(at, part));
                read_se(syntax, names.chroma_weight)?;
                read_se(syntax, names.chroma_offset)?;
            }
        }
    }
    syntax.index = None;
    Ok(())
}
