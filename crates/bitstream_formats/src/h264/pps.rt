//! Picture parameter sets (section 7.3.2.2).

ghost use Rattle.std.specs.Prelude.{◌≡◌};
ghost use Rattle.bitstream_formats.specs.ScalingLists.{lists_of_picture};

use super::H264Error;
use super::scaling::read_scaling_lists;
use super::sets::{ParameterSets, PictureSet, SequenceSet};
use crate::element::Syntax;
use crate::nal::{read_se, read_ue};
use bitstream_io::BE;

/// Reads a picture parameter set and returns its number. The last 1 of the unit is at `last`.
pub(super) fn read_pps(
    syntax: &mut Syntax<'_, '_, '_, BE>,
    sets: &ParameterSets,
    last: u64,
) -> Result<(u32, PictureSet), H264Error> {
    let number = read_ue(syntax, "pic_parameter_set_id")?;
    if number > 255 {
        return Err(H264Error::PictureNumber(number));
    }
    let named = read_ue(syntax, "seq_parameter_set_id")?;
    let Some(sequence) = sets.sequence(named) else {
        return Err(H264Error::MissingSequence(named));
    };
    let mut set = read_common(syntax, named)?;
    if syntax.place() < last {
        set.large_transform = read_more(syntax, &sequence)?;
    }
    Ok((number, set))
}

/// Reads the elements that each set has after its two numbers. The second number is `sequence`.
fn read_common(
    syntax: &mut Syntax<'_, '_, '_, BE>,
    sequence: u32,
) -> Result<PictureSet, H264Error> {
    let arithmetic = syntax.flag("entropy_coding_mode_flag")?;
    let bottom_order = syntax.flag("bottom_field_pic_order_in_frame_present_flag")?;
    if read_ue(syntax, "num_slice_groups_minus1")? > 0 {
        return Err(H264Error::SliceGroups);
    }
    let first = read_ue(syntax, "num_ref_idx_l0_default_active_minus1")?;
    let second = read_ue(syntax, "num_ref_idx_l1_default_active_minus1")?;
    let weighted_one = syntax.flag("weighted_pred_flag")?;
    let weighted_both = syntax.number("weighted_bipred_idc", 2)?;
    read_se(syntax, "pic_init_qp_minus26")?;
    read_se(syntax, "pic_init_qs_minus26")?;
    read_se(syntax, "chroma_qp_index_offset")?;
    let deblocking = syntax.flag("deblocking_filter_control_present_flag")?;
    syntax.flag("constrained_intra_pred_flag")?;
    let redundant_count = syntax.flag("redundant_pic_cnt_present_flag")?;
    Ok(PictureSet {
        sequence,
        large_transform: false,
        arithmetic,
        bottom_order,
        last_references: [first, second],
        weighted_one,
        weighted_both,
        deblocking,
        redundant_count,
    })
}

/// Returns the number of scaling lists that a picture parameter set may have.
fn lists_of(sequence: &SequenceSet, large_transform: bool) -> u32
    ensures { result ≡ lists_of_picture sequence.now.chroma_format large_transform }
{
    match (large_transform, sequence.chroma_format) {
        (false, _) => 6,
        (true, 3) => 12,
        (true, _) => 8,
    }
}

/// Reads the elements of the high profiles. Returns true if the transform of 8x8 samples is used.
fn read_more(
    syntax: &mut Syntax<'_, '_, '_, BE>,
    sequence: &SequenceSet,
) -> Result<bool, H264Error> {
    let large = syntax.flag("transform_8x8_mode_flag")?;
    if syntax.flag("pic_scaling_matrix_present_flag")? {
        let count = lists_of(sequence, large);
        read_scaling_lists(syntax, "pic_scaling_list_present_flag", count)?;
    }
    read_se(syntax, "second_chroma_qp_index_offset")?;
    Ok(large)
}
