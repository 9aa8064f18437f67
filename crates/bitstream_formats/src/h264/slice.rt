//! The headers of slices (section 7.3.3).

use super::H264Error;
use super::sets::{ParameterSets, PictureOrder, PictureSet, SequenceSet};
use super::weights::read_weights;
use crate::element::{Index, Syntax};
use crate::nal::{UnitError, read_se, read_ue};
use bitstream_io::{BE, BitRead, Error};

/// The greatest number of commands in a list: a list of references has at most 32 pictures, or 64 fields of pictures.
const COMMANDS: u32 = 66;

/// The kinds of slices, by the pictures that predict them.
#[derive(Clone, Copy, Debug, PartialEq, Eq)]
enum Kind {
    /// Predicted from one list of earlier or later pictures.
    P,
    /// Predicted from two lists of pictures.
    B,
    /// Predicted from the picture itself.
    I,
    /// Like `P`, to switch between streams.
    SwitchingP,
    /// Like `I`, to switch between streams.
    SwitchingI,
}

impl Kind {
    /// Returns the kind of a slice whose `slice_type` is `number`.
    fn of(number: u32) -> Option<Kind> {
        match number {
            0 | 5 => Some(Kind::P),
            1 | 6 => Some(Kind::B),
            2 | 7 => Some(Kind::I),
            3 | 8 => Some(Kind::SwitchingP),
            4 | 9 => Some(Kind::SwitchingI),
            _ => None,
        }
    }

    /// Returns true if no list of pictures predicts the slice.
    fn is_intra(self) -> bool {
        matches!(self, Kind::I | Kind::SwitchingI)
    }
}

/// The facts from the unit header of a slice.
#[derive(Clone, Copy, Debug)]
pub(super) struct SliceUnit {
    /// True if the picture is an IDR picture.
    pub(super) is_idr: bool,
    /// True if other pictures may refer to the picture.
    pub(super) is_reference: bool,
}

/// Reads the header of a slice, and the bits before its data. The last 1 of the unit is at `last`.
pub(super) fn read_slice(
    syntax: &mut Syntax<'_, '_, '_, BE>,
    sets: &ParameterSets,
    unit: SliceUnit,
    last: u64,
) -> Result<(), H264Error> {
    read_ue(syntax, "first_mb_in_slice")?;
    let number = read_ue(syntax, "slice_type")?;
    let Some(kind) = Kind::of(number) else {
        return Err(H264Error::SliceType(number));
    };
    let named = read_ue(syntax, "pic_parameter_set_id")?;
    let Some(picture) = sets.picture(named) else {
        return Err(H264Error::MissingPicture(named));
    };
    let Some(sequence) = sets.sequence(picture.sequence) else {
        return Err(H264Error::MissingSequence(picture.sequence));
    };
    read_place(syntax, &sequence, &picture, unit)?;
    if kind == Kind::B {
        syntax.flag("direct_spatial_mv_pred_flag")?;
    }
    if !kind.is_intra() {
        read_references(syntax, &sequence, &picture, kind)?;
    }
    if unit.is_reference {
        read_marking(syntax, unit.is_idr)?;
    }
    read_coding(syntax, &picture, kind)?;
    if syntax.place() > last {
        return Err(H264Error::Unit(UnitError::NoStopBit));
    }
    if picture.arithmetic {
        read_alignment(syntax)?;
    }
    Ok(())
}

/// Reads the number of the slice's picture or field, and its order.
fn read_place(
    syntax: &mut Syntax<'_, '_, '_, BE>,
    sequence: &SequenceSet,
    picture: &PictureSet,
    unit: SliceUnit,
) -> Result<(), Error> {
    if sequence.separate_planes {
        syntax.number("colour_plane_id", 2)?;
    }
    syntax.number("frame_num", sequence.frame_bits)?;
    let is_field = !sequence.frames_only && syntax.flag("field_pic_flag")?;
    if is_field {
        syntax.flag("bottom_field_flag")?;
    }
    if unit.is_idr {
        read_ue(syntax, "idr_pic_id")?;
    }
    let has_bottom = picture.bottom_order && !is_field;
    match sequence.order {
        PictureOrder::Low(bits) => {
            syntax.number("pic_order_cnt_lsb", bits)?;
            if has_bottom {
                read_se(syntax, "delta_pic_order_cnt_bottom")?;
            }
        }
        PictureOrder::Cycle => read_deltas(syntax, has_bottom)?,
        PictureOrder::Decoding => {}
    }
    if picture.redundant_count {
        read_ue(syntax, "redundant_pic_cnt")?;
    }
    Ok(())
}

/// Reads the differences of the order from the order of a cycle.
fn read_deltas(syntax: &mut Syntax<'_, '_, '_, BE>, has_bottom: bool) -> Result<(), Error> {
    syntax.index = Some(Index::One(0));
    read_se(syntax, "delta_pic_order_cnt")?;
    if has_bottom {
        syntax.index = Some(Index::One(1));
        read_se(syntax, "delta_pic_order_cnt")?;
    }
    syntax.index = None;
    Ok(())
}

/// Reads the lists of the pictures that predict the slice, and their weights.
fn read_references(
    syntax: &mut Syntax<'_, '_, '_, BE>,
    sequence: &SequenceSet,
    picture: &PictureSet,
    kind: Kind,
) -> Result<(), H264Error> {
    let is_both = kind == Kind::B;
    let mut last = picture.last_references;
    if syntax.flag("num_ref_idx_active_override_flag")? {
        last[0] = read_ue(syntax, "num_ref_idx_l0_active_minus1")?;
        if is_both {
            last[1] = read_ue(syntax, "num_ref_idx_l1_active_minus1")?;
        }
    }
    if last[0] > 31 || last[1] > 31 {
        return Err(H264Error::TooManyReferences);
    }
    read_modification(syntax, "ref_pic_list_modification_flag_l0")?;
    if is_both {
        read_modification(syntax, "ref_pic_list_modification_flag_l1")?;
    }
    let is_weighted = if is_both {
        picture.weighted_both == 1
    } else {
        picture.weighted_one
    };
    if is_weighted {
        read_weights(syntax, sequence.has_chroma(), last, is_both)?;
    }
    Ok(())
}

/// Reads the changes of a list of pictures.
fn read_modification(
    syntax: &mut Syntax<'_, '_, '_, BE>,
    flag: &'static str,
) -> Result<(), H264Error> {
    if !syntax.flag(flag)? {
        return Ok(());
    }
    for _ in 0..COMMANDS {
        match read_ue(syntax, "modification_of_pic_nums_idc")? {
            0 | 1 => {
                read_ue(syntax, "abs_diff_pic_num_minus1")?;
            }
            2 => {
                read_ue(syntax, "long_term_pic_num")?;
            }
            3 => return Ok(()),
            command => return Err(H264Error::Command(command)),
        }
    }
    Err(H264Error::TooManyCommands)
}

/// Reads the marking of decoded pictures as references.
fn read_marking(syntax: &mut Syntax<'_, '_, '_, BE>, is_idr: bool) -> Result<(), H264Error> {
    if is_idr {
        syntax.flag("no_output_of_prior_pics_flag")?;
        syntax.flag("long_term_reference_flag")?;
        return Ok(());
    }
    if !syntax.flag("adaptive_ref_pic_marking_mode_flag")? {
        return Ok(());
    }
    for _ in 0..COMMANDS {
        let command = read_ue(syntax, "memory_management_control_operation")?;
        if command == 0 {
            return Ok(());
        }
        if command > 6 {
            return Err(H264Error::Command(command));
        }
        read_command(syntax, command)?;
    }
    Err(H264Error::TooManyCommands)
}

/// Reads the pictures that a command on references names.
fn read_command(syntax: &mut Syntax<'_, '_, '_, BE>, command: u32) -> Result<(), Error> {
    if command == 1 || command == 3 {
        read_ue(syntax, "difference_of_pic_nums_minus1")?;
    }
    if command == 2 {
        read_ue(syntax, "long_term_pic_num")?;
    }
    if command == 3 || command == 6 {
        read_ue(syntax, "long_term_frame_idx")?;
    }
    if command == 4 {
        read_ue(syntax, "max_long_term_frame_idx_plus1")?;
    }
    Ok(())
}

/// Reads the elements on the coding of the slice's data.
fn read_coding(
    syntax: &mut Syntax<'_, '_, '_, BE>,
    picture: &PictureSet,
    kind: Kind,
) -> Result<(), Error> {
    if picture.arithmetic && !kind.is_intra() {
        read_ue(syntax, "cabac_init_idc")?;
    }
    read_se(syntax, "slice_qp_delta")?;
    if kind == Kind::SwitchingP {
        syntax.flag("sp_for_switch_flag")?;
    }
    if kind == Kind::SwitchingP || kind == Kind::SwitchingI {
        read_se(syntax, "slice_qs_delta")?;
    }
    if picture.deblocking && read_ue(syntax, "disable_deblocking_filter_idc")? != 1 {
        read_se(syntax, "slice_alpha_c0_offset_div2")?;
        read_se(syntax, "slice_beta_offset_div2")?;
    }
    Ok(())
}

/// Reads the bits up to the next whole byte, before the data of CABAC.
fn read_alignment(syntax: &mut Syntax<'_, '_, '_, BE>) -> Result<(), H264Error> {
    for _ in 0..7 {
        if syntax.reader.byte_aligned() {
            break;
        }
        if !syntax.flag("cabac_alignment_one_bit")? {
            return Err(H264Error::AlignmentBit);
        }
    }
    Ok(())
}
