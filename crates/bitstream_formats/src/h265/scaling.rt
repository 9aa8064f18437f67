//! Scaling lists (section 7.3.4).

use super::Nal;
use crate::element::Index;
use crate::nal::{read_se, read_ue};
use bitstream_io::Error;

/// Reads the scaling lists of all four sizes.
pub(super) fn read_scaling_lists(syntax: &mut Nal<'_, '_, '_>) -> Result<(), Error> {
    for size in 0..4 {
        read_size(syntax, size)?;
    }
    Ok(())
}

/// Reads the scaling lists of a size: two of the largest size, six of any other.
fn read_size(syntax: &mut Nal<'_, '_, '_>, size: u32) -> Result<(), Error> {
    for matrix in 0..6 {
        if size < 3 || matrix % 3 == 0 {
            read_scaling_list(syntax, size, matrix)?;
        }
    }
    Ok(())
}

/// Reads a scaling list, or the number of a list that it repeats.
fn read_scaling_list(syntax: &mut Nal<'_, '_, '_>, size: u32, matrix: u32) -> Result<(), Error> {
    syntax.index = Some(Index::Two(size, matrix));
    if syntax.flag("scaling_list_pred_mode_flag")? {
        if size > 1 {
            syntax.index = Some(Index::Two(size - 2, matrix));
            read_se(syntax, "scaling_list_dc_coef_minus8")?;
        }
        read_coefficients(syntax, size, matrix)?;
    } else {
        read_ue(syntax, "scaling_list_pred_matrix_id_delta")?;
    }
    syntax.index = None;
    Ok(())
}

/// Reads a difference for each number of a scaling list.
fn read_coefficients(syntax: &mut Nal<'_, '_, '_>, size: u32, matrix: u32) -> Result<(), Error> {
    let count = if size == 0 { 16 } else { 64 };
    for at in 0..count {
        syntax.index = Some(Index::Three(size, matrix, at));
        read_se(syntax, "scaling_list_delta_coef")?;
    }
    Ok(())
}
