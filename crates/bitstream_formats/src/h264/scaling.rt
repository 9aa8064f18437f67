//! Scaling lists (section 7.3.2.1.1.1).

use crate::element::{Index, Syntax};
use crate::nal::read_se;
use bitstream_io::{BE, Error};

/// Reads a flag for each of some scaling lists, and the lists whose flag is set.
pub(super) fn read_scaling_lists(
    syntax: &mut Syntax<'_, '_, '_, BE>,
    name: &'static str,
    count: u32,
) -> Result<(), Error> {
    for at in 0..count {
        syntax.index = Some(Index::One(at));
        let present = syntax.flag(name)?;
        syntax.index = None;
        if present {
            read_scaling_list(syntax, if at < 6 { 16 } else { 64 })?;
        }
    }
    Ok(())
}

/// Reads a scaling list: a difference for each number, until the next one is 0.
fn read_scaling_list(syntax: &mut Syntax<'_, '_, '_, BE>, size: u32) -> Result<(), Error> {
    let mut last = 8i32;
    for at in 0..size {
        syntax.index = Some(Index::One(at));
        let delta = read_se(syntax, "delta_scale")?;
        last = last.wrapping_add(delta).wrapping_add(256).rem_euclid(256);
        if last == 0 {
            break;
        }
    }
    syntax.index = None;
    Ok(())
}
