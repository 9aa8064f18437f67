//! The first colors for the prediction of palettes (sections 7.3.2.2.3 and 7.3.2.3.3).

use super::{H265Error, Nal};
use crate::element::Index;
use bitstream_io::Error;

/// The bit depths of samples.
#[derive(Clone, Copy)]
pub(super) struct Depths {
    luma: u32,
    // `None` if there is no chroma.
    chroma: Option<u32>,
}

impl Depths {
    /// Returns bit depths, from the numbers of bits above eight.
    pub(super) fn of(is_monochrome: bool, luma: u32, chroma: u32) -> Result<Depths, H265Error> {
        if luma > 8 || chroma > 8 {
            return Err(H265Error::SamplesTooDeep);
        }
        Ok(Depths {
            luma: luma + 8,
            chroma: if is_monochrome {
                None
            } else {
                Some(chroma + 8)
            },
        })
    }
}

/// Reads `count` colors of each component.
pub(super) fn read_colors(
    syntax: &mut Nal<'_, '_, '_>,
    name: &'static str,
    count: u32,
    depths: Depths,
) -> Result<(), H265Error> {
    if count > 128 {
        return Err(H265Error::PaletteTooLong);
    }
    read_component(syntax, name, 0, count, depths.luma)?;
    if let Some(depth) = depths.chroma {
        read_component(syntax, name, 1, count, depth)?;
        read_component(syntax, name, 2, count, depth)?;
    }
    Ok(())
}

/// Reads `count` colors of a component.
fn read_component(
    syntax: &mut Nal<'_, '_, '_>,
    name: &'static str,
    component: u32,
    count: u32,
    depth: u32,
) -> Result<(), Error> {
    for at in 0..count {
        syntax.index = Some(Index::Two(component, at));
        syntax.number(name, depth)?;
    }
    syntax.index = None;
    Ok(())
}
