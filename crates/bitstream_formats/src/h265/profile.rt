//! Profiles, tiers and levels (section 7.3.3).

use super::Nal;
use crate::element::Index;
use bitstream_io::Error;

/// The names of the elements of a profile.
#[derive(Clone, Copy)]
struct Names {
    space: &'static str,
    tier: &'static str,
    profile: &'static str,
    compatibility: &'static str,
    progressive: &'static str,
    interlaced: &'static str,
    non_packed: &'static str,
    frame_only: &'static str,
    max_12bit: &'static str,
    max_10bit: &'static str,
    max_8bit: &'static str,
    max_422chroma: &'static str,
    max_420chroma: &'static str,
    max_monochrome: &'static str,
    intra: &'static str,
    one_picture_only: &'static str,
    lower_bit_rate: &'static str,
    max_14bit: &'static str,
    reserved_33: &'static str,
    reserved_34: &'static str,
    reserved_7: &'static str,
    reserved_35: &'static str,
    reserved_43: &'static str,
    inbld: &'static str,
    reserved_bit: &'static str,
}

/// The names for the profile of a whole stream.
const GENERAL: Names = Names {
    space: "general_profile_space",
    tier: "general_tier_flag",
    profile: "general_profile_idc",
    compatibility: "general_profile_compatibility_flag",
    progressive: "general_progressive_source_flag",
    interlaced: "general_interlaced_source_flag",
    non_packed: "general_non_packed_constraint_flag",
    frame_only: "general_frame_only_constraint_flag",
    max_12bit: "general_max_12bit_constraint_flag",
    max_10bit: "general_max_10bit_constraint_flag",
    max_8bit: "general_max_8bit_constraint_flag",
    max_422chroma: "general_max_422chroma_constraint_flag",
    max_420chroma: "general_max_420chroma_constraint_flag",
    max_monochrome: "general_max_monochrome_constraint_flag",
    intra: "general_intra_constraint_flag",
    one_picture_only: "general_one_picture_only_constraint_flag",
    lower_bit_rate: "general_lower_bit_rate_constraint_flag",
    max_14bit: "general_max_14bit_constraint_flag",
    reserved_33: "general_reserved_zero_33bits",
    reserved_34: "general_reserved_zero_34bits",
    reserved_7: "general_reserved_zero_7bits",
    reserved_35: "general_reserved_zero_35bits",
    reserved_43: "general_reserved_zero_43bits",
    inbld: "general_inbld_flag",
    reserved_bit: "general_reserved_zero_bit",
};

/// The names for the profile of a sub-layer.
const SUB_LAYER: Names = Names {
    space: "sub_layer_profile_space",
    tier: "sub_layer_tier_flag",
    profile: "sub_layer_profile_idc",
    compatibility: "sub_layer_profile_compatibility_flag",
    progressive: "sub_layer_progressive_source_flag",
    interlaced: "sub_layer_interlaced_source_flag",
    non_packed: "sub_layer_non_packed_constraint_flag",
    frame_only: "sub_layer_frame_only_constraint_flag",
    max_12bit: "sub_layer_max_12bit_constraint_flag",
    max_10bit: "sub_layer_max_10bit_constraint_flag",
    max_8bit: "sub_layer_max_8bit_constraint_flag",
    max_422chroma: "sub_layer_max_422chroma_constraint_flag",
    max_420chroma: "sub_layer_max_420chroma_constraint_flag",
    max_monochrome: "sub_layer_max_monochrome_constraint_flag",
    intra: "sub_layer_intra_constraint_flag",
    one_picture_only: "sub_layer_one_picture_only_constraint_flag",
    lower_bit_rate: "sub_layer_lower_bit_rate_constraint_flag",
    max_14bit: "sub_layer_max_14bit_constraint_flag",
    reserved_33: "sub_layer_reserved_zero_33bits",
    reserved_34: "sub_layer_reserved_zero_34bits",
    reserved_7: "sub_layer_reserved_zero_7bits",
    reserved_35: "sub_layer_reserved_zero_35bits",
    reserved_43: "sub_layer_reserved_zero_43bits",
    inbld: "sub_layer_inbld_flag",
    reserved_bit: "sub_layer_reserved_zero_bit",
};

/// The profiles of a stream: its own profile, and the compatible ones.
#[derive(Clone, Copy)]
struct Profiles {
    flags: [bool; 32],
}

impl Profiles {
    /// Adds a profile.
    fn add(&mut self, profile: u32) {
        if let Some(flag) = self.flags.as_mut_slice().get_mut(profile as usize) {
            *flag = true;
        }
    }

    /// Returns true if one of these profiles was added.
    fn has_any(&self, profiles: &[usize]) -> bool {
        for profile in profiles {
            if let Some(true) = self.flags.as_slice().get(*profile) {
                return true;
            }
        }
        false
    }
}

/// The parts of a sub-layer that are present.
#[derive(Clone, Copy)]
struct SubLayer {
    has_profile: bool,
    has_level: bool,
}

/// Reads the profile, the tier and the level of a stream, and of the `lower` sub-layers below the
/// highest one.
pub(super) fn read_profile_tier_level(
    syntax: &mut Nal<'_, '_, '_>,
    lower: u32,
) -> Result<(), Error> {
    read_profile(syntax, &GENERAL, None)?;
    syntax.number("general_level_idc", 8)?;
    let sub_layers = read_presence(syntax, lower)?;
    if lower > 0 {
        for _ in lower..8 {
            syntax.number("reserved_zero_2bits", 2)?;
        }
    }
    read_sub_layers(syntax, sub_layers.as_slice(), lower)
}

/// Reads the flags of the sub-layers that have a profile and a level of their own.
fn read_presence(syntax: &mut Nal<'_, '_, '_>, lower: u32) -> Result<[SubLayer; 8], Error> {
    let mut sub_layers = [SubLayer {
        has_profile: false,
        has_level: false,
    }; 8];
    for at in 0..lower {
        syntax.index = Some(Index::One(at));
        let has_profile = syntax.flag("sub_layer_profile_present_flag")?;
        let has_level = syntax.flag("sub_layer_level_present_flag")?;
        if let Some(sub_layer) = sub_layers.as_mut_slice().get_mut(at as usize) {
            *sub_layer = SubLayer {
                has_profile,
                has_level,
            };
        }
    }
    syntax.index = None;
    Ok(sub_layers)
}

/// Reads the profiles and the levels of the lower sub-layers.
fn read_sub_layers(
    syntax: &mut Nal<'_, '_, '_>,
    sub_layers: &[SubLayer],
    lower: u32,
) -> Result<(), Error> {
    for (at, sub_layer) in sub_layers.iter().take(lower as usize).enumerate() {
        let at = at as u32;
        if sub_layer.has_profile {
            read_profile(syntax, &SUB_LAYER, Some(at))?;
        }
        if sub_layer.has_level {
            syntax.index = Some(Index::One(at));
            syntax.number("sub_layer_level_idc", 8)?;
        }
        syntax.index = None;
    }
    Ok(())
}

/// Reads the profile of the stream, or of the sub-layer with this number.
fn read_profile(
    syntax: &mut Nal<'_, '_, '_>,
    names: &'static Names,
    sub_layer: Option<u32>,
) -> Result<(), Error> {
    let index = match sub_layer {
        Some(at) => Some(Index::One(at)),
        None => None,
    };
    syntax.index = index;
    syntax.number(names.space, 2)?;
    syntax.flag(names.tier)?;
    let profile = syntax.number(names.profile, 5)?;
    let mut profiles = read_compatibility(syntax, names, sub_layer)?;
    profiles.add(profile);
    syntax.index = index;
    syntax.flag(names.progressive)?;
    syntax.flag(names.interlaced)?;
    syntax.flag(names.non_packed)?;
    syntax.flag(names.frame_only)?;
    if profiles.has_any(&[4, 5, 6, 7, 8, 9, 10, 11]) {
        read_constraints(syntax, names, &profiles)?;
    } else if profiles.has_any(&[2]) {
        read_reserved(syntax, names.reserved_7, 7)?;
        syntax.flag(names.one_picture_only)?;
        read_reserved(syntax, names.reserved_35, 35)?;
    } else {
        read_reserved(syntax, names.reserved_43, 43)?;
    }
    if profiles.has_any(&[1, 2, 3, 4, 5, 9, 11]) {
        syntax.flag(names.inbld)?;
    } else {
        read_reserved(syntax, names.reserved_bit, 1)?;
    }
    syntax.index = None;
    Ok(())
}

/// Reads the compatible profiles of a stream or a sub-layer.
fn read_compatibility(
    syntax: &mut Nal<'_, '_, '_>,
    names: &'static Names,
    sub_layer: Option<u32>,
) -> Result<Profiles, Error> {
    let mut profiles = Profiles { flags: [false; 32] };
    for at in 0..32 {
        syntax.index = match sub_layer {
            Some(layer) => Some(Index::Two(layer, at)),
            None => Some(Index::One(at)),
        };
        if syntax.flag(names.compatibility)? {
            profiles.add(at);
        }
    }
    Ok(profiles)
}

/// Reads the constraints of the profiles from the format range extensions on.
fn read_constraints(
    syntax: &mut Nal<'_, '_, '_>,
    names: &'static Names,
    profiles: &Profiles,
) -> Result<(), Error> {
    syntax.flag(names.max_12bit)?;
    syntax.flag(names.max_10bit)?;
    syntax.flag(names.max_8bit)?;
    syntax.flag(names.max_422chroma)?;
    syntax.flag(names.max_420chroma)?;
    syntax.flag(names.max_monochrome)?;
    syntax.flag(names.intra)?;
    syntax.flag(names.one_picture_only)?;
    syntax.flag(names.lower_bit_rate)?;
    if profiles.has_any(&[5, 9, 10, 11]) {
        syntax.flag(names.max_14bit)?;
        read_reserved(syntax, names.reserved_33, 33)
    } else {
        read_reserved(syntax, names.reserved_34, 34)
    }
}

/// Reads reserved bits, as an element without an index.
fn read_reserved(syntax: &mut Nal<'_, '_, '_>, name: &'static str, bits: u32) -> Result<(), Error> {
    let index = syntax.index;
    syntax.index = None;
    syntax.wide(name, bits)?;
    syntax.index = index;
    Ok(())
}
