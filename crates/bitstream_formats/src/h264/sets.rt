//! The parameter sets of a stream that were read.

/// The facts of a sequence parameter set that are needed to read other units.
#[derive(Clone, Copy, Debug, PartialEq, Eq)]
pub struct SequenceSet {
    /// The profile, `profile_idc`.
    pub profile: u32,
    /// The sampling of chroma, `chroma_format_idc`: 0 for none, 1 for 4:2:0, 2 for 4:2:2, 3 for 4:4:4. It is 1
    /// in the profiles whose sets have no such element.
    pub chroma_format: u32,
    /// True if each plane of color is coded as a picture of its own, `separate_colour_plane_flag`.
    pub separate_planes: bool,
    /// The number of bits of a frame number, `frame_num`: 4 to 16.
    pub frame_bits: u32,
    /// The coding of the order of pictures.
    pub order: PictureOrder,
    /// True if no picture is a field, `frame_mbs_only_flag`.
    pub frames_only: bool,
}

impl SequenceSet {
    /// Returns true if luma slices include chroma.
    pub fn has_chroma(&self) -> bool {
        self.chroma_format != 0 && !self.separate_planes
    }
}

/// The coding of the order of pictures in slices, `pic_order_cnt_type`.
#[derive(Clone, Copy, Debug, PartialEq, Eq)]
pub enum PictureOrder {
    /// By this number of its low bits: 4 to 16.
    Low(u32),
    /// By differences from the order in a cycle.
    Cycle,
    /// Not coded: it is the order in a cycle, or the order of decoding.
    Decoding,
}

/// The facts of a picture parameter set that are needed to read other units.
#[derive(Clone, Copy, Debug, PartialEq, Eq)]
pub struct PictureSet {
    /// The number of the sequence parameter set that it names.
    pub sequence: u32,
    /// True if the transform of 8x8 samples is used, `transform_8x8_mode_flag`.
    pub large_transform: bool,
    /// True if the data of slices is coded by CABAC, `entropy_coding_mode_flag`.
    pub arithmetic: bool,
    /// True if slices of frames have the order of the bottom field,
    /// `bottom_field_pic_order_in_frame_present_flag`.
    pub bottom_order: bool,
    /// The indexes of the last pictures of both lists, unless a slice states others.
    pub last_references: [u32; 2],
    /// True if slices that one list predicts have weights, `weighted_pred_flag`.
    pub weighted_one: bool,
    /// The weighting of slices that both lists predict, `weighted_bipred_idc`: they have weights if it is 1.
    pub weighted_both: u32,
    /// True if slices have elements on the deblocking filter.
    pub deblocking: bool,
    /// True if slices state whether they are redundant.
    pub redundant_count: bool,
}

/// The parameter sets that were read, by their numbers: at most 32 sequence and 256 picture parameter
/// sets. A set replaces an earlier one with the same number. They take 12 KB and allocate nothing.
#[derive(Debug, Drop)]
pub struct ParameterSets {
    sequences: [Option<SequenceSet>; 32],
    pictures: [Option<PictureSet>; 256],
}

impl ParameterSets {
    /// Returns a collection without sets.
    pub fn new() -> ParameterSets {
        ParameterSets {
            sequences: [None; 32],
            pictures: [None; 256],
        }
    }

    /// Returns the sequence parameter set with this number, or `None` if none was read.
    pub fn sequence(&self, number: u32) -> Option<SequenceSet> {
        match self.sequences.as_slice().get(number as usize) {
            Some(set) => *set,
            None => None,
        }
    }

    /// Returns the picture parameter set with this number, or `None` if none was read.
    pub fn picture(&self, number: u32) -> Option<PictureSet> {
        match self.pictures.as_slice().get(number as usize) {
            Some(set) => *set,
            None => None,
        }
    }

    /// Keeps a sequence parameter set. A number above 31 is ignored.
    pub(super) fn keep_sequence(&mut self, number: u32, set: SequenceSet) {
        if let Some(kept) = self.sequences.as_mut_slice().get_mut(number as usize) {
            *kept = Some(set);
        }
    }

    /// Keeps a picture parameter set. A number above 255 is ignored.
    pub(super) fn keep_picture(&mut self, number: u32, set: PictureSet) {
        if let Some(kept) = self.pictures.as_mut_slice().get_mut(number as usize) {
            *kept = Some(set);
        }
    }
}
