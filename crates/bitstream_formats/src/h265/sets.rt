//! The parameter sets of a stream that were read.

/// The values of a video parameter set that later units need.
#[derive(Clone, Copy, Debug, PartialEq, Eq)]
pub struct VideoSet {
    /// The number of temporal sub-layers: 1 to 7.
    pub sub_layers: u32,
}

/// The video parameter sets that were read, by their numbers: at most 16. A set replaces an earlier one
/// with the same number. Other parameter sets are not kept, since no unit needs a value of theirs.
#[derive(Debug, Drop)]
pub struct ParameterSets {
    videos: [Option<VideoSet>; 16],
}

impl ParameterSets {
    /// Returns a collection without sets.
    pub fn new() -> ParameterSets {
        ParameterSets { videos: [None; 16] }
    }

    /// Returns the video parameter set with this number, or `None` if none was read.
    pub fn video(&self, number: u32) -> Option<VideoSet> {
        match self.videos.as_slice().get(number as usize) {
            Some(set) => *set,
            None => None,
        }
    }

    /// Keeps a video parameter set. A number above 15 is ignored.
    pub(super) fn keep_video(&mut self, number: u32, set: VideoSet) {
        if let Some(kept) = self.videos.as_mut_slice().get_mut(number as usize) {
            *kept = Some(set);
        }
    }
}
