//! The MD5 of the samples of a file (section 8.2).

use super::pcm::append_pcm;
use md5::{Digest, Md5};
use std::alloc::{AllocError, Global};

/// The MD5 of the samples that were decoded, as [`append_pcm`] writes them.
#[derive(Drop)]
pub(super) struct SampleSum {
    md5: Md5,
    // The samples of a frame, as bytes. This memory is used for each frame.
    bytes: Vec<u8>,
}

impl SampleSum {
    /// Returns the MD5 of no sample.
    pub(super) fn new(alloc: Global) -> SampleSum {
        SampleSum {
            md5: Md5::new(),
            bytes: Vec::new(alloc),
        }
    }

    /// Adds the samples of a frame.
    ///
    /// # Errors
    ///
    /// An allocation failed, so nothing is added.
    pub(super) fn add(&mut self, sample_size: u8, channels: &[Vec<i64>]) -> Result<(), AllocError> {
        self.bytes.clear();
        append_pcm(sample_size, channels, &mut self.bytes)?;
        self.md5.update(self.bytes.as_slice());
        Ok(())
    }

    /// Returns the MD5.
    pub(super) fn finish(self) -> [u8; 16] {
        self.md5.finalize()
    }
}
