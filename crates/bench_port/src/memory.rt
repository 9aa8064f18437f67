//! Bytes in memory that are written to.

use bitstream_io::{SliceMut, Target};

/// Bytes in memory as a target: a plain slice, or a `SliceMut`.
pub(crate) trait Memory: Target + Drop {
    /// Returns the number of free bytes.
    fn free(&self) -> usize;
}

impl Memory for &mut [u8] {
    fn free(&self) -> usize {
        self.len()
    }
}

impl Memory for SliceMut<'_> {
    fn free(&self) -> usize {
        SliceMut::free(self)
    }
}
