//! Bytes in memory that are written to, the sums and the values of the benchmark.

use bitstream_io::{Error, SliceMut, Target};

/// Bytes in memory as a target: a plain slice, or a `SliceMut`.
pub(crate) trait Memory: Target + Drop {
    /// Returns the number of free bytes.
    fn free(&self) -> usize;
}

impl Memory for &mut [u8] {
    fn free(&self) -> usize {
        self.len()
    }
}

impl Memory for SliceMut<'_> {
    fn free(&self) -> usize {
        SliceMut::free(self)
    }
}

/// Returns a sum with one more number in it.
pub(crate) fn mixed(sum: u64, value: u64) -> u64 {
    sum.wrapping_mul(31).wrapping_add(value)
}

/// Returns the state that follows a state. The next value to write is made from it.
pub(crate) fn stepped(state: u64) -> u64 {
    state
        .wrapping_mul(6364136223846793005)
        .wrapping_add(1442695040888963407)
}

/// Returns the result of the calls, or 2^64 - 1 if one of them failed.
pub(crate) fn or_refused(done: Result<u64, Error>) -> u64 {
    match done {
        Ok(value) => value,
        Err(_) => u64::MAX,
    }
}
