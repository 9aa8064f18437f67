//! Seals the traits of checked values: only `Checked` implements them.

use bitstream_count::count::{Checked, Holds};

/// A checked value.
pub trait Sealed {}

impl<C: Holds<T>, T> Sealed for Checked<C, T> {}
