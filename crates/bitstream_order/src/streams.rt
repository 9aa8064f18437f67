//! Streams: sources and targets of bytes.

pub mod growing;
pub mod lent;
pub mod seek;
pub mod slice;
pub mod slice_mut;
pub mod source;
pub mod target;
