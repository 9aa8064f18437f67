//! The integer types as numbers, the properties that generic code uses, and the laws of their bits,
//! encodings and bytes. `bitstream_io` re-exports what callers need.
//!
//! - [`laws`]: laws of encodings, bytes and numbers, independent of any reader or writer
//! - [`number`]: the ten integer types as numbers, and numbers of bits as types
//!
//! Ported from `bitstream-io` 4.10.0 by Brian Langenberger; MIT OR Apache-2.0, see `LICENSE`.
#![tactic(auto)]

pub mod laws;
pub mod number;
