//! Readers and writers of bits and of bytes, over a stream or over bytes in memory.
//! `bitstream_value` reads and writes values of other types. `bitstream_io` re-exports what callers
//! need.
//!
//! - [`bytes`]: readers and writers of whole bytes
//! - [`laws`]: laws of reads and writes, and of the ends and the room of streams
//! - [`read`]: the calls of a reader of bits, and the readers: over a stream, and over bytes in memory
//! - [`vbr`]: the length of a number of variable width
//! - [`width`]: checks of numbers against a number of bits
//! - [`write`]: the calls of a sink of bits, and the writer to a stream
//!
//! Ported from `bitstream-io` 4.10.0 by Brian Langenberger; MIT OR Apache-2.0, see `LICENSE`.
#![tactic(auto)]

pub mod bytes;
mod capped;
mod in_memory;
pub mod laws;
mod piece;
pub mod read;
pub mod vbr;
pub mod width;
pub mod write;
mod zigzag;
