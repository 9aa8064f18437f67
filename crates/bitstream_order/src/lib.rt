//! Orders of bits, streams with counts of their requests, and the kernels that move bits.
//! `bitstream_io` re-exports what callers need.
//!
//! - [`ghosts`]: values that only contracts see: a count, and the failed requests of a stream
//! - [`kernels`]: functions that take, send, shift, count and copy bits
//! - [`order`]: the two orders of bits
//! - [`port`]: a stream, with counts of the requests made to it, which only contracts see
//! - [`streams`]: sources and targets of bytes: the traits of streams, bytes in memory, a vector
//!   that grows, and a borrowed stream
//!
//! Ported from `bitstream-io` 4.10.0 by Brian Langenberger; MIT OR Apache-2.0, see `LICENSE`.
#![tactic(auto)]

pub mod ghosts;
pub mod kernels;
pub mod order;
pub mod port;
pub mod streams;
