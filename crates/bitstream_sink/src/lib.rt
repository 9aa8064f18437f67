//! Sinks of bits without a stream: they accept each write call as a writer does, and count or
//! record its bits. `bitstream_io` exports what callers need.
//!
//! - [`bit_counter`]: a counter of written bits
//! - [`counter`]: the types of numbers that count bits
//! - [`recorder`]: a sink that records the bits written to it, and plays them to another sink, and
//!   the better of two recorders
//! - [`written`]: a counter of written bits, without a parameter for the order
//!
//! Ported from `bitstream-io` 4.10.0 by Brian Langenberger; MIT OR Apache-2.0, see `LICENSE`.
#![tactic(auto)]

pub mod bit_counter;
pub mod counter;
pub mod recorder;
pub mod written;
