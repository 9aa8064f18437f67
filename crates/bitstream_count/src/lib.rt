//! Errors, counts of bits, and values that are known to fit a count. `bitstream_io` re-exports what
//! callers need.
//!
//! - [`count`]: counts of bits, and values that are known to fit one
//! - [`error`]: the error of a call
//! - [`laws`]: laws of counts, and of unary and variable-width encodings
//!
//! Ported from `bitstream-io` 4.10.0 by Brian Langenberger; MIT OR Apache-2.0, see `LICENSE`.
#![tactic(auto)]

mod checked_error;
pub mod count;
pub mod error;
pub mod laws;
