//! Reads numbers of any width from bytes in memory, and writes them to a buffer, for C. The caller owns the bytes and the
//! state of the reader or writer.
//!
//! Each function is proved to do what its contract says, in each call that meets the conditions in the header.
#![tactic(auto)]

mod numbers;
mod reader;
mod writer;
