//! Values of all types that are read and written as bits or bytes: integers, checked values, symbols
//! of prefix codes, and user-defined types. `bitstream_io` exports the items that callers need.
//!
//! - [`build`]: types whose values are written as bits
//! - [`byte_build`]: types whose values are written as bytes
//! - [`byte_parse`]: types whose values are read from bytes
//! - [`byte_read`]: calls that read values of users' types from bytes
//! - [`byte_write`]: calls that write values of users' types as bytes
//! - [`checked`]: checked values, read and written
//! - [`huffman`]: prefix codes: each symbol has a code word, and no code word is a prefix of another
//! - [`integer`]: integers, `bool`, `NonZero` types and arrays as bits
//! - [`laws`]: laws of prefix codes, and of the lengths of users' types
//! - [`pack`]: values that are packed into a buffer
//! - [`parse`]: types whose values are read from bits
//! - [`read`]: calls that read values of any type
//! - [`write`]: calls that write values of any type
//!
//! Ported from `bitstream-io` 4.10.0 by Brian Langenberger; MIT OR Apache-2.0, see `LICENSE`.
#![tactic(auto)]

pub mod build;
pub mod byte_build;
mod byte_counter;
pub mod byte_parse;
pub mod byte_read;
pub mod byte_write;
pub mod checked;
pub mod huffman;
pub mod integer;
pub mod laws;
pub mod pack;
pub mod parse;
pub mod read;
mod refuse;
pub mod write;
