//! The functions of the library `ccsds` that C, Rust and Python call: a module for each format.
//!
//! Each function is proved to do what its contract says, in each call that meets the conditions in the header.
#![tactic(auto)]

mod primary_header;
mod shared;
