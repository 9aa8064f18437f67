//! Functions for C that do what parsers and writers of formats do, over bytes in memory. Each returns one number
//! computed from its items, or 2^64 - 1 if a call fails.
#![tactic(auto)]

mod checked;
mod codes;
mod header;
mod memory;
mod numbers;
mod places;
mod recorder;
mod records;
mod script;
mod streams;
mod symbols;
mod vectors;
