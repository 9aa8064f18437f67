//! All tests: of the library's crates, with the examples of the doc comments, of its callers, and
//! of `bitfields_core`. The tests use a user's own prefix code, readers and a writer that keep the
//! traits' own bodies, and functions over bytes in memory whose contracts fix all their results.
//! The crate has nothing else, so that nothing else is proved twice.
#![tactic(auto)]

#[cfg(test)]
mod asserts;
#[cfg(test)]
mod bytes;
#[cfg(test)]
mod callers;
#[cfg(test)]
mod codec;
#[cfg(test)]
mod codes;
#[cfg(test)]
mod counts;
#[cfg(test)]
mod errors;
#[cfg(test)]
mod examples;
#[cfg(test)]
mod faults;
#[cfg(test)]
mod flac_example;
#[cfg(test)]
mod inherited;
#[cfg(test)]
mod lent;
#[cfg(test)]
mod numbers;
#[cfg(test)]
mod older;
#[cfg(test)]
mod own;
#[cfg(test)]
mod owners;
#[cfg(test)]
mod program;
#[cfg(test)]
mod program_rows;
#[cfg(test)]
mod room;
#[cfg(test)]
mod script;
#[cfg(test)]
mod sign_code;
#[cfg(test)]
mod sinks;
#[cfg(test)]
mod sure;
#[cfg(test)]
mod whole_bytes;
#[cfg(test)]
mod words;
