//! Formats as values of the logic.
//!
//! A value of `Format` (in `specs/Format.antt`) states what a format reads, what it writes, what must fit and how
//! many bits it takes. It also holds two laws: what was written is read back, and how long it is. A `do` block makes
//! a format of parts, and proves its laws from the laws of the parts: a format by hand takes about ten lines and no
//! lemma. The contracts of its reads and writes cite the value.
//!
//! - `Atoms`: formats of one call: unsigned and signed numbers, flags, bytes, padding, unary numbers,
//!   `NonZero` types and options of them
//! - `Format`: `field`, `own_field` (a format with errors of its own), `const`, `◌>>=◌`, `done`, `format`; `named`
//!   replaces the conditions on a value by named ones
//! - `Lists`: `array`, a counted `list`, `byte_list`, `optional` (after a flag), `mapped` (a case by its
//!   number)
//! - `Choices`: `choose`, one of several cases by a tag
//! - `Sizes`: `sized`, a part that fills a stated number of bytes, and `fill`, a list that does. The size limits the
//!   reader: the part is read from these bytes only.
//! - `Within`, `Filled`: parts of a stated size, and lists that fill one, as `./format` prints them; [`within`] has
//!   their functions
//! - `Stated`, `Varint`: sizes in units, with [`stated`], and the numbers of QUIC, with [`varint`]
//! - `Until`, `Blocks`, `Checks`: bytes up to a terminator, with [`until`], blocks of bytes, with [`blocks`], and
//!   checksums, with [`checks`]; [`rest`] counts the bytes after others
//! - `Bounded`, `InGroups`: numbers with a greatest value, and sizes in groups of bits, with [`in_groups`]
//! - `InBytes`: numbers of whole bytes in a byte order of their own, with [`in_bytes`]
//! - `Powers`: lists of a power of two items, with [`powers`]
//! - `Summed`: checksums of lines of any kind, with [`summed`], by the types of [`checksums`]
//! - `Places`: formats of a fixed width, in which each field has a fixed place among the bits
//!
//! The [`examples`] are eight formats written by hand.
#![tactic(auto)]

pub mod blocks;
pub mod checks;
pub mod checksums;
pub mod examples;
pub mod in_bytes;
pub mod in_groups;
pub mod powers;
pub mod rest;
pub mod stated;
pub mod summed;
pub mod until;
pub mod varint;
pub mod within;
