//! Formats with choices and sizes, as `./format` prints them from the descriptions in `formats/`.
//!
//! - [`message`]: a body of one of several types, chosen by a tag: a Rust enum, and no field that could
//!   contradict it
//! - [`signal`]: choices with a case for all other numbers, or whose cases have all numbers
//! - [`event`]: a choice by a field before it
//! - [`packet`], [`frame`]: parts after their size in bytes, which limits the reader
//! - [`log`]: lists that fill their size in bytes
//! - [`hello`]: the ClientHello of TLS 1.2, with its [`extensions`]: an unknown [`extension`] keeps its bytes
//! - [`ipv4_datagram`], [`tls_record`]: bytes of a stated size, of which one is in words
//! - [`png_chunk`], [`png_file`]: a checksum, and parts up to the end
//! - [`dns_message`]: lists of parts with lists. A [`dns_name`] is labels up to the last one, which is an empty
//!   one or a pointer; [`dns_label`], [`dns_question`], [`dns_record`]
//! - [`acl_packet`]: a number that is computed from the lines after it
//! - [`ack`], [`dns_pointer`], [`dns_text`], [`mark`], [`notes`], [`renegotiation`]: parts
#![tactic(auto)]

pub mod ack;
pub mod acl_packet;
pub mod dns_label;
pub mod dns_message;
pub mod dns_name;
pub mod dns_pointer;
pub mod dns_question;
pub mod dns_record;
pub mod dns_text;
pub mod event;
pub mod extension;
pub mod extensions;
pub mod frame;
pub mod hello;
pub mod ipv4_datagram;
pub mod log;
pub mod mark;
pub mod message;
pub mod notes;
pub mod packet;
pub mod png_chunk;
pub mod png_file;
pub mod renegotiation;
pub mod signal;
pub mod tls_record;
