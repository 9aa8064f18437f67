//! Small callers of `bitstream_io`: parsers and packers, types with reads and writes of their own,
//! and formats that `./format` printed from the descriptions in `formats/`. The guide in
//! `docs/GUIDE` shows most of them.
//!
//! - [`appending`]: a header that is appended to a sink, and its length
//! - [`block_header`]: the header of a block of a FLAC file
//! - [`flac_comment`]: a FLAC file's comment, read from bits, with its texts as strings
//! - [`header`]: the header before a packet's bytes
//! - [`packet_header`]: a type with reads and writes of its own: the header of a packet of whole
//!   bytes
//! - [`padded_port`]: a type that is read and written as whole bytes, with padding after it
//! - [`parameter_set`]: a type that owns memory: a parameter set with a counted list of parts
//! - [`picture`]: types that own memory, read and written: the picture of a FLAC file
//! - [`plain`]: parsers without contracts
//! - [`primary_header`]: the primary header of a CCSDS space packet
//! - [`reading`]: a sensor's reading, in a width from its context
//! - [`sample`]: a measurement of a vehicle's telemetry at one time
//! - [`samples`]: samples of 12 bits, in a vector
//! - [`sensor`]: a measurement: a unary number, numbers of variable width, and a prefix code
//! - [`sps`]: the beginning of a sequence parameter set of H.264, with errors of its own
//! - [`tcp_options`]: the options of a TCP header, by a parser that holds its reader and the options that it fills in
//! - [`telemetry`]: samples of telemetry in vectors: plain, or in frames that begin with their length
//! - [`vorbis_comment`]: types that own memory, read from whole bytes: a FLAC file's comment
#![tactic(auto)]

pub mod appending;
pub mod axes;
pub mod block_header;
pub mod client_hello;
pub mod flac_comment;
pub mod flac_start;
pub mod header;
pub mod packet_header;
pub mod padded_port;
pub mod parameter_set;
pub mod picture;
pub mod plain;
pub mod primary_header;
pub mod reading;
pub mod rtp_header;
pub mod sample;
pub mod samples;
pub mod sensor;
pub mod sps;
pub mod tcp_options;
pub mod telemetry;
pub mod vorbis_comment;
