//! Subframes, frames and files of FLAC (RFC 9639), proved lossless: [`decode`] returns the samples that [`encode`]
//! encoded, [`decode_frame`] the header and the channels that [`encode_frame`] encoded, and [`decode_file`] those that
//! [`encode_file`] encoded.
//!
//! [`is_frame`] tests what [`encode_frame`] requires, and [`is_file`] what [`encode_file`] requires. [`stream_info`] is
//! STREAMINFO, printed by `./format`.
//!
//! The definitions of `specs/` are the format: `subframe_decoder` (`Subframe.antt`), `header_decoder` (`Header.antt`),
//! `crc8` and `crc16` (`Checksum.antt`), `channels_decoder` (`Channels.antt`), `frame_at` (`Frame.antt`) and `file_at`
//! (`File.antt`). A read returns what they state, for every stream. A write produces bits from which they read the value.
//! The choice of codes and of the kind of subframe is left open, so a better choice needs no new contract.
#![tactic(auto)]

mod channel_writing;
mod channels;
mod checksum;
mod choice;
mod coded;
mod decoder;
mod encode_error;
mod encoder;
mod error;
mod file;
mod filing;
mod fits;
mod frame;
mod framing;
mod header;
mod heading;
mod input;
mod linear;
mod lossless;
mod metadata;
mod numbers;
mod output;
mod partitions;
mod predict;
mod reading;
mod residual;
mod residual_writing;
mod rice;
mod samples;
mod start;
mod starting;
mod stereo;
pub mod stream_info;
mod wasted;
mod writing;

pub use channels::read_channels;
pub use checksum::{crc8, crc16};
pub use coded::{coded_numbers_round_trip, read_coded};
pub use decoder::Decoder;
pub use encode_error::EncodeError;
pub use encoder::Encoder;
pub use error::FlacError;
pub use file::{File, FileHeader, decode_file};
pub use filing::{encode_file, file_round_trip};
pub use fits::{is_file, is_frame};
pub use frame::{Frame, decode_frame};
pub use framing::{encode_frame, frame_round_trip};
pub use header::{Channels, FrameHeader, read_header};
pub use heading::write_header;
pub use input::Input;
pub use lossless::{decode, encode, round_trip};
pub use metadata::Metadata;
pub use reading::read_subframe;
pub use rice::{read_rice, rice_round_trip, write_rice};
pub use samples::sample_bytes;
pub use start::MetadataReader;
pub use starting::{MetadataBlock, encode_start, is_start};
pub use stereo::{Stereo, best_channels};
pub use writing::write_subframe;
