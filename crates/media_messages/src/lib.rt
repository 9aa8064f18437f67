//! Messages of media, as `./format` prints them from the descriptions in `formats/`.
//!
//! - [`flac_metadata`]: [`flac_block`]s up to the one with the flag of the last; [`flac_info`] is the content of one
//! - [`gif_comment`]: a comment of a GIF image, in blocks of bytes up to an empty one
//! - [`ts_pat`], [`ts_pmt`]: sections of a transport stream with their checksums, of [`ts_program`]s and [`ts_stream`]s
//! - [`wav_file`]: a WAV file of two chunks, whose size is computed
#![tactic(auto)]

pub mod flac_block;
pub mod flac_info;
pub mod flac_metadata;
pub mod gif_comment;
pub mod ts_pat;
pub mod ts_pmt;
pub mod ts_program;
pub mod ts_stream;
pub mod wav_file;
