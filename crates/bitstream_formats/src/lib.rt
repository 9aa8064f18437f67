//! Formats of audio, video, transport and compression, read over `bitstream_io`: from bytes in memory, and
//! by `deflate` and `flac` from any reader.
//!
//! If the bytes are faulty, a function returns an error of the format's own, with the bit at which the
//! reader was ([`at::At`]). Any bytes are accepted as input. A length or a count in them allocates no
//! memory that the input does not fill.
//!
//! [`flac`] and [`deflate`] decode. The others read headers, element by element ([`element::Element`]).
//!
//! - [`adts`]: ADTS, the frames of AAC in a stream
//! - [`adts_header`]: the header of an ADTS frame, printed by `./format`
//! - [`at`]: the places of errors
//! - [`av1`]: AV1: the headers of OBUs, and sequence headers
//! - [`deflate`]: DEFLATE, and the files of gzip
//! - [`element`]: reads the elements of a format one by one
//! - [`flac`]: FLAC: the samples of a file, and their MD5, over `flac_codec`
//! - [`h264`]: H.264: the units of a byte stream, and its parameter sets
//! - [`h265`]: H.265: the units of a byte stream, and its parameter sets
//! - [`nal`]: NAL units and emulation prevention bytes, for H.264 and H.265
//! - [`ogg`]: Ogg: pages and packets, and the first byte of a packet of Opus
//! - [`ogg_header`]: the header of a page of Ogg, printed by `./format`
//! - [`riff_chunk`] and [`wav_format`]: parts of WAV files, printed by `./format`
//! - [`ts`]: MPEG transport streams: packets, the tables of programs, and the headers of PES packets
//! - [`ts_header`]: the header of a packet of a transport stream, printed by `./format`
//! - [`wav`]: WAV: the format of the samples, and the bytes before them
#![tactic(auto)]

pub mod adts;
pub mod adts_header;
pub mod at;
pub mod av1;
mod crc;
pub mod deflate;
pub mod element;
pub mod flac;
pub mod h264;
pub mod h265;
pub mod nal;
pub mod ogg;
pub mod ogg_header;
pub mod riff_chunk;
pub mod ts;
pub mod ts_header;
pub mod wav;
pub mod wav_format;
