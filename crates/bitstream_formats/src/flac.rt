//! FLAC (RFC 9639), over the codec of `flac_codec`: files with the MD5 of their samples, and the places of errors.

mod decoder;
mod error;
mod pcm;
mod place;
mod sum;
mod summed;
mod tag;

pub use decoder::Decoder;
pub use error::FlacError;
pub use pcm::append_pcm;
pub use summed::{encode_with_md5, has_md5};
pub use tag::AfterTag;
