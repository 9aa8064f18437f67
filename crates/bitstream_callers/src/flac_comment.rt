//! The Vorbis comment of a FLAC file, read from bits, with its texts as strings. It is the example of
//! the Rust crate, except for the allocator.
ghost use Rattle.std.specs.Prelude.{true};
ghost use Rattle.std.specs.String.{string_bytes};
ghost use Rattle.bitstream_io.specs.Callers.{GrowsOwn, result_map};
ghost use Rattle.bitstream_callers.specs.FlacComment.{comment_reads, text_reads};
ghost use Rattle.bitstream_callers.specs.VorbisComment.{becomes_reader};

use crate::vorbis_comment::CommentError;
use bitstream_io::{BitRead, FromBitStreamUsing, LE};
use std::alloc::Global;
use std::marker::Model;

/// The comment of a file.
#[derive(Drop)]
pub struct VorbisComment {
    /// The program that wrote the file.
    pub vendor: String,
    /// The entries, each as a name, `=` and a text.
    pub comment: Vec<String>,
}

impl Model for VorbisComment {
    ghost use Rattle.std.specs.Prelude.{map};
    ghost use Rattle.std.specs.String.{string_bytes};
    ghost use Rattle.bitstream_callers.specs.VorbisTexts.{Comment};

    ghost Value = { Comment };

    ghost view = { λ c. record { vendor = string_bytes c.vendor; comments = map string_bytes c.comment.items } };
}

/// Reads a text and the four bytes before it, which state its length in bytes.
///
/// # Errors
///
/// The errors of the reader, or an error for bytes that are not UTF-8. These bytes have been read.
fn read_entry<R: BitRead>(reader: &mut R, alloc: Global) -> Result<String, CommentError>
    ensures reads { GrowsOwn R.source becomes_reader (text_reads R.source.order)
        reader.old (result_map string_bytes result) reader.new }
{
    let size = reader.read_as_to::<LE, u32>()?;
    let bytes = reader.read_to_vec(alloc, size as usize)?;
    match String::from_utf8(bytes) {
        Ok(text) => Ok(text),
        Err(_) => Err(CommentError::NotText),
    }
}

impl FromBitStreamUsing for VorbisComment {
    type Context = Global;

    type Error = CommentError;

    ghost grows = { true };

    ghost becomes = { becomes_reader };

    ghost reads = { λ o _. comment_reads o };

    fn from_reader<R: BitRead>(
        reader: &mut R,
        alloc: Global,
    ) -> Result<VorbisComment, CommentError> {
        let vendor = read_entry(reader, alloc)?;
        let count = reader.read_as_to::<LE, u32>()?;
        let mut comment = Vec::new(alloc);
        for _ in 0..count {
            comment.push(read_entry(reader, alloc)?)?;
        }
        Ok(VorbisComment { vendor, comment })
    }
}
