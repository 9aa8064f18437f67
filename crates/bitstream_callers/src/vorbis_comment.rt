//! The Vorbis comment of a FLAC file, as types that own memory and implement reads of whole bytes.
ghost use Rattle.std.specs.Prelude.{◌≡◌, ◌++◌, true, ℕ, List, length, Ok};
ghost use Rattle.bitstream_io.specs.Callers.{OutOfMemory, Done};
ghost use Rattle.bitstream_callers.specs.VorbisComment.{becomes_reader, comment_bytes, comment_reads, IsComment, text_reads};
ghost use Rattle.bitstream_callers.specs.VorbisTexts.{Comment};
ghost use Rattle.bitstream_callers.specs.declared.vorbis_comment.CommentError.TheVariants.{Reader};

use bitstream_io::{ByteRead, ByteReadExt, Error, FromByteStreamUsing, LE};
use std::alloc::{AllocFailed, Global};
use std::marker::Model;

/// The reasons that a read fails.
#[derive(Debug, Drop)]
pub enum CommentError {
    /// An error of the reader, or `OutOfMemory` if an allocation for the list of texts fails.
    Reader(Error),
    /// The bytes of a text are not UTF-8. These bytes have been read.
    NotText,
}

impl From<Error> for CommentError {
    ghost from_gives = { becomes_reader };

    fn from(error: Error) -> CommentError {
        CommentError::Reader(error)
    }
}

impl<T: Drop> From<AllocFailed<T>> for CommentError {
    ghost from_gives = { λ _ e. e ≡ Reader OutOfMemory };

    fn from(_refused: AllocFailed<T>) -> CommentError {
        CommentError::Reader(Error::OutOfMemory)
    }
}

/// A text. The four bytes before it state its length in bytes.
#[derive(Drop)]
pub struct Text {
    /// The text.
    pub text: String,
}

impl Model for Text {
    ghost use Rattle.std.specs.Prelude.{ℕ, List};
    ghost use Rattle.std.specs.String.{string_bytes};

    ghost Value = { List ℕ };

    ghost view = { λ t. string_bytes t.text };
}

impl FromByteStreamUsing for Text {
    type Context = Global;

    type Error = CommentError;

    ghost grows = { true };

    ghost becomes = { becomes_reader };

    ghost reads = { λ _ _. text_reads };

    fn from_reader<R: ByteRead>(reader: &mut R, alloc: Global) -> Result<Text, CommentError> {
        let size = reader.read_as::<LE, u32>()?;
        let bytes = reader.read_to_vec(alloc, size as usize)?;
        match String::from_utf8(bytes) {
            Ok(text) => Ok(Text { text }),
            Err(_) => Err(CommentError::NotText),
        }
    }
}

/// The comment of a file.
#[derive(Drop)]
pub struct VorbisComment {
    /// The program that wrote the file.
    pub vendor: Text,
    /// The entries, each as a name, `=` and a text.
    pub comments: Vec<Text>,
}

impl Model for VorbisComment {
    ghost use Rattle.bitstream_callers.specs.VorbisTexts.{Comment};

    ghost Value = { Comment };

    ghost view = { λ c. record { vendor = c.vendor; comments = c.comments.items } };
}

impl FromByteStreamUsing for VorbisComment {
    type Context = Global;

    type Error = CommentError;

    ghost grows = { true };

    ghost becomes = { becomes_reader };

    ghost reads = { λ _ _. comment_reads };

    fn from_reader<R: ByteRead>(
        reader: &mut R,
        alloc: Global,
    ) -> Result<VorbisComment, CommentError> {
        let vendor = reader.parse_using::<Text>(alloc)?;
        let count = reader.read_as::<LE, u32>()?;
        let mut comments = Vec::new(alloc);
        for _ in 0..count {
            comments.push(reader.parse_using::<Text>(alloc)?)?;
        }
        Ok(VorbisComment { vendor, comments })
    }
}

/// A comment whose texts are UTF-8 and whose lengths fit their four bytes is read back from the bytes
/// that encode it. The read takes only these bytes.
pub fn comments_round_trip()
    ensures { (comment : Comment) (more : List ℕ) → IsComment comment
        → comment_reads.reads (comment_bytes comment ++ more)
        ≡ Done (length (comment_bytes comment)) (Ok (Ok comment)) }
{}
