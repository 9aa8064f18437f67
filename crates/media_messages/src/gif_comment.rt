//! A comment of a GIF image (GIF89a, section 24).
//!
//! Made by `./format` from formats/gif_comment.fields: edit that file and make this one anew.
ghost use Rattle.media_messages.specs.GifComment.{gif_comment_decoder, gif_comment_writes, gif_comment_size, gif_comment_bits, Fits, becomes_gif_comment};
ghost use Rattle.media_messages.specs.declared.gif_comment.GifComment.{GifComment};
ghost use Rattle.media_messages.specs.declared.gif_comment.GifCommentError.{GifCommentError};
ghost use Rattle.media_messages.specs.declared.gif_comment.GifCommentError.TheVariants.{Reader};
ghost use Rattle.std.specs.Prelude.{◌≡◌, ◌<◌, ◌≤◌, ◌*◌, ◌++◌, ◌⊎◌, ℕ, Bool, true, List, Ok, Err, length, IfOk, IsOk};
ghost use Rattle.std.specs.declared.io.ErrorKind.TheVariants.{WriteZero};
ghost use Rattle.bitstream_io.specs.Callers.{Done, Error, Order, High, bits, write_sequence, OwnAnswer, WritesAll, AllAccepted, sequence_length, sure_answer, GrowsOwn, MayAllocate, OutOfMemory, Stream, same_error};
ghost use Rattle.bitstream_io.specs.SliceMut.{HoldsFirst, written_bytes};

use bitstream_format::blocks::{Block, read_blocks, write_blocks};
use bitstream_io::{
    BE, BitRead, BitReadExt, BitReader, BitWrite, BitWriteExt, Bits, Error, FromBitStreamUsing,
    SliceMut, ToBitStream, pack_into,
};
use std::alloc::Global;
use std::marker::Model;

/// A comment of a GIF image (GIF89a, section 24).
///
/// ```text
///  0                   1                   2                   3
///  0 1 2 3 4 5 6 7 8 9 0 1 2 3 4 5 6 7 8 9 0 1 2 3 4 5 6 7 8 9 0 1
/// +-+-+-+-+-+-+-+-+-+-+-+-+-+-+-+-+
/// |      =33      |      =254     |
/// +-+-+-+-+-+-+-+-+-+-+-+-+-+-+-+-+-+-+-+-+-+-+-+-+-+-+-+-+-+-+-+-+
/// /                text (blocks up to an empty one)               /
/// +-+-+-+-+-+-+-+-+-+-+-+-+-+-+-+-+-+-+-+-+-+-+-+-+-+-+-+-+-+-+-+-+
/// ```
#[derive(Debug, Drop)]
pub struct GifComment {
    /// The text, in ASCII. Each has 1 to 255 bytes.
    pub text: Vec<Block>,
}

impl Model for GifComment {
    ghost use Rattle.media_messages.specs.GifCommentFields.{GifCommentFields};

    ghost Value = { GifCommentFields };

    ghost view = { λ value. record {
      text = value.text.items;
    } };
}

/// The errors of reading a `GifComment`.
#[derive(Debug, Drop, thiserror::Error)]
pub enum GifCommentError {
    /// An error of the reader.
    #[error("{0}")]
    Reader(Error),
    /// The block is no extension.
    #[error("the block is no extension")]
    NoExtension,
    /// The extension is no comment.
    #[error("the extension is no comment")]
    NoComment,
}

impl From<Error> for GifCommentError {
    ghost from_gives = { becomes_gif_comment };

    fn from(error: Error) -> GifCommentError {
        GifCommentError::Reader(error)
    }
}

impl GifComment {
    /// The number of bits before each line of the description.
    pub const PLACES: [u64; 3] = [0, 8, 16];

    /// Reads the fields in order.
    ///
    /// # Errors
    ///
    /// `NoExtension` or `NoComment`, after the rejected bits have been read.
    /// `Reader(OutOfMemory)` if an allocation for a list fails. The items before the failure
    /// have been read.
    /// Otherwise the reader's errors, after which it has failed.
    pub fn read<R: BitRead>(reader: &mut R, alloc: Global) -> Result<GifComment, GifCommentError>
        ensures { GrowsOwn R.source becomes_gif_comment (gif_comment_decoder R.source.order) reader.old result reader.new }
    {
        reader.read_const::<Bits<8>, Bits<33>, GifCommentError>(GifCommentError::NoExtension)?;
        reader.read_const::<Bits<8>, Bits<254>, GifCommentError>(GifCommentError::NoComment)?;
        let text = read_blocks(reader, alloc)?;
        Ok(GifComment { text })
    }

    /// Parses the value at the start of `packet`.
    ///
    /// # Errors
    ///
    /// `NoExtension` or `NoComment` if bits are rejected.
    /// `Reader(EndOfInput)` if the bytes end before the fields do.
    /// `Reader(RunTooLong)` if what ends bytes is not among the first 2^32.
    /// `Reader(OutOfMemory)` if the allocation for an item of a list fails.
    pub fn parse(packet: &[u8], alloc: Global) -> Result<GifComment, GifCommentError>
        ensures answer { (OwnAnswer becomes_gif_comment (λ answer. answer)
            (sure_answer ((gif_comment_decoder High).reads 0 (bits High packet.now))) result)
            ⊎ ((result ≡ Err (GifCommentError.Reader OutOfMemory))
            × MayAllocate (gif_comment_decoder High) 0 (bits High packet.now)) }
        ensures back { (value : GifComment) (more : List Bool) → Fits value
            → bits High packet.now ≡ write_sequence (gif_comment_writes High value) 0 ++ more
            → (result ≡ Ok value)
            ⊎ (result ≡ Err (GifCommentError.Reader OutOfMemory)) }
    {
        gif_comment_round_trip();
        GifComment::read(&mut BitReader::<_, BE>::over(packet), alloc)
    }

    /// Writes the fields in order.
    ///
    /// # Errors
    ///
    /// `Checked` for a field that does not fit its bits. The fields before it have been written.
    /// Otherwise the sink's errors.
    pub fn write<W: BitWrite>(&self, writer: &mut W) -> Result<(), Error>
        ensures { WritesAll W.sink (gif_comment_writes W.sink.order self.now) writer.old result writer.new }
    {
        writer.write_const::<Bits<8>, Bits<33>>()?;
        writer.write_const::<Bits<8>, Bits<254>>()?;
        write_blocks(writer, &self.text)?;
        Ok(())
    }

    /// Writes the fields to the first bytes of a buffer, and returns what was written. The other bytes
    /// stay as they were. Does not allocate.
    ///
    /// # Errors
    ///
    /// `Checked` for the first field that does not fit its bits, however long the buffer is.
    /// `Stream(WriteZero)` if all fields fit, and the buffer is too short for the bits.
    /// After an error, the first bytes of the buffer may have changed.
    pub fn pack_into<'a>(&self, buffer: &'a mut [u8]) -> Result<SliceMut<'a>, Error>
        ensures packed { IfOk result (λ packed. bits High (written_bytes packed) ≡ gif_comment_bits self.now) }
        ensures first { IfOk result (HoldsFirst buffer.entry.ghost_name buffer.old) }
        ensures accepted { IsOk result → AllAccepted (gif_comment_writes High self.now) 0 }
        ensures misfit { (error : Error) → sequence_length (gif_comment_writes High self.now) 0 ≡ Err error
            → result ≡ Err error }
        ensures room { Fits self.now → gif_comment_size High self.now ≤ 8 * length buffer.old
            → IsOk result }
        ensures short { Fits self.now → 8 * length buffer.old < gif_comment_size High self.now
            → result ≡ Err (Stream WriteZero) }
    {
        pack_into::<BE, GifComment>(self, buffer)
    }
}

impl FromBitStreamUsing for GifComment {
    type Context = Global;

    type Error = GifCommentError;

    ghost grows = { true };

    ghost becomes = { becomes_gif_comment };

    ghost reads = { λ o _. gif_comment_decoder o };

    fn from_reader<R: BitRead>(
        reader: &mut R,
        alloc: Global,
    ) -> Result<GifComment, GifCommentError> {
        GifComment::read(reader, alloc)
    }
}

impl ToBitStream for GifComment {
    type Error = Error;

    ghost becomes = { same_error };

    ghost writes = { gif_comment_writes };

    fn to_writer<W: BitWrite>(&self, writer: &mut W) -> Result<(), Error> {
        self.write(writer)
    }
}

/// A value that fits its bits is read back as it was written, in either order of bits, at any place.
/// The read takes only the bits that were written: `gif_comment_size` is their number.
pub fn gif_comment_round_trip()
    ensures back { (o : Order) (value : GifComment) (at from : ℕ) (more : List Bool) → Fits value
        → let written = write_sequence (gif_comment_writes o value) at in
        (gif_comment_decoder o).reads from (written ++ more) ≡ Done (length written) (Ok (Ok value)) }
    ensures size { (o : Order) (value : GifComment) (at : ℕ) → Fits value
        → length (write_sequence (gif_comment_writes o value) at) ≡ gif_comment_size o value }
{}
