//! The metadata before the frames of a FLAC file (RFC 9639, 8).
//!
//! Made by `./format` from formats/flac_metadata.fields: edit that file and make this one anew.
ghost use Rattle.media_messages.specs.FlacMetadata.{flac_metadata_decoder, flac_metadata_writes, flac_metadata_size, flac_metadata_bits, Fits, becomes_flac_metadata, blocks_last, flac_block_error, flac_block_here};
ghost use Rattle.media_messages.specs.FlacBlock.{flac_block_writes};
ghost use Rattle.media_messages.specs.declared.flac_metadata.FlacMetadata.{FlacMetadata};
ghost use Rattle.media_messages.specs.declared.flac_metadata.FlacMetadataError.{FlacMetadataError};
ghost use Rattle.media_messages.specs.declared.flac_metadata.FlacMetadataError.TheVariants.{Reader};
ghost use Rattle.std.specs.Prelude.{◌≡◌, ◌<◌, ◌≤◌, ◌*◌, ◌++◌, ◌⊎◌, ℕ, Bool, List, Ok, Err, length, IfOk, IsOk};
ghost use Rattle.std.specs.List.{flat_map};
ghost use Rattle.std.specs.declared.io.ErrorKind.TheVariants.{WriteZero};
ghost use Rattle.bitstream_io.specs.Callers.{Done, Error, Order, High, bits, write_sequence, OwnAnswer, WritesAll, AllAccepted, sequence_length, sure_answer, GrowsOwn, MayAllocate, OutOfMemory, Stream, result_map, same_error};
ghost use Rattle.bitstream_format.specs.UpToLast.{up_to_last_decoder};
ghost use Rattle.bitstream_io.specs.SliceMut.{HoldsFirst, written_bytes};

use crate::flac_block::{FlacBlock, FlacBlockError};
use bitstream_io::{
    BE, BitRead, BitReadExt, BitReader, BitWrite, BitWriteExt, Bits, Error, SliceMut, ToBitStream,
    pack_into,
};
use std::alloc::{AllocFailed, Global};
use std::marker::Model;

/// The metadata before the frames of a FLAC file (RFC 9639, 8).
///
/// ```text
///  0                   1                   2                   3
///  0 1 2 3 4 5 6 7 8 9 0 1 2 3 4 5 6 7 8 9 0 1 2 3 4 5 6 7 8 9 0 1
/// +-+-+-+-+-+-+-+-+-+-+-+-+-+-+-+-+-+-+-+-+-+-+-+-+-+-+-+-+-+-+-+-+
/// |                          =1716281667                          |
/// +-+-+-+-+-+-+-+-+-+-+-+-+-+-+-+-+-+-+-+-+-+-+-+-+-+-+-+-+-+-+-+-+
/// /             blocks (FlacBlock up to the last one)             /
/// +-+-+-+-+-+-+-+-+-+-+-+-+-+-+-+-+-+-+-+-+-+-+-+-+-+-+-+-+-+-+-+-+
/// ```
#[derive(Debug, Drop)]
pub struct FlacMetadata {
    /// The metadata blocks. The last one, and no other one, has `last`.
    pub blocks: Vec<FlacBlock>,
}

impl Model for FlacMetadata {
    ghost use Rattle.media_messages.specs.FlacMetadataFields.{FlacMetadataFields};

    ghost Value = { FlacMetadataFields };

    ghost view = { λ value. record {
      blocks = value.blocks.items;
    } };
}

/// The errors of reading a `FlacMetadata`.
#[derive(Debug, Drop, thiserror::Error)]
pub enum FlacMetadataError {
    /// An error of the reader.
    #[error("{0}")]
    Reader(Error),
    /// The file does not begin with `fLaC`.
    #[error("the file does not begin with `fLaC`")]
    NotFlac,
    /// An error of a `FlacBlock` that is not the reader's.
    #[error("in a `FlacBlock`: {0}")]
    InFlacBlock(FlacBlockError),
}

impl From<Error> for FlacMetadataError {
    ghost from_gives = { becomes_flac_metadata };

    fn from(error: Error) -> FlacMetadataError {
        FlacMetadataError::Reader(error)
    }
}

impl From<FlacBlockError> for FlacMetadataError {
    ghost from_gives = { λ error own. own ≡ flac_block_error error };

    fn from(error: FlacBlockError) -> FlacMetadataError {
        match error {
            FlacBlockError::Reader(error) => FlacMetadataError::Reader(error),
            FlacBlockError::OtherSize => FlacMetadataError::InFlacBlock(FlacBlockError::OtherSize),
        }
    }
}

impl<T: Drop> From<AllocFailed<T>> for FlacMetadataError {
    ghost from_gives = { λ _ own. own ≡ Reader OutOfMemory };

    fn from(_refused: AllocFailed<T>) -> FlacMetadataError {
        FlacMetadataError::Reader(Error::OutOfMemory)
    }
}

/// Returns true for the last part of `blocks`, which has `last`.
fn blocks_last(item: &FlacBlock) -> bool
    ensures { result ≡ blocks_last item.now }
{
    item.last
}

/// Reads `blocks`, up to the last part. Stops after a part that is rejected, or whose allocation fails.
fn read_blocks<R: BitRead>(
    reader: &mut R,
    alloc: Global,
) -> Result<Vec<FlacBlock>, FlacMetadataError>
    requires { R.source.order ≡ High }
    ensures { GrowsOwn R.source becomes_flac_metadata (up_to_last_decoder (flac_block_here R.source.order) blocks_last)
        reader.old (result_map (λ found. found.items) result) reader.new }
{
    let mut found = Vec::new(alloc);
    for _ in 0..4294967296_u64 {
        let item = FlacBlock::read(reader, alloc)?;
        let last = blocks_last(&item);
        found.push(item)?;
        if last {
            return Ok(found);
        }
    }
    reader.fail();
    Err(FlacMetadataError::Reader(Error::RunTooLong))
}

/// Writes the items of `blocks`.
fn write_blocks<W: BitWrite>(writer: &mut W, items: &[FlacBlock]) -> Result<(), Error>
    ensures { WritesAll W.sink (flat_map (flac_block_writes W.sink.order) items.now)
        writer.old result writer.new }
{
    for item in items {
        item.write(writer)?;
    }
    Ok(())
}

impl FlacMetadata {
    /// The number of bits before each line of the description.
    pub const PLACES: [u64; 2] = [0, 32];

    /// Reads the fields in order.
    ///
    /// # Errors
    ///
    /// `NotFlac` or `InFlacBlock`, after the rejected bits have been read.
    /// `Reader(OutOfMemory)` if an allocation for a list fails. The items before the failure
    /// have been read.
    /// Otherwise the reader's errors, after which it has failed.
    pub fn read<R: BitRead>(
        reader: &mut R,
        alloc: Global,
    ) -> Result<FlacMetadata, FlacMetadataError>
        requires { R.source.order ≡ High }
        ensures { GrowsOwn R.source becomes_flac_metadata (flac_metadata_decoder R.source.order) reader.old result reader.new }
    {
        reader.read_const::<Bits<32>, Bits<1716281667>, FlacMetadataError>(
            FlacMetadataError::NotFlac,
        )?;
        let blocks = read_blocks(reader, alloc)?;
        Ok(FlacMetadata { blocks })
    }

    /// Parses the value at the start of `packet`.
    ///
    /// # Errors
    ///
    /// `NotFlac` or `InFlacBlock` if bits are rejected.
    /// `Reader(EndOfInput)` if the bytes end before the fields do.
    /// `Reader(RunTooLong)` if the last part is not among the first 2^32.
    /// `Reader(OutOfMemory)` if the allocation for an item of a list fails.
    pub fn parse(packet: &[u8], alloc: Global) -> Result<FlacMetadata, FlacMetadataError>
        ensures answer { (OwnAnswer becomes_flac_metadata (λ answer. answer)
            (sure_answer ((flac_metadata_decoder High).reads 0 (bits High packet.now))) result)
            ⊎ ((result ≡ Err (FlacMetadataError.Reader OutOfMemory))
            × MayAllocate (flac_metadata_decoder High) 0 (bits High packet.now)) }
        ensures back { (value : FlacMetadata) (more : List Bool) → Fits value
            → bits High packet.now ≡ write_sequence (flac_metadata_writes High value) 0 ++ more
            → (result ≡ Ok value)
            ⊎ (result ≡ Err (FlacMetadataError.Reader OutOfMemory)) }
    {
        flac_metadata_round_trip();
        FlacMetadata::read(&mut BitReader::<_, BE>::over(packet), alloc)
    }

    /// Writes the fields in order.
    ///
    /// # Errors
    ///
    /// `Checked` for a field that does not fit its bits. The fields before it have been written.
    /// Otherwise the sink's errors.
    pub fn write<W: BitWrite>(&self, writer: &mut W) -> Result<(), Error>
        ensures { WritesAll W.sink (flac_metadata_writes W.sink.order self.now) writer.old result writer.new }
    {
        writer.write_const::<Bits<32>, Bits<1716281667>>()?;
        write_blocks(writer, &self.blocks)?;
        Ok(())
    }

    /// Writes the fields to the first bytes of a buffer, and returns what was written. The other bytes
    /// stay as they were. Does not allocate.
    ///
    /// # Errors
    ///
    /// `Checked` for the first field that does not fit its bits, however long the buffer is.
    /// `Stream(WriteZero)` if all fields fit, and the buffer is too short for the bits.
    /// After an error, the first bytes of the buffer may have changed.
    pub fn pack_into<'a>(&self, buffer: &'a mut [u8]) -> Result<SliceMut<'a>, Error>
        ensures packed { IfOk result (λ packed. bits High (written_bytes packed) ≡ flac_metadata_bits self.now) }
        ensures first { IfOk result (HoldsFirst buffer.entry.ghost_name buffer.old) }
        ensures accepted { IsOk result → AllAccepted (flac_metadata_writes High self.now) 0 }
        ensures misfit { (error : Error) → sequence_length (flac_metadata_writes High self.now) 0 ≡ Err error
            → result ≡ Err error }
        ensures room { Fits self.now → flac_metadata_size High self.now ≤ 8 * length buffer.old
            → IsOk result }
        ensures short { Fits self.now → 8 * length buffer.old < flac_metadata_size High self.now
            → result ≡ Err (Stream WriteZero) }
    {
        pack_into::<BE, FlacMetadata>(self, buffer)
    }
}

impl ToBitStream for FlacMetadata {
    type Error = Error;

    ghost becomes = { same_error };

    ghost writes = { flac_metadata_writes };

    fn to_writer<W: BitWrite>(&self, writer: &mut W) -> Result<(), Error> {
        self.write(writer)
    }
}

/// A value that fits its bits is read back as it was written, in either order of bits, at any place.
/// The read takes only the bits that were written: `flac_metadata_size` is their number.
pub fn flac_metadata_round_trip()
    ensures back { (o : Order) (value : FlacMetadata) (at from : ℕ) (more : List Bool) → Fits value
        → let written = write_sequence (flac_metadata_writes o value) at in
        (flac_metadata_decoder o).reads from (written ++ more) ≡ Done (length written) (Ok (Ok value)) }
    ensures size { (o : Order) (value : FlacMetadata) (at : ℕ) → Fits value
        → length (write_sequence (flac_metadata_writes o value) at) ≡ flac_metadata_size o value }
{}
