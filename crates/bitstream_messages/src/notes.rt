//! Levels that were noted at one place.
//!
//! Made by `./format` from formats/notes.fields: edit that file and make this one anew.
ghost use Rattle.bitstream_messages.specs.Notes.{notes_decoder, notes_writes, notes_size, notes_bits, Fits};
ghost use Rattle.bitstream_messages.specs.declared.notes.Notes.{Notes};
ghost use Rattle.std.specs.Prelude.{◌≡◌, ◌<◌, ◌≤◌, ◌*◌, ◌++◌, ◌∷◌, [], ◌⊎◌, ℕ, Bool, true, List, Ok, Err, length, IfOk, IsOk};
ghost use Rattle.std.specs.List.{flat_map};
ghost use Rattle.std.specs.declared.io.ErrorKind.TheVariants.{WriteZero};
ghost use Rattle.bitstream_io.specs.Callers.{Done, list_item, Error, Order, High, bits, unsigned_decoder, items_decoder, unsigned, write_sequence, OwnAnswer, WritesAll, sequence_length, sure_answer, GrowsOwn, MayAllocate, OutOfMemory, Stream, result_map, same_error};
ghost use Rattle.bitstream_io.specs.Grows.{GrowingOutcome};
ghost use Rattle.bitstream_io.specs.SliceMut.{HoldsFirst, written_bytes};

use bitstream_io::{
    BE, BitRead, BitReadExt, BitReader, BitWrite, BitWriteExt, Bits, Error, FromBitStreamUsing,
    SliceMut, ToBitStream, pack_into,
};
use std::alloc::Global;
use std::marker::Model;

/// Levels that were noted at one place.
///
/// ```text
///  0                   1                   2                   3
///  0 1 2 3 4 5 6 7 8 9 0 1 2 3 4 5 6 7 8 9 0 1 2 3 4 5 6 7 8 9 0 1
/// +-+-+-+-+-+-+-+-+-+-+-+-+-+-+-+-+
/// |     place     |  levels_count |
/// +-+-+-+-+-+-+-+-+-+-+-+-+-+-+-+-+-+-+-+-+-+-+-+-+-+-+-+-+-+-+-+-+
/// /                  levels (levels_count of u16)                 /
/// +-+-+-+-+-+-+-+-+-+-+-+-+-+-+-+-+-+-+-+-+-+-+-+-+-+-+-+-+-+-+-+-+
/// ```
#[derive(Debug, Drop)]
pub struct Notes {
    /// The number of the place.
    pub place: u8,
    /// The levels. Fewer than 2^8.
    pub levels: Vec<u16>,
}

impl Model for Notes {
    ghost use Rattle.bitstream_messages.specs.NotesFields.{NotesFields};

    ghost Value = { NotesFields };

    ghost view = { λ value. record {
      place = value.place;
      levels = value.levels.items;
    } };
}

/// Reads `count` items of `levels`. Stops after an item whose allocation fails.
fn read_levels<R: BitRead>(reader: &mut R, alloc: Global, count: u64) -> Result<Vec<u16>, Error>
    ensures { GrowingOutcome R.source (items_decoder (list_item (unsigned_decoder R.source.order 16 16)) count)
        reader.old (result_map (λ found. found.items) result) reader.new }
{
    let mut found = Vec::new(alloc);
    for _ in 0..count {
        found.push(reader.read::<Bits<16>, u16>()?)?;
    }
    Ok(found)
}

/// Writes the items of `levels`.
fn write_levels<W: BitWrite>(writer: &mut W, items: &[u16]) -> Result<(), Error>
    ensures { WritesAll W.sink (flat_map (λ x. unsigned W.sink.order 16 16 x ∷ []) items.now)
        writer.old result writer.new }
{
    for item in items {
        writer.write::<Bits<16>, u16>(*item)?;
    }
    Ok(())
}

impl Notes {
    /// The number of bits before each line of the description.
    pub const PLACES: [u64; 3] = [0, 8, 16];

    /// Reads the fields in order.
    ///
    /// # Errors
    ///
    /// `OutOfMemory` if an allocation for a list fails. The items before the failure
    /// have been read.
    /// Otherwise the reader's errors, after which it has failed.
    pub fn read<R: BitRead>(reader: &mut R, alloc: Global) -> Result<Notes, Error>
        ensures { GrowsOwn R.source same_error (notes_decoder R.source.order) reader.old result reader.new }
    {
        let place = reader.read::<Bits<8>, u8>()?;
        let levels_count = reader.read::<Bits<8>, u64>()?;
        let levels = read_levels(reader, alloc, levels_count)?;
        Ok(Notes { place, levels })
    }

    /// Parses the value at the start of `packet`.
    ///
    /// # Errors
    ///
    /// `EndOfInput` if the bytes end before the fields do.
    /// `OutOfMemory` if the allocation for an item of a list fails.
    pub fn parse(packet: &[u8], alloc: Global) -> Result<Notes, Error>
        ensures answer { (OwnAnswer same_error (λ answer. answer)
            (sure_answer ((notes_decoder High).reads 0 (bits High packet.now))) result)
            ⊎ ((result ≡ Err OutOfMemory)
            × MayAllocate (notes_decoder High) 0 (bits High packet.now)) }
        ensures back { (value : Notes) (more : List Bool) → Fits value
            → bits High packet.now ≡ write_sequence (notes_writes High value) 0 ++ more
            → (result ≡ Ok value)
            ⊎ (result ≡ Err OutOfMemory) }
    {
        notes_round_trip();
        Notes::read(&mut BitReader::<_, BE>::over(packet), alloc)
    }

    /// Writes the fields in order.
    ///
    /// # Errors
    ///
    /// `Checked` for a field that does not fit its bits. The fields before it have been written.
    /// Otherwise the sink's errors.
    pub fn write<W: BitWrite>(&self, writer: &mut W) -> Result<(), Error>
        ensures { WritesAll W.sink (notes_writes W.sink.order self.now) writer.old result writer.new }
    {
        writer.write::<Bits<8>, u8>(self.place)?;
        writer.write::<Bits<8>, u64>(self.levels.len() as u64)?;
        write_levels(writer, &self.levels)?;
        Ok(())
    }

    /// Writes the fields to the first bytes of a buffer, and returns what was written. The other bytes
    /// stay as they were. Does not allocate.
    ///
    /// # Errors
    ///
    /// `Checked` for the first field that does not fit its bits, however long the buffer is.
    /// `Stream(WriteZero)` if all fields fit, and the buffer is too short for the bits.
    /// After an error, the first bytes of the buffer may have changed.
    pub fn pack_into<'a>(&self, buffer: &'a mut [u8]) -> Result<SliceMut<'a>, Error>
        ensures packed { IfOk result (λ packed. bits High (written_bytes packed) ≡ notes_bits self.now) }
        ensures first { IfOk result (HoldsFirst buffer.entry.ghost_name buffer.old) }
        ensures fits { IsOk result → Fits self.now }
        ensures misfit { (error : Error) → sequence_length (notes_writes High self.now) 0 ≡ Err error
            → result ≡ Err error }
        ensures room { Fits self.now → notes_size High self.now ≤ 8 * length buffer.old
            → IsOk result }
        ensures short { Fits self.now → 8 * length buffer.old < notes_size High self.now
            → result ≡ Err (Stream WriteZero) }
    {
        pack_into::<BE, Notes>(self, buffer)
    }
}

impl FromBitStreamUsing for Notes {
    type Context = Global;

    type Error = Error;

    ghost grows = { true };

    ghost becomes = { same_error };

    ghost reads = { λ o _. notes_decoder o };

    fn from_reader<R: BitRead>(reader: &mut R, alloc: Global) -> Result<Notes, Error> {
        Notes::read(reader, alloc)
    }
}

impl ToBitStream for Notes {
    type Error = Error;

    ghost becomes = { same_error };

    ghost writes = { notes_writes };

    fn to_writer<W: BitWrite>(&self, writer: &mut W) -> Result<(), Error> {
        self.write(writer)
    }
}

/// A value that fits its bits is read back as it was written, in either order of bits, at any place.
/// The read takes only the bits that were written: `notes_size` is their number.
pub fn notes_round_trip()
    ensures back { (o : Order) (value : Notes) (at from : ℕ) (more : List Bool) → Fits value
        → let written = write_sequence (notes_writes o value) at in
        (notes_decoder o).reads from (written ++ more) ≡ Done (length written) (Ok (Ok value)) }
    ensures size { (o : Order) (value : Notes) (at : ℕ) → Fits value
        → length (write_sequence (notes_writes o value) at) ≡ notes_size o value }
{}
