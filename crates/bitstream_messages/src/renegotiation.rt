//! The extension that ties a TLS handshake to an earlier one (RFC 5746).
//!
//! Made by `./format` from formats/renegotiation.fields: edit that file and make this one anew.
ghost use Rattle.bitstream_messages.specs.Renegotiation.{renegotiation_decoder, renegotiation_writes, renegotiation_size, renegotiation_bits, Fits};
ghost use Rattle.bitstream_messages.specs.declared.renegotiation.Renegotiation.{Renegotiation};
ghost use Rattle.std.specs.Prelude.{◌≡◌, ◌<◌, ◌≤◌, ◌*◌, ◌++◌, ◌⊎◌, ℕ, Bool, true, List, Ok, Err, length, IfOk, IsOk};
ghost use Rattle.std.specs.declared.io.ErrorKind.TheVariants.{WriteZero};
ghost use Rattle.bitstream_io.specs.Callers.{Done, Error, Order, High, bits, write_sequence, OwnAnswer, WritesAll, AllAccepted, sequence_length, sure_answer, GrowsOwn, MayAllocate, OutOfMemory, Stream, same_error};
ghost use Rattle.bitstream_io.specs.SliceMut.{HoldsFirst, written_bytes};

use bitstream_io::{
    BE, BitRead, BitReadExt, BitReader, BitWrite, BitWriteExt, Bits, Error, FromBitStreamUsing,
    SliceMut, ToBitStream, pack_into,
};
use std::alloc::Global;
use std::marker::Model;

/// The extension that ties a TLS handshake to an earlier one (RFC 5746).
///
/// ```text
///  0                   1                   2                   3
///  0 1 2 3 4 5 6 7 8 9 0 1 2 3 4 5 6 7 8 9 0 1 2 3 4 5 6 7 8 9 0 1
/// +-+-+-+-+-+-+-+-+
/// |   key_count   |
/// +-+-+-+-+-+-+-+-+-+-+-+-+-+-+-+-+-+-+-+-+-+-+-+-+-+-+-+-+-+-+-+-+
/// /                     key (key_count bytes)                     /
/// +-+-+-+-+-+-+-+-+-+-+-+-+-+-+-+-+-+-+-+-+-+-+-+-+-+-+-+-+-+-+-+-+
/// ```
#[derive(Debug, Drop)]
pub struct Renegotiation {
    /// The verify data of the earlier handshake, or nothing. Fewer than 2^8.
    pub key: Vec<u8>,
}

impl Model for Renegotiation {
    ghost use Rattle.bitstream_messages.specs.RenegotiationFields.{RenegotiationFields};

    ghost Value = { RenegotiationFields };

    ghost view = { λ value. record {
      key = value.key.items;
    } };
}

impl Renegotiation {
    /// The number of bits before each line of the description.
    pub const PLACES: [u64; 2] = [0, 8];

    /// Reads the fields in order.
    ///
    /// # Errors
    ///
    /// `OutOfMemory` if an allocation for a list fails. The items before the failure
    /// have been read.
    /// Otherwise the reader's errors, after which it has failed.
    pub fn read<R: BitRead>(reader: &mut R, alloc: Global) -> Result<Renegotiation, Error>
        ensures { GrowsOwn R.source same_error (renegotiation_decoder R.source.order) reader.old result reader.new }
    {
        let key_count = reader.read::<Bits<8>, u64>()?;
        let key = reader.read_to_vec(alloc, key_count as usize)?;
        Ok(Renegotiation { key })
    }

    /// Parses the value at the start of `packet`.
    ///
    /// # Errors
    ///
    /// `EndOfInput` if the bytes end before the fields do.
    /// `OutOfMemory` if the allocation for an item of a list fails.
    pub fn parse(packet: &[u8], alloc: Global) -> Result<Renegotiation, Error>
        ensures answer { (OwnAnswer same_error (λ answer. answer)
            (sure_answer ((renegotiation_decoder High).reads 0 (bits High packet.now))) result)
            ⊎ ((result ≡ Err OutOfMemory)
            × MayAllocate (renegotiation_decoder High) 0 (bits High packet.now)) }
        ensures back { (value : Renegotiation) (more : List Bool) → Fits value
            → bits High packet.now ≡ write_sequence (renegotiation_writes High value) 0 ++ more
            → (result ≡ Ok value)
            ⊎ (result ≡ Err OutOfMemory) }
    {
        renegotiation_round_trip();
        Renegotiation::read(&mut BitReader::<_, BE>::over(packet), alloc)
    }

    /// Writes the fields in order.
    ///
    /// # Errors
    ///
    /// `Checked` for a field that does not fit its bits. The fields before it have been written.
    /// Otherwise the sink's errors.
    pub fn write<W: BitWrite>(&self, writer: &mut W) -> Result<(), Error>
        ensures { WritesAll W.sink (renegotiation_writes W.sink.order self.now) writer.old result writer.new }
    {
        writer.write::<Bits<8>, u64>(self.key.len() as u64)?;
        writer.write_bytes(&self.key)?;
        Ok(())
    }

    /// Writes the fields to the first bytes of a buffer, and returns what was written. The other bytes
    /// stay as they were. Does not allocate.
    ///
    /// # Errors
    ///
    /// `Checked` for the first field that does not fit its bits, however long the buffer is.
    /// `Stream(WriteZero)` if all fields fit, and the buffer is too short for the bits.
    /// After an error, the first bytes of the buffer may have changed.
    pub fn pack_into<'a>(&self, buffer: &'a mut [u8]) -> Result<SliceMut<'a>, Error>
        ensures packed { IfOk result (λ packed. bits High (written_bytes packed) ≡ renegotiation_bits self.now) }
        ensures first { IfOk result (HoldsFirst buffer.entry.ghost_name buffer.old) }
        ensures accepted { IsOk result → AllAccepted (renegotiation_writes High self.now) 0 }
        ensures misfit { (error : Error) → sequence_length (renegotiation_writes High self.now) 0 ≡ Err error
            → result ≡ Err error }
        ensures room { Fits self.now → renegotiation_size High self.now ≤ 8 * length buffer.old
            → IsOk result }
        ensures short { Fits self.now → 8 * length buffer.old < renegotiation_size High self.now
            → result ≡ Err (Stream WriteZero) }
    {
        pack_into::<BE, Renegotiation>(self, buffer)
    }
}

impl FromBitStreamUsing for Renegotiation {
    type Context = Global;

    type Error = Error;

    ghost grows = { true };

    ghost becomes = { same_error };

    ghost reads = { λ o _. renegotiation_decoder o };

    fn from_reader<R: BitRead>(reader: &mut R, alloc: Global) -> Result<Renegotiation, Error> {
        Renegotiation::read(reader, alloc)
    }
}

impl ToBitStream for Renegotiation {
    type Error = Error;

    ghost becomes = { same_error };

    ghost writes = { renegotiation_writes };

    fn to_writer<W: BitWrite>(&self, writer: &mut W) -> Result<(), Error> {
        self.write(writer)
    }
}

/// A value that fits its bits is read back as it was written, in either order of bits, at any place.
/// The read takes only the bits that were written: `renegotiation_size` is their number.
pub fn renegotiation_round_trip()
    ensures back { (o : Order) (value : Renegotiation) (at from : ℕ) (more : List Bool) → Fits value
        → let written = write_sequence (renegotiation_writes o value) at in
        (renegotiation_decoder o).reads from (written ++ more) ≡ Done (length written) (Ok (Ok value)) }
    ensures size { (o : Order) (value : Renegotiation) (at : ℕ) → Fits value
        → length (write_sequence (renegotiation_writes o value) at) ≡ renegotiation_size o value }
{}
