//! Notes and an acknowledgement, each after its size in bytes.
//!
//! Made by `./format` from formats/packet.fields: edit that file and make this one anew.
ghost use Rattle.bitstream_messages.specs.Packet.{packet_decoder, packet_writes, packet_size, packet_bits, Fits, becomes_packet, notes_sized, notes_ended, notes_here, ack_sized, ack_ended};
ghost use Rattle.bitstream_format.specs.Within.{within, UnlessMemory};
ghost use Rattle.bitstream_messages.specs.Ack.{ack_decoder};
ghost use Rattle.bitstream_messages.specs.declared.packet.Packet.{Packet};
ghost use Rattle.bitstream_messages.specs.declared.packet.PacketError.{PacketError};
ghost use Rattle.bitstream_messages.specs.declared.packet.PacketError.TheVariants.{Reader, OtherNotes, OtherAck};
ghost use Rattle.std.specs.Prelude.{◌≡◌, ◌<◌, ◌≤◌, ◌*◌, ◌++◌, ◌⊎◌, ℕ, Bool, List, Ok, Err, length, IfOk, IsOk};
ghost use Rattle.std.specs.declared.io.ErrorKind.TheVariants.{WriteZero};
ghost use Rattle.bitstream_io.specs.Callers.{Done, Error, Order, High, bits, write_sequence, OwnAnswer, WritesAll, AllAccepted, sequence_length, sure_answer, GrowsOwn, MayAllocate, OutOfMemory, Stream, same_error, plain_reads};
ghost use Rattle.bitstream_io.specs.SliceMut.{HoldsFirst, written_bytes};

use crate::ack::Ack;
use crate::notes::Notes;
use bitstream_format::within::{is_end, write_size};
use bitstream_io::{
    BE, BitRead, BitReadExt, BitReader, BitWrite, BitWriteExt, Bits, Error, SliceMut, SliceReader,
    ToBitStream, pack_into,
};
use std::alloc::Global;
use std::marker::Model;

/// Notes and an acknowledgement, each after its size in bytes.
///
/// ```text
///  0                   1                   2                   3
///  0 1 2 3 4 5 6 7 8 9 0 1 2 3 4 5 6 7 8 9 0 1 2 3 4 5 6 7 8 9 0 1
/// +-+-+-+-+-+-+-+-+-+-+-+-+-+-+-+-+
/// |          notes_bytes          |
/// +-+-+-+-+-+-+-+-+-+-+-+-+-+-+-+-+-+-+-+-+-+-+-+-+-+-+-+-+-+-+-+-+
/// /              notes (Notes, of notes_bytes bytes)              /
/// +-+-+-+-+-+-+-+-+-+-+-+-+-+-+-+-+-+-+-+-+-+-+-+-+-+-+-+-+-+-+-+-+
/// |   ack_bytes   |
/// +-+-+-+-+-+-+-+-+-+-+-+-+-+-+-+-+-+-+-+-+-+-+-+-+-+-+-+-+-+-+-+-+
/// /                 ack (Ack, of ack_bytes bytes)                 /
/// +-+-+-+-+-+-+-+-+-+-+-+-+-+-+-+-+-+-+-+-+-+-+-+-+-+-+-+-+-+-+-+-+
/// |      end      |
/// +-+-+-+-+-+-+-+-+
/// ```
#[derive(Debug, Drop)]
pub struct Packet {
    /// The notes.
    pub notes: Notes,
    /// The acknowledgement.
    pub ack: Ack,
    /// The end of the packet.
    pub end: u8,
}

impl Model for Packet {
    ghost use Rattle.bitstream_messages.specs.PacketFields.{PacketFields};

    ghost Value = { PacketFields };

    ghost view = { λ value. record {
      notes = value.notes;
      ack = value.ack;
      end = value.end;
    } };
}

/// The errors of reading a `Packet`.
#[derive(Debug, Drop, thiserror::Error)]
pub enum PacketError {
    /// An error of the reader.
    #[error("{0}")]
    Reader(Error),
    /// `notes` does not fill the bytes that its size states.
    #[error("`notes` does not fill the bytes that its size states")]
    OtherNotes,
    /// `ack` does not fill the bytes that its size states.
    #[error("`ack` does not fill the bytes that its size states")]
    OtherAck,
}

impl From<Error> for PacketError {
    ghost from_gives = { becomes_packet };

    fn from(error: Error) -> PacketError {
        PacketError::Reader(error)
    }
}

/// Maps an error inside the bytes of `notes`: the end of these bytes becomes `OtherNotes`.
fn notes_ended(error: PacketError) -> PacketError
    ensures { result ≡ notes_ended error }
{
    match error {
        PacketError::Reader(error) => {
            if is_end(&error) {
                return PacketError::OtherNotes;
            }
            PacketError::Reader(error)
        }
        PacketError::OtherNotes => PacketError::OtherNotes,
        PacketError::OtherAck => PacketError::OtherAck,
    }
}

/// Parses these bytes as `notes`.
///
/// # Errors
///
/// `OtherNotes` if `notes` does not fill the bytes. Otherwise the errors of `notes`.
fn notes_in(bytes: &[u8], alloc: Global) -> Result<Notes, PacketError>
    ensures { UnlessMemory (λ error. Reader error)
        (within (notes_here High) OtherNotes (λ error. Reader error) notes_ended (bits High bytes.now)) result }
{
    let mut inside = SliceReader::<BE>::over(bytes);
    match Notes::read(&mut inside, alloc) {
        Ok(found) => {
            if inside.is_at_end() {
                return Ok(found);
            }
            Err(PacketError::OtherNotes)
        }
        Err(error) => Err(notes_ended(PacketError::from(error))),
    }
}

/// Reads `notes`, which has `size` bytes. No bit after them is read.
fn read_notes<R: BitRead>(reader: &mut R, alloc: Global, size: u64) -> Result<Notes, PacketError>
    requires { R.source.order ≡ High }
    ensures { GrowsOwn R.source becomes_packet (notes_sized R.source.order size)
        reader.old result reader.new }
{
    let bytes = reader.read_to_vec(alloc, size as usize)?;
    notes_in(&bytes, alloc)
}

/// Maps an error inside the bytes of `ack`: the end of these bytes becomes `OtherAck`.
fn ack_ended(error: PacketError) -> PacketError
    ensures { result ≡ ack_ended error }
{
    match error {
        PacketError::Reader(error) => {
            if is_end(&error) {
                return PacketError::OtherAck;
            }
            PacketError::Reader(error)
        }
        PacketError::OtherNotes => PacketError::OtherNotes,
        PacketError::OtherAck => PacketError::OtherAck,
    }
}

/// Parses these bytes as `ack`.
///
/// # Errors
///
/// `OtherAck` if `ack` does not fill the bytes. Otherwise the errors of `ack`.
fn ack_in(bytes: &[u8]) -> Result<Ack, PacketError>
    ensures { UnlessMemory (λ error. Reader error)
        (within (plain_reads (ack_decoder High)) OtherAck (λ error. Reader error) ack_ended (bits High bytes.now)) result }
{
    let mut inside = SliceReader::<BE>::over(bytes);
    match Ack::read(&mut inside) {
        Ok(found) => {
            if inside.is_at_end() {
                return Ok(found);
            }
            Err(PacketError::OtherAck)
        }
        Err(error) => Err(ack_ended(PacketError::from(error))),
    }
}

/// Reads `ack`, which has `size` bytes. No bit after them is read.
fn read_ack<R: BitRead>(reader: &mut R, alloc: Global, size: u64) -> Result<Ack, PacketError>
    requires { R.source.order ≡ High }
    ensures { GrowsOwn R.source becomes_packet (ack_sized R.source.order size)
        reader.old result reader.new }
{
    let bytes = reader.read_to_vec(alloc, size as usize)?;
    ack_in(&bytes)
}

impl Packet {
    /// Reads the fields in order.
    ///
    /// # Errors
    ///
    /// `OtherNotes` or `OtherAck`, after the rejected bits have been read.
    /// `Reader(OutOfMemory)` if an allocation for a list fails. The items before the failure
    /// have been read.
    /// Otherwise the reader's errors, after which it has failed.
    pub fn read<R: BitRead>(reader: &mut R, alloc: Global) -> Result<Packet, PacketError>
        requires { R.source.order ≡ High }
        ensures { GrowsOwn R.source becomes_packet (packet_decoder R.source.order) reader.old result reader.new }
    {
        let notes_bytes = reader.read::<Bits<16>, u64>()?;
        let notes = read_notes(reader, alloc, notes_bytes)?;
        let ack_bytes = reader.read::<Bits<8>, u64>()?;
        let ack = read_ack(reader, alloc, ack_bytes)?;
        let end = reader.read::<Bits<8>, u8>()?;
        Ok(Packet { notes, ack, end })
    }

    /// Parses the value at the start of `packet`.
    ///
    /// # Errors
    ///
    /// `OtherNotes` or `OtherAck` if bits are rejected.
    /// `Reader(EndOfInput)` if the bytes end before the fields do.
    /// `Reader(OutOfMemory)` if the allocation for an item of a list fails.
    pub fn parse(packet: &[u8], alloc: Global) -> Result<Packet, PacketError>
        ensures answer { (OwnAnswer becomes_packet (λ answer. answer)
            (sure_answer ((packet_decoder High).reads 0 (bits High packet.now))) result)
            ⊎ ((result ≡ Err (PacketError.Reader OutOfMemory))
            × MayAllocate (packet_decoder High) 0 (bits High packet.now)) }
        ensures back { (value : Packet) (more : List Bool) → Fits value
            → bits High packet.now ≡ write_sequence (packet_writes High value) 0 ++ more
            → (result ≡ Ok value)
            ⊎ (result ≡ Err (PacketError.Reader OutOfMemory)) }
    {
        packet_round_trip();
        Packet::read(&mut BitReader::<_, BE>::over(packet), alloc)
    }

    /// Writes the fields in order.
    ///
    /// # Errors
    ///
    /// `Checked` for a field that does not fit its bits. The fields before it have been written.
    /// Otherwise the sink's errors.
    pub fn write<W: BitWrite>(&self, writer: &mut W) -> Result<(), Error>
        ensures { WritesAll W.sink (packet_writes W.sink.order self.now) writer.old result writer.new }
    {
        write_size(writer, 16, self.notes.bits::<u64>())?;
        self.notes.write(writer)?;
        write_size(writer, 8, self.ack.bits::<u64>())?;
        self.ack.write(writer)?;
        writer.write::<Bits<8>, u8>(self.end)?;
        Ok(())
    }

    /// Writes the fields to the first bytes of a buffer, and returns what was written. The other bytes
    /// stay as they were. Does not allocate.
    ///
    /// # Errors
    ///
    /// `Checked` for the first field that does not fit its bits, however long the buffer is.
    /// `Stream(WriteZero)` if all fields fit, and the buffer is too short for the bits.
    /// After an error, the first bytes of the buffer may have changed.
    pub fn pack_into<'a>(&self, buffer: &'a mut [u8]) -> Result<SliceMut<'a>, Error>
        ensures packed { IfOk result (λ packed. bits High (written_bytes packed) ≡ packet_bits self.now) }
        ensures first { IfOk result (HoldsFirst buffer.entry.ghost_name buffer.old) }
        ensures accepted { IsOk result → AllAccepted (packet_writes High self.now) 0 }
        ensures misfit { (error : Error) → sequence_length (packet_writes High self.now) 0 ≡ Err error
            → result ≡ Err error }
        ensures room { Fits self.now → packet_size High self.now ≤ 8 * length buffer.old
            → IsOk result }
        ensures short { Fits self.now → 8 * length buffer.old < packet_size High self.now
            → result ≡ Err (Stream WriteZero) }
    {
        pack_into::<BE, Packet>(self, buffer)
    }
}

impl ToBitStream for Packet {
    type Error = Error;

    ghost becomes = { same_error };

    ghost writes = { packet_writes };

    fn to_writer<W: BitWrite>(&self, writer: &mut W) -> Result<(), Error> {
        self.write(writer)
    }
}

/// A value that fits its bits is read back as it was written, in either order of bits, at any place.
/// The read takes only the bits that were written: `packet_size` is their number.
pub fn packet_round_trip()
    ensures back { (o : Order) (value : Packet) (at from : ℕ) (more : List Bool) → Fits value
        → let written = write_sequence (packet_writes o value) at in
        (packet_decoder o).reads from (written ++ more) ≡ Done (length written) (Ok (Ok value)) }
    ensures size { (o : Order) (value : Packet) (at : ℕ) → Fits value
        → length (write_sequence (packet_writes o value) at) ≡ packet_size o value }
{}
