//! A packet of Bluetooth that holds a whole frame of L2CAP (Core 5.4, volume 4, part E, section 5.4.2; volume 3, part A, section 3.1).
//!
//! Made by `./format` from formats/acl_packet.fields: edit that file and make this one anew.
ghost use Rattle.bitstream_messages.specs.AclPacket.{acl_packet_decoder, acl_packet_writes, acl_packet_size, acl_packet_bits, Fits, becomes_acl_packet, frame_bytes_sum, frame_number, frame_bytes_writes};
ghost use Rattle.bitstream_messages.specs.declared.acl_packet.AclPacket.{AclPacket};
ghost use Rattle.bitstream_messages.specs.declared.acl_packet.AclPacketError.{AclPacketError};
ghost use Rattle.bitstream_messages.specs.declared.acl_packet.AclPacketError.TheVariants.{Reader};
ghost use Rattle.std.specs.Prelude.{◌≡◌, ◌<◌, ◌≤◌, ◌*◌, ◌++◌, ◌⊎◌, ℕ, Bool, true, List, Ok, Err, length, IfOk, IsOk};
ghost use Rattle.std.specs.declared.io.ErrorKind.TheVariants.{WriteZero};
ghost use Rattle.bitstream_io.specs.Callers.{Done, Error, Order, Low, bits, write_sequence, OwnAnswer, WritesAll, AllAccepted, sequence_length, sure_answer, GrowsOwn, MayAllocate, OutOfMemory, Stream, same_error};
ghost use Rattle.bitstream_io.specs.SliceMut.{HoldsFirst, written_bytes};

use bitstream_format::checksums::ByteCount;
use bitstream_format::stated::stored_size;
use bitstream_format::summed::{sum_of, summing_writer};
use bitstream_io::{
    BitRead, BitReadExt, BitReader, BitWrite, BitWriteExt, Bits, Error, FromBitStreamUsing, LE,
    SliceMut, ToBitStream, pack_into,
};
use std::alloc::Global;
use std::marker::Model;

/// A packet of Bluetooth that holds a whole frame of L2CAP (Core 5.4, volume 4, part E, section 5.4.2; volume 3, part A, section 3.1).
///
/// ```text
///  0                   1                   2                   3
///  0 1 2 3 4 5 6 7 8 9 0 1 2 3 4 5 6 7 8 9 0 1 2 3 4 5 6 7 8 9 0 1
/// +-+-+-+-+-+-+-+-+-+-+-+-+-+-+-+-+-+-+-+-+-+-+-+-+-+-+-+-+-+-+-+-+
/// |         handle        |bou|bro|       stored_frame_bytes      |
/// +-+-+-+-+-+-+-+-+-+-+-+-+-+-+-+-+-+-+-+-+-+-+-+-+-+-+-+-+-+-+-+-+
/// |         payload_bytes         |            channel            |
/// +-+-+-+-+-+-+-+-+-+-+-+-+-+-+-+-+-+-+-+-+-+-+-+-+-+-+-+-+-+-+-+-+
/// /                 payload (payload_bytes bytes)                 /
/// +-+-+-+-+-+-+-+-+-+-+-+-+-+-+-+-+-+-+-+-+-+-+-+-+-+-+-+-+-+-+-+-+
/// ```
#[derive(Debug, Drop)]
pub struct AclPacket {
    /// The number of the connection. Below 2^12.
    pub handle: u16,
    /// Which part of a frame the packet holds. Below 2^2.
    pub boundary: u8,
    /// Whether the packet is for all devices, 0 if not. Below 2^2.
    pub broadcast: u8,
    /// The channel that the frame belongs to.
    pub channel: u16,
    /// The data of the frame.
    pub payload: Vec<u8>,
}

impl Model for AclPacket {
    ghost use Rattle.bitstream_messages.specs.AclPacketFields.{AclPacketFields};

    ghost Value = { AclPacketFields };

    ghost view = { λ value. record {
      handle = value.handle;
      boundary = value.boundary;
      broadcast = value.broadcast;
      channel = value.channel;
      payload = value.payload.items;
    } };
}

/// The errors of reading an `AclPacket`.
#[derive(Debug, Drop, thiserror::Error)]
pub enum AclPacketError {
    /// An error of the reader.
    #[error("{0}")]
    Reader(Error),
    /// The length of the packet is not that of the frame.
    #[error("the length of the packet is not that of the frame")]
    OtherLength,
}

impl From<Error> for AclPacketError {
    ghost from_gives = { becomes_acl_packet };

    fn from(error: Error) -> AclPacketError {
        AclPacketError::Reader(error)
    }
}

impl AclPacket {
    /// The number of bits before each line of the description.
    pub const PLACES: [u64; 7] = [0, 12, 14, 16, 32, 48, 64];

    /// Reads the fields in order.
    ///
    /// # Errors
    ///
    /// `OtherLength`, after the rejected bits have been read.
    /// `Reader(OutOfMemory)` if an allocation for a list fails. The items before the failure
    /// have been read.
    /// Otherwise the reader's errors, after which it has failed.
    pub fn read<R: BitRead>(reader: &mut R, alloc: Global) -> Result<AclPacket, AclPacketError>
        ensures { GrowsOwn R.source becomes_acl_packet (acl_packet_decoder R.source.order) reader.old result reader.new }
    {
        let handle = reader.read::<Bits<12>, u16>()?;
        let boundary = reader.read::<Bits<2>, u8>()?;
        let broadcast = reader.read::<Bits<2>, u8>()?;
        let stored_frame_bytes = reader.read::<Bits<16>, u64>()?;
        let payload_bytes = reader.read::<Bits<16>, u64>()?;
        let channel = reader.read::<Bits<16>, u16>()?;
        let payload = reader.read_to_vec(alloc, payload_bytes as usize)?;
        let value = AclPacket {
            handle,
            boundary,
            broadcast,
            channel,
            payload,
        };
        let is_frame_bytes = stored_frame_bytes == value.frame_number();
        if !is_frame_bytes {
            return Err(AclPacketError::OtherLength);
        }
        Ok(value)
    }

    /// Parses the value at the start of `packet`.
    ///
    /// # Errors
    ///
    /// `OtherLength` if bits are rejected.
    /// `Reader(EndOfInput)` if the bytes end before the fields do.
    /// `Reader(OutOfMemory)` if the allocation for an item of a list fails.
    pub fn parse(packet: &[u8], alloc: Global) -> Result<AclPacket, AclPacketError>
        ensures answer { (OwnAnswer becomes_acl_packet (λ answer. answer)
            (sure_answer ((acl_packet_decoder Low).reads 0 (bits Low packet.now))) result)
            ⊎ ((result ≡ Err (AclPacketError.Reader OutOfMemory))
            × MayAllocate (acl_packet_decoder Low) 0 (bits Low packet.now)) }
        ensures back { (value : AclPacket) (more : List Bool) → Fits value
            → bits Low packet.now ≡ write_sequence (acl_packet_writes Low value) 0 ++ more
            → (result ≡ Ok value)
            ⊎ (result ≡ Err (AclPacketError.Reader OutOfMemory)) }
    {
        acl_packet_round_trip();
        AclPacket::read(&mut BitReader::<_, LE>::over(packet), alloc)
    }

    /// Writes the fields in order.
    ///
    /// # Errors
    ///
    /// `Checked` for a field that does not fit its bits. The fields before it have been written.
    /// Otherwise the sink's errors.
    pub fn write<W: BitWrite>(&self, writer: &mut W) -> Result<(), Error>
        ensures { WritesAll W.sink (acl_packet_writes W.sink.order self.now) writer.old result writer.new }
    {
        writer.write::<Bits<12>, u16>(self.handle)?;
        writer.write::<Bits<2>, u8>(self.boundary)?;
        writer.write::<Bits<2>, u8>(self.broadcast)?;
        writer.write::<Bits<16>, u64>(self.frame_number())?;
        writer.write::<Bits<16>, u64>(self.payload.len() as u64)?;
        writer.write::<Bits<16>, u16>(self.channel)?;
        writer.write_bytes(&self.payload)?;
        Ok(())
    }

    /// Returns the number that states the bytes of its lines, or 2^64 - 1 if none does.
    fn frame_number(&self) -> u64
        ensures { result ≡ frame_number self.now }
    {
        stored_size(self.frame_bytes(), 1, 2, 0)
    }

    /// Returns the number of bytes of its lines as they are written, or 0 if a field of theirs does not fit its bits.
    fn frame_bytes(&self) -> u64
        ensures { result ≡ frame_bytes_sum self.now }
    {
        let mut writer = summing_writer::<LE, ByteCount>();
        match self.write_for_frame_bytes(&mut writer) {
            Ok(()) => sum_of(writer),
            Err(_) => 0,
        }
    }

    /// Writes the lines that the number of bytes covers.
    fn write_for_frame_bytes<W: BitWrite>(&self, writer: &mut W) -> Result<(), Error>
        ensures { WritesAll W.sink (frame_bytes_writes W.sink.order self.now) writer.old result writer.new }
    {
        writer.write::<Bits<16>, u16>(self.channel)?;
        writer.write_bytes(&self.payload)?;
        Ok(())
    }

    /// Writes the fields to the first bytes of a buffer, and returns what was written. The other bytes
    /// stay as they were. Does not allocate.
    ///
    /// # Errors
    ///
    /// `Checked` for the first field that does not fit its bits, however long the buffer is.
    /// `Stream(WriteZero)` if all fields fit, and the buffer is too short for the bits.
    /// After an error, the first bytes of the buffer may have changed.
    pub fn pack_into<'a>(&self, buffer: &'a mut [u8]) -> Result<SliceMut<'a>, Error>
        ensures packed { IfOk result (λ packed. bits Low (written_bytes packed) ≡ acl_packet_bits self.now) }
        ensures first { IfOk result (HoldsFirst buffer.entry.ghost_name buffer.old) }
        ensures accepted { IsOk result → AllAccepted (acl_packet_writes Low self.now) 0 }
        ensures misfit { (error : Error) → sequence_length (acl_packet_writes Low self.now) 0 ≡ Err error
            → result ≡ Err error }
        ensures room { Fits self.now → acl_packet_size Low self.now ≤ 8 * length buffer.old
            → IsOk result }
        ensures short { Fits self.now → 8 * length buffer.old < acl_packet_size Low self.now
            → result ≡ Err (Stream WriteZero) }
    {
        pack_into::<LE, AclPacket>(self, buffer)
    }
}

impl FromBitStreamUsing for AclPacket {
    type Context = Global;

    type Error = AclPacketError;

    ghost grows = { true };

    ghost becomes = { becomes_acl_packet };

    ghost reads = { λ o _. acl_packet_decoder o };

    fn from_reader<R: BitRead>(reader: &mut R, alloc: Global) -> Result<AclPacket, AclPacketError> {
        AclPacket::read(reader, alloc)
    }
}

impl ToBitStream for AclPacket {
    type Error = Error;

    ghost becomes = { same_error };

    ghost writes = { acl_packet_writes };

    fn to_writer<W: BitWrite>(&self, writer: &mut W) -> Result<(), Error> {
        self.write(writer)
    }
}

/// A value that fits its bits is read back as it was written, in either order of bits, at any place.
/// The read takes only the bits that were written: `acl_packet_size` is their number.
pub fn acl_packet_round_trip()
    ensures back { (o : Order) (value : AclPacket) (at from : ℕ) (more : List Bool) → Fits value
        → let written = write_sequence (acl_packet_writes o value) at in
        (acl_packet_decoder o).reads from (written ++ more) ≡ Done (length written) (Ok (Ok value)) }
    ensures size { (o : Order) (value : AclPacket) (at : ℕ) → Fits value
        → length (write_sequence (acl_packet_writes o value) at) ≡ acl_packet_size o value }
{}
