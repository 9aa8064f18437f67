//! The header of an RTP packet, with its sources and its extension (RFC 3550, section 5.1).
//!
//! Made by `./format` from formats/rtp_packet.fields: edit that file and make this one anew.
ghost use Rattle.network_messages.specs.RtpPacket.{rtp_packet_decoder, rtp_packet_writes, rtp_packet_size, rtp_packet_bits, Fits, becomes_rtp_packet, rtp_extension_here};
ghost use Rattle.network_messages.specs.RtpExtension.{rtp_extension_writes};
ghost use Rattle.network_messages.specs.declared.rtp_packet.RtpPacket.{RtpPacket};
ghost use Rattle.network_messages.specs.declared.rtp_packet.RtpPacketError.{RtpPacketError};
ghost use Rattle.network_messages.specs.declared.rtp_packet.RtpPacketError.TheVariants.{Reader};
ghost use Rattle.std.specs.Prelude.{◌≡◌, ◌<◌, ◌≤◌, ◌*◌, ◌++◌, ◌∷◌, [], ◌⊎◌, ℕ, Bool, true, List, Ok, Err, length, IfOk, IsOk};
ghost use Rattle.std.specs.List.{flat_map};
ghost use Rattle.std.specs.declared.io.ErrorKind.TheVariants.{WriteZero};
ghost use Rattle.bitstream_io.specs.Callers.{Done, list_item, Error, Order, High, bits, unsigned_decoder, items_decoder, unsigned, write_sequence, OwnAnswer, WritesAll, AllAccepted, sequence_length, sure_answer, GrowsOwn, MayAllocate, OutOfMemory, Stream, result_map, same_error, own_optional, optional_writes};
ghost use Rattle.bitstream_io.specs.Grows.{GrowingOutcome};
ghost use Rattle.bitstream_io.specs.SliceMut.{HoldsFirst, written_bytes};

use crate::rtp_extension::RtpExtension;
use bitstream_io::{
    BE, BitRead, BitReadExt, BitReader, BitWrite, BitWriteExt, Bits, Error, FromBitStreamUsing,
    SliceMut, ToBitStream, pack_into,
};
use std::alloc::Global;
use std::marker::Model;

/// The header of an RTP packet, with its sources and its extension (RFC 3550, section 5.1).
///
/// ```text
///  0                   1                   2                   3
///  0 1 2 3 4 5 6 7 8 9 0 1 2 3 4 5 6 7 8 9 0 1 2 3 4 5 6 7 8 9 0 1
/// +-+-+-+-+-+-+-+-+-+-+-+-+-+-+-+-+-+-+-+-+-+-+-+-+-+-+-+-+-+-+-+-+
/// | =2|p|h|csrc_co|m| payload_type|            sequence           |
/// +-+-+-+-+-+-+-+-+-+-+-+-+-+-+-+-+-+-+-+-+-+-+-+-+-+-+-+-+-+-+-+-+
/// |                           timestamp                           |
/// +-+-+-+-+-+-+-+-+-+-+-+-+-+-+-+-+-+-+-+-+-+-+-+-+-+-+-+-+-+-+-+-+
/// |                              ssrc                             |
/// +-+-+-+-+-+-+-+-+-+-+-+-+-+-+-+-+-+-+-+-+-+-+-+-+-+-+-+-+-+-+-+-+
/// /                    csrc (csrc_count of u32)                   /
/// +-+-+-+-+-+-+-+-+-+-+-+-+-+-+-+-+-+-+-+-+-+-+-+-+-+-+-+-+-+-+-+-+
/// /            extension (RtpExtension, if it is there)           /
/// +-+-+-+-+-+-+-+-+-+-+-+-+-+-+-+-+-+-+-+-+-+-+-+-+-+-+-+-+-+-+-+-+
/// ```
#[derive(Debug, Drop)]
pub struct RtpPacket {
    /// True if there is padding at the end of the packet.
    pub padding: bool,
    /// A mark that the profile defines, such as the end of a frame.
    pub marker: bool,
    /// The type of the payload. Below 2^7.
    pub payload_type: u8,
    /// The number of the packet in its stream.
    pub sequence: u16,
    /// The time at which the first byte of the payload was sampled.
    pub timestamp: u32,
    /// The source that the packet is synchronized to.
    pub ssrc: u32,
    /// The sources from which a mixer made the payload. Fewer than 2^4.
    pub csrc: Vec<u32>,
    /// The extension.
    pub extension: Option<RtpExtension>,
}

impl Model for RtpPacket {
    ghost use Rattle.network_messages.specs.RtpPacketFields.{RtpPacketFields};

    ghost Value = { RtpPacketFields };

    ghost view = { λ value. record {
      padding = value.padding;
      marker = value.marker;
      payload_type = value.payload_type;
      sequence = value.sequence;
      timestamp = value.timestamp;
      ssrc = value.ssrc;
      csrc = value.csrc.items;
      extension = value.extension;
    } };
}

/// The errors of reading a `RtpPacket`.
#[derive(Debug, Drop, thiserror::Error)]
pub enum RtpPacketError {
    /// An error of the reader.
    #[error("{0}")]
    Reader(Error),
    /// The version is not 2.
    #[error("the version is not 2")]
    OtherVersion,
}

impl From<Error> for RtpPacketError {
    ghost from_gives = { becomes_rtp_packet };

    fn from(error: Error) -> RtpPacketError {
        RtpPacketError::Reader(error)
    }
}

/// Reads `count` items of `csrc`. Stops after an item whose allocation fails.
fn read_csrc<R: BitRead>(reader: &mut R, alloc: Global, count: u64) -> Result<Vec<u32>, Error>
    ensures { GrowingOutcome R.source (items_decoder (list_item (unsigned_decoder R.source.order 32 32)) count)
        reader.old (result_map (λ found. found.items) result) reader.new }
{
    let mut found = Vec::new(alloc);
    for _ in 0..count {
        found.push(reader.read::<Bits<32>, u32>()?)?;
    }
    Ok(found)
}

/// Writes the items of `csrc`.
fn write_csrc<W: BitWrite>(writer: &mut W, items: &[u32]) -> Result<(), Error>
    ensures { WritesAll W.sink (flat_map (λ x. unsigned W.sink.order 32 32 x ∷ []) items.now)
        writer.old result writer.new }
{
    for item in items {
        writer.write::<Bits<32>, u32>(*item)?;
    }
    Ok(())
}

/// Reads a `RtpExtension` if it is there.
fn read_rtp_extension_if<R: BitRead>(
    reader: &mut R,
    alloc: Global,
    there: bool,
) -> Result<Option<RtpExtension>, RtpPacketError>
    ensures { GrowsOwn R.source becomes_rtp_packet (own_optional there (rtp_extension_here R.source.order)) reader.old result reader.new }
{
    if !there {
        return Ok(None);
    }
    Ok(Some(RtpExtension::read(reader, alloc)?))
}

/// Writes a `RtpExtension` if there is one.
fn write_rtp_extension_if<W: BitWrite>(
    writer: &mut W,
    value: &Option<RtpExtension>,
) -> Result<(), Error>
    ensures { WritesAll W.sink (optional_writes (rtp_extension_writes W.sink.order) value.now) writer.old result writer.new }
{
    match value {
        Some(value) => value.write(writer),
        None => Ok(()),
    }
}

impl RtpPacket {
    /// Reads the fields in order.
    ///
    /// # Errors
    ///
    /// `OtherVersion`, after the rejected bits have been read.
    /// `Reader(OutOfMemory)` if an allocation for a list fails. The items before the failure
    /// have been read.
    /// Otherwise the reader's errors, after which it has failed.
    pub fn read<R: BitRead>(reader: &mut R, alloc: Global) -> Result<RtpPacket, RtpPacketError>
        ensures { GrowsOwn R.source becomes_rtp_packet (rtp_packet_decoder R.source.order) reader.old result reader.new }
    {
        reader.read_const::<Bits<2>, Bits<2>, RtpPacketError>(RtpPacketError::OtherVersion)?;
        let padding = reader.read_bit()?;
        let has_extension = reader.read_bit()?;
        let csrc_count = reader.read::<Bits<4>, u64>()?;
        let marker = reader.read_bit()?;
        let payload_type = reader.read::<Bits<7>, u8>()?;
        let sequence = reader.read::<Bits<16>, u16>()?;
        let timestamp = reader.read::<Bits<32>, u32>()?;
        let ssrc = reader.read::<Bits<32>, u32>()?;
        let csrc = read_csrc(reader, alloc, csrc_count)?;
        let extension = read_rtp_extension_if(reader, alloc, has_extension)?;
        Ok(RtpPacket {
            padding,
            marker,
            payload_type,
            sequence,
            timestamp,
            ssrc,
            csrc,
            extension,
        })
    }

    /// Parses the value at the start of `packet`.
    ///
    /// # Errors
    ///
    /// `OtherVersion` if bits are rejected.
    /// `Reader(EndOfInput)` if the bytes end before the fields do.
    /// `Reader(OutOfMemory)` if the allocation for an item of a list fails.
    pub fn parse(packet: &[u8], alloc: Global) -> Result<RtpPacket, RtpPacketError>
        ensures answer { (OwnAnswer becomes_rtp_packet (λ answer. answer)
            (sure_answer ((rtp_packet_decoder High).reads 0 (bits High packet.now))) result)
            ⊎ ((result ≡ Err (RtpPacketError.Reader OutOfMemory))
            × MayAllocate (rtp_packet_decoder High) 0 (bits High packet.now)) }
        ensures back { (value : RtpPacket) (more : List Bool) → Fits value
            → bits High packet.now ≡ write_sequence (rtp_packet_writes High value) 0 ++ more
            → (result ≡ Ok value)
            ⊎ (result ≡ Err (RtpPacketError.Reader OutOfMemory)) }
    {
        rtp_packet_round_trip();
        RtpPacket::read(&mut BitReader::<_, BE>::over(packet), alloc)
    }

    /// Writes the fields in order.
    ///
    /// # Errors
    ///
    /// `Checked` for a field that does not fit its bits. The fields before it have been written.
    /// Otherwise the sink's errors.
    pub fn write<W: BitWrite>(&self, writer: &mut W) -> Result<(), Error>
        ensures { WritesAll W.sink (rtp_packet_writes W.sink.order self.now) writer.old result writer.new }
    {
        writer.write_const::<Bits<2>, Bits<2>>()?;
        writer.write_bit(self.padding)?;
        writer.write_bit(self.extension.is_some())?;
        writer.write::<Bits<4>, u64>(self.csrc.len() as u64)?;
        writer.write_bit(self.marker)?;
        writer.write::<Bits<7>, u8>(self.payload_type)?;
        writer.write::<Bits<16>, u16>(self.sequence)?;
        writer.write::<Bits<32>, u32>(self.timestamp)?;
        writer.write::<Bits<32>, u32>(self.ssrc)?;
        write_csrc(writer, &self.csrc)?;
        write_rtp_extension_if(writer, &self.extension)?;
        Ok(())
    }

    /// Writes the fields to the first bytes of a buffer, and returns what was written. The other bytes
    /// stay as they were. Does not allocate.
    ///
    /// # Errors
    ///
    /// `Checked` for the first field that does not fit its bits, however long the buffer is.
    /// `Stream(WriteZero)` if all fields fit, and the buffer is too short for the bits.
    /// After an error, the first bytes of the buffer may have changed.
    pub fn pack_into<'a>(&self, buffer: &'a mut [u8]) -> Result<SliceMut<'a>, Error>
        ensures packed { IfOk result (λ packed. bits High (written_bytes packed) ≡ rtp_packet_bits self.now) }
        ensures first { IfOk result (HoldsFirst buffer.entry.ghost_name buffer.old) }
        ensures accepted { IsOk result → AllAccepted (rtp_packet_writes High self.now) 0 }
        ensures misfit { (error : Error) → sequence_length (rtp_packet_writes High self.now) 0 ≡ Err error
            → result ≡ Err error }
        ensures room { Fits self.now → rtp_packet_size High self.now ≤ 8 * length buffer.old
            → IsOk result }
        ensures short { Fits self.now → 8 * length buffer.old < rtp_packet_size High self.now
            → result ≡ Err (Stream WriteZero) }
    {
        pack_into::<BE, RtpPacket>(self, buffer)
    }
}

impl FromBitStreamUsing for RtpPacket {
    type Context = Global;

    type Error = RtpPacketError;

    ghost grows = { true };

    ghost becomes = { becomes_rtp_packet };

    ghost reads = { λ o _. rtp_packet_decoder o };

    fn from_reader<R: BitRead>(reader: &mut R, alloc: Global) -> Result<RtpPacket, RtpPacketError> {
        RtpPacket::read(reader, alloc)
    }
}

impl ToBitStream for RtpPacket {
    type Error = Error;

    ghost becomes = { same_error };

    ghost writes = { rtp_packet_writes };

    fn to_writer<W: BitWrite>(&self, writer: &mut W) -> Result<(), Error> {
        self.write(writer)
    }
}

/// A value that fits its bits is read back as it was written, in either order of bits, at any place.
/// The read takes only the bits that were written: `rtp_packet_size` is their number.
pub fn rtp_packet_round_trip()
    ensures back { (o : Order) (value : RtpPacket) (at from : ℕ) (more : List Bool) → Fits value
        → let written = write_sequence (rtp_packet_writes o value) at in
        (rtp_packet_decoder o).reads from (written ++ more) ≡ Done (length written) (Ok (Ok value)) }
    ensures size { (o : Order) (value : RtpPacket) (at : ℕ) → Fits value
        → length (write_sequence (rtp_packet_writes o value) at) ≡ rtp_packet_size o value }
{}
