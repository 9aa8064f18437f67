//! The header of an IPv4 packet with its options and its checksum (RFC 791, section 3.1).
//!
//! Made by `./format` from formats/ipv4_packet.fields: edit that file and make this one anew.
ghost use Rattle.network_messages.specs.Ipv4Packet.{ipv4_packet_decoder, ipv4_packet_writes, ipv4_packet_size, ipv4_packet_bits, Fits, becomes_ipv4_packet, sum16_sum, sum16_writes, options_stated};
ghost use Rattle.network_messages.specs.declared.ipv4_packet.Ipv4Packet.{Ipv4Packet};
ghost use Rattle.network_messages.specs.declared.ipv4_packet.Ipv4PacketError.{Ipv4PacketError};
ghost use Rattle.network_messages.specs.declared.ipv4_packet.Ipv4PacketError.TheVariants.{Reader};
ghost use Rattle.std.specs.Prelude.{◌≡◌, ◌<◌, ◌≤◌, ◌*◌, ◌++◌, ◌⊎◌, ℕ, Bool, true, List, Ok, Err, length, IfOk, IsOk};
ghost use Rattle.std.specs.declared.io.ErrorKind.TheVariants.{WriteZero};
ghost use Rattle.bitstream_io.specs.Callers.{Done, Error, Order, High, bits, write_sequence, OwnAnswer, WritesAll, AllAccepted, sequence_length, sure_answer, GrowsOwn, MayAllocate, OutOfMemory, Stream, result_map, same_error};
ghost use Rattle.bitstream_io.specs.SliceMut.{HoldsFirst, written_bytes};

use bitstream_format::checksums::Sum16;
use bitstream_format::stated::{stated_size, stored_size};
use bitstream_format::summed::{sum_of, summing_writer};
use bitstream_io::{
    BE, BitRead, BitReadExt, BitReader, BitWrite, BitWriteExt, Bits, Error, FromBitStreamUsing,
    SliceMut, ToBitStream, pack_into,
};
use std::alloc::Global;
use std::marker::Model;

/// The header of an IPv4 packet with its options and its checksum (RFC 791, section 3.1).
///
/// ```text
///  0                   1                   2                   3
///  0 1 2 3 4 5 6 7 8 9 0 1 2 3 4 5 6 7 8 9 0 1 2 3 4 5 6 7 8 9 0 1
/// +-+-+-+-+-+-+-+-+-+-+-+-+-+-+-+-+-+-+-+-+-+-+-+-+-+-+-+-+-+-+-+-+
/// |   =4  |options|    service    |             length            |
/// +-+-+-+-+-+-+-+-+-+-+-+-+-+-+-+-+-+-+-+-+-+-+-+-+-+-+-+-+-+-+-+-+
/// |               id              |=|k|m|          offset         |
/// +-+-+-+-+-+-+-+-+-+-+-+-+-+-+-+-+-+-+-+-+-+-+-+-+-+-+-+-+-+-+-+-+
/// |      ttl      |    protocol   |          stored_sum16         |
/// +-+-+-+-+-+-+-+-+-+-+-+-+-+-+-+-+-+-+-+-+-+-+-+-+-+-+-+-+-+-+-+-+
/// |                             source                            |
/// +-+-+-+-+-+-+-+-+-+-+-+-+-+-+-+-+-+-+-+-+-+-+-+-+-+-+-+-+-+-+-+-+
/// |                             target                            |
/// +-+-+-+-+-+-+-+-+-+-+-+-+-+-+-+-+-+-+-+-+-+-+-+-+-+-+-+-+-+-+-+-+
/// /             options (4 * options_bytes - 20 bytes)            /
/// +-+-+-+-+-+-+-+-+-+-+-+-+-+-+-+-+-+-+-+-+-+-+-+-+-+-+-+-+-+-+-+-+
/// ```
#[derive(Debug, Drop)]
pub struct Ipv4Packet {
    /// The class of service, and the congestion mark.
    pub service: u8,
    /// The bytes of the packet, with this header.
    pub length: u16,
    /// The packet that a fragment belongs to.
    pub id: u16,
    /// True if the packet must not be fragmented.
    pub keep_whole: bool,
    /// True if more fragments follow.
    pub more: bool,
    /// The place of the fragment, in units of 8 bytes. Below 2^13.
    pub offset: u16,
    /// The number of routers that may still forward it.
    pub ttl: u8,
    /// The protocol of the payload.
    pub protocol: u8,
    /// The sender.
    pub source: [u8; 4],
    /// The receiver.
    pub target: [u8; 4],
    /// The options.
    pub options: Vec<u8>,
}

impl Model for Ipv4Packet {
    ghost use Rattle.network_messages.specs.Ipv4PacketFields.{Ipv4PacketFields};

    ghost Value = { Ipv4PacketFields };

    ghost view = { λ value. record {
      service = value.service;
      length = value.length;
      id = value.id;
      keep_whole = value.keep_whole;
      more = value.more;
      offset = value.offset;
      ttl = value.ttl;
      protocol = value.protocol;
      source = value.source;
      target = value.target;
      options = value.options.items;
    } };
}

/// The errors of reading an `Ipv4Packet`.
#[derive(Debug, Drop, thiserror::Error)]
pub enum Ipv4PacketError {
    /// An error of the reader.
    #[error("{0}")]
    Reader(Error),
    /// The version is not 4.
    #[error("the version is not 4")]
    OtherVersion,
    /// The reserved bit is set.
    #[error("the reserved bit is set")]
    ReservedSet,
    /// The size of `options` is below the 20 bytes that it counts too.
    #[error("the size of `options` is below the 20 bytes that it counts too")]
    ShortHeader,
    /// The checksum is not that of the header.
    #[error("the checksum is not that of the header")]
    WrongSum,
}

impl From<Error> for Ipv4PacketError {
    ghost from_gives = { becomes_ipv4_packet };

    fn from(error: Error) -> Ipv4PacketError {
        Ipv4PacketError::Reader(error)
    }
}

/// Reads `options`. The number `stored` states its size.
fn read_stated_options<R: BitRead>(
    reader: &mut R,
    alloc: Global,
    stored: u64,
) -> Result<Vec<u8>, Ipv4PacketError>
    ensures { GrowsOwn R.source becomes_ipv4_packet (options_stated R.source.order stored)
        reader.old (result_map (λ found. found.items) result) reader.new }
{
    match stated_size(stored, 4, 20, 0) {
        Some(size) => Ok(reader.read_to_vec(alloc, size as usize)?),
        None => Err(Ipv4PacketError::ShortHeader),
    }
}

impl Ipv4Packet {
    /// The number of bits before each line of the description.
    pub const PLACES: [u64; 15] = [0, 4, 8, 16, 32, 48, 49, 50, 51, 64, 72, 80, 96, 128, 160];

    /// Reads the fields in order.
    ///
    /// # Errors
    ///
    /// `OtherVersion`, `ReservedSet`, `ShortHeader` or `WrongSum`, after the rejected bits have been read.
    /// `Reader(OutOfMemory)` if an allocation for a list fails. The items before the failure
    /// have been read.
    /// Otherwise the reader's errors, after which it has failed.
    pub fn read<R: BitRead>(reader: &mut R, alloc: Global) -> Result<Ipv4Packet, Ipv4PacketError>
        ensures { GrowsOwn R.source becomes_ipv4_packet (ipv4_packet_decoder R.source.order) reader.old result reader.new }
    {
        reader.read_const::<Bits<4>, Bits<4>, Ipv4PacketError>(Ipv4PacketError::OtherVersion)?;
        let options_bytes = reader.read::<Bits<4>, u64>()?;
        let service = reader.read::<Bits<8>, u8>()?;
        let length_ = reader.read::<Bits<16>, u16>()?;
        let id = reader.read::<Bits<16>, u16>()?;
        reader.read_const::<Bits<1>, Bits<0>, Ipv4PacketError>(Ipv4PacketError::ReservedSet)?;
        let keep_whole = reader.read_bit()?;
        let more_ = reader.read_bit()?;
        let offset = reader.read::<Bits<13>, u16>()?;
        let ttl = reader.read::<Bits<8>, u8>()?;
        let protocol = reader.read::<Bits<8>, u8>()?;
        let stored_sum16 = reader.read::<Bits<16>, u64>()?;
        let source = reader.read_to_bytes::<[u8; 4]>()?;
        let target = reader.read_to_bytes::<[u8; 4]>()?;
        let options = read_stated_options(reader, alloc, options_bytes)?;
        let value = Ipv4Packet {
            service,
            length: length_,
            id,
            keep_whole,
            more: more_,
            offset,
            ttl,
            protocol,
            source,
            target,
            options,
        };
        let is_sum16 = stored_sum16 == value.sum16();
        if !is_sum16 {
            return Err(Ipv4PacketError::WrongSum);
        }
        Ok(value)
    }

    /// Parses the value at the start of `packet`.
    ///
    /// # Errors
    ///
    /// `OtherVersion`, `ReservedSet`, `ShortHeader` or `WrongSum` if bits are rejected.
    /// `Reader(EndOfInput)` if the bytes end before the fields do.
    /// `Reader(OutOfMemory)` if the allocation for an item of a list fails.
    pub fn parse(packet: &[u8], alloc: Global) -> Result<Ipv4Packet, Ipv4PacketError>
        ensures answer { (OwnAnswer becomes_ipv4_packet (λ answer. answer)
            (sure_answer ((ipv4_packet_decoder High).reads 0 (bits High packet.now))) result)
            ⊎ ((result ≡ Err (Ipv4PacketError.Reader OutOfMemory))
            × MayAllocate (ipv4_packet_decoder High) 0 (bits High packet.now)) }
        ensures back { (value : Ipv4Packet) (more : List Bool) → Fits value
            → bits High packet.now ≡ write_sequence (ipv4_packet_writes High value) 0 ++ more
            → (result ≡ Ok value)
            ⊎ (result ≡ Err (Ipv4PacketError.Reader OutOfMemory)) }
    {
        ipv4_packet_round_trip();
        Ipv4Packet::read(&mut BitReader::<_, BE>::over(packet), alloc)
    }

    /// Writes the fields in order.
    ///
    /// # Errors
    ///
    /// `Checked` for a field that does not fit its bits. The fields before it have been written.
    /// Otherwise the sink's errors.
    pub fn write<W: BitWrite>(&self, writer: &mut W) -> Result<(), Error>
        ensures { WritesAll W.sink (ipv4_packet_writes W.sink.order self.now) writer.old result writer.new }
    {
        writer.write_const::<Bits<4>, Bits<4>>()?;
        writer.write::<Bits<4>, u64>(stored_size(self.options.len() as u64, 4, 20, 0))?;
        writer.write::<Bits<8>, u8>(self.service)?;
        writer.write::<Bits<16>, u16>(self.length)?;
        writer.write::<Bits<16>, u16>(self.id)?;
        writer.write_const::<Bits<1>, Bits<0>>()?;
        writer.write_bit(self.keep_whole)?;
        writer.write_bit(self.more)?;
        writer.write::<Bits<13>, u16>(self.offset)?;
        writer.write::<Bits<8>, u8>(self.ttl)?;
        writer.write::<Bits<8>, u8>(self.protocol)?;
        writer.write::<Bits<16>, u64>(self.sum16())?;
        writer.write_bytes(&self.source)?;
        writer.write_bytes(&self.target)?;
        writer.write_bytes(&self.options)?;
        Ok(())
    }

    /// Returns the sum16 of its lines as they are written, or 0 if a field of theirs does not fit its bits.
    fn sum16(&self) -> u64
        ensures { result ≡ sum16_sum self.now }
    {
        let mut writer = summing_writer::<BE, Sum16>();
        match self.write_for_sum16(&mut writer) {
            Ok(()) => sum_of(writer),
            Err(_) => 0,
        }
    }

    /// Writes the lines that the sum16 covers.
    fn write_for_sum16<W: BitWrite>(&self, writer: &mut W) -> Result<(), Error>
        ensures { WritesAll W.sink (sum16_writes W.sink.order self.now) writer.old result writer.new }
    {
        writer.write_const::<Bits<4>, Bits<4>>()?;
        writer.write::<Bits<4>, u64>(stored_size(self.options.len() as u64, 4, 20, 0))?;
        writer.write::<Bits<8>, u8>(self.service)?;
        writer.write::<Bits<16>, u16>(self.length)?;
        writer.write::<Bits<16>, u16>(self.id)?;
        writer.write_const::<Bits<1>, Bits<0>>()?;
        writer.write_bit(self.keep_whole)?;
        writer.write_bit(self.more)?;
        writer.write::<Bits<13>, u16>(self.offset)?;
        writer.write::<Bits<8>, u8>(self.ttl)?;
        writer.write::<Bits<8>, u8>(self.protocol)?;
        writer.pad(16)?;
        writer.write_bytes(&self.source)?;
        writer.write_bytes(&self.target)?;
        writer.write_bytes(&self.options)?;
        Ok(())
    }

    /// Writes the fields to the first bytes of a buffer, and returns what was written. The other bytes
    /// stay as they were. Does not allocate.
    ///
    /// # Errors
    ///
    /// `Checked` for the first field that does not fit its bits, however long the buffer is.
    /// `Stream(WriteZero)` if all fields fit, and the buffer is too short for the bits.
    /// After an error, the first bytes of the buffer may have changed.
    pub fn pack_into<'a>(&self, buffer: &'a mut [u8]) -> Result<SliceMut<'a>, Error>
        ensures packed { IfOk result (λ packed. bits High (written_bytes packed) ≡ ipv4_packet_bits self.now) }
        ensures first { IfOk result (HoldsFirst buffer.entry.ghost_name buffer.old) }
        ensures accepted { IsOk result → AllAccepted (ipv4_packet_writes High self.now) 0 }
        ensures misfit { (error : Error) → sequence_length (ipv4_packet_writes High self.now) 0 ≡ Err error
            → result ≡ Err error }
        ensures room { Fits self.now → ipv4_packet_size High self.now ≤ 8 * length buffer.old
            → IsOk result }
        ensures short { Fits self.now → 8 * length buffer.old < ipv4_packet_size High self.now
            → result ≡ Err (Stream WriteZero) }
    {
        pack_into::<BE, Ipv4Packet>(self, buffer)
    }
}

impl FromBitStreamUsing for Ipv4Packet {
    type Context = Global;

    type Error = Ipv4PacketError;

    ghost grows = { true };

    ghost becomes = { becomes_ipv4_packet };

    ghost reads = { λ o _. ipv4_packet_decoder o };

    fn from_reader<R: BitRead>(
        reader: &mut R,
        alloc: Global,
    ) -> Result<Ipv4Packet, Ipv4PacketError> {
        Ipv4Packet::read(reader, alloc)
    }
}

impl ToBitStream for Ipv4Packet {
    type Error = Error;

    ghost becomes = { same_error };

    ghost writes = { ipv4_packet_writes };

    fn to_writer<W: BitWrite>(&self, writer: &mut W) -> Result<(), Error> {
        self.write(writer)
    }
}

/// A value that fits its bits is read back as it was written, in either order of bits, at any place.
/// The read takes only the bits that were written: `ipv4_packet_size` is their number.
pub fn ipv4_packet_round_trip()
    ensures back { (o : Order) (value : Ipv4Packet) (at from : ℕ) (more : List Bool) → Fits value
        → let written = write_sequence (ipv4_packet_writes o value) at in
        (ipv4_packet_decoder o).reads from (written ++ more) ≡ Done (length written) (Ok (Ok value)) }
    ensures size { (o : Order) (value : Ipv4Packet) (at : ℕ) → Fits value
        → length (write_sequence (ipv4_packet_writes o value) at) ≡ ipv4_packet_size o value }
{}
