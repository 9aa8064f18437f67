//! The header of an IPv4 packet with its options (RFC 791, section 3.1).
//!
//! Made by `./format` from formats/ipv4_datagram.fields: edit that file and make this one anew.
ghost use Rattle.bitstream_messages.specs.Ipv4Datagram.{ipv4_datagram_decoder, ipv4_datagram_writes, ipv4_datagram_size, ipv4_datagram_bits, Fits, becomes_ipv4_datagram, ecn_of, ecn_number, ecn_read, options_stated};
ghost use Rattle.bitstream_messages.specs.declared.ipv4_datagram.Ipv4Datagram.{Ipv4Datagram};
ghost use Rattle.bitstream_messages.specs.declared.ipv4_datagram.Ipv4DatagramError.{Ipv4DatagramError};
ghost use Rattle.bitstream_messages.specs.declared.ipv4_datagram.Ipv4DatagramError.TheVariants.{Reader};
ghost use Rattle.std.specs.Prelude.{◌≡◌, ◌<◌, ◌≤◌, ◌*◌, ◌++◌, ◌⊎◌, ℕ, Bool, true, List, Ok, Err, length, IfOk, IsOk};
ghost use Rattle.std.specs.declared.io.ErrorKind.TheVariants.{WriteZero};
ghost use Rattle.bitstream_io.specs.Callers.{Done, Error, Order, High, bits, write_sequence, Reads, OwnAnswer, WritesAll, AllAccepted, sequence_length, sure_answer, GrowsOwn, MayAllocate, OutOfMemory, Stream, result_map, same_error};
ghost use Rattle.bitstream_io.specs.SliceMut.{HoldsFirst, written_bytes};

use bitstream_format::stated::{stated_size, stored_size};
use bitstream_io::{
    BE, BitRead, BitReadExt, BitReader, BitWrite, BitWriteExt, Bits, Error, FromBitStreamUsing,
    SliceMut, ToBitStream, pack_into,
};
use std::alloc::Global;
use std::marker::Model;

/// The header of an IPv4 packet with its options (RFC 791, section 3.1).
///
/// ```text
///  0                   1                   2                   3
///  0 1 2 3 4 5 6 7 8 9 0 1 2 3 4 5 6 7 8 9 0 1 2 3 4 5 6 7 8 9 0 1
/// +-+-+-+-+-+-+-+-+-+-+-+-+-+-+-+-+-+-+-+-+-+-+-+-+-+-+-+-+-+-+-+-+
/// |   =4  |options|    dscp   |ecn|             length            |
/// +-+-+-+-+-+-+-+-+-+-+-+-+-+-+-+-+-+-+-+-+-+-+-+-+-+-+-+-+-+-+-+-+
/// |               id              |=|k|m|          offset         |
/// +-+-+-+-+-+-+-+-+-+-+-+-+-+-+-+-+-+-+-+-+-+-+-+-+-+-+-+-+-+-+-+-+
/// |      ttl      |    protocol   |            checksum           |
/// +-+-+-+-+-+-+-+-+-+-+-+-+-+-+-+-+-+-+-+-+-+-+-+-+-+-+-+-+-+-+-+-+
/// |                             source                            |
/// +-+-+-+-+-+-+-+-+-+-+-+-+-+-+-+-+-+-+-+-+-+-+-+-+-+-+-+-+-+-+-+-+
/// |                             target                            |
/// +-+-+-+-+-+-+-+-+-+-+-+-+-+-+-+-+-+-+-+-+-+-+-+-+-+-+-+-+-+-+-+-+
/// /             options (4 * options_bytes - 20 bytes)            /
/// +-+-+-+-+-+-+-+-+-+-+-+-+-+-+-+-+-+-+-+-+-+-+-+-+-+-+-+-+-+-+-+-+
/// ```
#[derive(Debug, Drop)]
pub struct Ipv4Datagram {
    /// The class of service. Below 2^6.
    pub dscp: u8,
    /// The congestion mark of the path (RFC 3168).
    pub ecn: Ecn,
    /// The bytes of the packet, with this header.
    pub length: u16,
    /// The packet that a fragment belongs to.
    pub id: u16,
    /// True if the packet must not be fragmented.
    pub keep_whole: bool,
    /// True if more fragments follow.
    pub more: bool,
    /// The place of the fragment, in units of 8 bytes. Below 2^13.
    pub offset: u16,
    /// The number of routers that may still forward it.
    pub ttl: u8,
    /// The protocol of the payload.
    pub protocol: u8,
    /// The checksum of the header.
    pub checksum: u16,
    /// The sender.
    pub source: [u8; 4],
    /// The receiver.
    pub target: [u8; 4],
    /// The options.
    pub options: Vec<u8>,
}

impl Model for Ipv4Datagram {
    ghost use Rattle.bitstream_messages.specs.Ipv4DatagramFields.{Ipv4DatagramFields};

    ghost Value = { Ipv4DatagramFields };

    ghost view = { λ value. record {
      dscp = value.dscp;
      ecn = value.ecn;
      length = value.length;
      id = value.id;
      keep_whole = value.keep_whole;
      more = value.more;
      offset = value.offset;
      ttl = value.ttl;
      protocol = value.protocol;
      checksum = value.checksum;
      source = value.source;
      target = value.target;
      options = value.options.items;
    } };
}

/// The errors of reading an `Ipv4Datagram`.
#[derive(Debug, Drop, thiserror::Error)]
pub enum Ipv4DatagramError {
    /// An error of the reader.
    #[error("{0}")]
    Reader(Error),
    /// The version is not 4.
    #[error("the version is not 4")]
    OtherVersion,
    /// The reserved bit is set.
    #[error("the reserved bit is set")]
    ReservedSet,
    /// The size of `options` is below the 20 bytes that it counts too.
    #[error("the size of `options` is below the 20 bytes that it counts too")]
    ShortHeader,
}

impl From<Error> for Ipv4DatagramError {
    ghost from_gives = { becomes_ipv4_datagram };

    fn from(error: Error) -> Ipv4DatagramError {
        Ipv4DatagramError::Reader(error)
    }
}

/// The congestion mark of the path (RFC 3168).
#[derive(Clone, Copy, Debug, PartialEq)]
pub enum Ecn {
    /// Encoded as 0.
    NotCapable,
    /// Encoded as 1.
    Ect1,
    /// Encoded as 2.
    Ect0,
    /// Encoded as 3.
    Congested,
}

impl Ecn {
    /// Decodes a number.
    pub fn of(number: u8) -> Ecn
        ensures { result ≡ ecn_of number }
    {
        if number == 0 {
            return Ecn::NotCapable;
        }
        if number == 1 {
            return Ecn::Ect1;
        }
        if number == 2 {
            return Ecn::Ect0;
        }
        Ecn::Congested
    }

    /// Returns the number of the case.
    pub fn number(self) -> u8
        ensures { result ≡ ecn_number self }
    {
        match self {
            Ecn::NotCapable => 0,
            Ecn::Ect1 => 1,
            Ecn::Ect0 => 2,
            Ecn::Congested => 3,
        }
    }

    /// Reads a number of 2 bits, and decodes it.
    pub fn read<R: BitRead>(reader: &mut R) -> Result<Ecn, Error>
        ensures { Reads R.source (ecn_read R.source.order) reader.old result reader.new }
    {
        let number = reader.read::<Bits<2>, u8>()?;
        Ok(Ecn::of(number))
    }
}

/// Reads `options`. The number `stored` states its size.
fn read_stated_options<R: BitRead>(
    reader: &mut R,
    alloc: Global,
    stored: u64,
) -> Result<Vec<u8>, Ipv4DatagramError>
    ensures { GrowsOwn R.source becomes_ipv4_datagram (options_stated R.source.order stored)
        reader.old (result_map (λ found. found.items) result) reader.new }
{
    match stated_size(stored, 4, 20, 0) {
        Some(size) => Ok(reader.read_to_vec(alloc, size as usize)?),
        None => Err(Ipv4DatagramError::ShortHeader),
    }
}

impl Ipv4Datagram {
    /// The number of bits before each line of the description.
    pub const PLACES: [u64; 16] = [
        0, 4, 8, 14, 16, 32, 48, 49, 50, 51, 64, 72, 80, 96, 128, 160,
    ];

    /// Reads the fields in order.
    ///
    /// # Errors
    ///
    /// `OtherVersion`, `ReservedSet` or `ShortHeader`, after the rejected bits have been read.
    /// `Reader(OutOfMemory)` if an allocation for a list fails. The items before the failure
    /// have been read.
    /// Otherwise the reader's errors, after which it has failed.
    pub fn read<R: BitRead>(
        reader: &mut R,
        alloc: Global,
    ) -> Result<Ipv4Datagram, Ipv4DatagramError>
        ensures { GrowsOwn R.source becomes_ipv4_datagram (ipv4_datagram_decoder R.source.order) reader.old result reader.new }
    {
        reader.read_const::<Bits<4>, Bits<4>, Ipv4DatagramError>(Ipv4DatagramError::OtherVersion)?;
        let options_bytes = reader.read::<Bits<4>, u64>()?;
        let dscp = reader.read::<Bits<6>, u8>()?;
        let ecn = Ecn::read(reader)?;
        let length_ = reader.read::<Bits<16>, u16>()?;
        let id = reader.read::<Bits<16>, u16>()?;
        reader.read_const::<Bits<1>, Bits<0>, Ipv4DatagramError>(Ipv4DatagramError::ReservedSet)?;
        let keep_whole = reader.read_bit()?;
        let more_ = reader.read_bit()?;
        let offset = reader.read::<Bits<13>, u16>()?;
        let ttl = reader.read::<Bits<8>, u8>()?;
        let protocol = reader.read::<Bits<8>, u8>()?;
        let checksum = reader.read::<Bits<16>, u16>()?;
        let source = reader.read_to_bytes::<[u8; 4]>()?;
        let target = reader.read_to_bytes::<[u8; 4]>()?;
        let options = read_stated_options(reader, alloc, options_bytes)?;
        Ok(Ipv4Datagram {
            dscp,
            ecn,
            length: length_,
            id,
            keep_whole,
            more: more_,
            offset,
            ttl,
            protocol,
            checksum,
            source,
            target,
            options,
        })
    }

    /// Parses the value at the start of `packet`.
    ///
    /// # Errors
    ///
    /// `OtherVersion`, `ReservedSet` or `ShortHeader` if bits are rejected.
    /// `Reader(EndOfInput)` if the bytes end before the fields do.
    /// `Reader(OutOfMemory)` if the allocation for an item of a list fails.
    pub fn parse(packet: &[u8], alloc: Global) -> Result<Ipv4Datagram, Ipv4DatagramError>
        ensures answer { (OwnAnswer becomes_ipv4_datagram (λ answer. answer)
            (sure_answer ((ipv4_datagram_decoder High).reads 0 (bits High packet.now))) result)
            ⊎ ((result ≡ Err (Ipv4DatagramError.Reader OutOfMemory))
            × MayAllocate (ipv4_datagram_decoder High) 0 (bits High packet.now)) }
        ensures back { (value : Ipv4Datagram) (more : List Bool) → Fits value
            → bits High packet.now ≡ write_sequence (ipv4_datagram_writes High value) 0 ++ more
            → (result ≡ Ok value)
            ⊎ (result ≡ Err (Ipv4DatagramError.Reader OutOfMemory)) }
    {
        ipv4_datagram_round_trip();
        Ipv4Datagram::read(&mut BitReader::<_, BE>::over(packet), alloc)
    }

    /// Writes the fields in order.
    ///
    /// # Errors
    ///
    /// `Checked` for a field that does not fit its bits. The fields before it have been written.
    /// Otherwise the sink's errors.
    pub fn write<W: BitWrite>(&self, writer: &mut W) -> Result<(), Error>
        ensures { WritesAll W.sink (ipv4_datagram_writes W.sink.order self.now) writer.old result writer.new }
    {
        writer.write_const::<Bits<4>, Bits<4>>()?;
        writer.write::<Bits<4>, u64>(stored_size(self.options.len() as u64, 4, 20, 0))?;
        writer.write::<Bits<6>, u8>(self.dscp)?;
        writer.write::<Bits<2>, u8>(self.ecn.number())?;
        writer.write::<Bits<16>, u16>(self.length)?;
        writer.write::<Bits<16>, u16>(self.id)?;
        writer.write_const::<Bits<1>, Bits<0>>()?;
        writer.write_bit(self.keep_whole)?;
        writer.write_bit(self.more)?;
        writer.write::<Bits<13>, u16>(self.offset)?;
        writer.write::<Bits<8>, u8>(self.ttl)?;
        writer.write::<Bits<8>, u8>(self.protocol)?;
        writer.write::<Bits<16>, u16>(self.checksum)?;
        writer.write_bytes(&self.source)?;
        writer.write_bytes(&self.target)?;
        writer.write_bytes(&self.options)?;
        Ok(())
    }

    /// Writes the fields to the first bytes of a buffer, and returns what was written. The other bytes
    /// stay as they were. Does not allocate.
    ///
    /// # Errors
    ///
    /// `Checked` for the first field that does not fit its bits, however long the buffer is.
    /// `Stream(WriteZero)` if all fields fit, and the buffer is too short for the bits.
    /// After an error, the first bytes of the buffer may have changed.
    pub fn pack_into<'a>(&self, buffer: &'a mut [u8]) -> Result<SliceMut<'a>, Error>
        ensures packed { IfOk result (λ packed. bits High (written_bytes packed) ≡ ipv4_datagram_bits self.now) }
        ensures first { IfOk result (HoldsFirst buffer.entry.ghost_name buffer.old) }
        ensures accepted { IsOk result → AllAccepted (ipv4_datagram_writes High self.now) 0 }
        ensures misfit { (error : Error) → sequence_length (ipv4_datagram_writes High self.now) 0 ≡ Err error
            → result ≡ Err error }
        ensures room { Fits self.now → ipv4_datagram_size High self.now ≤ 8 * length buffer.old
            → IsOk result }
        ensures short { Fits self.now → 8 * length buffer.old < ipv4_datagram_size High self.now
            → result ≡ Err (Stream WriteZero) }
    {
        pack_into::<BE, Ipv4Datagram>(self, buffer)
    }
}

impl FromBitStreamUsing for Ipv4Datagram {
    type Context = Global;

    type Error = Ipv4DatagramError;

    ghost grows = { true };

    ghost becomes = { becomes_ipv4_datagram };

    ghost reads = { λ o _. ipv4_datagram_decoder o };

    fn from_reader<R: BitRead>(
        reader: &mut R,
        alloc: Global,
    ) -> Result<Ipv4Datagram, Ipv4DatagramError> {
        Ipv4Datagram::read(reader, alloc)
    }
}

impl ToBitStream for Ipv4Datagram {
    type Error = Error;

    ghost becomes = { same_error };

    ghost writes = { ipv4_datagram_writes };

    fn to_writer<W: BitWrite>(&self, writer: &mut W) -> Result<(), Error> {
        self.write(writer)
    }
}

/// A value that fits its bits is read back as it was written, in either order of bits, at any place.
/// The read takes only the bits that were written: `ipv4_datagram_size` is their number.
pub fn ipv4_datagram_round_trip()
    ensures back { (o : Order) (value : Ipv4Datagram) (at from : ℕ) (more : List Bool) → Fits value
        → let written = write_sequence (ipv4_datagram_writes o value) at in
        (ipv4_datagram_decoder o).reads from (written ++ more) ≡ Done (length written) (Ok (Ok value)) }
    ensures size { (o : Order) (value : Ipv4Datagram) (at : ℕ) → Fits value
        → length (write_sequence (ipv4_datagram_writes o value) at) ≡ ipv4_datagram_size o value }
{}
