//! A datagram of UDP over IPv4, with its checksum (RFC 768).
//!
//! Made by `./format` from formats/udp_datagram.fields: edit that file and make this one anew.
ghost use Rattle.network_messages.specs.UdpDatagram.{udp_datagram_decoder, udp_datagram_writes, udp_datagram_size, udp_datagram_bits, Fits, becomes_udp_datagram, sum16_udp_sum, sum16_udp_writes, data_stated};
ghost use Rattle.network_messages.specs.declared.udp_datagram.UdpDatagram.{UdpDatagram};
ghost use Rattle.network_messages.specs.declared.udp_datagram.UdpDatagramError.{UdpDatagramError};
ghost use Rattle.network_messages.specs.declared.udp_datagram.UdpDatagramError.TheVariants.{Reader};
ghost use Rattle.std.specs.Prelude.{◌≡◌, ◌<◌, ◌≤◌, ◌*◌, ◌++◌, ◌⊎◌, ℕ, Bool, List, Ok, Err, length, IfOk, IsOk};
ghost use Rattle.std.specs.declared.io.ErrorKind.TheVariants.{WriteZero};
ghost use Rattle.bitstream_io.specs.Callers.{Done, Error, Order, High, bits, write_sequence, OwnAnswer, WritesAll, AllAccepted, sequence_length, sure_answer, GrowsOwn, MayAllocate, OutOfMemory, Stream, result_map, same_error};
ghost use Rattle.bitstream_io.specs.SliceMut.{HoldsFirst, written_bytes};

use crate::ipv4_pseudo::Ipv4Pseudo;
use bitstream_format::checksums::Sum16Udp;
use bitstream_format::stated::{stated_size, stored_size};
use bitstream_format::summed::{sum_of, summing_writer};
use bitstream_io::{
    BE, BitRead, BitReadExt, BitReader, BitWrite, BitWriteExt, Bits, Error, SliceMut, ToBitStream,
    pack_into,
};
use std::alloc::Global;
use std::marker::Model;

/// A datagram of UDP over IPv4, with its checksum (RFC 768).
///
/// ```text
///  0                   1                   2                   3
///  0 1 2 3 4 5 6 7 8 9 0 1 2 3 4 5 6 7 8 9 0 1 2 3 4 5 6 7 8 9 0 1
/// +-+-+-+-+-+-+-+-+-+-+-+-+-+-+-+-+-+-+-+-+-+-+-+-+-+-+-+-+-+-+-+-+
/// |             source            |             target            |
/// +-+-+-+-+-+-+-+-+-+-+-+-+-+-+-+-+-+-+-+-+-+-+-+-+-+-+-+-+-+-+-+-+
/// |           data_bytes          |        stored_sum16_udp       |
/// +-+-+-+-+-+-+-+-+-+-+-+-+-+-+-+-+-+-+-+-+-+-+-+-+-+-+-+-+-+-+-+-+
/// /                  data (data_bytes - 8 bytes)                  /
/// +-+-+-+-+-+-+-+-+-+-+-+-+-+-+-+-+-+-+-+-+-+-+-+-+-+-+-+-+-+-+-+-+
/// ```
#[derive(Debug, Drop)]
pub struct UdpDatagram {
    /// The fields of the header of IPv4 that the checksum covers.
    pub pseudo: Ipv4Pseudo,
    /// The port of the sender.
    pub source: u16,
    /// The port of the receiver.
    pub target: u16,
    /// The data.
    pub data: Vec<u8>,
}

impl Model for UdpDatagram {
    ghost use Rattle.network_messages.specs.UdpDatagramFields.{UdpDatagramFields};

    ghost Value = { UdpDatagramFields };

    ghost view = { λ value. record {
      pseudo = value.pseudo;
      source = value.source;
      target = value.target;
      «data» = value.data.items;
    } };
}

/// The errors of reading an `UdpDatagram`.
#[derive(Debug, Drop, thiserror::Error)]
pub enum UdpDatagramError {
    /// An error of the reader.
    #[error("{0}")]
    Reader(Error),
    /// The size of `data` is below the 8 bytes that it counts too.
    #[error("the size of `data` is below the 8 bytes that it counts too")]
    ShortLength,
    /// The checksum is not that of the datagram.
    #[error("the checksum is not that of the datagram")]
    WrongSum,
}

impl From<Error> for UdpDatagramError {
    ghost from_gives = { becomes_udp_datagram };

    fn from(error: Error) -> UdpDatagramError {
        UdpDatagramError::Reader(error)
    }
}

/// Reads `data`. The number `stored` states its size.
fn read_stated_data<R: BitRead>(
    reader: &mut R,
    alloc: Global,
    stored: u64,
) -> Result<Vec<u8>, UdpDatagramError>
    ensures { GrowsOwn R.source becomes_udp_datagram (data_stated R.source.order stored)
        reader.old (result_map (λ found. found.items) result) reader.new }
{
    match stated_size(stored, 1, 8, 0) {
        Some(size) => Ok(reader.read_to_vec(alloc, size as usize)?),
        None => Err(UdpDatagramError::ShortLength),
    }
}

impl UdpDatagram {
    /// The number of bits before each line of the description.
    pub const PLACES: [u64; 5] = [0, 16, 32, 48, 64];

    /// Reads the fields in order.
    /// `pseudo` is given, for the checksums that cover it.
    ///
    /// # Errors
    ///
    /// `ShortLength` or `WrongSum`, after the rejected bits have been read.
    /// `Reader(OutOfMemory)` if an allocation for a list fails. The items before the failure
    /// have been read.
    /// Otherwise the reader's errors, after which it has failed.
    pub fn read<R: BitRead>(
        reader: &mut R,
        alloc: Global,
        pseudo: Ipv4Pseudo,
    ) -> Result<UdpDatagram, UdpDatagramError>
        ensures { GrowsOwn R.source becomes_udp_datagram (udp_datagram_decoder R.source.order pseudo) reader.old result reader.new }
    {
        let source = reader.read::<Bits<16>, u16>()?;
        let target = reader.read::<Bits<16>, u16>()?;
        let data_bytes = reader.read::<Bits<16>, u64>()?;
        let stored_sum16_udp = reader.read::<Bits<16>, u64>()?;
        let data_ = read_stated_data(reader, alloc, data_bytes)?;
        let value = UdpDatagram {
            pseudo,
            source,
            target,
            data: data_,
        };
        let is_sum16_udp = stored_sum16_udp == value.sum16_udp();
        if !is_sum16_udp {
            return Err(UdpDatagramError::WrongSum);
        }
        Ok(value)
    }

    /// Parses the value at the start of `packet`.
    ///
    /// # Errors
    ///
    /// `ShortLength` or `WrongSum` if bits are rejected.
    /// `Reader(EndOfInput)` if the bytes end before the fields do.
    /// `Reader(OutOfMemory)` if the allocation for an item of a list fails.
    pub fn parse(
        packet: &[u8],
        alloc: Global,
        pseudo: Ipv4Pseudo,
    ) -> Result<UdpDatagram, UdpDatagramError>
        ensures answer { (OwnAnswer becomes_udp_datagram (λ answer. answer)
            (sure_answer ((udp_datagram_decoder High pseudo).reads 0 (bits High packet.now))) result)
            ⊎ ((result ≡ Err (UdpDatagramError.Reader OutOfMemory))
            × MayAllocate (udp_datagram_decoder High pseudo) 0 (bits High packet.now)) }
        ensures back { (value : UdpDatagram) (more : List Bool) → Fits value
            → value.pseudo ≡ pseudo
            → bits High packet.now ≡ write_sequence (udp_datagram_writes High value) 0 ++ more
            → (result ≡ Ok value)
            ⊎ (result ≡ Err (UdpDatagramError.Reader OutOfMemory)) }
    {
        udp_datagram_round_trip();
        UdpDatagram::read(&mut BitReader::<_, BE>::over(packet), alloc, pseudo)
    }

    /// Writes the fields in order.
    ///
    /// # Errors
    ///
    /// `Checked` for a field that does not fit its bits. The fields before it have been written.
    /// Otherwise the sink's errors.
    pub fn write<W: BitWrite>(&self, writer: &mut W) -> Result<(), Error>
        ensures { WritesAll W.sink (udp_datagram_writes W.sink.order self.now) writer.old result writer.new }
    {
        writer.write::<Bits<16>, u16>(self.source)?;
        writer.write::<Bits<16>, u16>(self.target)?;
        writer.write::<Bits<16>, u64>(stored_size(self.data.len() as u64, 1, 8, 0))?;
        writer.write::<Bits<16>, u64>(self.sum16_udp())?;
        writer.write_bytes(&self.data)?;
        Ok(())
    }

    /// Returns the sum16-udp of its lines as they are written, or 0 if a field of theirs does not fit its bits.
    fn sum16_udp(&self) -> u64
        ensures { result ≡ sum16_udp_sum self.now }
    {
        let mut writer = summing_writer::<BE, Sum16Udp>();
        match self.write_for_sum16_udp(&mut writer) {
            Ok(()) => sum_of(writer),
            Err(_) => 0,
        }
    }

    /// Writes the lines that the sum16-udp covers.
    fn write_for_sum16_udp<W: BitWrite>(&self, writer: &mut W) -> Result<(), Error>
        ensures { WritesAll W.sink (sum16_udp_writes W.sink.order self.now) writer.old result writer.new }
    {
        self.pseudo.write(writer)?;
        writer.write::<Bits<16>, u16>(self.source)?;
        writer.write::<Bits<16>, u16>(self.target)?;
        writer.write::<Bits<16>, u64>(stored_size(self.data.len() as u64, 1, 8, 0))?;
        writer.pad(16)?;
        writer.write_bytes(&self.data)?;
        Ok(())
    }

    /// Writes the fields to the first bytes of a buffer, and returns what was written. The other bytes
    /// stay as they were. Does not allocate.
    ///
    /// # Errors
    ///
    /// `Checked` for the first field that does not fit its bits, however long the buffer is.
    /// `Stream(WriteZero)` if all fields fit, and the buffer is too short for the bits.
    /// After an error, the first bytes of the buffer may have changed.
    pub fn pack_into<'a>(&self, buffer: &'a mut [u8]) -> Result<SliceMut<'a>, Error>
        ensures packed { IfOk result (λ packed. bits High (written_bytes packed) ≡ udp_datagram_bits self.now) }
        ensures first { IfOk result (HoldsFirst buffer.entry.ghost_name buffer.old) }
        ensures accepted { IsOk result → AllAccepted (udp_datagram_writes High self.now) 0 }
        ensures misfit { (error : Error) → sequence_length (udp_datagram_writes High self.now) 0 ≡ Err error
            → result ≡ Err error }
        ensures room { Fits self.now → udp_datagram_size High self.now ≤ 8 * length buffer.old
            → IsOk result }
        ensures short { Fits self.now → 8 * length buffer.old < udp_datagram_size High self.now
            → result ≡ Err (Stream WriteZero) }
    {
        pack_into::<BE, UdpDatagram>(self, buffer)
    }
}

impl ToBitStream for UdpDatagram {
    type Error = Error;

    ghost becomes = { same_error };

    ghost writes = { udp_datagram_writes };

    fn to_writer<W: BitWrite>(&self, writer: &mut W) -> Result<(), Error> {
        self.write(writer)
    }
}

/// A value that fits its bits is read back as it was written, in either order of bits, at any place.
/// The read takes only the bits that were written: `udp_datagram_size` is their number.
pub fn udp_datagram_round_trip()
    ensures back { (o : Order) (value : UdpDatagram) (at from : ℕ) (more : List Bool) → Fits value
        → let written = write_sequence (udp_datagram_writes o value) at in
        (udp_datagram_decoder o value.pseudo).reads from (written ++ more) ≡ Done (length written) (Ok (Ok value)) }
    ensures size { (o : Order) (value : UdpDatagram) (at : ℕ) → Fits value
        → length (write_sequence (udp_datagram_writes o value) at) ≡ udp_datagram_size o value }
{}
