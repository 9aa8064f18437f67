//! The header of an Ethernet frame with an EtherType (IEEE 802.3, section 3.1.1).
//!
//! Made by `./format` from formats/ethernet_header.fields: edit that file and make this one anew.
ghost use Rattle.protocols.specs.EthernetHeader.{ethernet_header_decoder, ethernet_header_writes, ethernet_header_size, ethernet_header_bits, Fits, ether_type_of, ether_type_number, ether_type_read};
ghost use Rattle.protocols.specs.VlanTag.{vlan_tag_decoder, vlan_tag_writes};
ghost use Rattle.protocols.specs.declared.ethernet_header.EthernetHeader.{EthernetHeader};
ghost use Rattle.std.specs.Prelude.{◌≡◌, ◌<◌, ◌≤◌, ◌*◌, ◌++◌, ℕ, Bool, List, Ok, Err, length, IfOk, IsOk};
ghost use Rattle.std.specs.declared.io.ErrorKind.TheVariants.{WriteZero};
ghost use Rattle.bitstream_io.specs.Callers.{Done, Error, Order, High, bits, write_sequence, Reads, WritesAll, AllAccepted, sequence_length, sure_answer, Stream, same_error, plain_reads, optional, optional_writes};
ghost use Rattle.bitstream_io.specs.SliceMut.{HoldsFirst, written_bytes};

use crate::vlan_tag::VlanTag;
use bitstream_io::{
    BE, BitRead, BitReadExt, BitReader, BitWrite, BitWriteExt, Bits, Error, FromBitStream,
    SliceMut, ToBitStream, pack_into,
};

/// The header of an Ethernet frame with an EtherType (IEEE 802.3, section 3.1.1).
///
/// ```text
///  0                   1                   2                   3
///  0 1 2 3 4 5 6 7 8 9 0 1 2 3 4 5 6 7 8 9 0 1 2 3 4 5 6 7 8 9 0 1
/// +-+-+-+-+-+-+-+-+-+-+-+-+-+-+-+-+-+-+-+-+-+-+-+-+-+-+-+-+-+-+-+-+
/// |                             target                            |
/// +-+-+-+-+-+-+-+-+-+-+-+-+-+-+-+-+-+-+-+-+-+-+-+-+-+-+-+-+-+-+-+-+
/// |                               |                               |
/// +-+-+-+-+-+-+-+-+-+-+-+-+-+-+-+-+-+-+-+-+-+-+-+-+-+-+-+-+-+-+-+-+
/// |                             source                            |
/// +-+-+-+-+-+-+-+-+-+-+-+-+-+-+-+-+-+-+-+-+-+-+-+-+-+-+-+-+-+-+-+-+
/// |              kind             |
/// +-+-+-+-+-+-+-+-+-+-+-+-+-+-+-+-+-+-+-+-+-+-+-+-+-+-+-+-+-+-+-+-+
/// /                 tag (VlanTag, if it is there)                 /
/// +-+-+-+-+-+-+-+-+-+-+-+-+-+-+-+-+-+-+-+-+-+-+-+-+-+-+-+-+-+-+-+-+
/// ```
#[derive(Clone, Copy, Debug, PartialEq)]
pub struct EthernetHeader {
    /// The address of the receiver.
    pub target: [u8; 6],
    /// The address of the sender.
    pub source: [u8; 6],
    /// The EtherType of what follows.
    pub kind: EtherType,
    /// The tag for a virtual network.
    pub tag: Option<VlanTag>,
}

/// The EtherType of what follows.
#[derive(Clone, Copy, Debug, PartialEq)]
pub enum EtherType {
    /// Encoded as 2048.
    Ipv4,
    /// Encoded as 2054.
    Arp,
    /// Encoded as 33024.
    Vlan,
    /// Encoded as 34525.
    Ipv6,
    /// Any other number.
    Other(u16),
}

impl EtherType {
    /// Decodes a number.
    pub fn of(number: u16) -> EtherType
        ensures { result ≡ ether_type_of number }
    {
        if number == 2048 {
            return EtherType::Ipv4;
        }
        if number == 2054 {
            return EtherType::Arp;
        }
        if number == 33024 {
            return EtherType::Vlan;
        }
        if number == 34525 {
            return EtherType::Ipv6;
        }
        EtherType::Other(number)
    }

    /// Returns the number of the case.
    pub fn number(self) -> u16
        ensures { result ≡ ether_type_number self }
    {
        match self {
            EtherType::Ipv4 => 2048,
            EtherType::Arp => 2054,
            EtherType::Vlan => 33024,
            EtherType::Ipv6 => 34525,
            EtherType::Other(number) => number,
        }
    }

    /// Reads a number of 16 bits, and decodes it.
    pub fn read<R: BitRead>(reader: &mut R) -> Result<EtherType, Error>
        ensures { Reads R.source (ether_type_read R.source.order) reader.old result reader.new }
    {
        let number = reader.read::<Bits<16>, u16>()?;
        Ok(EtherType::of(number))
    }
}

/// Reads a `VlanTag` if it is there.
fn read_vlan_tag_if<R: BitRead>(reader: &mut R, there: bool) -> Result<Option<VlanTag>, Error>
    ensures { Reads R.source (optional there (vlan_tag_decoder R.source.order)) reader.old result reader.new }
{
    if !there {
        return Ok(None);
    }
    Ok(Some(VlanTag::read(reader)?))
}

/// Writes a `VlanTag` if there is one.
fn write_vlan_tag_if<W: BitWrite>(writer: &mut W, value: Option<VlanTag>) -> Result<(), Error>
    ensures { WritesAll W.sink (optional_writes (vlan_tag_writes W.sink.order) value) writer.old result writer.new }
{
    match value {
        Some(value) => value.write(writer),
        None => Ok(()),
    }
}

impl EthernetHeader {
    /// The number of bits before each line of the description.
    pub const PLACES: [u64; 4] = [0, 48, 96, 112];

    /// Reads the fields in order.
    ///
    /// # Errors
    ///
    /// The reader's errors, after which it has failed.
    pub fn read<R: BitRead>(reader: &mut R) -> Result<EthernetHeader, Error>
        ensures { Reads R.source (ethernet_header_decoder R.source.order) reader.old result reader.new }
    {
        let target = reader.read_to_bytes::<[u8; 6]>()?;
        let source = reader.read_to_bytes::<[u8; 6]>()?;
        let kind = EtherType::read(reader)?;
        let tag = read_vlan_tag_if(reader, kind.number() == 33024)?;
        Ok(EthernetHeader {
            target,
            source,
            kind,
            tag,
        })
    }

    /// Parses the value at the start of `packet`.
    ///
    /// # Errors
    ///
    /// `EndOfInput` if the bytes end before the fields do.
    pub fn parse(packet: &[u8]) -> Result<EthernetHeader, Error>
        ensures answer { result ≡ sure_answer ((ethernet_header_decoder High).reads 0 (bits High packet.now)) }
        ensures back { (value : EthernetHeader) (more : List Bool) → Fits value
            → bits High packet.now ≡ write_sequence (ethernet_header_writes High value) 0 ++ more → result ≡ Ok value }
    {
        ethernet_header_round_trip();
        EthernetHeader::read(&mut BitReader::<_, BE>::over(packet))
    }

    /// Writes the fields in order.
    ///
    /// # Errors
    ///
    /// `Checked` for a field that does not fit its bits. The fields before it have been written.
    /// Otherwise the sink's errors.
    pub fn write<W: BitWrite>(&self, writer: &mut W) -> Result<(), Error>
        ensures { WritesAll W.sink (ethernet_header_writes W.sink.order self.now) writer.old result writer.new }
    {
        writer.write_bytes(&self.target)?;
        writer.write_bytes(&self.source)?;
        writer.write::<Bits<16>, u16>(self.kind.number())?;
        write_vlan_tag_if(writer, self.tag)?;
        Ok(())
    }

    /// Writes the fields to the first bytes of a buffer, and returns what was written. The other bytes
    /// stay as they were. Does not allocate.
    ///
    /// # Errors
    ///
    /// `Checked` for the first field that does not fit its bits, however long the buffer is.
    /// `Stream(WriteZero)` if all fields fit, and the buffer is too short for the bits.
    /// After an error, the first bytes of the buffer may have changed.
    pub fn pack_into<'a>(&self, buffer: &'a mut [u8]) -> Result<SliceMut<'a>, Error>
        ensures packed { IfOk result (λ packed. bits High (written_bytes packed) ≡ ethernet_header_bits self.now) }
        ensures first { IfOk result (HoldsFirst buffer.entry.ghost_name buffer.old) }
        ensures accepted { IsOk result → AllAccepted (ethernet_header_writes High self.now) 0 }
        ensures misfit { (error : Error) → sequence_length (ethernet_header_writes High self.now) 0 ≡ Err error
            → result ≡ Err error }
        ensures room { Fits self.now → ethernet_header_size High self.now ≤ 8 * length buffer.old
            → IsOk result }
        ensures short { Fits self.now → 8 * length buffer.old < ethernet_header_size High self.now
            → result ≡ Err (Stream WriteZero) }
    {
        pack_into::<BE, EthernetHeader>(self, buffer)
    }
}

impl FromBitStream for EthernetHeader {
    type Error = Error;

    ghost becomes = { same_error };

    ghost reads = { λ o. plain_reads (ethernet_header_decoder o) };

    fn from_reader<R: BitRead>(reader: &mut R) -> Result<EthernetHeader, Error> {
        EthernetHeader::read(reader)
    }
}

impl ToBitStream for EthernetHeader {
    type Error = Error;

    ghost becomes = { same_error };

    ghost writes = { ethernet_header_writes };

    fn to_writer<W: BitWrite>(&self, writer: &mut W) -> Result<(), Error> {
        self.write(writer)
    }
}

/// A value that fits its bits is read back as it was written, in either order of bits, at any place.
/// The read takes only the bits that were written: `ethernet_header_size` is their number.
pub fn ethernet_header_round_trip()
    ensures back { (o : Order) (value : EthernetHeader) (at from : ℕ) (more : List Bool) → Fits value
        → let written = write_sequence (ethernet_header_writes o value) at in
        (ethernet_header_decoder o).reads from (written ++ more) ≡ Done (length written) (Ok value) }
    ensures size { (o : Order) (value : EthernetHeader) (at : ℕ) → Fits value
        → length (write_sequence (ethernet_header_writes o value) at) ≡ ethernet_header_size o value }
{}
