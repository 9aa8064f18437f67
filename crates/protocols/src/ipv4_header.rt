//! The first 20 bytes of the header of an IPv4 packet, without options (RFC 791, section 3.1).
//!
//! Made by `./format` from formats/ipv4_header.fields: edit that file and make this one anew.
ghost use Rattle.protocols.specs.Ipv4Header.{ipv4_header_decoder, ipv4_header_writes, ipv4_header_bits, ipv4_header_at, Fits, becomes_ipv4_header, const_at_0, const_at_48, ecn_of, ecn_number, ecn_read, protocol_of, protocol_number, protocol_read};
ghost use Rattle.protocols.specs.declared.ipv4_header.Ipv4Header.{Ipv4Header};
ghost use Rattle.protocols.specs.declared.ipv4_header.Ipv4Error.{Ipv4Error};
ghost use Rattle.protocols.specs.declared.ipv4_header.Ipv4Error.TheVariants.{Reader, OtherVersion, ReservedSet};
ghost use Rattle.std.specs.Prelude.{◌≡◌, ◌≢◌, ◌<◌, ◌≤◌, ◌++◌, ℕ, Bool, List, Ok, Err, length, IfOk, IsOk};
ghost use Rattle.std.specs.declared.io.ErrorKind.TheVariants.{WriteZero};
ghost use Rattle.bitstream_io.specs.Callers.{Done, Error, EndOfInput, Order, High, bits, write_sequence, Reads, ReadsOwn, OwnAnswer, WritesAll, AllAccepted, sequence_length, sure_answer, Stream, same_error};
ghost use Rattle.bitstream_io.specs.SliceMut.{HoldsFirst, written_bytes};

use bitstream_io::{
    BE, BitRead, BitReadExt, BitReader, BitWrite, BitWriteExt, Bits, Error, FromBitStream,
    SliceMut, ToBitStream, pack_into,
};

/// The first 20 bytes of the header of an IPv4 packet, without options (RFC 791, section 3.1).
///
/// ```text
///  0                   1                   2                   3
///  0 1 2 3 4 5 6 7 8 9 0 1 2 3 4 5 6 7 8 9 0 1 2 3 4 5 6 7 8 9 0 1
/// +-+-+-+-+-+-+-+-+-+-+-+-+-+-+-+-+-+-+-+-+-+-+-+-+-+-+-+-+-+-+-+-+
/// |   =4  | words |    dscp   |ecn|              size             |
/// +-+-+-+-+-+-+-+-+-+-+-+-+-+-+-+-+-+-+-+-+-+-+-+-+-+-+-+-+-+-+-+-+
/// |               id              |=|k|f|          offset         |
/// +-+-+-+-+-+-+-+-+-+-+-+-+-+-+-+-+-+-+-+-+-+-+-+-+-+-+-+-+-+-+-+-+
/// |      ttl      |    protocol   |            checksum           |
/// +-+-+-+-+-+-+-+-+-+-+-+-+-+-+-+-+-+-+-+-+-+-+-+-+-+-+-+-+-+-+-+-+
/// |                             source                            |
/// +-+-+-+-+-+-+-+-+-+-+-+-+-+-+-+-+-+-+-+-+-+-+-+-+-+-+-+-+-+-+-+-+
/// |                             target                            |
/// +-+-+-+-+-+-+-+-+-+-+-+-+-+-+-+-+-+-+-+-+-+-+-+-+-+-+-+-+-+-+-+-+
/// ```
#[derive(Clone, Copy, Debug, PartialEq)]
pub struct Ipv4Header {
    /// The 32-bit words of the header; the words after the fifth are options. Below 2^4.
    pub words: u8,
    /// The differentiated services code point (RFC 2474). Below 2^6.
    pub dscp: u8,
    /// The congestion mark of the path (RFC 3168).
    pub ecn: Ecn,
    /// The bytes of the packet, with this header.
    pub size: u16,
    /// The number that the fragments of a packet share.
    pub id: u16,
    /// True if the packet must not be fragmented.
    pub keep_whole: bool,
    /// True if this is a fragment, and not the last one.
    pub fragments_follow: bool,
    /// The place of the fragment, in units of 8 bytes. Below 2^13.
    pub offset: u16,
    /// The number of routers that may still forward the packet.
    pub ttl: u8,
    /// The protocol of the payload.
    pub protocol: Protocol,
    /// The checksum of the header.
    pub checksum: u16,
    /// The address of the sender.
    pub source: [u8; 4],
    /// The address of the receiver.
    pub target: [u8; 4],
}

/// The errors of reading an `Ipv4Header`.
#[derive(Debug, Drop, thiserror::Error)]
pub enum Ipv4Error {
    /// An error of the reader.
    #[error("{0}")]
    Reader(Error),
    /// The version is not 4.
    #[error("the version is not 4")]
    OtherVersion,
    /// The reserved bit is set.
    #[error("the reserved bit is set")]
    ReservedSet,
}

impl From<Error> for Ipv4Error {
    ghost from_gives = { becomes_ipv4_header };

    fn from(error: Error) -> Ipv4Error {
        Ipv4Error::Reader(error)
    }
}

/// The congestion mark of the path (RFC 3168).
#[derive(Clone, Copy, Debug, PartialEq)]
pub enum Ecn {
    /// Encoded as 0.
    NotCapable,
    /// Encoded as 1.
    Ect1,
    /// Encoded as 2.
    Ect0,
    /// Encoded as 3.
    Congested,
}

impl Ecn {
    /// Decodes a number.
    pub fn of(number: u8) -> Ecn
        ensures { result ≡ ecn_of number }
    {
        if number == 0 {
            return Ecn::NotCapable;
        }
        if number == 1 {
            return Ecn::Ect1;
        }
        if number == 2 {
            return Ecn::Ect0;
        }
        Ecn::Congested
    }

    /// Returns the number of the case.
    pub fn number(self) -> u8
        ensures { result ≡ ecn_number self }
    {
        match self {
            Ecn::NotCapable => 0,
            Ecn::Ect1 => 1,
            Ecn::Ect0 => 2,
            Ecn::Congested => 3,
        }
    }

    /// Reads a number of 2 bits, and decodes it.
    pub fn read<R: BitRead>(reader: &mut R) -> Result<Ecn, Error>
        ensures { Reads R.source (ecn_read R.source.order) reader.old result reader.new }
    {
        let number = reader.read::<Bits<2>, u8>()?;
        Ok(Ecn::of(number))
    }
}

/// The protocol of the payload.
#[derive(Clone, Copy, Debug, PartialEq)]
pub enum Protocol {
    /// Encoded as 1.
    Icmp,
    /// Encoded as 6.
    Tcp,
    /// Encoded as 17.
    Udp,
    /// Any other number.
    Other(u8),
}

impl Protocol {
    /// Decodes a number.
    pub fn of(number: u8) -> Protocol
        ensures { result ≡ protocol_of number }
    {
        if number == 1 {
            return Protocol::Icmp;
        }
        if number == 6 {
            return Protocol::Tcp;
        }
        if number == 17 {
            return Protocol::Udp;
        }
        Protocol::Other(number)
    }

    /// Returns the number of the case.
    pub fn number(self) -> u8
        ensures { result ≡ protocol_number self }
    {
        match self {
            Protocol::Icmp => 1,
            Protocol::Tcp => 6,
            Protocol::Udp => 17,
            Protocol::Other(number) => number,
        }
    }

    /// Reads a number of 8 bits, and decodes it.
    pub fn read<R: BitRead>(reader: &mut R) -> Result<Protocol, Error>
        ensures { Reads R.source (protocol_read R.source.order) reader.old result reader.new }
    {
        let number = reader.read::<Bits<8>, u8>()?;
        Ok(Protocol::of(number))
    }
}

impl Ipv4Header {
    /// The number of bits before each line of the description.
    pub const PLACES: [u64; 15] = [0, 4, 8, 14, 16, 32, 48, 49, 50, 51, 64, 72, 80, 96, 128];

    /// Reads the fields in order.
    ///
    /// # Errors
    ///
    /// `OtherVersion` or `ReservedSet`, after the rejected bits have been read.
    /// Otherwise the reader's errors, after which it has failed.
    pub fn read<R: BitRead>(reader: &mut R) -> Result<Ipv4Header, Ipv4Error>
        ensures { ReadsOwn R.source becomes_ipv4_header (ipv4_header_decoder R.source.order) reader.old result reader.new }
    {
        reader.read_const::<Bits<4>, Bits<4>, Ipv4Error>(Ipv4Error::OtherVersion)?;
        let words_ = reader.read::<Bits<4>, u8>()?;
        let dscp = reader.read::<Bits<6>, u8>()?;
        let ecn = Ecn::read(reader)?;
        let size = reader.read::<Bits<16>, u16>()?;
        let id = reader.read::<Bits<16>, u16>()?;
        reader.read_const::<Bits<1>, Bits<0>, Ipv4Error>(Ipv4Error::ReservedSet)?;
        let keep_whole = reader.read_bit()?;
        let fragments_follow = reader.read_bit()?;
        let offset = reader.read::<Bits<13>, u16>()?;
        let ttl = reader.read::<Bits<8>, u8>()?;
        let protocol = Protocol::read(reader)?;
        let checksum = reader.read::<Bits<16>, u16>()?;
        let source = reader.read_to_bytes::<[u8; 4]>()?;
        let target = reader.read_to_bytes::<[u8; 4]>()?;
        Ok(Ipv4Header {
            words: words_,
            dscp,
            ecn,
            size,
            id,
            keep_whole,
            fragments_follow,
            offset,
            ttl,
            protocol,
            checksum,
            source,
            target,
        })
    }

    /// Parses the value at the start of `packet`.
    ///
    /// # Errors
    ///
    /// `OtherVersion` or `ReservedSet` if bits are rejected.
    /// `Reader(EndOfInput)` for fewer than 20 bytes.
    pub fn parse(packet: &[u8]) -> Result<Ipv4Header, Ipv4Error>
        ensures answer { OwnAnswer becomes_ipv4_header (λ answer. answer)
            (sure_answer ((ipv4_header_decoder High).reads 0 (bits High packet.now))) result }
        ensures there { 20 ≤ length packet.now → const_at_0 (bits High packet.now) ≡ 4
            → const_at_48 (bits High packet.now) ≡ 0
            → result ≡ Ok (ipv4_header_at (bits High packet.now)) }
        ensures short { length packet.now < 20
            → (1 ≤ length packet.now → const_at_0 (bits High packet.now) ≡ 4)
            → (7 ≤ length packet.now → const_at_48 (bits High packet.now) ≡ 0)
            → result ≡ Err (Ipv4Error.Reader EndOfInput) }
        ensures other_version { 1 ≤ length packet.now → const_at_0 (bits High packet.now) ≢ 4
            → result ≡ Err (Ipv4Error.OtherVersion) }
        ensures reserved_set { 7 ≤ length packet.now → const_at_0 (bits High packet.now) ≡ 4
            → const_at_48 (bits High packet.now) ≢ 0 → result ≡ Err (Ipv4Error.ReservedSet) }
        ensures back { (value : Ipv4Header) (more : List Bool) → Fits value
            → bits High packet.now ≡ ipv4_header_bits value ++ more → result ≡ Ok value }
    {
        ipv4_header_round_trip();
        Ipv4Header::read(&mut BitReader::<_, BE>::over(packet))
    }

    /// Writes the fields in order.
    ///
    /// # Errors
    ///
    /// `Checked` for a field that does not fit its bits. The fields before it have been written.
    /// Otherwise the sink's errors.
    pub fn write<W: BitWrite>(&self, writer: &mut W) -> Result<(), Error>
        ensures { WritesAll W.sink (ipv4_header_writes W.sink.order self.now) writer.old result writer.new }
    {
        writer.write_const::<Bits<4>, Bits<4>>()?;
        writer.write::<Bits<4>, u8>(self.words)?;
        writer.write::<Bits<6>, u8>(self.dscp)?;
        writer.write::<Bits<2>, u8>(self.ecn.number())?;
        writer.write::<Bits<16>, u16>(self.size)?;
        writer.write::<Bits<16>, u16>(self.id)?;
        writer.write_const::<Bits<1>, Bits<0>>()?;
        writer.write_bit(self.keep_whole)?;
        writer.write_bit(self.fragments_follow)?;
        writer.write::<Bits<13>, u16>(self.offset)?;
        writer.write::<Bits<8>, u8>(self.ttl)?;
        writer.write::<Bits<8>, u8>(self.protocol.number())?;
        writer.write::<Bits<16>, u16>(self.checksum)?;
        writer.write_bytes(&self.source)?;
        writer.write_bytes(&self.target)?;
        Ok(())
    }

    /// Writes the fields to the first bytes of a buffer, and returns what was written. The other bytes
    /// stay as they were. Does not allocate.
    ///
    /// # Errors
    ///
    /// `Checked` for the first field that does not fit its bits, however long the buffer is.
    /// `Stream(WriteZero)` if all fields fit, and the buffer has fewer than 20 bytes.
    /// After an error, the first bytes of the buffer may have changed.
    pub fn pack_into<'a>(&self, buffer: &'a mut [u8]) -> Result<SliceMut<'a>, Error>
        ensures packed { IfOk result (λ packed. bits High (written_bytes packed) ≡ ipv4_header_bits self.now) }
        ensures first { IfOk result (HoldsFirst buffer.entry.ghost_name buffer.old) }
        ensures accepted { IsOk result → AllAccepted (ipv4_header_writes High self.now) 0 }
        ensures misfit { (error : Error) → sequence_length (ipv4_header_writes High self.now) 0 ≡ Err error
            → result ≡ Err error }
        ensures room { Fits self.now → 20 ≤ length buffer.old → IsOk result }
        ensures short { Fits self.now → length buffer.old < 20 → result ≡ Err (Stream WriteZero) }
    {
        pack_into::<BE, Ipv4Header>(self, buffer)
    }
}

impl FromBitStream for Ipv4Header {
    type Error = Ipv4Error;

    ghost becomes = { becomes_ipv4_header };

    ghost reads = { ipv4_header_decoder };

    fn from_reader<R: BitRead>(reader: &mut R) -> Result<Ipv4Header, Ipv4Error> {
        Ipv4Header::read(reader)
    }
}

impl ToBitStream for Ipv4Header {
    type Error = Error;

    ghost becomes = { same_error };

    ghost writes = { ipv4_header_writes };

    fn to_writer<W: BitWrite>(&self, writer: &mut W) -> Result<(), Error> {
        self.write(writer)
    }
}

/// A value that fits its bits is read back as it was written, in either order of bits, at any place.
/// The read takes only the bits that were written: 160 bits.
pub fn ipv4_header_round_trip()
    ensures back { (o : Order) (value : Ipv4Header) (at from : ℕ) (more : List Bool) → Fits value
        → let written = write_sequence (ipv4_header_writes o value) at in
        (ipv4_header_decoder o).reads from (written ++ more) ≡ Done (length written) (Ok (Ok value)) }
    ensures size { (o : Order) (value : Ipv4Header) (at : ℕ) → Fits value
        → length (write_sequence (ipv4_header_writes o value) at) ≡ 160 }
{}
