//! The header of an IPv6 packet, without extension headers (RFC 8200, section 3).
//!
//! Made by `./format` from formats/ipv6_header.fields: edit that file and make this one anew.
ghost use Rattle.protocols.specs.Ipv6Header.{ipv6_header_decoder, ipv6_header_writes, ipv6_header_bits, ipv6_header_at, Fits, becomes_ipv6_header, const_at_0, ecn_of, ecn_number, ecn_read, following_of, following_number, following_read};
ghost use Rattle.protocols.specs.declared.ipv6_header.Ipv6Header.{Ipv6Header};
ghost use Rattle.protocols.specs.declared.ipv6_header.Ipv6Error.{Ipv6Error};
ghost use Rattle.protocols.specs.declared.ipv6_header.Ipv6Error.TheVariants.{Reader, OtherVersion};
ghost use Rattle.std.specs.Prelude.{◌≡◌, ◌≢◌, ◌<◌, ◌≤◌, ◌++◌, ℕ, Bool, List, Ok, Err, length, IfOk, IsOk};
ghost use Rattle.std.specs.declared.io.ErrorKind.TheVariants.{WriteZero};
ghost use Rattle.bitstream_io.specs.Callers.{Done, Error, EndOfInput, Order, High, bits, write_sequence, Reads, ReadsOwn, OwnAnswer, WritesAll, AllAccepted, sequence_length, sure_answer, Stream, same_error};
ghost use Rattle.bitstream_io.specs.SliceMut.{HoldsFirst, written_bytes};

use bitstream_io::{
    BE, BitRead, BitReadExt, BitReader, BitWrite, BitWriteExt, Bits, Error, FromBitStream,
    SliceMut, ToBitStream, pack_into,
};

/// The header of an IPv6 packet, without extension headers (RFC 8200, section 3).
///
/// ```text
///  0                   1                   2                   3
///  0 1 2 3 4 5 6 7 8 9 0 1 2 3 4 5 6 7 8 9 0 1 2 3 4 5 6 7 8 9 0 1
/// +-+-+-+-+-+-+-+-+-+-+-+-+-+-+-+-+-+-+-+-+-+-+-+-+-+-+-+-+-+-+-+-+
/// |   =6  |    dscp   |ecn|                  flow                 |
/// +-+-+-+-+-+-+-+-+-+-+-+-+-+-+-+-+-+-+-+-+-+-+-+-+-+-+-+-+-+-+-+-+
/// |          payload_size         |   following   |   hop_limit   |
/// +-+-+-+-+-+-+-+-+-+-+-+-+-+-+-+-+-+-+-+-+-+-+-+-+-+-+-+-+-+-+-+-+
/// |                        source (4 rows)                        |
/// +-+-+-+-+-+-+-+-+-+-+-+-+-+-+-+-+-+-+-+-+-+-+-+-+-+-+-+-+-+-+-+-+
/// |                        target (4 rows)                        |
/// +-+-+-+-+-+-+-+-+-+-+-+-+-+-+-+-+-+-+-+-+-+-+-+-+-+-+-+-+-+-+-+-+
/// ```
#[derive(Clone, Copy, Debug, PartialEq)]
pub struct Ipv6Header {
    /// The differentiated services code point (RFC 2474). Below 2^6.
    pub dscp: u8,
    /// The congestion mark of the path (RFC 3168).
    pub ecn: Ecn,
    /// The flow that the packet belongs to. Below 2^20.
    pub flow: u32,
    /// The bytes after this header, including extension headers.
    pub payload_size: u16,
    /// The header that follows.
    pub following: Following,
    /// The number of routers that may still forward the packet.
    pub hop_limit: u8,
    /// The address of the sender.
    pub source: [u8; 16],
    /// The address of the receiver.
    pub target: [u8; 16],
}

/// The errors of reading an `Ipv6Header`.
#[derive(Debug, Drop, thiserror::Error)]
pub enum Ipv6Error {
    /// An error of the reader.
    #[error("{0}")]
    Reader(Error),
    /// The version is not 6.
    #[error("the version is not 6")]
    OtherVersion,
}

impl From<Error> for Ipv6Error {
    ghost from_gives = { becomes_ipv6_header };

    fn from(error: Error) -> Ipv6Error {
        Ipv6Error::Reader(error)
    }
}

/// The congestion mark of the path (RFC 3168).
#[derive(Clone, Copy, Debug, PartialEq)]
pub enum Ecn {
    /// Encoded as 0.
    NotCapable,
    /// Encoded as 1.
    Ect1,
    /// Encoded as 2.
    Ect0,
    /// Encoded as 3.
    Congested,
}

impl Ecn {
    /// Decodes a number.
    pub fn of(number: u8) -> Ecn
        ensures { result ≡ ecn_of number }
    {
        if number == 0 {
            return Ecn::NotCapable;
        }
        if number == 1 {
            return Ecn::Ect1;
        }
        if number == 2 {
            return Ecn::Ect0;
        }
        Ecn::Congested
    }

    /// Returns the number of the case.
    pub fn number(self) -> u8
        ensures { result ≡ ecn_number self }
    {
        match self {
            Ecn::NotCapable => 0,
            Ecn::Ect1 => 1,
            Ecn::Ect0 => 2,
            Ecn::Congested => 3,
        }
    }

    /// Reads a number of 2 bits, and decodes it.
    pub fn read<R: BitRead>(reader: &mut R) -> Result<Ecn, Error>
        ensures { Reads R.source (ecn_read R.source.order) reader.old result reader.new }
    {
        let number = reader.read::<Bits<2>, u8>()?;
        Ok(Ecn::of(number))
    }
}

/// The header that follows.
#[derive(Clone, Copy, Debug, PartialEq)]
pub enum Following {
    /// Encoded as 0.
    HopByHop,
    /// Encoded as 6.
    Tcp,
    /// Encoded as 17.
    Udp,
    /// Encoded as 43.
    Routing,
    /// Encoded as 44.
    Fragment,
    /// Encoded as 58.
    Icmp,
    /// Any other number.
    Other(u8),
}

impl Following {
    /// Decodes a number.
    pub fn of(number: u8) -> Following
        ensures { result ≡ following_of number }
    {
        if number == 0 {
            return Following::HopByHop;
        }
        if number == 6 {
            return Following::Tcp;
        }
        if number == 17 {
            return Following::Udp;
        }
        if number == 43 {
            return Following::Routing;
        }
        if number == 44 {
            return Following::Fragment;
        }
        if number == 58 {
            return Following::Icmp;
        }
        Following::Other(number)
    }

    /// Returns the number of the case.
    pub fn number(self) -> u8
        ensures { result ≡ following_number self }
    {
        match self {
            Following::HopByHop => 0,
            Following::Tcp => 6,
            Following::Udp => 17,
            Following::Routing => 43,
            Following::Fragment => 44,
            Following::Icmp => 58,
            Following::Other(number) => number,
        }
    }

    /// Reads a number of 8 bits, and decodes it.
    pub fn read<R: BitRead>(reader: &mut R) -> Result<Following, Error>
        ensures { Reads R.source (following_read R.source.order) reader.old result reader.new }
    {
        let number = reader.read::<Bits<8>, u8>()?;
        Ok(Following::of(number))
    }
}

impl Ipv6Header {
    /// The number of bits before each line of the description.
    pub const PLACES: [u64; 9] = [0, 4, 10, 12, 32, 48, 56, 64, 192];

    /// Reads the fields in order.
    ///
    /// # Errors
    ///
    /// `OtherVersion`, after the rejected bits have been read.
    /// Otherwise the reader's errors, after which it has failed.
    pub fn read<R: BitRead>(reader: &mut R) -> Result<Ipv6Header, Ipv6Error>
        ensures { ReadsOwn R.source becomes_ipv6_header (ipv6_header_decoder R.source.order) reader.old result reader.new }
    {
        reader.read_const::<Bits<4>, Bits<6>, Ipv6Error>(Ipv6Error::OtherVersion)?;
        let dscp = reader.read::<Bits<6>, u8>()?;
        let ecn = Ecn::read(reader)?;
        let flow = reader.read::<Bits<20>, u32>()?;
        let payload_size = reader.read::<Bits<16>, u16>()?;
        let following = Following::read(reader)?;
        let hop_limit = reader.read::<Bits<8>, u8>()?;
        let source = reader.read_to_bytes::<[u8; 16]>()?;
        let target = reader.read_to_bytes::<[u8; 16]>()?;
        Ok(Ipv6Header {
            dscp,
            ecn,
            flow,
            payload_size,
            following,
            hop_limit,
            source,
            target,
        })
    }

    /// Parses the value at the start of `packet`.
    ///
    /// # Errors
    ///
    /// `OtherVersion` if bits are rejected.
    /// `Reader(EndOfInput)` for fewer than 40 bytes.
    pub fn parse(packet: &[u8]) -> Result<Ipv6Header, Ipv6Error>
        ensures answer { OwnAnswer becomes_ipv6_header (λ answer. answer)
            (sure_answer ((ipv6_header_decoder High).reads 0 (bits High packet.now))) result }
        ensures there { 40 ≤ length packet.now → const_at_0 (bits High packet.now) ≡ 6
            → result ≡ Ok (ipv6_header_at (bits High packet.now)) }
        ensures short { length packet.now < 40
            → (1 ≤ length packet.now → const_at_0 (bits High packet.now) ≡ 6)
            → result ≡ Err (Ipv6Error.Reader EndOfInput) }
        ensures other_version { 1 ≤ length packet.now → const_at_0 (bits High packet.now) ≢ 6
            → result ≡ Err (Ipv6Error.OtherVersion) }
        ensures back { (value : Ipv6Header) (more : List Bool) → Fits value
            → bits High packet.now ≡ ipv6_header_bits value ++ more → result ≡ Ok value }
    {
        ipv6_header_round_trip();
        Ipv6Header::read(&mut BitReader::<_, BE>::over(packet))
    }

    /// Writes the fields in order.
    ///
    /// # Errors
    ///
    /// `Checked` for a field that does not fit its bits. The fields before it have been written.
    /// Otherwise the sink's errors.
    pub fn write<W: BitWrite>(&self, writer: &mut W) -> Result<(), Error>
        ensures { WritesAll W.sink (ipv6_header_writes W.sink.order self.now) writer.old result writer.new }
    {
        writer.write_const::<Bits<4>, Bits<6>>()?;
        writer.write::<Bits<6>, u8>(self.dscp)?;
        writer.write::<Bits<2>, u8>(self.ecn.number())?;
        writer.write::<Bits<20>, u32>(self.flow)?;
        writer.write::<Bits<16>, u16>(self.payload_size)?;
        writer.write::<Bits<8>, u8>(self.following.number())?;
        writer.write::<Bits<8>, u8>(self.hop_limit)?;
        writer.write_bytes(&self.source)?;
        writer.write_bytes(&self.target)?;
        Ok(())
    }

    /// Writes the fields to the first bytes of a buffer, and returns what was written. The other bytes
    /// stay as they were. Does not allocate.
    ///
    /// # Errors
    ///
    /// `Checked` for the first field that does not fit its bits, however long the buffer is.
    /// `Stream(WriteZero)` if all fields fit, and the buffer has fewer than 40 bytes.
    /// After an error, the first bytes of the buffer may have changed.
    pub fn pack_into<'a>(&self, buffer: &'a mut [u8]) -> Result<SliceMut<'a>, Error>
        ensures packed { IfOk result (λ packed. bits High (written_bytes packed) ≡ ipv6_header_bits self.now) }
        ensures first { IfOk result (HoldsFirst buffer.entry.ghost_name buffer.old) }
        ensures accepted { IsOk result → AllAccepted (ipv6_header_writes High self.now) 0 }
        ensures misfit { (error : Error) → sequence_length (ipv6_header_writes High self.now) 0 ≡ Err error
            → result ≡ Err error }
        ensures room { Fits self.now → 40 ≤ length buffer.old → IsOk result }
        ensures short { Fits self.now → length buffer.old < 40 → result ≡ Err (Stream WriteZero) }
    {
        pack_into::<BE, Ipv6Header>(self, buffer)
    }
}

impl FromBitStream for Ipv6Header {
    type Error = Ipv6Error;

    ghost becomes = { becomes_ipv6_header };

    ghost reads = { ipv6_header_decoder };

    fn from_reader<R: BitRead>(reader: &mut R) -> Result<Ipv6Header, Ipv6Error> {
        Ipv6Header::read(reader)
    }
}

impl ToBitStream for Ipv6Header {
    type Error = Error;

    ghost becomes = { same_error };

    ghost writes = { ipv6_header_writes };

    fn to_writer<W: BitWrite>(&self, writer: &mut W) -> Result<(), Error> {
        self.write(writer)
    }
}

/// A value that fits its bits is read back as it was written, in either order of bits, at any place.
/// The read takes only the bits that were written: 320 bits.
pub fn ipv6_header_round_trip()
    ensures back { (o : Order) (value : Ipv6Header) (at from : ℕ) (more : List Bool) → Fits value
        → let written = write_sequence (ipv6_header_writes o value) at in
        (ipv6_header_decoder o).reads from (written ++ more) ≡ Done (length written) (Ok (Ok value)) }
    ensures size { (o : Order) (value : Ipv6Header) (at : ℕ) → Fits value
        → length (write_sequence (ipv6_header_writes o value) at) ≡ 320 }
{}
