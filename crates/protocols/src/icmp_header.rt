//! The first bytes of an ICMP message (RFC 792).
//!
//! Made by `./format` from formats/icmp_header.fields: edit that file and make this one anew.
ghost use Rattle.protocols.specs.IcmpHeader.{icmp_header_decoder, icmp_header_writes, icmp_header_size, icmp_header_bits, Fits, body_number, body_read, body_writes};
ghost use Rattle.protocols.specs.declared.icmp_header.IcmpHeader.{IcmpHeader};
ghost use Rattle.std.specs.Prelude.{◌≡◌, ◌<◌, ◌≤◌, ◌*◌, ◌++◌, ℕ, Bool, List, Ok, Err, length, IfOk, IsOk};
ghost use Rattle.std.specs.declared.io.ErrorKind.TheVariants.{WriteZero};
ghost use Rattle.bitstream_io.specs.Callers.{Done, Error, Order, High, bits, write_sequence, Reads, WritesAll, AllAccepted, sequence_length, sure_answer, Stream, same_error, plain_reads};
ghost use Rattle.bitstream_io.specs.SliceMut.{HoldsFirst, written_bytes};

use crate::icmp_gateway::IcmpGateway;
use crate::icmp_ids::IcmpIds;
use bitstream_io::{
    BE, BitRead, BitReadExt, BitReader, BitWrite, BitWriteExt, Bits, Error, FromBitStream,
    SliceMut, ToBitStream, pack_into,
};

/// The first bytes of an ICMP message (RFC 792).
///
/// ```text
///  0                   1                   2                   3
///  0 1 2 3 4 5 6 7 8 9 0 1 2 3 4 5 6 7 8 9 0 1 2 3 4 5 6 7 8 9 0 1
/// +-+-+-+-+-+-+-+-+-+-+-+-+-+-+-+-+-+-+-+-+-+-+-+-+-+-+-+-+-+-+-+-+
/// |    body_tag   |      code     |            checksum           |
/// +-+-+-+-+-+-+-+-+-+-+-+-+-+-+-+-+-+-+-+-+-+-+-+-+-+-+-+-+-+-+-+-+
/// /           body (EchoReply, Redirect, Echo or Other)           /
/// +-+-+-+-+-+-+-+-+-+-+-+-+-+-+-+-+-+-+-+-+-+-+-+-+-+-+-+-+-+-+-+-+
/// ```
#[derive(Clone, Copy, Debug, PartialEq)]
pub struct IcmpHeader {
    /// The code, which refines the type.
    pub code: u8,
    /// The checksum of the message.
    pub checksum: u16,
    /// The type of the message, and what follows the checksum. After another type nothing is read.
    pub body: Body,
}

/// The type of the message, and what follows the checksum. After another type nothing is read.
#[derive(Clone, Copy, Debug, PartialEq)]
pub enum Body {
    /// The case for the number 0.
    EchoReply(IcmpIds),
    /// The case for the number 5.
    Redirect(IcmpGateway),
    /// The case for the number 8.
    Echo(IcmpIds),
    /// Any other number, with nothing after it.
    Other(u8),
}

impl Body {
    /// Returns the number of the case.
    pub fn number(&self) -> u8
        ensures { result ≡ body_number self.now }
    {
        match self {
            Body::EchoReply(_) => 0,
            Body::Redirect(_) => 5,
            Body::Echo(_) => 8,
            Body::Other(it) => *it,
        }
    }

    /// Reads what follows the number of a case.
    ///
    /// # Errors
    ///
    /// The reader's errors, after which it has failed.
    pub fn read<R: BitRead>(reader: &mut R, number: u8) -> Result<Body, Error>
        ensures { Reads R.source (body_read R.source.order number) reader.old result reader.new }
    {
        if number == 0 {
            return Ok(Body::EchoReply(IcmpIds::read(reader)?));
        }
        if number == 5 {
            return Ok(Body::Redirect(IcmpGateway::read(reader)?));
        }
        if number == 8 {
            return Ok(Body::Echo(IcmpIds::read(reader)?));
        }
        Ok(Body::Other(number))
    }

    /// Writes what follows the number of the case.
    ///
    /// # Errors
    ///
    /// `Checked` for a field that does not fit its bits. The fields before it have been written.
    /// Otherwise the sink's errors.
    pub fn write<W: BitWrite>(&self, writer: &mut W) -> Result<(), Error>
        ensures { WritesAll W.sink (body_writes W.sink.order self.now) writer.old result writer.new }
    {
        match self {
            Body::EchoReply(it) => it.write(writer),
            Body::Redirect(it) => it.write(writer),
            Body::Echo(it) => it.write(writer),
            Body::Other(_) => Ok(()),
        }
    }
}

impl IcmpHeader {
    /// The number of bits before each line of the description.
    pub const PLACES: [u64; 4] = [0, 8, 16, 32];

    /// Reads the fields in order.
    ///
    /// # Errors
    ///
    /// The reader's errors, after which it has failed.
    pub fn read<R: BitRead>(reader: &mut R) -> Result<IcmpHeader, Error>
        ensures { Reads R.source (icmp_header_decoder R.source.order) reader.old result reader.new }
    {
        let body_tag = reader.read::<Bits<8>, u8>()?;
        let code = reader.read::<Bits<8>, u8>()?;
        let checksum = reader.read::<Bits<16>, u16>()?;
        let body = Body::read(reader, body_tag)?;
        Ok(IcmpHeader {
            code,
            checksum,
            body,
        })
    }

    /// Parses the value at the start of `packet`.
    ///
    /// # Errors
    ///
    /// `EndOfInput` if the bytes end before the fields do.
    pub fn parse(packet: &[u8]) -> Result<IcmpHeader, Error>
        ensures answer { result ≡ sure_answer ((icmp_header_decoder High).reads 0 (bits High packet.now)) }
        ensures back { (value : IcmpHeader) (more : List Bool) → Fits value
            → bits High packet.now ≡ write_sequence (icmp_header_writes High value) 0 ++ more → result ≡ Ok value }
    {
        icmp_header_round_trip();
        IcmpHeader::read(&mut BitReader::<_, BE>::over(packet))
    }

    /// Writes the fields in order.
    ///
    /// # Errors
    ///
    /// `Checked` for a field that does not fit its bits. The fields before it have been written.
    /// Otherwise the sink's errors.
    pub fn write<W: BitWrite>(&self, writer: &mut W) -> Result<(), Error>
        ensures { WritesAll W.sink (icmp_header_writes W.sink.order self.now) writer.old result writer.new }
    {
        writer.write::<Bits<8>, u8>(self.body.number())?;
        writer.write::<Bits<8>, u8>(self.code)?;
        writer.write::<Bits<16>, u16>(self.checksum)?;
        self.body.write(writer)?;
        Ok(())
    }

    /// Writes the fields to the first bytes of a buffer, and returns what was written. The other bytes
    /// stay as they were. Does not allocate.
    ///
    /// # Errors
    ///
    /// `Checked` for the first field that does not fit its bits, however long the buffer is.
    /// `Stream(WriteZero)` if all fields fit, and the buffer is too short for the bits.
    /// After an error, the first bytes of the buffer may have changed.
    pub fn pack_into<'a>(&self, buffer: &'a mut [u8]) -> Result<SliceMut<'a>, Error>
        ensures packed { IfOk result (λ packed. bits High (written_bytes packed) ≡ icmp_header_bits self.now) }
        ensures first { IfOk result (HoldsFirst buffer.entry.ghost_name buffer.old) }
        ensures accepted { IsOk result → AllAccepted (icmp_header_writes High self.now) 0 }
        ensures misfit { (error : Error) → sequence_length (icmp_header_writes High self.now) 0 ≡ Err error
            → result ≡ Err error }
        ensures room { Fits self.now → icmp_header_size High self.now ≤ 8 * length buffer.old
            → IsOk result }
        ensures short { Fits self.now → 8 * length buffer.old < icmp_header_size High self.now
            → result ≡ Err (Stream WriteZero) }
    {
        pack_into::<BE, IcmpHeader>(self, buffer)
    }
}

impl FromBitStream for IcmpHeader {
    type Error = Error;

    ghost becomes = { same_error };

    ghost reads = { λ o. plain_reads (icmp_header_decoder o) };

    fn from_reader<R: BitRead>(reader: &mut R) -> Result<IcmpHeader, Error> {
        IcmpHeader::read(reader)
    }
}

impl ToBitStream for IcmpHeader {
    type Error = Error;

    ghost becomes = { same_error };

    ghost writes = { icmp_header_writes };

    fn to_writer<W: BitWrite>(&self, writer: &mut W) -> Result<(), Error> {
        self.write(writer)
    }
}

/// A value that fits its bits is read back as it was written, in either order of bits, at any place.
/// The read takes only the bits that were written: `icmp_header_size` is their number.
pub fn icmp_header_round_trip()
    ensures back { (o : Order) (value : IcmpHeader) (at from : ℕ) (more : List Bool) → Fits value
        → let written = write_sequence (icmp_header_writes o value) at in
        (icmp_header_decoder o).reads from (written ++ more) ≡ Done (length written) (Ok value) }
    ensures size { (o : Order) (value : IcmpHeader) (at : ℕ) → Fits value
        → length (write_sequence (icmp_header_writes o value) at) ≡ icmp_header_size o value }
{}
