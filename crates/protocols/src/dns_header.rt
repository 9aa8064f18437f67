//! The header of a DNS message (RFC 1035, section 4.1.1, and RFC 4035, section 3).
//!
//! Made by `./format` from formats/dns_header.fields: edit that file and make this one anew.
ghost use Rattle.protocols.specs.DnsHeader.{dns_header_decoder, dns_header_writes, dns_header_bits, dns_header_at, Fits, becomes_dns_header, const_at_25, code_of, code_number, code_read};
ghost use Rattle.protocols.specs.declared.dns_header.DnsHeader.{DnsHeader};
ghost use Rattle.protocols.specs.declared.dns_header.DnsHeaderError.{DnsHeaderError};
ghost use Rattle.protocols.specs.declared.dns_header.DnsHeaderError.TheVariants.{Reader, ReservedSet};
ghost use Rattle.std.specs.Prelude.{◌≡◌, ◌≢◌, ◌<◌, ◌≤◌, ◌++◌, ℕ, Bool, List, Ok, Err, length, IfOk, IsOk};
ghost use Rattle.std.specs.declared.io.ErrorKind.TheVariants.{WriteZero};
ghost use Rattle.bitstream_io.specs.Callers.{Done, Error, EndOfInput, Order, High, bits, write_sequence, Reads, ReadsOwn, OwnAnswer, WritesAll, AllAccepted, sequence_length, sure_answer, Stream, same_error};
ghost use Rattle.bitstream_io.specs.SliceMut.{HoldsFirst, written_bytes};

use bitstream_io::{
    BE, BitRead, BitReadExt, BitReader, BitWrite, BitWriteExt, Bits, Error, FromBitStream,
    SliceMut, ToBitStream, pack_into,
};

/// The header of a DNS message (RFC 1035, section 4.1.1, and RFC 4035, section 3).
///
/// ```text
///  0                   1                   2                   3
///  0 1 2 3 4 5 6 7 8 9 0 1 2 3 4 5 6 7 8 9 0 1 2 3 4 5 6 7 8 9 0 1
/// +-+-+-+-+-+-+-+-+-+-+-+-+-+-+-+-+-+-+-+-+-+-+-+-+-+-+-+-+-+-+-+-+
/// |               id              |r| opcode|a|t|r|a|=|a|u|  code |
/// +-+-+-+-+-+-+-+-+-+-+-+-+-+-+-+-+-+-+-+-+-+-+-+-+-+-+-+-+-+-+-+-+
/// |           questions           |            answers            |
/// +-+-+-+-+-+-+-+-+-+-+-+-+-+-+-+-+-+-+-+-+-+-+-+-+-+-+-+-+-+-+-+-+
/// |          authorities          |           additional          |
/// +-+-+-+-+-+-+-+-+-+-+-+-+-+-+-+-+-+-+-+-+-+-+-+-+-+-+-+-+-+-+-+-+
/// ```
#[derive(Clone, Copy, Debug, PartialEq)]
pub struct DnsHeader {
    /// The number that an answer shares with its question.
    pub id: u16,
    /// True if the message is an answer.
    pub response: bool,
    /// The kind of the question, as 0 for a standard query. Below 2^4.
    pub opcode: u8,
    /// True if the server is an authority for the name.
    pub authoritative: bool,
    /// True if the message was truncated.
    pub truncated: bool,
    /// True if the server should ask other servers.
    pub recursion: bool,
    /// True if the server can ask other servers.
    pub available: bool,
    /// True if the server verified the data.
    pub authentic: bool,
    /// True if data that are not verified are accepted.
    pub unchecked: bool,
    /// The result.
    pub code: Code,
    /// The number of questions.
    pub questions: u16,
    /// The number of answers.
    pub answers: u16,
    /// The number of authority records.
    pub authorities: u16,
    /// The number of additional records.
    pub additional: u16,
}

/// The errors of reading a `DnsHeader`.
#[derive(Debug, Drop, thiserror::Error)]
pub enum DnsHeaderError {
    /// An error of the reader.
    #[error("{0}")]
    Reader(Error),
    /// The reserved bit is set.
    #[error("the reserved bit is set")]
    ReservedSet,
}

impl From<Error> for DnsHeaderError {
    ghost from_gives = { becomes_dns_header };

    fn from(error: Error) -> DnsHeaderError {
        DnsHeaderError::Reader(error)
    }
}

/// The result.
#[derive(Clone, Copy, Debug, PartialEq)]
pub enum Code {
    /// Encoded as 0.
    NoError,
    /// Encoded as 1.
    FormatError,
    /// Encoded as 2.
    ServerFailure,
    /// Encoded as 3.
    NoSuchName,
    /// Encoded as 4.
    NotImplemented,
    /// Encoded as 5.
    Refuses,
    /// Any other number.
    Other(u8),
}

impl Code {
    /// Decodes a number.
    pub fn of(number: u8) -> Code
        ensures { result ≡ code_of number }
    {
        if number == 0 {
            return Code::NoError;
        }
        if number == 1 {
            return Code::FormatError;
        }
        if number == 2 {
            return Code::ServerFailure;
        }
        if number == 3 {
            return Code::NoSuchName;
        }
        if number == 4 {
            return Code::NotImplemented;
        }
        if number == 5 {
            return Code::Refuses;
        }
        Code::Other(number)
    }

    /// Returns the number of the case.
    pub fn number(self) -> u8
        ensures { result ≡ code_number self }
    {
        match self {
            Code::NoError => 0,
            Code::FormatError => 1,
            Code::ServerFailure => 2,
            Code::NoSuchName => 3,
            Code::NotImplemented => 4,
            Code::Refuses => 5,
            Code::Other(number) => number,
        }
    }

    /// Reads a number of 4 bits, and decodes it.
    pub fn read<R: BitRead>(reader: &mut R) -> Result<Code, Error>
        ensures { Reads R.source (code_read R.source.order) reader.old result reader.new }
    {
        let number = reader.read::<Bits<4>, u8>()?;
        Ok(Code::of(number))
    }
}

impl DnsHeader {
    /// The number of bits before each line of the description.
    pub const PLACES: [u64; 15] = [0, 16, 17, 21, 22, 23, 24, 25, 26, 27, 28, 32, 48, 64, 80];

    /// Reads the fields in order.
    ///
    /// # Errors
    ///
    /// `ReservedSet`, after the rejected bits have been read.
    /// Otherwise the reader's errors, after which it has failed.
    pub fn read<R: BitRead>(reader: &mut R) -> Result<DnsHeader, DnsHeaderError>
        ensures { ReadsOwn R.source becomes_dns_header (dns_header_decoder R.source.order) reader.old result reader.new }
    {
        let id = reader.read::<Bits<16>, u16>()?;
        let response = reader.read_bit()?;
        let opcode = reader.read::<Bits<4>, u8>()?;
        let authoritative = reader.read_bit()?;
        let truncated = reader.read_bit()?;
        let recursion = reader.read_bit()?;
        let available = reader.read_bit()?;
        reader.read_const::<Bits<1>, Bits<0>, DnsHeaderError>(DnsHeaderError::ReservedSet)?;
        let authentic = reader.read_bit()?;
        let unchecked = reader.read_bit()?;
        let code = Code::read(reader)?;
        let questions = reader.read::<Bits<16>, u16>()?;
        let answers = reader.read::<Bits<16>, u16>()?;
        let authorities = reader.read::<Bits<16>, u16>()?;
        let additional = reader.read::<Bits<16>, u16>()?;
        Ok(DnsHeader {
            id,
            response,
            opcode,
            authoritative,
            truncated,
            recursion,
            available,
            authentic,
            unchecked,
            code,
            questions,
            answers,
            authorities,
            additional,
        })
    }

    /// Parses the value at the start of `packet`.
    ///
    /// # Errors
    ///
    /// `ReservedSet` if bits are rejected.
    /// `Reader(EndOfInput)` for fewer than 12 bytes.
    pub fn parse(packet: &[u8]) -> Result<DnsHeader, DnsHeaderError>
        ensures answer { OwnAnswer becomes_dns_header (λ answer. answer)
            (sure_answer ((dns_header_decoder High).reads 0 (bits High packet.now))) result }
        ensures there { 12 ≤ length packet.now → const_at_25 (bits High packet.now) ≡ 0
            → result ≡ Ok (dns_header_at (bits High packet.now)) }
        ensures short { length packet.now < 12
            → (4 ≤ length packet.now → const_at_25 (bits High packet.now) ≡ 0)
            → result ≡ Err (DnsHeaderError.Reader EndOfInput) }
        ensures reserved_set { 4 ≤ length packet.now → const_at_25 (bits High packet.now) ≢ 0
            → result ≡ Err (DnsHeaderError.ReservedSet) }
        ensures back { (value : DnsHeader) (more : List Bool) → Fits value
            → bits High packet.now ≡ dns_header_bits value ++ more → result ≡ Ok value }
    {
        dns_header_round_trip();
        DnsHeader::read(&mut BitReader::<_, BE>::over(packet))
    }

    /// Writes the fields in order.
    ///
    /// # Errors
    ///
    /// `Checked` for a field that does not fit its bits. The fields before it have been written.
    /// Otherwise the sink's errors.
    pub fn write<W: BitWrite>(&self, writer: &mut W) -> Result<(), Error>
        ensures { WritesAll W.sink (dns_header_writes W.sink.order self.now) writer.old result writer.new }
    {
        writer.write::<Bits<16>, u16>(self.id)?;
        writer.write_bit(self.response)?;
        writer.write::<Bits<4>, u8>(self.opcode)?;
        writer.write_bit(self.authoritative)?;
        writer.write_bit(self.truncated)?;
        writer.write_bit(self.recursion)?;
        writer.write_bit(self.available)?;
        writer.write_const::<Bits<1>, Bits<0>>()?;
        writer.write_bit(self.authentic)?;
        writer.write_bit(self.unchecked)?;
        writer.write::<Bits<4>, u8>(self.code.number())?;
        writer.write::<Bits<16>, u16>(self.questions)?;
        writer.write::<Bits<16>, u16>(self.answers)?;
        writer.write::<Bits<16>, u16>(self.authorities)?;
        writer.write::<Bits<16>, u16>(self.additional)?;
        Ok(())
    }

    /// Writes the fields to the first bytes of a buffer, and returns what was written. The other bytes
    /// stay as they were. Does not allocate.
    ///
    /// # Errors
    ///
    /// `Checked` for the first field that does not fit its bits, however long the buffer is.
    /// `Stream(WriteZero)` if all fields fit, and the buffer has fewer than 12 bytes.
    /// After an error, the first bytes of the buffer may have changed.
    pub fn pack_into<'a>(&self, buffer: &'a mut [u8]) -> Result<SliceMut<'a>, Error>
        ensures packed { IfOk result (λ packed. bits High (written_bytes packed) ≡ dns_header_bits self.now) }
        ensures first { IfOk result (HoldsFirst buffer.entry.ghost_name buffer.old) }
        ensures accepted { IsOk result → AllAccepted (dns_header_writes High self.now) 0 }
        ensures misfit { (error : Error) → sequence_length (dns_header_writes High self.now) 0 ≡ Err error
            → result ≡ Err error }
        ensures room { Fits self.now → 12 ≤ length buffer.old → IsOk result }
        ensures short { Fits self.now → length buffer.old < 12 → result ≡ Err (Stream WriteZero) }
    {
        pack_into::<BE, DnsHeader>(self, buffer)
    }
}

impl FromBitStream for DnsHeader {
    type Error = DnsHeaderError;

    ghost becomes = { becomes_dns_header };

    ghost reads = { dns_header_decoder };

    fn from_reader<R: BitRead>(reader: &mut R) -> Result<DnsHeader, DnsHeaderError> {
        DnsHeader::read(reader)
    }
}

impl ToBitStream for DnsHeader {
    type Error = Error;

    ghost becomes = { same_error };

    ghost writes = { dns_header_writes };

    fn to_writer<W: BitWrite>(&self, writer: &mut W) -> Result<(), Error> {
        self.write(writer)
    }
}

/// A value that fits its bits is read back as it was written, in either order of bits, at any place.
/// The read takes only the bits that were written: 96 bits.
pub fn dns_header_round_trip()
    ensures back { (o : Order) (value : DnsHeader) (at from : ℕ) (more : List Bool) → Fits value
        → let written = write_sequence (dns_header_writes o value) at in
        (dns_header_decoder o).reads from (written ++ more) ≡ Done (length written) (Ok (Ok value)) }
    ensures size { (o : Order) (value : DnsHeader) (at : ℕ) → Fits value
        → length (write_sequence (dns_header_writes o value) at) ≡ 96 }
{}
