//! The header of an echo message of ICMP or of its reply (RFC 792, page 14).
//!
//! Made by `./format` from formats/icmp_echo.fields: edit that file and make this one anew.
ghost use Rattle.protocols.specs.IcmpEcho.{icmp_echo_decoder, icmp_echo_writes, icmp_echo_bits, icmp_echo_at, Fits, becomes_icmp_echo, bits_at, const_at_8, echo_kind_of, echo_kind_number, echo_kind_read};
ghost use Rattle.protocols.specs.declared.icmp_echo.IcmpEcho.{IcmpEcho};
ghost use Rattle.protocols.specs.declared.icmp_echo.IcmpEchoError.{IcmpEchoError};
ghost use Rattle.protocols.specs.declared.icmp_echo.IcmpEchoError.TheVariants.{Reader, NoEchoKind, OtherCode};
ghost use Rattle.protocols.specs.declared.icmp_echo.EchoKind.{EchoKind};
ghost use Rattle.std.specs.Prelude.{◌≡◌, ◌≢◌, ◌<◌, ◌≤◌, ◌++◌, ℕ, Bool, List, Ok, Err, length, IfOk, IsOk};
ghost use Rattle.std.specs.declared.io.ErrorKind.TheVariants.{WriteZero};
ghost use Rattle.bitstream_io.specs.Callers.{Done, Error, EndOfInput, Order, High, bits, number, write_sequence, ReadsOwn, OwnAnswer, WritesAll, sequence_length, sure_answer, Stream, same_error};
ghost use Rattle.bitstream_io.specs.SliceMut.{HoldsFirst, written_bytes};

use bitstream_io::{
    BE, BitRead, BitReadExt, BitReader, BitWrite, BitWriteExt, Bits, Error, FromBitStream,
    SliceMut, ToBitStream, pack_into,
};

/// The header of an echo message of ICMP or of its reply (RFC 792, page 14).
///
/// ```text
///  0                   1                   2                   3
///  0 1 2 3 4 5 6 7 8 9 0 1 2 3 4 5 6 7 8 9 0 1 2 3 4 5 6 7 8 9 0 1
/// +-+-+-+-+-+-+-+-+-+-+-+-+-+-+-+-+-+-+-+-+-+-+-+-+-+-+-+-+-+-+-+-+
/// |      kind     |       =0      |            checksum           |
/// +-+-+-+-+-+-+-+-+-+-+-+-+-+-+-+-+-+-+-+-+-+-+-+-+-+-+-+-+-+-+-+-+
/// |           identifier          |            sequence           |
/// +-+-+-+-+-+-+-+-+-+-+-+-+-+-+-+-+-+-+-+-+-+-+-+-+-+-+-+-+-+-+-+-+
/// ```
#[derive(Clone, Copy, Debug, PartialEq)]
pub struct IcmpEcho {
    /// The kind of the message: a request or a reply.
    pub kind: EchoKind,
    /// The checksum of the message.
    pub checksum: u16,
    /// The number that a reply shares with its request.
    pub identifier: u16,
    /// The number of the request among its sender's requests.
    pub sequence: u16,
}

/// The errors of reading an `IcmpEcho`.
#[derive(Debug, Drop, thiserror::Error)]
pub enum IcmpEchoError {
    /// An error of the reader.
    #[error("{0}")]
    Reader(Error),
    /// `kind` is not the number of a case of `EchoKind`.
    #[error("`kind` is not the number of a case of `EchoKind`")]
    NoEchoKind,
    /// The code is not 0.
    #[error("the code is not 0")]
    OtherCode,
}

impl From<Error> for IcmpEchoError {
    ghost from_gives = { becomes_icmp_echo };

    fn from(error: Error) -> IcmpEchoError {
        IcmpEchoError::Reader(error)
    }
}

/// The kind of the message: a request or a reply.
#[derive(Clone, Copy, Debug, PartialEq)]
pub enum EchoKind {
    /// Encoded as 8.
    Request,
    /// Encoded as 0.
    Reply,
}

impl EchoKind {
    /// Decodes a number.
    pub fn of(number: u8) -> Result<EchoKind, IcmpEchoError>
        ensures { result ≡ echo_kind_of number }
    {
        if number == 8 {
            return Ok(EchoKind::Request);
        }
        if number == 0 {
            return Ok(EchoKind::Reply);
        }
        Err(IcmpEchoError::NoEchoKind)
    }

    /// Returns the number of the case.
    pub fn number(self) -> u8
        ensures { result ≡ echo_kind_number self }
    {
        match self {
            EchoKind::Request => 8,
            EchoKind::Reply => 0,
        }
    }

    /// Reads a number of 8 bits, and decodes it.
    pub fn read<R: BitRead>(reader: &mut R) -> Result<EchoKind, IcmpEchoError>
        ensures { ReadsOwn R.source becomes_icmp_echo (echo_kind_read R.source.order) reader.old result reader.new }
    {
        let number = reader.read::<Bits<8>, u8>()?;
        EchoKind::of(number)
    }
}

impl IcmpEcho {
    /// The number of bits before each line of the description.
    pub const PLACES: [u64; 5] = [0, 8, 16, 32, 48];

    /// Reads the fields in order.
    ///
    /// # Errors
    ///
    /// `NoEchoKind` or `OtherCode`, after the rejected bits have been read.
    /// Otherwise the reader's errors, after which it has failed.
    pub fn read<R: BitRead>(reader: &mut R) -> Result<IcmpEcho, IcmpEchoError>
        ensures { ReadsOwn R.source becomes_icmp_echo (icmp_echo_decoder R.source.order) reader.old result reader.new }
    {
        let kind = EchoKind::read(reader)?;
        reader.read_const::<Bits<8>, Bits<0>, IcmpEchoError>(IcmpEchoError::OtherCode)?;
        let checksum = reader.read::<Bits<16>, u16>()?;
        let identifier = reader.read::<Bits<16>, u16>()?;
        let sequence = reader.read::<Bits<16>, u16>()?;
        Ok(IcmpEcho {
            kind,
            checksum,
            identifier,
            sequence,
        })
    }

    /// Parses the value at the start of `packet`.
    ///
    /// # Errors
    ///
    /// `NoEchoKind` or `OtherCode` if bits are rejected.
    /// `Reader(EndOfInput)` for fewer than 8 bytes.
    pub fn parse(packet: &[u8]) -> Result<IcmpEcho, IcmpEchoError>
        ensures answer { OwnAnswer becomes_icmp_echo (λ answer. answer)
            (sure_answer ((icmp_echo_decoder High).reads 0 (bits High packet.now))) result }
        ensures there { 8 ≤ length packet.now → (kind : EchoKind)
            → echo_kind_of (number High (bits_at 0 8 (bits High packet.now))) ≡ Ok kind
            → const_at_8 (bits High packet.now) ≡ 0
            → result ≡ Ok (icmp_echo_at kind (bits High packet.now)) }
        ensures short { length packet.now < 8 → (kind : EchoKind)
            → echo_kind_of (number High (bits_at 0 8 (bits High packet.now))) ≡ Ok kind
            → const_at_8 (bits High packet.now) ≡ 0
            → result ≡ Err (IcmpEchoError.Reader EndOfInput) }
        ensures no_echo_kind { 1 ≤ length packet.now
            → echo_kind_of (number High (bits_at 0 8 (bits High packet.now))) ≡ Err NoEchoKind
            → result ≡ Err (IcmpEchoError.NoEchoKind) }
        ensures other_code { 2 ≤ length packet.now → (kind : EchoKind)
            → echo_kind_of (number High (bits_at 0 8 (bits High packet.now))) ≡ Ok kind
            → const_at_8 (bits High packet.now) ≢ 0 → result ≡ Err (IcmpEchoError.OtherCode) }
        ensures back { (value : IcmpEcho) (more : List Bool) → Fits value
            → bits High packet.now ≡ icmp_echo_bits value ++ more → result ≡ Ok value }
    {
        icmp_echo_round_trip();
        IcmpEcho::read(&mut BitReader::<_, BE>::over(packet))
    }

    /// Writes the fields in order.
    ///
    /// # Errors
    ///
    /// `Checked` for a field that does not fit its bits. The fields before it have been written.
    /// Otherwise the sink's errors.
    pub fn write<W: BitWrite>(&self, writer: &mut W) -> Result<(), Error>
        ensures { WritesAll W.sink (icmp_echo_writes W.sink.order self.now) writer.old result writer.new }
    {
        writer.write::<Bits<8>, u8>(self.kind.number())?;
        writer.write_const::<Bits<8>, Bits<0>>()?;
        writer.write::<Bits<16>, u16>(self.checksum)?;
        writer.write::<Bits<16>, u16>(self.identifier)?;
        writer.write::<Bits<16>, u16>(self.sequence)?;
        Ok(())
    }

    /// Writes the fields to the first bytes of a buffer, and returns what was written. The other bytes
    /// stay as they were. Does not allocate.
    ///
    /// # Errors
    ///
    /// `Checked` for the first field that does not fit its bits, however long the buffer is.
    /// `Stream(WriteZero)` if all fields fit, and the buffer has fewer than 8 bytes.
    /// After an error, the first bytes of the buffer may have changed.
    pub fn pack_into<'a>(&self, buffer: &'a mut [u8]) -> Result<SliceMut<'a>, Error>
        ensures packed { IfOk result (λ packed. bits High (written_bytes packed) ≡ icmp_echo_bits self.now) }
        ensures first { IfOk result (HoldsFirst buffer.entry.ghost_name buffer.old) }
        ensures fits { IsOk result → Fits self.now }
        ensures misfit { (error : Error) → sequence_length (icmp_echo_writes High self.now) 0 ≡ Err error
            → result ≡ Err error }
        ensures room { Fits self.now → 8 ≤ length buffer.old → IsOk result }
        ensures short { Fits self.now → length buffer.old < 8 → result ≡ Err (Stream WriteZero) }
    {
        pack_into::<BE, IcmpEcho>(self, buffer)
    }
}

impl FromBitStream for IcmpEcho {
    type Error = IcmpEchoError;

    ghost becomes = { becomes_icmp_echo };

    ghost reads = { icmp_echo_decoder };

    fn from_reader<R: BitRead>(reader: &mut R) -> Result<IcmpEcho, IcmpEchoError> {
        IcmpEcho::read(reader)
    }
}

impl ToBitStream for IcmpEcho {
    type Error = Error;

    ghost becomes = { same_error };

    ghost writes = { icmp_echo_writes };

    fn to_writer<W: BitWrite>(&self, writer: &mut W) -> Result<(), Error> {
        self.write(writer)
    }
}

/// A value that fits its bits is read back as it was written, in either order of bits, at any place.
/// The read takes only the bits that were written: 64 bits.
pub fn icmp_echo_round_trip()
    ensures back { (o : Order) (value : IcmpEcho) (at from : ℕ) (more : List Bool) → Fits value
        → let written = write_sequence (icmp_echo_writes o value) at in
        (icmp_echo_decoder o).reads from (written ++ more) ≡ Done (length written) (Ok (Ok value)) }
    ensures size { (o : Order) (value : IcmpEcho) (at : ℕ) → Fits value
        → length (write_sequence (icmp_echo_writes o value) at) ≡ 64 }
{}
