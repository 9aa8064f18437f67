//! A packet of ARP for IPv4 over Ethernet (RFC 826, "Packet format").
//!
//! Made by `./format` from formats/arp_packet.fields: edit that file and make this one anew.
ghost use Rattle.protocols.specs.ArpPacket.{arp_packet_decoder, arp_packet_writes, arp_packet_bits, arp_packet_at, Fits, becomes_arp_packet, const_at_0, const_at_16, const_at_32, const_at_40, operation_of, operation_number, operation_read};
ghost use Rattle.protocols.specs.declared.arp_packet.ArpPacket.{ArpPacket};
ghost use Rattle.protocols.specs.declared.arp_packet.ArpError.{ArpError};
ghost use Rattle.protocols.specs.declared.arp_packet.ArpError.TheVariants.{Reader, OtherHardware, OtherProtocol, OtherHardwareLength, OtherProtocolLength};
ghost use Rattle.std.specs.Prelude.{◌≡◌, ◌≢◌, ◌<◌, ◌≤◌, ◌++◌, ℕ, Bool, List, Ok, Err, length, IfOk, IsOk};
ghost use Rattle.std.specs.declared.io.ErrorKind.TheVariants.{WriteZero};
ghost use Rattle.bitstream_io.specs.Callers.{Done, Error, EndOfInput, Order, High, bits, write_sequence, Reads, ReadsOwn, OwnAnswer, WritesAll, AllAccepted, sequence_length, sure_answer, Stream, same_error};
ghost use Rattle.bitstream_io.specs.SliceMut.{HoldsFirst, written_bytes};

use bitstream_io::{
    BE, BitRead, BitReadExt, BitReader, BitWrite, BitWriteExt, Bits, Error, FromBitStream,
    SliceMut, ToBitStream, pack_into,
};

/// A packet of ARP for IPv4 over Ethernet (RFC 826, "Packet format").
///
/// ```text
///  0                   1                   2                   3
///  0 1 2 3 4 5 6 7 8 9 0 1 2 3 4 5 6 7 8 9 0 1 2 3 4 5 6 7 8 9 0 1
/// +-+-+-+-+-+-+-+-+-+-+-+-+-+-+-+-+-+-+-+-+-+-+-+-+-+-+-+-+-+-+-+-+
/// |               =1              |             =2048             |
/// +-+-+-+-+-+-+-+-+-+-+-+-+-+-+-+-+-+-+-+-+-+-+-+-+-+-+-+-+-+-+-+-+
/// |       =6      |       =4      |           operation           |
/// +-+-+-+-+-+-+-+-+-+-+-+-+-+-+-+-+-+-+-+-+-+-+-+-+-+-+-+-+-+-+-+-+
/// |                        sender_hardware                        |
/// +-+-+-+-+-+-+-+-+-+-+-+-+-+-+-+-+-+-+-+-+-+-+-+-+-+-+-+-+-+-+-+-+
/// |                               |        sender_protocol        |
/// +-+-+-+-+-+-+-+-+-+-+-+-+-+-+-+-+-+-+-+-+-+-+-+-+-+-+-+-+-+-+-+-+
/// |                               |                               |
/// +-+-+-+-+-+-+-+-+-+-+-+-+-+-+-+-+-+-+-+-+-+-+-+-+-+-+-+-+-+-+-+-+
/// |                        target_hardware                        |
/// +-+-+-+-+-+-+-+-+-+-+-+-+-+-+-+-+-+-+-+-+-+-+-+-+-+-+-+-+-+-+-+-+
/// |                        target_protocol                        |
/// +-+-+-+-+-+-+-+-+-+-+-+-+-+-+-+-+-+-+-+-+-+-+-+-+-+-+-+-+-+-+-+-+
/// ```
#[derive(Clone, Copy, Debug, PartialEq)]
pub struct ArpPacket {
    /// The operation: a request for an address, or a reply.
    pub operation: Operation,
    /// The Ethernet address of the sender.
    pub sender_hardware: [u8; 6],
    /// The IPv4 address of the sender.
    pub sender_protocol: [u8; 4],
    /// The Ethernet address of the target.
    pub target_hardware: [u8; 6],
    /// The IPv4 address of the target.
    pub target_protocol: [u8; 4],
}

/// The errors of reading an `ArpPacket`.
#[derive(Debug, Drop, thiserror::Error)]
pub enum ArpError {
    /// An error of the reader.
    #[error("{0}")]
    Reader(Error),
    /// The hardware is not Ethernet.
    #[error("the hardware is not Ethernet")]
    OtherHardware,
    /// The protocol is not IPv4.
    #[error("the protocol is not IPv4")]
    OtherProtocol,
    /// A hardware address does not have 6 bytes.
    #[error("a hardware address does not have 6 bytes")]
    OtherHardwareLength,
    /// A protocol address does not have 4 bytes.
    #[error("a protocol address does not have 4 bytes")]
    OtherProtocolLength,
}

impl From<Error> for ArpError {
    ghost from_gives = { becomes_arp_packet };

    fn from(error: Error) -> ArpError {
        ArpError::Reader(error)
    }
}

/// The operation: a request for an address, or a reply.
#[derive(Clone, Copy, Debug, PartialEq)]
pub enum Operation {
    /// Encoded as 1.
    Request,
    /// Encoded as 2.
    Reply,
    /// Any other number.
    Other(u16),
}

impl Operation {
    /// Decodes a number.
    pub fn of(number: u16) -> Operation
        ensures { result ≡ operation_of number }
    {
        if number == 1 {
            return Operation::Request;
        }
        if number == 2 {
            return Operation::Reply;
        }
        Operation::Other(number)
    }

    /// Returns the number of the case.
    pub fn number(self) -> u16
        ensures { result ≡ operation_number self }
    {
        match self {
            Operation::Request => 1,
            Operation::Reply => 2,
            Operation::Other(number) => number,
        }
    }

    /// Reads a number of 16 bits, and decodes it.
    pub fn read<R: BitRead>(reader: &mut R) -> Result<Operation, Error>
        ensures { Reads R.source (operation_read R.source.order) reader.old result reader.new }
    {
        let number = reader.read::<Bits<16>, u16>()?;
        Ok(Operation::of(number))
    }
}

impl ArpPacket {
    /// The number of bits before each line of the description.
    pub const PLACES: [u64; 9] = [0, 16, 32, 40, 48, 64, 112, 144, 192];

    /// Reads the fields in order.
    ///
    /// # Errors
    ///
    /// `OtherHardware`, `OtherProtocol`, `OtherHardwareLength` or `OtherProtocolLength`, after the rejected bits have been read.
    /// Otherwise the reader's errors, after which it has failed.
    pub fn read<R: BitRead>(reader: &mut R) -> Result<ArpPacket, ArpError>
        ensures { ReadsOwn R.source becomes_arp_packet (arp_packet_decoder R.source.order) reader.old result reader.new }
    {
        reader.read_const::<Bits<16>, Bits<1>, ArpError>(ArpError::OtherHardware)?;
        reader.read_const::<Bits<16>, Bits<2048>, ArpError>(ArpError::OtherProtocol)?;
        reader.read_const::<Bits<8>, Bits<6>, ArpError>(ArpError::OtherHardwareLength)?;
        reader.read_const::<Bits<8>, Bits<4>, ArpError>(ArpError::OtherProtocolLength)?;
        let operation = Operation::read(reader)?;
        let sender_hardware = reader.read_to_bytes::<[u8; 6]>()?;
        let sender_protocol = reader.read_to_bytes::<[u8; 4]>()?;
        let target_hardware = reader.read_to_bytes::<[u8; 6]>()?;
        let target_protocol = reader.read_to_bytes::<[u8; 4]>()?;
        Ok(ArpPacket {
            operation,
            sender_hardware,
            sender_protocol,
            target_hardware,
            target_protocol,
        })
    }

    /// Parses the value at the start of `packet`.
    ///
    /// # Errors
    ///
    /// `OtherHardware`, `OtherProtocol`, `OtherHardwareLength` or `OtherProtocolLength` if bits are rejected.
    /// `Reader(EndOfInput)` for fewer than 28 bytes.
    pub fn parse(packet: &[u8]) -> Result<ArpPacket, ArpError>
        ensures answer { OwnAnswer becomes_arp_packet (λ answer. answer)
            (sure_answer ((arp_packet_decoder High).reads 0 (bits High packet.now))) result }
        ensures there { 28 ≤ length packet.now → const_at_0 (bits High packet.now) ≡ 1
            → const_at_16 (bits High packet.now) ≡ 2048 → const_at_32 (bits High packet.now) ≡ 6
            → const_at_40 (bits High packet.now) ≡ 4
            → result ≡ Ok (arp_packet_at (bits High packet.now)) }
        ensures short { length packet.now < 28
            → (2 ≤ length packet.now → const_at_0 (bits High packet.now) ≡ 1)
            → (4 ≤ length packet.now → const_at_16 (bits High packet.now) ≡ 2048)
            → (5 ≤ length packet.now → const_at_32 (bits High packet.now) ≡ 6)
            → (6 ≤ length packet.now → const_at_40 (bits High packet.now) ≡ 4)
            → result ≡ Err (ArpError.Reader EndOfInput) }
        ensures other_hardware { 2 ≤ length packet.now → const_at_0 (bits High packet.now) ≢ 1
            → result ≡ Err (ArpError.OtherHardware) }
        ensures other_protocol { 4 ≤ length packet.now → const_at_0 (bits High packet.now) ≡ 1
            → const_at_16 (bits High packet.now) ≢ 2048 → result ≡ Err (ArpError.OtherProtocol) }
        ensures other_hardware_length { 5 ≤ length packet.now
            → const_at_0 (bits High packet.now) ≡ 1 → const_at_16 (bits High packet.now) ≡ 2048
            → const_at_32 (bits High packet.now) ≢ 6 → result ≡ Err (ArpError.OtherHardwareLength) }
        ensures other_protocol_length { 6 ≤ length packet.now
            → const_at_0 (bits High packet.now) ≡ 1 → const_at_16 (bits High packet.now) ≡ 2048
            → const_at_32 (bits High packet.now) ≡ 6 → const_at_40 (bits High packet.now) ≢ 4
            → result ≡ Err (ArpError.OtherProtocolLength) }
        ensures back { (value : ArpPacket) (more : List Bool) → Fits value
            → bits High packet.now ≡ arp_packet_bits value ++ more → result ≡ Ok value }
    {
        arp_packet_round_trip();
        ArpPacket::read(&mut BitReader::<_, BE>::over(packet))
    }

    /// Writes the fields in order.
    ///
    /// # Errors
    ///
    /// `Checked` for a field that does not fit its bits. The fields before it have been written.
    /// Otherwise the sink's errors.
    pub fn write<W: BitWrite>(&self, writer: &mut W) -> Result<(), Error>
        ensures { WritesAll W.sink (arp_packet_writes W.sink.order self.now) writer.old result writer.new }
    {
        writer.write_const::<Bits<16>, Bits<1>>()?;
        writer.write_const::<Bits<16>, Bits<2048>>()?;
        writer.write_const::<Bits<8>, Bits<6>>()?;
        writer.write_const::<Bits<8>, Bits<4>>()?;
        writer.write::<Bits<16>, u16>(self.operation.number())?;
        writer.write_bytes(&self.sender_hardware)?;
        writer.write_bytes(&self.sender_protocol)?;
        writer.write_bytes(&self.target_hardware)?;
        writer.write_bytes(&self.target_protocol)?;
        Ok(())
    }

    /// Writes the fields to the first bytes of a buffer, and returns what was written. The other bytes
    /// stay as they were. Does not allocate.
    ///
    /// # Errors
    ///
    /// `Checked` for the first field that does not fit its bits, however long the buffer is.
    /// `Stream(WriteZero)` if all fields fit, and the buffer has fewer than 28 bytes.
    /// After an error, the first bytes of the buffer may have changed.
    pub fn pack_into<'a>(&self, buffer: &'a mut [u8]) -> Result<SliceMut<'a>, Error>
        ensures packed { IfOk result (λ packed. bits High (written_bytes packed) ≡ arp_packet_bits self.now) }
        ensures first { IfOk result (HoldsFirst buffer.entry.ghost_name buffer.old) }
        ensures accepted { IsOk result → AllAccepted (arp_packet_writes High self.now) 0 }
        ensures misfit { (error : Error) → sequence_length (arp_packet_writes High self.now) 0 ≡ Err error
            → result ≡ Err error }
        ensures room { Fits self.now → 28 ≤ length buffer.old → IsOk result }
        ensures short { Fits self.now → length buffer.old < 28 → result ≡ Err (Stream WriteZero) }
    {
        pack_into::<BE, ArpPacket>(self, buffer)
    }
}

impl FromBitStream for ArpPacket {
    type Error = ArpError;

    ghost becomes = { becomes_arp_packet };

    ghost reads = { arp_packet_decoder };

    fn from_reader<R: BitRead>(reader: &mut R) -> Result<ArpPacket, ArpError> {
        ArpPacket::read(reader)
    }
}

impl ToBitStream for ArpPacket {
    type Error = Error;

    ghost becomes = { same_error };

    ghost writes = { arp_packet_writes };

    fn to_writer<W: BitWrite>(&self, writer: &mut W) -> Result<(), Error> {
        self.write(writer)
    }
}

/// A value that fits its bits is read back as it was written, in either order of bits, at any place.
/// The read takes only the bits that were written: 224 bits.
pub fn arp_packet_round_trip()
    ensures back { (o : Order) (value : ArpPacket) (at from : ℕ) (more : List Bool) → Fits value
        → let written = write_sequence (arp_packet_writes o value) at in
        (arp_packet_decoder o).reads from (written ++ more) ≡ Done (length written) (Ok (Ok value)) }
    ensures size { (o : Order) (value : ArpPacket) (at : ℕ) → Fits value
        → length (write_sequence (arp_packet_writes o value) at) ≡ 224 }
{}
