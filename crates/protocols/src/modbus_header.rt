//! The header of a Modbus/TCP message, and its function (Modbus on TCP/IP 1.0b, section 3.1.3).
//!
//! Made by `./format` from formats/modbus_header.fields: edit that file and make this one anew.
ghost use Rattle.protocols.specs.ModbusHeader.{modbus_header_decoder, modbus_header_writes, modbus_header_bits, modbus_header_at, Fits, becomes_modbus_header, const_at_16};
ghost use Rattle.protocols.specs.declared.modbus_header.ModbusHeader.{ModbusHeader};
ghost use Rattle.protocols.specs.declared.modbus_header.ModbusError.{ModbusError};
ghost use Rattle.protocols.specs.declared.modbus_header.ModbusError.TheVariants.{Reader, OtherProtocol};
ghost use Rattle.std.specs.Prelude.{◌≡◌, ◌≢◌, ◌<◌, ◌≤◌, ◌++◌, ℕ, Bool, List, Ok, Err, length, IfOk, IsOk};
ghost use Rattle.std.specs.declared.io.ErrorKind.TheVariants.{WriteZero};
ghost use Rattle.bitstream_io.specs.Callers.{Done, Error, EndOfInput, Order, High, bits, write_sequence, ReadsOwn, OwnAnswer, WritesAll, sequence_length, sure_answer, Stream, same_error};
ghost use Rattle.bitstream_io.specs.SliceMut.{HoldsFirst, written_bytes};

use bitstream_io::{
    BE, BitRead, BitReadExt, BitReader, BitWrite, BitWriteExt, Bits, Error, FromBitStream,
    SliceMut, ToBitStream, pack_into,
};

/// The header of a Modbus/TCP message, and its function (Modbus on TCP/IP 1.0b, section 3.1.3).
///
/// ```text
///  0                   1                   2                   3
///  0 1 2 3 4 5 6 7 8 9 0 1 2 3 4 5 6 7 8 9 0 1 2 3 4 5 6 7 8 9 0 1
/// +-+-+-+-+-+-+-+-+-+-+-+-+-+-+-+-+-+-+-+-+-+-+-+-+-+-+-+-+-+-+-+-+
/// |          transaction          |               =0              |
/// +-+-+-+-+-+-+-+-+-+-+-+-+-+-+-+-+-+-+-+-+-+-+-+-+-+-+-+-+-+-+-+-+
/// |              size             |      unit     |r|   function  |
/// +-+-+-+-+-+-+-+-+-+-+-+-+-+-+-+-+-+-+-+-+-+-+-+-+-+-+-+-+-+-+-+-+
/// ```
#[derive(Clone, Copy, Debug, PartialEq)]
pub struct ModbusHeader {
    /// The number that a response shares with its request.
    pub transaction: u16,
    /// The number of bytes that follow, from the unit on.
    pub size: u16,
    /// The device behind a gateway.
    pub unit: u8,
    /// True if the message is an exception response.
    pub refused: bool,
    /// The function that is asked for. Below 2^7.
    pub function: u8,
}

/// The errors of reading a `ModbusHeader`.
#[derive(Debug, Drop, thiserror::Error)]
pub enum ModbusError {
    /// An error of the reader.
    #[error("{0}")]
    Reader(Error),
    /// The protocol is not Modbus.
    #[error("the protocol is not Modbus")]
    OtherProtocol,
}

impl From<Error> for ModbusError {
    ghost from_gives = { becomes_modbus_header };

    fn from(error: Error) -> ModbusError {
        ModbusError::Reader(error)
    }
}

impl ModbusHeader {
    /// The number of bits before each line of the description.
    pub const PLACES: [u64; 6] = [0, 16, 32, 48, 56, 57];

    /// Reads the fields in order.
    ///
    /// # Errors
    ///
    /// `OtherProtocol`, after the rejected bits have been read.
    /// Otherwise the reader's errors, after which it has failed.
    pub fn read<R: BitRead>(reader: &mut R) -> Result<ModbusHeader, ModbusError>
        ensures { ReadsOwn R.source becomes_modbus_header (modbus_header_decoder R.source.order) reader.old result reader.new }
    {
        let transaction = reader.read::<Bits<16>, u16>()?;
        reader.read_const::<Bits<16>, Bits<0>, ModbusError>(ModbusError::OtherProtocol)?;
        let size = reader.read::<Bits<16>, u16>()?;
        let unit = reader.read::<Bits<8>, u8>()?;
        let refused = reader.read_bit()?;
        let function = reader.read::<Bits<7>, u8>()?;
        Ok(ModbusHeader {
            transaction,
            size,
            unit,
            refused,
            function,
        })
    }

    /// Parses the value at the start of `packet`.
    ///
    /// # Errors
    ///
    /// `OtherProtocol` if bits are rejected.
    /// `Reader(EndOfInput)` for fewer than 8 bytes.
    pub fn parse(packet: &[u8]) -> Result<ModbusHeader, ModbusError>
        ensures answer { OwnAnswer becomes_modbus_header (λ answer. answer)
            (sure_answer ((modbus_header_decoder High).reads 0 (bits High packet.now))) result }
        ensures there { 8 ≤ length packet.now → const_at_16 (bits High packet.now) ≡ 0
            → result ≡ Ok (modbus_header_at (bits High packet.now)) }
        ensures short { length packet.now < 8
            → (4 ≤ length packet.now → const_at_16 (bits High packet.now) ≡ 0)
            → result ≡ Err (ModbusError.Reader EndOfInput) }
        ensures other_protocol { 4 ≤ length packet.now → const_at_16 (bits High packet.now) ≢ 0
            → result ≡ Err (ModbusError.OtherProtocol) }
        ensures back { (value : ModbusHeader) (more : List Bool) → Fits value
            → bits High packet.now ≡ modbus_header_bits value ++ more → result ≡ Ok value }
    {
        modbus_header_round_trip();
        ModbusHeader::read(&mut BitReader::<_, BE>::over(packet))
    }

    /// Writes the fields in order.
    ///
    /// # Errors
    ///
    /// `Checked` for a field that does not fit its bits. The fields before it have been written.
    /// Otherwise the sink's errors.
    pub fn write<W: BitWrite>(&self, writer: &mut W) -> Result<(), Error>
        ensures { WritesAll W.sink (modbus_header_writes W.sink.order self.now) writer.old result writer.new }
    {
        writer.write::<Bits<16>, u16>(self.transaction)?;
        writer.write_const::<Bits<16>, Bits<0>>()?;
        writer.write::<Bits<16>, u16>(self.size)?;
        writer.write::<Bits<8>, u8>(self.unit)?;
        writer.write_bit(self.refused)?;
        writer.write::<Bits<7>, u8>(self.function)?;
        Ok(())
    }

    /// Writes the fields to the first bytes of a buffer, and returns what was written. The other bytes
    /// stay as they were. Does not allocate.
    ///
    /// # Errors
    ///
    /// `Checked` for the first field that does not fit its bits, however long the buffer is.
    /// `Stream(WriteZero)` if all fields fit, and the buffer has fewer than 8 bytes.
    /// After an error, the first bytes of the buffer may have changed.
    pub fn pack_into<'a>(&self, buffer: &'a mut [u8]) -> Result<SliceMut<'a>, Error>
        ensures packed { IfOk result (λ packed. bits High (written_bytes packed) ≡ modbus_header_bits self.now) }
        ensures first { IfOk result (HoldsFirst buffer.entry.ghost_name buffer.old) }
        ensures fits { IsOk result → Fits self.now }
        ensures misfit { (error : Error) → sequence_length (modbus_header_writes High self.now) 0 ≡ Err error
            → result ≡ Err error }
        ensures room { Fits self.now → 8 ≤ length buffer.old → IsOk result }
        ensures short { Fits self.now → length buffer.old < 8 → result ≡ Err (Stream WriteZero) }
    {
        pack_into::<BE, ModbusHeader>(self, buffer)
    }
}

impl FromBitStream for ModbusHeader {
    type Error = ModbusError;

    ghost becomes = { becomes_modbus_header };

    ghost reads = { modbus_header_decoder };

    fn from_reader<R: BitRead>(reader: &mut R) -> Result<ModbusHeader, ModbusError> {
        ModbusHeader::read(reader)
    }
}

impl ToBitStream for ModbusHeader {
    type Error = Error;

    ghost becomes = { same_error };

    ghost writes = { modbus_header_writes };

    fn to_writer<W: BitWrite>(&self, writer: &mut W) -> Result<(), Error> {
        self.write(writer)
    }
}

/// A value that fits its bits is read back as it was written, in either order of bits, at any place.
/// The read takes only the bits that were written: 64 bits.
pub fn modbus_header_round_trip()
    ensures back { (o : Order) (value : ModbusHeader) (at from : ℕ) (more : List Bool) → Fits value
        → let written = write_sequence (modbus_header_writes o value) at in
        (modbus_header_decoder o).reads from (written ++ more) ≡ Done (length written) (Ok (Ok value)) }
    ensures size { (o : Order) (value : ModbusHeader) (at : ℕ) → Fits value
        → length (write_sequence (modbus_header_writes o value) at) ≡ 64 }
{}
