//! The fixed header of an MQTT packet (MQTT 3.1.1, section 2.2).
//!
//! Made by `./format` from formats/mqtt_header.fields: edit that file and make this one anew.
ghost use Rattle.protocols.specs.MqttHeader.{mqtt_header_decoder, mqtt_header_writes, mqtt_header_size, mqtt_header_bits, Fits, becomes_mqtt_header, packet_of, packet_number, packet_read};
ghost use Rattle.protocols.specs.declared.mqtt_header.MqttHeader.{MqttHeader};
ghost use Rattle.std.specs.Prelude.{◌≡◌, ◌<◌, ◌≤◌, ◌*◌, ◌++◌, ℕ, Bool, List, Ok, Err, length, IfOk, IsOk};
ghost use Rattle.std.specs.declared.io.ErrorKind.TheVariants.{WriteZero};
ghost use Rattle.bitstream_io.specs.Callers.{Done, Error, Order, High, bits, write_sequence, ReadsOwn, OwnAnswer, WritesAll, AllAccepted, sequence_length, sure_answer, Stream, same_error};
ghost use Rattle.bitstream_io.specs.SliceMut.{HoldsFirst, written_bytes};

use bitstream_io::{
    BE, BitRead, BitReadExt, BitReader, BitWrite, BitWriteExt, Bits, Error, FromBitStream,
    SliceMut, ToBitStream, pack_into,
};

/// The fixed header of an MQTT packet (MQTT 3.1.1, section 2.2).
///
/// ```text
///  0                   1                   2                   3
///  0 1 2 3 4 5 6 7 8 9 0 1 2 3 4 5 6 7 8 9 0 1 2 3 4 5 6 7 8 9 0 1
/// +-+-+-+-+-+-+-+-+
/// |  kind |a|qua|r|
/// +-+-+-+-+-+-+-+-+-+-+-+-+-+-+-+-+-+-+-+-+-+-+-+-+-+-+-+-+-+-+-+-+
/// /                  remaining (groups of 8 bits)                 /
/// +-+-+-+-+-+-+-+-+-+-+-+-+-+-+-+-+-+-+-+-+-+-+-+-+-+-+-+-+-+-+-+-+
/// ```
#[derive(Clone, Copy, Debug, PartialEq)]
pub struct MqttHeader {
    /// The kind of the packet.
    pub kind: Packet,
    /// True if the packet was sent before, if it is `Publish`.
    pub again: bool,
    /// The quality of service, if the packet is `Publish`. Below 2^2.
    pub quality: u8,
    /// True if the server is to keep the message, if the packet is `Publish`.
    pub retain: bool,
    /// The number of bytes that follow.
    pub remaining: u32,
}

/// The errors of reading a `MqttHeader`.
#[derive(Debug, Drop, thiserror::Error)]
pub enum MqttError {
    /// An error of the reader.
    #[error("{0}")]
    Reader(Error),
    /// `kind` is not the number of a case of `Packet`.
    #[error("`kind` is not the number of a case of `Packet`")]
    NoPacket,
}

impl From<Error> for MqttError {
    ghost from_gives = { becomes_mqtt_header };

    fn from(error: Error) -> MqttError {
        MqttError::Reader(error)
    }
}

/// The kind of the packet.
#[derive(Clone, Copy, Debug, PartialEq)]
pub enum Packet {
    /// Encoded as 1.
    Connect,
    /// Encoded as 2.
    ConnAck,
    /// Encoded as 3.
    Publish,
    /// Encoded as 4.
    PubAck,
    /// Encoded as 5.
    PubRec,
    /// Encoded as 6.
    PubRel,
    /// Encoded as 7.
    PubComp,
    /// Encoded as 8.
    Subscribe,
    /// Encoded as 9.
    SubAck,
    /// Encoded as 10.
    Unsubscribe,
    /// Encoded as 11.
    UnsubAck,
    /// Encoded as 12.
    PingReq,
    /// Encoded as 13.
    PingResp,
    /// Encoded as 14.
    Disconnect,
    /// Encoded as 15.
    Auth,
}

impl Packet {
    /// Decodes a number.
    pub fn of(number: u8) -> Result<Packet, MqttError>
        ensures { result ≡ packet_of number }
    {
        if number == 1 {
            return Ok(Packet::Connect);
        }
        if number == 2 {
            return Ok(Packet::ConnAck);
        }
        if number == 3 {
            return Ok(Packet::Publish);
        }
        if number == 4 {
            return Ok(Packet::PubAck);
        }
        if number == 5 {
            return Ok(Packet::PubRec);
        }
        if number == 6 {
            return Ok(Packet::PubRel);
        }
        if number == 7 {
            return Ok(Packet::PubComp);
        }
        if number == 8 {
            return Ok(Packet::Subscribe);
        }
        if number == 9 {
            return Ok(Packet::SubAck);
        }
        if number == 10 {
            return Ok(Packet::Unsubscribe);
        }
        if number == 11 {
            return Ok(Packet::UnsubAck);
        }
        if number == 12 {
            return Ok(Packet::PingReq);
        }
        if number == 13 {
            return Ok(Packet::PingResp);
        }
        if number == 14 {
            return Ok(Packet::Disconnect);
        }
        if number == 15 {
            return Ok(Packet::Auth);
        }
        Err(MqttError::NoPacket)
    }

    /// Returns the number of the case.
    pub fn number(self) -> u8
        ensures { result ≡ packet_number self }
    {
        match self {
            Packet::Connect => 1,
            Packet::ConnAck => 2,
            Packet::Publish => 3,
            Packet::PubAck => 4,
            Packet::PubRec => 5,
            Packet::PubRel => 6,
            Packet::PubComp => 7,
            Packet::Subscribe => 8,
            Packet::SubAck => 9,
            Packet::Unsubscribe => 10,
            Packet::UnsubAck => 11,
            Packet::PingReq => 12,
            Packet::PingResp => 13,
            Packet::Disconnect => 14,
            Packet::Auth => 15,
        }
    }

    /// Reads a number of 4 bits, and decodes it.
    pub fn read<R: BitRead>(reader: &mut R) -> Result<Packet, MqttError>
        ensures { ReadsOwn R.source becomes_mqtt_header (packet_read R.source.order) reader.old result reader.new }
    {
        let number = reader.read::<Bits<4>, u8>()?;
        Packet::of(number)
    }
}

impl MqttHeader {
    /// The number of bits before each line of the description.
    pub const PLACES: [u64; 5] = [0, 4, 5, 7, 8];

    /// Reads the fields in order.
    ///
    /// # Errors
    ///
    /// `NoPacket`, after the rejected bits have been read.
    /// Otherwise the reader's errors, after which it has failed.
    pub fn read<R: BitRead>(reader: &mut R) -> Result<MqttHeader, MqttError>
        ensures { ReadsOwn R.source becomes_mqtt_header (mqtt_header_decoder R.source.order) reader.old result reader.new }
    {
        let kind = Packet::read(reader)?;
        let again = reader.read_bit()?;
        let quality = reader.read::<Bits<2>, u8>()?;
        let retain = reader.read_bit()?;
        let remaining = reader.read_unsigned_vbr_any::<Bits<8>, u32>()?;
        Ok(MqttHeader {
            kind,
            again,
            quality,
            retain,
            remaining,
        })
    }

    /// Parses the value at the start of `packet`.
    ///
    /// # Errors
    ///
    /// `NoPacket` if bits are rejected.
    /// `Reader(EndOfInput)` if the bytes end before the fields do.
    /// `Reader(VariableWidthOverflow)` if a number of variable width has more bits than its type.
    pub fn parse(packet: &[u8]) -> Result<MqttHeader, MqttError>
        ensures answer { OwnAnswer becomes_mqtt_header (λ answer. answer)
            (sure_answer ((mqtt_header_decoder High).reads 0 (bits High packet.now))) result }
        ensures back { (value : MqttHeader) (more : List Bool) → Fits value
            → bits High packet.now ≡ write_sequence (mqtt_header_writes High value) 0 ++ more → result ≡ Ok value }
    {
        mqtt_header_round_trip();
        MqttHeader::read(&mut BitReader::<_, BE>::over(packet))
    }

    /// Writes the fields in order.
    ///
    /// # Errors
    ///
    /// `Checked` for a field that does not fit its bits. The fields before it have been written.
    /// Otherwise the sink's errors.
    pub fn write<W: BitWrite>(&self, writer: &mut W) -> Result<(), Error>
        ensures { WritesAll W.sink (mqtt_header_writes W.sink.order self.now) writer.old result writer.new }
    {
        writer.write::<Bits<4>, u8>(self.kind.number())?;
        writer.write_bit(self.again)?;
        writer.write::<Bits<2>, u8>(self.quality)?;
        writer.write_bit(self.retain)?;
        writer.write_vbr::<Bits<8>, u32>(self.remaining)?;
        Ok(())
    }

    /// Writes the fields to the first bytes of a buffer, and returns what was written. The other bytes
    /// stay as they were. Does not allocate.
    ///
    /// # Errors
    ///
    /// `Checked` for the first field that does not fit its bits, however long the buffer is.
    /// `Stream(WriteZero)` if all fields fit, and the buffer is too short for the bits.
    /// After an error, the first bytes of the buffer may have changed.
    pub fn pack_into<'a>(&self, buffer: &'a mut [u8]) -> Result<SliceMut<'a>, Error>
        ensures packed { IfOk result (λ packed. bits High (written_bytes packed) ≡ mqtt_header_bits self.now) }
        ensures first { IfOk result (HoldsFirst buffer.entry.ghost_name buffer.old) }
        ensures accepted { IsOk result → AllAccepted (mqtt_header_writes High self.now) 0 }
        ensures misfit { (error : Error) → sequence_length (mqtt_header_writes High self.now) 0 ≡ Err error
            → result ≡ Err error }
        ensures room { Fits self.now → mqtt_header_size High self.now ≤ 8 * length buffer.old
            → IsOk result }
        ensures short { Fits self.now → 8 * length buffer.old < mqtt_header_size High self.now
            → result ≡ Err (Stream WriteZero) }
    {
        pack_into::<BE, MqttHeader>(self, buffer)
    }
}

impl FromBitStream for MqttHeader {
    type Error = MqttError;

    ghost becomes = { becomes_mqtt_header };

    ghost reads = { mqtt_header_decoder };

    fn from_reader<R: BitRead>(reader: &mut R) -> Result<MqttHeader, MqttError> {
        MqttHeader::read(reader)
    }
}

impl ToBitStream for MqttHeader {
    type Error = Error;

    ghost becomes = { same_error };

    ghost writes = { mqtt_header_writes };

    fn to_writer<W: BitWrite>(&self, writer: &mut W) -> Result<(), Error> {
        self.write(writer)
    }
}

/// A value that fits its bits is read back as it was written, in either order of bits, at any place.
/// The read takes only the bits that were written: `mqtt_header_size` is their number.
pub fn mqtt_header_round_trip()
    ensures back { (o : Order) (value : MqttHeader) (at from : ℕ) (more : List Bool) → Fits value
        → let written = write_sequence (mqtt_header_writes o value) at in
        (mqtt_header_decoder o).reads from (written ++ more) ≡ Done (length written) (Ok (Ok value)) }
    ensures size { (o : Order) (value : MqttHeader) (at : ℕ) → Fits value
        → length (write_sequence (mqtt_header_writes o value) at) ≡ mqtt_header_size o value }
{}
