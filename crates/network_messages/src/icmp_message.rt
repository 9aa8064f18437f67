//! An echo or an echo reply of ICMP, with its checksum (RFC 792).
//!
//! Made by `./format` from formats/icmp_message.fields: edit that file and make this one anew.
ghost use Rattle.network_messages.specs.IcmpMessage.{icmp_message_decoder, icmp_message_writes, icmp_message_size, icmp_message_bits, Fits, becomes_icmp_message, echo_of, echo_number, echo_read};
ghost use Rattle.network_messages.specs.declared.icmp_message.IcmpMessage.{IcmpMessage};
ghost use Rattle.network_messages.specs.declared.icmp_message.IcmpMessageError.{IcmpMessageError};
ghost use Rattle.network_messages.specs.declared.icmp_message.IcmpMessageError.TheVariants.{Reader};
ghost use Rattle.std.specs.Prelude.{◌≡◌, ◌<◌, ◌≤◌, ◌-◌, ◌*◌, ◌++◌, ◌⊎◌, ℕ, Bool, List, Ok, Err, length, IfOk, IsOk};
ghost use Rattle.std.specs.declared.io.ErrorKind.TheVariants.{WriteZero};
ghost use Rattle.bitstream_io.specs.Callers.{Done, Error, Order, High, bits, write_sequence, ReadsOwn, OwnAnswer, WritesAll, AllAccepted, sequence_length, sure_answer, GrowsOwn, MayAllocate, OutOfMemory, Stream, same_error};
ghost use Rattle.bitstream_format.specs.Checks.{bytes1, bytes2, sum16};
ghost use Rattle.bitstream_io.specs.SliceMut.{HoldsFirst, written_bytes};

use bitstream_format::checks::{octets_of_u8, octets_of_u16, sum16_more};
use bitstream_format::rest::rest_of;
use bitstream_io::{
    BE, BitRead, BitReadExt, BitReader, BitWrite, BitWriteExt, Bits, Error, SliceMut, ToBitStream,
    pack_into,
};
use std::alloc::Global;
use std::marker::Model;

/// An echo or an echo reply of ICMP, with its checksum (RFC 792).
///
/// ```text
///  0                   1                   2                   3
///  0 1 2 3 4 5 6 7 8 9 0 1 2 3 4 5 6 7 8 9 0 1 2 3 4 5 6 7 8 9 0 1
/// +-+-+-+-+-+-+-+-+-+-+-+-+-+-+-+-+-+-+-+-+-+-+-+-+-+-+-+-+-+-+-+-+
/// |      kind     |      code     |          stored_sum16         |
/// +-+-+-+-+-+-+-+-+-+-+-+-+-+-+-+-+-+-+-+-+-+-+-+-+-+-+-+-+-+-+-+-+
/// |           identifier          |            sequence           |
/// +-+-+-+-+-+-+-+-+-+-+-+-+-+-+-+-+-+-+-+-+-+-+-+-+-+-+-+-+-+-+-+-+
/// /                    data (bytes to the end)                    /
/// +-+-+-+-+-+-+-+-+-+-+-+-+-+-+-+-+-+-+-+-+-+-+-+-+-+-+-+-+-+-+-+-+
/// ```
#[derive(Debug, Drop)]
pub struct IcmpMessage {
    /// The message.
    pub kind: Echo,
    /// The code, which is 0.
    pub code: u8,
    /// Which program asks.
    pub identifier: u16,
    /// The number of the message.
    pub sequence: u16,
    /// The data, which the reply repeats.
    pub data: Vec<u8>,
}

impl Model for IcmpMessage {
    ghost use Rattle.network_messages.specs.IcmpMessageFields.{IcmpMessageFields};

    ghost Value = { IcmpMessageFields };

    ghost view = { λ value. record {
      kind = value.kind;
      code = value.code;
      identifier = value.identifier;
      sequence = value.sequence;
      «data» = value.data.items;
    } };
}

/// The errors of reading an `IcmpMessage`.
#[derive(Debug, Drop, thiserror::Error)]
pub enum IcmpMessageError {
    /// An error of the reader.
    #[error("{0}")]
    Reader(Error),
    /// `kind` is not the number of a case of `Echo`.
    #[error("`kind` is not the number of a case of `Echo`")]
    NoEcho,
    /// The checksum is not that of the message.
    #[error("the checksum is not that of the message")]
    WrongSum,
}

impl From<Error> for IcmpMessageError {
    ghost from_gives = { becomes_icmp_message };

    fn from(error: Error) -> IcmpMessageError {
        IcmpMessageError::Reader(error)
    }
}

/// The message.
#[derive(Clone, Copy, Debug, PartialEq)]
pub enum Echo {
    /// Encoded as 0.
    Reply,
    /// Encoded as 8.
    Request,
}

impl Echo {
    /// Decodes a number.
    pub fn of(number: u8) -> Result<Echo, IcmpMessageError>
        ensures { result ≡ echo_of number }
    {
        if number == 0 {
            return Ok(Echo::Reply);
        }
        if number == 8 {
            return Ok(Echo::Request);
        }
        Err(IcmpMessageError::NoEcho)
    }

    /// Returns the number of the case.
    pub fn number(self) -> u8
        ensures { result ≡ echo_number self }
    {
        match self {
            Echo::Reply => 0,
            Echo::Request => 8,
        }
    }

    /// Reads a number of 8 bits, and decodes it.
    pub fn read<R: BitRead>(reader: &mut R) -> Result<Echo, IcmpMessageError>
        ensures { ReadsOwn R.source becomes_icmp_message (echo_read R.source.order) reader.old result reader.new }
    {
        let number = reader.read::<Bits<8>, u8>()?;
        Echo::of(number)
    }
}

/// Returns the checksum of these numbers and bytes, in order.
fn sum16_of(number_1: u8, number_2: u8, number_3: u16, number_4: u16, bytes_5: &[u8]) -> u16
    ensures { result ≡ sum16 (bytes1 number_1 ++ bytes1 number_2 ++ bytes2 number_3 ++ bytes2 number_4 ++ bytes_5.now) }
{
    let octets_1 = octets_of_u8(number_1);
    let state_1 = sum16_more(0, 0, &octets_1);
    let octets_2 = octets_of_u8(number_2);
    let state_2 = sum16_more(state_1, 1, &octets_2);
    let octets_3 = octets_of_u16(number_3);
    let state_3 = sum16_more(state_2, 2, &octets_3);
    let octets_4 = octets_of_u16(number_4);
    let state_4 = sum16_more(state_3, 4, &octets_4);
    let state_5 = sum16_more(state_4, 6, bytes_5);
    65535 - state_5
}

impl IcmpMessage {
    /// The number of bits before each line of the description.
    pub const PLACES: [u64; 6] = [0, 8, 16, 32, 48, 64];

    /// Reads the fields in order, and `data_bytes` bytes of `data`.
    ///
    /// # Errors
    ///
    /// `NoEcho` or `WrongSum`, after the rejected bits have been read.
    /// `Reader(OutOfMemory)` if an allocation for a list fails. The items before the failure
    /// have been read.
    /// Otherwise the reader's errors, after which it has failed.
    pub fn read<R: BitRead>(
        reader: &mut R,
        alloc: Global,
        data_bytes: u64,
    ) -> Result<IcmpMessage, IcmpMessageError>
        ensures { GrowsOwn R.source becomes_icmp_message (icmp_message_decoder R.source.order data_bytes) reader.old result reader.new }
    {
        let kind = Echo::read(reader)?;
        let code = reader.read::<Bits<8>, u8>()?;
        let stored_sum16 = reader.read::<Bits<16>, u16>()?;
        let identifier = reader.read::<Bits<16>, u16>()?;
        let sequence = reader.read::<Bits<16>, u16>()?;
        let data_ = reader.read_to_vec(alloc, data_bytes as usize)?;
        let is_sum16 = stored_sum16 == sum16_of(kind.number(), code, identifier, sequence, &data_);
        if !is_sum16 {
            return Err(IcmpMessageError::WrongSum);
        }
        Ok(IcmpMessage {
            kind,
            code,
            identifier,
            sequence,
            data: data_,
        })
    }

    /// Parses `packet`, whose last bytes are `data`.
    ///
    /// # Errors
    ///
    /// `NoEcho` or `WrongSum` if bits are rejected.
    /// `Reader(EndOfInput)` if the bytes end before the fields do.
    /// `Reader(OutOfMemory)` if the allocation for an item of a list fails.
    pub fn parse(packet: &[u8], alloc: Global) -> Result<IcmpMessage, IcmpMessageError>
        ensures answer { (OwnAnswer becomes_icmp_message (λ answer. answer)
            (sure_answer ((icmp_message_decoder High (length packet.now - 8)).reads 0 (bits High packet.now))) result)
            ⊎ ((result ≡ Err (IcmpMessageError.Reader OutOfMemory))
            × MayAllocate (icmp_message_decoder High (length packet.now - 8)) 0 (bits High packet.now)) }
        ensures back { (value : IcmpMessage) → Fits value
            → bits High packet.now ≡ write_sequence (icmp_message_writes High value) 0
            → (result ≡ Ok value)
            ⊎ (result ≡ Err (IcmpMessageError.Reader OutOfMemory)) }
    {
        icmp_message_round_trip();
        let data_bytes = rest_of(packet, 8);
        IcmpMessage::read(&mut BitReader::<_, BE>::over(packet), alloc, data_bytes)
    }

    /// Writes the fields in order.
    ///
    /// # Errors
    ///
    /// `Checked` for a field that does not fit its bits. The fields before it have been written.
    /// Otherwise the sink's errors.
    pub fn write<W: BitWrite>(&self, writer: &mut W) -> Result<(), Error>
        ensures { WritesAll W.sink (icmp_message_writes W.sink.order self.now) writer.old result writer.new }
    {
        writer.write::<Bits<8>, u8>(self.kind.number())?;
        writer.write::<Bits<8>, u8>(self.code)?;
        writer.write::<Bits<16>, u16>(sum16_of(
            self.kind.number(),
            self.code,
            self.identifier,
            self.sequence,
            &self.data,
        ))?;
        writer.write::<Bits<16>, u16>(self.identifier)?;
        writer.write::<Bits<16>, u16>(self.sequence)?;
        writer.write_bytes(&self.data)?;
        Ok(())
    }

    /// Writes the fields to the first bytes of a buffer, and returns what was written. The other bytes
    /// stay as they were. Does not allocate.
    ///
    /// # Errors
    ///
    /// `Checked` for the first field that does not fit its bits, however long the buffer is.
    /// `Stream(WriteZero)` if all fields fit, and the buffer is too short for the bits.
    /// After an error, the first bytes of the buffer may have changed.
    pub fn pack_into<'a>(&self, buffer: &'a mut [u8]) -> Result<SliceMut<'a>, Error>
        ensures packed { IfOk result (λ packed. bits High (written_bytes packed) ≡ icmp_message_bits self.now) }
        ensures first { IfOk result (HoldsFirst buffer.entry.ghost_name buffer.old) }
        ensures accepted { IsOk result → AllAccepted (icmp_message_writes High self.now) 0 }
        ensures misfit { (error : Error) → sequence_length (icmp_message_writes High self.now) 0 ≡ Err error
            → result ≡ Err error }
        ensures room { Fits self.now → icmp_message_size High self.now ≤ 8 * length buffer.old
            → IsOk result }
        ensures short { Fits self.now → 8 * length buffer.old < icmp_message_size High self.now
            → result ≡ Err (Stream WriteZero) }
    {
        pack_into::<BE, IcmpMessage>(self, buffer)
    }
}

impl ToBitStream for IcmpMessage {
    type Error = Error;

    ghost becomes = { same_error };

    ghost writes = { icmp_message_writes };

    fn to_writer<W: BitWrite>(&self, writer: &mut W) -> Result<(), Error> {
        self.write(writer)
    }
}

/// A value that fits its bits is read back as it was written, in either order of bits, at any place.
/// The read takes only the bits that were written: `icmp_message_size` is their number.
pub fn icmp_message_round_trip()
    ensures back { (o : Order) (value : IcmpMessage) (at from : ℕ) (more : List Bool) → Fits value
        → let written = write_sequence (icmp_message_writes o value) at in
        (icmp_message_decoder o (length value.data)).reads from (written ++ more) ≡ Done (length written) (Ok (Ok value)) }
    ensures size { (o : Order) (value : IcmpMessage) (at : ℕ) → Fits value
        → length (write_sequence (icmp_message_writes o value) at) ≡ icmp_message_size o value }
{}
