//! A message of CoAP with its options as bytes (RFC 7252, section 3).
//!
//! Made by `./format` from formats/coap_message.fields: edit that file and make this one anew.
ghost use Rattle.network_messages.specs.CoapMessage.{coap_message_decoder, coap_message_writes, coap_message_size, coap_message_bits, Fits, becomes_coap_message, message_of, message_number, message_read};
ghost use Rattle.network_messages.specs.declared.coap_message.CoapMessage.{CoapMessage};
ghost use Rattle.network_messages.specs.declared.coap_message.CoapMessageError.{CoapMessageError};
ghost use Rattle.network_messages.specs.declared.coap_message.CoapMessageError.TheVariants.{Reader};
ghost use Rattle.std.specs.Prelude.{◌≡◌, ◌<◌, ◌≤◌, ◌+◌, ◌-◌, ◌*◌, ◌++◌, ◌∷◌, [], ◌⊎◌, ℕ, Bool, List, Ok, Err, length, IfOk, IsOk};
ghost use Rattle.std.specs.declared.io.ErrorKind.TheVariants.{WriteZero};
ghost use Rattle.bitstream_io.specs.Callers.{Done, Error, Order, High, bits, unsigned, write_sequence, Reads, OwnAnswer, WritesAll, AllAccepted, sequence_length, sure_answer, GrowsOwn, MayAllocate, OutOfMemory, Stream, same_error};
ghost use Rattle.bitstream_format.specs.Bounded.{within_most};
ghost use Rattle.bitstream_io.specs.SliceMut.{HoldsFirst, written_bytes};

use bitstream_format::rest::{rest_after, rest_of};
use bitstream_io::{
    BE, BitRead, BitReadExt, BitReader, BitWrite, BitWriteExt, Bits, Error, SliceMut, ToBitStream,
    pack_into,
};
use std::alloc::Global;
use std::marker::Model;

/// A message of CoAP with its options as bytes (RFC 7252, section 3).
///
/// ```text
///  0                   1                   2                   3
///  0 1 2 3 4 5 6 7 8 9 0 1 2 3 4 5 6 7 8 9 0 1 2 3 4 5 6 7 8 9 0 1
/// +-+-+-+-+-+-+-+-+-+-+-+-+-+-+-+-+-+-+-+-+-+-+-+-+-+-+-+-+-+-+-+-+
/// | =1|kin|token_c|class|  detail |               id              |
/// +-+-+-+-+-+-+-+-+-+-+-+-+-+-+-+-+-+-+-+-+-+-+-+-+-+-+-+-+-+-+-+-+
/// /                   token (token_count bytes)                   /
/// +-+-+-+-+-+-+-+-+-+-+-+-+-+-+-+-+-+-+-+-+-+-+-+-+-+-+-+-+-+-+-+-+
/// /                   options (bytes to the end)                  /
/// +-+-+-+-+-+-+-+-+-+-+-+-+-+-+-+-+-+-+-+-+-+-+-+-+-+-+-+-+-+-+-+-+
/// ```
#[derive(Debug, Drop)]
pub struct CoapMessage {
    /// The kind of the message.
    pub kind: Message,
    /// The class of the code: a request, or how it went. Below 2^3.
    pub class: u8,
    /// The method of a request, or the detail of a response. Below 2^5.
    pub detail: u8,
    /// The number that an acknowledgement shares with its message.
    pub id: u16,
    /// The bytes that a response shares with its request. At most 8.
    pub token: Vec<u8>,
    /// The options, and the payload after a byte 0xFF.
    pub options: Vec<u8>,
}

impl Model for CoapMessage {
    ghost use Rattle.network_messages.specs.CoapMessageFields.{CoapMessageFields};

    ghost Value = { CoapMessageFields };

    ghost view = { λ value. record {
      kind = value.kind;
      class = value.class;
      detail = value.detail;
      id = value.id;
      token = value.token.items;
      options = value.options.items;
    } };
}

/// The errors of reading a `CoapMessage`.
#[derive(Debug, Drop, thiserror::Error)]
pub enum CoapMessageError {
    /// An error of the reader.
    #[error("{0}")]
    Reader(Error),
    /// The version is not 1.
    #[error("the version is not 1")]
    OtherVersion,
    /// The number of items of `token` is above 8.
    #[error("the number of items of `token` is above 8")]
    LongToken,
}

impl From<Error> for CoapMessageError {
    ghost from_gives = { becomes_coap_message };

    fn from(error: Error) -> CoapMessageError {
        CoapMessageError::Reader(error)
    }
}

/// The kind of the message.
#[derive(Clone, Copy, Debug, PartialEq)]
pub enum Message {
    /// Encoded as 0.
    Confirmable,
    /// Encoded as 1.
    NonConfirmable,
    /// Encoded as 2.
    Acknowledgement,
    /// Encoded as 3.
    Reset,
}

impl Message {
    /// Decodes a number.
    pub fn of(number: u8) -> Message
        ensures { result ≡ message_of number }
    {
        if number == 0 {
            return Message::Confirmable;
        }
        if number == 1 {
            return Message::NonConfirmable;
        }
        if number == 2 {
            return Message::Acknowledgement;
        }
        Message::Reset
    }

    /// Returns the number of the case.
    pub fn number(self) -> u8
        ensures { result ≡ message_number self }
    {
        match self {
            Message::Confirmable => 0,
            Message::NonConfirmable => 1,
            Message::Acknowledgement => 2,
            Message::Reset => 3,
        }
    }

    /// Reads a number of 2 bits, and decodes it.
    pub fn read<R: BitRead>(reader: &mut R) -> Result<Message, Error>
        ensures { Reads R.source (message_read R.source.order) reader.old result reader.new }
    {
        let number = reader.read::<Bits<2>, u8>()?;
        Ok(Message::of(number))
    }
}

/// Writes the number of items of `token`.
///
/// # Errors
///
/// `Checked` if it is above 8. If so, nothing is written. Otherwise, the errors of the sink.
fn write_token_count<W: BitWrite>(writer: &mut W, number: u64) -> Result<(), Error>
    ensures { WritesAll W.sink (within_most 8 number W.sink.order (unsigned W.sink.order 64 4 number ∷ []))
        writer.old result writer.new }
{
    let is_most = number <= 8;
    if is_most {
        return writer.write::<Bits<4>, u64>(number);
    }
    // One bit does not hold 2, so nothing is written.
    writer.write::<Bits<1>, u8>(2)
}

impl CoapMessage {
    /// Reads the fields in order, and `options_bytes` bytes of `token` and `options`.
    ///
    /// # Errors
    ///
    /// `OtherVersion` or `LongToken`, after the rejected bits have been read.
    /// `Reader(OutOfMemory)` if an allocation for a list fails. The items before the failure
    /// have been read.
    /// Otherwise the reader's errors, after which it has failed.
    pub fn read<R: BitRead>(
        reader: &mut R,
        alloc: Global,
        options_bytes: u64,
    ) -> Result<CoapMessage, CoapMessageError>
        ensures { GrowsOwn R.source becomes_coap_message (coap_message_decoder R.source.order options_bytes) reader.old result reader.new }
    {
        reader.read_const::<Bits<2>, Bits<1>, CoapMessageError>(CoapMessageError::OtherVersion)?;
        let kind = Message::read(reader)?;
        let token_count = reader.read::<Bits<4>, u64>()?;
        let is_token_count = token_count <= 8;
        if !is_token_count {
            return Err(CoapMessageError::LongToken);
        }
        let class = reader.read::<Bits<3>, u8>()?;
        let detail = reader.read::<Bits<5>, u8>()?;
        let id = reader.read::<Bits<16>, u16>()?;
        let token = reader.read_to_vec(alloc, token_count as usize)?;
        let options = reader.read_to_vec(alloc, rest_after(options_bytes, &token) as usize)?;
        Ok(CoapMessage {
            kind,
            class,
            detail,
            id,
            token,
            options,
        })
    }

    /// Parses `packet`, whose last bytes are `options`.
    ///
    /// # Errors
    ///
    /// `OtherVersion` or `LongToken` if bits are rejected.
    /// `Reader(EndOfInput)` if the bytes end before the fields do.
    /// `Reader(OutOfMemory)` if the allocation for an item of a list fails.
    pub fn parse(packet: &[u8], alloc: Global) -> Result<CoapMessage, CoapMessageError>
        ensures answer { (OwnAnswer becomes_coap_message (λ answer. answer)
            (sure_answer ((coap_message_decoder High (length packet.now - 4)).reads 0 (bits High packet.now))) result)
            ⊎ ((result ≡ Err (CoapMessageError.Reader OutOfMemory))
            × MayAllocate (coap_message_decoder High (length packet.now - 4)) 0 (bits High packet.now)) }
        ensures back { (value : CoapMessage) → Fits value
            → bits High packet.now ≡ write_sequence (coap_message_writes High value) 0
            → (result ≡ Ok value)
            ⊎ (result ≡ Err (CoapMessageError.Reader OutOfMemory)) }
    {
        coap_message_round_trip();
        let options_bytes = rest_of(packet, 4);
        CoapMessage::read(&mut BitReader::<_, BE>::over(packet), alloc, options_bytes)
    }

    /// Writes the fields in order.
    ///
    /// # Errors
    ///
    /// `Checked` for a field that does not fit its bits, or is above its greatest value. The fields before it have been written.
    /// Otherwise the sink's errors.
    pub fn write<W: BitWrite>(&self, writer: &mut W) -> Result<(), Error>
        ensures { WritesAll W.sink (coap_message_writes W.sink.order self.now) writer.old result writer.new }
    {
        writer.write_const::<Bits<2>, Bits<1>>()?;
        writer.write::<Bits<2>, u8>(self.kind.number())?;
        write_token_count(writer, self.token.len() as u64)?;
        writer.write::<Bits<3>, u8>(self.class)?;
        writer.write::<Bits<5>, u8>(self.detail)?;
        writer.write::<Bits<16>, u16>(self.id)?;
        writer.write_bytes(&self.token)?;
        writer.write_bytes(&self.options)?;
        Ok(())
    }

    /// Writes the fields to the first bytes of a buffer, and returns what was written. The other bytes
    /// stay as they were. Does not allocate.
    ///
    /// # Errors
    ///
    /// `Checked` for the first field that does not fit its bits, however long the buffer is.
    /// `Stream(WriteZero)` if all fields fit, and the buffer is too short for the bits.
    /// After an error, the first bytes of the buffer may have changed.
    pub fn pack_into<'a>(&self, buffer: &'a mut [u8]) -> Result<SliceMut<'a>, Error>
        ensures packed { IfOk result (λ packed. bits High (written_bytes packed) ≡ coap_message_bits self.now) }
        ensures first { IfOk result (HoldsFirst buffer.entry.ghost_name buffer.old) }
        ensures accepted { IsOk result → AllAccepted (coap_message_writes High self.now) 0 }
        ensures misfit { (error : Error) → sequence_length (coap_message_writes High self.now) 0 ≡ Err error
            → result ≡ Err error }
        ensures room { Fits self.now → coap_message_size High self.now ≤ 8 * length buffer.old
            → IsOk result }
        ensures short { Fits self.now → 8 * length buffer.old < coap_message_size High self.now
            → result ≡ Err (Stream WriteZero) }
    {
        pack_into::<BE, CoapMessage>(self, buffer)
    }
}

impl ToBitStream for CoapMessage {
    type Error = Error;

    ghost becomes = { same_error };

    ghost writes = { coap_message_writes };

    fn to_writer<W: BitWrite>(&self, writer: &mut W) -> Result<(), Error> {
        self.write(writer)
    }
}

/// A value that fits its bits is read back as it was written, in either order of bits, at any place.
/// The read takes only the bits that were written: `coap_message_size` is their number.
pub fn coap_message_round_trip()
    ensures back { (o : Order) (value : CoapMessage) (at from : ℕ) (more : List Bool) → Fits value
        → let written = write_sequence (coap_message_writes o value) at in
        (coap_message_decoder o (length value.token + length value.options)).reads from (written ++ more) ≡ Done (length written) (Ok (Ok value)) }
    ensures size { (o : Order) (value : CoapMessage) (at : ℕ) → Fits value
        → length (write_sequence (coap_message_writes o value) at) ≡ coap_message_size o value }
{}
