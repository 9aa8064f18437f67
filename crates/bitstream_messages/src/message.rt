//! A message of one of four kinds.
//!
//! Made by `./format` from formats/message.fields: edit that file and make this one anew.
ghost use Rattle.bitstream_messages.specs.Message.{message_decoder, message_writes, message_size, message_bits, Fits, becomes_message, body_number, body_read, body_writes, mark_error};
ghost use Rattle.bitstream_messages.specs.declared.message.Message.{Message};
ghost use Rattle.bitstream_messages.specs.declared.message.MessageError.{MessageError};
ghost use Rattle.bitstream_messages.specs.declared.message.MessageError.TheVariants.{Reader};
ghost use Rattle.std.specs.Prelude.{◌≡◌, ◌<◌, ◌≤◌, ◌*◌, ◌++◌, ◌⊎◌, ℕ, Bool, true, List, Ok, Err, length, IfOk, IsOk};
ghost use Rattle.std.specs.declared.io.ErrorKind.TheVariants.{WriteZero};
ghost use Rattle.bitstream_io.specs.Callers.{Done, Error, Order, High, bits, write_sequence, OwnAnswer, WritesAll, AllAccepted, sequence_length, sure_answer, GrowsOwn, MayAllocate, OutOfMemory, Stream, same_error};
ghost use Rattle.bitstream_io.specs.SliceMut.{HoldsFirst, written_bytes};

use crate::ack::Ack;
use crate::mark::{Mark, MarkError};
use crate::notes::Notes;
use bitstream_io::{
    BE, BitRead, BitReadExt, BitReader, BitWrite, BitWriteExt, Bits, Error, FromBitStreamUsing,
    SliceMut, ToBitStream, pack_into,
};
use std::alloc::Global;
use std::marker::Model;

/// A message of one of four kinds.
///
/// ```text
///  0                   1                   2                   3
///  0 1 2 3 4 5 6 7 8 9 0 1 2 3 4 5 6 7 8 9 0 1 2 3 4 5 6 7 8 9 0 1
/// +-+-+-+-+-+-+-+-+
/// |version|body_ta|
/// +-+-+-+-+-+-+-+-+-+-+-+-+-+-+-+-+-+-+-+-+-+-+-+-+-+-+-+-+-+-+-+-+
/// /                body (Ack, First, Stop or Mark)                /
/// +-+-+-+-+-+-+-+-+-+-+-+-+-+-+-+-+-+-+-+-+-+-+-+-+-+-+-+-+-+-+-+-+
/// |c|      0      |
/// +-+-+-+-+-+-+-+-+
/// ```
#[derive(Debug, Drop)]
pub struct Message {
    /// The version. Below 2^4.
    pub version: u8,
    /// The body.
    pub body: Body,
    /// True if it was checked.
    pub checked: bool,
}

impl Model for Message {
    ghost use Rattle.bitstream_messages.specs.MessageFields.{MessageFields};

    ghost Value = { MessageFields };

    ghost view = { λ value. record {
      version = value.version;
      body = value.body;
      checked = value.checked;
    } };
}

/// The errors of reading a `Message`.
#[derive(Debug, Drop, thiserror::Error)]
pub enum MessageError {
    /// An error of the reader.
    #[error("{0}")]
    Reader(Error),
    /// `Body` has no case for the number before `body`.
    #[error("`Body` has no case for the number before `body`")]
    NoBody,
    /// An error of a `Mark` that is not the reader's.
    #[error("in a `Mark`: {0}")]
    InMark(MarkError),
}

impl From<Error> for MessageError {
    ghost from_gives = { becomes_message };

    fn from(error: Error) -> MessageError {
        MessageError::Reader(error)
    }
}

impl From<MarkError> for MessageError {
    ghost from_gives = { λ error own. own ≡ mark_error error };

    fn from(error: MarkError) -> MessageError {
        match error {
            MarkError::Reader(error) => MessageError::Reader(error),
            MarkError::NoMark => MessageError::InMark(MarkError::NoMark),
        }
    }
}

/// The body.
#[derive(Debug, Drop)]
pub enum Body {
    /// The case for the number 1.
    Ack(Ack),
    /// The case for the number 2.
    First(Notes),
    /// The case for the number 3.
    Stop,
    /// The case for the number 4.
    Mark(Mark),
}

impl Body {
    /// Returns the number of the case.
    pub fn number(&self) -> u8
        ensures { result ≡ body_number self.now }
    {
        match self {
            Body::Ack(_) => 1,
            Body::First(_) => 2,
            Body::Stop => 3,
            Body::Mark(_) => 4,
        }
    }

    /// Reads what follows the number of a case.
    ///
    /// # Errors
    ///
    /// `NoBody` if no case has the number, before anything is read.
    /// `InMark` if a `Mark` is rejected.
    /// Otherwise the reader's errors, after which it has failed.
    pub fn read<R: BitRead>(reader: &mut R, alloc: Global, number: u8) -> Result<Body, MessageError>
        ensures { GrowsOwn R.source becomes_message (body_read R.source.order number) reader.old result reader.new }
    {
        if number == 1 {
            return Ok(Body::Ack(Ack::read(reader)?));
        }
        if number == 2 {
            return Ok(Body::First(Notes::read(reader, alloc)?));
        }
        if number == 3 {
            return Ok(Body::Stop);
        }
        if number == 4 {
            return Ok(Body::Mark(Mark::read(reader)?));
        }
        Err(MessageError::NoBody)
    }

    /// Writes what follows the number of the case.
    ///
    /// # Errors
    ///
    /// `Checked` for a field that does not fit its bits. The fields before it have been written.
    /// Otherwise the sink's errors.
    pub fn write<W: BitWrite>(&self, writer: &mut W) -> Result<(), Error>
        ensures { WritesAll W.sink (body_writes W.sink.order self.now) writer.old result writer.new }
    {
        match self {
            Body::Ack(it) => it.write(writer),
            Body::First(it) => it.write(writer),
            Body::Stop => Ok(()),
            Body::Mark(it) => it.write(writer),
        }
    }
}

impl Message {
    /// Reads the fields in order.
    ///
    /// # Errors
    ///
    /// `NoBody` or `InMark`, after the rejected bits have been read.
    /// `Reader(OutOfMemory)` if an allocation for a list fails. The items before the failure
    /// have been read.
    /// Otherwise the reader's errors, after which it has failed.
    pub fn read<R: BitRead>(reader: &mut R, alloc: Global) -> Result<Message, MessageError>
        ensures { GrowsOwn R.source becomes_message (message_decoder R.source.order) reader.old result reader.new }
    {
        let version = reader.read::<Bits<4>, u8>()?;
        let body_tag = reader.read::<Bits<4>, u8>()?;
        let body = Body::read(reader, alloc, body_tag)?;
        let checked = reader.read_bit()?;
        reader.skip(7)?;
        Ok(Message {
            version,
            body,
            checked,
        })
    }

    /// Parses the value at the start of `packet`.
    ///
    /// # Errors
    ///
    /// `NoBody` or `InMark` if bits are rejected.
    /// `Reader(EndOfInput)` if the bytes end before the fields do.
    /// `Reader(OutOfMemory)` if the allocation for an item of a list fails.
    pub fn parse(packet: &[u8], alloc: Global) -> Result<Message, MessageError>
        ensures answer { (OwnAnswer becomes_message (λ answer. answer)
            (sure_answer ((message_decoder High).reads 0 (bits High packet.now))) result)
            ⊎ ((result ≡ Err (MessageError.Reader OutOfMemory))
            × MayAllocate (message_decoder High) 0 (bits High packet.now)) }
        ensures back { (value : Message) (more : List Bool) → Fits value
            → bits High packet.now ≡ write_sequence (message_writes High value) 0 ++ more
            → (result ≡ Ok value)
            ⊎ (result ≡ Err (MessageError.Reader OutOfMemory)) }
    {
        message_round_trip();
        Message::read(&mut BitReader::<_, BE>::over(packet), alloc)
    }

    /// Writes the fields in order.
    ///
    /// # Errors
    ///
    /// `Checked` for a field that does not fit its bits. The fields before it have been written.
    /// Otherwise the sink's errors.
    pub fn write<W: BitWrite>(&self, writer: &mut W) -> Result<(), Error>
        ensures { WritesAll W.sink (message_writes W.sink.order self.now) writer.old result writer.new }
    {
        writer.write::<Bits<4>, u8>(self.version)?;
        writer.write::<Bits<4>, u8>(self.body.number())?;
        self.body.write(writer)?;
        writer.write_bit(self.checked)?;
        writer.pad(7)?;
        Ok(())
    }

    /// Writes the fields to the first bytes of a buffer, and returns what was written. The other bytes
    /// stay as they were. Does not allocate.
    ///
    /// # Errors
    ///
    /// `Checked` for the first field that does not fit its bits, however long the buffer is.
    /// `Stream(WriteZero)` if all fields fit, and the buffer is too short for the bits.
    /// After an error, the first bytes of the buffer may have changed.
    pub fn pack_into<'a>(&self, buffer: &'a mut [u8]) -> Result<SliceMut<'a>, Error>
        ensures packed { IfOk result (λ packed. bits High (written_bytes packed) ≡ message_bits self.now) }
        ensures first { IfOk result (HoldsFirst buffer.entry.ghost_name buffer.old) }
        ensures accepted { IsOk result → AllAccepted (message_writes High self.now) 0 }
        ensures misfit { (error : Error) → sequence_length (message_writes High self.now) 0 ≡ Err error
            → result ≡ Err error }
        ensures room { Fits self.now → message_size High self.now ≤ 8 * length buffer.old
            → IsOk result }
        ensures short { Fits self.now → 8 * length buffer.old < message_size High self.now
            → result ≡ Err (Stream WriteZero) }
    {
        pack_into::<BE, Message>(self, buffer)
    }
}

impl FromBitStreamUsing for Message {
    type Context = Global;

    type Error = MessageError;

    ghost grows = { true };

    ghost becomes = { becomes_message };

    ghost reads = { λ o _. message_decoder o };

    fn from_reader<R: BitRead>(reader: &mut R, alloc: Global) -> Result<Message, MessageError> {
        Message::read(reader, alloc)
    }
}

impl ToBitStream for Message {
    type Error = Error;

    ghost becomes = { same_error };

    ghost writes = { message_writes };

    fn to_writer<W: BitWrite>(&self, writer: &mut W) -> Result<(), Error> {
        self.write(writer)
    }
}

/// A value that fits its bits is read back as it was written, in either order of bits, at any place.
/// The read takes only the bits that were written: `message_size` is their number.
pub fn message_round_trip()
    ensures back { (o : Order) (value : Message) (at from : ℕ) (more : List Bool) → Fits value
        → let written = write_sequence (message_writes o value) at in
        (message_decoder o).reads from (written ++ more) ≡ Done (length written) (Ok (Ok value)) }
    ensures size { (o : Order) (value : Message) (at : ℕ) → Fits value
        → length (write_sequence (message_writes o value) at) ≡ message_size o value }
{}
