//! A message after its kind and its size, and another message after its size.
//!
//! Made by `./format` from formats/frame.fields: edit that file and make this one anew.
ghost use Rattle.bitstream_messages.specs.Frame.{frame_decoder, frame_writes, frame_size, frame_bits, Fits, becomes_frame, content_number, content_read, content_writes, body_sized, body_ended, message_sized, message_ended, message_error, message_here};
ghost use Rattle.bitstream_format.specs.Within.{within, UnlessMemory};
ghost use Rattle.bitstream_messages.specs.declared.frame.Frame.{Frame};
ghost use Rattle.bitstream_messages.specs.declared.frame.FrameError.{FrameError};
ghost use Rattle.bitstream_messages.specs.declared.frame.FrameError.TheVariants.{Reader, OtherBody, OtherMessage};
ghost use Rattle.std.specs.Prelude.{◌≡◌, ◌<◌, ◌≤◌, ◌*◌, ◌++◌, ◌⊎◌, ℕ, Bool, List, Ok, Err, length, IfOk, IsOk};
ghost use Rattle.std.specs.declared.io.ErrorKind.TheVariants.{WriteZero};
ghost use Rattle.bitstream_io.specs.Callers.{Done, Error, Order, High, bits, write_sequence, OwnAnswer, WritesAll, AllAccepted, sequence_length, sure_answer, GrowsOwn, MayAllocate, OutOfMemory, Stream, same_error};
ghost use Rattle.bitstream_io.specs.SliceMut.{HoldsFirst, written_bytes};

use crate::ack::Ack;
use crate::message::{Message, MessageError};
use crate::notes::Notes;
use bitstream_format::within::{is_end, write_size};
use bitstream_io::{
    BE, BitRead, BitReadExt, BitReader, BitWrite, BitWriteExt, Bits, Error, SliceMut, SliceReader,
    ToBitStream, pack_into,
};
use std::alloc::Global;
use std::marker::Model;

/// A message after its kind and its size, and another message after its size.
///
/// ```text
///  0                   1                   2                   3
///  0 1 2 3 4 5 6 7 8 9 0 1 2 3 4 5 6 7 8 9 0 1 2 3 4 5 6 7 8 9 0 1
/// +-+-+-+-+-+-+-+-+-+-+-+-+-+-+-+-+-+-+-+-+-+-+-+-+
/// |    body_tag   |   body_bytes  | message_bytes |
/// +-+-+-+-+-+-+-+-+-+-+-+-+-+-+-+-+-+-+-+-+-+-+-+-+-+-+-+-+-+-+-+-+
/// /                   body (Ack, Notes or Empty)                  /
/// +-+-+-+-+-+-+-+-+-+-+-+-+-+-+-+-+-+-+-+-+-+-+-+-+-+-+-+-+-+-+-+-+
/// /           message (Message, of message_bytes bytes)           /
/// +-+-+-+-+-+-+-+-+-+-+-+-+-+-+-+-+-+-+-+-+-+-+-+-+-+-+-+-+-+-+-+-+
/// ```
#[derive(Debug, Drop)]
pub struct Frame {
    /// The first one.
    pub body: Content,
    /// The second one.
    pub message: Message,
}

impl Model for Frame {
    ghost use Rattle.bitstream_messages.specs.FrameFields.{FrameFields};

    ghost Value = { FrameFields };

    ghost view = { λ value. record {
      body = value.body;
      message = value.message;
    } };
}

/// The errors of reading a `Frame`.
#[derive(Debug, Drop, thiserror::Error)]
pub enum FrameError {
    /// An error of the reader.
    #[error("{0}")]
    Reader(Error),
    /// `Content` has no case for the number before `body`.
    #[error("`Content` has no case for the number before `body`")]
    NoContent,
    /// `body` does not fill the bytes that its size states.
    #[error("`body` does not fill the bytes that its size states")]
    OtherBody,
    /// `message` does not fill the bytes that its size states.
    #[error("`message` does not fill the bytes that its size states")]
    OtherMessage,
    /// An error of a `Message` that is not the reader's.
    #[error("in a `Message`: {0}")]
    InMessage(MessageError),
}

impl From<Error> for FrameError {
    ghost from_gives = { becomes_frame };

    fn from(error: Error) -> FrameError {
        FrameError::Reader(error)
    }
}

/// The first one.
#[derive(Debug, Drop)]
pub enum Content {
    /// The case for the number 1.
    Ack(Ack),
    /// The case for the number 2.
    Notes(Notes),
    /// The case for the number 3.
    Empty,
}

impl Content {
    /// Returns the number of the case.
    pub fn number(&self) -> u8
        ensures { result ≡ content_number self.now }
    {
        match self {
            Content::Ack(_) => 1,
            Content::Notes(_) => 2,
            Content::Empty => 3,
        }
    }

    /// Reads what follows the number of a case.
    ///
    /// # Errors
    ///
    /// `NoContent` if no case has the number, before anything is read.
    /// Otherwise the reader's errors, after which it has failed.
    pub fn read<R: BitRead>(
        reader: &mut R,
        alloc: Global,
        number: u8,
    ) -> Result<Content, FrameError>
        ensures { GrowsOwn R.source becomes_frame (content_read R.source.order number) reader.old result reader.new }
    {
        if number == 1 {
            return Ok(Content::Ack(Ack::read(reader)?));
        }
        if number == 2 {
            return Ok(Content::Notes(Notes::read(reader, alloc)?));
        }
        if number == 3 {
            return Ok(Content::Empty);
        }
        Err(FrameError::NoContent)
    }

    /// Writes what follows the number of the case.
    ///
    /// # Errors
    ///
    /// `Checked` for a field that does not fit its bits. The fields before it have been written.
    /// Otherwise the sink's errors.
    pub fn write<W: BitWrite>(&self, writer: &mut W) -> Result<(), Error>
        ensures { WritesAll W.sink (content_writes W.sink.order self.now) writer.old result writer.new }
    {
        match self {
            Content::Ack(it) => it.write(writer),
            Content::Notes(it) => it.write(writer),
            Content::Empty => Ok(()),
        }
    }
}

impl ToBitStream for Content {
    type Error = Error;

    ghost becomes = { same_error };

    ghost writes = { content_writes };

    fn to_writer<W: BitWrite>(&self, writer: &mut W) -> Result<(), Error> {
        self.write(writer)
    }
}

/// Maps an error inside the bytes of `body`: the end of these bytes becomes `OtherBody`.
fn body_ended(error: FrameError) -> FrameError
    ensures { result ≡ body_ended error }
{
    match error {
        FrameError::Reader(error) => {
            if is_end(&error) {
                return FrameError::OtherBody;
            }
            FrameError::Reader(error)
        }
        FrameError::NoContent => FrameError::NoContent,
        FrameError::OtherBody => FrameError::OtherBody,
        FrameError::OtherMessage => FrameError::OtherMessage,
        FrameError::InMessage(error) => FrameError::InMessage(error),
    }
}

/// Parses these bytes as `body`.
///
/// # Errors
///
/// `OtherBody` if `body` does not fill the bytes. Otherwise the errors of `body`.
fn body_in(bytes: &[u8], alloc: Global, number: u8) -> Result<Content, FrameError>
    ensures { UnlessMemory (λ error. Reader error)
        (within (content_read High number) OtherBody (λ error. Reader error) body_ended (bits High bytes.now)) result }
{
    let mut inside = SliceReader::<BE>::over(bytes);
    match Content::read(&mut inside, alloc, number) {
        Ok(found) => {
            if inside.is_at_end() {
                return Ok(found);
            }
            Err(FrameError::OtherBody)
        }
        Err(error) => Err(body_ended(error)),
    }
}

/// Reads `body`, which has `size` bytes. No bit after them is read.
fn read_body<R: BitRead>(
    reader: &mut R,
    alloc: Global,
    number: u8,
    size: u64,
) -> Result<Content, FrameError>
    requires { R.source.order ≡ High }
    ensures { GrowsOwn R.source becomes_frame (body_sized R.source.order number size)
        reader.old result reader.new }
{
    let bytes = reader.read_to_vec(alloc, size as usize)?;
    body_in(&bytes, alloc, number)
}

impl From<MessageError> for FrameError {
    ghost from_gives = { λ error own. own ≡ message_error error };

    fn from(error: MessageError) -> FrameError {
        match error {
            MessageError::Reader(error) => FrameError::Reader(error),
            MessageError::NoBody => FrameError::InMessage(MessageError::NoBody),
            MessageError::InMark(error) => FrameError::InMessage(MessageError::InMark(error)),
        }
    }
}

/// Maps an error inside the bytes of `message`: the end of these bytes becomes `OtherMessage`.
fn message_ended(error: FrameError) -> FrameError
    ensures { result ≡ message_ended error }
{
    match error {
        FrameError::Reader(error) => {
            if is_end(&error) {
                return FrameError::OtherMessage;
            }
            FrameError::Reader(error)
        }
        FrameError::NoContent => FrameError::NoContent,
        FrameError::OtherBody => FrameError::OtherBody,
        FrameError::OtherMessage => FrameError::OtherMessage,
        FrameError::InMessage(error) => FrameError::InMessage(error),
    }
}

/// Parses these bytes as `message`.
///
/// # Errors
///
/// `OtherMessage` if `message` does not fill the bytes. Otherwise the errors of `message`.
fn message_in(bytes: &[u8], alloc: Global) -> Result<Message, FrameError>
    ensures { UnlessMemory (λ error. Reader error)
        (within (message_here High) OtherMessage (λ error. Reader error) message_ended (bits High bytes.now)) result }
{
    let mut inside = SliceReader::<BE>::over(bytes);
    match Message::read(&mut inside, alloc) {
        Ok(found) => {
            if inside.is_at_end() {
                return Ok(found);
            }
            Err(FrameError::OtherMessage)
        }
        Err(error) => Err(message_ended(FrameError::from(error))),
    }
}

/// Reads `message`, which has `size` bytes. No bit after them is read.
fn read_message<R: BitRead>(reader: &mut R, alloc: Global, size: u64) -> Result<Message, FrameError>
    requires { R.source.order ≡ High }
    ensures { GrowsOwn R.source becomes_frame (message_sized R.source.order size)
        reader.old result reader.new }
{
    let bytes = reader.read_to_vec(alloc, size as usize)?;
    message_in(&bytes, alloc)
}

impl Frame {
    /// Reads the fields in order.
    ///
    /// # Errors
    ///
    /// `NoContent`, `OtherBody`, `OtherMessage` or `InMessage`, after the rejected bits have been read.
    /// `Reader(OutOfMemory)` if an allocation for a list fails. The items before the failure
    /// have been read.
    /// Otherwise the reader's errors, after which it has failed.
    pub fn read<R: BitRead>(reader: &mut R, alloc: Global) -> Result<Frame, FrameError>
        requires { R.source.order ≡ High }
        ensures { GrowsOwn R.source becomes_frame (frame_decoder R.source.order) reader.old result reader.new }
    {
        let body_tag = reader.read::<Bits<8>, u8>()?;
        let body_bytes = reader.read::<Bits<8>, u64>()?;
        let message_bytes = reader.read::<Bits<8>, u64>()?;
        let body = read_body(reader, alloc, body_tag, body_bytes)?;
        let message = read_message(reader, alloc, message_bytes)?;
        Ok(Frame { body, message })
    }

    /// Parses the value at the start of `packet`.
    ///
    /// # Errors
    ///
    /// `NoContent`, `OtherBody`, `OtherMessage` or `InMessage` if bits are rejected.
    /// `Reader(EndOfInput)` if the bytes end before the fields do.
    /// `Reader(OutOfMemory)` if the allocation for an item of a list fails.
    pub fn parse(packet: &[u8], alloc: Global) -> Result<Frame, FrameError>
        ensures answer { (OwnAnswer becomes_frame (λ answer. answer)
            (sure_answer ((frame_decoder High).reads 0 (bits High packet.now))) result)
            ⊎ ((result ≡ Err (FrameError.Reader OutOfMemory))
            × MayAllocate (frame_decoder High) 0 (bits High packet.now)) }
        ensures back { (value : Frame) (more : List Bool) → Fits value
            → bits High packet.now ≡ write_sequence (frame_writes High value) 0 ++ more
            → (result ≡ Ok value)
            ⊎ (result ≡ Err (FrameError.Reader OutOfMemory)) }
    {
        frame_round_trip();
        Frame::read(&mut BitReader::<_, BE>::over(packet), alloc)
    }

    /// Writes the fields in order.
    ///
    /// # Errors
    ///
    /// `Checked` for a field that does not fit its bits. The fields before it have been written.
    /// Otherwise the sink's errors.
    pub fn write<W: BitWrite>(&self, writer: &mut W) -> Result<(), Error>
        ensures { WritesAll W.sink (frame_writes W.sink.order self.now) writer.old result writer.new }
    {
        writer.write::<Bits<8>, u8>(self.body.number())?;
        write_size(writer, 8, self.body.bits::<u64>())?;
        write_size(writer, 8, self.message.bits::<u64>())?;
        self.body.write(writer)?;
        self.message.write(writer)?;
        Ok(())
    }

    /// Writes the fields to the first bytes of a buffer, and returns what was written. The other bytes
    /// stay as they were. Does not allocate.
    ///
    /// # Errors
    ///
    /// `Checked` for the first field that does not fit its bits, however long the buffer is.
    /// `Stream(WriteZero)` if all fields fit, and the buffer is too short for the bits.
    /// After an error, the first bytes of the buffer may have changed.
    pub fn pack_into<'a>(&self, buffer: &'a mut [u8]) -> Result<SliceMut<'a>, Error>
        ensures packed { IfOk result (λ packed. bits High (written_bytes packed) ≡ frame_bits self.now) }
        ensures first { IfOk result (HoldsFirst buffer.entry.ghost_name buffer.old) }
        ensures accepted { IsOk result → AllAccepted (frame_writes High self.now) 0 }
        ensures misfit { (error : Error) → sequence_length (frame_writes High self.now) 0 ≡ Err error
            → result ≡ Err error }
        ensures room { Fits self.now → frame_size High self.now ≤ 8 * length buffer.old
            → IsOk result }
        ensures short { Fits self.now → 8 * length buffer.old < frame_size High self.now
            → result ≡ Err (Stream WriteZero) }
    {
        pack_into::<BE, Frame>(self, buffer)
    }
}

impl ToBitStream for Frame {
    type Error = Error;

    ghost becomes = { same_error };

    ghost writes = { frame_writes };

    fn to_writer<W: BitWrite>(&self, writer: &mut W) -> Result<(), Error> {
        self.write(writer)
    }
}

/// A value that fits its bits is read back as it was written, in either order of bits, at any place.
/// The read takes only the bits that were written: `frame_size` is their number.
pub fn frame_round_trip()
    ensures back { (o : Order) (value : Frame) (at from : ℕ) (more : List Bool) → Fits value
        → let written = write_sequence (frame_writes o value) at in
        (frame_decoder o).reads from (written ++ more) ≡ Done (length written) (Ok (Ok value)) }
    ensures size { (o : Order) (value : Frame) (at : ℕ) → Fits value
        → length (write_sequence (frame_writes o value) at) ≡ frame_size o value }
{}
