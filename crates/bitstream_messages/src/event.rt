//! An event, whose kind is a field.
//!
//! Made by `./format` from formats/event.fields: edit that file and make this one anew.
ghost use Rattle.bitstream_messages.specs.Event.{event_decoder, event_writes, event_size, event_bits, Fits, becomes_event, kind_of, kind_number, kind_read, what_number, what_read, what_writes, mark_error};
ghost use Rattle.bitstream_messages.specs.declared.event.Event.{Event};
ghost use Rattle.std.specs.Prelude.{◌≡◌, ◌<◌, ◌≤◌, ◌*◌, ◌++◌, ℕ, Bool, List, Ok, Err, length, IfOk, IsOk};
ghost use Rattle.std.specs.declared.io.ErrorKind.TheVariants.{WriteZero};
ghost use Rattle.bitstream_io.specs.Callers.{Done, Error, Order, High, bits, write_sequence, ReadsOwn, OwnAnswer, WritesAll, AllAccepted, sequence_length, sure_answer, Stream, same_error};
ghost use Rattle.bitstream_io.specs.SliceMut.{HoldsFirst, written_bytes};

use crate::ack::Ack;
use crate::mark::{Mark, MarkError};
use bitstream_io::{
    BE, BitRead, BitReadExt, BitReader, BitWrite, BitWriteExt, Bits, Error, FromBitStream,
    SliceMut, ToBitStream, pack_into,
};

/// An event, whose kind is a field.
///
/// ```text
///  0                   1                   2                   3
///  0 1 2 3 4 5 6 7 8 9 0 1 2 3 4 5 6 7 8 9 0 1 2 3 4 5 6 7 8 9 0 1
/// +-+-+-+-+-+-+-+-+
/// |      kind     |
/// +-+-+-+-+-+-+-+-+-+-+-+-+-+-+-+-+-+-+-+-+-+-+-+-+-+-+-+-+-+-+-+-+
/// /                 what (Marked, Acked or Plain)                 /
/// +-+-+-+-+-+-+-+-+-+-+-+-+-+-+-+-+-+-+-+-+-+-+-+-+-+-+-+-+-+-+-+-+
/// ```
#[derive(Clone, Copy, Debug, PartialEq)]
pub struct Event {
    /// The kind of the event.
    pub kind: Kind,
    /// The content of the event.
    pub what: What,
}

/// The errors of reading an `Event`.
#[derive(Debug, Drop, thiserror::Error)]
pub enum EventError {
    /// An error of the reader.
    #[error("{0}")]
    Reader(Error),
    /// `kind` is not the number of a case of `Kind`.
    #[error("`kind` is not the number of a case of `Kind`")]
    NoKind,
    /// `What` has no case for `kind`.
    #[error("`What` has no case for `kind`")]
    NoWhat,
    /// An error of a `Mark` that is not the reader's.
    #[error("in a `Mark`: {0}")]
    InMark(MarkError),
}

impl From<Error> for EventError {
    ghost from_gives = { becomes_event };

    fn from(error: Error) -> EventError {
        EventError::Reader(error)
    }
}

/// The kind of the event.
#[derive(Clone, Copy, Debug, PartialEq)]
pub enum Kind {
    /// Encoded as 0.
    Marked,
    /// Encoded as 1.
    Acked,
    /// Encoded as 2.
    Plain,
}

impl Kind {
    /// Decodes a number.
    pub fn of(number: u8) -> Result<Kind, EventError>
        ensures { result ≡ kind_of number }
    {
        if number == 0 {
            return Ok(Kind::Marked);
        }
        if number == 1 {
            return Ok(Kind::Acked);
        }
        if number == 2 {
            return Ok(Kind::Plain);
        }
        Err(EventError::NoKind)
    }

    /// Returns the number of the case.
    pub fn number(self) -> u8
        ensures { result ≡ kind_number self }
    {
        match self {
            Kind::Marked => 0,
            Kind::Acked => 1,
            Kind::Plain => 2,
        }
    }

    /// Reads a number of 8 bits, and decodes it.
    pub fn read<R: BitRead>(reader: &mut R) -> Result<Kind, EventError>
        ensures { ReadsOwn R.source becomes_event (kind_read R.source.order) reader.old result reader.new }
    {
        let number = reader.read::<Bits<8>, u8>()?;
        Kind::of(number)
    }
}

impl From<MarkError> for EventError {
    ghost from_gives = { λ error own. own ≡ mark_error error };

    fn from(error: MarkError) -> EventError {
        match error {
            MarkError::Reader(error) => EventError::Reader(error),
            MarkError::NoMark => EventError::InMark(MarkError::NoMark),
        }
    }
}

/// The content of the event.
#[derive(Clone, Copy, Debug, PartialEq)]
pub enum What {
    /// The case for the number 0.
    Marked(Mark),
    /// The case for the number 1.
    Acked(Ack),
    /// The case for the number 2.
    Plain,
}

impl What {
    /// Returns the number of the case.
    pub fn number(&self) -> u8
        ensures { result ≡ what_number self.now }
    {
        match self {
            What::Marked(_) => 0,
            What::Acked(_) => 1,
            What::Plain => 2,
        }
    }

    /// Reads what follows the number of a case.
    ///
    /// # Errors
    ///
    /// `NoWhat` if no case has the number, before anything is read.
    /// `InMark` if a `Mark` is rejected.
    /// Otherwise the reader's errors, after which it has failed.
    pub fn read<R: BitRead>(reader: &mut R, number: u8) -> Result<What, EventError>
        ensures { ReadsOwn R.source becomes_event (what_read R.source.order number) reader.old result reader.new }
    {
        if number == 0 {
            return Ok(What::Marked(Mark::read(reader)?));
        }
        if number == 1 {
            return Ok(What::Acked(Ack::read(reader)?));
        }
        if number == 2 {
            return Ok(What::Plain);
        }
        Err(EventError::NoWhat)
    }

    /// Writes what follows the number of the case.
    ///
    /// # Errors
    ///
    /// `Checked` for a field that does not fit its bits. The fields before it have been written.
    /// Otherwise the sink's errors.
    pub fn write<W: BitWrite>(&self, writer: &mut W) -> Result<(), Error>
        ensures { WritesAll W.sink (what_writes W.sink.order self.now) writer.old result writer.new }
    {
        match self {
            What::Marked(it) => it.write(writer),
            What::Acked(it) => it.write(writer),
            What::Plain => Ok(()),
        }
    }
}

impl Event {
    /// The number of bits before each line of the description.
    pub const PLACES: [u64; 2] = [0, 8];

    /// Reads the fields in order.
    ///
    /// # Errors
    ///
    /// `NoKind`, `NoWhat` or `InMark`, after the rejected bits have been read.
    /// Otherwise the reader's errors, after which it has failed.
    pub fn read<R: BitRead>(reader: &mut R) -> Result<Event, EventError>
        ensures { ReadsOwn R.source becomes_event (event_decoder R.source.order) reader.old result reader.new }
    {
        let kind = Kind::read(reader)?;
        let what = What::read(reader, kind.number())?;
        Ok(Event { kind, what })
    }

    /// Parses the value at the start of `packet`.
    ///
    /// # Errors
    ///
    /// `NoKind`, `NoWhat` or `InMark` if bits are rejected.
    /// `Reader(EndOfInput)` if the bytes end before the fields do.
    pub fn parse(packet: &[u8]) -> Result<Event, EventError>
        ensures answer { OwnAnswer becomes_event (λ answer. answer)
            (sure_answer ((event_decoder High).reads 0 (bits High packet.now))) result }
        ensures back { (value : Event) (more : List Bool) → Fits value
            → bits High packet.now ≡ write_sequence (event_writes High value) 0 ++ more → result ≡ Ok value }
    {
        event_round_trip();
        Event::read(&mut BitReader::<_, BE>::over(packet))
    }

    /// Writes the fields in order.
    ///
    /// # Errors
    ///
    /// `Checked` for a field that does not fit its bits. The fields before it have been written.
    /// Otherwise the sink's errors.
    pub fn write<W: BitWrite>(&self, writer: &mut W) -> Result<(), Error>
        ensures { WritesAll W.sink (event_writes W.sink.order self.now) writer.old result writer.new }
    {
        writer.write::<Bits<8>, u8>(self.kind.number())?;
        self.what.write(writer)?;
        Ok(())
    }

    /// Writes the fields to the first bytes of a buffer, and returns what was written. The other bytes
    /// stay as they were. Does not allocate.
    ///
    /// # Errors
    ///
    /// `Checked` for the first field that does not fit its bits, however long the buffer is.
    /// `Stream(WriteZero)` if all fields fit, and the buffer is too short for the bits.
    /// After an error, the first bytes of the buffer may have changed.
    pub fn pack_into<'a>(&self, buffer: &'a mut [u8]) -> Result<SliceMut<'a>, Error>
        ensures packed { IfOk result (λ packed. bits High (written_bytes packed) ≡ event_bits self.now) }
        ensures first { IfOk result (HoldsFirst buffer.entry.ghost_name buffer.old) }
        ensures accepted { IsOk result → AllAccepted (event_writes High self.now) 0 }
        ensures misfit { (error : Error) → sequence_length (event_writes High self.now) 0 ≡ Err error
            → result ≡ Err error }
        ensures room { Fits self.now → event_size High self.now ≤ 8 * length buffer.old
            → IsOk result }
        ensures short { Fits self.now → 8 * length buffer.old < event_size High self.now
            → result ≡ Err (Stream WriteZero) }
    {
        pack_into::<BE, Event>(self, buffer)
    }
}

impl FromBitStream for Event {
    type Error = EventError;

    ghost becomes = { becomes_event };

    ghost reads = { event_decoder };

    fn from_reader<R: BitRead>(reader: &mut R) -> Result<Event, EventError> {
        Event::read(reader)
    }
}

impl ToBitStream for Event {
    type Error = Error;

    ghost becomes = { same_error };

    ghost writes = { event_writes };

    fn to_writer<W: BitWrite>(&self, writer: &mut W) -> Result<(), Error> {
        self.write(writer)
    }
}

/// A value that fits its bits is read back as it was written, in either order of bits, at any place.
/// The read takes only the bits that were written: `event_size` is their number.
pub fn event_round_trip()
    ensures back { (o : Order) (value : Event) (at from : ℕ) (more : List Bool) → Fits value
        → let written = write_sequence (event_writes o value) at in
        (event_decoder o).reads from (written ++ more) ≡ Done (length written) (Ok (Ok value)) }
    ensures size { (o : Order) (value : Event) (at : ℕ) → Fits value
        → length (write_sequence (event_writes o value) at) ≡ event_size o value }
{}
