//! A signal of a known or another kind.
//!
//! Made by `./format` from formats/signal.fields: edit that file and make this one anew.
ghost use Rattle.bitstream_messages.specs.Signal.{signal_decoder, signal_writes, signal_size, signal_bits, Fits, reply_number, reply_read, reply_writes, tail_number, tail_read, tail_writes};
ghost use Rattle.bitstream_messages.specs.declared.signal.Signal.{Signal};
ghost use Rattle.std.specs.Prelude.{◌≡◌, ◌<◌, ◌≤◌, ◌*◌, ◌++◌, ℕ, Bool, List, Ok, Err, length, IfOk, IsOk};
ghost use Rattle.std.specs.declared.io.ErrorKind.TheVariants.{WriteZero};
ghost use Rattle.bitstream_io.specs.Callers.{Done, Error, Order, High, bits, write_sequence, Reads, WritesAll, AllAccepted, sequence_length, sure_answer, Stream, same_error, plain_reads};
ghost use Rattle.bitstream_io.specs.SliceMut.{HoldsFirst, written_bytes};

use crate::ack::Ack;
use bitstream_io::{
    BE, BitRead, BitReadExt, BitReader, BitWrite, BitWriteExt, Bits, Error, FromBitStream,
    SliceMut, ToBitStream, pack_into,
};

/// A signal of a known or another kind.
///
/// ```text
///  0                   1                   2                   3
///  0 1 2 3 4 5 6 7 8 9 0 1 2 3 4 5 6 7 8 9 0 1 2 3 4 5 6 7 8 9 0 1
/// +-+-+-+-+-+-+-+-+-+-+-+-+-+-+-+-+
/// |    body_tag   |t|    level    |
/// +-+-+-+-+-+-+-+-+-+-+-+-+-+-+-+-+-+-+-+-+-+-+-+-+-+-+-+-+-+-+-+-+
/// /                   body (Ack, Stop or Other)                   /
/// +-+-+-+-+-+-+-+-+-+-+-+-+-+-+-+-+-+-+-+-+-+-+-+-+-+-+-+-+-+-+-+-+
/// /                     tail (Nothing or Late)                    /
/// +-+-+-+-+-+-+-+-+-+-+-+-+-+-+-+-+-+-+-+-+-+-+-+-+-+-+-+-+-+-+-+-+
/// ```
#[derive(Clone, Copy, Debug, PartialEq)]
pub struct Signal {
    /// The level. Below 2^7.
    pub level: u8,
    /// The body.
    pub body: Reply,
    /// The acknowledgement of an earlier packet, if there is one.
    pub tail: Tail,
}

/// The body.
#[derive(Clone, Copy, Debug, PartialEq)]
pub enum Reply {
    /// The case for the number 1.
    Ack(Ack),
    /// The case for the number 7.
    Stop,
    /// Any other number, with nothing after it.
    Other(u8),
}

impl Reply {
    /// Returns the number of the case.
    pub fn number(&self) -> u8
        ensures { result ≡ reply_number self.now }
    {
        match self {
            Reply::Ack(_) => 1,
            Reply::Stop => 7,
            Reply::Other(it) => *it,
        }
    }

    /// Reads what follows the number of a case.
    ///
    /// # Errors
    ///
    /// The reader's errors, after which it has failed.
    pub fn read<R: BitRead>(reader: &mut R, number: u8) -> Result<Reply, Error>
        ensures { Reads R.source (reply_read R.source.order number) reader.old result reader.new }
    {
        if number == 1 {
            return Ok(Reply::Ack(Ack::read(reader)?));
        }
        if number == 7 {
            return Ok(Reply::Stop);
        }
        Ok(Reply::Other(number))
    }

    /// Writes what follows the number of the case.
    ///
    /// # Errors
    ///
    /// `Checked` for a field that does not fit its bits. The fields before it have been written.
    /// Otherwise the sink's errors.
    pub fn write<W: BitWrite>(&self, writer: &mut W) -> Result<(), Error>
        ensures { WritesAll W.sink (reply_writes W.sink.order self.now) writer.old result writer.new }
    {
        match self {
            Reply::Ack(it) => it.write(writer),
            Reply::Stop => Ok(()),
            Reply::Other(_) => Ok(()),
        }
    }
}

/// The acknowledgement of an earlier packet, if there is one.
#[derive(Clone, Copy, Debug, PartialEq)]
pub enum Tail {
    /// The case for the number 0.
    Nothing,
    /// The case for the number 1.
    Late(Ack),
}

impl Tail {
    /// Returns the number of the case.
    pub fn number(&self) -> u8
        ensures { result ≡ tail_number self.now }
    {
        match self {
            Tail::Nothing => 0,
            Tail::Late(_) => 1,
        }
    }

    /// Reads what follows the number of a case.
    ///
    /// # Errors
    ///
    /// The reader's errors, after which it has failed.
    pub fn read<R: BitRead>(reader: &mut R, number: u8) -> Result<Tail, Error>
        ensures { Reads R.source (tail_read R.source.order number) reader.old result reader.new }
    {
        if number == 0 {
            return Ok(Tail::Nothing);
        }
        Ok(Tail::Late(Ack::read(reader)?))
    }

    /// Writes what follows the number of the case.
    ///
    /// # Errors
    ///
    /// `Checked` for a field that does not fit its bits. The fields before it have been written.
    /// Otherwise the sink's errors.
    pub fn write<W: BitWrite>(&self, writer: &mut W) -> Result<(), Error>
        ensures { WritesAll W.sink (tail_writes W.sink.order self.now) writer.old result writer.new }
    {
        match self {
            Tail::Nothing => Ok(()),
            Tail::Late(it) => it.write(writer),
        }
    }
}

impl Signal {
    /// Reads the fields in order.
    ///
    /// # Errors
    ///
    /// The reader's errors, after which it has failed.
    pub fn read<R: BitRead>(reader: &mut R) -> Result<Signal, Error>
        ensures { Reads R.source (signal_decoder R.source.order) reader.old result reader.new }
    {
        let body_tag = reader.read::<Bits<8>, u8>()?;
        let tail_tag = reader.read::<Bits<1>, u8>()?;
        let level = reader.read::<Bits<7>, u8>()?;
        let body = Reply::read(reader, body_tag)?;
        let tail = Tail::read(reader, tail_tag)?;
        Ok(Signal { level, body, tail })
    }

    /// Parses the value at the start of `packet`.
    ///
    /// # Errors
    ///
    /// `EndOfInput` if the bytes end before the fields do.
    pub fn parse(packet: &[u8]) -> Result<Signal, Error>
        ensures answer { result ≡ sure_answer ((signal_decoder High).reads 0 (bits High packet.now)) }
        ensures back { (value : Signal) (more : List Bool) → Fits value
            → bits High packet.now ≡ write_sequence (signal_writes High value) 0 ++ more → result ≡ Ok value }
    {
        signal_round_trip();
        Signal::read(&mut BitReader::<_, BE>::over(packet))
    }

    /// Writes the fields in order.
    ///
    /// # Errors
    ///
    /// `Checked` for a field that does not fit its bits. The fields before it have been written.
    /// Otherwise the sink's errors.
    pub fn write<W: BitWrite>(&self, writer: &mut W) -> Result<(), Error>
        ensures { WritesAll W.sink (signal_writes W.sink.order self.now) writer.old result writer.new }
    {
        writer.write::<Bits<8>, u8>(self.body.number())?;
        writer.write::<Bits<1>, u8>(self.tail.number())?;
        writer.write::<Bits<7>, u8>(self.level)?;
        self.body.write(writer)?;
        self.tail.write(writer)?;
        Ok(())
    }

    /// Writes the fields to the first bytes of a buffer, and returns what was written. The other bytes
    /// stay as they were. Does not allocate.
    ///
    /// # Errors
    ///
    /// `Checked` for the first field that does not fit its bits, however long the buffer is.
    /// `Stream(WriteZero)` if all fields fit, and the buffer is too short for the bits.
    /// After an error, the first bytes of the buffer may have changed.
    pub fn pack_into<'a>(&self, buffer: &'a mut [u8]) -> Result<SliceMut<'a>, Error>
        ensures packed { IfOk result (λ packed. bits High (written_bytes packed) ≡ signal_bits self.now) }
        ensures first { IfOk result (HoldsFirst buffer.entry.ghost_name buffer.old) }
        ensures accepted { IsOk result → AllAccepted (signal_writes High self.now) 0 }
        ensures misfit { (error : Error) → sequence_length (signal_writes High self.now) 0 ≡ Err error
            → result ≡ Err error }
        ensures room { Fits self.now → signal_size High self.now ≤ 8 * length buffer.old
            → IsOk result }
        ensures short { Fits self.now → 8 * length buffer.old < signal_size High self.now
            → result ≡ Err (Stream WriteZero) }
    {
        pack_into::<BE, Signal>(self, buffer)
    }
}

impl FromBitStream for Signal {
    type Error = Error;

    ghost becomes = { same_error };

    ghost reads = { λ o. plain_reads (signal_decoder o) };

    fn from_reader<R: BitRead>(reader: &mut R) -> Result<Signal, Error> {
        Signal::read(reader)
    }
}

impl ToBitStream for Signal {
    type Error = Error;

    ghost becomes = { same_error };

    ghost writes = { signal_writes };

    fn to_writer<W: BitWrite>(&self, writer: &mut W) -> Result<(), Error> {
        self.write(writer)
    }
}

/// A value that fits its bits is read back as it was written, in either order of bits, at any place.
/// The read takes only the bits that were written: `signal_size` is their number.
pub fn signal_round_trip()
    ensures back { (o : Order) (value : Signal) (at from : ℕ) (more : List Bool) → Fits value
        → let written = write_sequence (signal_writes o value) at in
        (signal_decoder o).reads from (written ++ more) ≡ Done (length written) (Ok value) }
    ensures size { (o : Order) (value : Signal) (at : ℕ) → Fits value
        → length (write_sequence (signal_writes o value) at) ≡ signal_size o value }
{}
