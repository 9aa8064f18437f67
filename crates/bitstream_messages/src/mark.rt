//! A mark, which begins with a constant.
//!
//! Made by `./format` from formats/mark.fields: edit that file and make this one anew.
ghost use Rattle.bitstream_messages.specs.Mark.{mark_decoder, mark_writes, mark_bits, mark_at, Fits, becomes_mark, const_at_0};
ghost use Rattle.bitstream_messages.specs.declared.mark.Mark.{Mark};
ghost use Rattle.bitstream_messages.specs.declared.mark.MarkError.{MarkError};
ghost use Rattle.bitstream_messages.specs.declared.mark.MarkError.TheVariants.{Reader, NoMark};
ghost use Rattle.std.specs.Prelude.{◌≡◌, ◌≢◌, ◌<◌, ◌≤◌, ◌++◌, ℕ, Bool, List, Ok, Err, length, IfOk, IsOk};
ghost use Rattle.std.specs.declared.io.ErrorKind.TheVariants.{WriteZero};
ghost use Rattle.bitstream_io.specs.Callers.{Done, Error, EndOfInput, Order, High, bits, write_sequence, ReadsOwn, OwnAnswer, WritesAll, sequence_length, sure_answer, Stream, same_error};
ghost use Rattle.bitstream_io.specs.SliceMut.{HoldsFirst, written_bytes};

use bitstream_io::{
    BE, BitRead, BitReadExt, BitReader, BitWrite, BitWriteExt, Bits, Error, FromBitStream,
    SliceMut, ToBitStream, pack_into,
};

/// A mark, which begins with a constant.
///
/// ```text
///  0                   1                   2                   3
///  0 1 2 3 4 5 6 7 8 9 0 1 2 3 4 5 6 7 8 9 0 1 2 3 4 5 6 7 8 9 0 1
/// +-+-+-+-+-+-+-+-+-+-+-+-+-+-+-+-+
/// |       =7      |     color     |
/// +-+-+-+-+-+-+-+-+-+-+-+-+-+-+-+-+
/// ```
#[derive(Clone, Copy, Debug, PartialEq)]
pub struct Mark {
    /// The number of the color.
    pub color: u8,
}

/// The errors of reading a `Mark`.
#[derive(Debug, Drop, thiserror::Error)]
pub enum MarkError {
    /// An error of the reader.
    #[error("{0}")]
    Reader(Error),
    /// The first byte is not 7.
    #[error("the first byte is not 7")]
    NoMark,
}

impl From<Error> for MarkError {
    ghost from_gives = { becomes_mark };

    fn from(error: Error) -> MarkError {
        MarkError::Reader(error)
    }
}

impl Mark {
    /// The number of bits before each line of the description.
    pub const PLACES: [u64; 2] = [0, 8];

    /// Reads the fields in order.
    ///
    /// # Errors
    ///
    /// `NoMark`, after the rejected bits have been read.
    /// Otherwise the reader's errors, after which it has failed.
    pub fn read<R: BitRead>(reader: &mut R) -> Result<Mark, MarkError>
        ensures { ReadsOwn R.source becomes_mark (mark_decoder R.source.order) reader.old result reader.new }
    {
        reader.read_const::<Bits<8>, Bits<7>, MarkError>(MarkError::NoMark)?;
        let color = reader.read::<Bits<8>, u8>()?;
        Ok(Mark { color })
    }

    /// Parses the value at the start of `packet`.
    ///
    /// # Errors
    ///
    /// `NoMark` if bits are rejected.
    /// `Reader(EndOfInput)` for fewer than 2 bytes.
    pub fn parse(packet: &[u8]) -> Result<Mark, MarkError>
        ensures answer { OwnAnswer becomes_mark (λ answer. answer)
            (sure_answer ((mark_decoder High).reads 0 (bits High packet.now))) result }
        ensures there { 2 ≤ length packet.now → const_at_0 (bits High packet.now) ≡ 7
            → result ≡ Ok (mark_at (bits High packet.now)) }
        ensures short { length packet.now < 2
            → (1 ≤ length packet.now → const_at_0 (bits High packet.now) ≡ 7)
            → result ≡ Err (MarkError.Reader EndOfInput) }
        ensures no_mark { 1 ≤ length packet.now → const_at_0 (bits High packet.now) ≢ 7
            → result ≡ Err (MarkError.NoMark) }
        ensures back { (value : Mark) (more : List Bool) → Fits value
            → bits High packet.now ≡ mark_bits value ++ more → result ≡ Ok value }
    {
        mark_round_trip();
        Mark::read(&mut BitReader::<_, BE>::over(packet))
    }

    /// Writes the fields in order.
    ///
    /// # Errors
    ///
    /// `Checked` for a field that does not fit its bits. The fields before it have been written.
    /// Otherwise the sink's errors.
    pub fn write<W: BitWrite>(&self, writer: &mut W) -> Result<(), Error>
        ensures { WritesAll W.sink (mark_writes W.sink.order self.now) writer.old result writer.new }
    {
        writer.write_const::<Bits<8>, Bits<7>>()?;
        writer.write::<Bits<8>, u8>(self.color)?;
        Ok(())
    }

    /// Writes the fields to the first bytes of a buffer, and returns what was written. The other bytes
    /// stay as they were. Does not allocate.
    ///
    /// # Errors
    ///
    /// `Checked` for the first field that does not fit its bits, however long the buffer is.
    /// `Stream(WriteZero)` if all fields fit, and the buffer has fewer than 2 bytes.
    /// After an error, the first bytes of the buffer may have changed.
    pub fn pack_into<'a>(&self, buffer: &'a mut [u8]) -> Result<SliceMut<'a>, Error>
        ensures packed { IfOk result (λ packed. bits High (written_bytes packed) ≡ mark_bits self.now) }
        ensures first { IfOk result (HoldsFirst buffer.entry.ghost_name buffer.old) }
        ensures fits { IsOk result → Fits self.now }
        ensures misfit { (error : Error) → sequence_length (mark_writes High self.now) 0 ≡ Err error
            → result ≡ Err error }
        ensures room { Fits self.now → 2 ≤ length buffer.old → IsOk result }
        ensures short { Fits self.now → length buffer.old < 2 → result ≡ Err (Stream WriteZero) }
    {
        pack_into::<BE, Mark>(self, buffer)
    }
}

impl FromBitStream for Mark {
    type Error = MarkError;

    ghost becomes = { becomes_mark };

    ghost reads = { mark_decoder };

    fn from_reader<R: BitRead>(reader: &mut R) -> Result<Mark, MarkError> {
        Mark::read(reader)
    }
}

impl ToBitStream for Mark {
    type Error = Error;

    ghost becomes = { same_error };

    ghost writes = { mark_writes };

    fn to_writer<W: BitWrite>(&self, writer: &mut W) -> Result<(), Error> {
        self.write(writer)
    }
}

/// A value that fits its bits is read back as it was written, in either order of bits, at any place.
/// The read takes only the bits that were written: 16 bits.
pub fn mark_round_trip()
    ensures back { (o : Order) (value : Mark) (at from : ℕ) (more : List Bool) → Fits value
        → let written = write_sequence (mark_writes o value) at in
        (mark_decoder o).reads from (written ++ more) ≡ Done (length written) (Ok (Ok value)) }
    ensures size { (o : Order) (value : Mark) (at : ℕ) → Fits value
        → length (write_sequence (mark_writes o value) at) ≡ 16 }
{}
