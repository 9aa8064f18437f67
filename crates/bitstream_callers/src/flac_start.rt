//! The start of a FLAC file, up to the contents of its first block.
//!
//! Made by `./format` from formats/flac_start.fields: edit that file and make this one anew.
ghost use Rattle.bitstream_callers.specs.FlacStart.{flac_start_decoder, flac_start_writes, flac_start_bits, flac_start_at, Fits, becomes_flac_start, const_at_0};
ghost use Rattle.bitstream_callers.specs.declared.flac_start.FlacStart.{FlacStart};
ghost use Rattle.bitstream_callers.specs.declared.flac_start.FlacStartError.{FlacStartError};
ghost use Rattle.bitstream_callers.specs.declared.flac_start.FlacStartError.TheVariants.{Reader, NoFlac};
ghost use Rattle.std.specs.Prelude.{◌≡◌, ◌≢◌, ◌<◌, ◌≤◌, ◌++◌, ℕ, Bool, List, Ok, Err, length, IfOk, IsOk};
ghost use Rattle.std.specs.declared.io.ErrorKind.TheVariants.{WriteZero};
ghost use Rattle.bitstream_io.specs.Callers.{Done, Error, EndOfInput, Order, High, bits, write_sequence, ReadsOwn, OwnAnswer, WritesAll, sequence_length, sure_answer, Stream, same_error};
ghost use Rattle.bitstream_io.specs.SliceMut.{HoldsFirst, written_bytes};

use crate::block_header::BlockHeader;
use bitstream_io::{
    BE, BitRead, BitReadExt, BitReader, BitWrite, BitWriteExt, Bits, Error, FromBitStream,
    SliceMut, ToBitStream, pack_into,
};

/// The start of a FLAC file, up to the contents of its first block.
///
/// ```text
///  0                   1                   2                   3
///  0 1 2 3 4 5 6 7 8 9 0 1 2 3 4 5 6 7 8 9 0 1 2 3 4 5 6 7 8 9 0 1
/// +-+-+-+-+-+-+-+-+-+-+-+-+-+-+-+-+-+-+-+-+-+-+-+-+-+-+-+-+-+-+-+-+
/// |                          =1716281667                          |
/// +-+-+-+-+-+-+-+-+-+-+-+-+-+-+-+-+-+-+-+-+-+-+-+-+-+-+-+-+-+-+-+-+
/// |                             block                             |
/// +-+-+-+-+-+-+-+-+-+-+-+-+-+-+-+-+-+-+-+-+-+-+-+-+-+-+-+-+-+-+-+-+
/// ```
#[derive(Clone, Copy, Debug, PartialEq)]
pub struct FlacStart {
    /// The header of the first block.
    pub block: BlockHeader,
}

/// The errors of reading a `FlacStart`.
#[derive(Debug, Drop, thiserror::Error)]
pub enum FlacStartError {
    /// An error of the reader.
    #[error("{0}")]
    Reader(Error),
    /// The file does not begin with `fLaC`.
    #[error("the file does not begin with `fLaC`")]
    NoFlac,
}

impl From<Error> for FlacStartError {
    ghost from_gives = { becomes_flac_start };

    fn from(error: Error) -> FlacStartError {
        FlacStartError::Reader(error)
    }
}

impl FlacStart {
    /// The number of bits before each line of the description.
    pub const PLACES: [u64; 2] = [0, 32];

    /// Reads the fields in order.
    ///
    /// # Errors
    ///
    /// `NoFlac`, after the rejected bits have been read.
    /// Otherwise the reader's errors, after which it has failed.
    pub fn read<R: BitRead>(reader: &mut R) -> Result<FlacStart, FlacStartError>
        ensures { ReadsOwn R.source becomes_flac_start (flac_start_decoder R.source.order) reader.old result reader.new }
    {
        reader.read_const::<Bits<32>, Bits<1716281667>, FlacStartError>(FlacStartError::NoFlac)?;
        let block = BlockHeader::read(reader)?;
        Ok(FlacStart { block })
    }

    /// Parses the value at the start of `packet`.
    ///
    /// # Errors
    ///
    /// `NoFlac` if bits are rejected.
    /// `Reader(EndOfInput)` for fewer than 8 bytes.
    pub fn parse(packet: &[u8]) -> Result<FlacStart, FlacStartError>
        ensures answer { OwnAnswer becomes_flac_start (λ answer. answer)
            (sure_answer ((flac_start_decoder High).reads 0 (bits High packet.now))) result }
        ensures there { 8 ≤ length packet.now → const_at_0 (bits High packet.now) ≡ 1716281667
            → result ≡ Ok (flac_start_at (bits High packet.now)) }
        ensures short { length packet.now < 8
            → (4 ≤ length packet.now → const_at_0 (bits High packet.now) ≡ 1716281667)
            → result ≡ Err (FlacStartError.Reader EndOfInput) }
        ensures no_flac { 4 ≤ length packet.now → const_at_0 (bits High packet.now) ≢ 1716281667
            → result ≡ Err (FlacStartError.NoFlac) }
        ensures back { (value : FlacStart) (more : List Bool) → Fits value
            → bits High packet.now ≡ flac_start_bits value ++ more → result ≡ Ok value }
    {
        flac_start_round_trip();
        FlacStart::read(&mut BitReader::<_, BE>::over(packet))
    }

    /// Writes the fields in order.
    ///
    /// # Errors
    ///
    /// `Checked` for a field that does not fit its bits. The fields before it have been written.
    /// Otherwise the sink's errors.
    pub fn write<W: BitWrite>(&self, writer: &mut W) -> Result<(), Error>
        ensures { WritesAll W.sink (flac_start_writes W.sink.order self.now) writer.old result writer.new }
    {
        writer.write_const::<Bits<32>, Bits<1716281667>>()?;
        self.block.write(writer)?;
        Ok(())
    }

    /// Writes the fields to the first bytes of a buffer, and returns what was written. The other bytes
    /// stay as they were. Does not allocate.
    ///
    /// # Errors
    ///
    /// `Checked` for the first field that does not fit its bits, however long the buffer is.
    /// `Stream(WriteZero)` if all fields fit, and the buffer has fewer than 8 bytes.
    /// After an error, the first bytes of the buffer may have changed.
    pub fn pack_into<'a>(&self, buffer: &'a mut [u8]) -> Result<SliceMut<'a>, Error>
        ensures packed { IfOk result (λ packed. bits High (written_bytes packed) ≡ flac_start_bits self.now) }
        ensures first { IfOk result (HoldsFirst buffer.entry.ghost_name buffer.old) }
        ensures fits { IsOk result → Fits self.now }
        ensures misfit { (error : Error) → sequence_length (flac_start_writes High self.now) 0 ≡ Err error
            → result ≡ Err error }
        ensures room { Fits self.now → 8 ≤ length buffer.old → IsOk result }
        ensures short { Fits self.now → length buffer.old < 8 → result ≡ Err (Stream WriteZero) }
    {
        pack_into::<BE, FlacStart>(self, buffer)
    }
}

impl FromBitStream for FlacStart {
    type Error = FlacStartError;

    ghost becomes = { becomes_flac_start };

    ghost reads = { flac_start_decoder };

    fn from_reader<R: BitRead>(reader: &mut R) -> Result<FlacStart, FlacStartError> {
        FlacStart::read(reader)
    }
}

impl ToBitStream for FlacStart {
    type Error = Error;

    ghost becomes = { same_error };

    ghost writes = { flac_start_writes };

    fn to_writer<W: BitWrite>(&self, writer: &mut W) -> Result<(), Error> {
        self.write(writer)
    }
}

/// A value that fits its bits is read back as it was written, in either order of bits, at any place.
/// The read takes only the bits that were written: 64 bits.
pub fn flac_start_round_trip()
    ensures back { (o : Order) (value : FlacStart) (at from : ℕ) (more : List Bool) → Fits value
        → let written = write_sequence (flac_start_writes o value) at in
        (flac_start_decoder o).reads from (written ++ more) ≡ Done (length written) (Ok (Ok value)) }
    ensures size { (o : Order) (value : FlacStart) (at : ℕ) → Fits value
        → length (write_sequence (flac_start_writes o value) at) ≡ 64 }
{}
