//! The start of a chunk of a RIFF file, as WAV files are.
//!
//! Made by `./format` from formats/riff_chunk.fields: edit that file and make this one anew.
ghost use Rattle.bitstream_formats.specs.RiffChunk.{riff_chunk_decoder, riff_chunk_writes, riff_chunk_bits, riff_chunk_at, Fits};
ghost use Rattle.bitstream_formats.specs.declared.riff_chunk.RiffChunk.{RiffChunk};
ghost use Rattle.std.specs.Prelude.{◌≡◌, ◌<◌, ◌≤◌, ◌++◌, ℕ, Bool, List, Ok, Err, length, IfOk, IsOk};
ghost use Rattle.std.specs.declared.io.ErrorKind.TheVariants.{WriteZero};
ghost use Rattle.bitstream_io.specs.Callers.{Done, Error, EndOfInput, Order, Low, bits, write_sequence, Reads, WritesAll, AllAccepted, sequence_length, sure_answer, Stream, same_error, plain_reads};
ghost use Rattle.bitstream_io.specs.SliceMut.{HoldsFirst, written_bytes};

use bitstream_io::{
    BitRead, BitReadExt, BitReader, BitWrite, BitWriteExt, Bits, Error, FromBitStream, LE,
    SliceMut, ToBitStream, pack_into,
};

/// The start of a chunk of a RIFF file, as WAV files are.
///
/// ```text
///  0                   1                   2                   3
///  0 1 2 3 4 5 6 7 8 9 0 1 2 3 4 5 6 7 8 9 0 1 2 3 4 5 6 7 8 9 0 1
/// +-+-+-+-+-+-+-+-+-+-+-+-+-+-+-+-+-+-+-+-+-+-+-+-+-+-+-+-+-+-+-+-+
/// |                               id                              |
/// +-+-+-+-+-+-+-+-+-+-+-+-+-+-+-+-+-+-+-+-+-+-+-+-+-+-+-+-+-+-+-+-+
/// |                              size                             |
/// +-+-+-+-+-+-+-+-+-+-+-+-+-+-+-+-+-+-+-+-+-+-+-+-+-+-+-+-+-+-+-+-+
/// ```
#[derive(Clone, Copy, Debug, PartialEq)]
pub struct RiffChunk {
    /// The type, in four letters.
    pub id: [u8; 4],
    /// The number of bytes that follow. If it is odd, one byte more follows.
    pub size: u32,
}

impl RiffChunk {
    /// The number of bits before each line of the description.
    pub const PLACES: [u64; 2] = [0, 32];

    /// Reads the fields in order.
    ///
    /// # Errors
    ///
    /// The reader's errors, after which it has failed.
    pub fn read<R: BitRead>(reader: &mut R) -> Result<RiffChunk, Error>
        ensures { Reads R.source (riff_chunk_decoder R.source.order) reader.old result reader.new }
    {
        let id = reader.read_to_bytes::<[u8; 4]>()?;
        let size = reader.read::<Bits<32>, u32>()?;
        Ok(RiffChunk { id, size })
    }

    /// Parses the value at the start of `packet`.
    ///
    /// # Errors
    ///
    /// `EndOfInput` for fewer than 8 bytes.
    pub fn parse(packet: &[u8]) -> Result<RiffChunk, Error>
        ensures answer { result ≡ sure_answer ((riff_chunk_decoder Low).reads 0 (bits Low packet.now)) }
        ensures there { 8 ≤ length packet.now → result ≡ Ok (riff_chunk_at (bits Low packet.now)) }
        ensures short { length packet.now < 8 → result ≡ Err EndOfInput }
        ensures back { (value : RiffChunk) (more : List Bool) → Fits value
            → bits Low packet.now ≡ riff_chunk_bits value ++ more → result ≡ Ok value }
    {
        riff_chunk_round_trip();
        RiffChunk::read(&mut BitReader::<_, LE>::over(packet))
    }

    /// Writes the fields in order.
    ///
    /// # Errors
    ///
    /// `Checked` for a field that does not fit its bits. The fields before it have been written.
    /// Otherwise the sink's errors.
    pub fn write<W: BitWrite>(&self, writer: &mut W) -> Result<(), Error>
        ensures { WritesAll W.sink (riff_chunk_writes W.sink.order self.now) writer.old result writer.new }
    {
        writer.write_bytes(&self.id)?;
        writer.write::<Bits<32>, u32>(self.size)?;
        Ok(())
    }

    /// Writes the fields to the first bytes of a buffer, and returns what was written. The other bytes
    /// stay as they were. Does not allocate.
    ///
    /// # Errors
    ///
    /// `Checked` for the first field that does not fit its bits, however long the buffer is.
    /// `Stream(WriteZero)` if all fields fit, and the buffer has fewer than 8 bytes.
    /// After an error, the first bytes of the buffer may have changed.
    pub fn pack_into<'a>(&self, buffer: &'a mut [u8]) -> Result<SliceMut<'a>, Error>
        ensures packed { IfOk result (λ packed. bits Low (written_bytes packed) ≡ riff_chunk_bits self.now) }
        ensures first { IfOk result (HoldsFirst buffer.entry.ghost_name buffer.old) }
        ensures accepted { IsOk result → AllAccepted (riff_chunk_writes Low self.now) 0 }
        ensures misfit { (error : Error) → sequence_length (riff_chunk_writes Low self.now) 0 ≡ Err error
            → result ≡ Err error }
        ensures room { Fits self.now → 8 ≤ length buffer.old → IsOk result }
        ensures short { Fits self.now → length buffer.old < 8 → result ≡ Err (Stream WriteZero) }
    {
        pack_into::<LE, RiffChunk>(self, buffer)
    }
}

impl FromBitStream for RiffChunk {
    type Error = Error;

    ghost becomes = { same_error };

    ghost reads = { λ o. plain_reads (riff_chunk_decoder o) };

    fn from_reader<R: BitRead>(reader: &mut R) -> Result<RiffChunk, Error> {
        RiffChunk::read(reader)
    }
}

impl ToBitStream for RiffChunk {
    type Error = Error;

    ghost becomes = { same_error };

    ghost writes = { riff_chunk_writes };

    fn to_writer<W: BitWrite>(&self, writer: &mut W) -> Result<(), Error> {
        self.write(writer)
    }
}

/// A value that fits its bits is read back as it was written, in either order of bits, at any place.
/// The read takes only the bits that were written: 64 bits.
pub fn riff_chunk_round_trip()
    ensures back { (o : Order) (value : RiffChunk) (at from : ℕ) (more : List Bool) → Fits value
        → let written = write_sequence (riff_chunk_writes o value) at in
        (riff_chunk_decoder o).reads from (written ++ more) ≡ Done (length written) (Ok value) }
    ensures size { (o : Order) (value : RiffChunk) (at : ℕ) → Fits value
        → length (write_sequence (riff_chunk_writes o value) at) ≡ 64 }
{}
