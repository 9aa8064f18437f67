//! The header of a block of a FLAC file.
//!
//! Made by `./format` from formats/block_header.fields: edit that file and make this one anew.
ghost use Rattle.bitstream_callers.specs.BlockHeader.{block_header_decoder, block_header_writes, block_header_bits, block_header_at, Fits};
ghost use Rattle.bitstream_callers.specs.declared.block_header.BlockHeader.{BlockHeader};
ghost use Rattle.std.specs.Prelude.{◌≡◌, ◌<◌, ◌≤◌, ◌++◌, ℕ, Bool, List, Ok, Err, length, IfOk, IsOk};
ghost use Rattle.std.specs.declared.io.ErrorKind.TheVariants.{WriteZero};
ghost use Rattle.bitstream_io.specs.Callers.{Done, Error, EndOfInput, Order, High, bits, write_sequence, Reads, WritesAll, sequence_length, sure_answer, Stream, same_error, plain_reads};
ghost use Rattle.bitstream_io.specs.SliceMut.{HoldsFirst, written_bytes};

use bitstream_io::{
    BE, BitRead, BitReadExt, BitReader, BitWrite, BitWriteExt, Bits, Error, FromBitStream,
    SliceMut, ToBitStream, pack_into,
};

/// The header of a block of a FLAC file.
///
/// ```text
///  0                   1                   2                   3
///  0 1 2 3 4 5 6 7 8 9 0 1 2 3 4 5 6 7 8 9 0 1 2 3 4 5 6 7 8 9 0 1
/// +-+-+-+-+-+-+-+-+-+-+-+-+-+-+-+-+-+-+-+-+-+-+-+-+-+-+-+-+-+-+-+-+
/// |l|     kind    |                      size                     |
/// +-+-+-+-+-+-+-+-+-+-+-+-+-+-+-+-+-+-+-+-+-+-+-+-+-+-+-+-+-+-+-+-+
/// ```
#[derive(Clone, Copy, Debug, PartialEq)]
pub struct BlockHeader {
    /// True if the block is the last one.
    pub last: bool,
    /// The kind of the block. Below 2^7.
    pub kind: u8,
    /// The number of bytes of the block. Below 2^24.
    pub size: u32,
}

impl BlockHeader {
    /// The number of bits before each line of the description.
    pub const PLACES: [u64; 3] = [0, 1, 8];

    /// Reads the fields in order.
    ///
    /// # Errors
    ///
    /// The reader's errors, after which it has failed.
    pub fn read<R: BitRead>(reader: &mut R) -> Result<BlockHeader, Error>
        ensures { Reads R.source (block_header_decoder R.source.order) reader.old result reader.new }
    {
        let last = reader.read_bit()?;
        let kind = reader.read::<Bits<7>, u8>()?;
        let size = reader.read::<Bits<24>, u32>()?;
        Ok(BlockHeader { last, kind, size })
    }

    /// Parses the value at the start of `packet`.
    ///
    /// # Errors
    ///
    /// `EndOfInput` for fewer than 4 bytes.
    pub fn parse(packet: &[u8]) -> Result<BlockHeader, Error>
        ensures answer { result ≡ sure_answer ((block_header_decoder High).reads 0 (bits High packet.now)) }
        ensures there { 4 ≤ length packet.now
            → result ≡ Ok (block_header_at (bits High packet.now)) }
        ensures short { length packet.now < 4 → result ≡ Err EndOfInput }
        ensures back { (value : BlockHeader) (more : List Bool) → Fits value
            → bits High packet.now ≡ block_header_bits value ++ more → result ≡ Ok value }
    {
        block_header_round_trip();
        BlockHeader::read(&mut BitReader::<_, BE>::over(packet))
    }

    /// Writes the fields in order.
    ///
    /// # Errors
    ///
    /// `Checked` for a field that does not fit its bits. The fields before it have been written.
    /// Otherwise the sink's errors.
    pub fn write<W: BitWrite>(&self, writer: &mut W) -> Result<(), Error>
        ensures { WritesAll W.sink (block_header_writes W.sink.order self.now) writer.old result writer.new }
    {
        writer.write_bit(self.last)?;
        writer.write::<Bits<7>, u8>(self.kind)?;
        writer.write::<Bits<24>, u32>(self.size)?;
        Ok(())
    }

    /// Writes the fields to the first bytes of a buffer, and returns what was written. The other bytes
    /// stay as they were. Does not allocate.
    ///
    /// # Errors
    ///
    /// `Checked` for the first field that does not fit its bits, however long the buffer is.
    /// `Stream(WriteZero)` if all fields fit, and the buffer has fewer than 4 bytes.
    /// After an error, the first bytes of the buffer may have changed.
    pub fn pack_into<'a>(&self, buffer: &'a mut [u8]) -> Result<SliceMut<'a>, Error>
        ensures packed { IfOk result (λ packed. bits High (written_bytes packed) ≡ block_header_bits self.now) }
        ensures first { IfOk result (HoldsFirst buffer.entry.ghost_name buffer.old) }
        ensures fits { IsOk result → Fits self.now }
        ensures misfit { (error : Error) → sequence_length (block_header_writes High self.now) 0 ≡ Err error
            → result ≡ Err error }
        ensures room { Fits self.now → 4 ≤ length buffer.old → IsOk result }
        ensures short { Fits self.now → length buffer.old < 4 → result ≡ Err (Stream WriteZero) }
    {
        pack_into::<BE, BlockHeader>(self, buffer)
    }
}

impl FromBitStream for BlockHeader {
    type Error = Error;

    ghost becomes = { same_error };

    ghost reads = { λ o. plain_reads (block_header_decoder o) };

    fn from_reader<R: BitRead>(reader: &mut R) -> Result<BlockHeader, Error> {
        BlockHeader::read(reader)
    }
}

impl ToBitStream for BlockHeader {
    type Error = Error;

    ghost becomes = { same_error };

    ghost writes = { block_header_writes };

    fn to_writer<W: BitWrite>(&self, writer: &mut W) -> Result<(), Error> {
        self.write(writer)
    }
}

/// A value that fits its bits is read back as it was written, in either order of bits, at any place.
/// The read takes only the bits that were written: 32 bits.
pub fn block_header_round_trip()
    ensures back { (o : Order) (value : BlockHeader) (at from : ℕ) (more : List Bool) → Fits value
        → let written = write_sequence (block_header_writes o value) at in
        (block_header_decoder o).reads from (written ++ more) ≡ Done (length written) (Ok value) }
    ensures size { (o : Order) (value : BlockHeader) (at : ℕ) → Fits value
        → length (write_sequence (block_header_writes o value) at) ≡ 32 }
{}
