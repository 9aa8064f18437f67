//! The header of a packet of an MPEG transport stream (ISO/IEC 13818-1, section 2.4.3.2).
//!
//! Made by `./format` from formats/ts_header.fields: edit that file and make this one anew.
ghost use Rattle.bitstream_formats.specs.TsHeader.{ts_header_decoder, ts_header_writes, ts_header_bits, ts_header_at, Fits, becomes_ts_header, const_at_0};
ghost use Rattle.bitstream_formats.specs.declared.ts_header.TsHeader.{TsHeader};
ghost use Rattle.bitstream_formats.specs.declared.ts_header.TsHeaderError.{TsHeaderError};
ghost use Rattle.bitstream_formats.specs.declared.ts_header.TsHeaderError.TheVariants.{Reader, NoSync};
ghost use Rattle.std.specs.Prelude.{◌≡◌, ◌≢◌, ◌<◌, ◌≤◌, ◌++◌, ℕ, Bool, List, Ok, Err, length, IfOk, IsOk};
ghost use Rattle.std.specs.declared.io.ErrorKind.TheVariants.{WriteZero};
ghost use Rattle.bitstream_io.specs.Callers.{Done, Error, EndOfInput, Order, High, bits, write_sequence, ReadsOwn, OwnAnswer, WritesAll, sequence_length, sure_answer, Stream, same_error};
ghost use Rattle.bitstream_io.specs.SliceMut.{HoldsFirst, written_bytes};

use bitstream_io::{
    BE, BitRead, BitReadExt, BitReader, BitWrite, BitWriteExt, Bits, Error, FromBitStream,
    SliceMut, ToBitStream, pack_into,
};

/// The header of a packet of an MPEG transport stream (ISO/IEC 13818-1, section 2.4.3.2).
///
/// ```text
///  0                   1                   2                   3
///  0 1 2 3 4 5 6 7 8 9 0 1 2 3 4 5 6 7 8 9 0 1 2 3 4 5 6 7 8 9 0 1
/// +-+-+-+-+-+-+-+-+-+-+-+-+-+-+-+-+-+-+-+-+-+-+-+-+-+-+-+-+-+-+-+-+
/// |      =71      |d|s|p|           pid           |scr|a|p|continu|
/// +-+-+-+-+-+-+-+-+-+-+-+-+-+-+-+-+-+-+-+-+-+-+-+-+-+-+-+-+-+-+-+-+
/// ```
#[derive(Clone, Copy, Debug, PartialEq)]
pub struct TsHeader {
    /// True if the packet has an error that was not corrected.
    pub damaged: bool,
    /// True if a PES packet or a section begins in the packet.
    pub starts: bool,
    /// True if the packet goes before others of its PID.
    pub priority: bool,
    /// The stream that the packet belongs to. Below 2^13.
    pub pid: u16,
    /// The scrambling of the payload, 0 for none. Below 2^2.
    pub scrambling: u8,
    /// True if an adaptation field follows.
    pub adapted: bool,
    /// True if the packet has a payload.
    pub payload: bool,
    /// The number of the packet among the packets with a payload. Below 2^4.
    pub continuity: u8,
}

/// The errors of reading a `TsHeader`.
#[derive(Debug, Drop, thiserror::Error)]
pub enum TsHeaderError {
    /// An error of the reader.
    #[error("{0}")]
    Reader(Error),
    /// No sync byte of a transport packet.
    #[error("no sync byte of a transport packet")]
    NoSync,
}

impl From<Error> for TsHeaderError {
    ghost from_gives = { becomes_ts_header };

    fn from(error: Error) -> TsHeaderError {
        TsHeaderError::Reader(error)
    }
}

impl TsHeader {
    /// The number of bits before each line of the description.
    pub const PLACES: [u64; 9] = [0, 8, 9, 10, 11, 24, 26, 27, 28];

    /// Reads the fields in order.
    ///
    /// # Errors
    ///
    /// `NoSync`, after the rejected bits have been read.
    /// Otherwise the reader's errors, after which it has failed.
    pub fn read<R: BitRead>(reader: &mut R) -> Result<TsHeader, TsHeaderError>
        ensures { ReadsOwn R.source becomes_ts_header (ts_header_decoder R.source.order) reader.old result reader.new }
    {
        reader.read_const::<Bits<8>, Bits<71>, TsHeaderError>(TsHeaderError::NoSync)?;
        let damaged = reader.read_bit()?;
        let starts = reader.read_bit()?;
        let priority = reader.read_bit()?;
        let pid = reader.read::<Bits<13>, u16>()?;
        let scrambling = reader.read::<Bits<2>, u8>()?;
        let adapted = reader.read_bit()?;
        let payload = reader.read_bit()?;
        let continuity = reader.read::<Bits<4>, u8>()?;
        Ok(TsHeader {
            damaged,
            starts,
            priority,
            pid,
            scrambling,
            adapted,
            payload,
            continuity,
        })
    }

    /// Parses the value at the start of `packet`.
    ///
    /// # Errors
    ///
    /// `NoSync` if bits are rejected.
    /// `Reader(EndOfInput)` for fewer than 4 bytes.
    pub fn parse(packet: &[u8]) -> Result<TsHeader, TsHeaderError>
        ensures answer { OwnAnswer becomes_ts_header (λ answer. answer)
            (sure_answer ((ts_header_decoder High).reads 0 (bits High packet.now))) result }
        ensures there { 4 ≤ length packet.now → const_at_0 (bits High packet.now) ≡ 71
            → result ≡ Ok (ts_header_at (bits High packet.now)) }
        ensures short { length packet.now < 4
            → (1 ≤ length packet.now → const_at_0 (bits High packet.now) ≡ 71)
            → result ≡ Err (TsHeaderError.Reader EndOfInput) }
        ensures no_sync { 1 ≤ length packet.now → const_at_0 (bits High packet.now) ≢ 71
            → result ≡ Err (TsHeaderError.NoSync) }
        ensures back { (value : TsHeader) (more : List Bool) → Fits value
            → bits High packet.now ≡ ts_header_bits value ++ more → result ≡ Ok value }
    {
        ts_header_round_trip();
        TsHeader::read(&mut BitReader::<_, BE>::over(packet))
    }

    /// Writes the fields in order.
    ///
    /// # Errors
    ///
    /// `Checked` for a field that does not fit its bits. The fields before it have been written.
    /// Otherwise the sink's errors.
    pub fn write<W: BitWrite>(&self, writer: &mut W) -> Result<(), Error>
        ensures { WritesAll W.sink (ts_header_writes W.sink.order self.now) writer.old result writer.new }
    {
        writer.write_const::<Bits<8>, Bits<71>>()?;
        writer.write_bit(self.damaged)?;
        writer.write_bit(self.starts)?;
        writer.write_bit(self.priority)?;
        writer.write::<Bits<13>, u16>(self.pid)?;
        writer.write::<Bits<2>, u8>(self.scrambling)?;
        writer.write_bit(self.adapted)?;
        writer.write_bit(self.payload)?;
        writer.write::<Bits<4>, u8>(self.continuity)?;
        Ok(())
    }

    /// Writes the fields to the first bytes of a buffer, and returns what was written. The other bytes
    /// stay as they were. Does not allocate.
    ///
    /// # Errors
    ///
    /// `Checked` for the first field that does not fit its bits, however long the buffer is.
    /// `Stream(WriteZero)` if all fields fit, and the buffer has fewer than 4 bytes.
    /// After an error, the first bytes of the buffer may have changed.
    pub fn pack_into<'a>(&self, buffer: &'a mut [u8]) -> Result<SliceMut<'a>, Error>
        ensures packed { IfOk result (λ packed. bits High (written_bytes packed) ≡ ts_header_bits self.now) }
        ensures first { IfOk result (HoldsFirst buffer.entry.ghost_name buffer.old) }
        ensures fits { IsOk result → Fits self.now }
        ensures misfit { (error : Error) → sequence_length (ts_header_writes High self.now) 0 ≡ Err error
            → result ≡ Err error }
        ensures room { Fits self.now → 4 ≤ length buffer.old → IsOk result }
        ensures short { Fits self.now → length buffer.old < 4 → result ≡ Err (Stream WriteZero) }
    {
        pack_into::<BE, TsHeader>(self, buffer)
    }
}

impl FromBitStream for TsHeader {
    type Error = TsHeaderError;

    ghost becomes = { becomes_ts_header };

    ghost reads = { ts_header_decoder };

    fn from_reader<R: BitRead>(reader: &mut R) -> Result<TsHeader, TsHeaderError> {
        TsHeader::read(reader)
    }
}

impl ToBitStream for TsHeader {
    type Error = Error;

    ghost becomes = { same_error };

    ghost writes = { ts_header_writes };

    fn to_writer<W: BitWrite>(&self, writer: &mut W) -> Result<(), Error> {
        self.write(writer)
    }
}

/// A value that fits its bits is read back as it was written, in either order of bits, at any place.
/// The read takes only the bits that were written: 32 bits.
pub fn ts_header_round_trip()
    ensures back { (o : Order) (value : TsHeader) (at from : ℕ) (more : List Bool) → Fits value
        → let written = write_sequence (ts_header_writes o value) at in
        (ts_header_decoder o).reads from (written ++ more) ≡ Done (length written) (Ok (Ok value)) }
    ensures size { (o : Order) (value : TsHeader) (at : ℕ) → Fits value
        → length (write_sequence (ts_header_writes o value) at) ≡ 32 }
{}
