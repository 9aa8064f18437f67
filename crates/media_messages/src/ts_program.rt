//! A program of a program association section (ISO/IEC 13818-1, section 2.4.4.3).
//!
//! Made by `./format` from formats/ts_program.fields: edit that file and make this one anew.
ghost use Rattle.media_messages.specs.TsProgram.{ts_program_decoder, ts_program_writes, ts_program_bits, ts_program_at, Fits, becomes_ts_program, const_at_16};
ghost use Rattle.media_messages.specs.declared.ts_program.TsProgram.{TsProgram};
ghost use Rattle.media_messages.specs.declared.ts_program.TsProgramError.{TsProgramError};
ghost use Rattle.media_messages.specs.declared.ts_program.TsProgramError.TheVariants.{Reader, ZeroReserved};
ghost use Rattle.std.specs.Prelude.{◌≡◌, ◌≢◌, ◌<◌, ◌≤◌, ◌++◌, ℕ, Bool, List, Ok, Err, length, IfOk, IsOk};
ghost use Rattle.std.specs.declared.io.ErrorKind.TheVariants.{WriteZero};
ghost use Rattle.bitstream_io.specs.Callers.{Done, Error, EndOfInput, Order, High, bits, write_sequence, ReadsOwn, OwnAnswer, WritesAll, sequence_length, sure_answer, Stream, same_error};
ghost use Rattle.bitstream_io.specs.SliceMut.{HoldsFirst, written_bytes};

use bitstream_io::{
    BE, BitRead, BitReadExt, BitReader, BitWrite, BitWriteExt, Bits, Error, FromBitStream,
    SliceMut, ToBitStream, pack_into,
};

/// A program of a program association section (ISO/IEC 13818-1, section 2.4.4.3).
///
/// ```text
///  0                   1                   2                   3
///  0 1 2 3 4 5 6 7 8 9 0 1 2 3 4 5 6 7 8 9 0 1 2 3 4 5 6 7 8 9 0 1
/// +-+-+-+-+-+-+-+-+-+-+-+-+-+-+-+-+-+-+-+-+-+-+-+-+-+-+-+-+-+-+-+-+
/// |            program            |  =7 |         packets         |
/// +-+-+-+-+-+-+-+-+-+-+-+-+-+-+-+-+-+-+-+-+-+-+-+-+-+-+-+-+-+-+-+-+
/// ```
#[derive(Clone, Copy, Debug, PartialEq)]
pub struct TsProgram {
    /// The number of the program, or 0 for the network.
    pub program: u16,
    /// The PID of the packets that describe it. Below 2^13.
    pub packets: u16,
}

/// The errors of reading a `TsProgram`.
#[derive(Debug, Drop, thiserror::Error)]
pub enum TsProgramError {
    /// An error of the reader.
    #[error("{0}")]
    Reader(Error),
    /// A reserved bit is 0.
    #[error("a reserved bit is 0")]
    ZeroReserved,
}

impl From<Error> for TsProgramError {
    ghost from_gives = { becomes_ts_program };

    fn from(error: Error) -> TsProgramError {
        TsProgramError::Reader(error)
    }
}

impl TsProgram {
    /// The number of bits before each line of the description.
    pub const PLACES: [u64; 3] = [0, 16, 19];

    /// Reads the fields in order.
    ///
    /// # Errors
    ///
    /// `ZeroReserved`, after the rejected bits have been read.
    /// Otherwise the reader's errors, after which it has failed.
    pub fn read<R: BitRead>(reader: &mut R) -> Result<TsProgram, TsProgramError>
        ensures { ReadsOwn R.source becomes_ts_program (ts_program_decoder R.source.order) reader.old result reader.new }
    {
        let program = reader.read::<Bits<16>, u16>()?;
        reader.read_const::<Bits<3>, Bits<7>, TsProgramError>(TsProgramError::ZeroReserved)?;
        let packets = reader.read::<Bits<13>, u16>()?;
        Ok(TsProgram { program, packets })
    }

    /// Parses the value at the start of `packet`.
    ///
    /// # Errors
    ///
    /// `ZeroReserved` if bits are rejected.
    /// `Reader(EndOfInput)` for fewer than 4 bytes.
    pub fn parse(packet: &[u8]) -> Result<TsProgram, TsProgramError>
        ensures answer { OwnAnswer becomes_ts_program (λ answer. answer)
            (sure_answer ((ts_program_decoder High).reads 0 (bits High packet.now))) result }
        ensures there { 4 ≤ length packet.now → const_at_16 (bits High packet.now) ≡ 7
            → result ≡ Ok (ts_program_at (bits High packet.now)) }
        ensures short { length packet.now < 4
            → (3 ≤ length packet.now → const_at_16 (bits High packet.now) ≡ 7)
            → result ≡ Err (TsProgramError.Reader EndOfInput) }
        ensures zero_reserved { 3 ≤ length packet.now → const_at_16 (bits High packet.now) ≢ 7
            → result ≡ Err (TsProgramError.ZeroReserved) }
        ensures back { (value : TsProgram) (more : List Bool) → Fits value
            → bits High packet.now ≡ ts_program_bits value ++ more → result ≡ Ok value }
    {
        ts_program_round_trip();
        TsProgram::read(&mut BitReader::<_, BE>::over(packet))
    }

    /// Writes the fields in order.
    ///
    /// # Errors
    ///
    /// `Checked` for a field that does not fit its bits. The fields before it have been written.
    /// Otherwise the sink's errors.
    pub fn write<W: BitWrite>(&self, writer: &mut W) -> Result<(), Error>
        ensures { WritesAll W.sink (ts_program_writes W.sink.order self.now) writer.old result writer.new }
    {
        writer.write::<Bits<16>, u16>(self.program)?;
        writer.write_const::<Bits<3>, Bits<7>>()?;
        writer.write::<Bits<13>, u16>(self.packets)?;
        Ok(())
    }

    /// Writes the fields to the first bytes of a buffer, and returns what was written. The other bytes
    /// stay as they were. Does not allocate.
    ///
    /// # Errors
    ///
    /// `Checked` for the first field that does not fit its bits, however long the buffer is.
    /// `Stream(WriteZero)` if all fields fit, and the buffer has fewer than 4 bytes.
    /// After an error, the first bytes of the buffer may have changed.
    pub fn pack_into<'a>(&self, buffer: &'a mut [u8]) -> Result<SliceMut<'a>, Error>
        ensures packed { IfOk result (λ packed. bits High (written_bytes packed) ≡ ts_program_bits self.now) }
        ensures first { IfOk result (HoldsFirst buffer.entry.ghost_name buffer.old) }
        ensures fits { IsOk result → Fits self.now }
        ensures misfit { (error : Error) → sequence_length (ts_program_writes High self.now) 0 ≡ Err error
            → result ≡ Err error }
        ensures room { Fits self.now → 4 ≤ length buffer.old → IsOk result }
        ensures short { Fits self.now → length buffer.old < 4 → result ≡ Err (Stream WriteZero) }
    {
        pack_into::<BE, TsProgram>(self, buffer)
    }
}

impl FromBitStream for TsProgram {
    type Error = TsProgramError;

    ghost becomes = { becomes_ts_program };

    ghost reads = { ts_program_decoder };

    fn from_reader<R: BitRead>(reader: &mut R) -> Result<TsProgram, TsProgramError> {
        TsProgram::read(reader)
    }
}

impl ToBitStream for TsProgram {
    type Error = Error;

    ghost becomes = { same_error };

    ghost writes = { ts_program_writes };

    fn to_writer<W: BitWrite>(&self, writer: &mut W) -> Result<(), Error> {
        self.write(writer)
    }
}

/// A value that fits its bits is read back as it was written, in either order of bits, at any place.
/// The read takes only the bits that were written: 32 bits.
pub fn ts_program_round_trip()
    ensures back { (o : Order) (value : TsProgram) (at from : ℕ) (more : List Bool) → Fits value
        → let written = write_sequence (ts_program_writes o value) at in
        (ts_program_decoder o).reads from (written ++ more) ≡ Done (length written) (Ok (Ok value)) }
    ensures size { (o : Order) (value : TsProgram) (at : ℕ) → Fits value
        → length (write_sequence (ts_program_writes o value) at) ≡ 32 }
{}
