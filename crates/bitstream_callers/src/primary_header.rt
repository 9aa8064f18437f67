//! The primary header of a CCSDS space packet.
//!
//! Made by `./format` from formats/primary_header.fields: edit that file and make this one anew.
ghost use Rattle.bitstream_callers.specs.PrimaryHeader.{primary_header_decoder, primary_header_writes, primary_header_bits, primary_header_at, Fits, becomes_primary_header, const_at_0};
ghost use Rattle.bitstream_callers.specs.declared.primary_header.PrimaryHeader.{PrimaryHeader};
ghost use Rattle.bitstream_callers.specs.declared.primary_header.PrimaryHeaderError.{PrimaryHeaderError};
ghost use Rattle.bitstream_callers.specs.declared.primary_header.PrimaryHeaderError.TheVariants.{Reader, WrongVersion};
ghost use Rattle.std.specs.Prelude.{◌≡◌, ◌≢◌, ◌<◌, ◌≤◌, ◌++◌, ℕ, Bool, List, Ok, Err, length, IfOk, IsOk};
ghost use Rattle.std.specs.declared.io.ErrorKind.TheVariants.{WriteZero};
ghost use Rattle.bitstream_io.specs.Callers.{Done, Error, EndOfInput, Order, High, bits, write_sequence, ReadsOwn, OwnAnswer, WritesAll, sequence_length, sure_answer, Stream, same_error};
ghost use Rattle.bitstream_io.specs.SliceMut.{HoldsFirst, written_bytes};

use bitstream_io::{
    BE, BitRead, BitReadExt, BitReader, BitWrite, BitWriteExt, Bits, Error, FromBitStream,
    SliceMut, ToBitStream, pack_into,
};

/// The primary header of a CCSDS space packet.
///
/// ```text
///  0                   1                   2                   3
///  0 1 2 3 4 5 6 7 8 9 0 1 2 3 4 5 6 7 8 9 0 1 2 3 4 5 6 7 8 9 0 1
/// +-+-+-+-+-+-+-+-+-+-+-+-+-+-+-+-+-+-+-+-+-+-+-+-+-+-+-+-+-+-+-+-+
/// |  =0 |t|s|         apid        |seq|           count           |
/// +-+-+-+-+-+-+-+-+-+-+-+-+-+-+-+-+-+-+-+-+-+-+-+-+-+-+-+-+-+-+-+-+
/// |             length            |
/// +-+-+-+-+-+-+-+-+-+-+-+-+-+-+-+-+
/// ```
#[derive(Clone, Copy, Debug, PartialEq)]
pub struct PrimaryHeader {
    /// True if the packet is a telecommand, and not telemetry.
    pub telecommand: bool,
    /// True if a secondary header follows.
    pub secondary: bool,
    /// The application of the packet. Below 2^11.
    pub apid: u16,
    /// The sequence flags. Below 2^2.
    pub sequence: u8,
    /// The number of the packet in its sequence. Below 2^14.
    pub count: u16,
    /// The number of bytes in the data field, minus 1.
    pub length: u16,
}

/// The errors of reading a `PrimaryHeader`.
#[derive(Debug, Drop, thiserror::Error)]
pub enum PrimaryHeaderError {
    /// An error of the reader.
    #[error("{0}")]
    Reader(Error),
    /// The version is not 0.
    #[error("the version is not 0")]
    WrongVersion,
}

impl From<Error> for PrimaryHeaderError {
    ghost from_gives = { becomes_primary_header };

    fn from(error: Error) -> PrimaryHeaderError {
        PrimaryHeaderError::Reader(error)
    }
}

impl PrimaryHeader {
    /// The number of bits before each line of the description.
    pub const PLACES: [u64; 7] = [0, 3, 4, 5, 16, 18, 32];

    /// Reads the fields in order.
    ///
    /// # Errors
    ///
    /// `WrongVersion`, after the rejected bits have been read.
    /// Otherwise the reader's errors, after which it has failed.
    pub fn read<R: BitRead>(reader: &mut R) -> Result<PrimaryHeader, PrimaryHeaderError>
        ensures { ReadsOwn R.source becomes_primary_header (primary_header_decoder R.source.order) reader.old result reader.new }
    {
        reader.read_const::<Bits<3>, Bits<0>, PrimaryHeaderError>(
            PrimaryHeaderError::WrongVersion,
        )?;
        let telecommand = reader.read_bit()?;
        let secondary = reader.read_bit()?;
        let apid = reader.read::<Bits<11>, u16>()?;
        let sequence = reader.read::<Bits<2>, u8>()?;
        let count = reader.read::<Bits<14>, u16>()?;
        let length = reader.read::<Bits<16>, u16>()?;
        Ok(PrimaryHeader {
            telecommand,
            secondary,
            apid,
            sequence,
            count,
            length,
        })
    }

    /// Parses the value at the start of `packet`.
    ///
    /// # Errors
    ///
    /// `WrongVersion` if bits are rejected.
    /// `Reader(EndOfInput)` for fewer than 6 bytes.
    pub fn parse(packet: &[u8]) -> Result<PrimaryHeader, PrimaryHeaderError>
        ensures answer { OwnAnswer becomes_primary_header (λ answer. answer)
            (sure_answer ((primary_header_decoder High).reads 0 (bits High packet.now))) result }
        ensures there { 6 ≤ length packet.now → const_at_0 (bits High packet.now) ≡ 0
            → result ≡ Ok (primary_header_at (bits High packet.now)) }
        ensures short { length packet.now < 6
            → (1 ≤ length packet.now → const_at_0 (bits High packet.now) ≡ 0)
            → result ≡ Err (PrimaryHeaderError.Reader EndOfInput) }
        ensures wrong_version { 1 ≤ length packet.now → const_at_0 (bits High packet.now) ≢ 0
            → result ≡ Err (PrimaryHeaderError.WrongVersion) }
        ensures back { (value : PrimaryHeader) (more : List Bool) → Fits value
            → bits High packet.now ≡ primary_header_bits value ++ more → result ≡ Ok value }
    {
        primary_header_round_trip();
        PrimaryHeader::read(&mut BitReader::<_, BE>::over(packet))
    }

    /// Writes the fields in order.
    ///
    /// # Errors
    ///
    /// `Checked` for a field that does not fit its bits. The fields before it have been written.
    /// Otherwise the sink's errors.
    pub fn write<W: BitWrite>(&self, writer: &mut W) -> Result<(), Error>
        ensures { WritesAll W.sink (primary_header_writes W.sink.order self.now) writer.old result writer.new }
    {
        writer.write_const::<Bits<3>, Bits<0>>()?;
        writer.write_bit(self.telecommand)?;
        writer.write_bit(self.secondary)?;
        writer.write::<Bits<11>, u16>(self.apid)?;
        writer.write::<Bits<2>, u8>(self.sequence)?;
        writer.write::<Bits<14>, u16>(self.count)?;
        writer.write::<Bits<16>, u16>(self.length)?;
        Ok(())
    }

    /// Writes the fields to the first bytes of a buffer, and returns what was written. The other bytes
    /// stay as they were. Does not allocate.
    ///
    /// # Errors
    ///
    /// `Checked` for the first field that does not fit its bits, however long the buffer is.
    /// `Stream(WriteZero)` if all fields fit, and the buffer has fewer than 6 bytes.
    /// After an error, the first bytes of the buffer may have changed.
    pub fn pack_into<'a>(&self, buffer: &'a mut [u8]) -> Result<SliceMut<'a>, Error>
        ensures packed { IfOk result (λ packed. bits High (written_bytes packed) ≡ primary_header_bits self.now) }
        ensures first { IfOk result (HoldsFirst buffer.entry.ghost_name buffer.old) }
        ensures fits { IsOk result → Fits self.now }
        ensures misfit { (error : Error) → sequence_length (primary_header_writes High self.now) 0 ≡ Err error
            → result ≡ Err error }
        ensures room { Fits self.now → 6 ≤ length buffer.old → IsOk result }
        ensures short { Fits self.now → length buffer.old < 6 → result ≡ Err (Stream WriteZero) }
    {
        pack_into::<BE, PrimaryHeader>(self, buffer)
    }
}

impl FromBitStream for PrimaryHeader {
    type Error = PrimaryHeaderError;

    ghost becomes = { becomes_primary_header };

    ghost reads = { primary_header_decoder };

    fn from_reader<R: BitRead>(reader: &mut R) -> Result<PrimaryHeader, PrimaryHeaderError> {
        PrimaryHeader::read(reader)
    }
}

impl ToBitStream for PrimaryHeader {
    type Error = Error;

    ghost becomes = { same_error };

    ghost writes = { primary_header_writes };

    fn to_writer<W: BitWrite>(&self, writer: &mut W) -> Result<(), Error> {
        self.write(writer)
    }
}

/// A value that fits its bits is read back as it was written, in either order of bits, at any place.
/// The read takes only the bits that were written: 48 bits.
pub fn primary_header_round_trip()
    ensures back { (o : Order) (value : PrimaryHeader) (at from : ℕ) (more : List Bool) → Fits value
        → let written = write_sequence (primary_header_writes o value) at in
        (primary_header_decoder o).reads from (written ++ more) ≡ Done (length written) (Ok (Ok value)) }
    ensures size { (o : Order) (value : PrimaryHeader) (at : ℕ) → Fits value
        → length (write_sequence (primary_header_writes o value) at) ≡ 48 }
{}
