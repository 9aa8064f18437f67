//! The header before a frame of AAC (ISO/IEC 14496-3, section 1.A.2.2), without its checksum.
//!
//! Made by `./format` from formats/adts_header.fields: edit that file and make this one anew.
ghost use Rattle.bitstream_formats.specs.AdtsHeader.{adts_header_decoder, adts_header_writes, adts_header_bits, adts_header_at, Fits, becomes_adts_header, const_at_0, const_at_13};
ghost use Rattle.bitstream_formats.specs.declared.adts_header.AdtsHeader.{AdtsHeader};
ghost use Rattle.bitstream_formats.specs.declared.adts_header.AdtsHeaderError.{AdtsHeaderError};
ghost use Rattle.bitstream_formats.specs.declared.adts_header.AdtsHeaderError.TheVariants.{Reader, NoSync, UnknownLayer};
ghost use Rattle.std.specs.Prelude.{◌≡◌, ◌≢◌, ◌<◌, ◌≤◌, ◌++◌, ℕ, Bool, List, Ok, Err, length, IfOk, IsOk};
ghost use Rattle.std.specs.declared.io.ErrorKind.TheVariants.{WriteZero};
ghost use Rattle.bitstream_io.specs.Callers.{Done, Error, EndOfInput, Order, High, bits, write_sequence, ReadsOwn, OwnAnswer, WritesAll, sequence_length, sure_answer, Stream, same_error};
ghost use Rattle.bitstream_io.specs.SliceMut.{HoldsFirst, written_bytes};

use bitstream_io::{
    BE, BitRead, BitReadExt, BitReader, BitWrite, BitWriteExt, Bits, Error, FromBitStream,
    SliceMut, ToBitStream, pack_into,
};

/// The header before a frame of AAC (ISO/IEC 14496-3, section 1.A.2.2), without its checksum.
///
/// ```text
///  0                   1                   2                   3
///  0 1 2 3 4 5 6 7 8 9 0 1 2 3 4 5 6 7 8 9 0 1 2 3 4 5 6 7 8 9 0 1
/// +-+-+-+-+-+-+-+-+-+-+-+-+-+-+-+-+-+-+-+-+-+-+-+-+-+-+-+-+-+-+-+-+
/// |         =4095         |m| =0|p|pro|frequen|p|chann|o|h|c|c|   |
/// +-+-+-+-+-+-+-+-+-+-+-+-+-+-+-+-+-+-+-+-+-+-+-+-+-+-+-+-+-+-+-+-+
/// |     frame_length    |       fullness      |blo|
/// +-+-+-+-+-+-+-+-+-+-+-+-+-+-+-+-+-+-+-+-+-+-+-+-+
/// ```
#[derive(Clone, Copy, Debug, PartialEq)]
pub struct AdtsHeader {
    /// True if the frame is MPEG-2, and not MPEG-4.
    pub mpeg_2: bool,
    /// True if no checksum follows.
    pub protection_absent: bool,
    /// The profile. Below 2^2.
    pub profile: u8,
    /// The index of the sampling frequency. Below 2^4.
    pub frequency: u8,
    /// A bit for private use.
    pub private: bool,
    /// The channel configuration. Below 2^3.
    pub channels: u8,
    /// True if the work is an original.
    pub original: bool,
    /// True if the work is for the home.
    pub home: bool,
    /// A bit of the number that is registered for the work.
    pub copyright_id: bool,
    /// True if that number starts here.
    pub copyright_start: bool,
    /// The number of bytes of the frame, including this header. Below 2^13.
    pub frame_length: u16,
    /// The fullness of the buffer. Below 2^11.
    pub fullness: u16,
    /// The frame's blocks, less 1. Below 2^2.
    pub blocks: u8,
}

/// The errors of reading an `AdtsHeader`.
#[derive(Debug, Drop, thiserror::Error)]
pub enum AdtsHeaderError {
    /// An error of the reader.
    #[error("{0}")]
    Reader(Error),
    /// The bits do not begin with the syncword.
    #[error("the bits do not begin with the syncword")]
    NoSync,
    /// The layer is not 0.
    #[error("the layer is not 0")]
    UnknownLayer,
}

impl From<Error> for AdtsHeaderError {
    ghost from_gives = { becomes_adts_header };

    fn from(error: Error) -> AdtsHeaderError {
        AdtsHeaderError::Reader(error)
    }
}

impl AdtsHeader {
    /// The number of bits before each line of the description.
    pub const PLACES: [u64; 15] = [0, 12, 13, 15, 16, 18, 22, 23, 26, 27, 28, 29, 30, 43, 54];

    /// Reads the fields in order.
    ///
    /// # Errors
    ///
    /// `NoSync` or `UnknownLayer`, after the rejected bits have been read.
    /// Otherwise the reader's errors, after which it has failed.
    pub fn read<R: BitRead>(reader: &mut R) -> Result<AdtsHeader, AdtsHeaderError>
        ensures { ReadsOwn R.source becomes_adts_header (adts_header_decoder R.source.order) reader.old result reader.new }
    {
        reader.read_const::<Bits<12>, Bits<4095>, AdtsHeaderError>(AdtsHeaderError::NoSync)?;
        let mpeg_2 = reader.read_bit()?;
        reader.read_const::<Bits<2>, Bits<0>, AdtsHeaderError>(AdtsHeaderError::UnknownLayer)?;
        let protection_absent = reader.read_bit()?;
        let profile = reader.read::<Bits<2>, u8>()?;
        let frequency = reader.read::<Bits<4>, u8>()?;
        let private = reader.read_bit()?;
        let channels = reader.read::<Bits<3>, u8>()?;
        let original = reader.read_bit()?;
        let home = reader.read_bit()?;
        let copyright_id = reader.read_bit()?;
        let copyright_start = reader.read_bit()?;
        let frame_length = reader.read::<Bits<13>, u16>()?;
        let fullness = reader.read::<Bits<11>, u16>()?;
        let blocks = reader.read::<Bits<2>, u8>()?;
        Ok(AdtsHeader {
            mpeg_2,
            protection_absent,
            profile,
            frequency,
            private,
            channels,
            original,
            home,
            copyright_id,
            copyright_start,
            frame_length,
            fullness,
            blocks,
        })
    }

    /// Parses the value at the start of `packet`.
    ///
    /// # Errors
    ///
    /// `NoSync` or `UnknownLayer` if bits are rejected.
    /// `Reader(EndOfInput)` for fewer than 7 bytes.
    pub fn parse(packet: &[u8]) -> Result<AdtsHeader, AdtsHeaderError>
        ensures answer { OwnAnswer becomes_adts_header (λ answer. answer)
            (sure_answer ((adts_header_decoder High).reads 0 (bits High packet.now))) result }
        ensures there { 7 ≤ length packet.now → const_at_0 (bits High packet.now) ≡ 4095
            → const_at_13 (bits High packet.now) ≡ 0
            → result ≡ Ok (adts_header_at (bits High packet.now)) }
        ensures short { length packet.now < 7
            → (2 ≤ length packet.now → const_at_0 (bits High packet.now) ≡ 4095)
            → (2 ≤ length packet.now → const_at_13 (bits High packet.now) ≡ 0)
            → result ≡ Err (AdtsHeaderError.Reader EndOfInput) }
        ensures no_sync { 2 ≤ length packet.now → const_at_0 (bits High packet.now) ≢ 4095
            → result ≡ Err (AdtsHeaderError.NoSync) }
        ensures unknown_layer { 2 ≤ length packet.now → const_at_0 (bits High packet.now) ≡ 4095
            → const_at_13 (bits High packet.now) ≢ 0 → result ≡ Err (AdtsHeaderError.UnknownLayer) }
        ensures back { (value : AdtsHeader) (more : List Bool) → Fits value
            → bits High packet.now ≡ adts_header_bits value ++ more → result ≡ Ok value }
    {
        adts_header_round_trip();
        AdtsHeader::read(&mut BitReader::<_, BE>::over(packet))
    }

    /// Writes the fields in order.
    ///
    /// # Errors
    ///
    /// `Checked` for a field that does not fit its bits. The fields before it have been written.
    /// Otherwise the sink's errors.
    pub fn write<W: BitWrite>(&self, writer: &mut W) -> Result<(), Error>
        ensures { WritesAll W.sink (adts_header_writes W.sink.order self.now) writer.old result writer.new }
    {
        writer.write_const::<Bits<12>, Bits<4095>>()?;
        writer.write_bit(self.mpeg_2)?;
        writer.write_const::<Bits<2>, Bits<0>>()?;
        writer.write_bit(self.protection_absent)?;
        writer.write::<Bits<2>, u8>(self.profile)?;
        writer.write::<Bits<4>, u8>(self.frequency)?;
        writer.write_bit(self.private)?;
        writer.write::<Bits<3>, u8>(self.channels)?;
        writer.write_bit(self.original)?;
        writer.write_bit(self.home)?;
        writer.write_bit(self.copyright_id)?;
        writer.write_bit(self.copyright_start)?;
        writer.write::<Bits<13>, u16>(self.frame_length)?;
        writer.write::<Bits<11>, u16>(self.fullness)?;
        writer.write::<Bits<2>, u8>(self.blocks)?;
        Ok(())
    }

    /// Writes the fields to the first bytes of a buffer, and returns what was written. The other bytes
    /// stay as they were. Does not allocate.
    ///
    /// # Errors
    ///
    /// `Checked` for the first field that does not fit its bits, however long the buffer is.
    /// `Stream(WriteZero)` if all fields fit, and the buffer has fewer than 7 bytes.
    /// After an error, the first bytes of the buffer may have changed.
    pub fn pack_into<'a>(&self, buffer: &'a mut [u8]) -> Result<SliceMut<'a>, Error>
        ensures packed { IfOk result (λ packed. bits High (written_bytes packed) ≡ adts_header_bits self.now) }
        ensures first { IfOk result (HoldsFirst buffer.entry.ghost_name buffer.old) }
        ensures fits { IsOk result → Fits self.now }
        ensures misfit { (error : Error) → sequence_length (adts_header_writes High self.now) 0 ≡ Err error
            → result ≡ Err error }
        ensures room { Fits self.now → 7 ≤ length buffer.old → IsOk result }
        ensures short { Fits self.now → length buffer.old < 7 → result ≡ Err (Stream WriteZero) }
    {
        pack_into::<BE, AdtsHeader>(self, buffer)
    }
}

impl FromBitStream for AdtsHeader {
    type Error = AdtsHeaderError;

    ghost becomes = { becomes_adts_header };

    ghost reads = { adts_header_decoder };

    fn from_reader<R: BitRead>(reader: &mut R) -> Result<AdtsHeader, AdtsHeaderError> {
        AdtsHeader::read(reader)
    }
}

impl ToBitStream for AdtsHeader {
    type Error = Error;

    ghost becomes = { same_error };

    ghost writes = { adts_header_writes };

    fn to_writer<W: BitWrite>(&self, writer: &mut W) -> Result<(), Error> {
        self.write(writer)
    }
}

/// A value that fits its bits is read back as it was written, in either order of bits, at any place.
/// The read takes only the bits that were written: 56 bits.
pub fn adts_header_round_trip()
    ensures back { (o : Order) (value : AdtsHeader) (at from : ℕ) (more : List Bool) → Fits value
        → let written = write_sequence (adts_header_writes o value) at in
        (adts_header_decoder o).reads from (written ++ more) ≡ Done (length written) (Ok (Ok value)) }
    ensures size { (o : Order) (value : AdtsHeader) (at : ℕ) → Fits value
        → length (write_sequence (adts_header_writes o value) at) ≡ 56 }
{}
