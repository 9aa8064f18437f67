//! The header of a page of Ogg (RFC 3533, section 6), without the lengths of its segments.
//!
//! Made by `./format` from formats/ogg_header.fields: edit that file and make this one anew.
ghost use Rattle.bitstream_formats.specs.OggHeader.{ogg_header_decoder, ogg_header_writes, ogg_header_bits, ogg_header_at, Fits, becomes_ogg_header, const_at_0, const_at_32};
ghost use Rattle.bitstream_formats.specs.declared.ogg_header.OggHeader.{OggHeader};
ghost use Rattle.bitstream_formats.specs.declared.ogg_header.OggHeaderError.{OggHeaderError};
ghost use Rattle.bitstream_formats.specs.declared.ogg_header.OggHeaderError.TheVariants.{Reader, NoCapture, UnknownVersion};
ghost use Rattle.std.specs.Prelude.{◌≡◌, ◌≢◌, ◌<◌, ◌≤◌, ◌++◌, ℕ, Bool, List, Ok, Err, length, IfOk, IsOk};
ghost use Rattle.std.specs.declared.io.ErrorKind.TheVariants.{WriteZero};
ghost use Rattle.bitstream_io.specs.Callers.{Done, Error, EndOfInput, Order, Low, bits, write_sequence, ReadsOwn, OwnAnswer, WritesAll, sequence_length, sure_answer, Stream, same_error};
ghost use Rattle.bitstream_io.specs.SliceMut.{HoldsFirst, written_bytes};

use bitstream_io::{
    BitRead, BitReadExt, BitReader, BitWrite, BitWriteExt, Bits, Error, FromBitStream, LE,
    SliceMut, ToBitStream, pack_into,
};

/// The header of a page of Ogg (RFC 3533, section 6), without the lengths of its segments.
///
/// ```text
///  0                   1                   2                   3
///  0 1 2 3 4 5 6 7 8 9 0 1 2 3 4 5 6 7 8 9 0 1 2 3 4 5 6 7 8 9 0 1
/// +-+-+-+-+-+-+-+-+-+-+-+-+-+-+-+-+-+-+-+-+-+-+-+-+-+-+-+-+-+-+-+-+
/// |                          =1399285583                          |
/// +-+-+-+-+-+-+-+-+-+-+-+-+-+-+-+-+-+-+-+-+-+-+-+-+-+-+-+-+-+-+-+-+
/// |       =0      |c|f|l|  unused |                               |
/// +-+-+-+-+-+-+-+-+-+-+-+-+-+-+-+-+-+-+-+-+-+-+-+-+-+-+-+-+-+-+-+-+
/// |                            granule                            |
/// +-+-+-+-+-+-+-+-+-+-+-+-+-+-+-+-+-+-+-+-+-+-+-+-+-+-+-+-+-+-+-+-+
/// |                               |             serial            |
/// +-+-+-+-+-+-+-+-+-+-+-+-+-+-+-+-+-+-+-+-+-+-+-+-+-+-+-+-+-+-+-+-+
/// |                               |            sequence           |
/// +-+-+-+-+-+-+-+-+-+-+-+-+-+-+-+-+-+-+-+-+-+-+-+-+-+-+-+-+-+-+-+-+
/// |                               |            checksum           |
/// +-+-+-+-+-+-+-+-+-+-+-+-+-+-+-+-+-+-+-+-+-+-+-+-+-+-+-+-+-+-+-+-+
/// |                               |    segments   |
/// +-+-+-+-+-+-+-+-+-+-+-+-+-+-+-+-+-+-+-+-+-+-+-+-+
/// ```
#[derive(Clone, Copy, Debug, PartialEq)]
pub struct OggHeader {
    /// True if the first packet of the page began in an earlier page.
    pub continued: bool,
    /// True if the page is the first one of its stream.
    pub first: bool,
    /// True if the page is the last one of its stream.
    pub last: bool,
    /// Bits without a meaning. Below 2^5.
    pub unused: u8,
    /// The position in the stream after the packets that end in the page.
    pub granule: u64,
    /// The number of the stream.
    pub serial: u32,
    /// The number of the page in its stream.
    pub sequence: u32,
    /// The checksum of the page.
    pub checksum: u32,
    /// How many segments the page has.
    pub segments: u8,
}

/// The errors of reading an `OggHeader`.
#[derive(Debug, Drop, thiserror::Error)]
pub enum OggHeaderError {
    /// An error of the reader.
    #[error("{0}")]
    Reader(Error),
    /// No page begins here.
    #[error("no page begins here")]
    NoCapture,
    /// The version of the page is not 0.
    #[error("the version of the page is not 0")]
    UnknownVersion,
}

impl From<Error> for OggHeaderError {
    ghost from_gives = { becomes_ogg_header };

    fn from(error: Error) -> OggHeaderError {
        OggHeaderError::Reader(error)
    }
}

impl OggHeader {
    /// The number of bits before each line of the description.
    pub const PLACES: [u64; 11] = [0, 32, 40, 41, 42, 43, 48, 112, 144, 176, 208];

    /// Reads the fields in order.
    ///
    /// # Errors
    ///
    /// `NoCapture` or `UnknownVersion`, after the rejected bits have been read.
    /// Otherwise the reader's errors, after which it has failed.
    pub fn read<R: BitRead>(reader: &mut R) -> Result<OggHeader, OggHeaderError>
        ensures { ReadsOwn R.source becomes_ogg_header (ogg_header_decoder R.source.order) reader.old result reader.new }
    {
        reader.read_const::<Bits<32>, Bits<1399285583>, OggHeaderError>(OggHeaderError::NoCapture)?;
        reader.read_const::<Bits<8>, Bits<0>, OggHeaderError>(OggHeaderError::UnknownVersion)?;
        let continued = reader.read_bit()?;
        let first = reader.read_bit()?;
        let last = reader.read_bit()?;
        let unused = reader.read::<Bits<5>, u8>()?;
        let granule = reader.read::<Bits<64>, u64>()?;
        let serial = reader.read::<Bits<32>, u32>()?;
        let sequence = reader.read::<Bits<32>, u32>()?;
        let checksum = reader.read::<Bits<32>, u32>()?;
        let segments = reader.read::<Bits<8>, u8>()?;
        Ok(OggHeader {
            continued,
            first,
            last,
            unused,
            granule,
            serial,
            sequence,
            checksum,
            segments,
        })
    }

    /// Parses the value at the start of `packet`.
    ///
    /// # Errors
    ///
    /// `NoCapture` or `UnknownVersion` if bits are rejected.
    /// `Reader(EndOfInput)` for fewer than 27 bytes.
    pub fn parse(packet: &[u8]) -> Result<OggHeader, OggHeaderError>
        ensures answer { OwnAnswer becomes_ogg_header (λ answer. answer)
            (sure_answer ((ogg_header_decoder Low).reads 0 (bits Low packet.now))) result }
        ensures there { 27 ≤ length packet.now → const_at_0 (bits Low packet.now) ≡ 1399285583
            → const_at_32 (bits Low packet.now) ≡ 0
            → result ≡ Ok (ogg_header_at (bits Low packet.now)) }
        ensures short { length packet.now < 27
            → (4 ≤ length packet.now → const_at_0 (bits Low packet.now) ≡ 1399285583)
            → (5 ≤ length packet.now → const_at_32 (bits Low packet.now) ≡ 0)
            → result ≡ Err (OggHeaderError.Reader EndOfInput) }
        ensures no_capture { 4 ≤ length packet.now → const_at_0 (bits Low packet.now) ≢ 1399285583
            → result ≡ Err (OggHeaderError.NoCapture) }
        ensures unknown_version { 5 ≤ length packet.now
            → const_at_0 (bits Low packet.now) ≡ 1399285583 → const_at_32 (bits Low packet.now) ≢ 0
            → result ≡ Err (OggHeaderError.UnknownVersion) }
        ensures back { (value : OggHeader) (more : List Bool) → Fits value
            → bits Low packet.now ≡ ogg_header_bits value ++ more → result ≡ Ok value }
    {
        ogg_header_round_trip();
        OggHeader::read(&mut BitReader::<_, LE>::over(packet))
    }

    /// Writes the fields in order.
    ///
    /// # Errors
    ///
    /// `Checked` for a field that does not fit its bits. The fields before it have been written.
    /// Otherwise the sink's errors.
    pub fn write<W: BitWrite>(&self, writer: &mut W) -> Result<(), Error>
        ensures { WritesAll W.sink (ogg_header_writes W.sink.order self.now) writer.old result writer.new }
    {
        writer.write_const::<Bits<32>, Bits<1399285583>>()?;
        writer.write_const::<Bits<8>, Bits<0>>()?;
        writer.write_bit(self.continued)?;
        writer.write_bit(self.first)?;
        writer.write_bit(self.last)?;
        writer.write::<Bits<5>, u8>(self.unused)?;
        writer.write::<Bits<64>, u64>(self.granule)?;
        writer.write::<Bits<32>, u32>(self.serial)?;
        writer.write::<Bits<32>, u32>(self.sequence)?;
        writer.write::<Bits<32>, u32>(self.checksum)?;
        writer.write::<Bits<8>, u8>(self.segments)?;
        Ok(())
    }

    /// Writes the fields to the first bytes of a buffer, and returns what was written. The other bytes
    /// stay as they were. Does not allocate.
    ///
    /// # Errors
    ///
    /// `Checked` for the first field that does not fit its bits, however long the buffer is.
    /// `Stream(WriteZero)` if all fields fit, and the buffer has fewer than 27 bytes.
    /// After an error, the first bytes of the buffer may have changed.
    pub fn pack_into<'a>(&self, buffer: &'a mut [u8]) -> Result<SliceMut<'a>, Error>
        ensures packed { IfOk result (λ packed. bits Low (written_bytes packed) ≡ ogg_header_bits self.now) }
        ensures first { IfOk result (HoldsFirst buffer.entry.ghost_name buffer.old) }
        ensures fits { IsOk result → Fits self.now }
        ensures misfit { (error : Error) → sequence_length (ogg_header_writes Low self.now) 0 ≡ Err error
            → result ≡ Err error }
        ensures room { Fits self.now → 27 ≤ length buffer.old → IsOk result }
        ensures short { Fits self.now → length buffer.old < 27 → result ≡ Err (Stream WriteZero) }
    {
        pack_into::<LE, OggHeader>(self, buffer)
    }
}

impl FromBitStream for OggHeader {
    type Error = OggHeaderError;

    ghost becomes = { becomes_ogg_header };

    ghost reads = { ogg_header_decoder };

    fn from_reader<R: BitRead>(reader: &mut R) -> Result<OggHeader, OggHeaderError> {
        OggHeader::read(reader)
    }
}

impl ToBitStream for OggHeader {
    type Error = Error;

    ghost becomes = { same_error };

    ghost writes = { ogg_header_writes };

    fn to_writer<W: BitWrite>(&self, writer: &mut W) -> Result<(), Error> {
        self.write(writer)
    }
}

/// A value that fits its bits is read back as it was written, in either order of bits, at any place.
/// The read takes only the bits that were written: 216 bits.
pub fn ogg_header_round_trip()
    ensures back { (o : Order) (value : OggHeader) (at from : ℕ) (more : List Bool) → Fits value
        → let written = write_sequence (ogg_header_writes o value) at in
        (ogg_header_decoder o).reads from (written ++ more) ≡ Done (length written) (Ok (Ok value)) }
    ensures size { (o : Order) (value : OggHeader) (at : ℕ) → Fits value
        → length (write_sequence (ogg_header_writes o value) at) ≡ 216 }
{}
