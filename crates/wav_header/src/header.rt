//! The first 44 bytes of a WAV file whose first two chunks are `fmt ` and `data`.
//!
//! Made by `./format` from formats/header.fields: edit that file and make this one anew.
ghost use Rattle.wav_header.specs.Header.{header_decoder, header_writes, header_bits, header_at, Fits, becomes_header, const_at_0, const_at_64, const_at_96, const_at_128, const_at_288, coding_of, coding_number, coding_read};
ghost use Rattle.wav_header.specs.declared.header.Header.{Header};
ghost use Rattle.wav_header.specs.declared.header.HeaderError.{HeaderError};
ghost use Rattle.wav_header.specs.declared.header.HeaderError.TheVariants.{Reader, NoRiff, NoWave, NoFormat, LongFormat, NoData};
ghost use Rattle.std.specs.Prelude.{◌≡◌, ◌≢◌, ◌<◌, ◌≤◌, ◌++◌, ℕ, Bool, List, Ok, Err, length, IfOk, IsOk};
ghost use Rattle.std.specs.declared.io.ErrorKind.TheVariants.{WriteZero};
ghost use Rattle.bitstream_io.specs.Callers.{Done, Error, EndOfInput, Order, Low, bits, write_sequence, Reads, ReadsOwn, OwnAnswer, WritesAll, AllAccepted, sequence_length, sure_answer, Stream, same_error};
ghost use Rattle.bitstream_io.specs.SliceMut.{HoldsFirst, written_bytes};

use bitstream_io::{
    BitRead, BitReadExt, BitReader, BitWrite, BitWriteExt, Bits, Error, FromBitStream, LE,
    SliceMut, ToBitStream, pack_into,
};

/// The first 44 bytes of a WAV file whose first two chunks are `fmt ` and `data`.
///
/// ```text
///  0                   1                   2                   3
///  0 1 2 3 4 5 6 7 8 9 0 1 2 3 4 5 6 7 8 9 0 1 2 3 4 5 6 7 8 9 0 1
/// +-+-+-+-+-+-+-+-+-+-+-+-+-+-+-+-+-+-+-+-+-+-+-+-+-+-+-+-+-+-+-+-+
/// |                          =1179011410                          |
/// +-+-+-+-+-+-+-+-+-+-+-+-+-+-+-+-+-+-+-+-+-+-+-+-+-+-+-+-+-+-+-+-+
/// |                              size                             |
/// +-+-+-+-+-+-+-+-+-+-+-+-+-+-+-+-+-+-+-+-+-+-+-+-+-+-+-+-+-+-+-+-+
/// |                          =1163280727                          |
/// +-+-+-+-+-+-+-+-+-+-+-+-+-+-+-+-+-+-+-+-+-+-+-+-+-+-+-+-+-+-+-+-+
/// |                           =544501094                          |
/// +-+-+-+-+-+-+-+-+-+-+-+-+-+-+-+-+-+-+-+-+-+-+-+-+-+-+-+-+-+-+-+-+
/// |                              =16                              |
/// +-+-+-+-+-+-+-+-+-+-+-+-+-+-+-+-+-+-+-+-+-+-+-+-+-+-+-+-+-+-+-+-+
/// |             coding            |            channels           |
/// +-+-+-+-+-+-+-+-+-+-+-+-+-+-+-+-+-+-+-+-+-+-+-+-+-+-+-+-+-+-+-+-+
/// |                          sample_rate                          |
/// +-+-+-+-+-+-+-+-+-+-+-+-+-+-+-+-+-+-+-+-+-+-+-+-+-+-+-+-+-+-+-+-+
/// |                           byte_rate                           |
/// +-+-+-+-+-+-+-+-+-+-+-+-+-+-+-+-+-+-+-+-+-+-+-+-+-+-+-+-+-+-+-+-+
/// |           block_size          |        bits_per_sample        |
/// +-+-+-+-+-+-+-+-+-+-+-+-+-+-+-+-+-+-+-+-+-+-+-+-+-+-+-+-+-+-+-+-+
/// |                          =1635017060                          |
/// +-+-+-+-+-+-+-+-+-+-+-+-+-+-+-+-+-+-+-+-+-+-+-+-+-+-+-+-+-+-+-+-+
/// |                           data_size                           |
/// +-+-+-+-+-+-+-+-+-+-+-+-+-+-+-+-+-+-+-+-+-+-+-+-+-+-+-+-+-+-+-+-+
/// ```
#[derive(Clone, Copy, Debug, PartialEq)]
pub struct Header {
    /// The number of bytes after this field.
    pub size: u32,
    /// The coding of samples.
    pub coding: Coding,
    /// The number of channels.
    pub channels: u16,
    /// Samples per second, in each channel.
    pub sample_rate: u32,
    /// Bytes per second.
    pub byte_rate: u32,
    /// The bytes of one sample of all channels.
    pub block_size: u16,
    /// The bits of a sample of one channel.
    pub bits_per_sample: u16,
    /// The bytes of all samples.
    pub data_size: u32,
}

/// The errors of reading a `Header`.
#[derive(Debug, Drop, thiserror::Error)]
pub enum HeaderError {
    /// An error of the reader.
    #[error("{0}")]
    Reader(Error),
    /// The file does not begin with `RIFF`.
    #[error("the file does not begin with `RIFF`")]
    NoRiff,
    /// The form of the RIFF file is not `WAVE`.
    #[error("the form of the RIFF file is not `WAVE`")]
    NoWave,
    /// The first chunk is not `fmt `.
    #[error("the first chunk is not `fmt `")]
    NoFormat,
    /// The chunk `fmt ` does not have 16 bytes.
    #[error("the chunk `fmt ` does not have 16 bytes")]
    LongFormat,
    /// The second chunk is not `data`.
    #[error("the second chunk is not `data`")]
    NoData,
}

impl From<Error> for HeaderError {
    ghost from_gives = { becomes_header };

    fn from(error: Error) -> HeaderError {
        HeaderError::Reader(error)
    }
}

/// The coding of samples.
#[derive(Clone, Copy, Debug, PartialEq)]
pub enum Coding {
    /// Encoded as 1.
    Pcm,
    /// Encoded as 3.
    Float,
    /// Encoded as 6.
    ALaw,
    /// Encoded as 7.
    MuLaw,
    /// Any other number.
    Other(u16),
}

impl Coding {
    /// Decodes a number.
    pub fn of(number: u16) -> Coding
        ensures { result ≡ coding_of number }
    {
        if number == 1 {
            return Coding::Pcm;
        }
        if number == 3 {
            return Coding::Float;
        }
        if number == 6 {
            return Coding::ALaw;
        }
        if number == 7 {
            return Coding::MuLaw;
        }
        Coding::Other(number)
    }

    /// Returns the number of the case.
    pub fn number(self) -> u16
        ensures { result ≡ coding_number self }
    {
        match self {
            Coding::Pcm => 1,
            Coding::Float => 3,
            Coding::ALaw => 6,
            Coding::MuLaw => 7,
            Coding::Other(number) => number,
        }
    }

    /// Reads a number of 16 bits, and decodes it.
    pub fn read<R: BitRead>(reader: &mut R) -> Result<Coding, Error>
        ensures { Reads R.source (coding_read R.source.order) reader.old result reader.new }
    {
        let number = reader.read::<Bits<16>, u16>()?;
        Ok(Coding::of(number))
    }
}

impl Header {
    /// The number of bits before each line of the description.
    pub const PLACES: [u64; 13] = [0, 32, 64, 96, 128, 160, 176, 192, 224, 256, 272, 288, 320];

    /// Reads the fields in order.
    ///
    /// # Errors
    ///
    /// `NoRiff`, `NoWave`, `NoFormat`, `LongFormat` or `NoData`, after the rejected bits have been read.
    /// Otherwise the reader's errors, after which it has failed.
    pub fn read<R: BitRead>(reader: &mut R) -> Result<Header, HeaderError>
        ensures { ReadsOwn R.source becomes_header (header_decoder R.source.order) reader.old result reader.new }
    {
        reader.read_const::<Bits<32>, Bits<1179011410>, HeaderError>(HeaderError::NoRiff)?;
        let size = reader.read::<Bits<32>, u32>()?;
        reader.read_const::<Bits<32>, Bits<1163280727>, HeaderError>(HeaderError::NoWave)?;
        reader.read_const::<Bits<32>, Bits<544501094>, HeaderError>(HeaderError::NoFormat)?;
        reader.read_const::<Bits<32>, Bits<16>, HeaderError>(HeaderError::LongFormat)?;
        let coding = Coding::read(reader)?;
        let channels = reader.read::<Bits<16>, u16>()?;
        let sample_rate = reader.read::<Bits<32>, u32>()?;
        let byte_rate = reader.read::<Bits<32>, u32>()?;
        let block_size = reader.read::<Bits<16>, u16>()?;
        let bits_per_sample = reader.read::<Bits<16>, u16>()?;
        reader.read_const::<Bits<32>, Bits<1635017060>, HeaderError>(HeaderError::NoData)?;
        let data_size = reader.read::<Bits<32>, u32>()?;
        Ok(Header {
            size,
            coding,
            channels,
            sample_rate,
            byte_rate,
            block_size,
            bits_per_sample,
            data_size,
        })
    }

    /// Parses the value at the start of `packet`.
    ///
    /// # Errors
    ///
    /// `NoRiff`, `NoWave`, `NoFormat`, `LongFormat` or `NoData` if bits are rejected.
    /// `Reader(EndOfInput)` for fewer than 44 bytes.
    pub fn parse(packet: &[u8]) -> Result<Header, HeaderError>
        ensures answer { OwnAnswer becomes_header (λ answer. answer)
            (sure_answer ((header_decoder Low).reads 0 (bits Low packet.now))) result }
        ensures there { 44 ≤ length packet.now → const_at_0 (bits Low packet.now) ≡ 1179011410
            → const_at_64 (bits Low packet.now) ≡ 1163280727
            → const_at_96 (bits Low packet.now) ≡ 544501094
            → const_at_128 (bits Low packet.now) ≡ 16
            → const_at_288 (bits Low packet.now) ≡ 1635017060
            → result ≡ Ok (header_at (bits Low packet.now)) }
        ensures short { length packet.now < 44
            → (4 ≤ length packet.now → const_at_0 (bits Low packet.now) ≡ 1179011410)
            → (12 ≤ length packet.now → const_at_64 (bits Low packet.now) ≡ 1163280727)
            → (16 ≤ length packet.now → const_at_96 (bits Low packet.now) ≡ 544501094)
            → (20 ≤ length packet.now → const_at_128 (bits Low packet.now) ≡ 16)
            → (40 ≤ length packet.now → const_at_288 (bits Low packet.now) ≡ 1635017060)
            → result ≡ Err (HeaderError.Reader EndOfInput) }
        ensures no_riff { 4 ≤ length packet.now → const_at_0 (bits Low packet.now) ≢ 1179011410
            → result ≡ Err (HeaderError.NoRiff) }
        ensures no_wave { 12 ≤ length packet.now → const_at_0 (bits Low packet.now) ≡ 1179011410
            → const_at_64 (bits Low packet.now) ≢ 1163280727 → result ≡ Err (HeaderError.NoWave) }
        ensures no_format { 16 ≤ length packet.now → const_at_0 (bits Low packet.now) ≡ 1179011410
            → const_at_64 (bits Low packet.now) ≡ 1163280727
            → const_at_96 (bits Low packet.now) ≢ 544501094 → result ≡ Err (HeaderError.NoFormat) }
        ensures long_format { 20 ≤ length packet.now → const_at_0 (bits Low packet.now) ≡ 1179011410
            → const_at_64 (bits Low packet.now) ≡ 1163280727
            → const_at_96 (bits Low packet.now) ≡ 544501094
            → const_at_128 (bits Low packet.now) ≢ 16 → result ≡ Err (HeaderError.LongFormat) }
        ensures no_data { 40 ≤ length packet.now → const_at_0 (bits Low packet.now) ≡ 1179011410
            → const_at_64 (bits Low packet.now) ≡ 1163280727
            → const_at_96 (bits Low packet.now) ≡ 544501094
            → const_at_128 (bits Low packet.now) ≡ 16
            → const_at_288 (bits Low packet.now) ≢ 1635017060 → result ≡ Err (HeaderError.NoData) }
        ensures back { (value : Header) (more : List Bool) → Fits value
            → bits Low packet.now ≡ header_bits value ++ more → result ≡ Ok value }
    {
        header_round_trip();
        Header::read(&mut BitReader::<_, LE>::over(packet))
    }

    /// Writes the fields in order.
    ///
    /// # Errors
    ///
    /// `Checked` for a field that does not fit its bits. The fields before it have been written.
    /// Otherwise the sink's errors.
    pub fn write<W: BitWrite>(&self, writer: &mut W) -> Result<(), Error>
        ensures { WritesAll W.sink (header_writes W.sink.order self.now) writer.old result writer.new }
    {
        writer.write_const::<Bits<32>, Bits<1179011410>>()?;
        writer.write::<Bits<32>, u32>(self.size)?;
        writer.write_const::<Bits<32>, Bits<1163280727>>()?;
        writer.write_const::<Bits<32>, Bits<544501094>>()?;
        writer.write_const::<Bits<32>, Bits<16>>()?;
        writer.write::<Bits<16>, u16>(self.coding.number())?;
        writer.write::<Bits<16>, u16>(self.channels)?;
        writer.write::<Bits<32>, u32>(self.sample_rate)?;
        writer.write::<Bits<32>, u32>(self.byte_rate)?;
        writer.write::<Bits<16>, u16>(self.block_size)?;
        writer.write::<Bits<16>, u16>(self.bits_per_sample)?;
        writer.write_const::<Bits<32>, Bits<1635017060>>()?;
        writer.write::<Bits<32>, u32>(self.data_size)?;
        Ok(())
    }

    /// Writes the fields to the first bytes of a buffer, and returns what was written. The other bytes
    /// stay as they were. Does not allocate.
    ///
    /// # Errors
    ///
    /// `Checked` for the first field that does not fit its bits, however long the buffer is.
    /// `Stream(WriteZero)` if all fields fit, and the buffer has fewer than 44 bytes.
    /// After an error, the first bytes of the buffer may have changed.
    pub fn pack_into<'a>(&self, buffer: &'a mut [u8]) -> Result<SliceMut<'a>, Error>
        ensures packed { IfOk result (λ packed. bits Low (written_bytes packed) ≡ header_bits self.now) }
        ensures first { IfOk result (HoldsFirst buffer.entry.ghost_name buffer.old) }
        ensures accepted { IsOk result → AllAccepted (header_writes Low self.now) 0 }
        ensures misfit { (error : Error) → sequence_length (header_writes Low self.now) 0 ≡ Err error
            → result ≡ Err error }
        ensures room { Fits self.now → 44 ≤ length buffer.old → IsOk result }
        ensures short { Fits self.now → length buffer.old < 44 → result ≡ Err (Stream WriteZero) }
    {
        pack_into::<LE, Header>(self, buffer)
    }
}

impl FromBitStream for Header {
    type Error = HeaderError;

    ghost becomes = { becomes_header };

    ghost reads = { header_decoder };

    fn from_reader<R: BitRead>(reader: &mut R) -> Result<Header, HeaderError> {
        Header::read(reader)
    }
}

impl ToBitStream for Header {
    type Error = Error;

    ghost becomes = { same_error };

    ghost writes = { header_writes };

    fn to_writer<W: BitWrite>(&self, writer: &mut W) -> Result<(), Error> {
        self.write(writer)
    }
}

/// A value that fits its bits is read back as it was written, in either order of bits, at any place.
/// The read takes only the bits that were written: 352 bits.
pub fn header_round_trip()
    ensures back { (o : Order) (value : Header) (at from : ℕ) (more : List Bool) → Fits value
        → let written = write_sequence (header_writes o value) at in
        (header_decoder o).reads from (written ++ more) ≡ Done (length written) (Ok (Ok value)) }
    ensures size { (o : Order) (value : Header) (at : ℕ) → Fits value
        → length (write_sequence (header_writes o value) at) ≡ 352 }
{}
