//! The first 16 bytes of the chunk `fmt ` of a WAV file.
//!
//! Made by `./format` from formats/wav_format.fields: edit that file and make this one anew.
ghost use Rattle.bitstream_formats.specs.WavFormat.{wav_format_decoder, wav_format_writes, wav_format_bits, wav_format_at, Fits, coding_of, coding_number, coding_read};
ghost use Rattle.bitstream_formats.specs.declared.wav_format.WavFormat.{WavFormat};
ghost use Rattle.std.specs.Prelude.{◌≡◌, ◌<◌, ◌≤◌, ◌++◌, ℕ, Bool, List, Ok, Err, length, IfOk, IsOk};
ghost use Rattle.std.specs.declared.io.ErrorKind.TheVariants.{WriteZero};
ghost use Rattle.bitstream_io.specs.Callers.{Done, Error, EndOfInput, Order, Low, bits, write_sequence, Reads, WritesAll, AllAccepted, sequence_length, sure_answer, Stream, same_error, plain_reads};
ghost use Rattle.bitstream_io.specs.SliceMut.{HoldsFirst, written_bytes};

use bitstream_io::{
    BitRead, BitReadExt, BitReader, BitWrite, BitWriteExt, Bits, Error, FromBitStream, LE,
    SliceMut, ToBitStream, pack_into,
};

/// The first 16 bytes of the chunk `fmt ` of a WAV file.
///
/// ```text
///  0                   1                   2                   3
///  0 1 2 3 4 5 6 7 8 9 0 1 2 3 4 5 6 7 8 9 0 1 2 3 4 5 6 7 8 9 0 1
/// +-+-+-+-+-+-+-+-+-+-+-+-+-+-+-+-+-+-+-+-+-+-+-+-+-+-+-+-+-+-+-+-+
/// |             coding            |            channels           |
/// +-+-+-+-+-+-+-+-+-+-+-+-+-+-+-+-+-+-+-+-+-+-+-+-+-+-+-+-+-+-+-+-+
/// |                          sample_rate                          |
/// +-+-+-+-+-+-+-+-+-+-+-+-+-+-+-+-+-+-+-+-+-+-+-+-+-+-+-+-+-+-+-+-+
/// |                           byte_rate                           |
/// +-+-+-+-+-+-+-+-+-+-+-+-+-+-+-+-+-+-+-+-+-+-+-+-+-+-+-+-+-+-+-+-+
/// |           block_size          |        bits_per_sample        |
/// +-+-+-+-+-+-+-+-+-+-+-+-+-+-+-+-+-+-+-+-+-+-+-+-+-+-+-+-+-+-+-+-+
/// ```
#[derive(Clone, Copy, Debug, PartialEq)]
pub struct WavFormat {
    /// The coding of samples.
    pub coding: Coding,
    /// The number of channels.
    pub channels: u16,
    /// The number of samples per second in each channel.
    pub sample_rate: u32,
    /// The number of bytes per second.
    pub byte_rate: u32,
    /// The bytes of one sample of all channels.
    pub block_size: u16,
    /// The bits of a sample of one channel.
    pub bits_per_sample: u16,
}

/// The coding of samples.
#[derive(Clone, Copy, Debug, PartialEq)]
pub enum Coding {
    /// Encoded as 1.
    Pcm,
    /// Encoded as 3.
    Float,
    /// Encoded as 6.
    ALaw,
    /// Encoded as 7.
    MuLaw,
    /// Encoded as 65534.
    Extensible,
    /// Any other number.
    Other(u16),
}

impl Coding {
    /// Decodes a number.
    pub fn of(number: u16) -> Coding
        ensures { result ≡ coding_of number }
    {
        if number == 1 {
            return Coding::Pcm;
        }
        if number == 3 {
            return Coding::Float;
        }
        if number == 6 {
            return Coding::ALaw;
        }
        if number == 7 {
            return Coding::MuLaw;
        }
        if number == 65534 {
            return Coding::Extensible;
        }
        Coding::Other(number)
    }

    /// Returns the number of the case.
    pub fn number(self) -> u16
        ensures { result ≡ coding_number self }
    {
        match self {
            Coding::Pcm => 1,
            Coding::Float => 3,
            Coding::ALaw => 6,
            Coding::MuLaw => 7,
            Coding::Extensible => 65534,
            Coding::Other(number) => number,
        }
    }

    /// Reads a number of 16 bits, and decodes it.
    pub fn read<R: BitRead>(reader: &mut R) -> Result<Coding, Error>
        ensures { Reads R.source (coding_read R.source.order) reader.old result reader.new }
    {
        let number = reader.read::<Bits<16>, u16>()?;
        Ok(Coding::of(number))
    }
}

impl WavFormat {
    /// The number of bits before each line of the description.
    pub const PLACES: [u64; 6] = [0, 16, 32, 64, 96, 112];

    /// Reads the fields in order.
    ///
    /// # Errors
    ///
    /// The reader's errors, after which it has failed.
    pub fn read<R: BitRead>(reader: &mut R) -> Result<WavFormat, Error>
        ensures { Reads R.source (wav_format_decoder R.source.order) reader.old result reader.new }
    {
        let coding = Coding::read(reader)?;
        let channels = reader.read::<Bits<16>, u16>()?;
        let sample_rate = reader.read::<Bits<32>, u32>()?;
        let byte_rate = reader.read::<Bits<32>, u32>()?;
        let block_size = reader.read::<Bits<16>, u16>()?;
        let bits_per_sample = reader.read::<Bits<16>, u16>()?;
        Ok(WavFormat {
            coding,
            channels,
            sample_rate,
            byte_rate,
            block_size,
            bits_per_sample,
        })
    }

    /// Parses the value at the start of `packet`.
    ///
    /// # Errors
    ///
    /// `EndOfInput` for fewer than 16 bytes.
    pub fn parse(packet: &[u8]) -> Result<WavFormat, Error>
        ensures answer { result ≡ sure_answer ((wav_format_decoder Low).reads 0 (bits Low packet.now)) }
        ensures there { 16 ≤ length packet.now → result ≡ Ok (wav_format_at (bits Low packet.now)) }
        ensures short { length packet.now < 16 → result ≡ Err EndOfInput }
        ensures back { (value : WavFormat) (more : List Bool) → Fits value
            → bits Low packet.now ≡ wav_format_bits value ++ more → result ≡ Ok value }
    {
        wav_format_round_trip();
        WavFormat::read(&mut BitReader::<_, LE>::over(packet))
    }

    /// Writes the fields in order.
    ///
    /// # Errors
    ///
    /// `Checked` for a field that does not fit its bits. The fields before it have been written.
    /// Otherwise the sink's errors.
    pub fn write<W: BitWrite>(&self, writer: &mut W) -> Result<(), Error>
        ensures { WritesAll W.sink (wav_format_writes W.sink.order self.now) writer.old result writer.new }
    {
        writer.write::<Bits<16>, u16>(self.coding.number())?;
        writer.write::<Bits<16>, u16>(self.channels)?;
        writer.write::<Bits<32>, u32>(self.sample_rate)?;
        writer.write::<Bits<32>, u32>(self.byte_rate)?;
        writer.write::<Bits<16>, u16>(self.block_size)?;
        writer.write::<Bits<16>, u16>(self.bits_per_sample)?;
        Ok(())
    }

    /// Writes the fields to the first bytes of a buffer, and returns what was written. The other bytes
    /// stay as they were. Does not allocate.
    ///
    /// # Errors
    ///
    /// `Checked` for the first field that does not fit its bits, however long the buffer is.
    /// `Stream(WriteZero)` if all fields fit, and the buffer has fewer than 16 bytes.
    /// After an error, the first bytes of the buffer may have changed.
    pub fn pack_into<'a>(&self, buffer: &'a mut [u8]) -> Result<SliceMut<'a>, Error>
        ensures packed { IfOk result (λ packed. bits Low (written_bytes packed) ≡ wav_format_bits self.now) }
        ensures first { IfOk result (HoldsFirst buffer.entry.ghost_name buffer.old) }
        ensures accepted { IsOk result → AllAccepted (wav_format_writes Low self.now) 0 }
        ensures misfit { (error : Error) → sequence_length (wav_format_writes Low self.now) 0 ≡ Err error
            → result ≡ Err error }
        ensures room { Fits self.now → 16 ≤ length buffer.old → IsOk result }
        ensures short { Fits self.now → length buffer.old < 16 → result ≡ Err (Stream WriteZero) }
    {
        pack_into::<LE, WavFormat>(self, buffer)
    }
}

impl FromBitStream for WavFormat {
    type Error = Error;

    ghost becomes = { same_error };

    ghost reads = { λ o. plain_reads (wav_format_decoder o) };

    fn from_reader<R: BitRead>(reader: &mut R) -> Result<WavFormat, Error> {
        WavFormat::read(reader)
    }
}

impl ToBitStream for WavFormat {
    type Error = Error;

    ghost becomes = { same_error };

    ghost writes = { wav_format_writes };

    fn to_writer<W: BitWrite>(&self, writer: &mut W) -> Result<(), Error> {
        self.write(writer)
    }
}

/// A value that fits its bits is read back as it was written, in either order of bits, at any place.
/// The read takes only the bits that were written: 128 bits.
pub fn wav_format_round_trip()
    ensures back { (o : Order) (value : WavFormat) (at from : ℕ) (more : List Bool) → Fits value
        → let written = write_sequence (wav_format_writes o value) at in
        (wav_format_decoder o).reads from (written ++ more) ≡ Done (length written) (Ok value) }
    ensures size { (o : Order) (value : WavFormat) (at : ℕ) → Fits value
        → length (write_sequence (wav_format_writes o value) at) ≡ 128 }
{}
