//! A WAV file whose chunks are a format of 16 bytes and the samples.
//!
//! Made by `./format` from formats/wav_file.fields: edit that file and make this one anew.
ghost use Rattle.media_messages.specs.WavFile.{wav_file_decoder, wav_file_writes, wav_file_size, wav_file_bits, Fits, becomes_wav_file, riff_bytes_sum, riff_number, riff_bytes_writes};
ghost use Rattle.media_messages.specs.declared.wav_file.WavFile.{WavFile};
ghost use Rattle.media_messages.specs.declared.wav_file.WavFileError.{WavFileError};
ghost use Rattle.media_messages.specs.declared.wav_file.WavFileError.TheVariants.{Reader};
ghost use Rattle.std.specs.Prelude.{◌≡◌, ◌<◌, ◌≤◌, ◌*◌, ◌++◌, ◌⊎◌, ℕ, Bool, true, List, Ok, Err, length, IfOk, IsOk};
ghost use Rattle.std.specs.declared.io.ErrorKind.TheVariants.{WriteZero};
ghost use Rattle.bitstream_io.specs.Callers.{Done, Error, Order, Low, bits, write_sequence, OwnAnswer, WritesAll, AllAccepted, sequence_length, sure_answer, GrowsOwn, MayAllocate, OutOfMemory, Stream, same_error};
ghost use Rattle.bitstream_io.specs.SliceMut.{HoldsFirst, written_bytes};

use bitstream_format::checksums::ByteCount;
use bitstream_format::stated::stored_size;
use bitstream_format::summed::{sum_of, summing_writer};
use bitstream_io::{
    BitRead, BitReadExt, BitReader, BitWrite, BitWriteExt, Bits, Error, FromBitStreamUsing, LE,
    SliceMut, ToBitStream, pack_into,
};
use std::alloc::Global;
use std::marker::Model;

/// A WAV file whose chunks are a format of 16 bytes and the samples.
///
/// ```text
///  0                   1                   2                   3
///  0 1 2 3 4 5 6 7 8 9 0 1 2 3 4 5 6 7 8 9 0 1 2 3 4 5 6 7 8 9 0 1
/// +-+-+-+-+-+-+-+-+-+-+-+-+-+-+-+-+-+-+-+-+-+-+-+-+-+-+-+-+-+-+-+-+
/// |                          =1179011410                          |
/// +-+-+-+-+-+-+-+-+-+-+-+-+-+-+-+-+-+-+-+-+-+-+-+-+-+-+-+-+-+-+-+-+
/// |                       stored_riff_bytes                       |
/// +-+-+-+-+-+-+-+-+-+-+-+-+-+-+-+-+-+-+-+-+-+-+-+-+-+-+-+-+-+-+-+-+
/// |                          =1163280727                          |
/// +-+-+-+-+-+-+-+-+-+-+-+-+-+-+-+-+-+-+-+-+-+-+-+-+-+-+-+-+-+-+-+-+
/// |                           =544501094                          |
/// +-+-+-+-+-+-+-+-+-+-+-+-+-+-+-+-+-+-+-+-+-+-+-+-+-+-+-+-+-+-+-+-+
/// |                              =16                              |
/// +-+-+-+-+-+-+-+-+-+-+-+-+-+-+-+-+-+-+-+-+-+-+-+-+-+-+-+-+-+-+-+-+
/// |              tag              |            channels           |
/// +-+-+-+-+-+-+-+-+-+-+-+-+-+-+-+-+-+-+-+-+-+-+-+-+-+-+-+-+-+-+-+-+
/// |                              rate                             |
/// +-+-+-+-+-+-+-+-+-+-+-+-+-+-+-+-+-+-+-+-+-+-+-+-+-+-+-+-+-+-+-+-+
/// |                           byte_rate                           |
/// +-+-+-+-+-+-+-+-+-+-+-+-+-+-+-+-+-+-+-+-+-+-+-+-+-+-+-+-+-+-+-+-+
/// |             align             |              bits             |
/// +-+-+-+-+-+-+-+-+-+-+-+-+-+-+-+-+-+-+-+-+-+-+-+-+-+-+-+-+-+-+-+-+
/// |                          =1635017060                          |
/// +-+-+-+-+-+-+-+-+-+-+-+-+-+-+-+-+-+-+-+-+-+-+-+-+-+-+-+-+-+-+-+-+
/// |                         samples_bytes                         |
/// +-+-+-+-+-+-+-+-+-+-+-+-+-+-+-+-+-+-+-+-+-+-+-+-+-+-+-+-+-+-+-+-+
/// /                 samples (samples_bytes bytes)                 /
/// +-+-+-+-+-+-+-+-+-+-+-+-+-+-+-+-+-+-+-+-+-+-+-+-+-+-+-+-+-+-+-+-+
/// ```
#[derive(Debug, Drop)]
pub struct WavFile {
    /// The encoding: 1 for samples that are plain numbers.
    pub tag: u16,
    /// The number of channels.
    pub channels: u16,
    /// The samples a second, of each channel.
    pub rate: u32,
    /// The bytes a second.
    pub byte_rate: u32,
    /// The bytes of a sample of all channels.
    pub align: u16,
    /// The bits of a sample.
    pub bits: u16,
    /// The samples.
    pub samples: Vec<u8>,
}

impl Model for WavFile {
    ghost use Rattle.media_messages.specs.WavFileFields.{WavFileFields};

    ghost Value = { WavFileFields };

    ghost view = { λ value. record {
      tag = value.tag;
      channels = value.channels;
      rate = value.rate;
      byte_rate = value.byte_rate;
      align = value.align;
      bits = value.bits;
      samples = value.samples.items;
    } };
}

/// The errors of reading a `WavFile`.
#[derive(Debug, Drop, thiserror::Error)]
pub enum WavFileError {
    /// An error of the reader.
    #[error("{0}")]
    Reader(Error),
    /// The file does not begin with `RIFF`.
    #[error("the file does not begin with `RIFF`")]
    NoRiff,
    /// The file is not of the kind `WAVE`.
    #[error("the file is not of the kind `WAVE`")]
    NoWave,
    /// The first chunk is not a format.
    #[error("the first chunk is not a format")]
    NoFormat,
    /// The chunk of the format does not have 16 bytes.
    #[error("the chunk of the format does not have 16 bytes")]
    OtherFormat,
    /// The second chunk is not the samples.
    #[error("the second chunk is not the samples")]
    NoData,
    /// The size of the file is not that of its chunks.
    #[error("the size of the file is not that of its chunks")]
    OtherRiff,
}

impl From<Error> for WavFileError {
    ghost from_gives = { becomes_wav_file };

    fn from(error: Error) -> WavFileError {
        WavFileError::Reader(error)
    }
}

impl WavFile {
    /// The number of bits before each line of the description.
    pub const PLACES: [u64; 14] = [
        0, 32, 64, 96, 128, 160, 176, 192, 224, 256, 272, 288, 320, 352,
    ];

    /// Reads the fields in order.
    ///
    /// # Errors
    ///
    /// `NoRiff`, `NoWave`, `NoFormat`, `OtherFormat`, `NoData` or `OtherRiff`, after the rejected bits have been read.
    /// `Reader(OutOfMemory)` if an allocation for a list fails. The items before the failure
    /// have been read.
    /// Otherwise the reader's errors, after which it has failed.
    pub fn read<R: BitRead>(reader: &mut R, alloc: Global) -> Result<WavFile, WavFileError>
        ensures { GrowsOwn R.source becomes_wav_file (wav_file_decoder R.source.order) reader.old result reader.new }
    {
        reader.read_const::<Bits<32>, Bits<1179011410>, WavFileError>(WavFileError::NoRiff)?;
        let stored_riff_bytes = reader.read::<Bits<32>, u64>()?;
        reader.read_const::<Bits<32>, Bits<1163280727>, WavFileError>(WavFileError::NoWave)?;
        reader.read_const::<Bits<32>, Bits<544501094>, WavFileError>(WavFileError::NoFormat)?;
        reader.read_const::<Bits<32>, Bits<16>, WavFileError>(WavFileError::OtherFormat)?;
        let tag = reader.read::<Bits<16>, u16>()?;
        let channels = reader.read::<Bits<16>, u16>()?;
        let rate = reader.read::<Bits<32>, u32>()?;
        let byte_rate = reader.read::<Bits<32>, u32>()?;
        let align = reader.read::<Bits<16>, u16>()?;
        let bits_ = reader.read::<Bits<16>, u16>()?;
        reader.read_const::<Bits<32>, Bits<1635017060>, WavFileError>(WavFileError::NoData)?;
        let samples_bytes = reader.read::<Bits<32>, u64>()?;
        let samples = reader.read_to_vec(alloc, samples_bytes as usize)?;
        let value = WavFile {
            tag,
            channels,
            rate,
            byte_rate,
            align,
            bits: bits_,
            samples,
        };
        let is_riff_bytes = stored_riff_bytes == value.riff_number();
        if !is_riff_bytes {
            return Err(WavFileError::OtherRiff);
        }
        Ok(value)
    }

    /// Parses the value at the start of `packet`.
    ///
    /// # Errors
    ///
    /// `NoRiff`, `NoWave`, `NoFormat`, `OtherFormat`, `NoData` or `OtherRiff` if bits are rejected.
    /// `Reader(EndOfInput)` if the bytes end before the fields do.
    /// `Reader(OutOfMemory)` if the allocation for an item of a list fails.
    pub fn parse(packet: &[u8], alloc: Global) -> Result<WavFile, WavFileError>
        ensures answer { (OwnAnswer becomes_wav_file (λ answer. answer)
            (sure_answer ((wav_file_decoder Low).reads 0 (bits Low packet.now))) result)
            ⊎ ((result ≡ Err (WavFileError.Reader OutOfMemory))
            × MayAllocate (wav_file_decoder Low) 0 (bits Low packet.now)) }
        ensures back { (value : WavFile) (more : List Bool) → Fits value
            → bits Low packet.now ≡ write_sequence (wav_file_writes Low value) 0 ++ more
            → (result ≡ Ok value)
            ⊎ (result ≡ Err (WavFileError.Reader OutOfMemory)) }
    {
        wav_file_round_trip();
        WavFile::read(&mut BitReader::<_, LE>::over(packet), alloc)
    }

    /// Writes the fields in order.
    ///
    /// # Errors
    ///
    /// `Checked` for a field that does not fit its bits. The fields before it have been written.
    /// Otherwise the sink's errors.
    pub fn write<W: BitWrite>(&self, writer: &mut W) -> Result<(), Error>
        ensures { WritesAll W.sink (wav_file_writes W.sink.order self.now) writer.old result writer.new }
    {
        writer.write_const::<Bits<32>, Bits<1179011410>>()?;
        writer.write::<Bits<32>, u64>(self.riff_number())?;
        writer.write_const::<Bits<32>, Bits<1163280727>>()?;
        writer.write_const::<Bits<32>, Bits<544501094>>()?;
        writer.write_const::<Bits<32>, Bits<16>>()?;
        writer.write::<Bits<16>, u16>(self.tag)?;
        writer.write::<Bits<16>, u16>(self.channels)?;
        writer.write::<Bits<32>, u32>(self.rate)?;
        writer.write::<Bits<32>, u32>(self.byte_rate)?;
        writer.write::<Bits<16>, u16>(self.align)?;
        writer.write::<Bits<16>, u16>(self.bits)?;
        writer.write_const::<Bits<32>, Bits<1635017060>>()?;
        writer.write::<Bits<32>, u64>(self.samples.len() as u64)?;
        writer.write_bytes(&self.samples)?;
        Ok(())
    }

    /// Returns the number that states the bytes of its lines, or 2^64 - 1 if none does.
    fn riff_number(&self) -> u64
        ensures { result ≡ riff_number self.now }
    {
        stored_size(self.riff_bytes(), 1, 0, 8)
    }

    /// Returns the number of bytes of its lines as they are written, or 0 if a field of theirs does not fit its bits.
    fn riff_bytes(&self) -> u64
        ensures { result ≡ riff_bytes_sum self.now }
    {
        let mut writer = summing_writer::<LE, ByteCount>();
        match self.write_for_riff_bytes(&mut writer) {
            Ok(()) => sum_of(writer),
            Err(_) => 0,
        }
    }

    /// Writes the lines that the number of bytes covers.
    fn write_for_riff_bytes<W: BitWrite>(&self, writer: &mut W) -> Result<(), Error>
        ensures { WritesAll W.sink (riff_bytes_writes W.sink.order self.now) writer.old result writer.new }
    {
        writer.write_const::<Bits<32>, Bits<1179011410>>()?;
        writer.pad(32)?;
        writer.write_const::<Bits<32>, Bits<1163280727>>()?;
        writer.write_const::<Bits<32>, Bits<544501094>>()?;
        writer.write_const::<Bits<32>, Bits<16>>()?;
        writer.write::<Bits<16>, u16>(self.tag)?;
        writer.write::<Bits<16>, u16>(self.channels)?;
        writer.write::<Bits<32>, u32>(self.rate)?;
        writer.write::<Bits<32>, u32>(self.byte_rate)?;
        writer.write::<Bits<16>, u16>(self.align)?;
        writer.write::<Bits<16>, u16>(self.bits)?;
        writer.write_const::<Bits<32>, Bits<1635017060>>()?;
        writer.write::<Bits<32>, u64>(self.samples.len() as u64)?;
        writer.write_bytes(&self.samples)?;
        Ok(())
    }

    /// Writes the fields to the first bytes of a buffer, and returns what was written. The other bytes
    /// stay as they were. Does not allocate.
    ///
    /// # Errors
    ///
    /// `Checked` for the first field that does not fit its bits, however long the buffer is.
    /// `Stream(WriteZero)` if all fields fit, and the buffer is too short for the bits.
    /// After an error, the first bytes of the buffer may have changed.
    pub fn pack_into<'a>(&self, buffer: &'a mut [u8]) -> Result<SliceMut<'a>, Error>
        ensures packed { IfOk result (λ packed. bits Low (written_bytes packed) ≡ wav_file_bits self.now) }
        ensures first { IfOk result (HoldsFirst buffer.entry.ghost_name buffer.old) }
        ensures accepted { IsOk result → AllAccepted (wav_file_writes Low self.now) 0 }
        ensures misfit { (error : Error) → sequence_length (wav_file_writes Low self.now) 0 ≡ Err error
            → result ≡ Err error }
        ensures room { Fits self.now → wav_file_size Low self.now ≤ 8 * length buffer.old
            → IsOk result }
        ensures short { Fits self.now → 8 * length buffer.old < wav_file_size Low self.now
            → result ≡ Err (Stream WriteZero) }
    {
        pack_into::<LE, WavFile>(self, buffer)
    }
}

impl FromBitStreamUsing for WavFile {
    type Context = Global;

    type Error = WavFileError;

    ghost grows = { true };

    ghost becomes = { becomes_wav_file };

    ghost reads = { λ o _. wav_file_decoder o };

    fn from_reader<R: BitRead>(reader: &mut R, alloc: Global) -> Result<WavFile, WavFileError> {
        WavFile::read(reader, alloc)
    }
}

impl ToBitStream for WavFile {
    type Error = Error;

    ghost becomes = { same_error };

    ghost writes = { wav_file_writes };

    fn to_writer<W: BitWrite>(&self, writer: &mut W) -> Result<(), Error> {
        self.write(writer)
    }
}

/// A value that fits its bits is read back as it was written, in either order of bits, at any place.
/// The read takes only the bits that were written: `wav_file_size` is their number.
pub fn wav_file_round_trip()
    ensures back { (o : Order) (value : WavFile) (at from : ℕ) (more : List Bool) → Fits value
        → let written = write_sequence (wav_file_writes o value) at in
        (wav_file_decoder o).reads from (written ++ more) ≡ Done (length written) (Ok (Ok value)) }
    ensures size { (o : Order) (value : WavFile) (at : ℕ) → Fits value
        → length (write_sequence (wav_file_writes o value) at) ≡ wav_file_size o value }
{}
