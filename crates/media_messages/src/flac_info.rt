//! The properties of all frames of a FLAC file (RFC 9639, 8.2).
//!
//! Made by `./format` from formats/flac_info.fields: edit that file and make this one anew.
ghost use Rattle.media_messages.specs.FlacInfo.{flac_info_decoder, flac_info_writes, flac_info_bits, flac_info_at, Fits};
ghost use Rattle.media_messages.specs.declared.flac_info.FlacInfo.{FlacInfo};
ghost use Rattle.std.specs.Prelude.{◌≡◌, ◌<◌, ◌≤◌, ◌++◌, ℕ, Bool, List, Ok, Err, length, IfOk, IsOk};
ghost use Rattle.std.specs.declared.io.ErrorKind.TheVariants.{WriteZero};
ghost use Rattle.bitstream_io.specs.Callers.{Done, Error, EndOfInput, Order, High, bits, write_sequence, Reads, WritesAll, AllAccepted, sequence_length, sure_answer, Stream, same_error, plain_reads};
ghost use Rattle.bitstream_io.specs.SliceMut.{HoldsFirst, written_bytes};

use bitstream_io::{
    BE, BitRead, BitReadExt, BitReader, BitWrite, BitWriteExt, Bits, Error, FromBitStream,
    SliceMut, ToBitStream, pack_into,
};
use std::num::NonZero;

/// The properties of all frames of a FLAC file (RFC 9639, 8.2).
///
/// ```text
///  0                   1                   2                   3
///  0 1 2 3 4 5 6 7 8 9 0 1 2 3 4 5 6 7 8 9 0 1 2 3 4 5 6 7 8 9 0 1
/// +-+-+-+-+-+-+-+-+-+-+-+-+-+-+-+-+-+-+-+-+-+-+-+-+-+-+-+-+-+-+-+-+
/// |       minimum_block_size      |       maximum_block_size      |
/// +-+-+-+-+-+-+-+-+-+-+-+-+-+-+-+-+-+-+-+-+-+-+-+-+-+-+-+-+-+-+-+-+
/// |               minimum_frame_size              |               |
/// +-+-+-+-+-+-+-+-+-+-+-+-+-+-+-+-+-+-+-+-+-+-+-+-+-+-+-+-+-+-+-+-+
/// |       maximum_frame_size      |          sample_rate          |
/// +-+-+-+-+-+-+-+-+-+-+-+-+-+-+-+-+-+-+-+-+-+-+-+-+-+-+-+-+-+-+-+-+
/// |       |chann|bits_per_|             total_samples             |
/// +-+-+-+-+-+-+-+-+-+-+-+-+-+-+-+-+-+-+-+-+-+-+-+-+-+-+-+-+-+-+-+-+
/// |                               |                               |
/// +-+-+-+-+-+-+-+-+-+-+-+-+-+-+-+-+-+-+-+-+-+-+-+-+-+-+-+-+-+-+-+-+
/// |                       checksum (3 rows)                       |
/// +-+-+-+-+-+-+-+-+-+-+-+-+-+-+-+-+-+-+-+-+-+-+-+-+-+-+-+-+-+-+-+-+
/// |                               |
/// +-+-+-+-+-+-+-+-+-+-+-+-+-+-+-+-+
/// ```
#[derive(Clone, Copy, Debug, PartialEq)]
pub struct FlacInfo {
    /// The number of samples per channel in the smallest block.
    pub minimum_block_size: u16,
    /// The number of samples per channel in the largest block.
    pub maximum_block_size: u16,
    /// The size of the smallest frame in bytes, or 0 if it is not known. Below 2^24.
    pub minimum_frame_size: u32,
    /// The size of the largest frame in bytes, or 0 if it is not known. Below 2^24.
    pub maximum_frame_size: u32,
    /// The number of samples per second in each channel. Below 2^20.
    pub sample_rate: u32,
    /// The number of channels. At most 2^3.
    pub channels: NonZero<u8>,
    /// The number of bits of a sample. At most 2^5.
    pub bits_per_sample: NonZero<u8>,
    /// The number of samples per channel in the file, or 0 if it is not known. Below 2^36.
    pub total_samples: u64,
    /// The MD5 of all samples, or zeros if it is not known.
    pub checksum: [u8; 16],
}

impl FlacInfo {
    /// The number of bits before each line of the description.
    pub const PLACES: [u64; 9] = [0, 16, 32, 56, 80, 100, 103, 108, 144];

    /// Reads the fields in order.
    ///
    /// # Errors
    ///
    /// The reader's errors, after which it has failed.
    pub fn read<R: BitRead>(reader: &mut R) -> Result<FlacInfo, Error>
        ensures { Reads R.source (flac_info_decoder R.source.order) reader.old result reader.new }
    {
        let minimum_block_size = reader.read::<Bits<16>, u16>()?;
        let maximum_block_size = reader.read::<Bits<16>, u16>()?;
        let minimum_frame_size = reader.read::<Bits<24>, u32>()?;
        let maximum_frame_size = reader.read::<Bits<24>, u32>()?;
        let sample_rate = reader.read::<Bits<20>, u32>()?;
        let channels = reader.read::<Bits<3>, NonZero<u8>>()?;
        let bits_per_sample = reader.read::<Bits<5>, NonZero<u8>>()?;
        let total_samples = reader.read::<Bits<36>, u64>()?;
        let checksum = reader.read_to_bytes::<[u8; 16]>()?;
        Ok(FlacInfo {
            minimum_block_size,
            maximum_block_size,
            minimum_frame_size,
            maximum_frame_size,
            sample_rate,
            channels,
            bits_per_sample,
            total_samples,
            checksum,
        })
    }

    /// Parses the value at the start of `packet`.
    ///
    /// # Errors
    ///
    /// `EndOfInput` for fewer than 34 bytes.
    pub fn parse(packet: &[u8]) -> Result<FlacInfo, Error>
        ensures answer { result ≡ sure_answer ((flac_info_decoder High).reads 0 (bits High packet.now)) }
        ensures there { 34 ≤ length packet.now → result ≡ Ok (flac_info_at (bits High packet.now)) }
        ensures short { length packet.now < 34 → result ≡ Err EndOfInput }
        ensures back { (value : FlacInfo) (more : List Bool) → Fits value
            → bits High packet.now ≡ flac_info_bits value ++ more → result ≡ Ok value }
    {
        flac_info_round_trip();
        FlacInfo::read(&mut BitReader::<_, BE>::over(packet))
    }

    /// Writes the fields in order.
    ///
    /// # Errors
    ///
    /// `Checked` for a field that does not fit its bits. The fields before it have been written.
    /// Otherwise the sink's errors.
    pub fn write<W: BitWrite>(&self, writer: &mut W) -> Result<(), Error>
        ensures { WritesAll W.sink (flac_info_writes W.sink.order self.now) writer.old result writer.new }
    {
        writer.write::<Bits<16>, u16>(self.minimum_block_size)?;
        writer.write::<Bits<16>, u16>(self.maximum_block_size)?;
        writer.write::<Bits<24>, u32>(self.minimum_frame_size)?;
        writer.write::<Bits<24>, u32>(self.maximum_frame_size)?;
        writer.write::<Bits<20>, u32>(self.sample_rate)?;
        writer.write::<Bits<3>, NonZero<u8>>(self.channels)?;
        writer.write::<Bits<5>, NonZero<u8>>(self.bits_per_sample)?;
        writer.write::<Bits<36>, u64>(self.total_samples)?;
        writer.write_bytes(&self.checksum)?;
        Ok(())
    }

    /// Writes the fields to the first bytes of a buffer, and returns what was written. The other bytes
    /// stay as they were. Does not allocate.
    ///
    /// # Errors
    ///
    /// `Checked` for the first field that does not fit its bits, however long the buffer is.
    /// `Stream(WriteZero)` if all fields fit, and the buffer has fewer than 34 bytes.
    /// After an error, the first bytes of the buffer may have changed.
    pub fn pack_into<'a>(&self, buffer: &'a mut [u8]) -> Result<SliceMut<'a>, Error>
        ensures packed { IfOk result (λ packed. bits High (written_bytes packed) ≡ flac_info_bits self.now) }
        ensures first { IfOk result (HoldsFirst buffer.entry.ghost_name buffer.old) }
        ensures accepted { IsOk result → AllAccepted (flac_info_writes High self.now) 0 }
        ensures misfit { (error : Error) → sequence_length (flac_info_writes High self.now) 0 ≡ Err error
            → result ≡ Err error }
        ensures room { Fits self.now → 34 ≤ length buffer.old → IsOk result }
        ensures short { Fits self.now → length buffer.old < 34 → result ≡ Err (Stream WriteZero) }
    {
        pack_into::<BE, FlacInfo>(self, buffer)
    }
}

impl FromBitStream for FlacInfo {
    type Error = Error;

    ghost becomes = { same_error };

    ghost reads = { λ o. plain_reads (flac_info_decoder o) };

    fn from_reader<R: BitRead>(reader: &mut R) -> Result<FlacInfo, Error> {
        FlacInfo::read(reader)
    }
}

impl ToBitStream for FlacInfo {
    type Error = Error;

    ghost becomes = { same_error };

    ghost writes = { flac_info_writes };

    fn to_writer<W: BitWrite>(&self, writer: &mut W) -> Result<(), Error> {
        self.write(writer)
    }
}

/// A value that fits its bits is read back as it was written, in either order of bits, at any place.
/// The read takes only the bits that were written: 272 bits.
pub fn flac_info_round_trip()
    ensures back { (o : Order) (value : FlacInfo) (at from : ℕ) (more : List Bool) → Fits value
        → let written = write_sequence (flac_info_writes o value) at in
        (flac_info_decoder o).reads from (written ++ more) ≡ Done (length written) (Ok value) }
    ensures size { (o : Order) (value : FlacInfo) (at : ℕ) → Fits value
        → length (write_sequence (flac_info_writes o value) at) ≡ 272 }
{}
