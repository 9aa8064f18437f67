//! The header of a frame of MPEG audio (ISO/IEC 11172-3 and 13818-3, section 2.4.1.3).
//!
//! Made by `./format` from formats/mp3_header.fields: edit that file and make this one anew.
ghost use Rattle.protocols.specs.Mp3Header.{mp3_header_decoder, mp3_header_writes, mp3_header_bits, mp3_header_at, Fits, becomes_mp3_header, bits_at, const_at_0, version_of, version_number, version_read, layer_of, layer_number, layer_read, channel_mode_of, channel_mode_number, channel_mode_read};
ghost use Rattle.protocols.specs.declared.mp3_header.Mp3Header.{Mp3Header};
ghost use Rattle.protocols.specs.declared.mp3_header.Mp3Error.{Mp3Error};
ghost use Rattle.protocols.specs.declared.mp3_header.Mp3Error.TheVariants.{Reader, NoSync, NoVersion, NoLayer};
ghost use Rattle.protocols.specs.declared.mp3_header.Version.{Version};
ghost use Rattle.protocols.specs.declared.mp3_header.Layer.{Layer};
ghost use Rattle.std.specs.Prelude.{◌≡◌, ◌≢◌, ◌<◌, ◌≤◌, ◌++◌, ℕ, Bool, List, Ok, Err, length, IfOk, IsOk};
ghost use Rattle.std.specs.declared.io.ErrorKind.TheVariants.{WriteZero};
ghost use Rattle.bitstream_io.specs.Callers.{Done, Error, EndOfInput, Order, High, bits, number, write_sequence, Reads, ReadsOwn, OwnAnswer, WritesAll, sequence_length, sure_answer, Stream, same_error};
ghost use Rattle.bitstream_io.specs.SliceMut.{HoldsFirst, written_bytes};

use bitstream_io::{
    BE, BitRead, BitReadExt, BitReader, BitWrite, BitWriteExt, Bits, Error, FromBitStream,
    SliceMut, ToBitStream, pack_into,
};

/// The header of a frame of MPEG audio (ISO/IEC 11172-3 and 13818-3, section 2.4.1.3).
///
/// ```text
///  0                   1                   2                   3
///  0 1 2 3 4 5 6 7 8 9 0 1 2 3 4 5 6 7 8 9 0 1 2 3 4 5 6 7 8 9 0 1
/// +-+-+-+-+-+-+-+-+-+-+-+-+-+-+-+-+-+-+-+-+-+-+-+-+-+-+-+-+-+-+-+-+
/// |        =2047        |ver|lay|p|bitrate|fre|p|p|mod|ext|c|o|emp|
/// +-+-+-+-+-+-+-+-+-+-+-+-+-+-+-+-+-+-+-+-+-+-+-+-+-+-+-+-+-+-+-+-+
/// ```
#[derive(Clone, Copy, Debug, PartialEq)]
pub struct Mp3Header {
    /// The version of MPEG.
    pub version: Version,
    /// The layer.
    pub layer: Layer,
    /// True if no checksum follows.
    pub protection_absent: bool,
    /// The index of the bit rate. Below 2^4.
    pub bitrate: u8,
    /// The index of the sampling frequency. Below 2^2.
    pub frequency: u8,
    /// True if the frame has one more slot.
    pub padding: bool,
    /// A bit of private use.
    pub private: bool,
    /// The mode of the channels.
    pub mode: ChannelMode,
    /// The bands that are joint, if the mode is joint stereo. Below 2^2.
    pub extension: u8,
    /// True if the work is protected by copyright.
    pub copyright: bool,
    /// True if the work is an original.
    pub original: bool,
    /// The emphasis of high frequencies. Below 2^2.
    pub emphasis: u8,
}

/// The errors of reading a `Mp3Header`.
#[derive(Debug, Drop, thiserror::Error)]
pub enum Mp3Error {
    /// An error of the reader.
    #[error("{0}")]
    Reader(Error),
    /// The bits do not begin with the syncword.
    #[error("the bits do not begin with the syncword")]
    NoSync,
    /// `version` is not the number of a case of `Version`.
    #[error("`version` is not the number of a case of `Version`")]
    NoVersion,
    /// `layer` is not the number of a case of `Layer`.
    #[error("`layer` is not the number of a case of `Layer`")]
    NoLayer,
}

impl From<Error> for Mp3Error {
    ghost from_gives = { becomes_mp3_header };

    fn from(error: Error) -> Mp3Error {
        Mp3Error::Reader(error)
    }
}

/// The version of MPEG.
#[derive(Clone, Copy, Debug, PartialEq)]
pub enum Version {
    /// Encoded as 0.
    Mpeg25,
    /// Encoded as 2.
    Mpeg2,
    /// Encoded as 3.
    Mpeg1,
}

impl Version {
    /// Decodes a number.
    pub fn of(number: u8) -> Result<Version, Mp3Error>
        ensures { result ≡ version_of number }
    {
        if number == 0 {
            return Ok(Version::Mpeg25);
        }
        if number == 2 {
            return Ok(Version::Mpeg2);
        }
        if number == 3 {
            return Ok(Version::Mpeg1);
        }
        Err(Mp3Error::NoVersion)
    }

    /// Returns the number of the case.
    pub fn number(self) -> u8
        ensures { result ≡ version_number self }
    {
        match self {
            Version::Mpeg25 => 0,
            Version::Mpeg2 => 2,
            Version::Mpeg1 => 3,
        }
    }

    /// Reads a number of 2 bits, and decodes it.
    pub fn read<R: BitRead>(reader: &mut R) -> Result<Version, Mp3Error>
        ensures { ReadsOwn R.source becomes_mp3_header (version_read R.source.order) reader.old result reader.new }
    {
        let number = reader.read::<Bits<2>, u8>()?;
        Version::of(number)
    }
}

/// The layer.
#[derive(Clone, Copy, Debug, PartialEq)]
pub enum Layer {
    /// Encoded as 1.
    LayerThree,
    /// Encoded as 2.
    LayerTwo,
    /// Encoded as 3.
    LayerOne,
}

impl Layer {
    /// Decodes a number.
    pub fn of(number: u8) -> Result<Layer, Mp3Error>
        ensures { result ≡ layer_of number }
    {
        if number == 1 {
            return Ok(Layer::LayerThree);
        }
        if number == 2 {
            return Ok(Layer::LayerTwo);
        }
        if number == 3 {
            return Ok(Layer::LayerOne);
        }
        Err(Mp3Error::NoLayer)
    }

    /// Returns the number of the case.
    pub fn number(self) -> u8
        ensures { result ≡ layer_number self }
    {
        match self {
            Layer::LayerThree => 1,
            Layer::LayerTwo => 2,
            Layer::LayerOne => 3,
        }
    }

    /// Reads a number of 2 bits, and decodes it.
    pub fn read<R: BitRead>(reader: &mut R) -> Result<Layer, Mp3Error>
        ensures { ReadsOwn R.source becomes_mp3_header (layer_read R.source.order) reader.old result reader.new }
    {
        let number = reader.read::<Bits<2>, u8>()?;
        Layer::of(number)
    }
}

/// The mode of the channels.
#[derive(Clone, Copy, Debug, PartialEq)]
pub enum ChannelMode {
    /// Encoded as 0.
    Stereo,
    /// Encoded as 1.
    JointStereo,
    /// Encoded as 2.
    DualChannel,
    /// Encoded as 3.
    Mono,
}

impl ChannelMode {
    /// Decodes a number.
    pub fn of(number: u8) -> ChannelMode
        ensures { result ≡ channel_mode_of number }
    {
        if number == 0 {
            return ChannelMode::Stereo;
        }
        if number == 1 {
            return ChannelMode::JointStereo;
        }
        if number == 2 {
            return ChannelMode::DualChannel;
        }
        ChannelMode::Mono
    }

    /// Returns the number of the case.
    pub fn number(self) -> u8
        ensures { result ≡ channel_mode_number self }
    {
        match self {
            ChannelMode::Stereo => 0,
            ChannelMode::JointStereo => 1,
            ChannelMode::DualChannel => 2,
            ChannelMode::Mono => 3,
        }
    }

    /// Reads a number of 2 bits, and decodes it.
    pub fn read<R: BitRead>(reader: &mut R) -> Result<ChannelMode, Error>
        ensures { Reads R.source (channel_mode_read R.source.order) reader.old result reader.new }
    {
        let number = reader.read::<Bits<2>, u8>()?;
        Ok(ChannelMode::of(number))
    }
}

impl Mp3Header {
    /// The number of bits before each line of the description.
    pub const PLACES: [u64; 13] = [0, 11, 13, 15, 16, 20, 22, 23, 24, 26, 28, 29, 30];

    /// Reads the fields in order.
    ///
    /// # Errors
    ///
    /// `NoSync`, `NoVersion` or `NoLayer`, after the rejected bits have been read.
    /// Otherwise the reader's errors, after which it has failed.
    pub fn read<R: BitRead>(reader: &mut R) -> Result<Mp3Header, Mp3Error>
        ensures { ReadsOwn R.source becomes_mp3_header (mp3_header_decoder R.source.order) reader.old result reader.new }
    {
        reader.read_const::<Bits<11>, Bits<2047>, Mp3Error>(Mp3Error::NoSync)?;
        let version = Version::read(reader)?;
        let layer = Layer::read(reader)?;
        let protection_absent = reader.read_bit()?;
        let bitrate = reader.read::<Bits<4>, u8>()?;
        let frequency = reader.read::<Bits<2>, u8>()?;
        let padding = reader.read_bit()?;
        let private = reader.read_bit()?;
        let mode = ChannelMode::read(reader)?;
        let extension = reader.read::<Bits<2>, u8>()?;
        let copyright = reader.read_bit()?;
        let original = reader.read_bit()?;
        let emphasis = reader.read::<Bits<2>, u8>()?;
        Ok(Mp3Header {
            version,
            layer,
            protection_absent,
            bitrate,
            frequency,
            padding,
            private,
            mode,
            extension,
            copyright,
            original,
            emphasis,
        })
    }

    /// Parses the value at the start of `packet`.
    ///
    /// # Errors
    ///
    /// `NoSync`, `NoVersion` or `NoLayer` if bits are rejected.
    /// `Reader(EndOfInput)` for fewer than 4 bytes.
    pub fn parse(packet: &[u8]) -> Result<Mp3Header, Mp3Error>
        ensures answer { OwnAnswer becomes_mp3_header (λ answer. answer)
            (sure_answer ((mp3_header_decoder High).reads 0 (bits High packet.now))) result }
        ensures there { 4 ≤ length packet.now → (version : Version) (layer : Layer)
            → const_at_0 (bits High packet.now) ≡ 2047
            → version_of (number High (bits_at 11 2 (bits High packet.now))) ≡ Ok version
            → layer_of (number High (bits_at 13 2 (bits High packet.now))) ≡ Ok layer
            → result ≡ Ok (mp3_header_at version layer (bits High packet.now)) }
        ensures short { length packet.now < 4 → (version : Version) (layer : Layer)
            → const_at_0 (bits High packet.now) ≡ 2047
            → version_of (number High (bits_at 11 2 (bits High packet.now))) ≡ Ok version
            → layer_of (number High (bits_at 13 2 (bits High packet.now))) ≡ Ok layer
            → result ≡ Err (Mp3Error.Reader EndOfInput) }
        ensures no_sync { 2 ≤ length packet.now → const_at_0 (bits High packet.now) ≢ 2047
            → result ≡ Err (Mp3Error.NoSync) }
        ensures no_version { 2 ≤ length packet.now → const_at_0 (bits High packet.now) ≡ 2047
            → version_of (number High (bits_at 11 2 (bits High packet.now))) ≡ Err NoVersion
            → result ≡ Err (Mp3Error.NoVersion) }
        ensures no_layer { 2 ≤ length packet.now → (version : Version)
            → const_at_0 (bits High packet.now) ≡ 2047
            → version_of (number High (bits_at 11 2 (bits High packet.now))) ≡ Ok version
            → layer_of (number High (bits_at 13 2 (bits High packet.now))) ≡ Err NoLayer
            → result ≡ Err (Mp3Error.NoLayer) }
        ensures back { (value : Mp3Header) (more : List Bool) → Fits value
            → bits High packet.now ≡ mp3_header_bits value ++ more → result ≡ Ok value }
    {
        mp3_header_round_trip();
        Mp3Header::read(&mut BitReader::<_, BE>::over(packet))
    }

    /// Writes the fields in order.
    ///
    /// # Errors
    ///
    /// `Checked` for a field that does not fit its bits. The fields before it have been written.
    /// Otherwise the sink's errors.
    pub fn write<W: BitWrite>(&self, writer: &mut W) -> Result<(), Error>
        ensures { WritesAll W.sink (mp3_header_writes W.sink.order self.now) writer.old result writer.new }
    {
        writer.write_const::<Bits<11>, Bits<2047>>()?;
        writer.write::<Bits<2>, u8>(self.version.number())?;
        writer.write::<Bits<2>, u8>(self.layer.number())?;
        writer.write_bit(self.protection_absent)?;
        writer.write::<Bits<4>, u8>(self.bitrate)?;
        writer.write::<Bits<2>, u8>(self.frequency)?;
        writer.write_bit(self.padding)?;
        writer.write_bit(self.private)?;
        writer.write::<Bits<2>, u8>(self.mode.number())?;
        writer.write::<Bits<2>, u8>(self.extension)?;
        writer.write_bit(self.copyright)?;
        writer.write_bit(self.original)?;
        writer.write::<Bits<2>, u8>(self.emphasis)?;
        Ok(())
    }

    /// Writes the fields to the first bytes of a buffer, and returns what was written. The other bytes
    /// stay as they were. Does not allocate.
    ///
    /// # Errors
    ///
    /// `Checked` for the first field that does not fit its bits, however long the buffer is.
    /// `Stream(WriteZero)` if all fields fit, and the buffer has fewer than 4 bytes.
    /// After an error, the first bytes of the buffer may have changed.
    pub fn pack_into<'a>(&self, buffer: &'a mut [u8]) -> Result<SliceMut<'a>, Error>
        ensures packed { IfOk result (λ packed. bits High (written_bytes packed) ≡ mp3_header_bits self.now) }
        ensures first { IfOk result (HoldsFirst buffer.entry.ghost_name buffer.old) }
        ensures fits { IsOk result → Fits self.now }
        ensures misfit { (error : Error) → sequence_length (mp3_header_writes High self.now) 0 ≡ Err error
            → result ≡ Err error }
        ensures room { Fits self.now → 4 ≤ length buffer.old → IsOk result }
        ensures short { Fits self.now → length buffer.old < 4 → result ≡ Err (Stream WriteZero) }
    {
        pack_into::<BE, Mp3Header>(self, buffer)
    }
}

impl FromBitStream for Mp3Header {
    type Error = Mp3Error;

    ghost becomes = { becomes_mp3_header };

    ghost reads = { mp3_header_decoder };

    fn from_reader<R: BitRead>(reader: &mut R) -> Result<Mp3Header, Mp3Error> {
        Mp3Header::read(reader)
    }
}

impl ToBitStream for Mp3Header {
    type Error = Error;

    ghost becomes = { same_error };

    ghost writes = { mp3_header_writes };

    fn to_writer<W: BitWrite>(&self, writer: &mut W) -> Result<(), Error> {
        self.write(writer)
    }
}

/// A value that fits its bits is read back as it was written, in either order of bits, at any place.
/// The read takes only the bits that were written: 32 bits.
pub fn mp3_header_round_trip()
    ensures back { (o : Order) (value : Mp3Header) (at from : ℕ) (more : List Bool) → Fits value
        → let written = write_sequence (mp3_header_writes o value) at in
        (mp3_header_decoder o).reads from (written ++ more) ≡ Done (length written) (Ok (Ok value)) }
    ensures size { (o : Order) (value : Mp3Header) (at : ℕ) → Fits value
        → length (write_sequence (mp3_header_writes o value) at) ≡ 32 }
{}
