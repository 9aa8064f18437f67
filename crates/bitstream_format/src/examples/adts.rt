//! The header of an ADTS frame of AAC.
ghost use Rattle.bitstream_format.specs.Format.{RoundTripLaw, LengthLaw};
ghost use Rattle.bitstream_format.specs.Examples.Adts.{adts, becomes_adts};
ghost use Rattle.bitstream_io.specs.Callers.{ReadsOwn, WritesAll};

use bitstream_io::{BitRead, BitReadExt, BitWrite, BitWriteExt, Bits, Error};

/// The header of an ADTS frame of AAC.
#[derive(Clone, Copy, Debug, PartialEq)]
pub struct AdtsHeader {
    /// True for MPEG-2, false for MPEG-4.
    pub mpeg_2: bool,
    /// True if no checksum follows.
    pub protection_absent: bool,
    /// The profile. Below 2^2.
    pub profile: u8,
    /// The index of the sampling frequency. Below 2^4.
    pub frequency: u8,
    /// A bit of private use.
    pub private: bool,
    /// The channel configuration. Below 2^3.
    pub channels: u8,
    /// True if the work is an original.
    pub original: bool,
    /// True if the work is for the home.
    pub home: bool,
    /// A bit of the number that is registered for the work.
    pub copyright_id: bool,
    /// True if that number starts here.
    pub copyright_start: bool,
    /// The number of bytes of the frame, including this header. Below 2^13.
    pub frame_length: u16,
    /// The fullness of the buffer. Below 2^11.
    pub fullness: u16,
    /// The number of blocks of the frame, minus 1. Below 2^2.
    pub blocks: u8,
}

/// The errors of reading an `AdtsHeader`.
#[derive(Debug, Drop)]
pub enum AdtsError {
    /// An error of the reader.
    Reader(Error),
    /// The bits do not begin with the syncword.
    NoSync,
    /// The layer is not 0.
    UnknownLayer,
}

impl From<Error> for AdtsError {
    ghost from_gives = { becomes_adts };

    fn from(error: Error) -> AdtsError {
        AdtsError::Reader(error)
    }
}

impl AdtsHeader {
    /// Reads the fields in order.
    ///
    /// # Errors
    ///
    /// `NoSync` or `UnknownLayer`, after the bits that differ have been read. Otherwise, the errors of the reader,
    /// after which it has failed.
    pub fn read<R: BitRead>(reader: &mut R) -> Result<AdtsHeader, AdtsError>
        ensures { ReadsOwn R.source becomes_adts (adts.read R.source.order) reader.old result reader.new }
    {
        reader.read_const::<Bits<12>, Bits<4095>, AdtsError>(AdtsError::NoSync)?;
        let mpeg_2 = reader.read_bit()?;
        reader.read_const::<Bits<2>, Bits<0>, AdtsError>(AdtsError::UnknownLayer)?;
        let protection_absent = reader.read_bit()?;
        let profile = reader.read::<Bits<2>, u8>()?;
        let frequency = reader.read::<Bits<4>, u8>()?;
        let private = reader.read_bit()?;
        let channels = reader.read::<Bits<3>, u8>()?;
        let original = reader.read_bit()?;
        let home = reader.read_bit()?;
        let copyright_id = reader.read_bit()?;
        let copyright_start = reader.read_bit()?;
        let frame_length = reader.read::<Bits<13>, u16>()?;
        let fullness = reader.read::<Bits<11>, u16>()?;
        let blocks = reader.read::<Bits<2>, u8>()?;
        Ok(AdtsHeader {
            mpeg_2,
            protection_absent,
            profile,
            frequency,
            private,
            channels,
            original,
            home,
            copyright_id,
            copyright_start,
            frame_length,
            fullness,
            blocks,
        })
    }

    /// Writes the fields in order.
    ///
    /// # Errors
    ///
    /// `Checked` for a field that does not fit its bits, after the fields before it have been written. Otherwise, the errors
    /// of the writer.
    pub fn write<W: BitWrite>(&self, writer: &mut W) -> Result<(), Error>
        ensures { WritesAll W.sink (adts.write W.sink.order self.now) writer.old result writer.new }
    {
        writer.write_const::<Bits<12>, Bits<4095>>()?;
        writer.write_bit(self.mpeg_2)?;
        writer.write_const::<Bits<2>, Bits<0>>()?;
        writer.write_bit(self.protection_absent)?;
        writer.write::<Bits<2>, u8>(self.profile)?;
        writer.write::<Bits<4>, u8>(self.frequency)?;
        writer.write_bit(self.private)?;
        writer.write::<Bits<3>, u8>(self.channels)?;
        writer.write_bit(self.original)?;
        writer.write_bit(self.home)?;
        writer.write_bit(self.copyright_id)?;
        writer.write_bit(self.copyright_start)?;
        writer.write::<Bits<13>, u16>(self.frame_length)?;
        writer.write::<Bits<11>, u16>(self.fullness)?;
        writer.write::<Bits<2>, u8>(self.blocks)?;
        Ok(())
    }
}

/// States that what was written is read back, in either order of bits, at any position, and that a read takes only
/// its 56 bits.
pub fn adts_laws()
    ensures round_trip { RoundTripLaw adts }
    ensures length { LengthLaw adts }
{}
