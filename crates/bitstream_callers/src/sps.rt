//! The beginning of a sequence parameter set of H.264, with errors of its own.
ghost use Rattle.bitstream_io.specs.Callers.{OwnAnswer, ReadsOwn, sure_answer, High, bits};
ghost use Rattle.bitstream_callers.specs.Sps.{becomes_sps, sps_decoder};

use bitstream_io::golomb::read_ue;
use bitstream_io::{BE, BitRead, BitReadExt, BitReader, Bits, Error};

/// The fields of a parameter set that describe the frames, up to their size.
#[derive(Clone, Copy, Debug, PartialEq)]
pub struct Sps {
    /// The profile.
    pub profile: u8,
    /// The bits of further constraints on the stream, and two reserved bits.
    pub constraints: u8,
    /// The level, times ten.
    pub level: u8,
    /// The number of the set, by which slices refer to it.
    pub id: u32,
    /// The number of bits of a frame number, less 4.
    pub frame_number_bits: u32,
    /// The number of frames that are kept for reference.
    pub reference_frames: u32,
    /// True if gaps between frame numbers are allowed.
    pub gaps: bool,
    /// The number of macroblocks in a row.
    pub width: u32,
    /// The number of macroblocks in a column, or of pairs of them.
    pub height: u32,
}

/// The reasons that a read fails.
#[derive(Debug, Drop)]
pub enum SpsError {
    /// An error of the reader.
    Reader(Error),
    /// The unit is not a sequence parameter set. Its first byte has been read.
    OtherUnit,
    /// The type of the picture order count is not 2, the order of decoding. The type has been read.
    UnsupportedOrder,
}

impl From<Error> for SpsError {
    ghost from_gives = { becomes_sps };

    fn from(error: Error) -> SpsError {
        SpsError::Reader(error)
    }
}

impl Sps {
    /// Reads a parameter set up to its size.
    ///
    /// # Errors
    ///
    /// `OtherUnit`, `UnsupportedOrder`, and the errors of the reader.
    pub fn read<R: BitRead>(reader: &mut R) -> Result<Sps, SpsError>
        ensures { ReadsOwn R.source becomes_sps (sps_decoder R.source.order) reader.old result reader.new }
    {
        reader.read_const::<Bits<8>, Bits<0x67>, SpsError>(SpsError::OtherUnit)?;
        let profile = reader.read::<Bits<8>, u8>()?;
        let constraints = reader.read::<Bits<8>, u8>()?;
        let level = reader.read::<Bits<8>, u8>()?;
        let id = read_ue(reader)?;
        let frame_number_bits = read_ue(reader)?;
        let order = read_ue(reader)?;
        if order != 2 {
            return Err(SpsError::UnsupportedOrder);
        }
        Ok(Sps {
            profile,
            constraints,
            level,
            id,
            frame_number_bits,
            reference_frames: read_ue(reader)?,
            gaps: reader.read_bit()?,
            width: read_ue(reader)? + 1,
            height: read_ue(reader)? + 1,
        })
    }

    /// Parses a unit up to the size.
    ///
    /// # Errors
    ///
    /// `OtherUnit`, `UnsupportedOrder`, and the errors of the reader. `EndOfInput` is the only error of the stream.
    pub fn parse(unit: &[u8]) -> Result<Sps, SpsError>
        ensures { OwnAnswer becomes_sps (λ answer. answer)
            (sure_answer ((sps_decoder High).reads 0 (bits High unit.now))) result }
    {
        Sps::read(&mut BitReader::<_, BE>::over(unit))
    }
}
