//! An ADS-B message with its checksum (ICAO Annex 10, volume IV, section 3.1.2.8.6).
//!
//! Made by `./format` from formats/adsb_frame.fields: edit that file and make this one anew.
ghost use Rattle.network_messages.specs.AdsbFrame.{adsb_frame_decoder, adsb_frame_writes, adsb_frame_size, adsb_frame_bits, Fits, becomes_adsb_frame, crc24_adsb_sum, crc24_adsb_writes};
ghost use Rattle.network_messages.specs.declared.adsb_frame.AdsbFrame.{AdsbFrame};
ghost use Rattle.std.specs.Prelude.{◌≡◌, ◌<◌, ◌≤◌, ◌*◌, ◌++◌, ℕ, Bool, List, Ok, Err, length, IfOk, IsOk};
ghost use Rattle.std.specs.declared.io.ErrorKind.TheVariants.{WriteZero};
ghost use Rattle.bitstream_io.specs.Callers.{Done, Error, Order, High, bits, write_sequence, ReadsOwn, OwnAnswer, WritesAll, AllAccepted, sequence_length, sure_answer, Stream, same_error};
ghost use Rattle.bitstream_io.specs.SliceMut.{HoldsFirst, written_bytes};

use bitstream_format::checksums::Crc24Adsb;
use bitstream_format::summed::{sum_of, summing_writer};
use bitstream_io::{
    BE, BitRead, BitReadExt, BitReader, BitWrite, BitWriteExt, Bits, Error, FromBitStream,
    SliceMut, ToBitStream, pack_into,
};

/// An ADS-B message with its checksum (ICAO Annex 10, volume IV, section 3.1.2.8.6).
///
/// ```text
///  0                   1                   2                   3
///  0 1 2 3 4 5 6 7 8 9 0 1 2 3 4 5 6 7 8 9 0 1 2 3 4 5 6 7 8 9 0 1
/// +-+-+-+-+-+-+-+-+-+-+-+-+-+-+-+-+-+-+-+-+-+-+-+-+-+-+-+-+-+-+-+-+
/// |   =17   |capab|                    aircraft                   |
/// +-+-+-+-+-+-+-+-+-+-+-+-+-+-+-+-+-+-+-+-+-+-+-+-+-+-+-+-+-+-+-+-+
/// |   kind  |                       message                       |
/// +-+-+-+-+-+-+-+-+-+-+-+-+-+-+-+-+-+-+-+-+-+-+-+-+-+-+-+-+-+-+-+-+
/// |                                               |               |
/// +-+-+-+-+-+-+-+-+-+-+-+-+-+-+-+-+-+-+-+-+-+-+-+-+-+-+-+-+-+-+-+-+
/// |       stored_crc24_adsb       |
/// +-+-+-+-+-+-+-+-+-+-+-+-+-+-+-+-+
/// ```
#[derive(Clone, Copy, Debug, PartialEq)]
pub struct AdsbFrame {
    /// The capability of the transponder. Below 2^3.
    pub capability: u8,
    /// The address of the aircraft. Below 2^24.
    pub aircraft: u32,
    /// The type code of the message. Below 2^5.
    pub kind: u8,
    /// The fields of a message of that type. Below 2^51.
    pub message: u64,
}

/// The errors of reading an `AdsbFrame`.
#[derive(Debug, Drop, thiserror::Error)]
pub enum AdsbFrameError {
    /// An error of the reader.
    #[error("{0}")]
    Reader(Error),
    /// The downlink format is not 17.
    #[error("the downlink format is not 17")]
    OtherFormat,
    /// The CRC is not that of the message.
    #[error("the CRC is not that of the message")]
    WrongCrc,
}

impl From<Error> for AdsbFrameError {
    ghost from_gives = { becomes_adsb_frame };

    fn from(error: Error) -> AdsbFrameError {
        AdsbFrameError::Reader(error)
    }
}

impl AdsbFrame {
    /// The number of bits before each line of the description.
    pub const PLACES: [u64; 6] = [0, 5, 8, 32, 37, 88];

    /// Reads the fields in order.
    ///
    /// # Errors
    ///
    /// `OtherFormat` or `WrongCrc`, after the rejected bits have been read.
    /// Otherwise the reader's errors, after which it has failed.
    pub fn read<R: BitRead>(reader: &mut R) -> Result<AdsbFrame, AdsbFrameError>
        ensures { ReadsOwn R.source becomes_adsb_frame (adsb_frame_decoder R.source.order) reader.old result reader.new }
    {
        reader.read_const::<Bits<5>, Bits<17>, AdsbFrameError>(AdsbFrameError::OtherFormat)?;
        let capability = reader.read::<Bits<3>, u8>()?;
        let aircraft = reader.read::<Bits<24>, u32>()?;
        let kind = reader.read::<Bits<5>, u8>()?;
        let message = reader.read::<Bits<51>, u64>()?;
        let stored_crc24_adsb = reader.read::<Bits<24>, u64>()?;
        let value = AdsbFrame {
            capability,
            aircraft,
            kind,
            message,
        };
        let is_crc24_adsb = stored_crc24_adsb == value.crc24_adsb();
        if !is_crc24_adsb {
            return Err(AdsbFrameError::WrongCrc);
        }
        Ok(value)
    }

    /// Parses the value at the start of `packet`.
    ///
    /// # Errors
    ///
    /// `OtherFormat` or `WrongCrc` if bits are rejected.
    /// `Reader(EndOfInput)` if the bytes end before the fields do.
    pub fn parse(packet: &[u8]) -> Result<AdsbFrame, AdsbFrameError>
        ensures answer { OwnAnswer becomes_adsb_frame (λ answer. answer)
            (sure_answer ((adsb_frame_decoder High).reads 0 (bits High packet.now))) result }
        ensures back { (value : AdsbFrame) (more : List Bool) → Fits value
            → bits High packet.now ≡ write_sequence (adsb_frame_writes High value) 0 ++ more → result ≡ Ok value }
    {
        adsb_frame_round_trip();
        AdsbFrame::read(&mut BitReader::<_, BE>::over(packet))
    }

    /// Writes the fields in order.
    ///
    /// # Errors
    ///
    /// `Checked` for a field that does not fit its bits. The fields before it have been written.
    /// Otherwise the sink's errors.
    pub fn write<W: BitWrite>(&self, writer: &mut W) -> Result<(), Error>
        ensures { WritesAll W.sink (adsb_frame_writes W.sink.order self.now) writer.old result writer.new }
    {
        writer.write_const::<Bits<5>, Bits<17>>()?;
        writer.write::<Bits<3>, u8>(self.capability)?;
        writer.write::<Bits<24>, u32>(self.aircraft)?;
        writer.write::<Bits<5>, u8>(self.kind)?;
        writer.write::<Bits<51>, u64>(self.message)?;
        writer.write::<Bits<24>, u64>(self.crc24_adsb())?;
        Ok(())
    }

    /// Returns the crc24-adsb of its lines as they are written, or 0 if a field of theirs does not fit its bits.
    fn crc24_adsb(&self) -> u64
        ensures { result ≡ crc24_adsb_sum self.now }
    {
        let mut writer = summing_writer::<BE, Crc24Adsb>();
        match self.write_for_crc24_adsb(&mut writer) {
            Ok(()) => sum_of(writer),
            Err(_) => 0,
        }
    }

    /// Writes the lines that the crc24-adsb covers.
    fn write_for_crc24_adsb<W: BitWrite>(&self, writer: &mut W) -> Result<(), Error>
        ensures { WritesAll W.sink (crc24_adsb_writes W.sink.order self.now) writer.old result writer.new }
    {
        writer.write_const::<Bits<5>, Bits<17>>()?;
        writer.write::<Bits<3>, u8>(self.capability)?;
        writer.write::<Bits<24>, u32>(self.aircraft)?;
        writer.write::<Bits<5>, u8>(self.kind)?;
        writer.write::<Bits<51>, u64>(self.message)?;
        Ok(())
    }

    /// Writes the fields to the first bytes of a buffer, and returns what was written. The other bytes
    /// stay as they were. Does not allocate.
    ///
    /// # Errors
    ///
    /// `Checked` for the first field that does not fit its bits, however long the buffer is.
    /// `Stream(WriteZero)` if all fields fit, and the buffer is too short for the bits.
    /// After an error, the first bytes of the buffer may have changed.
    pub fn pack_into<'a>(&self, buffer: &'a mut [u8]) -> Result<SliceMut<'a>, Error>
        ensures packed { IfOk result (λ packed. bits High (written_bytes packed) ≡ adsb_frame_bits self.now) }
        ensures first { IfOk result (HoldsFirst buffer.entry.ghost_name buffer.old) }
        ensures accepted { IsOk result → AllAccepted (adsb_frame_writes High self.now) 0 }
        ensures misfit { (error : Error) → sequence_length (adsb_frame_writes High self.now) 0 ≡ Err error
            → result ≡ Err error }
        ensures room { Fits self.now → adsb_frame_size High self.now ≤ 8 * length buffer.old
            → IsOk result }
        ensures short { Fits self.now → 8 * length buffer.old < adsb_frame_size High self.now
            → result ≡ Err (Stream WriteZero) }
    {
        pack_into::<BE, AdsbFrame>(self, buffer)
    }
}

impl FromBitStream for AdsbFrame {
    type Error = AdsbFrameError;

    ghost becomes = { becomes_adsb_frame };

    ghost reads = { adsb_frame_decoder };

    fn from_reader<R: BitRead>(reader: &mut R) -> Result<AdsbFrame, AdsbFrameError> {
        AdsbFrame::read(reader)
    }
}

impl ToBitStream for AdsbFrame {
    type Error = Error;

    ghost becomes = { same_error };

    ghost writes = { adsb_frame_writes };

    fn to_writer<W: BitWrite>(&self, writer: &mut W) -> Result<(), Error> {
        self.write(writer)
    }
}

/// A value that fits its bits is read back as it was written, in either order of bits, at any place.
/// The read takes only the bits that were written: `adsb_frame_size` is their number.
pub fn adsb_frame_round_trip()
    ensures back { (o : Order) (value : AdsbFrame) (at from : ℕ) (more : List Bool) → Fits value
        → let written = write_sequence (adsb_frame_writes o value) at in
        (adsb_frame_decoder o).reads from (written ++ more) ≡ Done (length written) (Ok (Ok value)) }
    ensures size { (o : Order) (value : AdsbFrame) (at : ℕ) → Fits value
        → length (write_sequence (adsb_frame_writes o value) at) ≡ adsb_frame_size o value }
{}
