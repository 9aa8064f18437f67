//! The fixed part of an ADS-B message (ICAO Annex 10, volume IV, section 3.1.2.8.6).
//!
//! Made by `./format` from formats/adsb_message.fields: edit that file and make this one anew.
ghost use Rattle.protocols.specs.AdsbMessage.{adsb_message_decoder, adsb_message_writes, adsb_message_bits, adsb_message_at, Fits, becomes_adsb_message, const_at_0};
ghost use Rattle.protocols.specs.declared.adsb_message.AdsbMessage.{AdsbMessage};
ghost use Rattle.protocols.specs.declared.adsb_message.AdsbError.{AdsbError};
ghost use Rattle.protocols.specs.declared.adsb_message.AdsbError.TheVariants.{Reader, OtherFormat};
ghost use Rattle.std.specs.Prelude.{◌≡◌, ◌≢◌, ◌<◌, ◌≤◌, ◌++◌, ℕ, Bool, List, Ok, Err, length, IfOk, IsOk};
ghost use Rattle.std.specs.declared.io.ErrorKind.TheVariants.{WriteZero};
ghost use Rattle.bitstream_io.specs.Callers.{Done, Error, EndOfInput, Order, High, bits, write_sequence, ReadsOwn, OwnAnswer, WritesAll, sequence_length, sure_answer, Stream, same_error};
ghost use Rattle.bitstream_io.specs.SliceMut.{HoldsFirst, written_bytes};

use bitstream_io::{
    BE, BitRead, BitReadExt, BitReader, BitWrite, BitWriteExt, Bits, Error, FromBitStream,
    SliceMut, ToBitStream, pack_into,
};

/// The fixed part of an ADS-B message (ICAO Annex 10, volume IV, section 3.1.2.8.6).
///
/// ```text
///  0                   1                   2                   3
///  0 1 2 3 4 5 6 7 8 9 0 1 2 3 4 5 6 7 8 9 0 1 2 3 4 5 6 7 8 9 0 1
/// +-+-+-+-+-+-+-+-+-+-+-+-+-+-+-+-+-+-+-+-+-+-+-+-+-+-+-+-+-+-+-+-+
/// |   =17   |capab|                    aircraft                   |
/// +-+-+-+-+-+-+-+-+-+-+-+-+-+-+-+-+-+-+-+-+-+-+-+-+-+-+-+-+-+-+-+-+
/// |   kind  |                       message                       |
/// +-+-+-+-+-+-+-+-+-+-+-+-+-+-+-+-+-+-+-+-+-+-+-+-+-+-+-+-+-+-+-+-+
/// |                                               |               |
/// +-+-+-+-+-+-+-+-+-+-+-+-+-+-+-+-+-+-+-+-+-+-+-+-+-+-+-+-+-+-+-+-+
/// |             parity            |
/// +-+-+-+-+-+-+-+-+-+-+-+-+-+-+-+-+
/// ```
#[derive(Clone, Copy, Debug, PartialEq)]
pub struct AdsbMessage {
    /// The capability of the transponder. Below 2^3.
    pub capability: u8,
    /// The address of the aircraft. Below 2^24.
    pub aircraft: u32,
    /// The type code of the message. Below 2^5.
    pub kind: u8,
    /// The fields of a message of that type. Below 2^51.
    pub message: u64,
    /// The CRC of the bits before it. Below 2^24.
    pub parity: u32,
}

/// The errors of reading an `AdsbMessage`.
#[derive(Debug, Drop, thiserror::Error)]
pub enum AdsbError {
    /// An error of the reader.
    #[error("{0}")]
    Reader(Error),
    /// The downlink format is not 17.
    #[error("the downlink format is not 17")]
    OtherFormat,
}

impl From<Error> for AdsbError {
    ghost from_gives = { becomes_adsb_message };

    fn from(error: Error) -> AdsbError {
        AdsbError::Reader(error)
    }
}

impl AdsbMessage {
    /// The number of bits before each line of the description.
    pub const PLACES: [u64; 6] = [0, 5, 8, 32, 37, 88];

    /// Reads the fields in order.
    ///
    /// # Errors
    ///
    /// `OtherFormat`, after the rejected bits have been read.
    /// Otherwise the reader's errors, after which it has failed.
    pub fn read<R: BitRead>(reader: &mut R) -> Result<AdsbMessage, AdsbError>
        ensures { ReadsOwn R.source becomes_adsb_message (adsb_message_decoder R.source.order) reader.old result reader.new }
    {
        reader.read_const::<Bits<5>, Bits<17>, AdsbError>(AdsbError::OtherFormat)?;
        let capability = reader.read::<Bits<3>, u8>()?;
        let aircraft = reader.read::<Bits<24>, u32>()?;
        let kind = reader.read::<Bits<5>, u8>()?;
        let message = reader.read::<Bits<51>, u64>()?;
        let parity = reader.read::<Bits<24>, u32>()?;
        Ok(AdsbMessage {
            capability,
            aircraft,
            kind,
            message,
            parity,
        })
    }

    /// Parses the value at the start of `packet`.
    ///
    /// # Errors
    ///
    /// `OtherFormat` if bits are rejected.
    /// `Reader(EndOfInput)` for fewer than 14 bytes.
    pub fn parse(packet: &[u8]) -> Result<AdsbMessage, AdsbError>
        ensures answer { OwnAnswer becomes_adsb_message (λ answer. answer)
            (sure_answer ((adsb_message_decoder High).reads 0 (bits High packet.now))) result }
        ensures there { 14 ≤ length packet.now → const_at_0 (bits High packet.now) ≡ 17
            → result ≡ Ok (adsb_message_at (bits High packet.now)) }
        ensures short { length packet.now < 14
            → (1 ≤ length packet.now → const_at_0 (bits High packet.now) ≡ 17)
            → result ≡ Err (AdsbError.Reader EndOfInput) }
        ensures other_format { 1 ≤ length packet.now → const_at_0 (bits High packet.now) ≢ 17
            → result ≡ Err (AdsbError.OtherFormat) }
        ensures back { (value : AdsbMessage) (more : List Bool) → Fits value
            → bits High packet.now ≡ adsb_message_bits value ++ more → result ≡ Ok value }
    {
        adsb_message_round_trip();
        AdsbMessage::read(&mut BitReader::<_, BE>::over(packet))
    }

    /// Writes the fields in order.
    ///
    /// # Errors
    ///
    /// `Checked` for a field that does not fit its bits. The fields before it have been written.
    /// Otherwise the sink's errors.
    pub fn write<W: BitWrite>(&self, writer: &mut W) -> Result<(), Error>
        ensures { WritesAll W.sink (adsb_message_writes W.sink.order self.now) writer.old result writer.new }
    {
        writer.write_const::<Bits<5>, Bits<17>>()?;
        writer.write::<Bits<3>, u8>(self.capability)?;
        writer.write::<Bits<24>, u32>(self.aircraft)?;
        writer.write::<Bits<5>, u8>(self.kind)?;
        writer.write::<Bits<51>, u64>(self.message)?;
        writer.write::<Bits<24>, u32>(self.parity)?;
        Ok(())
    }

    /// Writes the fields to the first bytes of a buffer, and returns what was written. The other bytes
    /// stay as they were. Does not allocate.
    ///
    /// # Errors
    ///
    /// `Checked` for the first field that does not fit its bits, however long the buffer is.
    /// `Stream(WriteZero)` if all fields fit, and the buffer has fewer than 14 bytes.
    /// After an error, the first bytes of the buffer may have changed.
    pub fn pack_into<'a>(&self, buffer: &'a mut [u8]) -> Result<SliceMut<'a>, Error>
        ensures packed { IfOk result (λ packed. bits High (written_bytes packed) ≡ adsb_message_bits self.now) }
        ensures first { IfOk result (HoldsFirst buffer.entry.ghost_name buffer.old) }
        ensures fits { IsOk result → Fits self.now }
        ensures misfit { (error : Error) → sequence_length (adsb_message_writes High self.now) 0 ≡ Err error
            → result ≡ Err error }
        ensures room { Fits self.now → 14 ≤ length buffer.old → IsOk result }
        ensures short { Fits self.now → length buffer.old < 14 → result ≡ Err (Stream WriteZero) }
    {
        pack_into::<BE, AdsbMessage>(self, buffer)
    }
}

impl FromBitStream for AdsbMessage {
    type Error = AdsbError;

    ghost becomes = { becomes_adsb_message };

    ghost reads = { adsb_message_decoder };

    fn from_reader<R: BitRead>(reader: &mut R) -> Result<AdsbMessage, AdsbError> {
        AdsbMessage::read(reader)
    }
}

impl ToBitStream for AdsbMessage {
    type Error = Error;

    ghost becomes = { same_error };

    ghost writes = { adsb_message_writes };

    fn to_writer<W: BitWrite>(&self, writer: &mut W) -> Result<(), Error> {
        self.write(writer)
    }
}

/// A value that fits its bits is read back as it was written, in either order of bits, at any place.
/// The read takes only the bits that were written: 112 bits.
pub fn adsb_message_round_trip()
    ensures back { (o : Order) (value : AdsbMessage) (at from : ℕ) (more : List Bool) → Fits value
        → let written = write_sequence (adsb_message_writes o value) at in
        (adsb_message_decoder o).reads from (written ++ more) ≡ Done (length written) (Ok (Ok value)) }
    ensures size { (o : Order) (value : AdsbMessage) (at : ℕ) → Fits value
        → length (write_sequence (adsb_message_writes o value) at) ≡ 112 }
{}
