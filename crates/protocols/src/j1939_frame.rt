//! A CAN frame of SAE J1939 in a capture, with eight bytes (SAE J1939-21, section 5.2).
//!
//! Made by `./format` from formats/j1939_frame.fields: edit that file and make this one anew.
ghost use Rattle.protocols.specs.J1939Frame.{j1939_frame_decoder, j1939_frame_writes, j1939_frame_bits, j1939_frame_at, Fits, becomes_j1939_frame, const_at_0, const_at_32};
ghost use Rattle.protocols.specs.declared.j1939_frame.J1939Frame.{J1939Frame};
ghost use Rattle.protocols.specs.declared.j1939_frame.J1939Error.{J1939Error};
ghost use Rattle.protocols.specs.declared.j1939_frame.J1939Error.TheVariants.{Reader, OtherFrame, OtherSize};
ghost use Rattle.std.specs.Prelude.{◌≡◌, ◌≢◌, ◌<◌, ◌≤◌, ◌++◌, ℕ, Bool, List, Ok, Err, length, IfOk, IsOk};
ghost use Rattle.std.specs.declared.io.ErrorKind.TheVariants.{WriteZero};
ghost use Rattle.bitstream_io.specs.Callers.{Done, Error, EndOfInput, Order, High, bits, write_sequence, ReadsOwn, OwnAnswer, WritesAll, AllAccepted, sequence_length, sure_answer, Stream, same_error};
ghost use Rattle.bitstream_io.specs.SliceMut.{HoldsFirst, written_bytes};

use bitstream_io::{
    BE, BitRead, BitReadExt, BitReader, BitWrite, BitWriteExt, Bits, Error, FromBitStream,
    SliceMut, ToBitStream, pack_into,
};

/// A CAN frame of SAE J1939 in a capture, with eight bytes (SAE J1939-21, section 5.2).
///
/// ```text
///  0                   1                   2                   3
///  0 1 2 3 4 5 6 7 8 9 0 1 2 3 4 5 6 7 8 9 0 1 2 3 4 5 6 7 8 9 0 1
/// +-+-+-+-+-+-+-+-+-+-+-+-+-+-+-+-+-+-+-+-+-+-+-+-+-+-+-+-+-+-+-+-+
/// |  =4 |prior|e|p|     format    |    specific   |     source    |
/// +-+-+-+-+-+-+-+-+-+-+-+-+-+-+-+-+-+-+-+-+-+-+-+-+-+-+-+-+-+-+-+-+
/// |       =8      |                       0                       |
/// +-+-+-+-+-+-+-+-+-+-+-+-+-+-+-+-+-+-+-+-+-+-+-+-+-+-+-+-+-+-+-+-+
/// |                        payload (2 rows)                       |
/// +-+-+-+-+-+-+-+-+-+-+-+-+-+-+-+-+-+-+-+-+-+-+-+-+-+-+-+-+-+-+-+-+
/// ```
#[derive(Clone, Copy, Debug, PartialEq)]
pub struct J1939Frame {
    /// The urgency, with 0 as the highest. Below 2^3.
    pub priority: u8,
    /// True for the pages of ISO 15765-3.
    pub extended_page: bool,
    /// The page of the parameter group.
    pub page: bool,
    /// The format of the parameter group; from 240 on the next byte belongs to the group.
    pub format: u8,
    /// The receiver, or the last byte of the parameter group.
    pub specific: u8,
    /// The address of the sender.
    pub source: u8,
    /// The parameters.
    pub payload: [u8; 8],
}

/// The errors of reading a `J1939Frame`.
#[derive(Debug, Drop, thiserror::Error)]
pub enum J1939Error {
    /// An error of the reader.
    #[error("{0}")]
    Reader(Error),
    /// The frame has no extended identifier, or no data.
    #[error("the frame has no extended identifier, or no data")]
    OtherFrame,
    /// The payload does not have eight bytes.
    #[error("the payload does not have eight bytes")]
    OtherSize,
}

impl From<Error> for J1939Error {
    ghost from_gives = { becomes_j1939_frame };

    fn from(error: Error) -> J1939Error {
        J1939Error::Reader(error)
    }
}

impl J1939Frame {
    /// The number of bits before each line of the description.
    pub const PLACES: [u64; 10] = [0, 3, 6, 7, 8, 16, 24, 32, 40, 64];

    /// Reads the fields in order.
    ///
    /// # Errors
    ///
    /// `OtherFrame` or `OtherSize`, after the rejected bits have been read.
    /// Otherwise the reader's errors, after which it has failed.
    pub fn read<R: BitRead>(reader: &mut R) -> Result<J1939Frame, J1939Error>
        ensures { ReadsOwn R.source becomes_j1939_frame (j1939_frame_decoder R.source.order) reader.old result reader.new }
    {
        reader.read_const::<Bits<3>, Bits<4>, J1939Error>(J1939Error::OtherFrame)?;
        let priority = reader.read::<Bits<3>, u8>()?;
        let extended_page = reader.read_bit()?;
        let page = reader.read_bit()?;
        let format = reader.read::<Bits<8>, u8>()?;
        let specific = reader.read::<Bits<8>, u8>()?;
        let source = reader.read::<Bits<8>, u8>()?;
        reader.read_const::<Bits<8>, Bits<8>, J1939Error>(J1939Error::OtherSize)?;
        reader.skip(24)?;
        let payload = reader.read_to_bytes::<[u8; 8]>()?;
        Ok(J1939Frame {
            priority,
            extended_page,
            page,
            format,
            specific,
            source,
            payload,
        })
    }

    /// Parses the value at the start of `packet`.
    ///
    /// # Errors
    ///
    /// `OtherFrame` or `OtherSize` if bits are rejected.
    /// `Reader(EndOfInput)` for fewer than 16 bytes.
    pub fn parse(packet: &[u8]) -> Result<J1939Frame, J1939Error>
        ensures answer { OwnAnswer becomes_j1939_frame (λ answer. answer)
            (sure_answer ((j1939_frame_decoder High).reads 0 (bits High packet.now))) result }
        ensures there { 16 ≤ length packet.now → const_at_0 (bits High packet.now) ≡ 4
            → const_at_32 (bits High packet.now) ≡ 8
            → result ≡ Ok (j1939_frame_at (bits High packet.now)) }
        ensures short { length packet.now < 16
            → (1 ≤ length packet.now → const_at_0 (bits High packet.now) ≡ 4)
            → (5 ≤ length packet.now → const_at_32 (bits High packet.now) ≡ 8)
            → result ≡ Err (J1939Error.Reader EndOfInput) }
        ensures other_frame { 1 ≤ length packet.now → const_at_0 (bits High packet.now) ≢ 4
            → result ≡ Err (J1939Error.OtherFrame) }
        ensures other_size { 5 ≤ length packet.now → const_at_0 (bits High packet.now) ≡ 4
            → const_at_32 (bits High packet.now) ≢ 8 → result ≡ Err (J1939Error.OtherSize) }
        ensures back { (value : J1939Frame) (more : List Bool) → Fits value
            → bits High packet.now ≡ j1939_frame_bits value ++ more → result ≡ Ok value }
    {
        j1939_frame_round_trip();
        J1939Frame::read(&mut BitReader::<_, BE>::over(packet))
    }

    /// Writes the fields in order.
    ///
    /// # Errors
    ///
    /// `Checked` for a field that does not fit its bits. The fields before it have been written.
    /// Otherwise the sink's errors.
    pub fn write<W: BitWrite>(&self, writer: &mut W) -> Result<(), Error>
        ensures { WritesAll W.sink (j1939_frame_writes W.sink.order self.now) writer.old result writer.new }
    {
        writer.write_const::<Bits<3>, Bits<4>>()?;
        writer.write::<Bits<3>, u8>(self.priority)?;
        writer.write_bit(self.extended_page)?;
        writer.write_bit(self.page)?;
        writer.write::<Bits<8>, u8>(self.format)?;
        writer.write::<Bits<8>, u8>(self.specific)?;
        writer.write::<Bits<8>, u8>(self.source)?;
        writer.write_const::<Bits<8>, Bits<8>>()?;
        writer.pad(24)?;
        writer.write_bytes(&self.payload)?;
        Ok(())
    }

    /// Writes the fields to the first bytes of a buffer, and returns what was written. The other bytes
    /// stay as they were. Does not allocate.
    ///
    /// # Errors
    ///
    /// `Checked` for the first field that does not fit its bits, however long the buffer is.
    /// `Stream(WriteZero)` if all fields fit, and the buffer has fewer than 16 bytes.
    /// After an error, the first bytes of the buffer may have changed.
    pub fn pack_into<'a>(&self, buffer: &'a mut [u8]) -> Result<SliceMut<'a>, Error>
        ensures packed { IfOk result (λ packed. bits High (written_bytes packed) ≡ j1939_frame_bits self.now) }
        ensures first { IfOk result (HoldsFirst buffer.entry.ghost_name buffer.old) }
        ensures accepted { IsOk result → AllAccepted (j1939_frame_writes High self.now) 0 }
        ensures misfit { (error : Error) → sequence_length (j1939_frame_writes High self.now) 0 ≡ Err error
            → result ≡ Err error }
        ensures room { Fits self.now → 16 ≤ length buffer.old → IsOk result }
        ensures short { Fits self.now → length buffer.old < 16 → result ≡ Err (Stream WriteZero) }
    {
        pack_into::<BE, J1939Frame>(self, buffer)
    }
}

impl FromBitStream for J1939Frame {
    type Error = J1939Error;

    ghost becomes = { becomes_j1939_frame };

    ghost reads = { j1939_frame_decoder };

    fn from_reader<R: BitRead>(reader: &mut R) -> Result<J1939Frame, J1939Error> {
        J1939Frame::read(reader)
    }
}

impl ToBitStream for J1939Frame {
    type Error = Error;

    ghost becomes = { same_error };

    ghost writes = { j1939_frame_writes };

    fn to_writer<W: BitWrite>(&self, writer: &mut W) -> Result<(), Error> {
        self.write(writer)
    }
}

/// A value that fits its bits is read back as it was written, in either order of bits, at any place.
/// The read takes only the bits that were written: 128 bits.
pub fn j1939_frame_round_trip()
    ensures back { (o : Order) (value : J1939Frame) (at from : ℕ) (more : List Bool) → Fits value
        → let written = write_sequence (j1939_frame_writes o value) at in
        (j1939_frame_decoder o).reads from (written ++ more) ≡ Done (length written) (Ok (Ok value)) }
    ensures size { (o : Order) (value : J1939Frame) (at : ℕ) → Fits value
        → length (write_sequence (j1939_frame_writes o value) at) ≡ 128 }
{}
