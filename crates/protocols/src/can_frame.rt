//! The header of a CAN frame in a capture (LINKTYPE_CAN_SOCKETCAN of tcpdump.org).
//!
//! Made by `./format` from formats/can_frame.fields: edit that file and make this one anew.
ghost use Rattle.protocols.specs.CanFrame.{can_frame_decoder, can_frame_writes, can_frame_bits, can_frame_at, Fits};
ghost use Rattle.protocols.specs.declared.can_frame.CanFrame.{CanFrame};
ghost use Rattle.std.specs.Prelude.{◌≡◌, ◌<◌, ◌≤◌, ◌++◌, ℕ, Bool, List, Ok, Err, length, IfOk, IsOk};
ghost use Rattle.std.specs.declared.io.ErrorKind.TheVariants.{WriteZero};
ghost use Rattle.bitstream_io.specs.Callers.{Done, Error, EndOfInput, Order, High, bits, write_sequence, Reads, WritesAll, sequence_length, sure_answer, Stream, same_error, plain_reads};
ghost use Rattle.bitstream_io.specs.SliceMut.{HoldsFirst, written_bytes};

use bitstream_io::{
    BE, BitRead, BitReadExt, BitReader, BitWrite, BitWriteExt, Bits, Error, FromBitStream,
    SliceMut, ToBitStream, pack_into,
};

/// The header of a CAN frame in a capture (LINKTYPE_CAN_SOCKETCAN of tcpdump.org).
///
/// ```text
///  0                   1                   2                   3
///  0 1 2 3 4 5 6 7 8 9 0 1 2 3 4 5 6 7 8 9 0 1 2 3 4 5 6 7 8 9 0 1
/// +-+-+-+-+-+-+-+-+-+-+-+-+-+-+-+-+-+-+-+-+-+-+-+-+-+-+-+-+-+-+-+-+
/// |e|r|f|                            id                           |
/// +-+-+-+-+-+-+-+-+-+-+-+-+-+-+-+-+-+-+-+-+-+-+-+-+-+-+-+-+-+-+-+-+
/// |      size     |                       0                       |
/// +-+-+-+-+-+-+-+-+-+-+-+-+-+-+-+-+-+-+-+-+-+-+-+-+-+-+-+-+-+-+-+-+
/// ```
#[derive(Clone, Copy, Debug, PartialEq)]
pub struct CanFrame {
    /// True if the identifier has 29 bits, and not 11.
    pub extended: bool,
    /// True if the frame asks for data.
    pub remote: bool,
    /// True if the frame reports an error of the bus.
    pub fault: bool,
    /// The identifier. Below 2^29.
    pub id: u32,
    /// The bytes of the payload.
    pub size: u8,
}

impl CanFrame {
    /// The number of bits before each line of the description.
    pub const PLACES: [u64; 6] = [0, 1, 2, 3, 32, 40];

    /// Reads the fields in order.
    ///
    /// # Errors
    ///
    /// The reader's errors, after which it has failed.
    pub fn read<R: BitRead>(reader: &mut R) -> Result<CanFrame, Error>
        ensures { Reads R.source (can_frame_decoder R.source.order) reader.old result reader.new }
    {
        let extended = reader.read_bit()?;
        let remote = reader.read_bit()?;
        let fault = reader.read_bit()?;
        let id = reader.read::<Bits<29>, u32>()?;
        let size = reader.read::<Bits<8>, u8>()?;
        reader.skip(24)?;
        Ok(CanFrame {
            extended,
            remote,
            fault,
            id,
            size,
        })
    }

    /// Parses the value at the start of `packet`.
    ///
    /// # Errors
    ///
    /// `EndOfInput` for fewer than 8 bytes.
    pub fn parse(packet: &[u8]) -> Result<CanFrame, Error>
        ensures answer { result ≡ sure_answer ((can_frame_decoder High).reads 0 (bits High packet.now)) }
        ensures there { 8 ≤ length packet.now → result ≡ Ok (can_frame_at (bits High packet.now)) }
        ensures short { length packet.now < 8 → result ≡ Err EndOfInput }
        ensures back { (value : CanFrame) (more : List Bool) → Fits value
            → bits High packet.now ≡ can_frame_bits value ++ more → result ≡ Ok value }
    {
        can_frame_round_trip();
        CanFrame::read(&mut BitReader::<_, BE>::over(packet))
    }

    /// Writes the fields in order.
    ///
    /// # Errors
    ///
    /// `Checked` for a field that does not fit its bits. The fields before it have been written.
    /// Otherwise the sink's errors.
    pub fn write<W: BitWrite>(&self, writer: &mut W) -> Result<(), Error>
        ensures { WritesAll W.sink (can_frame_writes W.sink.order self.now) writer.old result writer.new }
    {
        writer.write_bit(self.extended)?;
        writer.write_bit(self.remote)?;
        writer.write_bit(self.fault)?;
        writer.write::<Bits<29>, u32>(self.id)?;
        writer.write::<Bits<8>, u8>(self.size)?;
        writer.pad(24)?;
        Ok(())
    }

    /// Writes the fields to the first bytes of a buffer, and returns what was written. The other bytes
    /// stay as they were. Does not allocate.
    ///
    /// # Errors
    ///
    /// `Checked` for the first field that does not fit its bits, however long the buffer is.
    /// `Stream(WriteZero)` if all fields fit, and the buffer has fewer than 8 bytes.
    /// After an error, the first bytes of the buffer may have changed.
    pub fn pack_into<'a>(&self, buffer: &'a mut [u8]) -> Result<SliceMut<'a>, Error>
        ensures packed { IfOk result (λ packed. bits High (written_bytes packed) ≡ can_frame_bits self.now) }
        ensures first { IfOk result (HoldsFirst buffer.entry.ghost_name buffer.old) }
        ensures fits { IsOk result → Fits self.now }
        ensures misfit { (error : Error) → sequence_length (can_frame_writes High self.now) 0 ≡ Err error
            → result ≡ Err error }
        ensures room { Fits self.now → 8 ≤ length buffer.old → IsOk result }
        ensures short { Fits self.now → length buffer.old < 8 → result ≡ Err (Stream WriteZero) }
    {
        pack_into::<BE, CanFrame>(self, buffer)
    }
}

impl FromBitStream for CanFrame {
    type Error = Error;

    ghost becomes = { same_error };

    ghost reads = { λ o. plain_reads (can_frame_decoder o) };

    fn from_reader<R: BitRead>(reader: &mut R) -> Result<CanFrame, Error> {
        CanFrame::read(reader)
    }
}

impl ToBitStream for CanFrame {
    type Error = Error;

    ghost becomes = { same_error };

    ghost writes = { can_frame_writes };

    fn to_writer<W: BitWrite>(&self, writer: &mut W) -> Result<(), Error> {
        self.write(writer)
    }
}

/// A value that fits its bits is read back as it was written, in either order of bits, at any place.
/// The read takes only the bits that were written: 64 bits.
pub fn can_frame_round_trip()
    ensures back { (o : Order) (value : CanFrame) (at from : ℕ) (more : List Bool) → Fits value
        → let written = write_sequence (can_frame_writes o value) at in
        (can_frame_decoder o).reads from (written ++ more) ≡ Done (length written) (Ok value) }
    ensures size { (o : Order) (value : CanFrame) (at : ℕ) → Fits value
        → length (write_sequence (can_frame_writes o value) at) ≡ 64 }
{}
