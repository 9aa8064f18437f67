//! The acknowledgement of a packet.
//!
//! Made by `./format` from formats/ack.fields: edit that file and make this one anew.
ghost use Rattle.bitstream_messages.specs.Ack.{ack_decoder, ack_writes, ack_bits, ack_at, Fits};
ghost use Rattle.bitstream_messages.specs.declared.ack.Ack.{Ack};
ghost use Rattle.std.specs.Prelude.{◌≡◌, ◌<◌, ◌≤◌, ◌++◌, ℕ, Bool, List, Ok, Err, length, IfOk, IsOk};
ghost use Rattle.std.specs.declared.io.ErrorKind.TheVariants.{WriteZero};
ghost use Rattle.bitstream_io.specs.Callers.{Done, Error, EndOfInput, Order, High, bits, write_sequence, Reads, WritesAll, sequence_length, sure_answer, Stream, same_error, plain_reads};
ghost use Rattle.bitstream_io.specs.SliceMut.{HoldsFirst, written_bytes};

use bitstream_io::{
    BE, BitRead, BitReadExt, BitReader, BitWrite, BitWriteExt, Bits, Error, FromBitStream,
    SliceMut, ToBitStream, pack_into,
};

/// The acknowledgement of a packet.
///
/// ```text
///  0                   1                   2                   3
///  0 1 2 3 4 5 6 7 8 9 0 1 2 3 4 5 6 7 8 9 0 1 2 3 4 5 6 7 8 9 0 1
/// +-+-+-+-+-+-+-+-+-+-+-+-+-+-+-+-+-+-+-+-+-+-+-+-+
/// |            sequence           |u|      0      |
/// +-+-+-+-+-+-+-+-+-+-+-+-+-+-+-+-+-+-+-+-+-+-+-+-+
/// ```
#[derive(Clone, Copy, Debug, PartialEq)]
pub struct Ack {
    /// The number of the packet.
    pub sequence: u16,
    /// True if it is urgent.
    pub urgent: bool,
}

impl Ack {
    /// The number of bits before each line of the description.
    pub const PLACES: [u64; 3] = [0, 16, 17];

    /// Reads the fields in order.
    ///
    /// # Errors
    ///
    /// The reader's errors, after which it has failed.
    pub fn read<R: BitRead>(reader: &mut R) -> Result<Ack, Error>
        ensures { Reads R.source (ack_decoder R.source.order) reader.old result reader.new }
    {
        let sequence = reader.read::<Bits<16>, u16>()?;
        let urgent = reader.read_bit()?;
        reader.skip(7)?;
        Ok(Ack { sequence, urgent })
    }

    /// Parses the value at the start of `packet`.
    ///
    /// # Errors
    ///
    /// `EndOfInput` for fewer than 3 bytes.
    pub fn parse(packet: &[u8]) -> Result<Ack, Error>
        ensures answer { result ≡ sure_answer ((ack_decoder High).reads 0 (bits High packet.now)) }
        ensures there { 3 ≤ length packet.now → result ≡ Ok (ack_at (bits High packet.now)) }
        ensures short { length packet.now < 3 → result ≡ Err EndOfInput }
        ensures back { (value : Ack) (more : List Bool) → Fits value
            → bits High packet.now ≡ ack_bits value ++ more → result ≡ Ok value }
    {
        ack_round_trip();
        Ack::read(&mut BitReader::<_, BE>::over(packet))
    }

    /// Writes the fields in order.
    ///
    /// # Errors
    ///
    /// `Checked` for a field that does not fit its bits. The fields before it have been written.
    /// Otherwise the sink's errors.
    pub fn write<W: BitWrite>(&self, writer: &mut W) -> Result<(), Error>
        ensures { WritesAll W.sink (ack_writes W.sink.order self.now) writer.old result writer.new }
    {
        writer.write::<Bits<16>, u16>(self.sequence)?;
        writer.write_bit(self.urgent)?;
        writer.pad(7)?;
        Ok(())
    }

    /// Writes the fields to the first bytes of a buffer, and returns what was written. The other bytes
    /// stay as they were. Does not allocate.
    ///
    /// # Errors
    ///
    /// `Checked` for the first field that does not fit its bits, however long the buffer is.
    /// `Stream(WriteZero)` if all fields fit, and the buffer has fewer than 3 bytes.
    /// After an error, the first bytes of the buffer may have changed.
    pub fn pack_into<'a>(&self, buffer: &'a mut [u8]) -> Result<SliceMut<'a>, Error>
        ensures packed { IfOk result (λ packed. bits High (written_bytes packed) ≡ ack_bits self.now) }
        ensures first { IfOk result (HoldsFirst buffer.entry.ghost_name buffer.old) }
        ensures fits { IsOk result → Fits self.now }
        ensures misfit { (error : Error) → sequence_length (ack_writes High self.now) 0 ≡ Err error
            → result ≡ Err error }
        ensures room { Fits self.now → 3 ≤ length buffer.old → IsOk result }
        ensures short { Fits self.now → length buffer.old < 3 → result ≡ Err (Stream WriteZero) }
    {
        pack_into::<BE, Ack>(self, buffer)
    }
}

impl FromBitStream for Ack {
    type Error = Error;

    ghost becomes = { same_error };

    ghost reads = { λ o. plain_reads (ack_decoder o) };

    fn from_reader<R: BitRead>(reader: &mut R) -> Result<Ack, Error> {
        Ack::read(reader)
    }
}

impl ToBitStream for Ack {
    type Error = Error;

    ghost becomes = { same_error };

    ghost writes = { ack_writes };

    fn to_writer<W: BitWrite>(&self, writer: &mut W) -> Result<(), Error> {
        self.write(writer)
    }
}

/// A value that fits its bits is read back as it was written, in either order of bits, at any place.
/// The read takes only the bits that were written: 24 bits.
pub fn ack_round_trip()
    ensures back { (o : Order) (value : Ack) (at from : ℕ) (more : List Bool) → Fits value
        → let written = write_sequence (ack_writes o value) at in
        (ack_decoder o).reads from (written ++ more) ≡ Done (length written) (Ok value) }
    ensures size { (o : Order) (value : Ack) (at : ℕ) → Fits value
        → length (write_sequence (ack_writes o value) at) ≡ 24 }
{}
