//! The header before a packet's bytes.
//!
//! Made by `./format` from formats/header.fields: edit that file and make this one anew.
ghost use Rattle.bitstream_callers.specs.Header.{header_decoder, header_writes, header_bits, header_at, Fits};
ghost use Rattle.bitstream_callers.specs.declared.header.Header.{Header};
ghost use Rattle.std.specs.Prelude.{◌≡◌, ◌<◌, ◌≤◌, ◌++◌, ℕ, Bool, List, Ok, Err, length, IfOk, IsOk};
ghost use Rattle.std.specs.declared.io.ErrorKind.TheVariants.{WriteZero};
ghost use Rattle.bitstream_io.specs.Callers.{Done, Error, EndOfInput, Order, High, bits, write_sequence, Reads, WritesAll, sequence_length, sure_answer, Stream, same_error, plain_reads};
ghost use Rattle.bitstream_io.specs.SliceMut.{HoldsFirst, written_bytes};

use bitstream_io::{
    BE, BitRead, BitReadExt, BitReader, BitWrite, BitWriteExt, Bits, Error, FromBitStream,
    SliceMut, ToBitStream, pack_into,
};

/// The header before a packet's bytes.
///
/// ```text
///  0                   1                   2                   3
///  0 1 2 3 4 5 6 7 8 9 0 1 2 3 4 5 6 7 8 9 0 1 2 3 4 5 6 7 8 9 0 1
/// +-+-+-+-+-+-+-+-+-+-+-+-+-+-+-+-+-+-+-+-+-+-+-+-+
/// |versi|a|priorit|             length            |
/// +-+-+-+-+-+-+-+-+-+-+-+-+-+-+-+-+-+-+-+-+-+-+-+-+
/// ```
#[derive(Clone, Copy, Debug, PartialEq)]
pub struct Header {
    /// The version of the protocol. Below 2^3.
    pub version: u8,
    /// True if the packet is to be acknowledged.
    pub acknowledge: bool,
    /// The urgency of the packet. From -8 to 7.
    pub priority: i8,
    /// The number of bytes that follow.
    pub length: u16,
}

impl Header {
    /// The number of bits before each line of the description.
    pub const PLACES: [u64; 4] = [0, 3, 4, 8];

    /// Reads the fields in order.
    ///
    /// # Errors
    ///
    /// The reader's errors, after which it has failed.
    pub fn read<R: BitRead>(reader: &mut R) -> Result<Header, Error>
        ensures { Reads R.source (header_decoder R.source.order) reader.old result reader.new }
    {
        let version = reader.read::<Bits<3>, u8>()?;
        let acknowledge = reader.read_bit()?;
        let priority = reader.read::<Bits<4>, i8>()?;
        let length = reader.read::<Bits<16>, u16>()?;
        Ok(Header {
            version,
            acknowledge,
            priority,
            length,
        })
    }

    /// Parses the value at the start of `packet`.
    ///
    /// # Errors
    ///
    /// `EndOfInput` for fewer than 3 bytes.
    pub fn parse(packet: &[u8]) -> Result<Header, Error>
        ensures answer { result ≡ sure_answer ((header_decoder High).reads 0 (bits High packet.now)) }
        ensures there { 3 ≤ length packet.now → result ≡ Ok (header_at (bits High packet.now)) }
        ensures short { length packet.now < 3 → result ≡ Err EndOfInput }
        ensures back { (value : Header) (more : List Bool) → Fits value
            → bits High packet.now ≡ header_bits value ++ more → result ≡ Ok value }
    {
        header_round_trip();
        Header::read(&mut BitReader::<_, BE>::over(packet))
    }

    /// Writes the fields in order.
    ///
    /// # Errors
    ///
    /// `Checked` for a field that does not fit its bits. The fields before it have been written.
    /// Otherwise the sink's errors.
    pub fn write<W: BitWrite>(&self, writer: &mut W) -> Result<(), Error>
        ensures { WritesAll W.sink (header_writes W.sink.order self.now) writer.old result writer.new }
    {
        writer.write::<Bits<3>, u8>(self.version)?;
        writer.write_bit(self.acknowledge)?;
        writer.write::<Bits<4>, i8>(self.priority)?;
        writer.write::<Bits<16>, u16>(self.length)?;
        Ok(())
    }

    /// Writes the fields to the first bytes of a buffer, and returns what was written. The other bytes
    /// stay as they were. Does not allocate.
    ///
    /// # Errors
    ///
    /// `Checked` for the first field that does not fit its bits, however long the buffer is.
    /// `Stream(WriteZero)` if all fields fit, and the buffer has fewer than 3 bytes.
    /// After an error, the first bytes of the buffer may have changed.
    pub fn pack_into<'a>(&self, buffer: &'a mut [u8]) -> Result<SliceMut<'a>, Error>
        ensures packed { IfOk result (λ packed. bits High (written_bytes packed) ≡ header_bits self.now) }
        ensures first { IfOk result (HoldsFirst buffer.entry.ghost_name buffer.old) }
        ensures fits { IsOk result → Fits self.now }
        ensures misfit { (error : Error) → sequence_length (header_writes High self.now) 0 ≡ Err error
            → result ≡ Err error }
        ensures room { Fits self.now → 3 ≤ length buffer.old → IsOk result }
        ensures short { Fits self.now → length buffer.old < 3 → result ≡ Err (Stream WriteZero) }
    {
        pack_into::<BE, Header>(self, buffer)
    }
}

impl FromBitStream for Header {
    type Error = Error;

    ghost becomes = { same_error };

    ghost reads = { λ o. plain_reads (header_decoder o) };

    fn from_reader<R: BitRead>(reader: &mut R) -> Result<Header, Error> {
        Header::read(reader)
    }
}

impl ToBitStream for Header {
    type Error = Error;

    ghost becomes = { same_error };

    ghost writes = { header_writes };

    fn to_writer<W: BitWrite>(&self, writer: &mut W) -> Result<(), Error> {
        self.write(writer)
    }
}

/// A value that fits its bits is read back as it was written, in either order of bits, at any place.
/// The read takes only the bits that were written: 24 bits.
pub fn header_round_trip()
    ensures back { (o : Order) (value : Header) (at from : ℕ) (more : List Bool) → Fits value
        → let written = write_sequence (header_writes o value) at in
        (header_decoder o).reads from (written ++ more) ≡ Done (length written) (Ok value) }
    ensures size { (o : Order) (value : Header) (at : ℕ) → Fits value
        → length (write_sequence (header_writes o value) at) ≡ 24 }
{}
