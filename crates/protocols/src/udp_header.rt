//! The header of a UDP datagram (RFC 768).
//!
//! Made by `./format` from formats/udp_header.fields: edit that file and make this one anew.
ghost use Rattle.protocols.specs.UdpHeader.{udp_header_decoder, udp_header_writes, udp_header_bits, udp_header_at, Fits};
ghost use Rattle.protocols.specs.declared.udp_header.UdpHeader.{UdpHeader};
ghost use Rattle.std.specs.Prelude.{◌≡◌, ◌<◌, ◌≤◌, ◌++◌, ℕ, Bool, List, Ok, Err, length, IfOk, IsOk};
ghost use Rattle.std.specs.declared.io.ErrorKind.TheVariants.{WriteZero};
ghost use Rattle.bitstream_io.specs.Callers.{Done, Error, EndOfInput, Order, High, bits, write_sequence, Reads, WritesAll, sequence_length, sure_answer, Stream, same_error, plain_reads};
ghost use Rattle.bitstream_io.specs.SliceMut.{HoldsFirst, written_bytes};

use bitstream_io::{
    BE, BitRead, BitReadExt, BitReader, BitWrite, BitWriteExt, Bits, Error, FromBitStream,
    SliceMut, ToBitStream, pack_into,
};

/// The header of a UDP datagram (RFC 768).
///
/// ```text
///  0                   1                   2                   3
///  0 1 2 3 4 5 6 7 8 9 0 1 2 3 4 5 6 7 8 9 0 1 2 3 4 5 6 7 8 9 0 1
/// +-+-+-+-+-+-+-+-+-+-+-+-+-+-+-+-+-+-+-+-+-+-+-+-+-+-+-+-+-+-+-+-+
/// |             source            |             target            |
/// +-+-+-+-+-+-+-+-+-+-+-+-+-+-+-+-+-+-+-+-+-+-+-+-+-+-+-+-+-+-+-+-+
/// |              size             |            checksum           |
/// +-+-+-+-+-+-+-+-+-+-+-+-+-+-+-+-+-+-+-+-+-+-+-+-+-+-+-+-+-+-+-+-+
/// ```
#[derive(Clone, Copy, Debug, PartialEq)]
pub struct UdpHeader {
    /// The port of the sender, or 0 if it is not used.
    pub source: u16,
    /// The port of the receiver.
    pub target: u16,
    /// The bytes of the datagram, with this header.
    pub size: u16,
    /// The checksum, or 0 if the sender computed none.
    pub checksum: u16,
}

impl UdpHeader {
    /// The number of bits before each line of the description.
    pub const PLACES: [u64; 4] = [0, 16, 32, 48];

    /// Reads the fields in order.
    ///
    /// # Errors
    ///
    /// The reader's errors, after which it has failed.
    pub fn read<R: BitRead>(reader: &mut R) -> Result<UdpHeader, Error>
        ensures { Reads R.source (udp_header_decoder R.source.order) reader.old result reader.new }
    {
        let source = reader.read::<Bits<16>, u16>()?;
        let target = reader.read::<Bits<16>, u16>()?;
        let size = reader.read::<Bits<16>, u16>()?;
        let checksum = reader.read::<Bits<16>, u16>()?;
        Ok(UdpHeader {
            source,
            target,
            size,
            checksum,
        })
    }

    /// Parses the value at the start of `packet`.
    ///
    /// # Errors
    ///
    /// `EndOfInput` for fewer than 8 bytes.
    pub fn parse(packet: &[u8]) -> Result<UdpHeader, Error>
        ensures answer { result ≡ sure_answer ((udp_header_decoder High).reads 0 (bits High packet.now)) }
        ensures there { 8 ≤ length packet.now → result ≡ Ok (udp_header_at (bits High packet.now)) }
        ensures short { length packet.now < 8 → result ≡ Err EndOfInput }
        ensures back { (value : UdpHeader) (more : List Bool) → Fits value
            → bits High packet.now ≡ udp_header_bits value ++ more → result ≡ Ok value }
    {
        udp_header_round_trip();
        UdpHeader::read(&mut BitReader::<_, BE>::over(packet))
    }

    /// Writes the fields in order.
    ///
    /// # Errors
    ///
    /// `Checked` for a field that does not fit its bits. The fields before it have been written.
    /// Otherwise the sink's errors.
    pub fn write<W: BitWrite>(&self, writer: &mut W) -> Result<(), Error>
        ensures { WritesAll W.sink (udp_header_writes W.sink.order self.now) writer.old result writer.new }
    {
        writer.write::<Bits<16>, u16>(self.source)?;
        writer.write::<Bits<16>, u16>(self.target)?;
        writer.write::<Bits<16>, u16>(self.size)?;
        writer.write::<Bits<16>, u16>(self.checksum)?;
        Ok(())
    }

    /// Writes the fields to the first bytes of a buffer, and returns what was written. The other bytes
    /// stay as they were. Does not allocate.
    ///
    /// # Errors
    ///
    /// `Checked` for the first field that does not fit its bits, however long the buffer is.
    /// `Stream(WriteZero)` if all fields fit, and the buffer has fewer than 8 bytes.
    /// After an error, the first bytes of the buffer may have changed.
    pub fn pack_into<'a>(&self, buffer: &'a mut [u8]) -> Result<SliceMut<'a>, Error>
        ensures packed { IfOk result (λ packed. bits High (written_bytes packed) ≡ udp_header_bits self.now) }
        ensures first { IfOk result (HoldsFirst buffer.entry.ghost_name buffer.old) }
        ensures fits { IsOk result → Fits self.now }
        ensures misfit { (error : Error) → sequence_length (udp_header_writes High self.now) 0 ≡ Err error
            → result ≡ Err error }
        ensures room { Fits self.now → 8 ≤ length buffer.old → IsOk result }
        ensures short { Fits self.now → length buffer.old < 8 → result ≡ Err (Stream WriteZero) }
    {
        pack_into::<BE, UdpHeader>(self, buffer)
    }
}

impl FromBitStream for UdpHeader {
    type Error = Error;

    ghost becomes = { same_error };

    ghost reads = { λ o. plain_reads (udp_header_decoder o) };

    fn from_reader<R: BitRead>(reader: &mut R) -> Result<UdpHeader, Error> {
        UdpHeader::read(reader)
    }
}

impl ToBitStream for UdpHeader {
    type Error = Error;

    ghost becomes = { same_error };

    ghost writes = { udp_header_writes };

    fn to_writer<W: BitWrite>(&self, writer: &mut W) -> Result<(), Error> {
        self.write(writer)
    }
}

/// A value that fits its bits is read back as it was written, in either order of bits, at any place.
/// The read takes only the bits that were written: 64 bits.
pub fn udp_header_round_trip()
    ensures back { (o : Order) (value : UdpHeader) (at from : ℕ) (more : List Bool) → Fits value
        → let written = write_sequence (udp_header_writes o value) at in
        (udp_header_decoder o).reads from (written ++ more) ≡ Done (length written) (Ok value) }
    ensures size { (o : Order) (value : UdpHeader) (at : ℕ) → Fits value
        → length (write_sequence (udp_header_writes o value) at) ≡ 64 }
{}
