//! The first 20 bytes of the header of a TCP segment, without options (RFC 9293, section 3.1).
//!
//! Made by `./format` from formats/tcp_header.fields: edit that file and make this one anew.
ghost use Rattle.protocols.specs.TcpHeader.{tcp_header_decoder, tcp_header_writes, tcp_header_bits, tcp_header_at, Fits, tcp_header_decoder_1, tcp_header_decoder_2, tcp_header_writes_2, tcp_header_writes_3};
ghost use Rattle.protocols.specs.declared.tcp_header.TcpHeader.{TcpHeader};
ghost use Rattle.std.specs.Prelude.{◌≡◌, ◌<◌, ◌≤◌, ◌++◌, ℕ, Bool, List, Ok, Err, length, IfOk, IsOk};
ghost use Rattle.std.specs.declared.io.ErrorKind.TheVariants.{WriteZero};
ghost use Rattle.bitstream_io.specs.Callers.{Done, Error, EndOfInput, Order, High, bits, write_sequence, Reads, WritesAll, sequence_length, sure_answer, Stream, same_error, plain_reads};
ghost use Rattle.bitstream_io.specs.SliceMut.{HoldsFirst, written_bytes};

use bitstream_io::{
    BE, BitRead, BitReadExt, BitReader, BitWrite, BitWriteExt, Bits, Error, FromBitStream,
    SliceMut, ToBitStream, pack_into,
};

/// The first 20 bytes of the header of a TCP segment, without options (RFC 9293, section 3.1).
///
/// ```text
///  0                   1                   2                   3
///  0 1 2 3 4 5 6 7 8 9 0 1 2 3 4 5 6 7 8 9 0 1 2 3 4 5 6 7 8 9 0 1
/// +-+-+-+-+-+-+-+-+-+-+-+-+-+-+-+-+-+-+-+-+-+-+-+-+-+-+-+-+-+-+-+-+
/// |             source            |             target            |
/// +-+-+-+-+-+-+-+-+-+-+-+-+-+-+-+-+-+-+-+-+-+-+-+-+-+-+-+-+-+-+-+-+
/// |                            sequence                           |
/// +-+-+-+-+-+-+-+-+-+-+-+-+-+-+-+-+-+-+-+-+-+-+-+-+-+-+-+-+-+-+-+-+
/// |                          acknowledged                         |
/// +-+-+-+-+-+-+-+-+-+-+-+-+-+-+-+-+-+-+-+-+-+-+-+-+-+-+-+-+-+-+-+-+
/// |data_of|   0   |c|e|u|a|p|r|s|f|             window            |
/// +-+-+-+-+-+-+-+-+-+-+-+-+-+-+-+-+-+-+-+-+-+-+-+-+-+-+-+-+-+-+-+-+
/// |            checksum           |             urgent            |
/// +-+-+-+-+-+-+-+-+-+-+-+-+-+-+-+-+-+-+-+-+-+-+-+-+-+-+-+-+-+-+-+-+
/// ```
#[derive(Clone, Copy, Debug, PartialEq)]
pub struct TcpHeader {
    /// The port of the sender.
    pub source: u16,
    /// The port of the receiver.
    pub target: u16,
    /// The number of the first byte of the segment.
    pub sequence: u32,
    /// The number of the byte that the sender expects next.
    pub acknowledged: u32,
    /// The 32-bit words of the header; the words after the fifth are options. Below 2^4.
    pub data_offset: u8,
    /// True if the sender reduced its congestion window.
    pub cwr: bool,
    /// True if the sender received a mark of congestion, or knows such marks.
    pub ece: bool,
    /// True if there are urgent data.
    pub urg: bool,
    /// True if `acknowledged` counts.
    pub ack: bool,
    /// True if the receiver should pass the data on at once.
    pub psh: bool,
    /// True if the connection is reset.
    pub rst: bool,
    /// True if the sequence numbers begin here.
    pub syn: bool,
    /// True if the sender has no more data.
    pub fin: bool,
    /// The bytes that the sender accepts, in units of the window scale.
    pub window: u16,
    /// The checksum of the segment.
    pub checksum: u16,
    /// The bytes from the start of the segment to the end of the urgent data.
    pub urgent: u16,
}

impl TcpHeader {
    /// The number of bits before each line of the description.
    pub const PLACES: [u64; 17] = [
        0, 16, 32, 64, 96, 100, 104, 105, 106, 107, 108, 109, 110, 111, 112, 128, 144,
    ];

    /// Reads the fields in order.
    ///
    /// # Errors
    ///
    /// The reader's errors, after which it has failed.
    pub fn read<R: BitRead>(reader: &mut R) -> Result<TcpHeader, Error>
        ensures { Reads R.source (tcp_header_decoder R.source.order) reader.old result reader.new }
    {
        let source = reader.read::<Bits<16>, u16>()?;
        let target = reader.read::<Bits<16>, u16>()?;
        let sequence = reader.read::<Bits<32>, u32>()?;
        let acknowledged = reader.read::<Bits<32>, u32>()?;
        let data_offset = reader.read::<Bits<4>, u8>()?;
        reader.skip(4)?;
        let cwr = reader.read_bit()?;
        let ece = reader.read_bit()?;
        TcpHeader::read_2(
            reader,
            source,
            target,
            sequence,
            acknowledged,
            data_offset,
            cwr,
            ece,
        )
    }

    /// Reads the fields from `urg` on.
    fn read_2<R: BitRead>(
        reader: &mut R,
        source: u16,
        target: u16,
        sequence: u32,
        acknowledged: u32,
        data_offset: u8,
        cwr: bool,
        ece: bool,
    ) -> Result<TcpHeader, Error>
        ensures { Reads R.source
            (tcp_header_decoder_1 R.source.order source target sequence acknowledged data_offset cwr ece)
            reader.old result reader.new }
    {
        let urg = reader.read_bit()?;
        let ack = reader.read_bit()?;
        let psh = reader.read_bit()?;
        let rst = reader.read_bit()?;
        let syn = reader.read_bit()?;
        let fin = reader.read_bit()?;
        let window = reader.read::<Bits<16>, u16>()?;
        let checksum = reader.read::<Bits<16>, u16>()?;
        TcpHeader::read_3(
            reader,
            source,
            target,
            sequence,
            acknowledged,
            data_offset,
            cwr,
            ece,
            urg,
            ack,
            psh,
            rst,
            syn,
            fin,
            window,
            checksum,
        )
    }

    /// Reads the fields from `urgent` on.
    fn read_3<R: BitRead>(
        reader: &mut R,
        source: u16,
        target: u16,
        sequence: u32,
        acknowledged: u32,
        data_offset: u8,
        cwr: bool,
        ece: bool,
        urg: bool,
        ack: bool,
        psh: bool,
        rst: bool,
        syn: bool,
        fin: bool,
        window: u16,
        checksum: u16,
    ) -> Result<TcpHeader, Error>
        ensures { Reads R.source
            (tcp_header_decoder_2 R.source.order source target sequence acknowledged data_offset cwr ece urg ack psh rst syn fin window checksum)
            reader.old result reader.new }
    {
        let urgent = reader.read::<Bits<16>, u16>()?;
        Ok(TcpHeader {
            source,
            target,
            sequence,
            acknowledged,
            data_offset,
            cwr,
            ece,
            urg,
            ack,
            psh,
            rst,
            syn,
            fin,
            window,
            checksum,
            urgent,
        })
    }

    /// Parses the value at the start of `packet`.
    ///
    /// # Errors
    ///
    /// `EndOfInput` for fewer than 20 bytes.
    pub fn parse(packet: &[u8]) -> Result<TcpHeader, Error>
        ensures answer { result ≡ sure_answer ((tcp_header_decoder High).reads 0 (bits High packet.now)) }
        ensures there { 20 ≤ length packet.now
            → result ≡ Ok (tcp_header_at (bits High packet.now)) }
        ensures short { length packet.now < 20 → result ≡ Err EndOfInput }
        ensures back { (value : TcpHeader) (more : List Bool) → Fits value
            → bits High packet.now ≡ tcp_header_bits value ++ more → result ≡ Ok value }
    {
        tcp_header_round_trip();
        TcpHeader::read(&mut BitReader::<_, BE>::over(packet))
    }

    /// Writes the fields in order.
    ///
    /// # Errors
    ///
    /// `Checked` for a field that does not fit its bits. The fields before it have been written.
    /// Otherwise the sink's errors.
    pub fn write<W: BitWrite>(&self, writer: &mut W) -> Result<(), Error>
        ensures { WritesAll W.sink (tcp_header_writes W.sink.order self.now) writer.old result writer.new }
    {
        writer.write::<Bits<16>, u16>(self.source)?;
        writer.write::<Bits<16>, u16>(self.target)?;
        writer.write::<Bits<32>, u32>(self.sequence)?;
        writer.write::<Bits<32>, u32>(self.acknowledged)?;
        writer.write::<Bits<4>, u8>(self.data_offset)?;
        writer.pad(4)?;
        writer.write_bit(self.cwr)?;
        writer.write_bit(self.ece)?;
        self.write_2(writer)
    }

    /// Writes the fields from `urg` on.
    fn write_2<W: BitWrite>(&self, writer: &mut W) -> Result<(), Error>
        ensures { WritesAll W.sink (tcp_header_writes_2 W.sink.order self.now)
            writer.old result writer.new }
    {
        writer.write_bit(self.urg)?;
        writer.write_bit(self.ack)?;
        writer.write_bit(self.psh)?;
        writer.write_bit(self.rst)?;
        writer.write_bit(self.syn)?;
        writer.write_bit(self.fin)?;
        writer.write::<Bits<16>, u16>(self.window)?;
        writer.write::<Bits<16>, u16>(self.checksum)?;
        self.write_3(writer)
    }

    /// Writes the fields from `urgent` on.
    fn write_3<W: BitWrite>(&self, writer: &mut W) -> Result<(), Error>
        ensures { WritesAll W.sink (tcp_header_writes_3 W.sink.order self.now)
            writer.old result writer.new }
    {
        writer.write::<Bits<16>, u16>(self.urgent)?;
        Ok(())
    }

    /// Writes the fields to the first bytes of a buffer, and returns what was written. The other bytes
    /// stay as they were. Does not allocate.
    ///
    /// # Errors
    ///
    /// `Checked` for the first field that does not fit its bits, however long the buffer is.
    /// `Stream(WriteZero)` if all fields fit, and the buffer has fewer than 20 bytes.
    /// After an error, the first bytes of the buffer may have changed.
    pub fn pack_into<'a>(&self, buffer: &'a mut [u8]) -> Result<SliceMut<'a>, Error>
        ensures packed { IfOk result (λ packed. bits High (written_bytes packed) ≡ tcp_header_bits self.now) }
        ensures first { IfOk result (HoldsFirst buffer.entry.ghost_name buffer.old) }
        ensures fits { IsOk result → Fits self.now }
        ensures misfit { (error : Error) → sequence_length (tcp_header_writes High self.now) 0 ≡ Err error
            → result ≡ Err error }
        ensures room { Fits self.now → 20 ≤ length buffer.old → IsOk result }
        ensures short { Fits self.now → length buffer.old < 20 → result ≡ Err (Stream WriteZero) }
    {
        pack_into::<BE, TcpHeader>(self, buffer)
    }
}

impl FromBitStream for TcpHeader {
    type Error = Error;

    ghost becomes = { same_error };

    ghost reads = { λ o. plain_reads (tcp_header_decoder o) };

    fn from_reader<R: BitRead>(reader: &mut R) -> Result<TcpHeader, Error> {
        TcpHeader::read(reader)
    }
}

impl ToBitStream for TcpHeader {
    type Error = Error;

    ghost becomes = { same_error };

    ghost writes = { tcp_header_writes };

    fn to_writer<W: BitWrite>(&self, writer: &mut W) -> Result<(), Error> {
        self.write(writer)
    }
}

/// A value that fits its bits is read back as it was written, in either order of bits, at any place.
/// The read takes only the bits that were written: 160 bits.
pub fn tcp_header_round_trip()
    ensures back { (o : Order) (value : TcpHeader) (at from : ℕ) (more : List Bool) → Fits value
        → let written = write_sequence (tcp_header_writes o value) at in
        (tcp_header_decoder o).reads from (written ++ more) ≡ Done (length written) (Ok value) }
    ensures size { (o : Order) (value : TcpHeader) (at : ℕ) → Fits value
        → length (write_sequence (tcp_header_writes o value) at) ≡ 160 }
{}
