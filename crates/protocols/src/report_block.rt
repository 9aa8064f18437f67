//! A receiver's report on one source of RTP (RFC 3550, section 6.4.1).
//!
//! Made by `./format` from formats/report_block.fields: edit that file and make this one anew.
ghost use Rattle.protocols.specs.ReportBlock.{report_block_decoder, report_block_writes, report_block_bits, report_block_at, Fits};
ghost use Rattle.protocols.specs.declared.report_block.ReportBlock.{ReportBlock};
ghost use Rattle.std.specs.Prelude.{◌≡◌, ◌<◌, ◌≤◌, ◌++◌, ℕ, Bool, List, Ok, Err, length, IfOk, IsOk};
ghost use Rattle.std.specs.declared.io.ErrorKind.TheVariants.{WriteZero};
ghost use Rattle.bitstream_io.specs.Callers.{Done, Error, EndOfInput, Order, High, bits, write_sequence, Reads, WritesAll, sequence_length, sure_answer, Stream, same_error, plain_reads};
ghost use Rattle.bitstream_io.specs.SliceMut.{HoldsFirst, written_bytes};

use bitstream_io::{
    BE, BitRead, BitReadExt, BitReader, BitWrite, BitWriteExt, Bits, Error, FromBitStream,
    SliceMut, ToBitStream, pack_into,
};

/// A receiver's report on one source of RTP (RFC 3550, section 6.4.1).
///
/// ```text
///  0                   1                   2                   3
///  0 1 2 3 4 5 6 7 8 9 0 1 2 3 4 5 6 7 8 9 0 1 2 3 4 5 6 7 8 9 0 1
/// +-+-+-+-+-+-+-+-+-+-+-+-+-+-+-+-+-+-+-+-+-+-+-+-+-+-+-+-+-+-+-+-+
/// |                              ssrc                             |
/// +-+-+-+-+-+-+-+-+-+-+-+-+-+-+-+-+-+-+-+-+-+-+-+-+-+-+-+-+-+-+-+-+
/// | fraction_lost |                      lost                     |
/// +-+-+-+-+-+-+-+-+-+-+-+-+-+-+-+-+-+-+-+-+-+-+-+-+-+-+-+-+-+-+-+-+
/// |                            highest                            |
/// +-+-+-+-+-+-+-+-+-+-+-+-+-+-+-+-+-+-+-+-+-+-+-+-+-+-+-+-+-+-+-+-+
/// |                             jitter                            |
/// +-+-+-+-+-+-+-+-+-+-+-+-+-+-+-+-+-+-+-+-+-+-+-+-+-+-+-+-+-+-+-+-+
/// |                          last_report                          |
/// +-+-+-+-+-+-+-+-+-+-+-+-+-+-+-+-+-+-+-+-+-+-+-+-+-+-+-+-+-+-+-+-+
/// |                             delay                             |
/// +-+-+-+-+-+-+-+-+-+-+-+-+-+-+-+-+-+-+-+-+-+-+-+-+-+-+-+-+-+-+-+-+
/// ```
#[derive(Clone, Copy, Debug, PartialEq)]
pub struct ReportBlock {
    /// The source.
    pub ssrc: u32,
    /// The part of the packets that was lost since the last report, in units of 1/256.
    pub fraction_lost: u8,
    /// The number of packets that were lost in all. From -8388608 to 8388607.
    pub lost: i32,
    /// The highest sequence number that was received, after the number of its cycles.
    pub highest: u32,
    /// The variation of the time between packets, in units of the RTP timestamp.
    pub jitter: u32,
    /// The middle bits of the NTP timestamp of the source's last report.
    pub last_report: u32,
    /// The time since that report, in units of 2^-16 seconds.
    pub delay: u32,
}

impl ReportBlock {
    /// The number of bits before each line of the description.
    pub const PLACES: [u64; 7] = [0, 32, 40, 64, 96, 128, 160];

    /// Reads the fields in order.
    ///
    /// # Errors
    ///
    /// The reader's errors, after which it has failed.
    pub fn read<R: BitRead>(reader: &mut R) -> Result<ReportBlock, Error>
        ensures { Reads R.source (report_block_decoder R.source.order) reader.old result reader.new }
    {
        let ssrc = reader.read::<Bits<32>, u32>()?;
        let fraction_lost = reader.read::<Bits<8>, u8>()?;
        let lost = reader.read::<Bits<24>, i32>()?;
        let highest = reader.read::<Bits<32>, u32>()?;
        let jitter = reader.read::<Bits<32>, u32>()?;
        let last_report = reader.read::<Bits<32>, u32>()?;
        let delay = reader.read::<Bits<32>, u32>()?;
        Ok(ReportBlock {
            ssrc,
            fraction_lost,
            lost,
            highest,
            jitter,
            last_report,
            delay,
        })
    }

    /// Parses the value at the start of `packet`.
    ///
    /// # Errors
    ///
    /// `EndOfInput` for fewer than 24 bytes.
    pub fn parse(packet: &[u8]) -> Result<ReportBlock, Error>
        ensures answer { result ≡ sure_answer ((report_block_decoder High).reads 0 (bits High packet.now)) }
        ensures there { 24 ≤ length packet.now
            → result ≡ Ok (report_block_at (bits High packet.now)) }
        ensures short { length packet.now < 24 → result ≡ Err EndOfInput }
        ensures back { (value : ReportBlock) (more : List Bool) → Fits value
            → bits High packet.now ≡ report_block_bits value ++ more → result ≡ Ok value }
    {
        report_block_round_trip();
        ReportBlock::read(&mut BitReader::<_, BE>::over(packet))
    }

    /// Writes the fields in order.
    ///
    /// # Errors
    ///
    /// `Checked` for a field that does not fit its bits. The fields before it have been written.
    /// Otherwise the sink's errors.
    pub fn write<W: BitWrite>(&self, writer: &mut W) -> Result<(), Error>
        ensures { WritesAll W.sink (report_block_writes W.sink.order self.now) writer.old result writer.new }
    {
        writer.write::<Bits<32>, u32>(self.ssrc)?;
        writer.write::<Bits<8>, u8>(self.fraction_lost)?;
        writer.write::<Bits<24>, i32>(self.lost)?;
        writer.write::<Bits<32>, u32>(self.highest)?;
        writer.write::<Bits<32>, u32>(self.jitter)?;
        writer.write::<Bits<32>, u32>(self.last_report)?;
        writer.write::<Bits<32>, u32>(self.delay)?;
        Ok(())
    }

    /// Writes the fields to the first bytes of a buffer, and returns what was written. The other bytes
    /// stay as they were. Does not allocate.
    ///
    /// # Errors
    ///
    /// `Checked` for the first field that does not fit its bits, however long the buffer is.
    /// `Stream(WriteZero)` if all fields fit, and the buffer has fewer than 24 bytes.
    /// After an error, the first bytes of the buffer may have changed.
    pub fn pack_into<'a>(&self, buffer: &'a mut [u8]) -> Result<SliceMut<'a>, Error>
        ensures packed { IfOk result (λ packed. bits High (written_bytes packed) ≡ report_block_bits self.now) }
        ensures first { IfOk result (HoldsFirst buffer.entry.ghost_name buffer.old) }
        ensures fits { IsOk result → Fits self.now }
        ensures misfit { (error : Error) → sequence_length (report_block_writes High self.now) 0 ≡ Err error
            → result ≡ Err error }
        ensures room { Fits self.now → 24 ≤ length buffer.old → IsOk result }
        ensures short { Fits self.now → length buffer.old < 24 → result ≡ Err (Stream WriteZero) }
    {
        pack_into::<BE, ReportBlock>(self, buffer)
    }
}

impl FromBitStream for ReportBlock {
    type Error = Error;

    ghost becomes = { same_error };

    ghost reads = { λ o. plain_reads (report_block_decoder o) };

    fn from_reader<R: BitRead>(reader: &mut R) -> Result<ReportBlock, Error> {
        ReportBlock::read(reader)
    }
}

impl ToBitStream for ReportBlock {
    type Error = Error;

    ghost becomes = { same_error };

    ghost writes = { report_block_writes };

    fn to_writer<W: BitWrite>(&self, writer: &mut W) -> Result<(), Error> {
        self.write(writer)
    }
}

/// A value that fits its bits is read back as it was written, in either order of bits, at any place.
/// The read takes only the bits that were written: 192 bits.
pub fn report_block_round_trip()
    ensures back { (o : Order) (value : ReportBlock) (at from : ℕ) (more : List Bool) → Fits value
        → let written = write_sequence (report_block_writes o value) at in
        (report_block_decoder o).reads from (written ++ more) ≡ Done (length written) (Ok value) }
    ensures size { (o : Order) (value : ReportBlock) (at : ℕ) → Fits value
        → length (write_sequence (report_block_writes o value) at) ≡ 192 }
{}
