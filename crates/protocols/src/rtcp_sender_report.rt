//! A sender report of RTCP, up to its report blocks (RFC 3550, section 6.4.1).
//!
//! Made by `./format` from formats/rtcp_sender_report.fields: edit that file and make this one anew.
ghost use Rattle.protocols.specs.RtcpSenderReport.{rtcp_sender_report_decoder, rtcp_sender_report_writes, rtcp_sender_report_bits, rtcp_sender_report_at, Fits, becomes_rtcp_sender_report, const_at_0, const_at_8};
ghost use Rattle.protocols.specs.declared.rtcp_sender_report.RtcpSenderReport.{RtcpSenderReport};
ghost use Rattle.protocols.specs.declared.rtcp_sender_report.RtcpError.{RtcpError};
ghost use Rattle.protocols.specs.declared.rtcp_sender_report.RtcpError.TheVariants.{Reader, OtherVersion, OtherPacket};
ghost use Rattle.std.specs.Prelude.{◌≡◌, ◌≢◌, ◌<◌, ◌≤◌, ◌++◌, ℕ, Bool, List, Ok, Err, length, IfOk, IsOk};
ghost use Rattle.std.specs.declared.io.ErrorKind.TheVariants.{WriteZero};
ghost use Rattle.bitstream_io.specs.Callers.{Done, Error, EndOfInput, Order, High, bits, write_sequence, ReadsOwn, OwnAnswer, WritesAll, sequence_length, sure_answer, Stream, same_error};
ghost use Rattle.bitstream_io.specs.SliceMut.{HoldsFirst, written_bytes};

use crate::ntp_timestamp::NtpTimestamp;
use bitstream_io::{
    BE, BitRead, BitReadExt, BitReader, BitWrite, BitWriteExt, Bits, Error, FromBitStream,
    SliceMut, ToBitStream, pack_into,
};

/// A sender report of RTCP, up to its report blocks (RFC 3550, section 6.4.1).
///
/// ```text
///  0                   1                   2                   3
///  0 1 2 3 4 5 6 7 8 9 0 1 2 3 4 5 6 7 8 9 0 1 2 3 4 5 6 7 8 9 0 1
/// +-+-+-+-+-+-+-+-+-+-+-+-+-+-+-+-+-+-+-+-+-+-+-+-+-+-+-+-+-+-+-+-+
/// | =2|p| reports |      =200     |             length            |
/// +-+-+-+-+-+-+-+-+-+-+-+-+-+-+-+-+-+-+-+-+-+-+-+-+-+-+-+-+-+-+-+-+
/// |                              ssrc                             |
/// +-+-+-+-+-+-+-+-+-+-+-+-+-+-+-+-+-+-+-+-+-+-+-+-+-+-+-+-+-+-+-+-+
/// |                         sent (2 rows)                         |
/// +-+-+-+-+-+-+-+-+-+-+-+-+-+-+-+-+-+-+-+-+-+-+-+-+-+-+-+-+-+-+-+-+
/// |                           timestamp                           |
/// +-+-+-+-+-+-+-+-+-+-+-+-+-+-+-+-+-+-+-+-+-+-+-+-+-+-+-+-+-+-+-+-+
/// |                            packets                            |
/// +-+-+-+-+-+-+-+-+-+-+-+-+-+-+-+-+-+-+-+-+-+-+-+-+-+-+-+-+-+-+-+-+
/// |                             octets                            |
/// +-+-+-+-+-+-+-+-+-+-+-+-+-+-+-+-+-+-+-+-+-+-+-+-+-+-+-+-+-+-+-+-+
/// ```
#[derive(Clone, Copy, Debug, PartialEq)]
pub struct RtcpSenderReport {
    /// True if there is padding at the end of the packet.
    pub padding: bool,
    /// The number of report blocks that follow. Below 2^5.
    pub reports: u8,
    /// The 32-bit words of the packet, less 1.
    pub length: u16,
    /// The sender.
    pub ssrc: u32,
    /// The time at which the report was sent.
    pub sent: NtpTimestamp,
    /// The same time, in units of the RTP timestamp.
    pub timestamp: u32,
    /// The number of packets that were sent.
    pub packets: u32,
    /// The bytes of payload that were sent.
    pub octets: u32,
}

/// The errors of reading a `RtcpSenderReport`.
#[derive(Debug, Drop, thiserror::Error)]
pub enum RtcpError {
    /// An error of the reader.
    #[error("{0}")]
    Reader(Error),
    /// The version is not 2.
    #[error("the version is not 2")]
    OtherVersion,
    /// The packet is no sender report.
    #[error("the packet is no sender report")]
    OtherPacket,
}

impl From<Error> for RtcpError {
    ghost from_gives = { becomes_rtcp_sender_report };

    fn from(error: Error) -> RtcpError {
        RtcpError::Reader(error)
    }
}

impl RtcpSenderReport {
    /// The number of bits before each line of the description.
    pub const PLACES: [u64; 10] = [0, 2, 3, 8, 16, 32, 64, 128, 160, 192];

    /// Reads the fields in order.
    ///
    /// # Errors
    ///
    /// `OtherVersion` or `OtherPacket`, after the rejected bits have been read.
    /// Otherwise the reader's errors, after which it has failed.
    pub fn read<R: BitRead>(reader: &mut R) -> Result<RtcpSenderReport, RtcpError>
        ensures { ReadsOwn R.source becomes_rtcp_sender_report (rtcp_sender_report_decoder R.source.order) reader.old result reader.new }
    {
        reader.read_const::<Bits<2>, Bits<2>, RtcpError>(RtcpError::OtherVersion)?;
        let padding = reader.read_bit()?;
        let reports = reader.read::<Bits<5>, u8>()?;
        reader.read_const::<Bits<8>, Bits<200>, RtcpError>(RtcpError::OtherPacket)?;
        let length = reader.read::<Bits<16>, u16>()?;
        let ssrc = reader.read::<Bits<32>, u32>()?;
        let sent = NtpTimestamp::read(reader)?;
        let timestamp = reader.read::<Bits<32>, u32>()?;
        let packets = reader.read::<Bits<32>, u32>()?;
        let octets = reader.read::<Bits<32>, u32>()?;
        Ok(RtcpSenderReport {
            padding,
            reports,
            length,
            ssrc,
            sent,
            timestamp,
            packets,
            octets,
        })
    }

    /// Parses the value at the start of `packet`.
    ///
    /// # Errors
    ///
    /// `OtherVersion` or `OtherPacket` if bits are rejected.
    /// `Reader(EndOfInput)` for fewer than 28 bytes.
    pub fn parse(packet: &[u8]) -> Result<RtcpSenderReport, RtcpError>
        ensures answer { OwnAnswer becomes_rtcp_sender_report (λ answer. answer)
            (sure_answer ((rtcp_sender_report_decoder High).reads 0 (bits High packet.now))) result }
        ensures there { 28 ≤ length packet.now → const_at_0 (bits High packet.now) ≡ 2
            → const_at_8 (bits High packet.now) ≡ 200
            → result ≡ Ok (rtcp_sender_report_at (bits High packet.now)) }
        ensures short { length packet.now < 28
            → (1 ≤ length packet.now → const_at_0 (bits High packet.now) ≡ 2)
            → (2 ≤ length packet.now → const_at_8 (bits High packet.now) ≡ 200)
            → result ≡ Err (RtcpError.Reader EndOfInput) }
        ensures other_version { 1 ≤ length packet.now → const_at_0 (bits High packet.now) ≢ 2
            → result ≡ Err (RtcpError.OtherVersion) }
        ensures other_packet { 2 ≤ length packet.now → const_at_0 (bits High packet.now) ≡ 2
            → const_at_8 (bits High packet.now) ≢ 200 → result ≡ Err (RtcpError.OtherPacket) }
        ensures back { (value : RtcpSenderReport) (more : List Bool) → Fits value
            → bits High packet.now ≡ rtcp_sender_report_bits value ++ more → result ≡ Ok value }
    {
        rtcp_sender_report_round_trip();
        RtcpSenderReport::read(&mut BitReader::<_, BE>::over(packet))
    }

    /// Writes the fields in order.
    ///
    /// # Errors
    ///
    /// `Checked` for a field that does not fit its bits. The fields before it have been written.
    /// Otherwise the sink's errors.
    pub fn write<W: BitWrite>(&self, writer: &mut W) -> Result<(), Error>
        ensures { WritesAll W.sink (rtcp_sender_report_writes W.sink.order self.now) writer.old result writer.new }
    {
        writer.write_const::<Bits<2>, Bits<2>>()?;
        writer.write_bit(self.padding)?;
        writer.write::<Bits<5>, u8>(self.reports)?;
        writer.write_const::<Bits<8>, Bits<200>>()?;
        writer.write::<Bits<16>, u16>(self.length)?;
        writer.write::<Bits<32>, u32>(self.ssrc)?;
        self.sent.write(writer)?;
        writer.write::<Bits<32>, u32>(self.timestamp)?;
        writer.write::<Bits<32>, u32>(self.packets)?;
        writer.write::<Bits<32>, u32>(self.octets)?;
        Ok(())
    }

    /// Writes the fields to the first bytes of a buffer, and returns what was written. The other bytes
    /// stay as they were. Does not allocate.
    ///
    /// # Errors
    ///
    /// `Checked` for the first field that does not fit its bits, however long the buffer is.
    /// `Stream(WriteZero)` if all fields fit, and the buffer has fewer than 28 bytes.
    /// After an error, the first bytes of the buffer may have changed.
    pub fn pack_into<'a>(&self, buffer: &'a mut [u8]) -> Result<SliceMut<'a>, Error>
        ensures packed { IfOk result (λ packed. bits High (written_bytes packed) ≡ rtcp_sender_report_bits self.now) }
        ensures first { IfOk result (HoldsFirst buffer.entry.ghost_name buffer.old) }
        ensures fits { IsOk result → Fits self.now }
        ensures misfit { (error : Error) → sequence_length (rtcp_sender_report_writes High self.now) 0 ≡ Err error
            → result ≡ Err error }
        ensures room { Fits self.now → 28 ≤ length buffer.old → IsOk result }
        ensures short { Fits self.now → length buffer.old < 28 → result ≡ Err (Stream WriteZero) }
    {
        pack_into::<BE, RtcpSenderReport>(self, buffer)
    }
}

impl FromBitStream for RtcpSenderReport {
    type Error = RtcpError;

    ghost becomes = { becomes_rtcp_sender_report };

    ghost reads = { rtcp_sender_report_decoder };

    fn from_reader<R: BitRead>(reader: &mut R) -> Result<RtcpSenderReport, RtcpError> {
        RtcpSenderReport::read(reader)
    }
}

impl ToBitStream for RtcpSenderReport {
    type Error = Error;

    ghost becomes = { same_error };

    ghost writes = { rtcp_sender_report_writes };

    fn to_writer<W: BitWrite>(&self, writer: &mut W) -> Result<(), Error> {
        self.write(writer)
    }
}

/// A value that fits its bits is read back as it was written, in either order of bits, at any place.
/// The read takes only the bits that were written: 224 bits.
pub fn rtcp_sender_report_round_trip()
    ensures back { (o : Order) (value : RtcpSenderReport) (at from : ℕ) (more : List Bool) → Fits value
        → let written = write_sequence (rtcp_sender_report_writes o value) at in
        (rtcp_sender_report_decoder o).reads from (written ++ more) ≡ Done (length written) (Ok (Ok value)) }
    ensures size { (o : Order) (value : RtcpSenderReport) (at : ℕ) → Fits value
        → length (write_sequence (rtcp_sender_report_writes o value) at) ≡ 224 }
{}
