//! A receiver report of RTCP, with its report blocks (RFC 3550, section 6.4.2).
//!
//! Made by `./format` from formats/rtcp_receiver_report.fields: edit that file and make this one anew.
ghost use Rattle.protocols.specs.RtcpReceiverReport.{rtcp_receiver_report_decoder, rtcp_receiver_report_writes, rtcp_receiver_report_size, rtcp_receiver_report_bits, Fits, becomes_rtcp_receiver_report};
ghost use Rattle.protocols.specs.ReportBlock.{report_block_decoder, report_block_writes};
ghost use Rattle.protocols.specs.declared.rtcp_receiver_report.RtcpReceiverReport.{RtcpReceiverReport};
ghost use Rattle.protocols.specs.declared.rtcp_receiver_report.ReceiverReportError.{ReceiverReportError};
ghost use Rattle.protocols.specs.declared.rtcp_receiver_report.ReceiverReportError.TheVariants.{Reader};
ghost use Rattle.std.specs.Prelude.{◌≡◌, ◌<◌, ◌≤◌, ◌*◌, ◌++◌, ◌⊎◌, ℕ, Bool, true, List, Ok, Err, length, IfOk, IsOk};
ghost use Rattle.std.specs.List.{flat_map};
ghost use Rattle.std.specs.declared.io.ErrorKind.TheVariants.{WriteZero};
ghost use Rattle.bitstream_io.specs.Callers.{Done, list_item, Error, Order, High, bits, items_decoder, write_sequence, OwnAnswer, WritesAll, AllAccepted, sequence_length, sure_answer, GrowsOwn, MayAllocate, OutOfMemory, Stream, result_map, same_error};
ghost use Rattle.bitstream_io.specs.Grows.{GrowingOutcome};
ghost use Rattle.bitstream_io.specs.SliceMut.{HoldsFirst, written_bytes};

use crate::report_block::ReportBlock;
use bitstream_io::{
    BE, BitRead, BitReadExt, BitReader, BitWrite, BitWriteExt, Bits, Error, FromBitStreamUsing,
    SliceMut, ToBitStream, pack_into,
};
use std::alloc::Global;
use std::marker::Model;

/// A receiver report of RTCP, with its report blocks (RFC 3550, section 6.4.2).
///
/// ```text
///  0                   1                   2                   3
///  0 1 2 3 4 5 6 7 8 9 0 1 2 3 4 5 6 7 8 9 0 1 2 3 4 5 6 7 8 9 0 1
/// +-+-+-+-+-+-+-+-+-+-+-+-+-+-+-+-+-+-+-+-+-+-+-+-+-+-+-+-+-+-+-+-+
/// | =2|p|reports_c|      =201     |             length            |
/// +-+-+-+-+-+-+-+-+-+-+-+-+-+-+-+-+-+-+-+-+-+-+-+-+-+-+-+-+-+-+-+-+
/// |                              ssrc                             |
/// +-+-+-+-+-+-+-+-+-+-+-+-+-+-+-+-+-+-+-+-+-+-+-+-+-+-+-+-+-+-+-+-+
/// /             reports (reports_count of ReportBlock)            /
/// +-+-+-+-+-+-+-+-+-+-+-+-+-+-+-+-+-+-+-+-+-+-+-+-+-+-+-+-+-+-+-+-+
/// ```
#[derive(Debug, Drop)]
pub struct RtcpReceiverReport {
    /// True if there is padding at the end of the packet.
    pub padding: bool,
    /// The 32-bit words of the packet, less 1.
    pub length: u16,
    /// The receiver.
    pub ssrc: u32,
    /// The report blocks, one for each source. Fewer than 2^5.
    pub reports: Vec<ReportBlock>,
}

impl Model for RtcpReceiverReport {
    ghost use Rattle.protocols.specs.RtcpReceiverReportFields.{RtcpReceiverReportFields};

    ghost Value = { RtcpReceiverReportFields };

    ghost view = { λ value. record {
      padding = value.padding;
      length = value.length;
      ssrc = value.ssrc;
      reports = value.reports.items;
    } };
}

/// The errors of reading a `RtcpReceiverReport`.
#[derive(Debug, Drop, thiserror::Error)]
pub enum ReceiverReportError {
    /// An error of the reader.
    #[error("{0}")]
    Reader(Error),
    /// The version is not 2.
    #[error("the version is not 2")]
    OtherVersion,
    /// The packet is no receiver report.
    #[error("the packet is no receiver report")]
    OtherPacket,
}

impl From<Error> for ReceiverReportError {
    ghost from_gives = { becomes_rtcp_receiver_report };

    fn from(error: Error) -> ReceiverReportError {
        ReceiverReportError::Reader(error)
    }
}

/// Reads `count` items of `reports`. Stops after an item whose allocation fails.
fn read_reports<R: BitRead>(
    reader: &mut R,
    alloc: Global,
    count: u64,
) -> Result<Vec<ReportBlock>, Error>
    ensures { GrowingOutcome R.source (items_decoder (list_item (report_block_decoder R.source.order)) count)
        reader.old (result_map (λ found. found.items) result) reader.new }
{
    let mut found = Vec::new(alloc);
    for _ in 0..count {
        found.push(ReportBlock::read(reader)?)?;
    }
    Ok(found)
}

/// Writes the items of `reports`.
fn write_reports<W: BitWrite>(writer: &mut W, items: &[ReportBlock]) -> Result<(), Error>
    ensures { WritesAll W.sink (flat_map (report_block_writes W.sink.order) items.now)
        writer.old result writer.new }
{
    for item in items {
        item.write(writer)?;
    }
    Ok(())
}

impl RtcpReceiverReport {
    /// The number of bits before each line of the description.
    pub const PLACES: [u64; 7] = [0, 2, 3, 8, 16, 32, 64];

    /// Reads the fields in order.
    ///
    /// # Errors
    ///
    /// `OtherVersion` or `OtherPacket`, after the rejected bits have been read.
    /// `Reader(OutOfMemory)` if an allocation for a list fails. The items before the failure
    /// have been read.
    /// Otherwise the reader's errors, after which it has failed.
    pub fn read<R: BitRead>(
        reader: &mut R,
        alloc: Global,
    ) -> Result<RtcpReceiverReport, ReceiverReportError>
        ensures { GrowsOwn R.source becomes_rtcp_receiver_report (rtcp_receiver_report_decoder R.source.order) reader.old result reader.new }
    {
        reader.read_const::<Bits<2>, Bits<2>, ReceiverReportError>(
            ReceiverReportError::OtherVersion,
        )?;
        let padding = reader.read_bit()?;
        let reports_count = reader.read::<Bits<5>, u64>()?;
        reader.read_const::<Bits<8>, Bits<201>, ReceiverReportError>(
            ReceiverReportError::OtherPacket,
        )?;
        let length = reader.read::<Bits<16>, u16>()?;
        let ssrc = reader.read::<Bits<32>, u32>()?;
        let reports = read_reports(reader, alloc, reports_count)?;
        Ok(RtcpReceiverReport {
            padding,
            length,
            ssrc,
            reports,
        })
    }

    /// Parses the value at the start of `packet`.
    ///
    /// # Errors
    ///
    /// `OtherVersion` or `OtherPacket` if bits are rejected.
    /// `Reader(EndOfInput)` if the bytes end before the fields do.
    /// `Reader(OutOfMemory)` if the allocation for an item of a list fails.
    pub fn parse(packet: &[u8], alloc: Global) -> Result<RtcpReceiverReport, ReceiverReportError>
        ensures answer { (OwnAnswer becomes_rtcp_receiver_report (λ answer. answer)
            (sure_answer ((rtcp_receiver_report_decoder High).reads 0 (bits High packet.now))) result)
            ⊎ ((result ≡ Err (ReceiverReportError.Reader OutOfMemory))
            × MayAllocate (rtcp_receiver_report_decoder High) 0 (bits High packet.now)) }
        ensures back { (value : RtcpReceiverReport) (more : List Bool) → Fits value
            → bits High packet.now ≡ write_sequence (rtcp_receiver_report_writes High value) 0 ++ more
            → (result ≡ Ok value)
            ⊎ (result ≡ Err (ReceiverReportError.Reader OutOfMemory)) }
    {
        rtcp_receiver_report_round_trip();
        RtcpReceiverReport::read(&mut BitReader::<_, BE>::over(packet), alloc)
    }

    /// Writes the fields in order.
    ///
    /// # Errors
    ///
    /// `Checked` for a field that does not fit its bits. The fields before it have been written.
    /// Otherwise the sink's errors.
    pub fn write<W: BitWrite>(&self, writer: &mut W) -> Result<(), Error>
        ensures { WritesAll W.sink (rtcp_receiver_report_writes W.sink.order self.now) writer.old result writer.new }
    {
        writer.write_const::<Bits<2>, Bits<2>>()?;
        writer.write_bit(self.padding)?;
        writer.write::<Bits<5>, u64>(self.reports.len() as u64)?;
        writer.write_const::<Bits<8>, Bits<201>>()?;
        writer.write::<Bits<16>, u16>(self.length)?;
        writer.write::<Bits<32>, u32>(self.ssrc)?;
        write_reports(writer, &self.reports)?;
        Ok(())
    }

    /// Writes the fields to the first bytes of a buffer, and returns what was written. The other bytes
    /// stay as they were. Does not allocate.
    ///
    /// # Errors
    ///
    /// `Checked` for the first field that does not fit its bits, however long the buffer is.
    /// `Stream(WriteZero)` if all fields fit, and the buffer is too short for the bits.
    /// After an error, the first bytes of the buffer may have changed.
    pub fn pack_into<'a>(&self, buffer: &'a mut [u8]) -> Result<SliceMut<'a>, Error>
        ensures packed { IfOk result (λ packed. bits High (written_bytes packed) ≡ rtcp_receiver_report_bits self.now) }
        ensures first { IfOk result (HoldsFirst buffer.entry.ghost_name buffer.old) }
        ensures accepted { IsOk result → AllAccepted (rtcp_receiver_report_writes High self.now) 0 }
        ensures misfit { (error : Error) → sequence_length (rtcp_receiver_report_writes High self.now) 0 ≡ Err error
            → result ≡ Err error }
        ensures room { Fits self.now
            → rtcp_receiver_report_size High self.now ≤ 8 * length buffer.old → IsOk result }
        ensures short { Fits self.now
            → 8 * length buffer.old < rtcp_receiver_report_size High self.now
            → result ≡ Err (Stream WriteZero) }
    {
        pack_into::<BE, RtcpReceiverReport>(self, buffer)
    }
}

impl FromBitStreamUsing for RtcpReceiverReport {
    type Context = Global;

    type Error = ReceiverReportError;

    ghost grows = { true };

    ghost becomes = { becomes_rtcp_receiver_report };

    ghost reads = { λ o _. rtcp_receiver_report_decoder o };

    fn from_reader<R: BitRead>(
        reader: &mut R,
        alloc: Global,
    ) -> Result<RtcpReceiverReport, ReceiverReportError> {
        RtcpReceiverReport::read(reader, alloc)
    }
}

impl ToBitStream for RtcpReceiverReport {
    type Error = Error;

    ghost becomes = { same_error };

    ghost writes = { rtcp_receiver_report_writes };

    fn to_writer<W: BitWrite>(&self, writer: &mut W) -> Result<(), Error> {
        self.write(writer)
    }
}

/// A value that fits its bits is read back as it was written, in either order of bits, at any place.
/// The read takes only the bits that were written: `rtcp_receiver_report_size` is their number.
pub fn rtcp_receiver_report_round_trip()
    ensures back { (o : Order) (value : RtcpReceiverReport) (at from : ℕ) (more : List Bool) → Fits value
        → let written = write_sequence (rtcp_receiver_report_writes o value) at in
        (rtcp_receiver_report_decoder o).reads from (written ++ more) ≡ Done (length written) (Ok (Ok value)) }
    ensures size { (o : Order) (value : RtcpReceiverReport) (at : ℕ) → Fits value
        → length (write_sequence (rtcp_receiver_report_writes o value) at) ≡ rtcp_receiver_report_size o value }
{}
