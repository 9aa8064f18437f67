//! Made by `./format --c` from ../protocols/formats/rtcp_receiver_report.fields: edit that file and make this one anew.
//!
//! `RtcpReceiverReport` for C.
ghost use Rattle.protocols_c.specs.RtcpReceiverReport.{rtcp_receiver_report_to_c, rtcp_receiver_report_from_c, rtcp_receiver_report_zero, rtcp_receiver_report_parsed, rtcp_receiver_report_answer, rtcp_receiver_report_held, rtcp_receiver_report_bytes, rtcp_receiver_report_room, rtcp_receiver_report_of, rtcp_receiver_report_short, RtcpReceiverReportRead};
ghost use Rattle.protocols_c.specs.Lists.{stored};
ghost use Rattle.protocols_c.specs.Parts.{ItemsInto, ItemFits, all_made};
ghost use Rattle.protocols_c.specs.Shared.{PacksInto};
ghost use Rattle.protocols_c.specs.ReportBlock.{report_block_to_c, report_block_from_c};
ghost use Rattle.protocols_c.specs.declared.report_block.ReportBlockC.{ReportBlockC};
ghost use Rattle.protocols.specs.RtcpReceiverReport.{rtcp_receiver_report_decoder, rtcp_receiver_report_writes, rtcp_receiver_report_size, rtcp_receiver_report_bits, Fits};
ghost use Rattle.protocols.specs.ReportBlock.{report_block_decoder, report_block_writes, Fits as ReportBlockFits};
ghost use Rattle.protocols.specs.declared.rtcp_receiver_report.RtcpReceiverReport.{RtcpReceiverReport};
ghost use Rattle.std.specs.Prelude.{◌≡◌, ◌++◌, ◌∷◌, [], ◌↔◌, ℕ, true, List, Ok, IsTrue, IsSomeAnd, All, length, take, map, is_some, option_map, filter_map};
ghost use Rattle.bitstream_io.specs.Codec.{Done};
ghost use Rattle.std.specs.List.{flat_map};
ghost use Rattle.bitstream_io.specs.Callers.{list_item, High, bits, items_decoder, WritesAll, same_error, optional_writes};

use crate::report_block::{self, ReportBlockC};
use crate::shared::{Packed, refused, write_first};
use bitstream_io::{
    BE, BitRead, BitReadExt, BitReader, BitWrite, BitWriteExt, Bits, BitsWritten, Error,
    ToBitStream,
};
use protocols::report_block::ReportBlock;
use protocols::rtcp_receiver_report::ReceiverReportError;

/// `struct rtcp_receiver_report` of C.
#[repr(C)]
#[derive(Clone, Copy)]
pub struct RtcpReceiverReportC {
    /// True if there is padding at the end of the packet.
    pub padding: u8,
    /// The 32-bit words of the packet, less 1.
    pub length: u16,
    /// The receiver.
    pub ssrc: u32,
    /// The number of items of `reports`.
    pub reports: usize,
}

/// The result of a parse.
#[repr(C)]
#[derive(Clone, Copy)]
pub struct RtcpReceiverReportParsed {
    /// The status.
    pub status: i32,
    /// The number of bytes that were taken, or of the items of a list without room for them.
    pub taken: usize,
    /// The fields, if the status is 0.
    pub value: RtcpReceiverReportC,
}

/// The fields, whose lists the caller has.
#[derive(Clone, Copy)]
pub(crate) struct RtcpReceiverReportGiven<'a> {
    padding: bool,
    length: u16,
    ssrc: u32,
    reports: &'a [ReportBlockC],
}

impl RtcpReceiverReportC {
    /// Returns the fields with these lists, or `None` if a number of C is no value of its field.
    fn fields<'a>(&self, reports_items: &'a [ReportBlockC]) -> Option<RtcpReceiverReportGiven<'a>>
        ensures { option_map rtcp_receiver_report_of result ≡ rtcp_receiver_report_from_c self.now reports_items.now }
    {
        let Some(reports) = report_block_items(reports_items) else {
            return None;
        };
        Some(RtcpReceiverReportGiven {
            padding: self.padding != 0,
            length: self.length,
            ssrc: self.ssrc,
            reports,
        })
    }
}

/// Returns the struct of C after an error.
#[inline(always)]
pub(crate) fn zero() -> RtcpReceiverReportC
    ensures { result ≡ rtcp_receiver_report_zero }
{
    RtcpReceiverReportC {
        padding: 0,
        length: 0,
        ssrc: 0,
        reports: 0,
    }
}

/// Returns true if each item of C stands for a `ReportBlock`.
fn are_report_block(items: &[ReportBlockC]) -> bool
    ensures { IsTrue result ↔ All (λ item. is_some (report_block_from_c item) ≡ true) items.now }
{
    items.iter().all(|item| item.fields().is_some())
}

/// Returns these items, or `None` if a number of C in them is no value of its field.
fn report_block_items<'a>(items: &'a [ReportBlockC]) -> Option<&'a [ReportBlockC]>
    ensures { option_map (λ found. filter_map report_block_from_c found.now) result
        ≡ all_made report_block_from_c items.now }
{
    if are_report_block(items) {
        return Some(items);
    }
    None
}

/// Returns the number of items that stand for a `ReportBlock`.
fn count_report_block(items: &[ReportBlockC]) -> u64
    ensures { result ≡ length (filter_map report_block_from_c items.now) }
{
    items.iter().filter_map(|item| item.fields()).count() as u64
}

/// Returns true if the `ReportBlock` that an item stands for fits its bits, or there is none.
fn report_block_item_fits(item: &ReportBlockC) -> bool
    ensures { IsTrue result ↔ ItemFits report_block_from_c ReportBlockFits item.now }
{
    match item.fields() {
        Some(value) => report_block::is_fit(&value),
        None => true,
    }
}

/// Returns true if each item fits its bits, or stands for no value.
fn report_block_items_fit(items: &[ReportBlockC]) -> bool
    ensures { IsTrue result ↔ All (ItemFits report_block_from_c ReportBlockFits) items.now }
{
    items.iter().all(|item| report_block_item_fits(item))
}

/// Returns true if each `ReportBlock` fits its bits.
fn all_report_block_fit(items: &[ReportBlockC]) -> bool
    ensures { IsTrue result ↔ All ReportBlockFits (filter_map report_block_from_c items.now) }
{
    report_block_items_fit(items)
}

/// Returns true if each field fits its bits.
#[inline(always)]
pub(crate) fn is_fit(value: &RtcpReceiverReportGiven) -> bool
    ensures { IsTrue result ↔ Fits (rtcp_receiver_report_of value.now) }
{
    value.length <= 65535
        && value.ssrc <= 4294967295
        && count_report_block(value.reports) <= 31
        && all_report_block_fit(value.reports)
}

/// Puts an item that was read into its place, if there is room for it.
fn keep_report_block(items: &mut [ReportBlockC], place: u64, item: ReportBlockC)
    ensures { (all was : List ReportBlockC) → length all ≡ place → items.old ≡ stored all was
        → items.new ≡ stored (all ++ item ∷ []) was }
{
    if place >= items.len() as u64 {
        return;
    }
    items[place as usize] = item;
}

/// Reads `count` items of `reports`, and keeps those for which there is room.
fn read_reports<R: BitRead>(
    reader: &mut R,
    items: &mut [ReportBlockC],
    count: u64,
) -> Result<(), Error>
    ensures { ItemsInto R.source (items_decoder (list_item (report_block_decoder R.source.order)) count) report_block_to_c count
        reader.old items.old result reader.new items.new }
{
    for place in 0..count {
        let item = ReportBlock::read(reader)?;
        keep_report_block(items, place, ReportBlockC::new(&item));
    }
    Ok(())
}

/// Reads the fields, and keeps the items of lists for which there is room.
fn read<R: BitRead>(
    reader: &mut R,
    reports_items: &mut [ReportBlockC],
) -> Result<RtcpReceiverReportC, ReceiverReportError>
    ensures { RtcpReceiverReportRead R.source reader.old reports_items.old result reader.new reports_items.new }
{
    reader.read_const::<Bits<2>, Bits<2>, ReceiverReportError>(ReceiverReportError::OtherVersion)?;
    let padding = reader.read_bit()?;
    let reports_count = reader.read::<Bits<5>, u64>()?;
    reader.read_const::<Bits<8>, Bits<201>, ReceiverReportError>(ReceiverReportError::OtherPacket)?;
    let length = reader.read::<Bits<16>, u16>()?;
    let ssrc = reader.read::<Bits<32>, u32>()?;
    read_reports(reader, reports_items, reports_count)?;
    Ok(RtcpReceiverReportC {
        padding: padding as u8,
        length: length,
        ssrc: ssrc,
        reports: reports_count as usize,
    })
}

/// Returns the result of a parse for C, after a read that took `taken` bytes, with some room for the items of each list.
fn parsed(
    answer: Result<RtcpReceiverReportC, ReceiverReportError>,
    taken: usize,
    reports_room: usize,
) -> RtcpReceiverReportParsed
    ensures { result ≡ rtcp_receiver_report_parsed taken reports_room answer }
{
    match answer {
        Ok(value) => {
            if reports_room < value.reports {
                return short(5, value.reports);
            }
            RtcpReceiverReportParsed {
                status: 0,
                taken,
                value,
            }
        }
        Err(ReceiverReportError::Reader(_)) => short(1, 0),
        Err(ReceiverReportError::OtherVersion) => short(6, 0),
        Err(ReceiverReportError::OtherPacket) => short(7, 0),
    }
}

/// Returns the result of a parse that failed, with the number of items of a list without room for them.
fn short(status: i32, items: usize) -> RtcpReceiverReportParsed
    ensures { result ≡ rtcp_receiver_report_short status items }
{
    RtcpReceiverReportParsed {
        status,
        taken: items,
        value: zero(),
    }
}

/// Parses the fields at the start of `bytes`, and the items of lists into storage of the caller.
#[unsafe(no_mangle)]
pub extern "C" fn proved_rtcp_receiver_report_parse(
    bytes: &[u8],
    reports_items: &mut [ReportBlockC],
) -> RtcpReceiverReportParsed
    ensures answer { result ≡ rtcp_receiver_report_answer (length reports_items.old) ((rtcp_receiver_report_decoder High).reads 0 (bits High bytes.now)) }
    ensures reports_items { (n : ℕ) (value : RtcpReceiverReport) → (rtcp_receiver_report_decoder High).reads 0 (bits High bytes.now) ≡ Done n (Ok (Ok value))
        → reports_items.new ≡ stored (map report_block_to_c value.reports) reports_items.old }
    ensures round_trip { (value : RtcpReceiverReport) → Fits value → bits High (take (rtcp_receiver_report_bytes value) bytes.now) ≡ rtcp_receiver_report_bits value
        → result ≡ rtcp_receiver_report_parsed (rtcp_receiver_report_bytes value) (length reports_items.old) (Ok (rtcp_receiver_report_to_c value)) }
{
    let mut reader = BitReader::<_, BE>::over(bytes);
    let reports_room = reports_items.len();
    let answer = read(&mut reader, reports_items);
    let taken = bytes.len().saturating_sub(reader.rest().len());
    parsed(answer, taken, reports_room)
}

/// Writes the `ReportBlock` that an item of C stands for, if it does.
fn write_report_block_item<W: BitWrite>(writer: &mut W, item: &ReportBlockC) -> Result<(), Error>
    ensures { WritesAll W.sink (optional_writes (report_block_writes W.sink.order) (report_block_from_c item.now))
        writer.old result writer.new }
{
    match item.fields() {
        Some(value) => value.write(writer),
        None => Ok(()),
    }
}

/// Writes the items of `reports`.
fn write_reports<W: BitWrite>(writer: &mut W, items: &[ReportBlockC]) -> Result<(), Error>
    ensures { WritesAll W.sink (flat_map (λ item. optional_writes (report_block_writes W.sink.order) (report_block_from_c item)) items.now)
        writer.old result writer.new }
{
    for item in items {
        write_report_block_item(writer, item)?;
    }
    Ok(())
}

impl RtcpReceiverReportGiven<'_> {
    /// Writes the fields in order.
    fn write<W: BitWrite>(&self, writer: &mut W) -> Result<(), Error>
        ensures { WritesAll W.sink (rtcp_receiver_report_writes W.sink.order (rtcp_receiver_report_of self.now)) writer.old result writer.new }
    {
        writer.write_const::<Bits<2>, Bits<2>>()?;
        writer.write_bit(self.padding)?;
        writer.write::<Bits<5>, u64>(count_report_block(self.reports))?;
        writer.write_const::<Bits<8>, Bits<201>>()?;
        writer.write::<Bits<16>, u16>(self.length)?;
        writer.write::<Bits<32>, u32>(self.ssrc)?;
        write_reports(writer, self.reports)?;
        Ok(())
    }
}

impl ToBitStream for RtcpReceiverReportGiven<'_> {
    type Error = Error;

    ghost becomes = { same_error };

    ghost writes = { λ o value. rtcp_receiver_report_writes o (rtcp_receiver_report_of value) };

    fn to_writer<W: BitWrite>(&self, writer: &mut W) -> Result<(), Error> {
        self.write(writer)
    }
}

/// Returns the number of bits of fields that fit.
fn size(fields: &RtcpReceiverReportGiven) -> u64
    requires { Fits (rtcp_receiver_report_of fields.now) }
    ensures { result ≡ rtcp_receiver_report_size High (rtcp_receiver_report_of fields.now) }
{
    let mut counter = BitsWritten::<u64>::new();
    match fields.write(&mut counter) {
        Ok(()) => counter.into_written(),
        Err(_) => unreachable!(),
    }
}

/// Writes the fields to the first bytes of a buffer.
fn put(fields: &RtcpReceiverReportGiven, buffer: &mut [u8]) -> Packed
    ensures { PacksInto (Fits (rtcp_receiver_report_of fields.now)) High (rtcp_receiver_report_bytes (rtcp_receiver_report_of fields.now)) (rtcp_receiver_report_bits (rtcp_receiver_report_of fields.now)) buffer.old result buffer.new }
{
    if !is_fit(fields) {
        return refused(3);
    }
    let written = size(fields).div_ceil(8);
    if written > buffer.len() as u64 {
        return refused(2);
    }
    write_first::<BE, RtcpReceiverReportGiven>(fields, buffer);
    Packed {
        status: 0,
        written: written as usize,
    }
}

/// Writes the fields to the first bytes of a buffer.
#[unsafe(no_mangle)]
pub extern "C" fn proved_rtcp_receiver_report_pack(
    value: &RtcpReceiverReportC,
    reports_items: &[ReportBlockC],
    buffer: &mut [u8],
) -> Packed
    ensures { PacksInto (IsSomeAnd (rtcp_receiver_report_from_c value.now reports_items.now) Fits) High (rtcp_receiver_report_room (rtcp_receiver_report_from_c value.now reports_items.now)) (rtcp_receiver_report_held (rtcp_receiver_report_from_c value.now reports_items.now)) buffer.old result buffer.new }
{
    match value.fields(reports_items) {
        Some(fields) => put(&fields, buffer),
        None => refused(3),
    }
}
