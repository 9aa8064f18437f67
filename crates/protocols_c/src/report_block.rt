//! Made by `./format --c` from ../protocols/formats/report_block.fields: edit that file and make this one anew.
//!
//! `ReportBlock` for C.
ghost use Rattle.protocols_c.specs.ReportBlock.{report_block_to_c, report_block_from_c, report_block_zero, report_block_parsed, report_block_answer, report_block_held};
ghost use Rattle.protocols_c.specs.Shared.{PacksInto};
ghost use Rattle.protocols.specs.ReportBlock.{report_block_decoder, report_block_bits, report_block_at, Fits};
ghost use Rattle.protocols.specs.declared.report_block.ReportBlock.{ReportBlock};
ghost use Rattle.std.specs.Prelude.{◌≡◌, ◌<◌, ◌≤◌, ◌↔◌, Ok, Err, IsTrue, IsSomeAnd, length, take, pos};
ghost use Rattle.bitstream_io.specs.Callers.{EndOfInput, High, bits, sure_answer};

use crate::shared::{Packed, refused, write_first};
use bitstream_io::{BE, Error};
use protocols::report_block::ReportBlock;

/// `struct report_block` of C.
#[repr(C)]
#[derive(Clone, Copy)]
pub struct ReportBlockC {
    /// The source.
    pub ssrc: u32,
    /// The part of the packets that was lost since the last report, in units of 1/256.
    pub fraction_lost: u8,
    /// The number of packets that were lost in all. From -8388608 to 8388607.
    pub lost: i32,
    /// The highest sequence number that was received, after the number of its cycles.
    pub highest: u32,
    /// The variation of the time between packets, in units of the RTP timestamp.
    pub jitter: u32,
    /// The middle bits of the NTP timestamp of the source's last report.
    pub last_report: u32,
    /// The time since that report, in units of 2^-16 seconds.
    pub delay: u32,
}

/// The result of a parse.
#[repr(C)]
#[derive(Clone, Copy)]
pub struct ReportBlockParsed {
    /// The status.
    pub status: i32,
    /// The fields, if the status is 0.
    pub value: ReportBlockC,
}

impl ReportBlockC {
    /// Returns the struct of C with these fields.
    #[inline(always)]
    pub(crate) fn new(value: &ReportBlock) -> ReportBlockC
        ensures { result ≡ report_block_to_c value.now }
    {
        ReportBlockC {
            ssrc: value.ssrc,
            fraction_lost: value.fraction_lost,
            lost: value.lost,
            highest: value.highest,
            jitter: value.jitter,
            last_report: value.last_report,
            delay: value.delay,
        }
    }

    /// Returns the fields, or `None` if a number of C is not a value of its field.
    #[inline(always)]
    pub(crate) fn fields(&self) -> Option<ReportBlock>
        ensures { result ≡ report_block_from_c self.now }
    {
        Some(ReportBlock {
            ssrc: self.ssrc,
            fraction_lost: self.fraction_lost,
            lost: self.lost,
            highest: self.highest,
            jitter: self.jitter,
            last_report: self.last_report,
            delay: self.delay,
        })
    }
}

/// Returns the struct of C after an error.
#[inline(always)]
pub(crate) fn zero() -> ReportBlockC
    ensures { result ≡ report_block_zero }
{
    ReportBlockC {
        ssrc: 0,
        fraction_lost: 0,
        lost: 0,
        highest: 0,
        jitter: 0,
        last_report: 0,
        delay: 0,
    }
}

/// Returns true if each field fits its bits.
#[inline(always)]
pub(crate) fn is_fit(value: &ReportBlock) -> bool
    ensures { IsTrue result ↔ Fits value.now }
{
    value.ssrc <= 4294967295
        && value.fraction_lost <= 255
        && value.lost >= -8388608
        && value.lost <= 8388607
        && value.highest <= 4294967295
        && value.jitter <= 4294967295
        && value.last_report <= 4294967295
        && value.delay <= 4294967295
}

/// Returns the result of a parse for C.
#[inline(always)]
fn parsed(answer: Result<ReportBlock, Error>) -> ReportBlockParsed
    ensures { result ≡ report_block_parsed answer }
{
    match answer {
        Ok(value) => ReportBlockParsed {
            status: 0,
            value: ReportBlockC::new(&value),
        },
        Err(_) => failed(1),
    }
}

/// Returns the result of a parse that failed.
#[inline(always)]
fn failed(status: i32) -> ReportBlockParsed
    ensures { result ≡ record { status = status; value = report_block_zero } }
{
    ReportBlockParsed {
        status,
        value: zero(),
    }
}

/// Parses the fields at the start of `bytes`.
#[unsafe(no_mangle)]
pub extern "C" fn proved_report_block_parse(bytes: &[u8]) -> ReportBlockParsed
    ensures answer { result ≡ report_block_answer (sure_answer ((report_block_decoder High).reads 0 (bits High bytes.now))) }
    ensures ok { result.status ≡ pos 0 ↔ ((24 ≤ length bytes.now)) }
    ensures there { 24 ≤ length bytes.now
        → result ≡ report_block_parsed (Ok (report_block_at (bits High bytes.now))) }
    ensures short { length bytes.now < 24 → result ≡ report_block_parsed (Err EndOfInput) }
    ensures round_trip { (value : ReportBlock) → Fits value
        → bits High (take 24 bytes.now) ≡ report_block_bits value → result ≡ report_block_parsed (Ok value) }
{
    parsed(ReportBlock::parse(bytes))
}

/// Writes the fields to the first bytes of a buffer.
#[inline(always)]
fn put(fields: &ReportBlock, buffer: &mut [u8]) -> Packed
    ensures { PacksInto (Fits fields.now) High 24 (report_block_bits fields.now) buffer.old result buffer.new }
{
    if !is_fit(fields) {
        return refused(3);
    }
    if buffer.len() < 24 {
        return refused(2);
    }
    write_first::<BE, ReportBlock>(fields, buffer);
    Packed {
        status: 0,
        written: 24,
    }
}

/// Writes the fields to the first bytes of a buffer.
#[unsafe(no_mangle)]
pub extern "C" fn proved_report_block_pack(value: &ReportBlockC, buffer: &mut [u8]) -> Packed
    ensures { PacksInto (IsSomeAnd (report_block_from_c value.now) Fits) High 24 (report_block_held (report_block_from_c value.now)) buffer.old result buffer.new }
{
    match value.fields() {
        Some(fields) => put(&fields, buffer),
        None => refused(3),
    }
}
