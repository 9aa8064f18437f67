//! Made by `./format --c` from ../bitstream_callers/formats/primary_header.fields: edit that file and make this one anew.
//!
//! `PrimaryHeader` for C.
ghost use Rattle.ccsds_c.specs.PrimaryHeader.{primary_header_to_c, primary_header_from_c, primary_header_zero, primary_header_parsed, primary_header_answer, primary_header_held};
ghost use Rattle.ccsds_c.specs.Shared.{PacksInto};
ghost use Rattle.bitstream_callers.specs.PrimaryHeader.{primary_header_decoder, primary_header_bits, primary_header_at, Fits, const_at_0};
ghost use Rattle.bitstream_callers.specs.declared.primary_header.PrimaryHeader.{PrimaryHeader};
ghost use Rattle.bitstream_callers.specs.declared.primary_header.PrimaryHeaderError.TheVariants.{Reader, WrongVersion};
ghost use Rattle.std.specs.Prelude.{◌≡◌, ◌≢◌, ◌<◌, ◌≤◌, ◌↔◌, Ok, Err, IsTrue, IsSomeAnd, length, take, pos};
ghost use Rattle.bitstream_io.specs.Callers.{EndOfInput, High, bits, sure_answer};

use crate::shared::{Packed, refused, write_first};
use bitstream_callers::primary_header::{PrimaryHeader, PrimaryHeaderError};
use bitstream_io::BE;

/// `struct primary_header` of C.
#[repr(C)]
#[derive(Clone, Copy)]
pub struct PrimaryHeaderC {
    /// True if the packet is a telecommand, and not telemetry.
    pub telecommand: u8,
    /// True if a secondary header follows.
    pub secondary: u8,
    /// The application of the packet. Below 2^11.
    pub apid: u16,
    /// The sequence flags. Below 2^2.
    pub sequence: u8,
    /// The number of the packet in its sequence. Below 2^14.
    pub count: u16,
    /// The number of bytes in the data field, minus 1.
    pub length: u16,
}

/// The result of a parse.
#[repr(C)]
#[derive(Clone, Copy)]
pub struct PrimaryHeaderParsed {
    /// The status.
    pub status: i32,
    /// The fields, if the status is 0.
    pub value: PrimaryHeaderC,
}

impl PrimaryHeaderC {
    /// Returns the struct of C with these fields.
    #[inline(always)]
    pub(crate) fn new(value: &PrimaryHeader) -> PrimaryHeaderC
        ensures { result ≡ primary_header_to_c value.now }
    {
        PrimaryHeaderC {
            telecommand: value.telecommand as u8,
            secondary: value.secondary as u8,
            apid: value.apid,
            sequence: value.sequence,
            count: value.count,
            length: value.length,
        }
    }

    /// Returns the fields, or `None` if a number of C is not a value of its field.
    #[inline(always)]
    pub(crate) fn fields(&self) -> Option<PrimaryHeader>
        ensures { result ≡ primary_header_from_c self.now }
    {
        Some(PrimaryHeader {
            telecommand: self.telecommand != 0,
            secondary: self.secondary != 0,
            apid: self.apid,
            sequence: self.sequence,
            count: self.count,
            length: self.length,
        })
    }
}

/// Returns the struct of C after an error.
#[inline(always)]
pub(crate) fn zero() -> PrimaryHeaderC
    ensures { result ≡ primary_header_zero }
{
    PrimaryHeaderC {
        telecommand: 0,
        secondary: 0,
        apid: 0,
        sequence: 0,
        count: 0,
        length: 0,
    }
}

/// Returns true if each field fits its bits.
#[inline(always)]
pub(crate) fn is_fit(value: &PrimaryHeader) -> bool
    ensures { IsTrue result ↔ Fits value.now }
{
    value.apid <= 2047 && value.sequence <= 3 && value.count <= 16383 && value.length <= 65535
}

/// Returns the result of a parse for C.
#[inline(always)]
fn parsed(answer: Result<PrimaryHeader, PrimaryHeaderError>) -> PrimaryHeaderParsed
    ensures { result ≡ primary_header_parsed answer }
{
    match answer {
        Ok(value) => PrimaryHeaderParsed {
            status: 0,
            value: PrimaryHeaderC::new(&value),
        },
        Err(PrimaryHeaderError::Reader(_)) => failed(1),
        Err(PrimaryHeaderError::WrongVersion) => failed(5),
    }
}

/// Returns the result of a parse that failed.
#[inline(always)]
fn failed(status: i32) -> PrimaryHeaderParsed
    ensures { result ≡ record { status = status; value = primary_header_zero } }
{
    PrimaryHeaderParsed {
        status,
        value: zero(),
    }
}

/// Parses the fields at the start of `bytes`.
#[unsafe(no_mangle)]
pub extern "C" fn proved_primary_header_parse(bytes: &[u8]) -> PrimaryHeaderParsed
    ensures answer { result ≡ primary_header_answer (sure_answer ((primary_header_decoder High).reads 0 (bits High bytes.now))) }
    ensures ok { result.status ≡ pos 0 ↔ ((6 ≤ length bytes.now) × (const_at_0 (bits High bytes.now) ≡ 0)) }
    ensures there { 6 ≤ length bytes.now → const_at_0 (bits High bytes.now) ≡ 0
        → result ≡ primary_header_parsed (Ok (primary_header_at (bits High bytes.now))) }
    ensures short { length bytes.now < 6
        → (1 ≤ length bytes.now → const_at_0 (bits High bytes.now) ≡ 0)
        → result ≡ primary_header_parsed (Err (Reader EndOfInput)) }
    ensures wrong_version { 1 ≤ length bytes.now → const_at_0 (bits High bytes.now) ≢ 0
        → result ≡ primary_header_parsed (Err WrongVersion) }
    ensures round_trip { (value : PrimaryHeader) → Fits value
        → bits High (take 6 bytes.now) ≡ primary_header_bits value → result ≡ primary_header_parsed (Ok value) }
{
    parsed(PrimaryHeader::parse(bytes))
}

/// Writes the fields to the first bytes of a buffer.
#[inline(always)]
fn put(fields: &PrimaryHeader, buffer: &mut [u8]) -> Packed
    ensures { PacksInto (Fits fields.now) High 6 (primary_header_bits fields.now) buffer.old result buffer.new }
{
    if !is_fit(fields) {
        return refused(3);
    }
    if buffer.len() < 6 {
        return refused(2);
    }
    write_first::<BE, PrimaryHeader>(fields, buffer);
    Packed {
        status: 0,
        written: 6,
    }
}

/// Writes the fields to the first bytes of a buffer.
#[unsafe(no_mangle)]
pub extern "C" fn proved_primary_header_pack(value: &PrimaryHeaderC, buffer: &mut [u8]) -> Packed
    ensures { PacksInto (IsSomeAnd (primary_header_from_c value.now) Fits) High 6 (primary_header_held (primary_header_from_c value.now)) buffer.old result buffer.new }
{
    match value.fields() {
        Some(fields) => put(&fields, buffer),
        None => refused(3),
    }
}
