//! Made by `./format --c` from ../protocols/formats/stun_header.fields: edit that file and make this one anew.
//!
//! `StunHeader` for C.
ghost use Rattle.protocols_c.specs.StunHeader.{stun_header_to_c, stun_header_from_c, stun_header_zero, stun_header_parsed, stun_header_answer, stun_header_held};
ghost use Rattle.protocols_c.specs.Shared.{PacksInto};
ghost use Rattle.protocols.specs.StunHeader.{stun_header_decoder, stun_header_bits, stun_header_at, Fits, const_at_0, const_at_32};
ghost use Rattle.protocols.specs.declared.stun_header.StunHeader.{StunHeader};
ghost use Rattle.protocols.specs.declared.stun_header.StunHeaderError.TheVariants.{Reader, NoStun, NoCookie};
ghost use Rattle.std.specs.Prelude.{◌≡◌, ◌≢◌, ◌<◌, ◌≤◌, ◌↔◌, Ok, Err, IsTrue, IsSomeAnd, All, length, take, pos};
ghost use Rattle.bitstream_io.specs.Callers.{EndOfInput, High, bits, sure_answer};

use crate::shared::{Packed, refused, write_first};
use bitstream_io::BE;
use protocols::stun_header::{StunHeader, StunHeaderError};

/// `struct stun_header` of C.
#[repr(C)]
#[derive(Clone, Copy)]
pub struct StunHeaderC {
    /// The method and the class of the message. Below 2^14.
    pub kind: u16,
    /// The number of bytes after the header.
    pub length: u16,
    /// The transaction.
    pub id: [u8; 12],
}

/// The result of a parse.
#[repr(C)]
#[derive(Clone, Copy)]
pub struct StunHeaderParsed {
    /// The status.
    pub status: i32,
    /// The fields, if the status is 0.
    pub value: StunHeaderC,
}

impl StunHeaderC {
    /// Returns the struct of C with these fields.
    #[inline(always)]
    pub(crate) fn new(value: &StunHeader) -> StunHeaderC
        ensures { result ≡ stun_header_to_c value.now }
    {
        StunHeaderC {
            kind: value.kind,
            length: value.length,
            id: value.id,
        }
    }

    /// Returns the fields, or `None` if a number of C is not a value of its field.
    #[inline(always)]
    pub(crate) fn fields(&self) -> Option<StunHeader>
        ensures { result ≡ stun_header_from_c self.now }
    {
        Some(StunHeader {
            kind: self.kind,
            length: self.length,
            id: self.id,
        })
    }
}

/// Returns the struct of C after an error.
#[inline(always)]
pub(crate) fn zero() -> StunHeaderC
    ensures { result ≡ stun_header_zero }
{
    StunHeaderC {
        kind: 0,
        length: 0,
        id: [0; 12],
    }
}

/// Returns true if each item fits its bits.
fn all_bytes(items: &[u8]) -> bool
    ensures { IsTrue result ↔ All (λ b. b < 256) items.now }
{
    items.iter().all(|x| u16::from(*x) < 256)
}

/// Returns true if each field fits its bits.
#[inline(always)]
pub(crate) fn is_fit(value: &StunHeader) -> bool
    ensures { IsTrue result ↔ Fits value.now }
{
    value.kind <= 16383 && value.length <= 65535 && all_bytes(&value.id)
}

/// Returns the result of a parse for C.
#[inline(always)]
fn parsed(answer: Result<StunHeader, StunHeaderError>) -> StunHeaderParsed
    ensures { result ≡ stun_header_parsed answer }
{
    match answer {
        Ok(value) => StunHeaderParsed {
            status: 0,
            value: StunHeaderC::new(&value),
        },
        Err(StunHeaderError::Reader(_)) => failed(1),
        Err(StunHeaderError::NoStun) => failed(5),
        Err(StunHeaderError::NoCookie) => failed(6),
    }
}

/// Returns the result of a parse that failed.
#[inline(always)]
fn failed(status: i32) -> StunHeaderParsed
    ensures { result ≡ record { status = status; value = stun_header_zero } }
{
    StunHeaderParsed {
        status,
        value: zero(),
    }
}

/// Parses the fields at the start of `bytes`.
#[unsafe(no_mangle)]
pub extern "C" fn proved_stun_header_parse(bytes: &[u8]) -> StunHeaderParsed
    ensures answer { result ≡ stun_header_answer (sure_answer ((stun_header_decoder High).reads 0 (bits High bytes.now))) }
    ensures ok { result.status ≡ pos 0 ↔ ((20 ≤ length bytes.now) × (const_at_0 (bits High bytes.now) ≡ 0) × (const_at_32 (bits High bytes.now) ≡ 554869826)) }
    ensures there { 20 ≤ length bytes.now → const_at_0 (bits High bytes.now) ≡ 0
        → const_at_32 (bits High bytes.now) ≡ 554869826
        → result ≡ stun_header_parsed (Ok (stun_header_at (bits High bytes.now))) }
    ensures short { length bytes.now < 20
        → (1 ≤ length bytes.now → const_at_0 (bits High bytes.now) ≡ 0)
        → (8 ≤ length bytes.now → const_at_32 (bits High bytes.now) ≡ 554869826)
        → result ≡ stun_header_parsed (Err (Reader EndOfInput)) }
    ensures no_stun { 1 ≤ length bytes.now → const_at_0 (bits High bytes.now) ≢ 0
        → result ≡ stun_header_parsed (Err NoStun) }
    ensures no_cookie { 8 ≤ length bytes.now → const_at_0 (bits High bytes.now) ≡ 0
        → const_at_32 (bits High bytes.now) ≢ 554869826
        → result ≡ stun_header_parsed (Err NoCookie) }
    ensures round_trip { (value : StunHeader) → Fits value
        → bits High (take 20 bytes.now) ≡ stun_header_bits value → result ≡ stun_header_parsed (Ok value) }
{
    parsed(StunHeader::parse(bytes))
}

/// Writes the fields to the first bytes of a buffer.
#[inline(always)]
fn put(fields: &StunHeader, buffer: &mut [u8]) -> Packed
    ensures { PacksInto (Fits fields.now) High 20 (stun_header_bits fields.now) buffer.old result buffer.new }
{
    if !is_fit(fields) {
        return refused(3);
    }
    if buffer.len() < 20 {
        return refused(2);
    }
    write_first::<BE, StunHeader>(fields, buffer);
    Packed {
        status: 0,
        written: 20,
    }
}

/// Writes the fields to the first bytes of a buffer.
#[unsafe(no_mangle)]
pub extern "C" fn proved_stun_header_pack(value: &StunHeaderC, buffer: &mut [u8]) -> Packed
    ensures { PacksInto (IsSomeAnd (stun_header_from_c value.now) Fits) High 20 (stun_header_held (stun_header_from_c value.now)) buffer.old result buffer.new }
{
    match value.fields() {
        Some(fields) => put(&fields, buffer),
        None => refused(3),
    }
}
