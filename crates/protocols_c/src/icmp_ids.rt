//! Made by `./format --c` from ../protocols/formats/icmp_ids.fields: edit that file and make this one anew.
//!
//! `IcmpIds` for C.
ghost use Rattle.protocols_c.specs.IcmpIds.{icmp_ids_to_c, icmp_ids_from_c, icmp_ids_zero, icmp_ids_parsed, icmp_ids_answer, icmp_ids_held};
ghost use Rattle.protocols_c.specs.Shared.{PacksInto};
ghost use Rattle.protocols.specs.IcmpIds.{icmp_ids_decoder, icmp_ids_bits, icmp_ids_at, Fits};
ghost use Rattle.protocols.specs.declared.icmp_ids.IcmpIds.{IcmpIds};
ghost use Rattle.std.specs.Prelude.{◌≡◌, ◌<◌, ◌≤◌, ◌↔◌, Ok, Err, IsTrue, IsSomeAnd, length, take, pos};
ghost use Rattle.bitstream_io.specs.Callers.{EndOfInput, High, bits, sure_answer};

use crate::shared::{Packed, refused, write_first};
use bitstream_io::{BE, Error};
use protocols::icmp_ids::IcmpIds;

/// `struct icmp_ids` of C.
#[repr(C)]
#[derive(Clone, Copy)]
pub struct IcmpIdsC {
    /// The number that a reply shares with its request.
    pub identifier: u16,
    /// The number of the request among its sender's requests.
    pub sequence: u16,
}

/// The result of a parse.
#[repr(C)]
#[derive(Clone, Copy)]
pub struct IcmpIdsParsed {
    /// The status.
    pub status: i32,
    /// The fields, if the status is 0.
    pub value: IcmpIdsC,
}

impl IcmpIdsC {
    /// Returns the struct of C with these fields.
    #[inline(always)]
    pub(crate) fn new(value: &IcmpIds) -> IcmpIdsC
        ensures { result ≡ icmp_ids_to_c value.now }
    {
        IcmpIdsC {
            identifier: value.identifier,
            sequence: value.sequence,
        }
    }

    /// Returns the fields, or `None` if a number of C is not a value of its field.
    #[inline(always)]
    pub(crate) fn fields(&self) -> Option<IcmpIds>
        ensures { result ≡ icmp_ids_from_c self.now }
    {
        Some(IcmpIds {
            identifier: self.identifier,
            sequence: self.sequence,
        })
    }
}

/// Returns the struct of C after an error.
#[inline(always)]
pub(crate) fn zero() -> IcmpIdsC
    ensures { result ≡ icmp_ids_zero }
{
    IcmpIdsC {
        identifier: 0,
        sequence: 0,
    }
}

/// Returns true if each field fits its bits.
#[inline(always)]
pub(crate) fn is_fit(value: &IcmpIds) -> bool
    ensures { IsTrue result ↔ Fits value.now }
{
    value.identifier <= 65535 && value.sequence <= 65535
}

/// Returns the result of a parse for C.
#[inline(always)]
fn parsed(answer: Result<IcmpIds, Error>) -> IcmpIdsParsed
    ensures { result ≡ icmp_ids_parsed answer }
{
    match answer {
        Ok(value) => IcmpIdsParsed {
            status: 0,
            value: IcmpIdsC::new(&value),
        },
        Err(_) => failed(1),
    }
}

/// Returns the result of a parse that failed.
#[inline(always)]
fn failed(status: i32) -> IcmpIdsParsed
    ensures { result ≡ record { status = status; value = icmp_ids_zero } }
{
    IcmpIdsParsed {
        status,
        value: zero(),
    }
}

/// Parses the fields at the start of `bytes`.
#[unsafe(no_mangle)]
pub extern "C" fn proved_icmp_ids_parse(bytes: &[u8]) -> IcmpIdsParsed
    ensures answer { result ≡ icmp_ids_answer (sure_answer ((icmp_ids_decoder High).reads 0 (bits High bytes.now))) }
    ensures ok { result.status ≡ pos 0 ↔ ((4 ≤ length bytes.now)) }
    ensures there { 4 ≤ length bytes.now → result ≡ icmp_ids_parsed (Ok (icmp_ids_at (bits High bytes.now))) }
    ensures short { length bytes.now < 4 → result ≡ icmp_ids_parsed (Err EndOfInput) }
    ensures round_trip { (value : IcmpIds) → Fits value
        → bits High (take 4 bytes.now) ≡ icmp_ids_bits value → result ≡ icmp_ids_parsed (Ok value) }
{
    parsed(IcmpIds::parse(bytes))
}

/// Writes the fields to the first bytes of a buffer.
#[inline(always)]
fn put(fields: &IcmpIds, buffer: &mut [u8]) -> Packed
    ensures { PacksInto (Fits fields.now) High 4 (icmp_ids_bits fields.now) buffer.old result buffer.new }
{
    if !is_fit(fields) {
        return refused(3);
    }
    if buffer.len() < 4 {
        return refused(2);
    }
    write_first::<BE, IcmpIds>(fields, buffer);
    Packed {
        status: 0,
        written: 4,
    }
}

/// Writes the fields to the first bytes of a buffer.
#[unsafe(no_mangle)]
pub extern "C" fn proved_icmp_ids_pack(value: &IcmpIdsC, buffer: &mut [u8]) -> Packed
    ensures { PacksInto (IsSomeAnd (icmp_ids_from_c value.now) Fits) High 4 (icmp_ids_held (icmp_ids_from_c value.now)) buffer.old result buffer.new }
{
    match value.fields() {
        Some(fields) => put(&fields, buffer),
        None => refused(3),
    }
}
