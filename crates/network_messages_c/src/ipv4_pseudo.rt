//! Made by `./format --c` from ../network_messages/formats/ipv4_pseudo.fields: edit that file and make this one anew.
//!
//! `Ipv4Pseudo` for C.
ghost use Rattle.network_messages_c.specs.Ipv4Pseudo.{ipv4_pseudo_to_c, ipv4_pseudo_from_c, ipv4_pseudo_zero, ipv4_pseudo_parsed, ipv4_pseudo_answer, ipv4_pseudo_held};
ghost use Rattle.network_messages_c.specs.Shared.{PacksInto};
ghost use Rattle.network_messages.specs.Ipv4Pseudo.{ipv4_pseudo_decoder, ipv4_pseudo_bits, ipv4_pseudo_at, Fits};
ghost use Rattle.network_messages.specs.declared.ipv4_pseudo.Ipv4Pseudo.{Ipv4Pseudo};
ghost use Rattle.std.specs.Prelude.{◌≡◌, ◌<◌, ◌≤◌, ◌↔◌, Ok, Err, IsTrue, IsSomeAnd, All, length, take, pos};
ghost use Rattle.bitstream_io.specs.Callers.{EndOfInput, High, bits, sure_answer};

use crate::shared::{Packed, refused, write_first};
use bitstream_io::{BE, Error};
use network_messages::ipv4_pseudo::Ipv4Pseudo;

/// `struct ipv4_pseudo` of C.
#[repr(C)]
#[derive(Clone, Copy)]
pub struct Ipv4PseudoC {
    /// The sender.
    pub source: [u8; 4],
    /// The receiver.
    pub target: [u8; 4],
    /// The protocol.
    pub protocol: u8,
    /// The bytes of the datagram or the segment.
    pub length: u16,
}

/// The result of a parse.
#[repr(C)]
#[derive(Clone, Copy)]
pub struct Ipv4PseudoParsed {
    /// The status.
    pub status: i32,
    /// The fields, if the status is 0.
    pub value: Ipv4PseudoC,
}

impl Ipv4PseudoC {
    /// Returns the struct of C with these fields.
    #[inline(always)]
    pub(crate) fn new(value: &Ipv4Pseudo) -> Ipv4PseudoC
        ensures { result ≡ ipv4_pseudo_to_c value.now }
    {
        Ipv4PseudoC {
            source: value.source,
            target: value.target,
            protocol: value.protocol,
            length: value.length,
        }
    }

    /// Returns the fields, or `None` if a number of C is not a value of its field.
    #[inline(always)]
    pub(crate) fn fields(&self) -> Option<Ipv4Pseudo>
        ensures { result ≡ ipv4_pseudo_from_c self.now }
    {
        Some(Ipv4Pseudo {
            source: self.source,
            target: self.target,
            protocol: self.protocol,
            length: self.length,
        })
    }
}

/// Returns the struct of C after an error.
#[inline(always)]
pub(crate) fn zero() -> Ipv4PseudoC
    ensures { result ≡ ipv4_pseudo_zero }
{
    Ipv4PseudoC {
        source: [0; 4],
        target: [0; 4],
        protocol: 0,
        length: 0,
    }
}

/// Returns true if each item fits its bits.
fn all_bytes(items: &[u8]) -> bool
    ensures { IsTrue result ↔ All (λ b. b < 256) items.now }
{
    items.iter().all(|x| u16::from(*x) < 256)
}

/// Returns true if each field fits its bits.
#[inline(always)]
pub(crate) fn is_fit(value: &Ipv4Pseudo) -> bool
    ensures { IsTrue result ↔ Fits value.now }
{
    all_bytes(&value.source)
        && all_bytes(&value.target)
        && value.protocol <= 255
        && value.length <= 65535
}

/// Returns the result of a parse for C.
#[inline(always)]
fn parsed(answer: Result<Ipv4Pseudo, Error>) -> Ipv4PseudoParsed
    ensures { result ≡ ipv4_pseudo_parsed answer }
{
    match answer {
        Ok(value) => Ipv4PseudoParsed {
            status: 0,
            value: Ipv4PseudoC::new(&value),
        },
        Err(_) => failed(1),
    }
}

/// Returns the result of a parse that failed.
#[inline(always)]
fn failed(status: i32) -> Ipv4PseudoParsed
    ensures { result ≡ record { status = status; value = ipv4_pseudo_zero } }
{
    Ipv4PseudoParsed {
        status,
        value: zero(),
    }
}

/// Parses the fields at the start of `bytes`.
#[unsafe(no_mangle)]
pub extern "C" fn proved_ipv4_pseudo_parse(bytes: &[u8]) -> Ipv4PseudoParsed
    ensures answer { result ≡ ipv4_pseudo_answer (sure_answer ((ipv4_pseudo_decoder High).reads 0 (bits High bytes.now))) }
    ensures ok { result.status ≡ pos 0 ↔ ((12 ≤ length bytes.now)) }
    ensures there { 12 ≤ length bytes.now
        → result ≡ ipv4_pseudo_parsed (Ok (ipv4_pseudo_at (bits High bytes.now))) }
    ensures short { length bytes.now < 12 → result ≡ ipv4_pseudo_parsed (Err EndOfInput) }
    ensures round_trip { (value : Ipv4Pseudo) → Fits value
        → bits High (take 12 bytes.now) ≡ ipv4_pseudo_bits value → result ≡ ipv4_pseudo_parsed (Ok value) }
{
    parsed(Ipv4Pseudo::parse(bytes))
}

/// Writes the fields to the first bytes of a buffer.
#[inline(always)]
fn put(fields: &Ipv4Pseudo, buffer: &mut [u8]) -> Packed
    ensures { PacksInto (Fits fields.now) High 12 (ipv4_pseudo_bits fields.now) buffer.old result buffer.new }
{
    if !is_fit(fields) {
        return refused(3);
    }
    if buffer.len() < 12 {
        return refused(2);
    }
    write_first::<BE, Ipv4Pseudo>(fields, buffer);
    Packed {
        status: 0,
        written: 12,
    }
}

/// Writes the fields to the first bytes of a buffer.
#[unsafe(no_mangle)]
pub extern "C" fn proved_ipv4_pseudo_pack(value: &Ipv4PseudoC, buffer: &mut [u8]) -> Packed
    ensures { PacksInto (IsSomeAnd (ipv4_pseudo_from_c value.now) Fits) High 12 (ipv4_pseudo_held (ipv4_pseudo_from_c value.now)) buffer.old result buffer.new }
{
    match value.fields() {
        Some(fields) => put(&fields, buffer),
        None => refused(3),
    }
}
