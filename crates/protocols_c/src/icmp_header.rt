//! Made by `./format --c` from ../protocols/formats/icmp_header.fields: edit that file and make this one anew.
//!
//! `IcmpHeader` for C.
ghost use Rattle.protocols_c.specs.IcmpHeader.{icmp_header_to_c, icmp_header_from_c, icmp_header_zero, icmp_header_parsed, icmp_header_answer, icmp_header_held, icmp_header_bytes, icmp_header_room, icmp_header_failed, icmp_header_body_case, icmp_header_body_from, icmp_header_body_echo_reply, icmp_header_body_redirect, icmp_header_body_echo, icmp_header_body_other};
ghost use Rattle.protocols_c.specs.Shared.{PacksInto};
ghost use Rattle.protocols.specs.IcmpHeader.{icmp_header_decoder, icmp_header_size, icmp_header_bits, Fits, body_fits};
ghost use Rattle.protocols.specs.declared.icmp_header.IcmpHeader.{IcmpHeader};
ghost use Rattle.std.specs.Prelude.{◌≡◌, ◌≤◌, ◌↔◌, Ok, IsTrue, IsSomeAnd, length, take};
ghost use Rattle.bitstream_io.specs.Callers.{High, bits};

use crate::icmp_gateway::{self, IcmpGatewayC};
use crate::icmp_ids::{self, IcmpIdsC};
use crate::shared::{Packed, refused, write_first};
use bitstream_io::{BE, BitReader, BitsWritten, Error};
use protocols::icmp_header::{Body, IcmpHeader};

/// `struct icmp_header` of C.
#[repr(C)]
#[derive(Clone, Copy)]
pub struct IcmpHeaderC {
    /// The code, which refines the type.
    pub code: u8,
    /// The checksum of the message.
    pub checksum: u16,
    /// The case of `body`.
    pub body_case: u32,
    /// The content of the case `EchoReply`.
    pub body_echo_reply: IcmpIdsC,
    /// The content of the case `Redirect`.
    pub body_redirect: IcmpGatewayC,
    /// The content of the case `Echo`.
    pub body_echo: IcmpIdsC,
    /// The number of the case `Other`, and of no other case.
    pub body_other: u8,
}

/// The result of a parse.
#[repr(C)]
#[derive(Clone, Copy)]
pub struct IcmpHeaderParsed {
    /// The status.
    pub status: i32,
    /// The number of bytes that were taken, or of the items of a list without room for them.
    pub taken: usize,
    /// The fields, if the status is 0.
    pub value: IcmpHeaderC,
}

impl IcmpHeaderC {
    /// Returns the struct of C with these fields.
    #[inline(always)]
    pub(crate) fn new(value: &IcmpHeader) -> IcmpHeaderC
        ensures { result ≡ icmp_header_to_c value.now }
    {
        IcmpHeaderC {
            code: value.code,
            checksum: value.checksum,
            body_case: body_case(&value.body),
            body_echo_reply: body_echo_reply(&value.body),
            body_redirect: body_redirect(&value.body),
            body_echo: body_echo(&value.body),
            body_other: body_other(&value.body),
        }
    }

    /// Returns the fields, or `None` if a number of C is not a value of its field.
    #[inline(always)]
    pub(crate) fn fields(&self) -> Option<IcmpHeader>
        ensures { result ≡ icmp_header_from_c self.now }
    {
        let Some(body) = body_from(
            self.body_case,
            &self.body_echo_reply,
            &self.body_redirect,
            &self.body_echo,
            self.body_other,
        ) else {
            return None;
        };
        Some(IcmpHeader {
            code: self.code,
            checksum: self.checksum,
            body,
        })
    }
}

/// Returns the struct of C after an error.
#[inline(always)]
pub(crate) fn zero() -> IcmpHeaderC
    ensures { result ≡ icmp_header_zero }
{
    IcmpHeaderC {
        code: 0,
        checksum: 0,
        body_case: 0,
        body_echo_reply: icmp_ids::zero(),
        body_redirect: icmp_gateway::zero(),
        body_echo: icmp_ids::zero(),
        body_other: 0,
    }
}

/// Returns the case of a `Body` for C.
fn body_case(value: &Body) -> u32
    ensures { result ≡ icmp_header_body_case value.now }
{
    match value {
        Body::EchoReply(_) => 0,
        Body::Redirect(_) => 1,
        Body::Echo(_) => 2,
        Body::Other(_) => 3,
    }
}

/// Returns what the case `EchoReply` of a `Body` holds for C, with zeros in another case.
fn body_echo_reply(value: &Body) -> IcmpIdsC
    ensures { result ≡ icmp_header_body_echo_reply value.now }
{
    match value {
        Body::EchoReply(it) => IcmpIdsC::new(it),
        Body::Redirect(_) => icmp_ids::zero(),
        Body::Echo(_) => icmp_ids::zero(),
        Body::Other(_) => icmp_ids::zero(),
    }
}

/// Returns what the case `Redirect` of a `Body` holds for C, with zeros in another case.
fn body_redirect(value: &Body) -> IcmpGatewayC
    ensures { result ≡ icmp_header_body_redirect value.now }
{
    match value {
        Body::Redirect(it) => IcmpGatewayC::new(it),
        Body::EchoReply(_) => icmp_gateway::zero(),
        Body::Echo(_) => icmp_gateway::zero(),
        Body::Other(_) => icmp_gateway::zero(),
    }
}

/// Returns what the case `Echo` of a `Body` holds for C, with zeros in another case.
fn body_echo(value: &Body) -> IcmpIdsC
    ensures { result ≡ icmp_header_body_echo value.now }
{
    match value {
        Body::Echo(it) => IcmpIdsC::new(it),
        Body::EchoReply(_) => icmp_ids::zero(),
        Body::Redirect(_) => icmp_ids::zero(),
        Body::Other(_) => icmp_ids::zero(),
    }
}

/// Returns what the case `Other` of a `Body` holds for C, with zeros in another case.
fn body_other(value: &Body) -> u8
    ensures { result ≡ icmp_header_body_other value.now }
{
    match value {
        Body::Other(it) => *it,
        Body::EchoReply(_) => 0,
        Body::Redirect(_) => 0,
        Body::Echo(_) => 0,
    }
}

/// Returns the `Body` of a case, or `None` for another number, or if a number of C is no value of its field.
fn body_from(
    case: u32,
    echo_reply: &IcmpIdsC,
    redirect: &IcmpGatewayC,
    echo: &IcmpIdsC,
    other: u8,
) -> Option<Body>
    ensures { result ≡ icmp_header_body_from case echo_reply.now redirect.now echo.now other }
{
    if case == 0 {
        return match echo_reply.fields() {
            Some(it) => Some(Body::EchoReply(it)),
            None => None,
        };
    }
    if case == 1 {
        return match redirect.fields() {
            Some(it) => Some(Body::Redirect(it)),
            None => None,
        };
    }
    if case == 2 {
        return match echo.fields() {
            Some(it) => Some(Body::Echo(it)),
            None => None,
        };
    }
    if case == 3 {
        return Some(Body::Other(other));
    }
    None
}

/// Returns true if what a case of a `Body` holds fits its bits.
fn body_fits(value: &Body) -> bool
    ensures { IsTrue result ↔ body_fits value.now }
{
    match value {
        Body::EchoReply(it) => icmp_ids::is_fit(it),
        Body::Redirect(it) => icmp_gateway::is_fit(it),
        Body::Echo(it) => icmp_ids::is_fit(it),
        Body::Other(it) => *it <= 255 && *it != 0 && *it != 5 && *it != 8,
    }
}

/// Returns true if each field fits its bits.
#[inline(always)]
pub(crate) fn is_fit(value: &IcmpHeader) -> bool
    ensures { IsTrue result ↔ Fits value.now }
{
    value.code <= 255 && value.checksum <= 65535 && body_fits(&value.body)
}

/// Returns the result of a parse for C, after a read that took `taken` bytes.
#[inline(always)]
fn parsed(answer: Result<IcmpHeader, Error>, taken: usize) -> IcmpHeaderParsed
    ensures { result ≡ icmp_header_parsed taken answer }
{
    match answer {
        Ok(value) => IcmpHeaderParsed {
            status: 0,
            taken,
            value: IcmpHeaderC::new(&value),
        },
        Err(_) => failed(1),
    }
}

/// Returns the result of a parse that failed.
#[inline(always)]
fn failed(status: i32) -> IcmpHeaderParsed
    ensures { result ≡ icmp_header_failed status }
{
    IcmpHeaderParsed {
        status,
        taken: 0,
        value: zero(),
    }
}

/// Parses the fields at the start of `bytes`.
#[unsafe(no_mangle)]
pub extern "C" fn proved_icmp_header_parse(bytes: &[u8]) -> IcmpHeaderParsed
    ensures answer { result ≡ icmp_header_answer ((icmp_header_decoder High).reads 0 (bits High bytes.now)) }
    ensures within { result.taken ≤ length bytes.now }
    ensures round_trip { (value : IcmpHeader) → Fits value → bits High (take (icmp_header_bytes value) bytes.now) ≡ icmp_header_bits value
        → result ≡ icmp_header_parsed (icmp_header_bytes value) (Ok value) }
{
    let mut reader = BitReader::<_, BE>::over(bytes);
    let answer = IcmpHeader::read(&mut reader);
    let taken = bytes.len().saturating_sub(reader.rest().len());
    parsed(answer, taken)
}

/// Returns the number of bits of fields that fit.
fn size(fields: &IcmpHeader) -> u64
    requires { Fits fields.now }
    ensures { result ≡ icmp_header_size High fields.now }
{
    let mut counter = BitsWritten::<u64>::new();
    match fields.write(&mut counter) {
        Ok(()) => counter.into_written(),
        Err(_) => unreachable!(),
    }
}

/// Writes the fields to the first bytes of a buffer.
fn put(fields: &IcmpHeader, buffer: &mut [u8]) -> Packed
    ensures { PacksInto (Fits fields.now) High (icmp_header_bytes fields.now) (icmp_header_bits fields.now) buffer.old result buffer.new }
{
    if !is_fit(fields) {
        return refused(3);
    }
    let written = size(fields).div_ceil(8);
    if written > buffer.len() as u64 {
        return refused(2);
    }
    write_first::<BE, IcmpHeader>(fields, buffer);
    Packed {
        status: 0,
        written: written as usize,
    }
}

/// Writes the fields to the first bytes of a buffer.
#[unsafe(no_mangle)]
pub extern "C" fn proved_icmp_header_pack(value: &IcmpHeaderC, buffer: &mut [u8]) -> Packed
    ensures { PacksInto (IsSomeAnd (icmp_header_from_c value.now) Fits) High (icmp_header_room (icmp_header_from_c value.now)) (icmp_header_held (icmp_header_from_c value.now)) buffer.old result buffer.new }
{
    match value.fields() {
        Some(fields) => put(&fields, buffer),
        None => refused(3),
    }
}
