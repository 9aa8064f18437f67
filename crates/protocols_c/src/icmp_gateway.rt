//! Made by `./format --c` from ../protocols/formats/icmp_gateway.fields: edit that file and make this one anew.
//!
//! `IcmpGateway` for C.
ghost use Rattle.protocols_c.specs.IcmpGateway.{icmp_gateway_to_c, icmp_gateway_from_c, icmp_gateway_zero, icmp_gateway_parsed, icmp_gateway_answer, icmp_gateway_held};
ghost use Rattle.protocols_c.specs.Shared.{PacksInto};
ghost use Rattle.protocols.specs.IcmpGateway.{icmp_gateway_decoder, icmp_gateway_bits, icmp_gateway_at, Fits};
ghost use Rattle.protocols.specs.declared.icmp_gateway.IcmpGateway.{IcmpGateway};
ghost use Rattle.std.specs.Prelude.{◌≡◌, ◌<◌, ◌≤◌, ◌↔◌, Ok, Err, IsTrue, IsSomeAnd, All, length, take, pos};
ghost use Rattle.bitstream_io.specs.Callers.{EndOfInput, High, bits, sure_answer};

use crate::shared::{Packed, refused, write_first};
use bitstream_io::{BE, Error};
use protocols::icmp_gateway::IcmpGateway;

/// `struct icmp_gateway` of C.
#[repr(C)]
#[derive(Clone, Copy)]
pub struct IcmpGatewayC {
    /// The IPv4 address of the router.
    pub address: [u8; 4],
}

/// The result of a parse.
#[repr(C)]
#[derive(Clone, Copy)]
pub struct IcmpGatewayParsed {
    /// The status.
    pub status: i32,
    /// The fields, if the status is 0.
    pub value: IcmpGatewayC,
}

impl IcmpGatewayC {
    /// Returns the struct of C with these fields.
    #[inline(always)]
    pub(crate) fn new(value: &IcmpGateway) -> IcmpGatewayC
        ensures { result ≡ icmp_gateway_to_c value.now }
    {
        IcmpGatewayC {
            address: value.address,
        }
    }

    /// Returns the fields, or `None` if a number of C is not a value of its field.
    #[inline(always)]
    pub(crate) fn fields(&self) -> Option<IcmpGateway>
        ensures { result ≡ icmp_gateway_from_c self.now }
    {
        Some(IcmpGateway {
            address: self.address,
        })
    }
}

/// Returns the struct of C after an error.
#[inline(always)]
pub(crate) fn zero() -> IcmpGatewayC
    ensures { result ≡ icmp_gateway_zero }
{
    IcmpGatewayC { address: [0; 4] }
}

/// Returns true if each item fits its bits.
fn all_bytes(items: &[u8]) -> bool
    ensures { IsTrue result ↔ All (λ b. b < 256) items.now }
{
    items.iter().all(|x| u16::from(*x) < 256)
}

/// Returns true if each field fits its bits.
#[inline(always)]
pub(crate) fn is_fit(value: &IcmpGateway) -> bool
    ensures { IsTrue result ↔ Fits value.now }
{
    all_bytes(&value.address)
}

/// Returns the result of a parse for C.
#[inline(always)]
fn parsed(answer: Result<IcmpGateway, Error>) -> IcmpGatewayParsed
    ensures { result ≡ icmp_gateway_parsed answer }
{
    match answer {
        Ok(value) => IcmpGatewayParsed {
            status: 0,
            value: IcmpGatewayC::new(&value),
        },
        Err(_) => failed(1),
    }
}

/// Returns the result of a parse that failed.
#[inline(always)]
fn failed(status: i32) -> IcmpGatewayParsed
    ensures { result ≡ record { status = status; value = icmp_gateway_zero } }
{
    IcmpGatewayParsed {
        status,
        value: zero(),
    }
}

/// Parses the fields at the start of `bytes`.
#[unsafe(no_mangle)]
pub extern "C" fn proved_icmp_gateway_parse(bytes: &[u8]) -> IcmpGatewayParsed
    ensures answer { result ≡ icmp_gateway_answer (sure_answer ((icmp_gateway_decoder High).reads 0 (bits High bytes.now))) }
    ensures ok { result.status ≡ pos 0 ↔ ((4 ≤ length bytes.now)) }
    ensures there { 4 ≤ length bytes.now
        → result ≡ icmp_gateway_parsed (Ok (icmp_gateway_at (bits High bytes.now))) }
    ensures short { length bytes.now < 4 → result ≡ icmp_gateway_parsed (Err EndOfInput) }
    ensures round_trip { (value : IcmpGateway) → Fits value
        → bits High (take 4 bytes.now) ≡ icmp_gateway_bits value → result ≡ icmp_gateway_parsed (Ok value) }
{
    parsed(IcmpGateway::parse(bytes))
}

/// Writes the fields to the first bytes of a buffer.
#[inline(always)]
fn put(fields: &IcmpGateway, buffer: &mut [u8]) -> Packed
    ensures { PacksInto (Fits fields.now) High 4 (icmp_gateway_bits fields.now) buffer.old result buffer.new }
{
    if !is_fit(fields) {
        return refused(3);
    }
    if buffer.len() < 4 {
        return refused(2);
    }
    write_first::<BE, IcmpGateway>(fields, buffer);
    Packed {
        status: 0,
        written: 4,
    }
}

/// Writes the fields to the first bytes of a buffer.
#[unsafe(no_mangle)]
pub extern "C" fn proved_icmp_gateway_pack(value: &IcmpGatewayC, buffer: &mut [u8]) -> Packed
    ensures { PacksInto (IsSomeAnd (icmp_gateway_from_c value.now) Fits) High 4 (icmp_gateway_held (icmp_gateway_from_c value.now)) buffer.old result buffer.new }
{
    match value.fields() {
        Some(fields) => put(&fields, buffer),
        None => refused(3),
    }
}
