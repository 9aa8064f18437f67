//! Made by `./format --c` from ../protocols/formats/ethernet_header.fields: edit that file and make this one anew.
//!
//! `EthernetHeader` for C.
ghost use Rattle.protocols_c.specs.EthernetHeader.{ethernet_header_to_c, ethernet_header_from_c, ethernet_header_zero, ethernet_header_parsed, ethernet_header_answer, ethernet_header_held, ethernet_header_bytes, ethernet_header_room, ethernet_header_failed, ethernet_header_has_vlan_tag, ethernet_header_vlan_tag_or_zero, ethernet_header_vlan_tag_if};
ghost use Rattle.protocols_c.specs.Shared.{PacksInto};
ghost use Rattle.protocols.specs.EthernetHeader.{ethernet_header_decoder, ethernet_header_size, ethernet_header_bits, Fits};
ghost use Rattle.protocols.specs.VlanTag.{Fits as VlanTagFits};
ghost use Rattle.protocols.specs.declared.ethernet_header.EthernetHeader.{EthernetHeader};
ghost use Rattle.std.specs.Prelude.{◌≡◌, ◌<◌, ◌≤◌, ◌↔◌, Ok, IsTrue, IsSomeAnd, All, length, take, is_some};
ghost use Rattle.std.specs.Option.{ForSome};
ghost use Rattle.bitstream_io.specs.Callers.{High, bits};

use crate::shared::{Packed, refused, write_first};
use crate::vlan_tag::{self, VlanTagC};
use bitstream_io::{BE, BitReader, BitsWritten, Error};
use protocols::ethernet_header::{EtherType, EthernetHeader};
use protocols::vlan_tag::VlanTag;

/// `struct ethernet_header` of C.
#[repr(C)]
#[derive(Clone, Copy)]
pub struct EthernetHeaderC {
    /// The address of the receiver.
    pub target: [u8; 6],
    /// The address of the sender.
    pub source: [u8; 6],
    /// The EtherType of what follows. A number of `ether_type`, or another one below 2^16.
    pub kind: u16,
    /// True if `tag` is there.
    pub has_tag: u8,
    /// The tag for a virtual network. It is there if, and only if, `kind == Vlan`.
    pub tag: VlanTagC,
}

/// The result of a parse.
#[repr(C)]
#[derive(Clone, Copy)]
pub struct EthernetHeaderParsed {
    /// The status.
    pub status: i32,
    /// The number of bytes that were taken, or of the items of a list without room for them.
    pub taken: usize,
    /// The fields, if the status is 0.
    pub value: EthernetHeaderC,
}

impl EthernetHeaderC {
    /// Returns the struct of C with these fields.
    #[inline(always)]
    pub(crate) fn new(value: &EthernetHeader) -> EthernetHeaderC
        ensures { result ≡ ethernet_header_to_c value.now }
    {
        EthernetHeaderC {
            target: value.target,
            source: value.source,
            kind: value.kind.number(),
            has_tag: vlan_tag_flag(&value.tag),
            tag: vlan_tag_or_zero(&value.tag),
        }
    }

    /// Returns the fields, or `None` if a number of C is not a value of its field.
    #[inline(always)]
    pub(crate) fn fields(&self) -> Option<EthernetHeader>
        ensures { result ≡ ethernet_header_from_c self.now }
    {
        let Some(tag) = vlan_tag_if(self.has_tag, &self.tag) else {
            return None;
        };
        Some(EthernetHeader {
            target: self.target,
            source: self.source,
            kind: EtherType::of(self.kind),
            tag,
        })
    }
}

/// Returns the struct of C after an error.
#[inline(always)]
pub(crate) fn zero() -> EthernetHeaderC
    ensures { result ≡ ethernet_header_zero }
{
    EthernetHeaderC {
        target: [0; 6],
        source: [0; 6],
        kind: 0,
        has_tag: 0,
        tag: vlan_tag::zero(),
    }
}

/// Returns true if each item fits its bits.
fn all_bytes(items: &[u8]) -> bool
    ensures { IsTrue result ↔ All (λ b. b < 256) items.now }
{
    items.iter().all(|x| u16::from(*x) < 256)
}

/// Returns 1 if there is a `VlanTag`, and 0 if there is none.
fn vlan_tag_flag(value: &Option<VlanTag>) -> u8
    ensures { result ≡ ethernet_header_has_vlan_tag value.now }
{
    match value {
        Some(_) => 1,
        None => 0,
    }
}

/// Returns the struct of C of a `VlanTag`, all of whose members are 0 if there is none.
fn vlan_tag_or_zero(value: &Option<VlanTag>) -> VlanTagC
    ensures { result ≡ ethernet_header_vlan_tag_or_zero value.now }
{
    match value {
        Some(value) => VlanTagC::new(value),
        None => vlan_tag::zero(),
    }
}

/// Returns the `VlanTag` that is there unless `has` is 0, or `None` if a number of C is no value of its field.
fn vlan_tag_if(has: u8, value: &VlanTagC) -> Option<Option<VlanTag>>
    ensures { result ≡ ethernet_header_vlan_tag_if has value.now }
{
    if has == 0 {
        return Some(None);
    }
    match value.fields() {
        Some(found) => Some(Some(found)),
        None => None,
    }
}

/// Returns true if each field of a `VlanTag` fits its bits, or there is none.
fn vlan_tag_fits(value: &Option<VlanTag>) -> bool
    ensures { IsTrue result ↔ ForSome value.now VlanTagFits }
{
    match value {
        Some(value) => vlan_tag::is_fit(value),
        None => true,
    }
}

/// Returns true if a `VlanTag` is there if, and only if, `there` is true.
fn is_vlan_tag_there(value: &Option<VlanTag>, there: bool) -> bool
    ensures { IsTrue result ↔ (is_some value.now ≡ there) }
{
    match value {
        Some(_) => there,
        None => !there,
    }
}

/// Returns true if each field fits its bits.
#[inline(always)]
pub(crate) fn is_fit(value: &EthernetHeader) -> bool
    ensures { IsTrue result ↔ Fits value.now }
{
    all_bytes(&value.target)
        && all_bytes(&value.source)
        && value.kind.number() <= 65535
        && EtherType::of(value.kind.number()) == value.kind
        && vlan_tag_fits(&value.tag)
        && is_vlan_tag_there(&value.tag, value.kind.number() == 33024)
}

/// Returns the result of a parse for C, after a read that took `taken` bytes.
#[inline(always)]
fn parsed(answer: Result<EthernetHeader, Error>, taken: usize) -> EthernetHeaderParsed
    ensures { result ≡ ethernet_header_parsed taken answer }
{
    match answer {
        Ok(value) => EthernetHeaderParsed {
            status: 0,
            taken,
            value: EthernetHeaderC::new(&value),
        },
        Err(_) => failed(1),
    }
}

/// Returns the result of a parse that failed.
#[inline(always)]
fn failed(status: i32) -> EthernetHeaderParsed
    ensures { result ≡ ethernet_header_failed status }
{
    EthernetHeaderParsed {
        status,
        taken: 0,
        value: zero(),
    }
}

/// Parses the fields at the start of `bytes`.
#[unsafe(no_mangle)]
pub extern "C" fn proved_ethernet_header_parse(bytes: &[u8]) -> EthernetHeaderParsed
    ensures answer { result ≡ ethernet_header_answer ((ethernet_header_decoder High).reads 0 (bits High bytes.now)) }
    ensures within { result.taken ≤ length bytes.now }
    ensures round_trip { (value : EthernetHeader) → Fits value → bits High (take (ethernet_header_bytes value) bytes.now) ≡ ethernet_header_bits value
        → result ≡ ethernet_header_parsed (ethernet_header_bytes value) (Ok value) }
{
    let mut reader = BitReader::<_, BE>::over(bytes);
    let answer = EthernetHeader::read(&mut reader);
    let taken = bytes.len().saturating_sub(reader.rest().len());
    parsed(answer, taken)
}

/// Returns the number of bits of fields that fit.
fn size(fields: &EthernetHeader) -> u64
    requires { Fits fields.now }
    ensures { result ≡ ethernet_header_size High fields.now }
{
    let mut counter = BitsWritten::<u64>::new();
    match fields.write(&mut counter) {
        Ok(()) => counter.into_written(),
        Err(_) => unreachable!(),
    }
}

/// Writes the fields to the first bytes of a buffer.
fn put(fields: &EthernetHeader, buffer: &mut [u8]) -> Packed
    ensures { PacksInto (Fits fields.now) High (ethernet_header_bytes fields.now) (ethernet_header_bits fields.now) buffer.old result buffer.new }
{
    if !is_fit(fields) {
        return refused(3);
    }
    let written = size(fields).div_ceil(8);
    if written > buffer.len() as u64 {
        return refused(2);
    }
    write_first::<BE, EthernetHeader>(fields, buffer);
    Packed {
        status: 0,
        written: written as usize,
    }
}

/// Writes the fields to the first bytes of a buffer.
#[unsafe(no_mangle)]
pub extern "C" fn proved_ethernet_header_pack(value: &EthernetHeaderC, buffer: &mut [u8]) -> Packed
    ensures { PacksInto (IsSomeAnd (ethernet_header_from_c value.now) Fits) High (ethernet_header_room (ethernet_header_from_c value.now)) (ethernet_header_held (ethernet_header_from_c value.now)) buffer.old result buffer.new }
{
    match value.fields() {
        Some(fields) => put(&fields, buffer),
        None => refused(3),
    }
}
