//! Made by `./format --c` from ../protocols/formats/vlan_tag.fields: edit that file and make this one anew.
//!
//! `VlanTag` for C.
ghost use Rattle.protocols_c.specs.VlanTag.{vlan_tag_to_c, vlan_tag_from_c, vlan_tag_zero, vlan_tag_parsed, vlan_tag_answer, vlan_tag_held};
ghost use Rattle.protocols_c.specs.Shared.{PacksInto};
ghost use Rattle.protocols.specs.VlanTag.{vlan_tag_decoder, vlan_tag_bits, vlan_tag_at, Fits};
ghost use Rattle.protocols.specs.declared.vlan_tag.VlanTag.{VlanTag};
ghost use Rattle.std.specs.Prelude.{◌≡◌, ◌<◌, ◌≤◌, ◌↔◌, Ok, Err, IsTrue, IsSomeAnd, length, take, pos};
ghost use Rattle.bitstream_io.specs.Callers.{EndOfInput, High, bits, sure_answer};

use crate::shared::{Packed, refused, write_first};
use bitstream_io::{BE, Error};
use protocols::vlan_tag::VlanTag;

/// `struct vlan_tag` of C.
#[repr(C)]
#[derive(Clone, Copy)]
pub struct VlanTagC {
    /// The priority code point. Below 2^3.
    pub priority: u8,
    /// True if the frame may be dropped first.
    pub drop_eligible: u8,
    /// The identifier of the network. Below 2^12.
    pub vlan: u16,
    /// The EtherType of what follows.
    pub kind: u16,
}

/// The result of a parse.
#[repr(C)]
#[derive(Clone, Copy)]
pub struct VlanTagParsed {
    /// The status.
    pub status: i32,
    /// The fields, if the status is 0.
    pub value: VlanTagC,
}

impl VlanTagC {
    /// Returns the struct of C with these fields.
    #[inline(always)]
    pub(crate) fn new(value: &VlanTag) -> VlanTagC
        ensures { result ≡ vlan_tag_to_c value.now }
    {
        VlanTagC {
            priority: value.priority,
            drop_eligible: value.drop_eligible as u8,
            vlan: value.vlan,
            kind: value.kind,
        }
    }

    /// Returns the fields, or `None` if a number of C is not a value of its field.
    #[inline(always)]
    pub(crate) fn fields(&self) -> Option<VlanTag>
        ensures { result ≡ vlan_tag_from_c self.now }
    {
        Some(VlanTag {
            priority: self.priority,
            drop_eligible: self.drop_eligible != 0,
            vlan: self.vlan,
            kind: self.kind,
        })
    }
}

/// Returns the struct of C after an error.
#[inline(always)]
pub(crate) fn zero() -> VlanTagC
    ensures { result ≡ vlan_tag_zero }
{
    VlanTagC {
        priority: 0,
        drop_eligible: 0,
        vlan: 0,
        kind: 0,
    }
}

/// Returns true if each field fits its bits.
#[inline(always)]
pub(crate) fn is_fit(value: &VlanTag) -> bool
    ensures { IsTrue result ↔ Fits value.now }
{
    value.priority <= 7 && value.vlan <= 4095 && value.kind <= 65535
}

/// Returns the result of a parse for C.
#[inline(always)]
fn parsed(answer: Result<VlanTag, Error>) -> VlanTagParsed
    ensures { result ≡ vlan_tag_parsed answer }
{
    match answer {
        Ok(value) => VlanTagParsed {
            status: 0,
            value: VlanTagC::new(&value),
        },
        Err(_) => failed(1),
    }
}

/// Returns the result of a parse that failed.
#[inline(always)]
fn failed(status: i32) -> VlanTagParsed
    ensures { result ≡ record { status = status; value = vlan_tag_zero } }
{
    VlanTagParsed {
        status,
        value: zero(),
    }
}

/// Parses the fields at the start of `bytes`.
#[unsafe(no_mangle)]
pub extern "C" fn proved_vlan_tag_parse(bytes: &[u8]) -> VlanTagParsed
    ensures answer { result ≡ vlan_tag_answer (sure_answer ((vlan_tag_decoder High).reads 0 (bits High bytes.now))) }
    ensures ok { result.status ≡ pos 0 ↔ ((4 ≤ length bytes.now)) }
    ensures there { 4 ≤ length bytes.now → result ≡ vlan_tag_parsed (Ok (vlan_tag_at (bits High bytes.now))) }
    ensures short { length bytes.now < 4 → result ≡ vlan_tag_parsed (Err EndOfInput) }
    ensures round_trip { (value : VlanTag) → Fits value
        → bits High (take 4 bytes.now) ≡ vlan_tag_bits value → result ≡ vlan_tag_parsed (Ok value) }
{
    parsed(VlanTag::parse(bytes))
}

/// Writes the fields to the first bytes of a buffer.
#[inline(always)]
fn put(fields: &VlanTag, buffer: &mut [u8]) -> Packed
    ensures { PacksInto (Fits fields.now) High 4 (vlan_tag_bits fields.now) buffer.old result buffer.new }
{
    if !is_fit(fields) {
        return refused(3);
    }
    if buffer.len() < 4 {
        return refused(2);
    }
    write_first::<BE, VlanTag>(fields, buffer);
    Packed {
        status: 0,
        written: 4,
    }
}

/// Writes the fields to the first bytes of a buffer.
#[unsafe(no_mangle)]
pub extern "C" fn proved_vlan_tag_pack(value: &VlanTagC, buffer: &mut [u8]) -> Packed
    ensures { PacksInto (IsSomeAnd (vlan_tag_from_c value.now) Fits) High 4 (vlan_tag_held (vlan_tag_from_c value.now)) buffer.old result buffer.new }
{
    match value.fields() {
        Some(fields) => put(&fields, buffer),
        None => refused(3),
    }
}
