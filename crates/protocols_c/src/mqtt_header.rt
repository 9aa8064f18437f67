//! Made by `./format --c` from ../protocols/formats/mqtt_header.fields: edit that file and make this one anew.
//!
//! `MqttHeader` for C.
ghost use Rattle.protocols_c.specs.MqttHeader.{mqtt_header_to_c, mqtt_header_from_c, mqtt_header_zero, mqtt_header_parsed, mqtt_header_answer, mqtt_header_held, mqtt_header_bytes, mqtt_header_room, mqtt_header_failed};
ghost use Rattle.protocols_c.specs.Shared.{PacksInto};
ghost use Rattle.protocols.specs.MqttHeader.{mqtt_header_decoder, mqtt_header_size, mqtt_header_bits, Fits};
ghost use Rattle.protocols.specs.declared.mqtt_header.MqttHeader.{MqttHeader};
ghost use Rattle.std.specs.Prelude.{◌≡◌, ◌≤◌, ◌↔◌, Ok, IsTrue, IsSomeAnd, length, take};
ghost use Rattle.bitstream_io.specs.Callers.{High, bits};

use crate::shared::{Packed, refused, write_first};
use crate::status::reader_status;
use bitstream_io::{BE, BitReader, BitsWritten};
use protocols::mqtt_header::{MqttError, MqttHeader, Packet};

/// `struct mqtt_header` of C.
#[repr(C)]
#[derive(Clone, Copy)]
pub struct MqttHeaderC {
    /// The kind of the packet. A number of `packet`.
    pub kind: u8,
    /// True if the packet was sent before, if it is `Publish`.
    pub again: u8,
    /// The quality of service, if the packet is `Publish`. Below 2^2.
    pub quality: u8,
    /// True if the server is to keep the message, if the packet is `Publish`.
    pub retain: u8,
    /// The number of bytes that follow.
    pub remaining: u32,
}

/// The result of a parse.
#[repr(C)]
#[derive(Clone, Copy)]
pub struct MqttHeaderParsed {
    /// The status.
    pub status: i32,
    /// The number of bytes that were taken, or of the items of a list without room for them.
    pub taken: usize,
    /// The fields, if the status is 0.
    pub value: MqttHeaderC,
}

impl MqttHeaderC {
    /// Returns the struct of C with these fields.
    #[inline(always)]
    pub(crate) fn new(value: &MqttHeader) -> MqttHeaderC
        ensures { result ≡ mqtt_header_to_c value.now }
    {
        MqttHeaderC {
            kind: value.kind.number(),
            again: value.again as u8,
            quality: value.quality,
            retain: value.retain as u8,
            remaining: value.remaining,
        }
    }

    /// Returns the fields, or `None` if a number of C is not a value of its field.
    #[inline(always)]
    pub(crate) fn fields(&self) -> Option<MqttHeader>
        ensures { result ≡ mqtt_header_from_c self.now }
    {
        let Ok(kind) = Packet::of(self.kind) else {
            return None;
        };
        Some(MqttHeader {
            kind,
            again: self.again != 0,
            quality: self.quality,
            retain: self.retain != 0,
            remaining: self.remaining,
        })
    }
}

/// Returns the struct of C after an error.
#[inline(always)]
pub(crate) fn zero() -> MqttHeaderC
    ensures { result ≡ mqtt_header_zero }
{
    MqttHeaderC {
        kind: 0,
        again: 0,
        quality: 0,
        retain: 0,
        remaining: 0,
    }
}

/// Returns true if each field fits its bits.
#[inline(always)]
pub(crate) fn is_fit(value: &MqttHeader) -> bool
    ensures { IsTrue result ↔ Fits value.now }
{
    value.quality <= 3 && value.remaining <= 4294967295
}

/// Returns the result of a parse for C, after a read that took `taken` bytes.
#[inline(always)]
fn parsed(answer: Result<MqttHeader, MqttError>, taken: usize) -> MqttHeaderParsed
    ensures { result ≡ mqtt_header_parsed taken answer }
{
    match answer {
        Ok(value) => MqttHeaderParsed {
            status: 0,
            taken,
            value: MqttHeaderC::new(&value),
        },
        Err(MqttError::Reader(error)) => failed(reader_status(&error)),
        Err(MqttError::NoPacket) => failed(6),
    }
}

/// Returns the result of a parse that failed.
#[inline(always)]
fn failed(status: i32) -> MqttHeaderParsed
    ensures { result ≡ mqtt_header_failed status }
{
    MqttHeaderParsed {
        status,
        taken: 0,
        value: zero(),
    }
}

/// Parses the fields at the start of `bytes`.
#[unsafe(no_mangle)]
pub extern "C" fn proved_mqtt_header_parse(bytes: &[u8]) -> MqttHeaderParsed
    ensures answer { result ≡ mqtt_header_answer ((mqtt_header_decoder High).reads 0 (bits High bytes.now)) }
    ensures within { result.taken ≤ length bytes.now }
    ensures round_trip { (value : MqttHeader) → Fits value → bits High (take (mqtt_header_bytes value) bytes.now) ≡ mqtt_header_bits value
        → result ≡ mqtt_header_parsed (mqtt_header_bytes value) (Ok value) }
{
    let mut reader = BitReader::<_, BE>::over(bytes);
    let answer = MqttHeader::read(&mut reader);
    let taken = bytes.len().saturating_sub(reader.rest().len());
    parsed(answer, taken)
}

/// Returns the number of bits of fields that fit.
fn size(fields: &MqttHeader) -> u64
    requires { Fits fields.now }
    ensures { result ≡ mqtt_header_size High fields.now }
{
    let mut counter = BitsWritten::<u64>::new();
    match fields.write(&mut counter) {
        Ok(()) => counter.into_written(),
        Err(_) => unreachable!(),
    }
}

/// Writes the fields to the first bytes of a buffer.
fn put(fields: &MqttHeader, buffer: &mut [u8]) -> Packed
    ensures { PacksInto (Fits fields.now) High (mqtt_header_bytes fields.now) (mqtt_header_bits fields.now) buffer.old result buffer.new }
{
    if !is_fit(fields) {
        return refused(3);
    }
    let written = size(fields).div_ceil(8);
    if written > buffer.len() as u64 {
        return refused(2);
    }
    write_first::<BE, MqttHeader>(fields, buffer);
    Packed {
        status: 0,
        written: written as usize,
    }
}

/// Writes the fields to the first bytes of a buffer.
#[unsafe(no_mangle)]
pub extern "C" fn proved_mqtt_header_pack(value: &MqttHeaderC, buffer: &mut [u8]) -> Packed
    ensures { PacksInto (IsSomeAnd (mqtt_header_from_c value.now) Fits) High (mqtt_header_room (mqtt_header_from_c value.now)) (mqtt_header_held (mqtt_header_from_c value.now)) buffer.old result buffer.new }
{
    match value.fields() {
        Some(fields) => put(&fields, buffer),
        None => refused(3),
    }
}
