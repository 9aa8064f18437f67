//! Made by `./format --c` from ../protocols/formats/coap_header.fields: edit that file and make this one anew.
//!
//! `CoapHeader` for C.
ghost use Rattle.protocols_c.specs.CoapHeader.{coap_header_to_c, coap_header_from_c, coap_header_zero, coap_header_parsed, coap_header_answer, coap_header_held, coap_header_bytes, coap_header_room, coap_header_message_from, coap_header_of, coap_header_short, CoapHeaderRead};
ghost use Rattle.protocols_c.specs.Lists.{ReadsInto, stored};
ghost use Rattle.protocols_c.specs.Shared.{PacksInto};
ghost use Rattle.protocols.specs.CoapHeader.{coap_header_decoder, coap_header_writes, coap_header_size, coap_header_bits, Fits};
ghost use Rattle.protocols.specs.declared.coap_header.CoapHeader.{CoapHeader};
ghost use Rattle.std.specs.Prelude.{◌≡◌, ◌<◌, ◌++◌, ◌∷◌, [], ◌↔◌, ℕ, List, Ok, IsTrue, IsSomeAnd, All, length, take, option_map};
ghost use Rattle.bitstream_io.specs.Codec.{Done};
ghost use Rattle.bitstream_io.specs.Callers.{High, bits, vec_decoder, WritesAll, same_error};

use crate::shared::{Packed, refused, write_first};
use bitstream_io::{
    BE, BitRead, BitReadExt, BitReader, BitWrite, BitWriteExt, Bits, BitsWritten, Error,
    ToBitStream,
};
use protocols::coap_header::{CoapError, Message};

/// `struct coap_header` of C.
#[repr(C)]
#[derive(Clone, Copy)]
pub struct CoapHeaderC {
    /// The kind of the message. A number of `message`.
    pub kind: u8,
    /// The class of the code: a request, or how it went. Below 2^3.
    pub class: u8,
    /// The method of a request, or the detail of a response. Below 2^5.
    pub detail: u8,
    /// The number that an acknowledgement shares with its message.
    pub id: u16,
    /// The number of items of `token`.
    pub token: usize,
}

/// The result of a parse.
#[repr(C)]
#[derive(Clone, Copy)]
pub struct CoapHeaderParsed {
    /// The status.
    pub status: i32,
    /// The number of bytes that were taken, or of the items of a list without room for them.
    pub taken: usize,
    /// The fields, if the status is 0.
    pub value: CoapHeaderC,
}

/// The fields, whose lists the caller has.
#[derive(Clone, Copy)]
pub(crate) struct CoapHeaderGiven<'a> {
    kind: Message,
    class: u8,
    detail: u8,
    id: u16,
    token: &'a [u8],
}

impl CoapHeaderC {
    /// Returns the fields with these lists, or `None` if a number of C is no value of its field.
    fn fields<'a>(&self, token_items: &'a [u8]) -> Option<CoapHeaderGiven<'a>>
        ensures { option_map coap_header_of result ≡ coap_header_from_c self.now token_items.now }
    {
        let Some(kind) = message_from(self.kind) else {
            return None;
        };
        Some(CoapHeaderGiven {
            kind,
            class: self.class,
            detail: self.detail,
            id: self.id,
            token: token_items,
        })
    }
}

/// Returns the struct of C after an error.
#[inline(always)]
pub(crate) fn zero() -> CoapHeaderC
    ensures { result ≡ coap_header_zero }
{
    CoapHeaderC {
        kind: 0,
        class: 0,
        detail: 0,
        id: 0,
        token: 0,
    }
}

/// Returns the case of a number, or `None` for a number of more than 2 bits.
fn message_from(number: u8) -> Option<Message>
    ensures { result ≡ coap_header_message_from number }
{
    if number > 3 {
        return None;
    }
    Some(Message::of(number))
}

/// Returns true if each item fits its bits.
fn all_bytes(items: &[u8]) -> bool
    ensures { IsTrue result ↔ All (λ b. b < 256) items.now }
{
    items.iter().all(|x| u16::from(*x) < 256)
}

/// Returns true if each field fits its bits.
#[inline(always)]
pub(crate) fn is_fit(value: &CoapHeaderGiven) -> bool
    ensures { IsTrue result ↔ Fits (coap_header_of value.now) }
{
    value.class <= 7
        && value.detail <= 31
        && value.id <= 65535
        && value.token.len() <= 15
        && all_bytes(value.token)
}

/// Puts an item that was read into its place, if there is room for it.
fn keep_u8(items: &mut [u8], place: u64, item: u8)
    ensures { (all was : List ℕ) → length all ≡ place → items.old ≡ stored all was
        → items.new ≡ stored (all ++ item ∷ []) was }
{
    if place >= items.len() as u64 {
        return;
    }
    items[place as usize] = item;
}

/// Reads `count` items of `token`, and keeps those for which there is room.
fn read_token<R: BitRead>(reader: &mut R, items: &mut [u8], count: u64) -> Result<(), Error>
    ensures { ReadsInto R.source (vec_decoder R.source.order count) count
        reader.old items.old result reader.new items.new }
{
    let _: u8 = reader.read_unsigned_var(0)?;
    for place in 0..count {
        let item = reader.read::<Bits<8>, u8>()?;
        keep_u8(items, place, item);
    }
    Ok(())
}

/// Reads the fields, and keeps the items of lists for which there is room.
fn read<R: BitRead>(reader: &mut R, token_items: &mut [u8]) -> Result<CoapHeaderC, CoapError>
    ensures { CoapHeaderRead R.source reader.old token_items.old result reader.new token_items.new }
{
    reader.read_const::<Bits<2>, Bits<1>, CoapError>(CoapError::OtherVersion)?;
    let kind = Message::read(reader)?;
    let token_count = reader.read::<Bits<4>, u64>()?;
    let class = reader.read::<Bits<3>, u8>()?;
    let detail = reader.read::<Bits<5>, u8>()?;
    let id = reader.read::<Bits<16>, u16>()?;
    read_token(reader, token_items, token_count)?;
    Ok(CoapHeaderC {
        kind: kind.number(),
        class: class,
        detail: detail,
        id: id,
        token: token_count as usize,
    })
}

/// Returns the result of a parse for C, after a read that took `taken` bytes, with some room for the items of each list.
fn parsed(
    answer: Result<CoapHeaderC, CoapError>,
    taken: usize,
    token_room: usize,
) -> CoapHeaderParsed
    ensures { result ≡ coap_header_parsed taken token_room answer }
{
    match answer {
        Ok(value) => {
            if token_room < value.token {
                return short(5, value.token);
            }
            CoapHeaderParsed {
                status: 0,
                taken,
                value,
            }
        }
        Err(CoapError::Reader(_)) => short(1, 0),
        Err(CoapError::OtherVersion) => short(6, 0),
    }
}

/// Returns the result of a parse that failed, with the number of items of a list without room for them.
fn short(status: i32, items: usize) -> CoapHeaderParsed
    ensures { result ≡ coap_header_short status items }
{
    CoapHeaderParsed {
        status,
        taken: items,
        value: zero(),
    }
}

/// Parses the fields at the start of `bytes`, and the items of lists into storage of the caller.
#[unsafe(no_mangle)]
pub extern "C" fn proved_coap_header_parse(bytes: &[u8], token_items: &mut [u8]) -> CoapHeaderParsed
    ensures answer { result ≡ coap_header_answer (length token_items.old) ((coap_header_decoder High).reads 0 (bits High bytes.now)) }
    ensures token_items { (n : ℕ) (value : CoapHeader) → (coap_header_decoder High).reads 0 (bits High bytes.now) ≡ Done n (Ok (Ok value))
        → token_items.new ≡ stored value.token token_items.old }
    ensures round_trip { (value : CoapHeader) → Fits value → bits High (take (coap_header_bytes value) bytes.now) ≡ coap_header_bits value
        → result ≡ coap_header_parsed (coap_header_bytes value) (length token_items.old) (Ok (coap_header_to_c value)) }
{
    let mut reader = BitReader::<_, BE>::over(bytes);
    let token_room = token_items.len();
    let answer = read(&mut reader, token_items);
    let taken = bytes.len().saturating_sub(reader.rest().len());
    parsed(answer, taken, token_room)
}

impl CoapHeaderGiven<'_> {
    /// Writes the fields in order.
    fn write<W: BitWrite>(&self, writer: &mut W) -> Result<(), Error>
        ensures { WritesAll W.sink (coap_header_writes W.sink.order (coap_header_of self.now)) writer.old result writer.new }
    {
        writer.write_const::<Bits<2>, Bits<1>>()?;
        writer.write::<Bits<2>, u8>(self.kind.number())?;
        writer.write::<Bits<4>, u64>(self.token.len() as u64)?;
        writer.write::<Bits<3>, u8>(self.class)?;
        writer.write::<Bits<5>, u8>(self.detail)?;
        writer.write::<Bits<16>, u16>(self.id)?;
        writer.write_bytes(self.token)?;
        Ok(())
    }
}

impl ToBitStream for CoapHeaderGiven<'_> {
    type Error = Error;

    ghost becomes = { same_error };

    ghost writes = { λ o value. coap_header_writes o (coap_header_of value) };

    fn to_writer<W: BitWrite>(&self, writer: &mut W) -> Result<(), Error> {
        self.write(writer)
    }
}

/// Returns the number of bits of fields that fit.
fn size(fields: &CoapHeaderGiven) -> u64
    requires { Fits (coap_header_of fields.now) }
    ensures { result ≡ coap_header_size High (coap_header_of fields.now) }
{
    let mut counter = BitsWritten::<u64>::new();
    match fields.write(&mut counter) {
        Ok(()) => counter.into_written(),
        Err(_) => unreachable!(),
    }
}

/// Writes the fields to the first bytes of a buffer.
fn put(fields: &CoapHeaderGiven, buffer: &mut [u8]) -> Packed
    ensures { PacksInto (Fits (coap_header_of fields.now)) High (coap_header_bytes (coap_header_of fields.now)) (coap_header_bits (coap_header_of fields.now)) buffer.old result buffer.new }
{
    if !is_fit(fields) {
        return refused(3);
    }
    let written = size(fields).div_ceil(8);
    if written > buffer.len() as u64 {
        return refused(2);
    }
    write_first::<BE, CoapHeaderGiven>(fields, buffer);
    Packed {
        status: 0,
        written: written as usize,
    }
}

/// Writes the fields to the first bytes of a buffer.
#[unsafe(no_mangle)]
pub extern "C" fn proved_coap_header_pack(
    value: &CoapHeaderC,
    token_items: &[u8],
    buffer: &mut [u8],
) -> Packed
    ensures { PacksInto (IsSomeAnd (coap_header_from_c value.now token_items.now) Fits) High (coap_header_room (coap_header_from_c value.now token_items.now)) (coap_header_held (coap_header_from_c value.now token_items.now)) buffer.old result buffer.new }
{
    match value.fields(token_items) {
        Some(fields) => put(&fields, buffer),
        None => refused(3),
    }
}
