//! Made by `./format --c` from ../network_messages/formats/icmp_message.fields: edit that file and make this one anew.
//!
//! `IcmpMessage` for C.
ghost use Rattle.network_messages_c.specs.IcmpMessage.{icmp_message_from_c, icmp_message_zero, icmp_message_answer, icmp_message_held, icmp_message_bytes, icmp_message_room, icmp_message_packable, icmp_message_of, icmp_message_short, IcmpMessageRead, IcmpMessageStored, icmp_message_unsummed_decoder, icmp_message_tested, icmp_message_within, icmp_message_summed};
ghost use Rattle.network_messages_c.specs.Lists.{ReadsInto, stored};
ghost use Rattle.network_messages_c.specs.Sums.{tested};
ghost use Rattle.network_messages_c.specs.Shared.{PacksInto};
ghost use Rattle.network_messages.specs.IcmpMessage.{icmp_message_decoder, icmp_message_writes, icmp_message_size, icmp_message_bits, Fits};
ghost use Rattle.network_messages.specs.declared.icmp_message.IcmpMessage.{IcmpMessage};
ghost use Rattle.std.specs.Prelude.{◌≡◌, ◌<◌, ◌-◌, ◌++◌, ◌∷◌, [], ◌↔◌, ℕ, List, Ok, IsTrue, IsSomeAnd, All, length, option_map};
ghost use Rattle.bitstream_io.specs.Codec.{Done};
ghost use Rattle.bitstream_io.specs.Callers.{High, bits, vec_decoder, WritesAll, same_error};
ghost use Rattle.bitstream_format.specs.Checks.{bytes1, bytes2, sum16};

use crate::shared::{Packed, refused, write_first};
use bitstream_format::checks::{octets_of_u8, octets_of_u16, sum16_more};
use bitstream_format::rest::rest_of;
use bitstream_io::{
    BE, BitRead, BitReadExt, BitReader, BitWrite, BitWriteExt, Bits, BitsWritten, Error,
    ToBitStream,
};
use network_messages::icmp_message::{Echo, IcmpMessageError};

/// `struct icmp_message` of C.
#[repr(C)]
#[derive(Clone, Copy)]
pub struct IcmpMessageC {
    /// The message. A number of `echo`.
    pub kind: u8,
    /// The code, which is 0.
    pub code: u8,
    /// Which program asks.
    pub identifier: u16,
    /// The number of the message.
    pub sequence: u16,
    /// The number of items of `data`.
    pub data: usize,
}

/// The result of a parse.
#[repr(C)]
#[derive(Clone, Copy)]
pub struct IcmpMessageParsed {
    /// The status.
    pub status: i32,
    /// The number of bytes that were taken, or of the items of a list without room for them.
    pub taken: usize,
    /// The fields, if the status is 0.
    pub value: IcmpMessageC,
}

/// The fields, whose lists the caller has.
#[derive(Clone, Copy)]
pub(crate) struct IcmpMessageGiven<'a> {
    kind: Echo,
    code: u8,
    identifier: u16,
    sequence: u16,
    data: &'a [u8],
}

impl IcmpMessageC {
    /// Returns the fields with these lists, or `None` if a number of C is no value of its field.
    fn fields<'a>(&self, data_items: &'a [u8]) -> Option<IcmpMessageGiven<'a>>
        ensures { option_map icmp_message_of result ≡ icmp_message_from_c self.now data_items.now }
    {
        let Ok(kind) = Echo::of(self.kind) else {
            return None;
        };
        Some(IcmpMessageGiven {
            kind,
            code: self.code,
            identifier: self.identifier,
            sequence: self.sequence,
            data: data_items,
        })
    }
}

/// Returns the struct of C after an error.
#[inline(always)]
pub(crate) fn zero() -> IcmpMessageC
    ensures { result ≡ icmp_message_zero }
{
    IcmpMessageC {
        kind: 0,
        code: 0,
        identifier: 0,
        sequence: 0,
        data: 0,
    }
}

/// Returns true if each item fits its bits.
fn all_bytes(items: &[u8]) -> bool
    ensures { IsTrue result ↔ All (λ b. b < 256) items.now }
{
    items.iter().all(|x| u16::from(*x) < 256)
}

/// Returns true if each field fits its bits.
#[inline(always)]
pub(crate) fn is_fit(value: &IcmpMessageGiven) -> bool
    ensures { IsTrue result ↔ Fits (icmp_message_of value.now) }
{
    value.code <= 255
        && value.identifier <= 65535
        && value.sequence <= 65535
        && all_bytes(value.data)
}

/// Puts an item that was read into its place, if there is room for it.
fn keep_u8(items: &mut [u8], place: u64, item: u8)
    ensures { (all was : List ℕ) → length all ≡ place → items.old ≡ stored all was
        → items.new ≡ stored (all ++ item ∷ []) was }
{
    if place >= items.len() as u64 {
        return;
    }
    items[place as usize] = item;
}

/// Reads `count` items of `data`, and keeps those for which there is room.
fn read_data<R: BitRead>(reader: &mut R, items: &mut [u8], count: u64) -> Result<(), Error>
    ensures { ReadsInto R.source (vec_decoder R.source.order count) count
        reader.old items.old result reader.new items.new }
{
    let _: u8 = reader.read_unsigned_var(0)?;
    for place in 0..count {
        let item = reader.read::<Bits<8>, u8>()?;
        keep_u8(items, place, item);
    }
    Ok(())
}

/// What a read found: the checksum as it was stored, the fields, and the numbers of the items of lists.
#[derive(Clone, Copy)]
struct IcmpMessageFound {
    stored_sum16: u16,
    kind: Echo,
    code: u8,
    identifier: u16,
    sequence: u16,
    data: usize,
}

/// Reads the fields and the checksum, and keeps the items of lists for which there is room.
fn read<R: BitRead>(
    reader: &mut R,
    data_items: &mut [u8],
    data_bytes: u64,
) -> Result<IcmpMessageFound, IcmpMessageError>
    ensures { IcmpMessageRead R.source data_bytes reader.old data_items.old result reader.new data_items.new }
{
    let kind = Echo::read(reader)?;
    let code = reader.read::<Bits<8>, u8>()?;
    let stored_sum16 = reader.read::<Bits<16>, u16>()?;
    let identifier = reader.read::<Bits<16>, u16>()?;
    let sequence = reader.read::<Bits<16>, u16>()?;
    read_data(reader, data_items, data_bytes)?;
    Ok(IcmpMessageFound {
        stored_sum16: stored_sum16,
        kind: kind,
        code: code,
        identifier: identifier,
        sequence: sequence,
        data: data_bytes as usize,
    })
}

/// Returns the result of a parse for C, after a read that took `taken` bytes and left these items of lists.
fn parsed(
    answer: Result<IcmpMessageFound, IcmpMessageError>,
    taken: usize,
    data_items: &[u8],
) -> IcmpMessageParsed
    ensures { result ≡ icmp_message_summed taken data_items.now answer }
{
    match answer {
        Ok(found) => {
            if data_items.len() < found.data {
                return short(5, found.data);
            }
            let value = IcmpMessageGiven {
                kind: found.kind,
                code: found.code,
                identifier: found.identifier,
                sequence: found.sequence,
                data: &data_items[..found.data],
            };
            let is_sum16 = found.stored_sum16
                == sum16_of(
                    value.kind.number(),
                    value.code,
                    value.identifier,
                    value.sequence,
                    value.data,
                );
            if !is_sum16 {
                return short(7, 0);
            }
            IcmpMessageParsed {
                status: 0,
                taken,
                value: IcmpMessageC {
                    kind: value.kind.number(),
                    code: value.code,
                    identifier: value.identifier,
                    sequence: value.sequence,
                    data: value.data.len(),
                },
            }
        }
        Err(IcmpMessageError::Reader(_)) => short(1, 0),
        Err(IcmpMessageError::NoEcho) => short(6, 0),
        Err(IcmpMessageError::WrongSum) => short(7, 0),
    }
}

/// Returns the result of a parse that failed, with the number of items of a list without room for them.
fn short(status: i32, items: usize) -> IcmpMessageParsed
    ensures { result ≡ icmp_message_short status items }
{
    IcmpMessageParsed {
        status,
        taken: items,
        value: zero(),
    }
}

/// Parses `bytes` as the fields, and the items of lists into storage of the caller.
#[unsafe(no_mangle)]
pub extern "C" fn proved_icmp_message_parse(
    bytes: &[u8],
    data_items: &mut [u8],
) -> IcmpMessageParsed
    ensures answer { result ≡ icmp_message_answer (length data_items.old) ((icmp_message_unsummed_decoder High (length bytes.now - 8)).reads 0 (bits High bytes.now)) }
    ensures tested { (icmp_message_decoder High (length bytes.now - 8)).reads 0 (bits High bytes.now) ≡ tested icmp_message_tested ((icmp_message_unsummed_decoder High (length bytes.now - 8)).reads 0 (bits High bytes.now)) }
    ensures data_items { (n : ℕ) (it : IcmpMessageStored)
        → (icmp_message_unsummed_decoder High (length bytes.now - 8)).reads 0 (bits High bytes.now) ≡ Done n (Ok (Ok it))
        → data_items.new ≡ stored it.value.data data_items.old }
    ensures round_trip { (value : IcmpMessage)
        → Fits value
        → bits High bytes.now ≡ icmp_message_bits value
        → result ≡ icmp_message_within (icmp_message_bytes value) (length data_items.old) value (Ok value) }
{
    let mut reader = BitReader::<_, BE>::over(bytes);
    let data_bytes = rest_of(bytes, 8);
    let answer = read(&mut reader, data_items, data_bytes);
    let taken = bytes.len().saturating_sub(reader.rest().len());
    parsed(answer, taken, data_items)
}

/// Returns the checksum of these numbers and bytes, in order.
fn sum16_of(number_1: u8, number_2: u8, number_3: u16, number_4: u16, bytes_5: &[u8]) -> u16
    ensures { result ≡ sum16 (bytes1 number_1 ++ bytes1 number_2 ++ bytes2 number_3 ++ bytes2 number_4 ++ bytes_5.now) }
{
    let octets_1 = octets_of_u8(number_1);
    let state_1 = sum16_more(0, 0, &octets_1);
    let octets_2 = octets_of_u8(number_2);
    let state_2 = sum16_more(state_1, 1, &octets_2);
    let octets_3 = octets_of_u16(number_3);
    let state_3 = sum16_more(state_2, 2, &octets_3);
    let octets_4 = octets_of_u16(number_4);
    let state_4 = sum16_more(state_3, 4, &octets_4);
    let state_5 = sum16_more(state_4, 6, bytes_5);
    65535 - state_5
}

impl IcmpMessageGiven<'_> {
    /// Writes the fields in order.
    fn write<W: BitWrite>(&self, writer: &mut W) -> Result<(), Error>
        ensures { WritesAll W.sink (icmp_message_writes W.sink.order (icmp_message_of self.now)) writer.old result writer.new }
    {
        writer.write::<Bits<8>, u8>(self.kind.number())?;
        writer.write::<Bits<8>, u8>(self.code)?;
        writer.write::<Bits<16>, u16>(sum16_of(
            self.kind.number(),
            self.code,
            self.identifier,
            self.sequence,
            self.data,
        ))?;
        writer.write::<Bits<16>, u16>(self.identifier)?;
        writer.write::<Bits<16>, u16>(self.sequence)?;
        writer.write_bytes(self.data)?;
        Ok(())
    }
}

impl ToBitStream for IcmpMessageGiven<'_> {
    type Error = Error;

    ghost becomes = { same_error };

    ghost writes = { λ o value. icmp_message_writes o (icmp_message_of value) };

    fn to_writer<W: BitWrite>(&self, writer: &mut W) -> Result<(), Error> {
        self.write(writer)
    }
}

/// Returns the number of bits of fields that fit.
fn size(fields: &IcmpMessageGiven) -> u64
    requires { icmp_message_packable (icmp_message_of fields.now) }
    ensures { result ≡ icmp_message_size High (icmp_message_of fields.now) }
{
    let mut counter = BitsWritten::<u64>::new();
    match fields.write(&mut counter) {
        Ok(()) => counter.into_written(),
        Err(_) => unreachable!(),
    }
}

/// Writes the fields to the first bytes of a buffer.
fn put(fields: &IcmpMessageGiven, buffer: &mut [u8]) -> Packed
    ensures { PacksInto (icmp_message_packable (icmp_message_of fields.now)) High (icmp_message_bytes (icmp_message_of fields.now)) (icmp_message_bits (icmp_message_of fields.now)) buffer.old result buffer.new }
{
    if !is_fit(fields) {
        return refused(3);
    }
    if fields.data.len() > 4294967295 {
        return refused(3);
    }
    let written = size(fields).div_ceil(8);
    if written > buffer.len() as u64 {
        return refused(2);
    }
    write_first::<BE, IcmpMessageGiven>(fields, buffer);
    Packed {
        status: 0,
        written: written as usize,
    }
}

/// Writes the fields to the first bytes of a buffer.
#[unsafe(no_mangle)]
pub extern "C" fn proved_icmp_message_pack(
    value: &IcmpMessageC,
    data_items: &[u8],
    buffer: &mut [u8],
) -> Packed
    ensures { PacksInto (IsSomeAnd (icmp_message_from_c value.now data_items.now) icmp_message_packable) High (icmp_message_room (icmp_message_from_c value.now data_items.now)) (icmp_message_held (icmp_message_from_c value.now data_items.now)) buffer.old result buffer.new }
{
    match value.fields(data_items) {
        Some(fields) => put(&fields, buffer),
        None => refused(3),
    }
}
