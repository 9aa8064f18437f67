//! Made by `./format --c` from ../network_messages/formats/udp_datagram.fields: edit that file and make this one anew.
//!
//! `UdpDatagram` for C.
ghost use Rattle.network_messages_c.specs.UdpDatagram.{udp_datagram_from_c, udp_datagram_zero, udp_datagram_answer, udp_datagram_held, udp_datagram_bytes, udp_datagram_room, udp_datagram_failed, udp_datagram_of, udp_datagram_short, UdpDatagramRead, UdpDatagramStored, udp_datagram_unsummed_decoder, udp_datagram_tested, udp_datagram_within, udp_datagram_summed};
ghost use Rattle.network_messages_c.specs.Lists.{ReadsInto, ReadsStated, stored};
ghost use Rattle.network_messages_c.specs.Sums.{tested};
ghost use Rattle.network_messages_c.specs.Shared.{PacksInto};
ghost use Rattle.network_messages_c.specs.Ipv4Pseudo.{ipv4_pseudo_from_c};
ghost use Rattle.network_messages.specs.UdpDatagram.{udp_datagram_decoder, udp_datagram_writes, udp_datagram_size, udp_datagram_bits, Fits, becomes_udp_datagram, sum16_udp_sum, sum16_udp_writes, data_stated};
ghost use Rattle.network_messages.specs.declared.udp_datagram.UdpDatagram.{UdpDatagram};
ghost use Rattle.network_messages.specs.declared.ipv4_pseudo.Ipv4Pseudo.{Ipv4Pseudo};
ghost use Rattle.std.specs.Prelude.{◌≡◌, ◌<◌, ◌++◌, ◌∷◌, [], ◌↔◌, ℕ, List, Ok, Some, None, IsTrue, IsSomeAnd, All, length, take, pos, option_map};
ghost use Rattle.bitstream_io.specs.Codec.{Done};
ghost use Rattle.bitstream_io.specs.Callers.{High, bits, vec_decoder, WritesAll, same_error};

use crate::ipv4_pseudo::{self, Ipv4PseudoC};
use crate::shared::{Packed, refused, write_first};
use bitstream_format::checksums::Sum16Udp;
use bitstream_format::stated::{stated_size, stored_size};
use bitstream_format::summed::{sum_of, summing_writer};
use bitstream_io::{
    BE, BitRead, BitReadExt, BitReader, BitWrite, BitWriteExt, Bits, BitsWritten, Error,
    ToBitStream,
};
use network_messages::ipv4_pseudo::Ipv4Pseudo;
use network_messages::udp_datagram::UdpDatagramError;

/// `struct udp_datagram` of C.
#[repr(C)]
#[derive(Clone, Copy)]
pub struct UdpDatagramC {
    /// The fields of the header of IPv4 that the checksum covers.
    pub pseudo: Ipv4PseudoC,
    /// The port of the sender.
    pub source: u16,
    /// The port of the receiver.
    pub target: u16,
    /// The number of items of `data`.
    pub data: usize,
}

/// The result of a parse.
#[repr(C)]
#[derive(Clone, Copy)]
pub struct UdpDatagramParsed {
    /// The status.
    pub status: i32,
    /// The number of bytes that were taken, or of the items of a list without room for them.
    pub taken: usize,
    /// The fields, if the status is 0.
    pub value: UdpDatagramC,
}

/// The fields, whose lists the caller has.
#[derive(Clone, Copy)]
pub(crate) struct UdpDatagramGiven<'a> {
    pseudo: Ipv4Pseudo,
    source: u16,
    target: u16,
    data: &'a [u8],
}

impl UdpDatagramC {
    /// Returns the fields with these lists, or `None` if a number of C is no value of its field.
    fn fields<'a>(&self, data_items: &'a [u8]) -> Option<UdpDatagramGiven<'a>>
        ensures { option_map udp_datagram_of result ≡ udp_datagram_from_c self.now data_items.now }
    {
        let Some(pseudo) = self.pseudo.fields() else {
            return None;
        };
        Some(UdpDatagramGiven {
            pseudo,
            source: self.source,
            target: self.target,
            data: data_items,
        })
    }
}

/// Returns the struct of C after an error.
#[inline(always)]
pub(crate) fn zero() -> UdpDatagramC
    ensures { result ≡ udp_datagram_zero }
{
    UdpDatagramC {
        pseudo: ipv4_pseudo::zero(),
        source: 0,
        target: 0,
        data: 0,
    }
}

/// Returns true if each item fits its bits.
fn all_bytes(items: &[u8]) -> bool
    ensures { IsTrue result ↔ All (λ b. b < 256) items.now }
{
    items.iter().all(|x| u16::from(*x) < 256)
}

/// Returns true if each field fits its bits.
#[inline(always)]
pub(crate) fn is_fit(value: &UdpDatagramGiven) -> bool
    ensures { IsTrue result ↔ Fits (udp_datagram_of value.now) }
{
    value.source <= 65535
        && value.target <= 65535
        && stored_size(value.data.len() as u64, 1, 8, 0) <= 65535
        && all_bytes(value.data)
}

/// Puts an item that was read into its place, if there is room for it.
fn keep_u8(items: &mut [u8], place: u64, item: u8)
    ensures { (all was : List ℕ) → length all ≡ place → items.old ≡ stored all was
        → items.new ≡ stored (all ++ item ∷ []) was }
{
    if place >= items.len() as u64 {
        return;
    }
    items[place as usize] = item;
}

/// Reads `count` items of `data`, and keeps those for which there is room.
fn read_data<R: BitRead>(reader: &mut R, items: &mut [u8], count: u64) -> Result<(), Error>
    ensures { ReadsInto R.source (vec_decoder R.source.order count) count
        reader.old items.old result reader.new items.new }
{
    let _: u8 = reader.read_unsigned_var(0)?;
    for place in 0..count {
        let item = reader.read::<Bits<8>, u8>()?;
        keep_u8(items, place, item);
    }
    Ok(())
}

/// Reads `data`, whose size the number `stored` states, keeps the bytes for which there is room, and returns their
/// number.
fn read_stated_data<R: BitRead>(
    reader: &mut R,
    items: &mut [u8],
    stored: u64,
) -> Result<u64, UdpDatagramError>
    ensures { ReadsStated R.source becomes_udp_datagram (data_stated R.source.order stored)
        reader.old items.old result reader.new items.new }
{
    match stated_size(stored, 1, 8, 0) {
        Some(count) => {
            read_data(reader, items, count)?;
            Ok(count)
        }
        None => Err(UdpDatagramError::ShortLength),
    }
}

/// What a read found: the checksum as it was stored, the fields, and the numbers of the items of lists.
#[derive(Clone, Copy)]
struct UdpDatagramFound {
    stored_sum16_udp: u64,
    pseudo: Ipv4Pseudo,
    source: u16,
    target: u16,
    data: usize,
}

/// Reads the fields and the checksum, and keeps the items of lists for which there is room.
fn read<R: BitRead>(
    reader: &mut R,
    data_items: &mut [u8],
    pseudo: Ipv4Pseudo,
) -> Result<UdpDatagramFound, UdpDatagramError>
    ensures { UdpDatagramRead R.source pseudo reader.old data_items.old result reader.new data_items.new }
{
    let source = reader.read::<Bits<16>, u16>()?;
    let target = reader.read::<Bits<16>, u16>()?;
    let data_bytes = reader.read::<Bits<16>, u64>()?;
    let stored_sum16_udp = reader.read::<Bits<16>, u64>()?;
    let data_count = read_stated_data(reader, data_items, data_bytes)?;
    Ok(UdpDatagramFound {
        stored_sum16_udp: stored_sum16_udp,
        pseudo: pseudo,
        source: source,
        target: target,
        data: data_count as usize,
    })
}

/// Returns the result of a parse for C, after a read that took `taken` bytes and left these items of lists.
fn parsed(
    answer: Result<UdpDatagramFound, UdpDatagramError>,
    taken: usize,
    data_items: &[u8],
) -> UdpDatagramParsed
    ensures { result ≡ udp_datagram_summed taken data_items.now answer }
{
    match answer {
        Ok(found) => {
            if data_items.len() < found.data {
                return short(5, found.data);
            }
            let value = UdpDatagramGiven {
                pseudo: found.pseudo,
                source: found.source,
                target: found.target,
                data: &data_items[..found.data],
            };
            let is_sum16_udp = found.stored_sum16_udp == value.sum16_udp();
            if !is_sum16_udp {
                return short(7, 0);
            }
            UdpDatagramParsed {
                status: 0,
                taken,
                value: UdpDatagramC {
                    pseudo: Ipv4PseudoC::new(&value.pseudo),
                    source: value.source,
                    target: value.target,
                    data: value.data.len(),
                },
            }
        }
        Err(UdpDatagramError::Reader(_)) => short(1, 0),
        Err(UdpDatagramError::ShortLength) => short(6, 0),
        Err(UdpDatagramError::WrongSum) => short(7, 0),
    }
}

/// Returns the result of a parse that failed, with the number of items of a list without room for them.
fn short(status: i32, items: usize) -> UdpDatagramParsed
    ensures { result ≡ udp_datagram_short status items }
{
    UdpDatagramParsed {
        status,
        taken: items,
        value: zero(),
    }
}

/// Parses the fields at the start of `bytes`, and the items of lists into storage of the caller.
fn parse_given(bytes: &[u8], data_items: &mut [u8], pseudo: Ipv4Pseudo) -> UdpDatagramParsed
    ensures answer { result ≡ udp_datagram_answer (length data_items.old) ((udp_datagram_unsummed_decoder High pseudo).reads 0 (bits High bytes.now)) }
    ensures tested { (udp_datagram_decoder High pseudo).reads 0 (bits High bytes.now) ≡ tested udp_datagram_tested ((udp_datagram_unsummed_decoder High pseudo).reads 0 (bits High bytes.now)) }
    ensures data_items { (n : ℕ) (it : UdpDatagramStored)
        → (udp_datagram_unsummed_decoder High pseudo).reads 0 (bits High bytes.now) ≡ Done n (Ok (Ok it))
        → data_items.new ≡ stored it.value.data data_items.old }
    ensures round_trip { (value : UdpDatagram)
        → Fits value
        → value.pseudo ≡ pseudo
        → bits High (take (udp_datagram_bytes value) bytes.now) ≡ udp_datagram_bits value
        → result ≡ udp_datagram_within (udp_datagram_bytes value) (length data_items.old) value (Ok value) }
{
    let mut reader = BitReader::<_, BE>::over(bytes);
    let answer = read(&mut reader, data_items, pseudo);
    let taken = bytes.len().saturating_sub(reader.rest().len());
    parsed(answer, taken, data_items)
}

/// Parses the fields at the start of `bytes`, and the items of lists into storage of the caller.
#[unsafe(no_mangle)]
pub extern "C" fn proved_udp_datagram_parse(
    bytes: &[u8],
    data_items: &mut [u8],
    pseudo: &Ipv4PseudoC,
) -> UdpDatagramParsed
    ensures misfit { ipv4_pseudo_from_c pseudo.now ≡ None → (result ≡ udp_datagram_failed (pos 3)) × (data_items.new ≡ data_items.old) }
    ensures answer { (given : Ipv4Pseudo)
        → ipv4_pseudo_from_c pseudo.now ≡ Some given
        → result ≡ udp_datagram_answer (length data_items.old) ((udp_datagram_unsummed_decoder High given).reads 0 (bits High bytes.now)) }
    ensures tested { (given : Ipv4Pseudo)
        → ipv4_pseudo_from_c pseudo.now ≡ Some given
        → (udp_datagram_decoder High given).reads 0 (bits High bytes.now) ≡ tested udp_datagram_tested ((udp_datagram_unsummed_decoder High given).reads 0 (bits High bytes.now)) }
    ensures data_items { (given : Ipv4Pseudo)
        → ipv4_pseudo_from_c pseudo.now ≡ Some given
        → (n : ℕ) (it : UdpDatagramStored)
        → (udp_datagram_unsummed_decoder High given).reads 0 (bits High bytes.now) ≡ Done n (Ok (Ok it))
        → data_items.new ≡ stored it.value.data data_items.old }
    ensures round_trip { (given : Ipv4Pseudo)
        → ipv4_pseudo_from_c pseudo.now ≡ Some given
        → (value : UdpDatagram)
        → Fits value
        → value.pseudo ≡ given
        → bits High (take (udp_datagram_bytes value) bytes.now) ≡ udp_datagram_bits value
        → result ≡ udp_datagram_within (udp_datagram_bytes value) (length data_items.old) value (Ok value) }
{
    match pseudo.fields() {
        Some(pseudo) => parse_given(bytes, data_items, pseudo),
        None => short(3, 0),
    }
}

impl UdpDatagramGiven<'_> {
    /// Returns the sum16-udp of its lines as they are written, or 0 if a field of theirs does not fit its bits.
    fn sum16_udp(&self) -> u64
        ensures { result ≡ sum16_udp_sum (udp_datagram_of self.now) }
    {
        let mut writer = summing_writer::<BE, Sum16Udp>();
        match self.write_for_sum16_udp(&mut writer) {
            Ok(()) => sum_of(writer),
            Err(_) => 0,
        }
    }

    /// Writes the lines that the sum16-udp covers.
    fn write_for_sum16_udp<W: BitWrite>(&self, writer: &mut W) -> Result<(), Error>
        ensures { WritesAll W.sink (sum16_udp_writes W.sink.order (udp_datagram_of self.now)) writer.old result writer.new }
    {
        self.pseudo.write(writer)?;
        writer.write::<Bits<16>, u16>(self.source)?;
        writer.write::<Bits<16>, u16>(self.target)?;
        writer.write::<Bits<16>, u64>(stored_size(self.data.len() as u64, 1, 8, 0))?;
        writer.pad(16)?;
        writer.write_bytes(self.data)?;
        Ok(())
    }
}

impl UdpDatagramGiven<'_> {
    /// Writes the fields in order.
    fn write<W: BitWrite>(&self, writer: &mut W) -> Result<(), Error>
        ensures { WritesAll W.sink (udp_datagram_writes W.sink.order (udp_datagram_of self.now)) writer.old result writer.new }
    {
        writer.write::<Bits<16>, u16>(self.source)?;
        writer.write::<Bits<16>, u16>(self.target)?;
        writer.write::<Bits<16>, u64>(stored_size(self.data.len() as u64, 1, 8, 0))?;
        writer.write::<Bits<16>, u64>(self.sum16_udp())?;
        writer.write_bytes(self.data)?;
        Ok(())
    }
}

impl ToBitStream for UdpDatagramGiven<'_> {
    type Error = Error;

    ghost becomes = { same_error };

    ghost writes = { λ o value. udp_datagram_writes o (udp_datagram_of value) };

    fn to_writer<W: BitWrite>(&self, writer: &mut W) -> Result<(), Error> {
        self.write(writer)
    }
}

/// Returns the number of bits of fields that fit.
fn size(fields: &UdpDatagramGiven) -> u64
    requires { Fits (udp_datagram_of fields.now) }
    ensures { result ≡ udp_datagram_size High (udp_datagram_of fields.now) }
{
    let mut counter = BitsWritten::<u64>::new();
    match fields.write(&mut counter) {
        Ok(()) => counter.into_written(),
        Err(_) => unreachable!(),
    }
}

/// Writes the fields to the first bytes of a buffer.
fn put(fields: &UdpDatagramGiven, buffer: &mut [u8]) -> Packed
    ensures { PacksInto (Fits (udp_datagram_of fields.now)) High (udp_datagram_bytes (udp_datagram_of fields.now)) (udp_datagram_bits (udp_datagram_of fields.now)) buffer.old result buffer.new }
{
    if !is_fit(fields) {
        return refused(3);
    }
    let written = size(fields).div_ceil(8);
    if written > buffer.len() as u64 {
        return refused(2);
    }
    write_first::<BE, UdpDatagramGiven>(fields, buffer);
    Packed {
        status: 0,
        written: written as usize,
    }
}

/// Writes the fields to the first bytes of a buffer.
#[unsafe(no_mangle)]
pub extern "C" fn proved_udp_datagram_pack(
    value: &UdpDatagramC,
    data_items: &[u8],
    buffer: &mut [u8],
) -> Packed
    ensures { PacksInto (IsSomeAnd (udp_datagram_from_c value.now data_items.now) Fits) High (udp_datagram_room (udp_datagram_from_c value.now data_items.now)) (udp_datagram_held (udp_datagram_from_c value.now data_items.now)) buffer.old result buffer.new }
{
    match value.fields(data_items) {
        Some(fields) => put(&fields, buffer),
        None => refused(3),
    }
}
