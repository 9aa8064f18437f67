//! Made by `./format --c` from ../network_messages/formats/ipv4_packet.fields: edit that file and make this one anew.
//!
//! `Ipv4Packet` for C.
ghost use Rattle.network_messages_c.specs.Ipv4Packet.{ipv4_packet_from_c, ipv4_packet_zero, ipv4_packet_answer, ipv4_packet_held, ipv4_packet_bytes, ipv4_packet_room, ipv4_packet_of, ipv4_packet_short, Ipv4PacketRead, Ipv4PacketStored, ipv4_packet_unsummed_decoder, ipv4_packet_tested, ipv4_packet_within, ipv4_packet_summed};
ghost use Rattle.network_messages_c.specs.Lists.{ReadsInto, ReadsStated, stored};
ghost use Rattle.network_messages_c.specs.Sums.{tested};
ghost use Rattle.network_messages_c.specs.Shared.{PacksInto};
ghost use Rattle.network_messages.specs.Ipv4Packet.{ipv4_packet_decoder, ipv4_packet_writes, ipv4_packet_size, ipv4_packet_bits, Fits, becomes_ipv4_packet, sum16_sum, sum16_writes, options_stated};
ghost use Rattle.network_messages.specs.declared.ipv4_packet.Ipv4Packet.{Ipv4Packet};
ghost use Rattle.std.specs.Prelude.{◌≡◌, ◌<◌, ◌++◌, ◌∷◌, [], ◌↔◌, ℕ, List, Ok, IsTrue, IsSomeAnd, All, length, take, option_map};
ghost use Rattle.bitstream_io.specs.Codec.{Done};
ghost use Rattle.bitstream_io.specs.Callers.{High, bits, vec_decoder, WritesAll, same_error};

use crate::shared::{Packed, refused, write_first};
use bitstream_format::checksums::Sum16;
use bitstream_format::stated::{stated_size, stored_size};
use bitstream_format::summed::{sum_of, summing_writer};
use bitstream_io::{
    BE, BitRead, BitReadExt, BitReader, BitWrite, BitWriteExt, Bits, BitsWritten, Error,
    ToBitStream,
};
use network_messages::ipv4_packet::Ipv4PacketError;

/// `struct ipv4_packet` of C.
#[repr(C)]
#[derive(Clone, Copy)]
pub struct Ipv4PacketC {
    /// The class of service, and the congestion mark.
    pub service: u8,
    /// The bytes of the packet, with this header.
    pub length: u16,
    /// The packet that a fragment belongs to.
    pub id: u16,
    /// True if the packet must not be fragmented.
    pub keep_whole: u8,
    /// True if more fragments follow.
    pub more: u8,
    /// The place of the fragment, in units of 8 bytes. Below 2^13.
    pub offset: u16,
    /// The number of routers that may still forward it.
    pub ttl: u8,
    /// The protocol of the payload.
    pub protocol: u8,
    /// The sender.
    pub source: [u8; 4],
    /// The receiver.
    pub target: [u8; 4],
    /// The number of items of `options`.
    pub options: usize,
}

/// The result of a parse.
#[repr(C)]
#[derive(Clone, Copy)]
pub struct Ipv4PacketParsed {
    /// The status.
    pub status: i32,
    /// The number of bytes that were taken, or of the items of a list without room for them.
    pub taken: usize,
    /// The fields, if the status is 0.
    pub value: Ipv4PacketC,
}

/// The fields, whose lists the caller has.
#[derive(Clone, Copy)]
pub(crate) struct Ipv4PacketGiven<'a> {
    service: u8,
    length: u16,
    id: u16,
    keep_whole: bool,
    more: bool,
    offset: u16,
    ttl: u8,
    protocol: u8,
    source: [u8; 4],
    target: [u8; 4],
    options: &'a [u8],
}

impl Ipv4PacketC {
    /// Returns the fields with these lists, or `None` if a number of C is no value of its field.
    fn fields<'a>(&self, options_items: &'a [u8]) -> Option<Ipv4PacketGiven<'a>>
        ensures { option_map ipv4_packet_of result ≡ ipv4_packet_from_c self.now options_items.now }
    {
        Some(Ipv4PacketGiven {
            service: self.service,
            length: self.length,
            id: self.id,
            keep_whole: self.keep_whole != 0,
            more: self.more != 0,
            offset: self.offset,
            ttl: self.ttl,
            protocol: self.protocol,
            source: self.source,
            target: self.target,
            options: options_items,
        })
    }
}

/// Returns the struct of C after an error.
#[inline(always)]
pub(crate) fn zero() -> Ipv4PacketC
    ensures { result ≡ ipv4_packet_zero }
{
    Ipv4PacketC {
        service: 0,
        length: 0,
        id: 0,
        keep_whole: 0,
        more: 0,
        offset: 0,
        ttl: 0,
        protocol: 0,
        source: [0; 4],
        target: [0; 4],
        options: 0,
    }
}

/// Returns true if each item fits its bits.
fn all_bytes(items: &[u8]) -> bool
    ensures { IsTrue result ↔ All (λ b. b < 256) items.now }
{
    items.iter().all(|x| u16::from(*x) < 256)
}

/// Returns true if each field fits its bits.
#[inline(always)]
pub(crate) fn is_fit(value: &Ipv4PacketGiven) -> bool
    ensures { IsTrue result ↔ Fits (ipv4_packet_of value.now) }
{
    value.service <= 255
        && value.length <= 65535
        && value.id <= 65535
        && value.offset <= 8191
        && value.ttl <= 255
        && value.protocol <= 255
        && all_bytes(&value.source)
        && all_bytes(&value.target)
        && stored_size(value.options.len() as u64, 4, 20, 0) <= 15
        && all_bytes(value.options)
}

/// Puts an item that was read into its place, if there is room for it.
fn keep_u8(items: &mut [u8], place: u64, item: u8)
    ensures { (all was : List ℕ) → length all ≡ place → items.old ≡ stored all was
        → items.new ≡ stored (all ++ item ∷ []) was }
{
    if place >= items.len() as u64 {
        return;
    }
    items[place as usize] = item;
}

/// Reads `count` items of `options`, and keeps those for which there is room.
fn read_options<R: BitRead>(reader: &mut R, items: &mut [u8], count: u64) -> Result<(), Error>
    ensures { ReadsInto R.source (vec_decoder R.source.order count) count
        reader.old items.old result reader.new items.new }
{
    let _: u8 = reader.read_unsigned_var(0)?;
    for place in 0..count {
        let item = reader.read::<Bits<8>, u8>()?;
        keep_u8(items, place, item);
    }
    Ok(())
}

/// Reads `options`, whose size the number `stored` states, keeps the bytes for which there is room, and returns their
/// number.
fn read_stated_options<R: BitRead>(
    reader: &mut R,
    items: &mut [u8],
    stored: u64,
) -> Result<u64, Ipv4PacketError>
    ensures { ReadsStated R.source becomes_ipv4_packet (options_stated R.source.order stored)
        reader.old items.old result reader.new items.new }
{
    match stated_size(stored, 4, 20, 0) {
        Some(count) => {
            read_options(reader, items, count)?;
            Ok(count)
        }
        None => Err(Ipv4PacketError::ShortHeader),
    }
}

/// What a read found: the checksum as it was stored, the fields, and the numbers of the items of lists.
#[derive(Clone, Copy)]
struct Ipv4PacketFound {
    stored_sum16: u64,
    service: u8,
    length: u16,
    id: u16,
    keep_whole: bool,
    more: bool,
    offset: u16,
    ttl: u8,
    protocol: u8,
    source: [u8; 4],
    target: [u8; 4],
    options: usize,
}

/// Reads the fields and the checksum, and keeps the items of lists for which there is room.
fn read<R: BitRead>(
    reader: &mut R,
    options_items: &mut [u8],
) -> Result<Ipv4PacketFound, Ipv4PacketError>
    ensures { Ipv4PacketRead R.source reader.old options_items.old result reader.new options_items.new }
{
    reader.read_const::<Bits<4>, Bits<4>, Ipv4PacketError>(Ipv4PacketError::OtherVersion)?;
    let options_bytes = reader.read::<Bits<4>, u64>()?;
    let service = reader.read::<Bits<8>, u8>()?;
    let length_ = reader.read::<Bits<16>, u16>()?;
    let id = reader.read::<Bits<16>, u16>()?;
    reader.read_const::<Bits<1>, Bits<0>, Ipv4PacketError>(Ipv4PacketError::ReservedSet)?;
    let keep_whole = reader.read_bit()?;
    let more_ = reader.read_bit()?;
    let offset = reader.read::<Bits<13>, u16>()?;
    let ttl = reader.read::<Bits<8>, u8>()?;
    let protocol = reader.read::<Bits<8>, u8>()?;
    let stored_sum16 = reader.read::<Bits<16>, u64>()?;
    let source = reader.read_to_bytes::<[u8; 4]>()?;
    let target = reader.read_to_bytes::<[u8; 4]>()?;
    let options_count = read_stated_options(reader, options_items, options_bytes)?;
    Ok(Ipv4PacketFound {
        stored_sum16: stored_sum16,
        service: service,
        length: length_,
        id: id,
        keep_whole: keep_whole,
        more: more_,
        offset: offset,
        ttl: ttl,
        protocol: protocol,
        source: source,
        target: target,
        options: options_count as usize,
    })
}

/// Returns the result of a parse for C, after a read that took `taken` bytes and left these items of lists.
fn parsed(
    answer: Result<Ipv4PacketFound, Ipv4PacketError>,
    taken: usize,
    options_items: &[u8],
) -> Ipv4PacketParsed
    ensures { result ≡ ipv4_packet_summed taken options_items.now answer }
{
    match answer {
        Ok(found) => {
            if options_items.len() < found.options {
                return short(5, found.options);
            }
            let source = found.source;
            let target = found.target;
            let value = Ipv4PacketGiven {
                service: found.service,
                length: found.length,
                id: found.id,
                keep_whole: found.keep_whole,
                more: found.more,
                offset: found.offset,
                ttl: found.ttl,
                protocol: found.protocol,
                source: source,
                target: target,
                options: &options_items[..found.options],
            };
            let is_sum16 = found.stored_sum16 == value.sum16();
            if !is_sum16 {
                return short(9, 0);
            }
            Ipv4PacketParsed {
                status: 0,
                taken,
                value: Ipv4PacketC {
                    service: value.service,
                    length: value.length,
                    id: value.id,
                    keep_whole: value.keep_whole as u8,
                    more: value.more as u8,
                    offset: value.offset,
                    ttl: value.ttl,
                    protocol: value.protocol,
                    source: source,
                    target: target,
                    options: value.options.len(),
                },
            }
        }
        Err(Ipv4PacketError::Reader(_)) => short(1, 0),
        Err(Ipv4PacketError::OtherVersion) => short(6, 0),
        Err(Ipv4PacketError::ReservedSet) => short(7, 0),
        Err(Ipv4PacketError::ShortHeader) => short(8, 0),
        Err(Ipv4PacketError::WrongSum) => short(9, 0),
    }
}

/// Returns the result of a parse that failed, with the number of items of a list without room for them.
fn short(status: i32, items: usize) -> Ipv4PacketParsed
    ensures { result ≡ ipv4_packet_short status items }
{
    Ipv4PacketParsed {
        status,
        taken: items,
        value: zero(),
    }
}

/// Parses the fields at the start of `bytes`, and the items of lists into storage of the caller.
#[unsafe(no_mangle)]
pub extern "C" fn proved_ipv4_packet_parse(
    bytes: &[u8],
    options_items: &mut [u8],
) -> Ipv4PacketParsed
    ensures answer { result ≡ ipv4_packet_answer (length options_items.old) ((ipv4_packet_unsummed_decoder High).reads 0 (bits High bytes.now)) }
    ensures tested { (ipv4_packet_decoder High).reads 0 (bits High bytes.now) ≡ tested ipv4_packet_tested ((ipv4_packet_unsummed_decoder High).reads 0 (bits High bytes.now)) }
    ensures options_items { (n : ℕ) (it : Ipv4PacketStored)
        → (ipv4_packet_unsummed_decoder High).reads 0 (bits High bytes.now) ≡ Done n (Ok (Ok it))
        → options_items.new ≡ stored it.value.options options_items.old }
    ensures round_trip { (value : Ipv4Packet)
        → Fits value
        → bits High (take (ipv4_packet_bytes value) bytes.now) ≡ ipv4_packet_bits value
        → result ≡ ipv4_packet_within (ipv4_packet_bytes value) (length options_items.old) value (Ok value) }
{
    let mut reader = BitReader::<_, BE>::over(bytes);
    let answer = read(&mut reader, options_items);
    let taken = bytes.len().saturating_sub(reader.rest().len());
    parsed(answer, taken, options_items)
}

impl Ipv4PacketGiven<'_> {
    /// Returns the sum16 of its lines as they are written, or 0 if a field of theirs does not fit its bits.
    fn sum16(&self) -> u64
        ensures { result ≡ sum16_sum (ipv4_packet_of self.now) }
    {
        let mut writer = summing_writer::<BE, Sum16>();
        match self.write_for_sum16(&mut writer) {
            Ok(()) => sum_of(writer),
            Err(_) => 0,
        }
    }

    /// Writes the lines that the sum16 covers.
    fn write_for_sum16<W: BitWrite>(&self, writer: &mut W) -> Result<(), Error>
        ensures { WritesAll W.sink (sum16_writes W.sink.order (ipv4_packet_of self.now)) writer.old result writer.new }
    {
        writer.write_const::<Bits<4>, Bits<4>>()?;
        writer.write::<Bits<4>, u64>(stored_size(self.options.len() as u64, 4, 20, 0))?;
        writer.write::<Bits<8>, u8>(self.service)?;
        writer.write::<Bits<16>, u16>(self.length)?;
        writer.write::<Bits<16>, u16>(self.id)?;
        writer.write_const::<Bits<1>, Bits<0>>()?;
        writer.write_bit(self.keep_whole)?;
        writer.write_bit(self.more)?;
        writer.write::<Bits<13>, u16>(self.offset)?;
        writer.write::<Bits<8>, u8>(self.ttl)?;
        writer.write::<Bits<8>, u8>(self.protocol)?;
        writer.pad(16)?;
        writer.write_bytes(&self.source)?;
        writer.write_bytes(&self.target)?;
        writer.write_bytes(self.options)?;
        Ok(())
    }
}

impl Ipv4PacketGiven<'_> {
    /// Writes the fields in order.
    fn write<W: BitWrite>(&self, writer: &mut W) -> Result<(), Error>
        ensures { WritesAll W.sink (ipv4_packet_writes W.sink.order (ipv4_packet_of self.now)) writer.old result writer.new }
    {
        writer.write_const::<Bits<4>, Bits<4>>()?;
        writer.write::<Bits<4>, u64>(stored_size(self.options.len() as u64, 4, 20, 0))?;
        writer.write::<Bits<8>, u8>(self.service)?;
        writer.write::<Bits<16>, u16>(self.length)?;
        writer.write::<Bits<16>, u16>(self.id)?;
        writer.write_const::<Bits<1>, Bits<0>>()?;
        writer.write_bit(self.keep_whole)?;
        writer.write_bit(self.more)?;
        writer.write::<Bits<13>, u16>(self.offset)?;
        writer.write::<Bits<8>, u8>(self.ttl)?;
        writer.write::<Bits<8>, u8>(self.protocol)?;
        writer.write::<Bits<16>, u64>(self.sum16())?;
        writer.write_bytes(&self.source)?;
        writer.write_bytes(&self.target)?;
        writer.write_bytes(self.options)?;
        Ok(())
    }
}

impl ToBitStream for Ipv4PacketGiven<'_> {
    type Error = Error;

    ghost becomes = { same_error };

    ghost writes = { λ o value. ipv4_packet_writes o (ipv4_packet_of value) };

    fn to_writer<W: BitWrite>(&self, writer: &mut W) -> Result<(), Error> {
        self.write(writer)
    }
}

/// Returns the number of bits of fields that fit.
fn size(fields: &Ipv4PacketGiven) -> u64
    requires { Fits (ipv4_packet_of fields.now) }
    ensures { result ≡ ipv4_packet_size High (ipv4_packet_of fields.now) }
{
    let mut counter = BitsWritten::<u64>::new();
    match fields.write(&mut counter) {
        Ok(()) => counter.into_written(),
        Err(_) => unreachable!(),
    }
}

/// Writes the fields to the first bytes of a buffer.
fn put(fields: &Ipv4PacketGiven, buffer: &mut [u8]) -> Packed
    ensures { PacksInto (Fits (ipv4_packet_of fields.now)) High (ipv4_packet_bytes (ipv4_packet_of fields.now)) (ipv4_packet_bits (ipv4_packet_of fields.now)) buffer.old result buffer.new }
{
    if !is_fit(fields) {
        return refused(3);
    }
    let written = size(fields).div_ceil(8);
    if written > buffer.len() as u64 {
        return refused(2);
    }
    write_first::<BE, Ipv4PacketGiven>(fields, buffer);
    Packed {
        status: 0,
        written: written as usize,
    }
}

/// Writes the fields to the first bytes of a buffer.
#[unsafe(no_mangle)]
pub extern "C" fn proved_ipv4_packet_pack(
    value: &Ipv4PacketC,
    options_items: &[u8],
    buffer: &mut [u8],
) -> Packed
    ensures { PacksInto (IsSomeAnd (ipv4_packet_from_c value.now options_items.now) Fits) High (ipv4_packet_room (ipv4_packet_from_c value.now options_items.now)) (ipv4_packet_held (ipv4_packet_from_c value.now options_items.now)) buffer.old result buffer.new }
{
    match value.fields(options_items) {
        Some(fields) => put(&fields, buffer),
        None => refused(3),
    }
}
