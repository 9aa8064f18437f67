//! Made by `./format --c` from ../protocols/formats/socks_login.fields: edit that file and make this one anew.
//!
//! `SocksLogin` for C.
ghost use Rattle.protocols_c.specs.SocksLogin.{socks_login_to_c, socks_login_from_c, socks_login_zero, socks_login_parsed, socks_login_answer, socks_login_held, socks_login_bytes, socks_login_room, socks_login_of, socks_login_short, SocksLoginRead};
ghost use Rattle.protocols_c.specs.Lists.{ReadsInto, stored};
ghost use Rattle.protocols_c.specs.Shared.{PacksInto};
ghost use Rattle.protocols.specs.SocksLogin.{socks_login_decoder, socks_login_writes, socks_login_size, socks_login_bits, Fits};
ghost use Rattle.protocols.specs.declared.socks_login.SocksLogin.{SocksLogin};
ghost use Rattle.std.specs.Prelude.{◌≡◌, ◌<◌, ◌++◌, ◌∷◌, [], ◌↔◌, ℕ, List, Ok, IsTrue, IsSomeAnd, All, length, take, option_map};
ghost use Rattle.bitstream_io.specs.Codec.{Done};
ghost use Rattle.bitstream_io.specs.Callers.{High, bits, vec_decoder, WritesAll, same_error};

use crate::shared::{Packed, refused, write_first};
use bitstream_io::{
    BE, BitRead, BitReadExt, BitReader, BitWrite, BitWriteExt, Bits, BitsWritten, Error,
    ToBitStream,
};
use protocols::socks_login::SocksLoginError;

/// `struct socks_login` of C.
#[repr(C)]
#[derive(Clone, Copy)]
pub struct SocksLoginC {
    /// The number of items of `name`.
    pub name: usize,
    /// The number of items of `password`.
    pub password: usize,
}

/// The result of a parse.
#[repr(C)]
#[derive(Clone, Copy)]
pub struct SocksLoginParsed {
    /// The status.
    pub status: i32,
    /// The number of bytes that were taken, or of the items of a list without room for them.
    pub taken: usize,
    /// The fields, if the status is 0.
    pub value: SocksLoginC,
}

/// The fields, whose lists the caller has.
#[derive(Clone, Copy)]
pub(crate) struct SocksLoginGiven<'a> {
    name: &'a [u8],
    password: &'a [u8],
}

impl SocksLoginC {
    /// Returns the fields with these lists, or `None` if a number of C is no value of its field.
    fn fields<'a>(
        &self,
        name_items: &'a [u8],
        password_items: &'a [u8],
    ) -> Option<SocksLoginGiven<'a>>
        ensures { option_map socks_login_of result ≡ socks_login_from_c self.now name_items.now password_items.now }
    {
        Some(SocksLoginGiven {
            name: name_items,
            password: password_items,
        })
    }
}

/// Returns the struct of C after an error.
#[inline(always)]
pub(crate) fn zero() -> SocksLoginC
    ensures { result ≡ socks_login_zero }
{
    SocksLoginC {
        name: 0,
        password: 0,
    }
}

/// Returns true if each item fits its bits.
fn all_bytes(items: &[u8]) -> bool
    ensures { IsTrue result ↔ All (λ b. b < 256) items.now }
{
    items.iter().all(|x| u16::from(*x) < 256)
}

/// Returns true if each field fits its bits.
#[inline(always)]
pub(crate) fn is_fit(value: &SocksLoginGiven) -> bool
    ensures { IsTrue result ↔ Fits (socks_login_of value.now) }
{
    value.name.len() <= 255
        && all_bytes(value.name)
        && value.password.len() <= 255
        && all_bytes(value.password)
}

/// Puts an item that was read into its place, if there is room for it.
fn keep_u8(items: &mut [u8], place: u64, item: u8)
    ensures { (all was : List ℕ) → length all ≡ place → items.old ≡ stored all was
        → items.new ≡ stored (all ++ item ∷ []) was }
{
    if place >= items.len() as u64 {
        return;
    }
    items[place as usize] = item;
}

/// Reads `count` items of `name`, and keeps those for which there is room.
fn read_name<R: BitRead>(reader: &mut R, items: &mut [u8], count: u64) -> Result<(), Error>
    ensures { ReadsInto R.source (vec_decoder R.source.order count) count
        reader.old items.old result reader.new items.new }
{
    let _: u8 = reader.read_unsigned_var(0)?;
    for place in 0..count {
        let item = reader.read::<Bits<8>, u8>()?;
        keep_u8(items, place, item);
    }
    Ok(())
}

/// Reads `count` items of `password`, and keeps those for which there is room.
fn read_password<R: BitRead>(reader: &mut R, items: &mut [u8], count: u64) -> Result<(), Error>
    ensures { ReadsInto R.source (vec_decoder R.source.order count) count
        reader.old items.old result reader.new items.new }
{
    let _: u8 = reader.read_unsigned_var(0)?;
    for place in 0..count {
        let item = reader.read::<Bits<8>, u8>()?;
        keep_u8(items, place, item);
    }
    Ok(())
}

/// Reads the fields, and keeps the items of lists for which there is room.
fn read<R: BitRead>(
    reader: &mut R,
    name_items: &mut [u8],
    password_items: &mut [u8],
) -> Result<SocksLoginC, SocksLoginError>
    ensures { SocksLoginRead R.source reader.old name_items.old password_items.old result reader.new name_items.new password_items.new }
{
    reader.read_const::<Bits<8>, Bits<1>, SocksLoginError>(SocksLoginError::OtherVersion)?;
    let name_bytes = reader.read::<Bits<8>, u64>()?;
    read_name(reader, name_items, name_bytes)?;
    let password_bytes = reader.read::<Bits<8>, u64>()?;
    read_password(reader, password_items, password_bytes)?;
    Ok(SocksLoginC {
        name: name_bytes as usize,
        password: password_bytes as usize,
    })
}

/// Returns the result of a parse for C, after a read that took `taken` bytes, with some room for the items of each list.
fn parsed(
    answer: Result<SocksLoginC, SocksLoginError>,
    taken: usize,
    name_room: usize,
    password_room: usize,
) -> SocksLoginParsed
    ensures { result ≡ socks_login_parsed taken name_room password_room answer }
{
    match answer {
        Ok(value) => {
            if name_room < value.name {
                return short(5, value.name);
            }
            if password_room < value.password {
                return short(6, value.password);
            }
            SocksLoginParsed {
                status: 0,
                taken,
                value,
            }
        }
        Err(SocksLoginError::Reader(_)) => short(1, 0),
        Err(SocksLoginError::OtherVersion) => short(7, 0),
    }
}

/// Returns the result of a parse that failed, with the number of items of a list without room for them.
fn short(status: i32, items: usize) -> SocksLoginParsed
    ensures { result ≡ socks_login_short status items }
{
    SocksLoginParsed {
        status,
        taken: items,
        value: zero(),
    }
}

/// Parses the fields at the start of `bytes`, and the items of lists into storage of the caller.
#[unsafe(no_mangle)]
pub extern "C" fn proved_socks_login_parse(
    bytes: &[u8],
    name_items: &mut [u8],
    password_items: &mut [u8],
) -> SocksLoginParsed
    ensures answer { result ≡ socks_login_answer (length name_items.old) (length password_items.old) ((socks_login_decoder High).reads 0 (bits High bytes.now)) }
    ensures name_items { (n : ℕ) (value : SocksLogin) → (socks_login_decoder High).reads 0 (bits High bytes.now) ≡ Done n (Ok (Ok value))
        → name_items.new ≡ stored value.name name_items.old }
    ensures password_items { (n : ℕ) (value : SocksLogin) → (socks_login_decoder High).reads 0 (bits High bytes.now) ≡ Done n (Ok (Ok value))
        → password_items.new ≡ stored value.password password_items.old }
    ensures round_trip { (value : SocksLogin) → Fits value → bits High (take (socks_login_bytes value) bytes.now) ≡ socks_login_bits value
        → result ≡ socks_login_parsed (socks_login_bytes value) (length name_items.old) (length password_items.old) (Ok (socks_login_to_c value)) }
{
    let mut reader = BitReader::<_, BE>::over(bytes);
    let name_room = name_items.len();
    let password_room = password_items.len();
    let answer = read(&mut reader, name_items, password_items);
    let taken = bytes.len().saturating_sub(reader.rest().len());
    parsed(answer, taken, name_room, password_room)
}

impl SocksLoginGiven<'_> {
    /// Writes the fields in order.
    fn write<W: BitWrite>(&self, writer: &mut W) -> Result<(), Error>
        ensures { WritesAll W.sink (socks_login_writes W.sink.order (socks_login_of self.now)) writer.old result writer.new }
    {
        writer.write_const::<Bits<8>, Bits<1>>()?;
        writer.write::<Bits<8>, u64>(self.name.len() as u64)?;
        writer.write_bytes(self.name)?;
        writer.write::<Bits<8>, u64>(self.password.len() as u64)?;
        writer.write_bytes(self.password)?;
        Ok(())
    }
}

impl ToBitStream for SocksLoginGiven<'_> {
    type Error = Error;

    ghost becomes = { same_error };

    ghost writes = { λ o value. socks_login_writes o (socks_login_of value) };

    fn to_writer<W: BitWrite>(&self, writer: &mut W) -> Result<(), Error> {
        self.write(writer)
    }
}

/// Returns the number of bits of fields that fit.
fn size(fields: &SocksLoginGiven) -> u64
    requires { Fits (socks_login_of fields.now) }
    ensures { result ≡ socks_login_size High (socks_login_of fields.now) }
{
    let mut counter = BitsWritten::<u64>::new();
    match fields.write(&mut counter) {
        Ok(()) => counter.into_written(),
        Err(_) => unreachable!(),
    }
}

/// Writes the fields to the first bytes of a buffer.
fn put(fields: &SocksLoginGiven, buffer: &mut [u8]) -> Packed
    ensures { PacksInto (Fits (socks_login_of fields.now)) High (socks_login_bytes (socks_login_of fields.now)) (socks_login_bits (socks_login_of fields.now)) buffer.old result buffer.new }
{
    if !is_fit(fields) {
        return refused(3);
    }
    let written = size(fields).div_ceil(8);
    if written > buffer.len() as u64 {
        return refused(2);
    }
    write_first::<BE, SocksLoginGiven>(fields, buffer);
    Packed {
        status: 0,
        written: written as usize,
    }
}

/// Writes the fields to the first bytes of a buffer.
#[unsafe(no_mangle)]
pub extern "C" fn proved_socks_login_pack(
    value: &SocksLoginC,
    name_items: &[u8],
    password_items: &[u8],
    buffer: &mut [u8],
) -> Packed
    ensures { PacksInto (IsSomeAnd (socks_login_from_c value.now name_items.now password_items.now) Fits) High (socks_login_room (socks_login_from_c value.now name_items.now password_items.now)) (socks_login_held (socks_login_from_c value.now name_items.now password_items.now)) buffer.old result buffer.new }
{
    match value.fields(name_items, password_items) {
        Some(fields) => put(&fields, buffer),
        None => refused(3),
    }
}
