//! The writer.
mod bytes;
mod golomb;
mod signed;

ghost use Rattle.std.specs.Prelude.{◌≡◌, ◌+◌, ◌*◌, ◌/◌, ◌<◌, ◌≤◌, ◌^◌, ◌↔◌, IsTrue, false, length, replicate, pos};
ghost use Rattle.bitstream_io.specs.Callers.{High, Low, bits, word};
ghost use Rattle.bitstream_io.specs.Alignment.{to_boundary};
ghost use Rattle.bits_c.specs.Writer.{HasRoom, IsSameWriter, Wrote, replaced};

use bitstream_io::{BE, Endianness, LE};

/// `struct bits_writer` of C: the buffer, and the number of bits that were written.
#[repr(C)]
#[derive(Drop)]
pub struct BitsWriter<'a> {
    /// All bytes of the buffer.
    pub bytes: &'a mut [u8],
    /// The number of bits that were written.
    pub at: u64,
}

/// Replaces `width` bits of a byte, after its first `skipped` bits, by a number.
#[inline(always)]
fn put_in<O: Endianness>(byte: u8, skipped: u32, width: u32, part: u8) -> u8
    requires within { skipped + width ≤ 8 }
    requires fits { part < 2 ^ width }
    ensures { word O.order 8 result ≡ replaced skipped (word O.order width part) (word O.order 8 byte) }
{
    if width == 8 {
        return part;
    }
    let end = skipped + width;
    let before = O::cut(byte, 8, 0, skipped);
    let after = O::cut(byte, 8, end, 8 - end);
    O::put(O::put(before, skipped, part, width), end, after, 8 - end)
}

/// Replaces `width` bits of the bytes, from the bit `at` on, by a number, byte by byte.
fn put<O: Endianness>(bytes: &mut [u8], at: u64, width: u32, value: u64)
    requires few { width ≤ 64 }
    requires there { at + width ≤ 8 * length bytes.old }
    requires below { at + width < 2 ^ 64 }
    ensures { bits O.order bytes.new ≡ replaced at (word O.order width value) (bits O.order bytes.old) }
{
    let mut done = 0u32;
    while done < width {
        let place = at + u64::from(done);
        let index = (place / 8) as usize;
        let skipped = (place % 8) as u32;
        let count = (8 - skipped).min(width - done);
        let part = O::cut(value, width, done, count);
        bytes[index] = put_in::<O>(bytes[index], skipped, count, part);
        done += count;
    }
}

/// Returns true if the buffer has `count` more bits.
#[inline(always)]
fn has_room(writer: &BitsWriter, count: u128) -> bool
    requires { count < 2 ^ 70 }
    ensures { IsTrue result ↔ HasRoom writer.now count }
{
    let end = u128::from(writer.at) + count;
    end <= 8 * writer.bytes.len() as u128 && end <= u128::from(u64::MAX)
}

/// Returns true if the number has at most `width` bits.
#[inline(always)]
fn fits(width: u32, value: u64) -> bool
    requires { width ≤ 64 }
    ensures { IsTrue result ↔ value < 2 ^ width }
{
    u128::from(value) < 1u128 << width
}

/// Writes a number that the buffer has room for.
#[inline(always)]
fn append<O: Endianness>(writer: &mut BitsWriter, width: u32, value: u64)
    requires few { width ≤ 64 }
    requires room { HasRoom writer.old width }
    ensures { Wrote O.order (word O.order width value) writer.old writer.new }
{
    put::<O>(writer.bytes, writer.at, width, value);
    writer.at += u64::from(width);
}

/// Writes a number of at most 64 bits.
#[inline(always)]
fn write_unsigned<O: Endianness>(writer: &mut BitsWriter, width: u32, value: u64) -> i32
    ensures there { width ≤ 64 → value < 2 ^ width → HasRoom writer.old width
        → (result ≡ pos 0) × Wrote O.order (word O.order width value) writer.old writer.new }
    ensures short { width ≤ 64 → value < 2 ^ width → ¬ HasRoom writer.old width
        → (result ≡ pos 4) × IsSameWriter writer.old writer.new }
    ensures misfit { width ≤ 64 → 2 ^ width ≤ value → (result ≡ pos 5) × IsSameWriter writer.old writer.new }
    ensures wide { 64 < width → (result ≡ pos 2) × IsSameWriter writer.old writer.new }
{
    if width > 64 {
        return 2;
    }
    if !fits(width, value) {
        return 5;
    }
    if !has_room(writer, u128::from(width)) {
        return 4;
    }
    append::<O>(writer, width, value);
    0
}

/// Writes a number of at most 64 bits, the highest bit first.
#[unsafe(no_mangle)]
pub extern "C" fn proved_bits_write_unsigned(writer: &mut BitsWriter, width: u32, value: u64) -> i32
    ensures there { width ≤ 64 → value < 2 ^ width → HasRoom writer.old width
        → (result ≡ pos 0) × Wrote High (word High width value) writer.old writer.new }
    ensures short { width ≤ 64 → value < 2 ^ width → ¬ HasRoom writer.old width
        → (result ≡ pos 4) × IsSameWriter writer.old writer.new }
    ensures misfit { width ≤ 64 → 2 ^ width ≤ value → (result ≡ pos 5) × IsSameWriter writer.old writer.new }
    ensures wide { 64 < width → (result ≡ pos 2) × IsSameWriter writer.old writer.new }
{
    write_unsigned::<BE>(writer, width, value)
}

/// Writes a number of at most 64 bits, the lowest bit first.
#[unsafe(no_mangle)]
pub extern "C" fn proved_bits_write_unsigned_le(
    writer: &mut BitsWriter,
    width: u32,
    value: u64,
) -> i32
    ensures there { width ≤ 64 → value < 2 ^ width → HasRoom writer.old width
        → (result ≡ pos 0) × Wrote Low (word Low width value) writer.old writer.new }
    ensures short { width ≤ 64 → value < 2 ^ width → ¬ HasRoom writer.old width
        → (result ≡ pos 4) × IsSameWriter writer.old writer.new }
    ensures misfit { width ≤ 64 → 2 ^ width ≤ value → (result ≡ pos 5) × IsSameWriter writer.old writer.new }
    ensures wide { 64 < width → (result ≡ pos 2) × IsSameWriter writer.old writer.new }
{
    write_unsigned::<LE>(writer, width, value)
}

/// Writes zeros up to a whole byte.
#[inline(always)]
fn align<O: Endianness>(writer: &mut BitsWriter) -> i32
    ensures there { HasRoom writer.old (to_boundary writer.old.at)
        → (result ≡ pos 0) × Wrote O.order (replicate (to_boundary writer.old.at) false) writer.old writer.new }
    ensures short { ¬ HasRoom writer.old (to_boundary writer.old.at)
        → (result ≡ pos 4) × IsSameWriter writer.old writer.new }
{
    let zeros = (8 - (writer.at % 8) as u32) % 8;
    write_unsigned::<O>(writer, zeros, 0)
}

/// Writes zeros up to a whole byte, which are its lowest bits.
#[unsafe(no_mangle)]
pub extern "C" fn proved_bits_write_align(writer: &mut BitsWriter) -> i32
    ensures there { HasRoom writer.old (to_boundary writer.old.at)
        → (result ≡ pos 0) × Wrote High (replicate (to_boundary writer.old.at) false) writer.old writer.new }
    ensures short { ¬ HasRoom writer.old (to_boundary writer.old.at)
        → (result ≡ pos 4) × IsSameWriter writer.old writer.new }
{
    align::<BE>(writer)
}

/// Writes zeros up to a whole byte, which are its highest bits.
#[unsafe(no_mangle)]
pub extern "C" fn proved_bits_write_align_le(writer: &mut BitsWriter) -> i32
    ensures there { HasRoom writer.old (to_boundary writer.old.at)
        → (result ≡ pos 0) × Wrote Low (replicate (to_boundary writer.old.at) false) writer.old writer.new }
    ensures short { ¬ HasRoom writer.old (to_boundary writer.old.at)
        → (result ≡ pos 4) × IsSameWriter writer.old writer.new }
{
    align::<LE>(writer)
}

/// Returns the number of bits that the buffer has room for.
#[unsafe(no_mangle)]
pub extern "C" fn proved_bits_room(writer: &BitsWriter) -> u64
    ensures room { writer.now.at ≤ 8 * length writer.now.bytes.now → 8 * length writer.now.bytes.now < 2 ^ 64
        → writer.now.at + result ≡ 8 * length writer.now.bytes.now }
    ensures past { 8 * length writer.now.bytes.now < writer.now.at → result ≡ 0 }
{
    let all = 8 * writer.bytes.len() as u128;
    let left = all.saturating_sub(u128::from(writer.at));
    if left > u128::from(u64::MAX) {
        u64::MAX
    } else {
        left as u64
    }
}
