//! The reader.
mod bytes;
mod golomb;

ghost use Rattle.std.specs.Prelude.{◌≡◌, ◌+◌, ◌-◌, ◌*◌, ◌/◌, ◌<◌, ◌≤◌, ◌^◌, ◌↔◌, IsTrue, length, take, drop, pos};
ghost use Rattle.bitstream_io.specs.Callers.{High, Low, number, bits, signed_number};
ghost use Rattle.bits_c.specs.Reader.{HasLeft, Advanced, IsSame};

use crate::numbers::{number_at, signed_at};
use bitstream_io::{BE, Endianness, LE};

/// `struct bits_reader` of C: the bytes, and the number of bits that were read.
#[repr(C)]
#[derive(Drop)]
pub struct BitsReader<'a> {
    /// All bytes.
    pub bytes: &'a [u8],
    /// The number of bits that were read.
    pub at: u64,
}

/// The result of a read of an unsigned number.
#[repr(C)]
#[derive(Clone, Copy)]
pub struct Unsigned {
    /// The status.
    pub status: i32,
    /// The number; 0 after an error.
    pub value: u64,
}

/// The result of a read of a signed number.
#[repr(C)]
#[derive(Clone, Copy)]
pub struct Signed {
    /// The status.
    pub status: i32,
    /// The number; 0 after an error.
    pub value: i64,
}

/// Returns true if `count` bits are left.
#[inline(always)]
fn has(reader: &BitsReader, count: u128) -> bool
    requires { count < 2 ^ 70 }
    ensures { IsTrue result ↔ HasLeft reader.now count }
{
    let end = u128::from(reader.at) + count;
    end <= 8 * reader.bytes.len() as u128 && end <= u128::from(u64::MAX)
}

/// Reads a number of at most 64 bits.
#[inline(always)]
fn read_unsigned<O: Endianness>(reader: &mut BitsReader, width: u32) -> Unsigned
    ensures there { width ≤ 64 → HasLeft reader.old width
        → (result ≡ record {
          status = pos 0;
          value = number O.order (take width (drop reader.old.at (bits O.order reader.old.bytes.now)));
        })
        × Advanced width reader.old reader.new }
    ensures short { width ≤ 64 → ¬ HasLeft reader.old width
        → (result ≡ record { status = pos 1; value = 0 }) × IsSame reader.old reader.new }
    ensures wide { 64 < width → (result ≡ record { status = pos 2; value = 0 }) × IsSame reader.old reader.new }
{
    if width > 64 {
        return Unsigned {
            status: 2,
            value: 0,
        };
    }
    if !has(reader, u128::from(width)) {
        return Unsigned {
            status: 1,
            value: 0,
        };
    }
    let value = number_at::<O>(reader.bytes, reader.at, width);
    reader.at += u64::from(width);
    Unsigned { status: 0, value }
}

/// Reads a number of at most 64 bits, the highest bit first.
#[unsafe(no_mangle)]
pub extern "C" fn proved_bits_read_unsigned(reader: &mut BitsReader, width: u32) -> Unsigned
    ensures there { width ≤ 64 → HasLeft reader.old width
        → (result ≡ record {
          status = pos 0;
          value = number High (take width (drop reader.old.at (bits High reader.old.bytes.now)));
        })
        × Advanced width reader.old reader.new }
    ensures short { width ≤ 64 → ¬ HasLeft reader.old width
        → (result ≡ record { status = pos 1; value = 0 }) × IsSame reader.old reader.new }
    ensures wide { 64 < width → (result ≡ record { status = pos 2; value = 0 }) × IsSame reader.old reader.new }
{
    read_unsigned::<BE>(reader, width)
}

/// Reads a number of at most 64 bits, the lowest bit first.
#[unsafe(no_mangle)]
pub extern "C" fn proved_bits_read_unsigned_le(reader: &mut BitsReader, width: u32) -> Unsigned
    ensures there { width ≤ 64 → HasLeft reader.old width
        → (result ≡ record {
          status = pos 0;
          value = number Low (take width (drop reader.old.at (bits Low reader.old.bytes.now)));
        })
        × Advanced width reader.old reader.new }
    ensures short { width ≤ 64 → ¬ HasLeft reader.old width
        → (result ≡ record { status = pos 1; value = 0 }) × IsSame reader.old reader.new }
    ensures wide { 64 < width → (result ≡ record { status = pos 2; value = 0 }) × IsSame reader.old reader.new }
{
    read_unsigned::<LE>(reader, width)
}

/// Reads a signed number of 1 to 64 bits.
#[inline(always)]
fn read_signed<O: Endianness>(reader: &mut BitsReader, width: u32) -> Signed
    ensures there { 1 ≤ width → width ≤ 64 → HasLeft reader.old width
        → (result ≡ record {
          status = pos 0;
          value = signed_number O.order (take width (drop reader.old.at (bits O.order reader.old.bytes.now)));
        })
        × Advanced width reader.old reader.new }
    ensures short { 1 ≤ width → width ≤ 64 → ¬ HasLeft reader.old width
        → (result ≡ record { status = pos 1; value = pos 0 }) × IsSame reader.old reader.new }
    ensures wide { 64 < width → (result ≡ record { status = pos 2; value = pos 0 }) × IsSame reader.old reader.new }
    ensures none { width ≡ 0 → (result ≡ record { status = pos 2; value = pos 0 }) × IsSame reader.old reader.new }
{
    if width == 0 || width > 64 {
        return Signed {
            status: 2,
            value: 0,
        };
    }
    if !has(reader, u128::from(width)) {
        return Signed {
            status: 1,
            value: 0,
        };
    }
    let value = signed_at::<O>(reader.bytes, reader.at, width);
    reader.at += u64::from(width);
    Signed { status: 0, value }
}

/// Reads a signed number of 1 to 64 bits, the highest bit first.
#[unsafe(no_mangle)]
pub extern "C" fn proved_bits_read_signed(reader: &mut BitsReader, width: u32) -> Signed
    ensures there { 1 ≤ width → width ≤ 64 → HasLeft reader.old width
        → (result ≡ record {
          status = pos 0;
          value = signed_number High (take width (drop reader.old.at (bits High reader.old.bytes.now)));
        })
        × Advanced width reader.old reader.new }
    ensures short { 1 ≤ width → width ≤ 64 → ¬ HasLeft reader.old width
        → (result ≡ record { status = pos 1; value = pos 0 }) × IsSame reader.old reader.new }
    ensures wide { 64 < width → (result ≡ record { status = pos 2; value = pos 0 }) × IsSame reader.old reader.new }
    ensures none { width ≡ 0 → (result ≡ record { status = pos 2; value = pos 0 }) × IsSame reader.old reader.new }
{
    read_signed::<BE>(reader, width)
}

/// Reads a signed number of 1 to 64 bits, the lowest bit first.
#[unsafe(no_mangle)]
pub extern "C" fn proved_bits_read_signed_le(reader: &mut BitsReader, width: u32) -> Signed
    ensures there { 1 ≤ width → width ≤ 64 → HasLeft reader.old width
        → (result ≡ record {
          status = pos 0;
          value = signed_number Low (take width (drop reader.old.at (bits Low reader.old.bytes.now)));
        })
        × Advanced width reader.old reader.new }
    ensures short { 1 ≤ width → width ≤ 64 → ¬ HasLeft reader.old width
        → (result ≡ record { status = pos 1; value = pos 0 }) × IsSame reader.old reader.new }
    ensures wide { 64 < width → (result ≡ record { status = pos 2; value = pos 0 }) × IsSame reader.old reader.new }
    ensures none { width ≡ 0 → (result ≡ record { status = pos 2; value = pos 0 }) × IsSame reader.old reader.new }
{
    read_signed::<LE>(reader, width)
}

/// Skips `count` bits.
#[unsafe(no_mangle)]
pub extern "C" fn proved_bits_skip(reader: &mut BitsReader, count: u64) -> i32
    ensures there { HasLeft reader.old count → (result ≡ pos 0) × Advanced count reader.old reader.new }
    ensures short { ¬ HasLeft reader.old count → (result ≡ pos 1) × IsSame reader.old reader.new }
{
    if !has(reader, u128::from(count)) {
        return 1;
    }
    reader.at += count;
    0
}

/// Skips the bits up to the next whole byte.
#[unsafe(no_mangle)]
pub extern "C" fn proved_bits_align(reader: &mut BitsReader)
    ensures { reader.old.at ≤ 8 * length reader.old.bytes.now → reader.old.at < 2 ^ 64 - 8
        → (reader.new.bytes.now ≡ reader.old.bytes.now) × (reader.new.at ≡ 8 * ((reader.old.at + 7) / 8)) }
{
    let over = reader.at % 8;
    if over == 0 {
        return;
    }
    if reader.at > u64::MAX - 8 {
        return;
    }
    reader.at += 8 - over;
}

/// Moves to a place, in bits from the first byte.
#[unsafe(no_mangle)]
pub extern "C" fn proved_bits_seek(reader: &mut BitsReader, at: u64) -> i32
    ensures there { at ≤ 8 * length reader.old.bytes.now
        → (result ≡ pos 0) × (reader.new.bytes.now ≡ reader.old.bytes.now) × (reader.new.at ≡ at) }
    ensures past { 8 * length reader.old.bytes.now < at → (result ≡ pos 1) × IsSame reader.old reader.new }
{
    if u128::from(at) > 8 * reader.bytes.len() as u128 {
        return 1;
    }
    reader.at = at;
    0
}

/// Returns the number of bits that are left.
#[unsafe(no_mangle)]
pub extern "C" fn proved_bits_left(reader: &BitsReader) -> u64
    ensures { reader.now.at ≤ 8 * length reader.now.bytes.now → 8 * length reader.now.bytes.now < 2 ^ 64
        → reader.now.at + result ≡ 8 * length reader.now.bytes.now }
{
    let all = 8 * reader.bytes.len() as u128;
    let left = all.saturating_sub(u128::from(reader.at));
    if left > u128::from(u64::MAX) {
        u64::MAX
    } else {
        left as u64
    }
}
