//! Unary numbers, and exponential Golomb numbers.
ghost use Rattle.std.specs.Prelude.{◌≡◌, ℕ, ◌+◌, ◌*◌, ◌^◌, ◌<◌, ◌≤◌, length, drop, pos, true};
ghost use Rattle.bitstream_io.specs.Callers.{High, Low, bits};
ghost use Rattle.bitstream_io.specs.Golomb.{signed_at};
ghost use Rattle.bitstream_io.specs.Unary.{lead};
ghost use Rattle.bits_c.specs.Reader.{HasLeft, Advanced, IsSame, golomb, leading};

use super::{BitsReader, Signed, Unsigned, has};
use crate::numbers::{bit_at, number_at};
use bitstream_io::{BE, Endianness, LE};

/// Returns the number of bits left that the reader can still count.
#[inline(always)]
fn all_left(reader: &BitsReader) -> u64
    requires { HasLeft reader.now 0 }
    ensures there { HasLeft reader.now result }
    ensures most { (n : ℕ) → HasLeft reader.now n → n ≤ result }
{
    let left = 8 * reader.bytes.len() as u128 - u128::from(reader.at);
    left.min(u128::from(u64::MAX - reader.at)) as u64
}

/// Returns the number of bits before the first stop bit, at most `limit`.
fn lead_at<O: Endianness>(bytes: &[u8], at: u64, stop: bool, limit: u64) -> u64
    requires there { at + limit ≤ 8 * length bytes.now }
    requires below { at + limit < 2 ^ 64 }
    ensures most { result ≤ limit }
    ensures stops { result < limit → lead stop (drop at (bits O.order bytes.now)) ≡ result }
    ensures goes_on { result ≡ limit → limit ≤ lead stop (drop at (bits O.order bytes.now)) }
{
    let mut count = 0;
    while count < limit {
        let bit = bit_at::<O>(bytes, at + count);
        if bit == stop {
            return count;
        }
        count += 1;
    }
    count
}

/// Reads a unary number: the bits up to and with the first stop bit.
#[inline(always)]
fn read_unary<O: Endianness>(reader: &mut BitsReader, stop: bool) -> Unsigned
    ensures there { HasLeft reader.old (leading O.order stop reader.old + 1)
        → (result ≡ record { status = pos 0; value = leading O.order stop reader.old })
        × Advanced (leading O.order stop reader.old + 1) reader.old reader.new }
    ensures short { ¬ HasLeft reader.old (leading O.order stop reader.old + 1)
        → (result ≡ record { status = pos 1; value = 0 }) × IsSame reader.old reader.new }
{
    if !has(reader, 1) {
        return Unsigned {
            status: 1,
            value: 0,
        };
    }
    let limit = all_left(reader);
    let value = lead_at::<O>(reader.bytes, reader.at, stop, limit);
    if value == limit {
        return Unsigned {
            status: 1,
            value: 0,
        };
    }
    reader.at += value + 1;
    Unsigned { status: 0, value }
}

/// Reads an exponential Golomb number.
#[inline(always)]
fn read_ue<O: Endianness>(reader: &mut BitsReader) -> Unsigned
    ensures there { leading O.order true reader.old ≤ 31 → HasLeft reader.old (2 * leading O.order true reader.old + 1)
        → (result ≡ record { status = pos 0; value = golomb O.order reader.old })
        × Advanced (2 * leading O.order true reader.old + 1) reader.old reader.new }
    ensures short { leading O.order true reader.old ≤ 31 → ¬ HasLeft reader.old (2 * leading O.order true reader.old + 1)
        → (result ≡ record { status = pos 1; value = 0 }) × IsSame reader.old reader.new }
    ensures long { 31 < leading O.order true reader.old → HasLeft reader.old 32
        → (result ≡ record { status = pos 6; value = 0 }) × IsSame reader.old reader.new }
    ensures far { 31 < leading O.order true reader.old → ¬ HasLeft reader.old 32
        → (result ≡ record { status = pos 1; value = 0 }) × IsSame reader.old reader.new }
    ensures below { result.value < 2 ^ 32 }
{
    let short = Unsigned {
        status: 1,
        value: 0,
    };
    if !has(reader, 1) {
        return short;
    }
    let zeros = lead_at::<O>(reader.bytes, reader.at, true, all_left(reader).min(32)) as u32;
    if zeros > 31 {
        return Unsigned {
            status: 6,
            value: 0,
        };
    }
    let count = 2 * zeros + 1;
    if !has(reader, u128::from(count)) {
        return short;
    }
    let rest = number_at::<O>(reader.bytes, reader.at + u64::from(zeros) + 1, zeros);
    reader.at += u64::from(count);
    Unsigned {
        status: 0,
        value: (1 << zeros) - 1 + rest,
    }
}

/// Returns the number at a place in the order 0, 1, -1, 2, -2, and so on.
#[inline(always)]
fn signed(place: u64) -> i64
    requires { place < 2 ^ 32 }
    ensures { result ≡ signed_at place }
{
    let half = (place / 2) as i64;
    if place % 2 == 1 { half + 1 } else { -half }
}

/// Reads a signed exponential Golomb number.
#[inline(always)]
fn read_se<O: Endianness>(reader: &mut BitsReader) -> Signed
    ensures there { leading O.order true reader.old ≤ 31 → HasLeft reader.old (2 * leading O.order true reader.old + 1)
        → (result ≡ record { status = pos 0; value = signed_at (golomb O.order reader.old) })
        × Advanced (2 * leading O.order true reader.old + 1) reader.old reader.new }
    ensures short { leading O.order true reader.old ≤ 31 → ¬ HasLeft reader.old (2 * leading O.order true reader.old + 1)
        → (result ≡ record { status = pos 1; value = pos 0 }) × IsSame reader.old reader.new }
    ensures long { 31 < leading O.order true reader.old → HasLeft reader.old 32
        → (result ≡ record { status = pos 6; value = pos 0 }) × IsSame reader.old reader.new }
    ensures far { 31 < leading O.order true reader.old → ¬ HasLeft reader.old 32
        → (result ≡ record { status = pos 1; value = pos 0 }) × IsSame reader.old reader.new }
{
    let read = read_ue::<O>(reader);
    Signed {
        status: read.status,
        value: signed(read.value),
    }
}

/// Reads a unary number, the highest bit of each byte first.
#[unsafe(no_mangle)]
pub extern "C" fn proved_bits_read_unary(reader: &mut BitsReader, stop: bool) -> Unsigned
    ensures there { HasLeft reader.old (leading High stop reader.old + 1)
        → (result ≡ record { status = pos 0; value = leading High stop reader.old })
        × Advanced (leading High stop reader.old + 1) reader.old reader.new }
    ensures short { ¬ HasLeft reader.old (leading High stop reader.old + 1)
        → (result ≡ record { status = pos 1; value = 0 }) × IsSame reader.old reader.new }
{
    read_unary::<BE>(reader, stop)
}

/// Reads a unary number, the lowest bit of each byte first.
#[unsafe(no_mangle)]
pub extern "C" fn proved_bits_read_unary_le(reader: &mut BitsReader, stop: bool) -> Unsigned
    ensures there { HasLeft reader.old (leading Low stop reader.old + 1)
        → (result ≡ record { status = pos 0; value = leading Low stop reader.old })
        × Advanced (leading Low stop reader.old + 1) reader.old reader.new }
    ensures short { ¬ HasLeft reader.old (leading Low stop reader.old + 1)
        → (result ≡ record { status = pos 1; value = 0 }) × IsSame reader.old reader.new }
{
    read_unary::<LE>(reader, stop)
}

/// Reads an exponential Golomb number, the highest bit of each byte first.
#[unsafe(no_mangle)]
pub extern "C" fn proved_bits_read_ue(reader: &mut BitsReader) -> Unsigned
    ensures there { leading High true reader.old ≤ 31 → HasLeft reader.old (2 * leading High true reader.old + 1)
        → (result ≡ record { status = pos 0; value = golomb High reader.old })
        × Advanced (2 * leading High true reader.old + 1) reader.old reader.new }
    ensures short { leading High true reader.old ≤ 31 → ¬ HasLeft reader.old (2 * leading High true reader.old + 1)
        → (result ≡ record { status = pos 1; value = 0 }) × IsSame reader.old reader.new }
    ensures long { 31 < leading High true reader.old → HasLeft reader.old 32
        → (result ≡ record { status = pos 6; value = 0 }) × IsSame reader.old reader.new }
    ensures far { 31 < leading High true reader.old → ¬ HasLeft reader.old 32
        → (result ≡ record { status = pos 1; value = 0 }) × IsSame reader.old reader.new }
{
    read_ue::<BE>(reader)
}

/// Reads an exponential Golomb number, the lowest bit of each byte first.
#[unsafe(no_mangle)]
pub extern "C" fn proved_bits_read_ue_le(reader: &mut BitsReader) -> Unsigned
    ensures there { leading Low true reader.old ≤ 31 → HasLeft reader.old (2 * leading Low true reader.old + 1)
        → (result ≡ record { status = pos 0; value = golomb Low reader.old })
        × Advanced (2 * leading Low true reader.old + 1) reader.old reader.new }
    ensures short { leading Low true reader.old ≤ 31 → ¬ HasLeft reader.old (2 * leading Low true reader.old + 1)
        → (result ≡ record { status = pos 1; value = 0 }) × IsSame reader.old reader.new }
    ensures long { 31 < leading Low true reader.old → HasLeft reader.old 32
        → (result ≡ record { status = pos 6; value = 0 }) × IsSame reader.old reader.new }
    ensures far { 31 < leading Low true reader.old → ¬ HasLeft reader.old 32
        → (result ≡ record { status = pos 1; value = 0 }) × IsSame reader.old reader.new }
{
    read_ue::<LE>(reader)
}

/// Reads a signed exponential Golomb number, the highest bit of each byte first.
#[unsafe(no_mangle)]
pub extern "C" fn proved_bits_read_se(reader: &mut BitsReader) -> Signed
    ensures there { leading High true reader.old ≤ 31 → HasLeft reader.old (2 * leading High true reader.old + 1)
        → (result ≡ record { status = pos 0; value = signed_at (golomb High reader.old) })
        × Advanced (2 * leading High true reader.old + 1) reader.old reader.new }
    ensures short { leading High true reader.old ≤ 31 → ¬ HasLeft reader.old (2 * leading High true reader.old + 1)
        → (result ≡ record { status = pos 1; value = pos 0 }) × IsSame reader.old reader.new }
    ensures long { 31 < leading High true reader.old → HasLeft reader.old 32
        → (result ≡ record { status = pos 6; value = pos 0 }) × IsSame reader.old reader.new }
    ensures far { 31 < leading High true reader.old → ¬ HasLeft reader.old 32
        → (result ≡ record { status = pos 1; value = pos 0 }) × IsSame reader.old reader.new }
{
    read_se::<BE>(reader)
}

/// Reads a signed exponential Golomb number, the lowest bit of each byte first.
#[unsafe(no_mangle)]
pub extern "C" fn proved_bits_read_se_le(reader: &mut BitsReader) -> Signed
    ensures there { leading Low true reader.old ≤ 31 → HasLeft reader.old (2 * leading Low true reader.old + 1)
        → (result ≡ record { status = pos 0; value = signed_at (golomb Low reader.old) })
        × Advanced (2 * leading Low true reader.old + 1) reader.old reader.new }
    ensures short { leading Low true reader.old ≤ 31 → ¬ HasLeft reader.old (2 * leading Low true reader.old + 1)
        → (result ≡ record { status = pos 1; value = pos 0 }) × IsSame reader.old reader.new }
    ensures long { 31 < leading Low true reader.old → HasLeft reader.old 32
        → (result ≡ record { status = pos 6; value = pos 0 }) × IsSame reader.old reader.new }
    ensures far { 31 < leading Low true reader.old → ¬ HasLeft reader.old 32
        → (result ≡ record { status = pos 1; value = pos 0 }) × IsSame reader.old reader.new }
{
    read_se::<LE>(reader)
}
