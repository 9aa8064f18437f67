//! Numbers at a place in bytes.
ghost use Rattle.std.specs.Prelude.{◌≡◌, ◌+◌, ◌*◌, ◌<◌, ◌≤◌, Ok, false, get_or, length, take, drop};
ghost use Rattle.bitstream_io.specs.Callers.{Reads, and_then, pure, number, bits, signed_number, skip_decoder, unsigned_decoder, signed_decoder};

use bitstream_io::{BitRead, BitReader, Endianness, Error};

/// Skips bits, and reads a number after them.
#[inline(always)]
fn read_after<R: BitRead>(reader: &mut R, skipped: u32, width: u32) -> Result<u64, Error>
    ensures { Reads R.source (and_then (skip_decoder skipped) (λ _. and_then (unsigned_decoder R.source.order 64 width) (λ v. pure v)))
        reader.old result reader.new }
{
    reader.skip(skipped)?;
    let value = reader.read_unsigned_var::<u64>(width)?;
    Ok(value)
}

/// Reads the number in `width` bits after `skipped` bits.
#[inline(always)]
fn number_after<O: Endianness>(bytes: &[u8], skipped: u32, width: u32) -> Result<u64, Error>
    requires few { width ≤ 64 }
    requires there { skipped + width ≤ 8 * length bytes.now }
    ensures { result ≡ Ok (number O.order (take width (drop skipped (bits O.order bytes.now)))) }
{
    read_after(&mut BitReader::<_, O>::over(bytes), skipped, width)
}

/// Returns the number in `width` bits after `skipped` bits.
#[inline(always)]
pub(crate) fn number_in<O: Endianness>(bytes: &[u8], skipped: u32, width: u32) -> u64
    requires few { width ≤ 64 }
    requires there { skipped + width ≤ 8 * length bytes.now }
    ensures { result ≡ number O.order (take width (drop skipped (bits O.order bytes.now))) }
{
    match number_after::<O>(bytes, skipped, width) {
        Ok(value) => value,
        Err(_) => unreachable!(),
    }
}

/// Skips bits, and reads a signed number after them.
#[inline(always)]
fn read_signed_after<R: BitRead>(reader: &mut R, skipped: u32, width: u32) -> Result<i64, Error>
    ensures { Reads R.source (and_then (skip_decoder skipped) (λ _. and_then (signed_decoder R.source.order 64 width) (λ v. pure v)))
        reader.old result reader.new }
{
    reader.skip(skipped)?;
    let value = reader.read_signed_var::<i64>(width)?;
    Ok(value)
}

/// Reads the signed number in `width` bits after `skipped` bits.
#[inline(always)]
fn signed_after<O: Endianness>(bytes: &[u8], skipped: u32, width: u32) -> Result<i64, Error>
    requires some { 1 ≤ width }
    requires few { width ≤ 64 }
    requires there { skipped + width ≤ 8 * length bytes.now }
    ensures { result ≡ Ok (signed_number O.order (take width (drop skipped (bits O.order bytes.now)))) }
{
    read_signed_after(&mut BitReader::<_, O>::over(bytes), skipped, width)
}

/// Returns the signed number in `width` bits after `skipped` bits.
#[inline(always)]
fn signed_in<O: Endianness>(bytes: &[u8], skipped: u32, width: u32) -> i64
    requires some { 1 ≤ width }
    requires few { width ≤ 64 }
    requires there { skipped + width ≤ 8 * length bytes.now }
    ensures { result ≡ signed_number O.order (take width (drop skipped (bits O.order bytes.now))) }
{
    match signed_after::<O>(bytes, skipped, width) {
        Ok(value) => value,
        Err(_) => unreachable!(),
    }
}

/// Returns the bytes after the first `first` bytes.
#[inline(always)]
fn from_byte(bytes: &[u8], first: usize) -> &[u8]
    requires { first ≤ length bytes.now }
    ensures { result.now ≡ drop first bytes.now }
{
    &bytes[first..]
}

/// Returns the number in `width` bits after the first `at` bits.
#[inline(always)]
pub(crate) fn number_at<O: Endianness>(bytes: &[u8], at: u64, width: u32) -> u64
    requires few { width ≤ 64 }
    requires there { at + width ≤ 8 * length bytes.now }
    ensures { result ≡ number O.order (take width (drop at (bits O.order bytes.now))) }
{
    number_in::<O>(from_byte(bytes, (at / 8) as usize), (at % 8) as u32, width)
}

/// Returns the signed number in `width` bits after the first `at` bits.
#[inline(always)]
pub(crate) fn signed_at<O: Endianness>(bytes: &[u8], at: u64, width: u32) -> i64
    requires some { 1 ≤ width }
    requires few { width ≤ 64 }
    requires there { at + width ≤ 8 * length bytes.now }
    ensures { result ≡ signed_number O.order (take width (drop at (bits O.order bytes.now))) }
{
    signed_in::<O>(from_byte(bytes, (at / 8) as usize), (at % 8) as u32, width)
}

/// Returns the bit after the first `at` bits.
#[inline(always)]
pub(crate) fn bit_at<O: Endianness>(bytes: &[u8], at: u64) -> bool
    requires { at < 8 * length bytes.now }
    ensures { result ≡ get_or (bits O.order bytes.now) at false }
{
    number_at::<O>(bytes, at, 1) == 1
}
