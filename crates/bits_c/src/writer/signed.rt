//! Signed numbers, in two's complement.
ghost use Rattle.std.specs.Prelude.{◌≡◌, ◌-◌, ◌^◌, ◌<◌, ◌≤◌, pos};
ghost use Rattle.bitstream_io.specs.Callers.{FitsSignedBits, High, Low};
ghost use Rattle.bitstream_io.specs.Word.{residue, signed_word};
ghost use Rattle.bits_c.specs.Writer.{IsSameWriter, WritesBits, magnitude};

use super::{BitsWriter, fits, write_unsigned};
use bitstream_io::{BE, Endianness, LE};

/// Returns the number, or for a negative number -1 minus it.
#[inline(always)]
fn magnitude_of(value: i64) -> u64
    ensures { result ≡ magnitude value }
{
    if value < 0 {
        value.unsigned_abs() - 1
    } else {
        value.unsigned_abs()
    }
}

/// Returns the number of the two's complement of a signed number in `width` bits.
#[inline(always)]
fn complement(width: u32, value: i64) -> u64
    requires some { 1 ≤ width }
    requires few { width ≤ 64 }
    requires fits { FitsSignedBits width value }
    ensures is { result ≡ residue width value }
    ensures below { result < 2 ^ width }
{
    let magnitude = magnitude_of(value);
    if value < 0 {
        ((1u128 << width) - 1 - u128::from(magnitude)) as u64
    } else {
        magnitude
    }
}

/// Writes a signed number of 1 to 64 bits.
#[inline(always)]
fn write_signed<O: Endianness>(writer: &mut BitsWriter, width: u32, value: i64) -> i32
    ensures there { 1 ≤ width → width ≤ 64 → FitsSignedBits width value
        → WritesBits O.order (signed_word O.order width value) writer.old result writer.new }
    ensures misfit { 1 ≤ width → width ≤ 64 → ¬ FitsSignedBits width value
        → (result ≡ pos 5) × IsSameWriter writer.old writer.new }
    ensures wide { 64 < width → (result ≡ pos 2) × IsSameWriter writer.old writer.new }
    ensures none { width ≡ 0 → (result ≡ pos 2) × IsSameWriter writer.old writer.new }
{
    if width == 0 || width > 64 {
        return 2;
    }
    if !fits(width - 1, magnitude_of(value)) {
        return 5;
    }
    write_unsigned::<O>(writer, width, complement(width, value))
}

/// Writes a signed number of 1 to 64 bits, the highest bit first.
#[unsafe(no_mangle)]
pub extern "C" fn proved_bits_write_signed(writer: &mut BitsWriter, width: u32, value: i64) -> i32
    ensures there { 1 ≤ width → width ≤ 64 → FitsSignedBits width value
        → WritesBits High (signed_word High width value) writer.old result writer.new }
    ensures misfit { 1 ≤ width → width ≤ 64 → ¬ FitsSignedBits width value
        → (result ≡ pos 5) × IsSameWriter writer.old writer.new }
    ensures wide { 64 < width → (result ≡ pos 2) × IsSameWriter writer.old writer.new }
    ensures none { width ≡ 0 → (result ≡ pos 2) × IsSameWriter writer.old writer.new }
{
    write_signed::<BE>(writer, width, value)
}

/// Writes a signed number of 1 to 64 bits, the lowest bit first.
#[unsafe(no_mangle)]
pub extern "C" fn proved_bits_write_signed_le(
    writer: &mut BitsWriter,
    width: u32,
    value: i64,
) -> i32
    ensures there { 1 ≤ width → width ≤ 64 → FitsSignedBits width value
        → WritesBits Low (signed_word Low width value) writer.old result writer.new }
    ensures misfit { 1 ≤ width → width ≤ 64 → ¬ FitsSignedBits width value
        → (result ≡ pos 5) × IsSameWriter writer.old writer.new }
    ensures wide { 64 < width → (result ≡ pos 2) × IsSameWriter writer.old writer.new }
    ensures none { width ≡ 0 → (result ≡ pos 2) × IsSameWriter writer.old writer.new }
{
    write_signed::<LE>(writer, width, value)
}
