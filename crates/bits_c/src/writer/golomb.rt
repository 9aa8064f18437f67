//! Unary numbers, and exponential Golomb numbers.
ghost use Rattle.std.specs.Prelude.{◌≡◌, ◌+◌, ◌-◌, ◌^◌, ◌<◌, ◌≤◌, ◌∷◌, [], not, pos, replicate, unsigned_abs};
ghost use Rattle.bitstream_io.specs.Callers.{High, Low, Order, word, write_sequence};
ghost use Rattle.bitstream_io.specs.Golomb.{place_of, se_writes, ue_writes};
ghost use Rattle.bitstream_io.specs.Unary.{unary};
ghost use Rattle.bits_c.specs.Writer.{HasRoom, IsSameWriter, Wrote, WritesBits};

use super::{BitsWriter, append, has_room};
use bitstream_io::{BE, Endianness, LE};

/// Returns the number that consists of `width` bits, none of which is the stop bit.
#[inline(always)]
fn others(width: u32, stop: bool) -> u64
    requires { width ≤ 64 }
    ensures below { result < 2 ^ width }
    ensures bits { (o : Order) → word o width result ≡ replicate width (not stop) }
{
    if stop {
        0
    } else {
        ((1u128 << width) - 1) as u64
    }
}

/// Returns the stop bit as a number.
#[inline(always)]
fn number_of(stop: bool) -> u64
    ensures below { result < 2 ^ 1 }
    ensures bits { (o : Order) → word o 1 result ≡ stop ∷ [] }
{
    if stop { 1 } else { 0 }
}

/// Writes `count` bits that are not the stop bit.
fn append_others<O: Endianness>(writer: &mut BitsWriter, stop: bool, count: u64)
    requires { HasRoom writer.old count }
    ensures { Wrote O.order (replicate count (not stop)) writer.old writer.new }
{
    let mut left = count;
    while left > 0 {
        let width = left.min(64) as u32;
        append::<O>(writer, width, others(width, stop));
        left -= u64::from(width);
    }
}

/// Writes a unary number that the buffer has room for.
#[inline(always)]
fn append_unary<O: Endianness>(writer: &mut BitsWriter, stop: bool, count: u64)
    requires { HasRoom writer.old (count + 1) }
    ensures { Wrote O.order (unary stop count) writer.old writer.new }
{
    append_others::<O>(writer, stop, count);
    append::<O>(writer, 1, number_of(stop));
}

/// Writes a unary number: `count` bits that are not the stop bit, and then the stop bit.
#[inline(always)]
fn write_unary<O: Endianness>(writer: &mut BitsWriter, stop: bool, count: u64) -> i32
    ensures { WritesBits O.order (unary stop count) writer.old result writer.new }
{
    if !has_room(writer, u128::from(count) + 1) {
        return 4;
    }
    append_unary::<O>(writer, stop, count);
    0
}

/// Writes an exponential Golomb number.
#[inline(always)]
fn write_ue<O: Endianness>(writer: &mut BitsWriter, value: u32) -> i32
    ensures there { value < 2 ^ 32 - 1
        → WritesBits O.order (write_sequence (ue_writes O.order value) 0) writer.old result writer.new }
    ensures misfit { 2 ^ 32 - 1 ≤ value → (result ≡ pos 5) × IsSameWriter writer.old writer.new }
{
    if value == u32::MAX {
        return 5;
    }
    let more = value + 1;
    let zeros = 31 - more.leading_zeros();
    if !has_room(writer, 2 * u128::from(zeros) + 1) {
        return 4;
    }
    append_unary::<O>(writer, true, u64::from(zeros));
    append::<O>(writer, zeros, u64::from(more - (1 << zeros)));
    0
}

/// Returns the place of a number in the order 0, 1, -1, 2, -2, and so on.
#[inline(always)]
fn place(value: i32) -> u32
    requires { unsigned_abs value < 2 ^ 31 }
    ensures is { result ≡ place_of value }
    ensures below { result < 2 ^ 32 - 1 }
{
    let twice = 2 * value.unsigned_abs();
    if value > 0 { twice - 1 } else { twice }
}

/// Writes a signed exponential Golomb number.
#[inline(always)]
fn write_se<O: Endianness>(writer: &mut BitsWriter, value: i32) -> i32
    ensures there { unsigned_abs value < 2 ^ 31
        → WritesBits O.order (write_sequence (se_writes O.order value) 0) writer.old result writer.new }
    ensures misfit { 2 ^ 31 ≤ unsigned_abs value → (result ≡ pos 5) × IsSameWriter writer.old writer.new }
{
    if value == i32::MIN {
        return 5;
    }
    write_ue::<O>(writer, place(value))
}

/// Writes a unary number, the highest bit of each byte first.
#[unsafe(no_mangle)]
pub extern "C" fn proved_bits_write_unary(writer: &mut BitsWriter, stop: bool, count: u64) -> i32
    ensures { WritesBits High (unary stop count) writer.old result writer.new }
{
    write_unary::<BE>(writer, stop, count)
}

/// Writes a unary number, the lowest bit of each byte first.
#[unsafe(no_mangle)]
pub extern "C" fn proved_bits_write_unary_le(writer: &mut BitsWriter, stop: bool, count: u64) -> i32
    ensures { WritesBits Low (unary stop count) writer.old result writer.new }
{
    write_unary::<LE>(writer, stop, count)
}

/// Writes an exponential Golomb number, the highest bit first.
#[unsafe(no_mangle)]
pub extern "C" fn proved_bits_write_ue(writer: &mut BitsWriter, value: u32) -> i32
    ensures there { value < 2 ^ 32 - 1
        → WritesBits High (write_sequence (ue_writes High value) 0) writer.old result writer.new }
    ensures misfit { 2 ^ 32 - 1 ≤ value → (result ≡ pos 5) × IsSameWriter writer.old writer.new }
{
    write_ue::<BE>(writer, value)
}

/// Writes an exponential Golomb number. The bits after its stop bit are written lowest first.
#[unsafe(no_mangle)]
pub extern "C" fn proved_bits_write_ue_le(writer: &mut BitsWriter, value: u32) -> i32
    ensures there { value < 2 ^ 32 - 1
        → WritesBits Low (write_sequence (ue_writes Low value) 0) writer.old result writer.new }
    ensures misfit { 2 ^ 32 - 1 ≤ value → (result ≡ pos 5) × IsSameWriter writer.old writer.new }
{
    write_ue::<LE>(writer, value)
}

/// Writes a signed exponential Golomb number, the highest bit first.
#[unsafe(no_mangle)]
pub extern "C" fn proved_bits_write_se(writer: &mut BitsWriter, value: i32) -> i32
    ensures there { unsigned_abs value < 2 ^ 31
        → WritesBits High (write_sequence (se_writes High value) 0) writer.old result writer.new }
    ensures misfit { 2 ^ 31 ≤ unsigned_abs value → (result ≡ pos 5) × IsSameWriter writer.old writer.new }
{
    write_se::<BE>(writer, value)
}

/// Writes a signed exponential Golomb number, the lowest bit first.
#[unsafe(no_mangle)]
pub extern "C" fn proved_bits_write_se_le(writer: &mut BitsWriter, value: i32) -> i32
    ensures there { unsigned_abs value < 2 ^ 31
        → WritesBits Low (write_sequence (se_writes Low value) 0) writer.old result writer.new }
    ensures misfit { 2 ^ 31 ≤ unsigned_abs value → (result ≡ pos 5) × IsSameWriter writer.old writer.new }
{
    write_se::<LE>(writer, value)
}
