//! Rice numbers (section 9.2.7).
ghost use Rattle.std.specs.Prelude.{◌≡◌, ◌++◌, ◌+◌, ◌*◌, ◌<◌, ◌/◌, ◌^◌, ℕ, ℤ, Bool, List, Ok, length};
ghost use Rattle.bitstream_io.specs.Callers.{Order, Reads, Done, write_sequence, WritesAll};
ghost use Rattle.bitstream_io.specs.Word.{zag, zig};
ghost use Rattle.flac_codec.specs.Rice.{rice_decoder, rice_writes};

use bitstream_io::{BitRead, BitReadExt, BitWrite, BitWriteExt, Bits, Error};

/// Reads a Rice number: its place in the order 0, -1, 1, -2, 2 and so on, with the high part in unary and then `parameter`
/// low bits.
///
/// # Errors
///
/// Returns the reader's errors.
#[inline(always)]
pub fn read_rice<R: BitRead>(reader: &mut R, parameter: u32) -> Result<i64, Error>
    requires { parameter < 32 }
    ensures { Reads R.source (rice_decoder R.source.order parameter) reader.old result reader.new }
{
    let high = reader.read_unary::<Bits<1>>()?;
    let low: u64 = reader.read_var(parameter)?;
    Ok(joined(high, low, parameter))
}

/// Returns the number whose place has this high part and these low bits.
#[inline(always)]
fn joined(high: u32, low: u64, parameter: u32) -> i64
    requires few { parameter < 32 }
    requires fits { low < 2 ^ parameter }
    ensures { result ≡ zag (2 ^ parameter * high + low) }
{
    let place = (1u64 << parameter) * high as u64 + low;
    let half = (place / 2) as i64;
    if place % 2 == 0 { half } else { -half - 1 }
}

/// Writes a Rice number.
///
/// # Errors
///
/// Returns the writer's errors.
#[inline(always)]
pub fn write_rice<W: BitWrite>(writer: &mut W, parameter: u32, value: i64) -> Result<(), Error>
    requires few { parameter < 32 }
    requires fits { zig value < 2 ^ 32 }
    ensures { WritesAll W.sink (rice_writes W.sink.order parameter value) writer.old result writer.new }
{
    let place = place_of(value);
    let scale = 1u64 << parameter;
    writer.write_unary::<Bits<1>>((place / scale) as u32)?;
    writer.write_var(parameter, place % scale)
}

/// Returns the place of a number in the order 0, -1, 1, -2, 2 and so on.
#[inline(always)]
fn place_of(value: i64) -> u64
    requires { zig value < 2 ^ 32 }
    ensures { result ≡ zig value }
{
    if value >= 0 {
        2 * value as u64
    } else {
        2 * (-(value + 1)) as u64 + 1
    }
}

/// A Rice number is read back as it was written, in either order of bits, wherever it is, if its high part is below 2^32.
pub fn rice_round_trip()
    ensures { (o : Order) (k : ℕ) (x : ℤ) (at from : ℕ) (more : List Bool) → k < 32
        → zig x / 2 ^ k < 2 ^ 32
        → let word = write_sequence (rice_writes o k x) at in
        (rice_decoder o k).reads from (word ++ more) ≡ Done (length word) (Ok x) }
{}
