//! Bytes.
ghost use Rattle.std.specs.Prelude.{◌≡◌, ◌+◌, ◌*◌, ◌^◌, ◌<◌, ◌≤◌, length, take, drop, pos};
ghost use Rattle.bitstream_io.specs.Callers.{High, Low, bits};
ghost use Rattle.bits_c.specs.Reader.{HasLeft, Advanced, IsSame};

use super::{BitsReader, has};
use crate::numbers::number_at;
use bitstream_io::{BE, Endianness, LE};

/// Fills a buffer with the bytes after the first `at` bits.
fn fill<O: Endianness>(bytes: &[u8], at: u64, buffer: &mut [u8])
    requires there { at + 8 * length buffer.old ≤ 8 * length bytes.now }
    requires below { at + 8 * length buffer.old < 2 ^ 64 }
    ensures { bits O.order buffer.new ≡ take (8 * length buffer.old) (drop at (bits O.order bytes.now)) }
{
    for k in 0..buffer.len() {
        buffer[k] = number_at::<O>(bytes, at + 8 * k as u64, 8) as u8;
    }
}

/// Reads bytes into a buffer, until it is full.
#[inline(always)]
fn read_bytes<O: Endianness>(reader: &mut BitsReader, buffer: &mut [u8]) -> i32
    ensures there { HasLeft reader.old (8 * length buffer.old)
        → (result ≡ pos 0) × Advanced (8 * length buffer.old) reader.old reader.new
        × (bits O.order buffer.new ≡ take (8 * length buffer.old) (drop reader.old.at (bits O.order reader.old.bytes.now))) }
    ensures short { ¬ HasLeft reader.old (8 * length buffer.old)
        → (result ≡ pos 1) × IsSame reader.old reader.new × (buffer.new ≡ buffer.old) }
{
    let count = 8 * buffer.len() as u128;
    if !has(reader, count) {
        return 1;
    }
    fill::<O>(reader.bytes, reader.at, buffer);
    reader.at += count as u64;
    0
}

/// Reads bytes into a buffer, the highest bit of each first.
#[unsafe(no_mangle)]
pub extern "C" fn proved_bits_read_bytes(reader: &mut BitsReader, buffer: &mut [u8]) -> i32
    ensures there { HasLeft reader.old (8 * length buffer.old)
        → (result ≡ pos 0) × Advanced (8 * length buffer.old) reader.old reader.new
        × (bits High buffer.new ≡ take (8 * length buffer.old) (drop reader.old.at (bits High reader.old.bytes.now))) }
    ensures short { ¬ HasLeft reader.old (8 * length buffer.old)
        → (result ≡ pos 1) × IsSame reader.old reader.new × (buffer.new ≡ buffer.old) }
{
    read_bytes::<BE>(reader, buffer)
}

/// Reads bytes into a buffer, the lowest bit of each first.
#[unsafe(no_mangle)]
pub extern "C" fn proved_bits_read_bytes_le(reader: &mut BitsReader, buffer: &mut [u8]) -> i32
    ensures there { HasLeft reader.old (8 * length buffer.old)
        → (result ≡ pos 0) × Advanced (8 * length buffer.old) reader.old reader.new
        × (bits Low buffer.new ≡ take (8 * length buffer.old) (drop reader.old.at (bits Low reader.old.bytes.now))) }
    ensures short { ¬ HasLeft reader.old (8 * length buffer.old)
        → (result ≡ pos 1) × IsSame reader.old reader.new × (buffer.new ≡ buffer.old) }
{
    read_bytes::<LE>(reader, buffer)
}
