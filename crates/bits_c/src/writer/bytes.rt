//! Bytes.
ghost use Rattle.std.specs.Prelude.{◌≡◌, ◌*◌, length};
ghost use Rattle.bitstream_io.specs.Callers.{High, Low, bits};
ghost use Rattle.bits_c.specs.Writer.{WritesBits};

use super::{BitsWriter, append, has_room};
use bitstream_io::{BE, Endianness, LE};

/// Writes bytes.
#[inline(always)]
fn write_bytes<O: Endianness>(writer: &mut BitsWriter, bytes: &[u8]) -> i32
    ensures { WritesBits O.order (bits O.order bytes.now) writer.old result writer.new }
{
    if !has_room(writer, 8 * bytes.len() as u128) {
        return 4;
    }
    for byte in bytes {
        append::<O>(writer, 8, u64::from(*byte));
    }
    0
}

/// Writes bytes, the highest bit of each first.
#[unsafe(no_mangle)]
pub extern "C" fn proved_bits_write_bytes(writer: &mut BitsWriter, bytes: &[u8]) -> i32
    ensures { WritesBits High (bits High bytes.now) writer.old result writer.new }
{
    write_bytes::<BE>(writer, bytes)
}

/// Writes bytes, the lowest bit of each first.
#[unsafe(no_mangle)]
pub extern "C" fn proved_bits_write_bytes_le(writer: &mut BitsWriter, bytes: &[u8]) -> i32
    ensures { WritesBits Low (bits Low bytes.now) writer.old result writer.new }
{
    write_bytes::<LE>(writer, bytes)
}
