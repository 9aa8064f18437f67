//! Bytes up to a terminator, such as C strings. Code printed by `./format` calls these functions.
ghost use Rattle.bitstream_format.specs.Until.{until_decoder, until_item, until_writes};
ghost use Rattle.std.specs.Prelude.{◌≡◌};
ghost use Rattle.bitstream_io.specs.Callers.{WritesAll, result_map};
ghost use Rattle.bitstream_io.specs.Grows.{GrowingOutcome};

use bitstream_io::{BitRead, BitWrite, Error};
use std::alloc::Global;

/// Reads bytes up to the first `stop`. The terminator is read too, and is not in the `Vec`. No bit after it is
/// read. The `Vec` grows as the bytes are read.
///
/// # Errors
///
/// `RunTooLong` if `stop` is not among the first 2^32 bytes. After it the reader has failed. `OutOfMemory` if an
/// allocation fails, after the bytes before have been read. Otherwise, the errors of the reader.
///
/// # Examples
///
/// ```
/// use bitstream_format::until::read_until;
/// use bitstream_io::{BE, BitReader};
///
/// let mut reader = BitReader::<_, BE>::over(b"boot\0next");
/// let name = read_until(&mut reader, rt.alloc(), 0)?;
/// assert_eq!(rt; name.as_slice(), b"boot".as_slice());
/// ```
pub fn read_until<R: BitRead>(reader: &mut R, alloc: Global, stop: u8) -> Result<Vec<u8>, Error>
    ensures { GrowingOutcome R.source (until_decoder R.source.order stop)
        reader.old (result_map (λ found. found.items) result) reader.new }
{
    let mut found = Vec::new(alloc);
    for _ in 0..4294967296_u64 {
        let byte: u8 = reader.read_unsigned_var(8)?;
        if byte == stop {
            return Ok(found);
        }
        found.push(byte)?;
    }
    reader.fail();
    Err(Error::RunTooLong)
}

/// Returns the number that is written for a byte. For the terminator it is 256, which does not fit 8 bits.
fn until_item(stop: u8, byte: u8) -> u16
    ensures { result ≡ until_item stop byte }
{
    if byte == stop {
        return 256;
    }
    u16::from(byte)
}

/// Writes bytes, and `stop` after them.
///
/// # Errors
///
/// `Checked` for a byte that is `stop`, after the bytes before it have been written. Otherwise, the errors of the sink.
pub fn write_until<W: BitWrite>(writer: &mut W, bytes: &[u8], stop: u8) -> Result<(), Error>
    ensures { WritesAll W.sink (until_writes W.sink.order stop bytes.now) writer.old result writer.new }
{
    for byte in bytes {
        writer.write_unsigned_var(8, until_item(stop, *byte))?;
    }
    writer.write_unsigned_var(8, stop)
}
