//! Numbers in groups of 7 bits, the lowest group first. They may end in groups of zeros (section
//! 4.10.5).
ghost use Rattle.std.specs.Prelude.{◌≡◌, ◌++◌, ◌*◌, ◌<◌, ◌≤◌, ◌^◌, ℕ, Bool, List, Ok, length};
ghost use Rattle.bitstream_io.specs.Callers.{Order, ReadsOwn, Done, write_sequence};
ghost use Rattle.bitstream_formats.specs.Leb128.{becomes_av1, groups_decoder, leb128_decoder, leb128_writes, small};

use super::Av1Error;
use bitstream_io::{BitRead, BitReadExt, Bits};

/// Reads a number below 2^32 in at most eight bytes, `leb128()`.
///
/// # Errors
///
/// `TooLarge` for a number of 2^32 or more, after it has been read, and if the eighth byte announces a
/// ninth, after eight bytes have been read. Otherwise the errors of the reader.
pub fn read_leb128<R: BitRead>(reader: &mut R) -> Result<u32, Av1Error>
    ensures { ReadsOwn R.source becomes_av1 (leb128_decoder R.source.order) reader.old result reader.new }
{
    read_groups(reader, 8, 1, 0)
}

/// Returns the number if it is below 2^32.
fn small(value: u64) -> Result<u32, Av1Error>
    ensures { result ≡ small value }
{
    if value > 0xffff_ffff {
        return Err(Av1Error::TooLarge);
    }
    Ok(value as u32)
}

/// Reads at most `room` more bytes. `value` is the number in the bytes before them, and `place` is the
/// weight of the next bit.
fn read_groups<R: BitRead>(
    reader: &mut R,
    room: u32,
    place: u64,
    value: u64,
) -> Result<u32, Av1Error>
    requires room { place * 128 ^ room ≤ 2 ^ 56 }
    requires below { value < place }
    ensures { ReadsOwn R.source becomes_av1 (groups_decoder R.source.order room place value)
        reader.old result reader.new }
{
    if room == 0 {
        return Err(Av1Error::TooLarge);
    }
    let byte = reader.read::<Bits<8>, u64>()?;
    if byte < 128 {
        return small(value + place * byte);
    }
    read_groups(reader, room - 1, 128 * place, value + place * (byte - 128))
}

/// A number is read back as it was written, in either order of bits, at any place.
pub fn leb128_numbers_round_trip()
    ensures { (o : Order) (value at from : ℕ) (more : List Bool) → value < 2 ^ 32
        → let word = write_sequence (leb128_writes o value) at in
        (leb128_decoder o).reads from (word ++ more) ≡ Done (length word) (Ok (Ok value)) }
{}
