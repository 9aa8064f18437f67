//! Functions whose results on bytes in memory are known: their contracts have no premise about a stream.
ghost use Rattle.std.specs.Prelude.{◌≡◌, ◌+◌, ◌*◌, ◌<◌, ◌≤◌, length, map, take, Ok, Err, IsOkAnd};
ghost use Rattle.std.specs.Int.NonZero.{non_zero_u8_get};
ghost use Rattle.bitstream_io.specs.Array.{words};
ghost use Rattle.bitstream_io.specs.Word.{High, Low, number, bits};
ghost use Rattle.bitstream_io.specs.Error.TheVariants.{EndOfInput};

use crate::asserts::{each_holds, gives};
use bitstream_io::{BE, BitRead, BitReadExt, BitReader, Bits, Error, LE, Slice};
use std::num::NonZero;

/// Returns the number of the first 12 bits.
///
/// # Errors
///
/// `EndOfInput` for fewer bits.
pub fn first_word(bytes: &[u8]) -> Result<u16, Error>
    ensures there { 12 ≤ 8 * length bytes.now
        → result ≡ Ok (number High (take 12 (bits High bytes.now))) }
    ensures short { 8 * length bytes.now < 12 → result ≡ Err EndOfInput }
{
    let mut reader = BitReader::<Slice, BE>::new(Slice::new(bytes));
    reader.read_unsigned_var(12)
}

/// Returns the number of the first 4 bits, plus 1.
///
/// # Errors
///
/// `EndOfInput` for fewer bits.
pub fn first_track(bytes: &[u8]) -> Result<NonZero<u8>, Error>
    ensures there { 4 ≤ 8 * length bytes.now
        → IsOkAnd result
        (λ track. non_zero_u8_get track ≡ number Low (take 4 (bits Low bytes.now)) + 1) }
    ensures short { 8 * length bytes.now < 4 → result ≡ Err EndOfInput }
{
    let mut reader = BitReader::<Slice, LE>::new(Slice::new(bytes));
    reader.read_var(4)
}

/// Returns the first three numbers of 9 bits each.
///
/// # Errors
///
/// `EndOfInput` for fewer bits.
pub fn first_words(bytes: &[u8]) -> Result<[u16; 3], Error>
    ensures there { 27 ≤ 8 * length bytes.now
        → result ≡ Ok (map (number High) (words 9 3 (bits High bytes.now))) }
    ensures short { 8 * length bytes.now < 27 → result ≡ Err EndOfInput }
{
    let mut reader = BitReader::<Slice, BE>::new(Slice::new(bytes));
    reader.read::<Bits<9>, [u16; 3]>()
}

#[test]
fn reads_what_is_there(rt: HostRuntime) {
    let track = first_track(&[0x2b]).map(|track| track.get());
    let words = first_words(&[0x80, 0xc0, 0x60, 0x20]);
    let read = [
        gives(first_word(&[0xb1, 0xed]), 0xb1e),
        gives(track, 12),
        gives(words, [257, 257, 257]),
    ];
    each_holds(&rt, &read);
}
