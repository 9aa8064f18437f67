//! Places of bits in a stream.
ghost use Rattle.std.specs.Prelude.{◌≡◌};
ghost use Rattle.bitstream_stream.specs.Reading.Place.{bit_meant, place_of};

use std::io::SeekFrom;

/// Returns the place in bits that `to` means, which may lie outside the stream.
fn meant(at: u64, queued: u32, to: SeekFrom) -> i128
    ensures { result ≡ bit_meant at queued to }
{
    let byte = 8 * at as i128;
    match to {
        SeekFrom::Start(x) => x as i128,
        SeekFrom::End(n) => byte - n as i128,
        SeekFrom::Current(d) => byte - queued as i128 + d as i128,
    }
}

/// Returns the place in bits that `to` means: x for `Start(x)`, n bits before the end for `End(n)`
/// (unlike in std), and d bits after the reader's place for `Current(d)`. `at` is the position in
/// bytes that the stream returns; for `End` it is the position of the stream's end. `queued` is the
/// number of bits before `at` that are fetched and not yet taken.
///
/// Returns `None` if the place is below 0 or above 2^64 - 1. No intermediate result wraps.
///
/// # Examples
///
/// ```
/// use bitstream_io::read::bit_place;
/// use std::io::SeekFrom;
///
/// assert_eq!(rt; bit_place(4, 0, SeekFrom::End(7)), Some(25));
/// assert_eq!(rt; bit_place(4, 3, SeekFrom::Current(-30)), None);
/// ```
pub fn bit_place(at: u64, queued: u32, to: SeekFrom) -> Option<u64>
    ensures { result ≡ place_of (bit_meant at queued to) }
{
    u64::try_from(meant(at, queued, to)).ok()
}
