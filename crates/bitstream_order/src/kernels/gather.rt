//! Takes the bits of values from the bytes of a stream.
ghost use Rattle.std.specs.Prelude.{◌≡◌, ℕ, ◌+◌, ◌^◌, ◌<◌, ◌≤◌};
ghost use Rattle.bitstream_order.specs.Refusal.{MayRefuseRead};
ghost use Rattle.bitstream_order.specs.Port.{source_state, requests_count};
ghost use Rattle.bitstream_order.specs.Moving.Gather.{TakesBits, padding_bits, result_map};

use crate::order::Endianness;
use crate::port::Port;
use crate::streams::source::Source;
use bitstream_count::error::Error;
use bitstream_number::number::{Numeric, Primitive, UnsignedInteger};

/// Returns the number of padding bits (0 to 7) when n bits are stored in whole bytes.
#[inline(always)]
pub fn unused_bits(n: u32) -> u32
    ensures { result ≡ padding_bits n }
{
    (8 - n % 8) % 8
}

/// Takes the next n bits of the stream by one request for the bytes that hold them. Appends these n
/// bits to the `done` bits of `acc`, and returns the result as a number. Also returns a byte whose
/// first bits are the rest of the last fetched byte. `constant` is true if n is known at compile
/// time (see [`Port::fetch_prefix`]).
///
/// # Errors
///
/// The errors of [`Port::fetch`]. After an error, no byte has been fetched.
#[inline(always)]
pub fn take_bits<S: Source, E: Endianness, U: UnsignedInteger>(
    port: &mut Port<S>,
    acc: U,
    done: u32,
    n: u32,
    constant: bool,
) -> Result<(U, u8), Error>
    requires below { U.value acc < 2 ^ done }
    requires some { 1 ≤ n }
    requires room { done + n ≤ U.BITS_SIZE }
    // The next n bits of the stream follow the `done` bits, and the rest of the last byte is
    // returned too. Or the request fails.
    ensures takes { TakesBits (MayRefuseRead S.stream) E.order done (U.value acc) n
        (source_state S.stream port.old) (result_map (λ p. (U.value p.0, p.1)) result)
        (source_state S.stream port.new) }
    ensures requests { requests_count port.new ≡ requests_count port.old + 1 }
{
    let mut bytes = U::buffer();
    // Only the bytes that hold these bits are requested.
    let count = (n + 7) / 8;
    match port.fetch_prefix(U::as_bytes_mut(&mut bytes), count as usize, constant) {
        Ok(()) => {
            // The bytes as one value: its first n bits are taken, and the bits after them are left.
            let value = E::of_bytes::<U>(bytes);
            let left = E::byte_behind(value, n);
            Ok((E::put(acc, done, E::prefix(value, n), n), left))
        }
        Err(error) => Err(error),
    }
}
