//! Shifts bytes to make room for queued bits before them.
ghost use Rattle.std.specs.Prelude.{◌≡◌, ◌+◌, ◌-◌, ◌^◌, ◌<◌, ◌≤◌, length, take, drop};
ghost use Rattle.bitstream_number.specs.Word.{bits};
ghost use Rattle.bitstream_order.specs.Moving.Shift.{Shifts};

use crate::order::Endianness;
use bitstream_number::number::{Numeric, Primitive, UnsignedInteger};

/// Prepends the queued bits to bytes in place, one value of type U at a time. The last bytes, fewer
/// than the size of U, are left unshifted. Returns the number of bytes shifted, and the `queued`
/// bits left over. Each iteration carries the whole value of the previous iteration; only its last
/// bits count.
#[inline(always)]
fn shift_values<E: Endianness, U: UnsignedInteger>(
    queue: u8,
    queued: u32,
    bytes: &mut [u8],
) -> (usize, u8)
    requires some { 1 ≤ queued }
    requires few { queued < 8 }
    requires small { queue < 2 ^ queued }
    // The queue and the old bits of the shifted bytes are their new bits and the bits left over.
    ensures shifts { Shifts E.order queued queue (bits E.order (take result.0 bytes.old))
        (bits E.order (take result.0 bytes.new)) result.1 }
    // The bits left over fit in `queued` bits.
    ensures small { result.1 < 2 ^ queued }
    ensures rest { drop result.0 bytes.new ≡ drop result.0 bytes.old }
    // No more bytes are shifted than there are.
    ensures within { result.0 ≤ length bytes.old }
    // Fewer than `U::BYTES` bytes are left unshifted.
    ensures most { length bytes.old < result.0 + U.BYTES }
    ensures len { length bytes.new ≡ length bytes.old }
{
    // The queue is treated as the last bits of a value that precedes the first one.
    let rest = U::BITS_SIZE - queued;
    let mut before = E::put(U::ZERO, rest, U::from_u8(queue), queued);
    let mut at = 0;
    while bytes.len() - at >= U::BYTES {
        let end = at + U::BYTES;
        let mut part = U::buffer();
        U::as_bytes_mut(&mut part).copy_from_slice(&bytes[at..end]);
        let value = E::of_bytes::<U>(part);
        // The last bits of the previous value, and then this value without its own last bits.
        let shifted = E::to_bytes(E::shift_in(before, queued, value));
        bytes[at..end].copy_from_slice(U::as_bytes(&shifted));
        before = value;
        at = end;
    }
    // The last bits of the last value are left over. If no value was shifted, they are the queue.
    (at, E::cut(before, U::BITS_SIZE, rest, queued))
}

/// Prepends the queued bits to bytes in place, and returns the `queued` bits left over.
#[inline(always)]
pub fn shift<E: Endianness>(queue: u8, queued: u32, bytes: &mut [u8]) -> u8
    requires some { 1 ≤ queued }
    requires few { queued < 8 }
    requires small { queue < 2 ^ queued }
    // The queue and the old bits of the bytes are their new bits and the bits left over.
    ensures shifts { Shifts E.order queued queue (bits E.order bytes.old)
        (bits E.order bytes.new) result }
    // The bits left over fit in `queued` bits.
    ensures small { result < 2 ^ queued }
    ensures len { length bytes.new ≡ length bytes.old }
{
    let (at, left) = shift_values::<E, u64>(queue, queued, bytes);
    // Fewer than 8 bytes are left. They are shifted one by one.
    shift_values::<E, u8>(left, queued, &mut bytes[at..]).1
}
