//! Sends the bits of values to a stream.
ghost use Rattle.std.specs.Prelude.{◌≡◌, ℕ, ◌+◌, ◌^◌, ◌<◌, ◌≤◌, IfOk};
ghost use Rattle.bitstream_order.specs.Refusal.{MayRefuseWrite};
ghost use Rattle.bitstream_number.specs.Word.{word};
ghost use Rattle.bitstream_order.specs.Port.{target_state, requests_count};
ghost use Rattle.bitstream_order.specs.Moving.Send.{SendsPrefix};

use crate::order::Endianness;
use crate::port::Port;
use crate::streams::target::Target;
use bitstream_count::error::Error;
use bitstream_number::number::{Numeric, Primitive, UnsignedInteger};

/// Appends the n bits of a value to a queue of bits, and sends the whole bytes of the result by one
/// request. Returns the number of the n bits that were sent: fewer than 8 are left.
///
/// # Errors
///
/// The errors of [`Port::send`]. After an error, none of these bits is counted as sent.
#[inline(always)]
pub fn send_prefix<T: Target, E: Endianness, U: UnsignedInteger>(
    port: &mut Port<T>,
    queue: u8,
    queued: u32,
    value: U,
    n: u32,
) -> Result<u32, Error>
    requires few { queued < 8 }
    requires small { queue < 2 ^ queued }
    requires full { 8 ≤ queued + n }
    requires room { n ≤ U.BITS_SIZE }
    // The queue is sent, and then the first bits of the value: the result is their number. Or the
    // request fails.
    ensures sends { SendsPrefix (MayRefuseWrite T.stream) E.order
        (word E.order queued queue) (word E.order n (U.value value))
        (target_state T.stream port.old) result (target_state T.stream port.new) }
    ensures within { IfOk result (λ done. done ≤ n) }
    // If it succeeds, fewer than 8 of the n bits are left.
    ensures rest { IfOk result (λ done. n < done + 8) }
    ensures requests { requests_count port.new ≡ requests_count port.old + 1 }
{
    // The first bits of this value are the queue and then the n bits. Its first bytes are full.
    let bytes = E::to_bytes(E::behind(queue, queued, E::to_front(value, n)));
    let count = (queued + n) / 8;
    match port.send(&U::as_bytes(&bytes)[..count as usize]) {
        // The first of the bits sent were the queue's.
        Ok(()) => Ok(8 * count - queued),
        Err(error) => Err(error),
    }
}
