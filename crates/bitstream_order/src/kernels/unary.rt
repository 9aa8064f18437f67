//! Takes unary numbers from the bytes of a stream.
ghost use Rattle.std.specs.Prelude.{◌≡◌, ◌+◌, ◌-◌, ◌<◌, ◌≤◌, IfOk, IfSome, OnOk};
ghost use Rattle.bitstream_number.specs.Word.{word};
ghost use Rattle.bitstream_order.specs.Parts.{first_part};
ghost use Rattle.bitstream_order.specs.Refusal.{MayRefuseRead};
ghost use Rattle.bitstream_order.specs.Port.{source_state, fetched_count, requests_count};
ghost use Rattle.bitstream_order.specs.Moving.TakeUnary.{FetchesByte, TakesUnary};

use crate::ghosts::GhostCount;
use crate::order::Endianness;
use crate::port::Port;
use crate::streams::source::Source;
use bitstream_count::error::Error;

/// Fetches one byte by one request.
///
/// # Errors
///
/// The errors of [`Port::fetch`]. After an error, no byte has been fetched.
#[inline(always)]
fn fetch_byte<S: Source>(port: &mut Port<S>) -> Result<u8, Error>
    ensures { FetchesByte (MayRefuseRead S.stream) (source_state S.stream port.old) result
        (source_state S.stream port.new) }
{
    let mut byte = [0u8; 1];
    port.fetch(&mut byte)?;
    Ok(byte[0])
}

/// A unary number that was taken, and the rest of the byte that holds its stop bit.
#[derive(Clone, Copy, Drop)]
pub struct TakenUnary {
    /// The number of bits before the stop bit.
    pub count: u32,
    /// A byte whose first bits are the bits left.
    pub left: u8,
    /// The number of bits left.
    pub queued: u32,
}

/// Takes bits up to and including the first `stop` bit: from the first `queued` bits of a byte,
/// and then from the stream, one byte per iteration. Returns `None` if 2^32 bits come before
/// any stop bit.
///
/// # Errors
///
/// The errors of [`Port::fetch`]. After an error, the bits of all bytes that were fetched before it
/// have been taken.
#[inline(always)]
pub fn take_unary<S: Source, E: Endianness>(
    port: &mut Port<S>,
    turns: &mut GhostCount,
    queue: u8,
    queued: u32,
    stop: bool,
) -> Result<Option<TakenUnary>, Error>
    requires { queued < 8 }
    // The queued bits and then the fetched bits are the unary encoding and then the bits left. Or
    // the run is too long, or a request fails.
    ensures takes { TakesUnary (MayRefuseRead S.stream) E.order stop
        (word E.order queued (first_part E.order queue 8 queued))
        (source_state S.stream port.old) result (source_state S.stream port.new) }
    // If a number was taken, fewer than 8 bits are left after it.
    ensures few { IfOk result (λ answer. IfSome answer (λ run. run.queued < 8)) }
    // Unless a request fails, the number of iterations is one more than the number of bytes
    // fetched.
    ensures turns { OnOk result (turns.new.count
        ≡ turns.old.count + (fetched_count port.new - fetched_count port.old) + 1) }
{
    // The first iteration reads the queue. The bits after the queued ones are meaningless, so a
    // stop bit there does not count.
    turns.add(1);
    let first = E::run_length(queue, stop);
    // The stop bit is in the queue, so no byte is needed.
    if first < queued {
        return Ok(Some(TakenUnary {
            count: first,
            left: E::rest(E::rest(queue, first), 1),
            queued: queued - first - 1,
        }));
    }
    // No queued bit is the stop bit, so all of them count.
    let mut count = queued;
    loop {
        // Only one more byte is fetched, since the stop bit may be in it.
        let byte = fetch_byte(port)?;
        turns.add(1);
        let lead = E::run_length(byte, stop);
        // A sum that overflows a `u32` means a run of 2^32 bits or more.
        let Some(more) = count.checked_add(lead) else {
            return Ok(None);
        };
        // The stop bit is in this byte, and the bits after it are left.
        if lead < 8 {
            return Ok(Some(TakenUnary {
                count: more,
                left: E::rest(E::rest(byte, lead), 1),
                queued: 7 - lead,
            }));
        }
        count = more;
    }
}
