//! Numbers as values of a counter's type.
ghost use Rattle.std.specs.Prelude.{◌≡◌, ℕ, ◌+◌, ◌≤◌};
ghost use Rattle.bitstream_sink.specs.Counter.{Counts};
ghost use Rattle.bitstream_stream.specs.Alignment.{to_boundary};

use crate::counter::{Counter, Overflowed};

/// Converts a `usize` to N.
///
/// # Errors
///
/// `Overflowed` if the number is above the greatest number of N.
#[inline(always)]
fn value_of_usize<N: Counter>(number: usize) -> Result<N, Overflowed>
    ensures { Counts N.value N.greatest number result }
{
    N::try_from(number).ok().ok_or(Overflowed)
}

/// Converts a `u128` to N.
///
/// # Errors
///
/// `Overflowed` if the number is above the greatest number of N.
#[inline(always)]
pub fn value_of<N: Counter>(number: u128) -> Result<N, Overflowed>
    ensures { Counts N.value N.greatest number result }
{
    let low = value_of_usize::<N>((number % (1 << 64)) as usize)?;
    let high = (number >> 64) as usize;
    if high == 0 {
        return Ok(low);
    }
    let half = value_of_usize::<N>(1 << 32)?;
    let mut sum = value_of_usize::<N>(high)?
        .checked_mul(half)?
        .checked_mul(half)?;
    sum.checked_add_assign(low)?;
    Ok(sum)
}

/// Rounds a number up to a multiple of 8.
///
/// # Errors
///
/// `Overflowed` if the result is above the greatest number of N.
pub fn next_byte<N: Counter>(value: N) -> Result<N, Overflowed>
    requires { N.value value ≤ N.greatest }
    ensures { Counts N.value N.greatest (N.value value + to_boundary (N.value value)) result }
{
    let mut next = value;
    while !next.byte_aligned() {
        next.checked_add_assign(N::from(1))?;
    }
    Ok(next)
}
