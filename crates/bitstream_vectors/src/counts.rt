//! Rows of counters.
use crate::call::{Call, number};
use crate::objection::{Difference, Objection, agrees};
use crate::row::{Kind, calls_of};
use crate::sinks::call_sink;
use bitstream_io::write::Counter;
use bitstream_io::{BE, BitCounter, Endianness, LE};
use std::alloc::Global;

/// Makes calls on a new counter of a type and an order. Objects if the counter does not hold `bits` bits
/// after them.
fn count_in<N: Counter + Drop, E: Endianness>(
    alloc: Global,
    calls: &[Call<'_>],
    bits: u128,
) -> Result<(), Objection>
where
    u128: From<N>,
{
    let mut counter = BitCounter::<N, E>::new();
    call_sink(alloc, &mut counter, calls, Difference::Answer)?;
    agrees(u128::from(counter.written()) == bits, Difference::Length)
}

/// Plays a row with the type of a counter, its calls, and its number of bits after them.
pub fn play_count(alloc: Global, kind: &str, calls: &str, after: &str) -> Result<(), Objection> {
    let calls = calls_of(alloc, Kind::Write, calls)?;
    let Some(bits) = after.strip_prefix("bits ") else {
        return Err(Objection::BAD_FORM);
    };
    let bits = number(bits)?;
    match kind {
        "u8" => {
            count_in::<u8, BE>(alloc, &calls, bits)?;
            count_in::<u8, LE>(alloc, &calls, bits)
        }
        "u16" => count_in::<u16, LE>(alloc, &calls, bits),
        "u32" => count_in::<u32, BE>(alloc, &calls, bits),
        "u64" => count_in::<u64, LE>(alloc, &calls, bits),
        "u128" => count_in::<u128, BE>(alloc, &calls, bits),
        _ => Err(Objection::BAD_FORM),
    }
}
