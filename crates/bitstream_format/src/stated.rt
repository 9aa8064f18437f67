//! Sizes in units: a stored number states the number of bytes of a part. Code printed by `./format` calls these
//! functions.
ghost use Rattle.bitstream_format.specs.Stated.{size_in_units, stated_size, stored_of, stored_size};
ghost use Rattle.std.specs.Prelude.{◌≡◌, ◌≤◌, ◌∷◌, []};
ghost use Rattle.bitstream_io.specs.Callers.{WritesAll};

use bitstream_io::{BitWrite, Error};

/// Returns `number` units of `unit` bytes each, plus `less`, in bytes. A sum beyond 64 bits counts as 2^64 - 1.
#[tactic(auto, unfolding(crate::specs::Stated::size_in_units))]
pub fn size_in_units(number: u64, unit: u64, less: u64) -> u64
    ensures { result ≡ size_in_units unit less number }
{
    number.saturating_mul(unit).saturating_add(less)
}

/// Returns the number of bytes that a stored number states: the bytes of its units, plus `less`, minus `plus`.
/// Returns `None` if `plus` is greater than that sum.
#[tactic(auto, unfolding(crate::specs::Stated::stated_size))]
pub fn stated_size(number: u64, unit: u64, plus: u64, less: u64) -> Option<u64>
    ensures { result ≡ stated_size unit plus less number }
{
    let counted = size_in_units(number, unit, less);
    if plus <= counted {
        return Some(counted - plus);
    }
    None
}

/// Returns the number that states `bytes` bytes, or 2^64 - 1 if none does.
#[tactic(auto, unfolding(crate::specs::Stated::stored_size))]
pub fn stored_size(bytes: u64, unit: u64, plus: u64, less: u64) -> u64
    requires { 1 ≤ unit }
    ensures { result ≡ stored_size unit plus less bytes }
{
    let counted = bytes.saturating_add(plus);
    if less <= counted && (counted - less) % unit == 0 {
        return (counted - less) / unit;
    }
    u64::MAX
}

/// Writes the number that states the bytes of a part, in `width` bits. `bits` is the number of bits of the
/// part.
///
/// # Errors
///
/// `Failed` if the sink has failed before. Otherwise, the error of `bits`, or `Checked` if no number of `width` bits
/// states the size. After these errors nothing is written. Otherwise, the errors of the sink.
pub fn write_stored_size<W: BitWrite>(
    writer: &mut W,
    width: u32,
    bits: Result<u64, Error>,
    unit: u64,
    plus: u64,
    less: u64,
) -> Result<(), Error>
    requires { 1 ≤ unit }
    ensures { WritesAll W.sink (stored_of W.sink.order width unit plus less bits ∷ []) writer.old result writer.new }
{
    match bits {
        Ok(bits) => writer.write_unsigned_var(width, stored_size(bits / 8, unit, plus, less)),
        Err(error) => {
            // A sink that has failed returns `Failed`.
            writer.pad(0)?;
            Err(error)
        }
    }
}
