//! Numbers of bits in memory, which may exceed a `u64`.
ghost use Rattle.std.specs.Prelude.{◌≡◌, min};

/// Returns `number`, or 2^64 - 1 if `number` is greater.
pub fn capped(number: u128) -> u64
    ensures { result ≡ min number u64.MAX }
{
    if number < 1 << 64 {
        number as u64
    } else {
        u64::MAX
    }
}
