//! The length of a list whose number of items is a power of two. Code printed by `./format` calls the function.
ghost use Rattle.bitstream_format.specs.Powers.{power_count};
ghost use Rattle.std.specs.Prelude.{◌≡◌};

/// Returns 2^(`number` + `plus`), or 2^64 - 1 if that number does not fit 64 bits. Returns 0 if `there` is false.
#[tactic(auto, unfolding(crate::specs::Powers::power_count))]
pub fn power_count(there: bool, number: u8, plus: u8) -> u64
    ensures { result ≡ power_count there number plus }
{
    if !there {
        return 0;
    }
    let exponent = number as u32 + plus as u32;
    if exponent > 63 {
        return u64::MAX;
    }
    1 << exponent
}
