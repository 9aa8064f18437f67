//! Wasted bits (section 9.2.2): low bits that are 0 in each sample of a subframe.
ghost use Rattle.std.specs.Prelude.{◌≡◌, ◌-◌, ◌<◌, ◌≤◌, true, map, IfOk};
ghost use Rattle.std.specs.Int.{int_shr};
ghost use Rattle.std.specs.List.{All};
ghost use Rattle.bitstream_io.specs.Callers.{FitsSignedBits};
ghost use Rattle.flac_codec.specs.Wasted.{IsNarrow};

use std::alloc::{AllocFailed, Global};

/// Returns the number of low bits that are 0 in each sample, at most 63.
pub(crate) fn wasted_bits(samples: &[i64]) -> u32
    ensures { result < 64 }
{
    let mut any = 0i64;
    for sample in samples {
        any |= *sample;
    }
    any.trailing_zeros().min(63)
}

/// Returns true if bits are wasted, and each sample without them fits in the bits that are left.
pub(crate) fn can_narrow(width: u32, wasted: u32, samples: &[i64]) -> bool
    requires within { width ≤ 64 }
    ensures fewer { result ≡ true → wasted < width }
    ensures narrow { result ≡ true → All (IsNarrow width wasted) samples.now }
{
    if wasted == 0 || wasted >= width {
        return false;
    }
    for sample in samples {
        if !is_narrow(width, wasted, *sample) {
            return false;
        }
    }
    true
}

/// Returns true if the low bits of a sample are 0, and the other bits fit in the bits that are left.
fn is_narrow(width: u32, wasted: u32, sample: i64) -> bool
    requires within { width ≤ 64 }
    requires fewer { wasted < width }
    ensures { result ≡ true → IsNarrow width wasted sample }
{
    let narrow = sample >> wasted;
    if narrow << wasted != sample {
        return false;
    }
    is_of_width(width - wasted, narrow)
}

/// Returns true if a sample has `width` bits.
fn is_of_width(width: u32, sample: i64) -> bool
    requires some { 1 ≤ width }
    requires within { width ≤ 64 }
    ensures { result ≡ true → FitsSignedBits width sample }
{
    let rest = sample >> (width - 1);
    rest == 0 || rest == -1
}

/// Returns samples without their low bits.
pub(crate) fn narrowed(
    alloc: Global,
    wasted: u32,
    samples: &[i64],
) -> Result<Vec<i64>, AllocFailed<i64>>
    requires { wasted < 64 }
    ensures { IfOk result (λ found. found.items ≡ map (λ sample. int_shr sample wasted) samples.now) }
{
    let mut found = Vec::new(alloc);
    for sample in samples {
        found.push(*sample >> wasted)?;
    }
    Ok(found)
}
