//! The choice of an encoding for samples. Any choice is valid: only the size of what is written depends on it.
ghost use Rattle.std.specs.Prelude.{◌≡◌, ◌<◌, ◌≤◌, ◌^◌, ℤ, pos, true, length, replicate, get_or};
ghost use Rattle.std.specs.List.{All};
ghost use Rattle.bitstream_io.specs.Word.{zig};

/// Returns true if each sample is the first one.
pub(crate) fn all_equal(samples: &[i64]) -> bool
    requires { 1 ≤ length samples.now }
    ensures { result ≡ true → samples.now ≡ replicate (length samples.now) (get_or samples.now 0 (pos 0)) }
{
    let first = samples[0];
    for sample in samples {
        if *sample != first {
            return false;
        }
    }
    true
}

/// Returns true if each number fits in 32 bits, as a number of a residual must.
pub(crate) fn all_small(numbers: &[i64]) -> bool
    ensures { result ≡ true → All (λ number. zig number < 2 ^ 32) numbers.now }
{
    for number in numbers {
        if !is_small(*number) {
            return false;
        }
    }
    true
}

/// Returns true if a number fits in 32 bits.
fn is_small(number: i64) -> bool
    ensures { result ≡ true → zig number < 2 ^ 32 }
{
    if number < -0x8000_0000 {
        return false;
    }
    number < 0x8000_0000
}

/// Returns the order of the fixed prediction whose differences have the least sum.
pub(crate) fn best_order(samples: &[i64]) -> u32
    ensures most { result ≤ 4 }
    ensures long { result ≤ length samples.now }
{
    let sums = difference_sums(samples);
    let mut best = 0u32;
    let mut least = sums[0];
    if sums[1] < least && samples.len() > 1 {
        best = 1;
        least = sums[1];
    }
    if sums[2] < least && samples.len() > 2 {
        best = 2;
        least = sums[2];
    }
    if sums[3] < least && samples.len() > 3 {
        best = 3;
        least = sums[3];
    }
    if sums[4] < least && samples.len() > 4 {
        best = 4;
    }
    best
}

/// Returns for each order the sum of the absolute differences, without the differences of the first four samples.
fn difference_sums(samples: &[i64]) -> [u64; 5] {
    let mut last = [0i64; 4];
    let mut sums = [0u64; 5];
    for (at, sample) in samples.iter().enumerate() {
        let mut difference = *sample;
        for order in 0..5usize {
            if at >= 4 {
                sums[order] = sums[order].wrapping_add(difference.unsigned_abs());
            }
            if order < 4 {
                let before = last[order];
                last[order] = difference;
                difference = difference.wrapping_sub(before);
            }
        }
    }
    sums
}

/// Returns the parameter, at most `most`, with which Rice numbers are expected to be short.
pub(crate) fn best_parameter(numbers: &[i64], most: u32) -> u32
    requires { most < 32 }
    ensures { result ≤ most }
{
    likely_parameter(sum_of_places(numbers), numbers.len() as u64).min(most)
}

/// Returns the number of bits of Rice numbers with a parameter, modulo 2^64.
pub(crate) fn rice_bits(numbers: &[i64], parameter: u32) -> u64
    requires { parameter < 64 }
{
    let mut bits = (numbers.len() as u64).wrapping_mul(parameter as u64 + 1);
    for number in numbers {
        bits = bits.wrapping_add(place(*number) >> parameter);
    }
    bits
}

/// Returns the sum of the places of numbers, modulo 2^64.
pub(crate) fn sum_of_places(numbers: &[i64]) -> u64 {
    let mut sum = 0u64;
    for number in numbers {
        sum = sum.wrapping_add(place(*number));
    }
    sum
}

/// Returns the place of a number in the order 0, -1, 1, -2, 2 and so on, modulo 2^64.
#[inline(always)]
fn place(number: i64) -> u64 {
    let twice = number.unsigned_abs().wrapping_mul(2);
    if number < 0 {
        twice.wrapping_sub(1)
    } else {
        twice
    }
}

/// Returns the parameter for which fewest bits are expected for Rice numbers, if their places have this sum: the logarithm
/// of a little less than their mean.
pub(crate) fn likely_parameter(sum: u64, count: u64) -> u32
    ensures { result ≤ 30 }
{
    let sum = sum - (sum >> 5);
    let parameter = logarithm(sum).saturating_sub(logarithm(count)).min(30);
    if count << parameter > sum {
        parameter.saturating_sub(1)
    } else {
        parameter
    }
}

/// Returns the place of the highest bit of a number that is 1, or 0.
fn logarithm(number: u64) -> u32
    ensures { result < 64 }
{
    63u32.saturating_sub((number | 1).leading_zeros())
}

/// Returns the number of bits that is expected for Rice numbers whose places have this sum. The low bits of each are half
/// of the greatest ones in the mean.
pub(crate) fn expected_bits(sum: u64, count: u64, parameter: u32) -> u64
    requires { parameter < 64 }
{
    let low = (count << parameter).saturating_sub(count) / 2;
    let high = sum.saturating_sub(low) >> parameter;
    count.wrapping_mul(parameter as u64 + 1).wrapping_add(high)
}
