//! The choice of a linear prediction (section 9.2.6). Any weights are valid: only the size of what is written depends
//! on them.
ghost use Rattle.std.specs.Prelude.{◌≡◌, ◌<◌, ◌≤◌, length, true};
ghost use Rattle.std.specs.List.{All};
ghost use Rattle.bitstream_io.specs.Callers.{FitsSignedBits};
ghost use Rattle.flac_codec.specs.Linear.{IsPrediction};

use crate::partitions::residual_bits;
use std::alloc::{AllocError, AllocFailed, Global};
use std::num::{
    nearest_i64_to_f64, nearest_u64_to_f64, nearest_usize_to_f64, saturating_f64_to_i64,
    saturating_f64_to_u64,
};

/// The greatest order that is tried.
const MOST_ORDER: usize = 12;

/// The number of correlations: one for each distance up to the greatest order, and one for the distance 0.
const LAGS: usize = 13;

/// A linear prediction.
#[derive(Drop)]
pub(crate) struct Prediction {
    /// The weights of the preceding samples, nearest sample first.
    pub(crate) weights: Vec<i64>,
    /// The number of bits of each weight.
    pub(crate) precision: u8,
    /// The number of low bits that the weighted sum loses.
    pub(crate) shift: u32,
}

/// Returns true if a prediction can be written for this many samples.
pub(crate) fn is_prediction(prediction: &Prediction, samples: usize) -> bool
    ensures { result ≡ true → IsPrediction samples prediction.now }
{
    let order = prediction.weights.len();
    if order < 1 || order > 32 || order >= samples || prediction.shift > 15 {
        return false;
    }
    if prediction.precision < 1 || prediction.precision > 15 {
        return false;
    }
    all_precise(prediction.precision, prediction.weights.as_slice())
}

/// Returns true if each weight fits in `precision` bits.
fn all_precise(precision: u8, weights: &[i64]) -> bool
    requires some { 1 ≤ precision }
    requires most { precision ≤ 15 }
    ensures { result ≡ true → All (FitsSignedBits precision) weights.now }
{
    for weight in weights {
        if !is_precise(precision, *weight) {
            return false;
        }
    }
    true
}

/// Returns true if a weight fits in `precision` bits.
fn is_precise(precision: u8, weight: i64) -> bool
    requires some { 1 ≤ precision }
    requires most { precision ≤ 15 }
    ensures { result ≡ true → FitsSignedBits precision weight }
{
    let rest = weight >> (precision as u32 - 1);
    rest == 0 || rest == -1
}

/// Returns the number of bits of a subframe with a linear prediction after its header, modulo 2^64.
pub(crate) fn linear_bits(width: u32, prediction: &Prediction, rest: &[i64]) -> u64
    requires { length prediction.now.weights.items ≤ 32 }
{
    residual_bits(rest, prediction.weights.len()).wrapping_add(head_bits(width, prediction))
}

/// Returns the number of bits of the first samples and the weights of a prediction, with their precision and shift.
fn head_bits(width: u32, prediction: &Prediction) -> u64 {
    let weight = width as u64 + prediction.precision as u64;
    (prediction.weights.len() as u64)
        .wrapping_mul(weight)
        .wrapping_add(9)
}

/// Returns the linear prediction with which samples of `width` bits are expected to be shortest.
pub(crate) fn best_prediction(
    alloc: Global,
    width: u32,
    samples: &[i64],
) -> Result<Prediction, AllocError>
    requires { width ≤ 64 }
{
    let windowed = windowed(alloc, samples)?;
    let correlations = correlations(windowed.as_slice());
    let found = best_of_orders(alloc, &correlations, width, samples.len())?;
    Ok(found)
}

/// Returns the prediction for which fewest bits are expected, of the best one of each order. The orders come by the recursion
/// of Levinson and Durbin.
fn best_of_orders(
    alloc: Global,
    correlations: &[f64; 13],
    width: u32,
    count: usize,
) -> Result<Prediction, AllocFailed<i64>>
    requires { width ≤ 64 }
{
    let precision = precision_for(width, count);
    let mut weights = [0f64; 12];
    let mut error = correlations[0];
    let mut best = quantized(alloc, &[], precision)?;
    let mut least = f64::INFINITY;
    for order in 1..MOST_ORDER + 1 {
        let next = next_weight(correlations, &weights, order - 1, error);
        weights = longer(&weights, order - 1, next);
        error *= 1.0 - next * next;
        let prediction = quantized(alloc, &weights[..order], precision)?;
        let bits = expected_bits(correlations, width, count, &prediction);
        if bits < least {
            best = prediction;
            least = bits;
        }
    }
    Ok(best)
}

/// Returns the number of bits that is expected for `count` samples of `width` bits with these correlations: for each sample
/// half the logarithm of the variance of its difference from the prediction, but not below 0.
fn expected_bits(
    correlations: &[f64; 13],
    width: u32,
    count: usize,
    prediction: &Prediction,
) -> f64 {
    let count = nearest_usize_to_f64(count);
    let variance = error_of(correlations, prediction).max(0.0) / count;
    let head = nearest_u64_to_f64(head_bits(width, prediction));
    0.5 * count * log2(1.0 + 4.0 * variance) + head
}

/// Returns the sum of the squared differences from a prediction that is expected for samples with these correlations. It counts
/// what the weights lost when they were rounded.
fn error_of(correlations: &[f64; 13], prediction: &Prediction) -> f64 {
    let scale = 1.0 / f64::from(1u32 << prediction.shift.min(15));
    let mut weights = [0f64; 12];
    for (to, weight) in weights.iter_mut().zip(prediction.weights.iter()) {
        *to = as_float(*weight) * scale;
    }
    let mut error = correlations[0];
    for i in 0..prediction.weights.len().min(12) {
        error += weights[i] * (reach(correlations, &weights, i) - 2.0 * correlations[i + 1]);
    }
    error
}

/// Returns the sum of the weights times the correlations of the sample of each with that of a weight.
fn reach(correlations: &[f64; 13], weights: &[f64; 12], at: usize) -> f64
    requires { at < 12 }
{
    let mut sum = 0f64;
    for j in 0..12usize {
        sum += weights[j] * correlations[at.abs_diff(j)];
    }
    sum
}

/// Returns zeros, one for each lag, and then the samples. The first and the last quarter of them rise and fall.
fn windowed(alloc: Global, samples: &[i64]) -> Result<Vec<f64>, AllocError> {
    let count = samples.len();
    let mut found = Vec::with_capacity(alloc, count.saturating_add(LAGS))?;
    for _ in 1..LAGS {
        found.push(0.0)?;
    }
    let edge = count / 4 + 1;
    let step = 1.0 / nearest_usize_to_f64(edge);
    for (at, sample) in samples.iter().enumerate() {
        let number = as_float(*sample);
        let inside = at.min(count.saturating_sub(at));
        if inside < edge {
            let rise = f64::from(inside.min(0xffff_ffff) as u32) * step;
            found.push(number * rise * rise * (3.0 - 2.0 * rise))?;
        } else {
            found.push(number)?;
        }
    }
    Ok(found)
}

/// Returns a sample as a floating-point number. Of more than 32 bits it becomes the nearest sample of 32 bits.
#[inline(always)]
fn as_float(sample: i64) -> f64 {
    f64::from(sample.max(-0x8000_0000).min(0x7fff_ffff) as i32)
}

/// Returns the sums of products of samples with those before them, for each lag. The first samples are zeros.
fn correlations(samples: &[f64]) -> [f64; 13] {
    let mut sums = [0f64; 13];
    for at in LAGS - 1..samples.len() {
        for lag in 0..LAGS {
            sums[lag] += samples[at] * samples[at - lag];
        }
    }
    sums
}

/// Returns the weight that follows the first `count` ones.
fn next_weight(correlations: &[f64; 13], weights: &[f64; 12], count: usize, error: f64) -> f64
    requires { count < 12 }
{
    if error <= 0.0 {
        return 0.0;
    }
    let mut rest = correlations[count + 1];
    for j in 0..count {
        rest -= weights[j] * correlations[count - j];
    }
    rest / error
}

/// Returns the weights of order `count` + 1, from the weights of order `count` and the next weight.
fn longer(weights: &[f64; 12], count: usize, next: f64) -> [f64; 12]
    requires { count < 12 }
{
    let mut found = *weights;
    for j in 0..count {
        found[j] = weights[j] - next * weights[count - 1 - j];
    }
    found[count] = next;
    found
}

/// Returns a number near the binary logarithm of a number from 1 to 2^64.
fn log2(number: f64) -> f64 {
    let whole = 63u32.saturating_sub((saturating_f64_to_u64(number) | 1).leading_zeros());
    let rest = number / nearest_u64_to_f64(1u64 << whole);
    nearest_i64_to_f64(whole as i64) + (2.0 - rest / 3.0) * rest - 5.0 / 3.0
}

/// Returns the number of bits of each weight, for a number of samples of `width` bits.
fn precision_for(width: u32, samples: usize) -> u8
    ensures some { 1 ≤ result }
    ensures most { result ≤ 15 }
{
    if width > 17 {
        return 15;
    }
    if samples > 2304 {
        return 12;
    }
    if samples > 576 { 10 } else { 8 }
}

/// Returns the weights rounded to `precision` bits, with their shift. The rounding error of each is added to the next
/// one.
fn quantized(alloc: Global, weights: &[f64], precision: u8) -> Result<Prediction, AllocFailed<i64>>
    requires some { 1 ≤ precision }
    requires most { precision ≤ 15 }
{
    let limit = (1u32 << (precision as u32 - 1)) as i64;
    let shift = shift_for(greatest(weights), nearest_i64_to_f64(limit));
    let scale = f64::from(1u32 << shift);
    let mut lost = 0f64;
    let mut found = Vec::new(alloc);
    for weight in weights {
        let exact = *weight * scale + lost;
        let number = saturating_f64_to_i64(exact.round())
            .min(limit - 1)
            .max(-limit);
        lost = exact - nearest_i64_to_f64(number);
        found.push(number)?;
    }
    Ok(Prediction {
        weights: found,
        precision,
        shift,
    })
}

/// Returns the greatest absolute value.
fn greatest(numbers: &[f64]) -> f64 {
    let mut found = 0f64;
    for number in numbers {
        found = found.max(number.abs());
    }
    found
}

/// Returns the greatest shift, at most 15, for which `number`, shifted left, is below `limit`; or 0.
fn shift_for(number: f64, limit: f64) -> u32
    ensures { result ≤ 15 }
{
    for less in 0..15u32 {
        let shift = 15 - less;
        if number * f64::from(1u32 << shift) < limit {
            return shift;
        }
    }
    0
}
