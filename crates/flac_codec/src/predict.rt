//! Predictions: a sample as a sum of the samples before it, each with its weight (sections 9.2.5 and 9.2.6).
ghost use Rattle.std.specs.Prelude.{◌≡◌, ◌<◌, ◌≤◌, IfOk, length, take, drop};
ghost use Rattle.flac_codec.specs.Predict.{fixed_weights, predicted, residual, restored};

use std::alloc::{AllocFailed, Global};

/// Returns the weighted sum of the last samples modulo 2^64, without its `shift` lowest bits. The first weight belongs
/// to the last sample.
#[inline(always)]
fn predicted(samples: &[i64], weights: &[i64], shift: u32) -> i64
    requires enough { length weights.now ≤ length samples.now }
    requires within { shift < 64 }
    ensures { result ≡ predicted weights.now shift samples.now }
{
    let mut sum = 0i64;
    for k in 0..weights.len() {
        sum = sum.wrapping_add(weights[k].wrapping_mul(samples[samples.len() - (k + 1)]));
    }
    sum >> shift
}

/// Appends the samples of a residual: each is the prediction from the samples before it, plus the difference.
pub(crate) fn restore(
    samples: &mut Vec<i64>,
    residual: &[i64],
    weights: &[i64],
    shift: u32,
) -> Result<(), AllocFailed<i64>>
    requires enough { length weights.now ≤ length samples.old.items }
    requires within { shift < 64 }
    ensures { IfOk result (λ _. samples.new.items
        ≡ restored (predicted weights.now shift) samples.old.items residual.now) }
{
    // A compiler unrolls the sum for each of these numbers of weights.
    match weights.len() {
        1 => restore_by(samples, residual, &weights[..1], shift),
        2 => restore_by(samples, residual, &weights[..2], shift),
        3 => restore_by(samples, residual, &weights[..3], shift),
        4 => restore_by(samples, residual, &weights[..4], shift),
        5 => restore_by(samples, residual, &weights[..5], shift),
        6 => restore_by(samples, residual, &weights[..6], shift),
        7 => restore_by(samples, residual, &weights[..7], shift),
        8 => restore_by(samples, residual, &weights[..8], shift),
        9 => restore_by(samples, residual, &weights[..9], shift),
        10 => restore_by(samples, residual, &weights[..10], shift),
        11 => restore_by(samples, residual, &weights[..11], shift),
        12 => restore_by(samples, residual, &weights[..12], shift),
        _ => restore_by(samples, residual, weights, shift),
    }
}

/// Appends the samples of a residual, as [`restore`] does.
#[inline(always)]
fn restore_by(
    samples: &mut Vec<i64>,
    residual: &[i64],
    weights: &[i64],
    shift: u32,
) -> Result<(), AllocFailed<i64>>
    requires enough { length weights.now ≤ length samples.old.items }
    requires within { shift < 64 }
    ensures { IfOk result (λ _. samples.new.items
        ≡ restored (predicted weights.now shift) samples.old.items residual.now) }
{
    for difference in residual {
        let prediction = predicted(samples.as_slice(), weights, shift);
        samples.push(difference.wrapping_add(prediction))?;
    }
    Ok(())
}

/// Appends the samples of a residual after the fixed prediction of an order.
pub(crate) fn restore_fixed(
    samples: &mut Vec<i64>,
    residual: &[i64],
    order: u32,
) -> Result<(), AllocFailed<i64>>
    requires most { order ≤ 4 }
    requires long { order ≤ length samples.old.items }
    ensures { IfOk result (λ _. samples.new.items
        ≡ restored (predicted (fixed_weights order) 0) samples.old.items residual.now) }
{
    match order {
        0 => restore_by(samples, residual, [].as_slice(), 0),
        1 => restore_by(samples, residual, [1i64].as_slice(), 0),
        2 => restore_by(samples, residual, [2i64, -1].as_slice(), 0),
        3 => restore_by(samples, residual, [3i64, -3, 1].as_slice(), 0),
        _ => restore_by(samples, residual, [4i64, -6, 4, -1].as_slice(), 0),
    }
}

/// Returns the differences of samples from their predictions. The first samples, which predict the others, have no
/// difference.
pub(crate) fn residual_of(
    alloc: Global,
    samples: &[i64],
    weights: &[i64],
    shift: u32,
) -> Result<Vec<i64>, AllocFailed<i64>>
    requires enough { length weights.now ≤ length samples.now }
    requires within { shift < 64 }
    ensures { IfOk result (λ found. found.items ≡ residual (predicted weights.now shift)
        (take (length weights.now) samples.now) (drop (length weights.now) samples.now)) }
{
    // A compiler unrolls the sum for each of these numbers of weights.
    match weights.len() {
        1 => residual_by(alloc, samples, &weights[..1], shift),
        2 => residual_by(alloc, samples, &weights[..2], shift),
        3 => residual_by(alloc, samples, &weights[..3], shift),
        4 => residual_by(alloc, samples, &weights[..4], shift),
        5 => residual_by(alloc, samples, &weights[..5], shift),
        6 => residual_by(alloc, samples, &weights[..6], shift),
        7 => residual_by(alloc, samples, &weights[..7], shift),
        8 => residual_by(alloc, samples, &weights[..8], shift),
        9 => residual_by(alloc, samples, &weights[..9], shift),
        10 => residual_by(alloc, samples, &weights[..10], shift),
        11 => residual_by(alloc, samples, &weights[..11], shift),
        12 => residual_by(alloc, samples, &weights[..12], shift),
        _ => residual_by(alloc, samples, weights, shift),
    }
}

/// Returns the differences of samples from their predictions, as [`residual_of`] does.
#[inline(always)]
fn residual_by(
    alloc: Global,
    samples: &[i64],
    weights: &[i64],
    shift: u32,
) -> Result<Vec<i64>, AllocFailed<i64>>
    requires enough { length weights.now ≤ length samples.now }
    requires within { shift < 64 }
    ensures { IfOk result (λ found. found.items ≡ residual (predicted weights.now shift)
        (take (length weights.now) samples.now) (drop (length weights.now) samples.now)) }
{
    let mut residual = Vec::new(alloc);
    for at in weights.len()..samples.len() {
        let prediction = predicted(&samples[..at], weights, shift);
        residual.push(samples[at].wrapping_sub(prediction))?;
    }
    Ok(residual)
}

/// Returns the differences of samples from the fixed prediction of an order.
pub(crate) fn fixed_residual(
    alloc: Global,
    samples: &[i64],
    order: u32,
) -> Result<Vec<i64>, AllocFailed<i64>>
    requires most { order ≤ 4 }
    requires long { order ≤ length samples.now }
    ensures { IfOk result (λ found. found.items ≡ residual (predicted (fixed_weights order) 0)
        (take order samples.now) (drop order samples.now)) }
{
    match order {
        0 => residual_by(alloc, samples, [].as_slice(), 0),
        1 => residual_by(alloc, samples, [1i64].as_slice(), 0),
        2 => residual_by(alloc, samples, [2i64, -1].as_slice(), 0),
        3 => residual_by(alloc, samples, [3i64, -3, 1].as_slice(), 0),
        _ => residual_by(alloc, samples, [4i64, -6, 4, -1].as_slice(), 0),
    }
}
