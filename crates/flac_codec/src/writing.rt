//! Writes subframes (section 9.2).
ghost use Rattle.std.specs.Prelude.{◌≡◌, ◌<◌, ◌≤◌, ◌+◌, ◌^◌, pos, [], true, get_or, length, map, replicate, take, drop};
ghost use Rattle.std.specs.List.{All};
ghost use Rattle.bitstream_io.specs.Callers.{FitsSignedBits, WritesAll};
ghost use Rattle.bitstream_io.specs.Word.{zig};
ghost use Rattle.flac_codec.specs.Predict.{fixed_weights, predicted, residual};
ghost use Rattle.flac_codec.specs.Subframe.{constant_writes, fixed_head, head_writes, linear_head, shift_writes, subframe_decoder, verbatim_writes, wasted_writes, widened, Encodes, WritesValue};
ghost use Rattle.flac_codec.specs.Wasted.{IsNarrow};
ghost use Rattle.flac_codec.specs.Linear.{IsPrediction};

use crate::choice::{all_equal, all_small, best_order};
use crate::linear::{Prediction, best_prediction, is_prediction, linear_bits};
use crate::numbers::write_samples;
use crate::partitions::residual_bits;
use crate::predict::{fixed_residual, residual_of};
use crate::residual_writing::write_residual;
use crate::wasted::{can_narrow, narrowed, wasted_bits};
use bitstream_io::{BitWrite, BitWriteExt, Bits, Error};
use std::alloc::Global;

/// Writes samples of `width` bits as a subframe.
///
/// # Errors
///
/// Returns the writer's errors, and `OutOfMemory` if an allocation fails.
pub fn write_subframe<W: BitWrite>(
    writer: &mut W,
    alloc: Global,
    width: u32,
    samples: &[i64],
) -> Result<(), Error>
    requires some { 1 ≤ width }
    requires within { width ≤ 64 }
    requires fit { All (FitsSignedBits width) samples.now }
    ensures { Encodes W.sink (subframe_decoder W.sink.order width (length samples.now)) samples.now
        writer.old result writer.new }
{
    if samples.len() >= 1 {
        if all_equal(samples) {
            return encode_constant(writer, width, samples);
        }
    }
    let wasted = wasted_bits(samples);
    if can_narrow(width, wasted, samples) {
        return write_narrow(writer, alloc, width, wasted, samples);
    }
    write_whole(writer, alloc, width, samples)
}

/// Writes samples without their wasted bits.
fn write_narrow<W: BitWrite>(
    writer: &mut W,
    alloc: Global,
    width: u32,
    wasted: u32,
    samples: &[i64],
) -> Result<(), Error>
    requires fewer { wasted < width }
    requires within { width ≤ 64 }
    requires narrow { All (IsNarrow width wasted) samples.now }
    ensures { Encodes W.sink (subframe_decoder W.sink.order width (length samples.now)) samples.now
        writer.old result writer.new }
{
    let narrow = narrowed(alloc, wasted, samples)?;
    write_predicted(writer, alloc, width - wasted, wasted, narrow.as_slice())
}

/// Writes samples of which no bits are wasted.
fn write_whole<W: BitWrite>(
    writer: &mut W,
    alloc: Global,
    width: u32,
    samples: &[i64],
) -> Result<(), Error>
    requires some { 1 ≤ width }
    requires within { width ≤ 64 }
    requires fit { All (FitsSignedBits width) samples.now }
    ensures { Encodes W.sink (subframe_decoder W.sink.order width (length samples.now)) samples.now
        writer.old result writer.new }
{
    write_predicted(writer, alloc, width, 0, samples)
}

/// Writes samples by the shortest of their codings. They have `width` bits, followed by wasted bits.
fn write_predicted<W: BitWrite>(
    writer: &mut W,
    alloc: Global,
    width: u32,
    wasted: u32,
    samples: &[i64],
) -> Result<(), Error>
    requires some { 1 ≤ width }
    requires within { width + wasted ≤ 64 }
    requires fit { All (FitsSignedBits width) samples.now }
    ensures { Encodes W.sink (subframe_decoder W.sink.order (width + wasted) (length samples.now))
        (map (widened wasted) samples.now) writer.old result writer.new }
{
    let plain_bits = (samples.len() as u64).wrapping_mul(width as u64);
    let order = best_order(samples);
    let fixed = fixed_residual(alloc, samples, order)?;
    let fixed_bits = fixed_bits(width, order, fixed.as_slice());
    let prediction = best_prediction(alloc, width, samples)?;
    if is_prediction(&prediction, samples.len()) {
        let linear = residual_of(
            alloc,
            samples,
            prediction.weights.as_slice(),
            prediction.shift,
        )?;
        if all_small(linear.as_slice()) {
            let linear_bits = linear_bits(width, &prediction, linear.as_slice());
            if linear_bits < plain_bits.min(fixed_bits) {
                return encode_linear(
                    writer,
                    width,
                    wasted,
                    &prediction,
                    samples,
                    linear.as_slice(),
                );
            }
        }
    }
    if all_small(fixed.as_slice()) {
        if fixed_bits < plain_bits {
            return encode_fixed(writer, width, wasted, order, samples, fixed.as_slice());
        }
    }
    encode_verbatim(writer, width, wasted, samples)
}

/// Returns the number of bits of a subframe with a fixed prediction after its header, modulo 2^64.
fn fixed_bits(width: u32, order: u32, rest: &[i64]) -> u64
    requires { order ≤ 4 }
{
    residual_bits(rest, order as usize).wrapping_add((order as u64).wrapping_mul(width as u64))
}

/// Writes samples that are not coded.
fn encode_verbatim<W: BitWrite>(
    writer: &mut W,
    width: u32,
    wasted: u32,
    samples: &[i64],
) -> Result<(), Error>
    requires some { 1 ≤ width }
    requires within { width + wasted ≤ 64 }
    requires fit { All (FitsSignedBits width) samples.now }
    ensures { WritesValue W.sink (subframe_decoder W.sink.order (width + wasted) (length samples.now))
        (map (widened wasted) samples.now) writer.old result writer.new }
{
    write_verbatim(writer, width, wasted, samples)
}

/// Writes samples that are all equal.
fn encode_constant<W: BitWrite>(writer: &mut W, width: u32, samples: &[i64]) -> Result<(), Error>
    requires some { 1 ≤ width }
    requires within { width ≤ 64 }
    requires fit { All (FitsSignedBits width) samples.now }
    requires nonempty { 1 ≤ length samples.now }
    requires equal { samples.now ≡ replicate (length samples.now) (get_or samples.now 0 (pos 0)) }
    ensures { WritesValue W.sink (subframe_decoder W.sink.order width (length samples.now)) samples.now
        writer.old result writer.new }
{
    write_constant(writer, width, samples[0])
}

/// Writes samples by their residual after the fixed prediction of an order.
fn encode_fixed<W: BitWrite>(
    writer: &mut W,
    width: u32,
    wasted: u32,
    order: u32,
    samples: &[i64],
    rest: &[i64],
) -> Result<(), Error>
    requires some { 1 ≤ width }
    requires within { width + wasted ≤ 64 }
    requires fit { All (FitsSignedBits width) samples.now }
    requires most { order ≤ 4 }
    requires long { order ≤ length samples.now }
    requires is { rest.now ≡ residual (predicted (fixed_weights order) 0)
        (take order samples.now) (drop order samples.now) }
    requires small { All (λ number. zig number < 2 ^ 32) rest.now }
    ensures { WritesValue W.sink (subframe_decoder W.sink.order (width + wasted) (length samples.now))
        (map (widened wasted) samples.now) writer.old result writer.new }
{
    write_fixed_head(writer, width, wasted, order, &samples[..order as usize])?;
    write_residual(writer, order as usize, rest)
}

/// Writes the header of a subframe: its type, and the number of its wasted bits.
fn write_head<W: BitWrite>(writer: &mut W, kind: u32, wasted: u32) -> Result<(), Error>
    ensures { WritesAll W.sink (head_writes W.sink.order kind wasted) writer.old result writer.new }
{
    writer.write_bit(false)?;
    writer.write::<Bits<6>, u32>(kind)?;
    write_wasted(writer, wasted)
}

/// Writes the number of wasted bits.
fn write_wasted<W: BitWrite>(writer: &mut W, wasted: u32) -> Result<(), Error>
    ensures { WritesAll W.sink (wasted_writes wasted) writer.old result writer.new }
{
    if wasted == 0 {
        return writer.write_bit(false);
    }
    writer.write_bit(true)?;
    writer.write_unary::<Bits<1>>(wasted - 1)
}

/// Writes a constant subframe.
fn write_constant<W: BitWrite>(writer: &mut W, width: u32, sample: i64) -> Result<(), Error>
    ensures { WritesAll W.sink (constant_writes W.sink.order width sample)
        writer.old result writer.new }
{
    write_head(writer, 0, 0)?;
    writer.write_var::<i64>(width, sample)
}

/// Writes a verbatim subframe.
fn write_verbatim<W: BitWrite>(
    writer: &mut W,
    width: u32,
    wasted: u32,
    samples: &[i64],
) -> Result<(), Error>
    ensures { WritesAll W.sink (verbatim_writes W.sink.order width wasted samples.now)
        writer.old result writer.new }
{
    write_head(writer, 1, wasted)?;
    write_samples(writer, width, samples)
}

/// Writes a subframe with a fixed prediction up to its residual: its header and its first samples.
fn write_fixed_head<W: BitWrite>(
    writer: &mut W,
    width: u32,
    wasted: u32,
    order: u32,
    first: &[i64],
) -> Result<(), Error>
    requires { order ≤ 4 }
    ensures { WritesAll W.sink (fixed_head W.sink.order width wasted order first.now)
        writer.old result writer.new }
{
    write_head(writer, 8 + order, wasted)?;
    write_samples(writer, width, first)
}

/// Writes samples by their residual after a linear prediction.
fn encode_linear<W: BitWrite>(
    writer: &mut W,
    width: u32,
    wasted: u32,
    prediction: &Prediction,
    samples: &[i64],
    rest: &[i64],
) -> Result<(), Error>
    requires some { 1 ≤ width }
    requires within { width + wasted ≤ 64 }
    requires fit { All (FitsSignedBits width) samples.now }
    requires is { IsPrediction (length samples.now) prediction.now }
    requires rest { rest.now ≡ residual (predicted prediction.now.weights.items prediction.now.shift)
        (take (length prediction.now.weights.items) samples.now) (drop (length prediction.now.weights.items) samples.now) }
    requires small { All (λ number. zig number < 2 ^ 32) rest.now }
    ensures { WritesValue W.sink (subframe_decoder W.sink.order (width + wasted) (length samples.now))
        (map (widened wasted) samples.now) writer.old result writer.new }
{
    let weights = prediction.weights.as_slice();
    let first = &samples[..weights.len()];
    write_linear_head(
        writer,
        width,
        wasted,
        first,
        prediction.precision,
        prediction.shift,
        weights,
    )?;
    write_residual(writer, weights.len(), rest)
}

/// Writes a subframe with a linear prediction up to its residual: its header, its first samples and its weights.
fn write_linear_head<W: BitWrite>(
    writer: &mut W,
    width: u32,
    wasted: u32,
    first: &[i64],
    precision: u8,
    shift: u32,
    weights: &[i64],
) -> Result<(), Error>
    requires some { 1 ≤ precision }
    requires most { length weights.now ≤ 32 }
    ensures { WritesAll W.sink (linear_head W.sink.order width wasted first.now precision shift weights.now)
        writer.old result writer.new }
{
    write_head(writer, 31 + weights.len() as u32, wasted)?;
    write_samples(writer, width, first)?;
    write_shift(writer, precision, shift)?;
    write_samples(writer, precision as u32, weights)
}

/// Writes the precision of weights, and the shift of their sum.
fn write_shift<W: BitWrite>(writer: &mut W, precision: u8, shift: u32) -> Result<(), Error>
    requires { 1 ≤ precision }
    ensures { WritesAll W.sink (shift_writes W.sink.order precision shift)
        writer.old result writer.new }
{
    writer.write::<Bits<4>, u32>(precision as u32 - 1)?;
    writer.write_bit(false)?;
    writer.write::<Bits<4>, u32>(shift)?;
    Ok(())
}
