//! Reads subframes (section 9.2).
ghost use Rattle.std.specs.Prelude.{◌≡◌, ◌<◌, ◌≤◌, map, IfOk};
ghost use Rattle.bitstream_io.specs.Callers.{result_map, GrowsOwn};
ghost use Rattle.flac_codec.specs.Errors.{becomes_flac};
ghost use Rattle.flac_codec.specs.Subframe.{constant_decoder, fixed_decoder, kind_decoder, linear_decoder, subframe_decoder, typed_decoder, verbatim_decoder, wasted_decoder, widened};

use crate::error::FlacError;
use crate::numbers::{read_samples, repeated};
use crate::predict::{restore, restore_fixed};
use crate::residual::read_residual;
use bitstream_io::{BitRead, BitReadExt, Bits};
use std::alloc::{AllocFailed, Global};

/// Reads a subframe of `block_size` samples of `width` bits: constant, verbatim, or with a fixed or a linear
/// prediction.
///
/// # Errors
///
/// `ReservedBit` for a first bit 1, `TooManyWastedBits`, `ReservedSubframe` for another type, `ReservedPrecision`
/// and `NegativeShift` for the coefficients, `ReservedResidual` for a reserved coding, `Partitions` for a block that does not
/// divide into whole partitions, and `ShortBlock` for a first partition that is shorter than the order of the prediction. The
/// errors of the reader, and an error for a failed allocation.
pub fn read_subframe<R: BitRead>(
    reader: &mut R,
    alloc: Global,
    width: u32,
    block_size: u32,
) -> Result<Vec<i64>, FlacError>
    ensures { GrowsOwn R.source becomes_flac (subframe_decoder R.source.order width block_size)
        reader.old (result_map (λ found. found.items) result) reader.new }
{
    let reserved = reader.read_bit()?;
    if reserved {
        return Err(FlacError::ReservedBit);
    }
    read_typed(reader, alloc, width, block_size)
}

/// Reads a subframe after its first bit.
fn read_typed<R: BitRead>(
    reader: &mut R,
    alloc: Global,
    width: u32,
    block_size: u32,
) -> Result<Vec<i64>, FlacError>
    ensures { GrowsOwn R.source becomes_flac (typed_decoder R.source.order width block_size)
        reader.old (result_map (λ found. found.items) result) reader.new }
{
    let kind = reader.read::<Bits<6>, u32>()?;
    let wasted = reader.read_bit()?;
    if wasted {
        return read_wasted(reader, alloc, width, block_size, kind);
    }
    read_kind(reader, alloc, width, block_size, kind)
}

/// Reads the number of wasted bits, and the rest of a subframe of the type `kind`.
fn read_wasted<R: BitRead>(
    reader: &mut R,
    alloc: Global,
    width: u32,
    block_size: u32,
    kind: u32,
) -> Result<Vec<i64>, FlacError>
    ensures { GrowsOwn R.source becomes_flac (wasted_decoder R.source.order width block_size kind)
        reader.old (result_map (λ found. found.items) result) reader.new }
{
    let more = reader.read_unary::<Bits<1>>()?;
    if more >= 63 {
        return Err(FlacError::TooManyWastedBits);
    }
    let wasted = more + 1;
    if wasted >= width {
        return Err(FlacError::TooManyWastedBits);
    }
    let samples = read_kind(reader, alloc, width - wasted, block_size, kind)?;
    Ok(widened(alloc, samples.as_slice(), wasted)?)
}

/// Returns the samples, followed by `wasted` zero bits each.
fn widened(alloc: Global, samples: &[i64], wasted: u32) -> Result<Vec<i64>, AllocFailed<i64>>
    requires { wasted < 64 }
    ensures { IfOk result (λ found. found.items ≡ map (widened wasted) samples.now) }
{
    let mut found = Vec::new(alloc);
    for sample in samples {
        found.push(*sample << wasted)?;
    }
    Ok(found)
}

/// Reads a subframe of the type `kind`, after its header.
fn read_kind<R: BitRead>(
    reader: &mut R,
    alloc: Global,
    width: u32,
    block_size: u32,
    kind: u32,
) -> Result<Vec<i64>, FlacError>
    ensures { GrowsOwn R.source becomes_flac (kind_decoder R.source.order width block_size kind)
        reader.old (result_map (λ found. found.items) result) reader.new }
{
    if kind == 0 {
        return read_constant(reader, alloc, width, block_size);
    }
    if kind == 1 {
        return read_verbatim(reader, alloc, width, block_size);
    }
    if kind < 8 {
        return Err(FlacError::ReservedSubframe);
    }
    if kind < 13 {
        return read_fixed(reader, alloc, width, block_size, kind - 8);
    }
    if kind < 32 {
        return Err(FlacError::ReservedSubframe);
    }
    read_linear(reader, alloc, width, block_size, kind - 31)
}

/// Reads one sample for all samples of the block.
fn read_constant<R: BitRead>(
    reader: &mut R,
    alloc: Global,
    width: u32,
    block_size: u32,
) -> Result<Vec<i64>, FlacError>
    ensures { GrowsOwn R.source becomes_flac (constant_decoder R.source.order width block_size)
        reader.old (result_map (λ found. found.items) result) reader.new }
{
    let sample = reader.read_var::<i64>(width)?;
    Ok(repeated(alloc, sample, block_size)?)
}

/// Reads samples that are not coded.
fn read_verbatim<R: BitRead>(
    reader: &mut R,
    alloc: Global,
    width: u32,
    block_size: u32,
) -> Result<Vec<i64>, FlacError>
    ensures { GrowsOwn R.source becomes_flac (verbatim_decoder R.source.order width block_size)
        reader.old (result_map (λ found. found.items) result) reader.new }
{
    Ok(read_samples(reader, alloc, width, block_size)?)
}

/// Reads the first samples, and the residual of the others after a fixed prediction.
fn read_fixed<R: BitRead>(
    reader: &mut R,
    alloc: Global,
    width: u32,
    block_size: u32,
    order: u32,
) -> Result<Vec<i64>, FlacError>
    requires { order ≤ 4 }
    ensures { GrowsOwn R.source becomes_flac (fixed_decoder R.source.order width block_size order)
        reader.old (result_map (λ found. found.items) result) reader.new }
{
    let mut samples = read_samples(reader, alloc, width, order)?;
    let residual = read_residual(reader, alloc, block_size, order)?;
    restore_fixed(&mut samples, residual.as_slice(), order)?;
    Ok(samples)
}

/// Reads the first samples, the coefficients, and the residual of the others after this linear prediction.
fn read_linear<R: BitRead>(
    reader: &mut R,
    alloc: Global,
    width: u32,
    block_size: u32,
    order: u32,
) -> Result<Vec<i64>, FlacError>
    ensures { GrowsOwn R.source becomes_flac (linear_decoder R.source.order width block_size order)
        reader.old (result_map (λ found. found.items) result) reader.new }
{
    let mut samples = read_samples(reader, alloc, width, order)?;
    let precision = reader.read::<Bits<4>, u32>()?;
    if precision == 15 {
        return Err(FlacError::ReservedPrecision);
    }
    let negative = reader.read_bit()?;
    if negative {
        return Err(FlacError::NegativeShift);
    }
    let shift = reader.read::<Bits<4>, u32>()?;
    let coefficients = read_samples(reader, alloc, precision + 1, order)?;
    let residual = read_residual(reader, alloc, block_size, order)?;
    restore(
        &mut samples,
        residual.as_slice(),
        coefficients.as_slice(),
        shift,
    )?;
    Ok(samples)
}
