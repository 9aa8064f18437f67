//! Reads residuals (section 9.2.7): partitions of Rice numbers, or of numbers that are not coded.
ghost use Rattle.std.specs.Prelude.{◌≡◌, ◌≤◌};
ghost use Rattle.bitstream_io.specs.Callers.{result_map, GrowsOwn};
ghost use Rattle.flac_codec.specs.Errors.{becomes_flac};
ghost use Rattle.flac_codec.specs.Residual.{escaped_decoder, partition_decoder, partitioned_decoder, partitions_decoder, residual_decoder};

use crate::error::FlacError;
use crate::numbers::{read_numbers, read_samples, repeated};
use bitstream_io::{BitRead, BitReadExt, Bits};
use std::alloc::Global;

/// Reads the residual of a block after its first `order` samples.
pub(crate) fn read_residual<R: BitRead>(
    reader: &mut R,
    alloc: Global,
    block_size: u32,
    order: u32,
) -> Result<Vec<i64>, FlacError>
    ensures { GrowsOwn R.source becomes_flac (residual_decoder R.source.order block_size order)
        reader.old (result_map (λ found. found.items) result) reader.new }
{
    let coding = reader.read::<Bits<2>, u8>()?;
    if coding == 0 {
        return read_partitioned(reader, alloc, 4, block_size, order);
    }
    if coding == 1 {
        return read_partitioned(reader, alloc, 5, block_size, order);
    }
    Err(FlacError::ReservedResidual)
}

/// Reads a residual whose parameters have `bits` bits, after its coding.
fn read_partitioned<R: BitRead>(
    reader: &mut R,
    alloc: Global,
    bits: u32,
    block_size: u32,
    order: u32,
) -> Result<Vec<i64>, FlacError>
    requires { bits ≤ 5 }
    ensures { GrowsOwn R.source becomes_flac (partitioned_decoder R.source.order bits block_size order)
        reader.old (result_map (λ found. found.items) result) reader.new }
{
    let partition_order = reader.read::<Bits<4>, u32>()?;
    let partitions = 1u32 << partition_order;
    if block_size % partitions != 0 {
        return Err(FlacError::Partitions);
    }
    let length = block_size / partitions;
    if length < order {
        return Err(FlacError::ShortBlock);
    }
    read_partitions(reader, alloc, bits, length - order, length, partitions - 1)
}

/// Reads a first partition of `first` numbers, and then `count` partitions of `length` numbers.
fn read_partitions<R: BitRead>(
    reader: &mut R,
    alloc: Global,
    bits: u32,
    first: u32,
    length: u32,
    count: u32,
) -> Result<Vec<i64>, FlacError>
    requires { bits ≤ 5 }
    ensures { GrowsOwn R.source becomes_flac (partitions_decoder R.source.order bits first length count)
        reader.old (result_map (λ found. found.items) result) reader.new }
{
    let mut numbers = read_partition(reader, alloc, bits, first)?;
    for _ in 0..count {
        let part = read_partition(reader, alloc, bits, length)?;
        numbers.extend_from_slice(part.as_slice())?;
    }
    Ok(numbers)
}

/// Reads a partition of `count` numbers. A parameter of only ones means that the numbers are not coded.
fn read_partition<R: BitRead>(
    reader: &mut R,
    alloc: Global,
    bits: u32,
    count: u32,
) -> Result<Vec<i64>, FlacError>
    requires { bits ≤ 5 }
    ensures { GrowsOwn R.source becomes_flac (partition_decoder R.source.order bits count)
        reader.old (result_map (λ found. found.items) result) reader.new }
{
    let parameter: u32 = reader.read_var(bits)?;
    if parameter == (1u32 << bits) - 1 {
        return read_escaped(reader, alloc, count);
    }
    Ok(read_numbers(reader, alloc, parameter, count)?)
}

/// Reads the width of `count` numbers that are not coded, and the numbers. The width 0 means zeros.
fn read_escaped<R: BitRead>(
    reader: &mut R,
    alloc: Global,
    count: u32,
) -> Result<Vec<i64>, FlacError>
    ensures { GrowsOwn R.source becomes_flac (escaped_decoder R.source.order count)
        reader.old (result_map (λ found. found.items) result) reader.new }
{
    let width = reader.read::<Bits<5>, u32>()?;
    if width == 0 {
        return Ok(repeated(alloc, 0, count)?);
    }
    Ok(read_samples(reader, alloc, width, count)?)
}
