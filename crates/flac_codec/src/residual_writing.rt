//! Writes residuals (section 9.2.7): partitions of Rice numbers.
ghost use Rattle.std.specs.Prelude.{◌≡◌, ◌+◌, ◌*◌, ◌/◌, ◌-◌, ◌%◌, ◌<◌, ◌≤◌, ◌^◌, length};
ghost use Rattle.std.specs.List.{All};
ghost use Rattle.bitstream_io.specs.Callers.{WritesAll};
ghost use Rattle.bitstream_io.specs.Word.{zig};
ghost use Rattle.flac_codec.specs.Residual.{partition_decoder, partitions_decoder, residual_decoder};
ghost use Rattle.flac_codec.specs.Subframe.{partition_writes, residual_head, WritesValue};

use crate::choice::best_parameter;
use crate::numbers::write_numbers;
use crate::partitions::{Partitions, best_partitions, greatest_parameter};
use bitstream_io::{BitWrite, BitWriteExt, Bits, Error};

/// Writes the residual of a block after its first `order` samples.
pub(crate) fn write_residual<W: BitWrite>(
    writer: &mut W,
    order: usize,
    numbers: &[i64],
) -> Result<(), Error>
    requires few { order ≤ 32 }
    requires small { All (λ number. zig number < 2 ^ 32) numbers.now }
    ensures { WritesValue W.sink (residual_decoder W.sink.order (order + length numbers.now) order) numbers.now
        writer.old result writer.new }
{
    let partitions = best_partitions(numbers, order);
    let size = (order + numbers.len()) >> partitions.order;
    let count = (1usize << partitions.order) - 1;
    write_residual_head(writer, partitions)?;
    write_partitions(
        writer,
        4 + partitions.coding as u32,
        size - order,
        size,
        count,
        numbers,
    )
}

/// Writes the header of a residual: its coding and the order of its partitions.
fn write_residual_head<W: BitWrite>(writer: &mut W, partitions: Partitions) -> Result<(), Error>
    ensures { WritesAll W.sink (residual_head W.sink.order partitions.coding partitions.order)
        writer.old result writer.new }
{
    writer.write::<Bits<2>, u8>(partitions.coding)?;
    writer.write::<Bits<4>, u32>(partitions.order)?;
    Ok(())
}

/// Writes numbers as a first partition of `first` numbers, and then `count` partitions of `size` numbers.
fn write_partitions<W: BitWrite>(
    writer: &mut W,
    bits: u32,
    first: usize,
    size: usize,
    count: usize,
    numbers: &[i64],
) -> Result<(), Error>
    requires some { 1 ≤ bits }
    requires most { bits ≤ 5 }
    requires all { length numbers.now ≡ first + count * size }
    requires small { All (λ number. zig number < 2 ^ 32) numbers.now }
    ensures { WritesValue W.sink (partitions_decoder W.sink.order bits first size count) numbers.now
        writer.old result writer.new }
{
    write_partition(writer, bits, &numbers[..first])?;
    let mut left = &numbers[first..];
    for _ in 0..count {
        write_partition(writer, bits, &left[..size])?;
        left = &left[size..];
    }
    Ok(())
}

/// Writes a partition: a parameter of `bits` bits, and Rice numbers.
fn write_partition<W: BitWrite>(writer: &mut W, bits: u32, numbers: &[i64]) -> Result<(), Error>
    requires some { 1 ≤ bits }
    requires most { bits ≤ 5 }
    requires small { All (λ number. zig number < 2 ^ 32) numbers.now }
    ensures { WritesValue W.sink (partition_decoder W.sink.order bits (length numbers.now)) numbers.now
        writer.old result writer.new }
{
    let parameter = best_parameter(numbers, greatest_parameter(bits));
    write_coded_numbers(writer, bits, parameter, numbers)
}

/// Writes a parameter of `bits` bits, and Rice numbers with it.
fn write_coded_numbers<W: BitWrite>(
    writer: &mut W,
    bits: u32,
    parameter: u32,
    numbers: &[i64],
) -> Result<(), Error>
    requires few { parameter < 31 }
    requires small { All (λ number. zig number < 2 ^ 32) numbers.now }
    ensures { WritesAll W.sink (partition_writes W.sink.order bits parameter numbers.now)
        writer.old result writer.new }
{
    writer.write_var(bits, parameter)?;
    write_numbers(writer, parameter, numbers)
}
