//! Sequences of numbers: samples that are not coded, and Rice numbers.
ghost use Rattle.std.specs.Prelude.{◌≡◌, ◌<◌, ◌^◌, IfOk, length, replicate};
ghost use Rattle.std.specs.List.{All};
ghost use Rattle.bitstream_io.specs.Callers.{items_decoder, list_item, result_map, GrowingOutcome, WritesAll};
ghost use Rattle.bitstream_io.specs.Word.{zig};
ghost use Rattle.flac_codec.specs.Rice.{rice_decoder};
ghost use Rattle.flac_codec.specs.Residual.{samples_decoder};
ghost use Rattle.flac_codec.specs.Subframe.{numbers_writes, samples_writes};

use crate::rice::{read_rice, write_rice};
use bitstream_io::{BitRead, BitReadExt, BitWrite, BitWriteExt, Error};
use std::alloc::{AllocFailed, Global};

/// Reads `count` samples of `width` bits that are not coded.
pub(crate) fn read_samples<R: BitRead>(
    reader: &mut R,
    alloc: Global,
    width: u32,
    count: u32,
) -> Result<Vec<i64>, Error>
    ensures reads { GrowingOutcome R.source (samples_decoder R.source.order width count)
        reader.old (result_map (λ found. found.items) result) reader.new }
    ensures size { IfOk result (λ found. length found.items ≡ count) }
{
    let mut found = Vec::new(alloc);
    for _ in 0..count {
        found.push(reader.read_var::<i64>(width)?)?;
    }
    Ok(found)
}

/// Returns a sample `count` times.
pub(crate) fn repeated(alloc: Global, sample: i64, count: u32) -> Result<Vec<i64>, AllocFailed<i64>>
    ensures { IfOk result (λ found. found.items ≡ replicate count sample) }
{
    let mut found = Vec::new(alloc);
    for _ in 0..count {
        found.push(sample)?;
    }
    Ok(found)
}

/// Reads `count` Rice numbers.
pub(crate) fn read_numbers<R: BitRead>(
    reader: &mut R,
    alloc: Global,
    parameter: u32,
    count: u32,
) -> Result<Vec<i64>, Error>
    requires { parameter < 32 }
    ensures { GrowingOutcome R.source (items_decoder (list_item (rice_decoder R.source.order parameter)) count)
        reader.old (result_map (λ found. found.items) result) reader.new }
{
    let mut found = Vec::new(alloc);
    for _ in 0..count {
        found.push(read_rice(reader, parameter)?)?;
    }
    Ok(found)
}

/// Writes samples in `width` bits each.
pub(crate) fn write_samples<W: BitWrite>(
    writer: &mut W,
    width: u32,
    samples: &[i64],
) -> Result<(), Error>
    ensures { WritesAll W.sink (samples_writes W.sink.order width samples.now)
        writer.old result writer.new }
{
    for sample in samples {
        writer.write_var::<i64>(width, *sample)?;
    }
    Ok(())
}

/// Writes Rice numbers.
pub(crate) fn write_numbers<W: BitWrite>(
    writer: &mut W,
    parameter: u32,
    numbers: &[i64],
) -> Result<(), Error>
    requires few { parameter < 32 }
    requires fit { All (λ number. zig number < 2 ^ 32) numbers.now }
    ensures { WritesAll W.sink (numbers_writes W.sink.order parameter numbers.now)
        writer.old result writer.new }
{
    for number in numbers {
        write_rice(writer, parameter, *number)?;
    }
    Ok(())
}
