//! Fields of constant width, arrays, primitives of the layer of bytes, and vectors.

use crate::memory::Memory;
use crate::mix::{bytes_of, mixed, stepped};
use bitstream_io::{
    BE, BitRead, BitReadExt, BitReader, BitWrite, BitWriteExt, BitWriter, Bits, ByteRead,
    ByteReader, ByteWrite, ByteWriter, Endianness, Error, LE, Slice, Source,
};
use std::alloc::Global;

/// Reads a record of fields of constant widths, and mixes them into a sum.
#[inline(always)]
fn record<R: BitRead>(reader: &mut R, sum: u64) -> Result<u64, Error> {
    let size = reader.read::<Bits<13>, u16>()?;
    let kind = reader.read::<Bits<3>, u8>()?;
    let level = reader.read::<Bits<7>, i8>()?;
    let last = reader.read::<Bits<1>, bool>()?;
    let time = reader.read::<Bits<40>, u64>()?;
    let sum = mixed(mixed(sum, u64::from(size)), u64::from(kind));
    let sum = mixed(sum, i64::from(level).cast_unsigned());
    Ok(mixed(mixed(sum, u64::from(last)), time))
}

/// Reads fields of constant widths.
fn fields<R: Source + Drop, E: Endianness>(source: R, count: u64) -> Result<u64, Error> {
    let mut reader = BitReader::<R, E>::new(source);
    let mut sum = 0u64;
    for _item in 0..count {
        sum = record(&mut reader, sum)?;
    }
    Ok(sum)
}

/// Writes a record of fields of constant widths.
#[inline(always)]
fn write_record<W: BitWrite>(writer: &mut W, state: u64) -> Result<(), Error> {
    writer.write::<Bits<13>, u16>((state >> 51) as u16)?;
    writer.write::<Bits<3>, u8>((state >> 61) as u8)?;
    // The highest of 7 digits is the sign.
    let level = ((state >> 57 << 1) as u8).cast_signed() >> 1;
    writer.write::<Bits<7>, i8>(level)?;
    writer.write::<Bits<1>, bool>(state >> 63 == 1)?;
    writer.write::<Bits<40>, u64>(state >> 24)
}

/// Writes fields of constant widths.
pub(crate) fn write_fields<T: Memory, E: Endianness>(
    count: u64,
    seed: u64,
    out: T,
) -> Result<(), Error> {
    let mut writer = BitWriter::<T, E>::new(out);
    let mut state = seed;
    for _item in 0..count {
        state = stepped(state);
        write_record(&mut writer, state)?;
    }
    writer.byte_align()
}

/// Reads arrays of words.
fn arrays<R: Source + Drop, E: Endianness>(source: R, count: u64) -> Result<u64, Error> {
    let mut reader = BitReader::<R, E>::new(source);
    let mut sum = 0u64;
    for _item in 0..count {
        let values = reader.read::<Bits<12>, [u16; 8]>()?;
        for value in values {
            sum = mixed(sum, u64::from(value));
        }
    }
    Ok(sum)
}

/// Writes arrays of words.
pub(crate) fn write_arrays<T: Memory, E: Endianness>(
    count: u64,
    seed: u64,
    out: T,
) -> Result<(), Error> {
    let mut writer = BitWriter::<T, E>::new(out);
    let mut state = seed;
    for _item in 0..count {
        state = stepped(state);
        writer.write::<Bits<12>, [u16; 8]>([(state >> 52) as u16; 8])?;
    }
    writer.byte_align()
}

/// Reads primitives by the layer of bytes.
fn values<R: Source + Drop, E: Endianness>(source: R, count: u64) -> Result<u64, Error> {
    let mut reader = ByteReader::<R, E>::new(source);
    let mut sum = 0u64;
    for _item in 0..count {
        let long: u32 = reader.read()?;
        sum = mixed(sum, u64::from(long));
        let short: u16 = reader.read()?;
        sum = mixed(sum, u64::from(short));
    }
    Ok(sum)
}

/// Writes primitives by the layer of bytes.
pub(crate) fn write_values<T: Memory, E: Endianness>(
    count: u64,
    seed: u64,
    out: T,
) -> Result<(), Error> {
    let mut writer = ByteWriter::<T, E>::new(out);
    let mut state = seed;
    for _item in 0..count {
        state = stepped(state);
        writer.write((state >> 32) as u32)?;
        writer.write((state >> 48) as u16)?;
    }
    Ok(())
}

/// Reads vectors of bytes.
fn vectors<R: Source + Drop, E: Endianness>(
    skip: u32,
    bytes: usize,
    source: R,
    count: u64,
    alloc: Global,
) -> Result<u64, Error> {
    let mut reader = BitReader::<R, E>::new(source);
    let mut sum = 0u64;
    reader.skip(skip)?;
    for _item in 0..count {
        let read = reader.read_to_vec(alloc, bytes)?;
        match (read.first(), read.last()) {
            (Some(first), Some(last)) => {
                sum = mixed(mixed(sum, u64::from(*first)), u64::from(*last));
            }
            _ => {}
        }
    }
    Ok(sum)
}

/// Returns a sum, or 2^64 - 1 for a refused call.
fn or_refused(sum: Result<u64, Error>) -> u64 {
    match sum {
        Ok(sum) => sum,
        Err(_) => u64::MAX,
    }
}

/// Returns the number of bytes written, or 2^64 - 1 for a refused call.
pub(crate) fn bytes_or_refused(written: Result<(), Error>, bits: u64) -> u64 {
    match written {
        Ok(()) => bytes_of(bits),
        Err(_) => u64::MAX,
    }
}

/// Reads fields from a slice's bytes.
#[unsafe(no_mangle)]
pub extern "C" fn bench_read_fields(order: u32, data: &[u8], count: u64) -> u64 {
    if order == 0 {
        or_refused(fields::<_, BE>(data, count))
    } else {
        or_refused(fields::<_, LE>(data, count))
    }
}

/// Reads fields from a `Slice`.
#[unsafe(no_mangle)]
pub extern "C" fn bench_read_fields_slice(order: u32, data: &[u8], count: u64) -> u64 {
    if order == 0 {
        or_refused(fields::<_, BE>(Slice::new(data), count))
    } else {
        or_refused(fields::<_, LE>(Slice::new(data), count))
    }
}

/// Reads arrays from a slice's bytes.
#[unsafe(no_mangle)]
pub extern "C" fn bench_read_array(order: u32, data: &[u8], count: u64) -> u64 {
    if order == 0 {
        or_refused(arrays::<_, BE>(data, count))
    } else {
        or_refused(arrays::<_, LE>(data, count))
    }
}

/// Reads arrays from a `Slice`.
#[unsafe(no_mangle)]
pub extern "C" fn bench_read_array_slice(order: u32, data: &[u8], count: u64) -> u64 {
    if order == 0 {
        or_refused(arrays::<_, BE>(Slice::new(data), count))
    } else {
        or_refused(arrays::<_, LE>(Slice::new(data), count))
    }
}

/// Reads primitives from a slice's bytes.
#[unsafe(no_mangle)]
pub extern "C" fn bench_read_value(order: u32, data: &[u8], count: u64) -> u64 {
    if order == 0 {
        or_refused(values::<_, BE>(data, count))
    } else {
        or_refused(values::<_, LE>(data, count))
    }
}

/// Reads primitives from a `Slice`.
#[unsafe(no_mangle)]
pub extern "C" fn bench_read_value_slice(order: u32, data: &[u8], count: u64) -> u64 {
    if order == 0 {
        or_refused(values::<_, BE>(Slice::new(data), count))
    } else {
        or_refused(values::<_, LE>(Slice::new(data), count))
    }
}

/// Reads vectors from a slice's bytes.
#[unsafe(no_mangle)]
pub extern "C" fn bench_read_vec(
    order: u32,
    skip: u32,
    bytes: usize,
    data: &[u8],
    count: u64,
    alloc: Global,
) -> u64 {
    if order == 0 {
        or_refused(vectors::<_, BE>(skip, bytes, data, count, alloc))
    } else {
        or_refused(vectors::<_, LE>(skip, bytes, data, count, alloc))
    }
}

/// Reads vectors from a `Slice`.
#[unsafe(no_mangle)]
pub extern "C" fn bench_read_vec_slice(
    order: u32,
    skip: u32,
    bytes: usize,
    data: &[u8],
    count: u64,
    alloc: Global,
) -> u64 {
    if order == 0 {
        or_refused(vectors::<_, BE>(skip, bytes, Slice::new(data), count, alloc))
    } else {
        or_refused(vectors::<_, LE>(skip, bytes, Slice::new(data), count, alloc))
    }
}

/// Writes fields.
#[unsafe(no_mangle)]
pub extern "C" fn bench_write_fields(order: u32, count: u64, seed: u64, out: &mut [u8]) -> u64 {
    if order == 0 {
        bytes_or_refused(
            write_fields::<_, BE>(count, seed, out),
            count.saturating_mul(64),
        )
    } else {
        bytes_or_refused(
            write_fields::<_, LE>(count, seed, out),
            count.saturating_mul(64),
        )
    }
}

/// Writes arrays.
#[unsafe(no_mangle)]
pub extern "C" fn bench_write_array(order: u32, count: u64, seed: u64, out: &mut [u8]) -> u64 {
    if order == 0 {
        bytes_or_refused(
            write_arrays::<_, BE>(count, seed, out),
            count.saturating_mul(96),
        )
    } else {
        bytes_or_refused(
            write_arrays::<_, LE>(count, seed, out),
            count.saturating_mul(96),
        )
    }
}

/// Writes primitives.
#[unsafe(no_mangle)]
pub extern "C" fn bench_write_value(order: u32, count: u64, seed: u64, out: &mut [u8]) -> u64 {
    if order == 0 {
        bytes_or_refused(
            write_values::<_, BE>(count, seed, out),
            count.saturating_mul(48),
        )
    } else {
        bytes_or_refused(
            write_values::<_, LE>(count, seed, out),
            count.saturating_mul(48),
        )
    }
}
