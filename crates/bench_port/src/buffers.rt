//! Numbers of 13 bits over std's buffers. Functions that need memory ask the host for it.

use crate::mix::{bytes_of, mixed, stepped};
use bitstream_io::{
    BE, BitReadExt, BitReader, BitWrite, BitWriteExt, BitWriter, Blockwise, Buffered, Endianness,
    Error, LE, Source, Target,
};
use std::alloc::Global;
use std::io::{BufReader, BufWriter};

/// Reads numbers.
fn read_numbers<R: Source + Drop, E: Endianness>(source: R, count: u64) -> u64 {
    let mut reader = BitReader::<R, E>::new(source);
    let mut sum = 0u64;
    for _item in 0..count {
        match reader.read_var::<u16>(13) {
            Ok(value) => sum = mixed(sum, u64::from(value)),
            Err(_) => return u64::MAX,
        }
    }
    sum
}

/// Writes numbers.
fn write_numbers<T: Target + Drop, E: Endianness>(
    count: u64,
    seed: u64,
    out: T,
) -> Result<(), Error> {
    let mut writer = BitWriter::<T, E>::new(out);
    let mut state = seed;
    for _item in 0..count {
        state = stepped(state);
        writer.write_var::<u16>(13, (state >> 51) as u16)?;
    }
    writer.byte_align()?;
    writer.flush()
}

/// Writes numbers in the order named. Returns the number of bytes written.
fn write_in<T: Target + Drop>(order: u32, count: u64, seed: u64, out: T) -> u64 {
    let written = if order == 0 {
        write_numbers::<T, BE>(count, seed, out)
    } else {
        write_numbers::<T, LE>(count, seed, out)
    };
    match written {
        Ok(()) => bytes_of(count.saturating_mul(13)),
        Err(_) => u64::MAX,
    }
}

/// Reads numbers in the order named, and mixes them into a sum.
fn read_in<R: Source + Drop>(order: u32, count: u64, source: R) -> u64 {
    if order == 0 {
        read_numbers::<R, BE>(source, count)
    } else {
        read_numbers::<R, LE>(source, count)
    }
}

/// Reads numbers from a `BufReader`.
#[unsafe(no_mangle)]
pub extern "C" fn bench_read_buffered(order: u32, data: &[u8], count: u64, alloc: Global) -> u64 {
    match BufReader::new(alloc, data) {
        Ok(stream) => read_in(order, count, stream),
        Err(_) => u64::MAX,
    }
}

/// Reads numbers from a `BufReader`, through a `Buffered`.
#[unsafe(no_mangle)]
pub extern "C" fn bench_read_buffered_slice(
    order: u32,
    data: &[u8],
    count: u64,
    alloc: Global,
) -> u64 {
    match BufReader::new(alloc, data) {
        Ok(stream) => read_in(order, count, Buffered::new(stream)),
        Err(_) => u64::MAX,
    }
}

/// Writes numbers through a `BufWriter`.
#[unsafe(no_mangle)]
pub extern "C" fn bench_write_buffered(
    order: u32,
    count: u64,
    seed: u64,
    out: &mut [u8],
    alloc: Global,
) -> u64 {
    match BufWriter::new(alloc, out) {
        Ok(stream) => write_in(order, count, seed, stream),
        Err(_) => u64::MAX,
    }
}

/// Writes numbers through a `Blockwise`.
#[unsafe(no_mangle)]
pub extern "C" fn bench_write_buffered_slice(
    order: u32,
    count: u64,
    seed: u64,
    out: &mut [u8],
    alloc: Global,
) -> u64 {
    match Blockwise::new(alloc, out) {
        Ok(stream) => write_in(order, count, seed, stream),
        Err(_) => u64::MAX,
    }
}
