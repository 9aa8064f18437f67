//! The streams of std.

use crate::memory::{or_refused, stepped};
use crate::numbers::read_numbers;
use bitstream_io::{
    BE, BitReader, BitWrite, BitWriteExt, BitWriter, Buffered, Endianness, Error, LE,
};
use std::alloc::Global;
use std::io::{BufReader, BufWriter, Cursor, Write};

/// Writes numbers of 13 bits through a `BufWriter`.
fn write_buffered<E: Endianness>(
    count: u64,
    seed: u64,
    out: &mut [u8],
    alloc: Global,
) -> Result<u64, Error> {
    let Ok(stream) = BufWriter::new(alloc, out) else {
        return Err(Error::OutOfMemory);
    };
    let mut writer = BitWriter::<_, E>::new(stream);
    let mut state = seed;
    for _item in 0..count {
        state = stepped(state);
        writer.write_var::<u16>(13, (state >> 51) as u16)?;
    }
    writer.byte_align()?;
    let mut stream = writer.into_writer();
    if stream.flush().is_err() {
        return Err(Error::Failed);
    }
    Ok(count.saturating_mul(13).saturating_add(7) / 8)
}

/// Reads numbers of 13 bits from a cursor.
#[unsafe(no_mangle)]
pub extern "C" fn bench_read_cursor(order: u32, data: &[u8], count: u64) -> u64 {
    or_refused(if order == 0 {
        read_numbers(13, BitReader::<_, BE>::new(Cursor::new(data)), count)
    } else {
        read_numbers(13, BitReader::<_, LE>::new(Cursor::new(data)), count)
    })
}

/// Reads numbers of 13 bits from a `BufReader`.
#[unsafe(no_mangle)]
pub extern "C" fn bench_read_bufreader(order: u32, data: &[u8], count: u64, alloc: Global) -> u64 {
    match BufReader::new(alloc, data) {
        Ok(stream) => or_refused(if order == 0 {
            read_numbers(13, BitReader::<_, BE>::new(stream), count)
        } else {
            read_numbers(13, BitReader::<_, LE>::new(stream), count)
        }),
        Err(_) => u64::MAX,
    }
}

/// Reads numbers of 13 bits from a `BufReader`, through a `Buffered`.
#[unsafe(no_mangle)]
pub extern "C" fn bench_read_bufreader_slice(
    order: u32,
    data: &[u8],
    count: u64,
    alloc: Global,
) -> u64 {
    match BufReader::new(alloc, data) {
        Ok(stream) => or_refused(if order == 0 {
            read_numbers(13, BitReader::<_, BE>::new(Buffered::new(stream)), count)
        } else {
            read_numbers(13, BitReader::<_, LE>::new(Buffered::new(stream)), count)
        }),
        Err(_) => u64::MAX,
    }
}

/// Writes numbers of 13 bits through a `BufWriter`.
#[unsafe(no_mangle)]
pub extern "C" fn bench_write_bufwriter(
    order: u32,
    count: u64,
    seed: u64,
    out: &mut [u8],
    alloc: Global,
) -> u64 {
    or_refused(if order == 0 {
        write_buffered::<BE>(count, seed, out, alloc)
    } else {
        write_buffered::<LE>(count, seed, out, alloc)
    })
}
