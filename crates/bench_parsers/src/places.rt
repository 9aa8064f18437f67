//! Seeks and long skips.

use crate::memory::{mixed, or_refused, stepped};
use bitstream_io::{
    BE, BitRead, BitReadExt, BitReader, Endianness, Error, LE, SeekSource, Slice, Source,
};
use std::io::{Cursor, SeekFrom};

/// Seeks to random positions below `most`, and reads 11 bits at each.
fn read_seek<R: SeekSource + Drop, E: Endianness>(
    source: R,
    most: u64,
    count: u64,
) -> Result<u64, Error> {
    let mut reader = BitReader::<R, E>::new(source);
    let mut state = 1u64;
    let mut sum = 0u64;
    for _item in 0..count {
        state = stepped(state);
        let _place = reader.seek_bits(SeekFrom::Start((state >> 20) % most.max(1)))?;
        sum = mixed(sum, u64::from(reader.read_var::<u32>(11)?));
    }
    Ok(sum)
}

/// Skips 20,003 bits and reads one.
fn read_skip<R: Source + Drop, E: Endianness>(source: R, count: u64) -> Result<u64, Error> {
    let mut reader = BitReader::<R, E>::new(source);
    let mut sum = 0u64;
    for _item in 0..count {
        reader.skip(20003)?;
        sum = mixed(sum, u64::from(reader.read_bit()?));
    }
    Ok(sum)
}

/// Seeks and reads, in the order named.
fn in_order_seek<R: SeekSource + Drop>(order: u32, source: R, bytes: usize, count: u64) -> u64 {
    let most = (bytes as u64).saturating_mul(8).saturating_sub(11);
    or_refused(if order == 0 {
        read_seek::<_, BE>(source, most, count)
    } else {
        read_seek::<_, LE>(source, most, count)
    })
}

/// Seeks and reads in a `Cursor`.
#[unsafe(no_mangle)]
pub extern "C" fn bench_read_seek(order: u32, data: &[u8], count: u64) -> u64 {
    in_order_seek(order, Cursor::new(data), data.len(), count)
}

/// Seeks and reads in a `Slice`.
#[unsafe(no_mangle)]
pub extern "C" fn bench_read_seek_slice(order: u32, data: &[u8], count: u64) -> u64 {
    in_order_seek(order, Slice::new(data), data.len(), count)
}

/// Skips and reads, in the order named.
fn in_order_skip<R: Source + Drop>(order: u32, source: R, count: u64) -> u64 {
    or_refused(if order == 0 {
        read_skip::<_, BE>(source, count)
    } else {
        read_skip::<_, LE>(source, count)
    })
}

/// Skips and reads from a slice's bytes.
#[unsafe(no_mangle)]
pub extern "C" fn bench_read_skip(order: u32, data: &[u8], count: u64) -> u64 {
    in_order_skip(order, data, count)
}

/// Skips and reads from a `Slice`.
#[unsafe(no_mangle)]
pub extern "C" fn bench_read_skip_slice(order: u32, data: &[u8], count: u64) -> u64 {
    in_order_skip(order, Slice::new(data), count)
}
