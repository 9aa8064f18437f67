//! Vectors that are read, and vectors that grow.

use crate::memory::{mixed, or_refused, stepped};
use bitstream_io::{
    BE, BitWrite, BitWriteExt, BitWriter, ByteRead, ByteReader, Endianness, Error, Growing, LE,
    Slice, Source,
};
use std::alloc::Global;

/// Reads vectors of 64 bytes by the layer of bytes.
fn read_bytevec<R: Source + Drop, E: Endianness>(
    source: R,
    count: u64,
    alloc: Global,
) -> Result<u64, Error> {
    let mut reader = ByteReader::<R, E>::new(source);
    let mut sum = 0u64;
    for _item in 0..count {
        let read = reader.read_to_vec(alloc, 64)?;
        match (read.first(), read.last()) {
            (Some(first), Some(last)) => {
                sum = mixed(mixed(sum, u64::from(*first)), u64::from(*last));
            }
            _ => {}
        }
    }
    Ok(sum)
}

/// Writes numbers of 13 bits to a `Vec`.
fn write_vec<E: Endianness>(
    count: u64,
    seed: u64,
    out: &mut [u8],
    alloc: Global,
) -> Result<u64, Error> {
    let mut writer = BitWriter::<Vec<u8>, E>::new(Vec::new(alloc));
    let mut state = seed;
    for _item in 0..count {
        state = stepped(state);
        writer.write_var::<u16>(13, (state >> 51) as u16)?;
    }
    writer.byte_align()?;
    let bytes = writer.into_writer();
    if let (Some(first), Some(last)) = (bytes.first(), bytes.last()) {
        if out.len() > 1 {
            out[0] = *first;
            out[1] = *last;
        }
    }
    Ok(bytes.len() as u64)
}

/// Writes numbers of 13 bits to a `Growing`.
fn write_growing<E: Endianness>(
    count: u64,
    seed: u64,
    out: &mut [u8],
    alloc: Global,
) -> Result<u64, Error> {
    let mut writer = BitWriter::<Growing<Global>, E>::new(Growing::new(Vec::new(alloc)));
    let mut state = seed;
    for _item in 0..count {
        state = stepped(state);
        writer.write_var::<u16>(13, (state >> 51) as u16)?;
    }
    writer.byte_align()?;
    let bytes = writer.into_writer().into_vec();
    if let (Some(first), Some(last)) = (bytes.first(), bytes.last()) {
        if out.len() > 1 {
            out[0] = *first;
            out[1] = *last;
        }
    }
    Ok(bytes.len() as u64)
}

/// Reads vectors, in the order named.
fn in_order_bytevec<R: Source + Drop>(order: u32, source: R, count: u64, alloc: Global) -> u64 {
    or_refused(if order == 0 {
        read_bytevec::<_, BE>(source, count, alloc)
    } else {
        read_bytevec::<_, LE>(source, count, alloc)
    })
}

/// Reads vectors from a slice's bytes.
#[unsafe(no_mangle)]
pub extern "C" fn bench_read_bytevec(order: u32, data: &[u8], count: u64, alloc: Global) -> u64 {
    in_order_bytevec(order, data, count, alloc)
}

/// Reads vectors from a `Slice`.
#[unsafe(no_mangle)]
pub extern "C" fn bench_read_bytevec_slice(
    order: u32,
    data: &[u8],
    count: u64,
    alloc: Global,
) -> u64 {
    in_order_bytevec(order, Slice::new(data), count, alloc)
}

/// Writes numbers to a `Vec`.
#[unsafe(no_mangle)]
pub extern "C" fn bench_write_vec(
    order: u32,
    count: u64,
    seed: u64,
    out: &mut [u8],
    alloc: Global,
) -> u64 {
    or_refused(if order == 0 {
        write_vec::<BE>(count, seed, out, alloc)
    } else {
        write_vec::<LE>(count, seed, out, alloc)
    })
}

/// Writes numbers to a `Growing`.
#[unsafe(no_mangle)]
pub extern "C" fn bench_write_vec_slice(
    order: u32,
    count: u64,
    seed: u64,
    out: &mut [u8],
    alloc: Global,
) -> u64 {
    or_refused(if order == 0 {
        write_growing::<BE>(count, seed, out, alloc)
    } else {
        write_growing::<LE>(count, seed, out, alloc)
    })
}
