//! The functions that write, over a `SliceMut`.

use crate::flac::write_headers;
use crate::prefix::{tree, write_symbols};
use crate::typed::{bytes_or_refused, write_arrays, write_fields, write_values};
use crate::writing::{write_bits, write_bytes, write_signed, write_unary};
use crate::{write_any, write_groups};
use bitstream_io::{BE, LE, SliceMut};
use std::alloc::Global;

/// Writes bits.
#[unsafe(no_mangle)]
pub extern "C" fn bench_write_bits_slice(order: u32, count: u64, seed: u64, out: &mut [u8]) -> u64 {
    if order == 0 {
        write_bits::<_, BE>(count, seed, SliceMut::new(out))
    } else {
        write_bits::<_, LE>(count, seed, SliceMut::new(out))
    }
}

/// Writes unsigned numbers.
#[unsafe(no_mangle)]
pub extern "C" fn bench_write_unsigned_slice(
    order: u32,
    width: u32,
    count: u64,
    seed: u64,
    out: &mut [u8],
) -> u64 {
    if order == 0 {
        write_any::<_, BE>(width, count, seed, SliceMut::new(out))
    } else {
        write_any::<_, LE>(width, count, seed, SliceMut::new(out))
    }
}

/// Writes signed numbers.
#[unsafe(no_mangle)]
pub extern "C" fn bench_write_signed_slice(
    order: u32,
    width: u32,
    count: u64,
    seed: u64,
    out: &mut [u8],
) -> u64 {
    if order == 0 {
        write_signed::<_, BE>(width, count, seed, SliceMut::new(out))
    } else {
        write_signed::<_, LE>(width, count, seed, SliceMut::new(out))
    }
}

/// Writes bytes.
#[unsafe(no_mangle)]
pub extern "C" fn bench_write_bytes_slice(
    order: u32,
    skip: u32,
    data: &[u8],
    count: u64,
    out: &mut [u8],
) -> u64 {
    if order == 0 {
        write_bytes::<_, BE>(skip, data, count, SliceMut::new(out))
    } else {
        write_bytes::<_, LE>(skip, data, count, SliceMut::new(out))
    }
}

/// Writes runs.
#[unsafe(no_mangle)]
pub extern "C" fn bench_write_unary_slice(
    order: u32,
    stop: u32,
    limit: u32,
    count: u64,
    seed: u64,
    out: &mut [u8],
) -> u64 {
    if order == 0 {
        write_unary::<_, BE>(stop, limit, count, seed, SliceMut::new(out))
    } else {
        write_unary::<_, LE>(stop, limit, count, seed, SliceMut::new(out))
    }
}

/// Writes numbers of variable width.
#[unsafe(no_mangle)]
pub extern "C" fn bench_write_vbr_slice(
    order: u32,
    field: u32,
    bits: u32,
    count: u64,
    seed: u64,
    out: &mut [u8],
) -> u64 {
    if order == 0 {
        write_groups::<_, BE>(field, bits, count, seed, SliceMut::new(out))
    } else {
        write_groups::<_, LE>(field, bits, count, seed, SliceMut::new(out))
    }
}

/// Writes fields of constant widths.
#[unsafe(no_mangle)]
pub extern "C" fn bench_write_fields_slice(
    order: u32,
    count: u64,
    seed: u64,
    out: &mut [u8],
) -> u64 {
    if order == 0 {
        bytes_or_refused(
            write_fields::<_, BE>(count, seed, SliceMut::new(out)),
            count.saturating_mul(64),
        )
    } else {
        bytes_or_refused(
            write_fields::<_, LE>(count, seed, SliceMut::new(out)),
            count.saturating_mul(64),
        )
    }
}

/// Writes arrays of words.
#[unsafe(no_mangle)]
pub extern "C" fn bench_write_array_slice(
    order: u32,
    count: u64,
    seed: u64,
    out: &mut [u8],
) -> u64 {
    if order == 0 {
        bytes_or_refused(
            write_arrays::<_, BE>(count, seed, SliceMut::new(out)),
            count.saturating_mul(96),
        )
    } else {
        bytes_or_refused(
            write_arrays::<_, LE>(count, seed, SliceMut::new(out)),
            count.saturating_mul(96),
        )
    }
}

/// Writes primitives by the layer of bytes.
#[unsafe(no_mangle)]
pub extern "C" fn bench_write_value_slice(
    order: u32,
    count: u64,
    seed: u64,
    out: &mut [u8],
) -> u64 {
    if order == 0 {
        bytes_or_refused(
            write_values::<_, BE>(count, seed, SliceMut::new(out)),
            count.saturating_mul(48),
        )
    } else {
        bytes_or_refused(
            write_values::<_, LE>(count, seed, SliceMut::new(out)),
            count.saturating_mul(48),
        )
    }
}

/// Writes headers.
#[unsafe(no_mangle)]
pub extern "C" fn bench_write_flac_header_slice(count: u64, seed: u64, out: &mut [u8]) -> u64 {
    match write_headers(count, seed, SliceMut::new(out)) {
        Ok(()) => count.saturating_mul(34),
        Err(_) => u64::MAX,
    }
}

/// Writes symbols.
#[unsafe(no_mangle)]
pub extern "C" fn bench_write_prefix_slice(
    order: u32,
    count: u64,
    seed: u64,
    out: &mut [u8],
    alloc: Global,
) -> u64 {
    match tree(alloc) {
        Ok(tree) => {
            if order == 0 {
                write_symbols::<_, BE>(&tree, count, seed, SliceMut::new(out))
            } else {
                write_symbols::<_, LE>(&tree, count, seed, SliceMut::new(out))
            }
        }
        Err(_) => u64::MAX,
    }
}
