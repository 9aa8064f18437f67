//! Functions for C that read and write as a benchmark asks, over bytes in memory. Each returns one
//! number computed from its items, or 2^64 - 1 if a call is refused.
#![tactic(auto)]

mod buffers;
mod codes;
mod flac;
mod memory;
mod mix;
mod prefix;
mod reading;
mod sinks;
mod tables;
mod targets;
mod typed;
mod writing;

use crate::memory::Memory;
use crate::reading::{
    read_bits, read_bytes, read_signed, read_unary, read_unsigned, read_vbr, read_wide, skip_bits,
};
use crate::writing::{
    write_bits, write_bytes, write_signed, write_unary, write_unsigned, write_vbr, write_wide,
};
use bitstream_io::{BE, Bits, Endianness, LE, Slice, Source};

/// Reads unsigned numbers of up to 128 bits.
fn read_any<R: Source + Drop, E: Endianness>(width: u32, source: R, count: u64) -> u64 {
    if width > 64 {
        read_wide::<R, E>(width, source, count)
    } else {
        read_unsigned::<R, E>(width, source, count)
    }
}

/// Writes unsigned numbers of up to 128 bits.
pub(crate) fn write_any<T: Memory, E: Endianness>(
    width: u32,
    count: u64,
    seed: u64,
    out: T,
) -> u64 {
    if width > 64 {
        write_wide::<T, E>(width, count, seed, out)
    } else {
        write_unsigned::<T, E>(width, count, seed, out)
    }
}

/// Reads numbers of variable width, in groups of 4 or of 8 bits.
fn read_groups<R: Source + Drop, E: Endianness>(field: u32, source: R, count: u64) -> u64 {
    if field == 4 {
        read_vbr::<Bits<4>, R, E>(source, count)
    } else {
        read_vbr::<Bits<8>, R, E>(source, count)
    }
}

/// Writes numbers of variable width, in groups of 4 or of 8 bits.
pub(crate) fn write_groups<T: Memory, E: Endianness>(
    field: u32,
    bits: u32,
    count: u64,
    seed: u64,
    out: T,
) -> u64 {
    if field == 4 {
        write_vbr::<Bits<4>, T, E>(bits, count, seed, out)
    } else {
        write_vbr::<Bits<8>, T, E>(bits, count, seed, out)
    }
}

/// Reads bits from a slice's bytes.
#[unsafe(no_mangle)]
pub extern "C" fn bench_read_bits(order: u32, data: &[u8], count: u64) -> u64 {
    if order == 0 {
        read_bits::<_, BE>(data, count)
    } else {
        read_bits::<_, LE>(data, count)
    }
}

/// Reads unsigned numbers from a slice's bytes.
#[unsafe(no_mangle)]
pub extern "C" fn bench_read_unsigned(order: u32, width: u32, data: &[u8], count: u64) -> u64 {
    if order == 0 {
        read_any::<_, BE>(width, data, count)
    } else {
        read_any::<_, LE>(width, data, count)
    }
}

/// Reads signed numbers from a slice's bytes.
#[unsafe(no_mangle)]
pub extern "C" fn bench_read_signed(order: u32, width: u32, data: &[u8], count: u64) -> u64 {
    if order == 0 {
        read_signed::<_, BE>(width, data, count)
    } else {
        read_signed::<_, LE>(width, data, count)
    }
}

/// Reads bits from a `Slice`.
#[unsafe(no_mangle)]
pub extern "C" fn bench_read_bits_slice(order: u32, data: &[u8], count: u64) -> u64 {
    if order == 0 {
        read_bits::<_, BE>(Slice::new(data), count)
    } else {
        read_bits::<_, LE>(Slice::new(data), count)
    }
}

/// Reads unsigned numbers from a `Slice`.
#[unsafe(no_mangle)]
pub extern "C" fn bench_read_unsigned_slice(
    order: u32,
    width: u32,
    data: &[u8],
    count: u64,
) -> u64 {
    if order == 0 {
        read_any::<_, BE>(width, Slice::new(data), count)
    } else {
        read_any::<_, LE>(width, Slice::new(data), count)
    }
}

/// Reads signed numbers from a `Slice`.
#[unsafe(no_mangle)]
pub extern "C" fn bench_read_signed_slice(order: u32, width: u32, data: &[u8], count: u64) -> u64 {
    if order == 0 {
        read_signed::<_, BE>(width, Slice::new(data), count)
    } else {
        read_signed::<_, LE>(width, Slice::new(data), count)
    }
}

/// Writes bits.
#[unsafe(no_mangle)]
pub extern "C" fn bench_write_bits(order: u32, count: u64, seed: u64, out: &mut [u8]) -> u64 {
    if order == 0 {
        write_bits::<_, BE>(count, seed, out)
    } else {
        write_bits::<_, LE>(count, seed, out)
    }
}

/// Writes unsigned numbers.
#[unsafe(no_mangle)]
pub extern "C" fn bench_write_unsigned(
    order: u32,
    width: u32,
    count: u64,
    seed: u64,
    out: &mut [u8],
) -> u64 {
    if order == 0 {
        write_any::<_, BE>(width, count, seed, out)
    } else {
        write_any::<_, LE>(width, count, seed, out)
    }
}

/// Writes signed numbers.
#[unsafe(no_mangle)]
pub extern "C" fn bench_write_signed(
    order: u32,
    width: u32,
    count: u64,
    seed: u64,
    out: &mut [u8],
) -> u64 {
    if order == 0 {
        write_signed::<_, BE>(width, count, seed, out)
    } else {
        write_signed::<_, LE>(width, count, seed, out)
    }
}

/// Reads buffers from a slice's bytes.
#[unsafe(no_mangle)]
pub extern "C" fn bench_read_bytes(
    order: u32,
    skip: u32,
    data: &[u8],
    out: &mut [u8],
    count: u64,
) -> u64 {
    if order == 0 {
        read_bytes::<_, BE>(skip, data, out, count)
    } else {
        read_bytes::<_, LE>(skip, data, out, count)
    }
}

/// Reads buffers from a `Slice`.
#[unsafe(no_mangle)]
pub extern "C" fn bench_read_bytes_slice(
    order: u32,
    skip: u32,
    data: &[u8],
    out: &mut [u8],
    count: u64,
) -> u64 {
    if order == 0 {
        read_bytes::<_, BE>(skip, Slice::new(data), out, count)
    } else {
        read_bytes::<_, LE>(skip, Slice::new(data), out, count)
    }
}

/// Skips bits of a slice's bytes.
#[unsafe(no_mangle)]
pub extern "C" fn bench_skip(order: u32, step: u32, data: &[u8], count: u64) -> u64 {
    if order == 0 {
        skip_bits::<_, BE>(step, data, count)
    } else {
        skip_bits::<_, LE>(step, data, count)
    }
}

/// Writes buffers to a slice's bytes.
#[unsafe(no_mangle)]
pub extern "C" fn bench_write_bytes(
    order: u32,
    skip: u32,
    data: &[u8],
    count: u64,
    out: &mut [u8],
) -> u64 {
    if order == 0 {
        write_bytes::<_, BE>(skip, data, count, out)
    } else {
        write_bytes::<_, LE>(skip, data, count, out)
    }
}

/// Reads unary numbers from a slice's bytes.
#[unsafe(no_mangle)]
pub extern "C" fn bench_read_unary(order: u32, stop: u32, data: &[u8], count: u64) -> u64 {
    if order == 0 {
        read_unary::<_, BE>(stop, data, count)
    } else {
        read_unary::<_, LE>(stop, data, count)
    }
}

/// Reads unary numbers from a `Slice`.
#[unsafe(no_mangle)]
pub extern "C" fn bench_read_unary_slice(order: u32, stop: u32, data: &[u8], count: u64) -> u64 {
    if order == 0 {
        read_unary::<_, BE>(stop, Slice::new(data), count)
    } else {
        read_unary::<_, LE>(stop, Slice::new(data), count)
    }
}

/// Writes unary numbers.
#[unsafe(no_mangle)]
pub extern "C" fn bench_write_unary(
    order: u32,
    stop: u32,
    limit: u32,
    count: u64,
    seed: u64,
    out: &mut [u8],
) -> u64 {
    if order == 0 {
        write_unary::<_, BE>(stop, limit, count, seed, out)
    } else {
        write_unary::<_, LE>(stop, limit, count, seed, out)
    }
}

/// Reads numbers of variable width from a slice's bytes.
#[unsafe(no_mangle)]
pub extern "C" fn bench_read_vbr(order: u32, field: u32, data: &[u8], count: u64) -> u64 {
    if order == 0 {
        read_groups::<_, BE>(field, data, count)
    } else {
        read_groups::<_, LE>(field, data, count)
    }
}

/// Writes numbers of variable width to a slice's bytes.
#[unsafe(no_mangle)]
pub extern "C" fn bench_write_vbr(
    order: u32,
    field: u32,
    bits: u32,
    count: u64,
    seed: u64,
    out: &mut [u8],
) -> u64 {
    if order == 0 {
        write_groups::<_, BE>(field, bits, count, seed, out)
    } else {
        write_groups::<_, LE>(field, bits, count, seed, out)
    }
}

/// Reads numbers of variable width from a `Slice`.
#[unsafe(no_mangle)]
pub extern "C" fn bench_read_vbr_slice(order: u32, field: u32, data: &[u8], count: u64) -> u64 {
    if order == 0 {
        read_groups::<_, BE>(field, Slice::new(data), count)
    } else {
        read_groups::<_, LE>(field, Slice::new(data), count)
    }
}

/// Skips in a `Slice`.
#[unsafe(no_mangle)]
pub extern "C" fn bench_skip_slice(order: u32, step: u32, data: &[u8], count: u64) -> u64 {
    if order == 0 {
        skip_bits::<_, BE>(step, Slice::new(data), count)
    } else {
        skip_bits::<_, LE>(step, Slice::new(data), count)
    }
}
