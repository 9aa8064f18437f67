//! Numbers of 13 bits, samples of 16 bits, flags.

use crate::memory::{Memory, mixed, or_refused, stepped};
use bitstream_io::{
    BE, BitRead, BitReadExt, BitReader, BitWrite, BitWriteExt, BitWriter, Bits, Endianness, Error,
    LE, Slice, SliceMut, Source,
};

/// Reads numbers of 13 bits, a constant width.
fn read_const13<R: BitRead + Drop>(mut reader: R, count: u64) -> Result<u64, Error> {
    let mut sum = 0u64;
    for _item in 0..count {
        sum = mixed(sum, u64::from(reader.read::<Bits<13>, u16>()?));
    }
    Ok(sum)
}

/// Writes numbers of 13 bits, a constant width.
fn write_const13<T: Memory, E: Endianness>(count: u64, seed: u64, out: T) -> Result<u64, Error> {
    let len = out.free();
    let mut writer = BitWriter::<T, E>::new(out);
    let mut state = seed;
    for _item in 0..count {
        state = stepped(state);
        writer.write::<Bits<13>, u16>((state >> 51) as u16)?;
    }
    writer.byte_align()?;
    Ok(len.saturating_sub(writer.into_writer().free()) as u64)
}

/// Reads numbers of a width known at run time.
pub(crate) fn read_numbers<R: BitRead + Drop>(
    width: u32,
    mut reader: R,
    count: u64,
) -> Result<u64, Error> {
    let mut sum = 0u64;
    for _item in 0..count {
        sum = mixed(sum, u64::from(reader.read_var::<u16>(width)?));
    }
    Ok(sum)
}

/// Reads numbers of 13 bits, a width known at run time.
fn read_var13<R: BitRead + Drop>(reader: R, count: u64) -> Result<u64, Error> {
    read_numbers(13 + (count >> 60) as u32, reader, count)
}

/// Reads samples of 16 bits with their signs.
fn read_pcm16<R: BitRead + Drop>(mut reader: R, count: u64) -> Result<u64, Error> {
    let mut sum = 0u64;
    for _item in 0..count {
        sum = mixed(
            sum,
            i64::from(reader.read_signed_var::<i32>(16)?).cast_unsigned(),
        );
    }
    Ok(sum)
}

/// Reads arrays of 8 flags.
fn read_flags<R: BitRead + Drop>(mut reader: R, count: u64) -> Result<u64, Error> {
    let mut sum = 0u64;
    for _item in 0..count {
        for flag in reader.read::<Bits<1>, [bool; 8]>()? {
            sum = mixed(sum, u64::from(flag));
        }
    }
    Ok(sum)
}

/// Reads numbers of constant width, in the order named.
fn in_order_const13<R: Source + Drop>(order: u32, source: R, count: u64) -> u64 {
    or_refused(if order == 0 {
        read_const13(BitReader::<_, BE>::new(source), count)
    } else {
        read_const13(BitReader::<_, LE>::new(source), count)
    })
}

/// Reads numbers of constant width from a slice's bytes.
#[unsafe(no_mangle)]
pub extern "C" fn bench_read_const13(order: u32, data: &[u8], count: u64) -> u64 {
    in_order_const13(order, data, count)
}

/// Reads numbers of constant width from a `Slice`.
#[unsafe(no_mangle)]
pub extern "C" fn bench_read_const13_slice(order: u32, data: &[u8], count: u64) -> u64 {
    in_order_const13(order, Slice::new(data), count)
}

/// Reads numbers, in the order named.
fn in_order_var13<R: Source + Drop>(order: u32, source: R, count: u64) -> u64 {
    or_refused(if order == 0 {
        read_var13(BitReader::<_, BE>::new(source), count)
    } else {
        read_var13(BitReader::<_, LE>::new(source), count)
    })
}

/// Reads numbers from a slice's bytes.
#[unsafe(no_mangle)]
pub extern "C" fn bench_read_var13(order: u32, data: &[u8], count: u64) -> u64 {
    in_order_var13(order, data, count)
}

/// Reads numbers from a `Slice`.
#[unsafe(no_mangle)]
pub extern "C" fn bench_read_var13_slice(order: u32, data: &[u8], count: u64) -> u64 {
    in_order_var13(order, Slice::new(data), count)
}

/// Reads samples, in the order named.
fn in_order_pcm16<R: Source + Drop>(order: u32, source: R, count: u64) -> u64 {
    or_refused(if order == 0 {
        read_pcm16(BitReader::<_, BE>::new(source), count)
    } else {
        read_pcm16(BitReader::<_, LE>::new(source), count)
    })
}

/// Reads samples from a slice's bytes.
#[unsafe(no_mangle)]
pub extern "C" fn bench_read_pcm16(order: u32, data: &[u8], count: u64) -> u64 {
    in_order_pcm16(order, data, count)
}

/// Reads samples from a `Slice`.
#[unsafe(no_mangle)]
pub extern "C" fn bench_read_pcm16_slice(order: u32, data: &[u8], count: u64) -> u64 {
    in_order_pcm16(order, Slice::new(data), count)
}

/// Reads flags, in the order named.
fn in_order_flags<R: Source + Drop>(order: u32, source: R, count: u64) -> u64 {
    or_refused(if order == 0 {
        read_flags(BitReader::<_, BE>::new(source), count)
    } else {
        read_flags(BitReader::<_, LE>::new(source), count)
    })
}

/// Reads flags from a slice's bytes.
#[unsafe(no_mangle)]
pub extern "C" fn bench_read_flags(order: u32, data: &[u8], count: u64) -> u64 {
    in_order_flags(order, data, count)
}

/// Reads flags from a `Slice`.
#[unsafe(no_mangle)]
pub extern "C" fn bench_read_flags_slice(order: u32, data: &[u8], count: u64) -> u64 {
    in_order_flags(order, Slice::new(data), count)
}

/// Writes numbers of constant width, in the order named.
fn in_order_write_const13<T: Memory>(order: u32, count: u64, seed: u64, out: T) -> u64 {
    or_refused(if order == 0 {
        write_const13::<_, BE>(count, seed, out)
    } else {
        write_const13::<_, LE>(count, seed, out)
    })
}

/// Writes numbers of constant width to a slice.
#[unsafe(no_mangle)]
pub extern "C" fn bench_write_const13(order: u32, count: u64, seed: u64, out: &mut [u8]) -> u64 {
    in_order_write_const13(order, count, seed, out)
}

/// Writes numbers of constant width to a `SliceMut`.
#[unsafe(no_mangle)]
pub extern "C" fn bench_write_const13_slice(
    order: u32,
    count: u64,
    seed: u64,
    out: &mut [u8],
) -> u64 {
    in_order_write_const13(order, count, seed, SliceMut::new(out))
}

/// Reads numbers of constant width from a slice's bytes, by `over`.
#[unsafe(no_mangle)]
pub extern "C" fn bench_read_const13_over(order: u32, data: &[u8], count: u64) -> u64 {
    or_refused(if order == 0 {
        read_const13(BitReader::<_, BE>::over(data), count)
    } else {
        read_const13(BitReader::<_, LE>::over(data), count)
    })
}

/// Reads numbers from a slice's bytes, by `over`.
#[unsafe(no_mangle)]
pub extern "C" fn bench_read_var13_over(order: u32, data: &[u8], count: u64) -> u64 {
    or_refused(if order == 0 {
        read_var13(BitReader::<_, BE>::over(data), count)
    } else {
        read_var13(BitReader::<_, LE>::over(data), count)
    })
}

/// Reads samples from a slice's bytes, by `over`.
#[unsafe(no_mangle)]
pub extern "C" fn bench_read_pcm16_over(order: u32, data: &[u8], count: u64) -> u64 {
    or_refused(if order == 0 {
        read_pcm16(BitReader::<_, BE>::over(data), count)
    } else {
        read_pcm16(BitReader::<_, LE>::over(data), count)
    })
}

/// Reads flags from a slice's bytes, by `over`.
#[unsafe(no_mangle)]
pub extern "C" fn bench_read_flags_over(order: u32, data: &[u8], count: u64) -> u64 {
    or_refused(if order == 0 {
        read_flags(BitReader::<_, BE>::over(data), count)
    } else {
        read_flags(BitReader::<_, LE>::over(data), count)
    })
}
