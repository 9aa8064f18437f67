//! Codes of numbers: Exp-Golomb as in H.264, Rice, unary.

use crate::memory::{Memory, mixed, or_refused, stepped};
use bitstream_io::{
    BE, BitRead, BitReadExt, BitReader, BitWrite, BitWriteExt, BitWriter, Bits, Endianness, Error,
    LE, Slice, SliceMut, Source,
};

/// Reads `ue(v)`.
fn ue<R: BitRead>(reader: &mut R) -> Result<u32, Error> {
    let zeros = reader.read_unary::<Bits<1>>()?;
    if zeros > 31 {
        return Err(Error::VariableWidthOverflow);
    }
    let rest: u32 = reader.read_var(zeros)?;
    Ok((1u32 << zeros).wrapping_sub(1).wrapping_add(rest))
}

/// Reads `se(v)`.
fn se<R: BitRead>(reader: &mut R) -> Result<i32, Error> {
    let place = ue(reader)?;
    let half = (place / 2) as i32;
    Ok(if place % 2 == 1 {
        half.wrapping_add(1)
    } else {
        half.wrapping_neg()
    })
}

/// Writes `ue(v)`.
fn w_ue<W: BitWrite>(writer: &mut W, value: u32) -> Result<(), Error> {
    let more = value.saturating_add(1);
    let zeros = 31u32.saturating_sub(more.leading_zeros());
    writer.write_unary::<Bits<1>>(zeros)?;
    writer.write_var(zeros, more.wrapping_sub(1u32 << zeros.min(31)))
}

/// Reads heads of parameter sets of H.264: three bytes, nine Exp-Golomb numbers and three bits.
fn read_golomb<R: BitRead + Drop>(mut reader: R, count: u64) -> Result<u64, Error> {
    let mut sum = 0u64;
    for _item in 0..count {
        for _k in 0..3 {
            sum = mixed(sum, u64::from(reader.read::<Bits<8>, u8>()?));
        }
        for _k in 0..6 {
            sum = mixed(sum, u64::from(ue(&mut reader)?));
        }
        sum = mixed(sum, u64::from(reader.read_bit()?));
        sum = mixed(sum, u64::from(ue(&mut reader)?));
        sum = mixed(sum, u64::from(ue(&mut reader)?));
        sum = mixed(sum, u64::from(reader.read_bit()?));
        sum = mixed(sum, u64::from(reader.read_bit()?));
        sum = mixed(sum, i64::from(se(&mut reader)?).cast_unsigned());
    }
    Ok(sum)
}

/// Writes heads of parameter sets of H.264.
fn write_golomb<T: Memory, E: Endianness>(count: u64, seed: u64, out: T) -> Result<u64, Error> {
    let len = out.free();
    let mut writer = BitWriter::<T, E>::new(out);
    let mut state = seed;
    for _item in 0..count {
        state = stepped(state);
        writer.write::<Bits<8>, u8>((state >> 56) as u8)?;
        writer.write::<Bits<8>, u8>(((state >> 48) % 256) as u8)?;
        writer.write::<Bits<8>, u8>(((state >> 40) % 256) as u8)?;
        for k in 0..6u32 {
            w_ue(&mut writer, ((state >> (8 * k)) % 32) as u32)?;
        }
        writer.write_bit(state >> 63 == 1)?;
        w_ue(&mut writer, (state >> 57) as u32)?;
        w_ue(&mut writer, ((state >> 50) % 128) as u32)?;
        writer.write_bit((state >> 62) % 2 == 1)?;
        writer.write_bit((state >> 61) % 2 == 1)?;
        w_ue(&mut writer, ((state >> 44) % 64) as u32)?;
    }
    writer.byte_align()?;
    Ok(len.saturating_sub(writer.into_writer().free()) as u64)
}

/// Reads Rice codes of parameter 5.
fn read_rice<R: BitRead + Drop>(mut reader: R, count: u64) -> Result<u64, Error> {
    let mut sum = 0u64;
    for _item in 0..count {
        let high = reader.read_unary::<Bits<1>>()?;
        let low: u32 = reader.read_var(5 + (count >> 60) as u32)?;
        sum = mixed(sum, u64::from((high << (5 + (count >> 60) as u32)) | low));
    }
    Ok(sum)
}

/// Writes Rice codes of parameter 5.
fn write_rice<T: Memory, E: Endianness>(count: u64, seed: u64, out: T) -> Result<u64, Error> {
    let len = out.free();
    let mut writer = BitWriter::<T, E>::new(out);
    let mut state = seed;
    for _item in 0..count {
        state = stepped(state);
        let high = (state | (1 << 30)).leading_zeros();
        writer.write_unary::<Bits<1>>(high)?;
        writer.write_var::<u32>(5 + (count >> 60) as u32, ((state >> 20) % 32) as u32)?;
    }
    writer.byte_align()?;
    Ok(len.saturating_sub(writer.into_writer().free()) as u64)
}

/// Reads unary numbers below 60.
fn read_unary60<R: BitRead + Drop>(mut reader: R, count: u64) -> Result<u64, Error> {
    let mut sum = 0u64;
    for _item in 0..count {
        sum = mixed(sum, u64::from(reader.read_unary::<Bits<1>>()?));
    }
    Ok(sum)
}

/// Reads parameter sets, in the order named.
fn in_order_golomb<R: Source + Drop>(order: u32, source: R, count: u64) -> u64 {
    or_refused(if order == 0 {
        read_golomb(BitReader::<_, BE>::new(source), count)
    } else {
        read_golomb(BitReader::<_, LE>::new(source), count)
    })
}

/// Reads parameter sets from a slice's bytes.
#[unsafe(no_mangle)]
pub extern "C" fn bench_read_golomb(order: u32, data: &[u8], count: u64) -> u64 {
    in_order_golomb(order, data, count)
}

/// Reads parameter sets from a `Slice`.
#[unsafe(no_mangle)]
pub extern "C" fn bench_read_golomb_slice(order: u32, data: &[u8], count: u64) -> u64 {
    in_order_golomb(order, Slice::new(data), count)
}

/// Reads Rice codes, in the order named.
fn in_order_rice<R: Source + Drop>(order: u32, source: R, count: u64) -> u64 {
    or_refused(if order == 0 {
        read_rice(BitReader::<_, BE>::new(source), count)
    } else {
        read_rice(BitReader::<_, LE>::new(source), count)
    })
}

/// Reads Rice codes from a slice's bytes.
#[unsafe(no_mangle)]
pub extern "C" fn bench_read_rice(order: u32, data: &[u8], count: u64) -> u64 {
    in_order_rice(order, data, count)
}

/// Reads Rice codes from a `Slice`.
#[unsafe(no_mangle)]
pub extern "C" fn bench_read_rice_slice(order: u32, data: &[u8], count: u64) -> u64 {
    in_order_rice(order, Slice::new(data), count)
}

/// Reads unary numbers, in the order named.
fn in_order_unary60<R: Source + Drop>(order: u32, source: R, count: u64) -> u64 {
    or_refused(if order == 0 {
        read_unary60(BitReader::<_, BE>::new(source), count)
    } else {
        read_unary60(BitReader::<_, LE>::new(source), count)
    })
}

/// Reads unary numbers from a slice's bytes.
#[unsafe(no_mangle)]
pub extern "C" fn bench_read_unary60(order: u32, data: &[u8], count: u64) -> u64 {
    in_order_unary60(order, data, count)
}

/// Reads unary numbers from a `Slice`.
#[unsafe(no_mangle)]
pub extern "C" fn bench_read_unary60_slice(order: u32, data: &[u8], count: u64) -> u64 {
    in_order_unary60(order, Slice::new(data), count)
}

/// Writes parameter sets, in the order named.
fn in_order_write_golomb<T: Memory>(order: u32, count: u64, seed: u64, out: T) -> u64 {
    or_refused(if order == 0 {
        write_golomb::<_, BE>(count, seed, out)
    } else {
        write_golomb::<_, LE>(count, seed, out)
    })
}

/// Writes parameter sets to a slice.
#[unsafe(no_mangle)]
pub extern "C" fn bench_write_golomb(order: u32, count: u64, seed: u64, out: &mut [u8]) -> u64 {
    in_order_write_golomb(order, count, seed, out)
}

/// Writes parameter sets to a `SliceMut`.
#[unsafe(no_mangle)]
pub extern "C" fn bench_write_golomb_slice(
    order: u32,
    count: u64,
    seed: u64,
    out: &mut [u8],
) -> u64 {
    in_order_write_golomb(order, count, seed, SliceMut::new(out))
}

/// Writes Rice codes, in the order named.
fn in_order_write_rice<T: Memory>(order: u32, count: u64, seed: u64, out: T) -> u64 {
    or_refused(if order == 0 {
        write_rice::<_, BE>(count, seed, out)
    } else {
        write_rice::<_, LE>(count, seed, out)
    })
}

/// Writes Rice codes to a slice.
#[unsafe(no_mangle)]
pub extern "C" fn bench_write_rice(order: u32, count: u64, seed: u64, out: &mut [u8]) -> u64 {
    in_order_write_rice(order, count, seed, out)
}

/// Writes Rice codes to a `SliceMut`.
#[unsafe(no_mangle)]
pub extern "C" fn bench_write_rice_slice(order: u32, count: u64, seed: u64, out: &mut [u8]) -> u64 {
    in_order_write_rice(order, count, seed, SliceMut::new(out))
}

/// Reads parameter sets from a slice's bytes, by `over`.
#[unsafe(no_mangle)]
pub extern "C" fn bench_read_golomb_over(order: u32, data: &[u8], count: u64) -> u64 {
    or_refused(if order == 0 {
        read_golomb(BitReader::<_, BE>::over(data), count)
    } else {
        read_golomb(BitReader::<_, LE>::over(data), count)
    })
}

/// Reads Rice codes from a slice's bytes, by `over`.
#[unsafe(no_mangle)]
pub extern "C" fn bench_read_rice_over(order: u32, data: &[u8], count: u64) -> u64 {
    or_refused(if order == 0 {
        read_rice(BitReader::<_, BE>::over(data), count)
    } else {
        read_rice(BitReader::<_, LE>::over(data), count)
    })
}

/// Reads unary numbers from a slice's bytes, by `over`.
#[unsafe(no_mangle)]
pub extern "C" fn bench_read_unary60_over(order: u32, data: &[u8], count: u64) -> u64 {
    or_refused(if order == 0 {
        read_unary60(BitReader::<_, BE>::over(data), count)
    } else {
        read_unary60(BitReader::<_, LE>::over(data), count)
    })
}
