//! Lists of calls, 20 to an item, with the widths of the packed records.

use crate::memory::{Memory, mixed, or_refused};
use bitstream_io::script::{Answer, ReadCall, WriteCall, read_calls, write_calls};
use bitstream_io::{
    BE, BitReader, BitWrite, BitWriter, Endianness, Error, LE, Slice, SliceMut, Source,
};
use std::alloc::Global;

/// Reads by lists of calls.
fn read_script<R: Source + Drop, E: Endianness>(
    source: R,
    count: u64,
    alloc: Global,
) -> Result<u64, Error> {
    let calls = [
        ReadCall::U8(3),
        ReadCall::U8(5),
        ReadCall::Bit,
        ReadCall::U16(11),
        ReadCall::U8(7),
        ReadCall::Bit,
        ReadCall::Bit,
        ReadCall::U8(2),
        ReadCall::U16(9),
        ReadCall::U32(17),
        ReadCall::U64(33),
        ReadCall::U8(6),
        ReadCall::Bit,
        ReadCall::Bit,
        ReadCall::U8(4),
        ReadCall::U16(10),
        ReadCall::U32(23),
        ReadCall::U8(5),
        ReadCall::Bit,
        ReadCall::U8(3),
    ];
    let mut answers: Vec<Option<Result<Answer, Error>>> = Vec::new(alloc);
    for _call in 0..calls.len() {
        answers.push(None)?;
    }
    let mut reader = BitReader::<R, E>::new(source);
    let mut sum = 0u64;
    for _item in 0..count {
        if answers.len() == calls.len() {
            read_calls(alloc, &mut reader, &calls, answers.as_mut_slice());
        }
        match answers.last() {
            Some(Some(Ok(Answer::U8(last)))) => {
                sum = mixed(sum, u64::from(*last));
            }
            _ => {
                return Err(Error::Failed);
            }
        }
    }
    Ok(sum)
}

/// Writes by lists of calls.
fn write_script<T: Memory, E: Endianness>(count: u64, out: T, alloc: Global) -> Result<u64, Error> {
    let calls = [
        WriteCall::U8(3, 6),
        WriteCall::U8(5, 30),
        WriteCall::Bit(true),
        WriteCall::U16(11, 2046),
        WriteCall::U8(7, 126),
        WriteCall::Bit(true),
        WriteCall::Bit(true),
        WriteCall::U8(2, 2),
        WriteCall::U16(9, 510),
        WriteCall::U32(17, 131070),
        WriteCall::U64(33, 8589934590),
        WriteCall::U8(6, 62),
        WriteCall::Bit(true),
        WriteCall::Bit(true),
        WriteCall::U8(4, 14),
        WriteCall::U16(10, 1022),
        WriteCall::U32(23, 8388606),
        WriteCall::U8(5, 30),
        WriteCall::Bit(true),
        WriteCall::U8(3, 6),
    ];
    let mut answers: Vec<Option<Error>> = Vec::new(alloc);
    for _call in 0..calls.len() {
        answers.push(None)?;
    }
    let len = out.free();
    let mut writer = BitWriter::<T, E>::new(out);
    for _item in 0..count {
        if answers.len() == calls.len() {
            write_calls(&mut writer, &calls, answers.as_mut_slice());
        }
        if !matches!(answers.last(), Some(None)) {
            return Err(Error::Failed);
        }
    }
    writer.byte_align()?;
    Ok(len.saturating_sub(writer.into_writer().free()) as u64)
}

/// Reads lists of calls, in the order named.
fn in_order_script<R: Source + Drop>(order: u32, source: R, count: u64, alloc: Global) -> u64 {
    or_refused(if order == 0 {
        read_script::<_, BE>(source, count, alloc)
    } else {
        read_script::<_, LE>(source, count, alloc)
    })
}

/// Reads lists of calls from a slice's bytes.
#[unsafe(no_mangle)]
pub extern "C" fn bench_read_script(order: u32, data: &[u8], count: u64, alloc: Global) -> u64 {
    in_order_script(order, data, count, alloc)
}

/// Reads lists of calls from a `Slice`.
#[unsafe(no_mangle)]
pub extern "C" fn bench_read_script_slice(
    order: u32,
    data: &[u8],
    count: u64,
    alloc: Global,
) -> u64 {
    in_order_script(order, Slice::new(data), count, alloc)
}

/// Writes lists of calls, in the order named.
fn in_order_write_script<T: Memory>(order: u32, count: u64, out: T, alloc: Global) -> u64 {
    or_refused(if order == 0 {
        write_script::<_, BE>(count, out, alloc)
    } else {
        write_script::<_, LE>(count, out, alloc)
    })
}

/// Writes lists of calls to a slice.
#[unsafe(no_mangle)]
pub extern "C" fn bench_write_script(
    order: u32,
    count: u64,
    _seed: u64,
    out: &mut [u8],
    alloc: Global,
) -> u64 {
    in_order_write_script(order, count, out, alloc)
}

/// Writes lists of calls to a `SliceMut`.
#[unsafe(no_mangle)]
pub extern "C" fn bench_write_script_slice(
    order: u32,
    count: u64,
    _seed: u64,
    out: &mut [u8],
    alloc: Global,
) -> u64 {
    in_order_write_script(order, count, SliceMut::new(out), alloc)
}
