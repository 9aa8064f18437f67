//! Writes symbols of prefix codes by the code words of their trees: by a list that is searched, and by an array.
//! Functions that need memory ask the host for it.

use crate::memory::Memory;
use crate::tables::{last_symbol, tree};
use bitstream_io::huffman::ToBits;
use bitstream_io::{
    BE, BitWrite, BitWriteExt, BitWriter, Endianness, Error, IndexedWords, LE, SliceMut,
};
use std::alloc::Global;

/// Writes symbols, each of which is a byte. Returns the number of bytes written.
fn write_symbols<T: Memory, E: Endianness, C: ToBits<Symbol = u16>>(
    words: &C,
    symbols: &[u8],
    out: T,
) -> Result<u64, Error> {
    let len = out.free();
    let mut writer = BitWriter::<T, E>::new(out);
    for symbol in symbols {
        writer.write_huffman(words, u16::from(*symbol))?;
    }
    writer.byte_align()?;
    Ok(len.saturating_sub(writer.into_writer().free()) as u64)
}

/// Writes the first symbols of a list, up to `count`, in the order named.
fn write_some<T: Memory, C: ToBits<Symbol = u16>>(
    order: u32,
    words: &C,
    symbols: &[u8],
    count: u64,
    out: T,
) -> u64 {
    let len = count.min(symbols.len() as u64) as usize;
    let written = if order == 0 {
        write_symbols::<T, BE, C>(words, &symbols[..len], out)
    } else {
        write_symbols::<T, LE, C>(words, &symbols[..len], out)
    };
    match written {
        Ok(bytes) => bytes,
        Err(_) => u64::MAX,
    }
}

/// Writes symbols by a list of code words.
fn write_code<T: Memory>(
    order: u32,
    code: u32,
    symbols: &[u8],
    count: u64,
    out: T,
    alloc: Global,
) -> u64 {
    let Ok(tree) = tree(alloc, code) else {
        return u64::MAX;
    };
    let Ok(words) = tree.words(alloc) else {
        return u64::MAX;
    };
    write_some(order, &words, symbols, count, out)
}

/// Writes symbols by an array of code words.
fn write_indexed<T: Memory>(
    order: u32,
    code: u32,
    symbols: &[u8],
    count: u64,
    out: T,
    alloc: Global,
) -> u64 {
    let Ok(tree) = tree(alloc, code) else {
        return u64::MAX;
    };
    let Ok(words) = IndexedWords::of(alloc, &tree, last_symbol(code)) else {
        return u64::MAX;
    };
    write_some(order, &words, symbols, count, out)
}

/// Writes symbols of a code.
#[unsafe(no_mangle)]
pub extern "C" fn bench_write_code(
    order: u32,
    code: u32,
    data: &[u8],
    count: u64,
    out: &mut [u8],
    alloc: Global,
) -> u64 {
    write_code(order, code, data, count, out, alloc)
}

/// Writes symbols of a code to a `SliceMut`.
#[unsafe(no_mangle)]
pub extern "C" fn bench_write_code_slice(
    order: u32,
    code: u32,
    data: &[u8],
    count: u64,
    out: &mut [u8],
    alloc: Global,
) -> u64 {
    write_code(order, code, data, count, SliceMut::new(out), alloc)
}

/// Writes symbols of a code by an array.
#[unsafe(no_mangle)]
pub extern "C" fn bench_write_indexed(
    order: u32,
    code: u32,
    data: &[u8],
    count: u64,
    out: &mut [u8],
    alloc: Global,
) -> u64 {
    write_indexed(order, code, data, count, out, alloc)
}

/// Writes symbols of a code by an array, to a `SliceMut`.
#[unsafe(no_mangle)]
pub extern "C" fn bench_write_indexed_slice(
    order: u32,
    code: u32,
    data: &[u8],
    count: u64,
    out: &mut [u8],
    alloc: Global,
) -> u64 {
    write_indexed(order, code, data, count, SliceMut::new(out), alloc)
}
