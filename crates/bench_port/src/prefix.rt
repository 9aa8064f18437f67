//! Reads and writes a prefix code of five symbols. Functions that need memory ask the host for it.

use crate::memory::Memory;
use crate::mix::{bytes_of, mixed, stepped};
use bitstream_io::huffman::HuffmanTree;
use bitstream_io::{
    BE, BitRead, BitReadExt, BitReader, BitWrite, BitWriteExt, BitWriter, Endianness, LE, Slice,
    Source,
};
use std::alloc::{AllocError, Global};

/// Reads symbols.
fn read_symbols<R: Source + Drop, E: Endianness>(
    tree: &HuffmanTree<u8, Global>,
    source: R,
    count: u64,
) -> u64 {
    let mut reader = BitReader::<R, E>::new(source);
    let mut sum = 0u64;
    for _item in 0..count {
        match reader.read_huffman(tree) {
            Ok(symbol) => {
                sum = mixed(sum, u64::from(symbol));
            }
            Err(_) => {
                return u64::MAX;
            }
        }
    }
    sum
}

/// Returns the tree of five symbols.
pub(crate) fn tree(alloc: Global) -> Result<HuffmanTree<u8, Global>, AllocError> {
    let low = HuffmanTree::node(HuffmanTree::leaf(alloc, 4)?, HuffmanTree::leaf(alloc, 3)?)?;
    let left = HuffmanTree::node(low, HuffmanTree::leaf(alloc, 2)?)?;
    let right = HuffmanTree::node(HuffmanTree::leaf(alloc, 1)?, HuffmanTree::leaf(alloc, 0)?)?;
    HuffmanTree::node(left, right)
}

/// Reads symbols from a slice's bytes.
#[unsafe(no_mangle)]
pub extern "C" fn bench_read_prefix(order: u32, data: &[u8], count: u64, alloc: Global) -> u64 {
    match tree(alloc) {
        Ok(tree) => {
            if order == 0 {
                read_symbols::<_, BE>(&tree, data, count)
            } else {
                read_symbols::<_, LE>(&tree, data, count)
            }
        }
        Err(_) => u64::MAX,
    }
}

/// Reads symbols from a `Slice`.
#[unsafe(no_mangle)]
pub extern "C" fn bench_read_prefix_slice(
    order: u32,
    data: &[u8],
    count: u64,
    alloc: Global,
) -> u64 {
    match tree(alloc) {
        Ok(tree) => {
            if order == 0 {
                read_symbols::<_, BE>(&tree, Slice::new(data), count)
            } else {
                read_symbols::<_, LE>(&tree, Slice::new(data), count)
            }
        }
        Err(_) => u64::MAX,
    }
}

/// Writes symbols. Returns the number of bytes written.
pub(crate) fn write_symbols<T: Memory, E: Endianness>(
    tree: &HuffmanTree<u8, Global>,
    count: u64,
    seed: u64,
    out: T,
) -> u64 {
    let mut writer = BitWriter::<T, E>::new(out);
    let mut state = seed;
    let mut bits = 0u64;
    for _item in 0..count {
        state = stepped(state);
        let symbol = ((state >> 32) % 5) as u8;
        if writer.write_huffman(tree, symbol).is_err() {
            return u64::MAX;
        }
        bits = bits.saturating_add(if symbol < 3 { 2 } else { 3 });
    }
    if writer.byte_align().is_err() {
        return u64::MAX;
    }
    bytes_of(bits)
}

/// Writes symbols.
#[unsafe(no_mangle)]
pub extern "C" fn bench_write_prefix(
    order: u32,
    count: u64,
    seed: u64,
    out: &mut [u8],
    alloc: Global,
) -> u64 {
    match tree(alloc) {
        Ok(tree) => {
            if order == 0 {
                write_symbols::<_, BE>(&tree, count, seed, out)
            } else {
                write_symbols::<_, LE>(&tree, count, seed, out)
            }
        }
        Err(_) => u64::MAX,
    }
}
