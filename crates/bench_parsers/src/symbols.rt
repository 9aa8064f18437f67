//! Symbols of a prefix code of 24 code words, by its tree.

use crate::memory::{Memory, mixed, or_refused, stepped};
use bitstream_io::huffman::HuffmanTree;
use bitstream_io::{
    BE, BitReadExt, BitReader, BitWrite, BitWriteExt, BitWriter, Endianness, Error, LE, Slice,
    SliceMut, Source,
};
use std::alloc::{AllocError, Global};

/// Returns the tree: code words of 3 to 8 bits.
fn tree(alloc: Global) -> Result<HuffmanTree<u8, Global>, AllocError> {
    let n1 = HuffmanTree::node(HuffmanTree::leaf(alloc, 21)?, HuffmanTree::leaf(alloc, 20)?)?;
    let n2 = HuffmanTree::node(n1, HuffmanTree::leaf(alloc, 16)?)?;
    let n3 = HuffmanTree::node(n2, HuffmanTree::leaf(alloc, 11)?)?;
    let n4 = HuffmanTree::node(n3, HuffmanTree::leaf(alloc, 7)?)?;
    let n5 = HuffmanTree::node(HuffmanTree::leaf(alloc, 3)?, n4)?;
    let n6 = HuffmanTree::node(HuffmanTree::leaf(alloc, 23)?, HuffmanTree::leaf(alloc, 22)?)?;
    let n7 = HuffmanTree::node(HuffmanTree::leaf(alloc, 19)?, n6)?;
    let n8 = HuffmanTree::node(HuffmanTree::leaf(alloc, 15)?, n7)?;
    let n9 = HuffmanTree::node(n8, HuffmanTree::leaf(alloc, 10)?)?;
    let n10 = HuffmanTree::node(HuffmanTree::leaf(alloc, 6)?, n9)?;
    let n11 = HuffmanTree::node(HuffmanTree::leaf(alloc, 2)?, n10)?;
    let n12 = HuffmanTree::node(n5, n11)?;
    let n13 = HuffmanTree::node(HuffmanTree::leaf(alloc, 18)?, HuffmanTree::leaf(alloc, 17)?)?;
    let n14 = HuffmanTree::node(HuffmanTree::leaf(alloc, 14)?, n13)?;
    let n15 = HuffmanTree::node(n14, HuffmanTree::leaf(alloc, 9)?)?;
    let n16 = HuffmanTree::node(HuffmanTree::leaf(alloc, 5)?, n15)?;
    let n17 = HuffmanTree::node(HuffmanTree::leaf(alloc, 1)?, n16)?;
    let n18 = HuffmanTree::node(HuffmanTree::leaf(alloc, 13)?, HuffmanTree::leaf(alloc, 12)?)?;
    let n19 = HuffmanTree::node(n18, HuffmanTree::leaf(alloc, 8)?)?;
    let n20 = HuffmanTree::node(HuffmanTree::leaf(alloc, 4)?, n19)?;
    let n21 = HuffmanTree::node(HuffmanTree::leaf(alloc, 0)?, n20)?;
    let n22 = HuffmanTree::node(n17, n21)?;
    let n23 = HuffmanTree::node(n12, n22)?;
    Ok(n23)
}

/// Reads symbols.
fn read_symbols<R: Source + Drop, E: Endianness>(
    tree: &HuffmanTree<u8, Global>,
    source: R,
    count: u64,
) -> Result<u64, Error> {
    let mut reader = BitReader::<R, E>::new(source);
    let mut sum = 0u64;
    for _item in 0..count {
        sum = mixed(sum, u64::from(reader.read_huffman(tree)?));
    }
    Ok(sum)
}

/// Writes symbols.
fn write_symbols<T: Memory, E: Endianness>(
    tree: &HuffmanTree<u8, Global>,
    count: u64,
    seed: u64,
    out: T,
) -> Result<u64, Error> {
    let len = out.free();
    let mut writer = BitWriter::<T, E>::new(out);
    let mut state = seed;
    for _item in 0..count {
        state = stepped(state);
        let symbol = (((state >> 40) % 24) * ((state >> 32) % 24) / 24) as u8;
        writer.write_huffman(tree, symbol)?;
    }
    writer.byte_align()?;
    Ok(len.saturating_sub(writer.into_writer().free()) as u64)
}

/// Reads symbols, in the order named.
fn in_order_symbols<R: Source + Drop>(order: u32, source: R, count: u64, alloc: Global) -> u64 {
    match tree(alloc) {
        Ok(tree) => or_refused(if order == 0 {
            read_symbols::<_, BE>(&tree, source, count)
        } else {
            read_symbols::<_, LE>(&tree, source, count)
        }),
        Err(_) => u64::MAX,
    }
}

/// Writes symbols, in the order named.
fn in_order_write_symbols<T: Memory>(
    order: u32,
    count: u64,
    seed: u64,
    out: T,
    alloc: Global,
) -> u64 {
    match tree(alloc) {
        Ok(tree) => or_refused(if order == 0 {
            write_symbols::<_, BE>(&tree, count, seed, out)
        } else {
            write_symbols::<_, LE>(&tree, count, seed, out)
        }),
        Err(_) => u64::MAX,
    }
}

/// Reads symbols from a slice's bytes.
#[unsafe(no_mangle)]
pub extern "C" fn bench_read_symbols(order: u32, data: &[u8], count: u64, alloc: Global) -> u64 {
    in_order_symbols(order, data, count, alloc)
}

/// Reads symbols from a `Slice`.
#[unsafe(no_mangle)]
pub extern "C" fn bench_read_symbols_slice(
    order: u32,
    data: &[u8],
    count: u64,
    alloc: Global,
) -> u64 {
    in_order_symbols(order, Slice::new(data), count, alloc)
}

/// Writes symbols to a slice.
#[unsafe(no_mangle)]
pub extern "C" fn bench_write_symbols(
    order: u32,
    count: u64,
    seed: u64,
    out: &mut [u8],
    alloc: Global,
) -> u64 {
    in_order_write_symbols(order, count, seed, out, alloc)
}

/// Writes symbols to a `SliceMut`.
#[unsafe(no_mangle)]
pub extern "C" fn bench_write_symbols_slice(
    order: u32,
    count: u64,
    seed: u64,
    out: &mut [u8],
    alloc: Global,
) -> u64 {
    in_order_write_symbols(order, count, seed, SliceMut::new(out), alloc)
}
