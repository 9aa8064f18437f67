//! Prefix codes: long chains, precomputed code words, and failed allocations. `bitstream_vectors` plays
//! the test vectors.
use crate::asserts::{are, ended, failed, gives, holds, same};
use bitstream_io::huffman::{HuffmanTree, ToBits};
use bitstream_io::{
    BE, BitRead, BitReadExt, BitReader, BitWrite, BitWriteExt, BitWriter, LE, ReadSymbols, Slice,
    SliceReader, SymbolTable,
};
use std::alloc::{AllocError, Global};
use test_streams::RefuseMemory;

type Tree = HuffmanTree<u16, Global>;

/// Returns the tree of `branches` + 1 symbols, from 0 on, in which each code word is one bit longer
/// than the one before.
fn chain(alloc: Global, branches: u16) -> Result<Tree, AllocError> {
    let mut tree = HuffmanTree::leaf(alloc, branches)?;
    for below in 0..branches {
        tree = HuffmanTree::node(HuffmanTree::leaf(alloc, branches - 1 - below)?, tree)?;
    }
    Ok(tree)
}

/// Returns true if these symbols are read, one after another.
fn reads<R: BitRead>(reader: &mut R, tree: &Tree, symbols: &[u16]) -> bool {
    let mut same = true;
    for symbol in symbols {
        same &= gives(reader.read_huffman(tree), *symbol);
    }
    same
}

/// Writes the symbols' code words, and zeros up to the end of the last byte.
fn writes<W: BitWrite>(writer: &mut W, tree: &Tree, symbols: &[u16]) -> bool {
    let mut written = true;
    for symbol in symbols {
        written &= writer.write_huffman(tree, *symbol).is_ok();
    }
    written & writer.byte_align().is_ok()
}

/// Writes the symbols one after the other and reads them back. Returns the number of bytes that they
/// take, or `None` if other symbols are read.
fn come_back(alloc: Global, tree: &Tree, symbols: &[u16]) -> Option<usize> {
    let mut writer = BitWriter::<_, BE>::new(Vec::new(alloc));
    let written = writes(&mut writer, tree, symbols);
    let bytes = writer.into_writer();
    let read = reads(
        &mut BitReader::<_, BE>::new(Slice::new(&bytes)),
        tree,
        symbols,
    );
    if written & read {
        Some(bytes.len())
    } else {
        None
    }
}

#[test]
fn r12_flat_trees(rt: HostRuntime) {
    let tree = chain(rt.alloc(), 199).expect(&rt, "memory is left");
    for symbol in 0..200 {
        let bytes = come_back(rt.alloc(), &tree, &[symbol]);
        same(&rt, bytes, Some((usize::from(symbol.min(198)) + 8) / 8));
    }
}

#[test]
fn r12_long_chain(rt: HostRuntime) {
    let tree = chain(rt.alloc(), 16000).expect(&rt, "memory is left");
    // The code words have 1, 16000, 8001, 2 and 16000 bits.
    let bytes = come_back(rt.alloc(), &tree, &[0, 16000, 8000, 1, 15999]);
    same(&rt, bytes, Some(5001));
}

/// Returns the tree of 20 symbols, if memory serves `served` allocations for each node.
fn grown(alloc: Global, served: u32) -> Result<HuffmanTree<u16, RefuseMemory<Global>>, AllocError> {
    let mut tree = HuffmanTree::leaf(RefuseMemory::new(alloc, served), 0)?;
    for symbol in 1..20 {
        let leaf = HuffmanTree::leaf(RefuseMemory::new(alloc, served), symbol)?;
        tree = HuffmanTree::node(tree, leaf)?;
    }
    Ok(tree)
}

#[test]
fn each_growth_of_a_tree_may_lack_memory(rt: HostRuntime) {
    for served in 0..6 {
        let made = grown(rt.alloc(), served).is_ok();
        same(&rt, (served, made), (served, served == 5));
    }
}

/// Returns the bytes of one symbol in a code.
fn bytes_of<T: ToBits<Symbol = u16>>(alloc: Global, code: &T, symbol: u16) -> Vec<u8> {
    let mut writer = BitWriter::<_, BE>::new(Vec::new(alloc));
    let _ = writer.write_huffman(code, symbol);
    let _ = writer.byte_align();
    writer.into_writer()
}

#[test]
fn words_made_once_are_those_of_the_tree(rt: HostRuntime) {
    let alloc = rt.alloc();
    let tree = chain(alloc, 80).expect(&rt, "memory is left");
    let words = tree.words(alloc).expect(&rt, "memory is left");
    for symbol in 0..82 {
        let bytes = bytes_of(alloc, &words, symbol);
        let ones = usize::from(symbol.min(80));
        same(
            &rt,
            bytes.len(),
            if symbol > 80 { 0 } else { ones.min(79) / 8 + 1 },
        );
        are(
            &rt,
            bytes.as_slice(),
            bytes_of(alloc, &tree, symbol).as_slice(),
        );
    }
}

#[test]
fn keeps_half_a_word(rt: HostRuntime) {
    let alloc = rt.alloc();
    let tree = chain(alloc, 20).expect(&rt, "memory is left");
    let words = tree.words(alloc).expect(&rt, "memory is left");
    let mut buffer = [0u8; 1];
    let mut writer = BitWriter::<_, LE>::over(&mut buffer);
    // Of 17 bits, 8 have room.
    holds(&rt, writer.write_huffman(&words, 16).is_err());
    holds(&rt, failed(writer.write_bit(true)));
    are(&rt, writer.written(), [0xff].as_slice());
}

/// Bytes of the code words of 0, 1, 2, 3, 20, 0 and 5 in a chain, big-endian, and then ten bits 0.
const CHAINED: [u8; 6] = [0x5b, 0xbf, 0xff, 0xfc, 0xf8, 0x00];

#[test]
fn a_table_reads_what_the_words_spell(rt: HostRuntime) {
    let tree = chain(rt.alloc(), 60).expect(&rt, "memory is left");
    let table = SymbolTable::of(rt.alloc(), &tree).expect(&rt, "memory is left");
    let mut symbols = [9; 7];
    let mut reader = SliceReader::<BE>::over(&CHAINED);
    holds(&rt, reader.read_symbols(&table, &mut symbols).is_ok());
    same(&rt, symbols, [0, 1, 2, 3, 20, 0, 5]);
    same(&rt, reader.bits_read(), 38);
    let mut fetched = BitReader::<_, BE>::new(CHAINED.as_slice());
    holds(&rt, fetched.read_symbols(&table, &mut symbols).is_ok());
    same(&rt, symbols, [0, 1, 2, 3, 20, 0, 5]);
}

#[test]
fn a_table_ends_where_the_tree_does(rt: HostRuntime) {
    let tree = chain(rt.alloc(), 60).expect(&rt, "memory is left");
    let table = SymbolTable::of(rt.alloc(), &tree).expect(&rt, "memory is left");
    let mut symbols = [9; 12];
    // Ten bits 0 are ten symbols, and after them six bits 1 are no whole word.
    let mut reader = SliceReader::<LE>::over(&[0x00, 0xfc]);
    holds(&rt, ended(reader.read_symbols(&table, &mut symbols)));
    same(&rt, reader.bits_read(), 16);
    holds(&rt, failed(reader.read_symbols(&table, &mut symbols)));
    holds(&rt, failed(reader.read_bit()));
}

#[test]
fn each_growth_of_a_table_may_lack_memory(rt: HostRuntime) {
    let tree = grown(rt.alloc(), 64).expect(&rt, "memory is left");
    holds(
        &rt,
        SymbolTable::of(RefuseMemory::new(rt.alloc(), 0), &tree).is_err(),
    );
    holds(
        &rt,
        SymbolTable::of(RefuseMemory::new(rt.alloc(), 2), &tree).is_err(),
    );
    holds(
        &rt,
        SymbolTable::of(RefuseMemory::new(rt.alloc(), 64), &tree).is_ok(),
    );
}
