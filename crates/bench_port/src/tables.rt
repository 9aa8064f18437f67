//! Reads symbols of six prefix codes by the tables of their trees. Functions that need memory ask the host for it.

use crate::mix::mixed;
use bitstream_io::huffman::HuffmanTree;
use bitstream_io::{BE, Endianness, LE, ReadSymbols, SliceReader, SymbolTable};
use std::alloc::{AllocError, Global};

/// A part of a tree, and the number of bits before it.
#[derive(Drop)]
struct Part {
    tree: HuffmanTree<u16, Global>,
    depth: u8,
}

/// Returns the lengths of the code words of a code, each with the number of its words: of 8, 24 and 288 symbols, first
/// the flat codes, then codes of symbols that are as frequent as 1, 1/4, 1/9 and so on.
fn lengths_of(code: u32) -> &'static [(u8, u16)] {
    match code {
        0 => &[(3, 8)],
        1 => &[(1, 1), (2, 1), (3, 1), (5, 3), (6, 2)],
        2 => &[(4, 8), (5, 16)],
        3 => &[
            (1, 1),
            (2, 1),
            (4, 2),
            (5, 1),
            (6, 2),
            (7, 4),
            (8, 4),
            (9, 7),
            (10, 2),
        ],
        4 => &[(7, 24), (8, 152), (9, 112)],
        _ => &[
            (1, 1),
            (2, 1),
            (4, 1),
            (5, 2),
            (6, 2),
            (7, 4),
            (8, 5),
            (9, 7),
            (10, 9),
            (11, 14),
            (12, 20),
            (13, 28),
            (14, 38),
            (15, 55),
            (16, 79),
            (17, 22),
        ],
    }
}

/// Returns the last symbol of a code: its symbols are numbered from 0.
pub(crate) fn last_symbol(code: u32) -> u16 {
    let mut symbols = 0u16;
    for (_, count) in lengths_of(code) {
        symbols = symbols.wrapping_add(*count);
    }
    symbols.saturating_sub(1)
}

/// Adds a leaf behind the parts of a tree, and joins the parts that are as deep as it.
fn add(alloc: Global, parts: &mut Vec<Part>, symbol: u16, depth: u8) -> Result<(), AllocError> {
    let mut part = Part {
        tree: HuffmanTree::leaf(alloc, symbol)?,
        depth,
    };
    for _joined in 0..depth {
        match parts.pop() {
            Some(before) if before.depth == part.depth => {
                part = Part {
                    tree: HuffmanTree::node(before.tree, part.tree)?,
                    depth: part.depth.saturating_sub(1),
                };
            }
            Some(before) => {
                parts.push(before)?;
                break;
            }
            None => break,
        }
    }
    parts.push(part)?;
    Ok(())
}

/// Returns the tree of a code.
pub(crate) fn tree(alloc: Global, code: u32) -> Result<HuffmanTree<u16, Global>, AllocError> {
    let mut parts: Vec<Part> = Vec::new(alloc);
    let mut symbol = 0u16;
    for (depth, count) in lengths_of(code) {
        for _leaf in 0..*count {
            add(alloc, &mut parts, symbol, *depth)?;
            symbol = symbol.wrapping_add(1);
        }
    }
    match parts.pop() {
        Some(part) => Ok(part.tree),
        None => HuffmanTree::leaf(alloc, 0),
    }
}

/// Reads symbols, up to 256 at once.
fn read_symbols<E: Endianness>(
    table: &SymbolTable<'_, u16, Global>,
    data: &[u8],
    count: u64,
) -> u64 {
    let mut reader = SliceReader::<E>::over(data);
    let mut symbols = [0u16; 256];
    let mut sum = 0u64;
    let mut left = count;
    for _part in 0..count {
        if left == 0 {
            break;
        }
        let len = left.min(256) as usize;
        let part = &mut symbols[..len];
        if reader.read_symbols(table, part).is_err() {
            return u64::MAX;
        }
        for symbol in part.iter() {
            sum = mixed(sum, u64::from(*symbol));
        }
        left -= len as u64;
    }
    sum
}

/// Reads symbols of a code from a slice's bytes.
#[unsafe(no_mangle)]
pub extern "C" fn bench_read_code(
    order: u32,
    code: u32,
    data: &[u8],
    count: u64,
    alloc: Global,
) -> u64 {
    let Ok(tree) = tree(alloc, code) else {
        return u64::MAX;
    };
    let Ok(table) = SymbolTable::of(alloc, &tree) else {
        return u64::MAX;
    };
    if order == 0 {
        read_symbols::<BE>(&table, data, count)
    } else {
        read_symbols::<LE>(&table, data, count)
    }
}
