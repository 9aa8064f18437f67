//! Calls for symbols of prefix codes, by the codes that the rows name.
use crate::answer::{Answer, is_number, is_optional};
use crate::call::number;
use crate::form::{Coder, Tree};
use crate::objection::Objection;
use bitstream_io::huffman::{HuffmanTree, LimitedUnary};
use bitstream_io::{BitRead, BitReadExt, BitWrite, BitWriteExt};
use std::alloc::{AllocError, Global};

/// A code whose code words are the paths of a tree.
type Code = HuffmanTree<u32, Global>;

/// Returns a tree of one symbol.
fn leaf(alloc: Global, symbol: u32) -> Result<Code, AllocError> {
    HuffmanTree::leaf(alloc, symbol)
}

/// Joins two trees, if the allocation of both succeeded.
fn node(zero: Result<Code, AllocError>, one: Result<Code, AllocError>) -> Result<Code, AllocError> {
    HuffmanTree::node(zero?, one?)
}

/// Returns the code of a tree.
fn code(alloc: Global, tree: Tree) -> Result<Code, AllocError> {
    match tree {
        Tree::OneSided => {
            let last = node(leaf(alloc, 2), leaf(alloc, 5));
            node(leaf(alloc, 0), node(leaf(alloc, 1), last))
        }
        Tree::TwoSided => {
            let first = node(node(leaf(alloc, 4), leaf(alloc, 3)), leaf(alloc, 2));
            node(first, node(leaf(alloc, 1), leaf(alloc, 0)))
        }
        Tree::TwoSevens => node(leaf(alloc, 7), node(leaf(alloc, 7), leaf(alloc, 8))),
        Tree::Leaf => leaf(alloc, 9),
    }
}

/// Reads a symbol of a tree, and returns true if the result is the expected one.
pub fn read_symbol<R: BitRead>(
    alloc: Global,
    reader: &mut R,
    tree: Tree,
    want: &str,
) -> Result<bool, Objection> {
    Ok(is_number(want, reader.read_huffman(&code(alloc, tree)?)))
}

/// Writes a symbol, given as text, in the code of a tree.
pub fn write_symbol<W: BitWrite>(
    alloc: Global,
    writer: &mut W,
    tree: Tree,
    by: Coder,
    value: &str,
) -> Answer {
    let code = code(alloc, tree)?;
    let symbol = number(value)?;
    Ok(match by {
        Coder::Tree => writer.write_huffman(&code, symbol),
        Coder::Words => writer.write_huffman(&code.words(alloc)?, symbol),
    })
}

/// Reads a unary number limited to `most` bits, and returns true if the result is the expected one.
pub fn read_limited<R: BitRead>(
    reader: &mut R,
    stop: bool,
    most: u32,
    want: &str,
) -> Result<bool, Objection> {
    let answer = match (stop, most) {
        (false, 0) => reader.read_huffman(&LimitedUnary::<0, 0> {}),
        (false, 3) => reader.read_huffman(&LimitedUnary::<0, 3> {}),
        (false, 10) => reader.read_huffman(&LimitedUnary::<0, 10> {}),
        (true, 3) => reader.read_huffman(&LimitedUnary::<1, 3> {}),
        (true, 10) => reader.read_huffman(&LimitedUnary::<1, 10> {}),
        _ => return Err(Objection::UNLISTED),
    };
    Ok(is_optional(want, answer))
}

/// Writes a unary number limited to `most` bits, given as text: a number or `none`.
pub fn write_limited<W: BitWrite>(writer: &mut W, stop: bool, most: u32, value: &str) -> Answer {
    let run: Option<u32> = match value {
        "none" => None,
        _ => Some(number(value)?),
    };
    match (stop, most) {
        (false, 0) => Ok(writer.write_huffman(&LimitedUnary::<0, 0> {}, run)),
        (false, 3) => Ok(writer.write_huffman(&LimitedUnary::<0, 3> {}, run)),
        (false, 10) => Ok(writer.write_huffman(&LimitedUnary::<0, 10> {}, run)),
        (true, 3) => Ok(writer.write_huffman(&LimitedUnary::<1, 3> {}, run)),
        (true, 10) => Ok(writer.write_huffman(&LimitedUnary::<1, 10> {}, run)),
        _ => Err(Objection::UNLISTED),
    }
}
