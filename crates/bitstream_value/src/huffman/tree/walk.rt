//! The walks down a tree: reading to a leaf, and writing to a symbol's first leaf.
ghost use Rattle.std.specs.Prelude.{◌≡◌, ◌+◌, ◌<◌, ◌≤◌, ◌↔◌, length, nat_le, if◌then◌else◌, IsTrue};
ghost use Rattle.bitstream_value.specs.HuffmanTree.{nodes_of, tree_of};
ghost use Rattle.bitstream_value.specs.Nodes.{FindsFirst, HasSymbol};
ghost use Rattle.bitstream_value.specs.Tree.{path_decoder, symbol_word};

use crate::huffman::tree::{HuffmanTree, Node};
use crate::huffman::{FromBits, NextBit, PutBit, ToBits};
use bitstream_count::error::Error;
use std::alloc::Allocator;

impl<S: Copy + Eq, A: Allocator> FromBits for HuffmanTree<S, A> {
    type Symbol = S;

    ghost decoder = { λ code. path_decoder (tree_of code) };

    fn from_bits<N: NextBit>(&self, next: &mut N) -> Result<S, Error> {
        let mut root = self.nodes.len() - 1;
        loop {
            match self.nodes[root] {
                Node::Leaf(symbol) => return Ok(symbol),
                Node::Branch { zero, one } => root = if next.next_bit()? { one } else { zero },
            }
        }
    }
}

impl<S: Copy + Eq, A: Allocator> ToBits for HuffmanTree<S, A> {
    type Symbol = S;

    ghost word = { λ code symbol. symbol_word S.eq (tree_of code) symbol };

    fn to_bits<P: PutBit>(&self, symbol: S, put: &mut P) -> Result<(), Error> {
        let Some(mut leaf) = self.find(0, self.nodes.len(), symbol) else {
            return Ok(());
        };
        let mut root = self.nodes.len() - 1;
        while let Node::Branch { zero, one } = self.nodes[root] {
            match self.leaf_on_zero_side(zero, one, leaf, symbol) {
                Some(place) => {
                    put.put_bit(false)?;
                    root = zero;
                    leaf = place;
                }
                None => {
                    put.put_bit(true)?;
                    root = one;
                }
            }
        }
        Ok(())
    }
}

impl<S: Copy + Eq, A: Allocator> HuffmanTree<S, A> {
    /// Returns the first index from `low` up to `end` whose node is a leaf with the symbol.
    fn find(&self, low: usize, end: usize, symbol: S) -> Option<usize>
        requires { end ≤ length (nodes_of self.now) }
        ensures { FindsFirst S.eq symbol (nodes_of self.now) low end result }
    {
        for place in low..end {
            if self.has(place, symbol) {
                return Some(place);
            }
        }
        None
    }

    /// Returns true if the node at an index is a leaf with the symbol.
    fn has(&self, place: usize, symbol: S) -> bool
        requires { place < length (nodes_of self.now) }
        ensures { IsTrue result ↔ HasSymbol S.eq symbol (nodes_of self.now) place }
    {
        match self.nodes[place] {
            Node::Leaf(other) => other == symbol,
            Node::Branch { .. } => false,
        }
    }

    /// Returns the index of the symbol's first leaf in a branch's subtree for bit 0, if there is one.
    /// `leaf` is the symbol's first leaf below the branch.
    ///
    /// If the side of 0 follows the side of 1, all of it is searched. It is then the shorter of the
    /// two, so all searches of one write take time linear in the number of nodes.
    fn leaf_on_zero_side(&self, zero: usize, one: usize, leaf: usize, symbol: S) -> Option<usize>
        requires { zero < length (nodes_of self.now) }
        // If the side of 0 comes first, the result is `leaf` if it is not after `zero`, and
        // otherwise `None`.
        ensures inside { zero < one → result ≡ (if nat_le leaf zero then Some leaf else None) }
        // If the side of 0 follows the other, its first leaf with the symbol is returned, if it has
        // one.
        ensures looked { one ≤ zero
            → FindsFirst S.eq symbol (nodes_of self.now) (one + 1) (zero + 1) result }
    {
        if zero < one {
            (leaf <= zero).then_some(leaf)
        } else {
            self.find(one + 1, zero + 1, symbol)
        }
    }
}
