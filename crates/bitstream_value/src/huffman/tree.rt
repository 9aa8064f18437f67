//! Prefix codes that are trees of symbols.
ghost use Rattle.std.specs.Prelude.{◌≡◌, true, is_some};
ghost use Rattle.bitstream_value.specs.Nodes.{nodes_tree};

mod join;
mod walk;
mod words;

use crate::huffman::tree::join::joined;
pub use crate::huffman::tree::words::SymbolWords;
use std::alloc::{AllocError, Allocator};

/// One node of a tree: a leaf with its symbol, or a branch with the indices of its two sides.
#[derive(Copy, Clone, Drop)]
enum Node<S> {
    Leaf(S),
    Branch { zero: usize, one: usize },
}

/// A prefix code that is a tree of symbols. The code word of a symbol is the path from the root to its
/// leaf: the bit 0 leads to the first side of a branch, and the bit 1 to the second.
///
/// If several leaves have the same symbol, a write takes the path to the first one, counted from the
/// side of 0. If no leaf has the symbol, nothing is written. Reading, writing and dropping a deep tree
/// use no more stack than a flat one.
///
/// # Examples
///
/// ```
/// use bitstream_io::{BE, BitReadExt, BitReader};
/// use bitstream_io::huffman::HuffmanTree;
///
/// let alloc = rt.alloc();
/// let end = HuffmanTree::node(HuffmanTree::leaf(alloc, 'b')?, HuffmanTree::leaf(alloc, 'c')?)?;
/// let tree = HuffmanTree::node(HuffmanTree::leaf(alloc, 'a')?, end)?;
/// let mut reader = BitReader::<_, BE>::new([0x98].as_slice());
/// assert_eq!(rt; reader.read_huffman(&tree)?, 'b');
/// assert_eq!(rt; reader.read_huffman(&tree)?, 'a');
/// assert_eq!(rt; reader.read_huffman(&tree)?, 'c');
/// ```
#[derive(Drop)]
pub struct HuffmanTree<S, A: Allocator> {
    // The nodes of both sides of a branch are before the branch. The nodes of each side are next to each
    // other, and end with the side's root. The longer side comes first.
    nodes: Vec<Node<S>, A>,
    ghost has_tree: { is_some (nodes_tree nodes.items) ≡ true },
}

impl<S: Copy + Eq, A: Allocator> HuffmanTree<S, A> {
    ghost use Rattle.std.specs.Prelude.{IfOk};
    ghost use Rattle.bitstream_value.specs.HuffmanTree.{tree_of};
    ghost use Rattle.bitstream_value.specs.Tree.{leaf as one_leaf, node as two_sides};

    /// Makes a tree of one leaf. Its symbol has a code word of no bits.
    ///
    /// # Errors
    ///
    /// `AllocError` if an allocation fails.
    pub fn leaf(alloc: A, symbol: S) -> Result<Self, AllocError>
        ensures tree { IfOk result (λ code. tree_of code ≡ one_leaf symbol) }
    {
        let mut nodes = Vec::new(alloc);
        nodes.push(Node::Leaf(symbol))?;
        Ok(HuffmanTree { nodes })
    }

    /// Joins two trees: the code words of `zero` follow the bit 0, and the code words of `one` follow
    /// the bit 1.
    ///
    /// # Errors
    ///
    /// `AllocError` if an allocation fails. If so, both trees are dropped.
    pub fn node(zero: Self, one: Self) -> Result<Self, AllocError>
        ensures tree { IfOk result (λ code. tree_of code ≡ two_sides (tree_of zero) (tree_of one)) }
    {
        if one.nodes.len() <= zero.nodes.len() {
            let (mut nodes, zero, one) = joined(zero, one)?;
            nodes.push(Node::Branch { zero, one })?;
            Ok(HuffmanTree { nodes })
        } else {
            let (mut nodes, one, zero) = joined(one, zero)?;
            nodes.push(Node::Branch { zero, one })?;
            Ok(HuffmanTree { nodes })
        }
    }
}

impl<S: Copy> Node<S> {
    ghost use Rattle.std.specs.Prelude.{◌≡◌};
    ghost use Rattle.bitstream_value.specs.Nodes.{FitsShifted, shift_node};

    /// Returns the node with `by` added to its indices.
    fn moved(self, by: usize) -> Node<S>
        requires { FitsShifted by self }
        ensures { result ≡ shift_node by self }
    {
        match self {
            Node::Leaf(symbol) => Node::Leaf(symbol),
            Node::Branch { zero, one } => Node::Branch {
                zero: zero + by,
                one: one + by,
            },
        }
    }
}
