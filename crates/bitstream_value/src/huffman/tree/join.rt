//! The nodes of two trees in one list.
ghost use Rattle.std.specs.Prelude.{IfOk};
ghost use Rattle.bitstream_value.specs.HuffmanTree.{nodes_of};
ghost use Rattle.bitstream_value.specs.Nodes.{Joined};

use crate::huffman::tree::{HuffmanTree, Node};
use std::alloc::{AllocError, Allocator};

/// Appends the nodes of one tree to the nodes of another. Returns all nodes, with the indices of the
/// two roots.
///
/// # Errors
///
/// `AllocError` if an allocation fails. If so, both trees are dropped.
pub(super) fn joined<S: Copy, A: Allocator>(
    first: HuffmanTree<S, A>,
    second: HuffmanTree<S, A>,
) -> Result<(Vec<Node<S>, A>, usize, usize), AllocError>
    ensures { IfOk result (λ r. Joined (nodes_of first) (nodes_of second) r.0.items r.1 r.2) }
{
    let mut nodes = first.nodes;
    let len = nodes.len();
    for node in second.nodes.iter() {
        nodes.push(node.moved(len))?;
    }
    let end = nodes.len();
    Ok((nodes, len - 1, end - 1))
}
