//! The entries of a table.
ghost use Rattle.bitstream_number.specs.Word.{word};
ghost use Rattle.bitstream_value.specs.HuffmanTree.{tree_of};
ghost use Rattle.bitstream_io.specs.Windows.{Finds, window_word};

use crate::symbols::Found;
use bitstream_order::order::{BE, Endianness, LE};
use bitstream_stream::read::slice_reader::SliceReader;
use bitstream_value::huffman::{FromBits, HuffmanTree};
use std::alloc::Allocator;

/// Returns the entry of the window at an index.
pub(super) fn entry_at<S: Copy + Eq + Default, A: Allocator>(
    tree: &HuffmanTree<S, A>,
    index: u16,
) -> Found<S>
    ensures { Finds (tree_of tree.now) (window_word index) result }
{
    if index < 1024 {
        entry_of::<BE, S, A>(tree, index)
    } else {
        entry_of::<LE, S, A>(tree, index - 1024)
    }
}

/// Returns the entry of the window that is a number of ten bits in the order E.
fn entry_of<E: Endianness, S: Copy + Eq + Default, A: Allocator>(
    tree: &HuffmanTree<S, A>,
    window: u16,
) -> Found<S>
    ensures { Finds (tree_of tree.now) (word E.order 10 window) result }
{
    let bytes = E::to_bytes::<u16>(E::to_front::<u16>(window, 10));
    let mut reader = SliceReader::<E>::over(&bytes);
    match tree.from_bits(&mut reader) {
        Ok(symbol) => {
            let bits = reader.bits_read();
            if bits <= 10 {
                Found {
                    symbol,
                    bits: bits as u8,
                }
            } else {
                Found::longer()
            }
        }
        Err(_) => Found::longer(),
    }
}

impl<S: Default> Found<S> {
    ghost use Rattle.std.specs.Prelude.{◌<◌};

    /// Returns the entry of a window that begins with a longer code word.
    fn longer() -> Found<S>
        ensures { 10 < result.bits }
    {
        Found {
            symbol: S::default(),
            bits: 11,
        }
    }
}
