//! Symbols of prefix codes: read by a table, which finds a code word of at most ten bits at once, and written by an
//! array of code words.
ghost use Rattle.std.specs.Prelude.{◌≡◌, length};
ghost use Rattle.bitstream_value.specs.HuffmanTree.{tree_of};
ghost use Rattle.bitstream_io.specs.Windows.{FindsAll};

mod entry;
mod numbers;
mod read;
mod spot;
mod words;

use crate::symbols::entry::entry_at;
pub use crate::symbols::numbers::IndexedSymbol;
pub use crate::symbols::read::ReadSymbols;
pub use crate::symbols::words::IndexedWords;
use bitstream_order::order::Endianness;
use bitstream_value::huffman::HuffmanTree;
use std::alloc::{AllocError, Allocator};

/// The symbol whose code word begins a window of ten bits.
#[derive(Clone, Copy, Drop)]
struct Found<S> {
    symbol: S,
    // The number of bits of the code word. If it is above 10, the code word is longer than the window,
    // and the symbol has no meaning.
    bits: u8,
}

/// The table of a tree. For each window of ten bits, it holds the symbol whose code word begins the window.
/// [`read_symbols`](ReadSymbols::read_symbols) reads symbols from bytes in memory by the table, without a walk
/// down the tree for each. The tree still reads the code words of more than ten bits.
///
/// # Examples
///
/// ```
/// use bitstream_io::{BE, ReadSymbols, SliceReader, SymbolTable};
/// use bitstream_io::huffman::HuffmanTree;
///
/// let alloc = rt.alloc();
/// let end = HuffmanTree::node(HuffmanTree::leaf(alloc, 'b')?, HuffmanTree::leaf(alloc, 'c')?)?;
/// let tree = HuffmanTree::node(HuffmanTree::leaf(alloc, 'a')?, end)?;
/// let table = SymbolTable::of(alloc, &tree)?;
/// let mut reader = SliceReader::<BE>::over(&[0x98]);
/// let mut symbols = ['a'; 3];
/// reader.read_symbols(&table, &mut symbols)?;
/// assert_eq!(rt; symbols, ['b', 'a', 'c']);
/// assert_eq!(rt; reader.bits_read(), 5);
/// ```
#[derive(Drop)]
pub struct SymbolTable<'a, S, A: Allocator> {
    tree: &'a HuffmanTree<S, A>,
    // An entry for each window: first for each number whose highest bit comes first, then for each
    // number whose lowest bit comes first.
    found: Vec<Found<S>, A>,
    ghost size: { length found.items ≡ 2048 },
    ghost right: { ∥ FindsAll (tree_of tree.now) found.items ∥₁ },
}

impl<'a, S: Copy + Eq + Default, A: Allocator> SymbolTable<'a, S, A> {
    ghost use Rattle.std.specs.Prelude.{IfOk};
    ghost use Rattle.bitstream_io.specs.SymbolTable.{table_entries, table_tree};

    /// Makes the table of a tree. This reads one symbol for each of 2048 windows: 1024 numbers of ten bits, in
    /// each of the two orders of bits.
    ///
    /// # Errors
    ///
    /// `AllocError` if an allocation fails.
    pub fn of(alloc: A, tree: &'a HuffmanTree<S, A>) -> Result<SymbolTable<'a, S, A>, AllocError>
        // The result is the table of this tree.
        ensures tree { IfOk result (λ table. table_tree table ≡ tree_of tree.now) }
        // Each entry states what this tree reads from the ten bits of its window.
        ensures entries { IfOk result (λ table. FindsAll (tree_of tree.now) (table_entries table)) }
    {
        let mut found = Vec::new(alloc);
        for index in 0..2048 {
            found.push(entry_at(tree, index))?;
        }
        Ok(SymbolTable { tree, found })
    }
}

impl<S: Copy + Eq, A: Allocator> SymbolTable<'_, S, A> {
    ghost use Rattle.std.specs.Prelude.{ℕ, ◌<◌, ◌≤◌, ◌^◌, take, IfSome, None};
    ghost use Rattle.bitstream_number.specs.Word.{word};
    ghost use Rattle.bitstream_value.specs.Tree.{IsPath};
    ghost use Rattle.bitstream_io.specs.SymbolTable.{table_tree};

    /// Returns the tree whose symbols the table finds.
    pub fn tree(&self) -> &HuffmanTree<S, A>
        ensures { tree_of result.now ≡ table_tree self.now }
    {
        self.tree
    }

    /// Returns the symbol whose code word begins a window of ten bits, and the number of bits of the code word.
    /// Returns `None` if the code word has more than ten bits. `window` is the number of the ten bits in the
    /// order E.
    #[inline(always)]
    pub fn find<E: Endianness>(&self, window: u64) -> Option<(S, u32)>
        requires { window < 2 ^ 10 }
        // The code word has at most ten bits, begins the window, and is the path to the symbol.
        ensures some { IfSome result (λ found. (found.1 ≤ 10)
            × IsPath (table_tree self.now) (take found.1 (word E.order 10 window)) found.0) }
        // If `None` is returned, no path of at most ten bits begins the window.
        ensures none { result ≡ None → (n : ℕ) (symbol : S) → n ≤ 10
            → IsPath (table_tree self.now) (take n (word E.order 10 window)) symbol → ⊥ }
    {
        // The first bit of the number 1 is its highest bit or its lowest one: 0 or 1.
        let half = E::first(1, 1) as usize;
        let found = self.found[1024 * half + window as usize];
        if found.bits <= 10 {
            Some((found.symbol, found.bits as u32))
        } else {
            None
        }
    }
}
