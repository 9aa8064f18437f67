//! The code words of symbols that are numbers, in an array.
use crate::symbols::numbers::IndexedSymbol;
use bitstream_count::error::Error;
use bitstream_value::huffman::{CodeWord, HuffmanTree, PutBit, ToBits};
use std::alloc::{AllocError, Allocator};

/// The code words of a tree's symbols in an array, where the symbols are numbers. Each code word is found at the
/// symbol's index, without a search. Use them to write many symbols.
///
/// The array holds the code words of the symbols from 0 up to a last one, each of at most 63 bits. The tree still
/// writes the symbols after these.
///
/// # Examples
///
/// ```
/// use bitstream_io::{BE, BitWrite, BitWriteExt, BitWriter, IndexedWords};
/// use bitstream_io::huffman::HuffmanTree;
///
/// let alloc = rt.alloc();
/// let end = HuffmanTree::node(HuffmanTree::leaf(alloc, 1u8)?, HuffmanTree::leaf(alloc, 2)?)?;
/// let tree = HuffmanTree::node(HuffmanTree::leaf(alloc, 0)?, end)?;
/// let words = IndexedWords::of(alloc, &tree, 2)?;
/// let mut writer = BitWriter::<_, BE>::new(Vec::new(alloc));
/// writer.write_huffman(&words, 1)?;
/// writer.write_huffman(&words, 0)?;
/// writer.write_huffman(&words, 2)?;
/// writer.byte_align()?;
/// assert_eq!(rt; writer.into_writer().as_slice(), [0x98].as_slice());
/// ```
#[derive(Drop)]
pub struct IndexedWords<'a, S, A: Allocator> {
    tree: &'a HuffmanTree<S, A>,
    // The code word of each symbol is at the index that is its number.
    words: Vec<CodeWord, A>,
}

impl<'a, S: IndexedSymbol, A: Allocator> IndexedWords<'a, S, A> {
    ghost use Rattle.std.specs.Prelude.{◌≡◌, IfOk};
    ghost use Rattle.bitstream_value.specs.HuffmanTree.{tree_of};
    ghost use Rattle.bitstream_value.specs.Tree.{symbol_word};
    ghost use Rattle.bitstream_io.specs.IndexedWords.{HoldsUpTo, indexed_word};

    /// Makes the array of the symbols from 0 up to `last`. It takes 24 bytes for each symbol, and as long as writing
    /// each symbol once with the tree. The array ends before the first symbol whose code word has 64 or more bits.
    ///
    /// # Errors
    ///
    /// `AllocError` if an allocation fails.
    pub fn of(
        alloc: A,
        tree: &'a HuffmanTree<S, A>,
        last: S,
    ) -> Result<IndexedWords<'a, S, A>, AllocError>
        // A symbol is written as the tree writes it.
        ensures words { IfOk result (λ words. (symbol : S)
            → indexed_word S.eq S.number words symbol ≡ symbol_word S.eq (tree_of tree.now) symbol) }
        // A symbol up to the last one is in the array if no code word up to its own has 64 or more bits.
        ensures found { IfOk result (HoldsUpTo S.eq S.number (tree_of tree.now) (S.number last)) }
    {
        let mut words = Vec::new(alloc);
        for index in 0..last.to_index() + 1 {
            match tree.code_word(last.with_index(index)) {
                Some(word) => words.push(word)?,
                None => return Ok(IndexedWords { tree, words }),
            }
        }
        Ok(IndexedWords { tree, words })
    }
}

impl<S: IndexedSymbol, A: Allocator> IndexedWords<'_, S, A> {
    ghost use Rattle.std.specs.Prelude.{◌≡◌, slice_get};
    ghost use Rattle.bitstream_stream.specs.Writing.Sink.{WritesAll};
    ghost use Rattle.bitstream_value.specs.HuffmanTree.{tree_of};
    ghost use Rattle.bitstream_value.specs.Tree.{bit_by_bit, symbol_word};
    ghost use Rattle.bitstream_io.specs.IndexedWords.{words_held};

    /// Returns the code word of a symbol, if it is in the array.
    #[inline(always)]
    fn find(&self, symbol: S) -> Option<CodeWord>
        ensures { result ≡ slice_get (words_held self.now) (S.number symbol) }
    {
        let at = symbol.to_index();
        if at < self.words.len() {
            Some(self.words[at])
        } else {
            None
        }
    }

    /// Writes the code word of a symbol by the tree.
    #[inline(never)]
    fn write_by_tree<P: PutBit>(&self, symbol: S, put: &mut P) -> Result<(), Error>
        ensures writes { WritesAll P.sink
            (bit_by_bit (symbol_word S.eq (tree_of self.now.tree.now) symbol))
            put.old result put.new }
    {
        self.tree.to_bits(symbol, put)
    }
}

impl<S: IndexedSymbol, A: Allocator> ToBits for IndexedWords<'_, S, A> {
    ghost use Rattle.bitstream_io.specs.IndexedWords.{indexed_word};

    type Symbol = S;

    ghost word = { λ words symbol. indexed_word S.eq S.number words symbol };

    fn to_bits<P: PutBit>(&self, symbol: S, put: &mut P) -> Result<(), Error> {
        match self.find(symbol) {
            Some(word) => put.put_word(word),
            None => self.write_by_tree(symbol, put),
        }
    }
}
