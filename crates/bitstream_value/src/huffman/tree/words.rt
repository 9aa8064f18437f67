//! The precomputed code words of a tree's symbols.
use crate::huffman::tree::{HuffmanTree, Node};
use crate::huffman::{CodeWord, PutBit, ToBits};
use bitstream_count::error::Error;
use std::alloc::{AllocError, Allocator};

/// The bits of a symbol's path so far. As a sink, it has room for the 63 bits of a code word.
#[derive(Drop)]
struct Gathered {
    word: CodeWord,
}

impl PutBit for Gathered {
    ghost use Rattle.bitstream_value.specs.SymbolWords.{gathered_sink};

    ghost sink = { gathered_sink };

    fn put_bit(&mut self, one: bool) -> Result<(), Error> {
        if self.word.len() == CodeWord::MOST {
            return Err(Error::CounterOverflow);
        }
        self.word.push(one);
        Ok(())
    }
}

/// A symbol with its code word.
#[derive(Clone, Copy, Drop)]
struct SymbolWord<S> {
    symbol: S,
    word: CodeWord,
}

/// The precomputed code words of a tree's symbols. Each code word is found by its symbol, and written without a walk
/// down the tree. Use them to write many symbols. The tree still writes the code words of 64 or more bits.
///
/// # Examples
///
/// ```
/// use bitstream_io::{BE, BitWrite, BitWriteExt, BitWriter};
/// use bitstream_io::huffman::HuffmanTree;
///
/// let alloc = rt.alloc();
/// let end = HuffmanTree::node(HuffmanTree::leaf(alloc, 'b')?, HuffmanTree::leaf(alloc, 'c')?)?;
/// let tree = HuffmanTree::node(HuffmanTree::leaf(alloc, 'a')?, end)?;
/// let words = tree.words(alloc)?;
/// let mut writer = BitWriter::<_, BE>::new(Vec::new(alloc));
/// writer.write_huffman(&words, 'b')?;
/// writer.write_huffman(&words, 'a')?;
/// writer.write_huffman(&words, 'c')?;
/// writer.byte_align()?;
/// assert_eq!(rt; writer.into_writer().as_slice(), [0x98].as_slice());
/// ```
#[derive(Drop)]
pub struct SymbolWords<'a, S, A: Allocator> {
    tree: &'a HuffmanTree<S, A>,
    // The shortest code words come first.
    made: Vec<SymbolWord<S>, A>,
}

impl<S: Copy + Eq, A: Allocator> HuffmanTree<S, A> {
    ghost use Rattle.std.specs.Prelude.{◌≡◌, ◌<◌, IfOk, MatchOption, length};
    ghost use Rattle.bitstream_stream.specs.Writing.CodeWord.{code_bits};
    ghost use Rattle.bitstream_value.specs.HuffmanTree.{tree_of};
    ghost use Rattle.bitstream_value.specs.SymbolWords.{FindsShort, ShortestFirst, made_word};
    ghost use Rattle.bitstream_value.specs.Tree.{symbol_word};

    /// Precomputes the code words of all symbols, so that each symbol is written faster. This takes as long as
    /// writing each symbol once with the tree.
    ///
    /// # Errors
    ///
    /// `AllocError` if an allocation fails.
    pub fn words(&self, alloc: A) -> Result<SymbolWords<'_, S, A>, AllocError>
        // A symbol is written as the tree writes it.
        ensures words { IfOk result (λ words. (symbol : S)
            → made_word S.eq words symbol ≡ symbol_word S.eq (tree_of self.now) symbol) }
        // A symbol whose code word has at most 63 bits is found: no write of it walks down the tree.
        ensures found { IfOk result (FindsShort S.eq (tree_of self.now)) }
        // Shorter code words are found sooner.
        ensures order { IfOk result ShortestFirst }
    {
        let mut made = Vec::new(alloc);
        for node in self.nodes.as_slice() {
            if let Node::Leaf(symbol) = *node {
                if let Some(word) = self.code_word(symbol) {
                    made.push(SymbolWord { symbol, word })?;
                }
            }
        }
        made.as_mut_slice().sort_unstable_by_key(|it| it.word.len());
        Ok(SymbolWords { tree: self, made })
    }

    /// Returns the code word of a symbol, if it has at most 63 bits. A symbol that the tree lacks has a code word of no
    /// bits. A program that numbers its symbols keeps their code words in an array, and writes each by
    /// `write_code_word`.
    ///
    /// # Examples
    ///
    /// ```
    /// use bitstream_io::{BE, BitWrite, BitWriter};
    /// use bitstream_io::huffman::{CodeWord, HuffmanTree};
    ///
    /// let alloc = rt.alloc();
    /// let end = HuffmanTree::node(HuffmanTree::leaf(alloc, 'b')?, HuffmanTree::leaf(alloc, 'c')?)?;
    /// let tree = HuffmanTree::node(HuffmanTree::leaf(alloc, 'a')?, end)?;
    /// let mut writer = BitWriter::<_, BE>::new(Vec::new(alloc));
    /// writer.write_code_word(tree.code_word('b').unwrap_or(CodeWord::new()))?;
    /// writer.write_code_word(tree.code_word('c').unwrap_or(CodeWord::new()))?;
    /// writer.byte_align()?;
    /// assert_eq!(rt; writer.into_writer().as_slice(), [0xb0].as_slice());
    /// ```
    pub fn code_word(&self, symbol: S) -> Option<CodeWord>
        ensures { MatchOption result (63 < length (symbol_word S.eq (tree_of self.now) symbol))
            (λ word. code_bits word ≡ symbol_word S.eq (tree_of self.now) symbol) }
    {
        let mut gathered = Gathered {
            word: CodeWord::new(),
        };
        match self.to_bits(symbol, &mut gathered) {
            Ok(()) => Some(gathered.word),
            Err(_) => None,
        }
    }
}

impl<S: Copy + Eq, A: Allocator> SymbolWords<'_, S, A> {
    ghost use Rattle.std.specs.Prelude.{◌≡◌, option_map};
    ghost use Rattle.bitstream_stream.specs.Writing.CodeWord.{code_bits};
    ghost use Rattle.bitstream_stream.specs.Writing.Sink.{WritesAll};
    ghost use Rattle.bitstream_value.specs.HuffmanTree.{tree_of};
    ghost use Rattle.bitstream_value.specs.SymbolWords.{found_word, words_made};
    ghost use Rattle.bitstream_value.specs.Tree.{bit_by_bit, symbol_word};

    /// Returns the code word of a symbol, if it was precomputed.
    fn find(&self, symbol: S) -> Option<CodeWord>
        ensures { option_map code_bits result ≡ found_word S.eq (words_made self.now) symbol }
    {
        for it in self.made.as_slice() {
            if it.symbol == symbol {
                return Some(it.word);
            }
        }
        None
    }

    /// Writes the code word of a symbol by the tree.
    #[inline(never)]
    fn write_by_tree<P: PutBit>(&self, symbol: S, put: &mut P) -> Result<(), Error>
        ensures writes { WritesAll P.sink
            (bit_by_bit (symbol_word S.eq (tree_of self.now.tree.now) symbol))
            put.old result put.new }
    {
        self.tree.to_bits(symbol, put)
    }
}

impl<S: Copy + Eq, A: Allocator> ToBits for SymbolWords<'_, S, A> {
    ghost use Rattle.bitstream_value.specs.SymbolWords.{made_word};

    type Symbol = S;

    ghost word = { λ words symbol. made_word S.eq words symbol };

    fn to_bits<P: PutBit>(&self, symbol: S, put: &mut P) -> Result<(), Error> {
        match self.find(symbol) {
            Some(word) => put.put_word(word),
            None => self.write_by_tree(symbol, put),
        }
    }
}
