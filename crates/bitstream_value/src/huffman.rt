//! Prefix codes: each symbol has a code word of bits, and no code word is a prefix of another.
ghost use Rattle.std.specs.Prelude.{Bool, List};
ghost use Rattle.bitstream_count.specs.Codec.{Decoder};
ghost use Rattle.bitstream_stream.specs.Reading.Reads.{BitSource, Reads};
ghost use Rattle.bitstream_stream.specs.Reading.ReadTable.{bit_decoder};
ghost use Rattle.bitstream_stream.specs.Writing.Sink.{Sink, Writes, WritesAll};
ghost use Rattle.bitstream_stream.specs.Writing.WriteTable.{bit};
ghost use Rattle.bitstream_stream.specs.Writing.CodeWord.{code_bits};
ghost use Rattle.bitstream_value.specs.Tree.{bit_by_bit};

mod limited_unary;
mod tree;

pub use crate::huffman::limited_unary::LimitedUnary;
pub use crate::huffman::tree::{HuffmanTree, SymbolWords};
use bitstream_count::error::Error;
use bitstream_stream::read::BitRead;
use bitstream_stream::write::BitWrite;
pub use bitstream_stream::write::code_word::CodeWord;

/// The call that a prefix code makes on a reader. Every reader of bits has it, with the errors of
/// [`BitRead`].
pub trait NextBit {
    // The meaning of the reader's states.
    ghost source: { BitSource Self };

    /// Reads one bit. Returns true if it is 1.
    fn next_bit(&mut self) -> Result<bool, Error>
        ensures reads { Reads source bit_decoder self.old result self.new };
}

impl<R: BitRead> NextBit for R {
    ghost source = { R.source };

    #[inline(always)]
    fn next_bit(&mut self) -> Result<bool, Error> {
        self.read_bit()
    }
}

/// The calls that a prefix code makes on a sink. Every sink of bits has them, with the errors of
/// [`BitWrite`].
pub trait PutBit {
    // The meaning of the sink's states.
    ghost sink: { Sink Self };

    /// Writes one bit: 1 for `true`.
    fn put_bit(&mut self, one: bool) -> Result<(), Error>
        ensures writes { Writes sink (bit one) self.old result self.new };

    /// Writes the bits of a code word, one after another. The bits before an error stay written.
    fn put_word(&mut self, word: CodeWord) -> Result<(), Error>
        // Each bit has the effect of a call of `put_bit`.
        ensures writes { WritesAll sink (bit_by_bit (code_bits word)) self.old result self.new }
    {
        for at in 0..word.len() {
            self.put_bit(word.bit(at))?;
        }
        Ok(())
    }
}

impl<W: BitWrite> PutBit for W {
    ghost sink = { W.sink };

    #[inline(always)]
    fn put_bit(&mut self, one: bool) -> Result<(), Error> {
        self.write_bit(one)
    }

    #[inline(always)]
    fn put_word(&mut self, word: CodeWord) -> Result<(), Error> {
        self.write_code_word(word)
    }
}

/// A prefix code that is read bit by bit. The only errors are the errors of the reader.
pub trait FromBits {
    /// The symbols of the code.
    type Symbol;

    // The decoder of the code.
    ghost decoder: { Self → Decoder Self.Symbol };

    /// Reads one code word, and returns its symbol.
    fn from_bits<N: NextBit>(&self, next: &mut N) -> Result<Self::Symbol, Error>
        ensures reads { Reads N.source (decoder self.now) next.old result next.new };
}

/// A prefix code that is written, bit by bit.
pub trait ToBits {
    /// The symbols of the code.
    type Symbol;

    // The code word of a symbol.
    ghost word: { Self → Self.Symbol → List Bool };

    /// Writes the code word of a symbol, or nothing if the symbol has none.
    ///
    /// # Errors
    ///
    /// The errors of the sink. The bits before the error stay written. Writing a code word of no bits
    /// always succeeds.
    fn to_bits<P: PutBit>(&self, symbol: Self::Symbol, put: &mut P) -> Result<(), Error>
        ensures writes { WritesAll P.sink (bit_by_bit (word self.now symbol))
            put.old result put.new };
}
