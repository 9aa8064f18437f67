//! Reads of symbols by a table.
ghost use Rattle.std.specs.Prelude.{◌≡◌, ◌≤◌, IfSome, None, Ok, length, take};
ghost use Rattle.bitstream_order.specs.Moving.Gather.{result_map};
ghost use Rattle.bitstream_stream.specs.Reading.MemorySeek.{memory_bytes};
ghost use Rattle.bitstream_stream.specs.Reading.MemorySource.{memory_source};
ghost use Rattle.bitstream_stream.specs.Reading.Reads.{Reads};
ghost use Rattle.bitstream_value.specs.Array.{items_decoder};
ghost use Rattle.bitstream_value.specs.Tree.{path_decoder};
ghost use Rattle.bitstream_io.specs.Places.{Leaves, state_at};
ghost use Rattle.bitstream_io.specs.SymbolTable.{table_tree};

use crate::symbols::SymbolTable;
use crate::symbols::spot::Spot;
use bitstream_count::error::Error;
use bitstream_order::order::Endianness;
use bitstream_order::streams::source::Source;
use bitstream_stream::read::BitRead;
use bitstream_stream::read::reader::BitReader;
use bitstream_stream::read::slice_reader::SliceReader;
use bitstream_value::huffman::FromBits;
use std::alloc::Allocator;
use std::io::SeekFrom;

/// Reads symbols of a prefix code by the [table](SymbolTable) of its tree.
///
/// A [`SliceReader`] looks ahead at the bytes in memory, and finds a code word of at most ten bits at once. It
/// reads longer code words, and some code words in the last eight bytes, by the tree. Read many symbols by one
/// call: each call of a `SliceReader` looks up its place. A [`BitReader`] reads all code words by the tree, so it
/// requests no byte before a code word needs it. For a reader of your own, write an `impl` with no methods.
///
/// # Examples
///
/// ```
/// use bitstream_io::{BitReader, Error, LE, ReadSymbols, SymbolTable};
/// use bitstream_io::huffman::HuffmanTree;
///
/// let alloc = rt.alloc();
/// let tree = HuffmanTree::node(HuffmanTree::leaf(alloc, 7u8)?, HuffmanTree::leaf(alloc, 9)?)?;
/// let table = SymbolTable::of(alloc, &tree)?;
/// let mut reader = BitReader::<_, LE>::new([0x0b].as_slice());
/// assert_eq!(rt; reader.read_symbol(&table)?, 9);
/// let mut symbols = [0; 4];
/// reader.read_symbols(&table, &mut symbols)?;
/// assert_eq!(rt; symbols, [9, 7, 9, 7]);
/// assert!(rt; matches!(reader.read_symbols(&table, &mut symbols), Err(Error::EndOfInput)));
/// ```
pub trait ReadSymbols: BitRead + Sized {
    /// Reads the code word of a symbol, and returns the symbol.
    ///
    /// # Errors
    ///
    /// The errors of the reader. A read by the tree returns the same error, and leaves the same state.
    fn read_symbol<S: Copy + Eq, A: Allocator>(
        &mut self,
        table: &SymbolTable<'_, S, A>,
    ) -> Result<S, Error>
        // The read follows the decoder of the table's tree.
        ensures reads { Reads Self.source (path_decoder (table_tree table.now)) self.old result self.new }
    {
        table.tree().from_bits(self)
    }

    /// Fills a slice with the next symbols. After an error the contents of the slice are unspecified.
    ///
    /// # Errors
    ///
    /// The errors of the reader. Reads by the tree, one after another, return the same error and leave the same
    /// state: the code words before the error are taken.
    fn read_symbols<S: Copy + Eq, A: Allocator>(
        &mut self,
        table: &SymbolTable<'_, S, A>,
        symbols: &mut [S],
    ) -> Result<(), Error>
        // The reads follow the decoder of the table's tree, once for each symbol.
        ensures reads { Reads Self.source (items_decoder (path_decoder (table_tree table.now)) (length symbols.old))
            self.old (result_map (λ _. symbols.new) result) self.new }
    {
        for at in 0..symbols.len() {
            symbols[at] = table.tree().from_bits(self)?;
        }
        Ok(())
    }
}

impl<R: Source, E: Endianness> ReadSymbols for BitReader<R, E> {}

impl<'a, E: Endianness> ReadSymbols for SliceReader<'a, E> {
    fn read_symbol<S: Copy + Eq, A: Allocator>(
        &mut self,
        table: &SymbolTable<'_, S, A>,
    ) -> Result<S, Error> {
        match take_one(self, table) {
            Some(symbol) => Ok(symbol),
            None => table.tree().from_bits(self),
        }
    }

    fn read_symbols<S: Copy + Eq, A: Allocator>(
        &mut self,
        table: &SymbolTable<'_, S, A>,
        symbols: &mut [S],
    ) -> Result<(), Error> {
        let mut at = take_found(self, table, symbols, 0);
        while at < symbols.len() {
            // The table does not find a code word that is long, or near the end.
            symbols[at] = table.tree().from_bits(self)?;
            at = take_found(self, table, symbols, at + 1);
        }
        Ok(())
    }
}

/// Returns the spot of a reader, and sends the reader to the start of its bytes. Returns `None` if the reader has
/// failed or has 2^62 bits or more.
fn leave<'a, E: Endianness>(reader: &mut SliceReader<'a, E>) -> Option<Spot<'a>>
    ensures some { IfSome result (λ spot. Leaves E.order reader.old spot reader.new) }
    ensures none { result ≡ None → reader.new ≡ reader.old }
{
    let Ok(place) = reader.position_in_bits() else {
        return None;
    };
    if place >= 1 << 62 || reader.bits_left() >= 1 << 62 {
        return None;
    }
    let _sought = reader.seek_bits(SeekFrom::Start(0));
    Some(Spot {
        bytes: reader.rest(),
        place: place as usize,
    })
}

/// Sends a reader to a spot of its bytes.
fn go_to<E: Endianness>(reader: &mut SliceReader<'_, E>, spot: &Spot<'_>)
    requires { memory_bytes reader.old ≡ spot.now.bytes.now }
    ensures { (memory_source E.order).state reader.new
        ≡ state_at E.order spot.now.bytes.now spot.now.place reader.old.refusals.list }
{
    let _sought = reader.seek_bits(SeekFrom::Start(spot.place as u64));
}

/// Takes a code word if the table finds it, and returns its symbol.
#[inline]
fn take_one<E: Endianness, S: Copy + Eq, A: Allocator>(
    reader: &mut SliceReader<'_, E>,
    table: &SymbolTable<'_, S, A>,
) -> Option<S>
    // A code word that is taken is the one that the tree's decoder reads.
    ensures some { IfSome result (λ symbol. Reads (memory_source E.order)
        (path_decoder (table_tree table.now)) reader.old (Ok symbol) reader.new) }
    // If `None` is returned, the reader is where it was.
    ensures none { result ≡ None
        → (memory_source E.order).state reader.new ≡ (memory_source E.order).state reader.old }
{
    let mut spot = leave(reader)?;
    let symbol = spot.next::<E, S, A>(table);
    go_to(reader, &spot);
    symbol
}

/// Takes code words as long as the table finds them, and stores their symbols from an index on. Returns the
/// index after the last symbol.
fn take_found<E: Endianness, S: Copy + Eq, A: Allocator>(
    reader: &mut SliceReader<'_, E>,
    table: &SymbolTable<'_, S, A>,
    symbols: &mut [S],
    from: usize,
) -> usize
    requires { from ≤ length symbols.old }
    ensures after { from ≤ result }
    ensures within { result ≤ length symbols.old }
    // Suppose that the symbols before the index were read from an earlier state up to this one. Then the symbols
    // before the returned index are read from that earlier state.
    ensures reads { (start : SliceReader E)
        → Reads (memory_source E.order) (items_decoder (path_decoder (table_tree table.now)) from)
        start (Ok (take from symbols.old)) reader.old
        → Reads (memory_source E.order) (items_decoder (path_decoder (table_tree table.now)) result)
        start (Ok (take result symbols.new)) reader.new }
{
    let Some(mut spot) = leave(reader) else {
        return from;
    };
    let end = spot.fill::<E, S, A>(table, symbols, from);
    go_to(reader, &spot);
    end
}
