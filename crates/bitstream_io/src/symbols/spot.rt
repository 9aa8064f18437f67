//! A position in bytes, from which a table finds symbols.
ghost use Rattle.std.specs.Prelude.{◌*◌, ◌<◌, ◌≤◌, ◌^◌, length};

use crate::symbols::SymbolTable;
use bitstream_order::order::Endianness;
use std::alloc::Allocator;

/// Some bytes with a position in them, in bits.
#[derive(Drop)]
pub(super) struct Spot<'a> {
    pub(super) bytes: &'a [u8],
    pub(super) place: usize,
    ghost few: { length bytes.now < 2 ^ 60 },
    ghost within: { place ≤ 8 * length bytes.now },
}

impl<'a> Spot<'a> {
    ghost use Rattle.std.specs.Prelude.{◌≡◌, ◌/◌, List, Ok, IfSome, None, take};
    ghost use Rattle.bitstream_order.specs.Refusal.{Refusal};
    ghost use Rattle.bitstream_stream.specs.Reading.Reads.{Reads};
    ghost use Rattle.bitstream_value.specs.Array.{items_decoder};
    ghost use Rattle.bitstream_value.specs.Tree.{path_decoder};
    ghost use Rattle.bitstream_io.specs.Places.{Place, place_source, spot_place};
    ghost use Rattle.bitstream_io.specs.SymbolTable.{table_tree};
    ghost use Rattle.bitstream_io.specs.Windows.{IsEight};

    /// Returns the eight bytes from the place's byte on as a number, or `None` if there are fewer.
    #[inline(always)]
    fn eight<E: Endianness>(&self) -> Option<u64>
        ensures { IfSome result (λ value. IsEight E.order self.now.bytes.now (self.now.place / 8) value) }
    {
        let at = self.place / 8;
        let bytes = self.bytes;
        if bytes.len() < 8 || at > bytes.len() - 8 {
            return None;
        }
        let mut eight = [0u8; 8];
        eight.copy_from_slice(&bytes[at..at + 8]);
        Some(E::of_bytes::<u64>(eight))
    }

    /// Takes the next code word, if the table finds it, and returns its symbol.
    #[inline(always)]
    pub(super) fn next<E: Endianness, S: Copy + Eq, A: Allocator>(
        &mut self,
        table: &SymbolTable<'_, S, A>,
    ) -> Option<S>
        // A code word that is taken is the one that the tree's decoder reads here.
        ensures some { IfSome result (λ symbol. (refusals : List Refusal)
            → Reads (place_source E.order) (path_decoder (table_tree table.now))
            (spot_place self.old refusals) (Ok symbol) (spot_place self.new refusals)) }
        // If `None` is returned, nothing was taken.
        ensures none { result ≡ None → self.new ≡ self.old }
        ensures bytes { self.new.bytes.now ≡ self.old.bytes.now }
    {
        let value = self.eight::<E>()?;
        let window = E::middle(value, (self.place % 8) as u32, 10);
        let (symbol, bits) = table.find::<E>(window)?;
        self.place += bits as usize;
        Some(symbol)
    }

    /// Takes code words of the next eight bytes as long as the table finds them, and stores their symbols from an
    /// index on. Returns the index after the last symbol.
    #[inline(always)]
    fn fill_some<E: Endianness, S: Copy + Eq, A: Allocator>(
        &mut self,
        table: &SymbolTable<'_, S, A>,
        symbols: &mut [S],
        from: usize,
    ) -> usize
        requires { from ≤ length symbols.old }
        ensures after { from ≤ result }
        ensures within { result ≤ length symbols.old }
        // Suppose that the symbols before the index were read from an earlier place up to this one. Then
        // the symbols before the returned index are read from that earlier place.
        ensures reads { (start : Place) (refusals : List Refusal)
            → Reads (place_source E.order) (items_decoder (path_decoder (table_tree table.now)) from)
            start (Ok (take from symbols.old)) (spot_place self.old refusals)
            → Reads (place_source E.order) (items_decoder (path_decoder (table_tree table.now)) result)
            start (Ok (take result symbols.new)) (spot_place self.new refusals) }
        ensures bytes { self.new.bytes.now ≡ self.old.bytes.now }
    {
        let Some(value) = self.eight::<E>() else {
            return from;
        };
        let mut bit = (self.place % 8) as u32;
        let mut at = from;
        while at < symbols.len() {
            if bit > 53 {
                return at;
            }
            match table.find::<E>(E::middle(value, bit, 10)) {
                Some(found) => {
                    symbols[at] = found.0;
                    at += 1;
                    bit += found.1;
                    self.place += found.1 as usize;
                }
                None => return at,
            }
        }
        at
    }

    /// Takes code words as long as the table finds them, and stores their symbols from an index on. Returns the
    /// index after the last symbol.
    pub(super) fn fill<E: Endianness, S: Copy + Eq, A: Allocator>(
        &mut self,
        table: &SymbolTable<'_, S, A>,
        symbols: &mut [S],
        from: usize,
    ) -> usize
        requires { from ≤ length symbols.old }
        ensures after { from ≤ result }
        ensures within { result ≤ length symbols.old }
        // Suppose that the symbols before the index were read from an earlier place up to this one. Then
        // the symbols before the returned index are read from that earlier place.
        ensures reads { (start : Place) (refusals : List Refusal)
            → Reads (place_source E.order) (items_decoder (path_decoder (table_tree table.now)) from)
            start (Ok (take from symbols.old)) (spot_place self.old refusals)
            → Reads (place_source E.order) (items_decoder (path_decoder (table_tree table.now)) result)
            start (Ok (take result symbols.new)) (spot_place self.new refusals) }
        ensures bytes { self.new.bytes.now ≡ self.old.bytes.now }
    {
        let mut at = from;
        loop {
            let next = self.fill_some::<E, S, A>(table, symbols, at);
            if next <= at {
                return next;
            }
            at = next;
        }
    }
}
