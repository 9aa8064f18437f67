//! Laws of prefix codes, and of the lengths of users' types, for all readers and sinks.
//!
//! The contract of each function is a law. Its body is empty.

ghost use Rattle.std.specs.Prelude.{◌≡◌, ℕ, ◌+◌, ◌%◌, ◌<◌, ◌≤◌, ◌↔◌, Bool, true, List, ◌++◌, length, take, Option, IfSome, IsSome, Some, Result, Ok};
ghost use Rattle.bitstream_count.specs.Codec.{Done};
ghost use Rattle.bitstream_count.specs.declared.error.Error.{Error};
ghost use Rattle.bitstream_number.specs.Word.{High};
ghost use Rattle.bitstream_value.specs.ByteTypes.{ByteWritesOwn, CountsBytes, HasOneTotal};
ghost use Rattle.bitstream_value.specs.Lengths.{CountsBits, HasOneLength, IsNumberWithin};
ghost use Rattle.bitstream_value.specs.LimitedUnary.{limited_unary, limited_tree};
ghost use Rattle.bitstream_value.specs.Own.{WritesOwn};
ghost use Rattle.bitstream_value.specs.Tree.{Tree, IsPath, IsFirstPath, path_decoder, first_path, symbol_word};

use crate::build::{ToBitStream, ToBitStreamUsing, ToBitStreamWith};
use crate::byte_build::{ToByteStream, ToByteStreamUsing, ToByteStreamWith};
use bitstream_sink::counter::Counter;
use bitstream_stream::bytes::byte_write::ByteWrite;
use bitstream_stream::write::BitWrite;

/// No path of a tree is a prefix of another path. A path is read back, whatever follows it. A read
/// takes a path, and returns the symbol at its leaf.
pub fn paths_are_read<S>()
    // If the same bits begin with two paths, the paths are equal and lead to the same symbol.
    ensures apart { (t : Tree S) (u v x y : List Bool) (a b : S) → IsPath t u a → IsPath t v b
        → u ++ x ≡ v ++ y → (u ≡ v) × (a ≡ b) }
    // A path is read as the symbol at its leaf, whatever follows it.
    ensures back { (t : Tree S) (w : List Bool) (s : S) (p : ℕ) (more : List Bool) → IsPath t w s
        → (path_decoder t).reads p (w ++ more) ≡ Done (length w) (Ok s) }
    // If a read succeeds, it took the bits of a path and returns the symbol at its leaf.
    ensures taken { (t : Tree S) (p : ℕ) (bits : List Bool) (n : ℕ) (answer : Result S Error)
        → (path_decoder t).reads p bits ≡ Done n answer
        → (n ≤ length bits) × ((s : S) × (answer ≡ Ok s) × IsPath t (take n bits) s) }
{}

/// A symbol has a code word exactly if a leaf has an equal symbol. The code word is the path to the first
/// leaf with an equal symbol, and is read as that leaf's symbol.
pub fn symbols_have_words<S>()
    // A symbol has a code word exactly if a leaf has an equal symbol.
    ensures known { (same : S → S → Bool) (t : Tree S) (s : S) → IsSome (first_path same t s)
        ↔ ((w : List Bool) × (x : S) × IsPath t w x × (same x s ≡ true)) }
    // The code word is the path to the first leaf with the symbol, and a write appends it.
    ensures first { (same : S → S → Bool) (t : Tree S) (s : S) (w : List Bool)
        → first_path same t s ≡ Some w → IsFirstPath same t s w × (symbol_word same t s ≡ w) }
    // The code word is read as an equal symbol, whatever follows it.
    ensures back { (same : S → S → Bool) (t : Tree S) (s : S) (w : List Bool)
        → first_path same t s ≡ Some w → (x : S) × (same x s ≡ true)
        × ((p : ℕ) (more : List Bool) → (path_decoder t).reads p (w ++ more) ≡ Done (length w) (Ok x)) }
{}

/// The code words of limited unary numbers are the paths of a tree. The leaves of the tree are `None` and
/// the numbers below the maximum.
pub fn limited_runs_are_paths()
    // The code word of `None`, or of a number below the maximum, is a path to that value.
    ensures word { (stop : Bool) (most : ℕ) (v : Option ℕ) → IfSome v (λ k. k < most)
        → IsPath (limited_tree stop 0 most) (limited_unary stop most v) v }
    // A path leads to `None` or to a number below the maximum, and is the code word of that value.
    ensures path { (stop : Bool) (most : ℕ) (w : List Bool) (v : Option ℕ)
        → IsPath (limited_tree stop 0 most) w v
        → IfSome v (λ k. k < most) × (w ≡ limited_unary stop most v) }
{}

/// If the encoding of a value has the same length in both orders of bits, `bits` returns the number of bits that
/// `to_writer` appends at a byte boundary, or `CounterOverflow` if C cannot hold it.
pub fn bits_are_those_appended<T: ToBitStream, C: Counter, W: BitWrite>()
    ensures { (value : T) (old new : W) (bits : Result C T.Error) (n : ℕ)
        → HasOneLength (λ o. T.writes o value) → W.sink.len old % 8 ≡ 0
        → WritesOwn W.sink T.becomes (T.writes W.sink.order value) (T.answers value)
        old (Ok tt) new
        → CountsBits C.value C.greatest T.becomes (T.writes High value)
        (T.answers value) bits
        → W.sink.len new ≡ W.sink.len old + n
        → IsNumberWithin C.value C.greatest T.becomes n bits }
{}

/// States the law of [`bits_are_those_appended`] for a type whose context is borrowed.
pub fn bits_with_a_context_are_those_appended<T: ToBitStreamWith, C: Counter, W: BitWrite>()
    ensures { (value : T) (context : T.Context) (old new : W) (bits : Result C T.Error) (n : ℕ)
        → HasOneLength (λ o. T.writes o value context) → W.sink.len old % 8 ≡ 0
        → WritesOwn W.sink T.becomes (T.writes W.sink.order value context) (T.answers value context)
        old (Ok tt) new
        → CountsBits C.value C.greatest T.becomes (T.writes High value context)
        (T.answers value context) bits
        → W.sink.len new ≡ W.sink.len old + n
        → IsNumberWithin C.value C.greatest T.becomes n bits }
{}

/// States the law of [`bits_are_those_appended`] for a type whose context is taken by value.
pub fn bits_using_a_context_are_those_appended<T: ToBitStreamUsing, C: Counter, W: BitWrite>()
    ensures { (value : T) (context : T.Context) (old new : W) (bits : Result C T.Error) (n : ℕ)
        → HasOneLength (λ o. T.writes o value context) → W.sink.len old % 8 ≡ 0
        → WritesOwn W.sink T.becomes (T.writes W.sink.order value context) (T.answers value context)
        old (Ok tt) new
        → CountsBits C.value C.greatest T.becomes (T.writes High value context)
        (T.answers value context) bits
        → W.sink.len new ≡ W.sink.len old + n
        → IsNumberWithin C.value C.greatest T.becomes n bits }
{}

/// If a value has the same number of bytes in both orders of bytes, `bytes` returns the number of
/// bytes that `to_writer` appends, or `CounterOverflow` if C cannot hold it.
pub fn bytes_are_those_appended<T: ToByteStream, C: Counter, W: ByteWrite>()
    ensures { (value : T) (old new : W) (bytes : Result C T.Error) (n : ℕ)
        → HasOneTotal (λ o. T.writes o value)
        → ByteWritesOwn W.sink T.becomes (T.writes W.sink.order value)
        (T.answers value) old (Ok tt) new
        → CountsBytes C.value C.greatest T.becomes (T.writes High value)
        (T.answers value) bytes
        → W.sink.len new ≡ W.sink.len old + n
        → IsNumberWithin C.value C.greatest T.becomes n bytes }
{}

/// States the law of [`bytes_are_those_appended`] for a type whose context is borrowed.
pub fn bytes_with_a_context_are_those_appended<T: ToByteStreamWith, C: Counter, W: ByteWrite>()
    ensures { (value : T) (context : T.Context) (old new : W) (bytes : Result C T.Error) (n : ℕ)
        → HasOneTotal (λ o. T.writes o value context)
        → ByteWritesOwn W.sink T.becomes (T.writes W.sink.order value context)
        (T.answers value context) old (Ok tt) new
        → CountsBytes C.value C.greatest T.becomes (T.writes High value context)
        (T.answers value context) bytes
        → W.sink.len new ≡ W.sink.len old + n
        → IsNumberWithin C.value C.greatest T.becomes n bytes }
{}

/// States the law of [`bytes_are_those_appended`] for a type whose context is taken by value.
pub fn bytes_using_a_context_are_those_appended<T: ToByteStreamUsing, C: Counter, W: ByteWrite>()
    ensures { (value : T) (context : T.Context) (old new : W) (bytes : Result C T.Error) (n : ℕ)
        → HasOneTotal (λ o. T.writes o value context)
        → ByteWritesOwn W.sink T.becomes (T.writes W.sink.order value context)
        (T.answers value context) old (Ok tt) new
        → CountsBytes C.value C.greatest T.becomes (T.writes High value context)
        (T.answers value context) bytes
        → W.sink.len new ≡ W.sink.len old + n
        → IsNumberWithin C.value C.greatest T.becomes n bytes }
{}
