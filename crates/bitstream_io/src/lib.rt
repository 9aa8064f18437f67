//! Reads and writes values of any number of bits, in either order of bits.
//!
//! Ported from `bitstream-io` 4.10.0 by Brian Langenberger; MIT OR Apache-2.0, see `LICENSE`.
//!
//! The items are in these modules, by subject. The root of the crate exports most of them too:
//!
//! - [`compat`]: the current calls under their older names
//! - [`golomb`]: exponential Golomb numbers
//! - [`script`]: calls as values, and lists of calls that are made in order
//! - [`symbols`]: many symbols of a prefix code, read by a table or written by an array
//! - [`error`]: the error of a call
//! - [`number`]: integer types as numbers, and numbers of bits as types
//! - [`count`]: counts of bits, and values that are known to fit a count
//! - [`integer`]: types whose values are read and written as bits
//! - [`huffman`]: prefix codes
//! - [`order`]: the two orders of bits
//! - [`read`]: reading bits: the readers, their calls, their sources, and types that are read
//! - [`write`]: writing bits: the writer, counters and recorders, their calls, their targets, and
//!   types that are written
//! - [`bytes`]: reading and writing whole bytes
//! - [`laws`]: laws of the definitions: one function each, whose contract is the law
//!
//! # Examples
//!
//! ```
//! use bitstream_io::{BE, BitReadExt, BitReader, Bits};
//!
//! let bytes = [0xbe, 0xff, 0xff, 0x80];
//! let mut reader = BitReader::<_, BE>::over(&bytes);
//! let kind = reader.read::<Bits<3>, u8>()?;
//! let level = reader.read::<Bits<5>, i8>()?;
//! let size: u32 = reader.read_var(17)?;
//! assert_eq!(rt; (kind, level, size), (5, -2, 131071));
//! ```
#![tactic(auto)]

mod blockwise;
mod buffered;
pub mod compat;
pub mod golomb;
pub mod script;
pub mod symbols;

/// The error of a call.
pub mod error {
    pub use bitstream_count::error::Error;
}

/// Integer types as numbers, and numbers of bits as types.
pub mod number {
    pub use bitstream_number::number::{
        Bits, Buffer, Numeric, Primitive, SignedInteger, UnsignedInteger, Width,
    };
}

/// Counts of bits, and values that are known to fit a count.
pub mod count {
    pub use bitstream_count::count::{
        BitCount, Checked, CheckedError, CheckedSigned, CheckedSignedFixed, CheckedUnsigned,
        CheckedUnsignedFixed, Count, FixedBitCount, FixedSignedBitCount, Holds, LsbMask,
        SignedBitCount, SignedCount,
    };
    pub use bitstream_value::checked::{Checkable, CheckablePrimitive};
}

/// Types whose values are read and written as bits.
pub mod integer {
    pub use bitstream_value::integer::{Integer, VBRInteger};
}

/// Prefix codes: each symbol has a code word of bits, and no code word is a prefix of another.
pub mod huffman {
    pub use bitstream_value::huffman::{
        CodeWord, FromBits, HuffmanTree, LimitedUnary, NextBit, PutBit, SymbolWords, ToBits,
    };
}

/// The two orders of bits.
pub mod order {
    pub use bitstream_order::order::{BE, BigEndian, Endianness, LE, LittleEndian};
}

/// Reading bits.
pub mod read {
    pub use crate::buffered::Buffered;
    pub use bitstream_order::streams::lent::Lent;
    pub use bitstream_order::streams::seek::SeekSource;
    pub use bitstream_order::streams::slice::Slice;
    pub use bitstream_order::streams::source::Source;
    pub use bitstream_stream::read::BitRead;
    pub use bitstream_stream::read::place::bit_place;
    pub use bitstream_stream::read::reader::BitReader;
    pub use bitstream_stream::read::slice_reader::SliceReader;
    pub use bitstream_value::parse::{FromBitStream, FromBitStreamUsing, FromBitStreamWith};
    pub use bitstream_value::read::BitReadExt;
}

/// Writing bits.
pub mod write {
    pub use crate::blockwise::Blockwise;
    pub use bitstream_order::streams::growing::Growing;
    pub use bitstream_order::streams::lent::Lent;
    pub use bitstream_order::streams::slice_mut::SliceMut;
    pub use bitstream_order::streams::target::Target;
    pub use bitstream_sink::bit_counter::BitCounter;
    pub use bitstream_sink::counter::{Counter, Overflowed};
    pub use bitstream_sink::recorder::BitRecorder;
    pub use bitstream_sink::recorder::best::Recorder;
    pub use bitstream_sink::written::BitsWritten;
    pub use bitstream_stream::write::BitWrite;
    pub use bitstream_stream::write::writer::BitWriter;
    pub use bitstream_value::build::{ToBitStream, ToBitStreamUsing, ToBitStreamWith};
    pub use bitstream_value::pack::pack_into;
    pub use bitstream_value::write::BitWriteExt;
}

/// Reading and writing whole bytes.
pub mod bytes {
    pub use bitstream_stream::bytes::byte_read::ByteRead;
    pub use bitstream_stream::bytes::byte_reader::ByteReader;
    pub use bitstream_stream::bytes::byte_write::ByteWrite;
    pub use bitstream_stream::bytes::byte_writer::ByteWriter;
    pub use bitstream_value::byte_build::{ToByteStream, ToByteStreamUsing, ToByteStreamWith};
    pub use bitstream_value::byte_parse::{
        FromByteStream, FromByteStreamUsing, FromByteStreamWith,
    };
    pub use bitstream_value::byte_read::ByteReadExt;
    pub use bitstream_value::byte_write::ByteWriteExt;
}

/// Laws of the definitions: one function each, whose contract is the law.
pub mod laws {
    pub use crate::golomb::{signed_golomb_numbers_round_trip, unsigned_golomb_numbers_round_trip};
    pub use crate::script::laws::{
        appending_composes, calls_have_values_of_their_types, lists_of_reads_are_known,
        played_calls_are_direct_calls, words_have_one_length, write_sequences_join,
        written_calls_are_read, written_calls_round_trip, written_parts_are_read,
        written_values_are_read, written_words_are_read,
    };
    pub use bitstream_count::laws::{
        counts_hash_as_their_numbers, counts_round_trip, equal_counts_are_equal_numbers,
        equal_signed_counts_are_equal_numbers, fixed_counts_round_trip,
        fixed_signed_counts_round_trip, signed_counts_hash_as_their_numbers,
        signed_counts_round_trip, unary_words_alone_are_read, unary_words_begin_no_other,
        unary_words_read_back, variable_width_words_alone_are_read,
        variable_width_words_are_shortest, variable_width_words_are_the_only_ones,
        variable_width_words_begin_no_other, variable_width_words_read_back,
    };
    pub use bitstream_number::laws::{
        bytes_are_words, masks_are_remainders, ors_are_sums, shifts_past_the_size_are_zero,
        signed_bytes_round_trip, signed_shifts_round_down, unsigned_bytes_round_trip,
        values_round_trip, words_hold_numbers, words_split, zigzags_round_trip,
    };
    pub use bitstream_sink::recorder::laws::{recorders_lack_memory, recordings_grow};
    pub use bitstream_stream::laws::{
        bytes_are_numbers, dropped_queues_are_alignments, ends_are_known, enough_bits_are_known,
        known_lengths_are_enough, memory_ends, memory_tells_its_rest, rooms_are_known,
        rooms_of_bytes_are_known, slices_end, slices_lack_room, slices_refuse_no_seek,
        slices_tell_their_rest, slices_tell_their_room, vectors_lack_memory, words_join,
    };
    pub use bitstream_value::laws::{
        bits_are_those_appended, bits_using_a_context_are_those_appended,
        bits_with_a_context_are_those_appended, bytes_are_those_appended,
        bytes_using_a_context_are_those_appended, bytes_with_a_context_are_those_appended,
        limited_runs_are_paths, paths_are_read, symbols_have_words,
    };
}

pub use bytes::{
    ByteRead, ByteReadExt, ByteReader, ByteWrite, ByteWriteExt, ByteWriter, FromByteStream,
    FromByteStreamUsing, FromByteStreamWith, ToByteStream, ToByteStreamUsing, ToByteStreamWith,
};
pub use compat::{BitRead2, BitWrite2};
pub use count::{
    BitCount, Checkable, CheckablePrimitive, Checked, CheckedError, CheckedSigned,
    CheckedSignedFixed, CheckedUnsigned, CheckedUnsignedFixed, Count, FixedBitCount,
    FixedSignedBitCount, Holds, LsbMask, SignedBitCount, SignedCount,
};
pub use error::Error;
pub use integer::{Integer, VBRInteger};
pub use number::{Bits, Buffer, Numeric, Primitive, SignedInteger, UnsignedInteger, Width};
pub use order::{BE, BigEndian, Endianness, LE, LittleEndian};
pub use read::{
    BitRead, BitReadExt, BitReader, Buffered, FromBitStream, FromBitStreamUsing, FromBitStreamWith,
    Lent, SeekSource, Slice, SliceReader, Source,
};
pub use symbols::{IndexedSymbol, IndexedWords, ReadSymbols, SymbolTable};
pub use write::{
    BitCounter, BitRecorder, BitWrite, BitWriteExt, BitWriter, BitsWritten, Blockwise, Growing,
    Recorder, SliceMut, Target, ToBitStream, ToBitStreamUsing, ToBitStreamWith, pack_into,
};
