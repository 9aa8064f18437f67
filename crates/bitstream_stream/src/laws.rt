//! Laws of the read table and the write table, and of every reader.
//!
//! The contract of each function is a law. Its body is empty.

ghost use Rattle.std.specs.Prelude.{◌≡◌, ℕ, ◌+◌, ◌*◌, ◌^◌, ◌<◌, ◌≤◌, ◌++◌, Bool, false, List, [], length, drop, Some, None, Result, Ok};
ghost use Rattle.bitstream_number.specs.Word.{Order, High, Low, bits as bits_of, bytes as bytes_in, count_width};
ghost use Rattle.bitstream_count.specs.Codec.{Decoder, Encoder, and_then, pure};
ghost use Rattle.bitstream_count.specs.declared.error.Error.{Error};
ghost use Rattle.bitstream_count.specs.declared.error.Error.TheVariants.{OutOfMemory, Stream};
ghost use Rattle.std.specs.declared.io.ErrorKind.TheVariants.{WriteZero};
ghost use Rattle.bitstream_order.specs.Reference.{capacity_of};
ghost use Rattle.bitstream_order.specs.Refusal.{Refusal, TrueEnds, AllLackRoom, MayRefuseSeek};
ghost use Rattle.bitstream_order.specs.Streaming.Slice.{slice_bytes, slice_place, slice_refuses_seek, slice_stream};
ghost use Rattle.bitstream_stream.specs.Reading.Enough.{IsDoneBy};
ghost use Rattle.bitstream_stream.specs.Reading.MemorySeek.{memory_bytes};
ghost use Rattle.bitstream_stream.specs.Reading.MemorySource.{memory_source};
ghost use Rattle.bitstream_stream.specs.Reading.Reads.{Reads, bits_left, sure_answer};
ghost use Rattle.bitstream_stream.specs.Reading.ReadTable.{bit_decoder, unsigned_decoder, signed_decoder, const_decoder, count_decoder, bytes_decoder, skip_decoder, align_decoder};
ghost use Rattle.bitstream_stream.specs.Reading.Seek.{reader_seeker, MaySeek, TellsRest};
ghost use Rattle.bitstream_stream.specs.Writing.Sink.{WriteRefused, WritesAll};
ghost use Rattle.bitstream_stream.specs.WholeBytes.ByteSink.{ByteWrites};
ghost use Rattle.bitstream_stream.specs.Writing.Room.{HasRoom, AllAccepted};
ghost use Rattle.bitstream_stream.specs.Sequence.{write_sequence};
ghost use Rattle.bitstream_stream.specs.Ways.{aligned_reader};
ghost use Rattle.bitstream_stream.specs.Writing.WriteTable.{unsigned, buffer};
ghost use Rattle.bitstream_stream.specs.Writing.Writer.{writer_state};

use crate::bytes::byte_write::ByteWrite;
use crate::read::BitRead;
use crate::read::reader::BitReader;
use crate::read::slice_reader::SliceReader;
use crate::write::BitWrite;
use crate::write::writer::BitWriter;
use bitstream_order::order::Endianness;
use bitstream_order::streams::growing::Growing;
use bitstream_order::streams::slice::Slice;
use bitstream_order::streams::slice_mut::SliceMut;
use bitstream_order::streams::source::Source;
use bitstream_order::streams::target::Target;
use std::alloc::Allocator;

/// Reading two consecutive numbers equals reading one number from the bits of both. The first
/// number is its high part in big-endian order, and its low part in little-endian order.
pub fn words_join()
    // Big-endian: two reads, the first as the high part, return what one read of both returns.
    ensures high { (size a b p : ℕ) (bits : List Bool) → a + b ≤ size →
        (and_then (unsigned_decoder High size a) (λ first.
        and_then (unsigned_decoder High size b) (λ second. pure (first * 2 ^ b + second)))).reads p bits
        ≡ (unsigned_decoder High size (a + b)).reads p bits }
    // Little-endian: two reads, the first as the low part, return what one read of both returns.
    ensures low { (size a b p : ℕ) (bits : List Bool) → a + b ≤ size →
        (and_then (unsigned_decoder Low size a) (λ first.
        and_then (unsigned_decoder Low size b) (λ second. pure (first + second * 2 ^ a)))).reads p bits
        ≡ (unsigned_decoder Low size (a + b)).reads p bits }
{}

/// Reading or writing the bytes of a number, in the order of the bits, equals reading or writing
/// the number by one call.
pub fn bytes_are_numbers()
    // A read of n bytes returns the bytes of the number that a read of 8 * n bits returns.
    ensures reads { (o : Order) (n p : ℕ) (bits : List Bool) →
        (and_then (unsigned_decoder o (8 * n) (8 * n)) (λ v. pure (bytes_in o n v))).reads p bits
        ≡ (bytes_decoder o n).reads p bits }
    // A write of the n bytes of a number equals a write of that number at 8 * n bits.
    ensures writes { (o : Order) (n v len : ℕ) → v < 2 ^ (8 * n) →
        buffer o (bytes_in o n v) len ≡ unsigned o (8 * n) (8 * n) v len }
{}

/// Dropping a reader's queue is an alignment. A reader that has failed is unchanged.
pub fn dropped_queues_are_alignments<R: Source, E: Endianness>()
    ensures { (reader : BitReader R E) → Reads ⟦<BitReader<R, E> as BitRead>⟧.source align_decoder
        reader (Ok tt) (aligned_reader reader) }
{}

/// If requests to the stream fail only at the end of its input, a call of any reader returns the
/// result for a prefix of the bits left, or `EndOfInput` if too few bits are left.
pub fn ends_are_known<R: BitRead, A>()
    ensures { (decoder : Decoder A) (old new : R) (answer : Result A Error) (bytes : List ℕ)
        → TrueEnds R.source.may
        → (R.source.state old).failed ≡ false → (R.source.state old).bytes ≡ Some bytes
        → Reads R.source decoder old answer new
        → answer ≡ sure_answer (decoder.reads (R.source.state old).taken
        ((R.source.state old).queue ++ bits_of R.source.order bytes)) }
{}

/// If requests to the stream fail only at the end of its input, a call that takes n bits, whatever
/// their values, completes if n bits are left. So one test of the number of bits left shows that no
/// read of them fails.
pub fn enough_bits_are_known<R: BitRead, A>()
    ensures { (decoder : Decoder A) (n : ℕ) (left : List Bool) (old new : R) (answer : Result A Error)
        → TrueEnds R.source.may → (R.source.state old).failed ≡ false
        → bits_left R.source.order (R.source.state old) ≡ Some left → n ≤ length left
        → IsDoneBy n decoder → Reads R.source decoder old answer new
        → (value : A) × (answer ≡ Ok value) × ((R.source.state new).failed ≡ false)
        × (bits_left R.source.order (R.source.state new) ≡ Some (drop n left)) }
{}

/// A call for an encoding of a known length completes if that number of bits is left. Two calls
/// complete if the sum of both lengths is left.
pub fn known_lengths_are_enough<A, B>()
    // One bit.
    ensures bit { IsDoneBy 1 bit_decoder }
    // A number of n bits that fits its type.
    ensures unsigned { (o : Order) (size n : ℕ) → n ≤ size → IsDoneBy n (unsigned_decoder o size n) }
    // A signed one, which has a bit for its sign.
    ensures signed { (o : Order) (size n : ℕ) → 0 < n → n ≤ size → IsDoneBy n (signed_decoder o size n) }
    // A comparison of n bits with a number.
    ensures constant { (o : Order) (n v : ℕ) → IsDoneBy n (const_decoder o n v) }
    // A count up to a maximum.
    ensures count { (o : Order) (max : ℕ) → IsDoneBy (count_width max) (count_decoder o max) }
    // Bytes.
    ensures bytes { (o : Order) (n : ℕ) → IsDoneBy (8 * n) (bytes_decoder o n) }
    // Bits that are skipped.
    ensures skip { (n : ℕ) → IsDoneBy n (skip_decoder n) }
    // A value that is read from no bits.
    ensures none { (value : A) → IsDoneBy 0 (pure value) }
    // One call, and then another.
    ensures both { (m n : ℕ) (first : Decoder A) (second : A → Decoder B) → IsDoneBy m first
        → ((value : A) → IsDoneBy n (second value)) → IsDoneBy (m + n) (and_then first second) }
{}

/// Requests to a [`Slice`] fail only at the end of its input.
pub fn slices_end<E: Endianness>()
    ensures { TrueEnds ⟦<BitReader<Slice<'static>, E> as BitRead>⟧.source.may }
{}

/// If requests to a writer's target fail only for lack of room, all calls of the writer complete if
/// they are accepted and there is room for their encodings.
pub fn rooms_are_known<W: Target, E: Endianness>()
    ensures { (encoders : List Encoder) (old new : BitWriter W E) (answer : Result (Unit {0}) Error)
        → AllLackRoom ⟦<BitWriter<W, E> as BitWrite>⟧.sink.may
        → ⟦<BitWriter<W, E> as BitWrite>⟧.sink.failed old ≡ false
        → AllAccepted encoders (⟦<BitWriter<W, E> as BitWrite>⟧.sink.len old)
        → HasRoom (writer_state W.stream old)
        (length (write_sequence encoders (⟦<BitWriter<W, E> as BitWrite>⟧.sink.len old)))
        → WritesAll ⟦<BitWriter<W, E> as BitWrite>⟧.sink encoders old answer new → answer ≡ Ok tt }
{}

/// If requests to a sink's stream fail only for lack of room, a write of bytes completes if there
/// is room.
pub fn rooms_of_bytes_are_known<W: ByteWrite, A>()
    ensures { (bytes held : List ℕ) (capacity : ℕ) (old new : W) (answer : Result A Error)
        → AllLackRoom W.sink.may → W.sink.limit ≡ None → W.sink.contents old ≡ Some held
        → capacity_of (W.sink.references old) ≡ Some capacity → length held + length bytes ≤ capacity
        → ByteWrites W.sink bytes old answer new → (done : A) × (answer ≡ Ok done) }
{}

/// Requests to a [`SliceMut`] fail only for lack of room.
pub fn slices_tell_their_room<E: Endianness>()
    ensures { AllLackRoom ⟦<BitWriter<SliceMut<'static>, E> as BitWrite>⟧.sink.may }
{}

/// A writer over a [`SliceMut`] fails if and only if it lacks room.
pub fn slices_lack_room<E: Endianness>()
    ensures { (old new : BitWriter SliceMut E) (x : List Bool) (error : Error) →
        WriteRefused ⟦<BitWriter<SliceMut<'static>, E> as BitWrite>⟧.sink old x error new
        → error ≡ Stream WriteZero }
{}

/// A writer over a [`Growing`] fails if and only if a memory allocation failed.
pub fn vectors_lack_memory<E: Endianness, A: Allocator>()
    ensures { (old new : BitWriter (Growing A) E) (x : List Bool) (error : Error) →
        WriteRefused ⟦<BitWriter<Growing<A>, E> as BitWrite>⟧.sink old x error new
        → error ≡ OutOfMemory }
{}

/// The bytes left of a [`Slice`] are the bytes after its place.
pub fn slices_tell_their_rest<E: Endianness>()
    ensures { TellsRest (reader_seeker ⟦<BitReader<Slice<'static>, E> as BitRead>⟧.source
        (λ slice. Some (slice_place slice)) (λ slice. Some (slice_bytes slice))
        (MayRefuseSeek slice_stream slice_refuses_seek)) }
{}

/// The seek requests that a reader makes to a [`Slice`] never fail.
pub fn slices_refuse_no_seek()
    ensures { (refusal : Refusal) → MaySeek (MayRefuseSeek slice_stream slice_refuses_seek) refusal → ⊥ }
{}

/// Requests of a reader of bytes in memory fail only at the end of its input.
pub fn memory_ends<E: Endianness>()
    ensures { TrueEnds ⟦<SliceReader<'static, E> as BitRead>⟧.source.may }
{}

/// The bytes left of a reader of bytes in memory are the bytes after its place. If it has not
/// failed, its bits left are the bits after its place.
pub fn memory_tells_its_rest<E: Endianness>()
    // The bytes left are the bytes after the fetched ones.
    ensures bytes { (reader : SliceReader E) → ((memory_source E.order).state reader).bytes
        ≡ Some (drop ((memory_source E.order).state reader).fetched (memory_bytes reader)) }
    // Unless the reader has failed, the bits left are the bits after the bits taken.
    ensures bits { (reader : SliceReader E) → ((memory_source E.order).state reader).failed ≡ false
        → bits_left E.order ((memory_source E.order).state reader)
        ≡ Some (drop ((memory_source E.order).state reader).taken (bits_of E.order (memory_bytes reader))) }
{}
