//! The laws of calls and of lists of calls, on any reader or sink.

ghost use Rattle.std.specs.Prelude.{◌≡◌, ◌⊎◌, ◌+◌, ◌-◌, ◌%◌, ◌^◌, ◌<◌, ◌≤◌, ◌++◌, ℕ, ℤ, pos, Bool, true, false, List, [], ◌∷◌, length, Option, None, Some, IfSome, Result};
ghost use Rattle.std.specs.List.{All, flat_map};
ghost use Rattle.bitstream_number.specs.Word.{Order, FitsSignedBits, bits as bits_of, word, signed_word};
ghost use Rattle.bitstream_count.specs.Codec.{Decoder, Encoder, and_then};
ghost use Rattle.bitstream_count.specs.declared.error.Error.{Error};
ghost use Rattle.bitstream_order.specs.Refusal.{TrueEnds};
ghost use Rattle.bitstream_stream.specs.Reading.ReadTable.{bit_decoder, unsigned_decoder, signed_decoder, const_decoder, unary_decoder, count_decoder, vbr_decoder, any_vbr_decoder, signed_vbr_decoder, any_signed_vbr_decoder, bytes_decoder, skip_decoder};
ghost use Rattle.bitstream_stream.specs.Sequence.{read_sequence, write_sequence, write_refusals};
ghost use Rattle.bitstream_stream.specs.Writing.WriteTable.{plain, bit, unsigned, signed, unary_word, count, vbr, signed_vbr, buffer, zeros};
ghost use Rattle.bitstream_value.specs.Array.{items_decoder};
ghost use Rattle.bitstream_value.specs.Boolean.{truth_decoder, truth};
ghost use Rattle.bitstream_value.specs.Checked.{checked_decoder, signed_checked_decoder};
ghost use Rattle.bitstream_value.specs.LimitedUnary.{limited_unary, limited_tree};
ghost use Rattle.bitstream_value.specs.NonZero.{non_zero_decoder, non_zero, non_zero_vbr_decoder, if_any, option_decoder, option_vbr_decoder};
ghost use Rattle.bitstream_value.specs.Tree.{Tree, first_path, path_decoder, bit_by_bit};
ghost use Rattle.bitstream_io.specs.Script.{write_encoder, write_encoders, word_size, AlignsNowhere};
ghost use Rattle.bitstream_io.specs.ReadBack.{IsReadAs, IsCall, accepted_calls, matching_reads, value_in, answers_of, StandsBefore};
ghost use Rattle.bitstream_io.specs.ReadScript.{read_decoders, ReadsEach, sequence_answers, place_behind, sure_answers, AsksNoMemory};
ghost use Rattle.bitstream_io.specs.declared.script.answers.Answer.{Answer};
ghost use Rattle.bitstream_io.specs.declared.script.read_call.ReadCall.{ReadCall};

use crate::script::write_call::WriteCall;
use bitstream_stream::read::BitRead;
use bitstream_stream::write::BitWrite;

/// The encoding of a call has the same length in both orders of bits. A call that is rejected in one order
/// is rejected in the other, with the same error.
pub fn words_have_one_length()
    ensures { (o p : Order) (call : WriteCall) (len : ℕ)
        → word_size (write_encoder o call len) ≡ word_size (write_encoder p call len) }
{}

/// A list of calls appends the same bits after other bits as to a new sink, if no call is an
/// alignment or the bits end at a byte boundary. So a recording of the calls, played back, appends
/// the same bits as the calls themselves.
pub fn played_calls_are_direct_calls()
    ensures { (o : Order) (calls : List WriteCall) (len : ℕ)
        → AlignsNowhere calls ⊎ (len % 8 ≡ 0)
        → write_sequence (write_encoders None o calls) len ≡ write_sequence (write_encoders None o calls) 0 }
{}

/// Making the calls of two lists, one after the other, is the same as making the calls of the
/// joined list.
pub fn write_sequences_join()
    // The encodings of the first list come first, and then the encodings of the second, from the length
    // reached.
    ensures words { (o : Order) (first second : List WriteCall) (len : ℕ)
        → let words = write_sequence (write_encoders None o first) len in
        write_sequence (write_encoders None o (first ++ second)) len
        ≡ words ++ write_sequence (write_encoders None o second) (len + length words) }
    // The results of the first list come first, and then the results of the second.
    ensures answers { (o : Order) (first second : List WriteCall) (len : ℕ)
        → let words = write_sequence (write_encoders None o first) len in
        write_refusals (write_encoders None o (first ++ second)) len
        ≡ write_refusals (write_encoders None o first) len
        ++ write_refusals (write_encoders None o second) (len + length words) }
{}

/// Appending bits and then more bits is the same as appending all of them at once, on every sink.
pub fn appending_composes<W: BitWrite>()
    ensures { (old mid new : W) (first second : List Bool)
        → W.sink.appends old first mid → W.sink.appends mid second new
        → W.sink.appends old (first ++ second) new }
{}

/// If the stream fails only at the end of its bytes, as a `Slice` does, its bytes decide what a
/// list of reads that do not allocate returns: the results of the read sequence, then `EndOfInput`,
/// and then `Failed`.
pub fn lists_of_reads_are_known<R: BitRead>()
    ensures { (calls : List ReadCall) (old new : R)
        (answers : List (Option (Result Answer Error))) (bytes : List ℕ)
        → TrueEnds R.source.may → AsksNoMemory calls
        → (R.source.state old).failed ≡ false → (R.source.state old).bytes ≡ Some bytes
        → ReadsEach R.source calls old answers new
        → answers ≡ sure_answers R.source.order calls
        (read_sequence (read_decoders R.source.order calls) (R.source.state old).taken
        ((R.source.state old).queue ++ bits_of R.source.order bytes)) }
{}

/// The matching reads of the accepted calls return the values written (0 for a field of 0 bits), whatever bits
/// follow. The reads begin at the same position in a byte as the writes, though the numbers of bits before them may
/// differ.
pub fn written_calls_are_read()
    // The matching reads of the accepted calls return the values that the calls wrote.
    ensures answers { (o : Order) (calls : List WriteCall) (len p : ℕ) (more : List Bool)
        → All IsCall calls → p % 8 ≡ len % 8
        → let kept = accepted_calls o calls len in
        sequence_answers (read_sequence (read_decoders o (matching_reads kept)) p
        (write_sequence (write_encoders None o calls) len ++ more)) ≡ answers_of kept }
    // They take only the bits that were written.
    ensures place { (o : Order) (calls : List WriteCall) (len p : ℕ) (more : List Bool)
        → All IsCall calls → p % 8 ≡ len % 8
        → let words = write_sequence (write_encoders None o calls) len in
        place_behind p (read_sequence (read_decoders o (matching_reads (accepted_calls o calls len))) p
        (words ++ more)) ≡ p + length words }
{}

/// Suppose that the stream fails only at the end of its bytes, as a `Slice` does, and that the bits
/// left begin with the encodings of the accepted calls. Then matching reads that do not allocate
/// return every value that was written.
pub fn written_calls_round_trip<R: BitRead>()
    ensures { (written : List WriteCall) (len : ℕ) (old new : R)
        (answers : List (Option (Result Answer Error)))
        → let kept = accepted_calls R.source.order written len in
        TrueEnds R.source.may → AsksNoMemory (matching_reads kept) → All IsCall written
        → (R.source.state old).failed ≡ false → StandsBefore R.source written len old
        → ReadsEach R.source (matching_reads kept) old answers new
        → answers ≡ answers_of kept }
{}

/// The read of the same name and width reads back the value that a call writes, at any place and
/// whatever follows. A number that was written in 0 bits is read as 0. A number of variable width
/// is read back by the lenient read too.
pub fn written_words_are_read()
    // A bit is read back.
    ensures bit { (b : Bool) → IsReadAs (bit b ∷ []) bit_decoder b }
    // A number that fits n bits of its type is read back. A number written in 0 bits is read as 0.
    ensures unsigned { (o : Order) (size n v : ℕ) → n ≤ size → (v < 2 ^ n) ⊎ (n ≡ 0)
        → IsReadAs (unsigned o size n v ∷ []) (unsigned_decoder o size n) (value_in n v) }
    // A signed number that fits n bits of its type, where n is not 0, is read back.
    ensures signed { (o : Order) (size n : ℕ) (x : ℤ) → 0 < n → n ≤ size → FitsSignedBits n x
        → IsReadAs (signed o size n x ∷ []) (signed_decoder o size n) x }
    // A constant that fits its bits is read back.
    ensures constant { (o : Order) (n v : ℕ) → v < 2 ^ n
        → IsReadAs (plain (word o n v) ∷ []) (const_decoder o n v) true }
    // A unary number below 2^32 is read back, with either stop bit.
    ensures unary { (stop : Bool) (k : ℕ) → k < 2 ^ 32
        → IsReadAs (unary_word stop k ∷ []) (unary_decoder stop) k }
    // A count up to its greatest number is read back.
    ensures count { (o : Order) (max n : ℕ) → n ≤ max
        → IsReadAs (count o max n ∷ []) (count_decoder o max) n }
    // Bytes are read back by a read of the same number of bytes.
    ensures bytes { (o : Order) (bytes : List ℕ) → All (λ b. b < 256) bytes
        → IsReadAs (buffer o bytes ∷ []) (bytes_decoder o (length bytes)) bytes }
    // A skip of n bits takes only the n zeros that were written.
    ensures skip { (n : ℕ) → IsReadAs (zeros n ∷ []) (skip_decoder n) tt }
    // A number of the type below the limit is read back from its groups by the strict read.
    ensures vbr { (o : Order) (field size limit v : ℕ) → 2 ≤ field → 0 < size → limit ≤ 2 ^ size
        → v < limit → IsReadAs (vbr o field v ∷ []) (vbr_decoder o field size limit) v }
    // It is read back by the lenient read, too.
    ensures any_vbr { (o : Order) (field size limit v : ℕ) → 2 ≤ field → 0 < size → limit ≤ 2 ^ size
        → v < limit → IsReadAs (vbr o field v ∷ []) (any_vbr_decoder o field size limit) v }
    // A signed number that fits `size` bits is read back from its groups by the strict read.
    ensures signed_vbr { (o : Order) (field size : ℕ) (x : ℤ) → 2 ≤ field → 0 < size
        → FitsSignedBits size x
        → IsReadAs (signed_vbr o field x ∷ []) (signed_vbr_decoder o field size) x }
    // It is read back by the lenient read, too.
    ensures any_signed_vbr { (o : Order) (field size : ℕ) (x : ℤ) → 2 ≤ field → 0 < size
        → FitsSignedBits size x
        → IsReadAs (signed_vbr o field x ∷ []) (any_signed_vbr_decoder o field size) x }
{}

/// A `bool`, a `NonZero`, an `Option` of a `NonZero`, a checked value, an array or a symbol is read back from
/// the encodings of its writes, at any place and whatever follows. In 0 bits a `NonZero` is read as 1, and an
/// `Option` as `None`.
pub fn written_values_are_read<A>()
    // A `bool` is read back from one bit.
    ensures bool { (b : Bool) → IsReadAs (truth 1 b ∷ []) (truth_decoder 1) b }
    // A `NonZero` is read back if its number minus 1 fits n bits, and its type has more than n bits. A
    // `NonZero` written in 0 bits is read as 1.
    ensures non_zero { (after : ℕ → A) (o : Order) (size n v : ℕ) → n < size
        → (v - 1 < 2 ^ n) ⊎ (n ≡ 0)
        → IsReadAs (non_zero o size n v ∷ []) (non_zero_decoder after o size n)
        (after (value_in n (v - 1))) }
    // An `Option` of a `NonZero` whose number fits n bits of its type is read back. An `Option`
    // written in 0 bits is read as `None`.
    ensures option { (after : ℕ → A) (o : Order) (size n v : ℕ) → n ≤ size
        → (v < 2 ^ n) ⊎ (n ≡ 0)
        → IsReadAs (unsigned o size n v ∷ []) (option_decoder after o size n)
        (if_any after (value_in n v)) }
    // A `NonZero` that fits `size` bits is read back from its groups.
    ensures non_zero_vbr { (after : ℕ → A) (o : Order) (field size v : ℕ) → 2 ≤ field → 0 < size
        → v - 1 < 2 ^ size - 1
        → IsReadAs (vbr o field (v - 1) ∷ []) (non_zero_vbr_decoder after o field size)
        (after (v - 1)) }
    // An `Option` of a `NonZero` that fits `size` bits is read back from its groups.
    ensures option_vbr { (after : ℕ → A) (o : Order) (field size v : ℕ) → 2 ≤ field → 0 < size
        → v < 2 ^ size
        → IsReadAs (vbr o field v ∷ []) (option_vbr_decoder after o field size) (if_any after v) }
    // A checked number is read back with its count.
    ensures checked { (count : A) (o : Order) (size n v : ℕ) → n ≤ size → v < 2 ^ n
        → IsReadAs (plain (word o n v) ∷ []) (checked_decoder count o size n) (count, pos v) }
    // A checked signed number is read back with its count.
    ensures signed_checked { (count : A) (o : Order) (size n : ℕ) (x : ℤ) → 0 < n → n ≤ size
        → FitsSignedBits n x
        → IsReadAs (plain (signed_word o n x) ∷ []) (signed_checked_decoder count o size n) (count, x) }
    // An array is read back if each of its items is.
    ensures array { (decoder : Decoder A) (writes : A → List Encoder) (items : List A)
        → All (λ x. IsReadAs (writes x) decoder x) items
        → IsReadAs (flat_map writes items) (items_decoder decoder (length items)) items }
    // A symbol that has a code word is read back as an equal symbol.
    ensures symbol { (same : A → A → Bool) (t : Tree A) (s : A) (w : List Bool)
        → first_path same t s ≡ Some w
        → (x : A) × (same x s ≡ true) × IsReadAs (bit_by_bit w) (path_decoder t) x }
    // `None`, or a number below the maximum, is read back.
    ensures limited_unary { (stop : Bool) (most : ℕ) (v : Option ℕ) → IfSome v (λ k. k < most)
        → IsReadAs (bit_by_bit (limited_unary stop most v)) (path_decoder (limited_tree stop 0 most)) v }
{}

/// If one read reads back the encodings of some calls, and a second read the encodings of others, then the
/// two reads, one after the other, read back the encodings of all these calls.
pub fn written_parts_are_read<A, B>()
    ensures { (first : Decoder A) (next : A → Decoder B) (a : A) (b : B)
        (writes others : List Encoder)
        → IsReadAs writes first a → IsReadAs others (next a) b
        → IsReadAs (writes ++ others) (and_then first next) b }
{}

/// The values of calls are values of their types, as the laws on lists of calls require.
pub fn calls_have_values_of_their_types(calls: &[WriteCall])
    ensures { All IsCall calls.now }
{
    for call in calls.iter() {
        has_values_of_its_types(call);
    }
}

/// The values of one call are values of their types.
fn has_values_of_its_types(call: &WriteCall)
    ensures { IsCall call.now }
{
    match call {
        WriteCall::Unary0(number) | WriteCall::Unary1(number) => {
            let _number = *number;
        }
        WriteCall::Vbr4(number) | WriteCall::Vbr8(number) => {
            let _number = *number;
        }
        WriteCall::SignedVbr4(number) | WriteCall::SignedVbr8(number) => {
            let _number = *number;
        }
        WriteCall::Bytes(bytes) => are_bytes(bytes.as_slice()),
        _ => {}
    }
}

/// Each byte is below 256.
fn are_bytes(bytes: &[u8])
    ensures { All (λ b. b < 256) bytes.now }
{}
