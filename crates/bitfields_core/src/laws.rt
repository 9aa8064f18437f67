//! Laws of layouts and values, whatever parses or packs them.

ghost use Rattle.std.specs.Prelude.{◌≡◌, ◌≢◌, ◌++◌, ◌+◌, ◌*◌, ◌^◌, ◌<◌, ◌≤◌, ℕ, Bool, false, List, [], ◌∷◌, length, take, drop, map, replicate, Option, None, Ok, Err};
ghost use Rattle.std.specs.List.{All};
ghost use Rattle.bitstream_io.specs.Word.{Order, bits, word, number};
ghost use Rattle.bitstream_io.specs.Alignment.{to_boundary};
ghost use Rattle.bitstream_io.specs.Codec.{Incomplete, Done};
ghost use Rattle.bitstream_io.specs.Error.{Error};
ghost use Rattle.bitstream_io.specs.Sequence.{write_sequence, write_refusals, read_sequence};
ghost use Rattle.bitstream_io.specs.WriteTable.{align};
ghost use Rattle.bitfields_core.specs.Fault.{fault};
ghost use Rattle.bitfields_core.specs.Layout.{layout_of, layout_text, IsField, IsLayout};
ghost use Rattle.bitfields_core.specs.Packing.{packed_bits, field_word, field_writes};
ghost use Rattle.bitfields_core.specs.Repacking.{HasOneWord, unpack_aligned};
ghost use Rattle.bitfields_core.specs.Size.{size_of};
ghost use Rattle.bitfields_core.specs.Unpacking.{unpack_bits, Unpacks, Stops, values_and, field_read, read_reason, unpack_answers};
ghost use Rattle.bitfields_core.specs.Value.{lines, values, printed_lines, ended_lines, value_count, value_list, Fit, FitsField};

use crate::fault::Reason;
use crate::field::Field;
use crate::field_value::FieldValue;

/// The texts of fields, joined by commas, spell these fields, and no other text spells them.
pub fn layouts_are_spelt()
    ensures spelt { (fields : List Field) → IsLayout fields
        → layout_of (layout_text fields) ≡ Ok fields }
    ensures only { (text : List ℕ) (fields : List Field) → layout_of text ≡ Ok fields
        → IsLayout fields × (layout_text fields ≡ text) }
{}

/// Values parsed from lines fit their fields. If values fit, the lines printed for them parse to
/// the same values.
pub fn values_are_spelt()
    ensures fit { (k : ℕ) (fields : List Field) (rest : List (List ℕ)) (vs : List FieldValue)
        → values k fields rest ≡ Ok vs → Fit fields vs }
    ensures spelt { (k : ℕ) (fields : List Field) (vs : List FieldValue)
        → All IsField fields → Fit fields vs
        → values k fields (lines (printed_lines vs)) ≡ Ok vs }
{}

/// Values that fit are unpacked from their packed bits, whatever bits follow.
pub fn packed_values_are_unpacked()
    ensures { (o : Order) (k : ℕ) (fields : List Field) (vs : List FieldValue) (at : ℕ) (rest : List Bool)
        → All IsField fields → Fit fields vs
        → (let written = write_sequence (field_writes o fields vs) at in
        unpack_bits o k fields at (written ++ rest) ≡ Unpacks vs (at + length written)) }
{}

/// The packed bits of an input's values are unpacked as the lines of this input, each ended by LF.
pub fn packed_lines_are_unpacked()
    ensures { (o : Order) (fields : List Field) (input : List ℕ) (vs : List FieldValue) (bytes : List ℕ)
        → IsLayout fields → values 1 fields (lines input) ≡ Ok vs → bits o bytes ≡ packed_bits o fields vs 0
        → (unpack_bits o 1 fields 0 (bits o bytes)
        ≡ Unpacks vs (length (write_sequence (field_writes o fields vs) 0)))
        × (printed_lines vs ≡ ended_lines (lines input)) }
{}

/// Packing makes the fields' write calls, none of which is rejected, and a last alignment.
pub fn packing_is_a_write_sequence()
    ensures words { (o : Order) (fields : List Field) (vs : List FieldValue) (at : ℕ)
        → write_sequence (field_writes o fields vs ++ align ∷ []) at ≡ packed_bits o fields vs at }
    ensures accepted { (o : Order) (fields : List Field) (vs : List FieldValue) (at : ℕ)
        → All IsField fields → Fit fields vs
        → All (λ r. r ≡ None) (write_refusals (field_writes o fields vs ++ align ∷ []) at) }
{}

/// Packing writes `size` bits, and then zeros up to the next byte boundary. Values
/// that fit have one size in both orders of bits, and at most 2^40 bits.
pub fn packed_values_have_their_size()
    ensures bits { (o : Order) (fields : List Field) (vs : List FieldValue)
        → packed_bits o fields vs 0
        ≡ write_sequence (field_writes o fields vs) 0 ++ replicate (to_boundary (size_of o fields vs)) false }
    ensures bytes { (o : Order) (fields : List Field) (vs : List FieldValue) (bytes : List ℕ)
        → bits o bytes ≡ packed_bits o fields vs 0
        → 8 * length bytes ≡ size_of o fields vs + to_boundary (size_of o fields vs) }
    ensures order { (o p : Order) (fields : List Field) (vs : List FieldValue)
        → IsLayout fields → Fit fields vs → size_of o fields vs ≡ size_of p fields vs }
    ensures most { (o : Order) (fields : List Field) (vs : List FieldValue)
        → IsLayout fields → Fit fields vs → size_of o fields vs ≤ 2 ^ 40 }
{}

/// Unpacking makes the fields' read calls, up to the first call for which too few bits are left.
pub fn unpacking_is_a_read_sequence()
    ensures { (o : Order) (k : ℕ) (fields : List Field) (at : ℕ) (bits : List Bool)
        → unpack_bits o k fields at bits
        ≡ unpack_answers k fields at (read_sequence (map (field_read o) fields) at bits) }
{}

/// The packed bits are the fields' encodings, one after the other, with zeros up to the next byte
/// boundary at the end.
pub fn packing_goes_by_fields()
    ensures word { (o : Order) (f : Field) (fields : List Field) (vs : List FieldValue) (at : ℕ)
        → IsField f → FitsField f vs → (let written = field_word o f vs at in
        packed_bits o (f ∷ fields) vs at
        ≡ written ++ packed_bits o fields (drop (value_count f) vs) (at + length written)) }
    ensures number { (o : Order) (n v : ℕ) (fields : List Field) (vs : List FieldValue) (at : ℕ)
        → n ≤ 128 → v < 2 ^ n
        → packed_bits o (Field.Unsigned n ∷ fields) (FieldValue.Unsigned v ∷ vs) at
        ≡ word o n v ++ packed_bits o fields vs (at + n) }
    ensures align { (o : Order) (fields : List Field) (vs : List FieldValue) (at : ℕ)
        → packed_bits o (Field.Align ∷ fields) vs at
        ≡ replicate (to_boundary at) false ++ packed_bits o fields vs (at + to_boundary at) }
    ensures end { (o : Order) (at : ℕ) → packed_bits o [] [] at ≡ replicate (to_boundary at) false }
{}

/// Unpacking the encoding of a field gives its value, which its read call returns. If the call
/// returns an error, the fault has the reason for that error. If it returns a reason, the fault has
/// that reason. If too few bits are left, the reason is `BitsEnded`. An unsigned field is the number
/// that its bits encode. The bits of an alignment may have any value. The bits of a constant must hold its
/// number.
pub fn unpacking_goes_by_fields()
    ensures word { (o : Order) (k : ℕ) (f : Field) (fields : List Field) (vs : List FieldValue) (at : ℕ)
        (rest : List Bool) → IsField f → FitsField f vs → (let written = field_word o f vs at in
        unpack_bits o k (f ∷ fields) at (written ++ rest)
        ≡ values_and (take (value_count f) vs) (unpack_bits o (k + 1) fields (at + length written) rest)) }
    ensures value { (o : Order) (k : ℕ) (f : Field) (fields : List Field) (at : ℕ) (w rest : List Bool)
        (v : Option FieldValue) → (field_read o f).reads at (w ++ rest) ≡ Done (length w) (Ok (Ok v))
        → unpack_bits o k (f ∷ fields) at (w ++ rest)
        ≡ values_and (value_list v) (unpack_bits o (k + 1) fields (at + length w) rest) }
    ensures reason { (o : Order) (k : ℕ) (f : Field) (fields : List Field) (at n : ℕ) (bits : List Bool)
        (why : Reason) → (field_read o f).reads at bits ≡ Done n (Ok (Err why))
        → unpack_bits o k (f ∷ fields) at bits ≡ Stops (fault k why) }
    ensures error { (o : Order) (k : ℕ) (f : Field) (fields : List Field) (at n : ℕ) (bits : List Bool)
        (e : Error) → (field_read o f).reads at bits ≡ Done n (Err e)
        → unpack_bits o k (f ∷ fields) at bits ≡ Stops (fault k (read_reason e)) }
    ensures incomplete { (o : Order) (k : ℕ) (f : Field) (fields : List Field) (at : ℕ) (bits : List Bool)
        → (field_read o f).reads at bits ≡ Incomplete
        → unpack_bits o k (f ∷ fields) at bits ≡ Stops (fault k Reason.BitsEnded) }
    ensures number { (o : Order) (k n : ℕ) (fields : List Field) (at : ℕ) (w rest : List Bool)
        → n ≤ 128 → length w ≡ n
        → unpack_bits o k (Field.Unsigned n ∷ fields) at (w ++ rest)
        ≡ values_and (FieldValue.Unsigned (number o w) ∷ []) (unpack_bits o (k + 1) fields (at + n) rest) }
    ensures align { (o : Order) (k : ℕ) (fields : List Field) (at : ℕ) (w rest : List Bool)
        → length w ≡ to_boundary at
        → unpack_bits o k (Field.Align ∷ fields) at (w ++ rest)
        ≡ unpack_bits o (k + 1) fields (at + to_boundary at) rest }
    ensures constant { (o : Order) (k n v : ℕ) (fields : List Field) (at : ℕ) (w rest : List Bool)
        → n ≤ 32 → length w ≡ n → number o w ≡ v
        → unpack_bits o k (Field.Constant n v ∷ fields) at (w ++ rest) ≡ unpack_bits o (k + 1) fields (at + n) rest }
    ensures constant_differs { (o : Order) (k n v : ℕ) (fields : List Field) (at : ℕ) (w rest : List Bool)
        → n ≤ 32 → length w ≡ n → number o w ≢ v
        → unpack_bits o k (Field.Constant n v ∷ fields) at (w ++ rest) ≡ Stops (fault k Reason.ConstantDiffers) }
    ensures few { (o : Order) (k n : ℕ) (fields : List Field) (at : ℕ) (bits : List Bool)
        → n ≤ 128 → length bits < n
        → unpack_bits o k (Field.Unsigned n ∷ fields) at bits ≡ Stops (fault k Reason.BitsEnded) }
    ensures few_to_align { (o : Order) (k : ℕ) (fields : List Field) (at : ℕ) (bits : List Bool)
        → length bits < to_boundary at
        → unpack_bits o k (Field.Align ∷ fields) at bits ≡ Stops (fault k Reason.BitsEnded) }
    ensures few_for_constant { (o : Order) (k n v : ℕ) (fields : List Field) (at : ℕ) (bits : List Bool)
        → n ≤ 32 → length bits < n
        → unpack_bits o k (Field.Constant n v ∷ fields) at bits ≡ Stops (fault k Reason.BitsEnded) }
{}

/// If the values of a layout have one encoding each, repacking accepts exactly the bytes that packing
/// writes for some input.
pub fn repacked_bytes_are_packed()
    ensures packed { (o : Order) (fields : List Field) (bytes : List ℕ) (vs : List FieldValue)
        → IsLayout fields → All HasOneWord fields
        → unpack_aligned o fields (bits o bytes) ≡ Unpacks vs (8 * length bytes)
        → (input : List ℕ) × (values 1 fields (lines input) ≡ Ok vs) × (bits o bytes ≡ packed_bits o fields vs 0) }
    ensures repacked { (o : Order) (fields : List Field) (bytes input : List ℕ) (vs : List FieldValue)
        → IsLayout fields → values 1 fields (lines input) ≡ Ok vs → bits o bytes ≡ packed_bits o fields vs 0
        → unpack_aligned o fields (bits o bytes) ≡ Unpacks vs (8 * length bytes) }
{}
