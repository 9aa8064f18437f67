//! The forms of calls, as rows spell them.
use crate::objection::Objection;
use crate::row::{Kind, Order};

/// The number of bits of a type.
#[derive(Clone, Copy, Drop)]
pub enum Size {
    Bits8,
    Bits16,
    Bits32,
    Bits64,
    Bits128,
}

/// An integer type.
#[derive(Clone, Copy, Drop)]
pub enum Number {
    Unsigned(Size),
    Signed(Size),
}

/// An array of items that all have the same number of bits.
#[derive(Clone, Copy, Drop)]
pub enum Items {
    /// Four `u8`.
    Bytes,
    /// Four `bool`.
    Truths,
    /// Two `i8`.
    Signed,
    /// No items.
    None,
}

/// The value of a number of variable width: a number, a number that is not 0, or an optional number
/// that is not 0. `AnyUnsigned` and `AnySigned` are read by the lenient call, which accepts last groups
/// of 0.
#[derive(Clone, Copy, Drop)]
pub enum Grouped {
    Unsigned,
    Signed,
    NonZero,
    Optional,
    AnyUnsigned,
    AnySigned,
}

/// A tree of symbols.
#[derive(Clone, Copy, Drop)]
pub enum Tree {
    /// [0,[1,[2,5]]]
    OneSided,
    /// [[[4,3],2],[1,0]]
    TwoSided,
    /// [7,[7,8]]
    TwoSevens,
    /// 9
    Leaf,
}

/// The encoder of symbols.
#[derive(Clone, Copy, Drop)]
pub enum Coder {
    /// The tree itself.
    Tree,
    /// The precomputed code words of the symbols.
    Words,
}

/// The order of the bytes of a primitive.
#[derive(Clone, Copy, Drop)]
pub enum ByteOrder {
    /// The order of the stream.
    Own,
    Big,
    Little,
}

/// The place from which a seek counts.
#[derive(Clone, Copy, Drop)]
pub enum Whence {
    Start,
    End,
    Current,
}

/// The form of a call: the kind of value that it reads, writes or asks for.
#[derive(Clone, Copy, Drop)]
pub enum Form {
    /// True if the stream is at the end of a byte.
    Aligned,
    Align,
    Array(Items),
    /// The shorter of a recorder and a new one on which calls are made.
    Best,
    Bit,
    Bool,
    /// A buffer of bytes.
    Bytes,
    /// A number as a checked value.
    Checked(Number),
    /// Clears a recorder.
    Clear,
    Const,
    Count,
    /// A number in a counted number of bits.
    Counted(Number),
    /// Sets the stream to a byte before its reader is made.
    Cursor,
    /// A number in a constant number of bits.
    Fixed(Number),
    /// Digits up to a stop digit, or at most this number of them.
    Limited(bool, u32),
    NonZero(Size),
    Optional(Size),
    /// Zeros.
    Pad,
    /// The place in bits.
    Place,
    /// True if the reader is at this place, in bits.
    PlaceIs(u64),
    /// A symbol of a tree.
    Prefix(Tree, Coder),
    /// Makes calls on a new recorder of an order, and plays it.
    Record(Order),
    /// A seek to a place, in bits.
    Seek(Whence),
    /// Skips bits or bytes.
    Skip,
    /// Digits up to a stop digit.
    Unary(bool),
    /// A number of this type, as a value.
    Value(Number),
    /// A number of a size, in groups of this number of bits.
    Variable(Grouped, Size, u32),
    /// Two `u8`, each in groups of this number of bits.
    VariablePair(u32),
    /// A vector of bytes.
    Vector,
    /// A primitive.
    Whole(ByteOrder, Number),
    /// A number of this type, by `read_unsigned_var`, `read_signed_var`, `write_unsigned_var` or
    /// `write_signed_var`.
    Word(Number),
}

impl Form {
    /// Returns the number of words after the call's name, for reads and for writes.
    pub fn arguments(self) -> (usize, usize) {
        match self {
            Form::Align | Form::Aligned | Form::Clear | Form::Place | Form::PlaceIs(_) => (0, 0),
            Form::Bit | Form::Unary(_) => (0, 1),
            Form::Bytes | Form::Pad | Form::Skip | Form::Vector => (1, 1),
            Form::Const => (2, 2),
            _ => (1, 2),
        }
    }

    /// Returns the index of the word that spells the value of a call of this form. Returns `None` if a word
    /// spells the number of bits too.
    pub fn place_of_value(self, kind: Kind) -> Option<usize> {
        match (self, kind) {
            (Form::Bytes, Kind::Write) => Some(1),
            (Form::Align | Form::Aligned | Form::Bit | Form::Clear | Form::Unary(_), _) => Some(1),
            (Form::Cursor | Form::Place | Form::PlaceIs(_) | Form::Seek(_), _) => Some(1),
            (Form::Limited(_, _) | Form::Prefix(_, _) | Form::Whole(_, _), _) => Some(2),
            (Form::Variable(_, _, _) | Form::VariablePair(_), _) => Some(2),
            _ => None,
        }
    }
}

/// Returns the form with this name. The name of a primitive has two words.
///
/// # Errors
///
/// If no form has the name.
pub fn form_of(name: &str, next: &str) -> Result<Form, Objection> {
    let named = named(&PLAIN, name).or_else(|| whole_form(name, next));
    let named = named.or_else(|| variable_form(name, next));
    let named = named.or_else(|| symbol_form(name, next));
    named
        .or_else(|| number_form(name))
        .ok_or(Objection::BAD_FORM)
}

/// The forms whose name is a single word.
const PLAIN: [(&str, Form); 32] = [
    ("align", Form::Align),
    ("aligned", Form::Aligned),
    ("array0", Form::Array(Items::None)),
    ("array4", Form::Array(Items::Bytes)),
    ("array4-bool", Form::Array(Items::Truths)),
    ("array2-i8", Form::Array(Items::Signed)),
    ("bit", Form::Bit),
    ("bool", Form::Bool),
    ("bytes", Form::Bytes),
    ("const", Form::Const),
    ("clear", Form::Clear),
    ("count", Form::Count),
    ("current", Form::Seek(Whence::Current)),
    ("cursor", Form::Cursor),
    ("end", Form::Seek(Whence::End)),
    ("nonzero8", Form::NonZero(Size::Bits8)),
    ("nonzero16", Form::NonZero(Size::Bits16)),
    ("nonzero32", Form::NonZero(Size::Bits32)),
    ("nonzero64", Form::NonZero(Size::Bits64)),
    ("nonzero128", Form::NonZero(Size::Bits128)),
    ("optional8", Form::Optional(Size::Bits8)),
    ("optional16", Form::Optional(Size::Bits16)),
    ("optional32", Form::Optional(Size::Bits32)),
    ("optional64", Form::Optional(Size::Bits64)),
    ("optional128", Form::Optional(Size::Bits128)),
    ("pad", Form::Pad),
    ("place", Form::Place),
    ("skip", Form::Skip),
    ("start", Form::Seek(Whence::Start)),
    ("unary0", Form::Unary(false)),
    ("unary1", Form::Unary(true)),
    ("vector", Form::Vector),
];

/// Returns the entry of a table with this name.
fn named<T: Copy>(table: &[(&'static str, T)], name: &str) -> Option<T> {
    let mut found = None;
    for (spelled, value) in table {
        if *spelled == name {
            found = Some(*value);
        }
    }
    found
}

/// Returns the form of a call for a primitive. `next` is the name of its type.
fn whole_form(name: &str, next: &str) -> Option<Form> {
    let order = match name {
        "whole" => ByteOrder::Own,
        "whole-be" => ByteOrder::Big,
        "whole-le" => ByteOrder::Little,
        _ => return None,
    };
    Some(Form::Whole(order, number_of(next)?))
}

/// The types that are read and written in groups.
const GROUPED: [(&str, (Grouped, Size)); 20] = [
    ("u8", (Grouped::Unsigned, Size::Bits8)),
    ("u16", (Grouped::Unsigned, Size::Bits16)),
    ("u32", (Grouped::Unsigned, Size::Bits32)),
    ("u64", (Grouped::Unsigned, Size::Bits64)),
    ("u128", (Grouped::Unsigned, Size::Bits128)),
    ("i8", (Grouped::Signed, Size::Bits8)),
    ("i16", (Grouped::Signed, Size::Bits16)),
    ("i32", (Grouped::Signed, Size::Bits32)),
    ("i64", (Grouped::Signed, Size::Bits64)),
    ("i128", (Grouped::Signed, Size::Bits128)),
    ("nonzero8", (Grouped::NonZero, Size::Bits8)),
    ("nonzero16", (Grouped::NonZero, Size::Bits16)),
    ("nonzero32", (Grouped::NonZero, Size::Bits32)),
    ("nonzero64", (Grouped::NonZero, Size::Bits64)),
    ("nonzero128", (Grouped::NonZero, Size::Bits128)),
    ("optional8", (Grouped::Optional, Size::Bits8)),
    ("optional16", (Grouped::Optional, Size::Bits16)),
    ("optional32", (Grouped::Optional, Size::Bits32)),
    ("optional64", (Grouped::Optional, Size::Bits64)),
    ("optional128", (Grouped::Optional, Size::Bits128)),
];

/// Returns the type of a number of variable width with this name.
fn grouped_of(name: &str) -> Option<(Grouped, Size)> {
    named(&GROUPED, name)
}

/// Returns the form of a call for a number in groups. `next` is the name of its type. The name of a
/// lenient call begins with `any`.
fn variable_form(name: &str, next: &str) -> Option<Form> {
    let (name, lenient) = match name.strip_prefix("any") {
        Some(name) => (name, true),
        None => (name, false),
    };
    let (field, signed) = field_of(name)?;
    if next == "array2-u8" && !lenient {
        return Some(Form::VariablePair(field));
    }
    let (value, size) = grouped_of(next)?;
    let value = match (value, signed, lenient) {
        (Grouped::Signed, true, false) => Grouped::Signed,
        (Grouped::Signed, true, true) => Grouped::AnySigned,
        (Grouped::Unsigned, false, true) => Grouped::AnyUnsigned,
        (Grouped::Signed, _, _) | (_, true, _) | (_, _, true) => return None,
        _ => value,
    };
    Some(Form::Variable(value, size, field))
}

/// Returns the number of bits of a group from a call's name, and true if it is a call for signed numbers.
fn field_of(name: &str) -> Option<(u32, bool)> {
    let (field, signed) = match name.strip_prefix("svbr") {
        Some(field) => (field, true),
        None => (name.strip_prefix("vbr")?, false),
    };
    Some((field.parse().ok()?, signed))
}

/// The trees.
const TREES: [(&str, Tree); 4] = [
    ("a", Tree::OneSided),
    ("b", Tree::TwoSided),
    ("c", Tree::TwoSevens),
    ("d", Tree::Leaf),
];

/// Returns the form of a call for a symbol. `next` is the name of its code.
fn symbol_form(name: &str, next: &str) -> Option<Form> {
    match name {
        "prefix" => Some(Form::Prefix(named(&TREES, next)?, Coder::Tree)),
        "words" => Some(Form::Prefix(named(&TREES, next)?, Coder::Words)),
        "limited0" => Some(Form::Limited(false, next.parse().ok()?)),
        "limited1" => Some(Form::Limited(true, next.parse().ok()?)),
        _ => None,
    }
}

/// Returns the form of a call whose name is a type, or ends with one.
fn number_form(name: &str) -> Option<Form> {
    match name.split_once('-') {
        Some((call, number)) => word_form(call, number_of(number)?),
        None => number_of(name).map(Form::Value),
    }
}

/// Returns the form of a call for a number that is not a plain value.
fn word_form(call: &str, number: Number) -> Option<Form> {
    match call {
        "checked" => Some(Form::Checked(number)),
        "counted" => Some(Form::Counted(number)),
        "fixed" => Some(Form::Fixed(number)),
        "word" => Some(Form::Word(number)),
        _ => None,
    }
}

/// The integer types.
const NUMBERS: [(&str, Number); 10] = [
    ("u8", Number::Unsigned(Size::Bits8)),
    ("u16", Number::Unsigned(Size::Bits16)),
    ("u32", Number::Unsigned(Size::Bits32)),
    ("u64", Number::Unsigned(Size::Bits64)),
    ("u128", Number::Unsigned(Size::Bits128)),
    ("i8", Number::Signed(Size::Bits8)),
    ("i16", Number::Signed(Size::Bits16)),
    ("i32", Number::Signed(Size::Bits32)),
    ("i64", Number::Signed(Size::Bits64)),
    ("i128", Number::Signed(Size::Bits128)),
];

/// Returns the integer type with this name.
fn number_of(name: &str) -> Option<Number> {
    named(&NUMBERS, name)
}

/// Returns the form of a call with a list of calls for a recorder.
pub fn form_of_calls(name: &str) -> Result<Form, Objection> {
    match name {
        "best" => Ok(Form::Best),
        "record-be" => Ok(Form::Record(Order::Big)),
        "record-le" => Ok(Form::Record(Order::Little)),
        _ => Err(Objection::BAD_FORM),
    }
}
