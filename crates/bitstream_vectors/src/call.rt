//! Calls, as rows spell them.
use crate::form::{Form, Items, Number, Tree, Whence, form_of, form_of_calls};
use crate::objection::Objection;
use crate::row::Kind;
use std::alloc::Global;
use std::num::ParseIntError;
use std::str::FromStr;

/// A call with the result that a row wants.
#[derive(Clone, Copy, Drop)]
pub struct Call<'a> {
    /// The form of the call: the kind of value that it reads, writes or asks for.
    pub form: Form,
    /// The number of bits or bytes, or the greatest number of a count.
    pub bits: u32,
    /// The value that it writes, the number of a constant, or the calls that are made on a recorder.
    pub value: &'a str,
    /// The expected result.
    pub answer: &'a str,
}

impl<'a> Call<'a> {
    /// Parses a call of a row.
    pub fn parse(alloc: Global, kind: Kind, spelled: &'a str) -> Result<Call<'a>, Objection> {
        let (call, answer) = match spelled.split_once("=>") {
            Some((call, answer)) => (call, Some(answer.trim())),
            None => (spelled, None),
        };
        if let Some((name, calls)) = call.split_once('[') {
            return Call::of_calls(name.trim(), calls.trim(), answer.unwrap_or("ok"));
        }
        let words: Vec<&'a str> = call.split_whitespace().collect(alloc)?;
        Call::of_words(kind, words.as_slice(), answer)
    }

    /// Parses a call from words, with its result. A write call without a result is accepted.
    fn of_words(
        kind: Kind,
        words: &[&'a str],
        answer: Option<&'a str>,
    ) -> Result<Call<'a>, Objection> {
        let form = form_of(word_at(words, 0), word_at(words, 1))?;
        let (bits, value) = bits_and_value(form, kind, words)?;
        let usual = match kind {
            Kind::Read => None,
            Kind::Write => Some("ok"),
        };
        match answer.or(usual) {
            Some(answer) => Ok(Call {
                form,
                bits,
                value,
                answer,
            }),
            None => Err(Objection::BAD_FORM),
        }
    }

    /// Returns the call of this name with a list of calls for a recorder, which ends with a bracket.
    fn of_calls(name: &str, calls: &'a str, answer: &'a str) -> Result<Call<'a>, Objection> {
        match calls.strip_suffix(']') {
            Some(value) => Ok(Call {
                form: form_of_calls(name)?,
                bits: 0,
                value,
                answer,
            }),
            None => Err(Objection::BAD_FORM),
        }
    }

    /// Returns the call that reads one bit and expects this result.
    pub fn reads_bit(answer: &'static str) -> Call<'static> {
        Call {
            form: Form::Bit,
            bits: 0,
            value: "",
            answer,
        }
    }

    /// Returns the call that asks whether the reader is at this place, in bits.
    pub fn asks_place(place: u64) -> Call<'static> {
        Call {
            form: Form::PlaceIs(place),
            bits: 0,
            value: "",
            answer: "yes",
        }
    }

    /// Returns the call that writes zeros up to the end of a byte.
    pub fn aligns() -> Call<'static> {
        Call {
            form: Form::Align,
            bits: 0,
            value: "",
            answer: "ok",
        }
    }

    /// Returns true if the call writes a symbol whose code word has at least one bit.
    fn has_bits(&self) -> bool {
        match self.form {
            Form::Limited(_, most) => match self.value.parse::<u32>() {
                Ok(run) => run < most,
                Err(_) => most > 0,
            },
            Form::Prefix(tree, _) => has_symbol(tree, self.value),
            _ => false,
        }
    }

    /// Returns true if a call for whole bytes moves a byte. A call that moves none makes no request to the stream.
    pub fn moves_bytes(&self) -> bool {
        match self.form {
            Form::Whole(_, _) => true,
            _ => self.bits > 0 || !matches!(self.value, "" | "-"),
        }
    }

    /// Returns true if the call seeks, and so makes a request to the stream even after its reader has failed.
    pub fn recovers(&self) -> bool {
        matches!(self.form, Form::Seek(Whence::Start | Whence::End))
    }

    /// Returns true if a reader of `bits` bits in memory and a reader over a stream return the same result. They
    /// do if the call does not seek, if it seeks to one of these bits or to their end, or if it stays where it is.
    pub fn stays_within(&self, bits: u64) -> bool {
        match (self.form, self.answer) {
            (Form::Seek(Whence::Current), "Place" | "Failed") => true,
            (Form::Seek(_), answer) => matches!(number::<u64>(answer), Ok(place) if place <= bits),
            _ => true,
        }
    }

    /// Returns the number of seek requests with which the call begins.
    pub fn seeks(&self) -> u64 {
        match self.form {
            Form::Seek(Whence::Start) | Form::Place | Form::PlaceIs(_) => 1,
            Form::Seek(_) => 2,
            _ => 0,
        }
    }

    /// Returns the result of the call on a reader or writer of bits that has failed. An invalid checked value or
    /// count is rejected before any call.
    pub fn answer_of_failed(&self, kind: Kind) -> &'a str {
        match (self.form, kind) {
            (Form::Aligned, _) => "no",
            (Form::Align | Form::Cursor, Kind::Read) => "ok",
            (Form::Array(Items::None), Kind::Read) => "-",
            (Form::Array(Items::None), Kind::Write) => "ok",
            (Form::Checked(_), Kind::Write) if self.answer != "ok" => self.answer,
            (Form::Checked(Number::Signed(_)), Kind::Read) if self.bits == 0 => self.answer,
            (Form::Limited(_, 0), Kind::Read) => "none",
            (Form::Prefix(Tree::Leaf, _), Kind::Read) => "9",
            (Form::Limited(_, _) | Form::Prefix(_, _), Kind::Write) if !self.has_bits() => "ok",
            _ => "Failed",
        }
    }
}

/// Returns true if a text spells a symbol of a tree, and the symbol's code word has a bit.
fn has_symbol(tree: Tree, text: &str) -> bool {
    match tree {
        Tree::OneSided => is_among(&["0", "1", "2", "5"], text),
        Tree::TwoSided => is_among(&["0", "1", "2", "3", "4"], text),
        Tree::TwoSevens => is_among(&["7", "8"], text),
        Tree::Leaf => false,
    }
}

fn is_among(symbols: &[&'static str], text: &str) -> bool {
    let mut found = false;
    for symbol in symbols {
        found = found || *symbol == text;
    }
    found
}

/// Parses the number of bits and the value of a call of this form from its words.
fn bits_and_value<'a>(
    form: Form,
    kind: Kind,
    words: &[&'a str],
) -> Result<(u32, &'a str), Objection> {
    let (reads, writes) = form.arguments();
    let arguments = match kind {
        Kind::Read => reads,
        Kind::Write => writes,
    };
    if words.len() != arguments.saturating_add(1) {
        return Err(Objection::BAD_FORM);
    }
    match form.place_of_value(kind) {
        Some(place) => Ok((0, word_at(words, place))),
        None => Ok((number(word_at(words, 1))?, word_at(words, 2))),
    }
}

/// Returns a word of a call, or an empty text if there is none.
fn word_at<'a>(words: &[&'a str], at: usize) -> &'a str {
    words.get(at).copied().unwrap_or("")
}

/// Parses a number. It is compiled once for each type, and not inlined into each call.
#[inline(never)]
pub fn number<T: FromStr<Err = ParseIntError>>(text: &str) -> Result<T, Objection> {
    match text.parse() {
        Ok(number) => Ok(number),
        Err(_) => Err(Objection::BAD_FORM),
    }
}

/// Parses a number, or returns `None` for 0.
#[inline(never)]
pub fn optional<N: FromStr<Err = ParseIntError>>(text: &str) -> Result<Option<N>, Objection> {
    if text == "0" {
        Ok(None)
    } else {
        Ok(Some(number(text)?))
    }
}
