//! Units of a file: the place of each, and its elements.

use anyhow::Error;
use bitstream_formats::at::At;
use bitstream_formats::element::Element;
use std::alloc::{AllocError, Global};
use std::fmt::Display;
use std::io::Write;

/// The value of a note.
#[derive(Drop)]
pub enum NoteValue {
    /// A number.
    Number(i64),
    /// A text.
    Text(String),
}

/// A fact about a unit that is not an element of the format's specification: a text, or a value that follows from
/// elements.
#[derive(Drop)]
pub struct Note {
    /// The name.
    pub name: &'static str,
    /// The index among notes of the same name.
    pub index: Option<u32>,
    /// The value.
    pub value: NoteValue,
}

/// A unit of a file: a NAL unit, an OBU, a frame, a page, a packet, a block or a member.
#[derive(Drop)]
pub struct Unit {
    /// The kind of the unit.
    pub kind: &'static str,
    /// The place of its first byte in the file.
    pub byte: u64,
    /// The elements, as far as they were read.
    pub elements: Vec<Element>,
    /// The facts beyond the elements.
    pub notes: Vec<Note>,
}

impl Unit {
    /// Returns a unit with no element.
    pub fn new(alloc: Global) -> Unit {
        Unit {
            kind: "unit",
            byte: 0,
            elements: Vec::new(alloc),
            notes: Vec::new(alloc),
        }
    }

    /// Resets the unit to one with no element, at a byte of the file.
    pub fn begin(&mut self, kind: &'static str, byte: u64) {
        self.kind = kind;
        self.byte = byte;
        self.elements.clear();
        self.notes.clear();
    }

    /// Returns the value of the first element with this name.
    pub fn value_of(&self, name: &str) -> Option<i64> {
        for element in self.elements.as_slice() {
            if element.name == name {
                return Some(element.value);
            }
        }
        None
    }

    /// Appends an element.
    pub fn push(&mut self, place: u64, name: &'static str, value: i64) -> Result<(), AllocError> {
        self.elements.push(Element {
            place,
            name,
            index: None,
            value,
        })?;
        Ok(())
    }

    /// Notes a number.
    pub fn note(&mut self, name: &'static str, value: i64) -> Result<(), AllocError> {
        self.note_at(name, None, value)
    }

    /// Notes a number, with its index among numbers of the same name.
    pub fn note_at(
        &mut self,
        name: &'static str,
        index: Option<u32>,
        value: i64,
    ) -> Result<(), AllocError> {
        self.notes.push(Note {
            name,
            index,
            value: NoteValue::Number(value),
        })?;
        Ok(())
    }

    /// Notes a text.
    pub fn note_text(
        &mut self,
        name: &'static str,
        index: Option<u32>,
        text: String,
    ) -> Result<(), AllocError> {
        self.notes.push(Note {
            name,
            index,
            value: NoteValue::Text(text),
        })?;
        Ok(())
    }

    /// Moves the places of all elements by a number of bytes.
    pub fn move_places(&mut self, bytes: u64) {
        for element in self.elements.as_mut_slice() {
            element.place = element.place.saturating_add(bytes.saturating_mul(8));
        }
    }
}

/// The reason why a unit was refused.
#[derive(Drop)]
pub struct Fault {
    /// The place of the reader, in bits from the start of the unit.
    pub bit: u64,
    /// The error.
    pub text: String,
}

impl Fault {
    /// Returns the fault of an error at a bit of the unit.
    pub fn of<E: Display + Drop>(alloc: Global, bit: u64, error: E) -> Result<Fault, AllocError> {
        Ok(Fault {
            bit,
            text: format!(in alloc; "{error}")?,
        })
    }
}

/// The outcome of a unit.
#[derive(Drop)]
pub enum Step {
    /// It was read.
    Read,
    /// It was refused.
    Refused(Fault),
    /// It is not a unit, and was ignored.
    Warned(Fault),
    /// There is no unit left.
    End,
}

impl Step {
    /// Returns the step for a unit that was read, or that was refused at a bit counted from `start`.
    pub fn of<T: Drop, E: Display + Drop>(
        alloc: Global,
        read: Result<T, At<E>>,
        start: u64,
    ) -> Result<Step, AllocError> {
        match read {
            Ok(_) => Ok(Step::Read),
            Err(At { bit, error }) => Ok(Step::Refused(Fault::of(
                alloc,
                bit.saturating_sub(start),
                error,
            )?)),
        }
    }
}

/// Units, read one after the other.
pub trait ReadUnits {
    /// Reads the next unit, and writes its decoded data to `out`. After a refused unit, the next
    /// call continues with the next unit that can be found.
    fn next_unit<W: Write>(
        &mut self,
        alloc: Global,
        unit: &mut Unit,
        out: &mut W,
    ) -> Result<Step, Error>;

    /// Returns the number of bytes of the file that were read.
    fn bytes_done(&self) -> u64;
}
