//! Reads the elements of a format one by one.
ghost use Rattle.std.specs.Prelude.{◌<◌, ◌^◌, IfOk};

use bitstream_io::{BitRead, BitReadExt, Endianness, Error, SliceReader};
use std::fmt;

/// The indexes of an element of a list or of nested lists. They are displayed in brackets.
#[derive(Clone, Copy, Debug, PartialEq)]
pub enum Index {
    /// The index in a list.
    One(u32),
    /// The index of a list, and the index in it.
    Two(u32, u32),
    /// The indexes of two lists, and the index in the inner one.
    Three(u32, u32, u32),
}

impl fmt::Display for Index {
    fn fmt<W: fmt::Write>(&self, f: &mut fmt::Formatter<W>) -> fmt::Result {
        match *self {
            Index::One(at) => write!(f, "[{at}]"),
            Index::Two(list, at) => write!(f, "[{list}][{at}]"),
            Index::Three(outer, list, at) => write!(f, "[{outer}][{list}][{at}]"),
        }
    }
}

/// An element that was read. It is displayed as its place, its name and its value.
#[derive(Clone, Copy, Debug, PartialEq)]
pub struct Element {
    /// The place of its first bit.
    pub place: u64,
    /// The name in the format's specification.
    pub name: &'static str,
    /// The indexes among elements of the same name.
    pub index: Option<Index>,
    /// The value. An unsigned number of 64 bits is stored as the signed number with the same bits.
    pub value: i64,
}

impl fmt::Display for Element {
    fn fmt<W: fmt::Write>(&self, f: &mut fmt::Formatter<W>) -> fmt::Result {
        match self.index {
            Some(index) => write!(f, "{} {}{index} {}", self.place, self.name, self.value),
            None => write!(f, "{} {} {}", self.place, self.name, self.value),
        }
    }
}

/// A reader, and the elements that it read.
#[derive(Drop)]
pub(crate) struct Syntax<'r, 'a, 'b, E: Endianness> {
    /// The reader.
    pub(crate) reader: &'r mut SliceReader<'a, E>,
    /// The elements read.
    pub(crate) elements: &'b mut Vec<Element>,
    /// The indexes of the next elements.
    pub(crate) index: Option<Index>,
    /// The place of the reader's first bit.
    pub(crate) start: u64,
}

impl<E: Endianness> Syntax<'_, '_, '_, E> {
    /// Returns the place of the next bit.
    pub(crate) fn place(&self) -> u64 {
        self.start.saturating_add(self.reader.bits_read())
    }

    /// Notes an element.
    pub(crate) fn note(&mut self, place: u64, name: &'static str, value: i64) -> Result<(), Error> {
        self.elements.push(Element {
            place,
            name,
            index: self.index,
            value,
        })?;
        Ok(())
    }

    /// Reads a number of up to 32 bits.
    pub(crate) fn number(&mut self, name: &'static str, bits: u32) -> Result<u32, Error>
        ensures { IfOk result (λ value. value < 2 ^ bits) }
    {
        let place = self.place();
        let value: u32 = self.reader.read_var(bits)?;
        self.note(place, name, value as i64)?;
        Ok(value)
    }

    /// Reads a number of up to 64 bits.
    pub(crate) fn wide(&mut self, name: &'static str, bits: u32) -> Result<u64, Error> {
        let place = self.place();
        let value: u64 = self.reader.read_var(bits)?;
        self.note(place, name, value.cast_signed())?;
        Ok(value)
    }

    /// Reads a number of up to 64 bits without noting an element.
    pub(crate) fn bits(&mut self, bits: u32) -> Result<u64, Error>
        ensures { IfOk result (λ value. value < 2 ^ bits) }
    {
        self.reader.read_var(bits)
    }

    /// Reads a bit.
    pub(crate) fn flag(&mut self, name: &'static str) -> Result<bool, Error> {
        let place = self.place();
        let value = self.reader.read_bit()?;
        self.note(place, name, value as i64)?;
        Ok(value)
    }
}
