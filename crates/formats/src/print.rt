//! The printer of units.

use crate::options::{Options, Style};
use crate::unit::{Fault, Note, NoteValue, Unit};
use bitstream_formats::element::Element;
use std::alloc::{AllocError, Global};
use std::io;
use std::io::Write;

/// A name in a unit that is printed as JSON.
#[derive(Clone, Copy, Debug)]
struct Name {
    text: &'static str,
    // The index of the first element or note with this name.
    first: usize,
    // True if the value is an array: several elements have the name, or it has an index.
    several: bool,
}

/// Prints units.
#[derive(Drop)]
pub struct Printer {
    options: Options,
    names: Vec<Name>,
}

impl Printer {
    /// Returns a printer.
    pub fn new(alloc: Global, options: Options) -> Printer {
        Printer {
            options,
            names: Vec::new(alloc),
        }
    }

    /// Returns the style.
    pub fn style(&self) -> Style {
        self.options.style
    }

    /// Returns true if the output is a file, and not standard output.
    pub fn has_file(&self) -> bool {
        self.options.output.is_some()
    }

    /// Prints a unit of a file, with the fault for which it was refused.
    pub fn print<W: Write>(
        &mut self,
        out: &mut W,
        file: &str,
        number: u64,
        unit: &Unit,
        fault: Option<&Fault>,
    ) -> io::Result<()> {
        match self.options.style {
            Style::Rows => self.print_rows(out, unit),
            Style::Table => self.print_table(out, number, unit, fault),
            Style::Json => self.print_json(out, file, number, unit, fault),
            Style::Errors => match fault {
                Some(fault) => writeln!(
                    out,
                    "{file}: unit {number}, byte {}, bit {}: {}",
                    unit.byte,
                    fault.bit,
                    fault.text.as_str()
                ),
                None => Ok(()),
            },
        }
    }

    /// Prints a line for each element and note.
    fn print_rows<W: Write>(&self, out: &mut W, unit: &Unit) -> io::Result<()> {
        for element in unit.elements.as_slice() {
            if self.options.has(element.name) {
                writeln!(out, "{element}")?;
            }
        }
        for note in unit.notes.as_slice() {
            if self.options.has(note.name) {
                write!(out, "- ")?;
                print_note(out, note)?;
            }
        }
        Ok(())
    }

    /// Prints a heading, and the elements in columns: place, value and name.
    fn print_table<W: Write>(
        &self,
        out: &mut W,
        number: u64,
        unit: &Unit,
        fault: Option<&Fault>,
    ) -> io::Result<()> {
        if !self.has_any(unit) && fault.is_none() {
            return Ok(());
        }
        writeln!(out, "unit {number}, byte {}: {}", unit.byte, unit.kind)?;
        for element in unit.elements.as_slice() {
            if self.options.has(element.name) {
                print_columns(out, element)?;
            }
        }
        for note in unit.notes.as_slice() {
            if self.options.has(note.name) {
                write!(out, "{:>12} {:>20}  ", "", "")?;
                print_note(out, note)?;
            }
        }
        if let Some(fault) = fault {
            writeln!(
                out,
                "  refused at bit {}: {}",
                fault.bit,
                fault.text.as_str()
            )?;
        }
        Ok(())
    }

    /// Returns true if any part of a unit is printed.
    fn has_any(&self, unit: &Unit) -> bool {
        for element in unit.elements.as_slice() {
            if self.options.has(element.name) {
                return true;
            }
        }
        for note in unit.notes.as_slice() {
            if self.options.has(note.name) {
                return true;
            }
        }
        false
    }

    /// Prints a JSON object.
    fn print_json<W: Write>(
        &mut self,
        out: &mut W,
        file: &str,
        number: u64,
        unit: &Unit,
        fault: Option<&Fault>,
    ) -> io::Result<()> {
        if !self.has_any(unit) && fault.is_none() {
            return Ok(());
        }
        write!(out, "{{\"file\":")?;
        print_text(out, file)?;
        write!(
            out,
            ",\"unit\":{number},\"byte\":{},\"type\":\"{}\",\"elements\":{{",
            unit.byte, unit.kind
        )?;
        self.name_elements(unit.elements.as_slice())?;
        self.print_elements(out, unit.elements.as_slice())?;
        write!(out, "}}")?;
        if !unit.notes.is_empty() {
            write!(out, ",\"about\":{{")?;
            self.name_notes(unit.notes.as_slice())?;
            self.print_notes(out, unit.notes.as_slice())?;
            write!(out, "}}")?;
        }
        if let Some(fault) = fault {
            write!(out, ",\"bit\":{},\"error\":", fault.bit)?;
            print_text(out, fault.text.as_str())?;
        }
        writeln!(out, "}}")
    }

    /// Adds the name of the element or note at an index, if it is printed.
    fn add(&mut self, text: &'static str, at: usize, numbered: bool) -> Result<(), AllocError> {
        if !self.options.has(text) {
            return Ok(());
        }
        for name in self.names.as_mut_slice() {
            if name.text == text {
                name.several = true;
                return Ok(());
            }
        }
        self.names.push(Name {
            text,
            first: at,
            several: numbered,
        })?;
        Ok(())
    }

    /// Collects the names of elements, each once.
    fn name_elements(&mut self, elements: &[Element]) -> Result<(), AllocError> {
        self.names.clear();
        for (at, element) in elements.iter().enumerate() {
            self.add(element.name, at, element.index.is_some())?;
        }
        Ok(())
    }

    /// Collects the names of notes, each once.
    fn name_notes(&mut self, notes: &[Note]) -> Result<(), AllocError> {
        self.names.clear();
        for (at, note) in notes.iter().enumerate() {
            self.add(note.name, at, note.index.is_some())?;
        }
        Ok(())
    }

    /// Prints each name with its value, or an array of its values.
    fn print_elements<W: Write>(&self, out: &mut W, elements: &[Element]) -> io::Result<()> {
        for (number, name) in self.names.iter().enumerate() {
            begin_member(out, number, name)?;
            let mut comma = "";
            for element in elements.get(name.first..).unwrap_or(&[]) {
                if element.name == name.text {
                    write!(out, "{comma}{}", element.value)?;
                    comma = ",";
                    if !name.several {
                        break;
                    }
                }
            }
            end_member(out, name)?;
        }
        Ok(())
    }

    /// Prints each name with its value, or an array of its values.
    fn print_notes<W: Write>(&self, out: &mut W, notes: &[Note]) -> io::Result<()> {
        for (number, name) in self.names.iter().enumerate() {
            begin_member(out, number, name)?;
            let mut comma = "";
            for note in notes.get(name.first..).unwrap_or(&[]) {
                if note.name == name.text {
                    write!(out, "{comma}")?;
                    match &note.value {
                        NoteValue::Number(value) => write!(out, "{value}")?,
                        NoteValue::Text(text) => print_text(out, text.as_str())?,
                    }
                    comma = ",";
                    if !name.several {
                        break;
                    }
                }
            }
            end_member(out, name)?;
        }
        Ok(())
    }
}

/// Prints the text before the value of a name. `number` counts names from 0.
fn begin_member<W: Write>(out: &mut W, number: usize, name: &Name) -> io::Result<()> {
    if number > 0 {
        write!(out, ",")?;
    }
    write!(out, "\"{}\":", name.text)?;
    if name.several {
        write!(out, "[")?;
    }
    Ok(())
}

/// Prints the text after the value of a name.
fn end_member<W: Write>(out: &mut W, name: &Name) -> io::Result<()> {
    if name.several {
        write!(out, "]")?;
    }
    Ok(())
}

/// Prints the place, the value and the name of an element in columns.
fn print_columns<W: Write>(out: &mut W, element: &Element) -> io::Result<()> {
    let (place, value, name) = (element.place, element.value, element.name);
    match element.index {
        Some(index) => writeln!(out, "{place:>12} {value:>20}  {name}{index}"),
        None => writeln!(out, "{place:>12} {value:>20}  {name}"),
    }
}

/// Prints the name and the value of a note.
fn print_note<W: Write>(out: &mut W, note: &Note) -> io::Result<()> {
    write!(out, "{}", note.name)?;
    if let Some(index) = note.index {
        write!(out, "[{index}]")?;
    }
    write!(out, " ")?;
    match &note.value {
        NoteValue::Number(value) => write!(out, "{value}")?,
        NoteValue::Text(text) => print_text(out, text.as_str())?,
    }
    writeln!(out)
}

/// Prints a text in quotation marks, as a JSON string. Terminal control characters are escaped by their numbers.
fn print_text<W: Write>(out: &mut W, text: &str) -> io::Result<()> {
    write!(out, "\"")?;
    for letter in text.chars() {
        match letter {
            '"' => write!(out, "\\\"")?,
            '\\' => write!(out, "\\\\")?,
            '\0'..='\u{1f}' | '\u{7f}'..='\u{9f}' => write!(out, "\\u{:04x}", letter as u32)?,
            _ => write!(out, "{letter}")?,
        }
    }
    write!(out, "\"")
}
