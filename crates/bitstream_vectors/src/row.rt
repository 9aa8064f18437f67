//! Rows of the files.
use crate::answer::bytes_of;
use crate::call::{Call, number};
use crate::form::Form;
use crate::objection::Objection;
use std::alloc::Global;

/// The direction of the calls of a row: they read (and seek), or they write.
#[derive(Clone, Copy, PartialEq, Eq, Drop)]
pub enum Kind {
    Read,
    Write,
}

/// The layer of the calls of a row: a reader or writer of bits, or one of bytes.
#[derive(Clone, Copy, PartialEq, Eq, Drop)]
pub enum Layer {
    Bits,
    Bytes,
}

/// The order of bits and bytes of a row.
#[derive(Clone, Copy, Drop)]
pub enum Order {
    Big,
    Little,
}

impl Order {
    /// Returns a bit of bytes in this order, or 0 after their end.
    pub fn bit(self, bytes: &[u8], at: usize) -> u8 {
        let byte = bytes.get(at / 8).copied().unwrap_or(0);
        let bits = match self {
            Order::Big => byte.reverse_bits(),
            Order::Little => byte,
        };
        (bits >> (at % 8)) & 1
    }
}

/// A row: calls with their results, on a stream of these bytes.
#[derive(Drop)]
pub struct Row<'a> {
    pub layer: Layer,
    pub kind: Kind,
    pub order: Order,
    /// The calls. If the row writes bits and ends with an alignment, the alignment is the last call.
    pub calls: Vec<Call<'a>>,
    /// The bytes to read, or the bytes written after the calls.
    pub bytes: Vec<u8>,
    pub after: After,
}

/// The state of the stream after the calls of a row.
#[derive(Clone, Copy, Drop)]
pub struct After {
    /// The index of the stream's bit at which the reader is.
    pub place: Option<usize>,
    /// The number of bytes fetched or handed on.
    pub moved: Option<usize>,
    /// The number of requests.
    pub requests: Option<u64>,
    /// The greatest number of requests.
    pub most_requests: Option<u64>,
    /// True if the calls alone handed on the bytes, with no alignment at the end.
    pub unpadded: bool,
}

impl<'a> Row<'a> {
    /// Parses a row from a kind, an order, calls, bytes and optional facts about the state after the calls.
    ///
    /// # Errors
    ///
    /// If the row is malformed.
    pub fn parse(
        alloc: Global,
        kind: &str,
        order: &str,
        calls: &'a str,
        bytes: &str,
        after: &str,
    ) -> Result<Row<'a>, Objection> {
        let (layer, kind) = kind_of(kind)?;
        let order = order_of(order)?;
        let bytes = bytes_of(alloc, bytes)?;
        let after = After::parse(after)?;
        let mut calls = calls_of(alloc, kind, calls)?;
        if layer == Layer::Bytes && after.tells_of_bits() {
            return Err(Objection::BAD_FORM);
        }
        if layer == Layer::Bits && kind == Kind::Write && !after.unpadded {
            calls.push(Call::aligns())?;
        }
        Ok(Row {
            layer,
            kind,
            order,
            calls,
            bytes,
            after,
        })
    }

    /// Returns true if its stream begins after the first byte.
    pub fn begins_elsewhere(&self) -> bool {
        self.calls
            .first()
            .is_some_and(|call| matches!(call.form, Form::Cursor))
    }

    /// Returns true if one of its calls asks for the place, or seeks.
    pub fn has_places(&self) -> bool {
        self.calls.iter().any(|call| call.seeks() > 0 || matches!(call.form, Form::Cursor))
    }

    /// Returns true if its stream begins at the first byte, and each seek goes to a place among its
    /// bytes, or to their end.
    pub fn stays_within(&self) -> bool {
        let bits = (self.bytes.len() as u64).saturating_mul(8);
        !self.begins_elsewhere() && self.calls.iter().all(|call| call.stays_within(bits))
    }

    /// Returns true if one of its calls seeks, or its stream begins after the first byte.
    pub fn seeks(&self) -> bool {
        self.calls
            .iter()
            .any(|call| matches!(call.form, Form::Seek(_) | Form::Cursor))
    }
}

fn kind_of(name: &str) -> Result<(Layer, Kind), Objection> {
    match name {
        "read" | "seek" => Ok((Layer::Bits, Kind::Read)),
        "write" => Ok((Layer::Bits, Kind::Write)),
        "read-bytes" => Ok((Layer::Bytes, Kind::Read)),
        "write-bytes" => Ok((Layer::Bytes, Kind::Write)),
        _ => Err(Objection::BAD_FORM),
    }
}

/// Returns the order with this name.
pub fn order_of(name: &str) -> Result<Order, Objection> {
    match name {
        "be" => Ok(Order::Big),
        "le" => Ok(Order::Little),
        _ => Err(Objection::BAD_FORM),
    }
}

/// Parses a list of calls.
pub fn calls_of<'a>(alloc: Global, kind: Kind, list: &'a str) -> Result<Vec<Call<'a>>, Objection> {
    let mut calls = Vec::new(alloc);
    for spelled in list.split(';') {
        calls.push(Call::parse(alloc, kind, spelled)?)?;
    }
    Ok(calls)
}

impl After {
    fn parse(list: &str) -> Result<After, Objection> {
        let mut after = After {
            place: None,
            moved: None,
            requests: None,
            most_requests: None,
            unpadded: false,
        };
        if list.is_empty() {
            return Ok(after);
        }
        for fact in list.split(';') {
            after.note(fact.trim())?;
        }
        Ok(after)
    }

    /// Returns true if it has facts that apply only to bits.
    fn tells_of_bits(&self) -> bool {
        self.place.is_some() || self.unpadded
    }

    /// Notes a fact: its name, and usually a number.
    fn note(&mut self, fact: &str) -> Result<(), Objection> {
        let (name, value) = fact.split_once(' ').unwrap_or((fact, ""));
        match name {
            "place" => self.place = Some(number(value)?),
            "moved" => self.moved = Some(number(value)?),
            "requests" => self.requests = Some(number(value)?),
            "requests-at-most" => self.most_requests = Some(number(value)?),
            "unpadded" => self.unpadded = true,
            _ => return Err(Objection::BAD_FORM),
        }
        Ok(())
    }
}
