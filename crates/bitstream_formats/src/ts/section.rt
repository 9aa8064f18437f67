//! Sections, which may be spread over several packets.

use crate::element::Element;
use std::alloc::{AllocError, Global};

/// The number of bytes of a section up to and including its length.
const HEAD: usize = 3;

/// The relation of a packet to the previous packet of the same PID.
#[derive(Clone, Copy, Debug, PartialEq, Eq)]
pub(super) enum Follows {
    /// It is the next packet, or the first one.
    Next,
    /// It is a copy of the previous packet.
    Copy,
    /// Packets between them are missing.
    Gap,
}

/// A part of a section in one packet.
#[derive(Clone, Copy, Debug)]
struct Part {
    // The number of bits of the section before this part.
    bit: u64,
    // The place of the part's first bit in the stream.
    place: u64,
}

/// The section of a PID that is being read: the bytes that came so far.
#[derive(Drop)]
pub(super) struct Section {
    id: u32,
    // The counter of the last packet.
    counter: Option<u32>,
    bytes: Vec<u8>,
    parts: Vec<Part>,
}

impl Section {
    /// Returns an empty section of a PID.
    pub(super) fn new(alloc: Global, id: u32) -> Section {
        Section {
            id,
            counter: None,
            bytes: Vec::new(alloc),
            parts: Vec::new(alloc),
        }
    }

    /// Returns the PID.
    pub(super) fn id(&self) -> u32 {
        self.id
    }

    /// Returns the bytes that came so far.
    pub(super) fn bytes(&self) -> &[u8] {
        self.bytes.as_slice()
    }

    /// Returns true if any byte of the section came.
    pub(super) fn is_open(&self) -> bool {
        !self.bytes.is_empty()
    }

    /// Returns the number of missing bytes: up to and including the length if that has not come yet,
    /// otherwise up to the end.
    fn missing(&self) -> usize {
        let have = self.bytes.len();
        match self.bytes.as_slice() {
            [_, high, low, ..] => {
                let length = ((*high & 0xf) as usize) << 8 | *low as usize;
                HEAD.saturating_add(length).saturating_sub(have)
            }
            _ => HEAD.saturating_sub(have),
        }
    }

    /// Returns true if the whole section came.
    pub(super) fn is_whole(&self) -> bool {
        self.bytes.len() >= HEAD && self.missing() == 0
    }

    /// Notes the counter of a packet, and returns the packet's relation to the one before it.
    pub(super) fn follow(&mut self, counter: u32) -> Follows {
        let last = self.counter;
        self.counter = Some(counter);
        match last {
            None => Follows::Next,
            Some(last) if last == counter => Follows::Copy,
            Some(last) if last.wrapping_add(1) % 16 == counter => Follows::Next,
            Some(_) => Follows::Gap,
        }
    }

    /// Takes the missing bytes from the start of `bytes`, which begin at the bit `place` of the stream.
    /// Returns the bytes after them.
    pub(super) fn take<'a>(&mut self, bytes: &'a [u8], place: u64) -> Result<&'a [u8], AllocError> {
        let count = self.missing().min(bytes.len());
        let (taken, rest) = bytes.split_at(count);
        self.parts.push(Part {
            bit: (self.bytes.len() as u64).saturating_mul(8),
            place,
        })?;
        self.bytes.extend_from_slice(taken)?;
        Ok(rest)
    }

    /// Forgets the bytes that came.
    pub(super) fn clear(&mut self) {
        self.bytes.clear();
        self.parts.clear();
    }

    /// Returns the place of a bit of the section in the stream.
    pub(super) fn place_of(&self, bit: u64) -> u64 {
        let mut place = bit;
        for part in self.parts.as_slice() {
            if part.bit <= bit {
                place = part.place.saturating_add(bit.saturating_sub(part.bit));
            }
        }
        place
    }

    /// Changes the places of the elements from an index on: from places in the section to places in the stream.
    pub(super) fn move_places(&self, elements: &mut Vec<Element>, from: usize) {
        for at in from..elements.len() {
            if let Some(element) = elements.as_mut_slice().get_mut(at) {
                element.place = self.place_of(element.place);
            }
        }
    }
}
