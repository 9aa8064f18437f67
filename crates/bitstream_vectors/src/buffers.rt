//! Buffers of each length, at each place in a byte, in both orders.
//!
//! The expected bytes come from a formula over bytes, and not from the library.
use crate::row::Order;
use bitstream_io::{BE, BitRead, BitReader, BitWrite, BitWriter, Endianness, LE};
use std::alloc::{AllocError, Global};
use std::io;

/// The number of lengths, from 0 on. The longest buffer has two bytes more than two of the pieces in
/// which long buffers are moved.
const LENGTHS: usize = 2051;

/// Returns the byte at an index, which is the same in each buffer. Neighboring bytes differ, and the
/// first and the last bit of each byte differ, so no byte equals its own reversed bits.
pub fn byte_at(index: usize) -> u8 {
    let low = ((index % 127).wrapping_mul(37) % 127) as u8;
    if low % 2 == 0 { low | 0x80 } else { low }
}

/// A place in a byte, in an order of bits.
#[derive(Clone, Copy, Drop)]
struct Place {
    order: Order,
    /// The number of bits before the buffer, each of them 1.
    bits: u32,
    /// These bits as a number.
    lead: u8,
}

impl Place {
    /// Returns the byte that begins with the last `bits` bits of a byte and continues with the
    /// first bits of the next.
    fn joined(self, before: u8, this: u8) -> u8 {
        let (before, this) = (u16::from(before), u16::from(this));
        let both = match self.order {
            Order::Big => ((before << 8) | this).wrapping_shr(self.bits),
            Order::Little => ((this << 8) | before).wrapping_shr(8u32.wrapping_sub(self.bits)),
        };
        (both & 0xff) as u8
    }

    /// Writes the bits before, some bytes, and zeros up to the end of a byte.
    fn write_to<W: BitWrite>(self, writer: &mut W, bytes: &[u8]) -> bool {
        writer.write_unsigned_var(self.bits, self.lead).is_ok()
            & writer.write_bytes(bytes).is_ok()
            & writer.byte_align().is_ok()
    }

    /// Writes these bits, bytes and zeros to a vector.
    fn write<E: Endianness>(self, written: &mut Vec<u8>, bytes: &[u8]) -> bool {
        self.write_to(&mut BitWriter::<_, E>::new(written), bytes)
    }

    /// Reads the bits before, and then bytes.
    fn read_from<R: BitRead>(self, reader: &mut R, buf: &mut [u8]) -> bool {
        reader.read_unsigned_var::<u8>(self.bits).is_ok() & reader.read_bytes(buf).is_ok()
    }

    /// Reads the bits before, and then bytes, from memory.
    fn read<E: Endianness>(self, from: &[u8], buf: &mut [u8]) -> bool {
        self.read_from(&mut BitReader::<_, E>::new(from), buf)
    }
}

/// Buffers that are reused.
#[derive(Drop)]
struct Scratch {
    written: Vec<u8>,
    read: Vec<u8>,
}

impl Scratch {
    /// Returns true if `bytes` are written as `want`, and `want` is read as `bytes`.
    fn agrees<E: Endianness>(
        &mut self,
        place: Place,
        bytes: &[u8],
        want: &[u8],
    ) -> Result<bool, AllocError> {
        self.written.clear();
        self.read.clear();
        self.read.resize(bytes.len(), 0)?;
        let is_written = place.write::<E>(&mut self.written, bytes);
        let is_read = place.read::<E>(want, self.read.as_mut_slice());
        let same = self.written.as_slice() == want && self.read.as_slice() == bytes;
        Ok(is_written && is_read && same)
    }
}

/// Returns the number of lengths that differ at a place. A length whose call fails differs too.
fn differing<E: Endianness>(alloc: Global, place: Place) -> Result<u32, AllocError> {
    let mut scratch = Scratch {
        written: Vec::new(alloc),
        read: Vec::new(alloc),
    };
    let (mut bytes, mut want) = (Vec::new(alloc), Vec::new(alloc));
    let mut before = 0xff;
    let mut differing = 0u32;
    for length in 0..LENGTHS {
        if place.bits > 0 {
            // the last bits, with zeros up to the end of a byte
            want.push(place.joined(before, 0))?;
        }
        if !scratch.agrees::<E>(place, bytes.as_slice(), want.as_slice())? {
            differing = differing.saturating_add(1);
        }
        let byte = byte_at(length);
        want.truncate(length);
        want.push(place.joined(before, byte))?;
        bytes.push(byte)?;
        before = byte;
    }
    Ok(differing)
}

/// Writes and reads all buffers. Prints the number that differ, and returns it.
pub fn play_buffers(rt: &impl Print, alloc: Global) -> io::Result<u32> {
    let mut all = 0u32;
    let mut lead = 0u8;
    for bits in 0..8 {
        let order = Order::Big;
        let place = Place { order, bits, lead };
        let big = differing::<BE>(alloc, place)?;
        let order = Order::Little;
        let little = differing::<LE>(alloc, Place { order, ..place })?;
        let both = big.saturating_add(little);
        if both > 0 {
            println!(rt; "differs at place {bits}: {big} lengths in be, {little} in le")?;
        }
        all = all.saturating_add(both);
        lead = (lead << 1) | 1;
    }
    println!(rt; "r11_buffers: {LENGTHS} lengths, 8 places, 2 orders, {all} differ")?;
    Ok(all)
}
