//! Words (numbers of some bits) of each width and type, after each number of queued bits. They are
//! compared with the same words written and read bit by bit.
use crate::asserts::{gives, same};
use bitstream_io::{
    BE, BitRead, BitReadExt, BitReader, BitWrite, BitWriteExt, BitWriter, Endianness, Integer, LE,
    Numeric, Slice,
};
use std::alloc::Global;

/// The number whose lowest bits are the words. Each word has one of its bits flipped.
const NUMBER: u128 = 0xd1b5_4a32_d192_ed03_9e37_79b9_7f4a_7c15;

/// The number whose lowest bits come before each word.
const FRONT: u8 = 0x5b;

/// The layout of words in their bytes: bits before each word, the word, and zeros up to the next byte.
#[derive(Clone, Copy, Drop)]
struct Shape {
    /// True if the highest bit of a word comes first.
    high_first: bool,
    /// The number of bits before the word.
    queued: u32,
    /// The number of bits of the word.
    width: u32,
}

impl Shape {
    /// Returns the lowest bits of a number.
    fn lowest(number: u128, digits: u32) -> u128 {
        number
            & u128::MAX
                .checked_shr(128u32.saturating_sub(digits))
                .unwrap_or(0)
    }

    /// Returns the bits before the word.
    fn prefix(self) -> u128 {
        Shape::lowest(u128::from(FRONT), self.queued)
    }

    /// Returns the word with this bit flipped, if it has the bit.
    fn turned(self, digit: u32) -> u128 {
        Shape::lowest(NUMBER ^ 1u128.checked_shl(digit).unwrap_or(0), self.width)
    }

    /// Returns that word, sign-extended from its highest bit.
    fn extended(self, digit: u32) -> u128 {
        let word = self.turned(digit);
        if word > Shape::lowest(u128::MAX, self.width.saturating_sub(1)) {
            word | !Shape::lowest(u128::MAX, self.width)
        } else {
            word
        }
    }

    /// Returns that word as a value of a type.
    fn value<N: Numeric>(self, digit: u32) -> N {
        if has_sign::<N>() {
            number(self.extended(digit))
        } else {
            number(self.turned(digit))
        }
    }

    /// Returns true if a type has values of the width.
    fn fits<N: Numeric>(self) -> bool {
        let least = if has_sign::<N>() { 1 } else { 0 };
        least <= self.width && self.width <= N::BITS_SIZE
    }

    /// Returns the bit at a place of a number of `bits` bits.
    fn bit(self, number: u128, bits: u32, at: u32) -> bool {
        let digit = if self.high_first {
            bits.saturating_sub(at).saturating_sub(1)
        } else {
            at
        };
        number.checked_shr(digit).unwrap_or(0) % 2 == 1
    }
}

/// Returns true if a type has numbers below 0.
fn has_sign<N: Numeric>() -> bool {
    !N::ZERO < N::ZERO
}

/// Returns the value that has the lowest bits of a number.
fn number<N: Numeric>(digits: u128) -> N {
    let mut buffer = N::buffer();
    let bytes = N::as_bytes_mut(&mut buffer);
    for (byte, digit) in bytes.iter_mut().zip(digits.to_le_bytes()) {
        *byte = digit;
    }
    N::from_le_bytes(buffer)
}

/// Writes the words of a shape as values of a type, each by one call.
fn write_words<N: Numeric + Integer, W: BitWrite>(writer: &mut W, shape: Shape) -> bool {
    let mut written = true;
    for digit in 0..shape.width.saturating_add(1) {
        written &= writer
            .write_unsigned_var(shape.queued, shape.prefix())
            .is_ok()
            & writer
                .write_var(shape.width, shape.value::<N>(digit))
                .is_ok()
            & writer.byte_align().is_ok();
    }
    written
}

/// Writes the lowest bits of a number, each by one call.
fn write_bits<W: BitWrite>(writer: &mut W, shape: Shape, number: u128, bits: u32) -> bool {
    let mut written = true;
    for at in 0..bits {
        written &= writer.write_bit(shape.bit(number, bits, at)).is_ok();
    }
    written
}

/// Writes the words of a shape bit by bit.
fn write_singly<W: BitWrite>(writer: &mut W, shape: Shape) -> bool {
    let mut written = true;
    for digit in 0..shape.width.saturating_add(1) {
        written &= write_bits(writer, shape, shape.prefix(), shape.queued)
            & write_bits(writer, shape, shape.turned(digit), shape.width)
            & writer.byte_align().is_ok();
    }
    written
}

/// Reads `bits` bits, one at a time, and returns true if they are the bits of a number.
fn has_bits<R: BitRead>(reader: &mut R, shape: Shape, number: u128, bits: u32) -> bool {
    let mut same = true;
    for at in 0..bits {
        same &= gives(reader.read_bit(), shape.bit(number, bits, at));
    }
    same
}

/// Reads the words of a shape bit by bit, and returns true if they are the words written.
fn reads_singly<R: BitRead>(reader: &mut R, shape: Shape) -> bool {
    let mut same = true;
    for digit in 0..shape.width.saturating_add(1) {
        same &= has_bits(reader, shape, shape.prefix(), shape.queued)
            & has_bits(reader, shape, shape.turned(digit), shape.width);
        reader.byte_align();
    }
    same
}

/// Reads the words of a shape as values of a type, each by one call, and returns true if they are
/// the words written.
fn reads_words<N: Numeric + Integer, R: BitRead>(reader: &mut R, shape: Shape) -> bool {
    let mut same = true;
    for digit in 0..shape.width.saturating_add(1) {
        same &= gives(reader.read_unsigned_var(shape.queued), shape.prefix())
            & gives(reader.read_var(shape.width), shape.value::<N>(digit));
        reader.byte_align();
    }
    same
}

/// Returns true if the words of a shape, as values of a type, are these bytes, or if the type has
/// no values of the width.
fn agrees<E: Endianness + Drop, N: Numeric + Integer>(
    alloc: Global,
    shape: Shape,
    singly: &[u8],
) -> bool {
    if !shape.fits::<N>() {
        return true;
    }
    let mut writer = BitWriter::<_, E>::new(Vec::new(alloc));
    let written = write_words::<N, _>(&mut writer, shape);
    let mut reader = BitReader::<_, E>::new(Slice::new(singly));
    written & reads_words::<N, _>(&mut reader, shape) & (writer.into_writer().as_slice() == singly)
}

/// Returns true if the words of a shape, written bit by bit, are read back bit by bit, and if the calls for each
/// type write the same bytes and read the same numbers.
fn each_agrees<E: Endianness + Drop>(alloc: Global, shape: Shape) -> bool {
    let mut writer = BitWriter::<_, E>::new(Vec::new(alloc));
    let written = write_singly(&mut writer, shape);
    let bytes = writer.into_writer();
    let read = reads_singly(&mut BitReader::<_, E>::new(Slice::new(&bytes)), shape);
    written
        & read
        & agrees::<E, u8>(alloc, shape, &bytes)
        & agrees::<E, u16>(alloc, shape, &bytes)
        & agrees::<E, u32>(alloc, shape, &bytes)
        & agrees::<E, u64>(alloc, shape, &bytes)
        & agrees::<E, u128>(alloc, shape, &bytes)
        & agrees::<E, i8>(alloc, shape, &bytes)
        & agrees::<E, i16>(alloc, shape, &bytes)
        & agrees::<E, i32>(alloc, shape, &bytes)
        & agrees::<E, i64>(alloc, shape, &bytes)
        & agrees::<E, i128>(alloc, shape, &bytes)
}

#[test]
fn words_are_single_bits(rt: HostRuntime) {
    for width in 0..129 {
        for queued in 0..8 {
            let high_first = Shape {
                high_first: true,
                queued,
                width,
            };
            let low_first = Shape {
                high_first: false,
                ..high_first
            };
            let high = each_agrees::<BE>(rt.alloc(), high_first);
            let low = each_agrees::<LE>(rt.alloc(), low_first);
            same(&rt, (width, queued, high, low), (width, queued, true, true));
        }
    }
}
