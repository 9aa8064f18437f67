//! Calls with a constant width, at each width that a row has.
use crate::answer::{is_done, is_number};
use crate::call::number;
use crate::form::{Number, Size};
use crate::objection::Objection;
use bitstream_io::{BitRead, BitReadExt, BitWrite, BitWriteExt, Bits, Integer, Width};
use std::num::ParseIntError;
use std::str::FromStr;

/// A call whose width is a constant.
trait FixedCall {
    /// Makes the call with a value in `B::BITS` bits, and returns true if the result is the expected one.
    fn make<B: Width, I>(&mut self) -> Result<bool, Objection>
    where
        I: Integer + FromStr<Err = ParseIntError> + PartialEq + Drop,
        requires { I.IsWidth B.BITS };
}

/// A read call, and its expected result.
#[derive(Drop)]
pub struct Reading<'a, R> {
    pub reader: &'a mut R,
    pub want: &'a str,
}

impl<R: BitRead> FixedCall for Reading<'_, R> {
    fn make<B: Width, I>(&mut self) -> Result<bool, Objection>
    where
        I: Integer + FromStr<Err = ParseIntError> + PartialEq + Drop,
    {
        Ok(is_number(self.want, self.reader.read::<B, I>()))
    }
}

/// A call that writes the value that a text spells, and its expected result.
#[derive(Drop)]
pub struct Writing<'a, W> {
    pub writer: &'a mut W,
    pub value: &'a str,
    pub want: &'a str,
}

impl<W: BitWrite> FixedCall for Writing<'_, W> {
    #[inline(never)]
    fn make<B: Width, I>(&mut self) -> Result<bool, Objection>
    where
        I: Integer + FromStr<Err = ParseIntError> + PartialEq + Drop,
    {
        let answer = self.writer.write::<B, I>(number(self.value)?);
        Ok(is_done(self.want, &answer))
    }
}

/// Makes a call at one of these widths.
macro_rules! at_width {
    ($call:ident, $bits:ident, $type:ident, $($width:literal)+) => {
        match $bits {
            $($width => $call.make::<Bits<$width>, $type>(),)+
            _ => Err(Objection::UNLISTED),
        }
    };
}

/// Makes a call for a number of a type in a constant number of bits.
fn make_fixed<C: FixedCall>(call: &mut C, number: Number, bits: u32) -> Result<bool, Objection> {
    match number {
        Number::Unsigned(size) => make_unsigned(call, size, bits),
        Number::Signed(size) => make_signed(call, size, bits),
    }
}

fn make_unsigned<C: FixedCall>(call: &mut C, size: Size, bits: u32) -> Result<bool, Objection> {
    match size {
        Size::Bits8 => at_width!(call, bits, u8, 0 1 2 3 5 7 8),
        Size::Bits16 => at_width!(call, bits, u16, 1 3 6 8 9 15 16),
        Size::Bits32 => at_width!(call, bits, u32, 1 4 7 16 20 31 32),
        Size::Bits64 => at_width!(call, bits, u64, 1 5 33 36 63 64),
        Size::Bits128 => at_width!(call, bits, u128, 1 7 64 65 127 128),
    }
}

fn make_signed<C: FixedCall>(call: &mut C, size: Size, bits: u32) -> Result<bool, Objection> {
    match size {
        Size::Bits8 => at_width!(call, bits, i8, 1 2 3 4 5 7 8),
        Size::Bits16 => at_width!(call, bits, i16, 1 3 8 9 15 16),
        Size::Bits32 => at_width!(call, bits, i32, 1 4 7 16 20 31 32),
        Size::Bits64 => at_width!(call, bits, i64, 1 5 12 33 36 63 64),
        Size::Bits128 => at_width!(call, bits, i128, 1 7 64 65 127 128),
    }
}

/// Reads a number in a constant number of bits, and returns true if the result is the expected one.
pub fn read_fixed<R: BitRead>(
    reader: &mut R,
    number: Number,
    bits: u32,
    want: &str,
) -> Result<bool, Objection> {
    make_fixed(&mut Reading { reader, want }, number, bits)
}

/// Writes the number that a text spells in a constant number of bits, and returns true if the
/// result is the expected one.
pub fn write_fixed<W: BitWrite>(
    writer: &mut W,
    number: Number,
    bits: u32,
    value: &str,
    want: &str,
) -> Result<bool, Objection> {
    make_fixed(
        &mut Writing {
            writer,
            value,
            want,
        },
        number,
        bits,
    )
}
