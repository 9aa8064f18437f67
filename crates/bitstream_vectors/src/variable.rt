//! Calls for numbers of variable width, at the sizes of groups that the rows have.
ghost use Rattle.std.specs.Prelude.{◌≤◌, ◌<◌};

use crate::answer::{Answer, is_done, is_number, is_optional};
use crate::call::{number, optional};
use crate::fixed::{Reading, Writing};
use crate::form::{Grouped, Size};
use crate::objection::Objection;
use crate::reads::is_pair;
use crate::writes::pair_of;
use bitstream_io::{
    BitRead, BitReadExt, BitWrite, BitWriteExt, Bits, SignedInteger, UnsignedInteger, VBRInteger,
    Width,
};
use std::num::{NonZero, ParseIntError};
use std::str::FromStr;

/// A call for a number of variable width, in groups of `F::BITS` bits.
trait GroupedCall {
    /// Makes the call with a value, and returns true if the result is the expected one.
    fn strict<F: Width, I>(&mut self) -> Result<bool, Objection>
    where
        I: VBRInteger + FromStr<Err = ParseIntError> + PartialEq + Drop,
        requires { I.IsFieldSize F.BITS };

    /// Makes the call with an `Option` of a `NonZero`.
    fn optional<F: Width, N>(&mut self) -> Result<bool, Objection>
    where
        N: FromStr<Err = ParseIntError> + PartialEq + Drop,
        Option<N>: VBRInteger,
        requires { ⟦<Option<N> as VBRInteger>⟧.IsFieldSize F.BITS };

    /// Makes the lenient call for unsigned numbers.
    fn lenient<F: Width, U>(&mut self) -> Result<bool, Objection>
    where
        U: UnsignedInteger + FromStr<Err = ParseIntError> + PartialEq + Drop,
        requires some { 2 ≤ F.BITS }
        requires within { F.BITS < U.BITS_SIZE };

    /// Makes the lenient call for signed numbers.
    fn lenient_signed<F: Width, S>(&mut self) -> Result<bool, Objection>
    where
        S: SignedInteger + FromStr<Err = ParseIntError> + PartialEq + Drop,
        requires some { 2 ≤ F.BITS }
        requires within { F.BITS < S.BITS_SIZE };
}

impl<R: BitRead> GroupedCall for Reading<'_, R> {
    fn strict<F: Width, I>(&mut self) -> Result<bool, Objection>
    where
        I: VBRInteger + FromStr<Err = ParseIntError> + PartialEq + Drop,
    {
        Ok(is_number(self.want, self.reader.read_vbr::<F, I>()))
    }

    fn optional<F: Width, N>(&mut self) -> Result<bool, Objection>
    where
        N: FromStr<Err = ParseIntError> + PartialEq + Drop,
        Option<N>: VBRInteger,
    {
        Ok(is_optional(self.want, self.reader.read_vbr::<F, Option<N>>()))
    }

    fn lenient<F: Width, U>(&mut self) -> Result<bool, Objection>
    where
        U: UnsignedInteger + FromStr<Err = ParseIntError> + PartialEq + Drop,
    {
        Ok(is_number(self.want, self.reader.read_unsigned_vbr_any::<F, U>()))
    }

    fn lenient_signed<F: Width, S>(&mut self) -> Result<bool, Objection>
    where
        S: SignedInteger + FromStr<Err = ParseIntError> + PartialEq + Drop,
    {
        Ok(is_number(self.want, self.reader.read_signed_vbr_any::<F, S>()))
    }
}

/// No write call is lenient.
impl<W: BitWrite> GroupedCall for Writing<'_, W> {
    #[inline(never)]
    fn strict<F: Width, I>(&mut self) -> Result<bool, Objection>
    where
        I: VBRInteger + FromStr<Err = ParseIntError> + PartialEq + Drop,
    {
        let answer = self.writer.write_vbr::<F, I>(number(self.value)?);
        Ok(is_done(self.want, &answer))
    }

    #[inline(never)]
    fn optional<F: Width, N>(&mut self) -> Result<bool, Objection>
    where
        N: FromStr<Err = ParseIntError> + PartialEq + Drop,
        Option<N>: VBRInteger,
    {
        let answer = self.writer.write_vbr::<F, Option<N>>(optional(self.value)?);
        Ok(is_done(self.want, &answer))
    }

    fn lenient<F: Width, U>(&mut self) -> Result<bool, Objection>
    where
        U: UnsignedInteger + FromStr<Err = ParseIntError> + PartialEq + Drop,
    {
        Err(Objection::BAD_FORM)
    }

    fn lenient_signed<F: Width, S>(&mut self) -> Result<bool, Objection>
    where
        S: SignedInteger + FromStr<Err = ParseIntError> + PartialEq + Drop,
    {
        Err(Objection::BAD_FORM)
    }
}

/// Makes the call for a kind of value, with the unsigned and the signed type of one size.
macro_rules! make {
    ($call:ident, $value:ident, $unsigned:ident, $signed:ident) => {
        match $value {
            Grouped::Unsigned => $call.strict::<F, $unsigned>(),
            Grouped::Signed => $call.strict::<F, $signed>(),
            Grouped::NonZero => $call.strict::<F, NonZero<$unsigned>>(),
            Grouped::Optional => $call.optional::<F, NonZero<$unsigned>>(),
            Grouped::AnyUnsigned => $call.lenient::<F, $unsigned>(),
            Grouped::AnySigned => $call.lenient_signed::<F, $signed>(),
        }
    };
}

/// Makes a call for a value of a type of 8 bits.
fn make_8<F: Width, C: GroupedCall>(call: &mut C, value: Grouped) -> Result<bool, Objection>
    requires some { 2 ≤ F.BITS }
    requires within { F.BITS < 8 }
{
    make!(call, value, u8, i8)
}

/// Makes a call for a value of a type of 16 bits.
fn make_16<F: Width, C: GroupedCall>(call: &mut C, value: Grouped) -> Result<bool, Objection>
    requires some { 2 ≤ F.BITS }
    requires within { F.BITS < 16 }
{
    make!(call, value, u16, i16)
}

/// Makes a call for a value of a type of 32 bits.
fn make_32<F: Width, C: GroupedCall>(call: &mut C, value: Grouped) -> Result<bool, Objection>
    requires some { 2 ≤ F.BITS }
    requires within { F.BITS < 32 }
{
    make!(call, value, u32, i32)
}

/// Makes a call for a value of a type of 64 bits.
fn make_64<F: Width, C: GroupedCall>(call: &mut C, value: Grouped) -> Result<bool, Objection>
    requires some { 2 ≤ F.BITS }
    requires within { F.BITS < 64 }
{
    make!(call, value, u64, i64)
}

/// Makes a call for a value of a type of 128 bits.
fn make_128<F: Width, C: GroupedCall>(call: &mut C, value: Grouped) -> Result<bool, Objection>
    requires some { 2 ≤ F.BITS }
    requires within { F.BITS < 128 }
{
    make!(call, value, u128, i128)
}

/// A call at one of these sizes of groups.
macro_rules! at_field {
    ($field:ident, $make:ident($call:ident, $value:ident), $($width:literal)+) => {
        match $field {
            $($width => $make::<Bits<$width>, _>($call, $value),)+
            _ => Err(Objection::UNLISTED),
        }
    };
}

/// Makes a call for a value of a size, in groups of `field` bits.
fn make_variable<C: GroupedCall>(
    call: &mut C,
    value: Grouped,
    size: Size,
    field: u32,
) -> Result<bool, Objection> {
    match size {
        Size::Bits8 => at_field!(field, make_8(call, value), 2 3 4 5 6 7),
        Size::Bits16 => at_field!(field, make_16(call, value), 2 3 4 5 8 9 15),
        Size::Bits32 => at_field!(field, make_32(call, value), 2 3 4 7 8 9 16 31),
        Size::Bits64 => at_field!(field, make_64(call, value), 2 3 4 5 8 16 33 63),
        Size::Bits128 => at_field!(field, make_128(call, value), 2 3 4 8 9 64 65 127),
    }
}

/// Reads a value in groups of `field` bits, and returns true if the result is the expected one.
pub fn read_variable<R: BitRead>(
    reader: &mut R,
    value: Grouped,
    size: Size,
    field: u32,
    want: &str,
) -> Result<bool, Objection> {
    make_variable(&mut Reading { reader, want }, value, size, field)
}

/// Writes the value that a text spells in groups of `field` bits, and returns true if the result is
/// the expected one.
pub fn write_variable<W: BitWrite>(
    writer: &mut W,
    kind: Grouped,
    size: Size,
    field: u32,
    value: &str,
    want: &str,
) -> Result<bool, Objection> {
    let mut call = Writing {
        writer,
        value,
        want,
    };
    make_variable(&mut call, kind, size, field)
}

/// Reads two `u8` in groups of `field` bits, and returns true if the result is the expected one.
pub fn read_variable_pair<R: BitRead>(
    reader: &mut R,
    field: u32,
    want: &str,
) -> Result<bool, Objection> {
    match field {
        4 => is_pair(want, reader.read_vbr::<Bits<4>, [u8; 2]>()),
        _ => Err(Objection::UNLISTED),
    }
}

/// Writes the two `u8` that a text spells in groups of `field` bits.
pub fn write_variable_pair<W: BitWrite>(writer: &mut W, field: u32, value: &str) -> Answer {
    match field {
        4 => Ok(writer.write_vbr::<Bits<4>, [u8; 2]>(pair_of(value)?)),
        _ => Err(Objection::UNLISTED),
    }
}
