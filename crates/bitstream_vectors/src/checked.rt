//! Calls for checked values, at any count.
use crate::answer::{Answer, error_name, is_number};
use crate::call::number;
use crate::form::{Number, Size};
use crate::objection::Objection;
use bitstream_io::{
    BitCount, BitRead, BitReadExt, BitWrite, BitWriteExt, Checkable, Checked, CheckedError,
    CheckedSigned, CheckedUnsigned, Error, Holds, SignedInteger, UnsignedInteger,
};
use std::num::ParseIntError;
use std::str::FromStr;

/// The greatest number of a count.
const MOST: u32 = u32::MAX;

/// Returns true if a text is the result of a call: the number of a checked value, or the name of
/// the error.
fn is_checked<C: Holds<T> + Copy, T>(want: &str, answer: Result<Checked<C, T>, Error>) -> bool
where
    T: Copy + FromStr<Err = ParseIntError> + PartialEq + Drop,
{
    match answer {
        Ok(checked) => is_number(want, Ok(checked.into_value())),
        Err(error) => want == error_name(&error),
    }
}

fn read_unsigned<U, R: BitRead>(reader: &mut R, bits: u32, want: &str) -> bool
where
    U: UnsignedInteger + FromStr<Err = ParseIntError> + PartialEq,
{
    let count = BitCount::unknown(bits);
    is_checked(want, reader.read_checked::<CheckedUnsigned<MOST, U>>(count))
}

fn read_signed<S, R: BitRead>(reader: &mut R, bits: u32, want: &str) -> bool
where
    S: SignedInteger + FromStr<Err = ParseIntError> + PartialEq,
{
    match BitCount::unknown(bits).signed_count() {
        Some(count) => is_checked(want, reader.read_checked::<CheckedSigned<MOST, S>>(count)),
        None => want == error_name(&Error::NoSignBit),
    }
}

/// Reads a checked value, and returns true if the result is the expected one.
pub fn read_checked<R: BitRead>(reader: &mut R, number: Number, bits: u32, want: &str) -> bool {
    match number {
        Number::Unsigned(size) => unsigned!(size, read_unsigned(reader, bits, want)),
        Number::Signed(size) => signed!(size, read_signed(reader, bits, want)),
    }
}

/// Writes a checked value if it is valid, or returns its error.
fn write_made<C: Checkable, W: BitWrite>(
    writer: &mut W,
    made: Result<C, CheckedError>,
) -> Result<(), Error> {
    match made {
        Ok(checked) => writer.write_checked(checked),
        Err(error) => Err(Error::from(error)),
    }
}

fn write_unsigned<U: UnsignedInteger + FromStr<Err = ParseIntError>, W: BitWrite>(
    writer: &mut W,
    bits: u32,
    value: &str,
) -> Answer {
    let made = CheckedUnsigned::<MOST, U>::new(BitCount::unknown(bits), number(value)?);
    Ok(write_made(writer, made))
}

fn write_signed<S: SignedInteger + FromStr<Err = ParseIntError>, W: BitWrite>(
    writer: &mut W,
    bits: u32,
    value: &str,
) -> Answer {
    match BitCount::unknown(bits).signed_count() {
        Some(count) => Ok(write_made(writer, CheckedSigned::<MOST, S>::new(count, number(value)?))),
        None => Ok(Err(Error::NoSignBit)),
    }
}

/// Writes a number as a checked value, if the number is valid.
pub fn write_checked<W: BitWrite>(
    writer: &mut W,
    number: Number,
    bits: u32,
    value: &str,
) -> Answer {
    match number {
        Number::Unsigned(size) => unsigned!(size, write_unsigned(writer, bits, value)),
        Number::Signed(size) => signed!(size, write_signed(writer, bits, value)),
    }
}
