//! A sensor's reading, as a type with reads and writes of its own, in a width from its context.
ghost use Rattle.bitstream_io.specs.Callers.{same_error};
ghost use Rattle.bitstream_callers.specs.Reading.{becomes_reader, reading_reads, reading_writes};

use bitstream_io::{
    BitRead, BitReadExt, BitWrite, BitWriteExt, Error, FromBitStreamUsing, FromBitStreamWith,
    ToBitStreamUsing, ToBitStreamWith,
};

/// The measurement of a sensor. The bit before the value is 1 if there is a value.
#[derive(Clone, Copy, Debug, PartialEq)]
pub struct Reading {
    /// The value.
    pub value: u32,
}

/// The reasons that a read fails.
#[derive(Debug, Drop)]
pub enum ReadingError {
    /// An error of the reader.
    Reader(Error),
    /// The sensor measured nothing. The bit that states this has been read.
    Missing,
}

impl From<Error> for ReadingError {
    ghost from_gives = { becomes_reader };

    fn from(error: Error) -> ReadingError {
        ReadingError::Reader(error)
    }
}

impl FromBitStreamWith for Reading {
    type Context = u32;

    type Error = ReadingError;

    ghost becomes = { becomes_reader };

    ghost reads = { reading_reads };

    fn from_reader<R: BitRead>(reader: &mut R, bits: &u32) -> Result<Reading, ReadingError> {
        if reader.read_bit()? {
            Ok(Reading {
                value: reader.read_var(*bits)?,
            })
        } else {
            Err(ReadingError::Missing)
        }
    }
}

impl FromBitStreamUsing for Reading {
    type Context = u32;

    type Error = ReadingError;

    ghost becomes = { becomes_reader };

    ghost reads = { reading_reads };

    fn from_reader<R: BitRead>(reader: &mut R, bits: u32) -> Result<Reading, ReadingError> {
        reader.parse_with(&bits)
    }
}

impl ToBitStreamWith for Reading {
    type Context = u32;

    type Error = Error;

    ghost becomes = { same_error };

    ghost writes = { reading_writes };

    fn to_writer<W: BitWrite>(&self, writer: &mut W, bits: &u32) -> Result<(), Error> {
        writer.write_bit(true)?;
        writer.write_var(*bits, self.value)
    }
}

impl ToBitStreamUsing for Reading {
    type Context = u32;

    type Error = Error;

    ghost becomes = { same_error };

    ghost writes = { reading_writes };

    fn to_writer<W: BitWrite>(&self, writer: &mut W, bits: u32) -> Result<(), Error> {
        writer.build_with(self, &bits)
    }
}
