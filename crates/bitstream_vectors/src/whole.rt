//! Calls for whole bytes, which readers and writers of bits and of bytes share.
use crate::answer::{Answer, are_bytes, bytes_of, error_name, is_done, is_number};
use crate::call::{Call, number};
use crate::form::{ByteOrder, Form, Number, Size};
use crate::objection::Objection;
use bitstream_io::{
    BE, BitRead, BitReader, BitWrite, ByteRead, ByteReader, ByteWrite, ByteWriter, Endianness,
    Error, LE, Primitive, SliceReader, Source, Target,
};
use std::alloc::Global;
use std::num::ParseIntError;
use std::str::FromStr;

/// Reads whole bytes, with the calls of its layer.
pub trait WholeRead {
    /// Reads a primitive in an order of bytes.
    fn primitive<V: Primitive>(&mut self, order: ByteOrder) -> Result<V, Error>;

    /// Fills a buffer.
    fn fill(&mut self, buf: &mut [u8]) -> Result<(), Error>;

    /// Reads a vector of `bytes` bytes.
    fn vector(&mut self, alloc: Global, bytes: u32) -> Result<Vec<u8>, Error>;

    /// Skips `count` bits in a layer of bits, or `count` bytes in a layer of bytes.
    fn pass(&mut self, count: u32) -> Result<(), Error>;
}

/// Reads a primitive by a reader of bits, with its bytes in this order.
fn primitive_of<V: Primitive, R: BitRead>(reader: &mut R, order: ByteOrder) -> Result<V, Error> {
    match order {
        ByteOrder::Own => reader.read_to::<V>(),
        ByteOrder::Big => reader.read_as_to::<BE, V>(),
        ByteOrder::Little => reader.read_as_to::<LE, V>(),
    }
}

impl<R: Source, E: Endianness> WholeRead for BitReader<R, E> {
    fn primitive<V: Primitive>(&mut self, order: ByteOrder) -> Result<V, Error> {
        primitive_of(self, order)
    }

    fn fill(&mut self, buf: &mut [u8]) -> Result<(), Error> {
        self.read_bytes(buf)
    }

    fn vector(&mut self, alloc: Global, bytes: u32) -> Result<Vec<u8>, Error> {
        self.read_to_vec(alloc, bytes as usize)
    }

    fn pass(&mut self, count: u32) -> Result<(), Error> {
        self.skip(count)
    }
}

impl<E: Endianness> WholeRead for SliceReader<'_, E> {
    fn primitive<V: Primitive>(&mut self, order: ByteOrder) -> Result<V, Error> {
        primitive_of(self, order)
    }

    fn fill(&mut self, buf: &mut [u8]) -> Result<(), Error> {
        self.read_bytes(buf)
    }

    fn vector(&mut self, alloc: Global, bytes: u32) -> Result<Vec<u8>, Error> {
        self.read_to_vec(alloc, bytes as usize)
    }

    fn pass(&mut self, count: u32) -> Result<(), Error> {
        self.skip(count)
    }
}

impl<R: Source, E: Endianness> WholeRead for ByteReader<R, E> {
    fn primitive<V: Primitive>(&mut self, order: ByteOrder) -> Result<V, Error> {
        match order {
            ByteOrder::Own => self.read::<V>(),
            ByteOrder::Big => self.read_as::<BE, V>(),
            ByteOrder::Little => self.read_as::<LE, V>(),
        }
    }

    fn fill(&mut self, buf: &mut [u8]) -> Result<(), Error> {
        self.read_bytes(buf)
    }

    fn vector(&mut self, alloc: Global, bytes: u32) -> Result<Vec<u8>, Error> {
        self.read_to_vec(alloc, bytes as usize)
    }

    fn pass(&mut self, count: u32) -> Result<(), Error> {
        self.skip(count)
    }
}

/// Writes whole bytes, with the calls of its layer.
pub trait WholeWrite {
    /// Writes a primitive in an order of bytes.
    fn primitive<V: Primitive>(&mut self, order: ByteOrder, value: V) -> Result<(), Error>;

    /// Writes the bytes of a buffer.
    fn send(&mut self, bytes: &[u8]) -> Result<(), Error>;

    /// Writes `count` zero bits in a layer of bits, or `count` zero bytes in a layer of bytes.
    fn zeros(&mut self, count: u32) -> Result<(), Error>;
}

/// A sink of bits, which counts zeros in bits.
impl<W: BitWrite> WholeWrite for &mut W {
    fn primitive<V: Primitive>(&mut self, order: ByteOrder, value: V) -> Result<(), Error> {
        match order {
            ByteOrder::Own => self.write_from::<V>(value),
            ByteOrder::Big => self.write_as_from::<BE, V>(value),
            ByteOrder::Little => self.write_as_from::<LE, V>(value),
        }
    }

    fn send(&mut self, bytes: &[u8]) -> Result<(), Error> {
        self.write_bytes(bytes)
    }

    fn zeros(&mut self, count: u32) -> Result<(), Error> {
        self.pad(count)
    }
}

impl<W: Target, E: Endianness> WholeWrite for ByteWriter<W, E> {
    fn primitive<V: Primitive>(&mut self, order: ByteOrder, value: V) -> Result<(), Error> {
        match order {
            ByteOrder::Own => self.write::<V>(value),
            ByteOrder::Big => self.write_as::<BE, V>(value),
            ByteOrder::Little => self.write_as::<LE, V>(value),
        }
    }

    fn send(&mut self, bytes: &[u8]) -> Result<(), Error> {
        self.write_bytes(bytes)
    }

    fn zeros(&mut self, count: u32) -> Result<(), Error> {
        self.pad(count)
    }
}

/// Makes a read call for whole bytes, and returns true if the result is the expected one.
pub fn read_whole<R: WholeRead>(
    alloc: Global,
    reader: &mut R,
    call: &Call<'_>,
    want: &str,
) -> Result<bool, Objection> {
    match call.form {
        Form::Bytes => read_buffer(alloc, reader, call.bits, want),
        Form::Skip => Ok(is_done(want, &reader.pass(call.bits))),
        Form::Vector => Ok(is_vector(want, reader.vector(alloc, call.bits))),
        Form::Whole(order, number) => Ok(read_number(reader, order, number, want)),
        _ => Err(Objection::BAD_FORM),
    }
}

fn read_buffer<R: WholeRead>(
    alloc: Global,
    reader: &mut R,
    bytes: u32,
    want: &str,
) -> Result<bool, Objection> {
    let mut buf: Vec<u8> = Vec::new(alloc);
    buf.resize(bytes as usize, 0)?;
    match reader.fill(buf.as_mut_slice()) {
        Ok(()) => Ok(are_bytes(want, buf.as_slice())),
        Err(error) => Ok(want == error_name(&error)),
    }
}

/// Returns true if `want` is the result of a call: its bytes, or the name of its error.
fn is_vector(want: &str, answer: Result<Vec<u8>, Error>) -> bool {
    match answer {
        Ok(bytes) => are_bytes(want, bytes.as_slice()),
        Err(error) => want == error_name(&error),
    }
}

/// Reads a primitive of type V with its bytes in this order. Returns true if the result is the number or
/// the error that `want` spells.
fn read_primitive<V: Primitive + FromStr<Err = ParseIntError> + PartialEq + Drop, R: WholeRead>(
    reader: &mut R,
    order: ByteOrder,
    want: &str,
) -> bool {
    is_number(want, reader.primitive::<V>(order))
}

fn read_number<R: WholeRead>(reader: &mut R, order: ByteOrder, number: Number, want: &str) -> bool {
    match number {
        Number::Unsigned(size) => unsigned!(size, read_primitive(reader, order, want)),
        Number::Signed(size) => signed!(size, read_primitive(reader, order, want)),
    }
}

/// Makes a write call for whole bytes.
pub fn write_whole<W: WholeWrite>(alloc: Global, writer: &mut W, call: &Call<'_>) -> Answer {
    let value = call.value;
    match call.form {
        Form::Bytes => Ok(writer.send(bytes_of(alloc, value)?.as_slice())),
        Form::Pad => Ok(writer.zeros(call.bits)),
        Form::Whole(order, number) => write_number(writer, order, number, value),
        _ => Err(Objection::BAD_FORM),
    }
}

/// Writes the primitive that a text spells, in an order of bytes.
fn write_primitive<V: Primitive + FromStr<Err = ParseIntError>, W: WholeWrite>(
    writer: &mut W,
    order: ByteOrder,
    value: &str,
) -> Answer {
    Ok(writer.primitive::<V>(order, number(value)?))
}

fn write_number<W: WholeWrite>(
    writer: &mut W,
    order: ByteOrder,
    number: Number,
    value: &str,
) -> Answer {
    match number {
        Number::Unsigned(size) => unsigned!(size, write_primitive(writer, order, value)),
        Number::Signed(size) => signed!(size, write_primitive(writer, order, value)),
    }
}
