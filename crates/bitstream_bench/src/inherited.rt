//! A user's own reader, writer and reader of bytes with only the required calls: each other call has
//! the default body of the trait.
ghost use Rattle.bitstream_io.specs.ByteReads.{inner_byte_source};
ghost use Rattle.bitstream_io.specs.Reads.{inner_source};
ghost use Rattle.bitstream_io.specs.Sink.{inner_sink};

use crate::asserts::{are, each_holds, ended, failed, gives};
use bitstream_io::{
    BE, BitCount, BitRead, BitReader, BitWrite, BitWriter, Bits, ByteRead, ByteReader, Count,
    Endianness, Error, LE, Primitive, SignedCount, SignedInteger, Slice, SliceMut, UnsignedInteger,
};
use std::alloc::Global;

/// A reader that passes each required call to another reader.
#[derive(Drop)]
struct OwnReader<R> {
    inner: R,
}

impl<R: BitRead> BitRead for OwnReader<R> {
    ghost source = { inner_source (λ reader. reader.inner) R.source };

    fn read_unsigned_counted<C: Count, U: UnsignedInteger>(&mut self, bits: C) -> Result<U, Error> {
        self.inner.read_unsigned_counted(bits)
    }

    fn read_signed_counted<C: SignedCount, S: SignedInteger>(
        &mut self,
        bits: C,
    ) -> Result<S, Error> {
        self.inner.read_signed_counted(bits)
    }

    fn read_to<V: Primitive>(&mut self) -> Result<V, Error> {
        self.inner.read_to()
    }

    fn read_as_to<F: Endianness, V: Primitive>(&mut self) -> Result<V, Error> {
        self.inner.read_as_to::<F, V>()
    }

    fn byte_aligned(&self) -> bool {
        self.inner.byte_aligned()
    }

    fn byte_align(&mut self) {
        self.inner.byte_align()
    }

    fn fail(&mut self) {
        self.inner.fail()
    }
}

/// A sink that passes each required call to another sink.
#[derive(Drop)]
struct OwnWriter<W> {
    inner: W,
}

impl<W: BitWrite> BitWrite for OwnWriter<W> {
    ghost sink = { inner_sink (λ writer. writer.inner) W.sink };

    fn write_unsigned_counted<C: Count, U: UnsignedInteger>(
        &mut self,
        count: C,
        value: U,
    ) -> Result<(), Error> {
        self.inner.write_unsigned_counted(count, value)
    }

    fn write_signed_counted<C: SignedCount, S: SignedInteger>(
        &mut self,
        count: C,
        value: S,
    ) -> Result<(), Error> {
        self.inner.write_signed_counted(count, value)
    }

    fn write_from<V: Primitive>(&mut self, value: V) -> Result<(), Error> {
        self.inner.write_from(value)
    }

    fn write_as_from<F: Endianness, V: Primitive>(&mut self, value: V) -> Result<(), Error> {
        self.inner.write_as_from::<F, V>(value)
    }

    fn byte_aligned(&self) -> bool {
        self.inner.byte_aligned()
    }

    fn has_room(&self, bits: u128) -> bool {
        self.inner.has_room(bits)
    }
}

/// A reader of bytes that passes each required call to another one.
#[derive(Drop)]
struct OwnBytes<R> {
    inner: R,
}

impl<R: ByteRead> ByteRead for OwnBytes<R> {
    ghost source = { inner_byte_source (λ reader. reader.inner) R.source };

    fn read<V: Primitive>(&mut self) -> Result<V, Error> {
        self.inner.read()
    }

    fn read_as<F: Endianness, V: Primitive>(&mut self) -> Result<V, Error> {
        self.inner.read_as::<F, V>()
    }

    fn skip(&mut self, bytes: u32) -> Result<(), Error> {
        self.inner.skip(bytes)
    }
}

/// Words, whole bytes after a bit, and codes, big-endian, each filled up to the end of a byte.
const WRITTEN: [u8; 35] = [
    0xce, 0x75, 0xaf, 0x00, 0x8f, 0x69, 0x9d, 0x80, 0, 0, 0, 0, 0, 0, 0, 0, 0, 0, 0, 0, 0, 0, 0,
    0x06, 0x82, 0x40, 0xa0, 0xc0, 0x81, 0x81, 0xff, 0x3f, 0xf3, 0xe0, 0x40,
];

/// Writes the words.
fn writes_words<W: BitWrite>(writer: &mut W) -> bool {
    writer.write_bit(true).is_ok()
        & writer.write_unsigned::<Bits<4>, u8>(9).is_ok()
        & writer.write_signed::<Bits<5>, i16>(-7).is_ok()
        & writer.write_const::<Bits<3>, Bits<6>>().is_ok()
        & writer.write_count(BitCount::<7>::new::<5>()).is_ok()
        & writer.write_unsigned_var(6, 43u8).is_ok()
        & writer.write_signed_var(3, -2i8).is_ok()
        & writer.byte_align().is_ok()
}

/// Writes the bytes, with zeros among them.
fn writes_bytes<W: BitWrite>(writer: &mut W) -> bool {
    writer.write_bit(true).is_ok()
        & writer.write_bytes(&[0x1e, 0xd3, 0x3b]).is_ok()
        & writer.pad(130).is_ok()
        & writer.write_as_from::<LE, u16>(0x1234).is_ok()
        & writer.write_from(0x0506_u16).is_ok()
        & writer.byte_align().is_ok()
}

/// Writes numbers of variable width, each twice, and unary numbers.
fn writes_codes<W: BitWrite>(writer: &mut W) -> bool {
    writer.write_unsigned_vbr::<Bits<4>, u8>(8).is_ok()
        & writer.write_unsigned_vbr::<Bits<4>, u8>(8).is_ok()
        & writer.write_signed_vbr::<Bits<4>, i8>(-128).is_ok()
        & writer.write_signed_vbr::<Bits<4>, i8>(-128).is_ok()
        & writer.write_unary::<Bits<0>>(3).is_ok()
        & writer.write_unary::<Bits<1>>(5).is_ok()
        & writer.byte_align().is_ok()
}

#[test]
fn calls_that_a_writer_inherits_write(rt: HostRuntime) {
    let mut bytes = [0xee; 35];
    let mut writer = OwnWriter {
        inner: BitWriter::<_, BE>::new(SliceMut::new(&mut bytes)),
    };
    each_holds(
        &rt,
        &[
            writes_words(&mut writer),
            writes_bytes(&mut writer),
            writes_codes(&mut writer),
        ],
    );
    are(&rt, &bytes, &WRITTEN);
}

/// Returns true if the words are read.
fn reads_words<R: BitRead>(reader: &mut R) -> bool {
    let same = gives(reader.read_bit(), true)
        & gives(reader.read_unsigned::<Bits<4>, u8>(), 9)
        & gives(reader.read_signed::<Bits<5>, i16>(), -7)
        & reader
            .read_const::<Bits<3>, Bits<6>, Error>(Error::Place)
            .is_ok()
        & gives(reader.read_count::<BitCount<7>>().map(u32::from), 5)
        & gives(reader.read_unsigned_var(6), 43u8)
        & gives(reader.read_signed_var(3), -2i8);
    reader.byte_align();
    same
}

/// Returns true if a vector of one byte is read, and it is `byte`.
fn reads_vector<R: BitRead>(alloc: Global, reader: &mut R, byte: u8) -> bool {
    matches!(reader.read_to_vec(alloc, 1), Ok(read) if read.as_slice() == [byte].as_slice())
}

/// Returns true if the bytes are read, and the zeros skipped.
fn reads_bytes<R: BitRead>(alloc: Global, reader: &mut R) -> bool {
    let mut bytes = [0; 1];
    let same = reader.skip(1).is_ok()
        & reader.read_bytes(&mut bytes).is_ok()
        & gives(reader.read_to_bytes::<[u8; 1]>(), [0xd3])
        & reads_vector(alloc, reader, 0x3b)
        & reader.skip(130).is_ok()
        & gives(reader.read_as_to::<LE, u16>(), 0x1234)
        & gives(reader.read_to::<u16>(), 0x0506);
    reader.byte_align();
    same & (bytes == [0x1e])
}

/// Returns true if the numbers of variable width and the unary numbers are read.
fn reads_codes<R: BitRead>(reader: &mut R) -> bool {
    let same = gives(reader.read_unsigned_vbr::<Bits<4>, u8>(), 8)
        & gives(reader.read_unsigned_vbr_any::<Bits<4>, u8>(), 8)
        & gives(reader.read_signed_vbr::<Bits<4>, i8>(), -128)
        & gives(reader.read_signed_vbr_any::<Bits<4>, i8>(), -128)
        & gives(reader.read_unary::<Bits<0>>(), 3)
        & gives(reader.read_unary::<Bits<1>>(), 5);
    reader.byte_align();
    same
}

/// Returns true if a reader is at the end of its bytes, and fails there.
fn ends<R: BitRead>(reader: &mut R) -> bool {
    ended(reader.read_bit()) & failed(reader.read_unsigned_var::<u8>(0))
}

#[test]
fn calls_that_a_reader_inherits_read(rt: HostRuntime) {
    let mut reader = OwnReader {
        inner: BitReader::<_, BE>::new(Slice::new(&WRITTEN)),
    };
    each_holds(
        &rt,
        &[
            reads_words(&mut reader),
            reads_bytes(rt.alloc(), &mut reader),
            reads_codes(&mut reader),
            ends(&mut reader),
        ],
    );
}

/// Returns true if a vector of the two bytes after 5 is read.
fn reads_two<R: ByteRead>(alloc: Global, reader: &mut R) -> bool {
    matches!(reader.read_to_vec(alloc, 2), Ok(read) if read.as_slice() == [0x69, 0x9d].as_slice())
}

/// Returns true if each call that a reader of bytes inherits reads the bytes, and meets the end.
fn reads_each_byte<R: ByteRead>(alloc: Global, reader: &mut R) -> bool {
    let mut two = [0; 2];
    let read = reader.read_bytes(&mut two).is_ok()
        & gives(reader.read_to_bytes::<[u8; 3]>(), [0xaf, 0x00, 0x8f])
        & reads_two(alloc, reader)
        & ended(reader.read_to_vec(alloc, usize::MAX));
    read & (two == [0xce, 0x75])
}

#[test]
fn calls_that_a_reader_of_bytes_inherits_read(rt: HostRuntime) {
    let mut reader = OwnBytes {
        inner: ByteReader::<_, BE>::new(Slice::new(&WRITTEN)),
    };
    each_holds(&rt, &[reads_each_byte(rt.alloc(), &mut reader)]);
}
