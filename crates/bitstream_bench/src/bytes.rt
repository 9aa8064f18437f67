//! Conversions between readers and writers of bits and of bytes. `bitstream_vectors` plays the test vectors of bytes.
use crate::asserts::{are, each_holds, ended, gives, holds, same};
use bitstream_io::{
    BE, BigEndian, BitRead, BitReader, BitWrite, BitWriter, ByteRead, ByteWrite, LE, SeekSource,
    Slice, SliceMut, Source, Target,
};
use std::io::SeekFrom;

const D: [u8; 4] = [0xb1, 0xed, 0x3b, 0xc1];

#[test]
fn goes_from_bits_to_bytes(rt: HostRuntime) {
    let mut reader = BitReader::endian(Slice::new(&D), BigEndian);
    holds(&rt, gives(reader.read_unsigned_var(3), 5u8));
    // The stream is not lent within a byte.
    holds(
        &rt,
        reader.reader().is_none() & reader.bytereader().is_none(),
    );
    let mut bytes = reader.into_bytereader();
    let second = gives(bytes.read(), 0xed_u8);
    let third = gives(bytes.bitreader().read_unsigned_var(4), 3u8);
    let last = gives(bytes.into_bitreader().read_unsigned_var(8), 0xc1_u8);
    holds(&rt, second & third & last);
}

/// Returns true if a lent reader of bytes reads a byte.
fn lends_bytes<R: Source>(reader: &mut BitReader<R, BE>, wanted: u8) -> bool {
    match reader.bytereader() {
        Some(mut bytes) => gives(bytes.read(), wanted),
        None => false,
    }
}

#[test]
fn lends_the_stream_of_a_reader(rt: HostRuntime) {
    let mut reader = BitReader::<_, BE>::new(D.as_slice());
    let first = gives(reader.read_unsigned_var(3), 5u8);
    let mut second = [0];
    let lent = Source::read_exact(reader.aligned_reader(), &mut second).is_ok();
    let third = lends_bytes(&mut reader, 0x3b);
    let last = gives(reader.read_unsigned_var(8), 0xc1_u8);
    each_holds(&rt, &[first, lent, second == [0xed], third, last]);
    // The stream is not lent after the end.
    let end = ended(reader.read_bit());
    holds(&rt, end & reader.reader().is_none());
    same(&rt, reader.into_reader().len(), 0);
}

/// Checks that a reader that took 12 bits, and a reader that met the end, seek to the start.
fn round_trip<R: SeekSource>(reader: &mut BitReader<R, BE>, bits: u32) -> [bool; 7] {
    [
        gives(reader.read_unsigned_var(bits), 0xb1e_u16),
        gives(reader.position_in_bits(), 12),
        gives(reader.seek_bits(SeekFrom::Start(0)), 0),
        gives(reader.read_unsigned_var(bits), 0xb1e_u16),
        ended(reader.read_unsigned_var::<u32>(32)),
        gives(reader.seek_bits(SeekFrom::Start(0)), 0),
        gives(reader.read_unsigned_var(bits), 0xb1e_u16),
    ]
}

/// The width of the words, known only at run time.
#[test]
fn seeks_in_memory(rt: HostRuntime) {
    each_holds(&rt, &round_trip(&mut BitReader::new(Slice::new(&D)), 12));
}

/// Takes a writer by value.
fn writes_number<W: ByteWrite + Drop>(mut writer: W) -> bool {
    writer.write_as::<LE, u16>(0xc13b).is_ok()
}

/// Returns true if a lent writer of bytes writes a number.
fn writes_lent<W: Target>(writer: &mut BitWriter<W, BE>) -> bool {
    match writer.bytewriter() {
        Some(mut bytes) => writes_number(&mut bytes),
        None => false,
    }
}

#[test]
fn lends_the_stream_of_a_writer(rt: HostRuntime) {
    let mut buffer = [0; 3];
    let mut writer = BitWriter::endian(SliceMut::new(&mut buffer), BigEndian);
    let first = writer.write_unsigned_var(3, 5u8).is_ok();
    // The stream is not lent within a byte.
    let kept = writer.writer().is_none();
    let aligned = writer.byte_align().is_ok();
    let lent = writes_lent(&mut writer);
    let flushed = writer.flush().is_ok();
    let last = writer.write_bit(true).is_ok();
    each_holds(&rt, &[first, kept, aligned, lent, flushed, last]);
    let stream = writer.into_bytewriter().into_bitwriter().into_writer();
    are(&rt, stream.as_slice(), &[0xa0, 0x3b, 0xc1]);
}
