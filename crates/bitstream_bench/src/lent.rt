//! Readers and writers lent to a function that takes one by value. Checks the bytes that they move,
//! that the lender continues after these bytes, and that many bytes are one request.
use crate::asserts::{are, each_holds, gives};
use bitstream_io::{
    BE, BitRead, BitReader, BitWrite, BitWriter, ByteRead, ByteReader, ByteWrite, ByteWriter,
};
use test_streams::Count;

const D: [u8; 4] = [0xb1, 0xed, 0x3b, 0xc1];

/// Many bytes.
const MANY: [u8; 4096] = [0xa5; 4096];

/// A stream that counts its requests.
fn counted<S>(inner: S) -> Count<S> {
    Count {
        inner,
        requests: 0,
        refused: 0,
    }
}

/// Takes a reader by value. Returns true if it reads `number` in `bits` bits and then fills `buf`.
fn reads<R: BitRead + Drop>(mut reader: R, bits: u32, number: u8, buf: &mut [u8]) -> bool {
    gives(reader.read_unsigned_var(bits), number) & reader.read_bytes(buf).is_ok()
}

#[test]
fn lent_readers_read(rt: HostRuntime) {
    let mut bytes = [0; 2];
    let mut reader = BitReader::<_, BE>::new(counted(D.as_slice()));
    let prefix = reads(reader.by_ref(), 4, 11, &mut bytes);
    let behind = gives(reader.read_unsigned_var(8), 0xbc_u8);
    let requests = reader.into_reader().requests;
    each_holds(&rt, &[prefix, bytes == [0x1e, 0xd3], behind, requests == 3]);
    let mut many = [0; 4096];
    let mut reader = BitReader::<_, BE>::new(counted(MANY.as_slice()));
    let all = reads(reader.by_ref(), 0, 0, &mut many);
    each_holds(&rt, &[all, reader.into_reader().requests == 1]);
    are(&rt, &many, &MANY);
}

/// Takes a writer by value. Returns true if it writes `number` in `bits` bits and then `bytes`.
fn writes<W: BitWrite + Drop>(mut writer: W, bits: u32, number: u8, bytes: &[u8]) -> bool {
    writer.write_unsigned_var(bits, number).is_ok() & writer.write_bytes(bytes).is_ok()
}

#[test]
fn lent_writers_write(rt: HostRuntime) {
    let mut writer = BitWriter::<_, BE>::new(counted(Vec::new(rt.alloc())));
    let prefix = writes(writer.by_ref(), 4, 11, &[0x1e, 0xd3]);
    let behind = writer.write_unsigned_var(12, 0xbc1_u16).is_ok();
    let stream = writer.into_writer();
    each_holds(&rt, &[prefix, behind, stream.requests == 2]);
    are(&rt, &stream.inner, &D);
    let mut writer = BitWriter::<_, BE>::new(counted(Vec::new(rt.alloc())));
    let all = writes(writer.by_ref(), 0, 0, &MANY);
    let stream = writer.into_writer();
    each_holds(&rt, &[all, stream.requests == 1]);
    are(&rt, &stream.inner, &MANY);
}

/// Takes a reader of bytes by value. Returns true if it reads `byte` and then fills `buf`.
fn reads_whole<R: ByteRead + Drop>(mut reader: R, byte: u8, buf: &mut [u8]) -> bool {
    gives(reader.read(), byte) & reader.read_bytes(buf).is_ok()
}

/// Takes a writer of bytes by value. Returns true if it writes `byte` and then `bytes`.
fn writes_whole<W: ByteWrite + Drop>(mut writer: W, byte: u8, bytes: &[u8]) -> bool {
    writer.write(byte).is_ok() & writer.write_bytes(bytes).is_ok()
}

#[test]
fn lent_readers_of_bytes_read(rt: HostRuntime) {
    let mut two = [0; 2];
    let mut reader = ByteReader::<_, BE>::new(counted(D.as_slice()));
    let prefix = reads_whole(&mut reader, 0xb1, &mut two);
    let behind = gives(reader.read(), 0xc1_u8);
    let requests = reader.into_reader().requests;
    each_holds(&rt, &[prefix, two == [0xed, 0x3b], behind, requests == 3]);
    let mut many = [0; 4095];
    let mut reader = ByteReader::<_, BE>::new(counted(MANY.as_slice()));
    let all = reads_whole(&mut reader, 0xa5, &mut many);
    each_holds(&rt, &[all, reader.into_reader().requests == 2]);
    are(&rt, &many, &MANY[1..]);
}

#[test]
fn lent_writers_of_bytes_write(rt: HostRuntime) {
    let mut writer = ByteWriter::<_, BE>::new(counted(Vec::new(rt.alloc())));
    let prefix = writes_whole(&mut writer, 0xb1, &[0xed, 0x3b]);
    let behind = writer.write(0xc1_u8).is_ok();
    let stream = writer.into_writer();
    each_holds(&rt, &[prefix, behind, stream.requests == 3]);
    are(&rt, &stream.inner, &D);
    let mut writer = ByteWriter::<_, BE>::new(counted(Vec::new(rt.alloc())));
    let all = writes_whole(&mut writer, 0xa5, &MANY[1..]);
    let stream = writer.into_writer();
    each_holds(&rt, &[all, stream.requests == 2]);
    are(&rt, &stream.inner, &MANY);
}
