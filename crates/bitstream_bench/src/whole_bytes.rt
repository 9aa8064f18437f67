//! Whole bytes: the number of requests for primitives and long vectors, and failed allocations. Long
//! skips and pads are test vectors of `bitstream_vectors`.
use crate::asserts::{failed, gives, same};
use bitstream_io::{
    BE, BitRead, BitReader, BitWrite, BitWriter, ByteRead, ByteReader, Endianness, Error, LE,
};
use std::alloc::Global;
use std::process::Abort;
use test_streams::{Count, Endless, RefuseMemory};

/// Returns `len` bytes, of which neighbors differ, or fewer if an allocation fails.
fn pattern(alloc: Global, len: usize) -> Vec<u8> {
    let mut bytes = Vec::new(alloc);
    let mut next = 0x5au8;
    for _ in 0..len {
        let _ = bytes.push(next);
        next = next.wrapping_mul(5).wrapping_add(3);
    }
    bytes
}

/// Writes `place` bits and then bytes.
fn writes_behind<W: BitWrite>(writer: &mut W, place: u32, bytes: &[u8]) -> bool {
    writer.write_unsigned_var(place, 1u8).is_ok()
        & writer.write_bytes(bytes).is_ok()
        & writer.byte_align().is_ok()
}

/// The ways in which bytes are read.
#[derive(Clone, Copy, Drop)]
enum Form {
    /// A primitive of 20 bytes, and then an empty buffer.
    Primitive,
    /// A vector.
    Vector,
}

/// Returns true if these bytes are read as a primitive of 20 bytes, and then an empty buffer.
fn reads_primitive<R: BitRead>(reader: &mut R, bytes: &[u8]) -> bool {
    let same = matches!(reader.read_to::<[u8; 20]>(), Ok(read) if read.as_slice() == bytes);
    same & reader.read_bytes(&mut []).is_ok()
}

/// Returns true if these bytes are read as a vector.
fn reads_vector<R: BitRead>(alloc: Global, reader: &mut R, bytes: &[u8]) -> bool {
    matches!(reader.read_to_vec(alloc, bytes.len()), Ok(read) if read.as_slice() == bytes)
}

/// Returns true if `place` bits and the bytes after them are read as they were written, with `requests` requests.
fn goes_in<E: Endianness + Drop>(
    alloc: Global,
    form: Form,
    place: u32,
    bytes: &[u8],
    requests: u64,
) -> bool {
    let mut writer = BitWriter::<_, E>::new(Vec::new(alloc));
    let written = writes_behind(&mut writer, place, bytes);
    let whole = writer.into_writer();
    let mut reader = BitReader::<_, E>::new(Count {
        inner: whole.as_slice(),
        requests: 0,
        refused: 0,
    });
    let prefix = reader.read_unsigned_var::<u8>(place).is_ok();
    let same = match form {
        Form::Primitive => reads_primitive(&mut reader, bytes),
        Form::Vector => reads_vector(alloc, &mut reader, bytes),
    };
    written & prefix & same & (reader.into_reader().requests == requests)
}

/// The form in which bytes are read, the number of bits before them, the number of bytes, and the number of requests.
const PIECES: [(Form, u32, usize, u64); 4] = [
    (Form::Primitive, 0, 20, 1),
    (Form::Primitive, 1, 20, 1 + 3),
    (Form::Vector, 0, 9000, 3),
    (Form::Vector, 3, 9000, 1 + 4 + 4 + 1),
];

/// Asserts that the bytes of each row are read back, in either order of bits.
fn each_goes_in(rt: &impl Abort, alloc: Global, rows: &[(Form, u32, usize, u64)]) {
    for (form, place, len, requests) in rows {
        let bytes = pattern(alloc, *len);
        let high = goes_in::<BE>(alloc, *form, *place, &bytes, *requests);
        let low = goes_in::<LE>(alloc, *form, *place, &bytes, *requests);
        same(rt, (*len, *place, high, low), (*len, *place, true, true));
    }
}

#[test]
fn long_bytes_go_in_pieces(rt: HostRuntime) {
    each_goes_in(&rt, rt.alloc(), &PIECES);
}

/// Returns true if a read of 9000 bytes into a vector succeeds when memory serves its three growths,
/// and a reader of bits fails otherwise.
fn bits_grow<R: BitRead>(alloc: Global, served: u32, reader: &mut R) -> bool {
    let answer = reader.read_to_vec(RefuseMemory::new(alloc, served), 9000);
    let failed = failed(reader.read_bit());
    match answer {
        Ok(bytes) => (served == 3) & !failed & (bytes.len() == 9000),
        Err(error) => (served < 3) & failed & matches!(error, Error::OutOfMemory),
    }
}

/// Returns true if a reader of bytes reads such a vector in the same way, and can continue in either case.
fn bytes_grow<R: ByteRead>(alloc: Global, served: u32, reader: &mut R) -> bool {
    let answer = reader.read_to_vec(RefuseMemory::new(alloc, served), 9000);
    let goes_on = gives(reader.read(), 0xa5_u8);
    match answer {
        Ok(bytes) => (served == 3) & goes_on & (bytes.as_slice().get(8999).copied() == Some(0xa5)),
        Err(error) => (served < 3) & goes_on & matches!(error, Error::OutOfMemory),
    }
}

#[test]
fn each_growth_may_lack_memory(rt: HostRuntime) {
    for served in 0..4 {
        let mut bits = BitReader::<_, BE>::new(Endless { byte: 0xa5 });
        let mut bytes = ByteReader::<_, BE>::new(Endless { byte: 0xa5 });
        let bits = bits_grow(rt.alloc(), served, &mut bits);
        let bytes = bytes_grow(rt.alloc(), served, &mut bytes);
        same(&rt, (served, bits, bytes), (served, true, true));
    }
}
