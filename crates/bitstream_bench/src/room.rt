//! Bytes in memory as a target: the request that fails, and the bytes written before it.
use crate::asserts::{each_holds, failed, same};
use bitstream_io::{BE, BitWrite, BitWriter, ByteWrite, ByteWriter, Endianness, Error, LE};
use std::io::ErrorKind;
use std::process::Abort;

/// Returns true if a request failed because there was no room for it.
fn lacks_room(answer: Result<(), Error>) -> bool {
    matches!(answer, Err(Error::Stream(ErrorKind::WriteZero)))
}

/// Returns a result, or the earlier result if that is an error.
fn first_error(before: Result<(), Error>, answer: Result<(), Error>) -> Result<(), Error> {
    match before {
        Ok(()) => answer,
        Err(error) => Err(error),
    }
}

/// Writes 12 bits, 4 bits, two bytes and 4 bits, and aligns, whichever requests fail.
fn write_packet<W: BitWrite>(writer: &mut W) -> Result<(), Error> {
    let answer = writer.write_unsigned_var(12, 0xb1e_u16);
    let answer = first_error(answer, writer.write_unsigned_var(4, 0xd_u8));
    let answer = first_error(answer, writer.write_bytes(&[0x12, 0x34]));
    let answer = first_error(answer, writer.write_unsigned_var(4, 5u8));
    first_error(answer, writer.byte_align())
}

/// The outcome of writing the packet to `room` bytes of a buffer: the number of bytes written, and the
/// whole buffer afterwards, in each bit order. Each byte of the buffer was `ee` before.
struct Row {
    room: usize,
    written: usize,
    big_endian: [u8; 6],
    little_endian: [u8; 6],
}

const ROWS: [Row; 7] = [
    Row {
        room: 0,
        written: 0,
        big_endian: [0xee; 6],
        little_endian: [0xee; 6],
    },
    Row {
        room: 1,
        written: 1,
        big_endian: [0xb1, 0xee, 0xee, 0xee, 0xee, 0xee],
        little_endian: [0x1e, 0xee, 0xee, 0xee, 0xee, 0xee],
    },
    Row {
        room: 2,
        written: 2,
        big_endian: [0xb1, 0xed, 0xee, 0xee, 0xee, 0xee],
        little_endian: [0x1e, 0xdb, 0xee, 0xee, 0xee, 0xee],
    },
    // The two bytes are one request, and none of them is written.
    Row {
        room: 3,
        written: 2,
        big_endian: [0xb1, 0xed, 0xee, 0xee, 0xee, 0xee],
        little_endian: [0x1e, 0xdb, 0xee, 0xee, 0xee, 0xee],
    },
    Row {
        room: 4,
        written: 4,
        big_endian: [0xb1, 0xed, 0x12, 0x34, 0xee, 0xee],
        little_endian: [0x1e, 0xdb, 0x12, 0x34, 0xee, 0xee],
    },
    Row {
        room: 5,
        written: 5,
        big_endian: [0xb1, 0xed, 0x12, 0x34, 0x50, 0xee],
        little_endian: [0x1e, 0xdb, 0x12, 0x34, 0x05, 0xee],
    },
    Row {
        room: 6,
        written: 5,
        big_endian: [0xb1, 0xed, 0x12, 0x34, 0x50, 0xee],
        little_endian: [0x1e, 0xdb, 0x12, 0x34, 0x05, 0xee],
    },
];

/// Checks one row. With enough room, the packet is written; otherwise a request fails for want of room,
/// and the writer has failed. The buffer is `wanted`, and the first `written` bytes are reported as
/// written.
fn leaves<E: Endianness>(room: usize, written: usize, wanted: [u8; 6]) -> bool {
    let room = room.min(6);
    let mut memory = [0xee_u8; 6];
    let mut writer = BitWriter::<_, E>::over(&mut memory[..room]);
    let answer = write_packet(&mut writer);
    let next = writer.write_bit(true);
    let fine = if answer.is_ok() {
        next.is_ok()
    } else {
        lacks_room(answer) & failed(next)
    };
    let target = writer.into_writer();
    let told = (target.as_slice().len() == written)
        & (target.free() == room.saturating_sub(written));
    fine & told & (memory == wanted)
}

/// Asserts that each row leaves this memory, in either order.
fn each_leaves(rt: &impl Abort, rows: &[Row]) {
    for row in rows {
        let high = leaves::<BE>(row.room, row.written, row.big_endian);
        let low = leaves::<LE>(row.room, row.written, row.little_endian);
        same(rt, (row.room, high, low), (row.room, true, true));
    }
}

#[test]
fn writes_while_there_is_room(rt: HostRuntime) {
    each_leaves(&rt, &ROWS);
}

/// Numbers of two bytes are written, and then one byte after a number of two bytes that has no room.
#[test]
fn refuses_the_request_that_has_no_room(rt: HostRuntime) {
    let mut memory = [0u8; 3];
    let mut writer = ByteWriter::<_, LE>::over(&mut memory);
    let first = writer.write(0x0201_u16).is_ok();
    let refused = lacks_room(writer.write(0x0403_u16));
    let last = writer.write(3u8).is_ok();
    each_holds(&rt, &[first, refused, last, memory == [1, 2, 3]]);
}
