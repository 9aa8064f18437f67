//! A user's own prefix code.
use crate::asserts::{gives, holds};
use crate::sign_code::{read_sign, write_sign};
use bitstream_io::{BitRead, BitReader, BitWrite, BitWriter, LE, Slice, SliceMut};

/// Writes three signs, and zeros up to the end of the byte.
fn writes_signs<W: BitWrite>(writer: &mut W) -> bool {
    write_sign(writer, Some(true)).is_ok()
        & write_sign(writer, None).is_ok()
        & write_sign(writer, Some(false)).is_ok()
        & writer.byte_align().is_ok()
}

/// Returns true if three signs are read.
fn reads_signs<R: BitRead>(reader: &mut R) -> bool {
    gives(read_sign(reader), Some(true))
        & gives(read_sign(reader), None)
        & gives(read_sign(reader), Some(false))
}

#[test]
fn codes_of_a_user_are_written_and_read(rt: HostRuntime) {
    let mut bytes = [0; 1];
    let mut writer = BitWriter::<_, LE>::new(SliceMut::new(&mut bytes));
    holds(&rt, writes_signs(&mut writer) & (bytes == [0x0b]));
    let mut reader = BitReader::<_, LE>::new(Slice::new(&[0x0b]));
    holds(&rt, reads_signs(&mut reader));
}
