//! The older names of the calls. A proof shows that each equals the current call; the examples have two more rows.
use crate::asserts::{gives, holds};
use bitstream_io::{BE, BitRead2, BitReader, Bits, Slice};

/// Returns true if two numbers, a signed number, and the number of ones before a 0 are read from the
/// bits 1010 1011 1110.
fn reads_values<R: BitRead2>(reader: &mut R) -> bool {
    gives(reader.read_in::<Bits<4>, u8>(), 10)
        & gives(reader.read::<u8>(2), 2)
        & gives(reader.read_signed_in::<Bits<2>, i8>(), -1)
        & gives(reader.read_unary0(), 3)
}

#[test]
fn older_names_read_values(rt: HostRuntime) {
    let mut reader = BitReader::<_, BE>::new(Slice::new(&[0xab, 0xe5]));
    holds(&rt, reads_values(&mut reader));
}
