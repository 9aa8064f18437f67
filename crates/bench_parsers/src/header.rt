//! A struct that is read and written by its own impls of the traits.
ghost use Rattle.bitstream_io.specs.Callers.{plain_reads, same_error};
ghost use Rattle.bench_parsers.specs.Header.{header_decoder, header_writes};

use crate::memory::{Memory, mixed, or_refused, stepped};
use bitstream_io::{
    BE, BitRead, BitReadExt, BitReader, BitWrite, BitWriteExt, BitWriter, Bits, Endianness, Error,
    FromBitStream, LE, Slice, SliceMut, Source, ToBitStream,
};

/// Four fields.
#[derive(Clone, Copy, Debug, PartialEq)]
pub struct Header {
    /// 13 bits.
    pub size: u16,
    /// 3 bits.
    pub kind: u8,
    /// 1 bit.
    pub last: bool,
    /// 15 bits.
    pub time: u16,
}

impl FromBitStream for Header {
    type Error = Error;

    ghost becomes = { same_error };

    ghost reads = { λ o. plain_reads (header_decoder o) };

    fn from_reader<R: BitRead>(reader: &mut R) -> Result<Header, Error> {
        Ok(Header {
            size: reader.read::<Bits<13>, u16>()?,
            kind: reader.read::<Bits<3>, u8>()?,
            last: reader.read::<Bits<1>, bool>()?,
            time: reader.read::<Bits<15>, u16>()?,
        })
    }
}

impl ToBitStream for Header {
    type Error = Error;

    ghost becomes = { same_error };

    ghost writes = { header_writes };

    fn to_writer<W: BitWrite>(&self, writer: &mut W) -> Result<(), Error> {
        writer.write::<Bits<13>, u16>(self.size)?;
        writer.write::<Bits<3>, u8>(self.kind)?;
        writer.write::<Bits<1>, bool>(self.last)?;
        writer.write::<Bits<15>, u16>(self.time)
    }
}

impl Header {
    /// Returns a sum with the fields in it.
    pub fn mix_into(&self, sum: u64) -> u64 {
        let sum = mixed(mixed(sum, u64::from(self.size)), u64::from(self.kind));
        mixed(mixed(sum, u64::from(self.last)), u64::from(self.time))
    }

    /// Returns the header that is made from a state.
    pub fn of(state: u64) -> Header {
        Header {
            size: (state >> 51) as u16,
            kind: (state >> 61) as u8,
            last: state >> 63 == 1,
            time: (state >> 49) as u16,
        }
    }
}

/// Reads headers.
fn read_parse<R: BitRead + Drop>(mut reader: R, count: u64) -> Result<u64, Error> {
    let mut sum = 0u64;
    for _item in 0..count {
        let header: Header = reader.parse()?;
        sum = header.mix_into(sum);
    }
    Ok(sum)
}

/// Writes headers.
fn write_build<T: Memory, E: Endianness>(count: u64, seed: u64, out: T) -> Result<u64, Error> {
    let len = out.free();
    let mut writer = BitWriter::<T, E>::new(out);
    let mut state = seed;
    for _item in 0..count {
        state = stepped(state);
        writer.build(&Header::of(state))?;
    }
    writer.byte_align()?;
    Ok(len.saturating_sub(writer.into_writer().free()) as u64)
}

/// Reads headers, in the order named.
fn in_order_parse<R: Source + Drop>(order: u32, source: R, count: u64) -> u64 {
    or_refused(if order == 0 {
        read_parse(BitReader::<_, BE>::new(source), count)
    } else {
        read_parse(BitReader::<_, LE>::new(source), count)
    })
}

/// Reads headers from a slice's bytes.
#[unsafe(no_mangle)]
pub extern "C" fn bench_read_parse(order: u32, data: &[u8], count: u64) -> u64 {
    in_order_parse(order, data, count)
}

/// Reads headers from a `Slice`.
#[unsafe(no_mangle)]
pub extern "C" fn bench_read_parse_slice(order: u32, data: &[u8], count: u64) -> u64 {
    in_order_parse(order, Slice::new(data), count)
}

/// Writes headers, in the order named.
fn in_order_write_build<T: Memory>(order: u32, count: u64, seed: u64, out: T) -> u64 {
    or_refused(if order == 0 {
        write_build::<_, BE>(count, seed, out)
    } else {
        write_build::<_, LE>(count, seed, out)
    })
}

/// Writes headers to a slice.
#[unsafe(no_mangle)]
pub extern "C" fn bench_write_build(order: u32, count: u64, seed: u64, out: &mut [u8]) -> u64 {
    in_order_write_build(order, count, seed, out)
}

/// Writes headers to a `SliceMut`.
#[unsafe(no_mangle)]
pub extern "C" fn bench_write_build_slice(
    order: u32,
    count: u64,
    seed: u64,
    out: &mut [u8],
) -> u64 {
    in_order_write_build(order, count, seed, SliceMut::new(out))
}

/// Reads headers from a slice's bytes, by `over`.
#[unsafe(no_mangle)]
pub extern "C" fn bench_read_parse_over(order: u32, data: &[u8], count: u64) -> u64 {
    or_refused(if order == 0 {
        read_parse(BitReader::<_, BE>::over(data), count)
    } else {
        read_parse(BitReader::<_, LE>::over(data), count)
    })
}
