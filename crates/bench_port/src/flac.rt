//! Reads and writes the header of a FLAC file.

use crate::memory::Memory;
use crate::mix::{mixed, stepped};
use bitstream_io::{
    BE, BitRead, BitReadExt, BitReader, BitWrite, BitWriteExt, BitWriter, Bits, Error, Slice,
    Source,
};
use std::num::NonZero;

/// Reads the sizes of a header, and mixes them into a sum.
#[inline(always)]
fn sizes<R: BitRead>(reader: &mut R, sum: u64) -> Result<u64, Error> {
    let least: u16 = reader.read_to()?;
    let most: u16 = reader.read_to()?;
    let short = reader.read::<Bits<24>, u32>()?;
    let long = reader.read::<Bits<24>, u32>()?;
    let sum = mixed(mixed(sum, u64::from(least)), u64::from(most));
    Ok(mixed(mixed(sum, u64::from(short)), u64::from(long)))
}

/// Reads the fields of a header about the samples, and mixes them into a sum.
#[inline(always)]
fn samples<R: BitRead>(reader: &mut R, sum: u64) -> Result<u64, Error> {
    let rate = reader.read::<Bits<20>, u32>()?;
    let channels = reader.read::<Bits<3>, NonZero<u8>>()?;
    let bits = reader.read::<Bits<5>, NonZero<u8>>()?;
    let samples = reader.read::<Bits<36>, u64>()?;
    let sum = mixed(mixed(sum, u64::from(rate)), u64::from(channels.get()));
    Ok(mixed(mixed(sum, u64::from(bits.get())), samples))
}

/// Reads headers.
fn headers<R: Source + Drop>(source: R, count: u64) -> Result<u64, Error> {
    let mut reader = BitReader::<R, BE>::new(source);
    let mut sum = 0u64;
    for _item in 0..count {
        sum = sizes(&mut reader, sum)?;
        sum = samples(&mut reader, sum)?;
        let mut md5 = [0u8; 16];
        reader.read_bytes(&mut md5)?;
        sum = mixed(sum, u64::from(md5[0]));
        sum = mixed(sum, u64::from(md5[15]));
    }
    Ok(sum)
}

/// Reads headers from a slice's bytes.
#[unsafe(no_mangle)]
pub extern "C" fn bench_read_flac_header(data: &[u8], count: u64) -> u64 {
    match headers(data, count) {
        Ok(value) => value,
        Err(_) => u64::MAX,
    }
}

/// Reads headers from a `Slice`.
#[unsafe(no_mangle)]
pub extern "C" fn bench_read_flac_header_slice(data: &[u8], count: u64) -> u64 {
    match headers(Slice::new(data), count) {
        Ok(value) => value,
        Err(_) => u64::MAX,
    }
}

/// Writes the sizes of a header.
#[inline(always)]
fn write_sizes<W: BitWrite>(writer: &mut W, state: u64) -> Result<(), Error> {
    writer.write_from((state >> 48) as u16)?;
    writer.write_from(((state >> 32) % 65536) as u16)?;
    writer.write::<Bits<24>, u32>((state >> 40) as u32)?;
    writer.write::<Bits<24>, u32>(((state >> 30) % 16777216) as u32)
}

/// Writes the fields of a header about the samples.
#[inline(always)]
fn write_samples<W: BitWrite>(writer: &mut W, state: u64) -> Result<(), Error> {
    writer.write::<Bits<20>, u32>((state >> 44) as u32)?;
    if let Some(channels) = NonZero::<u8>::new((state >> 61) as u8 + 1) {
        writer.write::<Bits<3>, NonZero<u8>>(channels)?;
    }
    if let Some(bits) = NonZero::<u8>::new((state >> 59) as u8 + 1) {
        writer.write::<Bits<5>, NonZero<u8>>(bits)?;
    }
    writer.write::<Bits<36>, u64>(state >> 28)
}

/// Writes headers.
pub(crate) fn write_headers<T: Memory>(count: u64, seed: u64, out: T) -> Result<(), Error> {
    let mut writer = BitWriter::<T, BE>::new(out);
    let mut state = seed;
    let md5 = [0x5Au8; 16];
    for _item in 0..count {
        state = stepped(state);
        write_sizes(&mut writer, state)?;
        write_samples(&mut writer, state)?;
        writer.write_bytes(&md5)?;
    }
    writer.byte_align()
}

/// Writes headers.
#[unsafe(no_mangle)]
pub extern "C" fn bench_write_flac_header(count: u64, seed: u64, out: &mut [u8]) -> u64 {
    match write_headers(count, seed, out) {
        Ok(()) => count.saturating_mul(34),
        Err(_) => u64::MAX,
    }
}
