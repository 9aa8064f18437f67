//! A counter, and a recorder that is played. Functions that need memory ask the host for it.

use crate::mix::{bytes_of, stepped};
use bitstream_io::{
    BE, BitRecorder, BitWrite, BitWriter, Bits, BitsWritten, Endianness, Error, LE,
};
use std::alloc::Global;

/// Counts the bits of `count` items.
fn counted(count: u64, seed: u64) -> Result<u64, Error> {
    let mut counter = BitsWritten::<u64>::new();
    let mut state = seed;
    let bytes = [0x5Au8; 16];
    for _item in 0..count {
        state = stepped(state);
        counter.write_unsigned_var::<u32>(13, (state >> 51) as u32)?;
        counter.write_unary::<Bits<1>>(((state >> 32) % 60) as u32)?;
        counter.write_unsigned_vbr::<Bits<4>, u64>(state >> 50)?;
        counter.write_bytes(&bytes)?;
    }
    Ok(counter.into_written())
}

/// Counts the bits of numbers, runs, numbers of variable width and bytes.
#[unsafe(no_mangle)]
pub extern "C" fn bench_count(count: u64, seed: u64) -> u64 {
    match counted(count, seed) {
        Ok(bits) => bits,
        Err(_) => u64::MAX,
    }
}

/// Records `count` numbers, and plays them after three zeros.
fn recorded<E: Endianness + Drop>(
    count: u64,
    seed: u64,
    out: &mut [u8],
    alloc: Global,
) -> Result<(), Error> {
    let mut recorder = BitRecorder::<u64, E, Global>::new(alloc);
    let mut state = seed;
    for _item in 0..count {
        state = stepped(state);
        recorder.write_unsigned_var::<u32>(13, (state >> 51) as u32)?;
    }
    let mut writer = BitWriter::<&mut [u8], E>::new(out);
    writer.pad(3)?;
    recorder.playback(&mut writer)?;
    writer.byte_align()
}

/// Records numbers, and plays them to a slice.
#[unsafe(no_mangle)]
pub extern "C" fn bench_record(
    order: u32,
    count: u64,
    seed: u64,
    out: &mut [u8],
    alloc: Global,
) -> u64 {
    let answer = if order == 0 {
        recorded::<BE>(count, seed, out, alloc)
    } else {
        recorded::<LE>(count, seed, out, alloc)
    };
    match answer {
        Ok(()) => bytes_of(count.saturating_mul(13).saturating_add(3)),
        Err(_) => u64::MAX,
    }
}
