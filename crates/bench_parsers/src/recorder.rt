//! A recorder that is played back.

use crate::memory::{or_refused, stepped};
use bitstream_io::{
    BE, BitRecorder, BitWrite, BitWriteExt, BitWriter, Endianness, Error, LE, SliceMut,
};
use std::alloc::Global;

/// Records 4 KiB in numbers of 13 bits and plays them back to a `SliceMut`.
fn write_record<E: Endianness + Drop>(
    count: u64,
    seed: u64,
    out: &mut [u8],
    alloc: Global,
) -> Result<u64, Error> {
    let mut state = seed;
    let mut total = 0u64;
    for _item in 0..count {
        let mut recorder = BitRecorder::<u32, E, Global>::new(alloc);
        for _number in 0..2520 {
            state = stepped(state);
            recorder.write_var::<u16>(13, (state >> 51) as u16)?;
        }
        let mut writer = BitWriter::<SliceMut, E>::over(out);
        recorder.playback(&mut writer)?;
        writer.byte_align()?;
        total = total.wrapping_add(32760);
    }
    Ok(total)
}

/// Records numbers, and plays them back.
#[unsafe(no_mangle)]
pub extern "C" fn bench_write_record_slice(
    order: u32,
    count: u64,
    seed: u64,
    out: &mut [u8],
    alloc: Global,
) -> u64 {
    or_refused(if order == 0 {
        write_record::<BE>(count, seed, out, alloc)
    } else {
        write_record::<LE>(count, seed, out, alloc)
    })
}
