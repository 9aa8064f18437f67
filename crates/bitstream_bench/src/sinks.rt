//! Counters and recorders: failed allocations, a length that overflows the counter's type, and a failed
//! candidate. `bitstream_vectors` plays lists of calls.
use crate::asserts::{each_holds, failed, gives, holds};
use bitstream_io::write::{Overflowed, Recorder};
use bitstream_io::{BE, BitRecorder, BitWrite, BitWriteExt, BitWriter, Bits, Error, Growing};
use std::alloc::{Allocator, Global};
use test_streams::RefuseMemory;

/// A recorder in memory whose allocations can fail.
type Refused = BitRecorder<u32, BE, RefuseMemory<Global>>;

/// Returns true if a failed recorder plays nothing.
fn plays_nothing(alloc: Global, recorder: &mut Refused) -> bool {
    let mut writer = BitWriter::<_, BE>::new(Vec::new(alloc));
    failed(recorder.playback(&mut writer)) & writer.into_writer().is_empty()
}

/// Returns true if a recorder plays this byte.
fn plays(alloc: Global, recorder: &mut Refused, byte: u8) -> bool {
    let mut writer = BitWriter::<_, BE>::new(Vec::new(alloc));
    recorder.playback(&mut writer).is_ok() & (writer.into_writer().as_slice() == [byte].as_slice())
}

#[test]
fn refused_recorders_recover(rt: HostRuntime) {
    let mut recorder: Refused = BitRecorder::new(RefuseMemory::new(rt.alloc(), 1));
    holds(&rt, recorder.write::<Bits<8>, u8>(1).is_ok());
    let answer = recorder.write_bytes(&[0x5a; 4096]);
    holds(&rt, matches!(answer, Err(Error::OutOfMemory)));
    holds(&rt, plays_nothing(rt.alloc(), &mut recorder));
    recorder.clear();
    holds(&rt, recorder.write::<Bits<8>, u8>(7).is_ok());
    holds(&rt, plays(rt.alloc(), &mut recorder, 7));
}

/// Returns true if a sink takes many bytes.
fn takes<W: BitWrite>(writer: &mut W) -> bool {
    writer.write_bit(true).is_ok() & writer.write_bytes(&[0xa5; 5000]).is_ok()
}

/// Returns true if a recorder with a capacity takes many bytes in this memory.
fn roomy_takes<A: Allocator + Drop>(alloc: A) -> bool {
    match BitRecorder::<u32, BE, A>::with_capacity(alloc, 16) {
        Ok(mut roomy) => takes(&mut roomy),
        Err(_) => false,
    }
}

/// Checks that a recorder, one with a capacity, and a growing vector take many bytes in this
/// memory.
fn take<A: Allocator + Copy + Drop>(alloc: A) -> [bool; 3] {
    let mut recorder: BitRecorder<u32, BE, A> = BitRecorder::new(alloc);
    let mut growing = BitWriter::<_, BE>::new(Growing::new(Vec::new(alloc)));
    [
        takes(&mut recorder),
        roomy_takes(alloc),
        takes(&mut growing),
    ]
}

#[test]
fn ample_memory_is_never_refused(rt: HostRuntime) {
    each_holds(&rt, &take(rt.alloc()));
}

/// A recorder with a capacity allocates once. If its memory cannot grow, it takes only the bytes of its capacity.
#[test]
fn capacities_are_kept(rt: HostRuntime) {
    let recorder = Refused::with_capacity(RefuseMemory::new(rt.alloc(), 1), 4096);
    let mut recorder = recorder.expect(&rt, "memory is left");
    let taken = recorder.write_bytes(&[0x5a; 4096]).is_ok();
    let more = recorder.write_bytes(&[0x5a]);
    holds(&rt, taken & matches!(more, Err(Error::OutOfMemory)));
}

/// A recorder of one byte is better than a candidate that fails for lack of memory.
#[test]
fn failed_candidates_are_not_given(rt: HostRuntime) {
    let mut recorder: Refused = BitRecorder::new(RefuseMemory::new(rt.alloc(), 1));
    holds(&rt, recorder.write::<Bits<8>, u8>(0xa5).is_ok());
    let mut candidate: Refused = BitRecorder::new(RefuseMemory::new(rt.alloc(), 0));
    let better = recorder.best(&mut candidate, |candidate| {
        let _refused = candidate.write::<Bits<8>, u8>(0x5a);
        Ok::<(), Error>(())
    });
    let plays = match better {
        Ok(mut better) => plays(rt.alloc(), &mut better, 0xa5),
        Err(_) => false,
    };
    holds(&rt, plays);
}

/// Checks that a recorder reports its length after 31 bytes. Checks that after 32 bytes it reports that
/// its length overflows the counter's type, and still takes more bits.
fn passes<A: Allocator>(recorder: &mut BitRecorder<u8, BE, A>) -> [bool; 5] {
    [
        recorder.write_bytes(&[0x5a; 31]).is_ok(),
        gives(recorder.written_checked(), 248),
        recorder.write_bytes(&[0x5a]).is_ok(),
        matches!(recorder.written_checked(), Err(Overflowed)),
        recorder.write_bit(true).is_ok(),
    ]
}

#[test]
fn lengths_may_pass_the_counter(rt: HostRuntime) {
    let recorder = BitRecorder::<u8, BE, _>::with_capacity(rt.alloc(), 32);
    let mut recorder = recorder.expect(&rt, "memory is left");
    each_holds(&rt, &passes(&mut recorder));
}
