//! The laws of recordings.
//!
//! The contract of each function is a law. Its body is empty.
ghost use Rattle.std.specs.Prelude.{◌≡◌, ◌++◌, List, Bool, length};
ghost use Rattle.bitstream_count.specs.declared.error.Error.{Error};
ghost use Rattle.bitstream_count.specs.declared.error.Error.TheVariants.{OutOfMemory};
ghost use Rattle.bitstream_stream.specs.Writing.Sink.{WriteRefused};
ghost use Rattle.bitstream_sink.specs.Recorder.{recorded_bits};

use crate::recorder::BitRecorder;
use bitstream_order::order::Endianness;
use bitstream_stream::write::BitWrite;
use std::alloc::Allocator;

/// Bits appended to a recorder follow the bits that were recorded before, and the recorder's length
/// is their number.
pub fn recordings_grow<N, E: Endianness, A: Allocator>()
    // The bits appended follow the bits that were recorded before.
    ensures grow { (old new : BitRecorder N E A) (x : List Bool) →
        ⟦<BitRecorder<N, E, A> as BitWrite>⟧.sink.appends old x new
        → recorded_bits E.order new ≡ recorded_bits E.order old ++ x }
    // The recorder's length is the number of bits that were recorded.
    ensures count { (recorder : BitRecorder N E A) →
        ⟦<BitRecorder<N, E, A> as BitWrite>⟧.sink.len recorder
        ≡ length (recorded_bits E.order recorder) }
{}

/// The only error that makes a recorder fail is `OutOfMemory`.
pub fn recorders_lack_memory<N, E: Endianness, A: Allocator>()
    ensures { (old new : BitRecorder N E A) (x : List Bool) (error : Error) →
        WriteRefused ⟦<BitRecorder<N, E, A> as BitWrite>⟧.sink old x error new
        → error ≡ OutOfMemory }
{}
