//! Write calls of the rows, on sinks of bits, and calls on recorders.
use crate::answer::is_done;
use crate::call::Call;
use crate::form::Form;
use crate::objection::{Difference, Objection, agrees};
use crate::row::{Kind, Order};
use crate::writes::write_call;
use bitstream_io::{BE, BitRecorder, BitWrite, Endianness, Error, LE};
use std::alloc::Global;

/// A recorder of bits.
pub type Recorder<E> = BitRecorder<u32, E, Global>;

/// Makes calls on a sink. Objects if a result differs.
pub fn call_sink<W: BitWrite>(
    alloc: Global,
    sink: &mut W,
    calls: &[Call<'_>],
    what: Difference,
) -> Result<(), Objection> {
    for call in calls {
        let same = sink_call(alloc, sink, call, call.answer)?;
        agrees(same, what)?;
    }
    Ok(())
}

/// Makes the calls that a text spells, separated by strokes, on a recorder, and ignores their results.
pub fn give<E: Endianness>(
    alloc: Global,
    recorder: &mut Recorder<E>,
    calls: &str,
) -> Result<(), Objection> {
    if calls.trim().is_empty() {
        return Ok(());
    }
    for spelled in calls.split('|') {
        let call = Call::parse(alloc, Kind::Write, spelled)?;
        write_call(alloc, recorder, &call, call.answer)?;
    }
    Ok(())
}

/// Makes calls on a new recorder, and plays it.
fn play_calls<E: Endianness + Drop, W: BitWrite>(
    alloc: Global,
    writer: &mut W,
    calls: &str,
) -> Result<Result<(), Error>, Objection> {
    let mut recorder: Recorder<E> = BitRecorder::new(alloc);
    give(alloc, &mut recorder, calls)?;
    Ok(recorder.playback(writer))
}

/// Makes a write call, or plays a recorder, and returns true if the result is the expected one.
pub fn sink_call<W: BitWrite>(
    alloc: Global,
    writer: &mut W,
    call: &Call<'_>,
    want: &str,
) -> Result<bool, Objection> {
    let answer = match call.form {
        Form::Record(Order::Big) => play_calls::<BE, W>(alloc, writer, call.value)?,
        Form::Record(Order::Little) => play_calls::<LE, W>(alloc, writer, call.value)?,
        _ => return write_call(alloc, writer, call, want),
    };
    Ok(is_done(want, &answer))
}
