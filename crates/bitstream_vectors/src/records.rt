//! Rows of recorders.
use crate::answer::{bytes_of, is_done};
use crate::call::{Call, number};
use crate::form::Form;
use crate::objection::{Difference, Objection, agrees};
use crate::row::{Kind, Order, calls_of, order_of};
use crate::sinks::{Recorder, give, sink_call};
use bitstream_io::{BE, BitRecorder, BitWrite, BitWriter, Endianness, Error, LE};
use std::alloc::Global;

/// The use of a recorder.
#[derive(Clone, Copy, Drop)]
struct Played {
    /// The number of bits that it holds.
    recorded: u32,
    /// The order of the writer to which it is played.
    to: Order,
    /// The bits written before: their number, and their value.
    behind: (u32, u8),
}

/// Splits a text about a recorder into its words: `to ORDER ; behind N V ; recorded L`.
fn played_of(text: &str) -> Option<(&str, &str, &str, &str)> {
    let (to, rest) = text.strip_prefix("to ")?.split_once(" ; behind ")?;
    let (behind, recorded) = rest.split_once(" ; recorded ")?;
    let (bits, value) = behind.split_once(' ')?;
    Some((to, bits, value, recorded))
}

impl Played {
    /// Parses the text.
    fn parse(text: &str) -> Result<Played, Objection> {
        let Some((to, bits, value, recorded)) = played_of(text) else {
            return Err(Objection::BAD_FORM);
        };
        Ok(Played {
            recorded: number(recorded)?,
            to: order_of(to)?,
            behind: (number(bits)?, number(value)?),
        })
    }
}

/// Returns the shorter of a recorder and a new one on which calls are made.
fn best_of<E: Endianness + Drop>(
    alloc: Global,
    recorder: Recorder<E>,
    calls: &str,
) -> Result<Recorder<E>, Objection> {
    let mut candidate: Recorder<E> = BitRecorder::new(alloc);
    recorder.best(&mut candidate, |candidate| give(alloc, candidate, calls))
}

/// Makes a call on a recorder. The call `best` replaces the recorder by the shorter one.
fn record_call<E: Endianness + Drop>(
    alloc: Global,
    mut recorder: Recorder<E>,
    call: &Call<'_>,
) -> Result<Recorder<E>, Objection> {
    match call.form {
        Form::Best => return best_of(alloc, recorder, call.value),
        Form::Clear => recorder.clear(),
        _ => {
            let same = sink_call(alloc, &mut recorder, call, call.answer)?;
            agrees(same, Difference::Answer)?;
        }
    }
    Ok(recorder)
}

/// Plays a recorder on a writer after some bits, and aligns the writer.
fn play_behind<E: Endianness, W: BitWrite>(
    recorder: &Recorder<E>,
    writer: &mut W,
    behind: (u32, u8),
) -> Result<(), Error> {
    writer.write_unsigned_var(behind.0, behind.1)?;
    recorder.playback(writer)?;
    writer.byte_align()
}

/// Plays a recorder on a new writer of an order, as [`play_behind`].
fn play_to<E: Endianness, F: Endianness>(
    recorder: &Recorder<E>,
    written: &mut Vec<u8>,
    behind: (u32, u8),
) -> Result<(), Error> {
    play_behind(recorder, &mut BitWriter::<_, F>::new(written), behind)
}

/// Makes calls on a new recorder, and plays it.
fn record_in<E: Endianness + Drop>(
    alloc: Global,
    calls: &[Call<'_>],
    bytes: &[u8],
    played: Played,
) -> Result<(), Objection> {
    let mut recorder: Recorder<E> = BitRecorder::new(alloc);
    for call in calls {
        recorder = record_call(alloc, recorder, call)?;
    }
    let recorded = matches!(recorder.written_checked(), Ok(bits) if bits == played.recorded);
    agrees(recorded, Difference::Length)?;
    let mut written = Vec::new(alloc);
    let answer = match played.to {
        Order::Big => play_to::<E, BE>(&recorder, &mut written, played.behind),
        Order::Little => play_to::<E, LE>(&recorder, &mut written, played.behind),
    };
    agrees(is_done("ok", &answer), Difference::Answer)?;
    agrees(written.as_slice() == bytes, Difference::Bytes)
}

/// Plays a row of a recorder. The row has the order of the recorder, its calls, the bytes written, and the
/// use of the recorder.
pub fn play_record(
    alloc: Global,
    order: &str,
    calls: &str,
    bytes: &str,
    after: &str,
) -> Result<(), Objection> {
    let played = Played::parse(after)?;
    let calls = calls_of(alloc, Kind::Write, calls)?;
    let bytes = bytes_of(alloc, bytes)?;
    match order_of(order)? {
        Order::Big => record_in::<BE>(alloc, &calls, &bytes, played),
        Order::Little => record_in::<LE>(alloc, &calls, &bytes, played),
    }
}
