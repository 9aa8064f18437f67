//! Rows played in each way.
use crate::call::Call;
use crate::counts::play_count;
use crate::objection::{Difference, Objection, agrees};
use crate::play::{Fault, Moved, Way, play, play_memory};
use crate::records::play_record;
use crate::row::{Kind, Layer, Row};
use std::alloc::Global;
use std::io::ErrorKind;

/// The error kinds of streams that are read.
const READ_FAULTS: [ErrorKind; 3] = [
    ErrorKind::ConnectionReset,
    ErrorKind::OutOfMemory,
    ErrorKind::UnexpectedEof,
];

/// The error kinds of streams that are written.
const WRITE_FAULTS: [ErrorKind; 3] = [
    ErrorKind::BrokenPipe,
    ErrorKind::OutOfMemory,
    ErrorKind::UnexpectedEof,
];

/// Plays a row. If the row has symbols of prefix codes, plays it a second time with the precomputed code
/// words of the trees.
///
/// # Errors
///
/// The first difference from the row.
pub fn replay(alloc: Global, line: &str) -> Result<(), Objection> {
    play_line(alloc, line)?;
    if line.contains("prefix ") {
        let by_words = line.replace(alloc, "prefix ", "words ")?;
        play_line(alloc, by_words.as_str())?;
    }
    Ok(())
}

/// Plays the row of a line.
fn play_line(alloc: Global, line: &str) -> Result<(), Objection> {
    let columns: Vec<&str> = line.split('\t').collect(alloc)?;
    match columns.as_slice() {
        [kind, order, calls, bytes] => {
            play_stream(alloc, &Row::parse(alloc, kind, order, calls, bytes, "")?)
        }
        [kind, order, calls, bytes, after] => play_row(alloc, kind, order, calls, bytes, after),
        _ => Err(Objection::BAD_FORM),
    }
}

/// Plays a row with facts about the state after its calls. The row is for a counter (with its type instead
/// of an order), for a recorder, or for a reader or writer.
fn play_row(
    alloc: Global,
    kind: &str,
    order: &str,
    calls: &str,
    bytes: &str,
    after: &str,
) -> Result<(), Objection> {
    match kind {
        "count" if bytes == "-" => play_count(alloc, order, calls, after),
        "record" => play_record(alloc, order, calls, bytes, after),
        _ => play_stream(alloc, &Row::parse(alloc, kind, order, calls, bytes, after)?),
    }
}

/// Plays a row over its stream, over a stream with short reads and writes, over a `Slice`, over streams
/// that fail from each of its requests on, and on the reader of bytes in memory.
fn play_stream(alloc: Global, row: &Row<'_>) -> Result<(), Objection> {
    let steps = steps_of(alloc, row)?;
    play_whole(alloc, row, Way::Plain)?;
    if row.kind == Kind::Read && !row.begins_elsewhere() {
        play_whole(alloc, row, Way::Slice)?;
    }
    if row.kind == Kind::Read && row.layer == Layer::Bits && row.stays_within() {
        if !row.has_places() {
            cut_each(alloc, row, &steps)?;
        }
        read_all(alloc, row)?;
    }
    play_whole(alloc, row, Way::Short)?;
    refuse_each(alloc, row, &steps)
}

/// Returns the effect of the calls before each call, and last the effect of all calls.
fn steps_of(alloc: Global, row: &Row<'_>) -> Result<Vec<Moved>, Objection> {
    let calls = row.calls.as_slice();
    let mut steps = Vec::new(alloc);
    steps.push(play(alloc, row, &[], Way::Plain)?)?;
    for at in 0..calls.len() {
        steps.push(play(alloc, row, &calls[..=at], Way::Plain)?)?;
    }
    Ok(steps)
}

/// Plays a whole row over a stream that serves each request, and compares the state after its calls with the row.
fn play_whole(alloc: Global, row: &Row<'_>, way: Way) -> Result<(), Objection> {
    let moved = play(alloc, row, &row.calls, way)?;
    let after = row.after;
    if row.kind == Kind::Write {
        agrees(moved.bytes == row.bytes.len(), Difference::Bytes)?;
    }
    agrees_with(after.moved, moved.bytes, Difference::Bytes)?;
    agrees_with(after.requests, moved.requests, Difference::Requests)?;
    let most = after.most_requests.unwrap_or(u64::MAX);
    agrees(moved.requests <= most, Difference::Requests)?;
    match after.place {
        Some(place) => stands_at(alloc, row, way, moved, place),
        None => Ok(()),
    }
}

/// Objects if a row states a fact that does not hold.
fn agrees_with<T: Copy + PartialEq>(
    want: Option<T>,
    found: T,
    what: Difference,
) -> Result<(), Objection> {
    match want {
        Some(want) => agrees(want == found, what),
        None => Ok(()),
    }
}

/// Objects if a row's reader is not at the bit `place` of its stream. The reader must report that
/// place, read the remaining bits one by one, and then meet the end of input.
fn stands_at(
    alloc: Global,
    row: &Row<'_>,
    way: Way,
    moved: Moved,
    place: usize,
) -> Result<(), Objection> {
    agrees(moved.bytes == place.div_ceil(8), Difference::Place)?;
    let calls = with_rest(alloc, row, place)?;
    match play(alloc, row, &calls, way) {
        Err(Objection::Differs(_)) => Err(Objection::Differs(Difference::Place)),
        Err(objection) => Err(objection),
        Ok(_) => Ok(()),
    }
}

/// Returns the calls of a row, and then calls that ask for its place, read the remaining bits, and meet the end.
fn with_rest<'a>(alloc: Global, row: &Row<'a>, place: usize) -> Result<Vec<Call<'a>>, Objection> {
    let mut calls: Vec<Call<'a>> = row.calls.iter().copied().collect(alloc)?;
    calls.push(Call::asks_place(place as u64))?;
    for at in place..row.bytes.len().saturating_mul(8) {
        calls.push(Call::reads_bit(bit_at(row, at)))?;
    }
    calls.push(Call::reads_bit("EndOfInput"))?;
    Ok(calls)
}

/// Returns a bit of a row's bytes, in its order.
fn bit_at(row: &Row<'_>, at: usize) -> &'static str {
    if row.order.bit(row.bytes.as_slice(), at) == 1 {
        "1"
    } else {
        "0"
    }
}

/// Plays a row on the reader of bytes in memory, over its bytes cut off at each length.
fn cut_each(alloc: Global, row: &Row<'_>, steps: &[Moved]) -> Result<(), Objection> {
    for len in 0..row.bytes.len() {
        let last = steps
            .iter()
            .skip(1)
            .take_while(|step| step.bytes <= len)
            .count();
        play_memory(alloc, row, &row.bytes[..len], last)?;
    }
    Ok(())
}

/// Plays a row on the reader of bytes in memory, over all its bytes.
fn read_all(alloc: Global, row: &Row<'_>) -> Result<(), Objection> {
    let read = play_memory(alloc, row, &row.bytes, row.calls.len())?;
    match row.after.place {
        Some(place) => agrees(read == place as u64, Difference::InMemory),
        None => Ok(()),
    }
}

/// Plays a row over streams that fail from each of its requests on.
fn refuse_each(alloc: Global, row: &Row<'_>, steps: &[Moved]) -> Result<(), Objection> {
    let requests = steps.last().map_or(0, |whole| whole.requests);
    for served in 0..requests {
        refuse(alloc, row, steps, served)?;
    }
    Ok(())
}

/// Plays a row over streams that serve `served` requests, and fail each later one.
fn refuse(alloc: Global, row: &Row<'_>, steps: &[Moved], served: u64) -> Result<(), Objection> {
    let call = steps
        .iter()
        .skip(1)
        .take_while(|step| step.requests <= served)
        .count();
    let faults = match row.kind {
        Kind::Read => READ_FAULTS,
        Kind::Write => WRITE_FAULTS,
    };
    let seeks = seeks_at(row, steps, call, served);
    for kind in faults {
        let fault = Fault {
            served: u32::try_from(served).unwrap_or(u32::MAX),
            kind,
            call,
            seeks,
        };
        let moved = play(alloc, row, &row.calls, Way::Refused(fault))?;
        stops_at(row, steps, fault, moved)?;
    }
    Ok(())
}

/// Returns true if the request of a call after `served` requests is a seek.
fn seeks_at(row: &Row<'_>, steps: &[Moved], call: usize, served: u64) -> bool {
    let before = steps.get(call).map_or(0, |step| step.requests);
    let seeks = row.calls.get(call).map_or(0, |call| call.seeks());
    served.saturating_sub(before) < seeks
}

/// Returns the number of requests from the failed one on. For bits, this counts the failed request and
/// later seeks. For bytes, it also counts one request for each later call that makes one.
fn refusals(row: &Row<'_>, fault: Fault) -> u64 {
    match row.layer {
        Layer::Bits => {
            let left = row.calls.iter().skip(fault.call.saturating_add(1));
            (left.filter(|call| call.recovers()).count() as u64).saturating_add(1)
        }
        Layer::Bytes => {
            let left = row.calls.iter().skip(fault.call);
            left.filter(|call| call.moves_bytes()).count() as u64
        }
    }
}

/// Objects if the number of requests is not the sum of the failed ones and the ones before. Objects if
/// the bytes moved are not the bytes of the earlier calls and then a part of the bytes of the failed
/// call. (If calls seek, the bytes are not compared.)
fn stops_at(row: &Row<'_>, steps: &[Moved], fault: Fault, moved: Moved) -> Result<(), Objection> {
    let refusals = refusals(row, fault);
    let requests = u64::from(fault.served).saturating_add(refusals);
    agrees(moved.requests == requests, Difference::Refused)?;
    let (ended, least) = steps
        .get(fault.call)
        .map_or((0, 0), |step| (step.refused, step.bytes));
    let refused = ended.saturating_add(refusals);
    agrees(moved.refused == refused, Difference::Refused)?;
    let most = steps
        .get(fault.call.saturating_add(1))
        .map_or(usize::MAX, |step| step.bytes);
    let within = least <= moved.bytes && moved.bytes <= most;
    agrees(within || row.seeks(), Difference::Refused)
}
