//! Whole calls of the program, from bytes to bytes, over streams that count their requests and may fail one of them.
use crate::asserts::{each_holds, holds, holds_of, same};
use crate::program_rows::{
    BYTES, CONSTANTS, D, HEADLINE, PACKED, PIPELINES, REDUNDANT, REPACKED, REPACKINGS, ROWS, Row,
    SIZED, SIZES, UNPACKED,
};
use bitfields_core::{Fault, Reason, parse_layout, run};
use std::alloc::{AllocError, Global};
use std::io::ErrorKind;
use std::process::Abort;
use test_streams::{Count, Refuse, Short};

/// For each stream, the index (from 0) of the request that fails, if any. Each later request succeeds again.
#[derive(Clone, Copy, Drop)]
struct Refused {
    input: Option<u32>,
    output: Option<u32>,
    faults: Option<u32>,
    kind: ErrorKind,
}

const NONE: Refused = Refused {
    input: None,
    output: None,
    faults: None,
    kind: ErrorKind::Other,
};

/// The outcome of a call.
#[derive(Drop)]
struct Ended {
    status: u8,
    output: Vec<u8>,
    faults: Vec<u8>,
    /// The number of bytes of the input left.
    left: usize,
    /// The number of requests made to the input, to the output and to the stream for faults.
    requests: (u64, u64, u64),
}

/// The text on the stream for faults before a call.
const BEFORE: &str = "before\n";

/// Returns the arguments in a text, separated by spaces, or fewer if an allocation fails.
fn split(alloc: Global, text: &str) -> Vec<String> {
    let mut words = Vec::new(alloc);
    for word in text.split(' ') {
        if let Ok(word) = String::from_str(alloc, word) {
            let _ = words.push(word);
        }
    }
    words
}

/// Returns the bytes of a text, or none if an allocation fails.
fn bytes_of(alloc: Global, text: &str) -> Vec<u8> {
    match String::from_str(alloc, text) {
        Ok(text) => text.into_bytes(),
        Err(_) => Vec::new(alloc),
    }
}

fn stream<S>(inner: S, left: Option<u32>, kind: ErrorKind) -> Count<Refuse<S>> {
    let inner = Refuse {
        inner,
        left,
        once: true,
        kind,
    };
    Count {
        inner,
        requests: 0,
        refused: 0,
    }
}

/// Runs a call over an input that returns all its bytes at once, or in short reads.
fn play(alloc: Global, words: &str, bytes: &[u8], short: bool, refused: Refused) -> Ended {
    let words = split(alloc, words);
    let short_stream = Short {
        inner: bytes,
        short,
    };
    let mut input = stream(short_stream, refused.input, refused.kind);
    let mut output = stream(Vec::new(alloc), refused.output, refused.kind);
    let mut faults = stream(bytes_of(alloc, BEFORE), refused.faults, refused.kind);
    let status = run(alloc, &words, &mut input, &mut output, &mut faults);
    Ended {
        status,
        left: input.inner.inner.inner.len(),
        requests: (input.requests, output.requests, faults.requests),
        output: output.inner.inner,
        faults: faults.inner.inner,
    }
}

/// Returns the text on the stream for faults: the text before the call, and the line of this fault
/// unless it is empty.
fn faults_of(alloc: Global, fault: &str) -> Result<String, AllocError> {
    if fault.is_empty() {
        String::from_str(alloc, BEFORE)
    } else {
        format!(in alloc; "{BEFORE}bitfields: field {fault}\n")
    }
}

/// Returns true if a call ended with this status, wrote these bytes, and printed the line of this
/// fault, or nothing if there is none.
fn ends(alloc: Global, ended: &Ended, status: u8, output: &[u8], fault: &str) -> bool {
    let told = match faults_of(alloc, fault) {
        Ok(faults) => ended.faults.as_slice() == faults.as_bytes(),
        Err(_) => false,
    };
    told & (ended.status == status) & (ended.output.as_slice() == output)
}

/// Returns true if a row ends as it should, over an input that returns all its bytes at once, over an
/// input with short reads, and if one request fails.
fn is_right(alloc: Global, row: &Row) -> bool {
    let at_once = play(alloc, row.0, row.1, false, NONE);
    let short_reads = play(alloc, row.0, row.1, true, NONE);
    let (inputs, outputs, _) = at_once.requests;
    ends(alloc, &at_once, row.4, row.2, row.3)
        & ends(alloc, &short_reads, row.4, row.2, row.3)
        & ends_at_each(alloc, row, inputs.max(outputs))
}

/// Asserts that each row ends as it should.
fn are_right(rt: &impl Abort, alloc: Global, rows: &[Row]) {
    for row in rows {
        assert!(rt; is_right(alloc, row), "{} of {:?}", row.0, row.1);
    }
}

#[test]
fn r01_first_path(rt: HostRuntime) {
    are_right(&rt, rt.alloc(), &ROWS);
}

#[test]
fn r09_headline(rt: HostRuntime) {
    are_right(&rt, rt.alloc(), &HEADLINE);
}

#[test]
fn bytes_have_one_line(rt: HostRuntime) {
    are_right(&rt, rt.alloc(), &BYTES);
}

#[test]
fn r15_redundant(rt: HostRuntime) {
    are_right(&rt, rt.alloc(), &REDUNDANT);
}

#[test]
fn r16_repack(rt: HostRuntime) {
    are_right(&rt, rt.alloc(), &REPACKINGS);
}

#[test]
fn constants(rt: HostRuntime) {
    are_right(&rt, rt.alloc(), &CONSTANTS);
}

#[test]
fn counts_the_bits_of_values(rt: HostRuntime) {
    are_right(&rt, rt.alloc(), &SIZES);
}

#[test]
fn moves_records_of_other_formats(rt: HostRuntime) {
    are_right(&rt, rt.alloc(), &PIPELINES);
}

/// Returns a text and then `times` copies of another text, or fewer if an allocation fails.
fn repeated(alloc: Global, first: &str, next: &str, times: usize) -> String {
    let mut text = String::new(alloc);
    let _ = text.push_str(first);
    for _ in 0..times {
        let _ = text.push_str(next);
    }
    text
}

/// Returns true if a layout has 256 fields.
fn has_256_fields(alloc: Global, text: &str) -> bool {
    matches!(parse_layout(alloc, text), Ok(layout) if layout.fields().len() == 256)
}

/// Returns true if a layout has too many fields.
fn has_too_many_fields(alloc: Global, text: &str) -> bool {
    let wanted = Fault::new(0, Reason::TooManyFields);
    matches!(parse_layout(alloc, text), Err(fault) if fault == wanted)
}

#[test]
fn layouts_have_256_fields_at_most(rt: HostRuntime) {
    let most = repeated(rt.alloc(), "u1", ",u1", 255);
    holds(&rt, has_256_fields(rt.alloc(), most.as_str()));
    // The number of fields is checked before their spelling.
    let past = repeated(rt.alloc(), "x", ",u1", 256);
    holds(&rt, has_too_many_fields(rt.alloc(), past.as_str()));
}

/// A large call: a field, the same field after a comma, the number of these fields in a layout, the
/// number of bytes of each, and the total number of bits, as `size` prints it. Each byte is 122, a `z`.
#[derive(Drop)]
struct Large(&'static str, &'static str, usize, usize, &'static str);

const LARGE: [Large; 3] = [
    Large("u8", ",u8", 256, 1, "2048\n"),
    Large("b65536", ",b65536", 1, 65536, "524288\n"),
    // Each line has 800 bytes, so there are 200,000 of them.
    Large("b200", ",b200", 250, 200, "400000\n"),
];

/// Returns true if a command with this layout writes this for this input.
fn writes(alloc: Global, command: &str, layout: &str, input: &str, output: &str) -> bool {
    match format!(in alloc; "{command} be {layout}") {
        Ok(words) => {
            let ended = play(alloc, words.as_str(), input.as_bytes(), false, NONE);
            ends(alloc, &ended, 0, output.as_bytes(), "")
        }
        Err(_) => false,
    }
}

/// Checks that each command moves a large input.
fn moves(alloc: Global, large: &Large) -> [bool; 4] {
    let Large(field, next, fields, decimals, size) = large;
    let layout = repeated(alloc, field, next, fields.saturating_sub(1));
    let mut line = repeated(alloc, "122", " 122", decimals.saturating_sub(1));
    let _ = line.push_str("\n");
    let lines = repeated(alloc, "", line.as_str(), *fields);
    let bytes = repeated(alloc, "", "z", fields.saturating_mul(*decimals));
    let (layout, lines, bytes) = (layout.as_str(), lines.as_str(), bytes.as_str());
    [
        writes(alloc, "pack", layout, lines, bytes),
        writes(alloc, "size", layout, lines, size),
        writes(alloc, "unpack", layout, bytes, lines),
        writes(alloc, "repack", layout, bytes, bytes),
    ]
}

/// Asserts that each command moves each of these large inputs.
fn move_each(rt: &impl Abort, alloc: Global, rows: &[Large]) {
    for row in rows {
        each_holds(rt, &moves(alloc, row));
    }
}

/// A body that reports a failed allocation above some size would meet the contracts, so large inputs are tested.
#[test]
fn moves_large_inputs(rt: HostRuntime) {
    move_each(&rt, rt.alloc(), &LARGE);
}

/// The stream that fails a request, and the index of the request, from 0.
#[derive(Clone, Copy, Drop)]
enum Refusing {
    Input(u32),
    Output(u32),
}

/// A failed request of the input or of the output: its stream and index, the field of the call's fault,
/// the number of bytes written before, and the number of requests made to the input, to the output and
/// to the stream for faults.
#[derive(Drop)]
struct Refusal(Refusing, usize, usize, (u64, u64, u64));

const OF_PACK: [Refusal; 5] = [
    // Reading to the end takes one request for the bytes and one that finds the end.
    Refusal(Refusing::Input(0), 0, 0, (1, 0, 1)),
    Refusal(Refusing::Input(1), 0, 0, (2, 0, 1)),
    // The first byte is complete at the third field, the others at the last field, and a flush follows.
    Refusal(Refusing::Output(0), 0, 0, (2, 1, 1)),
    Refusal(Refusing::Output(1), 0, 1, (2, 2, 1)),
    Refusal(Refusing::Output(2), 0, 4, (2, 3, 1)),
];

const OF_UNPACK: [Refusal; 5] = [
    // The bytes are needed at the first, the third and the last field.
    Refusal(Refusing::Input(0), 1, 0, (1, 0, 1)),
    Refusal(Refusing::Input(1), 3, 0, (2, 0, 1)),
    Refusal(Refusing::Input(2), 5, 0, (3, 0, 1)),
    // All lines are one request, and a flush follows.
    Refusal(Refusing::Output(0), 0, 0, (3, 1, 1)),
    Refusal(Refusing::Output(1), 0, 15, (3, 2, 1)),
];

const OF_SIZE: [Refusal; 4] = [
    // All lines are read, then one line is one request, and a flush follows.
    Refusal(Refusing::Input(0), 0, 0, (1, 0, 1)),
    Refusal(Refusing::Input(1), 0, 0, (2, 0, 1)),
    Refusal(Refusing::Output(0), 0, 0, (2, 1, 1)),
    Refusal(Refusing::Output(1), 0, 3, (2, 2, 1)),
];

const OF_REPACK: [Refusal; 7] = [
    // The fields are read, and then one more byte is requested. Nothing is written before.
    Refusal(Refusing::Input(0), 1, 0, (1, 0, 1)),
    Refusal(Refusing::Input(1), 3, 0, (2, 0, 1)),
    Refusal(Refusing::Input(2), 5, 0, (3, 0, 1)),
    Refusal(Refusing::Input(3), 0, 0, (4, 0, 1)),
    Refusal(Refusing::Output(0), 0, 0, (4, 1, 1)),
    Refusal(Refusing::Output(1), 0, 1, (4, 2, 1)),
    Refusal(Refusing::Output(2), 0, 4, (4, 3, 1)),
];

/// The error kinds that are tried, with the reasons that the program prints.
const KINDS: [(ErrorKind, &str); 2] = [
    (ErrorKind::ConnectionReset, "stream fault"),
    (ErrorKind::OutOfMemory, "out of memory"),
];

fn refused_at(refusing: Refusing, kind: ErrorKind) -> Refused {
    match refusing {
        Refusing::Input(at) => Refused {
            input: Some(at),
            kind,
            ..NONE
        },
        Refusing::Output(at) => Refused {
            output: Some(at),
            kind,
            ..NONE
        },
    }
}

/// Returns true if the failed request was the last one made, and no output was requested after a failed
/// input; `None` if the call never made it.
fn is_last(ended: &Ended, refusing: Refusing) -> Option<bool> {
    let (input, output, _) = ended.requests;
    match refusing {
        Refusing::Input(at) if input > at as u64 => Some((input == at as u64 + 1) & (output == 0)),
        Refusing::Output(at) if output > at as u64 => Some(output == at as u64 + 1),
        _ => None,
    }
}

/// Returns true if a row ends as it should when a request fails. If the call makes it, the last line of
/// its faults is a stream fault, it makes no further request, and it writes only a prefix of the row's
/// bytes. If the request is one of the input, it writes nothing. If the call does not make it, the row
/// ends as usual.
fn ends_at(alloc: Global, row: &Row, refusing: Refusing) -> bool {
    let refused = refused_at(refusing, ErrorKind::ConnectionReset);
    let ended = play(alloc, row.0, row.1, false, refused);
    let Some(is_last) = is_last(&ended, refusing) else {
        return ends(alloc, &ended, row.4, row.2, row.3);
    };
    let is_written = ended.output.is_empty() | (ended.requests.1 > 0);
    is_last
        & is_written
        & row.2.starts_with(&ended.output)
        & (ended.status == 5)
        & ended.faults.ends_with(b": stream fault\n")
}

/// Returns true if a row ends as it should when a request fails with this kind.
fn ends_refused(
    alloc: Global,
    row: &Row,
    refusal: &Refusal,
    kind: ErrorKind,
    reason: &str,
) -> bool {
    let Refusal(refusing, field, written, requests) = refusal;
    let ended = play(alloc, row.0, row.1, false, refused_at(*refusing, kind));
    let prefix = row.2.get(..*written).unwrap_or(b"");
    match format!(in alloc; "{field}: {reason}") {
        Ok(fault) => {
            ends(alloc, &ended, 5, prefix, fault.as_str()) & (ended.requests == *requests)
        }
        Err(_) => false,
    }
}

/// Returns true if a row ends as it should, whichever kind of error the request fails with.
fn ends_refused_by_each(alloc: Global, row: &Row, refusal: &Refusal) -> bool {
    let mut right = true;
    for (kind, reason) in KINDS {
        right &= ends_refused(alloc, row, refusal, kind, reason);
    }
    right
}

/// Asserts that a row ends as it should if one of these requests fails.
fn are_refused(rt: &impl Abort, alloc: Global, row: &Row, refusals: &[Refusal]) {
    for (at, refusal) in refusals.iter().enumerate() {
        same(
            rt,
            (at, ends_refused_by_each(alloc, row, refusal)),
            (at, true),
        );
    }
}

#[test]
fn asks_nothing_more_after_a_refusal(rt: HostRuntime) {
    are_refused(&rt, rt.alloc(), &PACKED, &OF_PACK);
    are_refused(&rt, rt.alloc(), &UNPACKED, &OF_UNPACK);
    are_refused(&rt, rt.alloc(), &SIZED, &OF_SIZE);
    are_refused(&rt, rt.alloc(), &REPACKED, &OF_REPACK);
}

/// Returns true if a row ends as it should when one of the first `requests` requests of its input or
/// output fails, and when the next request would fail.
fn ends_at_each(alloc: Global, row: &Row, requests: u64) -> bool {
    let mut right = true;
    for at in 0..=u32::try_from(requests).unwrap_or(0) {
        right &= ends_at(alloc, row, Refusing::Input(at))
            & ends_at(alloc, row, Refusing::Output(at));
    }
    right
}

/// Returns true if an unpacking whose input ends at this request reports the end as this fault.
fn ends_at_an_end(alloc: Global, input: u32, fault: &str) -> bool {
    let refused = Refused {
        input: Some(input),
        kind: ErrorKind::UnexpectedEof,
        ..NONE
    };
    let ended = play(alloc, UNPACKED.0, UNPACKED.1, false, refused);
    ends(alloc, &ended, 4, b"", fault)
}

#[test]
fn an_end_is_no_stream_fault(rt: HostRuntime) {
    holds(&rt, ends_at_an_end(rt.alloc(), 0, "1: bits ended"));
    holds(&rt, ends_at_an_end(rt.alloc(), 1, "3: bits ended"));
    holds(&rt, ends_at_an_end(rt.alloc(), 2, "5: bits ended"));
}

/// The call and the input of a row, the number of bytes of the input left, and the number of requests
/// made to the input, to the output and to the stream for faults.
#[derive(Drop)]
struct Demand(Row, usize, (u64, u64, u64));

const DEMANDS: [Demand; 9] = [
    Demand(PACKED, 0, (2, 3, 0)),
    Demand(UNPACKED, 0, (3, 2, 0)),
    Demand(Row("unpack be u2,u3,u5", D, b"", "", 0), 2, (2, 2, 0)),
    Demand(Row("unpack le a", D, b"", "", 0), 4, (0, 2, 0)),
    Demand(Row("pack be u8,v5", D, b"", "", 2), 4, (0, 0, 1)),
    Demand(SIZED, 0, (2, 2, 0)),
    Demand(Row("repack be u8", D, b"", "", 4), 2, (2, 0, 1)),
    Demand(REPACKED, 0, (4, 3, 0)),
    Demand(Row("repack be u7", D, b"", "", 4), 3, (1, 0, 1)),
];

/// Returns true if a call leaves this number of bytes, and makes these numbers of requests.
fn asks_for(alloc: Global, demand: &Demand) -> bool {
    let ended = play(alloc, demand.0.0, demand.0.1, false, NONE);
    (ended.left == demand.1) & (ended.requests == demand.2)
}

/// Asserts that each of these calls takes only the bytes and makes only the requests that it needs.
fn ask_for(rt: &impl Abort, alloc: Global, demands: &[Demand]) {
    for demand in demands {
        holds_of(rt, asks_for(alloc, demand), demand.0.0);
    }
}

#[test]
fn asks_for_no_byte_more(rt: HostRuntime) {
    ask_for(&rt, rt.alloc(), &DEMANDS);
}

#[test]
fn keeps_its_status_if_no_fault_can_be_printed(rt: HostRuntime) {
    let refused = Refused {
        faults: Some(0),
        kind: ErrorKind::ConnectionReset,
        ..NONE
    };
    let ended = play(rt.alloc(), "pack be", b"", false, refused);
    holds(&rt, ends(rt.alloc(), &ended, 2, b"", ""));
    same(&rt, ended.requests, (0, 0, 1));
}
