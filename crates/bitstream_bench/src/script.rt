//! Writes and reads by lists of calls as values.
use crate::asserts::{are, each_holds, holds, same};
use bitstream_io::script::{Answer, ReadCall, WriteCall, read_calls, write_calls};
use bitstream_io::{
    BE, BitRead, BitReader, BitWrite, BitWriter, BitsWritten, CheckedError, Error, Slice,
};
use std::alloc::Global;
use std::io::ErrorKind;
use std::process::Abort;
use test_streams::{Refuse, Short};

/// Returns a list of calls, one of them with a number in more bits than its type has. The list is
/// shorter if an allocation fails.
fn calls_with_one_too_wide(alloc: Global) -> Vec<WriteCall> {
    let mut calls = Vec::new(alloc);
    let _ = calls.push(WriteCall::Bit(true));
    let _ = calls.push(WriteCall::U8(9, 0));
    let _ = calls.push(WriteCall::U8(3, 5));
    let _ = calls.push(WriteCall::Unary0(2));
    let _ = calls.push(WriteCall::Align);
    calls
}

/// Returns the results of a list of writes, or none of them if an allocation fails.
fn answers_of<W: BitWrite>(
    alloc: Global,
    writer: &mut W,
    calls: &[WriteCall],
) -> Vec<Option<Error>> {
    let mut answers = Vec::new(alloc);
    for _ in calls {
        let _ = answers.push(None);
    }
    if answers.len() == calls.len() {
        write_calls(writer, calls, &mut answers);
    }
    answers
}

/// Makes that list of calls, and returns true if only the second of the five fails.
fn refuses_one<W: BitWrite>(alloc: Global, writer: &mut W) -> bool {
    let calls = calls_with_one_too_wide(alloc);
    match answers_of(alloc, writer, &calls).as_slice() {
        [
            None,
            Some(Error::Checked(CheckedError::ExcessiveBits)),
            None,
            None,
            None,
        ] => true,
        _ => false,
    }
}

#[test]
fn lists_of_writes_answer_each_call(rt: HostRuntime) {
    let mut writer = BitWriter::<_, BE>::new(Vec::new(rt.alloc()));
    holds(&rt, refuses_one(rt.alloc(), &mut writer));
    are(&rt, &writer.into_writer(), &[0xdc]);
    let mut counter = BitsWritten::<u16>::new();
    holds(&rt, refuses_one(rt.alloc(), &mut counter));
    same(&rt, counter.written(), 8);
}

/// The expected result of a call of a list.
#[derive(Clone, Copy, Drop)]
enum Want {
    Bit(bool),
    Number(u8),
    Run(u32),
    Groups(u64),
    Bytes([u8; 2]),
    Done,
    Wide,
    Redundant,
    Ended,
    Refused,
    Failed,
}

/// Returns true if a call returned this value.
fn is_value(answer: &Answer, want: Want) -> bool {
    match (answer, want) {
        (Answer::Bit(bit), Want::Bit(wanted)) => *bit == wanted,
        (Answer::U8(number), Want::Number(wanted)) => *number == wanted,
        (Answer::Unary(run), Want::Run(wanted)) => *run == wanted,
        (Answer::Vbr(number), Want::Groups(wanted)) => *number == wanted,
        (Answer::Bytes(bytes), Want::Bytes(wanted)) => bytes.as_slice() == wanted.as_slice(),
        (Answer::Done, Want::Done) => true,
        _ => false,
    }
}

/// Returns true if a call returned this error.
fn is_error(error: &Error, want: Want) -> bool {
    match (error, want) {
        (Error::ReadBits, Want::Wide) => true,
        (Error::RedundantGroup, Want::Redundant) => true,
        (Error::EndOfInput, Want::Ended) => true,
        (Error::Stream(ErrorKind::ConnectionReset), Want::Refused) => true,
        (Error::Failed, Want::Failed) => true,
        _ => false,
    }
}

/// Returns true if a call returned the expected result.
fn is_wanted(answer: &Option<Result<Answer, Error>>, want: Want) -> bool {
    match answer {
        Some(Ok(value)) => is_value(value, want),
        Some(Err(error)) => is_error(error, want),
        None => false,
    }
}

/// Returns the results of a list of calls, or none of them if an allocation fails.
fn answers_to<R: BitRead>(
    alloc: Global,
    reader: &mut R,
    calls: &[ReadCall],
) -> Vec<Option<Result<Answer, Error>>> {
    let mut answers = Vec::new(alloc);
    for _ in calls {
        let _ = answers.push(None);
    }
    if answers.len() == calls.len() {
        read_calls(alloc, reader, calls, &mut answers);
    }
    answers
}

/// Returns true if the calls of a list return the expected results.
fn are_answered<R: BitRead>(
    alloc: Global,
    reader: &mut R,
    calls: &[ReadCall],
    wanted: &[Want],
) -> bool {
    let answers = answers_to(alloc, reader, calls);
    for (answer, want) in answers.iter().zip(wanted) {
        if !is_wanted(answer, *want) {
            return false;
        }
    }
    answers.len() == wanted.len()
}

/// A list that reads after the end of a byte, and its results.
const PAST_THE_END: [ReadCall; 8] = [
    ReadCall::Bit,
    ReadCall::U8(9),
    ReadCall::U8(3),
    ReadCall::Unary0,
    ReadCall::Align,
    ReadCall::U8(1),
    ReadCall::Align,
    ReadCall::Bit,
];

const PAST_THE_END_ANSWERS: [Want; 8] = [
    Want::Bit(true),
    Want::Wide,
    Want::Number(5),
    Want::Run(2),
    Want::Done,
    Want::Ended,
    Want::Done,
    Want::Failed,
];

/// A list that reads 1 in two groups with each call for numbers of variable width. Only the lenient calls return it.
const GROUPS: [ReadCall; 6] = [
    ReadCall::Vbr4,
    ReadCall::AnyVbr4,
    ReadCall::SignedVbr4,
    ReadCall::Vbr8,
    ReadCall::AnyVbr8,
    ReadCall::SignedVbr8,
];

const GROUPS_ANSWERS: [Want; 6] = [
    Want::Redundant,
    Want::Groups(1),
    Want::Redundant,
    Want::Redundant,
    Want::Groups(1),
    Want::Redundant,
];

/// A number, two bytes after it, a number at the next byte, and one more bit.
const PACKET: [ReadCall; 5] = [
    ReadCall::U8(4),
    ReadCall::Bytes(2),
    ReadCall::Align,
    ReadCall::U8(8),
    ReadCall::Bit,
];

/// The results of these calls up to the one whose request fails.
const PACKET_REFUSED: [[Want; 5]; 4] = [
    [
        Want::Refused,
        Want::Failed,
        Want::Done,
        Want::Failed,
        Want::Failed,
    ],
    [
        Want::Number(11),
        Want::Refused,
        Want::Done,
        Want::Failed,
        Want::Failed,
    ],
    [
        Want::Number(11),
        Want::Bytes([0x1e, 0xd3]),
        Want::Done,
        Want::Refused,
        Want::Failed,
    ],
    [
        Want::Number(11),
        Want::Bytes([0x1e, 0xd3]),
        Want::Done,
        Want::Number(0xc1),
        Want::Refused,
    ],
];

/// The results of these calls if only the end of input is an error.
const PACKET_ANSWERS: [Want; 5] = [
    Want::Number(11),
    Want::Bytes([0x1e, 0xd3]),
    Want::Done,
    Want::Number(0xc1),
    Want::Ended,
];

const D: [u8; 4] = [0xb1, 0xed, 0x3b, 0xc1];

#[test]
fn lists_of_reads_answer_each_call(rt: HostRuntime) {
    let mut reader = BitReader::<_, BE>::new(Slice::new(&[0xdc]));
    let past = are_answered(
        rt.alloc(),
        &mut reader,
        &PAST_THE_END,
        &PAST_THE_END_ANSWERS,
    );
    let bytes = [0x90, 0x90, 0x90, 0x81, 0, 0x81, 0, 0x81, 0];
    let mut reader = BitReader::<_, BE>::new(Slice::new(&bytes));
    let groups = are_answered(rt.alloc(), &mut reader, &GROUPS, &GROUPS_ANSWERS);
    let mut reader = BitReader::<_, BE>::new(Short {
        inner: D.as_slice(),
        short: true,
    });
    let short_reads = are_answered(rt.alloc(), &mut reader, &PACKET, &PACKET_ANSWERS);
    each_holds(&rt, &[past, groups, short_reads]);
}

/// Returns true if the packet has the expected results over a stream that fails after `left` requests.
fn is_answered(alloc: Global, left: usize, wanted: &[Want]) -> bool {
    let mut reader = BitReader::<_, BE>::new(Refuse {
        inner: D.as_slice(),
        left: u32::try_from(left).ok(),
        once: false,
        kind: ErrorKind::ConnectionReset,
    });
    are_answered(alloc, &mut reader, &PACKET, wanted)
}

/// Asserts that the packet has these results over a stream that fails at its first request, at its second, and so on.
fn each_is_answered(rt: &impl Abort, alloc: Global, refused: &[[Want; 5]]) {
    for (left, wanted) in refused.iter().enumerate() {
        holds(rt, is_answered(alloc, left, wanted));
    }
}

#[test]
fn lists_of_reads_answer_up_to_a_refusal(rt: HostRuntime) {
    each_is_answered(&rt, rt.alloc(), &PACKET_REFUSED);
}
