//! Plays rows: lists of calls with their results and bytes, from several files.
//!
//! The head of each file states what its rows and columns mean, and the source of the results. Each row
//! is played over a slice or a vector, over a stream with short reads and writes of one byte, and over
//! streams that fail from each of its requests on. Rows that read bits and go to no place after the end
//! are played on a `SliceReader` too. Rows without seeks are also played over the bytes cut off at
//! each length. Rows that write are played on a counter and on a recorder too. Buffers of each length
//! are written and read at each place in a byte. Numbers, runs of equal bits and parts of bytes in memory
//! are read at each place, too.
//!
//! The program fails if a row or a buffer differs, or if a row has a form, a width or a constant that the
//! player does not know.
#![tactic(auto)]

/// Returns a function at the unsigned type of a size.
macro_rules! unsigned {
    ($size:expr, $function:ident($($argument:expr),+)) => {
        match $size {
            Size::Bits8 => $function::<u8, _>($($argument),+),
            Size::Bits16 => $function::<u16, _>($($argument),+),
            Size::Bits32 => $function::<u32, _>($($argument),+),
            Size::Bits64 => $function::<u64, _>($($argument),+),
            Size::Bits128 => $function::<u128, _>($($argument),+),
        }
    };
}

/// Returns a function at the signed type of a size.
macro_rules! signed {
    ($size:expr, $function:ident($($argument:expr),+)) => {
        match $size {
            Size::Bits8 => $function::<i8, _>($($argument),+),
            Size::Bits16 => $function::<i16, _>($($argument),+),
            Size::Bits32 => $function::<i32, _>($($argument),+),
            Size::Bits64 => $function::<i64, _>($($argument),+),
            Size::Bits128 => $function::<i128, _>($($argument),+),
        }
    };
}

mod answer;
mod buffers;
mod call;
mod checked;
mod counts;
mod fixed;
mod form;
mod in_memory;
mod memory;
mod objection;
mod play;
mod reads;
mod records;
mod replay;
mod row;
mod sinks;
mod symbols;
mod variable;
mod whole;
mod writes;

use buffers::play_buffers;
use in_memory::play_memory_parts;
use objection::Objection;
use replay::replay;
use std::alloc::Global;
use std::io;
use std::io::ErrorKind;
use std::process::ExitCode;
use std::rt::Files;

/// The files of rows.
const FILES: [&str; 13] = [
    "vectors.tsv",
    "count.tsv",
    "record.tsv",
    "groups.tsv",
    "r03_words.tsv",
    "r04_bytes.tsv",
    "r05_codes.tsv",
    "r06_prefix.tsv",
    "r07_sinks.tsv",
    "seek.tsv",
    "r08_seek_compat.tsv",
    "r10_word_kernels.tsv",
    "r15_redundant.tsv",
];

/// Plays a row. If it differs, prints it and returns true.
fn differs(rt: &impl Print, alloc: Global, line: &str) -> io::Result<bool> {
    match replay(alloc, line) {
        Ok(()) => Ok(false),
        Err(Objection::Differs(what)) => {
            println!(rt; "{}: {line}", what.text())?;
            Ok(true)
        }
        Err(Objection::OutOfMemory) => Err(io::Error::from(ErrorKind::OutOfMemory)),
    }
}

/// Plays the rows of a file, and returns the number of rows that differ.
fn play_file(rt: &(impl Files + Print + Alloc), alloc: Global, name: &str) -> io::Result<u32> {
    let text = std::fs::read_to_string(rt, name)?;
    let (mut rows, mut differing) = (0u32, 0u32);
    for line in text.as_str().lines() {
        if !line.starts_with('#') {
            rows = rows.saturating_add(1);
            if differs(rt, alloc, line)? {
                differing = differing.saturating_add(1);
            }
        }
    }
    println!(rt; "{name}: {rows} rows, {differing} differ")?;
    Ok(differing)
}

/// Plays the rows of files, and returns the number of rows that differ.
fn play_files(rt: &(impl Files + Print + Alloc), alloc: Global, names: &[&str]) -> io::Result<u32> {
    let mut differing = 0u32;
    for name in names {
        differing = differing.saturating_add(play_file(rt, alloc, name)?);
    }
    Ok(differing)
}

fn main(rt: HostRuntime) -> io::Result<ExitCode> {
    let of_rows = play_files(&rt, rt.alloc(), &FILES)?;
    let of_buffers = play_buffers(&rt, rt.alloc())?;
    let of_memory = play_memory_parts(&rt)?;
    Ok(if (of_rows == 0) & (of_buffers == 0) & (of_memory == 0) {
        ExitCode::SUCCESS
    } else {
        ExitCode::FAILURE
    })
}
