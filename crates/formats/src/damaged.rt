//! Damaged copies of a file.

use crate::command::Command;
use crate::options::Style;
use crate::rows::outcome_of;
use crate::status::Status;
use anyhow::Error;
use std::alloc::{AllocError, Global};
use std::fs;

/// An error, and the number of times that it occurred.
#[derive(Drop)]
struct Count {
    text: String,
    times: u64,
}

/// Counts an error by its text, without its place.
fn add(alloc: Global, counts: &mut Vec<Count>, text: &str) -> Result<(), AllocError> {
    let what = match text.rsplit_once(": ") {
        Some((_, what)) => what,
        None => text,
    };
    for count in counts.as_mut_slice() {
        if count.text.as_str() == what {
            count.times = count.times.saturating_add(1);
            return Ok(());
        }
    }
    counts.push(Count {
        text: String::from_str(alloc, what)?,
        times: 1,
    })?;
    Ok(())
}

/// Flips the bits of each byte of a file, one byte after the other. Counts the copies that are read
/// completely, and the first errors of the others.
pub fn play_damaged(rt: &HostRuntime, command: Command, path: &str) -> Result<(), Error> {
    let alloc = rt.alloc();
    let mut file = fs::read(rt, path)?;
    let mut answers = 0u64;
    let mut counts = Vec::new(alloc);
    for at in 0..file.len() {
        turn(file.as_mut_slice(), at);
        let written = outcome_of(alloc, command, Style::Rows, file.as_slice())?;
        if written.status == Status::Read {
            answers = answers.saturating_add(1);
        } else {
            add(alloc, &mut counts, written.first_error())?;
        }
        turn(file.as_mut_slice(), at);
    }
    println!(rt; "{path}: {} damaged copies, {answers} answers", file.len())?;
    for count in counts.as_slice() {
        println!(rt; "{path}: {} times: {}", count.times, count.text.as_str())?;
    }
    Ok(())
}

/// Flips the bits of a byte.
fn turn(bytes: &mut [u8], at: usize) {
    if let Some(byte) = bytes.get_mut(at) {
        *byte = !*byte;
    }
}
