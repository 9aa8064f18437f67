//! Prints the records of a file as JSON Lines, and packs such lines into bytes: `packet_headers --help`.
//!
//! A record is a `PrimaryHeader`. The primary header of a CCSDS space packet.
//!
//! Made by `./format --program` from ../bitstream_callers/formats/primary_header.fields: edit that file and make this one anew.
#![tactic(auto)]

mod ended;
mod fields;
mod pack;
mod primary_header_json;
mod show;
mod skip;

use ended::Ended;
use pack::pack;
use show::show;
use skip::Skip;
use std::fs::File;
use std::io::{BufReader, BufWriter, Read, Write};
use std::process::ExitCode;
use std::{env, io};

/// The usage text.
const USAGE: &str = "\
usage: packet_headers show [FILE] [--skip EXPRESSION]    prints each record as a line of JSON
       packet_headers pack [FILE]                        packs such lines into bytes

Without FILE the standard input is read. EXPRESSION is the number of bytes between a record and the next one: a number, or
FIELD, FIELD+N or FIELD*N-N for a number FIELD of the record (PART.FIELD inside a part).

status: 0 the input ended after a record; 2 the command or a file is refused; 3 a record is refused, or a line does not
fit the format; 4 the input ended inside a record, or before the next one. The records before are written.
";

/// The number of bytes that are written at once.
const OUT: usize = 65536;

/// The command that the arguments name.
#[derive(Clone, Copy, Debug, PartialEq)]
enum Command {
    Help,
    Show,
    Pack,
}

impl Command {
    /// Returns the command that a word names.
    fn of(word: &str) -> Option<Command> {
        match word {
            "--help" | "-h" => Some(Command::Help),
            "show" => Some(Command::Show),
            "pack" => Some(Command::Pack),
            _ => None,
        }
    }
}

/// The command, the file and the options that the arguments name.
#[derive(Clone, Copy, Debug)]
struct Call<'a> {
    command: Command,
    path: Option<&'a str>,
    skip: Skip<'a>,
}

/// Parses the arguments. `None` if they are refused.
fn call_of(words: &[String]) -> Option<Call<'_>> {
    let (first, rest) = words.split_first()?;
    let command = Command::of(first.as_str())?;
    let (mut path, mut skip, mut is_skip) = (None, Skip::Bytes(0), false);
    for word in rest {
        let word = word.as_str();
        if is_skip {
            skip = Skip::of(word)?;
            is_skip = false;
        } else if word == "--skip" && command == Command::Show {
            is_skip = true;
        } else if path.is_none() && !word.starts_with("--") {
            path = Some(word);
        } else {
            return None;
        }
    }
    (!is_skip).then_some(Call {
        command,
        path,
        skip,
    })
}

/// Runs a command on an input.
fn run_on<R: Read + Drop>(rt: &HostRuntime, call: &Call<'_>, input: R) -> Result<(), Ended> {
    let mut out = BufWriter::with_capacity(rt.alloc(), OUT, rt.stdout())?;
    let mut input = BufReader::new(rt.alloc(), input)?;
    let done = match call.command {
        Command::Help => out.write_all(USAGE.as_bytes()).map_err(Ended::Io),
        Command::Show => show(rt.alloc(), &mut input, call.skip, &mut out),
        Command::Pack => pack(rt.alloc(), &mut input, &mut out),
    };
    out.flush()?;
    done
}

/// Runs a command on a file, or on the standard input.
fn run(rt: &HostRuntime, call: &Call<'_>) -> Result<(), Ended> {
    match call.path {
        Some(path) => run_on(rt, call, File::open(rt, path)?),
        None => run_on(rt, call, rt.stdin()),
    }
}

fn main(rt: HostRuntime) -> io::Result<ExitCode> {
    let mut words = Vec::new(rt.alloc());
    for word in env::args(&rt)?.skip(1) {
        words.push(word)?;
    }
    let Some(call) = call_of(words.as_slice()) else {
        eprint!(rt; "{USAGE}")?;
        return Ok(ExitCode::from(2));
    };
    match run(&rt, &call) {
        Ok(()) => Ok(ExitCode::SUCCESS),
        Err(ended) if ended.is_closed_output() => Ok(ExitCode::SUCCESS),
        Err(ended) => {
            eprintln!(rt; "packet_headers: {ended}")?;
            Ok(ExitCode::from(ended.status()))
        }
    }
}
