//! Reads files of audio, video, transport and compression. `formats --help` prints the usage.
#![tactic(auto)]

mod command;
mod damaged;
mod encode;
mod encode_file;
mod help;
mod options;
mod print;
mod readers;
mod report;
mod rows;
mod run;
mod samples;
mod seek_table;
mod settings;
mod status;
mod unit;
mod walk;

use run::run;
use std::io;
use std::process::ExitCode;

fn main(rt: HostRuntime) -> io::Result<ExitCode> {
    Ok(ExitCode::from(run(&rt)?))
}
