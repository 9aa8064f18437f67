//! Prints the fields of the header of a WAV file: `wav_header FILE`.
#![tactic(auto)]

mod header;

use anyhow::{Context, Result};
use bitstream_io::{BitReader, LE};
use header::Header;
use std::io::BufReader;
use std::process::ExitCode;
use std::{env, fs, io};

/// Reads the header at the start of a file. Only a buffer of the file is in memory at a time.
fn read_header(rt: &HostRuntime, path: &str) -> Result<Header> {
    let file = BufReader::new(rt.alloc(), fs::open(rt, path)?)?;
    Ok(Header::read(&mut BitReader::<_, LE>::new(file))?)
}

/// Prints the header of a file.
fn print_header(rt: &HostRuntime, path: &str) -> Result<()> {
    let header = read_header(rt, path).context(format_args!("{path}"))?;
    println!(rt; "coding: {:?}", header.coding)?;
    println!(rt; "channels: {}", header.channels)?;
    println!(rt; "samples per second: {}", header.sample_rate)?;
    println!(rt; "bits per sample: {}", header.bits_per_sample)?;
    println!(rt; "bytes of samples: {}", header.data_size)?;
    Ok(())
}

fn main(rt: HostRuntime) -> io::Result<ExitCode> {
    let mut arguments = env::args(&rt)?.skip(1);
    let (Some(path), None) = (arguments.next(), arguments.next()) else {
        eprintln!(rt; "usage: wav_header FILE")?;
        return Ok(ExitCode::from(2));
    };
    if let Err(error) = print_header(&rt, path.as_str()) {
        eprintln!(rt; "wav_header: {error:#}")?;
        return Ok(ExitCode::FAILURE);
    }
    Ok(ExitCode::SUCCESS)
}
