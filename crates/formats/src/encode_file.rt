//! Encodes a file as FLAC over a file that can seek.

use crate::command::Command;
use crate::encode::encode_and_return;
use crate::report::{Extent, Report, Watched};
use crate::run::flush;
use crate::settings::Encoding;
use crate::status::Status;
use anyhow::Error;
use std::fs::File;
use std::io;
use std::io::{BufWriter, IsTerminal, Read, Seek, Write};

/// Encodes a file, or standard input, and returns the exit status.
pub fn encode_file(
    rt: &HostRuntime,
    encoding: Encoding,
    name: &str,
    out: BufWriter<File>,
) -> io::Result<u8> {
    let mut out = out;
    match encode_path(rt, encoding, name, &mut out) {
        Ok(status) => flush(rt, status, out),
        Err(error) => {
            eprintln!(rt; "formats: {name}: {error}")?;
            flush(rt, Status::Failed, out)
        }
    }
}

/// Encodes a file, or standard input.
pub fn encode_path<W: Write + Seek>(
    rt: &HostRuntime,
    encoding: Encoding,
    name: &str,
    out: &mut W,
) -> Result<Status, Error> {
    if name == "-" {
        return encode_from(rt, encoding, name, rt.stdin(), Extent::unknown(), out);
    }
    let file = File::open(rt, name)?;
    let about = file.metadata()?;
    if about.is_dir() {
        return Err(Command::FlacEncode(encoding).directory_error());
    }
    let extent = Extent {
        files: 0,
        bytes: about.len(),
    };
    encode_from(rt, encoding, name, file, extent, out)
}

/// Encodes what a reader reads.
fn encode_from<R: Read + Drop, W: Write + Seek>(
    rt: &HostRuntime,
    encoding: Encoding,
    name: &str,
    reader: R,
    extent: Extent,
    out: &mut W,
) -> Result<Status, Error> {
    let shown = rt.stderr().is_terminal();
    let mut report = Report::new(rt.stderr(), shown, extent);
    let reader = Watched::new(reader, Report::new(rt.stderr(), shown, extent));
    let done = encode_and_return(rt.alloc(), encoding, name, reader, out, &mut report);
    report.clear();
    done
}
