//! Packs lines of JSON into bytes.
//!
//! Made by `./format --program` from ../bitstream_callers/formats/primary_header.fields: edit that file and make this one anew.

use crate::ended::Ended;
use crate::fields::{Unfit, check_object};
use crate::primary_header_json::primary_header_of;
use bitstream_callers::primary_header::PrimaryHeader;
use serde_json::Value;
use std::alloc::Global;
use std::io;
use std::io::{BufRead, Write};

/// Returns the record of a line.
fn record_of(alloc: Global, line: &[u8]) -> Result<PrimaryHeader, Unfit> {
    let value = Value::from_slice(alloc, line)?;
    check_object(alloc, "the line", &value)?;
    primary_header_of(alloc, &value)
}

/// Writes the bytes of a record.
fn write_record<W: Write>(record: PrimaryHeader, out: &mut W) -> io::Result<()> {
    let mut room = [0; 6];
    match record.pack_into(&mut room) {
        Ok(packed) => out.write_all(packed.as_slice()),
        Err(error) => Err(io::Error::from(error.kind())),
    }
}

/// Writes the bytes of each line of an input. Empty lines are passed over.
pub fn pack<R: BufRead, W: Write>(alloc: Global, input: &mut R, out: &mut W) -> Result<(), Ended> {
    let mut line: Vec<u8> = Vec::new(alloc);
    for number in 1..u64::MAX {
        line.clear();
        if input.read_until(b'\n', &mut line)? == 0 {
            break;
        }
        if line.as_slice().trim_ascii().is_empty() {
            continue;
        }
        match record_of(alloc, line.as_slice()) {
            Ok(record) => write_record(record, out)?,
            Err(why) => return Err(Ended::Line { number, why }),
        }
    }
    Ok(())
}
