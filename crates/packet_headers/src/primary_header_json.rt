//! `PrimaryHeader` as JSON.
//!
//! Made by `./format --program` from ../bitstream_callers/formats/primary_header.fields: edit that file and make this one anew.

use crate::fields::{Unfit, boolean, check_names, field, unsigned};
use bitstream_callers::primary_header::PrimaryHeader;
use serde_json::Value;
use std::alloc::Global;
use std::io;
use std::io::Write;

/// Prints a record as an object.
pub fn print_primary_header<W: Write>(record: &PrimaryHeader, out: &mut W) -> io::Result<()> {
    out.write_all(b"{\"telecommand\": ")?;
    write!(out, "{}", record.telecommand)?;
    out.write_all(b", \"secondary\": ")?;
    write!(out, "{}", record.secondary)?;
    out.write_all(b", \"apid\": ")?;
    write!(out, "{}", record.apid)?;
    out.write_all(b", \"sequence\": ")?;
    write!(out, "{}", record.sequence)?;
    out.write_all(b", \"count\": ")?;
    write!(out, "{}", record.count)?;
    out.write_all(b", \"length\": ")?;
    write!(out, "{}", record.length)?;
    out.write_all(b"}")
}

/// Returns the record of an object.
pub fn primary_header_of(alloc: Global, object: &Value) -> Result<PrimaryHeader, Unfit> {
    check_names(
        alloc,
        object,
        "PrimaryHeader",
        &[
            "telecommand",
            "secondary",
            "apid",
            "sequence",
            "count",
            "length",
        ],
    )?;
    Ok(PrimaryHeader {
        telecommand: boolean(alloc, "telecommand", field(alloc, object, "telecommand")?)?,
        secondary: boolean(alloc, "secondary", field(alloc, object, "secondary")?)?,
        apid: unsigned(alloc, "apid", field(alloc, object, "apid")?, 0, 2047)? as u16,
        sequence: unsigned(alloc, "sequence", field(alloc, object, "sequence")?, 0, 3)? as u8,
        count: unsigned(alloc, "count", field(alloc, object, "count")?, 0, 16383)? as u16,
        length: unsigned(alloc, "length", field(alloc, object, "length")?, 0, 65535)? as u16,
    })
}

/// Returns a number of a record by its path, whose names have dots between them.
pub fn primary_header_number(record: &PrimaryHeader, path: &str) -> Option<i128> {
    match path {
        "apid" => Some(record.apid as i128),
        "sequence" => Some(record.sequence as i128),
        "count" => Some(record.count as i128),
        "length" => Some(record.length as i128),
        _ => None,
    }
}
