//! The bytes between a record and the next one.
//!
//! Made by `./format --program` from ../bitstream_callers/formats/primary_header.fields: edit that file and make this one anew.

use crate::ended::Ended;
use crate::primary_header_json::primary_header_number;
use bitstream_callers::primary_header::PrimaryHeader;

/// The number of bytes to skip after a record.
#[derive(Clone, Copy, Debug)]
pub enum Skip<'a> {
    /// The same number after each record.
    Bytes(u64),
    /// `times` the number in the field `path`, plus `plus`.
    Field {
        path: &'a str,
        times: i128,
        plus: i128,
    },
}

impl Skip<'_> {
    /// Parses a number, or `FIELD`, `FIELD*N`, `FIELD+N` or `FIELD*N-N`.
    pub fn of(text: &str) -> Option<Skip<'_>> {
        if let Some(count) = number_of(text) {
            return Some(Skip::Bytes(count));
        }
        let (front, plus) = match text.split_once('+') {
            Some((front, digits)) => (front, number_of(digits)? as i128),
            None => match text.split_once('-') {
                Some((front, digits)) => (front, 0 - number_of(digits)? as i128),
                None => (text, 0),
            },
        };
        let (path, times) = match front.split_once('*') {
            Some((path, digits)) => (path, number_of(digits)? as i128),
            None => (front, 1),
        };
        is_path(path).then_some(Skip::Field { path, times, plus })
    }

    /// Returns the number of bytes after the record `number`.
    pub fn after(&self, record: &PrimaryHeader, number: u64) -> Result<u64, Ended> {
        let (path, times, plus) = match *self {
            Skip::Bytes(count) => return Ok(count),
            Skip::Field { path, times, plus } => (path, times, plus),
        };
        let Some(found) = primary_header_number(record, path) else {
            return Err(Ended::NoNumber { number });
        };
        let size = found.saturating_mul(times).saturating_add(plus);
        if size < 0 {
            return Err(Ended::Inside { number, size });
        }
        Ok(size.unsigned_abs().min(u64::MAX as u128) as u64)
    }
}

/// Parses a number without a sign: decimal, or hex after `0x`.
fn number_of(digits: &str) -> Option<u64> {
    if digits.starts_with('+') {
        return None;
    }
    match digits.strip_prefix("0x") {
        Some(hex) if !hex.starts_with('+') => u64::from_str_radix(hex, 16).ok(),
        _ => digits.parse::<u64>().ok(),
    }
}

/// Returns true if a text is the name of a field, or names with dots between them.
fn is_path(text: &str) -> bool {
    for sign in text.as_bytes() {
        if !sign.is_ascii_alphanumeric() && *sign != b'_' && *sign != b'.' {
            return false;
        }
    }
    text.starts_with(|first: char| first.is_ascii_alphabetic() || first == '_')
}
