//! The reasons for which records end early.
//!
//! Made by `./format --program` from ../bitstream_callers/formats/primary_header.fields: edit that file and make this one anew.

use crate::fields::Unfit;
use bitstream_callers::primary_header::PrimaryHeaderError;
use std::alloc::AllocError;
use std::io;
use thiserror::Error;

/// The reasons for which records end early. Lines are counted from 1.
#[derive(Debug, Drop, Error)]
pub enum Ended {
    /// The input ends inside a record.
    #[error("record {number} begins at byte {start} and is torn: the input ends at byte {end}")]
    Torn {
        number: u64,
        start: u64,
        end: u64,
    },
    /// A record is refused.
    #[error("record {number} begins at byte {start} and is refused: {error}")]
    Refused {
        number: u64,
        start: u64,
        error: PrimaryHeaderError,
    },
    /// The input ends inside the bytes after a record.
    #[error("record {number}: the input ends {missing} bytes before the end of the {size} bytes to skip after it")]
    Short {
        number: u64,
        missing: u64,
        size: u64,
    },
    /// The next record would begin inside a record.
    #[error("record {number}: {size} bytes would be skipped, so the next record would begin inside this one")]
    Inside {
        number: u64,
        size: i128,
    },
    /// The field that states the bytes to skip is not a number of the record.
    #[error("record {number}: the field of `--skip` is not a number of the record")]
    NoNumber {
        number: u64,
    },
    /// A line does not fit the format.
    #[error("line {number}: {why}")]
    Line {
        number: u64,
        why: Unfit,
    },
    /// The input is not read, or the output is not written.
    #[error("{0}")]
    Io(#[from] io::Error),
}

impl From<AllocError> for Ended {
    fn from(error: AllocError) -> Ended {
        Ended::Io(io::Error::from(error))
    }
}

impl Ended {
    /// Returns the exit status.
    pub fn status(&self) -> u8 {
        match self {
            Ended::Torn { .. } | Ended::Short { .. } => 4,
            Ended::Refused { .. } | Ended::Inside { .. } | Ended::Line { .. } => 3,
            Ended::NoNumber { .. } | Ended::Io(_) => 2,
        }
    }

    /// Returns true if nobody reads the output any more.
    pub fn is_closed_output(&self) -> bool {
        match self {
            Ended::Io(error) => error.kind() == io::ErrorKind::BrokenPipe,
            _ => false,
        }
    }
}
