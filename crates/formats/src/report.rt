//! The reports on standard error: progress, and refused units.

use crate::unit::{Fault, Unit};
use anyhow::Error;
use std::io;
use std::io::{Read, Write};

/// The size of the input, for the progress.
#[derive(Clone, Copy, Debug)]
pub struct Extent {
    /// The number of files of a directory that were read before this one.
    pub files: u64,
    /// The number of bytes of the file, or 0 if it is not known.
    pub bytes: u64,
}

impl Extent {
    /// Returns the extent of a reader whose size is not known.
    pub fn unknown() -> Extent {
        Extent { files: 0, bytes: 0 }
    }
}

/// Reports refused units, and the progress in percent, in one line that it overwrites.
#[derive(Drop)]
pub struct Report<P: Write> {
    out: P,
    // True if progress is shown.
    shown: bool,
    extent: Extent,
    // The percentage last shown.
    told: u64,
}

impl<P: Write> Report<P> {
    /// Returns a report on a file. It shows progress only if `shown` is true.
    pub fn new(out: P, shown: bool, extent: Extent) -> Report<P> {
        Report {
            out,
            shown: shown && extent.bytes > 0,
            extent,
            told: 0,
        }
    }

    /// Shows that `bytes` bytes were read.
    pub fn done(&mut self, bytes: u64) {
        if !self.shown || self.extent.bytes == 0 {
            return;
        }
        let hundredths = (100 * bytes as u128 / self.extent.bytes as u128).min(100) as u64;
        if hundredths > self.told {
            self.told = hundredths;
            let _ = match self.extent.files {
                0 => write!(self.out, "\r{hundredths} %"),
                files => write!(self.out, "\r{files} files, {hundredths} %"),
            };
        }
    }

    /// Clears the line, if progress is shown.
    pub fn clear(&mut self) {
        if self.shown {
            self.told = 0;
            let _ = write!(self.out, "\r{:33}\r", "");
        }
    }

    /// Reports a refused unit.
    pub fn refused(&mut self, file: &str, number: u64, unit: &Unit, fault: &Fault) {
        self.clear();
        let _ = writeln!(
            self.out,
            "formats: {file}: unit {number}, byte {}, bit {}: {}",
            unit.byte,
            fault.bit,
            fault.text.as_str()
        );
    }

    /// Reports the error of a file.
    pub fn refuse(&mut self, file: &str, error: &Error) {
        self.clear();
        let _ = writeln!(self.out, "formats: {file}: {error}");
    }

    /// Returns the writer.
    pub fn into_inner(self) -> P {
        self.out
    }

    /// Reports a text about a file.
    pub fn say(&mut self, file: &str, text: &str) {
        self.clear();
        let _ = writeln!(self.out, "formats: {file}: {text}");
    }
}

/// A reader that reports the number of bytes read.
#[derive(Drop)]
pub struct Watched<R: Read, P: Write> {
    reader: R,
    report: Report<P>,
    done: u64,
}

impl<R: Read, P: Write> Watched<R, P> {
    /// Returns a reader that passes each read to another reader, and reports it.
    pub fn new(reader: R, report: Report<P>) -> Watched<R, P> {
        Watched {
            reader,
            report,
            done: 0,
        }
    }
}

impl<R: Read, P: Write> Read for Watched<R, P> {
    fn read(&mut self, buf: &mut [u8]) -> io::Result<usize> {
        let count = self.reader.read(buf)?;
        self.done = self.done.saturating_add(count as u64);
        self.report.done(self.done);
        Ok(count)
    }
}
