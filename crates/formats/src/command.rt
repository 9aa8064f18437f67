//! The work of the program on a file.

use crate::encode::encode_bytes;
use crate::options::Style;
use crate::print::Printer;
use crate::readers::audio::{AdtsUnits, FlacUnits, Output};
use crate::readers::compressed::GzipUnits;
use crate::readers::containers::{OggUnits, TsUnits};
use crate::readers::h265::H265Units;
use crate::readers::video::{Av1Units, H264Units};
use crate::report::Report;
use crate::settings::{ByteOrder, Encoding};
use crate::status::Status;
use crate::unit::{ReadUnits, Step, Unit};
use anyhow::{Error, anyhow};
use std::alloc::Global;
use std::io;
use std::io::Write;

/// A command over a file.
#[derive(Clone, Copy, Debug, PartialEq, Eq)]
pub enum Command {
    /// Writes the samples of a FLAC file, their bytes in this order.
    Flac(ByteOrder),
    /// Encodes the samples of a file as FLAC.
    FlacEncode(Encoding),
    /// Checks the frames of a FLAC file, and writes nothing.
    FlacTest,
    /// Writes the samples of a FLAC file as WAV.
    FlacWav,
    /// Prints the metadata and the headers of the frames of a FLAC file.
    FlacHeaders,
    /// Writes the bytes of a gzip file.
    Gunzip,
    /// Prints the elements of the members of a gzip file.
    GzipHeaders,
    /// Prints the elements of the units of H.264.
    H264,
    /// Prints the elements of the units of H.265.
    H265,
    /// Prints the elements of the OBUs of AV1.
    Av1,
    /// Prints the elements of the frames of AAC.
    Adts,
    /// Prints the elements of the pages of Ogg.
    Ogg,
    /// Prints the elements of the packets of an MPEG transport stream.
    Ts,
}

impl Command {
    /// Returns the command with this name.
    pub fn of(word: &str) -> Option<Command> {
        match word {
            "flac" => Some(Command::Flac(ByteOrder::Little)),
            "flac-encode" => Some(Command::FlacEncode(Encoding::DEFAULT)),
            "flac-test" => Some(Command::FlacTest),
            "flac-wav" => Some(Command::FlacWav),
            "flac-headers" => Some(Command::FlacHeaders),
            "gunzip" => Some(Command::Gunzip),
            "gzip-headers" => Some(Command::GzipHeaders),
            "h264" => Some(Command::H264),
            "h265" => Some(Command::H265),
            "av1" => Some(Command::Av1),
            "adts" => Some(Command::Adts),
            "ogg" => Some(Command::Ogg),
            "ts" => Some(Command::Ts),
            _ => None,
        }
    }

    /// Returns true if the command writes bytes or samples, and prints no elements.
    pub fn decodes(self) -> bool {
        match self {
            Command::Flac(_) | Command::FlacTest | Command::FlacWav => true,
            Command::FlacEncode(_) | Command::Gunzip => true,
            _ => false,
        }
    }

    /// Returns the error for a directory. A command that prints no elements has no option `--errors`, and reads no directory.
    pub fn directory_error(self) -> Error {
        if self.decodes() {
            anyhow!("a directory; this command reads files")
        } else {
            anyhow!("a directory, which --errors alone reads")
        }
    }
}

/// Runs a command on the bytes of a file.
pub fn play<W: Write, P: Write>(
    alloc: Global,
    command: Command,
    name: &str,
    file: &[u8],
    printer: &mut Printer,
    out: &mut W,
    report: &mut Report<P>,
) -> Result<Status, Error> {
    match command {
        Command::Flac(order) => {
            let mut units = FlacUnits::over(alloc, file, Output::Samples(order));
            decode(alloc, name, &mut units, out, report)
        }
        Command::FlacTest => {
            let mut units = FlacUnits::over(alloc, file, Output::Nothing);
            decode(alloc, name, &mut units, out, report)
        }
        Command::FlacWav => {
            let mut units = FlacUnits::over(alloc, file, Output::Wav);
            decode(alloc, name, &mut units, out, report)
        }
        Command::FlacEncode(encoding) => encode_bytes(alloc, encoding, name, file, out, report),
        Command::Gunzip => {
            let mut units = GzipUnits::over(alloc, file)?;
            decode(alloc, name, &mut units, out, report)
        }
        Command::GzipHeaders => {
            let mut units = GzipUnits::over(alloc, file)?;
            show(alloc, name, &mut units, printer, out, report)
        }
        Command::FlacHeaders => {
            let mut units = FlacUnits::over(alloc, file, Output::Headers);
            show(alloc, name, &mut units, printer, out, report)
        }
        Command::H264 => {
            let mut units = H264Units::over(file);
            show(alloc, name, &mut units, printer, out, report)
        }
        Command::H265 => {
            let mut units = H265Units::over(file);
            show(alloc, name, &mut units, printer, out, report)
        }
        Command::Av1 => {
            let mut units = Av1Units::over(file);
            show(alloc, name, &mut units, printer, out, report)
        }
        Command::Adts => {
            let mut units = AdtsUnits::over(file);
            show(alloc, name, &mut units, printer, out, report)
        }
        Command::Ogg => {
            let mut units = OggUnits::over(alloc, file);
            show(alloc, name, &mut units, printer, out, report)
        }
        Command::Ts => {
            let mut units = TsUnits::over(alloc, file);
            show(alloc, name, &mut units, printer, out, report)
        }
    }
}

/// The error of a file without units.
const NOTHING: &str = "nothing of this format";

/// The outcome of the units of a file.
#[derive(Clone, Copy, Debug)]
struct Tally {
    status: Status,
    // The number of units that were read or refused.
    count: u64,
}

impl Tally {
    /// Returns the outcome of a file, which is `Refused` if the file has no unit.
    fn end(self) -> Status {
        if self.count > 0 {
            self.status
        } else {
            Status::Refused
        }
    }

    /// Adds a unit.
    fn add(&mut self, status: Status) {
        self.status = self.status.max(status);
        self.count = self.count.saturating_add(1);
    }
}

/// Prints the units of a file, and reports the rejected ones.
pub fn show<U: ReadUnits, W: Write, P: Write>(
    alloc: Global,
    name: &str,
    units: &mut U,
    printer: &mut Printer,
    out: &mut W,
    report: &mut Report<P>,
) -> Result<Status, Error> {
    let mut unit = Unit::new(alloc);
    let mut none = io::sink();
    let mut tally = Tally {
        status: Status::Read,
        count: 0,
    };
    for number in 0..u64::MAX {
        match units.next_unit(alloc, &mut unit, &mut none)? {
            Step::End => break,
            Step::Read => {
                tally.add(Status::Read);
                printer.print(out, name, number, &unit, None)?;
            }
            Step::Refused(fault) => {
                tally.add(Status::Refused);
                printer.print(out, name, number, &unit, Some(&fault))?;
                if printer.style() != Style::Errors {
                    report.refused(name, number, &unit, &fault);
                }
            }
            Step::Warned(fault) => {
                tally.add(Status::Warned);
                report.say(name, fault.text.as_str());
            }
        }
        report.done(units.bytes_done());
    }
    if tally.count == 0 {
        match printer.style() {
            Style::Errors => writeln!(out, "{name}: {NOTHING}")?,
            _ => report.say(name, NOTHING),
        }
    }
    Ok(tally.end())
}

/// Writes the contents of the units of a file, and reports the rejected units.
pub fn decode<U: ReadUnits, W: Write, P: Write>(
    alloc: Global,
    name: &str,
    units: &mut U,
    out: &mut W,
    report: &mut Report<P>,
) -> Result<Status, Error> {
    let mut unit = Unit::new(alloc);
    let mut tally = Tally {
        status: Status::Read,
        count: 0,
    };
    for number in 0..u64::MAX {
        match units.next_unit(alloc, &mut unit, out)? {
            Step::End => break,
            Step::Read => tally.add(Status::Read),
            Step::Refused(fault) => {
                tally.add(Status::Refused);
                report.refused(name, number, &unit, &fault);
            }
            Step::Warned(fault) => {
                tally.add(Status::Warned);
                report.say(name, fault.text.as_str());
            }
        }
        report.done(units.bytes_done());
    }
    if tally.count == 0 {
        report.say(name, NOTHING);
    }
    Ok(tally.end())
}
