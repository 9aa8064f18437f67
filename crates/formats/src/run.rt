//! A whole call of the program.

use crate::command::{Command, decode, play, show};
use crate::damaged::play_damaged;
use crate::encode::{encode, measure};
use crate::encode_file::encode_file;
use crate::help::{HELP, VERSION, help_of};
use crate::options::{Call, Options, Style, Usage, parse};
use crate::print::Printer;
use crate::readers::audio::{FlacUnits, Output};
use crate::readers::compressed::GzipUnits;
use crate::report::{Extent, Report, Watched};
use crate::rows::play_rows;
use crate::settings::Encoding;
use crate::status::{Status, USAGE};
use crate::walk::{Unread, Walk};
use anyhow::{Error, anyhow};
use flac_codec::stream_info::StreamInfo;
use std::fs::File;
use std::io::{BufWriter, ErrorKind, IsTerminal, Read, Seek, Write};
use std::os::unix::fs::MetadataExt;
use std::{env, fs, io};

/// The number of bytes written at once.
const OUT: usize = 65536;

/// Returns the program's arguments, without its name.
fn words(rt: &HostRuntime) -> io::Result<Vec<String>> {
    let mut words = Vec::new(rt.alloc());
    for word in env::args(rt)?.skip(1) {
        words.push(word)?;
    }
    Ok(words)
}

/// Runs the program on its arguments, and returns the exit status.
pub fn run(rt: &HostRuntime) -> io::Result<u8> {
    let words = words(rt)?;
    match parse(rt.alloc(), words.as_slice()) {
        Ok(call) => answer(rt, call),
        Err(usage) => {
            refuse(rt, usage)?;
            Ok(USAGE)
        }
    }
}

/// Reports the reason that a call is refused.
fn refuse(rt: &HostRuntime, usage: Usage) -> io::Result<()> {
    match usage {
        Usage::NoCommand(word) => eprintln!(rt; "formats: no command {}", word.as_str())?,
        Usage::NoOption(word) => eprintln!(rt; "formats: no option {}", word.as_str())?,
        Usage::NoValue(word) => eprintln!(rt; "formats: no value after {}", word.as_str())?,
        Usage::BadValue {
            option,
            value,
            wanted,
        } => {
            let (option, value) = (option.as_str(), value.as_str());
            eprintln!(rt; "formats: {option} {value}: it can be {wanted}")?;
        }
        Usage::NotOfCommand(word) => {
            eprintln!(rt; "formats: this command has no option {}", word.as_str())?;
        }
        Usage::NoForm => eprintln!(rt; "formats: --raw needs --channels, --bits and --rate")?,
        Usage::NoRaw(word) => eprintln!(rt; "formats: {} needs --raw", word.as_str())?,
        Usage::NoFile => eprintln!(rt; "formats: no file is named, or too many are")?,
        Usage::OneOutput => eprintln!(rt; "formats: an output is named, and several files are")?,
        Usage::NoOutput => eprintln!(rt; "formats: --seek-points needs -o")?,
        Usage::NoElements => {
            eprintln!(rt;
                "formats: this command prints no elements, so it has no options for them"
            )?;
        }
        Usage::NoMemory => eprintln!(rt; "formats: out of memory")?,
    }
    eprintln!(rt; "formats: `formats --help` prints how it is called")
}

/// Runs a parsed call, and returns the exit status.
fn answer(rt: &HostRuntime, call: Call) -> io::Result<u8> {
    match call {
        Call::Help => print!(rt; "{HELP}")?,
        Call::HelpOf(command) => print!(rt; "{}", help_of(command))?,
        Call::Version => print!(rt; "{VERSION}")?,
        Call::Rows(list) => return end(rt, play_rows(rt, list.as_str())),
        Call::Damaged(command, path) => return end(rt, play_damaged(rt, command, path.as_str())),
        Call::Read(command, options, files) => {
            return read_files(rt, command, options, files.as_slice());
        }
    }
    Ok(0)
}

/// Reports an error, and returns the exit status.
fn end(rt: &HostRuntime, done: Result<(), Error>) -> io::Result<u8> {
    match done {
        Ok(()) => Ok(0),
        Err(error) => {
            eprintln!(rt; "formats: {error}")?;
            Ok(Status::Refused.code())
        }
    }
}

/// Runs a command on files, and returns the worst exit status.
fn read_files(
    rt: &HostRuntime,
    command: Command,
    options: Options,
    files: &[String],
) -> io::Result<u8> {
    let alloc = rt.alloc();
    let Some(path) = &options.output else {
        let out = BufWriter::with_capacity(alloc, OUT, io::writer(rt))?;
        return write_files(rt, command, options, files, out);
    };
    let path = path.as_str();
    let mut file = match create(rt, path, files) {
        Ok(file) => file,
        Err(error) => {
            eprintln!(rt; "formats: {path}: {error}")?;
            return Ok(Status::Failed.code());
        }
    };
    let can_seek = file.stream_position().is_ok();
    let out = BufWriter::with_capacity(alloc, OUT, file)?;
    match (command, files) {
        (Command::FlacEncode(encoding), [name]) if can_seek => {
            encode_file(rt, encoding, name.as_str(), out)
        }
        _ => write_files(rt, command, options, files, out),
    }
}

/// Creates a file for the output of the first of some files, if that one exists and is another file.
fn create(rt: &HostRuntime, path: &str, files: &[String]) -> Result<File, Error> {
    let Some(name) = files.first() else {
        return Err(anyhow!("no file is read"));
    };
    let name = name.as_str();
    if name != "-" {
        let read = match fs::metadata(rt, name) {
            Ok(read) => read,
            Err(error) => return Err(anyhow!("not written, since {name} is not read: {error}")),
        };
        if let Ok(written) = fs::metadata(rt, path) {
            if written.is_file() && written.dev() == read.dev() && written.ino() == read.ino() {
                return Err(anyhow!("not written, since it is the file that is read"));
            }
        }
    }
    Ok(File::create(rt, path)?)
}

/// Runs a command on files, writes its output, and returns the worst exit status.
fn write_files<W: Write + Drop>(
    rt: &HostRuntime,
    command: Command,
    options: Options,
    files: &[String],
    out: W,
) -> io::Result<u8> {
    let mut printer = Printer::new(rt.alloc(), options);
    let mut out = out;
    let mut status = Status::Read;
    for file in files {
        match read_path(rt, command, file.as_str(), &mut printer, &mut out) {
            Ok(read) => status = status.max(read),
            Err(error) => {
                status = Status::Failed;
                eprintln!(rt; "formats: {}: {error}", file.as_str())?;
            }
        }
    }
    flush(rt, status, out)
}

/// Writes what is left of the output, and returns the exit status.
pub fn flush<W: Write + Drop>(rt: &HostRuntime, status: Status, out: W) -> io::Result<u8> {
    let mut out = out;
    match out.flush() {
        Ok(()) => Ok(status.code()),
        Err(error) if error.kind() == ErrorKind::BrokenPipe => Ok(Status::Failed.code()),
        Err(error) => {
            eprintln!(rt; "formats: {error}")?;
            Ok(Status::Failed.code())
        }
    }
}

/// Runs a command on a file, on standard input, or on the files of a directory.
pub fn read_path<W: Write + Drop>(
    rt: &HostRuntime,
    command: Command,
    name: &str,
    printer: &mut Printer,
    out: &mut W,
) -> Result<Status, Error> {
    if name == "-" {
        return read_from(
            rt,
            command,
            name,
            rt.stdin(),
            Extent::unknown(),
            printer,
            out,
        );
    }
    if !fs::metadata(rt, name)?.is_dir() {
        return read_file(rt, command, name, 0, printer, out);
    }
    if printer.style() != Style::Errors {
        return Err(command.directory_error());
    }
    read_directory(rt, command, name, printer, out)
}

/// Prints the errors of the files of a directory, and returns the worst status.
pub fn read_directory<W: Write + Drop>(
    rt: &HostRuntime,
    command: Command,
    name: &str,
    printer: &mut Printer,
    out: &mut W,
) -> Result<Status, Error> {
    let mut walk = Walk::over(rt.alloc(), name)?;
    let mut status = Status::Read;
    for number in 0..u64::MAX {
        match walk.next_file(rt)? {
            None if number == 0 => return Err(anyhow!("no file in the directory")),
            None => break,
            Some(Ok(path)) => match read_file(rt, command, path.as_str(), number, printer, out) {
                Ok(read) => status = status.max(read),
                Err(error) => {
                    status = Status::Failed;
                    eprintln!(rt; "formats: {}: {error}", path.as_str())?;
                }
            },
            Some(Err(Unread { path, text })) => {
                status = Status::Failed;
                eprintln!(rt; "formats: {}: {}", path.as_str(), text.as_str())?;
            }
        }
    }
    Ok(status)
}

/// Runs a command on a file, after some files of a directory.
fn read_file<W: Write + Drop>(
    rt: &HostRuntime,
    command: Command,
    name: &str,
    files: u64,
    printer: &mut Printer,
    out: &mut W,
) -> Result<Status, Error> {
    let file = File::open(rt, name)?;
    let bytes = file.metadata()?.len();
    read_from(
        rt,
        command,
        name,
        file,
        Extent { files, bytes },
        printer,
        out,
    )
}

/// Returns the number and the MD5 of the samples of an input, if it is a file, which can be read twice.
fn known_of(rt: &HostRuntime, encoding: Encoding, name: &str) -> Result<Option<StreamInfo>, Error> {
    if name == "-" || !fs::metadata(rt, name)?.is_file() {
        return Ok(None);
    }
    measure(rt.alloc(), encoding, File::open(rt, name)?)
}

/// Runs a command on a reader.
fn read_from<R: Read + Drop, W: Write>(
    rt: &HostRuntime,
    command: Command,
    name: &str,
    reader: R,
    extent: Extent,
    printer: &mut Printer,
    out: &mut W,
) -> Result<Status, Error> {
    let alloc = rt.alloc();
    let is_free = printer.has_file() || !rt.stdout().is_terminal();
    let shown = rt.stderr().is_terminal() && is_free;
    let mut report = Report::new(rt.stderr(), shown, extent);
    let mut reader = Watched::new(reader, Report::new(rt.stderr(), shown, extent));
    let done = match command {
        Command::Gunzip => {
            let mut units = GzipUnits::over(alloc, reader)?;
            decode(alloc, name, &mut units, out, &mut report)
        }
        Command::GzipHeaders => {
            let mut units = GzipUnits::over(alloc, reader)?;
            show(alloc, name, &mut units, printer, out, &mut report)
        }
        Command::Flac(order) => {
            let mut units = FlacUnits::over(alloc, reader, Output::Samples(order));
            decode(alloc, name, &mut units, out, &mut report)
        }
        Command::FlacTest => {
            let mut units = FlacUnits::over(alloc, reader, Output::Nothing);
            decode(alloc, name, &mut units, out, &mut report)
        }
        Command::FlacWav => {
            let mut units = FlacUnits::over(alloc, reader, Output::Wav);
            decode(alloc, name, &mut units, out, &mut report)
        }
        Command::FlacHeaders => {
            let mut units = FlacUnits::over(alloc, reader, Output::Headers);
            show(alloc, name, &mut units, printer, out, &mut report)
        }
        Command::FlacEncode(encoding) => {
            let known = known_of(rt, encoding, name)?;
            encode(alloc, encoding, name, reader, known, out, &mut report)
        }
        _ => {
            let mut file = Vec::new(alloc);
            reader.read_to_end(&mut file)?;
            play(
                alloc,
                command,
                name,
                file.as_slice(),
                printer,
                out,
                &mut report,
            )
        }
    };
    report.clear();
    done
}
