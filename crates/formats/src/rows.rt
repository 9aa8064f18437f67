//! Files, and the output of other programs on them.

use crate::command::{Command, play};
use crate::damaged::play_damaged;
use crate::encode::encode_and_return;
use crate::encode_file::encode_path;
use crate::options::{Call, Options, Style, parse_command};
use crate::print::Printer;
use crate::report::{Extent, Report};
use crate::run::{read_directory, read_path};
use crate::settings::{ByteOrder, Encoding};
use crate::status::Status;
use anyhow::{Error, anyhow, bail};
use bitstream_formats::flac::{encode_with_md5, has_md5};
use flac_codec::{decode_file, is_file};
use std::alloc::{AllocError, Global};
use std::fs;
use std::io::Cursor;

/// The output of a command on a file.
#[derive(Drop)]
pub struct Written {
    /// The bytes written to standard output.
    pub out: Vec<u8>,
    /// The bytes reported on standard error.
    pub reported: Vec<u8>,
    /// The outcome of the file.
    pub status: Status,
}

impl Written {
    /// Returns the first reported line, without the names of the program and of the file.
    pub fn first_error(&self) -> &str {
        let text = match str::from_utf8(self.reported.as_slice()) {
            Ok(text) => text,
            Err(_) => "",
        };
        let line = text.lines().next().unwrap_or("");
        match line.split_once("FILE: ") {
            Some((_, error)) => error,
            None => line,
        }
    }
}

/// Returns the output of a command on a file.
pub fn outcome_of(
    alloc: Global,
    command: Command,
    style: Style,
    file: &[u8],
) -> Result<Written, Error> {
    let mut out = Vec::new(alloc);
    let mut report = Report::new(Vec::new(alloc), false, Extent::unknown());
    let mut printer = Printer::new(alloc, Options::of(alloc, style));
    let status = play(
        alloc,
        command,
        "FILE",
        file,
        &mut printer,
        &mut out,
        &mut report,
    )?;
    Ok(Written {
        out,
        reported: report.into_inner(),
        status,
    })
}

/// Returns the name of the element that a line prints, without its index.
fn name_of(line: &str) -> &str {
    let word = line.split(' ').nth(1).unwrap_or("");
    word.split('[').next().unwrap_or("")
}

/// Returns the names of the elements in rows, each once.
fn names_of(alloc: Global, rows: &str) -> Result<Vec<&str>, AllocError> {
    let mut names = Vec::new(alloc);
    for row in rows.lines() {
        let name = name_of(row);
        if !names.contains(&name) {
            names.push(name)?;
        }
    }
    Ok(names)
}

/// Counts the rows, and fails if they are not the printed lines of the elements with their names.
fn compare_rows(alloc: Global, written: &str, rows: &str) -> Result<u64, Error> {
    let names = names_of(alloc, rows)?;
    let mut left = rows.lines();
    let mut count = 0u64;
    for line in written.lines() {
        if !names.contains(&name_of(line)) {
            continue;
        }
        count = count.saturating_add(1);
        let is_row = match left.next() {
            Some(row) => row == line,
            None => false,
        };
        if !is_row {
            bail!("row {count} is another than what is read: {line}");
        }
    }
    if left.next().is_some() {
        bail!("nothing is read for the row behind row {count}");
    }
    Ok(count)
}

/// The way in which a file of a list is compared.
#[derive(Clone, Copy, Debug, PartialEq, Eq)]
struct Case {
    /// True if the file has an error, which is printed.
    refused: bool,
    /// The style in which its units are printed.
    style: Style,
}

/// Compares the results of reading each file of a list. A line has a command, a file, a file of
/// rows or of bytes, and options. After the word `json`, the units are printed as JSON. After the word `refused`,
/// the file has an error, which is printed. After the word `errors`, the line has a command, a
/// directory, and a file of the errors of the directory's files. After the word `damaged`, the line has
/// a command, and a file whose damaged copies are counted. After the word `encoded`, the line has a file that is
/// encoded as FLAC, a file of the samples that are then decoded, and options of the encoder. After the word `summed`, the
/// line has a FLAC file with the MD5 of its samples, and a file of the same samples with another MD5. After the word
/// `directory`, the line has a command, and a directory, which the command rejects.
pub fn play_rows(rt: &HostRuntime, list: &str) -> Result<(), Error> {
    let text = fs::read_to_string(rt, list)?;
    for line in text.as_str().lines() {
        let words = words_of(rt.alloc(), line)?;
        let mut case = Case {
            refused: false,
            style: Style::Rows,
        };
        let mut left = words.as_slice();
        if let Some(rest) = after_word(left, "refused") {
            case.refused = true;
            left = rest;
        }
        if let Some(rest) = after_word(left, "json") {
            case.style = Style::Json;
            left = rest;
        }
        let [word, path, other, options @ ..] = left else {
            bail!("{list}: {line}");
        };
        play_line(
            rt,
            case,
            word.as_str(),
            path.as_str(),
            other.as_str(),
            options,
        )?;
    }
    Ok(())
}

/// Compares what a line of a list names, after the words for its case.
fn play_line(
    rt: &HostRuntime,
    case: Case,
    word: &str,
    path: &str,
    other: &str,
    options: &[String],
) -> Result<(), Error> {
    match (word, options) {
        ("encoded", _) => {
            let command = command_with(rt.alloc(), "flac-encode", options)?;
            compare_encoded(rt, command, path, other, case)
        }
        ("summed", _) => compare_sums(rt, path, other),
        ("directory", _) => reject_directory(rt, command_of(path)?, other),
        ("damaged", _) => play_damaged(rt, command_of(path)?, other),
        ("errors", [rows, ..]) => compare_errors(rt, command_of(path)?, other, rows.as_str()),
        _ => {
            let command = command_with(rt.alloc(), word, options)?;
            compare(rt, command, path, other, case)
        }
    }
}

/// Returns the words of a line.
fn words_of(alloc: Global, line: &str) -> Result<Vec<String>, AllocError> {
    let mut words = Vec::new(alloc);
    for word in line.split(' ') {
        words.push(String::from_str(alloc, word)?)?;
    }
    Ok(words)
}

/// Returns the words after a first word, or `None` if another word is the first one.
fn after_word<'a>(words: &'a [String], first: &str) -> Option<&'a [String]> {
    let (word, rest) = words.split_first()?;
    if word.as_str() == first {
        Some(rest)
    } else {
        None
    }
}

/// Returns the command with this name and these options.
fn command_with(alloc: Global, word: &str, options: &[String]) -> Result<Command, Error> {
    let mut words = Vec::new(alloc);
    for option in options {
        words.push(option.clone()?)?;
    }
    words.push(String::from_str(alloc, "-")?)?;
    match parse_command(alloc, command_of(word)?, words.as_slice()) {
        Ok(Call::Read(command, _, _)) => Ok(command),
        _ => Err(anyhow!("the options of {word}")),
    }
}

/// Returns the command with this name.
fn command_of(word: &str) -> Result<Command, Error> {
    match Command::of(word) {
        Some(command) => Ok(command),
        None => Err(anyhow!("no command {word}")),
    }
}

/// Compares the output for a file with a file of rows or bytes.
fn compare(
    rt: &HostRuntime,
    command: Command,
    path: &str,
    other: &str,
    case: Case,
) -> Result<(), Error> {
    let file = fs::read(rt, path)?;
    let wanted = fs::read(rt, other)?;
    let written = outcome_of(rt.alloc(), command, case.style, file.as_slice())?;
    if case.refused != (written.status != Status::Read) {
        bail!("{path}: {:?}: {}", written.status, written.first_error());
    }
    if command.decodes() || case.style == Style::Json {
        if written.out.as_slice() != wanted.as_slice() {
            bail!("{path}: the bytes are not those of {other}");
        }
        println!(rt; "{path}: {} bytes, the same", written.out.len())?;
    } else {
        let (Ok(lines), Ok(rows)) = (
            str::from_utf8(written.out.as_slice()),
            str::from_utf8(wanted.as_slice()),
        ) else {
            bail!("{other}: no text");
        };
        match compare_rows(rt.alloc(), lines, rows) {
            Ok(count) => println!(rt; "{path}: {count} rows, the same")?,
            Err(error) => bail!("{path}: {error}"),
        }
    }
    if case.refused {
        println!(rt; "{path}: {}", written.first_error())?;
    }
    Ok(())
}

/// Encodes a file as FLAC, and compares what is decoded with a file of samples. Encodes it also over bytes that can seek, and
/// compares these bytes, but for the sizes of frames and the seek points.
fn compare_encoded(
    rt: &HostRuntime,
    command: Command,
    path: &str,
    other: &str,
    case: Case,
) -> Result<(), Error> {
    let file = fs::read(rt, path)?;
    let wanted = fs::read(rt, other)?;
    let alloc = rt.alloc();
    let encoded = outcome_of(alloc, command, Style::Rows, file.as_slice())?;
    if case.refused != (encoded.status != Status::Read) {
        bail!("{path}: {:?}: {}", encoded.status, encoded.first_error());
    }
    let decoder = Command::Flac(ByteOrder::Little);
    let decoded = outcome_of(alloc, decoder, Style::Rows, encoded.out.as_slice())?;
    if decoded.status != Status::Read || decoded.out.as_slice() != wanted.as_slice() {
        bail!("{path}: the samples are not those of {other}");
    }
    let Command::FlacEncode(encoding) = command else {
        bail!("{path}: another command");
    };
    let returned = returned_of(alloc, encoding, file.as_slice())?;
    if !is_same_file(encoding, encoded.out.as_slice(), returned.as_slice()) {
        bail!("{path}: what is encoded over a file that can seek is another file");
    }
    println!(rt; "{path}: {} bytes of samples, the same", decoded.out.len())?;
    if case.refused {
        println!(rt; "{path}: {}", encoded.first_error())?;
    }
    Ok(())
}

/// Returns the FLAC file that is encoded over bytes that can seek.
fn returned_of(alloc: Global, encoding: Encoding, file: &[u8]) -> Result<Vec<u8>, Error> {
    let mut out = Cursor::new(Vec::new(alloc));
    let mut report = Report::new(Vec::new(alloc), false, Extent::unknown());
    encode_and_return(alloc, encoding, "FILE", file, &mut out, &mut report)?;
    Ok(out.into_inner())
}

/// Returns true if FLAC files are the same but for the sizes of frames and the seek points, which the second one has.
fn is_same_file(encoding: Encoding, one: &[u8], other: &[u8]) -> bool {
    let rest = match encoding.seek_points {
        0 => 42,
        points => (points as usize).saturating_mul(18).saturating_add(46),
    };
    let sizes = other.get(12..18).unwrap_or(&[]);
    let points = other.get(46..rest).unwrap_or(&[]);
    sizes != [0; 6].as_slice()
        && !points.starts_with([0xff; 8].as_slice())
        && one.len() == other.len()
        && is_same_part(one, other, 0, 12)
        && is_same_part(one, other, 18, 42)
        && is_same_part(one, other, rest, one.len())
}

/// Returns true if files have the same bytes in a range.
fn is_same_part(one: &[u8], other: &[u8], from: usize, to: usize) -> bool {
    one.get(from..to).unwrap_or(&[]) == other.get(from..to).unwrap_or(&[])
}

/// Compares the MD5 of a FLAC file with its samples, and with the one that is made for another file of the same samples.
fn compare_sums(rt: &HostRuntime, path: &str, other: &str) -> Result<(), Error> {
    let alloc = rt.alloc();
    let file = decode_file(alloc, fs::read(rt, path)?.as_slice())?;
    let wrong = decode_file(alloc, fs::read(rt, other)?.as_slice())?;
    if !has_md5(alloc, &file)? {
        bail!("{path}: the MD5 is not that of the samples");
    }
    if has_md5(alloc, &wrong)? {
        bail!("{other}: the MD5 is that of the samples");
    }
    if !is_file(&wrong.header, 192, wrong.channels.as_slice()) {
        bail!("{other}: the samples cannot be encoded");
    }
    let bytes = encode_with_md5(alloc, &wrong.header, 192, wrong.channels.as_slice())?;
    let summed = decode_file(alloc, bytes.as_slice())?;
    if summed.header.checksum != file.header.checksum {
        bail!("{other}: the MD5 made is not that of {path}");
    }
    println!(rt; "{path}: its MD5 is that of its samples, and that of {other} is not")?;
    Ok(())
}

/// Prints the error of a command for a directory, and that of the encoder for an output that can seek.
fn reject_directory(rt: &HostRuntime, command: Command, directory: &str) -> Result<(), Error> {
    let alloc = rt.alloc();
    let mut out = Cursor::new(Vec::new(alloc));
    let mut printer = Printer::new(alloc, Options::of(alloc, Style::Rows));
    match read_path(rt, command, directory, &mut printer, &mut out) {
        Ok(status) => bail!("{directory}: {status:?}"),
        Err(error) => println!(rt; "{directory}: {error}")?,
    }
    if let Command::FlacEncode(encoding) = command {
        match encode_path(rt, encoding, directory, &mut out) {
            Ok(status) => bail!("{directory}: {status:?}"),
            Err(error) => println!(rt; "{directory}: {error}")?,
        }
    }
    Ok(())
}

/// Compares the errors of the files of a directory with a file of errors.
fn compare_errors(
    rt: &HostRuntime,
    command: Command,
    directory: &str,
    other: &str,
) -> Result<(), Error> {
    let wanted = fs::read(rt, other)?;
    let mut out = Vec::new(rt.alloc());
    let mut printer = Printer::new(rt.alloc(), Options::of(rt.alloc(), Style::Errors));
    let status = read_directory(rt, command, directory, &mut printer, &mut out)?;
    if status != Status::Refused {
        bail!("{directory}: {status:?}");
    }
    if out.as_slice() != wanted.as_slice() {
        bail!("{directory}: the errors are not those of {other}");
    }
    println!(rt; "{directory}: {} bytes of errors, the same", out.len())?;
    Ok(())
}
