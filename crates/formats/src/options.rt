//! The program's arguments.

use crate::command::Command;
use crate::settings::{ByteOrder, Encoding, Raw};
use std::alloc::{AllocError, Global};

/// The styles in which units are printed.
#[derive(Clone, Copy, Debug, PartialEq, Eq)]
pub enum Style {
    /// A line for each element: its place in bits, its name and its value.
    Rows,
    /// A heading for each unit, and its elements in columns.
    Table,
    /// A JSON object for each unit, on a line of its own.
    Json,
    /// Only errors.
    Errors,
}

/// The choices for the output of files.
#[derive(Drop)]
pub struct Options {
    /// The style in which units are printed.
    pub style: Style,
    /// The names of the elements to print. All elements are printed if there are no names.
    pub only: Vec<String>,
    /// The file that is written, or `None` for standard output.
    pub output: Option<String>,
}

impl Options {
    /// Returns the options of a style that prints all elements.
    pub fn of(alloc: Global, style: Style) -> Options {
        Options {
            style,
            only: Vec::new(alloc),
            output: None,
        }
    }

    /// Returns true if elements with this name are printed.
    pub fn has(&self, name: &str) -> bool {
        if self.only.is_empty() {
            return true;
        }
        for only in self.only.as_slice() {
            if only.as_str() == name {
                return true;
            }
        }
        false
    }
}

/// The tasks of the program.
#[derive(Drop)]
pub enum Call {
    /// Print the usage of the program.
    Help,
    /// Print the usage of a command.
    HelpOf(Command),
    /// Print the version.
    Version,
    /// Read files.
    Read(Command, Options, Vec<String>),
    /// Compare the elements read from files with the output of other programs.
    Rows(String),
    /// Count the results of reading damaged copies of a file.
    Damaged(Command, String),
}

/// The reasons that the arguments are rejected.
#[derive(Debug, Drop)]
pub enum Usage {
    /// There is no command of this name.
    NoCommand(String),
    /// There is no option of this name.
    NoOption(String),
    /// An option has no value after it.
    NoValue(String),
    /// An option has another value than it can have.
    BadValue {
        /// The option.
        option: String,
        /// The value.
        value: String,
        /// The values that it can have.
        wanted: &'static str,
    },
    /// The command does not have this option.
    NotOfCommand(String),
    /// Samples without a header lack a property.
    NoForm,
    /// An option describes samples without a header, which the command does not read.
    NoRaw(String),
    /// No file is named, or the wrong number of files is.
    NoFile,
    /// An output is named for several files.
    OneOutput,
    /// Seek points are wanted, and no output is named.
    NoOutput,
    /// A command that writes the contents of a file prints no elements, and has no option for them.
    NoElements,
    /// An allocation failed.
    NoMemory,
}

impl From<AllocError> for Usage {
    fn from(_refused: AllocError) -> Usage {
        Usage::NoMemory
    }
}

impl<T: Drop> From<std::alloc::AllocFailed<T>> for Usage {
    fn from(_refused: std::alloc::AllocFailed<T>) -> Usage {
        Usage::NoMemory
    }
}

/// Returns true if an argument asks for help.
fn is_help(word: &str) -> bool {
    matches!(word, "--help" | "-h" | "help")
}

/// Returns the command with this name.
fn command(word: &String) -> Result<Command, Usage> {
    match Command::of(word.as_str()) {
        Some(command) => Ok(command),
        None => Err(Usage::NoCommand(word.clone()?)),
    }
}

/// Parses the arguments of the program.
pub fn parse(alloc: Global, words: &[String]) -> Result<Call, Usage> {
    let Some((first, rest)) = words.split_first() else {
        return Ok(Call::Help);
    };
    match (first.as_str(), rest) {
        ("--version" | "-V", _) => Ok(Call::Version),
        ("--help" | "-h" | "help", [word]) => Ok(Call::HelpOf(command(word)?)),
        (word, _) if is_help(word) => Ok(Call::Help),
        ("rows", [list]) => Ok(Call::Rows(list.clone()?)),
        ("damaged", [word, path]) => Ok(Call::Damaged(command(word)?, path.clone()?)),
        ("rows" | "damaged", _) => Err(Usage::NoFile),
        _ => parse_command(alloc, command(first)?, rest),
    }
}

/// Parses the arguments after a command.
pub fn parse_command(alloc: Global, command: Command, words: &[String]) -> Result<Call, Usage> {
    let mut arguments = Arguments::new(alloc, command);
    for word in words {
        if let Some(call) = arguments.add(word)? {
            return Ok(call);
        }
    }
    arguments.end()
}

/// The arguments after a command, as far as they were parsed.
#[derive(Drop)]
struct Arguments {
    command: Command,
    options: Options,
    files: Vec<String>,
    // The option whose value follows.
    waiting: Option<String>,
    // True after `--`.
    only_files: bool,
    // An option of an encoder.
    of_encoder: Option<String>,
    // The settings of the encoder.
    encoding: Encoding,
    // True after `--raw`.
    is_raw: bool,
    // An option that describes samples without a header.
    of_raw: Option<String>,
    // The form of these samples. A number is 0 if it is not known.
    raw: Raw,
    // An option for the order of bytes.
    of_order: Option<String>,
}

impl Arguments {
    /// Returns the arguments before the first one.
    fn new(alloc: Global, command: Command) -> Arguments {
        Arguments {
            command,
            options: Options::of(alloc, Style::Rows),
            files: Vec::new(alloc),
            waiting: None,
            only_files: false,
            of_encoder: None,
            encoding: Encoding::DEFAULT,
            is_raw: false,
            of_raw: None,
            raw: Raw {
                channels: 0,
                bits: 0,
                rate: 0,
                order: ByteOrder::Little,
            },
            of_order: None,
        }
    }

    /// Adds an argument. Returns the call if it asks for help or for the version.
    fn add(&mut self, word: &String) -> Result<Option<Call>, Usage> {
        let text = word.as_str();
        if let Some(option) = self.waiting.take() {
            self.set(&option, word)?;
        } else if self.only_files || text == "-" || !text.starts_with('-') {
            self.files.push(word.clone()?)?;
        } else {
            match text {
                "--help" | "-h" => return Ok(Some(Call::HelpOf(self.command))),
                "--version" | "-V" => return Ok(Some(Call::Version)),
                _ => self.add_option(word)?,
            }
        }
        Ok(None)
    }

    /// Adds an option.
    fn add_option(&mut self, word: &String) -> Result<(), Usage> {
        match word.as_str() {
            "--json" => self.options.style = Style::Json,
            "--table" => self.options.style = Style::Table,
            "--errors" => self.options.style = Style::Errors,
            "--" => self.only_files = true,
            "--raw" => {
                self.is_raw = true;
                self.of_encoder = Some(word.clone()?);
            }
            "--only"
            | "-o"
            | "--output"
            | "--level"
            | "--block-size"
            | "--padding"
            | "--seek-points"
            | "--channels"
            | "--bits"
            | "--rate"
            | "--order" => self.waiting = Some(word.clone()?),
            text => {
                let Some(level) = level_of(text) else {
                    return Err(Usage::NoOption(word.clone()?));
                };
                self.encoding.set_level(level);
                self.of_encoder = Some(word.clone()?);
            }
        }
        Ok(())
    }

    /// Sets the value of an option.
    fn set(&mut self, option: &String, value: &String) -> Result<(), Usage> {
        match option.as_str() {
            "--only" => self.options.only.push(value.clone()?)?,
            "-o" | "--output" => self.options.output = Some(value.clone()?),
            "--order" => {
                let order = ByteOrder::of(value.as_str());
                self.raw.order = wanted(order, option, value, "`little` or `big`")?;
                self.of_order = Some(option.clone()?);
            }
            "--level" | "--block-size" | "--padding" | "--seek-points" => {
                self.set_encoding(option, value)?;
                self.of_encoder = Some(option.clone()?);
            }
            _ => {
                self.set_raw(option, value)?;
                self.of_raw = Some(option.clone()?);
            }
        }
        Ok(())
    }

    /// Sets the value of an option of the encoder.
    fn set_encoding(&mut self, option: &String, value: &String) -> Result<(), Usage> {
        match option.as_str() {
            "--level" => {
                let level = number(value, 0, 8);
                self.encoding
                    .set_level(wanted(level, option, value, "0 to 8")?);
            }
            "--block-size" => {
                let size = number(value, 16, 65_535);
                self.encoding.block_size = wanted(size, option, value, "16 to 65535")?.min(
                    65_535,
                ) as u16;
            }
            "--seek-points" => {
                let points = number(value, 0, 1000);
                self.encoding.seek_points = wanted(points, option, value, "0 to 1000")?;
            }
            _ => {
                let padding = number(value, 0, 0xff_ffff);
                self.encoding.padding = wanted(padding, option, value, "0 to 16777215")?;
            }
        }
        Ok(())
    }

    /// Sets a property of samples without a header.
    fn set_raw(&mut self, option: &String, value: &String) -> Result<(), Usage> {
        match option.as_str() {
            "--channels" => {
                let channels = number(value, 1, 8);
                self.raw.channels = wanted(channels, option, value, "1 to 8")?.min(8) as u8;
            }
            "--bits" => {
                let bits = number(value, 4, 32);
                self.raw.bits = wanted(bits, option, value, "4 to 32")?.min(32) as u8;
            }
            _ => {
                let rate = number(value, 1, 0xf_ffff);
                self.raw.rate = wanted(rate, option, value, "1 to 1048575")?;
            }
        }
        Ok(())
    }

    /// Returns the call of all arguments.
    fn end(self) -> Result<Call, Usage> {
        let mut arguments = self;
        if let Some(option) = arguments.waiting.take() {
            return Err(Usage::NoValue(option));
        }
        if arguments.command.decodes()
            && (arguments.options.style != Style::Rows || !arguments.options.only.is_empty())
        {
            return Err(Usage::NoElements);
        }
        let command = arguments.command()?;
        if arguments.files.is_empty() {
            return Err(Usage::NoFile);
        }
        if arguments.options.output.is_some() && arguments.files.len() > 1 {
            return Err(Usage::OneOutput);
        }
        if arguments.encoding.seek_points > 0 && arguments.options.output.is_none() {
            return Err(Usage::NoOutput);
        }
        Ok(Call::Read(command, arguments.options, arguments.files))
    }

    /// Returns the command with its settings.
    fn command(&mut self) -> Result<Command, Usage> {
        if let Command::FlacEncode(_) = self.command {
            return self.encoder();
        }
        if let Some(option) = self.of_encoder.take() {
            return Err(Usage::NotOfCommand(option));
        }
        if let Some(option) = self.of_raw.take() {
            return Err(Usage::NotOfCommand(option));
        }
        if let Command::Flac(_) = self.command {
            return Ok(Command::Flac(self.raw.order));
        }
        match self.of_order.take() {
            Some(option) => Err(Usage::NotOfCommand(option)),
            None => Ok(self.command),
        }
    }

    /// Returns the command that encodes with the settings.
    fn encoder(&mut self) -> Result<Command, Usage> {
        let mut encoding = self.encoding;
        if self.is_raw {
            if self.raw.channels == 0 || self.raw.bits == 0 || self.raw.rate == 0 {
                return Err(Usage::NoForm);
            }
            encoding.raw = Some(self.raw);
            return Ok(Command::FlacEncode(encoding));
        }
        if let Some(option) = self.of_raw.take() {
            return Err(Usage::NoRaw(option));
        }
        match self.of_order.take() {
            Some(option) => Err(Usage::NoRaw(option)),
            None => Ok(Command::FlacEncode(encoding)),
        }
    }
}

/// Returns the level of an option from `-0` to `-8`.
fn level_of(option: &str) -> Option<u32> {
    match option.as_bytes() {
        [b'-', digit] if *digit >= b'0' && *digit <= b'8' => Some((*digit - b'0') as u32),
        _ => None,
    }
}

/// Returns the number that a value spells, if it is from `low` to `high`.
fn number(value: &String, low: u32, high: u32) -> Option<u32> {
    match value.as_str().parse::<u32>() {
        Ok(number) if number >= low && number <= high => Some(number),
        _ => None,
    }
}

/// Returns the value that was found, or else the error of an option with another value.
fn wanted<T: Copy>(
    found: Option<T>,
    option: &String,
    value: &String,
    wanted: &'static str,
) -> Result<T, Usage> {
    match found {
        Some(found) => Ok(found),
        None => Err(Usage::BadValue {
            option: option.clone()?,
            value: value.clone()?,
            wanted,
        }),
    }
}
