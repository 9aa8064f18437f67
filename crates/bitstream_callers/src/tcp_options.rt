//! The options of a TCP header, by a parser that holds its reader and the options that it fills in.
ghost use Rattle.bitstream_io.specs.Callers.{Reads, High, memory_source};
ghost use Rattle.bitstream_callers.specs.TcpOptions.{option_decoder};

use bitstream_io::{BE, BitRead, BitReadExt, Bits, Error, SliceReader};

/// The options that are known here.
#[derive(Clone, Copy, Debug, PartialEq)]
pub struct TcpOptions {
    /// The greatest number of bytes of a segment.
    pub maximum_segment: Option<u16>,
    /// The number of bits by which the window is shifted.
    pub window_scale: Option<u8>,
    /// True if selective acknowledgements are permitted.
    pub selective: bool,
}

/// A parser that reads one option after the other.
#[derive(Drop)]
struct Parser<'a, 'b> {
    reader: SliceReader<'a, BE>,
    options: &'b mut TcpOptions,
}

impl Parser<'_, '_> {
    /// Reads an option, and returns true if another one may follow. No option follows one of a length below 2.
    fn next(&mut self) -> Result<bool, Error>
        ensures { Reads (memory_source High) option_decoder self.old.reader result self.new.reader }
    {
        let kind = self.reader.read::<Bits<8>, u8>()?;
        if kind <= 1 {
            return Ok(kind == 1);
        }
        let length = self.reader.read::<Bits<8>, u8>()?;
        if length <= 1 {
            return Ok(false);
        }
        let mut data = self.reader.part((length - 2) as usize)?;
        note(self.options, kind, &mut data);
        Ok(true)
    }
}

/// Fills in the value of an option from its data. Data that are too short change nothing.
fn note(options: &mut TcpOptions, kind: u8, data: &mut SliceReader<BE>) {
    match kind {
        2 => options.maximum_segment = data.read::<Bits<16>, u16>().ok(),
        3 => options.window_scale = data.read::<Bits<8>, u8>().ok(),
        4 => options.selective = data.is_at_end(),
        _ => {}
    }
}

/// Reads options up to the last one. A header has 40 bytes for them.
fn read_options(parser: &mut Parser) -> Result<(), Error> {
    for _option in 0..40u32 {
        if parser.reader.is_at_end() || !parser.next()? {
            return Ok(());
        }
    }
    Ok(())
}

/// Fills in the options of a header, and returns the bytes after the last option.
///
/// # Errors
///
/// `EndOfInput` if an option is longer than the bytes left.
pub fn parse_options<'a>(bytes: &'a [u8], options: &mut TcpOptions) -> Result<&'a [u8], Error> {
    let mut parser = Parser {
        reader: SliceReader::over(bytes),
        options,
    };
    read_options(&mut parser)?;
    Ok(parser.reader.rest())
}
