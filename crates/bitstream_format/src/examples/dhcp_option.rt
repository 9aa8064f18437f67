//! An option of DHCP: a choice by a code, in a part of a stated size (RFC 2132).
ghost use Rattle.bitstream_format.specs.Format.{RoundTripLaw, LengthLaw, format_if_made};
ghost use Rattle.bitstream_format.specs.Sizes.{PartLimitLaw, only, sized};
ghost use Rattle.bitstream_format.specs.Examples.DhcpOption.{dhcp_option, inside, becomes_dhcp};
ghost use Rattle.bitstream_format.specs.declared.examples.dhcp_option.DhcpError.TheVariants.{Reader, WrongSize};
ghost use Rattle.std.specs.Prelude.{◌≡◌, ℕ, length};
ghost use Rattle.bitstream_io.specs.Callers.{ReadsOwn, WritesAll, memory_source, High, bits};

use bitstream_io::{BE, BitRead, BitReadExt, BitWrite, BitWriteExt, Bits, Error, SliceReader};

/// An option that is known here.
#[derive(Clone, Copy, Debug, PartialEq)]
pub enum DhcpOption {
    /// The kind of the message (9.6).
    MessageType(u8),
    /// The number of seconds of a lease (9.2).
    LeaseTime(u32),
}

/// The errors of reading an option.
#[derive(Debug, Drop)]
pub enum DhcpError {
    /// An error of the reader.
    Reader(Error),
    /// The code is not the code of an option known here.
    UnknownOption,
    /// The value does not fill the bytes that the size states.
    WrongSize,
}

impl From<Error> for DhcpError {
    ghost from_gives = { becomes_dhcp };

    fn from(error: Error) -> DhcpError {
        DhcpError::Reader(error)
    }
}

impl DhcpOption {
    /// Returns the value that fills these bytes.
    ///
    /// # Errors
    ///
    /// `UnknownOption` for another code. `WrongSize` if the value does not fill the bytes.
    fn filling(code: u8, bytes: &[u8]) -> Result<DhcpOption, DhcpError>
        ensures { result ≡ only (format_if_made (inside code)) WrongSize Reader High (bits High bytes.now) }
    {
        let mut part = SliceReader::<BE>::over(bytes);
        if code == 53 {
            if bytes.len() != 1 {
                return Err(DhcpError::WrongSize);
            }
            return Ok(DhcpOption::MessageType(part.read::<Bits<8>, u8>()?));
        }
        if code == 51 {
            if bytes.len() != 4 {
                return Err(DhcpError::WrongSize);
            }
            return Ok(DhcpOption::LeaseTime(part.read::<Bits<32>, u32>()?));
        }
        Err(DhcpError::UnknownOption)
    }

    /// Reads the value that fills a buffer.
    ///
    /// # Errors
    ///
    /// `UnknownOption` and `WrongSize`, after `buffer.len()` bytes have been read. Otherwise, the errors of the reader,
    /// after which it has failed.
    fn read_filling(
        reader: &mut SliceReader<'_, BE>,
        code: u8,
        buffer: &mut [u8],
    ) -> Result<DhcpOption, DhcpError>
        ensures { ReadsOwn (memory_source High) becomes_dhcp
            ((sized (length buffer.old) (format_if_made (inside code)) WrongSize Reader).read High)
            reader.old result reader.new }
    {
        reader.read_bytes(buffer)?;
        DhcpOption::filling(code, buffer)
    }

    /// Reads an option. Reads no bit after the bytes that its size states.
    ///
    /// # Errors
    ///
    /// `UnknownOption` and `WrongSize`, after these bytes have been read. Otherwise, the errors of the reader, after
    /// which it has failed.
    pub fn read(reader: &mut SliceReader<'_, BE>) -> Result<DhcpOption, DhcpError>
        ensures { ReadsOwn (memory_source High) becomes_dhcp (dhcp_option.read High) reader.old result reader.new }
    {
        let code = reader.read::<Bits<8>, u8>()?;
        let size = reader.read::<Bits<8>, u8>()?;
        let mut buffer = [0; 255];
        DhcpOption::read_filling(reader, code, &mut buffer[..size as usize])
    }
}

/// States that what was written is read back, in either order of bits, at any position, and that a read takes only
/// its bits. The value is read only from the bytes that its size states.
pub fn dhcp_option_laws()
    ensures round_trip { RoundTripLaw dhcp_option }
    ensures length { LengthLaw dhcp_option }
    ensures limit { (code size : ℕ) → PartLimitLaw size (format_if_made (inside code)) WrongSize Reader }
{}
