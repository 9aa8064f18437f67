//! Parsers without contracts: of unary numbers, variable widths, constants, prefix codes and bytes,
//! with sums of the values read.
use bitstream_io::huffman::HuffmanTree;
use bitstream_io::{BE, BitRead, BitReadExt, BitReader, Bits, Error, LE, LittleEndian};
use std::alloc::Global;
use std::io::Read;

/// Returns the number of samples a second from a STREAMINFO block.
///
/// # Errors
///
/// `EndOfInput` for a block of fewer than 13 bytes.
pub fn sample_rate(block: &[u8]) -> Result<u32, Error> {
    let mut reader = BitReader::<_, BE>::new(block);
    reader.read::<Bits<16>, [u16; 5]>()?;
    reader.read::<Bits<20>, u32>()
}

/// Returns the version that a packet states.
///
/// # Errors
///
/// `EndOfInput` for a packet of no bytes.
pub fn version(packet: &[u8]) -> Result<u8, Error> {
    BitReader::<_, BE>::new(packet).read::<Bits<3>, u8>()
}

/// The measurement of a wheel's sensor.
#[derive(Clone, Copy, Debug, PartialEq)]
pub struct Turn {
    /// The packets that were lost before this one.
    pub lost: u32,
    /// The angle turned, negative if backwards.
    pub angle: i16,
}

/// Parses the values of a packet.
///
/// # Errors
///
/// The errors of the reader.
pub fn parse_turn(packet: &[u8]) -> Result<Turn, Error> {
    let mut reader = BitReader::endian(packet, LittleEndian);
    Ok(Turn {
        lost: reader.read_unary::<Bits<0>>()?,
        angle: reader.read_vbr::<Bits<5>, i16>()?,
    })
}

/// Returns the width and the height of a picture in WebP's lossless format, in pixels. Its header has a
/// signature of one byte, and then each number, less 1, in 14 bits, least significant bit first.
///
/// # Errors
///
/// The errors of the reader.
pub fn picture_size(header: &[u8]) -> Result<(u16, u16), Error> {
    let mut reader = BitReader::<_, LE>::over(header);
    reader.skip(8)?;
    let width = reader.read::<Bits<14>, u16>()? + 1;
    let height = reader.read::<Bits<14>, u16>()? + 1;
    Ok((width, height))
}

/// Returns a temperature in tenths of a degree, and its difference from the set temperature. The packet
/// has the first in 12 bits, and then the set temperature in 8 bits, in whole degrees.
///
/// # Errors
///
/// The errors of the reader.
pub fn drift(packet: &[u8]) -> Result<(i16, i16), Error> {
    let mut reader = BitReader::<_, BE>::over(packet);
    let now = reader.read::<Bits<12>, i16>()?;
    let set = reader.read::<Bits<8>, i16>()?;
    Ok((now, now - set * 10))
}

/// Returns the direction of a wheel: none, forwards or backwards.
///
/// # Errors
///
/// The errors of the reader, and `OutOfMemory`.
pub fn direction(alloc: Global, packet: &[u8]) -> Result<char, Error> {
    let idle = HuffmanTree::leaf(alloc, '0')?;
    let forwards = HuffmanTree::leaf(alloc, '+')?;
    let backwards = HuffmanTree::leaf(alloc, '-')?;
    let code = HuffmanTree::node(idle, HuffmanTree::node(forwards, backwards)?)?;
    BitReader::<_, BE>::new(packet).read_huffman(&code)
}

/// Returns the data of a chunk, after 4 bytes for its length and 4 bytes for its kind.
///
/// # Errors
///
/// The errors of the reader.
pub fn chunk<I: Read + Drop>(alloc: Global, input: I) -> Result<Vec<u8>, Error> {
    let mut reader = BitReader::<_, BE>::new(input);
    let length: u32 = reader.read_to()?;
    reader.skip(32)?;
    reader.read_to_vec(alloc, length as usize)
}

/// The reasons that a file is not a FLAC file.
#[derive(Debug, Drop)]
pub enum FlacError {
    /// An error of the reader.
    Reader(Error),
    /// It does not begin with `fLaC`.
    NoFlac,
}

impl From<Error> for FlacError {
    fn from(error: Error) -> FlacError {
        FlacError::Reader(error)
    }
}

/// Returns the bytes of a FLAC file's first block.
///
/// # Errors
///
/// `NoFlac`, and the errors of the reader.
pub fn first_block<I: Read + Drop>(input: I) -> Result<u32, FlacError> {
    let mut reader = BitReader::<_, BE>::new(input);
    reader.read_const::<Bits<32>, Bits<0x664C_6143>, FlacError>(FlacError::NoFlac)?;
    reader.skip(8)?;
    Ok(reader.read::<Bits<24>, u32>()?)
}
