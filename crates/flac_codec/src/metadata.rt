//! The metadata of a file (section 8): blocks, of which the first is STREAMINFO.
ghost use Rattle.std.specs.Prelude.{◌≡◌, ◌+◌, ◌%◌, ◌^◌, ◌<◌, ◌≤◌, ◌++◌, ℕ, List, length, nat_le, true, IfOk};
ghost use Rattle.bitstream_io.specs.Callers.{result_map};
ghost use Rattle.flac_codec.specs.File.{has_marker, info_at, is_stream_info, metadata_at, metadata_end, metadata_head};

use crate::error::FlacError;
use crate::stream_info::StreamInfo;
use bitstream_io::Error;

/// The header of a block of metadata.
#[derive(Clone, Copy, Debug, PartialEq, Eq)]
pub struct Metadata {
    /// True for the last block.
    pub last: bool,
    /// The type, below 128: 0 for STREAMINFO.
    pub kind: u8,
    /// The number of bytes, with the 4 bytes of the header.
    pub size: usize,
}

impl Metadata {
    /// Returns the 4 bytes of the header. The type is below 128, and fewer than 2^24 bytes follow the header, so `size` is 4 to
    /// 2^24 + 3 bytes.
    pub fn to_bytes(&self) -> [u8; 4]
        requires kind { self.now.kind < 128 }
        requires some { 4 ≤ self.now.size }
        requires few { self.now.size < 4 + 2 ^ 24 }
        // The header is read from them, whatever bytes follow.
        ensures back { (more : List ℕ) → metadata_head (result ++ more) ≡ self.now }
        ensures size { length result ≡ 4 }
    {
        let first = first_byte(self.last, self.kind);
        let size = self.size - 4;
        [
            first,
            (size / 65536) as u8,
            (size / 256 % 256) as u8,
            (size % 256) as u8,
        ]
    }
}

/// Returns the first byte of the header of a block.
fn first_byte(last: bool, kind: u8) -> u8
    requires { kind < 128 }
    ensures last { nat_le 128 result ≡ last }
    ensures kind { result % 128 ≡ kind }
{
    if last { 128 + kind } else { kind }
}

// STREAMINFO of a file.
#[derive(Clone, Copy)]
pub(crate) struct InfoAt {
    pub(crate) info: StreamInfo,
    // True if no other block of metadata follows.
    pub(crate) last: bool,
}

/// Reads STREAMINFO, with which a file begins.
pub(crate) fn info_at(bytes: &[u8]) -> Result<InfoAt, FlacError>
    ensures found { result_map (λ start. (start.info, start.last)) result ≡ info_at bytes.now }
    ensures within { IfOk result (λ start. 42 ≤ length bytes.now) }
{
    if !has_marker(bytes) {
        return Err(FlacError::NoFlac);
    }
    let block = metadata_at(&bytes[4..])?;
    if !is_stream_info(block) {
        return Err(FlacError::NoStreamInfo);
    }
    let info = StreamInfo::parse(&bytes[8..42])?;
    Ok(InfoAt {
        info,
        last: block.last,
    })
}

/// Returns the bytes after the metadata. `last` is true if the block before these bytes was the last one.
pub(crate) fn metadata_end(last: bool, bytes: &[u8]) -> Result<&[u8], FlacError>
    ensures { result_map (λ rest. rest.now) result ≡ metadata_end (length bytes.now) last bytes.now }
{
    let mut rest = bytes;
    let mut done = last;
    while !done {
        let block = metadata_at(rest)?;
        rest = &rest[block.size..];
        done = block.last;
    }
    Ok(rest)
}

/// Returns true if the first bytes are `fLaC`.
pub(crate) fn has_marker(bytes: &[u8]) -> bool
    ensures test { result ≡ has_marker bytes.now }
    ensures within { result ≡ true → 4 ≤ length bytes.now }
{
    bytes.len() >= 4 && bytes[0] == b'f' && bytes[1] == b'L' && bytes[2] == b'a' && bytes[3] == b'C'
}

/// Returns the block of metadata at the start of bytes.
fn metadata_at(bytes: &[u8]) -> Result<Metadata, FlacError>
    ensures found { result ≡ metadata_at bytes.now }
    ensures within { IfOk result (λ block. (4 ≤ block.size) × (block.size ≤ length bytes.now)) }
{
    if bytes.len() < 4 {
        return Err(FlacError::Reader(Error::EndOfInput));
    }
    let block = metadata_head(bytes);
    if bytes.len() < block.size {
        return Err(FlacError::Reader(Error::EndOfInput));
    }
    Ok(block)
}

/// Returns the block of metadata whose header is at the start of bytes.
pub(crate) fn metadata_head(bytes: &[u8]) -> Metadata
    requires { 4 ≤ length bytes.now }
    ensures found { result ≡ metadata_head bytes.now }
    ensures some { 4 ≤ result.size }
{
    Metadata {
        last: bytes[0] >= 128,
        kind: bytes[0] % 128,
        size: 4 + 65536 * bytes[1] as usize + 256 * bytes[2] as usize + bytes[3] as usize,
    }
}

/// Returns true if a block is a STREAMINFO of 34 bytes.
pub(crate) fn is_stream_info(block: Metadata) -> bool
    ensures { result ≡ is_stream_info block }
{
    block.kind == 0 && block.size == 38
}
