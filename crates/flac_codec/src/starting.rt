//! The start of a file (sections 6 and 8), encoded.
ghost use Rattle.std.specs.Prelude.{◌≡◌, ◌↔◌, ◌==◌, false, IsTrue, length, MatchResult};
ghost use Rattle.std.specs.List.{All};
ghost use Rattle.bitstream_io.specs.Callers.{OutOfMemory};
ghost use Rattle.flac_codec.specs.Encoding.{EndsMetadata, IsBlockOfMetadata, IsStart, IsStartOf};
ghost use Rattle.flac_codec.specs.StreamInfo.{Fits};
ghost use Rattle.flac_codec.specs.Written.{IsMetadata};

use crate::fits::{bytes_fit, size_fits};
use crate::metadata::Metadata;
use crate::stream_info::StreamInfo;
use bitstream_io::Error;
use std::alloc::Global;

/// A block of metadata after STREAMINFO.
#[derive(Debug, Drop)]
pub struct MetadataBlock {
    /// The type, 1 to 126: 1 for padding, 3 for seek points, 4 for tags.
    pub kind: u8,
    /// The bytes after the header, fewer than 2^24.
    pub bytes: Vec<u8>,
}

/// Returns the bytes of a file before its first frame: the marker, STREAMINFO, and other blocks of metadata. [`is_start`] tests
/// what is required.
///
/// # Errors
///
/// An allocation failed.
pub fn encode_start(
    alloc: Global,
    info: &StreamInfo,
    blocks: &[MetadataBlock],
) -> Result<Vec<u8>, Error>
    requires { IsStart info.now blocks.now }
    ensures { MatchResult result (λ bytes. IsStartOf info.now bytes.items) (λ error. error ≡ OutOfMemory) }
{
    let mut bytes = encode_info(alloc, info, blocks.is_empty())?;
    let rest = encode_metadata(alloc, blocks)?;
    bytes.extend_from_slice(rest.as_slice())?;
    Ok(bytes)
}

/// Returns true if a file can begin with this STREAMINFO and these blocks after it.
pub fn is_start(info: &StreamInfo, blocks: &[MetadataBlock]) -> bool
    ensures { IsTrue result ↔ IsStart info.now blocks.now }
{
    fits(info) && are_blocks(blocks)
}

/// Returns true if each field fits its bits.
fn fits(info: &StreamInfo) -> bool
    ensures { IsTrue result ↔ Fits info.now }
{
    let checksum = info.checksum;
    bytes_fit(&checksum);
    size_fits(info.minimum_block_size);
    size_fits(info.maximum_block_size);
    if info.minimum_frame_size >= 0x100_0000 {
        return false;
    }
    if info.maximum_frame_size >= 0x100_0000 {
        return false;
    }
    if info.sample_rate >= 0x10_0000 {
        return false;
    }
    if info.channels.get() > 8 {
        return false;
    }
    if info.bits_per_sample.get() > 32 {
        return false;
    }
    info.total_samples < 0x10_0000_0000
}

/// Returns true if each block can be written.
fn are_blocks(blocks: &[MetadataBlock]) -> bool
    ensures { IsTrue result ↔ All IsBlockOfMetadata blocks.now }
{
    for block in blocks {
        if !is_block(block) {
            return false;
        }
    }
    true
}

/// Returns true if a block can be written.
fn is_block(block: &MetadataBlock) -> bool
    ensures { IsTrue result ↔ IsBlockOfMetadata block.now }
{
    block.kind >= 1 && block.kind < 127 && block.bytes.len() < 0x100_0000
}

/// Returns the marker, and STREAMINFO, which is the last block of metadata or not.
pub(crate) fn encode_info(alloc: Global, info: &StreamInfo, last: bool) -> Result<Vec<u8>, Error>
    requires { Fits info.now }
    ensures { MatchResult result (λ bytes. IsMetadata info.now last bytes.items) (λ error. error ≡ OutOfMemory) }
{
    let head = Metadata {
        last,
        kind: 0,
        size: 38,
    };
    let mut bytes = Vec::new(alloc);
    bytes.extend_from_slice(b"fLaC")?;
    bytes.extend_from_slice(&head.to_bytes())?;
    let mut buffer = [0; 34];
    let packed = info.pack_into(&mut buffer)?;
    bytes.extend_from_slice(packed.as_slice())?;
    Ok(bytes)
}

/// Returns blocks of metadata, of which the last one is the last of the file.
fn encode_metadata(alloc: Global, blocks: &[MetadataBlock]) -> Result<Vec<u8>, Error>
    requires { All IsBlockOfMetadata blocks.now }
    ensures { MatchResult result (λ bytes. EndsMetadata (length blocks.now == 0) bytes.items)
        (λ error. error ≡ OutOfMemory) }
{
    let mut bytes = Vec::new(alloc);
    let mut left = blocks.len();
    while left > 0 {
        let last = blocks.len() == left;
        left -= 1;
        bytes = encode_block(alloc, &blocks[left], last, bytes.as_slice())?;
    }
    Ok(bytes)
}

/// Returns a block, and the bytes of the blocks after it.
fn encode_block(
    alloc: Global,
    block: &MetadataBlock,
    last: bool,
    rest: &[u8],
) -> Result<Vec<u8>, Error>
    requires block { IsBlockOfMetadata block.now }
    requires rest { EndsMetadata last rest.now }
    ensures { MatchResult result (λ bytes. EndsMetadata false bytes.items) (λ error. error ≡ OutOfMemory) }
{
    let head = Metadata {
        last,
        kind: block.kind,
        size: 4 + block.bytes.len(),
    };
    let mut bytes = Vec::new(alloc);
    bytes.extend_from_slice(&head.to_bytes())?;
    bytes.extend_from_slice(block.bytes.as_slice())?;
    bytes.extend_from_slice(rest)?;
    Ok(bytes)
}
