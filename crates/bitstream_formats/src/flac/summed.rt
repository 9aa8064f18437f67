//! Whole files with the MD5 of their samples (section 8.2).
ghost use Rattle.std.specs.Prelude.{◌≡◌, ◌↔◌, map, IsTrue, MatchResult};
ghost use Rattle.bitstream_formats.specs.Summed.{summed, HasMd5};
ghost use Rattle.bitstream_io.specs.Callers.{OutOfMemory};
ghost use Rattle.flac_codec.specs.Encodable.{IsFile};
ghost use Rattle.flac_codec.specs.File.{file_at};

use bitstream_io::Error;
use flac_codec::{File, FileHeader, encode_file, sample_bytes};
use md5::{Digest, Md5};
use std::alloc::Global;

/// Returns a file of these channels, as [`encode_file`] does, with the MD5 of the samples in place of the header's.
///
/// # Errors
///
/// An allocation failed.
pub fn encode_with_md5(
    alloc: Global,
    header: &FileHeader,
    block_size: u16,
    channels: &[Vec<i64>],
) -> Result<Vec<u8>, Error>
    requires { IsFile header.now block_size channels.now }
    ensures { MatchResult result
        (λ bytes. let samples = map (λ channel. channel.items) channels.now in
        file_at bytes.items ≡ Ok (summed header.now samples, samples))
        (λ error. error ≡ OutOfMemory) }
{
    let bytes = sample_bytes(alloc, header.sample_size, channels)?;
    let with_md5 = FileHeader {
        sample_rate: header.sample_rate,
        sample_size: header.sample_size,
        checksum: Md5::digest(bytes.as_slice()),
    };
    encode_file(alloc, &with_md5, block_size, channels)
}

/// Returns true if the file's MD5 is the MD5 of its samples, or is 0, which means unknown.
///
/// # Errors
///
/// An allocation failed.
pub fn has_md5(alloc: Global, file: &File) -> Result<bool, Error>
    ensures { MatchResult result
        (λ same. IsTrue same ↔ HasMd5 file.now.header (map (λ channel. channel.items) file.now.channels.items))
        (λ error. error ≡ OutOfMemory) }
{
    if file.header.checksum == [0; 16] {
        return Ok(true);
    }
    let bytes = sample_bytes(alloc, file.header.sample_size, file.channels.as_slice())?;
    Ok(Md5::digest(bytes.as_slice()) == file.header.checksum)
}
