//! The tests of what the encoders of frames and of files require.
ghost use Rattle.std.specs.Prelude.{◌≡◌, ◌↔◌, ◌<◌, ◌≤◌, ◌^◌, length, IsTrue};
ghost use Rattle.std.specs.List.{All};
ghost use Rattle.bitstream_io.specs.Callers.{FitsSignedBits};
ghost use Rattle.flac_codec.specs.Channels.{channel_count};
ghost use Rattle.flac_codec.specs.Encodable.{IsChannel, IsFile, IsFrame};
ghost use Rattle.flac_codec.specs.Header.{IsChannels, IsHeader, IsSampleRate, IsSampleSize};

use crate::file::{FileHeader, sample_count};
use crate::frame::width_of;
use crate::header::{Channels, FrameHeader};

/// Returns true if a frame can have this header and these channels. `sample_size` is the number of bits of a sample in the file.
pub fn is_frame(sample_size: u8, header: &FrameHeader, channels: &[Vec<i64>]) -> bool
    ensures { IsTrue result ↔ IsFrame sample_size header.now channels.now }
{
    let width = width_of(sample_size, header);
    if width < 1 || width > 32 {
        return false;
    }
    is_header(header)
        && channels.len() == channel_count(header.channels) as usize
        && all_fit(width, header.block_size as usize, channels)
}

/// Returns true if a file can have this header and these channels, in frames of `block_size` samples.
pub fn is_file(header: &FileHeader, block_size: u16, channels: &[Vec<i64>]) -> bool
    ensures { IsTrue result ↔ IsFile header.now block_size channels.now }
{
    if header.sample_size < 4 || header.sample_size > 32 {
        return false;
    }
    let count = sample_count(channels);
    header.sample_rate >= 1
        && header.sample_rate < 0x10_0000
        && block_size >= 16
        && channels.len() >= 1
        && channels.len() <= 8
        && count < 0x10_0000_0000
        && all_fit(header.sample_size, count, channels)
}

/// Each byte is below 2^8.
pub(crate) fn bytes_fit(bytes: &[u8])
    ensures { All (λ byte. byte < 2 ^ 8) bytes.now }
{}

/// A number of 16 bits is below 2^16.
pub(crate) fn size_fits(size: u16)
    ensures { size < 2 ^ 16 }
{}

/// Returns the number of channels of a coding.
pub(crate) fn channel_count(channels: Channels) -> u8
    ensures { result ≡ channel_count channels }
{
    match channels {
        Channels::Independent(count) => count,
        _ => 2,
    }
}

/// Returns true if a header can be written.
fn is_header(header: &FrameHeader) -> bool
    ensures { IsTrue result ↔ IsHeader header.now }
{
    header.block_size >= 1
        && header.block_size < 65_536
        && header.number < 0x10_0000_0000
        && is_sample_rate(header.sample_rate)
        && is_channels(header.channels)
        && is_sample_size(header.sample_size)
}

/// Returns true if a header can state this sample rate.
pub(crate) fn is_sample_rate(rate: u32) -> bool
    ensures { IsTrue result ↔ IsSampleRate rate }
{
    rate < 65_536 || (rate % 10 == 0 && rate < 655_360)
}

/// Returns true if a coding has one to eight channels.
pub(crate) fn is_channels(channels: Channels) -> bool
    ensures { IsTrue result ↔ IsChannels channels }
{
    match channels {
        Channels::Independent(count) => count >= 1 && count <= 8,
        _ => true,
    }
}

/// Returns true if a header can state this number of bits of a sample.
pub(crate) fn is_sample_size(size: u8) -> bool
    ensures { IsTrue result ↔ IsSampleSize size }
{
    matches!(size, 0 | 8 | 12 | 16 | 20 | 24 | 32)
}

/// Returns true if each channel has `size` samples, of `width` bits each.
pub(crate) fn all_fit(width: u8, size: usize, channels: &[Vec<i64>]) -> bool
    requires some { 1 ≤ width }
    requires within { width ≤ 32 }
    ensures { IsTrue result ↔ All (λ channel. IsChannel width size channel.items) channels.now }
{
    for channel in channels {
        if !is_channel(width, size, channel.as_slice()) {
            return false;
        }
    }
    true
}

/// Returns true if there are `size` samples, each of which fits in `width` bits.
fn is_channel(width: u8, size: usize, samples: &[i64]) -> bool
    requires some { 1 ≤ width }
    requires within { width ≤ 32 }
    ensures { IsTrue result ↔ IsChannel width size samples.now }
{
    samples.len() == size && samples_fit(width, samples)
}

/// Returns true if each sample fits in `width` bits.
fn samples_fit(width: u8, samples: &[i64]) -> bool
    requires some { 1 ≤ width }
    requires within { width ≤ 32 }
    ensures { IsTrue result ↔ All (FitsSignedBits width) samples.now }
{
    for sample in samples {
        if !sample_fits(width, *sample) {
            return false;
        }
    }
    true
}

/// Returns true if a sample fits in `width` bits.
fn sample_fits(width: u8, sample: i64) -> bool
    requires some { 1 ≤ width }
    requires within { width ≤ 32 }
    ensures { IsTrue result ↔ FitsSignedBits width sample }
{
    let rest = sample >> (width as u32 - 1);
    rest == 0 || rest == -1
}
