//! Samples as whole bytes.
ghost use Rattle.std.specs.Prelude.{◌≤◌};

use std::alloc::AllocError;

/// Appends samples of `sample_size` bits as signed numbers of whole bytes, the lowest byte first. The samples of all channels
/// at one time follow each other.
///
/// # Errors
///
/// An allocation failed.
pub fn append_pcm(
    sample_size: u8,
    channels: &[Vec<i64>],
    bytes: &mut Vec<u8>,
) -> Result<(), AllocError> {
    match sample_size {
        0..=8 => append_low::<1>(channels, bytes),
        9..=16 => append_low::<2>(channels, bytes),
        17..=24 => append_low::<3>(channels, bytes),
        _ => append_low::<4>(channels, bytes),
    }
}

/// Appends the lowest N bytes of each sample.
fn append_low<const N: usize>(channels: &[Vec<i64>], bytes: &mut Vec<u8>) -> Result<(), AllocError>
    requires { N ≤ 8 }
{
    let count = match channels.first() {
        Some(channel) => channel.len(),
        None => 0,
    };
    let start = bytes.len();
    let step = channels.len().saturating_mul(N);
    bytes.resize(start.saturating_add(step.saturating_mul(count)), 0)?;
    write_channels::<N>(&mut bytes[start..], step, channels);
    Ok(())
}

/// Writes the lowest N bytes of each sample. Each `step` bytes have the samples of all channels at one time.
fn write_channels<const N: usize>(bytes: &mut [u8], step: usize, channels: &[Vec<i64>])
    requires { N ≤ 8 }
{
    for (at, channel) in channels.iter().enumerate() {
        write_channel::<N>(bytes, at.saturating_mul(N), step, channel.as_slice());
    }
}

/// Writes the lowest N bytes of each sample, each after the first `first` ones of the next `step` bytes.
fn write_channel<const N: usize>(bytes: &mut [u8], first: usize, step: usize, samples: &[i64])
    requires { N ≤ 8 }
{
    for (place, sample) in bytes.chunks_exact_mut(step.max(1)).zip(samples.iter()) {
        if let Some(to) = place.get_mut(first..first.saturating_add(N)) {
            to.copy_from_slice(&sample.to_le_bytes()[..N]);
        }
    }
}
