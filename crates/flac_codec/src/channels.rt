//! Reads the channels of a frame (sections 4.2 and 9.2).
ghost use Rattle.std.specs.Prelude.{◌≡◌, ◌<◌, ◌∷◌, [], map, IfOk, MatchResult};
ghost use Rattle.bitstream_io.specs.Callers.{parts_decoder, result_map, GrowsOwn, OutOfMemory};
ghost use Rattle.flac_codec.specs.Channels.{channels_decoder, first_width, joined, less, more, pair_decoder, second_width};
ghost use Rattle.flac_codec.specs.Errors.{becomes_flac};
ghost use Rattle.flac_codec.specs.Subframe.{subframe_decoder};
ghost use Rattle.flac_codec.specs.declared.error.FlacError.TheVariants.{Reader};

use crate::error::FlacError;
use crate::header::Channels;
use crate::reading::read_subframe;
use bitstream_io::BitRead;
use std::alloc::{AllocFailed, Global};

/// Reads the channels of a block, of samples of `width` bits. The difference of two channels has one more bit.
///
/// # Errors
///
/// Returns the errors of [`read_subframe`].
pub fn read_channels<R: BitRead>(
    reader: &mut R,
    alloc: Global,
    channels: Channels,
    width: u8,
    block_size: u32,
) -> Result<Vec<Vec<i64>>, FlacError>
    ensures { GrowsOwn R.source becomes_flac (channels_decoder R.source.order channels width block_size)
        reader.old (result_map (λ found. map (λ channel. channel.items) found.items) result) reader.new }
{
    match channels {
        Channels::Independent(count) => {
            read_independent(reader, alloc, count, width as u32, block_size)
        }
        Channels::LeftSide => read_pair(reader, alloc, channels, width, block_size),
        Channels::SideRight => read_pair(reader, alloc, channels, width, block_size),
        Channels::MidSide => read_pair(reader, alloc, channels, width, block_size),
    }
}

/// Reads independent channels.
fn read_independent<R: BitRead>(
    reader: &mut R,
    alloc: Global,
    count: u8,
    width: u32,
    block_size: u32,
) -> Result<Vec<Vec<i64>>, FlacError>
    ensures { GrowsOwn R.source becomes_flac (parts_decoder (subframe_decoder R.source.order width block_size) count)
        reader.old (result_map (λ found. map (λ channel. channel.items) found.items) result) reader.new }
{
    let mut found = Vec::new(alloc);
    for _ in 0..count {
        let channel = read_subframe(reader, alloc, width, block_size)?;
        found.push(channel)?;
    }
    Ok(found)
}

/// Reads two subframes, and returns their channels.
fn read_pair<R: BitRead>(
    reader: &mut R,
    alloc: Global,
    channels: Channels,
    width: u8,
    block_size: u32,
) -> Result<Vec<Vec<i64>>, FlacError>
    ensures { GrowsOwn R.source becomes_flac (pair_decoder R.source.order channels width block_size)
        reader.old (result_map (λ found. map (λ channel. channel.items) found.items) result) reader.new }
{
    let first = read_subframe(reader, alloc, first_width(channels, width), block_size)?;
    let second = read_subframe(reader, alloc, second_width(channels, width), block_size)?;
    joined(alloc, channels, first, second)
}

/// Returns the number of bits of a sample in the first of two subframes.
fn first_width(channels: Channels, width: u8) -> u32
    ensures { result ≡ first_width channels width }
{
    match channels {
        Channels::SideRight => width as u32 + 1,
        _ => width as u32,
    }
}

/// Returns the number of bits of a sample in the second of two subframes.
fn second_width(channels: Channels, width: u8) -> u32
    ensures { result ≡ second_width channels width }
{
    match channels {
        Channels::LeftSide => width as u32 + 1,
        Channels::MidSide => width as u32 + 1,
        _ => width as u32,
    }
}

/// Returns the left and the right channel that two subframes encode.
fn joined(
    alloc: Global,
    channels: Channels,
    first: Vec<i64>,
    second: Vec<i64>,
) -> Result<Vec<Vec<i64>>, FlacError>
    ensures { MatchResult result
        (λ found. map (λ channel. channel.items) found.items ≡ joined channels first.items second.items)
        (λ error. error ≡ Reader OutOfMemory) }
{
    match channels {
        Channels::LeftSide => {
            let right = less(alloc, first.as_slice(), second.as_slice(), 0)?;
            both(alloc, first, right)
        }
        Channels::SideRight => {
            let left = more(alloc, second.as_slice(), first.as_slice(), 0)?;
            both(alloc, left, second)
        }
        Channels::MidSide => {
            let right = less(alloc, first.as_slice(), second.as_slice(), 1)?;
            let left = more(alloc, right.as_slice(), second.as_slice(), 0)?;
            both(alloc, left, right)
        }
        Channels::Independent(_) => both(alloc, first, second),
    }
}

/// Returns two channels as a vector.
fn both(alloc: Global, first: Vec<i64>, second: Vec<i64>) -> Result<Vec<Vec<i64>>, FlacError>
    ensures { MatchResult result (λ found. found.items ≡ first ∷ second ∷ []) (λ error. error ≡ Reader OutOfMemory) }
{
    let mut found = Vec::new(alloc);
    found.push(first)?;
    found.push(second)?;
    Ok(found)
}

/// Shifts the samples `ys` right, and returns the samples `xs` minus them.
pub(crate) fn less(
    alloc: Global,
    xs: &[i64],
    ys: &[i64],
    shift: u32,
) -> Result<Vec<i64>, AllocFailed<i64>>
    requires { shift < 64 }
    ensures { IfOk result (λ found. found.items ≡ less shift xs.now ys.now) }
{
    let mut found = Vec::new(alloc);
    for at in 0..xs.len() {
        if at >= ys.len() {
            return Ok(found);
        }
        found.push(xs[at].wrapping_sub(ys[at] >> shift))?;
    }
    Ok(found)
}

/// Shifts the samples `ys` right, and returns the samples `xs` plus them.
pub(crate) fn more(
    alloc: Global,
    xs: &[i64],
    ys: &[i64],
    shift: u32,
) -> Result<Vec<i64>, AllocFailed<i64>>
    requires { shift < 64 }
    ensures { IfOk result (λ found. found.items ≡ more shift xs.now ys.now) }
{
    let mut found = Vec::new(alloc);
    for at in 0..xs.len() {
        if at >= ys.len() {
            return Ok(found);
        }
        found.push(xs[at].wrapping_add(ys[at] >> shift))?;
    }
    Ok(found)
}
