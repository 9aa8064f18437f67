//! Writes the channels of a frame (sections 4.2 and 9.2).
ghost use Rattle.std.specs.Prelude.{◌≡◌, ◌<◌, ◌≤◌, ◌∷◌, [], length, map};
ghost use Rattle.std.specs.List.{All};
ghost use Rattle.bitstream_io.specs.Callers.{parts_decoder, FitsSignedBits};
ghost use Rattle.flac_codec.specs.Channels.{channel_count, channels_decoder, pair_decoder};
ghost use Rattle.flac_codec.specs.Subframe.{subframe_decoder};
ghost use Rattle.flac_codec.specs.declared.header.Channels.TheVariants.{LeftSide, MidSide, SideRight};
ghost use Rattle.flac_codec.specs.Written.{WritesPart};

use crate::channels::{less, more};
use crate::header::Channels;
use crate::writing::write_subframe;
use bitstream_io::{BitWrite, Error};
use std::alloc::Global;

/// Writes the channels of a block of samples of `width` bits.
pub(crate) fn write_channels<W: BitWrite>(
    writer: &mut W,
    alloc: Global,
    channels: Channels,
    width: u8,
    samples: &[Vec<i64>],
    block_size: u32,
) -> Result<(), Error>
    requires some { 1 ≤ width }
    requires within { width ≤ 32 }
    requires count { length samples.now ≡ channel_count channels }
    requires whole { All (λ channel. length channel.items ≡ block_size) samples.now }
    requires fit { All (λ channel. All (FitsSignedBits width) channel.items) samples.now }
    ensures { WritesPart W.sink (channels_decoder W.sink.order channels width block_size)
        (map (λ channel. channel.items) samples.now) writer.old result writer.new }
{
    match channels {
        Channels::Independent(_) => {
            write_independent(writer, alloc, width as u32, samples, block_size)
        }
        Channels::LeftSide => {
            let left = samples[0].as_slice();
            let right = samples[1].as_slice();
            write_left_side(writer, alloc, width, left, right)
        }
        Channels::SideRight => {
            let left = samples[0].as_slice();
            let right = samples[1].as_slice();
            write_side_right(writer, alloc, width, left, right)
        }
        Channels::MidSide => {
            let left = samples[0].as_slice();
            let right = samples[1].as_slice();
            write_middle_side(writer, alloc, width, left, right)
        }
    }
}

/// Writes independent channels.
fn write_independent<W: BitWrite>(
    writer: &mut W,
    alloc: Global,
    width: u32,
    samples: &[Vec<i64>],
    block_size: u32,
) -> Result<(), Error>
    requires some { 1 ≤ width }
    requires within { width ≤ 64 }
    requires whole { All (λ channel. length channel.items ≡ block_size) samples.now }
    requires fit { All (λ channel. All (FitsSignedBits width) channel.items) samples.now }
    ensures { WritesPart W.sink (parts_decoder (subframe_decoder W.sink.order width block_size) (length samples.now))
        (map (λ channel. channel.items) samples.now) writer.old result writer.new }
{
    for channel in samples {
        write_subframe(writer, alloc, width, channel.as_slice())?;
    }
    Ok(())
}

/// Writes two channels as the left one and the difference.
fn write_left_side<W: BitWrite>(
    writer: &mut W,
    alloc: Global,
    width: u8,
    left: &[i64],
    right: &[i64],
) -> Result<(), Error>
    requires some { 1 ≤ width }
    requires within { width ≤ 32 }
    requires same { length left.now ≡ length right.now }
    requires fit_left { All (FitsSignedBits width) left.now }
    requires fit_right { All (FitsSignedBits width) right.now }
    ensures { WritesPart W.sink (pair_decoder W.sink.order LeftSide width (length left.now))
        (left.now ∷ right.now ∷ []) writer.old result writer.new }
{
    let wide = width as u32;
    let side = less(alloc, left, right, 0)?;
    write_subframe(writer, alloc, wide, left)?;
    write_subframe(writer, alloc, wide + 1, side.as_slice())
}

/// Writes two channels as the difference and the right one.
fn write_side_right<W: BitWrite>(
    writer: &mut W,
    alloc: Global,
    width: u8,
    left: &[i64],
    right: &[i64],
) -> Result<(), Error>
    requires some { 1 ≤ width }
    requires within { width ≤ 32 }
    requires same { length left.now ≡ length right.now }
    requires fit_left { All (FitsSignedBits width) left.now }
    requires fit_right { All (FitsSignedBits width) right.now }
    ensures { WritesPart W.sink (pair_decoder W.sink.order SideRight width (length left.now))
        (left.now ∷ right.now ∷ []) writer.old result writer.new }
{
    let wide = width as u32;
    let side = less(alloc, left, right, 0)?;
    write_subframe(writer, alloc, wide + 1, side.as_slice())?;
    write_subframe(writer, alloc, wide, right)
}

/// Writes two channels as their mean and the difference.
fn write_middle_side<W: BitWrite>(
    writer: &mut W,
    alloc: Global,
    width: u8,
    left: &[i64],
    right: &[i64],
) -> Result<(), Error>
    requires some { 1 ≤ width }
    requires within { width ≤ 32 }
    requires same { length left.now ≡ length right.now }
    requires fit_left { All (FitsSignedBits width) left.now }
    requires fit_right { All (FitsSignedBits width) right.now }
    ensures { WritesPart W.sink (pair_decoder W.sink.order MidSide width (length left.now))
        (left.now ∷ right.now ∷ []) writer.old result writer.new }
{
    let wide = width as u32;
    let side = less(alloc, left, right, 0)?;
    let middle = more(alloc, right, side.as_slice(), 1)?;
    write_subframe(writer, alloc, wide, middle.as_slice())?;
    write_subframe(writer, alloc, wide + 1, side.as_slice())
}
