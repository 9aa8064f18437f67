//! The choice of the coding of channels. Any choice is valid: only the size of what is written depends on it.
ghost use Rattle.std.specs.Prelude.{◌≡◌, ◌≤◌};
ghost use Rattle.flac_codec.specs.Channels.{channel_count};
ghost use Rattle.flac_codec.specs.Header.{IsChannels};

use crate::header::Channels;

/// The ways in which the coding of two channels is chosen for a frame.
#[derive(Clone, Copy, Debug, PartialEq, Eq)]
pub enum Stereo {
    /// Each channel is coded by itself.
    Apart,
    /// The coding that seems shortest.
    Estimated,
    /// The shortest one of the four codings.
    Tried,
}

/// Returns a coding of `count` channels: by themselves for `Apart`, and else the one that seems shortest.
pub(crate) fn coding_of(stereo: Stereo, count: u8, block: &[Vec<i64>]) -> Channels
    requires one { 1 ≤ count }
    requires eight { count ≤ 8 }
    ensures valid { IsChannels result }
    ensures count { channel_count result ≡ count }
{
    if stereo == Stereo::Apart {
        Channels::Independent(count)
    } else {
        best_channels(count, block)
    }
}

/// Returns the coding of `count` channels, one to eight, with which a block of their samples seems shortest.
pub fn best_channels(count: u8, block: &[Vec<i64>]) -> Channels
    requires one { 1 ≤ count }
    requires eight { count ≤ 8 }
    ensures valid { IsChannels result }
    ensures count { channel_count result ≡ count }
{
    if count == 2 && block.len() == 2 {
        return best_stereo(block[0].as_slice(), block[1].as_slice());
    }
    Channels::Independent(count)
}

/// Returns the coding of two channels for which the sums of the changes of their slopes are least.
fn best_stereo(left: &[i64], right: &[i64]) -> Channels
    ensures valid { IsChannels result }
    ensures count { channel_count result ≡ 2 }
{
    let [left, right, middle, side] = slope_changes(left, right);
    let independent = left.saturating_add(right);
    let left_side = left.saturating_add(side);
    let side_right = side.saturating_add(right);
    let mid_side = middle.saturating_add(side);
    let least = independent.min(left_side).min(side_right).min(mid_side);
    if least == independent {
        return Channels::Independent(2);
    }
    if least == left_side {
        return Channels::LeftSide;
    }
    if least == side_right {
        Channels::SideRight
    } else {
        Channels::MidSide
    }
}

/// Returns the sums of the absolute changes of slope: of both channels, of their mean and of their difference.
fn slope_changes(left: &[i64], right: &[i64]) -> [u64; 4] {
    let mut sums = [0u64; 4];
    let mut last = [0i64; 4];
    let mut slopes = [0i64; 4];
    for (left, right) in left.iter().zip(right.iter()) {
        let middle = left.wrapping_add(*right) >> 1;
        let samples = [*left, *right, middle, left.wrapping_sub(*right)];
        for k in 0..4usize {
            let slope = samples[k].wrapping_sub(last[k]);
            let change = slope.wrapping_sub(slopes[k]).unsigned_abs();
            sums[k] = sums[k].saturating_add(change);
            last[k] = samples[k];
            slopes[k] = slope;
        }
    }
    sums
}
