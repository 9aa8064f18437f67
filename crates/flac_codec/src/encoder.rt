//! Files of a writer (sections 6, 8 and 9), encoded frame by frame.
ghost use Rattle.std.specs.Prelude.{◌≡◌, ◌↔◌, ◌+◌, ◌-◌, ◌≤◌, ◌<◌, ◌^◌, ℕ, List, false, length, map, max, min, take, true, IfErr, IfOk, IsTrue, MatchResult, OnOk};
ghost use Rattle.std.specs.Int.NonZero.{non_zero_u8_get};
ghost use Rattle.std.specs.Io.KnownBytes.{Appends};
ghost use Rattle.bitstream_io.specs.Callers.{OutOfMemory};
ghost use Rattle.flac_codec.specs.Channels.{channel_count};
ghost use Rattle.flac_codec.specs.Encodable.{count_of};
ghost use Rattle.flac_codec.specs.Encoding.{frames_of, info_of, is_open, largest_of, open_after, samples_after_write, samples_of, smaller, smallest_of, stated_total, stopped, writer_of, IsFrameOf, IsLike, IsNext, IsStart, IsStartOf, IsZeroOr, OnFailure};
ghost use Rattle.flac_codec.specs.File.{rate_of};
ghost use Rattle.flac_codec.specs.Frame.{width_of};
ghost use Rattle.flac_codec.specs.Header.{IsChannels, IsHeader, IsSampleRate, IsSampleSize};

use crate::encode_error::EncodeError;
use crate::file::sample_count;
use crate::fits::{all_fit, is_sample_rate, is_sample_size, size_fits};
use crate::framing::encode_frame;
use crate::header::{Channels, FrameHeader};
use crate::output::send;
use crate::starting::{MetadataBlock, encode_start};
use crate::stereo::{Stereo, coding_of};
use crate::stream_info::StreamInfo;
use bitstream_io::Error;
use std::alloc::Global;
use std::io::Write;

/// The greatest size of a frame that STREAMINFO has room for.
const LARGEST: usize = 0xff_ffff;

/// A file that is encoded frame by frame over any writer.
///
/// It holds the bytes of one frame at a time.
#[derive(Drop)]
pub struct Encoder<W> {
    writer: W,
    info: StreamInfo,
    stereo: Stereo,
    // The number of frames that were written.
    frames: u64,
    // Their samples per channel, up to 2^64 - 1.
    samples: u64,
    // The sizes of the smallest and of the largest frame in bytes, or 0 before the first one.
    smallest: u32,
    largest: u32,
    // False after a frame with fewer samples than the greatest block size, and after the writer failed.
    is_open: bool,
}

impl<W: Write> Encoder<W> {
    /// Writes the marker, STREAMINFO, and other blocks of metadata, by one request if the writer takes all bytes at once.
    /// `stereo` is the way in which the coding of two channels is chosen. [`is_start`](crate::is_start) tests what is required.
    ///
    /// # Errors
    ///
    /// `OutOfMemory` if an allocation failed. Nothing was written. `Writer` if the writer failed. It may have written the first
    /// bytes of the start. After an error the writer is dropped.
    pub fn new(
        alloc: Global,
        writer: W,
        info: &StreamInfo,
        blocks: &[MetadataBlock],
        stereo: Stereo,
    ) -> Result<Encoder<W>, EncodeError>
    where
        W: Drop,
        requires { IsStart info.now blocks.now }
        // A decoder finds STREAMINFO in what was written, and the frames after it.
        ensures written { IfOk result (λ encoder. (bytes : List ℕ) × IsStartOf info.now bytes
            × Appends (W.contents writer) (W.contents (writer_of encoder)) bytes) }
        ensures info { IfOk result (λ encoder. info_of encoder ≡ info.now) }
        ensures frames { IfOk result (λ encoder. frames_of encoder ≡ 0) }
        ensures samples { IfOk result (λ encoder. samples_of encoder ≡ 0) }
        ensures sizes { IfOk result (λ encoder. (smallest_of encoder ≡ 0) × (largest_of encoder ≡ 0)) }
        ensures accepts { IfOk result (λ encoder. is_open encoder ≡ true) }
    {
        let mut writer = writer;
        let start = match encode_start(alloc, info, blocks) {
            Ok(start) => start,
            Err(_) => return Err(EncodeError::OutOfMemory),
        };
        if let Err(error) = send(&mut writer, start.as_slice()) {
            return Err(EncodeError::Writer(error));
        }
        Ok(Encoder {
            writer,
            info: *info,
            stereo,
            frames: 0,
            samples: 0,
            smallest: 0,
            largest: 0,
            is_open: true,
        })
    }

    /// Returns the number of samples per channel that were written, up to 2^64 - 1.
    pub fn samples(&self) -> u64
        ensures { result ≡ samples_of self.now }
    {
        self.samples
    }

    /// Returns true if these channels can be the next frame: as many as STREAMINFO states, each with the same number of samples,
    /// from 1 to the greatest block size, that fit their bits. No frame follows one with fewer samples than that size, nor an
    /// error of the writer.
    pub fn is_next(&self, channels: &[Vec<i64>]) -> bool
        ensures { IsTrue result ↔ (is_open self.now ≡ true) × IsNext (info_of self.now) (frames_of self.now) channels.now }
    {
        self.is_open && is_next(&self.info, self.frames, channels)
    }

    /// Writes a frame of these channels, left before right, and returns its size in bytes. [`is_next`](Encoder::is_next) tests
    /// what is required.
    ///
    /// # Errors
    ///
    /// `OutOfMemory` if an allocation failed. Nothing was written, and the frame may be tried again. `Writer` if the writer
    /// failed. It may have written the first bytes of the frame, and no frame is accepted any more.
    pub fn write_frame(
        &mut self,
        alloc: Global,
        channels: &[Vec<i64>],
    ) -> Result<usize, EncodeError>
        requires accepts { is_open self.old ≡ true }
        requires next { IsNext (info_of self.old) (frames_of self.old) channels.now }
        // What was written is a frame, in which a decoder finds these samples.
        ensures written { IfOk result (λ size. (bytes : List ℕ) × (length bytes ≡ size)
            × IsFrameOf (info_of self.old) (frames_of self.old) bytes (map (λ channel. channel.items) channels.now)
            × Appends (W.contents (writer_of self.old)) (W.contents (writer_of self.new)) bytes) }
        // If memory was refused, nothing changed. If the writer failed, the first n bytes of such a frame were written.
        ensures failed { IfErr result (λ error. OnFailure error (self.new ≡ self.old)
            ((self.new ≡ stopped (writer_of self.new) self.old) × (bytes : List ℕ) × (n : ℕ)
            × IsFrameOf (info_of self.old) (frames_of self.old) bytes (map (λ channel. channel.items) channels.now)
            × Appends (W.contents (writer_of self.old)) (W.contents (writer_of self.new)) (take n bytes))) }
        ensures info { info_of self.new ≡ info_of self.old }
        ensures frames { OnOk result (frames_of self.new ≡ frames_of self.old + 1) }
        // The samples of the frame are counted, if it was written.
        ensures samples { samples_of self.new ≡ samples_after_write result (count_of channels.now) (samples_of self.old) }
        ensures sizes { IfOk result (λ size. (smallest_of self.new ≡ smaller (smallest_of self.old) size)
            × (largest_of self.new ≡ max (largest_of self.old) (min size (2 ^ 24 - 1)))) }
        // Only after a frame of the greatest block size, or if memory was refused, another frame is accepted.
        ensures open { is_open self.new
            ≡ open_after result (count_of channels.now) ((info_of self.old).maximum_block_size) }
    {
        let frame = match encode_next(alloc, &self.info, self.stereo, self.frames, channels) {
            Ok(frame) => frame,
            Err(_) => return Err(EncodeError::OutOfMemory),
        };
        self.is_open = false;
        if let Err(error) = send(&mut self.writer, frame.as_slice()) {
            return Err(EncodeError::Writer(error));
        }
        let count = sample_count(channels);
        self.is_open = count == self.info.maximum_block_size as usize;
        self.frames += 1;
        self.samples = self.samples.saturating_add(count as u64);
        self.add_size(frame.len());
        Ok(frame.len())
    }

    /// Returns the writer, and STREAMINFO with the sizes of the frames and the number of samples, or 0 if it has no room for
    /// that number. Its MD5 is that of the STREAMINFO that was written.
    pub fn finish(self) -> (W, StreamInfo)
        ensures writer { result.0 ≡ writer_of self }
        ensures like { IsLike (info_of self) result.1 }
        ensures info { result.1 ≡ record (info_of self) {
          minimum_frame_size = smallest_of self;
          maximum_frame_size = largest_of self;
          total_samples = stated_total (samples_of self);
        } }
    {
        let Encoder {
            writer,
            info,
            samples,
            smallest,
            largest,
            ..
        } = self;
        let info = StreamInfo {
            minimum_frame_size: smallest,
            maximum_frame_size: largest,
            total_samples: stated_total(samples),
            ..info
        };
        (writer, info)
    }

    /// Notes the size of a frame.
    fn add_size(&mut self, size: usize)
        ensures smallest { self.new.smallest ≡ smaller self.old.smallest size }
        ensures largest { self.new.largest ≡ max self.old.largest (min size (2 ^ 24 - 1)) }
        ensures writer { self.new.writer ≡ self.old.writer }
        ensures info { self.new.info ≡ self.old.info }
        ensures frames { self.new.frames ≡ self.old.frames }
        ensures samples { self.new.samples ≡ self.old.samples }
        ensures open { self.new.is_open ≡ self.old.is_open }
    {
        self.smallest = smaller(self.smallest, size);
        self.largest = self.largest.max(size.min(LARGEST) as u32);
    }
}

/// Returns the smaller one of two sizes of frames, as STREAMINFO states it. The first size is 0 if there is none.
fn smaller(smallest: u32, size: usize) -> u32
    ensures { result ≡ smaller smallest size }
{
    let size = size.min(LARGEST) as u32;
    if smallest == 0 {
        size
    } else {
        smallest.min(size)
    }
}

/// Returns a number of samples, or 0 if STREAMINFO has no room for it.
fn stated_total(samples: u64) -> u64
    ensures { result ≡ stated_total samples }
{
    if samples < 0x10_0000_0000 { samples } else { 0 }
}

/// Returns true if these channels can be frame `number` of a file.
fn is_next(info: &StreamInfo, number: u64, channels: &[Vec<i64>]) -> bool
    ensures { IsTrue result ↔ IsNext info.now number channels.now }
{
    let width = info.bits_per_sample.get();
    if width > 32 {
        return false;
    }
    let count = sample_count(channels);
    number < 0x10_0000_0000
        && channels.len() == info.channels.get() as usize
        && channels.len() <= 8
        && count >= 1
        && count <= info.maximum_block_size as usize
        && all_fit(width, count, channels)
}

/// Returns frame `number` of a file, of these channels.
fn encode_next(
    alloc: Global,
    info: &StreamInfo,
    stereo: Stereo,
    number: u64,
    channels: &[Vec<i64>],
) -> Result<Vec<u8>, Error>
    requires { IsNext info.now number channels.now }
    ensures { MatchResult result
        (λ bytes. IsFrameOf info.now number bytes.items (map (λ channel. channel.items) channels.now))
        (λ error. error ≡ OutOfMemory) }
{
    let count = info.channels.get();
    if stereo == Stereo::Tried && count == 2 {
        return shortest_frame(alloc, info, number, channels);
    }
    let coding = coding_of(stereo, count, channels);
    encode_coded(alloc, info, number, coding, channels)
}

/// Returns the shortest frame of two channels.
fn shortest_frame(
    alloc: Global,
    info: &StreamInfo,
    number: u64,
    channels: &[Vec<i64>],
) -> Result<Vec<u8>, Error>
    requires next { IsNext info.now number channels.now }
    requires two { non_zero_u8_get info.now.channels ≡ 2 }
    ensures { MatchResult result
        (λ bytes. IsFrameOf info.now number bytes.items (map (λ channel. channel.items) channels.now))
        (λ error. error ≡ OutOfMemory) }
{
    let frame = encode_coded(alloc, info, number, Channels::Independent(2), channels)?;
    let frame = shorter_frame(alloc, info, number, Channels::LeftSide, channels, frame)?;
    let frame = shorter_frame(alloc, info, number, Channels::SideRight, channels, frame)?;
    shorter_frame(alloc, info, number, Channels::MidSide, channels, frame)
}

/// Returns a frame with this coding if it is shorter than another one, or else the other one.
fn shorter_frame(
    alloc: Global,
    info: &StreamInfo,
    number: u64,
    coding: Channels,
    channels: &[Vec<i64>],
    other: Vec<u8>,
) -> Result<Vec<u8>, Error>
    requires next { IsNext info.now number channels.now }
    requires valid { IsChannels coding }
    requires count { channel_count coding ≡ non_zero_u8_get info.now.channels }
    requires other { IsFrameOf info.now number other.items (map (λ channel. channel.items) channels.now) }
    ensures { MatchResult result
        (λ bytes. IsFrameOf info.now number bytes.items (map (λ channel. channel.items) channels.now))
        (λ error. error ≡ OutOfMemory) }
{
    let frame = encode_coded(alloc, info, number, coding, channels)?;
    if frame.len() < other.len() {
        Ok(frame)
    } else {
        Ok(other)
    }
}

/// Returns frame `number` of a file, of these channels with this coding.
fn encode_coded(
    alloc: Global,
    info: &StreamInfo,
    number: u64,
    coding: Channels,
    channels: &[Vec<i64>],
) -> Result<Vec<u8>, Error>
    requires next { IsNext info.now number channels.now }
    requires valid { IsChannels coding }
    requires count { channel_count coding ≡ non_zero_u8_get info.now.channels }
    ensures { MatchResult result
        (λ bytes. IsFrameOf info.now number bytes.items (map (λ channel. channel.items) channels.now))
        (λ error. error ≡ OutOfMemory) }
{
    size_fits(info.maximum_block_size);
    let size = sample_count(channels) as u32;
    let header = frame_header(info, number, coding, size);
    let bytes = encode_frame(alloc, info.bits_per_sample.get(), &header, channels)?;
    Ok(bytes)
}

/// Returns the header of frame `number` of a file, with `size` samples of each channel. It states the rate and the bits if it
/// has codes for them.
fn frame_header(info: &StreamInfo, number: u64, coding: Channels, size: u32) -> FrameHeader
    requires some { 1 ≤ size }
    requires short { size < 65536 }
    requires number { number < 2 ^ 36 }
    requires valid { IsChannels coding }
    ensures valid { IsHeader result }
    ensures size { result.block_size ≡ size }
    ensures number { result.number ≡ number }
    ensures channels { result.channels ≡ coding }
    ensures rate { rate_of info.now.sample_rate result ≡ info.now.sample_rate }
    ensures width { width_of (non_zero_u8_get info.now.bits_per_sample) result ≡ non_zero_u8_get info.now.bits_per_sample }
{
    FrameHeader {
        variable: false,
        block_size: size,
        sample_rate: stated_rate(info.sample_rate),
        channels: coding,
        sample_size: stated_size(info.bits_per_sample.get()),
        number,
    }
}

/// Returns a sample rate, or 0 if a header has no code for it.
fn stated_rate(rate: u32) -> u32
    ensures valid { IsSampleRate result }
    ensures same { IsZeroOr rate result }
{
    if is_sample_rate(rate) { rate } else { 0 }
}

/// Returns a number of bits of a sample, or 0 if a header has no code for it.
fn stated_size(size: u8) -> u8
    ensures valid { IsSampleSize result }
    ensures same { IsZeroOr size result }
{
    if is_sample_size(size) { size } else { 0 }
}
