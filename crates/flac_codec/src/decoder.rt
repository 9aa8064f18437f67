//! Files of a reader (sections 6, 8 and 9), decoded frame by frame.
ghost use Rattle.std.specs.Prelude.{◌≡◌, ◌≤◌, drop, length, option_map, IfOk, IfSome, Some};
ghost use Rattle.std.specs.Io.KnownBytes.{Keeps};
ghost use Rattle.bitstream_io.specs.Callers.{result_map};
ghost use Rattle.flac_codec.specs.Decoding.{frame_value, is_cut, next_at, samples_after, size_of, total_holds};
ghost use Rattle.flac_codec.specs.File.{checked_frame_at};
ghost use Rattle.flac_codec.specs.Input.{bytes_left, fetched};
ghost use Rattle.flac_codec.specs.Outside.{IsUnlessFailure};
ghost use Rattle.flac_codec.specs.Start.{start_at, with_left};

use crate::error::FlacError;
use crate::file::{decode_block, sample_count};
use crate::frame::Frame;
use crate::input::Input;
use crate::start::MetadataReader;
use crate::stream_info::StreamInfo;
use bitstream_io::Error;
use std::alloc::Global;
use std::io::Read;

/// The number of bytes in which a frame is first looked for.
const ENOUGH: usize = 65536;

/// A file that is decoded frame by frame.
///
/// The memory that it allocates does not grow with the file. It holds the samples of one frame and up to 144 KiB of the
/// file, or up to four times the bytes of the greatest frame.
#[derive(Drop)]
pub struct Decoder<R> {
    input: Input<R>,
    info: StreamInfo,
    // The number of samples of a channel that were decoded, up to 2^64 - 1.
    samples: u64,
    // The number of bytes in which the next frame is first looked for.
    enough: usize,
}

impl<R: Read> Decoder<R> {
    ghost use Rattle.flac_codec.specs.Decoding.{decoder_info, decoder_input, decoder_left, decoder_samples};

    /// Reads the start of a file, and returns a decoder of its frames. Blocks of metadata after STREAMINFO are skipped.
    ///
    /// # Errors
    ///
    /// `NoFlac` if the bytes do not begin with the marker. `NoStreamInfo` if the first block of metadata is not a STREAMINFO
    /// of 34 bytes. `Reader(EndOfInput)` if the bytes end before the metadata does, `Reader(Stream)` if the reader fails, and
    /// `Reader(OutOfMemory)` if an allocation fails.
    pub fn new(alloc: Global, reader: R) -> Result<Decoder<R>, FlacError>
    where
        R: Drop,
        // If the bytes are known, they decide the result, unless an allocation or the reader fails. Those after the metadata
        // are left.
        ensures meant { IfSome (R.remaining reader) (λ bytes. IsUnlessFailure
            (with_left (start_at bytes))
            (result_map (λ decoder. (decoder_info decoder, decoder_left R.remaining decoder)) result)) }
        ensures samples { IfOk result (λ decoder. decoder_samples decoder ≡ 0) }
    {
        MetadataReader::new(alloc, reader)?.into_decoder()
    }

    /// Returns a decoder of the frames of an input, which is after the metadata.
    pub fn over(input: Input<R>, info: StreamInfo) -> Decoder<R>
    where
        R: Drop,
        ensures input { decoder_input result ≡ input }
        ensures info { decoder_info result ≡ info }
        ensures samples { decoder_samples result ≡ 0 }
    {
        Decoder {
            input,
            info,
            samples: 0,
            enough: ENOUGH,
        }
    }

    /// Returns the STREAMINFO of the file.
    pub fn stream_info(&self) -> &StreamInfo
        ensures { result.now ≡ decoder_info self.now }
    {
        &self.info
    }

    /// Returns the bytes that were fetched after the last frame that was decoded.
    pub fn bytes(&self) -> &[u8] {
        self.input.bytes()
    }

    /// Decodes the next frame, or returns `None` at the end of the file. The MD5 of the samples is not compared.
    ///
    /// # Errors
    ///
    /// The errors of [`decode_frame`](crate::decode_frame), and then `OtherChannels`, `OtherSampleSize` or `OtherSampleRate`
    /// for a frame that differs from STREAMINFO. `OtherSampleCount` at the end of the file. `Reader(Stream)` if the reader
    /// fails, and `Reader(OutOfMemory)` if an allocation fails. After an error the decoder is before the same frame.
    pub fn next_frame(&mut self, alloc: Global) -> Result<Option<Frame>, FlacError>
        // If the bytes left are known, they decide the result, unless an allocation or the reader fails.
        ensures meant { IfSome (decoder_left R.remaining self.old) (λ bytes.
            IsUnlessFailure (next_at (decoder_info self.old) (decoder_samples self.old) bytes)
            (result_map (option_map frame_value) result)) }
        // If the bytes left are known, they are left without the frame that was returned.
        ensures left { IfSome (decoder_left R.remaining self.old) (λ bytes.
            decoder_left R.remaining self.new ≡ Some (drop (size_of result) bytes)) }
        ensures info { decoder_info self.new ≡ decoder_info self.old }
        ensures samples { decoder_samples self.new ≡ samples_after result (decoder_samples self.old) }
    {
        if !self.input.fill(1)? {
            check_total(&self.info, self.samples)?;
            return Ok(None);
        }
        let frame = read_frame(&mut self.input, alloc, &self.info, &mut self.enough)?;
        self.input.take(frame.size);
        let count = sample_count(frame.channels.as_slice()) as u64;
        self.samples = self.samples.saturating_add(count);
        Ok(Some(frame))
    }
}

/// Decodes the frame at the start of the bytes left, first in `enough` of them, and then in more, if the frame has more.
fn read_frame<R: Read>(
    input: &mut Input<R>,
    alloc: Global,
    info: &StreamInfo,
    enough: &mut usize,
) -> Result<Frame, FlacError>
    ensures meant { IfSome (bytes_left R.remaining input.old) (λ bytes.
        IsUnlessFailure (checked_frame_at info.now bytes) (result_map frame_value result)) }
    ensures left { Keeps (bytes_left R.remaining input.old) (bytes_left R.remaining input.new) }
    ensures within { IfOk result (λ frame. frame.size ≤ length (fetched input.new)) }
{
    for _ in 0..48u32 {
        let there = input.fill(*enough)?;
        let frame = decode_block(alloc, info, input.bytes());
        if !there || !is_cut(&frame) {
            return frame;
        }
        *enough = enough.saturating_mul(2);
    }
    Err(FlacError::Reader(Error::OutOfMemory))
}

/// Returns true if the bytes ended inside a frame.
fn is_cut(frame: &Result<Frame, FlacError>) -> bool
    ensures { result ≡ is_cut frame.now }
{
    matches!(frame, Err(FlacError::Reader(Error::EndOfInput)))
}

/// Compares the number of samples of a channel with STREAMINFO.
fn check_total(info: &StreamInfo, samples: u64) -> Result<(), FlacError>
    ensures { result ≡ total_holds info.now samples }
{
    if info.total_samples != 0 && samples != info.total_samples {
        return Err(FlacError::OtherSampleCount(samples, info.total_samples));
    }
    Ok(())
}
