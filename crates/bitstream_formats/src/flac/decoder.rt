//! A file that is decoded frame by frame, with the MD5 of its samples.

use super::error::FlacError;
use super::place::bits_before;
use super::sum::SampleSum;
use crate::at::At;
use flac_codec::Frame;
use flac_codec::stream_info::StreamInfo;
use std::alloc::Global;
use std::io::Read;

/// A file that is decoded frame by frame from any reader, by the decoder of `flac_codec`.
///
/// The memory that it allocates does not grow with the file: it is the memory of
/// [`flac_codec::Decoder`] and, if it computes the MD5, the bytes of one frame's samples.
#[derive(Drop)]
pub struct Decoder<R: Read> {
    frames: flac_codec::Decoder<R>,
    // The number of bytes of the frames that were decoded.
    done: u64,
    // The MD5 of their samples, if it is compared.
    sum: Option<SampleSum>,
}

impl<R: Read> Decoder<R> {
    /// Returns a decoder of the frames that a decoder of `flac_codec` decodes. The MD5 of the samples is not computed.
    pub fn over(frames: flac_codec::Decoder<R>) -> Decoder<R>
    where
        R: Drop,
    {
        Decoder {
            frames,
            done: 0,
            sum: None,
        }
    }

    /// Returns the decoder that [`Decoder::over`] returns, but it computes the MD5 of the samples as they are decoded.
    /// At the end of the file, this MD5 is compared with the one in STREAMINFO, unless that one is 0, which means
    /// unknown.
    pub fn with_md5(alloc: Global, frames: flac_codec::Decoder<R>) -> Decoder<R>
    where
        R: Drop,
    {
        let is_known = frames.stream_info().checksum != [0; 16];
        let mut decoder = Decoder::over(frames);
        if is_known {
            decoder.sum = Some(SampleSum::new(alloc));
        }
        decoder
    }

    /// Returns the STREAMINFO of the file.
    pub fn stream_info(&self) -> &StreamInfo {
        self.frames.stream_info()
    }

    /// Returns the number of bytes of the frames that were decoded.
    pub fn bytes_done(&self) -> u64 {
        self.done
    }

    /// Decodes the next frame, or returns `None` at the end of the file.
    ///
    /// # Errors
    ///
    /// The errors of [`flac_codec::Decoder::next_frame`], with the bit of the frame at which they were found. At the end of
    /// the file, `WrongMd5` if the MD5 is wrong, only once.
    pub fn next_frame(&mut self, alloc: Global) -> Result<Option<Frame>, At<FlacError>> {
        match self.frames.next_frame(alloc) {
            Ok(Some(frame)) => self.add(frame),
            Ok(None) => self.finish(),
            Err(error) => {
                let bytes = self.frames.bytes();
                let bit = bits_before(alloc, self.frames.stream_info(), &error, bytes);
                Err(At {
                    bit,
                    error: FlacError::Codec(error),
                })
            }
        }
    }

    /// Adds a frame to the MD5, and returns it.
    fn add(&mut self, frame: Frame) -> Result<Option<Frame>, At<FlacError>> {
        let sample_size = self.frames.stream_info().bits_per_sample.get();
        self.done = self.done.saturating_add(frame.size as u64);
        if let Some(sum) = &mut self.sum {
            if let Err(refused) = sum.add(sample_size, frame.channels.as_slice()) {
                return Err(At {
                    bit: (frame.size as u64).saturating_mul(8),
                    error: FlacError::from(refused),
                });
            }
        }
        Ok(Some(frame))
    }

    /// Compares the MD5 of all samples with STREAMINFO.
    fn finish(&mut self) -> Result<Option<Frame>, At<FlacError>> {
        if let Some(sum) = self.sum.take() {
            if sum.finish() != self.frames.stream_info().checksum {
                return Err(At {
                    bit: 0,
                    error: FlacError::WrongMd5,
                });
            }
        }
        Ok(None)
    }
}
