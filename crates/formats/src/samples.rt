//! Samples of a WAV file, or samples without a header, read block by block.
ghost use Rattle.std.specs.Prelude.{◌≤◌};

use crate::settings::{ByteOrder, Encoding, Raw};
use anyhow::{Error, anyhow};
use bitstream_formats::riff_chunk::RiffChunk;
use bitstream_formats::wav::{NO_SIZE, WavError, pcm_format};
use bitstream_formats::wav_format::WavFormat;
use flac_codec::stream_info::StreamInfo;
use std::alloc::Global;
use std::io;
use std::io::Read;
use std::num::NonZero;

/// The greatest number of bytes of a chunk `fmt ` that are read.
const FORMAT: u64 = 40;

/// The number of bytes that are skipped at once.
const PIECE: u64 = 16384;

/// The reasons that no samples are read.
#[derive(Debug, Drop)]
pub enum NoSamples {
    /// The input is rejected.
    Rejected(Error),
    /// A read or an allocation failed.
    Failed(Error),
}

impl From<io::Error> for NoSamples {
    fn from(error: io::Error) -> NoSamples {
        NoSamples::Failed(Error::from(error))
    }
}

impl From<WavError> for NoSamples {
    fn from(error: WavError) -> NoSamples {
        NoSamples::Rejected(Error::from(error))
    }
}

/// The properties of samples that FLAC can encode.
#[derive(Clone, Copy, Debug, PartialEq, Eq)]
pub struct Sound {
    /// The number of channels, one to eight.
    pub channels: u8,
    /// Samples of a channel per second, below 2^20.
    pub sample_rate: u32,
    /// The number of bits of a sample, 4 to 32.
    pub bits: u8,
}

impl Sound {
    /// Returns the properties of the samples of a WAV file.
    fn of_wav(format: WavFormat) -> Result<Sound, Error> {
        let channels = format.channels;
        if channels < 1 || channels > 8 {
            return Err(anyhow!("{channels} channels; FLAC has one to eight"));
        }
        let bits = format.bits_per_sample.div_ceil(8).saturating_mul(8);
        if bits < 8 || bits > 32 {
            let bits = format.bits_per_sample;
            return Err(anyhow!("{bits} bits per sample; 1 to 32 are encoded"));
        }
        let sample_rate = format.sample_rate;
        if sample_rate == 0 || sample_rate >= 0x10_0000 {
            return Err(anyhow!("{sample_rate} samples per second; FLAC has 1 to 1048575"));
        }
        Ok(Sound {
            channels: channels as u8,
            sample_rate,
            bits: bits as u8,
        })
    }

    /// Returns the properties of samples without a header.
    fn of_raw(raw: Raw) -> Sound {
        Sound {
            channels: raw.channels,
            sample_rate: raw.rate,
            bits: raw.bits,
        }
    }

    /// Returns the number of bytes of a sample.
    pub fn size(&self) -> usize {
        self.bits.div_ceil(8) as usize
    }

    /// Returns the number of bytes of one sample of all channels, at least 1.
    pub fn step(&self) -> usize
        ensures { 1 ≤ result }
    {
        (self.channels as usize).saturating_mul(self.size()).max(1)
    }

    /// Returns the properties of a file with blocks of `block_size` samples. The sizes of frames, the number of samples
    /// and the MD5 are not known.
    pub fn stream_info(&self, block_size: u16) -> Result<StreamInfo, Error> {
        let (Some(channels), Some(bits_per_sample)) = (
            NonZero::<u8>::new(self.channels),
            NonZero::<u8>::new(self.bits),
        ) else {
            return Err(anyhow!("no channel, or no bit"));
        };
        Ok(StreamInfo {
            minimum_block_size: block_size,
            maximum_block_size: block_size,
            minimum_frame_size: 0,
            maximum_frame_size: 0,
            sample_rate: self.sample_rate,
            channels,
            bits_per_sample,
            total_samples: 0,
            checksum: [0; 16],
        })
    }
}

/// The ways in which samples end.
#[derive(Clone, Copy, Debug, PartialEq, Eq)]
pub enum Ending {
    /// After a sample of the last channel.
    Whole,
    /// Inside the sample of all channels, which is left out.
    Part,
    /// Before the number of bytes that the header states.
    Cut,
}

/// Samples, read block by block.
#[derive(Drop)]
pub struct Samples<R: Read> {
    reader: R,
    sound: Sound,
    order: ByteOrder,
    // True if 128 is to be taken off each sample. It has 8 bits then.
    is_offset: bool,
    // The number of bytes of samples left, or `None` if they extend to the end of the input.
    left: Option<u64>,
    // The number of bytes of a block.
    block_size: u64,
    // The bytes of a block. This memory is used for each block.
    bytes: Vec<u8>,
    // True after the last block.
    has_ended: bool,
    ending: Ending,
}

impl<R: Read + Drop> Samples<R> {
    /// Reads all that precedes the first sample.
    ///
    /// # Errors
    ///
    /// `Rejected` if no samples are found that FLAC can encode. `Failed` if a read or an allocation failed.
    pub fn open(alloc: Global, encoding: Encoding, reader: R) -> Result<Samples<R>, NoSamples> {
        let mut reader = reader;
        let (sound, order, left) = match encoding.raw {
            Some(raw) => (Sound::of_raw(raw), raw.order, None),
            None => {
                let (format, left) = read_chunks(alloc, &mut reader)?;
                match Sound::of_wav(format) {
                    Ok(sound) => (sound, ByteOrder::Little, left),
                    Err(error) => return Err(NoSamples::Rejected(error)),
                }
            }
        };
        Ok(Samples {
            reader,
            sound,
            order,
            is_offset: encoding.raw.is_none() && sound.bits == 8,
            left,
            block_size: (encoding.block_size as u64).saturating_mul(sound.step() as u64),
            bytes: Vec::new(alloc),
            has_ended: false,
            ending: Ending::Whole,
        })
    }

    /// Returns the properties of the samples.
    pub fn sound(&self) -> Sound {
        self.sound
    }

    /// Returns the number of samples per channel left that the header states, or 0 if it states none.
    pub fn stated(&self) -> u64 {
        self.left.unwrap_or(0) / self.sound.step() as u64
    }

    /// Returns the way in which the samples ended, after the last block.
    pub fn ending(&self) -> Ending {
        self.ending
    }

    /// Returns the bytes of the block that was read last: whole samples of all channels in turn, each with a sign, the lowest
    /// byte first.
    pub fn block(&self) -> &[u8] {
        self.bytes.as_slice()
    }

    /// Reads the next block. Returns false if no sample is left.
    ///
    /// # Errors
    ///
    /// The errors of the reader, and `OutOfMemory` if an allocation fails.
    pub fn next_block(&mut self) -> io::Result<bool> {
        self.bytes.clear();
        if self.has_ended {
            return Ok(false);
        }
        let wanted = self.left.unwrap_or(u64::MAX).min(self.block_size);
        if wanted == 0 {
            return self.skip_rest();
        }
        let read = self
            .reader
            .by_ref()
            .take(wanted)
            .read_to_end(&mut self.bytes)? as u64;
        self.has_ended = read < wanted;
        let part = self.bytes.len() % self.sound.step();
        if part > 0 {
            self.ending = Ending::Part;
        }
        if let Some(left) = self.left {
            self.left = Some(left.saturating_sub(read));
            if self.has_ended {
                self.ending = Ending::Cut;
            }
        }
        self.bytes.truncate(self.bytes.len() - part);
        self.turn();
        Ok(!self.bytes.is_empty())
    }

    /// Skips the bytes after the samples, so that a program that writes them to a pipe can end. Returns false.
    fn skip_rest(&mut self) -> io::Result<bool> {
        self.has_ended = true;
        skip(&mut self.reader, u64::MAX, &mut self.bytes)?;
        Ok(false)
    }

    /// Turns the samples of the block to samples with a sign, the lowest byte first.
    fn turn(&mut self) {
        self.order.turn(self.sound.bits, self.bytes.as_mut_slice());
        if self.is_offset {
            for byte in self.bytes.as_mut_slice() {
                *byte ^= 0x80;
            }
        }
    }
}

/// Reads the chunks before the samples of a WAV file. Returns the format of the samples and the number of their bytes, or
/// `None` if they extend to the end of the file.
fn read_chunks<R: Read>(
    alloc: Global,
    reader: &mut R,
) -> Result<(WavFormat, Option<u64>), NoSamples> {
    let mut bytes = Vec::new(alloc);
    reader.by_ref().take(12).read_to_end(&mut bytes)?;
    let form = bytes.as_slice().get(8..12).unwrap_or(&[]);
    if !bytes.as_slice().starts_with(b"RIFF".as_slice()) || form != b"WAVE".as_slice() {
        return Err(NoSamples::from(WavError::NotWav));
    }
    let mut format = None;
    for _ in 0..u64::MAX {
        bytes.clear();
        reader.by_ref().take(8).read_to_end(&mut bytes)?;
        let Ok(chunk) = RiffChunk::parse(bytes.as_slice()) else {
            break;
        };
        bytes.clear();
        let size = chunk.size as u64;
        match &chunk.id {
            b"data" => return Ok(samples_of(format, chunk.size)?),
            b"fmt " => {
                let read = reader
                    .by_ref()
                    .take(size.min(FORMAT))
                    .read_to_end(&mut bytes)?;
                format = Some(pcm_format(bytes.as_slice())?);
                bytes.clear();
                skip(
                    reader,
                    (size + size % 2).saturating_sub(read as u64),
                    &mut bytes,
                )?;
            }
            _ => skip(reader, size + size % 2, &mut bytes)?,
        }
    }
    Err(NoSamples::from(WavError::NoData))
}

/// Returns the format of the samples in a chunk `data` of this size and the number of their bytes, or `None` if they
/// extend to the end of the file.
fn samples_of(format: Option<WavFormat>, size: u32) -> Result<(WavFormat, Option<u64>), WavError> {
    match format {
        Some(format) if size >= NO_SIZE => Ok((format, None)),
        Some(format) => Ok((format, Some(size as u64))),
        None => Err(WavError::NoFormat),
    }
}

/// Skips `count` bytes, or all bytes if there are fewer. `piece` is empty before and after.
fn skip<R: Read>(reader: &mut R, count: u64, piece: &mut Vec<u8>) -> io::Result<()> {
    let mut rest = count;
    for _ in 0..count {
        let read = reader.by_ref().take(rest.min(PIECE)).read_to_end(piece)?;
        piece.clear();
        rest = rest.saturating_sub(read as u64);
        if read == 0 {
            break;
        }
    }
    Ok(())
}
