//! Encodes the samples of a WAV file, or samples without a header, as FLAC.

use crate::report::Report;
use crate::samples::{Ending, NoSamples, Samples, Sound};
use crate::seek_table::SeekTable;
use crate::settings::Encoding;
use crate::status::Status;
use anyhow::{Error, anyhow};
use flac_codec::stream_info::StreamInfo;
use flac_codec::{Encoder, MetadataBlock, is_start};
use md5::{Digest, Md5};
use std::alloc::{AllocError, Global};
use std::io::{Read, Seek, SeekFrom, Write};

/// The place of STREAMINFO in a file, in bytes, after the marker and the header of the block.
const STREAM_INFO: u64 = 8;

/// The place of the seek points, after STREAMINFO and the header of their block.
const SEEK_POINTS: u64 = 46;

/// The number of samples per channel from which on STREAMINFO has no room for it.
const TOO_MANY: u64 = 0x10_0000_0000;

/// The MD5 and the number of the samples so far.
#[derive(Drop)]
struct Totals {
    md5: Md5,
    // The number of samples per channel.
    samples: u64,
}

impl Totals {
    /// Returns the totals of no sample.
    fn new() -> Totals {
        Totals {
            md5: Md5::new(),
            samples: 0,
        }
    }

    /// Adds a block.
    fn add_block(&mut self, sound: Sound, block: &[u8]) {
        self.md5.update(block);
        let count = (block.len() / sound.step()) as u64;
        self.samples = self.samples.saturating_add(count);
    }

    /// Returns the properties of a file with these totals.
    fn stream_info(self, sound: Sound, block_size: u16) -> Result<StreamInfo, Error> {
        Ok(StreamInfo {
            total_samples: if self.samples < TOO_MANY {
                self.samples
            } else {
                0
            },
            checksum: self.md5.finalize(),
            ..sound.stream_info(block_size)?
        })
    }
}

/// Returns the signed number that some bytes spell, the lowest byte first.
fn signed(bytes: &[u8]) -> i64 {
    match bytes {
        [a] => i8::from_le_bytes([*a]) as i64,
        [a, b] => i16::from_le_bytes([*a, *b]) as i64,
        [a, b, c] => (i32::from_le_bytes([0, *a, *b, *c]) >> 8) as i64,
        [a, b, c, d] => i32::from_le_bytes([*a, *b, *c, *d]) as i64,
        _ => 0,
    }
}

/// Returns the samples of a channel in a block.
fn channel(alloc: Global, sound: Sound, block: &[u8], at: usize) -> Result<Vec<i64>, AllocError> {
    let size = sound.size();
    let first = at.saturating_mul(size);
    let mut samples = Vec::new(alloc);
    for bytes in block.chunks_exact(sound.step()) {
        let sample = bytes.get(first..first.saturating_add(size)).unwrap_or(&[]);
        samples.push(signed(sample))?;
    }
    Ok(samples)
}

/// Returns the samples of all channels in a block.
fn channels(alloc: Global, sound: Sound, block: &[u8]) -> Result<Vec<Vec<i64>>, AllocError> {
    let mut channels = Vec::new(alloc);
    for at in 0..sound.channels {
        channels.push(channel(alloc, sound, block, at as usize)?)?;
    }
    Ok(channels)
}

/// Returns the blocks of metadata after STREAMINFO: the seek points, which are filled in later, and the padding, if there are
/// any.
fn metadata(alloc: Global, encoding: Encoding) -> Result<Vec<MetadataBlock>, AllocError> {
    let mut blocks = Vec::new(alloc);
    if encoding.seek_points > 0 {
        let points = SeekTable::new(alloc, encoding.seek_points);
        blocks.push(MetadataBlock {
            kind: 3,
            bytes: points.to_bytes(alloc)?,
        })?;
    }
    if encoding.padding > 0 {
        let mut bytes = Vec::new(alloc);
        bytes.resize(encoding.padding as usize, 0)?;
        blocks.push(MetadataBlock { kind: 1, bytes })?;
    }
    Ok(blocks)
}

/// Writes all that precedes the first frame, and returns the encoder of the frames.
fn begin<W: Write + Drop>(
    alloc: Global,
    encoding: Encoding,
    info: &StreamInfo,
    out: W,
) -> Result<Encoder<W>, Error> {
    let metadata = metadata(alloc, encoding)?;
    let blocks = metadata.as_slice();
    if !is_start(info, blocks) {
        return Err(anyhow!("the metadata has no room for its numbers"));
    }
    Ok(Encoder::new(alloc, out, info, blocks, encoding.stereo)?)
}

/// The writer, the properties of a file and its seek points, after its last frame.
#[derive(Drop)]
struct Written<W> {
    out: W,
    info: StreamInfo,
    points: SeekTable,
}

/// Writes the frames of all samples.
fn write_frames<R: Read + Drop, W: Write + Drop>(
    alloc: Global,
    encoding: Encoding,
    samples: &mut Samples<R>,
    encoder: Encoder<W>,
) -> Result<Written<W>, Error> {
    let sound = samples.sound();
    let mut encoder = encoder;
    let mut totals = Totals::new();
    let mut points = SeekTable::new(alloc, encoding.seek_points);
    for number in 0..u64::MAX {
        if !samples.next_block()? {
            break;
        }
        let block = samples.block();
        let channels = channels(alloc, sound, block)?;
        let first = encoder.samples();
        let size = write_frame(alloc, sound, number, channels.as_slice(), &mut encoder)?;
        totals.add_block(sound, block);
        points.add_frame(alloc, first, encoder.samples(), size)?;
    }
    let (out, info) = encoder.finish();
    let info = StreamInfo {
        checksum: totals.md5.finalize(),
        ..info
    };
    Ok(Written { out, info, points })
}

/// Writes a frame, and returns its size in bytes.
fn write_frame<W: Write>(
    alloc: Global,
    sound: Sound,
    number: u64,
    channels: &[Vec<i64>],
    encoder: &mut Encoder<W>,
) -> Result<usize, Error> {
    if !encoder.is_next(channels) {
        let bits = sound.bits;
        return Err(anyhow!("a sample of block {number} has more than {bits} bits"));
    }
    Ok(encoder.write_frame(alloc, channels)?)
}

/// Returns the number of samples and their MD5, in the properties of the file that they are encoded as, or `None` if the
/// input is rejected.
///
/// # Errors
///
/// A read or an allocation failed.
pub fn measure<R: Read + Drop>(
    alloc: Global,
    encoding: Encoding,
    reader: R,
) -> Result<Option<StreamInfo>, Error> {
    let mut samples = match Samples::open(alloc, encoding, reader) {
        Ok(samples) => samples,
        Err(NoSamples::Rejected(_)) => return Ok(None),
        Err(NoSamples::Failed(error)) => return Err(error),
    };
    let sound = samples.sound();
    let mut totals = Totals::new();
    for _ in 0..u64::MAX {
        if !samples.next_block()? {
            break;
        }
        totals.add_block(sound, samples.block());
    }
    Ok(Some(totals.stream_info(sound, encoding.block_size)?))
}

/// Returns the samples of an input. If it is rejected, reports that, and returns `None`.
fn open<R: Read + Drop, P: Write>(
    alloc: Global,
    encoding: Encoding,
    name: &str,
    reader: R,
    report: &mut Report<P>,
) -> Result<Option<Samples<R>>, Error> {
    match Samples::open(alloc, encoding, reader) {
        Ok(samples) => Ok(Some(samples)),
        Err(NoSamples::Failed(error)) => Err(error),
        Err(NoSamples::Rejected(error)) => {
            report.refuse(name, &error);
            Ok(None)
        }
    }
}

/// Reports samples that do not end as they should, and returns the status.
fn end<P: Write>(name: &str, ending: Ending, report: &mut Report<P>) -> Status {
    match ending {
        Ending::Whole => Status::Read,
        Ending::Part => {
            report.say(name, "the last sample is not whole, and is left out");
            Status::Warned
        }
        Ending::Cut => {
            report.say(name, "the file ends inside its samples");
            Status::Refused
        }
    }
}

/// Writes the samples of an input as FLAC. `known` has the number and the MD5 of the samples, if they were measured. Else
/// the file has the number that the header of the input states, and no MD5.
///
/// # Errors
///
/// A read, a write or an allocation failed, a sample has too many bits, or the samples are others than those that were measured.
pub fn encode<R: Read + Drop, W: Write + Drop, P: Write>(
    alloc: Global,
    encoding: Encoding,
    name: &str,
    reader: R,
    known: Option<StreamInfo>,
    out: W,
    report: &mut Report<P>,
) -> Result<Status, Error> {
    let Some(mut samples) = open(alloc, encoding, name, reader, report)? else {
        return Ok(Status::Refused);
    };
    let first = match known {
        Some(info) => info,
        None => StreamInfo {
            total_samples: samples.stated(),
            ..samples.sound().stream_info(encoding.block_size)?
        },
    };
    let encoder = begin(alloc, encoding, &first, out)?;
    let written = write_frames(alloc, encoding, &mut samples, encoder)?;
    if known.is_some() && written.info.checksum != first.checksum {
        return Err(anyhow!("the file changed while it was read"));
    }
    Ok(end(name, samples.ending(), report))
}

/// Writes the samples of an input as FLAC, and then writes STREAMINFO and the seek points again, which are known at the end.
///
/// # Errors
///
/// A read, a write, a seek or an allocation failed, or a sample has too many bits.
pub fn encode_and_return<R: Read + Drop, W: Write + Seek + Drop, P: Write>(
    alloc: Global,
    encoding: Encoding,
    name: &str,
    reader: R,
    out: W,
    report: &mut Report<P>,
) -> Result<Status, Error> {
    let Some(mut samples) = open(alloc, encoding, name, reader, report)? else {
        return Ok(Status::Refused);
    };
    let first = samples.sound().stream_info(encoding.block_size)?;
    let encoder = begin(alloc, encoding, &first, out)?;
    let written = write_frames(alloc, encoding, &mut samples, encoder)?;
    complete(alloc, encoding, written)?;
    Ok(end(name, samples.ending(), report))
}

/// Writes STREAMINFO and the seek points again.
fn complete<W: Write + Seek + Drop>(
    alloc: Global,
    encoding: Encoding,
    written: Written<W>,
) -> Result<(), Error> {
    let Written {
        mut out,
        info,
        points,
    } = written;
    let mut bytes = [0u8; 34];
    info.pack_into(&mut bytes)?;
    out.seek(SeekFrom::Start(STREAM_INFO))?;
    out.write_all(&bytes)?;
    if encoding.seek_points > 0 {
        out.seek(SeekFrom::Start(SEEK_POINTS))?;
        out.write_all(points.to_bytes(alloc)?.as_slice())?;
    }
    Ok(())
}

/// Writes the samples of the bytes of a file as FLAC.
pub fn encode_bytes<W: Write, P: Write>(
    alloc: Global,
    encoding: Encoding,
    name: &str,
    file: &[u8],
    out: &mut W,
    report: &mut Report<P>,
) -> Result<Status, Error> {
    let known = measure(alloc, encoding, file)?;
    encode(alloc, encoding, name, file, known, out, report)
}
