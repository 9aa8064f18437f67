//! Frames and files of FLAC, encoded and decoded. A body that always reports a failed allocation meets the contracts of the
//! codec, and fails these tests.
use crate::asserts::holds;
use bitstream_io::Error;
use flac_codec::{
    Channels, Decoder, EncodeError, Encoder, FileHeader, FlacError, FrameHeader, MetadataBlock,
    MetadataReader, Stereo, decode_file, decode_frame, encode_file, encode_frame, is_file,
    is_frame, is_start,
};
use std::alloc::Global;
use std::io::{ErrorKind, Write};
use test_streams::{Refuse, Short};

// The second frame of the second example of RFC 9639 (appendix D.2): three samples in two verbatim channels.
const VERBATIM: &[u8] =
    b"\xff\xf8\x69\x18\x01\x02\xa4\x02\xc3\x82\xc4\x0b\xc1\x4a\x03\xee\x48\xdd\x03\xb6\x7c\x13\x30";

// A frame that `flac` wrote of known samples: the left channel and the difference.
const LEFT_SIDE: &[u8] =
    b"\xff\xf8\x69\x88\x00\x0f\x3b\x14\x00\x00\x03\xe9\x00\x90\xa8\x85\x44\x42\xa2\x15\x10\x48\x00\x00\x00\x84\x93\xa3\x09\x0c\x54\x78\xd3\x81";

// A file that `flac` wrote of the 19 samples of the second example of RFC 9639: two frames behind a comment.
const FILE: &[u8] =
    b"\x66\x4c\x61\x43\x00\x00\x00\x22\x00\x10\x00\x10\x00\x00\x17\x00\x00\x44\x0a\xc4\x42\xf0\x00\x00\x00\x13\xd5\xb0\x56\x49\x75\xe9\x8b\x8d\x8b\x93\x04\x22\x75\x7b\x81\x03\x84\x00\x00\x28\x20\x00\x00\x00\x72\x65\x66\x65\x72\x65\x6e\x63\x65\x20\x6c\x69\x62\x46\x4c\x41\x43\x20\x31\x2e\x34\x2e\x32\x20\x32\x30\x32\x32\x31\x30\x32\x32\x00\x00\x00\x00\xff\xf8\x69\x98\x00\x0f\x99\x12\x08\x67\x01\x62\x3d\x14\x42\x99\x8f\x5d\xf7\x0d\x6f\xe0\x0c\x17\xca\xeb\x21\x00\x0e\xe7\xa7\x7a\x24\xa1\x59\x0c\x12\x17\xb6\x03\x09\x7b\x78\x4f\xaa\x9a\x33\xd2\x85\xe0\x70\xad\x5b\x1b\x48\x51\xb4\x01\x0d\x99\xd2\xcd\x1a\x68\xf1\xe6\xb8\x10\xff\xf8\x69\x18\x01\x02\xa4\x02\xc3\x82\xc4\x0b\xc1\x4a\x03\xee\x48\xdd\x03\xb6\x7c\x13\x30";

// The samples of FILE.
const LEFT: [i64; 19] = [
    10372, 18041, 14942, 17876, 15627, 17899, 16242, 18077, 16824, 18263, 17295, -14418, -15201,
    -14508, -15195, -14818, -15486, -15349, -16054,
];

const RIGHT: [i64; 19] = [
    6070, 10545, 8743, 10449, 9143, 10463, 9502, 10569, 9840, 10680, 10113, -8428, -8895, -8476,
    -8896, -8653, -9072, -8958, -9410,
];

// The number of bytes of FILE before its first frame.
const START: usize = 86;

/// Returns `count` samples of at most 12 bits that are neither equal nor regular.
fn samples(alloc: Global, count: usize, step: i64) -> Result<Vec<i64>, Error> {
    let mut found = Vec::new(alloc);
    let mut sample = step;
    for _ in 0..count {
        sample = sample.wrapping_mul(229).wrapping_add(step) % 2000;
        found.push(sample)?;
    }
    Ok(found)
}

/// Returns true if both have the same samples.
fn are_same(found: &[Vec<i64>], wanted: &[Vec<i64>]) -> bool {
    let mut same = found.len() == wanted.len();
    for (one, other) in found.iter().zip(wanted.iter()) {
        same &= one.as_slice() == other.as_slice();
    }
    same
}

/// Returns two channels of `count` samples.
fn two(alloc: Global, count: usize) -> Result<Vec<Vec<i64>>, Error> {
    let left = samples(alloc, count, 7)?;
    let right = samples(alloc, count, 11)?;
    let mut channels = Vec::new(alloc);
    channels.push(left)?;
    channels.push(right)?;
    Ok(channels)
}

/// Returns the header of a frame of 40 samples.
fn header(coding: Channels) -> FrameHeader {
    FrameHeader {
        variable: false,
        block_size: 40,
        sample_rate: 44_100,
        channels: coding,
        sample_size: 16,
        number: 1000,
    }
}

/// Encodes a frame of two channels in a coding, and returns true if the same samples are decoded.
fn frame_again(alloc: Global, coding: Channels) -> Result<bool, FlacError> {
    let channels = two(alloc, 40)?;
    let header = header(coding);
    if !is_frame(16, &header, channels.as_slice()) {
        return Ok(false);
    }
    let bytes = encode_frame(alloc, 16, &header, channels.as_slice())?;
    let frame = decode_frame(alloc, 16, bytes.as_slice())?;
    Ok(are_same(frame.channels.as_slice(), channels.as_slice()) & (frame.size == bytes.len()))
}

/// Encodes a file of two channels in three frames, and returns true if the same is decoded.
fn file_again(alloc: Global) -> Result<bool, FlacError> {
    let channels = two(alloc, 40)?;
    let header = FileHeader {
        sample_rate: 44_100,
        sample_size: 12,
        checksum: [0x5a; 16],
    };
    if !is_file(&header, 16, channels.as_slice()) {
        return Ok(false);
    }
    let bytes = encode_file(alloc, &header, 16, channels.as_slice())?;
    let file = decode_file(alloc, bytes.as_slice())?;
    Ok((file.header == header) & are_same(file.channels.as_slice(), channels.as_slice()))
}

/// Returns true if a file has two channels of these samples of 16 bits.
fn file_decodes_to(alloc: Global, bytes: &[u8], left: &[i64], right: &[i64]) -> bool {
    match decode_file(alloc, bytes) {
        Ok(file) => {
            (file.header.sample_rate == 44_100)
                & (file.header.sample_size == 16)
                & (file.channels.len() == 2)
                & is_channel(file.channels.as_slice(), 0, left)
                & is_channel(file.channels.as_slice(), 1, right)
        }
        Err(_) => false,
    }
}

/// Returns true if a frame has these samples of two channels.
fn decodes_to(alloc: Global, bytes: &[u8], left: &[i64], right: &[i64]) -> bool {
    match decode_frame(alloc, 16, bytes) {
        Ok(frame) => {
            (frame.channels.len() == 2)
                & (frame.size == bytes.len())
                & is_channel(frame.channels.as_slice(), 0, left)
                & is_channel(frame.channels.as_slice(), 1, right)
        }
        Err(_) => false,
    }
}

/// Returns true if a channel has these samples.
fn is_channel(channels: &[Vec<i64>], at: usize, wanted: &[i64]) -> bool {
    match channels.get(at) {
        Some(channel) => channel.as_slice() == wanted,
        None => false,
    }
}

/// Returns true if the metadata of [`FILE`] is STREAMINFO and a comment of 44 bytes, and is followed by two frames.
fn metadata_is_read(alloc: Global) -> Result<bool, FlacError> {
    let mut metadata = MetadataReader::new(alloc, FILE)?;
    let is_info = metadata.stream_info().sample_rate == 44_100;
    let is_comment = match metadata.next_block()? {
        Some(block) => block.last & (block.kind == 4) & (block.size == 44),
        None => false,
    };
    let is_end = metadata.next_block()?.is_none();
    let mut decoder = metadata.into_decoder()?;
    Ok(is_info & is_comment & is_end & has_two_frames(alloc, &mut decoder)?)
}

/// Returns true if two frames are left, the second with the left samples of [`VERBATIM`].
fn has_two_frames(alloc: Global, decoder: &mut Decoder<&[u8]>) -> Result<bool, FlacError> {
    let is_first = decoder.next_frame(alloc)?.is_some();
    let is_second = match decoder.next_frame(alloc)? {
        Some(frame) => is_channel(frame.channels.as_slice(), 0, &[-15486, -15349, -16054]),
        None => false,
    };
    Ok(is_first & is_second & decoder.next_frame(alloc)?.is_none())
}

/// Returns true if a decoder of [`FILE`] begins at its first frame.
fn start_is_skipped(alloc: Global) -> Result<bool, FlacError> {
    let mut decoder = Decoder::new(alloc, FILE)?;
    let is_info = decoder.stream_info().total_samples == 19;
    Ok(is_info & has_two_frames(alloc, &mut decoder)?)
}

#[test]
fn the_start_of_a_file_is_read(rt: HostRuntime) {
    let alloc = rt.alloc();
    holds(&rt, matches!(metadata_is_read(alloc), Ok(true)));
    holds(&rt, matches!(start_is_skipped(alloc), Ok(true)));
}

#[test]
fn frames_are_encoded_and_decoded(rt: HostRuntime) {
    let alloc = rt.alloc();
    holds(
        &rt,
        matches!(frame_again(alloc, Channels::Independent(2)), Ok(true)),
    );
    holds(
        &rt,
        matches!(frame_again(alloc, Channels::LeftSide), Ok(true)),
    );
    holds(
        &rt,
        matches!(frame_again(alloc, Channels::SideRight), Ok(true)),
    );
    holds(
        &rt,
        matches!(frame_again(alloc, Channels::MidSide), Ok(true)),
    );
}

#[test]
fn frames_from_outside_are_decoded(rt: HostRuntime) {
    let alloc = rt.alloc();
    let left = [-15486, -15349, -16054];
    let right = [-9072, -8958, -9410];
    holds(&rt, decodes_to(alloc, VERBATIM, &left, &right));
    let left = [
        0, 1001, 2004, 3002, 4002, 5004, 6001, 7000, 8001, 9004, 10002, 11002, 12004, 13001, 14000,
        15001,
    ];
    let right = [
        0, 997, 1999, 2996, 3998, 5000, 5997, 6999, 7996, 8998, 10000, 10997, 11999, 12996, 13998,
        15000,
    ];
    holds(&rt, decodes_to(alloc, LEFT_SIDE, &left, &right));
}

#[test]
fn files_are_encoded_and_decoded(rt: HostRuntime) {
    let alloc = rt.alloc();
    holds(&rt, matches!(file_again(alloc), Ok(true)));
    holds(&rt, file_decodes_to(alloc, FILE, &LEFT, &RIGHT));
}

/// Returns true if a file of a thousand samples on a line has less than a tenth of their bytes.
fn line_is_short(alloc: Global) -> Result<bool, FlacError> {
    let mut samples = Vec::new(alloc);
    for at in 0..1000i64 {
        samples.push(at.wrapping_mul(7))?;
    }
    let mut channels = Vec::new(alloc);
    channels.push(samples)?;
    let header = FileHeader {
        sample_rate: 8000,
        sample_size: 16,
        checksum: [0; 16],
    };
    if !is_file(&header, 1000, channels.as_slice()) {
        return Ok(false);
    }
    let bytes = encode_file(alloc, &header, 1000, channels.as_slice())?;
    Ok(bytes.len() < 200)
}

// An encoder that predicts nothing meets the contracts of the codec, and fails this test.
#[test]
fn regular_samples_become_short(rt: HostRuntime) {
    holds(&rt, matches!(line_is_short(rt.alloc()), Ok(true)));
}

/// Returns the channels of the two frames of [`FILE`].
fn frames_of_file(alloc: Global) -> Result<Vec<Vec<Vec<i64>>>, FlacError> {
    let mut decoder = Decoder::new(alloc, FILE)?;
    let mut frames = Vec::new(alloc);
    for _ in 0..2u32 {
        if let Some(frame) = decoder.next_frame(alloc)? {
            frames.push(frame.channels)?;
        }
    }
    Ok(frames)
}

/// Returns an encoder over a writer that begins as [`FILE`] does, or `None` if it is refused.
fn begun<W: Write + Drop>(
    alloc: Global,
    stereo: Stereo,
    out: W,
) -> Result<Option<Encoder<W>>, FlacError> {
    let metadata = MetadataReader::new(alloc, FILE)?;
    let info = *metadata.stream_info();
    let mut comment = Vec::new(alloc);
    comment.extend_from_slice(&FILE[46..START])?;
    let mut blocks = Vec::new(alloc);
    blocks.push(MetadataBlock {
        kind: 4,
        bytes: comment,
    })?;
    if !is_start(&info, blocks.as_slice()) {
        return Ok(None);
    }
    match Encoder::new(alloc, out, &info, blocks.as_slice(), stereo) {
        Ok(encoder) => Ok(Some(encoder)),
        Err(_) => Ok(None),
    }
}

/// Writes frames, and returns the number of their bytes, or `None` if one is refused.
fn sizes<W: Write>(
    alloc: Global,
    encoder: &mut Encoder<W>,
    frames: &[Vec<Vec<i64>>],
) -> Option<u32> {
    let mut all = 0u32;
    for frame in frames {
        if !encoder.is_next(frame.as_slice()) {
            return None;
        }
        match encoder.write_frame(alloc, frame.as_slice()) {
            Ok(size) => all = all.wrapping_add(size.min(65_535) as u32),
            Err(_) => return None,
        }
    }
    Some(all)
}

/// Encodes the frames of [`FILE`] over a writer that takes one byte at a time. Returns true if the start is that of the file,
/// the same samples are decoded, and no frame is accepted after the short one.
fn is_written_again(alloc: Global, stereo: Stereo) -> Result<bool, FlacError> {
    let frames = frames_of_file(alloc)?;
    let out = Short {
        inner: Vec::new(alloc),
        short: true,
    };
    let Some(mut encoder) = begun(alloc, stereo, out)? else {
        return Ok(false);
    };
    let size = sizes(alloc, &mut encoder, frames.as_slice()).unwrap_or(0);
    let is_closed = sizes(alloc, &mut encoder, frames.as_slice()).is_none();
    let is_counted = encoder.samples() == 19;
    let (out, info) = encoder.finish();
    let bytes = out.inner.as_slice();
    Ok(
        is_closed
            & is_counted
            & (info.total_samples == 19)
            & (info
                .minimum_frame_size
                .wrapping_add(info.maximum_frame_size)
                == size)
            & (bytes.len() == START.wrapping_add(size as usize))
            & bytes.starts_with(&FILE[..START])
            & file_decodes_to(alloc, bytes, &LEFT, &RIGHT),
    )
}

/// Returns true if nothing is written after a request that failed, and its frame is not counted.
fn failure_is_last(alloc: Global) -> Result<bool, FlacError> {
    let frames = frames_of_file(alloc)?;
    let out = Refuse {
        inner: Vec::new(alloc),
        left: Some(1),
        once: true,
        kind: ErrorKind::Other,
    };
    let Some(mut encoder) = begun(alloc, Stereo::Estimated, out)? else {
        return Ok(false);
    };
    let Some(frame) = frames.as_slice().first() else {
        return Ok(false);
    };
    if !encoder.is_next(frame.as_slice()) {
        return Ok(false);
    }
    let has_failed = matches!(
        encoder.write_frame(alloc, frame.as_slice()),
        Err(EncodeError::Writer(_))
    );
    let is_closed = !encoder.is_next(frame.as_slice());
    let (out, info) = encoder.finish();
    Ok(
        has_failed
            & is_closed
            & (info.total_samples == 0)
            & (out.inner.as_slice() == &FILE[..START]),
    )
}

#[test]
fn files_are_encoded_frame_by_frame(rt: HostRuntime) {
    let alloc = rt.alloc();
    holds(
        &rt,
        matches!(is_written_again(alloc, Stereo::Apart), Ok(true)),
    );
    holds(
        &rt,
        matches!(is_written_again(alloc, Stereo::Estimated), Ok(true)),
    );
    holds(
        &rt,
        matches!(is_written_again(alloc, Stereo::Tried), Ok(true)),
    );
    holds(&rt, matches!(failure_is_last(alloc), Ok(true)));
}
