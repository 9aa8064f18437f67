//! The Rust crate's own example that reads the metadata of a FLAC file, but for the allocator, which is the
//! context of the comment.
use crate::asserts::{gives, holds, same};
use bitstream_callers::block_header::BlockHeader;
use bitstream_callers::flac_comment::VorbisComment;
use bitstream_callers::vorbis_comment::CommentError;
use bitstream_io::{BE, BitRead, BitReadExt, BitReader, Error};
use flac_codec::stream_info::StreamInfo;
use std::alloc::Global;
use std::num::NonZero;

/// The bytes of the example's file.
const FLAC: &[u8] =
    b"fLaC\x00\x00\x00\x22\x10\x00\x10\x00\x00\x06\x06\x00\x21\x62\x0a\xc4\x42\xf0\x00\x04\xa6\xcc\xfa\xf2\x69\x2f\xfd\xec\x2d\x5b\x30\x01\x76\xb4\x62\x88\x7d\x92\x04\x00\x00\x7a\x20\x00\x00\x00reference libFLAC 1.1.4 20070213\x04\x00\x00\x00\x16\x00\x00\x00title=2ch 44100  16bit\x10\x00\x00\x00album=Test Album\x0f\x00\x00\x00artist=Assorted\x0d\x00\x00\x00tracknumber=1";

/// Returns true if a comment is the example's.
fn is_the_comment(comment: &VorbisComment) -> bool {
    let wanted = [
        "title=2ch 44100  16bit",
        "album=Test Album",
        "artist=Assorted",
        "tracknumber=1",
    ];
    let mut same = (comment.vendor.as_str() == "reference libFLAC 1.1.4 20070213")
        & (comment.comment.len() == wanted.len());
    for (text, wanted) in comment.comment.iter().zip(wanted) {
        same &= text.as_str() == wanted;
    }
    same
}

/// Skips the blocks before the comment, and returns true if the comment is the example's.
fn goes_to_the_comment<R: BitRead>(reader: &mut R) -> bool {
    // stream marker
    let marked = gives(reader.read_to::<[u8; 4]>(), *b"fLaC");

    // metadata block header
    let first = gives(
        reader.parse(),
        BlockHeader {
            last: false,
            kind: 0,
            size: 34,
        },
    );

    // STREAMINFO block
    let info = match reader.parse::<StreamInfo>() {
        Ok(info) => is_the_stream(&info),
        Err(_) => false,
    };

    // metadata block header
    let second = gives(
        reader.parse(),
        BlockHeader {
            last: false,
            kind: 4,
            size: 122,
        },
    );
    marked & first & info & second
}

/// Returns true if a block has the fields of the example's.
fn is_the_stream(info: &StreamInfo) -> bool {
    (info.minimum_block_size == 4096)
        & (info.maximum_block_size == 4096)
        & (info.minimum_frame_size == 1542)
        & (info.maximum_frame_size == 8546)
        & (info.sample_rate == 44100)
        & (NonZero::<u8>::new(2) == Some(info.channels))
        & (NonZero::<u8>::new(16) == Some(info.bits_per_sample))
        & (info.total_samples == 304844)
        & (info.checksum == *b"\xfa\xf2\x69\x2f\xfd\xec\x2d\x5b\x30\x01\x76\xb4\x62\x88\x7d\x92")
}

/// Reads the comment after the other blocks of a file.
fn comment(alloc: Global, file: &[u8]) -> Result<VorbisComment, CommentError> {
    let mut reader = BitReader::<_, BE>::over(file);
    let _ = goes_to_the_comment(&mut reader);
    reader.parse_using::<VorbisComment>(alloc)
}

/// Returns true if the bytes ended before a comment did.
fn ended(answer: Result<VorbisComment, CommentError>) -> bool {
    matches!(answer, Err(CommentError::Reader(Error::EndOfInput)))
}

/// Reads a comment from bytes that hold only the comment.
fn alone(alloc: Global, bytes: &[u8]) -> Result<VorbisComment, CommentError> {
    BitReader::<_, BE>::over(bytes).parse_using(alloc)
}

#[test]
fn the_example_reads_a_file(rt: HostRuntime) {
    let mut reader = BitReader::<_, BE>::over(FLAC);
    holds(&rt, goes_to_the_comment(&mut reader));

    // VORBIS_COMMENT block
    match reader.parse_using::<VorbisComment>(rt.alloc()) {
        Ok(comment) => holds(&rt, is_the_comment(&comment)),
        Err(_) => holds(&rt, false),
    }
    holds(&rt, matches!(reader.read_bit(), Err(Error::EndOfInput)));
}

#[test]
fn a_file_that_is_cut_ends(rt: HostRuntime) {
    for len in 46..FLAC.len() {
        let ended = ended(comment(rt.alloc(), &FLAC[..len]));
        same(&rt, (len, ended), (len, true));
    }
}

#[test]
fn hostile_lengths_among_bits_end(rt: HostRuntime) {
    let mut long = [0; 40];
    long[..4].copy_from_slice(&[0xff; 4]);
    let mut many = [0; 40];
    many[4..8].copy_from_slice(&[0xff; 4]);
    let no_text = alone(rt.alloc(), b"\x01\0\0\0\xffx");
    holds(
        &rt,
        ended(alone(rt.alloc(), &long)) & ended(alone(rt.alloc(), &many)),
    );
    holds(&rt, matches!(no_text, Err(CommentError::NotText)));
}
