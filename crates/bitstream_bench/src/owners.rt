//! Types that own memory: the comment and the picture of a FLAC file, and a parameter set with a
//! list of parts. No clause excludes a body that reports every allocation as failed, so these tests do;
//! `.ci/memory` makes each allocation of a comment fail.
use crate::asserts::{each_holds, holds, same};
use bitstream_callers::block_header::BlockHeader;
use bitstream_callers::client_hello::{ClientHello, ClientHelloError};
use bitstream_callers::parameter_set::{OperatingPoint, ParameterSet};
use bitstream_callers::picture::{Picture, PictureSize};
use bitstream_callers::rtp_header::{RtpError, RtpHeader};
use bitstream_callers::vorbis_comment::{CommentError, Text, VorbisComment};
use bitstream_io::{
    BE, BitRead, BitReadExt, BitReader, BitWriteExt, BitWriter, ByteRead, ByteReadExt, ByteReader,
    Error, ToBitStream,
};
use flac_codec::stream_info::StreamInfo;
use std::alloc::Global;

/// A file that `flac` 1.4.2 wrote with `-T TITLE=Prélude -T 'ARTIST=J. S. Bach' -T DATE=1717`, up to its frame.
const FILE: &[u8] =
    b"fLaC\x00\x00\x00\x22\x10\x00\x10\x00\x00\x01\x94\x00\x01\x94\x01\xf4\x00\xf0\x00\x00\x01\x90\x81\x0e\xad\xc1\x2a\xad\xa9\x8b\x31\xa5\x69\xfb\x12\x47\xe9\xe0\x84\x00\x00\x5c\x20\x00\x00\x00reference libFLAC 1.4.2 20221022\x03\x00\x00\x00\x0e\x00\x00\x00TITLE=Pr\xc3\xa9lude\x11\x00\x00\x00ARTIST=J. S. Bach\x09\x00\x00\x00DATE=1717";

/// The place of the comment's block.
const COMMENT: usize = 46;

/// Returns true if the texts are `wanted`.
fn texts_are(texts: &[Text], wanted: &[&str]) -> bool {
    let mut same = texts.len() == wanted.len();
    for (text, wanted) in texts.iter().zip(wanted) {
        same &= text.text.as_str() == *wanted;
    }
    same
}

/// Returns true if the result is the comment that the file holds.
fn is_of_the_file(answer: Result<VorbisComment, CommentError>) -> bool {
    match answer {
        Ok(comment) => {
            (comment.vendor.text.as_str() == "reference libFLAC 1.4.2 20221022")
                & texts_are(
                    comment.comments.as_slice(),
                    &["TITLE=Prélude", "ARTIST=J. S. Bach", "DATE=1717"],
                )
        }
        Err(_) => false,
    }
}

/// Skips the blocks before the comment in a file.
fn goes_to_the_comment<R: BitRead>(reader: &mut R) -> bool {
    reader.skip(32).is_ok()
        & reader.parse::<BlockHeader>().is_ok()
        & reader.parse::<StreamInfo>().is_ok()
        & reader.parse::<BlockHeader>().is_ok()
}

/// Reads a comment from the bytes of its block.
fn comment(alloc: Global, block: &[u8]) -> Result<VorbisComment, CommentError> {
    ByteReader::<_, BE>::over(block).parse_using(alloc)
}

/// Returns true if a block ends before its comment does.
fn ends(alloc: Global, block: &[u8]) -> bool {
    matches!(
        comment(alloc, block),
        Err(CommentError::Reader(Error::EndOfInput))
    )
}

#[test]
fn a_comment_of_a_file_is_read(rt: HostRuntime) {
    let mut reader = BitReader::<_, BE>::over(FILE);
    let there = goes_to_the_comment(&mut reader);
    let block = &FILE[COMMENT..];
    holds(&rt, there & is_of_the_file(comment(rt.alloc(), block)));
    for len in 0..block.len() {
        same(&rt, (len, ends(rt.alloc(), &block[..len])), (len, true));
    }
}

#[test]
fn hostile_lengths_end(rt: HostRuntime) {
    let mut long = [0; 40];
    long[..4].copy_from_slice(&[0xff; 4]);
    let mut many = [0; 40];
    many[4..8].copy_from_slice(&[0xff; 4]);
    let mut reader = ByteReader::<_, BE>::over(b"\x01\0\0\0\xffx");
    let no_text = matches!(
        reader.parse_using::<VorbisComment>(rt.alloc()),
        Err(CommentError::NotText)
    );
    holds(
        &rt,
        ends(rt.alloc(), &long) & ends(rt.alloc(), &many) & no_text,
    );
    holds(&rt, matches!(reader.read::<u8>(), Ok(b'x')));
}

/// Returns true if a set of two points is read from its bytes.
fn is_read(answer: Result<ParameterSet, Error>) -> bool {
    match answer {
        Ok(set) => (set.profile == 5)
            & (set.points.as_slice()
                == [
                    OperatingPoint {
                        layers: 0x0f3,
                        level: 9,
                    },
                    OperatingPoint {
                        layers: 0xabc,
                        level: 31,
                    },
                ]
                .as_slice()),
        Err(_) => false,
    }
}

#[test]
fn a_parameter_set_is_read(rt: HostRuntime) {
    let bytes = [0xa2, 0x0f, 0x34, 0xd5, 0xe7, 0xc0];
    let set = BitReader::<_, BE>::over(&bytes).parse_using::<ParameterSet>(rt.alloc());
    let short = BitReader::<_, BE>::over(&bytes[..5]).parse_using::<ParameterSet>(rt.alloc());
    holds(&rt, is_read(set) & matches!(short, Err(Error::EndOfInput)));
}

/// The block of a picture, after the format's description: a front cover of 16 times 32 pixels.
const PICTURE: &[u8] =
    b"\0\0\0\x03\0\0\0\x09image/png\0\0\0\x05Cover\0\0\0\x10\0\0\0\x20\0\0\0\x18\0\0\0\0\0\0\0\x04\x89PNG";

/// Reads the picture at the start of the bytes.
fn picture(alloc: Global, bytes: &[u8]) -> Result<Picture, Error> {
    BitReader::<_, BE>::over(bytes).parse_using(alloc)
}

/// Returns true if a picture is the picture of the block, and round-trips through its bytes.
fn is_that_picture(picture: &Picture) -> bool {
    let mut built = [0; 50];
    let written = BitWriter::<_, BE>::over(&mut built).build(picture).is_ok();
    (picture.kind == 3)
        & (picture.media.bytes.as_slice() == b"image/png".as_slice())
        & (picture.description.bytes.as_slice() == b"Cover".as_slice())
        & (picture.size
            == PictureSize {
                width: 16,
                height: 32,
                depth: 24,
                colors: 0,
            })
        & (picture.image.bytes.as_slice() == b"\x89PNG".as_slice())
        & written
        & (built.as_slice() == PICTURE)
        & matches!(picture.bits::<u32>(), Ok(400))
}

#[test]
fn a_picture_goes_both_ways(rt: HostRuntime) {
    match picture(rt.alloc(), PICTURE) {
        Ok(picture) => holds(&rt, is_that_picture(&picture)),
        Err(_) => holds(&rt, false),
    }
    for len in 0..PICTURE.len() {
        let ended = matches!(picture(rt.alloc(), &PICTURE[..len]), Err(Error::EndOfInput));
        same(&rt, (len, ended), (len, true));
    }
}

/// A ClientHello as OpenSSL sends it.
const HELLO: [u8; 107] = [
    0x01, 0x00, 0x00, 0x67, 0x03, 0x03, 0x1e, 0x5f, 0x1e, 0x7c, 0xbe, 0x75, 0x7b, 0xd4, 0x09, 0xe4,
    0x12, 0x4d, 0x6b, 0xef, 0xf4, 0x50, 0x59, 0xc0, 0x41, 0x3a, 0xf2, 0xf1, 0x97, 0x27, 0x00, 0xb2,
    0xfe, 0x9b, 0x22, 0x78, 0xd5, 0x83, 0x00, 0x00, 0x04, 0x00, 0x2f, 0x00, 0xff, 0x01, 0x00, 0x00,
    0x3a, 0x00, 0x23, 0x00, 0x00, 0x00, 0x16, 0x00, 0x00, 0x00, 0x17, 0x00, 0x00, 0x00, 0x0d, 0x00,
    0x2a, 0x00, 0x28, 0x04, 0x03, 0x05, 0x03, 0x06, 0x03, 0x08, 0x07, 0x08, 0x08, 0x08, 0x09, 0x08,
    0x0a, 0x08, 0x0b, 0x08, 0x04, 0x08, 0x05, 0x08, 0x06, 0x04, 0x01, 0x05, 0x01, 0x06, 0x01, 0x03,
    0x03, 0x03, 0x01, 0x03, 0x02, 0x04, 0x02, 0x05, 0x02, 0x06, 0x02,
];

/// Returns true if a packet is an RTP header with these sources.
fn is_rtp(packet: &[u8], alloc: Global, ssrc: u32, csrc: &[u32]) -> bool {
    matches!(RtpHeader::parse(packet, alloc),
        Ok(header) if (header.ssrc == ssrc) & (header.csrc.as_slice() == csrc))
}

#[test]
fn parses_headers_with_lists(rt: HostRuntime) {
    let alloc = rt.alloc();
    let plain = [
        0x80, 0x40, 0xf1, 0x7b, 0x80, 0x41, 0xf8, 0xd3, 0x55, 0x01, 0xa0, 0xb2,
    ];
    let mixed = [
        0x82, 0x8b, 0x00, 0x02, 0x00, 0x00, 0x00, 0xa0, 0x12, 0x34, 0x56, 0x78, 0x00, 0x00, 0x00,
        0x07, 0xde, 0xca, 0xfb, 0xad,
    ];
    let hello = matches!(ClientHello::parse(&HELLO, alloc),
        Ok(hello) if (hello.size == 0x67) & (hello.suites.as_slice() == [0x00, 0x2f, 0x00, 0xff].as_slice())
            & (hello.extensions.len() == 58));
    each_holds(
        &rt,
        &[
            is_rtp(&plain, alloc, 0x5501a0b2, &[]),
            is_rtp(&mixed, alloc, 0x12345678, &[7, 0xdecafbad]),
            hello,
        ],
    );
}

/// Returns true if an RTP packet of any other version is rejected for its version.
fn refuses_versions(alloc: Global) -> bool {
    let mut all = true;
    for first in [0x00, 0x40, 0xc0] {
        let packet = [
            first, 0x40, 0xf1, 0x7b, 0x80, 0x41, 0xf8, 0xd3, 0x55, 0x01, 0xa0, 0xb2,
        ];
        all &= matches!(
            RtpHeader::parse(&packet, alloc),
            Err(RtpError::WrongVersion)
        );
    }
    all
}

#[test]
fn refuses_other_headers_with_lists(rt: HostRuntime) {
    let alloc = rt.alloc();
    let mut other = HELLO;
    other[0] = 2;
    let mut squeezed = HELLO;
    squeezed[46] = 0x40;
    each_holds(
        &rt,
        &[
            refuses_versions(alloc),
            matches!(
                RtpHeader::parse(&[], alloc),
                Err(RtpError::Reader(Error::EndOfInput))
            ),
            matches!(
                RtpHeader::parse(&[0x81; 15], alloc),
                Err(RtpError::Reader(Error::EndOfInput))
            ),
            matches!(
                ClientHello::parse(&other, alloc),
                Err(ClientHelloError::OtherMessage)
            ),
            matches!(
                ClientHello::parse(&squeezed, alloc),
                Err(ClientHelloError::NoCompression)
            ),
            matches!(
                ClientHello::parse(&HELLO[..106], alloc),
                Err(ClientHelloError::Reader(Error::EndOfInput))
            ),
            matches!(
                ClientHello::parse(&[], alloc),
                Err(ClientHelloError::Reader(Error::EndOfInput))
            ),
        ],
    );
}
