//! Tests of what no clause of the callers states: callers without contracts, a user's own types on
//! their happy path, that no allocation is reported as failed while memory is left, and the error kind
//! of a write without room. The other facts about the formats' bytes are proved, by the test vectors
//! of `bitstream_callers`.
use crate::asserts::{are, each_holds, ended, failed, gives, holds, same};
use bitstream_callers::appending::append;
use bitstream_callers::block_header::BlockHeader;
use bitstream_callers::packet_header::{PacketError, PacketHeader};
use bitstream_callers::padded_port::PaddedPort;
use bitstream_callers::plain::{
    chunk, direction, drift, first_block, parse_turn, picture_size, sample_rate, version,
};
use bitstream_callers::reading::{Reading, ReadingError};
use bitstream_callers::sample::Sample;
use bitstream_callers::samples::parse_samples;
use bitstream_callers::sensor::state_code;
use bitstream_callers::tcp_options::{TcpOptions, parse_options};
use bitstream_callers::telemetry::heartbeat;
use bitstream_io::{
    BE, BitRead, BitReadExt, BitReader, BitWrite, BitWriteExt, BitWriter, BitsWritten, ByteRead,
    ByteReadExt, ByteReader, ByteWrite, ByteWriteExt, ByteWriter, Error, LE, Slice, SliceMut,
    ToBitStream, ToBitStreamWith, ToByteStream, ToByteStreamUsing, ToByteStreamWith,
};
use flac_codec::stream_info::StreamInfo;
use std::alloc::Global;
use std::io::ErrorKind;
use std::process::Abort;
use test_streams::{Refuse, Short};

/// The fields of a block, in their order.
fn fields(info: &StreamInfo) -> [u64; 8] {
    [
        u64::from(info.minimum_block_size),
        u64::from(info.maximum_block_size),
        u64::from(info.minimum_frame_size),
        u64::from(info.maximum_frame_size),
        u64::from(info.sample_rate),
        u64::from(info.channels.get()),
        u64::from(info.bits_per_sample.get()),
        info.total_samples,
    ]
}

const FIELDS: [u64; 8] = [4096, 4096, 1542, 8546, 44100, 2, 16, 304844];

/// A STREAMINFO block: its fields, and the checksum after them.
const WHOLE_BLOCK: [u8; 34] = [
    0x10, 0x00, 0x10, 0x00, 0x00, 0x06, 0x06, 0x00, 0x21, 0x62, 0x0a, 0xc4, 0x42, 0xf0, 0x00, 0x04,
    0xa6, 0xcc, 0xfa, 0xf2, 0x69, 0x2f, 0xfd, 0xec, 0x2d, 0x5b, 0x30, 0x01, 0x76, 0xb4, 0x62, 0x88,
    0x7d, 0x92,
];

/// Returns true if a block round-trips through its bytes.
fn round_trip(block: &StreamInfo) -> bool {
    let mut built = [0; 34];
    let mut writer = BitWriter::<_, BE>::new(SliceMut::new(&mut built));
    writer.build(block).is_ok() & (built == WHOLE_BLOCK)
}

/// Returns true if a block has 272 bits, which a `u8` does not hold.
fn has_272_bits(block: &StreamInfo) -> bool {
    gives(block.bits::<u32>(), 272)
        & gives(block.bits_len::<u32, LE>(), 272)
        & matches!(block.bits::<u8>(), Err(Error::CounterOverflow))
}

/// For each request that the fields of a block make, the number of bytes moved before it; then the
/// number of all bytes. A reader asks for the bytes that a field lacks, and a writer sends the bytes that it
/// fills; the 3 bits of the channels need none.
const READ: [usize; 9] = [0, 2, 4, 7, 10, 13, 14, 18, 34];

const WRITTEN: [usize; 9] = [0, 2, 4, 7, 10, 12, 13, 18, 34];

/// Returns a stream with short reads and writes, which fails each request after `served` of them.
fn stream<S>(inner: S, served: usize) -> Refuse<Short<S>> {
    Refuse {
        inner: Short { inner, short: true },
        left: u32::try_from(served).ok(),
        once: false,
        kind: ErrorKind::ConnectionReset,
    }
}

/// Returns true if a result is the error of this stream.
fn refused<T: Drop>(answer: Result<T, Error>) -> bool {
    matches!(answer, Err(Error::Stream(ErrorKind::ConnectionReset)))
}

/// Returns true if a block is parsed when each request is served, or else the result is the
/// stream's error, and the reader has failed.
fn parses<R: BitRead>(reader: &mut R, block: &StreamInfo, served: bool) -> bool {
    let answer: Result<StreamInfo, Error> = reader.parse();
    if served {
        gives(answer, *block)
    } else {
        refused(answer) & failed(reader.read_bit())
    }
}

/// Returns true if a block is built when each request is served, or else the result is the stream's
/// error, and the writer has failed.
fn builds<W: BitWrite>(writer: &mut W, block: &StreamInfo, served: bool) -> bool {
    let answer = writer.build(block);
    if served {
        answer.is_ok()
    } else {
        refused(answer) & failed(writer.write_bit(true))
    }
}

/// Asserts that a block is parsed over a stream with short reads, and takes the bytes before a
/// request that is refused.
fn parses_up_to_each(rt: &impl Abort, block: &StreamInfo, read: &[usize]) {
    for (served, read) in read.iter().enumerate() {
        let mut reader = BitReader::<_, BE>::new(stream(WHOLE_BLOCK.as_slice(), served));
        let parsed = parses(&mut reader, block, served == 8);
        let left = reader.into_reader().inner.inner;
        same(rt, (served, parsed), (served, true));
        are(rt, left, &WHOLE_BLOCK[(*read).min(34)..]);
    }
}

/// Asserts that a block is built over a stream with short writes, and hands on the bytes before a
/// request that is refused.
fn builds_up_to_each(rt: &impl Abort, alloc: Global, block: &StreamInfo, written: &[usize]) {
    for (served, written) in written.iter().enumerate() {
        let mut writer = BitWriter::<_, BE>::new(stream(Vec::new(alloc), served));
        let built = builds(&mut writer, block, served == 8);
        same(rt, (served, built), (served, true));
        are(
            rt,
            &writer.into_writer().inner.inner,
            &WHOLE_BLOCK[..(*written).min(34)],
        );
    }
}

#[test]
fn parses_and_builds_a_stream_info(rt: HostRuntime) {
    let mut reader = BitReader::<_, BE>::new(Slice::new(&WHOLE_BLOCK));
    let block: StreamInfo = reader.parse().expect(&rt, "a block");
    same(&rt, fields(&block), FIELDS);
    are(&rt, &block.checksum, &WHOLE_BLOCK[18..]);
    holds(&rt, round_trip(&block) & has_272_bits(&block));
    parses_up_to_each(&rt, &block, &READ);
    builds_up_to_each(&rt, rt.alloc(), &block, &WRITTEN);
}

/// Returns true if these bytes are the turn of a wheel by -3, after 2 lost packets.
fn turns(turn: &[u8]) -> bool {
    match parse_turn(turn) {
        Ok(turned) => (turned.lost == 2) & (turned.angle == -3),
        Err(_) => false,
    }
}

/// Returns true if the data of a chunk are these bytes.
fn has_data(alloc: Global, bytes: &[u8], wanted: &[u8]) -> bool {
    matches!(chunk(alloc, bytes), Ok(data) if data.as_slice() == wanted)
}

#[test]
fn parses_plain_packets(rt: HostRuntime) {
    let chunk = [0, 0, 0, 3, 0x64, 0x61, 0x74, 0x61, 7, 8, 9];
    let file = [0x66, 0x4c, 0x61, 0x43, 0x00, 0x00, 0x00, 0x22];
    let parsed = [
        turns(&[0x2b]),
        gives(direction(rt.alloc(), &[0x80]), '+'),
        has_data(rt.alloc(), &chunk, &[7, 8, 9]),
        matches!(first_block(file.as_slice()), Ok(34)),
        gives(picture_size(&[0x2f, 0x91, 0x01, 0x4b, 0x00]), (402, 301)),
        gives(drift(&[0xf2, 0x9e, 0xc0]), (-215, -15)),
    ];
    each_holds(&rt, &parsed);
}

/// The options of a segment that opens a connection, as Linux sends it: a maximum segment, selective
/// acknowledgements, time stamps, a byte to fill up, and the scale of the window.
const OPTIONS: [u8; 20] = [
    2, 4, 5, 0xb4, 4, 2, 8, 10, 0, 1, 2, 3, 0, 0, 0, 0, 1, 3, 3, 7,
];

/// Returns true if options leave these bytes, and have these values.
fn options_say(
    bytes: &[u8],
    left: &[u8],
    segment: Option<u16>,
    scale: Option<u8>,
    selective: bool,
) -> bool {
    let mut options = TcpOptions {
        maximum_segment: None,
        window_scale: None,
        selective: false,
    };
    let parsed = matches!(parse_options(bytes, &mut options), Ok(rest) if rest == left);
    parsed
        & (options.maximum_segment == segment)
        & (options.window_scale == scale)
        & (options.selective == selective)
}

/// Returns true if the bytes end within the last option.
fn options_end(bytes: &[u8]) -> bool {
    let mut options = TcpOptions {
        maximum_segment: None,
        window_scale: None,
        selective: false,
    };
    ended(parse_options(bytes, &mut options))
}

#[test]
fn parses_tcp_options(rt: HostRuntime) {
    let parsed = [
        options_say(&OPTIONS, &[], Some(1460), Some(7), true),
        options_say(&OPTIONS[..6], &[], Some(1460), None, true),
        // an option that is too short says nothing, and does not read into the next one
        options_say(&[2, 3, 5, 3, 3, 9, 0, 0], &[0], None, Some(9), false),
        // a length of 0 is the end
        options_say(&[3, 0, 7, 7], &[7, 7], None, None, false),
        options_end(&OPTIONS[..19]),
        options_end(&OPTIONS[..18]),
        options_end(&OPTIONS[..5]),
    ];
    each_holds(&rt, &parsed);
}

/// Returns true if the vector was made and has these bytes.
fn has_bytes(made: Result<Vec<u8>, Error>, wanted: &[u8]) -> bool {
    matches!(made, Ok(bytes) if bytes.as_slice() == wanted)
}

#[test]
fn reads_and_writes_without_contracts(rt: HostRuntime) {
    let answers = [
        gives(sample_rate(&WHOLE_BLOCK), 44100),
        gives(version(&[0xbe, 0x02, 0x03]), 5),
        has_bytes(heartbeat(rt.alloc(), 5, true), &[0x0b]),
    ];
    each_holds(&rt, &answers);
}

const SAMPLE: Sample = Sample {
    seconds: 0x12345,
    running: true,
    temperature: -20,
    pressure: 101325,
};

/// Returns true if these samples of 12 bits are read.
fn reads_samples(alloc: Global, packed: &[u8], wanted: &[u16]) -> bool {
    matches!(parse_samples(alloc, packed, 2), Ok(samples) if samples.as_slice() == wanted)
}

/// A body that always reports a failed allocation meets the contracts of these callers.
#[test]
fn serves_while_memory_is_left(rt: HostRuntime) {
    let packed = [0xab, 0xcd, 0xef];
    let answers = [
        has_bytes(
            SAMPLE.pack(rt.alloc()),
            &[0x12, 0x34, 0x5f, 0xb1, 0x8b, 0xcd],
        ),
        has_bytes(
            SAMPLE.frame(rt.alloc()),
            &[0x30, 0x12, 0x34, 0x5f, 0xb1, 0x8b, 0xcd],
        ),
        gives(SAMPLE.bits(), 48),
        reads_samples(rt.alloc(), &packed, &[0xabc, 0xdef]),
        ended(parse_samples(rt.alloc(), &packed, 3)),
        state_code(rt.alloc()).is_ok(),
    ];
    each_holds(&rt, &answers);
}

/// Returns true if a sample is not written for lack of room.
fn lacks_room(buffer: &mut [u8]) -> bool {
    matches!(
        SAMPLE.pack_into(buffer),
        Err(Error::Stream(ErrorKind::WriteZero))
    )
}

#[test]
fn tells_that_a_buffer_is_too_short(rt: HostRuntime) {
    holds(&rt, lacks_room(&mut [0; 5]));
}

/// Returns true if `bits`, `bits_len` and a counter count 32 bits for a block's header.
fn has_32_bits(header: &BlockHeader) -> bool {
    let mut counter = BitsWritten::<u8>::new();
    gives(header.bits::<u8>(), 32)
        & gives(header.bits_len::<u8, LE>(), 32)
        & gives(append(&mut counter, header), 32)
        & (counter.written() == 32)
}

/// Returns true if a block's header is built.
fn builds_header<W: BitWrite>(writer: &mut W, header: &BlockHeader) -> bool {
    writer.build(header).is_ok()
}

/// Returns true if a block's header is parsed.
fn parses_header<R: BitRead>(reader: &mut R, header: BlockHeader) -> bool {
    gives(reader.parse::<BlockHeader>(), header)
}

#[test]
fn builds_and_parses_a_block_header(rt: HostRuntime) {
    let header = BlockHeader {
        last: false,
        kind: 0,
        size: 34,
    };
    let bytes = [0, 0, 0, 0x22];
    let mut built = [0xee; 4];
    let mut writer = BitWriter::<_, BE>::new(SliceMut::new(&mut built));
    holds(&rt, builds_header(&mut writer, &header) & (built == bytes));
    let mut reader = BitReader::<_, BE>::new(Slice::new(&bytes));
    holds(
        &rt,
        parses_header(&mut reader, header) & has_32_bits(&header),
    );
}

/// Returns true if a port is built with two bytes of padding, and counts its length.
fn builds_port<W: ByteWrite>(writer: &mut W) -> bool {
    let port = PaddedPort { number: 1 };
    writer.build_with(&port, &2).is_ok()
        & gives(ToByteStreamWith::bytes::<u8>(&port, &2), 4)
        & gives(ToByteStreamUsing::bytes::<u8>(&port, 2), 4)
}

/// Returns true if a port is parsed with one byte of padding, and the bytes end before a second port does.
fn parses_port<R: ByteRead>(reader: &mut R) -> bool {
    let first: Result<PaddedPort, Error> = reader.parse_with(&1);
    let second: Result<PaddedPort, Error> = reader.parse_using(1);
    gives(first, PaddedPort { number: 0x1234 }) & ended(second)
}

#[test]
fn builds_and_parses_a_padded_port(rt: HostRuntime) {
    let mut written = [0xee; 4];
    let mut writer = ByteWriter::<_, BE>::new(SliceMut::new(&mut written));
    holds(&rt, builds_port(&mut writer) & (written == [0, 1, 0, 0]));
    let mut reader = ByteReader::<_, LE>::new(Slice::new(&[0x34, 0x12, 9, 9, 9]));
    holds(&rt, parses_port(&mut reader));
}

/// Returns true if a reading is written in the number of bits that its context states.
fn writes_reading(reading: Reading, bits: u32, bytes: &[u8]) -> bool {
    let mut built = [0; 4];
    let mut writer = BitWriter::<_, BE>::new(SliceMut::new(&mut built));
    let written = writer.build_with(&reading, &bits).is_ok()
        & writer.build_using(&reading, bits).is_ok()
        & writer.byte_align().is_ok();
    written & (built.as_slice() == bytes)
}

/// Returns true if a reading is read back from its bytes.
fn reads_reading(reading: Reading, bits: u32, bytes: &[u8]) -> bool {
    let mut reader = BitReader::<_, BE>::new(Slice::new(bytes));
    gives(reader.parse_with::<Reading>(&bits), reading)
        & gives(reader.parse_using::<Reading>(bits), reading)
}

/// Returns true if a missing reading is reported as missing, and a width that is too large for a value
/// as the reader's error.
fn misses_a_reading() -> bool {
    let mut reader = BitReader::<_, BE>::new(Slice::new(&[0x40]));
    let missing: Result<Reading, ReadingError> = reader.parse_using(5);
    let wide: Result<Reading, ReadingError> = reader.parse_using(33);
    matches!(missing, Err(ReadingError::Missing))
        & matches!(wide, Err(ReadingError::Reader(Error::ReadBits)))
}

#[test]
fn reads_types_with_a_context(rt: HostRuntime) {
    let reading = Reading { value: 0xabc };
    let bytes = [0xd5, 0xe6, 0xaf, 0x00];
    let same = [
        writes_reading(reading, 12, &bytes),
        reads_reading(reading, 12, &bytes),
        misses_a_reading(),
        gives(ToBitStreamWith::bits::<u8>(&reading, &12), 13),
    ];
    each_holds(&rt, &same);
}

/// Returns true if a packet's header is built, and counts its length.
fn builds_packet<W: ByteWrite>(writer: &mut W, header: &PacketHeader) -> bool {
    writer.build(header).is_ok() & gives(header.bytes::<u8>(), 3)
}

/// Returns true if a packet's header is parsed, and a header of another version after it is rejected.
fn parses_packets<R: ByteRead>(reader: &mut R, header: PacketHeader) -> bool {
    let first: Result<PacketHeader, PacketError> = reader.parse();
    let other: Result<PacketHeader, PacketError> = reader.parse();
    gives(first, header) & matches!(other, Err(PacketError::UnsupportedVersion))
}

#[test]
fn reads_types_of_whole_bytes(rt: HostRuntime) {
    let header = PacketHeader { length: 0x1234 };
    let mut built = [0; 3];
    let mut writer = ByteWriter::<_, BE>::new(SliceMut::new(&mut built));
    holds(
        &rt,
        builds_packet(&mut writer, &header) & (built == [1, 0x12, 0x34]),
    );
    let mut reader = ByteReader::<_, BE>::new(Slice::new(&[1, 0x12, 0x34, 2, 0x12, 0x34]));
    holds(&rt, parses_packets(&mut reader, header));
}
