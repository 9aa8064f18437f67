//! Test vectors of calls of the program: the input, and the results.

/// A call, its input, the output that it must write, the field and reason of its fault (empty if there
/// is none), and its status.
#[derive(Drop)]
pub(crate) struct Row(
    pub(crate) &'static str,
    pub(crate) &'static [u8],
    pub(crate) &'static [u8],
    pub(crate) &'static str,
    pub(crate) u8,
);

pub(crate) const D: &[u8] = &[0xb1, 0xed, 0x3b, 0xc1];

pub(crate) const PACKED: Row = Row("pack be u2,u3,u5,u3,u19", b"2\n6\n7\n5\n342977\n", D, "", 0);

pub(crate) const UNPACKED: Row = Row(
    "unpack be u2,u3,u5,u3,u19",
    D,
    b"2\n6\n7\n5\n342977\n",
    "",
    0,
);

/// Values of four kinds, and the lines that spell them.
const FOUR_VALUES: &[u8] = b"5\n4\n8\n-3\n";

/// The sizes of the fields: 3 bits, 5 up to a whole byte, 4 and the stop bit, two groups of 4, one
/// group.
pub(crate) const SIZED: Row = Row("size be u3,a,n1,v4,s4", b"5\n4\n8\n-3\n", b"25\n", "", 0);

pub(crate) const ROWS: [Row; 15] = [
    PACKED,
    Row("pack le u2,u3,u5,u3,u19", b"1\n4\n13\n3\n395743", D, "", 0),
    Row("pack be u4,a,u8", b"15\n1\n", &[0xf0, 0x01], "", 0),
    Row("pack le u4,a,u8", b"15\n1\n", &[0x0f, 0x01], "", 0),
    UNPACKED,
    Row(
        "unpack le u2,u3,u5,u3,u19",
        D,
        b"1\n4\n13\n3\n395743\n",
        "",
        0,
    ),
    Row("unpack be u9", &[0xb1], b"", "1: bits ended", 4),
    Row(
        "pack be u128",
        b"340282366920938463463374607431768211456\n",
        b"",
        "1: value does not fit",
        3,
    ),
    Row("unpack le a", b"", b"", "", 0),
    Row("pack be u8,a,u16", b"79\n19210\n", b"OK\n", "", 0),
    Row(
        "pack be u2,u3,u5,u3,u19",
        b"4\n6\n7\n5\n342977",
        b"",
        "1: value does not fit",
        3,
    ),
    Row("pack be u8", b"1\n2\n", b"", "0: value left over", 3),
    Row("pack be u8", b"", b"", "1: value missing", 3),
    Row("pack be u8", b"5\r\n", b"", "1: value misspelt", 3),
    Row("pack xe u8", b"", b"", "0: bad arguments", 2),
];

/// Values of each kind, and the lines that spell them.
const KINDS_OF_VALUES: &[u8] = b"5\n4\n8\n-3\n-8\n";

pub(crate) const HEADLINE: [Row; 33] = [
    Row(
        "pack be u3,a,n1,v4,s4,i4",
        KINDS_OF_VALUES,
        &[0xa0, 0x0c, 0x0a, 0xc0],
        "",
        0,
    ),
    Row(
        "unpack be u3,a,n1,v4,s4,i4",
        &[0xa0, 0x0c, 0x0a, 0xc0],
        KINDS_OF_VALUES,
        "",
        0,
    ),
    Row(
        "pack le u3,a,n1,v4,s4,i4",
        KINDS_OF_VALUES,
        &[0x05, 0x10, 0xa3, 0x10],
        "",
        0,
    ),
    Row(
        "unpack le u3,a,n1,v4,s4,i4",
        &[0x05, 0x10, 0xa3, 0x10],
        KINDS_OF_VALUES,
        "",
        0,
    ),
    Row(
        "pack be i1,i8,s8,v8,n0",
        b"-1\n127\n-65\n300\n3",
        &[0xbf, 0xc0, 0x80, 0xd6, 0x01, 0x70],
        "",
        0,
    ),
    Row("pack be i8", b"128", b"", "1: value does not fit", 3),
    Row("pack be i8", b"-129", b"", "1: value does not fit", 3),
    Row("pack be i8", b"-0", b"", "1: value misspelt", 3),
    Row("pack be i8", b"-", b"", "1: value misspelt", 3),
    Row(
        "pack be s4",
        b"-9223372036854775808",
        &[
            0xff, 0xff, 0xff, 0xff, 0xff, 0xff, 0xff, 0xff, 0xff, 0xff, 0xf1,
        ],
        "",
        0,
    ),
    Row(
        "pack be s4",
        b"9223372036854775808",
        b"",
        "1: value does not fit",
        3,
    ),
    Row("pack be v4", b"-1", b"", "1: value misspelt", 3),
    Row(
        "pack be v8",
        b"18446744073709551616",
        b"",
        "1: value does not fit",
        3,
    ),
    Row("pack be n1", b"4294967296", b"", "1: value does not fit", 3),
    Row("pack be u8", b"01", b"", "1: value misspelt", 3),
    Row(
        "unpack be i2,i3,i5,i3,i19",
        D,
        b"-2\n-2\n7\n-3\n-181311\n",
        "",
        0,
    ),
    Row(
        "unpack le i2,i3,i5,i3,i19",
        D,
        b"1\n-4\n13\n3\n-128545\n",
        "",
        0,
    ),
    Row("unpack be n0,n0,n0,n0,n0", D, b"1\n2\n0\n0\n4\n", "", 0),
    Row("unpack be v8", &[0xff; 11], b"", "1: limit passed", 4),
    Row("unpack be v8", &[0xff; 9], b"", "1: bits ended", 4),
    Row("unpack be u8,s4", &[0xff; 20], b"", "2: limit passed", 4),
    Row("pack be u3,p9,u4", b"5\n9\n", &[0xa0, 0x09], "", 0),
    Row("unpack le p3,u5,p130,u6", &[0xff; 18], b"31\n63\n", "", 0),
    Row("unpack be u3,p9", b"\xa0", b"", "2: bits ended", 4),
    Row("pack be p4097", b"", b"", "1: bad layout", 2),
    Row("pack be u0", b"", b"", "1: bad layout", 2),
    Row("pack be u129", b"", b"", "1: bad layout", 2),
    Row("pack be u01", b"", b"", "1: bad layout", 2),
    Row("pack be i0", b"", b"", "1: bad layout", 2),
    Row("pack be v5", b"", b"", "1: bad layout", 2),
    Row("pack be n2", b"", b"", "1: bad layout", 2),
    Row("pack be u2,", b"", b"", "2: bad layout", 2),
    Row("unpack be ", b"", b"", "1: bad layout", 2),
];

/// Values that end with two bytes, and the lines that spell them.
const BYTES_LAST: &[u8] = b"5\n4\n8\n-3\n1 255\n";

pub(crate) const BYTES: [Row; 28] = [
    Row(
        "pack be u3,a,n1,v4,s4,b2",
        BYTES_LAST,
        &[0xa0, 0x0c, 0x0a, 0x80, 0xff, 0x80],
        "",
        0,
    ),
    Row(
        "unpack be u3,a,n1,v4,s4,b2",
        &[0xa0, 0x0c, 0x0a, 0x80, 0xff, 0x80],
        BYTES_LAST,
        "",
        0,
    ),
    Row(
        "pack le u3,a,n1,v4,s4,b2",
        BYTES_LAST,
        &[0x05, 0x10, 0xa3, 0x02, 0xfe, 0x01],
        "",
        0,
    ),
    Row(
        "unpack le u3,a,n1,v4,s4,b2",
        &[0x05, 0x10, 0xa3, 0x02, 0xfe, 0x01],
        BYTES_LAST,
        "",
        0,
    ),
    Row(
        "pack be u3,b3,u5",
        b"5\n1 255 0\n31",
        &[0xa0, 0x3f, 0xe0, 0x1f],
        "",
        0,
    ),
    Row(
        "unpack be u3,b3,u5",
        &[0xa0, 0x3f, 0xe0, 0x1f],
        b"5\n1 255 0\n31\n",
        "",
        0,
    ),
    Row(
        "pack le u3,b3,u5",
        b"5\n1 255 0\n31",
        &[0x0d, 0xf8, 0x07, 0xf8],
        "",
        0,
    ),
    Row(
        "unpack le u3,b3,u5",
        &[0x0d, 0xf8, 0x07, 0xf8],
        b"5\n1 255 0\n31\n",
        "",
        0,
    ),
    Row("unpack be b1,u8,b2", D, b"177\n237\n59 193\n", "", 0),
    Row("unpack be b65536", &[0xff; 10], b"", "1: bits ended", 4),
    Row("unpack le u1,b2", &[0xff; 2], b"", "2: bits ended", 4),
    Row("pack be b65537", b"", b"", "1: bad layout", 2),
    Row("pack be b0", b"", b"", "1: bad layout", 2),
    Row("pack be b01", b"", b"", "1: bad layout", 2),
    Row("pack be b", b"", b"", "1: bad layout", 2),
    Row("pack be b2", b"", b"", "1: value missing", 3),
    Row(
        "pack be u1,b2",
        b"1\n1 256",
        b"",
        "2: value does not fit",
        3,
    ),
    Row("pack be b2", b"1", b"", "1: value misspelt", 3),
    Row("pack be b2", b"1 2 3", b"", "1: value misspelt", 3),
    Row("pack be b2", b"1  2", b"", "1: value misspelt", 3),
    Row("pack be b2", b" 1 2", b"", "1: value misspelt", 3),
    Row("pack be b2", b"1 2 ", b"", "1: value misspelt", 3),
    Row("pack be b2", b"01 2", b"", "1: value misspelt", 3),
    Row("pack be b2", b"1 -2", b"", "1: value misspelt", 3),
    Row("pack be b1", b"\n", b"", "1: value misspelt", 3),
    // A wrong number of decimals, or a part that is not a number, is reported before a number that does not fit.
    Row("pack be b2", b"256", b"", "1: value misspelt", 3),
    Row("pack be b2", b"256 x", b"", "1: value misspelt", 3),
    Row("pack be b2", b"1 2\n3", b"", "0: value left over", 3),
];

/// Constants: no line spells their number, and wrong bits are a fault.
pub(crate) const CONSTANTS: [Row; 23] = [
    Row("unpack be u2,c3=5", &[0xb1], b"", "2: constant differs", 4),
    Row("unpack be u2,c3=6", &[0xb1], b"2\n", "", 0),
    Row("unpack le c3=1,u5", &[0xb1], b"22\n", "", 0),
    Row("unpack be c3=4,u9", &[0xb1], b"", "1: constant differs", 4),
    Row("unpack be c3=5,u9", &[0xb1], b"", "2: bits ended", 4),
    Row("unpack be c9=1", &[0xb1], b"", "1: bits ended", 4),
    Row("unpack le c32=4294967295", &[0xff; 4], b"", "", 0),
    Row("pack be c8=177", b"", &[0xb1], "", 0),
    Row("pack be c8=177", b"177\n", b"", "0: value left over", 3),
    Row("pack be u3,c7=85,i6", b"5\n-2\n", &[0xb5, 0x7e], "", 0),
    Row("unpack be u3,c7=85,i6", &[0xb5, 0x7e], b"5\n-2\n", "", 0),
    Row("pack le u3,c7=85,i6", b"5\n-2\n", &[0xad, 0xfa], "", 0),
    Row("unpack le u3,c7=85,i6", &[0xad, 0xfa], b"5\n-2\n", "", 0),
    Row("unpack be c33=0", b"", b"", "1: bad layout", 2),
    Row("unpack be c32=4294967296", b"", b"", "1: bad layout", 2),
    Row("unpack be c2=4", b"", b"", "1: bad layout", 2),
    Row("unpack be c0=0", b"", b"", "1: bad layout", 2),
    Row("unpack be c3=05", b"", b"", "1: bad layout", 2),
    Row("unpack be c03=5", b"", b"", "1: bad layout", 2),
    Row("unpack be c3=5=5", b"", b"", "1: bad layout", 2),
    Row("unpack be c3=", b"", b"", "1: bad layout", 2),
    Row("unpack be c=3", b"", b"", "1: bad layout", 2),
    Row("unpack be c3", b"", b"", "1: bad layout", 2),
];

pub(crate) const SIZES: [Row; 25] = [
    SIZED,
    Row("size be u3,a,n1,v4,s4,b2", BYTES_LAST, b"41\n", "", 0),
    Row("size le c3=5,u5", b"31\n", b"8\n", "", 0),
    Row("size be b2", b"1 2 3\n", b"", "1: value misspelt", 3),
    Row("size le u3,a,n1,v4,s4", FOUR_VALUES, b"25\n", "", 0),
    Row(
        "size be u2,u3,u5,u3,u19",
        b"2\n6\n7\n5\n342977\n",
        b"32\n",
        "",
        0,
    ),
    Row("size be p8", b"", b"8\n", "", 0),
    Row("size le a", b"", b"0\n", "", 0),
    Row("size be u8,u3", b"255\n7\n", b"11\n", "", 0),
    Row("size le u4,a,u8", b"15\n1", b"16\n", "", 0),
    Row(
        "size be i1,i8,s8,v8,n0",
        b"-1\n127\n-65\n300\n3",
        b"45\n",
        "",
        0,
    ),
    Row("size be n0", b"4294967295\n", b"4294967296\n", "", 0),
    Row(
        "size le n0,n1,p4096",
        b"4294967295\n4294967295\n",
        b"8589938688\n",
        "",
        0,
    ),
    Row("size be s4", b"-9223372036854775808", b"88\n", "", 0),
    Row("size be v8", b"18446744073709551615", b"80\n", "", 0),
    Row("size be ", b"", b"", "1: bad layout", 2),
    Row("size be u2,", b"0\n", b"", "2: bad layout", 2),
    Row("size xe u8", b"", b"", "0: bad arguments", 2),
    Row("size be", b"", b"", "0: bad arguments", 2),
    Row("Size be u8", b"1\n", b"", "0: bad arguments", 2),
    Row("size be p1,u8", b"", b"", "2: value missing", 3),
    Row("size be u8", b"01", b"", "1: value misspelt", 3),
    Row("size be u8", b"256", b"", "1: value does not fit", 3),
    Row("size be u8", b"1\n2\n", b"", "0: value left over", 3),
    Row("size be p8", b"\n", b"", "0: value left over", 3),
];

/// The STREAMINFO block of a FLAC file: the least and the greatest block and frame, the sample rate,
/// the number of channels and of bits of a sample, each less 1, and the number of samples.
const STREAM_INFO: &[u8] = &[
    0x10, 0x00, 0x10, 0x00, 0x00, 0x06, 0x06, 0x00, 0x21, 0x62, 0x0a, 0xc4, 0x42, 0xf0, 0x00, 0x04,
    0xa6, 0xcc,
];

const STREAM_INFO_LINES: &[u8] = b"4096\n4096\n1542\n8546\n44100\n1\n15\n304844\n";

/// A telemetry record: a version, a sequence number of two groups, a temperature in tenths of a
/// degree, a voltage in millivolts, a drift of two groups and a number of retries.
const RECORD_LINES: &[u8] = b"2\n300\n-215\n3711\n-20\n2\n";

const RECORD_HIGH: &[u8] = &[0x55, 0x80, 0x5c, 0xa7, 0x9f, 0xfd, 0x30];

const RECORD_LOW: &[u8] = &[0x62, 0x15, 0x48, 0xf9, 0x9f, 0x3f, 0x0d];

/// The header of a TCP segment: ports, sequence numbers, the length in words, 4 reserved bits, flags,
/// window, checksum and urgent pointer.
const SEGMENT_LINES: &[u8] = b"443\n49152\n1\n0\n5\n2\n65535\n0\n0\n";

const SEGMENT: &[u8] = &[
    0x01, 0xbb, 0xc0, 0x00, 0x00, 0x00, 0x00, 0x01, 0x00, 0x00, 0x00, 0x00, 0x50, 0x02, 0xff, 0xff,
    0x00, 0x00, 0x00, 0x00,
];

/// The same header, with reserved bits that are not 0.
const MARKED_SEGMENT: &[u8] = &[
    0x01, 0xbb, 0xc0, 0x00, 0x00, 0x00, 0x00, 0x01, 0x00, 0x00, 0x00, 0x00, 0x5e, 0x02, 0xff, 0xff,
    0x00, 0x00, 0x00, 0x00,
];

pub(crate) const PIPELINES: [Row; 12] = [
    Row(
        "unpack be u16,u16,u24,u24,u20,u3,u5,u36",
        STREAM_INFO,
        STREAM_INFO_LINES,
        "",
        0,
    ),
    Row(
        "pack be u16,u16,u24,u24,u20,u3,u5,u36",
        STREAM_INFO_LINES,
        STREAM_INFO,
        "",
        0,
    ),
    Row(
        "size be u16,u16,u24,u24,u20,u3,u5,u36",
        STREAM_INFO_LINES,
        b"144\n",
        "",
        0,
    ),
    Row(
        "pack be u3,v8,i11,u12,s4,n0",
        RECORD_LINES,
        RECORD_HIGH,
        "",
        0,
    ),
    Row(
        "unpack be u3,v8,i11,u12,s4,n0",
        RECORD_HIGH,
        RECORD_LINES,
        "",
        0,
    ),
    Row(
        "pack le u3,v8,i11,u12,s4,n0",
        RECORD_LINES,
        RECORD_LOW,
        "",
        0,
    ),
    Row(
        "unpack le u3,v8,i11,u12,s4,n0",
        RECORD_LOW,
        RECORD_LINES,
        "",
        0,
    ),
    Row("size le u3,v8,i11,u12,s4,n0", RECORD_LINES, b"53\n", "", 0),
    Row(
        "pack be u16,u16,u32,u32,u4,p4,u8,u16,u16,u16",
        SEGMENT_LINES,
        SEGMENT,
        "",
        0,
    ),
    Row(
        "unpack be u16,u16,u32,u32,u4,p4,u8,u16,u16,u16",
        SEGMENT,
        SEGMENT_LINES,
        "",
        0,
    ),
    Row(
        "unpack be u16,u16,u32,u32,u4,p4,u8,u16,u16,u16",
        MARKED_SEGMENT,
        SEGMENT_LINES,
        "",
        0,
    ),
    Row(
        "size be u16,u16,u32,u32,u4,p4,u8,u16,u16,u16",
        SEGMENT_LINES,
        b"160\n",
        "",
        0,
    ),
];

/// Numbers that end in a group of 0: strict fields reject them, lenient fields read them and are packed
/// with the shortest encoding.
pub(crate) const REDUNDANT: [Row; 16] = [
    Row("unpack be v4", &[0x80], b"", "1: limit passed", 4),
    Row("unpack be l4", &[0x80], b"0\n", "", 0),
    Row("unpack be v4", &[0x90], b"", "1: limit passed", 4),
    Row("unpack be l4", &[0x90], b"1\n", "", 0),
    Row("unpack be v4", &[0x88, 0x00], b"", "1: limit passed", 4),
    Row("unpack be l4", &[0x88, 0x00], b"0\n", "", 0),
    Row("unpack be s4", &[0x80], b"", "1: limit passed", 4),
    Row("unpack be v8", &[0x80, 0x00], b"", "1: limit passed", 4),
    Row("unpack be l8", &[0x80, 0x00], b"0\n", "", 0),
    Row("unpack le s8", &[0x81, 0x00], b"", "1: limit passed", 4),
    Row("unpack be l4", &[0xff; 11], b"", "1: limit passed", 4),
    Row("unpack be u4,l4", &[0x08], b"", "2: bits ended", 4),
    Row("pack be l4", b"8\n", &[0x81], "", 0),
    Row("pack be l8", b"0\n", &[0x00], "", 0),
    Row("pack be l5", b"", b"", "1: bad layout", 2),
    Row("size be l4,l8", b"8\n0\n", b"16\n", "", 0),
];

/// The bytes of values of five kinds, and of two bytes, in either order of bits.
const FIVE_HIGH: &[u8] = &[0xa0, 0x0c, 0x0a, 0x80, 0xff, 0x80];

const FIVE_LOW: &[u8] = &[0x05, 0x10, 0xa3, 0x02, 0xfe, 0x01];

pub(crate) const REPACKED: Row = Row("repack be u2,u3,u5,u3,u19", D, D, "", 0);

pub(crate) const REPACKINGS: [Row; 34] = [
    REPACKED,
    Row("repack le u2,u3,u5,u3,u19", D, D, "", 0),
    Row("repack be u3,a,n1,v4,s4,b2", FIVE_HIGH, FIVE_HIGH, "", 0),
    Row(
        "repack be u3,a,n1,v4,s4,b2",
        &[0xa1, 0x0c, 0x0a, 0x80, 0xff, 0x80],
        b"",
        "2: padding not zero",
        4,
    ),
    Row(
        "repack be u3,a,n1,v4,s4,b2",
        &[0xa0, 0x0c, 0x0a, 0x80, 0xff, 0x81],
        b"",
        "0: padding not zero",
        4,
    ),
    Row(
        "repack be u3,a,n1,v4,s4,b2",
        &[0xa0, 0x0c, 0x0a, 0x80, 0xff, 0x80, 0x00],
        b"",
        "0: bytes left over",
        4,
    ),
    Row(
        "repack be u3,a,n1,v4,s4,b2",
        &[0xa0, 0x0c, 0x0a, 0x80, 0xff],
        b"",
        "6: bits ended",
        4,
    ),
    Row("repack le u3,a,n1,v4,s4,b2", FIVE_LOW, FIVE_LOW, "", 0),
    Row("repack be p4,u4", &[0x05], &[0x05], "", 0),
    Row("repack be p4,u4", &[0x15], b"", "1: padding not zero", 4),
    Row("repack be l4", &[0x80], &[0x00], "", 0),
    Row("repack be a", b"", b"", "", 0),
    Row("repack be a", &[0x00], b"", "0: bytes left over", 4),
    Row("repack be u8", b"", b"", "1: bits ended", 4),
    Row("repack be u8", b"1\n", b"", "0: bytes left over", 4),
    Row("repack be v4", &[0x80], b"", "1: limit passed", 4),
    Row("repack be l8", &[0x80, 0x00], &[0x00], "", 0),
    Row("repack be v8", &[0xac, 0x02], &[0xac, 0x02], "", 0),
    Row("repack be c3=5,p5", &[0xa0], &[0xa0], "", 0),
    Row("repack be c3=5,p5", &[0xa8], b"", "2: padding not zero", 4),
    Row("repack be c3=5,p5", &[0x80], b"", "1: constant differs", 4),
    Row("repack be u4,a", &[0x1f], b"", "2: padding not zero", 4),
    Row("repack be u4", &[0x1f], b"", "0: padding not zero", 4),
    Row("repack le u4,a", &[0xf1], b"", "2: padding not zero", 4),
    Row("repack le u4", &[0x0f], &[0x0f], "", 0),
    // Padding that is not zero is reported before the byte left over, and after bits that ended.
    Row("repack be u7", &[0x01, 0x00], b"", "0: padding not zero", 4),
    Row("repack be p9", &[0x80], b"", "1: bits ended", 4),
    Row("repack be p130,u6", &[0x00; 17], &[0x00; 17], "", 0),
    Row("repack be p136", &[0xff; 16], b"", "1: bits ended", 4),
    Row(
        "repack be p128,p8",
        PAST_WORD,
        b"",
        "2: padding not zero",
        4,
    ),
    Row("repack be p136", PAST_WORD, b"", "1: padding not zero", 4),
    Row("repack xe u8", b"1", b"", "0: bad arguments", 2),
    Row("repack be u129", b"1", b"", "1: bad layout", 2),
    Row(
        "repack be i8,n1,a,b1",
        &[0xff, 0x08, 0x2a],
        &[0xff, 0x08, 0x2a],
        "",
        0,
    ),
];

/// 128 zeros, and then some bits that are not all 0.
const PAST_WORD: &[u8] = &[0, 0, 0, 0, 0, 0, 0, 0, 0, 0, 0, 0, 0, 0, 0, 0, 0x01];
