//! The examples of the doc comments and of the front page, made by `.ci/examples` and compared by the
//! gate: to change one, change it in its doc comment or page.
use crate::asserts::{are, holds, same};

#[test]
fn example_of_bit_count(rt: HostRuntime) {
    use bitstream_io::{BitCount, Count};

    let count = BitCount::<8>::new::<5>();
    same(
        &rt,
        count.checked_add::<16>(11).map(|sum| sum.bits()),
        Some(16),
    );
    same(&rt, count.checked_add::<16>(12).map(|sum| sum.bits()), None);
    let range = count.range::<u8>();
    same(&rt, (*range.start(), *range.end()), (0, 31));
}

#[test]
fn example_of_checked(rt: HostRuntime) {
    use bitstream_io::{BitCount, CheckedError, CheckedUnsigned};

    let count = BitCount::<8>::new::<3>();
    let value = CheckedUnsigned::new(count, 7u8);
    same(&rt, value.map(|v| v.into_value()).ok(), Some(7));
    let value = CheckedUnsigned::new(count, 8u8);
    holds(&rt, matches!(value, Err(CheckedError::ExcessiveValue)));
}

#[test]
fn example_of_lsb_mask(rt: HostRuntime) {
    use bitstream_io::BitCount;

    let (high, low) = BitCount::<8>::new::<3>().mask_lsb::<u8>().split(222);
    same(&rt, high, 27);
    same(&rt, low.into_value(), 6);
}

#[test]
fn example_of_signed_bit_count(rt: HostRuntime) {
    use bitstream_io::{SignedBitCount, SignedCount};

    let count = SignedBitCount::<8>::new::<4>();
    let range = count.range::<i8>();
    same(&rt, (*range.start(), *range.end()), (-8, 7));
    same(&rt, count.checked_sub::<8>(4).map(|left| left.bits()), None);
}

#[test]
fn example_of_crc32_more(rt: HostRuntime) {
    use bitstream_format::checks::crc32_more;

    let first = crc32_more(u32::MAX, b"1234");
    same(&rt, crc32_more(first, b"56789") ^ u32::MAX, 0xcbf4_3926);
}

#[test]
fn example_of_sum_of(rt: HostRuntime) {
    use bitstream_format::checksums::Crc32Mpeg;
    use bitstream_format::summed::{sum_of, summing_writer};
    use bitstream_io::{BE, BitWrite};

    let mut writer = summing_writer::<BE, Crc32Mpeg>();
    writer.write_unsigned_var(4, 3u8).expect(&rt, "no error");
    writer.write_unsigned_var(4, 1u8).expect(&rt, "no error");
    writer.write_bytes(b"23456789").expect(&rt, "no error");
    same(&rt, sum_of(writer), 0x0376_e6e7);
}

#[test]
fn example_of_read_until(rt: HostRuntime) {
    use bitstream_format::until::read_until;
    use bitstream_io::{BE, BitReader};

    let mut reader = BitReader::<_, BE>::over(b"boot\0next");
    let name = read_until(&mut reader, rt.alloc(), 0).expect(&rt, "no error");
    are(&rt, name.as_slice(), b"boot".as_slice());
}

#[test]
fn example_of_read_varint(rt: HostRuntime) {
    use bitstream_format::varint::read_varint;
    use bitstream_io::{BE, BitReader};

    let mut reader = BitReader::<_, BE>::over(&[
        0x9d, 0x7f, 0x3e, 0x7d, 0x7b, 0xbd, 0x25, 0x40, 0x25,
    ]);
    same(
        &rt,
        read_varint(&mut reader).expect(&rt, "no error"),
        494_878_333,
    );
    same(
        &rt,
        read_varint(&mut reader).expect(&rt, "no error"),
        15_293,
    );
    same(&rt, read_varint(&mut reader).expect(&rt, "no error"), 37);
    same(&rt, read_varint(&mut reader).expect(&rt, "no error"), 37);
}

#[test]
fn example_of_blockwise(rt: HostRuntime) {
    use bitstream_io::{BE, BitWrite, BitWriter, Blockwise};

    let file = Vec::new(rt.alloc());
    let mut writer = BitWriter::<_, BE>::new(Blockwise::new(rt.alloc(), file).expect(
        &rt, "no error",
    ));
    writer
        .write_unsigned_var(12, 0xb1e_u16)
        .expect(&rt, "no error");
    writer.byte_align().expect(&rt, "no error");
    writer.flush().expect(&rt, "no error");
    are(
        &rt,
        writer.into_writer().get_ref().as_slice(),
        [0xb1, 0xe0].as_slice(),
    );
}

#[test]
fn example_of_buffered(rt: HostRuntime) {
    use bitstream_io::{BE, BitRead, BitReader, Buffered};
    use std::io::BufReader;

    let file = BufReader::new(rt.alloc(), [0xb1, 0xed].as_slice()).expect(&rt, "no error");
    let mut reader = BitReader::<_, BE>::new(Buffered::new(file));
    same(
        &rt,
        reader.read_unsigned_var::<u16>(12).expect(&rt, "no error"),
        0xb1e,
    );
}

#[test]
fn example_of_bit_read2(rt: HostRuntime) {
    use bitstream_io::{BE, BitRead2, BitReader, Error};

    let mut reader = BitReader::<_, BE>::new([0xb1, 0xed, 0x3b, 0xc1].as_slice());
    for (bits, value) in [(2, 2), (3, 6), (5, 7), (3, 5), (19, 342977)] {
        same(&rt, reader.read::<u32>(bits).expect(&rt, "no error"), value);
    }
    holds(&rt, matches!(reader.read::<u32>(1), Err(Error::EndOfInput)));
}

#[test]
fn example_of_bit_write2(rt: HostRuntime) {
    use bitstream_io::{BE, BitWrite2, BitWriter, Bits};

    let mut writer = BitWriter::<_, BE>::new(Vec::new(rt.alloc()));
    writer.write_out::<Bits<4>, u8>(10).expect(&rt, "no error");
    writer
        .write_unsigned_out::<Bits<2>, u8>(2)
        .expect(&rt, "no error");
    writer
        .write_signed_out::<Bits<2>, i8>(-1)
        .expect(&rt, "no error");
    writer.write_unary0(3).expect(&rt, "no error");
    writer.write_unsigned(4, 5u8).expect(&rt, "no error");
    are(
        &rt,
        writer.into_writer().as_slice(),
        [0xab, 0xe5].as_slice(),
    );
}

#[test]
fn example_of_read_ue(rt: HostRuntime) {
    use bitstream_io::golomb::{read_se, read_ue};
    use bitstream_io::{BE, BitReader};

    // 1, 010, 00100 and 011
    let mut reader = BitReader::<_, BE>::over(&[0xa2, 0x30]);
    let numbers = [
        read_ue(&mut reader).expect(&rt, "no error"),
        read_ue(&mut reader).expect(&rt, "no error"),
        read_ue(&mut reader).expect(&rt, "no error"),
    ];
    same(&rt, numbers, [0, 1, 3]);
    same(&rt, read_se(&mut reader).expect(&rt, "no error"), -1);
}

#[test]
fn example_of_front(rt: HostRuntime) {
    use bitstream_io::{BE, BitReadExt, BitReader, Bits};

    let bytes = [0xbe, 0xff, 0xff, 0x80];
    let mut reader = BitReader::<_, BE>::over(&bytes);
    let kind = reader.read::<Bits<3>, u8>().expect(&rt, "no error");
    let level = reader.read::<Bits<5>, i8>().expect(&rt, "no error");
    let size: u32 = reader.read_var(17).expect(&rt, "no error");
    same(&rt, (kind, level, size), (5, -2, 131071));
}

#[test]
fn example_of_symbol_table(rt: HostRuntime) {
    use bitstream_io::{BE, ReadSymbols, SliceReader, SymbolTable};
    use bitstream_io::huffman::HuffmanTree;

    let alloc = rt.alloc();
    let end = HuffmanTree::node(
        HuffmanTree::leaf(alloc, 'b').expect(&rt, "no error"),
        HuffmanTree::leaf(alloc, 'c').expect(&rt, "no error"),
    )
    .expect(&rt, "no error");
    let tree = HuffmanTree::node(HuffmanTree::leaf(alloc, 'a').expect(&rt, "no error"), end).expect(
        &rt, "no error",
    );
    let table = SymbolTable::of(alloc, &tree).expect(&rt, "no error");
    let mut reader = SliceReader::<BE>::over(&[0x98]);
    let mut symbols = ['a'; 3];
    reader
        .read_symbols(&table, &mut symbols)
        .expect(&rt, "no error");
    same(&rt, symbols, ['b', 'a', 'c']);
    same(&rt, reader.bits_read(), 5);
}

#[test]
fn example_of_read_symbols(rt: HostRuntime) {
    use bitstream_io::{BitReader, Error, LE, ReadSymbols, SymbolTable};
    use bitstream_io::huffman::HuffmanTree;

    let alloc = rt.alloc();
    let tree = HuffmanTree::node(
        HuffmanTree::leaf(alloc, 7u8).expect(&rt, "no error"),
        HuffmanTree::leaf(alloc, 9).expect(&rt, "no error"),
    )
    .expect(&rt, "no error");
    let table = SymbolTable::of(alloc, &tree).expect(&rt, "no error");
    let mut reader = BitReader::<_, LE>::new([0x0b].as_slice());
    same(&rt, reader.read_symbol(&table).expect(&rt, "no error"), 9);
    let mut symbols = [0; 4];
    reader
        .read_symbols(&table, &mut symbols)
        .expect(&rt, "no error");
    same(&rt, symbols, [9, 7, 9, 7]);
    holds(
        &rt,
        matches!(
            reader.read_symbols(&table, &mut symbols),
            Err(Error::EndOfInput)
        ),
    );
}

#[test]
fn example_of_indexed_words(rt: HostRuntime) {
    use bitstream_io::{BE, BitWrite, BitWriteExt, BitWriter, IndexedWords};
    use bitstream_io::huffman::HuffmanTree;

    let alloc = rt.alloc();
    let end = HuffmanTree::node(
        HuffmanTree::leaf(alloc, 1u8).expect(&rt, "no error"),
        HuffmanTree::leaf(alloc, 2).expect(&rt, "no error"),
    )
    .expect(&rt, "no error");
    let tree = HuffmanTree::node(HuffmanTree::leaf(alloc, 0).expect(&rt, "no error"), end).expect(
        &rt, "no error",
    );
    let words = IndexedWords::of(alloc, &tree, 2).expect(&rt, "no error");
    let mut writer = BitWriter::<_, BE>::new(Vec::new(alloc));
    writer.write_huffman(&words, 1).expect(&rt, "no error");
    writer.write_huffman(&words, 0).expect(&rt, "no error");
    writer.write_huffman(&words, 2).expect(&rt, "no error");
    writer.byte_align().expect(&rt, "no error");
    are(&rt, writer.into_writer().as_slice(), [0x98].as_slice());
}

#[test]
fn example_of_unsigned_integer(rt: HostRuntime) {
    use bitstream_io::UnsignedInteger;

    same(&rt, UnsignedInteger::checked_shl(3u8, 7), Some(128));
    same(&rt, UnsignedInteger::checked_shl(3u8, 8), None);
    same(&rt, UnsignedInteger::shl_default(3u8, 8), 0);
}

#[test]
fn example_of_growing(rt: HostRuntime) {
    use bitstream_io::{BE, BitWrite, BitWriter, Growing};

    let mut writer = BitWriter::<_, BE>::new(Growing::new(Vec::new(rt.alloc())));
    writer
        .write_unsigned_var(12, 0xb1e_u16)
        .expect(&rt, "no error");
    writer.byte_align().expect(&rt, "no error");
    are(
        &rt,
        writer.into_writer().as_slice(),
        [0xb1, 0xe0].as_slice(),
    );
}

#[test]
fn example_of_lent(rt: HostRuntime) {
    use bitstream_io::{BE, BitRead, BitReader, Lent};

    let mut bytes: &[u8] = &[0x12, 0x34];
    let mut reader = BitReader::<_, BE>::new(Lent::new(&mut bytes));
    same(
        &rt,
        reader.read_unsigned_var::<u8>(4).expect(&rt, "no error"),
        1,
    );
    same(&rt, bytes, [0x34].as_slice());
}

#[test]
fn example_of_slice(rt: HostRuntime) {
    use bitstream_io::{BE, BitRead, BitReader, Error};

    let mut reader = BitReader::<_, BE>::over(&[0xb1, 0xed]);
    same(
        &rt,
        reader.read_unsigned_var::<u16>(12).expect(&rt, "no error"),
        0xb1e,
    );
    holds(
        &rt,
        matches!(reader.read_unsigned_var::<u8>(8), Err(Error::EndOfInput)),
    );
}

#[test]
fn example_of_slice_mut(rt: HostRuntime) {
    use bitstream_io::{BE, BitWrite, BitWriter};

    let mut buffer = [0u8; 4];
    let mut writer = BitWriter::<_, BE>::over(&mut buffer);
    writer
        .write_unsigned_var(12, 0xb1e_u16)
        .expect(&rt, "no error");
    writer.byte_align().expect(&rt, "no error");
    let packed = writer.into_writer();
    are(&rt, packed.as_slice(), [0xb1, 0xe0].as_slice());
    same(&rt, packed.free(), 2);
}

#[test]
fn example_of_bit_counter(rt: HostRuntime) {
    use bitstream_io::{BE, BitCounter, BitWrite};

    let mut counter = BitCounter::<u8, BE>::new();
    counter
        .write_signed_var::<i8>(4, -3)
        .expect(&rt, "no error");
    counter.write_bit(true).expect(&rt, "no error");
    same(&rt, counter.into_written(), 5);
}

#[test]
fn example_of_bit_recorder(rt: HostRuntime) {
    use bitstream_io::{BE, BitRecorder, BitWrite, BitWriter, Growing};

    let mut recorder = BitRecorder::<u32, BE, _>::new(rt.alloc());
    recorder
        .write_unsigned_var(12, 0xb1e_u16)
        .expect(&rt, "no error");
    let bits = recorder.written_checked().expect(&rt, "no error");
    let mut writer = BitWriter::<_, BE>::new(Growing::new(Vec::new(rt.alloc())));
    writer.write_unsigned_var(4, bits).expect(&rt, "no error");
    recorder.playback(&mut writer).expect(&rt, "no error");
    are(
        &rt,
        writer.into_writer().as_slice(),
        [0xcb, 0x1e].as_slice(),
    );
}

#[test]
fn example_of_bits_written(rt: HostRuntime) {
    use bitstream_io::{BitWrite, BitsWritten, Bits};

    let mut counter = BitsWritten::<u16>::new();
    counter.write_unsigned_var(3, 5u8).expect(&rt, "no error");
    counter.write_unary::<Bits<0>>(2).expect(&rt, "no error");
    counter.byte_align().expect(&rt, "no error");
    counter.write_bytes(&[1, 2]).expect(&rt, "no error");
    same(&rt, counter.written(), 24);
}

#[test]
fn example_of_byte_read(rt: HostRuntime) {
    use bitstream_io::{BE, ByteRead, ByteReader, Error, LE, Slice};

    let mut reader = ByteReader::<_, BE>::new(Slice::new(&[0xb1, 0xed, 0x3b, 0xc1]));
    same(&rt, reader.read::<u16>().expect(&rt, "no error"), 0xb1ed);
    same(
        &rt,
        reader.read_as::<LE, u16>().expect(&rt, "no error"),
        0xc13b,
    );
    holds(&rt, matches!(reader.read::<u8>(), Err(Error::EndOfInput)));
}

#[test]
fn example_of_byte_reader(rt: HostRuntime) {
    use bitstream_io::{ByteRead, ByteReader, LE, Slice};

    let mut reader = ByteReader::<_, LE>::new(Slice::new(&[0x01, 0x02, 0x03, 0x04, 0x05]));
    same(&rt, reader.read::<u16>().expect(&rt, "no error"), 0x0201);
    reader.skip(1).expect(&rt, "no error");
    same(
        &rt,
        reader.read_to_bytes::<[u8; 2]>().expect(&rt, "no error"),
        [0x04, 0x05],
    );
}

#[test]
fn example_of_byte_write(rt: HostRuntime) {
    use bitstream_io::{BE, ByteWrite, ByteWriter, LE};

    let mut writer = ByteWriter::<_, BE>::new(Vec::new(rt.alloc()));
    writer.write_as::<LE, u16>(1).expect(&rt, "no error");
    writer.pad(3).expect(&rt, "no error");
    are(
        &rt,
        writer.into_writer().as_slice(),
        [1, 0, 0, 0, 0].as_slice(),
    );
}

#[test]
fn example_of_byte_writer(rt: HostRuntime) {
    use bitstream_io::{ByteWrite, ByteWriter, LE};

    let mut writer = ByteWriter::<_, LE>::new(Vec::new(rt.alloc()));
    writer.write(0x0201_u16).expect(&rt, "no error");
    writer.write_bytes(&[3, 4]).expect(&rt, "no error");
    are(
        &rt,
        writer.into_writer().as_slice(),
        [1, 2, 3, 4].as_slice(),
    );
}

#[test]
fn example_of_bit_read(rt: HostRuntime) {
    use bitstream_io::{BE, BitCount, BitRead, BitReader, Bits, Error};

    let mut reader = BitReader::<_, BE>::new([0x7e, 0x58].as_slice());
    reader
        .read_const::<Bits<4>, Bits<7>, Error>(Error::NoSignBit)
        .expect(&rt, "no error");
    same(
        &rt,
        reader.read_signed::<Bits<4>, i32>().expect(&rt, "no error"),
        -2,
    );
    let last = reader.read_count::<BitCount<7>>().expect(&rt, "no error");
    same(
        &rt,
        reader
            .read_unsigned_counted::<_, u8>(last)
            .expect(&rt, "no error"),
        3,
    );
    reader.byte_align();
    holds(&rt, matches!(reader.read_bit(), Err(Error::EndOfInput)));
    holds(&rt, matches!(reader.read_bit(), Err(Error::Failed)));
}

#[test]
fn example_of_bit_place(rt: HostRuntime) {
    use bitstream_io::read::bit_place;
    use std::io::SeekFrom;

    same(&rt, bit_place(4, 0, SeekFrom::End(7)), Some(25));
    same(&rt, bit_place(4, 3, SeekFrom::Current(-30)), None);
}

#[test]
fn example_of_bit_reader(rt: HostRuntime) {
    use bitstream_io::{BE, BitRead, BitReader, Bits, Error, Slice};

    let mut reader = BitReader::<_, BE>::new(Slice::new(&[0xb1, 0xed]));
    let kind: u8 = reader.read_unsigned::<Bits<2>, _>().expect(&rt, "no error");
    let level: i8 = reader.read_signed_var(3).expect(&rt, "no error");
    same(&rt, kind, 2);
    same(&rt, level, -2);
    reader.byte_align();
    same(
        &rt,
        reader.read_unsigned_var::<u8>(8).expect(&rt, "no error"),
        0xed,
    );
    holds(&rt, matches!(reader.read_bit(), Err(Error::EndOfInput)));
}

#[test]
fn example_of_bit_reader_seek_bits(rt: HostRuntime) {
    use bitstream_io::{BE, BitRead, BitReader, Error};
    use std::io::{Cursor, SeekFrom};

    let bytes = Cursor::new([0xb1, 0xed, 0x3b, 0xc1].as_slice());
    let mut reader = BitReader::<_, BE>::new(bytes);
    same(
        &rt,
        reader.seek_bits(SeekFrom::End(7)).expect(&rt, "no error"),
        25,
    );
    same(
        &rt,
        reader.read_unsigned_var::<u8>(7).expect(&rt, "no error"),
        0x41,
    );
    same(
        &rt,
        reader
            .seek_bits(SeekFrom::Current(-24))
            .expect(&rt, "no error"),
        8,
    );
    same(
        &rt,
        reader.read_unsigned_var::<u8>(8).expect(&rt, "no error"),
        0xed,
    );
    holds(
        &rt,
        matches!(reader.seek_bits(SeekFrom::Current(-17)), Err(Error::Place)),
    );
    same(&rt, reader.position_in_bits().expect(&rt, "no error"), 16);
}

#[test]
fn example_of_slice_reader(rt: HostRuntime) {
    use bitstream_io::{BE, BitRead, Error, SliceReader};

    let mut reader = SliceReader::<BE>::over(&[0xb1, 0xed, 0x3b]);
    same(
        &rt,
        reader.read_unsigned_var::<u16>(12).expect(&rt, "no error"),
        0xb1e,
    );
    same(&rt, (reader.bits_read(), reader.bits_left()), (12, 12));
    same(&rt, reader.rest(), [0x3b].as_slice());
    holds(
        &rt,
        matches!(reader.read_unsigned_var::<u16>(13), Err(Error::EndOfInput)),
    );
}

#[test]
fn example_of_slice_reader_seek_bits(rt: HostRuntime) {
    use bitstream_io::{BE, BitRead, Error, SliceReader};
    use std::io::SeekFrom;

    let mut reader = SliceReader::<BE>::over(&[0xb1, 0xed, 0x3b, 0xc1]);
    same(
        &rt,
        reader.seek_bits(SeekFrom::End(7)).expect(&rt, "no error"),
        25,
    );
    same(
        &rt,
        reader.read_unsigned_var::<u8>(7).expect(&rt, "no error"),
        0x41,
    );
    holds(&rt, matches!(reader.read_bit(), Err(Error::EndOfInput)));
    same(
        &rt,
        reader.seek_bits(SeekFrom::Start(8)).expect(&rt, "no error"),
        8,
    );
    same(
        &rt,
        reader.read_unsigned_var::<u8>(8).expect(&rt, "no error"),
        0xed,
    );
    holds(
        &rt,
        matches!(reader.seek_bits(SeekFrom::Current(17)), Err(Error::Place)),
    );
    same(&rt, reader.position_in_bits().expect(&rt, "no error"), 16);
}

#[test]
fn example_of_bit_write(rt: HostRuntime) {
    use bitstream_io::{BE, BitCount, BitWrite, BitWriter, Bits};

    let mut writer = BitWriter::<_, BE>::new(Vec::new(rt.alloc()));
    let count = BitCount::<7>::new::<2>();
    writer
        .write_const::<Bits<4>, Bits<7>>()
        .expect(&rt, "no error");
    writer
        .write_signed::<Bits<4>, i32>(-2)
        .expect(&rt, "no error");
    writer.write_count(count).expect(&rt, "no error");
    writer
        .write_unsigned_counted(count, 3u8)
        .expect(&rt, "no error");
    writer.byte_align().expect(&rt, "no error");
    are(
        &rt,
        writer.into_writer().as_slice(),
        [0x7e, 0x58].as_slice(),
    );
}

#[test]
fn example_of_code_word(rt: HostRuntime) {
    use bitstream_io::{BE, BitWrite, BitWriter};
    use bitstream_io::huffman::CodeWord;

    let mut word = CodeWord::new();
    word.push(true);
    word.push(false);
    word.push(true);
    let mut writer = BitWriter::<_, BE>::new(Vec::new(rt.alloc()));
    writer.write_code_word(word).expect(&rt, "no error");
    writer.write_code_word(word).expect(&rt, "no error");
    writer.byte_align().expect(&rt, "no error");
    are(&rt, writer.into_writer().as_slice(), [0xb4].as_slice());
}

#[test]
fn example_of_bit_writer(rt: HostRuntime) {
    use bitstream_io::{BE, BitWrite, BitWriter, Bits};

    let mut writer = BitWriter::<_, BE>::new(Vec::new(rt.alloc()));
    writer
        .write_unsigned::<Bits<4>, u8>(0xb)
        .expect(&rt, "no error");
    writer.write_signed_var::<i8>(4, -3).expect(&rt, "no error");
    writer.write_bit(true).expect(&rt, "no error");
    writer.byte_align().expect(&rt, "no error");
    are(
        &rt,
        writer.into_writer().as_slice(),
        [0xbd, 0x80].as_slice(),
    );
}

#[test]
fn example_of_checkable(rt: HostRuntime) {
    use bitstream_io::{BE, BitCount, BitReadExt, BitReader, BitWriteExt, BitWriter};
    use bitstream_io::{Checkable, CheckedUnsigned};

    let mut reader = BitReader::<_, BE>::new([0xb7].as_slice());
    let level: CheckedUnsigned<8, u8> = reader
        .read_checked(BitCount::new::<4>())
        .expect(&rt, "no error");
    same(&rt, (level.written_bits(), level.into_value()), (4, 11));
    let mut writer = BitWriter::<_, BE>::new(Vec::new(rt.alloc()));
    writer.write_checked(level).expect(&rt, "no error");
    writer.write_checked(level).expect(&rt, "no error");
    are(&rt, writer.into_writer().as_slice(), [0xbb].as_slice());
}

#[test]
fn example_of_limited_unary(rt: HostRuntime) {
    use bitstream_io::{BE, BitReadExt, BitReader};
    use bitstream_io::huffman::LimitedUnary;

    let mut reader = BitReader::<_, BE>::new([0x20].as_slice());
    let run = LimitedUnary::<1, 3> {};
    same(
        &rt,
        reader.read_huffman(&run).expect(&rt, "no error"),
        Some(2),
    );
    same(&rt, reader.read_huffman(&run).expect(&rt, "no error"), None);
}

#[test]
fn example_of_huffman_tree(rt: HostRuntime) {
    use bitstream_io::{BE, BitReadExt, BitReader};
    use bitstream_io::huffman::HuffmanTree;

    let alloc = rt.alloc();
    let end = HuffmanTree::node(
        HuffmanTree::leaf(alloc, 'b').expect(&rt, "no error"),
        HuffmanTree::leaf(alloc, 'c').expect(&rt, "no error"),
    )
    .expect(&rt, "no error");
    let tree = HuffmanTree::node(HuffmanTree::leaf(alloc, 'a').expect(&rt, "no error"), end).expect(
        &rt, "no error",
    );
    let mut reader = BitReader::<_, BE>::new([0x98].as_slice());
    same(&rt, reader.read_huffman(&tree).expect(&rt, "no error"), 'b');
    same(&rt, reader.read_huffman(&tree).expect(&rt, "no error"), 'a');
    same(&rt, reader.read_huffman(&tree).expect(&rt, "no error"), 'c');
}

#[test]
fn example_of_symbol_words(rt: HostRuntime) {
    use bitstream_io::{BE, BitWrite, BitWriteExt, BitWriter};
    use bitstream_io::huffman::HuffmanTree;

    let alloc = rt.alloc();
    let end = HuffmanTree::node(
        HuffmanTree::leaf(alloc, 'b').expect(&rt, "no error"),
        HuffmanTree::leaf(alloc, 'c').expect(&rt, "no error"),
    )
    .expect(&rt, "no error");
    let tree = HuffmanTree::node(HuffmanTree::leaf(alloc, 'a').expect(&rt, "no error"), end).expect(
        &rt, "no error",
    );
    let words = tree.words(alloc).expect(&rt, "no error");
    let mut writer = BitWriter::<_, BE>::new(Vec::new(alloc));
    writer.write_huffman(&words, 'b').expect(&rt, "no error");
    writer.write_huffman(&words, 'a').expect(&rt, "no error");
    writer.write_huffman(&words, 'c').expect(&rt, "no error");
    writer.byte_align().expect(&rt, "no error");
    are(&rt, writer.into_writer().as_slice(), [0x98].as_slice());
}

#[test]
fn example_of_huffman_tree_code_word(rt: HostRuntime) {
    use bitstream_io::{BE, BitWrite, BitWriter};
    use bitstream_io::huffman::{CodeWord, HuffmanTree};

    let alloc = rt.alloc();
    let end = HuffmanTree::node(
        HuffmanTree::leaf(alloc, 'b').expect(&rt, "no error"),
        HuffmanTree::leaf(alloc, 'c').expect(&rt, "no error"),
    )
    .expect(&rt, "no error");
    let tree = HuffmanTree::node(HuffmanTree::leaf(alloc, 'a').expect(&rt, "no error"), end).expect(
        &rt, "no error",
    );
    let mut writer = BitWriter::<_, BE>::new(Vec::new(alloc));
    writer
        .write_code_word(tree.code_word('b').unwrap_or(CodeWord::new()))
        .expect(&rt, "no error");
    writer
        .write_code_word(tree.code_word('c').unwrap_or(CodeWord::new()))
        .expect(&rt, "no error");
    writer.byte_align().expect(&rt, "no error");
    are(&rt, writer.into_writer().as_slice(), [0xb0].as_slice());
}

#[test]
fn example_of_bit_read_ext(rt: HostRuntime) {
    use bitstream_io::{BitRead, BitReadExt, BitReader, Bits, LE};
    use std::num::NonZero;

    let mut reader = BitReader::<_, LE>::new([0x0d, 0x03].as_slice());
    let flags = reader.read::<Bits<1>, [bool; 4]>().expect(&rt, "no error");
    same(&rt, flags, [true, false, true, true]);
    reader.byte_align();
    let track: Option<NonZero<u8>> = reader.read_var(2).expect(&rt, "no error");
    same(&rt, track.map(|n| n.get()), Some(3));
}

#[test]
fn example_of_bit_write_ext(rt: HostRuntime) {
    use bitstream_io::{BitWriteExt, BitWriter, Bits, LE};

    let mut writer = BitWriter::<_, LE>::new(Vec::new(rt.alloc()));
    writer
        .write::<Bits<1>, [bool; 4]>([true, false, true, true])
        .expect(&rt, "no error");
    writer.write_var::<i8>(4, -1).expect(&rt, "no error");
    are(&rt, writer.into_writer().as_slice(), [0xfd].as_slice());
}

#[test]
fn example_of_readme(rt: HostRuntime) {
    use bitstream_io::{BE, BitReadExt, BitReader, BitWrite, BitWriter, Bits};

    let bytes = [0xbe, 0xff, 0xff, 0x80];
    let mut reader = BitReader::<_, BE>::over(&bytes);
    let kind = reader.read::<Bits<3>, u8>().expect(&rt, "no error");
    let level = reader.read::<Bits<5>, i8>().expect(&rt, "no error");
    let size: u32 = reader.read_var(17).expect(&rt, "no error");
    same(&rt, (kind, level, size), (5, -2, 131071));

    let mut buffer = [0u8; 4];
    let mut writer = BitWriter::<_, BE>::over(&mut buffer);
    writer
        .write_unsigned_var(12, 0xb1e_u16)
        .expect(&rt, "no error");
    writer.byte_align().expect(&rt, "no error");
    let packed = writer.into_writer();
    are(&rt, packed.as_slice(), [0xb1, 0xe0].as_slice());
}
