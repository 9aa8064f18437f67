//! Readers and writers after a failed request.
use crate::asserts::{are, each_holds, ended, failed, gives, holds, same};
use bitstream_io::{
    BE, BitRead, BitReadExt, BitReader, BitWrite, BitWriteExt, BitWriter, Bits, Blockwise,
    Buffered, ByteRead, ByteReader, Error, Slice, SliceReader,
};
use std::alloc::Global;
use std::io::{BufReader, ErrorKind};
use test_streams::{Count, Endless, Refuse};

/// Returns true if a call returns an I/O error of this kind.
fn refused<T: Drop>(answer: Result<T, Error>, wanted: ErrorKind) -> bool {
    matches!(answer, Err(Error::Stream(kind)) if kind == wanted)
}

/// Returns true if a writer whose second byte fails has failed, even for values of 0 bits, and an array
/// of no items makes no call.
fn fails_to_write<W: BitWrite>(writer: &mut W) -> bool {
    writer.write::<Bits<8>, u8>(1).is_ok()
        & refused(writer.write::<Bits<8>, u8>(2), ErrorKind::BrokenPipe)
        & failed(writer.write::<Bits<0>, u8>(0))
        & writer.write::<Bits<8>, [u8; 0]>([]).is_ok()
}

/// Returns true if a reader whose second byte fails has failed, and is not at a byte boundary.
fn fails_to_read<R: BitRead>(alloc: Global, reader: &mut R) -> bool {
    gives(reader.read::<Bits<4>, u8>(), 11)
        & refused(reader.read::<Bits<8>, u8>(), ErrorKind::ConnectionReset)
        & !reader.byte_aligned()
        & failed(reader.read_to_vec(alloc, 0))
}

/// Reads four bytes by blocks of two, from a stream that fails once, at the second block: with a kind that std
/// asks again for if `retried` is true, and otherwise with another one. Returns true if the bits are those of the
/// bytes up to there.
fn reads_blocks(alloc: Global, retried: bool) -> bool {
    let stream = Refuse {
        inner: [0xb1, 0xed, 0x3b, 0xc1].as_slice(),
        left: Some(1),
        once: true,
        kind: if retried {
            ErrorKind::Interrupted
        } else {
            ErrorKind::ConnectionReset
        },
    };
    let Ok(file) = BufReader::with_capacity(alloc, 2, stream) else {
        return false;
    };
    let mut reader = BitReader::<_, BE>::new(Buffered::new(file));
    let first = gives(reader.read::<Bits<12>, u16>(), 0xb1e);
    let across = reader.read::<Bits<12>, u16>();
    if retried {
        first
            & gives(across, 0xd3b)
            & gives(reader.read::<Bits<8>, u8>(), 0xc1)
            & ended(reader.read_bit())
    } else {
        first & refused(across, ErrorKind::ConnectionReset) & failed(reader.read_bit())
    }
}

/// A buffered stream is read across its blocks, and reports its errors.
#[test]
fn buffered_streams_are_read_by_blocks(rt: HostRuntime) {
    holds(&rt, reads_blocks(rt.alloc(), true));
    holds(&rt, reads_blocks(rt.alloc(), false));
}

/// Writes four bytes by blocks of two, to a stream that refuses one request, the second one. Returns the bytes that
/// the stream has at the end, if the write that needs this request succeeds, or fails with the refusal's kind.
fn blocks_written(alloc: Global, kind: ErrorKind) -> Option<Vec<u8, Global>> {
    let stream = Refuse {
        inner: Vec::new(alloc),
        left: Some(1),
        once: true,
        kind,
    };
    let blocks = Blockwise::with_capacity(alloc, 2, stream).ok()?;
    let mut writer = BitWriter::<_, BE>::new(blocks);
    writer.write::<Bits<12>, u16>(0xb1e).ok()?;
    writer.write::<Bits<12>, u16>(0xd3b).ok()?;
    let last = writer.write::<Bits<8>, u8>(0xc1);
    if last.is_err() && !refused(last, kind) {
        return None;
    }
    match writer.into_writer().into_inner() {
        Ok(stream) => Some(stream.inner),
        Err(_) => None,
    }
}

/// A stream that is written by blocks is asked again after an interruption. After another error, what is held
/// is still sent.
#[test]
fn streams_are_written_by_blocks(rt: HostRuntime) {
    let interrupted = blocks_written(rt.alloc(), ErrorKind::Interrupted).unwrap_or(Vec::new(
        rt.alloc(),
    ));
    are(&rt, &interrupted, &[0xb1, 0xed, 0x3b, 0xc1]);
    let reset = blocks_written(rt.alloc(), ErrorKind::ConnectionReset).unwrap_or(Vec::new(
        rt.alloc(),
    ));
    are(&rt, &reset, &[0xb1, 0xed, 0x3b]);
}

/// A failed writer no longer lends its stream, but still returns it.
#[test]
fn r13_faults(rt: HostRuntime) {
    let mut writer = BitWriter::<_, BE>::new(Refuse {
        inner: Vec::new(rt.alloc()),
        left: Some(1),
        once: false,
        kind: ErrorKind::BrokenPipe,
    });
    holds(&rt, fails_to_write(&mut writer) & writer.writer().is_none());
    are(&rt, &writer.into_writer().inner, &[1]);
    let mut reader = BitReader::<_, BE>::new(Refuse {
        inner: [0xb1, 0xed].as_slice(),
        left: Some(1),
        once: false,
        kind: ErrorKind::ConnectionReset,
    });
    holds(&rt, fails_to_read(rt.alloc(), &mut reader));
}

/// A failed flush fails the writer, and its queued bits are lost. The first flush succeeds.
#[test]
fn a_refused_flush_fails_the_writer(rt: HostRuntime) {
    let mut writer = BitWriter::<_, BE>::new(Refuse {
        inner: Vec::new(rt.alloc()),
        left: Some(1),
        once: true,
        kind: ErrorKind::BrokenPipe,
    });
    let queued = writer.write_bit(true).is_ok();
    let flushed = writer.flush().is_ok();
    let refused = refused(writer.flush(), ErrorKind::BrokenPipe);
    let again = failed(writer.flush()) & failed(writer.byte_align());
    let kept = writer.writer().is_none() & failed(writer.aligned_writer().map(|_| ()));
    each_holds(&rt, &[queued, flushed, refused, again, kept]);
    are(&rt, &writer.into_writer().inner, &[]);
}

/// A read of a length that no stream has meets the end of input. After it, a reader of bits has failed,
/// and a reader of bytes returns the same error for each call.
#[test]
fn r14_hostile(rt: HostRuntime) {
    let bytes = [7; 10];
    let mut bits = BitReader::<_, BE>::new(Slice::new(&bytes));
    holds(&rt, ended(bits.read_to_vec(rt.alloc(), usize::MAX)));
    holds(&rt, failed(bits.read_to_vec(rt.alloc(), 0)));
    let mut whole = ByteReader::<_, BE>::new(Slice::new(&bytes));
    holds(&rt, ended(whole.read_to_vec(rt.alloc(), usize::MAX)));
    holds(&rt, whole.read_to_vec(rt.alloc(), 0).is_ok());
}

/// A call of several reads keeps the reads that succeeded: a group of 8 bits, or 4096 bytes.
#[test]
fn keeps_the_reads_before_a_failure(rt: HostRuntime) {
    let mut groups = SliceReader::<BE>::over(&[0x80]);
    let cut = ended(groups.read_unsigned_vbr::<Bits<8>, u64>());
    holds(&rt, cut & (groups.bits_read() == 8) & groups.is_at_end());
    let bytes = [7; 4500];
    let mut buffer = SliceReader::<BE>::over(&bytes);
    let short = ended(buffer.read_to_vec(rt.alloc(), 5000));
    holds(
        &rt,
        short & (buffer.bits_read() == 32768) & (buffer.bits_left() == 3232),
    );
}

/// Returns a reader over an endless stream of one byte, which counts its requests.
fn endless(byte: u8) -> BitReader<Count<Endless>, BE> {
    BitReader::new(Count {
        inner: Endless { byte },
        requests: 0,
        refused: 0,
    })
}

/// Returns true if a read stopped at a byte boundary, after the group that overflows its type, with one
/// request for each byte.
fn stopped<U: Drop>(
    answer: Result<U, Error>,
    reader: BitReader<Count<Endless>, BE>,
    requests: u64,
) -> bool {
    let passed = matches!(answer, Err(Error::VariableWidthOverflow));
    passed & reader.byte_aligned() & (reader.into_reader().requests == requests)
}

#[test]
fn r14_groups_that_never_end(rt: HostRuntime) {
    let mut reader = endless(0xff);
    let answer = reader.read_unsigned_vbr::<Bits<4>, u64>();
    holds(&rt, stopped(answer, reader, 11));
    let mut reader = endless(0xff);
    let answer = reader.read_unsigned_vbr::<Bits<8>, u64>();
    holds(&rt, stopped(answer, reader, 10));
    let mut reader = endless(0xff);
    let answer = reader.read_unsigned_vbr::<Bits<2>, u128>();
    holds(&rt, stopped(answer, reader, 32));
}

/// A run of 2^32 zeros is too long. The reader makes one request for each of its bytes.
#[test]
fn r14_a_run_that_never_ends(rt: HostRuntime) {
    let mut reader = endless(0);
    let too_long = matches!(reader.read_unary::<Bits<1>>(), Err(Error::RunTooLong));
    holds(&rt, too_long & failed(reader.read_bit()));
    same(&rt, reader.into_reader().requests, 536870912);
}
