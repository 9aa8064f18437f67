//! Plays of a row's calls over a stream.
use crate::answer::{error_name, is_done, is_number};
use crate::call::{Call, number};
use crate::form::{Form, Whence};
use crate::memory::Memory;
use crate::objection::{Difference, Objection, agrees};
use crate::reads::read_call;
use crate::row::{Kind, Layer, Order, Row};
use crate::sinks::{Recorder, call_sink, sink_call};
use crate::whole::{read_whole, write_whole};
use bitstream_io::{
    BE, BitReader, BitRecorder, BitWrite, BitWriter, BitsWritten, ByteReader, ByteWriter,
    Endianness, Error, LE, SeekSource, Slice, SliceReader, Source, Target,
};
use std::alloc::Global;
use std::io::{ErrorKind, Read, Seek, SeekFrom};
use test_streams::{Count, Refuse, Short};

/// The first request that a stream fails. The stream fails each later request too.
#[derive(Clone, Copy, Drop)]
pub struct Fault {
    /// The number of requests that the stream serves before it.
    pub served: u32,
    /// The kind of the I/O error.
    pub kind: ErrorKind,
    /// The index of the call that makes the request.
    pub call: usize,
    /// True if the request is a seek.
    pub seeks: bool,
}

/// The behavior of the stream of a play.
#[derive(Clone, Copy, Drop)]
pub enum Way {
    /// The stream moves all bytes of a request at once.
    Plain,
    /// The stream is the library's own source of bytes in memory.
    Slice,
    /// The stream has short reads and writes of one byte.
    Short,
    /// The stream fails this request and each later one.
    Refused(Fault),
    /// There is no stream: the library's reader of bytes in memory reads them, up to the first call
    /// that needs more bits.
    Cut(usize),
}

impl Fault {
    /// Returns the result of the call whose request fails.
    fn answer(self, kind: Kind) -> &'static str {
        match (kind, self.kind) {
            (Kind::Read, ErrorKind::UnexpectedEof) if !self.seeks => "EndOfInput",
            _ => self.answer_of_seek(),
        }
    }

    /// Returns the result of a call whose seek fails, or whose bytes are not taken.
    fn answer_of_seek(self) -> &'static str {
        match self.kind {
            ErrorKind::OutOfMemory => "OutOfMemory",
            kind => error_name(&Error::Stream(kind)),
        }
    }

    /// Returns the result of a call after the failed one. On a reader or writer of bits, it is
    /// `Failed`; a call that seeks gets the I/O error again. On a reader or writer of bytes, it is
    /// the I/O error again, unless the call makes no request.
    fn later_answer<'a>(self, row: &Row<'_>, call: &Call<'a>) -> &'a str {
        match row.layer {
            Layer::Bits if call.recovers() => self.answer_of_seek(),
            Layer::Bits => call.answer_of_failed(row.kind),
            Layer::Bytes if call.moves_bytes() => self.answer(row.kind),
            Layer::Bytes => call.answer,
        }
    }
}

impl Way {
    /// Returns the result of a call of a row on this stream. Before the failed call, it is the row's
    /// result. For the failed call, it is the I/O error. After it, it is `later_answer`.
    fn answer<'a>(self, row: &Row<'_>, at: usize, call: &Call<'a>) -> &'a str {
        match self {
            Way::Refused(fault) if at == fault.call => fault.answer(row.kind),
            Way::Refused(fault) if fault.call < at => fault.later_answer(row, call),
            Way::Cut(last) if at == last => "EndOfInput",
            Way::Cut(last) if last < at => call.answer_of_failed(row.kind),
            _ => call.answer,
        }
    }

    /// Returns the difference to report if a result is wrong.
    fn difference(self) -> Difference {
        match self {
            Way::Plain => Difference::Answer,
            Way::Slice => Difference::Sliced,
            Way::Short => Difference::Short,
            Way::Refused(_) => Difference::Refused,
            Way::Cut(_) => Difference::InMemory,
        }
    }
}

/// The effect of a play on its stream.
#[derive(Clone, Copy, Drop)]
pub struct Moved {
    /// The number of requests.
    pub requests: u64,
    /// The number of failed requests.
    pub refused: u64,
    /// The index of the current byte of a stream that is read, or the number of bytes handed on.
    pub bytes: usize,
}

/// A reader or writer on which calls are made.
trait Stage {
    /// Makes a call, and returns true if the result is the expected one.
    fn call(&mut self, alloc: Global, call: &Call<'_>, want: &str) -> Result<bool, Objection>;
}

/// Makes a call that seeks or asks for the place. Makes every other call by `read_call`.
macro_rules! stage_with_places {
    ($self:ident, $alloc:ident, $call:ident, $want:ident) => {
        match $call.form {
            Form::Cursor => Ok($want == "ok"),
            Form::Place => Ok(is_number($want, $self.position_in_bits())),
            Form::PlaceIs(place) => Ok(matches!($self.position_in_bits(), Ok(at) if at == place)),
            Form::Seek(whence) => {
                let to = target(whence, $call.value)?;
                Ok(is_number($want, $self.seek_bits(to)))
            }
            _ => read_call($alloc, $self, $call, $want),
        }
    };
}

impl<R: SeekSource, E: Endianness> Stage for BitReader<R, E> {
    fn call(&mut self, alloc: Global, call: &Call<'_>, want: &str) -> Result<bool, Objection> {
        stage_with_places!(self, alloc, call, want)
    }
}

/// The place of a seek, in bits.
fn target(whence: Whence, value: &str) -> Result<SeekFrom, Objection> {
    match whence {
        Whence::Start => Ok(SeekFrom::Start(number(value)?)),
        Whence::End => Ok(SeekFrom::End(number(value)?)),
        Whence::Current => Ok(SeekFrom::Current(number(value)?)),
    }
}

impl<E: Endianness> Stage for SliceReader<'_, E> {
    fn call(&mut self, alloc: Global, call: &Call<'_>, want: &str) -> Result<bool, Objection> {
        stage_with_places!(self, alloc, call, want)
    }
}

impl<W: Target, E: Endianness> Stage for BitWriter<W, E> {
    fn call(&mut self, alloc: Global, call: &Call<'_>, want: &str) -> Result<bool, Objection> {
        sink_call(alloc, self, call, want)
    }
}

impl<R: Source, E: Endianness> Stage for ByteReader<R, E> {
    fn call(&mut self, alloc: Global, call: &Call<'_>, want: &str) -> Result<bool, Objection> {
        read_whole(alloc, self, call, want)
    }
}

impl<W: Target, E: Endianness> Stage for ByteWriter<W, E> {
    fn call(&mut self, alloc: Global, call: &Call<'_>, want: &str) -> Result<bool, Objection> {
        Ok(is_done(want, &write_whole(alloc, self, call)?))
    }
}

/// Makes calls of a row.
fn make_calls<S: Stage>(
    alloc: Global,
    stage: &mut S,
    row: &Row<'_>,
    calls: &[Call<'_>],
    way: Way,
) -> Result<(), Objection> {
    for (at, call) in calls.iter().enumerate() {
        let same = stage.call(alloc, call, way.answer(row, at, call))?;
        agrees(same, way.difference())?;
    }
    Ok(())
}

/// Returns the stream with a behavior.
fn stream_of<S>(inner: S, way: Way) -> Count<Refuse<Short<S>>> {
    let short = matches!(way, Way::Short);
    let (left, kind) = match way {
        Way::Refused(fault) => (Some(fault.served), fault.kind),
        _ => (None, ErrorKind::Other),
    };
    Count {
        inner: Refuse {
            inner: Short { inner, short },
            left,
            once: false,
            kind,
        },
        requests: 0,
        refused: 0,
    }
}

/// Makes read calls on a stream, by a reader of the row's layer.
fn read_stream<R: Read + Seek, E: Endianness + Drop>(
    alloc: Global,
    stream: &mut R,
    row: &Row<'_>,
    calls: &[Call<'_>],
    way: Way,
) -> Result<(), Objection> {
    match row.layer {
        Layer::Bits => make_calls(alloc, &mut BitReader::<_, E>::new(stream), row, calls, way),
        Layer::Bytes => make_calls(alloc, &mut ByteReader::<_, E>::new(stream), row, calls, way),
    }
}

/// Makes read calls on a row's bytes.
fn read_bytes<E: Endianness + Drop>(
    alloc: Global,
    row: &Row<'_>,
    calls: &[Call<'_>],
    way: Way,
) -> Result<Moved, Objection> {
    let bytes = row.bytes.as_slice();
    let mut memory = match way {
        Way::Slice => Memory::Slice(Slice::new(bytes)),
        _ => Memory::cursor(bytes, calls)?,
    };
    let mut stream = stream_of(&mut memory, way);
    read_stream::<_, E>(alloc, &mut stream, row, calls, way)?;
    let (requests, refused) = (stream.requests, stream.refused);
    Ok(Moved {
        requests,
        refused,
        bytes: memory.position(),
    })
}

/// Makes the read calls of a row on bytes in memory. The call at the index `last` is the first that
/// needs more bits. Returns the number of bits read.
fn read_memory<E: Endianness>(
    alloc: Global,
    row: &Row<'_>,
    bytes: &[u8],
    last: usize,
) -> Result<u64, Objection> {
    let mut reader = SliceReader::<E>::over(bytes);
    make_calls(alloc, &mut reader, row, &row.calls, Way::Cut(last))?;
    Ok(reader.bits_read())
}

/// Makes the read calls of a row on bytes in memory, in the row's order.
pub fn play_memory(
    alloc: Global,
    row: &Row<'_>,
    bytes: &[u8],
    last: usize,
) -> Result<u64, Objection> {
    match row.order {
        Order::Big => read_memory::<BE>(alloc, row, bytes, last),
        Order::Little => read_memory::<LE>(alloc, row, bytes, last),
    }
}

/// Makes write calls on a counter and on a recorder. Objects if their bits differ from the bits of a
/// writer, which wrote these whole bytes.
fn write_beside<E: Endianness + Drop>(
    alloc: Global,
    calls: &[Call<'_>],
    written: &[u8],
) -> Result<(), Objection> {
    let mut counter = BitsWritten::<u32>::new();
    let mut recorder: Recorder<E> = BitRecorder::new(alloc);
    call_sink(alloc, &mut counter, calls, Difference::Beside)?;
    call_sink(alloc, &mut recorder, calls, Difference::Beside)?;
    let bits = counter.written();
    let recorded = matches!(recorder.written_checked(), Ok(recorded) if recorded == bits);
    let counted = (bits / 8) as usize == written.len();
    let mut played: Vec<u8> = Vec::new(alloc);
    let answer = recorder.playback(&mut BitWriter::<_, E>::new(&mut played));
    let same = is_done("ok", &answer) && played.as_slice() == written;
    agrees(recorded && same && counted, Difference::Beside)
}

/// Makes write calls on a writer of bits, and also on a counter and on a recorder if its stream serves
/// all requests at once. Returns the number of requests that the writer made, and how many of them
/// failed.
fn write_bits<E: Endianness + Drop>(
    alloc: Global,
    written: &mut Vec<u8>,
    row: &Row<'_>,
    calls: &[Call<'_>],
    way: Way,
) -> Result<(u64, u64), Objection> {
    let mut stream = stream_of(&mut *written, way);
    let mut writer = BitWriter::<_, E>::new(&mut stream);
    make_calls(alloc, &mut writer, row, calls, way)?;
    let moved = (stream.requests, stream.refused);
    if matches!(way, Way::Plain) {
        write_beside::<E>(alloc, calls, written.as_slice())?;
    }
    Ok(moved)
}

/// Makes write calls on a writer of bytes. Returns the number of requests that they made, and how many
/// of them failed.
fn write_whole_bytes<E: Endianness>(
    alloc: Global,
    written: &mut Vec<u8>,
    row: &Row<'_>,
    calls: &[Call<'_>],
    way: Way,
) -> Result<(u64, u64), Objection> {
    let mut stream = stream_of(written, way);
    let mut writer = ByteWriter::<_, E>::new(&mut stream);
    make_calls(alloc, &mut writer, row, calls, way)?;
    Ok((stream.requests, stream.refused))
}

/// Makes write calls, and objects if the bytes written are not a prefix of the row's bytes.
fn write_bytes<E: Endianness + Drop>(
    alloc: Global,
    row: &Row<'_>,
    calls: &[Call<'_>],
    way: Way,
) -> Result<Moved, Objection> {
    let mut written: Vec<u8> = Vec::new(alloc);
    let (requests, refused) = match row.layer {
        Layer::Bits => write_bits::<E>(alloc, &mut written, row, calls, way)?,
        Layer::Bytes => write_whole_bytes::<E>(alloc, &mut written, row, calls, way)?,
    };
    let begins = row.bytes.starts_with(written.as_slice());
    agrees(begins, Difference::Bytes)?;
    Ok(Moved {
        requests,
        refused,
        bytes: written.len(),
    })
}

/// Makes calls on a stream of the row's layer, kind, order and bytes.
pub fn play(
    alloc: Global,
    row: &Row<'_>,
    calls: &[Call<'_>],
    way: Way,
) -> Result<Moved, Objection> {
    match (row.kind, row.order) {
        (Kind::Read, Order::Big) => read_bytes::<BE>(alloc, row, calls, way),
        (Kind::Read, Order::Little) => read_bytes::<LE>(alloc, row, calls, way),
        (Kind::Write, Order::Big) => write_bytes::<BE>(alloc, row, calls, way),
        (Kind::Write, Order::Little) => write_bytes::<LE>(alloc, row, calls, way),
    }
}
