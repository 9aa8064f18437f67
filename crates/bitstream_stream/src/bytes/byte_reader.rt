//! A reader of bytes over a stream.
ghost use Rattle.std.specs.Io.KnownBytes.{Keeps};
ghost use Rattle.std.specs.Io.Seek.{SeekMoves};
ghost use Rattle.std.specs.Prelude.{◌≡◌, length};
ghost use Rattle.bitstream_order.specs.Parts.{value_bytes};
ghost use Rattle.bitstream_order.specs.Port.{new_port_state};
ghost use Rattle.bitstream_order.specs.Moving.Gather.{result_map};
ghost use Rattle.bitstream_stream.specs.WholeBytes.ByteReads.{ByteReads, given_bytes, skipped_bytes};

use crate::bytes::byte_read::ByteRead;
use crate::piece::PIECE;
use bitstream_count::error::Error;
use bitstream_number::number::Primitive;
use bitstream_order::order::Endianness;
use bitstream_order::port::Port;
use bitstream_order::streams::seek::SeekSource;
use bitstream_order::streams::source::Source;
use std::io;
use std::io::{Seek, SeekFrom};
use std::marker::PhantomData;

mod convert;

/// Reads whole bytes from a stream, and queues none.
///
/// # Examples
///
/// ```
/// use bitstream_io::{ByteRead, ByteReader, LE, Slice};
///
/// let mut reader = ByteReader::<_, LE>::new(Slice::new(&[0x01, 0x02, 0x03, 0x04, 0x05]));
/// assert_eq!(rt; reader.read::<u16>()?, 0x0201);
/// reader.skip(1)?;
/// assert_eq!(rt; reader.read_to_bytes::<[u8; 2]>()?, [0x04, 0x05]);
/// ```
#[derive(Drop)]
pub struct ByteReader<R, E> {
    port: Port<R>,
    order: PhantomData<E>,
}

impl<R: Source, E: Endianness> ByteReader<R, E> {
    ghost use Rattle.bitstream_stream.specs.WholeBytes.ByteReader.{byte_reader_state};

    /// Returns a reader of a stream's bytes. No request is made yet.
    pub fn new(reader: R) -> ByteReader<R, E>
        ensures { ⟦<Self as ByteRead>⟧.source.state result
            ≡ byte_reader_state (new_port_state (R.stream.remaining reader) (R.stream.references reader)) }
    {
        ByteReader {
            port: Port::new(reader),
            order: PhantomData,
        }
    }

    /// Does what [`new`](ByteReader::new) does, with the order as an argument.
    pub fn endian(reader: R, _endian: E) -> ByteReader<R, E>
    where
        E: Drop,
        ensures { ⟦<Self as ByteRead>⟧.source.state result
            ≡ byte_reader_state (new_port_state (R.stream.remaining reader) (R.stream.references reader)) }
    {
        ByteReader::new(reader)
    }
}

impl<R: Source, E: Endianness> ByteRead for ByteReader<R, E> {
    ghost use Rattle.bitstream_stream.specs.WholeBytes.ByteReader.{byte_reader_source};

    ghost source = { byte_reader_source R.stream E.order };

    #[inline(always)]
    fn read<V: Primitive>(&mut self) -> Result<V, Error> {
        self.read_as::<E, V>()
    }

    #[inline(always)]
    fn read_as<F: Endianness, V: Primitive>(&mut self) -> Result<V, Error> {
        let bytes = self.read_to_bytes::<V>()?;
        Ok(F::value_of_bytes(bytes))
    }

    fn skip(&mut self, bytes: u32) -> Result<(), Error> {
        let mut skipped = [0u8; PIECE];
        let mut left = bytes as usize;
        while left > 0 {
            let piece = left.min(PIECE);
            self.read_bytes(&mut skipped[..piece])?;
            left -= piece;
        }
        Ok(())
    }

    #[inline(always)]
    fn read_bytes(&mut self, buf: &mut [u8]) -> Result<(), Error> {
        if buf.is_empty() {
            return Ok(());
        }
        self.port.fetch(buf)
    }
}

impl<R: SeekSource, E: Endianness> Seek for ByteReader<R, E> {
    ghost use Rattle.bitstream_order.specs.Port.{port_stream};
    ghost use Rattle.bitstream_order.specs.Refusal.{MayRefuseSeek};
    ghost use Rattle.bitstream_stream.specs.WholeBytes.ByteReader.{byte_reader_port, ByteSeeks};
    ghost use Rattle.bitstream_stream.specs.Ways.{byte_reader_stream};

    ghost stream_position = { λ r. R.position (port_stream r.port) };

    ghost stream_bytes = { λ r. R.bytes (port_stream r.port) };

    fn seek(&mut self, to: SeekFrom) -> io::Result<u64>
        // If the stream's position is known, the new position is the result, or is the old position
        // if the seek fails. If its bytes are known too, the result is the position that `to`
        // means.
        ensures moves { SeekMoves (R.position (byte_reader_stream self.old))
            (R.position (byte_reader_stream self.new)) (R.bytes (byte_reader_stream self.old)) to result }
        // If the stream's bytes are known, they are unchanged.
        ensures bytes { Keeps (R.bytes (byte_reader_stream self.old)) (R.bytes (byte_reader_stream self.new)) }
        // One request is made. The count of fetched bytes restarts at 0, or the error has the kind
        // of the failed request.
        ensures seeks { ByteSeeks (MayRefuseSeek R.stream R.refuses_seek to)
            (byte_reader_port R.stream self.old) result (byte_reader_port R.stream self.new) }
    {
        match self.port.seek(to) {
            Ok(at) => Ok(at),
            Err(error) => Err(io::Error::from(error)),
        }
    }
}
