//! A writer of bytes to a stream.
ghost use Rattle.std.specs.Prelude.{◌≡◌};
ghost use Rattle.bitstream_order.specs.Port.{new_port_state};

use crate::bytes::byte_write::ByteWrite;
use crate::piece::PIECE;
use bitstream_count::error::Error;
use bitstream_number::number::Primitive;
use bitstream_order::order::Endianness;
use bitstream_order::port::Port;
use bitstream_order::streams::target::Target;
use std::marker::PhantomData;

mod convert;

/// Writes whole bytes to a stream, and queues none.
///
/// # Examples
///
/// ```
/// use bitstream_io::{ByteWrite, ByteWriter, LE};
///
/// let mut writer = ByteWriter::<_, LE>::new(Vec::new(rt.alloc()));
/// writer.write(0x0201_u16)?;
/// writer.write_bytes(&[3, 4])?;
/// assert_eq!(rt; writer.into_writer().as_slice(), [1, 2, 3, 4].as_slice());
/// ```
#[derive(Drop)]
pub struct ByteWriter<W, E> {
    port: Port<W>,
    order: PhantomData<E>,
}

impl<W: Target, E: Endianness> ByteWriter<W, E> {
    ghost use Rattle.bitstream_stream.specs.WholeBytes.ByteWriter.{byte_writer_state};

    /// Returns a writer to a stream. No request is made yet.
    pub fn new(stream: W) -> ByteWriter<W, E>
        ensures { byte_writer_state W.stream result
            ≡ new_port_state (W.stream.contents stream) (W.stream.references stream) }
    {
        ByteWriter {
            port: Port::new(stream),
            order: PhantomData,
        }
    }

    /// Does what [`new`](ByteWriter::new) does, with the order as an argument.
    pub fn endian(stream: W, _endian: E) -> ByteWriter<W, E>
    where
        E: Drop,
        ensures { byte_writer_state W.stream result
            ≡ new_port_state (W.stream.contents stream) (W.stream.references stream) }
    {
        ByteWriter::new(stream)
    }
}

impl<W: Target, E: Endianness> ByteWrite for ByteWriter<W, E> {
    ghost use Rattle.bitstream_stream.specs.WholeBytes.ByteWriter.{byte_writer_sink};

    ghost sink = { byte_writer_sink W.stream E.order };

    fn write<V: Primitive>(&mut self, value: V) -> Result<(), Error> {
        self.write_as::<E, V>(value)
    }

    fn write_as<F: Endianness, V: Primitive>(&mut self, value: V) -> Result<(), Error> {
        let bytes = F::value_to_bytes(value);
        self.write_bytes(V::as_bytes(&bytes))
    }

    fn write_bytes(&mut self, bytes: &[u8]) -> Result<(), Error> {
        if bytes.is_empty() {
            return Ok(());
        }
        self.port.send(bytes)
    }

    fn pad(&mut self, bytes: u32) -> Result<(), Error> {
        let zeros = [0u8; PIECE];
        let mut left = bytes as usize;
        while left > 0 {
            let piece = left.min(PIECE);
            self.write_bytes(&zeros[..piece])?;
            left -= piece;
        }
        Ok(())
    }
}
