//! The calls of a sink of bytes.
ghost use Rattle.std.specs.Prelude.{replicate};
ghost use Rattle.bitstream_order.specs.Parts.{value_bytes};
ghost use Rattle.bitstream_stream.specs.WholeBytes.ByteSink.{ByteSink, ByteWrites, lent_byte_sink};

use bitstream_count::error::Error;
use bitstream_number::number::Primitive;
use bitstream_order::order::Endianness;

/// Writes whole bytes.
///
/// # Errors
///
/// If a request to the stream fails, a call returns `OutOfMemory`, or `Stream` with the kind of the
/// failure. Errors are not sticky: the next call asks the stream again. A sink with a limit returns
/// `CounterOverflow` if the bytes would exceed the limit, and is unchanged.
///
/// # Examples
///
/// ```
/// use bitstream_io::{BE, ByteWrite, ByteWriter, LE};
///
/// let mut writer = ByteWriter::<_, BE>::new(Vec::new(rt.alloc()));
/// writer.write_as::<LE, u16>(1)?;
/// writer.pad(3)?;
/// assert_eq!(rt; writer.into_writer().as_slice(), [1, 0, 0, 0, 0].as_slice());
/// ```
pub trait ByteWrite {
    // The meaning of the sink's states.
    ghost sink: { ByteSink Self };

    /// Writes the bytes of a value, in the sink's byte order.
    fn write<V: Primitive>(&mut self, value: V) -> Result<(), Error>
        ensures writes { ByteWrites sink (value_bytes sink.order V.be_bytes V.le_bytes value)
            self.old result self.new };

    /// Writes the bytes of a value, in the byte order F.
    fn write_as<F: Endianness, V: Primitive>(&mut self, value: V) -> Result<(), Error>
        ensures writes { ByteWrites sink (value_bytes F.order V.be_bytes V.le_bytes value)
            self.old result self.new };

    /// Writes bytes. For an empty slice no request is made.
    fn write_bytes(&mut self, bytes: &[u8]) -> Result<(), Error>
        ensures writes { ByteWrites sink bytes.now self.old result self.new };

    /// Writes `bytes` zero bytes.
    fn pad(&mut self, bytes: u32) -> Result<(), Error>
        ensures writes { ByteWrites sink (replicate bytes 0) self.old result self.new };
}

impl<W: ByteWrite> ByteWrite for &mut W {
    ghost sink = { lent_byte_sink W.sink };

    fn write<V: Primitive>(&mut self, value: V) -> Result<(), Error> {
        (**self).write(value)
    }

    fn write_as<F: Endianness, V: Primitive>(&mut self, value: V) -> Result<(), Error> {
        (**self).write_as::<F, V>(value)
    }

    fn write_bytes(&mut self, bytes: &[u8]) -> Result<(), Error> {
        (**self).write_bytes(bytes)
    }

    fn pad(&mut self, bytes: u32) -> Result<(), Error> {
        (**self).pad(bytes)
    }
}
