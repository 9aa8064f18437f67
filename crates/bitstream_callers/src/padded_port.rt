//! A port with bytes of padding after it, as a type that is read and written as whole bytes.
ghost use Rattle.bitstream_io.specs.Callers.{same_error};
ghost use Rattle.bitstream_callers.specs.PaddedPort.{port_reads, port_writes};

use bitstream_io::{
    ByteRead, ByteReadExt, ByteWrite, ByteWriteExt, Error, FromByteStreamUsing, FromByteStreamWith,
    ToByteStreamUsing, ToByteStreamWith,
};

/// A port. It is read and written with padding: its context is the number of bytes of padding.
#[derive(Clone, Copy, Debug, PartialEq)]
pub struct PaddedPort {
    /// The number of the port.
    pub number: u16,
}

impl ToByteStreamWith for PaddedPort {
    type Context = u32;

    type Error = Error;

    ghost becomes = { same_error };

    ghost writes = { port_writes };

    fn to_writer<W: ByteWrite>(&self, writer: &mut W, padding: &u32) -> Result<(), Error> {
        writer.write(self.number)?;
        writer.pad(*padding)
    }
}

impl ToByteStreamUsing for PaddedPort {
    type Context = u32;

    type Error = Error;

    ghost becomes = { same_error };

    ghost writes = { port_writes };

    fn to_writer<W: ByteWrite>(&self, writer: &mut W, padding: u32) -> Result<(), Error> {
        writer.build_with(self, &padding)
    }
}

impl FromByteStreamWith for PaddedPort {
    type Context = u32;

    type Error = Error;

    ghost becomes = { same_error };

    ghost reads = { port_reads };

    fn from_reader<R: ByteRead>(reader: &mut R, padding: &u32) -> Result<PaddedPort, Error> {
        let number = reader.read()?;
        reader.skip(*padding)?;
        Ok(PaddedPort { number })
    }
}

impl FromByteStreamUsing for PaddedPort {
    type Context = u32;

    type Error = Error;

    ghost becomes = { same_error };

    ghost reads = { port_reads };

    fn from_reader<R: ByteRead>(reader: &mut R, padding: u32) -> Result<PaddedPort, Error> {
        reader.parse_with(&padding)
    }
}
