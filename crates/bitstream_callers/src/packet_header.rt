//! The header of a packet of whole bytes, as a type with reads and writes of its own.
ghost use Rattle.bitstream_io.specs.Callers.{same_error};
ghost use Rattle.bitstream_callers.specs.PacketHeader.{becomes_stream, packet_reads, packet_writes};

use bitstream_io::{ByteRead, ByteWrite, Error, FromByteStream, ToByteStream};

/// The header before a packet's bytes, after a byte that states version 1.
#[derive(Clone, Copy, Debug, PartialEq)]
pub struct PacketHeader {
    /// The number of bytes that follow.
    pub length: u16,
}

/// The reasons that a header is not read.
#[derive(Debug, Drop)]
pub enum PacketError {
    /// An error of the reader.
    Stream(Error),
    /// The packet states a version other than 1. The byte that states it has been read.
    UnsupportedVersion,
}

impl From<Error> for PacketError {
    ghost from_gives = { becomes_stream };

    fn from(error: Error) -> PacketError {
        PacketError::Stream(error)
    }
}

impl FromByteStream for PacketHeader {
    type Error = PacketError;

    ghost becomes = { becomes_stream };

    ghost reads = { packet_reads };

    fn from_reader<R: ByteRead>(reader: &mut R) -> Result<PacketHeader, PacketError> {
        let version: u8 = reader.read()?;
        if version == 1 {
            Ok(PacketHeader {
                length: reader.read()?,
            })
        } else {
            Err(PacketError::UnsupportedVersion)
        }
    }
}

impl ToByteStream for PacketHeader {
    type Error = Error;

    ghost becomes = { same_error };

    ghost writes = { packet_writes };

    fn to_writer<W: ByteWrite>(&self, writer: &mut W) -> Result<(), Error> {
        writer.write(1u8)?;
        writer.write(self.length)
    }
}
