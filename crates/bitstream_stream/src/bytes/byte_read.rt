//! The calls of a reader of bytes.
ghost use Rattle.std.specs.Prelude.{◌≡◌, length};
ghost use Rattle.bitstream_order.specs.Parts.{value_bytes};
ghost use Rattle.bitstream_order.specs.Moving.Gather.{result_map};
ghost use Rattle.bitstream_stream.specs.WholeBytes.ByteReads.{ByteSource, ByteReads, ByteReadsGrowing, given_bytes, skipped_bytes, lent_byte_source};

use crate::piece::{GROWTH, grow};
use bitstream_count::error::Error;
use bitstream_number::number::Primitive;
use bitstream_order::order::Endianness;
use std::alloc::Allocator;

/// Reads whole bytes.
///
/// # Errors
///
/// If a request to the stream fails, a call returns `EndOfInput`, `OutOfMemory`, or `Stream` with the
/// kind of the failure. Errors are not sticky: the next call asks the stream again. The calls below
/// list only their additional errors.
///
/// # Examples
///
/// ```
/// use bitstream_io::{BE, ByteRead, ByteReader, Error, LE, Slice};
///
/// let mut reader = ByteReader::<_, BE>::new(Slice::new(&[0xb1, 0xed, 0x3b, 0xc1]));
/// assert_eq!(rt; reader.read::<u16>()?, 0xb1ed);
/// assert_eq!(rt; reader.read_as::<LE, u16>()?, 0xc13b);
/// assert!(rt; matches!(reader.read::<u8>(), Err(Error::EndOfInput)));
/// ```
pub trait ByteRead {
    // The meaning of the reader's states.
    ghost source: { ByteSource Self };

    /// Reads a value from its bytes, in the reader's byte order.
    fn read<V: Primitive>(&mut self) -> Result<V, Error>
        ensures reads { ByteReads source (given_bytes V.BYTES) self.old
            (result_map (value_bytes source.order V.be_bytes V.le_bytes) result) self.new };

    /// Reads a value from its bytes, in the byte order F.
    fn read_as<F: Endianness, V: Primitive>(&mut self) -> Result<V, Error>
        ensures reads { ByteReads source (given_bytes V.BYTES) self.old
            (result_map (value_bytes F.order V.be_bytes V.le_bytes) result) self.new };

    /// Skips `bytes` bytes, whatever their values.
    fn skip(&mut self, bytes: u32) -> Result<(), Error>
        ensures reads { ByteReads source (skipped_bytes bytes) self.old result self.new };

    /// Fills a buffer with bytes. For an empty buffer no request is made. After an error the
    /// contents of the buffer are unspecified.
    fn read_bytes(&mut self, buf: &mut [u8]) -> Result<(), Error>
        ensures reads { ByteReads source (given_bytes (length buf.old)) self.old
            (result_map (λ _. buf.new) result) self.new }
    {
        for i in 0..buf.len() {
            let byte: [u8; 1] = self.read()?;
            buf[i] = byte[0];
        }
        Ok(())
    }

    /// Reads the bytes of a V: `read_to_bytes::<[u8; 4]>()` returns an array of four bytes.
    #[inline(always)]
    fn read_to_bytes<V: Primitive>(&mut self) -> Result<V::Bytes, Error>
        ensures reads { ByteReads source (given_bytes V.BYTES) self.old
            (result_map V.Bytes.items result) self.new }
    {
        let mut bytes = V::buffer();
        self.read_bytes(V::as_bytes_mut(&mut bytes))?;
        Ok(bytes)
    }

    /// Reads `bytes` bytes into a vector. Up to 4096 bytes are read into one buffer of their size.
    /// More bytes are read in pieces of at most 4096 bytes, and the buffer grows as they arrive. So
    /// a length beyond the end of the stream costs little memory.
    ///
    /// # Errors
    ///
    /// `OutOfMemory` if an allocation for the bytes fails.
    fn read_to_vec<A: Allocator>(&mut self, alloc: A, bytes: usize) -> Result<Vec<u8, A>, Error>
        ensures reads { ByteReadsGrowing source (given_bytes bytes) self.old
            (result_map (λ read. read.items) result) self.new }
    {
        let mut buf = Vec::new(alloc);
        let mut at = 0;
        while at < bytes {
            let end = at + GROWTH.min(bytes - at);
            grow(&mut buf, end)?;
            self.read_bytes(&mut buf.as_mut_slice()[at..])?;
            at = end;
        }
        Ok(buf)
    }
}

impl<R: ByteRead> ByteRead for &mut R {
    ghost source = { lent_byte_source R.source };

    fn read<V: Primitive>(&mut self) -> Result<V, Error> {
        (**self).read()
    }

    fn read_as<F: Endianness, V: Primitive>(&mut self) -> Result<V, Error> {
        (**self).read_as::<F, V>()
    }

    fn skip(&mut self, bytes: u32) -> Result<(), Error> {
        (**self).skip(bytes)
    }

    fn read_bytes(&mut self, buf: &mut [u8]) -> Result<(), Error> {
        (**self).read_bytes(buf)
    }

    fn read_to_bytes<V: Primitive>(&mut self) -> Result<V::Bytes, Error> {
        (**self).read_to_bytes::<V>()
    }

    fn read_to_vec<A: Allocator>(&mut self, alloc: A, bytes: usize) -> Result<Vec<u8, A>, Error> {
        (**self).read_to_vec(alloc, bytes)
    }
}
