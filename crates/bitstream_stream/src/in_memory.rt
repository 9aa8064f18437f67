//! Readers and writers over bytes in memory.
ghost use Rattle.std.specs.Prelude.{◌≡◌, ◌∷◌, [], Some};
ghost use Rattle.bitstream_order.specs.Reference.{to_slice};
ghost use Rattle.bitstream_order.specs.Port.{new_port_state};

use crate::bytes::byte_read::ByteRead;
use crate::bytes::byte_reader::ByteReader;
use crate::bytes::byte_writer::ByteWriter;
use crate::read::reader::BitReader;
use crate::read::slice_reader::SliceReader;
use crate::write::writer::BitWriter;
use bitstream_order::order::Endianness;
use bitstream_order::streams::slice::Slice;
use bitstream_order::streams::slice_mut::SliceMut;

impl<'a, E: Endianness> BitReader<Slice<'a>, E> {
    ghost use Rattle.bitstream_stream.specs.Reading.MemorySeek.{memory_bytes};
    ghost use Rattle.bitstream_stream.specs.Reading.MemorySource.{memory_source};
    ghost use Rattle.bitstream_stream.specs.Reading.Reader.{new_reader_state};

    /// Returns a reader of the bits of `bytes`, as [`SliceReader::over`] does. To get a reader of a
    /// [`Slice`], whose requests are counted, call [`new`](BitReader::new).
    ///
    /// # Examples
    ///
    /// ```
    /// use bitstream_io::{BE, BitRead, BitReader, Error};
    ///
    /// let mut reader = BitReader::<_, BE>::over(&[0xb1, 0xed]);
    /// assert_eq!(rt; reader.read_unsigned_var::<u16>(12)?, 0xb1e);
    /// assert!(rt; matches!(reader.read_unsigned_var::<u8>(8), Err(Error::EndOfInput)));
    /// ```
    pub fn over(bytes: &'a [u8]) -> SliceReader<'a, E>
        // Nothing is taken or queued yet, and the bytes left are these.
        ensures state { (memory_source E.order).state result ≡ new_reader_state (Some bytes.now) [] }
        ensures bytes { memory_bytes result ≡ bytes.now }
    {
        SliceReader::over(bytes)
    }
}

impl<'a, E: Endianness> ByteReader<Slice<'a>, E> {
    ghost use Rattle.bitstream_stream.specs.WholeBytes.ByteReader.{byte_reader_state};

    /// Returns a reader of whole bytes over a [`Slice`] of `bytes`.
    pub fn over(bytes: &'a [u8]) -> ByteReader<Slice<'a>, E>
        ensures { ⟦<Self as ByteRead>⟧.source.state result
            ≡ byte_reader_state (new_port_state (Some bytes.now) []) }
    {
        ByteReader::new(Slice::new(bytes))
    }
}

impl<'a, E: Endianness> BitWriter<SliceMut<'a>, E> {
    ghost use Rattle.bitstream_order.specs.Streaming.SliceMut.{slice_mut_stream};
    ghost use Rattle.bitstream_stream.specs.Writing.Writer.{writer_state, new_writer_state};

    /// Returns a writer of bits to a [`SliceMut`] of `bytes`, starting at the first byte. No byte
    /// is changed yet.
    ///
    /// # Examples
    ///
    /// ```
    /// use bitstream_io::{BE, BitWrite, BitWriter};
    ///
    /// let mut buffer = [0u8; 4];
    /// let mut writer = BitWriter::<_, BE>::over(&mut buffer);
    /// writer.write_unsigned_var(12, 0xb1e_u16)?;
    /// writer.byte_align()?;
    /// let packed = writer.into_writer();
    /// assert_eq!(rt; packed.as_slice(), [0xb1, 0xe0].as_slice());
    /// assert_eq!(rt; packed.free(), 2);
    /// ```
    pub fn over(bytes: &'a mut [u8]) -> BitWriter<SliceMut<'a>, E>
        ensures { writer_state slice_mut_stream result
            ≡ new_writer_state (Some []) (to_slice bytes.entry.ghost_name bytes.old ∷ []) }
    {
        BitWriter::new(SliceMut::new(bytes))
    }
}

impl<'a, E: Endianness> ByteWriter<SliceMut<'a>, E> {
    ghost use Rattle.bitstream_order.specs.Streaming.SliceMut.{slice_mut_stream};
    ghost use Rattle.bitstream_stream.specs.WholeBytes.ByteWriter.{byte_writer_state};

    /// Returns a writer of whole bytes to a [`SliceMut`] of `bytes`, starting at the first byte. No
    /// byte is changed yet.
    pub fn over(bytes: &'a mut [u8]) -> ByteWriter<SliceMut<'a>, E>
        ensures { byte_writer_state slice_mut_stream result
            ≡ new_port_state (Some []) (to_slice bytes.entry.ghost_name bytes.old ∷ []) }
    {
        ByteWriter::new(SliceMut::new(bytes))
    }
}
