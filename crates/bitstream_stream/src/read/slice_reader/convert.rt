//! Conversions between readers of bits and readers of bytes, over bytes in memory.
ghost use Rattle.std.specs.Prelude.{◌≡◌, []};
ghost use Rattle.bitstream_order.specs.Port.{new_port_state};
ghost use Rattle.bitstream_stream.specs.WholeBytes.ByteReader.{byte_reader_state};

use super::SliceReader;
use crate::bytes::byte_read::ByteRead;
use crate::bytes::byte_reader::ByteReader;
use bitstream_order::order::Endianness;
use bitstream_order::streams::slice::Slice;

impl<'a, E: Endianness> SliceReader<'a, E> {
    ghost use Rattle.bitstream_stream.specs.Reading.MemorySource.{memory_source};

    /// Returns a new reader of the bytes of which no bit is taken, in the same order.
    ///
    /// # Warning
    ///
    /// If the reader is within a byte, the remaining bits of that byte are lost: read them first,
    /// or skip them with [`byte_align`](crate::read::BitRead::byte_align).
    pub fn into_bytereader(self) -> ByteReader<Slice<'a>, E>
        ensures { ⟦<ByteReader<Slice<'a>, E> as ByteRead>⟧.source.state result
            ≡ byte_reader_state (new_port_state ((memory_source E.order).state self.entry).bytes []) }
    {
        ByteReader::over(self.rest())
    }
}

impl<'a, E: Endianness> ByteReader<Slice<'a>, E> {
    ghost use Rattle.bitstream_order.specs.Streaming.Slice.{slice_remaining};
    ghost use Rattle.bitstream_stream.specs.Reading.MemorySource.{memory_source};
    ghost use Rattle.bitstream_stream.specs.Reading.Reader.{new_reader_state};
    ghost use Rattle.bitstream_stream.specs.Ways.{byte_reader_stream};

    /// Returns a new reader of the bits of the bytes left, in the same order. Its places are
    /// counted from the first of these bytes.
    pub fn into_slice_reader(self) -> SliceReader<'a, E>
        ensures { (memory_source E.order).state result
            ≡ new_reader_state (slice_remaining (byte_reader_stream self.entry)) [] }
    {
        let slice = self.into_reader();
        SliceReader::over(slice.rest())
    }
}
