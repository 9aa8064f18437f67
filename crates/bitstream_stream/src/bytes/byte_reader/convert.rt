//! Conversions of a reader of bytes to its stream, and to a reader of bits over the stream.
ghost use Rattle.std.specs.Prelude.{◌≡◌, ◌∷◌};
ghost use Rattle.bitstream_order.specs.Reference.{by_name};

use super::ByteReader;
use crate::read::BitRead;
use crate::read::reader::BitReader;
use bitstream_order::order::Endianness;
use bitstream_order::streams::lent::Lent;
use bitstream_order::streams::source::Source;

impl<R: Source, E: Endianness> ByteReader<R, E> {
    ghost use Rattle.std.specs.Borrow.{Lends, follows, sem};
    ghost use Rattle.bitstream_stream.specs.Reading.Reader.{new_reader_state, requests_made};
    ghost use Rattle.bitstream_stream.specs.Ways.{byte_reader_stream, byte_reader_with, reader_name};
    ghost use Rattle.bitstream_stream.specs.contracts.bytes.byte_reader.ByteReader.{the_row};

    /// Returns the stream.
    pub fn into_reader(self) -> R
        ensures stream { result ≡ byte_reader_stream self }
    {
        self.port.into_inner()
    }

    /// Lends the stream. The reader does not count bytes taken from it meanwhile.
    pub fn reader(&mut self) -> &mut R
        ensures stream { result.now ≡ byte_reader_stream self.old }
        // When the borrow ends, this reader is unchanged, except for what the borrower did to the
        // stream.
        ensures* writes_back { sem 𝓛 (Lends (the_row R.row E.row) R.row self.entry result
            (byte_reader_with self.old)) }
    {
        self.port.lend()
    }

    /// Returns a new reader of bits over the stream, in the same order.
    pub fn into_bitreader(self) -> BitReader<R, E>
        // Nothing is taken or queued yet. The bytes left are the bytes left in the stream, if
        // known.
        ensures state { ⟦<BitReader<R, E> as BitRead>⟧.source.state result
            ≡ new_reader_state (R.stream.remaining (byte_reader_stream self))
            (R.stream.references (byte_reader_stream self)) }
        ensures requests { requests_made result ≡ 0 }
    {
        BitReader::new(self.into_reader())
    }

    /// Returns a new reader of bits over the stream, in the same order. When the new reader is
    /// dropped, this reader continues with the bytes that the new one left.
    ///
    /// # Warning
    ///
    /// If the new reader stops within a byte, the remaining bits of that byte are lost when it is
    /// dropped: read them first, or skip them with [`byte_align`](BitRead::byte_align).
    pub fn bitreader<'a>(&'a mut self) -> BitReader<Lent<'a, R>, E>
        // Nothing is taken or queued yet. The bytes left are the bytes left in the stream, if
        // known.
        ensures state { ⟦<BitReader<Lent<'a, R>, E> as BitRead>⟧.source.state result
            ≡ new_reader_state (R.stream.remaining (byte_reader_stream self.old))
            (by_name (reader_name result) ∷ R.stream.references (byte_reader_stream self.old)) }
        ensures requests { requests_made result ≡ 0 }
        // When the new reader is dropped, this reader is unchanged, except for what the new reader
        // did to the stream.
        ensures* writes_back { sem 𝓛 (follows (the_row R.row E.row) R.row self.entry.ghost_name
            (reader_name result) (byte_reader_with self.old)) }
    {
        BitReader::new(Lent::new(self.port.lend()))
    }
}
