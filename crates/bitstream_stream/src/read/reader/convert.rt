//! Conversions of a reader of bits to its stream, and to a reader of bytes over the stream.
ghost use Rattle.std.specs.Prelude.{◌≡◌, ◌↔◌, ◌%◌, ◌∷◌, false, Ok, IsSome, IfSome};
ghost use Rattle.std.specs.Option.{ghost_name_of};
ghost use Rattle.bitstream_order.specs.Reference.{by_name};
ghost use Rattle.bitstream_order.specs.Port.{new_port_state};
ghost use Rattle.bitstream_stream.specs.WholeBytes.ByteReader.{byte_reader_state};

use super::BitReader;
use crate::bytes::byte_read::ByteRead;
use crate::bytes::byte_reader::ByteReader;
use crate::read::BitRead;
use bitstream_order::order::Endianness;
use bitstream_order::streams::lent::Lent;
use bitstream_order::streams::source::Source;

impl<R: Source, E: Endianness> BitReader<R, E> {
    ghost use Rattle.std.specs.Borrow.{Lends, LendsIf, follows_if, name_if_some, sem};
    ghost use Rattle.bitstream_stream.specs.Ways.{reader_stream, reader_with, aligned_reader, byte_reader_name};
    ghost use Rattle.bitstream_stream.specs.contracts.read.reader.BitReader.{the_row};

    /// Returns the stream.
    ///
    /// # Warning
    ///
    /// If the reader is within a byte, the remaining bits of that byte are lost, since the stream
    /// has already given the whole byte: read them first, or skip them with
    /// [`byte_align`](BitRead::byte_align).
    pub fn into_reader(self) -> R
        ensures stream { result ≡ reader_stream self }
        // The bytes left in the stream are the ones that the reader knew to be left.
        ensures bytes { R.stream.remaining result ≡ (⟦<Self as BitRead>⟧.source.state self).bytes }
    {
        self.port.into_inner()
    }

    /// Lends the stream, if the reader is at a byte boundary and has not failed. The reader does
    /// not count bytes taken from the stream meanwhile.
    pub fn reader(&mut self) -> Option<&mut R>
        // The result is `Some` exactly if the reader has not failed and the bits taken are whole
        // bytes.
        ensures there { IsSome result ↔ (((⟦<Self as BitRead>⟧.source.state self.old).failed ≡ false)
            × ((⟦<Self as BitRead>⟧.source.state self.old).taken % 8 ≡ 0)) }
        ensures stream { IfSome result (λ stream. stream.now ≡ reader_stream self.old) }
        // When the borrow ends, this reader is unchanged, except for what the borrower did to the
        // stream.
        ensures* writes_back { sem 𝓛 (LendsIf (the_row R.row E.row) R.row self.entry result
            (reader_with self.old) self.old) }
    {
        if self.byte_aligned() {
            Some(self.port.lend())
        } else {
            None
        }
    }

    /// Skips the bits up to the next byte boundary, as [`byte_align`](BitRead::byte_align) does,
    /// and lends the stream, even if the reader has failed. The reader does not count bytes taken
    /// from the stream meanwhile.
    pub fn aligned_reader(&mut self) -> &mut R
        ensures stream { result.now ≡ reader_stream self.old }
        // When the borrow ends, the queued bits are taken, and the stream has the borrower's
        // changes.
        ensures* writes_back { sem 𝓛 (Lends (the_row R.row E.row) R.row self.entry result
            (λ stream. reader_with (aligned_reader self.old) stream)) }
    {
        self.drop_queue();
        self.port.lend()
    }

    /// Returns a new reader of bytes over the stream, in the same order, if this reader is at a
    /// byte boundary and has not failed. So no bit is lost. To skip the bits up to a boundary, call
    /// [`byte_align`](BitRead::byte_align) first. When the new reader is dropped, this reader
    /// continues with the bytes that the new one left. This reader does not count the bytes that
    /// the new one took.
    pub fn bytereader<'a>(&'a mut self) -> Option<ByteReader<Lent<'a, R>, E>>
        // The result is `Some` exactly if the reader has not failed and the bits taken are whole
        // bytes.
        ensures there { IsSome result ↔ (((⟦<Self as BitRead>⟧.source.state self.old).failed ≡ false)
            × ((⟦<Self as BitRead>⟧.source.state self.old).taken % 8 ≡ 0)) }
        // The new one has taken nothing. The bytes left are the bytes left in the stream, if known.
        ensures state { IfSome result (λ reader.
            ⟦<ByteReader<Lent<'a, R>, E> as ByteRead>⟧.source.state reader
            ≡ byte_reader_state (new_port_state (R.stream.remaining (reader_stream self.old))
            (by_name (byte_reader_name reader) ∷ R.stream.references (reader_stream self.old)))) }
        // When the new reader is dropped, this reader is unchanged, except for what the new reader
        // did to the stream.
        ensures* writes_back { sem 𝓛 (follows_if (the_row R.row E.row) R.row self.entry.ghost_name
            (name_if_some byte_reader_name result) (reader_with self.old) self.old) }
    {
        Self::byte_reader_of(self.reader())
    }

    /// Returns a new reader of bytes over a stream that was lent, if one was.
    fn byte_reader_of<'a>(stream: Option<&'a mut R>) -> Option<ByteReader<Lent<'a, R>, E>>
        // There is one exactly if a stream was lent, and it reaches the stream through that
        // reference.
        ensures name { name_if_some byte_reader_name result ≡ ghost_name_of stream.entry }
        // The new one has taken nothing. The bytes left are the bytes left in the stream, if known.
        ensures state { IfSome stream.entry (λ lent. IfSome result (λ reader.
            ⟦<ByteReader<Lent<'a, R>, E> as ByteRead>⟧.source.state reader
            ≡ byte_reader_state (new_port_state (R.stream.remaining lent.now)
            (by_name (byte_reader_name reader) ∷ R.stream.references lent.now)))) }
    {
        match stream {
            Some(stream) => Some(ByteReader::new(Lent::new(stream))),
            None => None,
        }
    }

    /// Returns a new reader of bytes over the stream, in the same order.
    ///
    /// # Warning
    ///
    /// If the reader is within a byte, the remaining bits of that byte are lost, since the stream
    /// has already given the whole byte: read them first, or skip them with
    /// [`byte_align`](BitRead::byte_align).
    pub fn into_bytereader(self) -> ByteReader<R, E>
        ensures { ⟦<ByteReader<R, E> as ByteRead>⟧.source.state result
            ≡ byte_reader_state (new_port_state (R.stream.remaining (reader_stream self))
            (R.stream.references (reader_stream self))) }
    {
        ByteReader::new(self.into_reader())
    }
}
