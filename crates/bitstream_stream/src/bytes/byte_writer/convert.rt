//! Conversions of a writer of bytes to its stream, and to a writer of bits to the stream.
ghost use Rattle.std.specs.Prelude.{◌≡◌, ◌∷◌};
ghost use Rattle.bitstream_order.specs.Reference.{by_name};
ghost use Rattle.bitstream_order.specs.Port.{new_port_state};

use super::ByteWriter;
use crate::write::writer::BitWriter;
use bitstream_order::order::Endianness;
use bitstream_order::streams::lent::Lent;
use bitstream_order::streams::target::Target;

impl<W: Target, E: Endianness> ByteWriter<W, E> {
    ghost use Rattle.std.specs.Borrow.{Lends, follows, sem};
    ghost use Rattle.bitstream_stream.specs.Writing.Writer.{writer_state, new_writer_state};
    ghost use Rattle.bitstream_stream.specs.Ways.{byte_writer_stream, byte_writer_with, writer_name};
    ghost use Rattle.bitstream_stream.specs.contracts.bytes.byte_writer.ByteWriter.{the_row};

    /// Returns the stream.
    pub fn into_writer(self) -> W
        ensures { result ≡ byte_writer_stream self }
    {
        self.port.into_inner()
    }

    /// Lends the stream. The writer does not count bytes added to it meanwhile.
    pub fn writer(&mut self) -> &mut W
        ensures stream { result.now ≡ byte_writer_stream self.old }
        // When the borrow ends, this writer is unchanged, except for what the borrower did to the
        // stream.
        ensures* writes_back { sem 𝓛 (Lends (the_row W.row E.row) W.row self.entry result
            (byte_writer_with self.old)) }
    {
        self.port.lend()
    }

    /// Returns a new writer of bits to the stream, in the same order.
    pub fn into_bitwriter(self) -> BitWriter<W, E>
        ensures { writer_state W.stream result
            ≡ new_writer_state (W.stream.contents (byte_writer_stream self))
            (W.stream.references (byte_writer_stream self)) }
    {
        BitWriter::new(self.into_writer())
    }

    /// Returns a new writer of bits to the stream, in the same order.
    ///
    /// # Warning
    ///
    /// Bits after the last whole byte are lost when the new writer is dropped: call
    /// [`byte_align`](crate::write::BitWrite::byte_align) first.
    pub fn bitwriter<'a>(&'a mut self) -> BitWriter<Lent<'a, W>, E>
        // Nothing is sent or queued yet. The contents are the stream's contents, if known.
        ensures state { writer_state ⟦<Lent<'a, W> as Target>⟧.stream result
            ≡ new_writer_state (W.stream.contents (byte_writer_stream self.old))
            (by_name (writer_name result) ∷ W.stream.references (byte_writer_stream self.old)) }
        // When the new writer is dropped, this writer is unchanged, except for what the new writer
        // did to the stream.
        ensures* writes_back { sem 𝓛 (follows (the_row W.row E.row) W.row self.entry.ghost_name
            (writer_name result) (byte_writer_with self.old)) }
    {
        BitWriter::new(Lent::new(self.port.lend()))
    }
}
