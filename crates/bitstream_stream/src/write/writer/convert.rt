//! Conversions of a writer of bits to its stream, and to a writer of bytes to the stream.
ghost use Rattle.std.specs.Prelude.{◌≡◌, ◌↔◌, ◌%◌, ◌∷◌, false, Ok, IsSome, IfSome, IfOk, OnOk};
ghost use Rattle.std.specs.Option.{ghost_name_of};
ghost use Rattle.bitstream_order.specs.Reference.{by_name};
ghost use Rattle.bitstream_order.specs.Port.{new_port_state};
ghost use Rattle.bitstream_order.specs.Refusal.{MayRefuseWrite};

use super::BitWriter;
use crate::bytes::byte_writer::ByteWriter;
use crate::write::BitWrite;
use bitstream_count::error::Error;
use bitstream_order::order::Endianness;
use bitstream_order::streams::lent::Lent;
use bitstream_order::streams::target::Target;

impl<W: Target, E: Endianness> BitWriter<W, E> {
    ghost use Rattle.std.specs.Borrow.{LendsIf, LendsSoOk, follows_if, name_if_some, sem};
    ghost use Rattle.bitstream_stream.specs.WholeBytes.ByteWriter.{byte_writer_state};
    ghost use Rattle.bitstream_stream.specs.Writing.Writer.{writer_state};
    ghost use Rattle.bitstream_stream.specs.Ways.{writer_stream, writer_with, byte_writer_name, IsAlignedStream, EndsAligned, EndsUnaligned, Flushes};
    ghost use Rattle.bitstream_stream.specs.contracts.write.writer.BitWriter.{the_row};

    /// Returns the stream.
    ///
    /// # Warning
    ///
    /// Bits after the last whole byte are lost: call [`byte_align`](BitWrite::byte_align) first.
    pub fn into_writer(self) -> W
        ensures { result ≡ writer_stream self }
    {
        self.port.into_inner()
    }

    /// Lends the stream, if the writer is at a byte boundary and has not failed. The writer does
    /// not count bytes added to the stream meanwhile.
    pub fn writer(&mut self) -> Option<&mut W>
        // The result is `Some` exactly if the writer has not failed and the bits written are whole
        // bytes.
        ensures there { IsSome result ↔ (((⟦<Self as BitWrite>⟧.sink.failed self.old) ≡ false)
            × (⟦<Self as BitWrite>⟧.sink.len self.old % 8 ≡ 0)) }
        ensures stream { IfSome result (λ stream. stream.now ≡ writer_stream self.old) }
        // When the borrow ends, this writer is unchanged, except for what the borrower did to the
        // stream.
        ensures* writes_back { sem 𝓛 (LendsIf (the_row W.row E.row) W.row self.entry result
            (writer_with self.old) self.old) }
    {
        if self.byte_aligned() {
            Some(self.port.lend())
        } else {
            None
        }
    }

    /// Writes zeros up to the next byte boundary, as [`byte_align`](BitWrite::byte_align) does, and
    /// lends the stream. The writer does not count bytes added to the stream meanwhile.
    ///
    /// # Errors
    ///
    /// The errors of [`byte_align`](BitWrite::byte_align).
    pub fn aligned_writer(&mut self) -> Result<&mut W, Error>
        // If it succeeds, it lends the stream of the writer after an alignment.
        ensures stream { IfOk result
            (λ stream. IsAlignedStream ⟦<Self as BitWrite>⟧.sink self.old stream.now) }
        // When the borrow ends, the writer is aligned and its stream has the borrower's changes.
        // After an error the writer is as the alignment left it.
        ensures* writes_back { sem 𝓛 (LendsSoOk (the_row W.row E.row) W.row self.entry result
            (EndsAligned ⟦<Self as BitWrite>⟧.sink self.old)
            (EndsUnaligned ⟦<Self as BitWrite>⟧.sink self.old result)) }
    {
        self.byte_align()?;
        Ok(self.port.lend())
    }

    /// Returns a new writer of bytes to the stream, in the same order, if this writer is at a byte
    /// boundary and has not failed. So no bit is lost. Call [`byte_align`](BitWrite::byte_align)
    /// first. This writer does not count the bytes that the new one writes.
    pub fn bytewriter<'a>(&'a mut self) -> Option<ByteWriter<Lent<'a, W>, E>>
        // The result is `Some` exactly if the writer has not failed and the bits written are whole
        // bytes.
        ensures there { IsSome result ↔ (((⟦<Self as BitWrite>⟧.sink.failed self.old) ≡ false)
            × (⟦<Self as BitWrite>⟧.sink.len self.old % 8 ≡ 0)) }
        // The new one has sent nothing. The contents are the stream's contents, if known.
        ensures state { IfSome result (λ writer.
            byte_writer_state ⟦<Lent<'a, W> as Target>⟧.stream writer
            ≡ new_port_state (W.stream.contents (writer_stream self.old))
            (by_name (byte_writer_name writer) ∷ W.stream.references (writer_stream self.old))) }
        // When the new writer is dropped, this writer is unchanged, except for what the new writer
        // did to the stream.
        ensures* writes_back { sem 𝓛 (follows_if (the_row W.row E.row) W.row self.entry.ghost_name
            (name_if_some byte_writer_name result) (writer_with self.old) self.old) }
    {
        Self::byte_writer_of(self.writer())
    }

    /// Returns a new writer of bytes to a stream that was lent, if one was.
    fn byte_writer_of<'a>(stream: Option<&'a mut W>) -> Option<ByteWriter<Lent<'a, W>, E>>
        // There is one exactly if a stream was lent, and it reaches the stream through that
        // reference.
        ensures name { name_if_some byte_writer_name result ≡ ghost_name_of stream.entry }
        // The new one has sent nothing. The contents are the stream's contents, if known.
        ensures state { IfSome stream.entry (λ lent. IfSome result (λ writer.
            byte_writer_state ⟦<Lent<'a, W> as Target>⟧.stream writer
            ≡ new_port_state (W.stream.contents lent.now) (by_name (byte_writer_name writer) ∷ W.stream.references lent.now))) }
    {
        match stream {
            Some(stream) => Some(ByteWriter::new(Lent::new(stream))),
            None => None,
        }
    }

    /// Returns a new writer of bytes to the stream, in the same order.
    ///
    /// # Warning
    ///
    /// Bits after the last whole byte are lost: call [`byte_align`](BitWrite::byte_align) first.
    pub fn into_bytewriter(self) -> ByteWriter<W, E>
        ensures { byte_writer_state W.stream result
            ≡ new_port_state (W.stream.contents (writer_stream self))
            (W.stream.references (writer_stream self)) }
    {
        ByteWriter::new(self.into_writer())
    }

    /// Flushes the stream: the stream passes on the bytes that it has buffered itself. The queued
    /// bits stay in the writer.
    ///
    /// # Errors
    ///
    /// The errors of the calls of [`BitWrite`]. If the flush of the stream fails, the writer has
    /// failed, and its queued bits are lost.
    pub fn flush(&mut self) -> Result<(), Error>
        // One request is made, and no bit is sent or lost. Or the request fails and so does the
        // writer, or the writer had failed before.
        ensures flushes { Flushes (MayRefuseWrite W.stream) (writer_state W.stream self.old) result
            (writer_state W.stream self.new) }
        // If it succeeds, the stream changes as its properties state for a flush.
        ensures flushed { OnOk result (W.stream.flushes (writer_stream self.old) (writer_stream self.new)) }
    {
        if self.failed {
            return Err(Error::Failed);
        }
        match self.port.flush() {
            Ok(()) => Ok(()),
            Err(error) => self.refuse(error),
        }
    }
}
