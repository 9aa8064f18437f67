//! Types whose values are written as bytes.
ghost use Rattle.std.specs.Prelude.{ℕ, List, Result, Ok};
ghost use Rattle.bitstream_count.specs.declared.error.Error.{Error};
ghost use Rattle.bitstream_number.specs.Word.{Order, High};
ghost use Rattle.bitstream_value.specs.ByteTypes.{ByteWritesOwn, CountsBytes};

use crate::byte_counter::BytesWritten;
use bitstream_count::error::Error;
use bitstream_sink::counter::Counter;
use bitstream_stream::bytes::byte_write::ByteWrite;

/// A type whose values are written as whole bytes.
/// [`build`](crate::byte_write::ByteWriteExt::build) writes them to any sink of bytes.
pub trait ToByteStream {
    /// The type of the errors of a write.
    type Error;

    // The error map: from an error of the sink to an error of the type.
    ghost becomes: { Error → Self.Error → Type 0 };

    // The bytes of the calls that write a value, in either order of bytes, and the result if all
    // of the calls succeed.
    ghost writes: { Order → Self → List (List ℕ) };

    ghost answers: { Self → Result (Unit {0}) Self.Error } = { λ _. Ok tt };

    /// Writes the value.
    ///
    /// # Errors
    ///
    /// An error of the sink, mapped to the type's error, or an error of the type's own. The parts
    /// before the error stay written.
    fn to_writer<W: ByteWrite>(&self, writer: &mut W) -> Result<(), Self::Error>
        ensures writes { ByteWritesOwn W.sink becomes (writes W.sink.order self.now)
            (answers self.now) writer.old result writer.new };

    /// Returns the number of bytes of the value. Nothing is written.
    ///
    /// # Errors
    ///
    /// The errors of [`to_writer`](ToByteStream::to_writer), and `CounterOverflow`, mapped to the
    /// type's error, if the number does not fit C.
    fn bytes<C: Counter>(&self) -> Result<C, Self::Error>
    where
        Self::Error: From<Error>,
        ensures counts { CountsBytes C.value C.greatest becomes (writes High self.now)
            (answers self.now) result }
    {
        let mut counter = BytesWritten::<C>::new();
        self.to_writer(&mut counter)?;
        Ok(counter.into_written())
    }
}

/// A type whose values are written as whole bytes with a borrowed context.
/// [`build_with`](crate::byte_write::ByteWriteExt::build_with) writes them to any sink of bytes.
pub trait ToByteStreamWith {
    /// The context: data known before a value is written.
    type Context;

    /// The type of the errors of a write.
    type Error;

    // The error map: from an error of the sink to an error of the type.
    ghost becomes: { Error → Self.Error → Type 0 };

    // The bytes of the calls that write a value, in either order of bytes, and the result if all
    // of the calls succeed.
    ghost writes: { Order → Self → Self.Context → List (List ℕ) };

    ghost answers: { Self → Self.Context → Result (Unit {0}) Self.Error } = { λ _ _. Ok tt };

    /// Writes the value.
    ///
    /// # Errors
    ///
    /// As [`ToByteStream::to_writer`].
    fn to_writer<W: ByteWrite>(
        &self,
        writer: &mut W,
        context: &Self::Context,
    ) -> Result<(), Self::Error>
        ensures writes { ByteWritesOwn W.sink becomes (writes W.sink.order self.now context.now)
            (answers self.now context.now) writer.old result writer.new };

    /// Returns the number of bytes of the value. Nothing is written.
    ///
    /// # Errors
    ///
    /// As [`ToByteStream::bytes`].
    fn bytes<C: Counter>(&self, context: &Self::Context) -> Result<C, Self::Error>
    where
        Self::Error: From<Error>,
        ensures counts { CountsBytes C.value C.greatest becomes (writes High self.now context.now)
            (answers self.now context.now) result }
    {
        let mut counter = BytesWritten::<C>::new();
        self.to_writer(&mut counter, context)?;
        Ok(counter.into_written())
    }
}

/// A type whose values are written as whole bytes with a context taken by value.
/// [`build_using`](crate::byte_write::ByteWriteExt::build_using) writes them to any sink of bytes.
pub trait ToByteStreamUsing {
    /// The context: data known before a value is written.
    type Context;

    /// The type of the errors of a write.
    type Error;

    // The error map: from an error of the sink to an error of the type.
    ghost becomes: { Error → Self.Error → Type 0 };

    // The bytes of the calls that write a value, in either order of bytes, and the result if all
    // of the calls succeed.
    ghost writes: { Order → Self → Self.Context → List (List ℕ) };

    ghost answers: { Self → Self.Context → Result (Unit {0}) Self.Error } = { λ _ _. Ok tt };

    /// Writes the value.
    ///
    /// # Errors
    ///
    /// As [`ToByteStream::to_writer`].
    fn to_writer<W: ByteWrite>(
        &self,
        writer: &mut W,
        context: Self::Context,
    ) -> Result<(), Self::Error>
        ensures writes { ByteWritesOwn W.sink becomes (writes W.sink.order self.now context)
            (answers self.now context) writer.old result writer.new };

    /// Returns the number of bytes of the value. Nothing is written.
    ///
    /// # Errors
    ///
    /// As [`ToByteStream::bytes`].
    fn bytes<C: Counter>(&self, context: Self::Context) -> Result<C, Self::Error>
    where
        Self::Error: From<Error>,
        ensures counts { CountsBytes C.value C.greatest becomes (writes High self.now context)
            (answers self.now context) result }
    {
        let mut counter = BytesWritten::<C>::new();
        self.to_writer(&mut counter, context)?;
        Ok(counter.into_written())
    }
}
