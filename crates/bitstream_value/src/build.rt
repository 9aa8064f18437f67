//! Types whose values are written as bits.
ghost use Rattle.std.specs.Prelude.{List, Result, Ok};
ghost use Rattle.bitstream_count.specs.declared.error.Error.{Error};
ghost use Rattle.bitstream_count.specs.Codec.{Encoder};
ghost use Rattle.bitstream_number.specs.Word.{Order, High};
ghost use Rattle.bitstream_value.specs.Lengths.{CountsBits};
ghost use Rattle.bitstream_value.specs.Own.{WritesOwn};

use bitstream_count::error::Error;
use bitstream_order::order::Endianness;
use bitstream_sink::counter::Counter;
use bitstream_sink::written::BitsWritten;
use bitstream_stream::write::BitWrite;

/// A type whose values are written as bits. [`build`](crate::write::BitWriteExt::build) writes them
/// to any sink.
pub trait ToBitStream {
    /// The type of the errors of a write.
    type Error;

    // The error map: from an error of the sink to an error of the type.
    ghost becomes: { Error → Self.Error → Type 0 };

    // The calls that write a value, in either order of bits, and the result if all of them
    // succeed.
    ghost writes: { Order → Self → List Encoder };

    ghost answers: { Self → Result (Unit {0}) Self.Error } = { λ _. Ok tt };

    /// Writes the value.
    ///
    /// # Errors
    ///
    /// An error of the sink, mapped to the type's error, or an error of the type's own. The parts
    /// before the error stay written.
    fn to_writer<W: BitWrite>(&self, writer: &mut W) -> Result<(), Self::Error>
        ensures writes { WritesOwn W.sink becomes (writes W.sink.order self.now) (answers self.now)
            writer.old result writer.new };

    /// Returns the number of bits of the value, as an empty [`BitsWritten`] counts them. Nothing is
    /// written.
    ///
    /// # Errors
    ///
    /// The errors of [`to_writer`](ToBitStream::to_writer), and `CounterOverflow`, mapped to the
    /// type's error, if the number does not fit C.
    fn bits<C: Counter>(&self) -> Result<C, Self::Error>
    where
        Self::Error: From<Error>,
        ensures counts { CountsBits C.value C.greatest becomes (writes High self.now)
            (answers self.now) result }
    {
        let mut counter = BitsWritten::<C>::new();
        self.to_writer(&mut counter)?;
        Ok(counter.into_written())
    }

    /// Returns what [`bits`](ToBitStream::bits) does, for every order E.
    ///
    /// # Errors
    ///
    /// As [`bits`](ToBitStream::bits).
    fn bits_len<C: Counter, E: Endianness>(&self) -> Result<C, Self::Error>
    where
        Self::Error: From<Error>,
        ensures counts { CountsBits C.value C.greatest becomes (writes High self.now)
            (answers self.now) result }
    {
        self.bits()
    }
}

/// A type whose values are written as bits with a borrowed context.
/// [`build_with`](crate::write::BitWriteExt::build_with) writes them to any sink.
pub trait ToBitStreamWith {
    /// The context: data known before a value is written.
    type Context;

    /// The type of the errors of a write.
    type Error;

    // The error map: from an error of the sink to an error of the type.
    ghost becomes: { Error → Self.Error → Type 0 };

    // The calls that write a value, in either order of bits, and the result if all of them
    // succeed.
    ghost writes: { Order → Self → Self.Context → List Encoder };

    ghost answers: { Self → Self.Context → Result (Unit {0}) Self.Error } = { λ _ _. Ok tt };

    /// Writes the value.
    ///
    /// # Errors
    ///
    /// As [`ToBitStream::to_writer`].
    fn to_writer<W: BitWrite>(
        &self,
        writer: &mut W,
        context: &Self::Context,
    ) -> Result<(), Self::Error>
        ensures writes { WritesOwn W.sink becomes (writes W.sink.order self.now context.now)
            (answers self.now context.now) writer.old result writer.new };

    /// Returns the number of bits of the value, as an empty [`BitsWritten`] counts them. Nothing is
    /// written.
    ///
    /// # Errors
    ///
    /// As [`ToBitStream::bits`].
    fn bits<C: Counter>(&self, context: &Self::Context) -> Result<C, Self::Error>
    where
        Self::Error: From<Error>,
        ensures counts { CountsBits C.value C.greatest becomes (writes High self.now context.now)
            (answers self.now context.now) result }
    {
        let mut counter = BitsWritten::<C>::new();
        self.to_writer(&mut counter, context)?;
        Ok(counter.into_written())
    }

    /// Returns what [`bits`](ToBitStreamWith::bits) does, for every order E.
    ///
    /// # Errors
    ///
    /// As [`ToBitStream::bits`].
    fn bits_len<C: Counter, E: Endianness>(&self, context: &Self::Context) -> Result<C, Self::Error>
    where
        Self::Error: From<Error>,
        ensures counts { CountsBits C.value C.greatest becomes (writes High self.now context.now)
            (answers self.now context.now) result }
    {
        self.bits(context)
    }
}

/// A type whose values are written as bits with a context taken by value.
/// [`build_using`](crate::write::BitWriteExt::build_using) writes them to any sink.
pub trait ToBitStreamUsing {
    /// The context: data known before a value is written.
    type Context;

    /// The type of the errors of a write.
    type Error;

    // The error map: from an error of the sink to an error of the type.
    ghost becomes: { Error → Self.Error → Type 0 };

    // The calls that write a value, in either order of bits, and the result if all of them
    // succeed.
    ghost writes: { Order → Self → Self.Context → List Encoder };

    ghost answers: { Self → Self.Context → Result (Unit {0}) Self.Error } = { λ _ _. Ok tt };

    /// Writes the value.
    ///
    /// # Errors
    ///
    /// As [`ToBitStream::to_writer`].
    fn to_writer<W: BitWrite>(
        &self,
        writer: &mut W,
        context: Self::Context,
    ) -> Result<(), Self::Error>
        ensures writes { WritesOwn W.sink becomes (writes W.sink.order self.now context)
            (answers self.now context) writer.old result writer.new };

    /// Returns the number of bits of the value, as an empty [`BitsWritten`] counts them. Nothing is
    /// written.
    ///
    /// # Errors
    ///
    /// As [`ToBitStream::bits`].
    fn bits<C: Counter>(&self, context: Self::Context) -> Result<C, Self::Error>
    where
        Self::Error: From<Error>,
        ensures counts { CountsBits C.value C.greatest becomes (writes High self.now context)
            (answers self.now context) result }
    {
        let mut counter = BitsWritten::<C>::new();
        self.to_writer(&mut counter, context)?;
        Ok(counter.into_written())
    }
}
