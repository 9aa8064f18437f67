//! Types whose values are read from bits.
ghost use Rattle.std.specs.Prelude.{Bool, false, Result};
ghost use Rattle.bitstream_count.specs.declared.error.Error.{Error};
ghost use Rattle.bitstream_count.specs.Codec.{Decoder};
ghost use Rattle.bitstream_number.specs.Word.{Order};
ghost use Rattle.bitstream_value.specs.Grows.{OwnReads};

use bitstream_stream::read::BitRead;

/// A type whose values are read from bits. [`parse`](crate::read::BitReadExt::parse) reads them from
/// any reader.
pub trait FromBitStream: Sized {
    /// The type of the errors of a read.
    type Error;

    // True if a read allocates.
    ghost grows: { Bool } = { false };

    // The error map: from an error of the reader to an error of the type.
    ghost becomes: { Error → Self.Error → Type 0 };

    // The reads of a value, in either order of bits. They return the errors of the type too.
    ghost reads: { Order → Decoder (Result Self Self.Error) };

    /// Reads a value.
    ///
    /// # Errors
    ///
    /// An error of the reader, mapped to the type's error, or an error of the type's own. The parts
    /// before the error stay read.
    fn from_reader<R: BitRead>(reader: &mut R) -> Result<Self, Self::Error>
        ensures reads { OwnReads grows R.source becomes (reads R.source.order)
            reader.old result reader.new };
}

/// A type whose values are read from bits with a borrowed context.
/// [`parse_with`](crate::read::BitReadExt::parse_with) reads them from any reader.
pub trait FromBitStreamWith: Sized {
    /// The context: data known before a value is read.
    type Context;

    /// The type of the errors of a read.
    type Error;

    // True if a read allocates.
    ghost grows: { Bool } = { false };

    // The error map: from an error of the reader to an error of the type.
    ghost becomes: { Error → Self.Error → Type 0 };

    // The reads of a value, in either order of bits. They return the errors of the type too.
    ghost reads: { Order → Self.Context → Decoder (Result Self Self.Error) };

    /// Reads a value.
    ///
    /// # Errors
    ///
    /// As [`FromBitStream::from_reader`].
    fn from_reader<R: BitRead>(reader: &mut R, context: &Self::Context) -> Result<Self, Self::Error>
        ensures reads { OwnReads grows R.source becomes (reads R.source.order context.now)
            reader.old result reader.new };
}

/// A type whose values are read from bits with a context taken by value.
/// [`parse_using`](crate::read::BitReadExt::parse_using) reads them from any reader.
pub trait FromBitStreamUsing: Sized {
    /// The context: data known before a value is read.
    type Context;

    /// The type of the errors of a read.
    type Error;

    // True if a read allocates.
    ghost grows: { Bool } = { false };

    // The error map: from an error of the reader to an error of the type.
    ghost becomes: { Error → Self.Error → Type 0 };

    // The reads of a value, in either order of bits. They return the errors of the type too.
    ghost reads: { Order → Self.Context → Decoder (Result Self Self.Error) };

    /// Reads a value.
    ///
    /// # Errors
    ///
    /// As [`FromBitStream::from_reader`].
    fn from_reader<R: BitRead>(reader: &mut R, context: Self::Context) -> Result<Self, Self::Error>
        ensures reads { OwnReads grows R.source becomes (reads R.source.order context)
            reader.old result reader.new };
}
