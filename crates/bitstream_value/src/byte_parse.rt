//! Types whose values are read from bytes.
ghost use Rattle.std.specs.Prelude.{Bool, false, Result};
ghost use Rattle.bitstream_count.specs.declared.error.Error.{Error};
ghost use Rattle.bitstream_number.specs.Word.{Order};
ghost use Rattle.bitstream_stream.specs.WholeBytes.ByteReads.{ByteDecoder};
ghost use Rattle.bitstream_value.specs.ByteGrows.{ByteOwnReads};

use bitstream_stream::bytes::byte_read::ByteRead;

/// A type whose values are read from whole bytes. [`parse`](crate::byte_read::ByteReadExt::parse)
/// reads them from any reader of bytes.
pub trait FromByteStream: Sized {
    /// The type of the errors of a read.
    type Error;

    // True if a read allocates.
    ghost grows: { Bool } = { false };

    // The error map: from an error of the reader to an error of the type.
    ghost becomes: { Error → Self.Error → Type 0 };

    // The reads of a value, in either order of bytes. They return the errors of the type too.
    ghost reads: { Order → ByteDecoder (Result Self Self.Error) };

    /// Reads a value.
    ///
    /// # Errors
    ///
    /// An error of the reader, mapped to the type's error, or an error of the type's own. The parts
    /// before the error stay read.
    fn from_reader<R: ByteRead>(reader: &mut R) -> Result<Self, Self::Error>
        ensures reads { ByteOwnReads grows R.source becomes (reads R.source.order)
            reader.old result reader.new };
}

/// A type whose values are read from whole bytes with a borrowed context.
/// [`parse_with`](crate::byte_read::ByteReadExt::parse_with) reads them from any reader of bytes.
pub trait FromByteStreamWith: Sized {
    /// The context: data known before a value is read.
    type Context;

    /// The type of the errors of a read.
    type Error;

    // True if a read allocates.
    ghost grows: { Bool } = { false };

    // The error map: from an error of the reader to an error of the type.
    ghost becomes: { Error → Self.Error → Type 0 };

    // The reads of a value, in either order of bytes. They return the errors of the type too.
    ghost reads: { Order → Self.Context → ByteDecoder (Result Self Self.Error) };

    /// Reads a value.
    ///
    /// # Errors
    ///
    /// As [`FromByteStream::from_reader`].
    fn from_reader<R: ByteRead>(
        reader: &mut R,
        context: &Self::Context,
    ) -> Result<Self, Self::Error>
        ensures reads { ByteOwnReads grows R.source becomes (reads R.source.order context.now)
            reader.old result reader.new };
}

/// A type whose values are read from whole bytes with a context taken by value.
/// [`parse_using`](crate::byte_read::ByteReadExt::parse_using) reads them from any reader of bytes.
pub trait FromByteStreamUsing: Sized {
    /// The context: data known before a value is read.
    type Context;

    /// The type of the errors of a read.
    type Error;

    // True if a read allocates.
    ghost grows: { Bool } = { false };

    // The error map: from an error of the reader to an error of the type.
    ghost becomes: { Error → Self.Error → Type 0 };

    // The reads of a value, in either order of bytes. They return the errors of the type too.
    ghost reads: { Order → Self.Context → ByteDecoder (Result Self Self.Error) };

    /// Reads a value.
    ///
    /// # Errors
    ///
    /// As [`FromByteStream::from_reader`].
    fn from_reader<R: ByteRead>(reader: &mut R, context: Self::Context) -> Result<Self, Self::Error>
        ensures reads { ByteOwnReads grows R.source becomes (reads R.source.order context)
            reader.old result reader.new };
}
