//! Calls that read values of users' types from bytes.
ghost use Rattle.bitstream_value.specs.ByteGrows.{ByteOwnReads};

use crate::byte_parse::{FromByteStream, FromByteStreamUsing, FromByteStreamWith};
use bitstream_stream::bytes::byte_read::ByteRead;

/// Reads values of types that implement their own reads. Every reader of bytes has these calls.
pub trait ByteReadExt: ByteRead {
    /// Reads a value of a type that implements its own reads.
    ///
    /// # Errors
    ///
    /// As [`FromByteStream::from_reader`].
    fn parse<F: FromByteStream>(&mut self) -> Result<F, F::Error>
        ensures reads { ByteOwnReads F.grows Self.source F.becomes (F.reads Self.source.order)
            self.old result self.new };

    /// Reads a value that needs a borrowed context.
    ///
    /// # Errors
    ///
    /// As [`FromByteStreamWith::from_reader`].
    fn parse_with<F: FromByteStreamWith>(&mut self, context: &F::Context) -> Result<F, F::Error>
        ensures reads { ByteOwnReads F.grows Self.source F.becomes
            (F.reads Self.source.order context.now) self.old result self.new };

    /// Reads a value that needs a context by value.
    ///
    /// # Errors
    ///
    /// As [`FromByteStreamUsing::from_reader`].
    fn parse_using<F: FromByteStreamUsing>(&mut self, context: F::Context) -> Result<F, F::Error>
        ensures reads { ByteOwnReads F.grows Self.source F.becomes (F.reads Self.source.order context)
            self.old result self.new };
}

impl<R: ByteRead> ByteReadExt for R {
    fn parse<F: FromByteStream>(&mut self) -> Result<F, F::Error> {
        F::from_reader(self)
    }

    fn parse_with<F: FromByteStreamWith>(&mut self, context: &F::Context) -> Result<F, F::Error> {
        F::from_reader(self, context)
    }

    fn parse_using<F: FromByteStreamUsing>(&mut self, context: F::Context) -> Result<F, F::Error> {
        F::from_reader(self, context)
    }
}
