//! Calls that write values of users' types as bytes.
ghost use Rattle.bitstream_value.specs.ByteTypes.{ByteWritesOwn};

use crate::byte_build::{ToByteStream, ToByteStreamUsing, ToByteStreamWith};
use bitstream_stream::bytes::byte_write::ByteWrite;

/// Writes values of types that implement their own writes. Every sink of bytes has these calls.
pub trait ByteWriteExt: ByteWrite {
    /// Writes a value of a type that implements its own writes.
    ///
    /// # Errors
    ///
    /// As [`ToByteStream::to_writer`].
    fn build<T: ToByteStream>(&mut self, value: &T) -> Result<(), T::Error>
        ensures writes { ByteWritesOwn Self.sink T.becomes (T.writes Self.sink.order value.now)
            (T.answers value.now) self.old result self.new };

    /// Writes a value that needs a borrowed context.
    ///
    /// # Errors
    ///
    /// As [`ToByteStreamWith::to_writer`].
    fn build_with<T: ToByteStreamWith>(
        &mut self,
        value: &T,
        context: &T::Context,
    ) -> Result<(), T::Error>
        ensures writes { ByteWritesOwn Self.sink T.becomes
            (T.writes Self.sink.order value.now context.now) (T.answers value.now context.now)
            self.old result self.new };

    /// Writes a value that needs a context by value.
    ///
    /// # Errors
    ///
    /// As [`ToByteStreamUsing::to_writer`].
    fn build_using<T: ToByteStreamUsing>(
        &mut self,
        value: &T,
        context: T::Context,
    ) -> Result<(), T::Error>
        ensures writes { ByteWritesOwn Self.sink T.becomes
            (T.writes Self.sink.order value.now context) (T.answers value.now context)
            self.old result self.new };
}

impl<W: ByteWrite> ByteWriteExt for W {
    fn build<T: ToByteStream>(&mut self, value: &T) -> Result<(), T::Error> {
        value.to_writer(self)
    }

    fn build_with<T: ToByteStreamWith>(
        &mut self,
        value: &T,
        context: &T::Context,
    ) -> Result<(), T::Error> {
        value.to_writer(self, context)
    }

    fn build_using<T: ToByteStreamUsing>(
        &mut self,
        value: &T,
        context: T::Context,
    ) -> Result<(), T::Error> {
        value.to_writer(self, context)
    }
}
