//! Inputs that are read to their end.
ghost use Rattle.std.specs.Prelude.{ℕ, IfErr, IfOk};
ghost use Rattle.std.specs.IoError.{error_kind};
ghost use Rattle.std.specs.declared.io.ErrorKind.{ErrorKind};
ghost use Rattle.bitfields_core.specs.Streams.{ReadToEnd};

use bitstream_io::Source;
use std::alloc::Global;
use std::io;
use std::io::Read;

/// An input that can be read to its end: any `Read`.
pub trait Input: Source {
    // The ways in which reading the input to its end may fail, and the kinds of the errors. std's
    // contract does not state this for a `Read`.
    ghost refuses_rest: { Self → ErrorKind → Self → Type 0 };

    /// Reads all bytes that are left.
    ///
    /// # Errors
    ///
    /// The errors of [`Read::read_to_end`], also of kind `OutOfMemory` if an allocation for the
    /// bytes fails. The bytes that were read before the error are lost.
    fn read_rest(&mut self, alloc: Global) -> io::Result<Vec<u8>>
        ensures bytes { IfOk result (λ bytes. ReadToEnd (Self.stream.remaining self.old) bytes.items
            (Self.stream.remaining self.new)) }
        ensures refused { IfErr result (λ e. refuses_rest self.old (error_kind e) self.new) };
}

impl<R: Read> Input for R {
    ghost refuses_rest = { λ _ _ _. Unit {0} };

    fn read_rest(&mut self, alloc: Global) -> io::Result<Vec<u8>> {
        let mut bytes = Vec::new(alloc);
        Read::read_to_end(self, &mut bytes)?;
        Ok(bytes)
    }
}
