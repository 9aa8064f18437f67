//! Functions for parts of a stated size. Code printed by `./format` calls them.
ghost use Rattle.bitstream_format.specs.Within.{is_end, size_of};
ghost use Rattle.std.specs.Prelude.{◌≡◌, ◌∷◌, []};
ghost use Rattle.bitstream_io.specs.Callers.{WritesAll};

use bitstream_io::{BitWrite, Error};

/// Returns true if an error is the end of the input.
pub fn is_end(error: &Error) -> bool
    ensures { result ≡ is_end error.now }
{
    match error {
        Error::ReadBits => false,
        Error::Checked(_) => false,
        Error::NoSignBit => false,
        Error::BoolWidth => false,
        Error::NonZeroWidth => false,
        Error::VariableWidthOverflow => false,
        Error::RedundantGroup => false,
        Error::CounterOverflow => false,
        Error::RunTooLong => false,
        Error::EndOfInput => true,
        Error::Stream(_) => false,
        Error::OutOfMemory => false,
        Error::Place => false,
        Error::Failed => false,
    }
}

/// Writes the size of a part in bytes, as a number of `width` bits. `bits` is the number of bits of the part.
///
/// # Errors
///
/// The error of `bits`. `Checked` if the size does not fit `width` bits. Otherwise, the errors of the sink. If the
/// sink has failed before, `Failed` comes first.
pub fn write_size<W: BitWrite>(
    writer: &mut W,
    width: u32,
    bits: Result<u64, Error>,
) -> Result<(), Error>
    ensures { WritesAll W.sink (size_of W.sink.order width bits ∷ []) writer.old result writer.new }
{
    match bits {
        Ok(bits) => writer.write_unsigned_var(width, bits / 8),
        Err(error) => {
            // A sink that has failed returns `Failed`.
            writer.pad(0)?;
            Err(error)
        }
    }
}
