//! Calls that read or write nothing and return an error, or `Failed` if the reader or sink has
//! failed.
ghost use Rattle.std.specs.Prelude.{◌≡◌, false, Err, IsErr};
ghost use Rattle.bitstream_count.specs.Codec.{fail};
ghost use Rattle.bitstream_stream.specs.Reading.Reads.{Reads, is_run_too_long};
ghost use Rattle.bitstream_stream.specs.Writing.Sink.{Writes};

use bitstream_count::error::Error;
use bitstream_stream::read::BitRead;
use bitstream_stream::write::BitWrite;

/// Returns the error and takes no bits, or returns `Failed` if the reader has failed.
pub(crate) fn refuse_read<T, R: BitRead>(reader: &mut R, error: Error) -> Result<T, Error>
    requires { is_run_too_long {A = T} (Err error) ≡ false }
    // No bit is taken, and the error is returned, or `Failed` if the reader has failed.
    ensures reads { Reads R.source (fail error) reader.old result reader.new }
    ensures error { IsErr result }
{
    // A read of no bits returns an error only if the reader has failed.
    let _: u8 = reader.read_unsigned_var(0)?;
    Err(error)
}

/// Returns the error and writes no bits, or returns `Failed` if the sink has failed.
pub(crate) fn refuse_write<W: BitWrite>(writer: &mut W, error: Error) -> Result<(), Error>
    ensures writes { Writes W.sink (λ _. Err error) writer.old result writer.new }
{
    // A write of no bits returns an error only if the sink has failed.
    writer.write_unsigned_var(0, 0u8)?;
    Err(error)
}
