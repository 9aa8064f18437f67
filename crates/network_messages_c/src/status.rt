//! Made by `./format --c`, which prints the same for each crate: edit tools/describing/c/shared.py.
//!
//! The statuses of the errors of a reader.
ghost use Rattle.std.specs.Prelude.{◌≡◌};
ghost use Rattle.network_messages_c.specs.Varied.{reader_status};

use bitstream_io::Error;

/// Returns the status of an error of the reader.
pub(crate) fn reader_status(error: &Error) -> i32
    ensures { result ≡ reader_status error.now }
{
    match error {
        Error::EndOfInput => 1,
        _ => 5,
    }
}
