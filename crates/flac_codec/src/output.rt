//! Bytes for a writer.
ghost use Rattle.std.specs.Prelude.{◌≡◌, ℕ, take, IfErr, OnOk};
ghost use Rattle.std.specs.Io.KnownBytes.{Appends};

use std::io;
use std::io::{ErrorKind, Write};

/// Writes all bytes, by as many requests as the writer needs. A request that was interrupted is repeated.
///
/// # Errors
///
/// The error of the first request that fails, and `WriteZero` if the writer takes no byte.
pub(crate) fn send<W: Write>(writer: &mut W, bytes: &[u8]) -> io::Result<()>
    ensures sent { OnOk result (Appends (W.contents writer.old) (W.contents writer.new) bytes.now) }
    // After an error, the first n bytes were written.
    ensures part { IfErr result (λ _. (n : ℕ) × Appends (W.contents writer.old) (W.contents writer.new) (take n bytes.now)) }
{
    let mut sent = 0;
    for _ in 0..u64::MAX {
        if sent == bytes.len() {
            return Ok(());
        }
        match writer.write(&bytes[sent..]) {
            Ok(0) => return Err(io::Error::from(ErrorKind::WriteZero)),
            Ok(count) => sent += count,
            Err(error) => {
                if error.kind() != ErrorKind::Interrupted {
                    return Err(error);
                }
            }
        }
    }
    Err(io::Error::from(ErrorKind::Interrupted))
}
