//! A stream that never ends.
ghost use Rattle.std.specs.Prelude.{◌≡◌, length, replicate, Ok};

use std::io;
use std::io::Read;

/// Returns the same byte forever.
#[derive(Drop)]
pub struct Endless {
    /// The byte that it returns.
    pub byte: u8,
}

impl Read for Endless {
    fn read(&mut self, buf: &mut [u8]) -> io::Result<usize>
        ensures all { result ≡ Ok (length buf.old) }
        ensures byte { buf.new ≡ replicate (length buf.old) self.old.byte }
        ensures same { self.new ≡ self.old }
    {
        buf.fill(self.byte);
        Ok(buf.len())
    }
}
