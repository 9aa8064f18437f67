//! Bytes in memory, as a target whose writes fail only if too few bytes are free.
ghost use Rattle.std.specs.Prelude.{◌≡◌, ◌-◌, ◌≤◌, [], drop, length};

use crate::ghosts::GhostBytes;
use crate::kernels::copy::copy;
use crate::streams::target::Target;
use std::io;
use std::io::ErrorKind;

/// A target that writes to a slice of bytes, starting at its first byte. Bytes that are not yet
/// written keep their values. A request fails if, and only if, it has more bytes than are free. The
/// kind of the error is then `WriteZero`, and no byte is written. A program can therefore write to
/// its own buffer without an allocator, and its writer fails only if the buffer is too small.
/// (std's contract does not state this for a `&mut [u8]` as a stream.)
///
/// # Examples
///
/// ```
/// use bitstream_io::{BE, BitWrite, BitWriter};
///
/// let mut buffer = [0u8; 4];
/// let mut writer = BitWriter::<_, BE>::over(&mut buffer);
/// writer.write_unsigned_var(12, 0xb1e_u16)?;
/// writer.byte_align()?;
/// let packed = writer.into_writer();
/// assert_eq!(rt; packed.as_slice(), [0xb1, 0xe0].as_slice());
/// assert_eq!(rt; packed.free(), 2);
/// ```
#[derive(Drop)]
pub struct SliceMut<'a> {
    bytes: &'a mut [u8],
    // The number of bytes written.
    written: usize,
    // The initial bytes.
    was: GhostBytes,
    ghost room: { written ≤ length bytes.now },
    ghost len: { length bytes.now ≡ length was.list },
    ghost free: { drop written bytes.now ≡ drop written was.list },
}

impl<'a> SliceMut<'a> {
    ghost use Rattle.bitstream_order.specs.Streaming.SliceMut.{slice_bytes, slice_capacity, slice_name, slice_was, written_bytes};

    /// Returns a target that writes to these bytes, starting at the first byte.
    pub fn new(bytes: &'a mut [u8]) -> SliceMut<'a>
        // No byte is written yet.
        ensures written { written_bytes result ≡ [] }
        ensures capacity { slice_capacity result ≡ length bytes.old }
        // The bytes of the slice are unchanged.
        ensures bytes { slice_bytes result ≡ bytes.old }
        // The target records them as its initial bytes.
        ensures was { slice_was result ≡ bytes.old }
        // It reaches the bytes through this same reference.
        ensures name { slice_name result ≡ bytes.entry.ghost_name }
    {
        let was = GhostBytes::of(bytes);
        SliceMut {
            bytes,
            written: 0,
            was,
        }
    }

    /// Returns the bytes that were written.
    pub fn as_slice(&self) -> &[u8]
        ensures { result.now ≡ written_bytes self.now }
    {
        &self.bytes[..self.written]
    }

    /// Returns the number of free bytes.
    pub fn free(&self) -> usize
        ensures { result ≡ slice_capacity self.now - length (written_bytes self.now) }
    {
        self.bytes.len() - self.written
    }
}

impl<'a> Target for SliceMut<'a> {
    ghost use Rattle.bitstream_order.specs.Streaming.SliceMut.{slice_mut_stream};

    ghost stream = { slice_mut_stream };

    #[inline(always)]
    fn write_all(&mut self, bytes: &[u8]) -> io::Result<()> {
        let written = self.written;
        if self.bytes.len() - written < bytes.len() {
            return Err(io::Error::from(ErrorKind::WriteZero));
        }
        let end = written + bytes.len();
        copy(&mut self.bytes[written..end], bytes);
        self.written = end;
        Ok(())
    }

    fn flush(&mut self) -> io::Result<()> {
        Ok(())
    }
}
