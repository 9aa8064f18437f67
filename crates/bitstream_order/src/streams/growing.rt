//! A vector of bytes, as a target whose writes fail only if the vector cannot grow.
ghost use Rattle.std.specs.Prelude.{◌≡◌, [], length};
ghost use Rattle.bitstream_order.specs.Streaming.Growing.{IsExtended};

use crate::streams::target::Target;
use std::alloc::{AllocError, Allocator};
use std::io;
use std::io::ErrorKind;

/// A target that appends to a vector of bytes. A request fails if, and only if, the vector needs
/// memory and the allocation fails. The kind of the error is then `OutOfMemory`, and the bytes are
/// unchanged. The contents are therefore known after an error too. (std's contract does not state
/// this for a `Vec` as a stream.)
///
/// # Examples
///
/// ```
/// use bitstream_io::{BE, BitWrite, BitWriter, Growing};
///
/// let mut writer = BitWriter::<_, BE>::new(Growing::new(Vec::new(rt.alloc())));
/// writer.write_unsigned_var(12, 0xb1e_u16)?;
/// writer.byte_align()?;
/// assert_eq!(rt; writer.into_writer().as_slice(), [0xb1, 0xe0].as_slice());
/// ```
#[derive(Drop)]
pub struct Growing<A: Allocator> {
    bytes: Vec<u8, A>,
}

impl<A: Allocator> Growing<A> {
    ghost use Rattle.bitstream_order.specs.Streaming.Growing.{growing_bytes};

    /// Returns a target that appends to the bytes of a vector.
    pub fn new(bytes: Vec<u8, A>) -> Growing<A>
        ensures { growing_bytes result ≡ bytes.items }
    {
        Growing { bytes }
    }

    /// Returns the vector.
    pub fn into_vec(self) -> Vec<u8, A>
        ensures { result.items ≡ growing_bytes self }
    {
        self.bytes
    }

    /// Returns the bytes.
    pub fn as_slice(&self) -> &[u8]
        ensures { result.now ≡ growing_bytes self.now }
    {
        self.bytes.as_slice()
    }

    /// Removes all bytes. The vector keeps its memory.
    pub fn clear(&mut self)
        ensures { growing_bytes self.new ≡ [] }
    {
        self.bytes.clear();
    }
}

/// Appends N bytes to a vector.
#[inline(always)]
fn extend_by<const N: usize, A: Allocator>(
    vec: &mut Vec<u8, A>,
    bytes: &[u8],
) -> Result<(), AllocError>
    requires { length bytes.now ≡ N }
    ensures { IsExtended vec.old bytes.now result vec.new }
{
    vec.extend_from_slice(&bytes[..N])
}

/// Appends bytes to a vector. Up to 8 bytes, which is enough for most values, are copied with a
/// constant length, and so without a function call.
#[inline(always)]
fn extend<A: Allocator>(vec: &mut Vec<u8, A>, bytes: &[u8]) -> Result<(), AllocError>
    ensures { IsExtended vec.old bytes.now result vec.new }
{
    match bytes.len() {
        1 => extend_by::<1, A>(vec, bytes),
        2 => extend_by::<2, A>(vec, bytes),
        3 => extend_by::<3, A>(vec, bytes),
        4 => extend_by::<4, A>(vec, bytes),
        5 => extend_by::<5, A>(vec, bytes),
        6 => extend_by::<6, A>(vec, bytes),
        7 => extend_by::<7, A>(vec, bytes),
        8 => extend_by::<8, A>(vec, bytes),
        _ => vec.extend_from_slice(bytes),
    }
}

impl<A: Allocator> Target for Growing<A> {
    ghost use Rattle.bitstream_order.specs.Streaming.Growing.{growing_stream};

    ghost stream = { growing_stream };

    #[inline(always)]
    fn write_all(&mut self, bytes: &[u8]) -> io::Result<()> {
        match extend(&mut self.bytes, bytes) {
            Ok(()) => Ok(()),
            Err(_refused) => Err(io::Error::from(ErrorKind::OutOfMemory)),
        }
    }

    fn flush(&mut self) -> io::Result<()> {
        Ok(())
    }
}
