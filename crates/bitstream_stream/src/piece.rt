//! The sizes of the pieces in which bytes are moved, and buffers that grow by such pieces.
ghost use Rattle.std.specs.Prelude.{◌≡◌, ◌-◌, ◌≤◌, ◌++◌, length, replicate, OnOk};

use std::alloc::{AllocError, Allocator};

/// The number of bytes that are moved at a time when not at a byte boundary, or that are skipped or
/// padded at a time.
pub(crate) const PIECE: usize = 1024;

/// The greatest number of bytes by which a vector grows at a time.
pub(crate) const GROWTH: usize = 4096;

/// Extends a buffer with zeros to `len` bytes. The first growth allocates exactly the memory that
/// it needs.
///
/// # Errors
///
/// `AllocError` if the allocation fails.
pub(crate) fn grow<A: Allocator>(buf: &mut Vec<u8, A>, len: usize) -> Result<(), AllocError>
    requires { length buf.old.items ≤ len }
    ensures { OnOk result (buf.new.items
        ≡ buf.old.items ++ replicate (len - length buf.old.items) 0) }
{
    if buf.is_empty() {
        buf.reserve_exact(len)?;
    }
    buf.resize(len, 0)
}
