//! The number of bytes after others. Code printed by `./format` calls these functions.
ghost use Rattle.std.specs.Prelude.{◌≡◌, ◌-◌, length};

/// Returns the number of bytes after the first `head`, or 0 if there are fewer.
pub fn rest_of(bytes: &[u8], head: u64) -> u64
    ensures { result ≡ length bytes.now - head }
{
    (bytes.len() as u64).saturating_sub(head)
}

/// Returns the number of bytes after the first `head` of `size`, or 0 if there are fewer.
pub fn bytes_after(size: u64, head: u64) -> u64
    ensures { result ≡ size - head }
{
    size.saturating_sub(head)
}

/// Returns the number of bytes of `size` after `before`, or 0 if there are fewer.
pub fn rest_after(size: u64, before: &[u8]) -> u64
    ensures { result ≡ size - length before.now }
{
    size.saturating_sub(before.len() as u64)
}
