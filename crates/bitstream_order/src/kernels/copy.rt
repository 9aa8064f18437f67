//! Short copies of bytes.
ghost use Rattle.std.specs.Prelude.{◌≡◌, ◌↔◌, ◌≤◌, IsTrue, length, take};

/// Copies N bytes.
#[inline(always)]
fn copy_all<const N: usize>(to: &mut [u8], from: &[u8])
    requires to { length to.old ≡ N }
    requires from { length from.now ≡ N }
    ensures { to.new ≡ from.now }
{
    to[..N].copy_from_slice(&from[..N]);
}

/// Copies bytes. Up to 16 bytes, the size of a `u128`, are copied with a constant length, and so
/// without a function call.
#[inline(always)]
pub(crate) fn copy(to: &mut [u8], from: &[u8])
    requires { length to.old ≡ length from.now }
    ensures { to.new ≡ from.now }
{
    match from.len() {
        1 => copy_all::<1>(to, from),
        2 => copy_all::<2>(to, from),
        3 => copy_all::<3>(to, from),
        4 => copy_all::<4>(to, from),
        5 => copy_all::<5>(to, from),
        6 => copy_all::<6>(to, from),
        7 => copy_all::<7>(to, from),
        8 => copy_all::<8>(to, from),
        9 => copy_all::<9>(to, from),
        10 => copy_all::<10>(to, from),
        11 => copy_all::<11>(to, from),
        12 => copy_all::<12>(to, from),
        13 => copy_all::<13>(to, from),
        14 => copy_all::<14>(to, from),
        15 => copy_all::<15>(to, from),
        16 => copy_all::<16>(to, from),
        _ => to.copy_from_slice(from),
    }
}

/// If there are at least `count` bytes, copies the first `count` to the start of a buffer and
/// returns true. The rest of the buffer is unspecified: it may be overwritten, because a copy of
/// constant length is faster.
#[inline(always)]
pub(crate) fn copy_prefix(to: &mut [u8], from: &[u8], count: usize) -> bool
    requires { count ≤ length to.old }
    ensures len { length to.new ≡ length to.old }
    ensures enough { IsTrue result ↔ (count ≤ length from.now) }
    // If there are at least `count` bytes, the buffer begins with the first `count` bytes.
    ensures copied { IsTrue result → take count to.new ≡ take count from.now }
{
    // There are enough bytes for the whole buffer, whose length is usually a constant.
    if from.len() >= to.len() {
        copy(to, &from[..to.len()]);
        return true;
    }
    if from.len() < count {
        return false;
    }
    // Near the end of the bytes, only `count` bytes are copied.
    copy(&mut to[..count], &from[..count]);
    true
}
