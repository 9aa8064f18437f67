//! Loads up to eight bytes as one number.
ghost use Rattle.std.specs.Prelude.{◌≡◌, ◌*◌, ◌<◌, ◌≤◌, length, take, IfSome, None};
ghost use Rattle.bitstream_number.specs.Word.{word, bits};

use bitstream_order::order::Endianness;

/// Returns the first eight bytes as a number.
#[inline(always)]
pub(super) fn load_eight<E: Endianness>(bytes: &[u8]) -> u64
    requires { 8 ≤ length bytes.now }
    ensures { take (8 * length (take 8 bytes.now)) (word E.order 64 result)
        ≡ bits E.order (take 8 bytes.now) }
{
    let mut prefix = [0u8; 8];
    prefix.copy_from_slice(&bytes[..8]);
    E::of_bytes::<u64>(prefix)
}

/// Returns fewer than eight bytes as a number, padded with zeros after them.
#[inline(never)]
fn load_padded<E: Endianness>(bytes: &[u8]) -> u64
    requires { length bytes.now < 8 }
    ensures { take (8 * length (take 8 bytes.now)) (word E.order 64 result)
        ≡ bits E.order (take 8 bytes.now) }
{
    let mut prefix = [0u8; 8];
    prefix[..bytes.len()].copy_from_slice(bytes);
    E::of_bytes::<u64>(prefix)
}

/// Returns the first bytes, up to eight, as a number.
#[inline(always)]
pub(super) fn load<E: Endianness>(bytes: &[u8]) -> u64
    ensures { take (8 * length (take 8 bytes.now)) (word E.order 64 result)
        ≡ bits E.order (take 8 bytes.now) }
{
    if bytes.len() >= 8 {
        load_eight::<E>(bytes)
    } else {
        load_padded::<E>(bytes)
    }
}

/// Returns the first N bytes as a number, padded with zeros after them.
#[inline(always)]
pub(super) fn load_first<const N: usize, E: Endianness>(bytes: &[u8]) -> u64
    requires few { N ≤ 8 }
    requires there { N ≤ length bytes.now }
    ensures { take (8 * N) (word E.order 64 result) ≡ bits E.order (take N bytes.now) }
{
    let mut prefix = [0u8; 8];
    prefix[..N].copy_from_slice(&bytes[..N]);
    E::of_bytes::<u64>(prefix)
}

/// Returns the first bytes as a number, padded with zeros after them. The number of bytes is
/// usually known at compile time.
#[inline(always)]
fn load_exact<E: Endianness>(bytes: &[u8], need: u32) -> u64
    requires few { need ≤ 8 }
    requires there { need ≤ length bytes.now }
    ensures { take (8 * need) (word E.order 64 result) ≡ bits E.order (take need bytes.now) }
{
    match need {
        1 => load_first::<1, E>(bytes),
        2 => load_first::<2, E>(bytes),
        3 => load_first::<3, E>(bytes),
        4 => load_first::<4, E>(bytes),
        5 => load_first::<5, E>(bytes),
        6 => load_first::<6, E>(bytes),
        7 => load_first::<7, E>(bytes),
        8 => load_first::<8, E>(bytes),
        _ => load_first::<0, E>(bytes),
    }
}

/// Returns a number whose encoding begins with the first `total` bits of some bytes, or `None` if
/// there are fewer bits.
#[inline(always)]
pub(super) fn load_bits<E: Endianness>(bytes: &[u8], total: u32, constant: bool) -> Option<u64>
    requires { total ≤ 64 }
    // If a number is returned, its encoding begins with the first `total` bits, and there are
    // enough bits.
    ensures some { IfSome result (λ w. (total ≤ 8 * length bytes.now)
        × (take total (word E.order 64 w) ≡ take total (bits E.order bytes.now))) }
    // If `None` is returned, there are fewer than `total` bits.
    ensures none { result ≡ None → 8 * length bytes.now < total }
{
    let need = (total + 7) / 8;
    // Loads only the bytes needed, so that the tests of several constant widths are compiled to
    // one.
    if constant {
        if bytes.len() < need as usize {
            return None;
        }
        return Some(load_exact::<E>(bytes, need));
    }
    // One load serves any width.
    if bytes.len() >= 8 {
        return Some(load_eight::<E>(bytes));
    }
    if bytes.len() < need as usize {
        return None;
    }
    // Near the end the bytes are padded.
    Some(load_padded::<E>(bytes))
}
