//! Emulation prevention bytes: they keep start codes out of a unit (section 7.4.1).
ghost use Rattle.std.specs.Prelude.{◌≡◌, ℕ, List, IfOk};
ghost use Rattle.bitstream_formats.specs.Emulation.{with_emulation, without_emulation, zeros_after};

use std::alloc::{AllocError, Global};

/// Returns the number of zeros at the end of the bytes after this byte, counting at most two.
fn zeros_after(zeros: u8, byte: u8) -> u8
    ensures { result ≡ zeros_after zeros byte }
{
    if byte != 0 {
        0
    } else if zeros == 0 {
        1
    } else {
        2
    }
}

/// Returns the bytes of a unit without each byte 3 that follows two zeros.
///
/// # Errors
///
/// An allocation failed.
pub fn remove_emulation(alloc: Global, unit: &[u8]) -> Result<Vec<u8>, AllocError>
    ensures { IfOk result (λ payload. payload.items ≡ without_emulation 0 unit.now) }
{
    let mut payload = Vec::new(alloc);
    let mut zeros = 0u8;
    for byte in unit {
        if zeros == 2 && *byte == 3 {
            zeros = 0;
        } else {
            payload.push(*byte)?;
            zeros = zeros_after(zeros, *byte);
        }
    }
    Ok(payload)
}

/// The removal restores the bytes: a 3 was inserted between two zeros and each byte of at most 3
/// after them.
pub fn emulation_round_trip()
    ensures { (bytes : List ℕ) → without_emulation 0 (with_emulation 0 bytes) ≡ bytes }
{}
