//! The lines of an input.

ghost use Rattle.std.specs.Prelude.{◌≡◌, ◌==◌, map, IfOk};
ghost use Rattle.std.specs.List.{slice_split};
ghost use Rattle.bitfields_core.specs.Value.{lines as lines_of};

use std::alloc::{AllocError, Global};

/// Returns the lines of an input. LF ends each line, but may be missing after the last one. An input of no bytes has
/// no lines.
///
/// # Errors
///
/// `AllocError` if an allocation fails.
pub fn lines(alloc: Global, input: &[u8]) -> Result<Vec<&[u8]>, AllocError>
    ensures { IfOk result (λ v. map (λ x. x.now) v.items ≡ lines_of input.now) }
{
    let mut lines = parts(alloc, b'\n', input)?;
    if let Some(last) = lines.last()
        && last.is_empty()
    {
        let _ = lines.pop();
    }
    Ok(lines)
}

/// Returns the parts of a text between separators.
///
/// # Errors
///
/// `AllocError` if an allocation fails.
pub fn parts(alloc: Global, separator: u8, text: &[u8]) -> Result<Vec<&[u8]>, AllocError>
    ensures { IfOk result (λ v. map (λ x. x.now) v.items
        ≡ slice_split (λ b. b == separator) text.now) }
{
    text.split(|b| *b == separator).collect(alloc)
}
