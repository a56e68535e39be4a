//! Changes of a text.

ghost use Rattle.std.specs.Prelude.{◌≡◌, ◌≤◌, ◌++◌, IfOk, take, drop, length};

use std::alloc::{AllocError, Global};

/// Returns a text with the bytes from one index up to another replaced.
pub fn replaced(
    alloc: Global,
    text: &[u8],
    from: usize,
    to: usize,
    new: &[u8],
) -> Result<Vec<u8>, AllocError>
    requires order { from ≤ to }
    requires within { to ≤ length text.now }
    ensures { IfOk result (λ changed. changed.items ≡ take from text.now ++ (new.now ++ drop to text.now)) }
{
    let mut changed = Vec::new(alloc);
    changed.extend_from_slice(&text[..from])?;
    changed.extend_from_slice(new)?;
    changed.extend_from_slice(&text[to..])?;
    Ok(changed)
}
