//! Adding to a list.

ghost use Rattle.std.specs.Prelude.{◌≡◌, ◌∷◌, ◌++◌, [], IfOk};

use std::alloc::{AllocError, Allocator};

/// Adds a value at the end of a list.
pub(crate) fn add<T: Drop, A: Allocator>(list: &mut Vec<T, A>, value: T) -> Result<(), AllocError>
    ensures { IfOk result (λ _. list.new.items ≡ list.old.items ++ value ∷ []) }
{
    list.push(value)?;
    Ok(())
}
