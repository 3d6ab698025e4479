//! The trait of values that can be copied with an allocator, and copies of lists of such values.

ghost use Rattle.std.specs.Prelude.{◌≡◌, IfOk, map};

use std::alloc::{AllocError, Global};

/// A value that can be copied if memory is available. `value` is the logical value of a value of
/// the type, and specifies in which sense a copy is equal.
pub trait Copied: Drop {
    ghost Value: { Type 0 };

    ghost value: { Self → Value };

    /// Returns an equal value. Errors: allocation failure.
    fn copy(&self, alloc: Global) -> Result<Self, AllocError>
        ensures { IfOk result (λ copy. value copy ≡ value self.now) };
}

/// Returns copies of the values of a list. Errors: allocation failure.
pub(crate) fn copy_list<T: Copied>(alloc: Global, values: &[T]) -> Result<Vec<T>, AllocError>
    ensures { IfOk result (λ copy. map T.value copy.items ≡ map T.value values.now) }
{
    let mut all = Vec::new(alloc);
    for one in values {
        let copy = one.copy(alloc)?;
        all.push(copy)?;
    }
    Ok(all)
}
