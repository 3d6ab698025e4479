//! Lists for test machines and test certificates.

ghost use Rattle.std.specs.Prelude.{◌≡◌, [], ◌∷◌, IfOk};

use mu_io::Items;
use std::alloc::{AllocError, Global};

// A list of one item.
pub(crate) fn one<T: Drop>(alloc: Global, item: T) -> Result<Items<T>, AllocError>
    ensures { IfOk result (λ items. items ≡ item ∷ []) }
{
    let mut items = Vec::new(alloc);
    items.push(item)?;
    Ok(Items::new(items))
}

// An empty list.
pub(crate) fn none<T>(alloc: Global) -> Items<T>
    ensures { result ≡ [] }
{
    Items::new(Vec::new(alloc))
}
