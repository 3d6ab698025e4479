//! Open loops of a section or of a branch, with the items parsed so far.

ghost use Rattle.std.specs.Prelude.{◌≡◌, ◌<◌, ◌^◌, ◌∷◌, ℕ, IfOk, OnOk, map};
ghost use Rattle.std.specs.Option.{option_map};
ghost use Rattle.mu_parser.specs.OpenLoops.{closed, put};
ghost use Rattle.mu_parser.specs.Prelude.{level, new_loop, owned_range};
ghost use Rattle.mu_parser.specs.SectionViews.{loops_of};

use mu_tree::{Nest, Range};
use std::alloc::{AllocError, Global};

/// An open loop with the items parsed so far.
#[derive(Drop)]
pub struct Loop<T> {
    pub range: Range,
    pub items: Vec<T>,
}

/// Returns the nesting depth in these loops.
pub fn loop_level<T: Nest>(loops: &Vec<Loop<T>>) -> u128
    ensures value { result ≡ level 0 (loops_of T.tree loops.now.items) }
    ensures count_limit { result < 2 ^ 64 }
{
    loops.len() as u128
}

/// Opens a loop with this range. `Err` is an allocation failure.
pub fn enter_loop<T: Nest>(
    alloc: Global,
    mut loops: Vec<Loop<T>>,
    range: Range,
) -> Result<Vec<Loop<T>>, AllocError>
    ensures { IfOk result
        (λ all. loops_of T.tree all.items
        ≡ new_loop (owned_range range) ∷ loops_of T.tree loops.items) }
{
    let items = Vec::new(alloc);
    loops.push(Loop { range, items })?;
    Ok(loops)
}

/// Adds an item to the innermost loop, or to `items` if no loop is open. `Err` is an allocation
/// failure.
pub fn put_item<T: Nest>(
    items: &mut Vec<T>,
    loops: &mut Vec<Loop<T>>,
    item: T,
) -> Result<(), AllocError>
    ensures { OnOk result
        (put (map T.tree items.old.items) (loops_of T.tree loops.old.items) (T.tree item)
        ≡ (map T.tree items.new.items, loops_of T.tree loops.new.items)) }
{
    match loops.pop() {
        None => {
            items.push(item)?;
            Ok(())
        }
        Some(inner) => {
            let mut inner = inner;
            inner.items.push(item)?;
            loops.push(inner)?;
            Ok(())
        }
    }
}

/// Ends the innermost loop. Returns the loops around it, and the ended loop as an item. If no loop
/// is open, there is no item.
pub fn close_loop<T: Nest>(mut loops: Vec<Loop<T>>) -> (Vec<Loop<T>>, Option<T>)
    ensures { closed T.each (loops_of T.tree loops.items)
        ≡ (loops_of T.tree result.0.items, option_map T.tree result.1) }
{
    match loops.pop() {
        None => (loops, None),
        Some(inner) => {
            let Loop { range, items } = inner;
            let ended = T::from_loop(range, items);
            (loops, Some(ended))
        }
    }
}
