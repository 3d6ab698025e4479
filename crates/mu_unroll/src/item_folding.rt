//! Copies of items that occur in loops, in which constant expressions without loop variables are
//! short.

ghost use Rattle.std.specs.Prelude.{IfOk};
ghost use Rattle.mu_unroll.specs.ConstantFolding.{IsSameStep};
ghost use Rattle.mu_unroll.specs.ListUnrolling.{in_order};
ghost use Rattle.mu_unroll.specs.VariableTables.{meant_at};

use crate::constant_folding::{declares_constant, fold_constant};
use crate::environment::NameDenotation;
use crate::item_unrolling::Unroll;
use mu_tree::{Nested, Range};
use std::alloc::{AllocError, Global};
use std::collections::BTreeMap;

/// Returns a copy of items with short constant expressions. Errors: out of memory.
#[cycle(folding)]
pub fn fold_items<F, T: Unroll<F>>(
    alloc: Global,
    declared: &BTreeMap<&[u8], NameDenotation>,
    items: &[T],
) -> Result<Vec<T>, AllocError>
    ensures { IfOk result
        (λ copy. IsSameStep (meant_at declared.now)
        (in_order T.unrolled copy.items (meant_at declared.now))
        (in_order T.unrolled items.now (meant_at declared.now))) }
{
    let mut all = Vec::new(alloc);
    for one in items {
        let copy = fold_item(alloc, declared, one)?;
        all.push(copy)?;
    }
    Ok(all)
}

// Returns a copy of an item with short constant expressions.
#[cycle(folding)]
fn fold_item<F, T: Unroll<F>>(
    alloc: Global,
    declared: &BTreeMap<&[u8], NameDenotation>,
    one: &T,
) -> Result<T, AllocError>
    ensures { IfOk result
        (λ copy. IsSameStep (meant_at declared.now) (T.unrolled copy (meant_at declared.now))
        (T.unrolled one.now (meant_at declared.now))) }
{
    match one.nested() {
        Nested::One(one) => one.fold_one(alloc, declared),
        Nested::Each { range, body } => {
            if declares_constant(declared, range.var.bytes()) {
                return one.fold_one(alloc, declared);
            }
            let var = range.var.copy(alloc)?;
            let from = fold_constant(alloc, declared, range.from)?;
            let to = fold_constant(alloc, declared, range.to)?;
            let body = fold_items(alloc, declared, body)?;
            let range = Range {
                var,
                at: range.at,
                from,
                to,
            };
            Ok(T::from_loop(range, body))
        }
    }
}
