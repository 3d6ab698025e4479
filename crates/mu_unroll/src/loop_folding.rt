//! Copies of parts of loops in which constant expressions without loop variables are short.

ghost use Rattle.std.specs.Prelude.{map, IfOk};
ghost use Rattle.mu_unroll.specs.Prelude.{branch};
ghost use Rattle.mu_unroll.specs.ConstantFolding.{IsSameBranches};
ghost use Rattle.mu_unroll.specs.VariableTables.{meant_at};

use crate::constant_folding::fold_expression;
use crate::environment::NameDenotation;
use crate::item_folding::fold_items;
use mu_tree::{Branch, Cond, FlatStatement, Statement};
use std::alloc::{AllocError, Global};
use std::collections::BTreeMap;

/// Returns a copy of branches with short constant expressions. Errors: out of memory.
pub fn fold_branches(
    alloc: Global,
    declared: &BTreeMap<&[u8], NameDenotation>,
    branches: &[Branch],
) -> Result<Vec<Branch>, AllocError>
    ensures { IfOk result
        (λ copy. IsSameBranches (meant_at declared.now) (map branch copy.items)
        (map branch branches.now)) }
{
    let mut all = Vec::new(alloc);
    for one in branches {
        let left = fold_expression(alloc, declared, &one.cond.left)?;
        let right = fold_expression(alloc, declared, &one.cond.right)?;
        let body = fold_items::<FlatStatement, Statement>(alloc, declared, &one.body)?;
        let cond = Cond {
            left,
            rel: one.cond.rel,
            right,
            at: one.cond.at,
        };
        all.push(Branch { cond, body })?;
    }
    Ok(all)
}
