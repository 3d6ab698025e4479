//! Unrolls items that occur in loops: equations, clauses, statements and start assignments.

ghost use Rattle.std.specs.Prelude.{◌≡◌, ℕ, [], List, map, Ok, IfOk, IfErr, OnOk};
ghost use Rattle.mu_unroll.specs.Prelude.{Range, variable_limit};
ghost use Rattle.mu_unroll.specs.Words.{IsSameStep, HasSameNames, progress_of, in_order, in_rounds, unless_loop, IsFault, Progress, Step, ArePlaced, meant_at, LoopVar, NameDenotation};

use crate::environment::{Environment, NameDenotation};
use crate::item_folding::fold_items;
use crate::long_constants::has_long_items;
use crate::unroll_counts::{Counts, count_round};
use crate::unroll_fault::UnrollErr;
use crate::unrolled_values::unrolled_bound_values;
use mu_tree::{Nest, Nested};
use std::alloc::{AllocError, Global};
use std::collections::BTreeMap;

/// The items made so far, and the counts so far.
#[derive(Drop)]
pub struct Output<T> {
    pub done: Vec<T>,
    pub counts: Counts,
}

/// Items that are unrolled to a list of F. `unrolled` is the step of an item inside loops, and
/// `made` the logical value of an element of the list.
pub trait Unroll<F>: Nest {
    ghost Made: { Type 0 };

    ghost made: { F → Made };

    ghost unrolled: { Self → Step Made };

    /// Unrolls an item that is no loop. Errors: its first fault, or out of memory.
    fn unroll_one(
        &self,
        alloc: Global,
        env: &mut Environment,
        output: &mut Output<F>,
    ) -> Result<(), UnrollErr>
        requires { ArePlaced variable_limit (meant_at env.old.declared) }
        ensures ok { IfOk result
            (λ _. unless_loop (Self.item (Self.tree self.now)) (unrolled self.now)
            (meant_at env.old.declared) env.old.loops.items (progress_of made output.old)
            ≡ Ok (progress_of made output.new)) }
        ensures err { IfErr result
            (IsFault
            (unless_loop (Self.item (Self.tree self.now)) (unrolled self.now)
            (meant_at env.old.declared) env.old.loops.items (progress_of made output.old))) }
        ensures env { OnOk result (HasSameNames env.old env.new) };

    /// Returns a copy of an item that is no loop, with short constant expressions. Errors: out of
    /// memory.
    fn fold_one(
        &self,
        alloc: Global,
        declared: &BTreeMap<&[u8], NameDenotation>,
    ) -> Result<Self, AllocError>
        ensures { IfOk result
            (λ copy. IsSameStep (meant_at declared.now) (unrolled copy (meant_at declared.now))
            (unrolled self.now (meant_at declared.now))) };

    /// Returns whether an item that is no loop has a long constant expression that is evaluated
    /// more than once.
    fn is_long(&self, in_loop: bool) -> bool;

    ghost unrolls_loop: { (x : Self) (r : Range) (body : List Self)
        → Self.Nest.tree x ≡ Self.Nest.each r (map Self.Nest.tree body)
        → (declared : List ℕ → NameDenotation) (loops : List LoopVar) (p : Progress Made)
        → unrolled x declared loops p ≡ in_rounds unrolled r body declared loops p };
}

/// Unrolls items outside loops. Errors: the first fault, or out of memory.
pub fn unroll_all<F, T: Unroll<F>>(
    alloc: Global,
    env: &mut Environment,
    items: &[T],
    output: &mut Output<F>,
) -> Result<(), UnrollErr>
    requires placed { ArePlaced variable_limit (meant_at env.old.declared) }
    requires outside { env.old.loops.items ≡ [] }
    ensures ok { IfOk result
        (λ _. in_order T.unrolled items.now (meant_at env.old.declared) env.old.loops.items
        (progress_of T.made output.old)
        ≡ Ok (progress_of T.made output.new)) }
    ensures err { IfErr result
        (IsFault
        (in_order T.unrolled items.now (meant_at env.old.declared) env.old.loops.items
        (progress_of T.made output.old))) }
    ensures env { OnOk result (HasSameNames env.old env.new) }
{
    if has_long_items(false, items) {
        let folded = fold_items(alloc, &env.declared, items)?;
        unroll_items(alloc, env, &folded, output)
    } else {
        unroll_items(alloc, env, items, output)
    }
}

/// Unrolls items inside loops. Errors: the first fault, or out of memory.
#[cycle(unrolling)]
pub fn unroll_items<F, T: Unroll<F>>(
    alloc: Global,
    env: &mut Environment,
    items: &[T],
    output: &mut Output<F>,
) -> Result<(), UnrollErr>
    requires placed { ArePlaced variable_limit (meant_at env.old.declared) }
    ensures ok { IfOk result
        (λ _. in_order T.unrolled items.now (meant_at env.old.declared) env.old.loops.items
        (progress_of T.made output.old)
        ≡ Ok (progress_of T.made output.new)) }
    ensures err { IfErr result
        (IsFault
        (in_order T.unrolled items.now (meant_at env.old.declared) env.old.loops.items
        (progress_of T.made output.old))) }
    ensures env { OnOk result (HasSameNames env.old env.new) }
{
    for one in items {
        unroll_item(alloc, env, one, output)?;
    }
    Ok(())
}

// Unrolls an item inside loops.
#[cycle(unrolling)]
fn unroll_item<F, T: Unroll<F>>(
    alloc: Global,
    env: &mut Environment,
    one: &T,
    output: &mut Output<F>,
) -> Result<(), UnrollErr>
    requires placed { ArePlaced variable_limit (meant_at env.old.declared) }
    ensures ok { IfOk result
        (λ _. T.unrolled one.now (meant_at env.old.declared) env.old.loops.items
        (progress_of T.made output.old)
        ≡ Ok (progress_of T.made output.new)) }
    ensures err { IfErr result
        (IsFault
        (T.unrolled one.now (meant_at env.old.declared) env.old.loops.items
        (progress_of T.made output.old))) }
    ensures env { OnOk result (HasSameNames env.old env.new) }
{
    match one.nested() {
        Nested::One(one) => one.unroll_one(alloc, env, output),
        Nested::Each { range, body } => {
            let mut rounds = unrolled_bound_values(env, range)?;
            while rounds.has_next_value() {
                output.counts = count_round(output.counts)?;
                let value = rounds.first();
                env.enter(alloc, range.var, value)?;
                unroll_items(alloc, env, body, output)?;
                env.leave();
                rounds = rounds.after_next_value();
            }
            Ok(())
        }
    }
}
