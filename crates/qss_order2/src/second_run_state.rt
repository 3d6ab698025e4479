//! The state of a second-order run: a machine without clauses at one tick of its run.

ghost use Rattle.std.specs.Prelude.{◌≡◌, ◌++◌, [], true, None, Some, IfOk};

use crate::fixed_machine::FixedMachine;
use crate::order2_events::advance_to_event;
use crate::order2_rows::Row2;
use crate::order2_start::{Store, start_order2_store};
use crate::outcome2::Outcome2;
use crate::slope_rule::SlopeRule;
use qss_machine::Machine;
use std::alloc::{AllocError, Global};
use std::marker::Model;

/// A machine without clauses at one tick of its second-order run.
#[derive(Drop)]
pub struct SecondRunState {
    fixed: FixedMachine,
    tick: u64,
    end: Option<Outcome2>,
    store: Store,
}

impl Model for SecondRunState {
    ghost use Rattle.qss_order2.specs.Calls.{view_of};
    ghost use Rattle.qss_order2.specs.Events.{SecondRunView};
    ghost use Rattle.qss_order2.specs.Stores.{IsSim};

    ghost Value = { SecondRunView };

    ghost view = { λ s. view_of s.fixed.machine s.tick s.store s.end };

    ghost invariant = { λ s. IsSim s.fixed.machine s.tick s.end s.store };
}

impl SecondRunState {
    ghost use Rattle.qss_order2.specs.Events.{IsStarted, IsNext2, rows2_left};
    ghost use Rattle.qss_order2.specs.SecondSteps.{nearest_change};
    ghost use Rattle.qss_order2.specs.SlopeRules.{IsRuled2};
    ghost use Rattle.qss_order2.specs.declared.outcome2.Outcome2.{Outcome2};

    /// The state at tick 0, with the start rows. Allocates all memory that the run needs.
    pub fn new(alloc: Global, m: Machine, rule: &SlopeRule) -> Result<SecondRunState, AllocError>
        requires { m.clauses ≡ [] }
        ensures { IfOk result (λ run. IsStarted (IsRuled2 rule.now.nearest) m run) }
    {
        let fixed = FixedMachine::new(alloc, m)?;
        let store = start_order2_store(alloc, &fixed, rule)?;
        Ok(SecondRunState {
            fixed,
            tick: 0,
            end: None,
            store,
        })
    }

    /// Advances to the next tick with rows, to an overflow, or to the last tick. After the end of
    /// the run it returns the last outcome again and changes nothing. Allocates no memory.
    pub fn next_event(&mut self, rule: &SlopeRule) -> Outcome2
        ensures same { self.new.machine ≡ self.old.machine }
        ensures again { (end : Outcome2) → self.old.end ≡ Some end
            → (result ≡ end) × (self.new ≡ self.old) }
        ensures next { self.old.end ≡ None
            → IsNext2 (IsRuled2 rule.now.nearest) self.old self.new result }
        ensures rows { rule.now.nearest ≡ true
            → self.old.end ≡ None
            → rows2_left nearest_change self.old ≡ self.new.rows ++ rows2_left nearest_change self.new }
    {
        if let Some(end) = self.end {
            return end;
        }
        let outcome = advance_to_event(&self.fixed, rule, self.tick, &mut self.store);
        self.tick = outcome.tick(self.fixed.machine.last);
        self.end = outcome.end();
        outcome
    }

    /// The rows of the last event, or the start rows at tick 0.
    pub fn rows(&self) -> &[Row2]
        ensures { result.now ≡ self.now.rows }
    {
        self.store.rows.as_slice()
    }

    /// Borrows the machine.
    pub fn machine(&self) -> &Machine
        ensures { result.now ≡ self.now.machine }
    {
        &self.fixed.machine
    }
}
