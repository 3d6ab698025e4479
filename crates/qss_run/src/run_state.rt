//! The state of a run: a machine at a tick of its run, without its quantizer.

ghost use Rattle.std.specs.Prelude.{◌≡◌};

use crate::event_steps::go_to_next_event;
use crate::run_start::{Store, start_run_store};
use qss_events::Outcome;
use qss_machine::{Machine, Row};
use qss_quant::{Quantizer, Steps};
use std::alloc::{AllocError, Global};
use std::marker::Model;
use std::sync::ledger::Ledger;

/// A machine at a tick of its run, without its quantizer.
#[derive(Drop)]
pub struct RunState {
    machine: Machine,
    tick: u64,
    end: Option<Outcome>,
    store: Store,
}

impl Model for RunState {
    ghost use Rattle.qss_run.specs.Prelude.{RunView};
    ghost use Rattle.qss_run.specs.SimViews.{view_of};
    ghost use Rattle.qss_run.specs.Stores.{IsSim};

    ghost Value = { RunView };

    ghost view = { λ s. view_of s.machine s.tick s.store s.end };

    ghost invariant = { λ s. IsSim s.machine s.tick s.end s.store };
}

impl RunState {
    ghost use Rattle.std.specs.Prelude.{◌≡◌, ◌+◌, ◌-◌, ◌≤◌, ◌++◌, None, Some, IfOk};
    ghost use Rattle.qss_run.specs.Prelude.{start_snapshot, snapshot_rows, Rule, level_by, Outcome, IsAllowedLevel, IsNext, rows_left};
    ghost use Rattle.qss_run.specs.TouchCounts.{MovesTouched, touches_left};
    ghost use Rattle.qss_machine.specs.declared.machine_parts.RowKind.TheVariants as kind;

    /// A machine at tick 0, with the start rows. All memory of the run is allocated here.
    pub fn new(alloc: Global, m: Machine) -> Result<RunState, AllocError>
        ensures { IfOk result
            (λ run. run
            ≡ record {
              machine = m;
              tick = 0;
              snapshot = start_snapshot m;
              rows = snapshot_rows kind.Start 0 (start_snapshot m);
              end = None;
            }) }
    {
        let store = start_run_store(alloc, &m)?;
        Ok(RunState {
            machine: m,
            tick: 0,
            end: None,
            store,
        })
    }

    /// Advances to the next tick that has rows, to an overflow, or to the last tick. After the end
    /// of the run it returns the same outcome again and changes nothing. It allocates no memory.
    pub fn next_event<L: Ledger>(&mut self, q: &Quantizer, steps: &mut Steps<L>) -> Outcome
        ensures same { self.new.machine ≡ self.old.machine }
        ensures again { (end : Outcome) → self.old.end ≡ Some end
            → (result ≡ end) × (self.new ≡ self.old) × (steps.new ≡ steps.old) }
        ensures next { self.old.end ≡ None → IsNext (IsAllowedLevel q.now.name) self.old self.new result }
        ensures rows { (rule : Rule) → q.now.name ≡ Some rule
            → self.old.end ≡ None
            → rows_left (level_by rule) self.old
            ≡ self.new.rows ++ rows_left (level_by rule) self.new }
        ensures counted { self.old.end ≡ None
            → MovesTouched (IsAllowedLevel q.now.name) self.old self.new result (steps.new - steps.old) }
        ensures touched { (rule : Rule) → q.now.name ≡ Some rule
            → self.old.end ≡ None
            → (steps.new - steps.old) + touches_left (level_by rule) self.new
            ≤ touches_left (level_by rule) self.old }
    {
        if let Some(end) = self.end {
            return end;
        }
        let outcome = go_to_next_event(&self.machine, q, self.tick, &mut self.store, steps);
        self.tick = outcome.tick(self.machine.last);
        self.end = outcome.end();
        outcome
    }

    /// The rows of the last event or of the overflow, the start rows at tick 0, or the end rows.
    pub fn rows(&self) -> &[Row]
        ensures { result.now ≡ self.now.rows }
    {
        &self.store.rows
    }

    /// Borrows the machine.
    pub fn machine(&self) -> &Machine
        ensures { result.now ≡ self.now.machine }
    {
        &self.machine
    }
}
