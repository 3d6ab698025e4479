//! The first-order simulator: a machine at a tick of its run, with its quantizer.

ghost use Rattle.std.specs.Prelude.{◌≡◌};

use crate::run_state::RunState;
use qss_events::Outcome;
use qss_machine::{Machine, Row};
use qss_quant::{Quantizer, Steps};
use std::alloc::{AllocError, Global};
use std::sync::ledger::Ledger;

/// A machine at a tick of its run, with its quantizer. It computes only the ticks at which something
/// is due, and the last one.
#[derive(Drop)]
pub struct Sim {
    pub run: RunState,
    pub quantizer: Quantizer,
}

impl Sim {
    ghost use Rattle.std.specs.Prelude.{◌≡◌, ◌+◌, ◌-◌, ◌≤◌, ◌++◌, None, Some, IfOk};
    ghost use Rattle.qss_run.specs.Prelude.{start_snapshot, snapshot_rows, Rule, level_by, Outcome, IsAllowedLevel, IsNext, rows_left};
    ghost use Rattle.qss_run.specs.TouchCounts.{MovesTouched, touches_left};
    ghost use Rattle.qss_machine.specs.declared.machine_parts.RowKind.TheVariants as kind;

    /// A simulator at tick 0, with the start rows. All memory of the run is allocated here.
    pub fn new(alloc: Global, m: Machine, q: Quantizer) -> Result<Sim, AllocError>
        ensures start { IfOk result
            (λ sim. sim.run
            ≡ record {
              machine = m;
              tick = 0;
              snapshot = start_snapshot m;
              rows = snapshot_rows kind.Start 0 (start_snapshot m);
              end = None;
            }) }
        ensures rule { IfOk result (λ sim. sim.quantizer ≡ q) }
    {
        let run = RunState::new(alloc, m)?;
        Ok(Sim { run, quantizer: q })
    }

    /// Advances to the next tick that has rows, to an overflow, or to the last tick. After the end
    /// of the run it returns the same outcome again and changes nothing. It allocates no memory.
    pub fn next_event<L: Ledger>(&mut self, steps: &mut Steps<L>) -> Outcome
        ensures same { (self.new.run.machine ≡ self.old.run.machine)
            × (self.new.quantizer ≡ self.old.quantizer) }
        ensures again { (end : Outcome) → self.old.run.end ≡ Some end
            → (result ≡ end) × (self.new.run ≡ self.old.run) × (steps.new ≡ steps.old) }
        ensures next { self.old.run.end ≡ None
            → IsNext (IsAllowedLevel self.old.quantizer.name) self.old.run self.new.run result }
        ensures rows { (rule : Rule) → self.old.quantizer.name ≡ Some rule
            → self.old.run.end ≡ None
            → rows_left (level_by rule) self.old.run
            ≡ self.new.run.rows ++ rows_left (level_by rule) self.new.run }
        ensures counted { self.old.run.end ≡ None
            → MovesTouched (IsAllowedLevel self.old.quantizer.name) self.old.run self.new.run result
            (steps.new - steps.old) }
        ensures touched { (rule : Rule) → self.old.quantizer.name ≡ Some rule
            → self.old.run.end ≡ None
            → (steps.new - steps.old) + touches_left (level_by rule) self.new.run
            ≤ touches_left (level_by rule) self.old.run }
    {
        self.run.next_event(&self.quantizer, steps)
    }

    /// The rows of the last event, or the start rows at tick 0.
    pub fn rows(&self) -> &[Row]
        ensures { result.now ≡ self.now.run.rows }
    {
        self.run.rows()
    }

    /// Borrows the machine.
    pub fn machine(&self) -> &Machine
        ensures { result.now ≡ self.now.run.machine }
    {
        self.run.machine()
    }
}
