//! Coupled models: a machine as a coupled DEVS model of its components, at one tick of its run.

ghost use Rattle.std.specs.Prelude.{◌≡◌, ◌≤◌, true, is_some, None, IfOk};
ghost use Rattle.qss_devs.specs.CoupledEvents.{StoreRepresents};
ghost use Rattle.qss_devs.specs.CoupledSteps.{IsNamed};

use crate::coupled_events::go_to_next_rows;
use crate::coupled_start::{Store, start_coupled_store};
use qss_events::Outcome;
use qss_machine::{Machine, Row};
use qss_quant::Quantizer;
use std::alloc::{AllocError, Global};
use std::rc::Rc;

/// A machine as a coupled DEVS model of its components, at one tick of its run.
#[derive(Drop)]
pub struct Coupled {
    pub machine: Rc<Machine>,
    pub quantizer: Rc<Quantizer>,
    pub tick: u64,
    /// The outcome with which the run has ended, if it has.
    pub end: Option<Outcome>,
    pub store: Store,
    pub ghost named: { is_some quantizer.value.name ≡ true },
    pub ghost in_time: { tick ≤ machine.value.last },
    pub ghost stands: { end ≡ None → StoreRepresents machine.value quantizer.value.name tick store },
}

impl Coupled {
    ghost use Rattle.std.specs.Prelude.{◌≡◌, ◌++◌, None, Some, IfOk};
    ghost use Rattle.qss_devs.specs.Prelude.{start_snapshot, snapshot_rows, Rule, level_by, IsAllowedLevel, Outcome, IsNext, rows_left};
    ghost use Rattle.qss_devs.specs.CoupledEvents.{view_of};
    ghost use Rattle.qss_machine.specs.declared.machine_parts.RowKind.TheVariants as kind;

    /// A coupled model at tick 0, with the start rows. Allocates all memory that the run needs.
    pub fn new(alloc: Global, m: Machine, q: Quantizer) -> Result<Coupled, AllocError>
        requires { IsNamed q.name }
        ensures start { IfOk result (λ c. view_of c.machine.value c.tick c.store c.end
            ≡ record {
              machine = m;
              tick = 0;
              snapshot = start_snapshot m;
              rows = snapshot_rows kind.Start 0 (start_snapshot m);
              end = None;
            }) }
        ensures rule { IfOk result (λ c. c.quantizer.value ≡ q) }
    {
        let machine = Rc::new(alloc, m)?;
        let quantizer = Rc::new(alloc, q)?;
        let store = start_coupled_store(alloc, &machine, &machine, &quantizer)?;
        Ok(Coupled {
            machine,
            quantizer,
            tick: 0,
            end: None,
            store,
        })
    }

    /// Advances to the next tick with rows, to an overflow, or to the last tick. After the end of
    /// the run it returns the last outcome again and changes nothing. Allocates no memory.
    pub fn next_event(&mut self) -> Outcome
        ensures machine { self.new.machine.value ≡ self.old.machine.value }
        ensures rule { self.new.quantizer.value ≡ self.old.quantizer.value }
        ensures again { (end : Outcome) → self.old.end ≡ Some end
            → (result ≡ end) × (self.new ≡ self.old) }
        ensures next { self.old.end ≡ None → IsNext (IsAllowedLevel self.old.quantizer.value.name)
            (view_of self.old.machine.value self.old.tick self.old.store self.old.end)
            (view_of self.new.machine.value self.new.tick self.new.store self.new.end)
            result }
        ensures rows { (rule : Rule) → self.old.quantizer.value.name ≡ Some rule
            → self.old.end ≡ None → rows_left (level_by rule)
            (view_of self.old.machine.value self.old.tick self.old.store self.old.end)
            ≡ self.new.store.rows.items ++ rows_left (level_by rule)
            (view_of self.new.machine.value self.new.tick self.new.store self.new.end) }
    {
        if let Some(end) = self.end {
            return end;
        }
        let outcome = go_to_next_rows(&self.machine, &self.quantizer, self.tick, &mut self.store);
        self.tick = outcome.tick(self.machine.last);
        self.end = outcome.end();
        outcome
    }

    /// The rows of the last event, or the start rows at tick 0.
    pub fn rows(&self) -> &[Row]
        ensures { result.now ≡ self.now.store.rows.items }
    {
        &self.store.rows
    }

    /// Borrows the machine.
    pub fn machine(&self) -> &Machine
        ensures { result.now ≡ self.now.machine.value }
    {
        &self.machine
    }
}
