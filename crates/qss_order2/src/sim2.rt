//! The second-order simulator: a machine without clauses at one tick of its run, with its rule for
//! the slopes of levels.

ghost use Rattle.std.specs.Prelude.{◌≡◌};

use crate::order2_rows::Row2;
use crate::outcome2::Outcome2;
use crate::second_run_state::SecondRunState;
use crate::slope_rule::SlopeRule;
use qss_machine::Machine;
use std::alloc::{AllocError, Global};

/// A second-order simulator (QSS2; Kofman 2002) of a machine without clauses, with its rule. It
/// computes only ticks at which a state is requantized, multiples of 65,536, and the last tick.
#[derive(Drop)]
pub struct Sim2 {
    pub run: SecondRunState,
    pub rule: SlopeRule,
}

impl Sim2 {
    ghost use Rattle.std.specs.Prelude.{◌≡◌, ◌++◌, true, None, Some, [], IfOk};
    ghost use Rattle.qss_order2.specs.Events.{IsStarted, IsNext2, rows2_left};
    ghost use Rattle.qss_order2.specs.SecondSteps.{nearest_change};
    ghost use Rattle.qss_order2.specs.SlopeRules.{IsRuled2};
    ghost use Rattle.qss_order2.specs.declared.outcome2.Outcome2.{Outcome2};

    /// A simulator at tick 0, with the start rows. Allocates all memory that the run needs.
    pub fn new(alloc: Global, m: Machine, rule: SlopeRule) -> Result<Sim2, AllocError>
        requires { m.clauses ≡ [] }
        ensures start { IfOk result (λ sim. IsStarted (IsRuled2 rule.nearest) m sim.run) }
        ensures rule { IfOk result (λ sim. sim.rule ≡ rule) }
    {
        let run = SecondRunState::new(alloc, m, &rule)?;
        Ok(Sim2 { run, rule })
    }

    /// Advances to the next tick with rows, to an overflow, or to the last tick. After the end of
    /// the run it returns the last outcome again and changes nothing. Allocates no memory.
    pub fn next_event(&mut self) -> Outcome2
        ensures same { (self.new.run.machine ≡ self.old.run.machine)
            × (self.new.rule ≡ self.old.rule) }
        ensures again { (end : Outcome2) → self.old.run.end ≡ Some end
            → (result ≡ end) × (self.new.run ≡ self.old.run) }
        ensures next { self.old.run.end ≡ None
            → IsNext2 (IsRuled2 self.old.rule.nearest) self.old.run self.new.run result }
        ensures rows { self.old.rule.nearest ≡ true
            → self.old.run.end ≡ None
            → rows2_left nearest_change self.old.run
            ≡ self.new.run.rows ++ rows2_left nearest_change self.new.run }
    {
        self.run.next_event(&self.rule)
    }

    /// The rows of the last event, or the start rows at tick 0.
    pub fn rows(&self) -> &[Row2]
        ensures { result.now ≡ self.now.run.rows }
    {
        self.run.rows()
    }

    /// Borrows the machine.
    pub fn machine(&self) -> &Machine
        ensures { result.now ≡ self.now.run.machine }
    {
        self.run.machine()
    }
}
