//! Runs a machine by the second-order simulator as a simulation whose rows are printed event by
//! event.

ghost use Rattle.std.specs.Prelude.{◌≡◌, ◌≢◌, [], true, All};
ghost use Rattle.qss_order2.specs.Prelude.{Appends, AppendsPrefix, EndsByFault, is_whole};
ghost use Rattle.qss_order2.specs.RemainingSecondRows.{remaining_second_rows};
ghost use Rattle.qss_order2.specs.SecondRowLines.{HasVariable2};
ghost use Rattle.qss_order2.specs.SecondRunTexts.{second_order_run, second_run_text, IsSecondRunResult, IsSecondRunCutShort};

use crate::order2_rows::write_row2;
use crate::outcome2::Outcome2;
use crate::sim2::Sim2;
use crate::slope_rule::{SlopeRule, nearest_level_slope};
use mu_io::Sink;
use qss_machine::Machine;
use qss_rows::{LineWriter, RunEnd, RunResult, Simulation, write_simulation};
use std::alloc::{AllocError, Global};

/// A second-order run of a machine without clauses, under the nearest rule.
#[derive(Drop)]
pub(crate) struct SecondRun {
    pub sim: Sim2,
    pub ghost nearest: { sim.rule.nearest ≡ true },
    pub ghost known: { All (HasVariable2 sim.run.machine) (remaining_second_rows sim.run) },
}

impl Simulation for SecondRun {
    ghost use Rattle.std.specs.Prelude.{◌-◌, None};
    ghost use Rattle.qss_order2.specs.Words.{rows2_left, nearest_change};
    ghost use Rattle.qss_order2.specs.RemainingSecondRows.{row2_lines, overflow_ahead, outcome2_of, EndsAs, IsAble};

    ghost machine = { λ run. run.sim.run.machine };

    ghost present = { λ run. row2_lines run.sim.run.machine run.sim.run.rows };

    ghost to_come = { λ run. row2_lines run.sim.run.machine
        (rows2_left nearest_change run.sim.run) };

    ghost ticks_left = { λ run. run.sim.run.machine.last - run.sim.run.tick };

    ghost goes_on = { λ run. run.sim.run.end ≡ None };

    ghost ends = { λ run end. IsAble run.sim.run
        × EndsAs (outcome2_of end) (overflow_ahead run.sim.run) };

    fn next_event(&mut self) -> Option<RunEnd> {
        match self.sim.next_event() {
            Outcome2::Events { .. } => None,
            Outcome2::Done => Some(RunEnd::Done),
            Outcome2::Over { tick, var } => Some(RunEnd::Over { tick, var }),
        }
    }

    fn row_count(&self) -> usize {
        self.sim.rows().len()
    }

    #[inline(always)]
    fn add_line(&self, row: usize, lines: &mut LineWriter) -> Result<(), AllocError> {
        write_row2(lines, &self.sim.rows()[row], self.sim.machine())
    }

    fn machine(&self) -> &Machine {
        self.sim.machine()
    }
}

/// Runs a machine without clauses under the nearest rule. Writes the header and the rows of its
/// second-order run to `out`, event by event. Each line is one write.
pub fn write_second_order<O: Sink>(alloc: Global, m: Machine, out: &mut O) -> RunResult
    requires { m.clauses ≡ [] }
    ensures end { IsSecondRunResult m (second_order_run m) result }

    // If the run ends or overflows, all its rows are written; otherwise a prefix of the text.
    ensures whole { is_whole result ≡ true
        → Appends (O.written out.old) (O.written out.new) (second_run_text m (second_order_run m)) }
    ensures prefix { AppendsPrefix (O.written out.old) (O.written out.new)
        (second_run_text m (second_order_run m)) }

    // If an allocation fails, the text is empty, or ends after a whole line, or is complete up to
    // an overflow.
    ensures out_of_memory_prefix { result ≡ RunResult.Memory → IsSecondRunCutShort O.written m (second_order_run m) out.old out.new }

    // `out` fails only if the result is `Fault`, and nothing is written to it after the failure.
    ensures no_new_fault { result ≢ RunResult.Fault → O.faults out.new ≡ O.faults out.old }
    ensures fault_was_last { result ≡ RunResult.Fault → EndsByFault O.faults O.failed out.old out.new }
{
    let rule = SlopeRule::new(nearest_level_slope, true);
    match Sim2::new(alloc, m, rule) {
        Ok(sim) => {
            let mut run = SecondRun { sim };
            write_simulation(alloc, &mut run, out)
        }
        Err(_) => RunResult::Memory,
    }
}
