//! Runs a machine by a named rule and writes the rows that pass a filter to a sink.

ghost use Rattle.std.specs.Prelude.{◌≡◌, ◌≢◌, ◌<◌, Some, All, true};
ghost use Rattle.qss_run.specs.Prelude.{remaining_rows, HasVariable, Appends, AppendsPrefix, EndsByFault, run_by_rule, run_text, IsRunResult, IsRunCutShort, IsRunWritten, is_whole};

use crate::sim::Sim;
use mu_io::{Name, Sink};
use qss_events::Outcome;
use qss_machine::Machine;
use qss_quant::{
    Quantizer, Rule, Steps, quantize_to_floor_level, quantize_to_inward_level,
    quantize_to_near_level,
};
use qss_rows::{Filter, LineWriter, RunEnd, RunResult, Simulation, write_simulation};
use std::alloc::{AllocError, Global};
use std::marker::Brand;
use std::sync::ledger::{Blank, Ledger};

/// A run of a machine by a named rule, and the filter for the rows that are written.
#[derive(Drop)]
pub(crate) struct RuledRun<L: Ledger> {
    pub sim: Sim,
    pub steps: Steps<L>,
    pub rule: Rule,
    pub filter: Filter,
    pub ghost named: { sim.quantizer.name ≡ Some rule },
    pub ghost known: { All (HasVariable sim.run.machine) (remaining_rows rule sim.run) },
}

impl<L: Ledger> Simulation for RuledRun<L> {
    ghost use Rattle.std.specs.Prelude.{◌-◌, None};
    ghost use Rattle.qss_run.specs.Prelude.{level_by, rows_left, row_lines, remaining_run, outcome_of, EndsFrom};

    ghost machine = { λ run. run.sim.run.machine };

    ghost present = { λ run. row_lines run.filter run.sim.run.machine run.sim.run.rows };

    ghost to_come = { λ run. row_lines run.filter run.sim.run.machine
        (rows_left (level_by run.rule) run.sim.run) };

    ghost ticks_left = { λ run. run.sim.run.machine.last - run.sim.run.tick };

    ghost goes_on = { λ run. run.sim.run.end ≡ None };

    ghost ends = { λ run end. EndsFrom (outcome_of end) run.sim.run.tick
        (remaining_run run.rule run.sim.run) };

    fn next_event(&mut self) -> Option<RunEnd> {
        match self.sim.next_event(&mut self.steps) {
            Outcome::Events { .. } => None,
            Outcome::Done => Some(RunEnd::Done),
            Outcome::Over { tick, var } => Some(RunEnd::Over { tick, var }),
        }
    }

    fn row_count(&self) -> usize {
        self.sim.rows().len()
    }

    #[inline(always)]
    fn add_line(&self, row: usize, lines: &mut LineWriter) -> Result<(), AllocError> {
        let m = self.sim.machine();
        let row = &self.sim.rows()[row];
        if !self.filter.passes(row, m) {
            return Ok(());
        }
        lines.write(row, m)
    }

    fn machine(&self) -> &Machine {
        self.sim.machine()
    }
}

/// Runs a machine by a rule. It writes the header and the rows that pass a filter with this name to
/// `out`, event by event. Each line is one write.
pub fn write_run_by_rule<O: Sink>(
    alloc: Global,
    m: Machine,
    rule: Rule,
    only: Option<Name>,
    out: &mut O,
) -> RunResult
    ensures end { IsRunResult m (run_by_rule rule m) result }

    // If the run ends or overflows, the complete text is written. Otherwise a prefix of it is
    // written.
    ensures whole { is_whole result ≡ true
        → Appends (O.written out.old) (O.written out.new) (run_text only m (run_by_rule rule m)) }
    ensures prefix { AppendsPrefix (O.written out.old) (O.written out.new)
        (run_text only m (run_by_rule rule m)) }

    // If allocation fails, the text is empty, or ends after a complete line. All lines may be
    // written only if a variable overflowed.
    ensures out_of_memory_prefix { result ≡ RunResult.Memory
        → IsRunCutShort O.written only m (run_by_rule rule m) out.old out.new }

    // A failure of `out` is reported in the result, and `out` is not written to after it.
    ensures no_new_fault { result ≢ RunResult.Fault → O.faults out.new ≡ O.faults out.old }
    ensures fault_was_last { result ≡ RunResult.Fault → EndsByFault O.faults O.failed out.old out.new }
{
    let blank = Blank::new(1);
    match rule {
        Rule::Floor => {
            let quantizer = Quantizer::new(quantize_to_floor_level, Some(Rule::Floor));
            write_run_by::<Brand, O>(blank, alloc, m, quantizer, rule, only, out)
        }
        Rule::Near => {
            let quantizer = Quantizer::new(quantize_to_near_level, Some(Rule::Near));
            write_run_by::<Brand, O>(blank, alloc, m, quantizer, rule, only, out)
        }
        Rule::Inward => {
            let quantizer = Quantizer::new(quantize_to_inward_level, Some(Rule::Inward));
            write_run_by::<Brand, O>(blank, alloc, m, quantizer, rule, only, out)
        }
    }
}

// Runs a machine by the quantizer of a rule.
fn write_run_by<L: Ledger, O: Sink>(
    blank: Blank,
    alloc: Global,
    m: Machine,
    quantizer: Quantizer,
    rule: Rule,
    only: Option<Name>,
    out: &mut O,
) -> RunResult
    requires name { blank.name ≡ L.name }
    requires parts { blank.parts ≡ L.parts }
    requires some { 0 < L.parts }
    requires named { quantizer.name ≡ Some rule }
    ensures { IsRunWritten O.written O.faults O.failed m (run_by_rule rule m) only result out.old
        out.new }
{
    match Sim::new(alloc, m, quantizer) {
        Ok(sim) => {
            let (book, share) = blank.open::<L>();
            let steps = Steps::new(book, share);
            let filter = Filter::new(only);
            let mut run = RuledRun {
                sim,
                steps,
                rule,
                filter,
            };
            write_simulation(alloc, &mut run, out)
        }
        Err(_) => RunResult::Memory,
    }
}
