//! Runs a coupled model as a simulation whose rows are printed event by event.

ghost use Rattle.std.specs.Prelude.{◌≡◌, ◌≢◌, Some, All, true};
ghost use Rattle.qss_devs.specs.Prelude.{Floor, remaining_rows, HasVariable, Appends, AppendsPrefix, EndsByFault, run_by_rule, run_text, IsRunResult, IsRunCutShort, is_whole};
ghost use Rattle.qss_devs.specs.CoupledEvents.{view_of};

use crate::coupled_model::Coupled;
use mu_io::{Name, Sink};
use qss_events::Outcome;
use qss_machine::Machine;
use qss_quant::{Quantizer, Rule, quantize_to_floor_level};
use qss_rows::{Filter, LineWriter, RunEnd, RunResult, Simulation, write_simulation};
use std::alloc::{AllocError, Global};

/// A run of a machine as a coupled model under the rule `floor`, with a filter for its rows.
#[derive(Drop)]
pub(crate) struct CoupledRun {
    pub model: Coupled,
    pub filter: Filter,
    pub ghost named: { model.quantizer.value.name ≡ Some Floor },
    pub ghost known: { All (HasVariable model.machine.value) (remaining_rows Floor
        (view_of model.machine.value model.tick model.store model.end)) },
}

impl Simulation for CoupledRun {
    ghost use Rattle.std.specs.Prelude.{◌-◌, None};
    ghost use Rattle.qss_devs.specs.Prelude.{level_by, rows_left, row_lines, remaining_run, outcome_of, EndsFrom};

    ghost machine = { λ run. run.model.machine.value };

    ghost present = { λ run. row_lines run.filter run.model.machine.value
        run.model.store.rows.items };

    ghost to_come = { λ run. row_lines run.filter run.model.machine.value
        (rows_left (level_by Floor)
        (view_of run.model.machine.value run.model.tick run.model.store run.model.end)) };

    ghost ticks_left = { λ run. run.model.machine.value.last - run.model.tick };

    ghost goes_on = { λ run. run.model.end ≡ None };

    ghost ends = { λ run end. EndsFrom (outcome_of end) run.model.tick
        (remaining_run Floor
        (view_of run.model.machine.value run.model.tick run.model.store run.model.end)) };

    fn next_event(&mut self) -> Option<RunEnd> {
        match self.model.next_event() {
            Outcome::Events { .. } => None,
            Outcome::Done => Some(RunEnd::Done),
            Outcome::Over { tick, var } => Some(RunEnd::Over { tick, var }),
        }
    }

    fn row_count(&self) -> usize {
        self.model.rows().len()
    }

    #[inline(always)]
    fn add_line(&self, row: usize, lines: &mut LineWriter) -> Result<(), AllocError> {
        let m = self.model.machine();
        let row = &self.model.rows()[row];
        if !self.filter.passes(row, m) {
            return Ok(());
        }
        lines.write(row, m)
    }

    fn machine(&self) -> &Machine {
        self.model.machine()
    }
}

/// Runs a machine as a coupled model under the rule `floor`. Writes the header and the rows of the
/// run to `out`, event by event. With a name in `only`, it writes only the rows that the filter
/// passes. Each line is one write.
pub fn write_devs_run<O: Sink>(
    alloc: Global,
    m: Machine,
    only: Option<Name>,
    out: &mut O,
) -> RunResult
    ensures end { IsRunResult m (run_by_rule Floor m) result }

    // If the run ends or overflows, all its rows are written; otherwise a prefix of the text.
    ensures whole { is_whole result ≡ true → Appends (O.written out.old) (O.written out.new)
        (run_text only m (run_by_rule Floor m)) }
    ensures prefix { AppendsPrefix (O.written out.old) (O.written out.new)
        (run_text only m (run_by_rule Floor m)) }

    // If an allocation fails, the text is empty, or ends after a whole line, or is complete up to
    // an overflow.
    ensures out_of_memory_prefix { result ≡ RunResult.Memory
        → IsRunCutShort O.written only m (run_by_rule Floor m) out.old out.new }

    // `out` fails only if the result is `Fault`, and nothing is written to it after the failure.
    ensures no_new_fault { result ≢ RunResult.Fault → O.faults out.new ≡ O.faults out.old }
    ensures fault_was_last { result ≡ RunResult.Fault → EndsByFault O.faults O.failed out.old out.new }
{
    let quantizer = Quantizer::new(quantize_to_floor_level, Some(Rule::Floor));
    match Coupled::new(alloc, m, quantizer) {
        Ok(model) => {
            let filter = Filter::new(only);
            let mut run = CoupledRun { model, filter };
            write_simulation(alloc, &mut run, out)
        }
        Err(_) => RunResult::Memory,
    }
}
