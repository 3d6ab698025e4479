//! Runs a generated model and writes a summary of its run.

ghost use Rattle.std.specs.Prelude.{◌≡◌, false, IfOk};
ghost use Rattle.qss_top.specs.Frames.{WritesAnswer};
ghost use Rattle.qss_top.specs.MachineAnswers.{IsGenerationAnswer, summary_of, summary_answer};

use crate::command_outcome::Outcome;
use crate::comparison::write_text;
use crate::source::compile_source;
use mu_io::Sink;
use qss_cli::Generation;
use qss_generate::generate;
use qss_machine::Machine;
use qss_run::{RunSummary, summarize};
use std::alloc::{AllocError, Global};

/// Runs a generated model and writes the summary of its run.
#[inline(never)]
pub(crate) fn on_generation<O: Sink>(alloc: Global, generation: Generation, out: &mut O) -> Outcome
    ensures { WritesAnswer O.written O.faults O.failed false
        (IsGenerationAnswer generation.seed generation.cells) result out.old out.new }
{
    match generate(alloc, generation.seed, generation.cells) {
        Ok(source) => match compile_source(alloc, 0, &source) {
            Ok(m) => sum_machine(alloc, generation.cells, m, out),
            Err(what) => what,
        },
        Err(_) => Outcome::Memory,
    }
}

/// Runs a machine and writes the summary of its run.
#[inline(never)]
pub(crate) fn sum_machine<O: Sink>(alloc: Global, cells: u32, m: Machine, out: &mut O) -> Outcome
    ensures { WritesAnswer O.written O.faults O.failed false
        (λ answer. answer ≡ summary_answer cells m) result out.old out.new }
{
    let last = m.last;
    match summarize(alloc, m) {
        RunSummary::Ended { levels, sum } => match summary(alloc, cells, last, levels, sum) {
            Ok(text) => write_text(&text, out),
            Err(_) => Outcome::Memory,
        },
        RunSummary::Overflowed { name, tick } => Outcome::Overflow { name, tick },
        RunSummary::Memory => Outcome::Memory,
    }
}

// The header and the line of the summary of a run.
fn summary(
    alloc: Global,
    cells: u32,
    last: u64,
    levels: u128,
    sum: i128,
) -> Result<Vec<u8>, AllocError>
    ensures { IfOk result (λ text. text.items ≡ summary_of cells last levels sum) }
{
    let text = format!(in alloc; "cells,last,levels,sum\n{cells},{last},{levels},{sum}\n")?;
    Ok(text.into_bytes())
}
