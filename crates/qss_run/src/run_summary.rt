//! Runs a machine without writing its rows, and returns only a summary of them.

ghost use Rattle.std.specs.Prelude.{◌≡◌, ◌<◌, ◌^◌, ◌≤◌, None, Some, unsigned_abs};
ghost use Rattle.qss_run.specs.Prelude.{Floor, first_view, run_by_rule};
ghost use Rattle.qss_run.specs.RunSummaries.{IsSummary, IsCountFrom};
ghost use Rattle.qss_run.specs.RunSummaries as Spec;

use crate::sim::Sim;
use mu_io::Name;
use qss_events::Outcome;
use qss_machine::{Machine, Row, RowKind};
use qss_quant::{Quantizer, Rule, Steps, quantize_to_floor_level};
use qss_rows::line_variable_name;
use std::alloc::Global;
use std::marker::Brand;
use std::sync::ledger::{Blank, Ledger};

/// The summary of a run.
#[derive(Drop)]
pub enum RunSummary {
    /// The run reached its last tick: the number of changes of levels, and the sum of the levels at
    /// the end.
    Ended { levels: u128, sum: i128 },
    /// The variable with this name exceeds its limit at this tick.
    Overflowed { name: Name, tick: u64 },
    /// Allocation failed.
    Memory,
}

// The outcome of a run, and the number of changes of levels.
#[derive(Clone, Copy, Debug)]
struct Counted {
    outcome: Outcome,
    levels: u128,
}

/// Runs a machine by the rule `floor`, and returns the summary of its rows.
pub fn summarize(alloc: Global, m: Machine) -> RunSummary
    ensures { IsSummary m (run_by_rule Floor m) result }
{
    let blank = Blank::new(1);
    summarize_by::<Brand>(blank, alloc, m)
}

fn summarize_by<L: Ledger>(blank: Blank, alloc: Global, m: Machine) -> RunSummary
    requires name { blank.name ≡ L.name }
    requires parts { blank.parts ≡ L.parts }
    requires some { 0 < L.parts }
    ensures { IsSummary m (run_by_rule Floor m) result }
{
    let quantizer = Quantizer::new(quantize_to_floor_level, Some(Rule::Floor));
    match Sim::new(alloc, m, quantizer) {
        Ok(mut sim) => {
            let (book, share) = blank.open::<L>();
            let mut steps = Steps::new(book, share);
            summarize_run(alloc, &mut sim, &mut steps)
        }
        Err(_) => RunSummary::Memory,
    }
}

// Runs a machine from its start.
fn summarize_run<L: Ledger>(alloc: Global, sim: &mut Sim, steps: &mut Steps<L>) -> RunSummary
    requires start { sim.old.run ≡ first_view sim.old.run.machine }
    requires named { sim.old.quantizer.name ≡ Some Floor }
    ensures { IsSummary sim.old.run.machine (run_by_rule Floor sim.old.run.machine) result }
{
    let counted = count_summary_events(sim, steps);
    match counted.outcome {
        Outcome::Over { tick, var } => match Name::new(
            alloc,
            line_variable_name(sim.machine(), var),
        ) {
            Ok(name) => RunSummary::Overflowed { name, tick },
            Err(_) => RunSummary::Memory,
        },
        Outcome::Done => RunSummary::Ended {
            levels: counted.levels,
            sum: summary_end_sum(sim.rows()),
        },
        Outcome::Events { .. } => RunSummary::Memory,
    }
}

// Advances to the end of a run, and counts the changes of levels.
fn count_summary_events<L: Ledger>(sim: &mut Sim, steps: &mut Steps<L>) -> Counted
    requires unended { sim.old.run.end ≡ None }
    requires start { sim.old.run.tick ≡ 0 }
    requires named { sim.old.quantizer.name ≡ Some Floor }
    ensures machine { sim.new.run.machine ≡ sim.old.run.machine }
    ensures counted { IsCountFrom sim.old.run result.levels result.outcome sim.new.run }
{
    let mut levels: u128 = 0;
    'events: loop {
        let outcome = sim.next_event(steps);
        levels += u128::from(summary_level_count(sim.rows()));
        match outcome {
            Outcome::Events { .. } => continue 'events,
            Outcome::Done => return Counted {
                outcome: Outcome::Done,
                levels,
            },
            Outcome::Over { tick, var } => return Counted {
                outcome: Outcome::Over { tick, var },
                levels,
            },
        }
    }
}

// The number of rows that are changes of levels.
fn summary_level_count(rows: &[Row]) -> u64
    ensures { result ≡ Spec.level_count rows.now }
{
    let mut count = 0;
    for row in rows {
        if is_summary_level(row) {
            count += 1;
        }
    }
    count
}

// Whether a row is a change of a level.
fn is_summary_level(row: &Row) -> bool
    ensures { result ≡ Spec.is_level row.now.kind }
{
    matches!(row.kind, RowKind::Level)
}

// The sum of the levels of the end rows.
fn summary_end_sum(rows: &[Row]) -> i128
    ensures { result ≡ Spec.end_sum rows.now }
{
    let mut sum: i128 = 0;
    for row in rows {
        sum += summary_end_level(row);
    }
    sum
}

// The level of an end row, and 0 for any other row.
fn summary_end_level(row: &Row) -> i128
    ensures value { result ≡ Spec.end_level row.now }
    ensures bound { unsigned_abs result ≤ 2 ^ 63 }
{
    match row.kind {
        RowKind::End => i128::from(row.level),
        _ => 0,
    }
}
