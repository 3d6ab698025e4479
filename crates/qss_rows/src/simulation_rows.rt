//! The interface of simulations, and the writing of their runs: the header and the rows are written
//! to a sink event by event. The result states how the run ended.

ghost use Rattle.std.specs.Prelude.{◌≡◌, ◌<◌, ◌++◌, [], ◌≢◌, ◌+◌, ◌-◌, ◌≤◌, ℕ, List, Option, None, length, IfSome, IsSome, OnOk, OnErr, Some, slice_index, true, IfOk};
ghost use Rattle.qss_rows.specs.Prelude.{Machine, result_err};
ghost use Rattle.qss_rows.specs.HeldLines.{lines_in, is_finished};
ghost use Rattle.qss_rows.specs.RowTexts.{header as header_line};
ghost use Rattle.qss_rows.specs.Simulations.{line_at, bytes_in, IsEndIn, text_in, StopsAtLine, IsResultOf, IsSimulated};
ghost use Rattle.qss_rows.specs.Writes.{IsWriting};
ghost use Rattle.qss_rows.specs.declared.simulation_rows.RunEnd.{RunEnd};

use crate::line_writer::{LineWriter, header, line_variable_name};
use memchr::memchr;
use mu_io::{Name, Sink, WriteErr, write_all};
use qss_machine::Machine;
use std::alloc::{AllocError, Global};

// The byte that ends a line.
const LINE_FEED: u8 = b'\n';

/// A run of a machine that advances from event to event, and formats the rows of each event.
pub trait Simulation {
    /// The machine.
    ghost machine: { Self → Machine };

    /// For each row of the last event, or each start row at tick 0: its line, or none if the row is
    /// not to be written.
    ghost present: { Self → List (Option (List ℕ)) };

    /// The same for all rows of the events that remain.
    ghost to_come: { Self → List (Option (List ℕ)) };

    /// An upper bound on the number of remaining ticks.
    ghost ticks_left: { Self → ℕ };

    /// The run has not ended.
    ghost goes_on: { Self → Type 0 };

    /// The remaining run ends in this way.
    ghost ends: { Self → RunEnd → Type 0 };

    /// Advances to the next event. If there is none, it advances to the end of the run and returns
    /// how the run ended.
    fn next_event(&mut self) -> Option<RunEnd>
        requires { goes_on self.old }
        ensures machine { machine self.new ≡ machine self.old }
        ensures lines { to_come self.old ≡ present self.new ++ to_come self.new }
        ensures unended { result ≡ None
            → (goes_on self.new) × (ticks_left self.new < ticks_left self.old) }
        ensures same_end { (end : RunEnd) → result ≡ None → ends self.new end → ends self.old end }
        ensures ended { IfSome result (λ end. (to_come self.new ≡ []) × (ends self.old end) × IsEndIn (machine self.old) end) };

    /// The number of rows of the last event.
    fn row_count(&self) -> usize
        ensures { result ≡ length (present self.now) };

    /// Adds the line of the row with this index to `lines`, or nothing if the row is not to be
    /// written.
    fn add_line(&self, row: usize, lines: &mut LineWriter) -> Result<(), AllocError>
        requires { row < length (present self.now) }
        ensures added { OnOk result
            (lines_in lines.new ≡ lines_in lines.old ++ bytes_in (line_at (present self.now) row)) }
        ensures memory_was_needed { OnErr result (IsSome (line_at (present self.now) row)) };

    /// Borrows the machine.
    fn machine(&self) -> &Machine
        ensures { result.now ≡ machine self.now };
}

/// Why bytes were not written: the sink failed (`Fault`), or allocation failed (`Memory`).
#[derive(Clone, Copy, Debug, PartialEq, Eq, Drop)]
pub enum WriteStop {
    Fault,
    Memory,
}

/// How a run ends.
#[derive(Clone, Copy, Drop)]
pub enum RunEnd {
    /// At its last tick.
    Done,
    /// By an overflow of the variable with this index at this tick.
    Over { tick: u64, var: u32 },
}

/// The result of writing a run.
#[derive(Drop)]
pub enum RunResult {
    /// The run reached its last tick, and all its rows were written.
    Ended,
    /// The variable with this name exceeded its limit at this tick, and all rows of the run were
    /// written.
    Overflowed { name: Name, tick: u64 },
    /// The sink failed.
    Fault,
    /// Allocation failed.
    Memory,
}

/// Writes the header and the rows of a run, from the current event of its simulation to the end,
/// event by event. Each line is one write. It returns how the run ended, or why it was not written.
pub fn write_simulation<S: Simulation, O: Sink>(
    alloc: Global,
    sim: &mut S,
    out: &mut O,
) -> RunResult
    requires { S.goes_on sim.old }
    ensures { IsSimulated O.written O.faults O.failed (S.machine sim.old) (S.ends sim.old)
        (S.present sim.old ++ S.to_come sim.old) result out.old out.new }
{
    match write_simulation_run(alloc, sim, out) {
        Ok(end) => simulation_result(alloc, sim.machine(), end),
        Err(WriteStop::Fault) => RunResult::Fault,
        Err(WriteStop::Memory) => RunResult::Memory,
    }
}

// Writes the header and the rows of a run to its end.
fn write_simulation_run<S: Simulation, O: Sink>(
    alloc: Global,
    sim: &mut S,
    out: &mut O,
) -> Result<RunEnd, WriteStop>
    requires { S.goes_on sim.old }
    ensures machine { S.machine sim.new ≡ S.machine sim.old }
    ensures written { IsWriting O.written O.faults O.failed (result_err result) out.old out.new
        (header_line ++ text_in (S.present sim.old ++ S.to_come sim.old)) }
    ensures stopped { result_err result ≡ Some WriteStop.Memory
        → StopsAtLine O.written header_line (S.present sim.old ++ S.to_come sim.old) out.old
        out.new }
    ensures end { IfOk result (λ end. (S.ends sim.old end) × IsEndIn (S.machine sim.old) end) }
{
    write_simulation_bytes(header(), out)?;
    let mut lines = LineWriter::new(alloc);
    write_simulation_events(sim, &mut lines, out)
}

/// Writes all bytes, or a prefix of them if the sink fails.
pub fn write_simulation_bytes<O: Sink>(bytes: &[u8], out: &mut O) -> Result<(), WriteStop>
    ensures written { IsWriting O.written O.faults O.failed (result_err result) out.old out.new
        bytes.now }
    ensures no_memory { result_err result ≢ Some WriteStop.Memory }
{
    match write_all(out, bytes) {
        Ok(()) => Ok(()),
        Err(WriteErr::Fault) => Err(WriteStop::Fault),
    }
}

/// Writes the rows of a run from the current event of its simulation to the end, and returns how
/// the run ended.
pub(crate) fn write_simulation_events<S: Simulation, O: Sink>(
    sim: &mut S,
    lines: &mut LineWriter,
    out: &mut O,
) -> Result<RunEnd, WriteStop>
    requires { S.goes_on sim.old }
    ensures machine { S.machine sim.new ≡ S.machine sim.old }
    ensures written { IsWriting O.written O.faults O.failed (result_err result) out.old out.new
        (text_in (S.present sim.old ++ S.to_come sim.old)) }
    ensures stopped { result_err result ≡ Some WriteStop.Memory
        → StopsAtLine O.written [] (S.present sim.old ++ S.to_come sim.old) out.old out.new }
    ensures end { IfOk result (λ end. (S.ends sim.old end) × IsEndIn (S.machine sim.old) end) }
{
    write_last_event(sim, lines, out)?;
    'events: loop {
        match write_simulation_event(sim, lines, out)? {
            None => continue 'events,
            Some(end) => return Ok(end),
        }
    }
}

// Writes the rows of the last event. If allocation fails, it writes none of them.
#[inline(always)]
fn write_last_event<S: Simulation, O: Sink>(
    sim: &S,
    lines: &mut LineWriter,
    out: &mut O,
) -> Result<(), WriteStop>
    ensures written { IsWriting O.written O.faults O.failed (result_err result) out.old out.new
        (text_in (S.present sim.now)) }
    ensures stopped { result_err result ≡ Some WriteStop.Memory
        → StopsAtLine O.written [] (S.present sim.now) out.old out.new }
{
    match make_simulation_lines(sim, lines) {
        Ok(()) => write_simulation_lines(lines.text(), sim.row_count(), out),
        Err(_) => Err(WriteStop::Memory),
    }
}

// Formats the rows of the last event. Allocation can fail only if at least one of these rows is to
// be written.
#[inline(always)]
fn make_simulation_lines<S: Simulation>(sim: &S, lines: &mut LineWriter) -> Result<(), AllocError>
    ensures made { OnOk result (lines_in lines.new ≡ text_in (S.present sim.now)) }
    ensures finished { OnOk result (is_finished lines.new ≡ true) }
    ensures memory_was_needed { OnErr result ((row : ℕ) × IsSome (line_at (S.present sim.now) row)) }
{
    lines.clear();
    for row in 0..sim.row_count() {
        sim.add_line(row, lines)?;
    }
    lines.finish()
}

/// Writes these lines, each by its own call of `write_simulation_bytes`. The last of `count` calls writes the
/// rest. Without lines, it writes nothing and makes no call. If the sink fails, a prefix of the
/// lines is written.
#[inline(always)]
pub(crate) fn write_simulation_lines<O: Sink>(
    lines: &[u8],
    count: usize,
    out: &mut O,
) -> Result<(), WriteStop>
    ensures written { IsWriting O.written O.faults O.failed (result_err result) out.old out.new
        lines.now }
    ensures no_memory { result_err result ≢ Some WriteStop.Memory }
{
    if lines.is_empty() {
        return Ok(());
    }
    let mut rest = lines;
    for _ in 1..count {
        let length = first_simulation_lines_length(rest);
        write_simulation_bytes(&rest[..length], out)?;
        rest = &rest[length..];
    }
    write_simulation_bytes(rest, out)
}

// The length of the first line, including its line feed, or of the whole text if it has no line
// feed.
fn first_simulation_lines_length(lines: &[u8]) -> usize
    ensures within { result ≤ length lines.now }
    ensures whole { result < length lines.now → slice_index lines.now (result - 1) ≡ LINE_FEED }
    ensures one { (k : ℕ) → k + 1 < result → slice_index lines.now k ≢ LINE_FEED }
{
    match memchr(LINE_FEED, lines) {
        Some(at) => at + 1,
        None => lines.len(),
    }
}

// Advances to the next event of a run, and writes its rows.
fn write_simulation_event<S: Simulation, O: Sink>(
    sim: &mut S,
    lines: &mut LineWriter,
    out: &mut O,
) -> Result<Option<RunEnd>, WriteStop>
    requires { S.goes_on sim.old }
    ensures machine { S.machine sim.new ≡ S.machine sim.old }
    ensures lines { S.to_come sim.old ≡ S.present sim.new ++ S.to_come sim.new }
    ensures unended { IfOk result
        (λ next. next ≡ None
        → (S.goes_on sim.new) × (S.ticks_left sim.new < S.ticks_left sim.old)) }
    ensures same_end { IfOk result
        (λ next. (end : RunEnd) → next ≡ None → S.ends sim.new end → S.ends sim.old end) }
    ensures ended { IfOk result
        (λ next. IfSome next
        (λ end. (S.to_come sim.new ≡ [])
        × (S.ends sim.old end)
        × IsEndIn (S.machine sim.old) end)) }
    ensures written { IsWriting O.written O.faults O.failed (result_err result) out.old out.new
        (text_in (S.present sim.new)) }
    ensures stopped { result_err result ≡ Some WriteStop.Memory
        → StopsAtLine O.written [] (S.present sim.new) out.old out.new }
{
    let end = sim.next_event();
    write_last_event(sim, lines, out)?;
    Ok(end)
}

// The result of a run with this end, after all its rows were written.
fn simulation_result(alloc: Global, m: &Machine, end: RunEnd) -> RunResult
    requires { IsEndIn m.now end }
    ensures { IsResultOf m.now end result }
{
    match end {
        RunEnd::Done => RunResult::Ended,
        RunEnd::Over { tick, var } => match Name::new(alloc, line_variable_name(m, var)) {
            Ok(name) => RunResult::Overflowed { name, tick },
            Err(_) => RunResult::Memory,
        },
    }
}
