//! Executes the tasks on the machine of a source: runs by a rule, second-order runs, coupled runs
//! and proposals.

ghost use Rattle.std.specs.Prelude.{◌≡◌, ◌≤◌, length, true, false, option_map, IfOk};
ghost use Rattle.qss_top.specs.Prelude.{relative_limit, model_length_limit, options_in};
ghost use Rattle.qss_top.specs.Frames.{WritesAnswer};
ghost use Rattle.qss_top.specs.MachineAnswers.{IsProposeAnswer, printed_run_answer};
ghost use Rattle.qss_top.specs.Tasks.{task_goes, task_share, IsSourceAnswer, IsTaskAnswer};

use crate::command_outcome::Outcome;
use crate::coupled_devs_run::coupled_machine;
use crate::second_order_run::second_machine;
use crate::source::compile_source;
use mu_io::{Name, Sink};
use qss_answers::propose_text;
use qss_cli::{Options, Task};
use qss_machine::Machine;
use qss_run::write_run_by_rule;
use std::alloc::{AllocError, Global};

/// Executes a task on the machine of a source.
pub(crate) fn answer_task<O: Sink>(alloc: Global, task: Task, bytes: &[u8], out: &mut O) -> Outcome
    requires { length bytes.now ≤ model_length_limit }
    ensures { WritesAnswer O.written O.faults O.failed (task_goes task.entry)
        (IsSourceAnswer task.entry bytes.now) result out.old out.new }
{
    match compile_source(alloc, share_of(task), bytes) {
        Ok(m) => execute_task_on_machine(alloc, task, m, out),
        Err(what) => what,
    }
}

// The relative quantum of the task, in 4096ths.
fn share_of(task: Task) -> u16
    ensures share { result ≡ task_share task.entry }
    ensures within { result ≤ relative_limit }
{
    match task {
        Task::Run(options) => options.share,
        _ => 0,
    }
}

// Executes a task on a machine.
#[inline(never)]
fn execute_task_on_machine<O: Sink>(alloc: Global, task: Task, m: Machine, out: &mut O) -> Outcome
    ensures { WritesAnswer O.written O.faults O.failed (task_goes task.entry)
        (IsTaskAnswer task.entry m) result out.old out.new }
{
    match task {
        Task::Run(options) => run_machine(alloc, options, m, out),
        Task::Propose => propose_machine(alloc, &m, out),
        Task::Second => second_machine(alloc, m, out),
        Task::Coupled => coupled_machine(alloc, m, out),
    }
}

// Runs a machine. The header and each row are written at once, each by a separate write.
#[inline(never)]
fn run_machine<O: Sink>(alloc: Global, options: Options, m: Machine, out: &mut O) -> Outcome
    ensures { WritesAnswer O.written O.faults O.failed true
        (λ answer. answer ≡ printed_run_answer (options_in options.entry) m) result out.old
        out.new }
{
    match name_of(alloc, options.only) {
        Ok(only) => Outcome::from(write_run_by_rule(alloc, m, options.rule, only, out)),
        Err(_) => Outcome::Memory,
    }
}

// The name, if there is one. Error: out of memory.
fn name_of(alloc: Global, name: Option<&str>) -> Result<Option<Name>, AllocError>
    ensures { IfOk result (λ copy. copy ≡ option_map (λ text. text.now) name.entry) }
{
    match name {
        Some(text) => Ok(Some(Name::new(alloc, text.as_bytes())?)),
        None => Ok(None),
    }
}

// Proposes a certificate of a machine.
#[inline(never)]
fn propose_machine<O: Sink>(alloc: Global, m: &Machine, out: &mut O) -> Outcome
    ensures { WritesAnswer O.written O.faults O.failed false (IsProposeAnswer m.now) result out.old
        out.new }
{
    Outcome::from(propose_text(alloc, m, out))
}
