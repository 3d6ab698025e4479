//! Writes the second-order run of a machine, and rejects a machine with clauses.

ghost use Rattle.std.specs.Prelude.{[], ◌≡◌, true};
ghost use Rattle.qss_top.specs.Frames.{WritesAnswer};
ghost use Rattle.qss_top.specs.MachineAnswers.{second_run_answer, run2_answer};

use crate::command_outcome::Outcome;
use mu_io::Sink;
use qss_answers::Refusal;
use qss_machine::Machine;
use qss_order2::write_second_order;
use std::alloc::Global;

/// Writes the second-order run of a machine, and rejects a machine with clauses.
#[inline(never)]
pub(crate) fn second_machine<O: Sink>(alloc: Global, m: Machine, out: &mut O) -> Outcome
    ensures { WritesAnswer O.written O.faults O.failed true
        (λ answer. answer ≡ run2_answer m) result out.old out.new }
{
    let clauses = m.clauses.as_slice().len();
    if clauses == 0 {
        run_second(alloc, m, out)
    } else {
        Outcome::Rejected(Refusal::Clauses {
            count: clauses as u32,
        })
    }
}

// Runs a machine without clauses. The header and each row are written by separate writes.
fn run_second<O: Sink>(alloc: Global, m: Machine, out: &mut O) -> Outcome
    requires { m.clauses ≡ [] }
    ensures { WritesAnswer O.written O.faults O.failed true (λ answer. answer ≡ second_run_answer m)
        result out.old out.new }
{
    Outcome::from(write_second_order(alloc, m, out))
}
