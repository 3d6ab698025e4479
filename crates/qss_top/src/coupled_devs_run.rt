//! Runs a machine as a coupled DEVS model and writes its rows.

ghost use Rattle.std.specs.Prelude.{◌≡◌, true};
ghost use Rattle.qss_top.specs.Prelude.{plain_options};
ghost use Rattle.qss_top.specs.Frames.{WritesAnswer};
ghost use Rattle.qss_top.specs.MachineAnswers.{printed_run_answer};

use crate::command_outcome::Outcome;
use mu_io::Sink;
use qss_devs::write_devs_run;
use qss_machine::Machine;
use std::alloc::Global;

/// Runs a machine as coupled components and writes its rows.
/// The header and each row are written at once, each by a separate write.
#[inline(never)]
pub(crate) fn coupled_machine<O: Sink>(alloc: Global, m: Machine, out: &mut O) -> Outcome
    ensures { WritesAnswer O.written O.faults O.failed true
        (λ answer. answer ≡ printed_run_answer plain_options m) result out.old out.new }
{
    Outcome::from(write_devs_run(alloc, m, None, out))
}
