//! Compiles the bytes of a source to a machine with a relative quantum.

ghost use Rattle.std.specs.Prelude.{◌≤◌, length, IfOk, IfErr};
ghost use Rattle.qss_top.specs.Prelude.{relative_limit, model_length_limit, IsRefused};
ghost use Rattle.qss_top.specs.CommandOutcomes.{IsRefusedFor};
ghost use Rattle.qss_top.specs.MachineAnswers.{IsSourceMachine};

use crate::command_outcome::Outcome;
use qss_compile::compile;
use qss_machine::Machine;
use std::alloc::Global;

/// Compiles a source to a machine with this relative quantum, in 4096ths and rounded down.
/// Error: the outcome for a source that is rejected.
#[inline(never)]
pub(crate) fn compile_source(alloc: Global, share: u16, bytes: &[u8]) -> Result<Machine, Outcome>
    requires share { share ≤ relative_limit }
    requires short { length bytes.now ≤ model_length_limit }
    ensures machine { IfOk result (IsSourceMachine share bytes.now) }
    ensures refused { IfErr result (IsRefusedFor (IsRefused bytes.now)) }
{
    match compile(alloc, bytes) {
        Ok(m) => Ok(m.with_relative(share)),
        Err(refused) => Err(Outcome::from(refused)),
    }
}
