//! The errors of the rounding of affine forms to a machine: the first limit that is exceeded.

use mu_num::Ratio;
use mu_tree::SettingName;
use std::alloc::{AllocError, AllocFailed};

/// The first limit that is exceeded, in the order of these variants.
#[derive(Clone, Copy, Drop)]
pub enum MachineErr {
    /// A setting is invalid. If a sum of settings exceeds its limit, the later setting is reported.
    /// If the last tick exceeds its limit, the stop time is reported.
    Setting { which: SettingName, value: Ratio },
    /// The start value or the initial row of this variable exceeds a limit. It is the least such
    /// variable.
    Start { var: u32 },
    /// The least state whose quantum, rounded down, is not from 1 to 2^32.
    Quantum { var: u32 },
    /// The first row whose coefficients or constant exceed a limit. Rows count from 1: first the
    /// states, then the conditions and statements.
    Coefficient { row: u32 },
    /// Out of memory.
    Memory,
}

impl From<AllocError> for MachineErr {
    ghost use Rattle.std.specs.Prelude.{◌≡◌};
    ghost use Rattle.mu_affine.specs.declared.machine_fault.MachineErr.TheVariants.{Memory};

    ghost from_gives = { λ _ fault. fault ≡ Memory };

    fn from(_: AllocError) -> MachineErr {
        MachineErr::Memory
    }
}

impl<T: Drop> From<AllocFailed<T>> for MachineErr {
    ghost use Rattle.std.specs.Prelude.{◌≡◌};
    ghost use Rattle.mu_affine.specs.declared.machine_fault.MachineErr.TheVariants.{Memory};

    ghost from_gives = { λ _ fault. fault ≡ Memory };

    fn from(_: AllocFailed<T>) -> MachineErr {
        MachineErr::Memory
    }
}
