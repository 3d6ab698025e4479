//! The reasons why a model has no flat model, in the order of unrolling.

use mu_num::NumErr;
use std::alloc::{AllocError, AllocFailed};

/// The first fault in the order of unrolling. Each `at` is a byte offset in the source.
#[derive(Clone, Copy, PartialEq, Eq, Debug, Drop)]
pub enum UnrollErr {
    /// An integer index of the name at `at` is not from 1 to the array size.
    Index { at: u32, value: i128, size: u32 },
    /// A bound of the loop over the variable at `at`, or an index of the name at `at`, is no
    /// integer.
    NotWhole { at: u32 },
    /// A limit is exceeded. `count` is the limit plus one.
    TooMany { count: u32 },
    /// A literal, or a part of a bound, an index or a start value, has no value.
    ConstFault { at: u32, fault: NumErr },
    /// Out of memory.
    Memory,
}

impl From<AllocError> for UnrollErr {
    ghost use Rattle.std.specs.Prelude.{◌≡◌};
    ghost use Rattle.mu_unroll.specs.declared.unroll_fault.UnrollErr.TheVariants.{Memory};

    ghost from_gives = { λ _ fault. fault ≡ Memory };

    fn from(_: AllocError) -> UnrollErr {
        UnrollErr::Memory
    }
}

impl<T: Drop> From<AllocFailed<T>> for UnrollErr {
    ghost use Rattle.std.specs.Prelude.{◌≡◌};
    ghost use Rattle.mu_unroll.specs.declared.unroll_fault.UnrollErr.TheVariants.{Memory};

    ghost from_gives = { λ _ fault. fault ≡ Memory };

    fn from(_: AllocFailed<T>) -> UnrollErr {
        UnrollErr::Memory
    }
}
