//! The reasons why two runs cannot be compared.

use crate::refusal::Refusal;
use std::alloc::AllocError;

/// The reason why a comparison of two runs has no text.
#[derive(Clone, Copy, Debug, PartialEq, Eq)]
pub enum ComparisonStop {
    /// The comparison is rejected.
    Refused(Refusal),
    /// A run of the machine overflows at this tick, in the variable with this number. States come
    /// first.
    Over { tick: u64, var: u32 },
    /// Out of memory.
    Memory,
}

impl From<AllocError> for ComparisonStop {
    ghost use Rattle.std.specs.Prelude.{◌≡◌};
    ghost use Rattle.qss_answers.specs.declared.comparison_ending.ComparisonStop.TheVariants.{Memory};

    ghost from_gives = { λ _ stop. stop ≡ Memory };

    fn from(_: AllocError) -> ComparisonStop {
        ComparisonStop::Memory
    }
}
