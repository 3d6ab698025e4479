//! The errors of the conversion of a flat model to affine forms. Each error has the byte offset of
//! the part that has it.

use mu_num::NumErr;
use std::alloc::{AllocError, AllocFailed};

/// The first error of a form, with the byte offset in the source of the part that has it.
#[derive(Clone, Copy, PartialEq, Eq, Debug, Drop)]
pub enum AffineErr {
    /// A product, divisor or base of a power is not affine, or a product of a discrete variable and
    /// a state occurs outside equations.
    NotAffine { at: u32 },
    /// The time occurs in an equation.
    TimeHere { at: u32 },
    /// A number of the part exceeds 2^62 in lowest terms, or a divisor is 0.
    ConstFault { at: u32, fault: NumErr },
    /// The forms have more nonzero coefficients than the limit. `count` is the limit plus one.
    TooDense { count: u32 },
    /// Out of memory.
    Memory,
}

impl From<AllocError> for AffineErr {
    ghost use Rattle.std.specs.Prelude.{◌≡◌};
    ghost use Rattle.mu_affine.specs.declared.affine_fault.AffineErr.TheVariants.{Memory};

    ghost from_gives = { λ _ why. why ≡ Memory };

    fn from(_: AllocError) -> AffineErr {
        AffineErr::Memory
    }
}

impl<T: Drop> From<AllocFailed<T>> for AffineErr {
    ghost use Rattle.std.specs.Prelude.{◌≡◌};
    ghost use Rattle.mu_affine.specs.declared.affine_fault.AffineErr.TheVariants.{Memory};

    ghost from_gives = { λ _ why. why ≡ Memory };

    fn from(_: AllocFailed<T>) -> AffineErr {
        AffineErr::Memory
    }
}
