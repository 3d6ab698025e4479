//! Why bytes are not the text of a certificate or of a trace.

use std::alloc::{AllocError, AllocFailed};

/// The reason why bytes are not the text of a certificate or of a trace.
/// Records (`line`) and fields count from 1. The keyword is field 1.
#[derive(Clone, Copy, Debug, PartialEq, Eq)]
pub enum TextErr {
    /// The first field is not the expected keyword, or no further record is expected.
    Keyword { line: u32 },
    /// The record has `got` fields instead of `want`.
    Shape { line: u32, want: u32, got: u32 },
    /// A field is not a whole number of at most 39 digits, or its absolute value exceeds 2^126 or
    /// the limit of a number of a trace.
    Number { line: u32, field: u32 },
    /// The bytes end before this record.
    Missing { line: u32 },
    /// The number in the first record is not the number of a version of the text.
    Form { got: i128 },
    /// Out of memory.
    Memory,
}

impl From<AllocError> for TextErr {
    ghost use Rattle.std.specs.Prelude.{◌≡◌};
    ghost use Rattle.cert_check.specs.declared.text_err.TextErr.TheVariants.{Memory};

    ghost from_gives = { λ _ why. why ≡ Memory };

    fn from(_: AllocError) -> TextErr {
        TextErr::Memory
    }
}

impl<T: Drop> From<AllocFailed<T>> for TextErr {
    ghost use Rattle.std.specs.Prelude.{◌≡◌};
    ghost use Rattle.cert_check.specs.declared.text_err.TextErr.TheVariants.{Memory};

    ghost from_gives = { λ _ why. why ≡ Memory };

    fn from(_: AllocFailed<T>) -> TextErr {
        TextErr::Memory
    }
}
