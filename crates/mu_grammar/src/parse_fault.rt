//! Parse errors: the reason why a list of tokens does not parse as a model.

use std::alloc::AllocError;

/// The reason why a token list does not parse as a model.
#[derive(Clone, Copy, Debug, PartialEq, Eq)]
pub enum ParseErr {
    /// The first token, counted from 0, after which the input is not a prefix of any model. If the
    /// input ends too early, the number of tokens.
    Syntax { token: u32 },
    /// The first token after which every completion is a model nested more than 64 levels deep.
    Deep { token: u32 },
    /// Out of memory.
    Memory,
}

impl From<AllocError> for ParseErr {
    ghost use Rattle.std.specs.Prelude.{◌≡◌};
    ghost use Rattle.mu_grammar.specs.declared.parse_fault.ParseErr.TheVariants.{Memory};

    ghost from_gives = { λ _ e. e ≡ Memory };

    fn from(_error: AllocError) -> ParseErr {
        ParseErr::Memory
    }
}
