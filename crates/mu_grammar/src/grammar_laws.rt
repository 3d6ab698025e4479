//! Theorems about the grammar of models and the state machine that decides it. Each is the contract
//! of a function with an empty body.

ghost use Rattle.std.specs.Prelude.{ℕ, List, All};
ghost use Rattle.mu_tree.specs.ModelTree.{ModelTree};
ghost use Rattle.mu_grammar.specs.Grammar.{Symbol};
ghost use Rattle.mu_grammar.specs.ModelGrammar.{GrammarIsUnambiguous, SpellsModel};
ghost use Rattle.mu_grammar.specs.ModelMachine.{model_machine};
ghost use Rattle.mu_grammar.specs.Prefixes.{ParseOrFail, Decides, IsToken, ParseFaultsAreUnique};
ghost use Rattle.mu_grammar.specs.ReadBack.{ReadsBack};
ghost use Rattle.mu_grammar.specs.SourceTokens.{TokensAreTokens};

/// The machine accepts exactly the token lists that parse as a model, and returns this model. From
/// each of its states some tokens lead to a model.
pub fn grammar_machine_decides()
    ensures { Decides model_machine SpellsModel }
{}

/// A token list parses as at most one model.
pub fn grammar_is_unambiguous()
    ensures { GrammarIsUnambiguous }
{}

/// A token list parses as a model or has an error. The error is the first token after which the
/// input is not a prefix of any model, or an early end of input.
pub fn grammar_parses_or_fails()
    ensures { ParseOrFail SpellsModel }
{}

/// A token list has at most one error, and none if it parses as a model.
pub fn parse_faults_are_unique()
    ensures { ParseFaultsAreUnique SpellsModel }
{}

/// The canonical text of a parsed model parses as the same model, except for source positions. It
/// is nested no deeper.
pub fn grammar_reads_models_back()
    ensures { (limit : ℕ) (ts : List Symbol) (m : ModelTree) → All IsToken ts
        → SpellsModel limit ts m
        → ReadsBack limit m }
{}

/// Every token that the lexer finds in a source is a token in the sense of these theorems.
pub fn grammar_tokens_of_sources()
    ensures { TokensAreTokens }
{}
