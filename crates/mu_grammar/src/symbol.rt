//! Tokens as the grammar sees them, and the tests of the parser on single tokens: fixed words and
//! marks, brackets, and identifiers.

ghost use Rattle.std.specs.Prelude.{◌≡◌, bytes_eq};
ghost use Rattle.mu_grammar.specs.Grammar.{place};
ghost use Rattle.mu_grammar.specs.Shapes.{is_fixed, is_same};
ghost use Rattle.mu_grammar.specs.Skipped.{is_named};
ghost use Rattle.mu_grammar.specs.SymbolViews.{symbol_view};
ghost use Rattle.mu_grammar.specs.Symbols.{symbol_with};

use mu_lexer::{Kind, Mark, Word};

/// A token: its text if the grammar depends on it, and the byte offset of its first byte.
#[derive(Clone, Copy, Drop)]
pub enum Symbol<'a> {
    Number(&'a [u8], u32),
    Name(&'a [u8], u32),
    Quoted(u32),
    Word(Word, u32),
    Mark(Mark, u32),
}

impl<'a> Symbol<'a> {
    /// Creates a token of this kind, text and byte offset.
    pub fn new(kind: Kind, text: &'a [u8], at: u32) -> Symbol<'a>
        ensures { symbol_view result ≡ symbol_with kind text.now at }
    {
        match kind {
            Kind::Number => Symbol::Number(text, at),
            Kind::Str => Symbol::Quoted(at),
            Kind::Ident => Symbol::Name(text, at),
            Kind::Word(word) => Symbol::Word(word, at),
            Kind::Mark(mark) => Symbol::Mark(mark, at),
        }
    }

    /// Returns the byte offset of the token.
    pub fn at(self) -> u32
        ensures { result ≡ place (symbol_view self.entry) }
    {
        match self {
            Symbol::Number(_, at) => at,
            Symbol::Name(_, at) => at,
            Symbol::Quoted(at) => at,
            Symbol::Word(_, at) => at,
            Symbol::Mark(_, at) => at,
        }
    }
}

/// A word or mark that the grammar requires at a position.
#[derive(Clone, Copy, Debug, PartialEq, Eq)]
pub enum Fixed {
    ModelWord,
    EndWord,
    AlgorithmWord,
    InWord,
    ForWord,
    WhenWord,
    RealWord,
    OpenBracket,
    EqualSign,
    Semicolon,
}

impl Fixed {
    /// Returns whether the token is this word or mark.
    pub fn is(self, symbol: Symbol) -> bool
        ensures { result ≡ is_fixed self (symbol_view symbol.entry) }
    {
        match (self, symbol) {
            (Fixed::ModelWord, Symbol::Word(Word::Model, _)) => true,
            (Fixed::EndWord, Symbol::Word(Word::End, _)) => true,
            (Fixed::AlgorithmWord, Symbol::Word(Word::Algorithm, _)) => true,
            (Fixed::InWord, Symbol::Word(Word::In, _)) => true,
            (Fixed::ForWord, Symbol::Word(Word::For, _)) => true,
            (Fixed::WhenWord, Symbol::Word(Word::When, _)) => true,
            (Fixed::RealWord, Symbol::Word(Word::RealType, _)) => true,
            (Fixed::OpenBracket, Symbol::Mark(Mark::OpenRound, _)) => true,
            (Fixed::EqualSign, Symbol::Mark(Mark::Equal, _)) => true,
            (Fixed::Semicolon, Symbol::Mark(Mark::Semicolon, _)) => true,
            _ => false,
        }
    }
}

/// A kind of bracket.
#[derive(Clone, Copy, Debug, PartialEq, Eq)]
pub enum Bracket {
    Round,
    Square,
    Curly,
}

impl Bracket {
    /// Returns whether both brackets are of the same kind.
    pub fn is_same(self, other: Bracket) -> bool
        ensures { result ≡ is_same self other }
    {
        match (self, other) {
            (Bracket::Round, Bracket::Round) => true,
            (Bracket::Square, Bracket::Square) => true,
            (Bracket::Curly, Bracket::Curly) => true,
            _ => false,
        }
    }
}

/// The class of a token inside a skipped item.
#[derive(Clone, Copy, Debug, PartialEq, Eq)]
pub enum Shape {
    Opening(Bracket),
    Closing(Bracket),
    Comma,
    Other,
}

/// Returns whether the token is the identifier with this text.
pub fn is_named_symbol(spelling: &[u8], symbol: Symbol) -> bool
    ensures { result ≡ is_named spelling.now (symbol_view symbol.entry) }
{
    match symbol {
        Symbol::Name(text, _) => text == spelling,
        _ => false,
    }
}
