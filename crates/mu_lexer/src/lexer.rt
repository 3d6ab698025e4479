//! Splits the bytes of a source into tokens. A finite automaton finds the longest prefix that is a
//! token. Blanks and comments are skipped.

ghost use Rattle.std.specs.Prelude.{◌≡◌, ◌==◌, ◌&&◌, ◌≢◌, ◌^◌, ◌≤◌, [], ◌⊎◌, ℕ, List, All, length, vec_len, IfOk, IfErr, IsTrue};
ghost use Rattle.mu_lexer.specs.Words.{word_among, named, after_mark, begin, better, ending, lookup, next, single_marks, BestUpTo, is_blank, begins_blank, begins_slash, begins_quote, line_length, block_length, AreTokens, GivesFault, GivesTokens, IsFirstFault, IsWithin, BeginsWith, IsSpelled, Piece, spaced_text, spaced_tokens, Token, WORDS, LexErr, is_digit, is_letter, is_exponent_mark, is_sign};

use crate::token::{Kind, Mark, Token, WORDS, Word};
use std::alloc::{AllocError, AllocFailed, Global};

/// What begins at an offset of the source: a blank, a comment, a token or a fault.
#[derive(Clone, Copy, Debug, PartialEq, Eq)]
pub enum NextItem {
    Blank,
    Comment(usize),
    OpenComment,
    OpenString,
    NoToken,
    Token(Kind, usize),
}

/// Why a source has no token list.
#[derive(Clone, Copy, Debug, PartialEq, Eq)]
pub enum LexErr {
    /// The byte at this offset begins no token.
    NoToken { at: u32 },
    /// The comment that begins at this offset is not closed.
    OpenComment { at: u32 },
    /// The string that begins at this offset is not closed.
    OpenString { at: u32 },
    /// Out of memory.
    Memory,
}

impl<T: Drop> From<AllocFailed<T>> for LexErr {
    ghost use Rattle.std.specs.Prelude.{◌≡◌};
    ghost use Rattle.mu_lexer.specs.declared.lexer.LexErr.TheVariants.{Memory};

    ghost from_gives = { λ _ e. e ≡ Memory };

    fn from(_failed: AllocFailed<T>) -> LexErr {
        LexErr::Memory
    }
}

/// A state of the automaton.
#[derive(Clone, Copy, Debug, PartialEq, Eq)]
pub enum Phase {
    Start,
    Whole,
    Fraction,
    Exponent,
    Power,
    Digits,
    Quote,
    Escape,
    Closed,
    Name,
    Mark(Mark),
}

impl Phase {
    // Returns the next phase after a byte, or `None` if no token continues with it.
    fn next(self, c: u8) -> Option<Phase>
        ensures { result ≡ next self c }
    {
        match self {
            Phase::Start => begin_lex_phase(c),
            Phase::Whole => lex_after_whole(c),
            Phase::Fraction => lex_after_fraction(c),
            Phase::Exponent => lex_after_exponent(c),
            Phase::Power | Phase::Digits => lex_after_digits(c),
            Phase::Quote => lex_after_quote(c),
            Phase::Escape => Some(Phase::Quote),
            Phase::Closed => None,
            Phase::Name => lex_after_name(c),
            Phase::Mark(mark) => lex_after_mark(mark, c),
        }
    }

    // Returns the kind of the token that can end in this phase.
    fn ending(self) -> Option<Kind>
        ensures { result ≡ ending self }
    {
        match self {
            Phase::Whole | Phase::Fraction | Phase::Digits => Some(Kind::Number),
            Phase::Closed => Some(Kind::Str),
            Phase::Name => Some(Kind::Ident),
            Phase::Mark(mark) => Some(Kind::Mark(mark)),
            _ => None,
        }
    }
}

/// Returns the tokens of the source, of at most 2^20 bytes. Errors: the first lexical fault, or out
/// of memory.
pub fn lex(alloc: Global, source: &[u8]) -> Result<Vec<Token>, LexErr>
    requires { length source.now ≤ 2 ^ 20 }
    ensures tokens { IfOk result (λ v. AreTokens source.now v.items) }
    ensures spans { IfOk result (λ v. All (IsWithin source.now) v.items) }
    ensures count { IfOk result (λ v. vec_len v ≤ length source.now) }
    ensures only { (ts : List Token) → AreTokens source.now ts → GivesTokens ts result }
    ensures fault { IfErr result (λ e. (e ≡ LexErr.Memory) ⊎ IsFirstFault source.now e) }
    ensures first { (e : LexErr) → IsFirstFault source.now e → GivesFault e result }
{
    let mut tokens = Vec::new(alloc);
    let mut at = 0;
    while at < source.len() {
        let rest = &source[at..];
        match classify_next(rest) {
            NextItem::Blank => at += 1,
            NextItem::Comment(n) => at += n,
            NextItem::Token(kind, n) => {
                tokens.push(Token {
                    kind,
                    start: at as u32,
                    end: (at + n) as u32,
                })?;
                at += n;
            }
            NextItem::OpenComment => return Err(LexErr::OpenComment { at: at as u32 }),
            NextItem::OpenString => return Err(LexErr::OpenString { at: at as u32 }),
            NextItem::NoToken => return Err(LexErr::NoToken { at: at as u32 }),
        }
    }
    Ok(tokens)
}

/// A source has at most one list of tokens.
pub fn lex_has_one_reading()
    ensures { (source : List ℕ) (ts us : List Token) → AreTokens source ts
        → AreTokens source us
        → ts ≡ us }
{}

/// A text of tokens, each followed by a blank, is read as these tokens.
pub fn lex_reads_spaced_tokens()
    ensures { (pieces : List Piece) → All IsSpelled pieces
        → AreTokens (spaced_text pieces) (spaced_tokens 0 pieces) }
{}

// Returns the phase after the first byte.
fn begin_lex_phase(c: u8) -> Option<Phase>
    ensures { result ≡ begin c }
{
    if is_lexed_digit(c) {
        Some(Phase::Whole)
    } else if c == b'.' {
        Some(Phase::Mark(Mark::Dot))
    } else if c == b'"' {
        Some(Phase::Quote)
    } else if is_lexed_letter(c) {
        Some(Phase::Name)
    } else {
        match lex_single_mark(c) {
            Some(mark) => Some(Phase::Mark(mark)),
            None => None,
        }
    }
}

fn is_lexed_digit(c: u8) -> bool
    ensures { result ≡ is_digit c }
{
    c >= b'0' && c <= b'9'
}

fn is_lexed_letter(c: u8) -> bool
    ensures { result ≡ is_letter c }
{
    (c >= b'A' && c <= b'Z') || (c >= b'a' && c <= b'z') || c == b'_'
}

// Returns the mark that a byte other than the point is or begins.
fn lex_single_mark(c: u8) -> Option<Mark>
    ensures { result ≡ lookup c single_marks }
{
    match c {
        b'(' => Some(Mark::OpenRound),
        b')' => Some(Mark::CloseRound),
        b'[' => Some(Mark::OpenSquare),
        b']' => Some(Mark::CloseSquare),
        b'{' => Some(Mark::OpenCurly),
        b'}' => Some(Mark::CloseCurly),
        b',' => Some(Mark::Comma),
        b';' => Some(Mark::Semicolon),
        b':' => Some(Mark::Colon),
        b'=' => Some(Mark::Equal),
        b'+' => Some(Mark::Plus),
        b'-' => Some(Mark::Minus),
        b'*' => Some(Mark::Times),
        b'/' => Some(Mark::Divide),
        b'^' => Some(Mark::Caret),
        b'<' => Some(Mark::Less),
        b'>' => Some(Mark::Greater),
        _ => None,
    }
}

// Returns the next phase after the integer part of a number.
fn lex_after_whole(c: u8) -> Option<Phase>
    ensures { result ≡ next Phase.Whole c }
{
    if is_lexed_digit(c) {
        Some(Phase::Whole)
    } else if c == b'.' {
        Some(Phase::Fraction)
    } else if is_lexed_exponent_mark(c) {
        Some(Phase::Exponent)
    } else {
        None
    }
}

fn is_lexed_exponent_mark(c: u8) -> bool
    ensures { result ≡ is_exponent_mark c }
{
    c == b'e' || c == b'E'
}

// Returns the next phase after the decimal point of a number.
fn lex_after_fraction(c: u8) -> Option<Phase>
    ensures { result ≡ next Phase.Fraction c }
{
    if is_lexed_digit(c) {
        Some(Phase::Fraction)
    } else if is_lexed_exponent_mark(c) {
        Some(Phase::Exponent)
    } else {
        None
    }
}

// Returns the next phase after the `e` or `E` of a number.
fn lex_after_exponent(c: u8) -> Option<Phase>
    ensures { result ≡ next Phase.Exponent c }
{
    if is_lexed_digit(c) {
        Some(Phase::Digits)
    } else if is_lexed_sign(c) {
        Some(Phase::Power)
    } else {
        None
    }
}

fn is_lexed_sign(c: u8) -> bool
    ensures { result ≡ is_sign c }
{
    c == b'+' || c == b'-'
}

// Returns the next phase after digits of an exponent.
fn lex_after_digits(c: u8) -> Option<Phase>
    ensures { result ≡ next Phase.Digits c }
{
    if is_lexed_digit(c) {
        Some(Phase::Digits)
    } else {
        None
    }
}

// Returns the next phase inside a string.
fn lex_after_quote(c: u8) -> Option<Phase>
    ensures { result ≡ next Phase.Quote c }
{
    if c == b'\\' {
        Some(Phase::Escape)
    } else if c == b'"' {
        Some(Phase::Closed)
    } else {
        Some(Phase::Quote)
    }
}

// Returns the next phase inside a name.
fn lex_after_name(c: u8) -> Option<Phase>
    ensures { result ≡ next Phase.Name c }
{
    if is_lexed_letter(c) || is_lexed_digit(c) {
        Some(Phase::Name)
    } else {
        None
    }
}

// Returns the phase after a mark and one more byte.
fn lex_after_mark(mark: Mark, c: u8) -> Option<Phase>
    ensures { result ≡ after_mark mark c }
{
    match mark {
        Mark::Dot if is_lexed_digit(c) => Some(Phase::Fraction),
        Mark::Colon if c == b'=' => Some(Phase::Mark(Mark::Assign)),
        Mark::Equal if c == b'=' => Some(Phase::Mark(Mark::EqualEqual)),
        Mark::Less if c == b'=' => Some(Phase::Mark(Mark::LessEqual)),
        Mark::Less if c == b'>' => Some(Phase::Mark(Mark::NotEqual)),
        Mark::Greater if c == b'=' => Some(Phase::Mark(Mark::GreaterEqual)),
        _ => None,
    }
}

// Returns what the bytes begin with.
fn classify_next(rest: &[u8]) -> NextItem
    requires { rest.now ≢ [] }
    ensures { BeginsWith rest.now result }
{
    if is_blank_byte(rest[0]) {
        NextItem::Blank
    } else if begins_comment_slash(b'/', rest) {
        NextItem::Comment(line_comment_length(&rest[2..]) + 2)
    } else if begins_comment_slash(b'*', rest) {
        match block_comment_length(&rest[2..]) {
            None => NextItem::OpenComment,
            Some(n) => NextItem::Comment(n + 2),
        }
    } else {
        match longest_lex_match(rest) {
            Some((kind, n)) => NextItem::Token(lex_word_kind(kind, &rest[..n]), n),
            None => {
                if rest[0] == b'"' {
                    NextItem::OpenString
                } else {
                    NextItem::NoToken
                }
            }
        }
    }
}

fn is_blank_byte(c: u8) -> bool
    ensures { result ≡ is_blank c }
{
    c == b' ' || c == b'\t' || c == b'\r' || c == b'\n'
}

// Returns whether the bytes begin with a slash and the byte d.
fn begins_comment_slash(d: u8, rest: &[u8]) -> bool
    ensures { result ≡ begins_slash d rest.now }
{
    match rest {
        [first, second, ..] => *first == b'/' && *second == d,
        _ => false,
    }
}

// Returns the number of bytes before the line feed or the end.
fn line_comment_length(rest: &[u8]) -> usize
    ensures value { result ≡ line_length rest.now }
    ensures within { result ≤ length rest.now }
{
    for (i, c) in rest.iter().enumerate() {
        if *c == b'\n' {
            return i;
        }
    }
    rest.len()
}

// Returns the number of bytes up to and including the first `*/`.
fn block_comment_length(rest: &[u8]) -> Option<usize>
    ensures { result ≡ block_length rest.now }
{
    let mut i = 0;
    while i + 1 < rest.len() {
        if ends_block_comment(rest[i], rest[i + 1]) {
            return Some(i + 2);
        }
        i += 1;
    }
    None
}

// Returns whether the bytes are a star and a slash.
fn ends_block_comment(c: u8, d: u8) -> bool
    ensures { result ≡ (c == 42) && (d == 47) }
{
    c == b'*' && d == b'/'
}

/// Returns the kind and length of the longest prefix that is a token. Reserved words have the kind
/// `Ident` here.
pub fn longest_lex_match(rest: &[u8]) -> Option<(Kind, usize)>
    ensures { BestUpTo rest.now (length rest.now) result }
{
    let mut phase = Phase::Start;
    let mut best = None;
    for (i, byte) in rest.iter().enumerate() {
        match phase.next(*byte) {
            None => return best,
            Some(after) => {
                phase = after;
                best = longer_lex_match(best, after, i + 1);
            }
        }
    }
    best
}

// Returns the longest token found after one more byte.
fn longer_lex_match(
    best: Option<(Kind, usize)>,
    phase: Phase,
    length: usize,
) -> Option<(Kind, usize)>
    ensures { result ≡ better best (ending phase) length }
{
    match phase.ending() {
        None => best,
        Some(kind) => Some((kind, length)),
    }
}

// Returns the kind of a name: a reserved word or an identifier.
fn lex_word_kind(kind: Kind, text: &[u8]) -> Kind
    ensures { named text.now (Some kind) ≡ Some result }
{
    match kind {
        Kind::Ident => match lex_reserved_word(&WORDS, text) {
            None => Kind::Ident,
            Some(word) => Kind::Word(word),
        },
        other => other,
    }
}

// Returns the word among these that the text is, if any.
fn lex_reserved_word(words: &[Word], text: &[u8]) -> Option<Word>
    ensures { result ≡ word_among words.now text.now }
{
    for word in words {
        if word.text() == text {
            return Some(*word);
        }
    }
    None
}
