//! Tests of the token table.

use mu_lexer::{Kind, Mark, Token, Word, lex};
use std::alloc::Global;
use std::process::Abort;
use std::test::Fail;

#[test]
fn numbers(rt: HostRuntime) -> Result<(), Fail> {
    let alloc = rt.alloc();
    let number = Kind::Number;
    let ident = Kind::Ident;
    kinds(&rt, alloc, b"", &[])?;
    kinds(&rt, alloc, b" \t\r\n// x\n/* * / */ // end", &[])?;
    kinds(
        &rt,
        alloc,
        b"12 1.5 1. .5 1e3 1.e+3 .5E-03",
        &[
            (number, 0, 2),
            (number, 3, 6),
            (number, 7, 9),
            (number, 10, 12),
            (number, 13, 16),
            (number, 17, 22),
            (number, 23, 29),
        ],
    )?;
    kinds(
        &rt,
        alloc,
        b"1e 1e+x 1..2 .",
        &[
            (number, 0, 1),
            (ident, 1, 2),
            (number, 3, 4),
            (ident, 4, 5),
            (Kind::Mark(Mark::Plus), 5, 6),
            (ident, 6, 7),
            (number, 8, 10),
            (number, 10, 12),
            (Kind::Mark(Mark::Dot), 13, 14),
        ],
    )
}

#[test]
fn strings_and_words(rt: HostRuntime) -> Result<(), Fail> {
    let alloc = rt.alloc();
    let ident = Kind::Ident;
    kinds(
        &rt,
        alloc,
        b"\"\" \"a /* \\\" b\"x",
        &[(Kind::Str, 0, 2), (Kind::Str, 3, 14), (ident, 14, 15)],
    )?;
    kinds(
        &rt,
        alloc,
        b"model models _e1 Model while",
        &[
            (Kind::Word(Word::Model), 0, 5),
            (ident, 6, 12),
            (ident, 13, 16),
            (ident, 17, 22),
            (Kind::Word(Word::While), 23, 28),
        ],
    )
}

#[test]
fn marks(rt: HostRuntime) -> Result<(), Fail> {
    let alloc = rt.alloc();
    kinds(
        &rt,
        alloc,
        b":=:<=<<>>==>=/ *;^",
        &[
            (Kind::Mark(Mark::Assign), 0, 2),
            (Kind::Mark(Mark::Colon), 2, 3),
            (Kind::Mark(Mark::LessEqual), 3, 5),
            (Kind::Mark(Mark::Less), 5, 6),
            (Kind::Mark(Mark::NotEqual), 6, 8),
            (Kind::Mark(Mark::GreaterEqual), 8, 10),
            (Kind::Mark(Mark::Equal), 10, 11),
            (Kind::Mark(Mark::GreaterEqual), 11, 13),
            (Kind::Mark(Mark::Divide), 13, 14),
            (Kind::Mark(Mark::Times), 15, 16),
            (Kind::Mark(Mark::Semicolon), 16, 17),
            (Kind::Mark(Mark::Caret), 17, 18),
        ],
    )?;
    kinds(
        &rt,
        alloc,
        b"([{}]),==-",
        &[
            (Kind::Mark(Mark::OpenRound), 0, 1),
            (Kind::Mark(Mark::OpenSquare), 1, 2),
            (Kind::Mark(Mark::OpenCurly), 2, 3),
            (Kind::Mark(Mark::CloseCurly), 3, 4),
            (Kind::Mark(Mark::CloseSquare), 4, 5),
            (Kind::Mark(Mark::CloseRound), 5, 6),
            (Kind::Mark(Mark::Comma), 6, 7),
            (Kind::Mark(Mark::EqualEqual), 7, 9),
            (Kind::Mark(Mark::Minus), 9, 10),
        ],
    )
}

fn kinds(
    rt: &impl Abort,
    alloc: Global,
    source: &[u8],
    expected: &[(Kind, u32, u32)],
) -> Result<(), Fail> {
    assert!(rt; source.len() <= 1 << 20);
    let tokens = lex(alloc, source)?;
    assert_eq!(rt; tokens.len(), expected.len());
    for ((kind, start, end), token) in expected.iter().zip(tokens.iter()) {
        assert_eq!(rt;
            *token,
            Token {
                kind: *kind,
                start: *start,
                end: *end
            }
        );
    }
    Ok(())
}
