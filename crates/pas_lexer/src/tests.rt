//! What no contract says: that the calls succeed, and lexemes and faults as people read them.
ghost use Rattle.std.specs.Prelude.{◌≡◌, length, IfOk};

use crate::LexFault::*;
use crate::Symbol::*;
use crate::TokenKind::{AssertEnd, AssertStart, Ident, Number, Query, Text};
use crate::Word::*;
use crate::*;
use px_base::Span;
use std::alloc::{AllocError, Global};
use std::test::Fail;

/// Texts with the kinds and places of their tokens.
const TOKENS: [(&[u8], &[(TokenKind, u32, u32)]); 29] = [
    (b"", &[]),
    (
        b"(.1..2.)",
        &[
            (TokenKind::Symbol(LeftBracket), 0, 2),
            (Number(1), 2, 3),
            (TokenKind::Symbol(DotDot), 3, 5),
            (Number(2), 5, 6),
            (TokenKind::Symbol(RightBracket), 6, 8),
        ],
    ),
    (b"x{ mixed *)Y", &[(Ident, 0, 1), (Ident, 11, 12)]),
    (b"{}(**)(*)*)(*}{*){ {% }", &[]),
    (b"a(* ( { *)b", &[(Ident, 0, 1), (Ident, 10, 11)]),
    (
        b"{%(*a*)%}",
        &[
            (AssertStart, 0, 2),
            (TokenKind::Symbol(LeftParen), 2, 3),
            (TokenKind::Symbol(Star), 3, 4),
            (Ident, 4, 5),
            (TokenKind::Symbol(Star), 5, 6),
            (TokenKind::Symbol(RightParen), 6, 7),
            (AssertEnd, 7, 9),
        ],
    ),
    (
        b"{%?%}{a}{% %}",
        &[
            (AssertStart, 0, 2),
            (Query, 2, 3),
            (AssertEnd, 3, 5),
            (AssertStart, 8, 10),
            (AssertEnd, 11, 13),
        ],
    ),
    (
        b"{%'%}'(..)%}",
        &[
            (AssertStart, 0, 2),
            (Text, 2, 6),
            (TokenKind::Symbol(LeftBracket), 6, 8),
            (TokenKind::Symbol(RightBracket), 8, 10),
            (AssertEnd, 10, 12),
        ],
    ),
    (
        b"1..2",
        &[
            (Number(1), 0, 1),
            (TokenKind::Symbol(DotDot), 1, 3),
            (Number(2), 3, 4),
        ],
    ),
    (b"1.", &[(Number(1), 0, 1), (TokenKind::Symbol(Dot), 1, 2)]),
    (b"1e5", &[(Number(1), 0, 1), (Ident, 1, 3)]),
    (
        b"...",
        &[
            (TokenKind::Symbol(DotDot), 0, 2),
            (TokenKind::Symbol(Dot), 2, 3),
        ],
    ),
    (
        b"..)",
        &[
            (TokenKind::Symbol(DotDot), 0, 2),
            (TokenKind::Symbol(RightParen), 2, 3),
        ],
    ),
    (
        b"(.)",
        &[
            (TokenKind::Symbol(LeftBracket), 0, 2),
            (TokenKind::Symbol(RightParen), 2, 3),
        ],
    ),
    (
        b"<>=",
        &[
            (TokenKind::Symbol(NotEqual), 0, 2),
            (TokenKind::Symbol(Equal), 2, 3),
        ],
    ),
    (
        b">==",
        &[
            (TokenKind::Symbol(GreaterEqual), 0, 2),
            (TokenKind::Symbol(Equal), 2, 3),
        ],
    ),
    (
        b"::=",
        &[
            (TokenKind::Symbol(Colon), 0, 1),
            (TokenKind::Symbol(Assign), 1, 3),
        ],
    ),
    (b"''", &[(Text, 0, 2)]),
    (b"''''", &[(Text, 0, 4)]),
    (b"'it''s'", &[(Text, 0, 7)]),
    (b"'a' 'b'", &[(Text, 0, 3), (Text, 4, 7)]),
    (b"'{''(*'x", &[(Text, 0, 7), (Ident, 7, 8)]),
    (b"000 007", &[(Number(0), 0, 3), (Number(7), 4, 7)]),
    (b"2147483647", &[(Number(2147483647), 0, 10)]),
    (
        b"00000000002147483647x",
        &[(Number(2147483647), 0, 20), (Ident, 20, 21)],
    ),
    (b"a_b_", &[(Ident, 0, 4)]),
    (
        b"BEGIN bEgin begins begin_ begin1",
        &[
            (TokenKind::Word(WBegin), 0, 5),
            (TokenKind::Word(WBegin), 6, 11),
            (Ident, 12, 18),
            (Ident, 19, 25),
            (Ident, 26, 32),
        ],
    ),
    (b"\t\r\n\x0c a\x0cb", &[(Ident, 5, 6), (Ident, 7, 8)]),
    (
        b"+ - * = < > <> <= >= := : ; , . .. ( ) [ ] (. .)",
        &[
            (TokenKind::Symbol(Plus), 0, 1),
            (TokenKind::Symbol(Minus), 2, 3),
            (TokenKind::Symbol(Star), 4, 5),
            (TokenKind::Symbol(Equal), 6, 7),
            (TokenKind::Symbol(Less), 8, 9),
            (TokenKind::Symbol(Greater), 10, 11),
            (TokenKind::Symbol(NotEqual), 12, 14),
            (TokenKind::Symbol(LessEqual), 15, 17),
            (TokenKind::Symbol(GreaterEqual), 18, 20),
            (TokenKind::Symbol(Assign), 21, 23),
            (TokenKind::Symbol(Colon), 24, 25),
            (TokenKind::Symbol(Semicolon), 26, 27),
            (TokenKind::Symbol(Comma), 28, 29),
            (TokenKind::Symbol(Dot), 30, 31),
            (TokenKind::Symbol(DotDot), 32, 34),
            (TokenKind::Symbol(LeftParen), 35, 36),
            (TokenKind::Symbol(RightParen), 37, 38),
            (TokenKind::Symbol(LeftBracket), 39, 40),
            (TokenKind::Symbol(RightBracket), 41, 42),
            (TokenKind::Symbol(LeftBracket), 43, 45),
            (TokenKind::Symbol(RightBracket), 46, 48),
        ],
    ),
];

/// Texts with the fault of each.
const FAULTS: [(&[u8], LexFault); 28] = [
    (b"program p; begin {% true", OpenAssertion { at: 17 }),
    (b"{% a %}{%", OpenAssertion { at: 7 }),
    (b"1 2147483648", TooBig { at: 2 }),
    (b"00002147483648", TooBig { at: 0 }),
    (b"{% 2147483648", TooBig { at: 3 }),
    (
        b"9999999999999999999999999999999999999999999999999999999999999999999999999999999999999999999999999999",
        TooBig { at: 0 },
    ),
    (
        b"'a",
        Unclosed {
            at: 0,
            comment: false,
        },
    ),
    (
        b"'",
        Unclosed {
            at: 0,
            comment: false,
        },
    ),
    (
        b"'''",
        Unclosed {
            at: 2,
            comment: false,
        },
    ),
    (
        b"'a''",
        Unclosed {
            at: 3,
            comment: false,
        },
    ),
    (
        b"'a''\n'",
        Unclosed {
            at: 3,
            comment: false,
        },
    ),
    (
        b"'a\n'",
        Unclosed {
            at: 0,
            comment: false,
        },
    ),
    (
        b"x'a\r'",
        Unclosed {
            at: 1,
            comment: false,
        },
    ),
    (
        b"{% 'a %}",
        Unclosed {
            at: 3,
            comment: false,
        },
    ),
    (
        b"x (* y",
        Unclosed {
            at: 2,
            comment: true,
        },
    ),
    (
        b"{",
        Unclosed {
            at: 0,
            comment: true,
        },
    ),
    (
        b"(*)",
        Unclosed {
            at: 0,
            comment: true,
        },
    ),
    (b"{% { %}", BadByte { at: 3 }),
    (b"{% {% %}", BadByte { at: 3 }),
    (b"{% } %}", BadByte { at: 3 }),
    (b"{%}", BadByte { at: 2 }),
    (b"a %}", BadByte { at: 2 }),
    (b"}", BadByte { at: 0 }),
    (b"a ? b", BadByte { at: 2 }),
    (b"_a", BadByte { at: 0 }),
    (b"# 'a", BadByte { at: 0 }),
    (b"{% # ", BadByte { at: 3 }),
    (b"a\x0b", BadByte { at: 1 }),
];

/// The word symbols, in the order of `WORDS`.
const SPELT: &[u8] =
    b"and array begin case const div do downto else end file for function goto if in label mod nil not of or packed procedure program record repeat set then to type until var while with";

const WORDS: [Word; 35] = [
    WAnd, WArray, WBegin, WCase, WConst, WDiv, WDo, WDownto, WElse, WEnd, WFile, WFor, WFunction,
    WGoto, WIf, WIn, WLabel, WMod, WNil, WNot, WOf, WOr, WPacked, WProcedure, WProgram, WRecord,
    WRepeat, WSet, WThen, WTo, WType, WUntil, WVar, WWhile, WWith,
];

/// The bytes that alone are a lexeme or a separator, or open a comment or a string.
const BEGINS: &[u8] =
    b"abcdefghijklmnopqrstuvwxyzABCDEFGHIJKLMNOPQRSTUVWXYZ0123456789+-*=<>:;,.()[]{' \t\r\n\x0c";

const MOST: usize = 1048576;

#[test]
fn tokens(rt: HostRuntime) -> Result<(), Fail> {
    for (text, want) in TOKENS {
        assert!(rt; text.len() <= MOST);
        let tokens = lex(rt.alloc(), text)?;
        assert_eq!(rt; tokens.len(), want.len(), "{text:?}");
        for (token, (kind, start, end)) in tokens.iter().zip(want) {
            let span = Span {
                start: *start,
                end: *end,
            };
            assert_eq!(rt; *token, Token { kind: *kind, span }, "{text:?}");
        }
    }
    Ok(())
}

#[test]
fn words(rt: HostRuntime) -> Result<(), Fail> {
    let tokens = lex(rt.alloc(), SPELT)?;
    assert_eq!(rt; tokens.len(), WORDS.len());
    for (token, word) in tokens.iter().zip(WORDS) {
        assert_eq!(rt; token.kind, TokenKind::Word(word));
    }
    Ok(())
}

#[test]
fn faults(rt: HostRuntime) {
    for (text, fault) in FAULTS {
        assert!(rt; text.len() <= MOST);
        assert_eq!(rt; lex(rt.alloc(), text), Err(fault), "{text:?}");
    }
}

#[test]
fn bytes(rt: HostRuntime) {
    for byte in 0..=255u8 {
        let fault = lex(rt.alloc(), &[byte]).err();
        let bad = fault == Some(BadByte { at: 0 });
        assert_eq!(rt; bad, !BEGINS.contains(&byte), "{byte}");
    }
}

fn full(alloc: Global, first: u8, middle: u8, last: u8) -> Result<Vec<u8>, AllocError>
    ensures { IfOk result (λ text. length text.items ≡ 1048576) }
{
    let mut text = vec![in alloc; middle; MOST]?;
    text[0] = first;
    text[MOST - 1] = last;
    Ok(text)
}

#[test]
fn longest_texts(rt: HostRuntime) -> Result<(), Fail> {
    let cases = [
        (b'a', b'_', b'9', 1),
        (b'0', b'0', b'7', 1),
        (b'\'', b' ', b'\'', 1),
        (b'{', b'{', b'}', 0),
        (b' ', b'\n', b' ', 0),
        (b';', b'+', b'.', MOST),
    ];
    for (first, middle, last, count) in cases {
        let text = full(rt.alloc(), first, middle, last)?;
        let tokens = lex(rt.alloc(), &text)?;
        assert_eq!(rt; tokens.len(), count);
    }
    Ok(())
}
