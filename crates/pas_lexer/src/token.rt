use crate::word::Word;
use px_base::Span;

/// A special symbol (ISO 7185, 6.1.2). `LeftBracket` is also written `(.`, and `RightBracket` is also written `.)`
/// (6.1.9).
#[derive(Clone, Copy, Debug, PartialEq, Eq)]
pub enum Symbol {
    Plus,
    Minus,
    Star,
    Equal,
    Less,
    Greater,
    NotEqual,
    LessEqual,
    GreaterEqual,
    Assign,
    Colon,
    Semicolon,
    Comma,
    Dot,
    DotDot,
    LeftParen,
    RightParen,
    LeftBracket,
    RightBracket,
}

/// What a token is. The spelling of an identifier and the text of a string are the bytes of the token's span.
#[derive(Clone, Copy, Debug, PartialEq, Eq)]
pub enum TokenKind {
    /// An identifier that is no word symbol.
    Ident,
    /// An unsigned integer, at most 2147483647.
    Number(u32),
    /// A character string, with its quotes.
    Text,
    Word(Word),
    Symbol(Symbol),
    /// `{%`, which opens an assertion.
    AssertStart,
    /// `%}`, which closes an assertion.
    AssertEnd,
    /// `?` inside an assertion.
    Query,
}

/// A lexeme that is neither a separator nor a comment, and its place in the source.
#[derive(Clone, Copy, Debug, PartialEq, Eq)]
pub struct Token {
    pub kind: TokenKind,
    pub span: Span,
}

const _: () = prove!(size_of::<Token>() <= 16);
