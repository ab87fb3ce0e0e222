//! Single tokens.

ghost use Rattle.std.specs.Prelude.{◌≡◌, ◌<◌, ◌+◌, ◌↔◌, length, IfSome, IsTrue};
ghost use Rattle.pas_parser.specs.Look as spec;
ghost use Rattle.pas_parser.specs.Outcome.{IsPlace, Steps};

use crate::fault::ParseFault;
use pas_lexer::{Symbol, Token, TokenKind, Word};
use pas_tree::Label;
use px_base::Span;

/// What stands at a place, or `None` at the end.
pub fn kind_at(tokens: &[Token], at: u32) -> Option<TokenKind>
    ensures value { result ≡ spec.kind_at tokens.now at }
    ensures inside { IfSome result (λ _. at < length tokens.now) }
{
    tokens.get(at as usize).map(|token| token.kind)
}

/// Where a token stands. At the end this is the place just after the last token.
#[tactic(auto, unfolding(crate::specs::Look::span_at))]
pub fn span_at(tokens: &[Token], at: u32) -> Span
    ensures { result ≡ spec.span_at tokens.now at }
{
    match tokens.get(at as usize) {
        Some(token) => token.span,
        None => end_of(tokens),
    }
}

#[tactic(auto, unfolding(crate::specs::Look::end_of))]
fn end_of(tokens: &[Token]) -> Span
    ensures { result ≡ spec.end_of tokens.now }
{
    let end = tokens.last().map_or(0, |token| token.span.end);
    Span { start: end, end }
}

/// From the first byte of the token `first` to the last of the token before `next`.
#[tactic(auto, unfolding(crate::specs::Look::cover))]
pub fn cover(tokens: &[Token], first: u32, next: u32) -> Span
    requires { first < next }
    ensures { result ≡ spec.cover tokens.now first next }
{
    Span {
        start: span_at(tokens, first).start,
        end: span_at(tokens, next - 1).end,
    }
}

#[tactic(auto, unfolding(crate::specs::Look::same_symbol))]
fn same_symbol(a: Symbol, b: Symbol) -> bool
    ensures { result ≡ spec.same_symbol a b }
{
    a == b
}

#[tactic(auto, unfolding(crate::specs::Look::same_word))]
fn same_word(a: Word, b: Word) -> bool
    ensures { result ≡ spec.same_word a b }
{
    a == b
}

pub fn is_symbol(tokens: &[Token], at: u32, symbol: Symbol) -> bool
    ensures value { result ≡ spec.is_symbol symbol (spec.kind_at tokens.now at) }
    ensures inside { IsTrue result → at < length tokens.now }
{
    match kind_at(tokens, at) {
        Some(TokenKind::Symbol(found)) => same_symbol(found, symbol),
        _ => false,
    }
}

pub fn is_word(tokens: &[Token], at: u32, word: Word) -> bool
    ensures value { result ≡ spec.is_word word (spec.kind_at tokens.now at) }
    ensures inside { IsTrue result → at < length tokens.now }
{
    match kind_at(tokens, at) {
        Some(TokenKind::Word(found)) => same_word(found, word),
        _ => false,
    }
}

pub fn is_ident(tokens: &[Token], at: u32) -> bool
    ensures value { result ≡ spec.is_ident (spec.kind_at tokens.now at) }
    ensures inside { IsTrue result → at < length tokens.now }
{
    matches!(kind_at(tokens, at), Some(TokenKind::Ident))
}

/// The place after the symbol, which has to stand here.
#[tactic(auto, unfolding(crate::specs::Look::expect_symbol))]
pub fn expect_symbol(tokens: &[Token], at: u32, symbol: Symbol) -> Result<u32, ParseFault>
    requires { IsPlace tokens.now at }
    ensures { Steps tokens.now at (spec.expect_symbol tokens.now symbol at) result }
{
    if is_symbol(tokens, at, symbol) {
        Ok(at + 1)
    } else {
        Err(ParseFault::NoRule { token: at })
    }
}

/// The place after the word, which has to stand here.
#[tactic(auto, unfolding(crate::specs::Look::expect_word))]
pub fn expect_word(tokens: &[Token], at: u32, word: Word) -> Result<u32, ParseFault>
    requires { IsPlace tokens.now at }
    ensures { Steps tokens.now at (spec.expect_word tokens.now word at) result }
{
    if is_word(tokens, at, word) {
        Ok(at + 1)
    } else {
        Err(ParseFault::NoRule { token: at })
    }
}

/// The place after an identifier, which has to stand here.
#[tactic(auto, unfolding(crate::specs::Look::expect_ident))]
pub fn expect_ident(tokens: &[Token], at: u32) -> Result<u32, ParseFault>
    requires { IsPlace tokens.now at }
    ensures { Steps tokens.now at (spec.expect_ident tokens.now at) result }
{
    if is_ident(tokens, at) {
        Ok(at + 1)
    } else {
        Err(ParseFault::NoRule { token: at })
    }
}
