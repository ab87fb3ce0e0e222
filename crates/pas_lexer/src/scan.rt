//! A text becomes its tokens.

ghost use Rattle.std.specs.Prelude.{◌≡◌, ◌≤◌, ◌+◌, ◌<◌, ◌++◌, ℕ, length, drop, Option, is_some, IfOk, IfErr, OnOk, OnErr};
ghost use Rattle.std.specs.Option.{option_to_list, option_map};
ghost use Rattle.pas_lexer.specs.Covering as covering;
ghost use Rattle.pas_lexer.specs.Covering.{HasTokens, Refuses};
ghost use Rattle.pas_lexer.specs.Spans.{SpansRise, NumbersFit};
ghost use Rattle.pas_lexer.specs.declared.token.TokenKind.{TokenKind};

use crate::fault::LexFault;
use crate::piece::{Piece, byte_at, next_piece, opens_comment};
use crate::token::{Token, TokenKind};
use px_base::Span;
use std::alloc::{AllocError, Global};

/// The fault at a place where no piece begins.
fn fault_at(inside: bool, rest: &[u8], at: u32) -> LexFault
    ensures { result ≡ covering.fault_at inside rest.now at }
{
    if opens_comment(inside, rest) {
        LexFault::Unclosed { at, comment: true }
    } else if byte_at(rest, 0) == b'\'' {
        LexFault::Unclosed { at, comment: false }
    } else if byte_at(rest, 0).is_ascii_digit() {
        LexFault::TooBig { at }
    } else {
        LexFault::BadByte { at }
    }
}

/// The piece that begins at a place of a text, or the fault that none does.
fn piece_at(opened: Option<u32>, text: &[u8], at: usize) -> Result<Piece, LexFault>
    requires within { at < length text.now }
    requires small { length text.now ≤ 1048576 }
    ensures piece { IfOk result (λ piece. covering.IsPiece (is_some opened) (drop at text.now) piece.token piece.len) }
    ensures within { IfOk result (λ piece. (0 < piece.len) × (at + piece.len ≤ length text.now)) }
    ensures none { OnErr result ((token : Option TokenKind) (len : ℕ) → ¬ covering.IsPiece (is_some opened) (drop at text.now) token len) }
    ensures fault { IfErr result (λ fault. fault ≡ covering.fault_at (is_some opened) (drop at text.now) at) }
{
    let rest = &text[at..];
    match next_piece(opened.is_some(), rest) {
        Some(piece) => Ok(piece),
        None => Err(fault_at(opened.is_some(), rest, at as u32)),
    }
}

/// Where the assertion begins that is open after a piece at `at`, if one is.
fn opened_after(opened: Option<u32>, token: Option<TokenKind>, at: u32) -> Option<u32>
    ensures { result ≡ covering.opened_after opened token at }
{
    match token {
        Some(TokenKind::AssertStart) => Some(at),
        Some(TokenKind::AssertEnd) => None,
        _ => opened,
    }
}

/// Appends the token of a piece, if it is one.
fn append(tokens: &mut Vec<Token>, token: Option<TokenKind>, span: Span) -> Result<(), AllocError>
    ensures { OnOk result (tokens.new.items ≡ tokens.old.items ++ option_to_list (covering.token_of (record { token = token; span = span }))) }
{
    if let Some(kind) = token {
        tokens.push(Token { kind, span })?;
    }
    Ok(())
}

/// The tokens of a text of at most 1,048,576 bytes, in one pass.
///
/// # Errors
///
/// The first lexical fault of the text, where an assertion that is open at the end comes after all others; or
/// `Memory`, which no clause ties to a text.
pub fn lex(alloc: Global, text: &[u8]) -> Result<Vec<Token>, LexFault>
    requires { length text.now ≤ 1048576 }
    ensures tokens { IfOk result (λ tokens. HasTokens text.now tokens.items) }
    ensures refused { IfErr result (λ fault. Refuses text.now fault) }
    ensures spans { IfOk result (λ tokens. SpansRise (length text.now) tokens.items) }
    ensures numbers { IfOk result (λ tokens. NumbersFit tokens.items) }
    ensures few { IfOk result (λ tokens. length tokens.items ≤ length text.now) }
{
    let mut tokens = Vec::new(alloc);
    let mut opened = None;
    let mut at = 0;
    while at < text.len() {
        let piece = piece_at(opened, text, at)?;
        let end = at + piece.len;
        let span = Span {
            start: at as u32,
            end: end as u32,
        };
        append(&mut tokens, piece.token, span).map_err(LexFault::Memory)?;
        opened = opened_after(opened, piece.token, span.start);
        at = end;
    }
    match opened {
        Some(at) => Err(LexFault::OpenAssertion { at }),
        None => Ok(tokens),
    }
}
