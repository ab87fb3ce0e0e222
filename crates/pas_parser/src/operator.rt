//! The operators by their precedence (ISO 7185, 6.7.1), and the signs.

ghost use Rattle.std.specs.Prelude.{◌≡◌, IsSome, OnSome};
ghost use Rattle.pas_parser.specs.Operator as spec;

use pas_lexer::{Symbol, TokenKind, Word};
use pas_tree::Sign;
use px_base::BinOp;

/// The relational operator that the token is.
#[tactic(auto, unfolding(crate::specs::Operator::relation))]
pub fn relation(kind: Option<TokenKind>) -> Option<BinOp>
    ensures value { result ≡ spec.relation kind }
    ensures present { OnSome result (IsSome kind) }
{
    match kind {
        Some(TokenKind::Symbol(Symbol::Equal)) => Some(BinOp::Eq),
        Some(TokenKind::Symbol(Symbol::NotEqual)) => Some(BinOp::Ne),
        Some(TokenKind::Symbol(Symbol::Less)) => Some(BinOp::Lt),
        Some(TokenKind::Symbol(Symbol::LessEqual)) => Some(BinOp::Le),
        Some(TokenKind::Symbol(Symbol::Greater)) => Some(BinOp::Gt),
        Some(TokenKind::Symbol(Symbol::GreaterEqual)) => Some(BinOp::Ge),
        _ => None,
    }
}

/// The adding operator that the token is.
#[tactic(auto, unfolding(crate::specs::Operator::adding))]
pub fn adding(kind: Option<TokenKind>) -> Option<BinOp>
    ensures value { result ≡ spec.adding kind }
    ensures present { OnSome result (IsSome kind) }
{
    match kind {
        Some(TokenKind::Symbol(Symbol::Plus)) => Some(BinOp::Add),
        Some(TokenKind::Symbol(Symbol::Minus)) => Some(BinOp::Sub),
        Some(TokenKind::Word(Word::WOr)) => Some(BinOp::Or),
        _ => None,
    }
}

/// The multiplying operator that the token is.
#[tactic(auto, unfolding(crate::specs::Operator::multiplying))]
pub fn multiplying(kind: Option<TokenKind>) -> Option<BinOp>
    ensures value { result ≡ spec.multiplying kind }
    ensures present { OnSome result (IsSome kind) }
{
    match kind {
        Some(TokenKind::Symbol(Symbol::Star)) => Some(BinOp::Mul),
        Some(TokenKind::Word(Word::WDiv)) => Some(BinOp::Div),
        Some(TokenKind::Word(Word::WMod)) => Some(BinOp::Mod),
        Some(TokenKind::Word(Word::WAnd)) => Some(BinOp::And),
        _ => None,
    }
}

/// The sign that the token is.
#[tactic(auto, unfolding(crate::specs::Operator::sign))]
pub fn sign(kind: Option<TokenKind>) -> Option<Sign>
    ensures value { result ≡ spec.sign kind }
    ensures present { OnSome result (IsSome kind) }
{
    match kind {
        Some(TokenKind::Symbol(Symbol::Plus)) => Some(Sign::Plus),
        Some(TokenKind::Symbol(Symbol::Minus)) => Some(Sign::Minus),
        _ => None,
    }
}
