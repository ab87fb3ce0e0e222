//! Expressions (ISO 7185, 6.7) and variables with subscripts (6.5).

ghost use Rattle.std.specs.Prelude.{◌≡◌, ◌<◌, max, length, IfOk};
ghost use Rattle.pas_parser.specs.Expr as spec;
ghost use Rattle.pas_parser.specs.Look.{kind_at};
ghost use Rattle.pas_parser.specs.Outcome.{Gives, IsAt, IsPlace};
ghost use Rattle.pas_parser.specs.Reading.{Measures, MeasuresAny};

use crate::fault::ParseFault;
use crate::look::{cover, expect_symbol, is_symbol, kind_at, span_at};
use crate::operator::{adding, multiplying, relation, sign};
use crate::reading::{Measured, appended, deeper, gathered, joined};
use pas_lexer::{Symbol, Token, TokenKind, Word};
use pas_tree::{Access, Actual, ActualValue, Expr};
use px_base::BinOp;
use sqlite_items::{Boxed, Items};
use std::alloc::{AllocError, Global};

type Reading<T> = Result<Measured<T>, ParseFault>;

#[tactic(auto, unfolding(crate::specs::Expr::begins_factor))]
fn begins_factor(kind: Option<TokenKind>) -> bool
    ensures { result ≡ spec.begins_factor kind }
{
    matches!(
        kind,
        Some(
            TokenKind::Number(_)
                | TokenKind::Ident
                | TokenKind::Symbol(Symbol::LeftParen)
                | TokenKind::Word(Word::WNot)
        )
    )
}

#[tactic(auto, unfolding(crate::specs::Expr::begins_expr, crate::specs::Expr::begins_factor))]
fn begins_expr(kind: Option<TokenKind>) -> bool
    ensures { result ≡ spec.begins_expr kind }
{
    match kind {
        Some(TokenKind::Symbol(Symbol::Plus | Symbol::Minus)) => true,
        _ => begins_factor(kind),
    }
}

/// Why nothing can be read where no level is left: a token that begins nothing is unexpected at any depth.
#[tactic(auto, unfolding(crate::specs::Expr::refusal))]
pub fn refusal(begins: bool, at: u32) -> ParseFault
    ensures value { result ≡ spec.refusal begins at }
    ensures own { IsAt at result }
{
    if begins {
        ParseFault::TooDeep { token: at }
    } else {
        ParseFault::NoRule { token: at }
    }
}

/// An operator, which stands after its left operand, with its two operands. The left one begins at `at`.
#[tactic(auto, unfolding(crate::specs::Expr::binary))]
fn binary(
    alloc: Global,
    tokens: &[Token],
    at: u32,
    op: BinOp,
    left: Measured<Expr>,
    right: Measured<Expr>,
) -> Result<Measured<Expr>, AllocError>
    requires { at < right.next }
    ensures value { IfOk result (λ r. r ≡ spec.binary tokens.now at op left right) }
    ensures size { IfOk result (λ r. (r.next ≡ right.next) × (r.height ≡ max left.height right.height)) }
{
    Ok(Measured {
        tree: Expr::Binary {
            op,
            left: Boxed::new(alloc, left.tree)?,
            right: Boxed::new(alloc, right.tree)?,
            at: span_at(tokens, left.next),
            span: cover(tokens, at, right.next),
        },
        height: left.height.max(right.height),
        next: right.next,
    })
}

/// An expression, which is a level of its own.
#[cycle(expr)]
pub fn expr(alloc: Global, tokens: &[Token], levels: u32, at: u32) -> Reading<Expr>
    requires { IsPlace tokens.now at }
    ensures place { Measures tokens.now levels at result }
    ensures value { Gives (spec.expr tokens.now levels at) result }
{
    if levels == 0 {
        return Err(refusal(begins_expr(kind_at(tokens, at)), at));
    }
    Ok(deeper(comparison(alloc, tokens, levels - 1, at)?))
}

/// `simple [relation simple]`
#[tactic(auto, unfolding(crate::specs::Expr::comparison, crate::specs::Expr::comparison_by))]
#[cycle(expr)]
fn comparison(alloc: Global, tokens: &[Token], levels: u32, at: u32) -> Reading<Expr>
    requires { IsPlace tokens.now at }
    ensures place { Measures tokens.now levels at result }
    ensures value { Gives (spec.comparison tokens.now (spec.simple tokens.now levels) at) result }
{
    let left = simple(alloc, tokens, levels, at)?;
    let Some(op) = relation(kind_at(tokens, left.next)) else {
        return Ok(left);
    };
    let right = simple(alloc, tokens, levels, left.next + 1)?;
    binary(alloc, tokens, at, op, left, right).map_err(ParseFault::Memory)
}

/// `[sign] term {adding term}`
#[cycle(expr)]
fn simple(alloc: Global, tokens: &[Token], levels: u32, at: u32) -> Reading<Expr>
    requires { IsPlace tokens.now at }
    ensures place { Measures tokens.now levels at result }
    ensures value { Gives (spec.simple tokens.now levels at) result }
{
    let mut left = signed(alloc, tokens, levels, at)?;
    while let Some(op) = adding(kind_at(tokens, left.next)) {
        if left.height >= levels {
            return Err(ParseFault::TooDeep { token: left.next });
        }
        let right = term(alloc, tokens, levels - 1, left.next + 1)?;
        left = deeper(binary(alloc, tokens, at, op, left, right).map_err(ParseFault::Memory)?);
    }
    Ok(left)
}

/// `[sign] term`
#[tactic(auto, unfolding(crate::specs::Expr::signed, crate::specs::Expr::signed_by))]
#[cycle(expr)]
fn signed(alloc: Global, tokens: &[Token], levels: u32, at: u32) -> Reading<Expr>
    requires { IsPlace tokens.now at }
    ensures place { Measures tokens.now levels at result }
    ensures value { Gives (spec.signed tokens.now (spec.term tokens.now levels) at) result }
{
    let Some(sign) = sign(kind_at(tokens, at)) else {
        return term(alloc, tokens, levels, at);
    };
    let inner = term(alloc, tokens, levels, at + 1)?;
    let span = cover(tokens, at, inner.next);
    Ok(Measured {
        tree: Expr::Signed {
            sign,
            inner: Boxed::new(alloc, inner.tree).map_err(ParseFault::Memory)?,
            span,
        },
        height: inner.height,
        next: inner.next,
    })
}

/// `factor {multiplying factor}`
#[cycle(expr)]
fn term(alloc: Global, tokens: &[Token], levels: u32, at: u32) -> Reading<Expr>
    requires { IsPlace tokens.now at }
    ensures place { Measures tokens.now levels at result }
    ensures value { Gives (spec.term tokens.now levels at) result }
{
    let mut left = factor(alloc, tokens, levels, at)?;
    while let Some(op) = multiplying(kind_at(tokens, left.next)) {
        if left.height >= levels {
            return Err(ParseFault::TooDeep { token: left.next });
        }
        let right = factor(alloc, tokens, levels - 1, left.next + 1)?;
        left = deeper(binary(alloc, tokens, at, op, left, right).map_err(ParseFault::Memory)?);
    }
    Ok(left)
}

#[tactic(auto, unfolding(crate::specs::Expr::factor, crate::specs::Expr::factor_over, crate::specs::Expr::factor_by, crate::specs::Expr::expr))]
#[cycle(expr)]
fn factor(alloc: Global, tokens: &[Token], levels: u32, at: u32) -> Reading<Expr>
    requires { IsPlace tokens.now at }
    ensures place { Measures tokens.now levels at result }
    ensures value { Gives (spec.factor tokens.now levels at) result }
{
    match kind_at(tokens, at) {
        Some(TokenKind::Number(value)) => Ok(Measured {
            tree: Expr::Number {
                value,
                span: span_at(tokens, at),
            },
            height: 0,
            next: at + 1,
        }),
        Some(TokenKind::Ident) => named(alloc, tokens, levels, at),
        Some(TokenKind::Symbol(Symbol::LeftParen)) => parenthesized(alloc, tokens, levels, at),
        Some(TokenKind::Word(Word::WNot)) => negation(alloc, tokens, levels, at),
        _ => Err(ParseFault::NoRule { token: at }),
    }
}

/// `"(" expr ")"`
#[tactic(auto, unfolding(crate::specs::Expr::parenthesized))]
#[cycle(expr)]
fn parenthesized(alloc: Global, tokens: &[Token], levels: u32, at: u32) -> Reading<Expr>
    requires place { IsPlace tokens.now at }
    requires inside { at < length tokens.now }
    ensures place { Measures tokens.now levels at result }
    ensures value { Gives (spec.parenthesized tokens.now (spec.expr tokens.now levels) at) result }
{
    let inner = expr(alloc, tokens, levels, at + 1)?;
    let next = expect_symbol(tokens, inner.next, Symbol::RightParen)?;
    Ok(Measured {
        tree: Expr::Paren {
            inner: Boxed::new(alloc, inner.tree).map_err(ParseFault::Memory)?,
            span: cover(tokens, at, next),
        },
        height: inner.height,
        next,
    })
}

/// `"not" factor`, where the factor is a level of its own.
#[tactic(auto, unfolding(crate::specs::Expr::negation))]
#[cycle(expr)]
fn negation(alloc: Global, tokens: &[Token], levels: u32, at: u32) -> Reading<Expr>
    requires place { IsPlace tokens.now at }
    requires inside { at < length tokens.now }
    ensures place { Measures tokens.now levels at result }
    ensures value { Gives (spec.negation tokens.now (spec.up_to tokens.now levels).factor at) result }
{
    if levels == 0 {
        return Err(refusal(begins_factor(kind_at(tokens, at + 1)), at + 1));
    }
    let inner = factor(alloc, tokens, levels - 1, at + 1)?;
    let span = cover(tokens, at, inner.next);
    Ok(Measured {
        tree: Expr::Not {
            inner: Boxed::new(alloc, inner.tree).map_err(ParseFault::Memory)?,
            span,
        },
        height: inner.height + 1,
        next: inner.next,
    })
}

/// A name with its subscripts, or with its actuals if it has some.
#[tactic(auto, unfolding(crate::specs::Expr::named, crate::specs::Expr::indexed, crate::specs::Expr::call))]
#[cycle(expr)]
fn named(alloc: Global, tokens: &[Token], levels: u32, at: u32) -> Reading<Expr>
    requires place { IsPlace tokens.now at }
    requires inside { at < length tokens.now }
    ensures place { Measures tokens.now levels at result }
    ensures value { Gives (spec.named tokens.now (spec.expr tokens.now levels) at) result }
{
    if is_symbol(tokens, at + 1, Symbol::LeftBracket) {
        let found = access(alloc, tokens, levels, at)?;
        return Ok(Measured {
            tree: Expr::Indexed {
                access: found.tree,
                span: cover(tokens, at, found.next),
            },
            height: found.height,
            next: found.next,
        });
    }
    let found = arguments(alloc, tokens, levels, at + 1)?;
    Ok(Measured {
        tree: Expr::Name {
            name: span_at(tokens, at),
            actuals: found.tree,
            span: cover(tokens, at, found.next),
        },
        height: found.height,
        next: found.next,
    })
}

/// `ident {"[" exprs "]"}`
#[tactic(auto, unfolding(crate::specs::Expr::access))]
#[cycle(expr)]
pub fn access(alloc: Global, tokens: &[Token], levels: u32, at: u32) -> Reading<Access>
    requires place { IsPlace tokens.now at }
    requires inside { at < length tokens.now }
    ensures place { Measures tokens.now levels at result }
    ensures value { Gives (spec.access tokens.now (spec.expr tokens.now levels) at) result }
{
    let found = subscripts(alloc, tokens, levels, at + 1)?;
    Ok(Measured {
        tree: Access {
            name: span_at(tokens, at),
            subscripts: found.tree,
            span: cover(tokens, at, found.next),
        },
        height: found.height,
        next: found.next,
    })
}

/// `{"[" exprs "]"}`, as one list.
#[tactic(auto, unfolding(crate::specs::Expr::subscripts))]
#[cycle(expr)]
fn subscripts(alloc: Global, tokens: &[Token], levels: u32, at: u32) -> Reading<Items<Expr>>
    requires { IsPlace tokens.now at }
    ensures place { MeasuresAny tokens.now levels at result }
    ensures value { Gives (spec.subscripts tokens.now (spec.expr tokens.now levels) at) result }
{
    let mut list = Measured {
        tree: Items::new(alloc),
        height: 0,
        next: at,
    };
    while is_symbol(tokens, list.next, Symbol::LeftBracket) {
        let more = bracketed(alloc, tokens, levels, list.next)?;
        list = appended(list, more).map_err(ParseFault::Memory)?;
    }
    Ok(list)
}

/// `"[" exprs "]"`
#[tactic(auto, unfolding(crate::specs::Expr::bracketed))]
#[cycle(expr)]
fn bracketed(alloc: Global, tokens: &[Token], levels: u32, at: u32) -> Reading<Items<Expr>>
    requires place { IsPlace tokens.now at }
    requires inside { at < length tokens.now }
    ensures place { Measures tokens.now levels at result }
    ensures value { Gives (spec.bracketed tokens.now (spec.expr tokens.now levels) at) result }
{
    let found = exprs(alloc, tokens, levels, at + 1)?;
    let next = expect_symbol(tokens, found.next, Symbol::RightBracket)?;
    Ok(Measured {
        tree: found.tree,
        height: found.height,
        next,
    })
}

/// `expr {"," expr}`
#[tactic(auto, unfolding(crate::specs::Expr::exprs, crate::specs::Loop::separated_measured))]
#[cycle(expr)]
fn exprs(alloc: Global, tokens: &[Token], levels: u32, at: u32) -> Reading<Items<Expr>>
    requires { IsPlace tokens.now at }
    ensures place { Measures tokens.now levels at result }
    ensures value { Gives (spec.exprs tokens.now (spec.expr tokens.now levels) at) result }
{
    let first = expr(alloc, tokens, levels, at)?;
    let mut list = gathered(alloc, first).map_err(ParseFault::Memory)?;
    while is_symbol(tokens, list.next, Symbol::Comma) {
        let more = expr(alloc, tokens, levels, list.next + 1)?;
        list = joined(list, more).map_err(ParseFault::Memory)?;
    }
    Ok(list)
}

/// `["(" actuals ")"]`
#[tactic(auto, unfolding(crate::specs::Expr::arguments))]
#[cycle(expr)]
pub fn arguments(alloc: Global, tokens: &[Token], levels: u32, at: u32) -> Reading<Items<Actual>>
    requires { IsPlace tokens.now at }
    ensures place { MeasuresAny tokens.now levels at result }
    ensures value { Gives (spec.arguments tokens.now (spec.expr tokens.now levels) at) result }
{
    if !is_symbol(tokens, at, Symbol::LeftParen) {
        return Ok(Measured {
            tree: Items::new(alloc),
            height: 0,
            next: at,
        });
    }
    let found = actuals(alloc, tokens, levels, at + 1)?;
    let next = expect_symbol(tokens, found.next, Symbol::RightParen)?;
    Ok(Measured {
        tree: found.tree,
        height: found.height,
        next,
    })
}

/// `actual {"," actual}`
#[tactic(auto, unfolding(crate::specs::Expr::actuals, crate::specs::Loop::separated_measured))]
#[cycle(expr)]
fn actuals(alloc: Global, tokens: &[Token], levels: u32, at: u32) -> Reading<Items<Actual>>
    requires { IsPlace tokens.now at }
    ensures place { Measures tokens.now levels at result }
    ensures value { Gives (spec.actuals tokens.now (spec.expr tokens.now levels) at) result }
{
    let first = actual(alloc, tokens, levels, at)?;
    let mut list = gathered(alloc, first).map_err(ParseFault::Memory)?;
    while is_symbol(tokens, list.next, Symbol::Comma) {
        let more = actual(alloc, tokens, levels, list.next + 1)?;
        list = joined(list, more).map_err(ParseFault::Memory)?;
    }
    Ok(list)
}

/// `(expr | string) [":" expr]`
#[tactic(auto, unfolding(crate::specs::Expr::actual))]
#[cycle(expr)]
fn actual(alloc: Global, tokens: &[Token], levels: u32, at: u32) -> Reading<Actual>
    requires { IsPlace tokens.now at }
    ensures place { Measures tokens.now levels at result }
    ensures value { Gives (spec.actual tokens.now (spec.expr tokens.now levels) at) result }
{
    let value = actual_value(alloc, tokens, levels, at)?;
    let width = width(alloc, tokens, levels, value.next)?;
    Ok(Measured {
        tree: Actual {
            value: value.tree,
            width: width.tree,
        },
        height: value.height.max(width.height),
        next: width.next,
    })
}

#[tactic(auto, unfolding(crate::specs::Expr::actual_value))]
#[cycle(expr)]
fn actual_value(alloc: Global, tokens: &[Token], levels: u32, at: u32) -> Reading<ActualValue>
    requires { IsPlace tokens.now at }
    ensures place { Measures tokens.now levels at result }
    ensures value { Gives (spec.actual_value tokens.now (spec.expr tokens.now levels) (kind_at tokens.now at) at) result }
{
    if let Some(TokenKind::Text) = kind_at(tokens, at) {
        return Ok(Measured {
            tree: ActualValue::Text(span_at(tokens, at)),
            height: 0,
            next: at + 1,
        });
    }
    let found = expr(alloc, tokens, levels, at)?;
    Ok(Measured {
        tree: ActualValue::Value(found.tree),
        height: found.height,
        next: found.next,
    })
}

/// `[":" expr]`
#[tactic(auto, unfolding(crate::specs::Expr::width))]
#[cycle(expr)]
fn width(alloc: Global, tokens: &[Token], levels: u32, at: u32) -> Reading<Option<Expr>>
    requires { IsPlace tokens.now at }
    ensures place { MeasuresAny tokens.now levels at result }
    ensures value { Gives (spec.width tokens.now (spec.expr tokens.now levels) at) result }
{
    if !is_symbol(tokens, at, Symbol::Colon) {
        return Ok(Measured {
            tree: None,
            height: 0,
            next: at,
        });
    }
    let found = expr(alloc, tokens, levels, at + 1)?;
    Ok(Measured {
        tree: Some(found.tree),
        height: found.height,
        next: found.next,
    })
}
