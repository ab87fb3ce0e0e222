ghost use Rattle.std.specs.Prelude.{◌≡◌};
ghost use Rattle.pas_tree.specs.Expr.{expr_span};

use crate::constant::Sign;
use px_base::{BinOp, Span};
use sqlite_items::{Boxed, Items};

/// An expression (ISO 7185, 6.7). Its `span` is the whole of it, from its first token to its last.
#[cycle(expr)]
#[derive(Debug, Drop)]
pub enum Expr {
    /// An unsigned number, by the value of its digits.
    Number {
        value: u32,
        span: Span,
    },
    /// A constant, a variable without subscripts, or a function with its actuals.
    Name {
        name: Span,
        actuals: Items<Actual>,
        span: Span,
    },
    /// A variable with one or more subscripts.
    Indexed {
        access: Access,
        span: Span,
    },
    /// `( inner )`
    Paren {
        inner: Boxed<Expr>,
        span: Span,
    },
    /// `not inner`
    Not {
        inner: Boxed<Expr>,
        span: Span,
    },
    /// A sign with the term after it.
    Signed {
        sign: Sign,
        inner: Boxed<Expr>,
        span: Span,
    },
    /// An operator, which stands at `at`, with its two operands.
    Binary {
        op: BinOp,
        left: Boxed<Expr>,
        right: Boxed<Expr>,
        at: Span,
        span: Span,
    },
}

/// A variable with its subscripts (ISO 7185, 6.5). `a[i, j]` and `a[i][j]` have the same list.
#[cycle(expr)]
#[derive(Debug, Drop)]
pub struct Access {
    pub name: Span,
    pub subscripts: Items<Expr>,
    /// From the name to the last `]`.
    pub span: Span,
}

/// An actual parameter with its width, which only `write` and `writeln` take (ISO 7185, 6.9.3).
#[cycle(expr)]
#[derive(Debug, Drop)]
pub struct Actual {
    pub value: ActualValue,
    pub width: Option<Expr>,
}

/// An actual parameter without its width.
#[cycle(expr)]
#[derive(Debug, Drop)]
pub enum ActualValue {
    Value(Expr),
    /// A string, its quotes included.
    Text(Span),
}

/// The whole of an expression, from its first token to its last.
pub fn span_of(e: &Expr) -> Span
    ensures { result ≡ expr_span e.now }
{
    match e {
        Expr::Number { span, .. }
        | Expr::Name { span, .. }
        | Expr::Indexed { span, .. }
        | Expr::Paren { span, .. }
        | Expr::Not { span, .. }
        | Expr::Signed { span, .. }
        | Expr::Binary { span, .. } => *span,
    }
}
