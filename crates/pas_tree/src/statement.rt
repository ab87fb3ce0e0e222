use crate::block::Label;
use crate::constant::Constant;
use crate::expr::{Access, Actual, Expr};
use px_base::Span;
use sqlite_items::{Boxed, Items};

/// A statement with its label and the assertions before its body (ISO 7185, 6.8).
#[cycle(statement)]
#[derive(Debug, Drop)]
pub struct Statement {
    pub label: Option<Label>,
    pub asserts: Items<Assertion>,
    pub body: Body,
    /// The first token after the label and the assertions. For an empty statement that is the token after it.
    pub at: Span,
}

/// `{% cond %}`, or `{% cond ? %}` where `sometime` is true.
#[derive(Debug, Drop)]
pub struct Assertion {
    pub cond: Expr,
    pub sometime: bool,
    /// From the opening to the closing bracket.
    pub span: Span,
}

/// What a statement does.
#[cycle(statement)]
#[derive(Debug, Drop)]
pub enum Body {
    Empty,
    Call {
        name: Span,
        actuals: Items<Actual>,
    },
    Assign {
        to: Access,
        value: Expr,
    },
    Goto {
        label: Label,
    },
    Begin {
        body: Items<Statement>,
    },
    If {
        cond: Expr,
        yes: Boxed<Statement>,
        no: Option<Boxed<Statement>>,
    },
    Case {
        of: Expr,
        arms: Items<Element>,
    },
    While {
        cond: Expr,
        body: Boxed<Statement>,
    },
    Repeat {
        body: Items<Statement>,
        /// The word `until`.
        until: Span,
        cond: Expr,
    },
    For {
        /// The control variable.
        control: Span,
        first: Expr,
        /// Whether `downto` is written in place of `to`.
        down: bool,
        last: Expr,
        body: Boxed<Statement>,
    },
}

/// An arm of a `case`: one or more constants and their statement.
#[cycle(statement)]
#[derive(Debug, Drop)]
pub struct Element {
    pub consts: Items<Constant>,
    pub body: Statement,
}
