use crate::expr::{Access, Actual, Expr};
use sqlite_items::{Boxed, Items};

/// A statement with its label and its assertions.
#[cycle(statement)]
#[derive(Debug, Drop)]
pub struct Statement {
    /// The place of its first token after the label and the assertions.
    pub at: u32,
    pub label: Option<u32>,
    /// The assertions that stand before it, as numbers into the program's list.
    pub asserts: Items<u32>,
    pub body: Body,
}

/// What a statement does (ISO 7185, 6.8).
#[cycle(statement)]
#[derive(Debug, Drop)]
pub enum Body {
    Empty,
    /// The assignment of a scalar.
    Assign {
        to: Access,
        value: Expr,
    },
    /// The assignment of a whole array.
    Copy {
        to: Access,
        from: Access,
    },
    /// A procedure with its actuals. `at` is the place of its name.
    Call {
        routine: u32,
        actuals: Items<Actual>,
        at: u32,
    },
    /// `read`, or `readln` where `line` is true.
    Read {
        to: Items<Access>,
        line: bool,
    },
    /// `write`, or `writeln` where `line` is true.
    Write {
        items: Items<WriteItem>,
        line: bool,
    },
    /// To the statement with the label `label` in the body of `routine`.
    Goto {
        routine: u32,
        label: u32,
    },
    /// One or more statements. `end` is the place of the word `end`.
    Begin {
        body: Items<Statement>,
        end: u32,
    },
    If {
        cond: Expr,
        yes: Boxed<Statement>,
        no: Option<Boxed<Statement>>,
    },
    Case {
        of: Expr,
        arms: Items<Arm>,
    },
    While {
        cond: Expr,
        body: Boxed<Statement>,
    },
    /// One or more statements. `at` is the place of the word `until`.
    Repeat {
        body: Items<Statement>,
        at: u32,
        cond: Expr,
    },
    For {
        /// The control variable.
        control: u32,
        /// The hidden variable that keeps the value of `last`.
        bound: u32,
        first: Expr,
        /// Whether `downto` is written in place of `to`.
        down: bool,
        last: Expr,
        body: Boxed<Statement>,
    },
}

/// An arm of a `case`. A Boolean constant is 0 or 1.
#[cycle(statement)]
#[derive(Debug, Drop)]
pub struct Arm {
    pub consts: Items<i32>,
    pub body: Statement,
}

/// A parameter of `write` or `writeln` with its width.
#[derive(Debug, Drop)]
pub struct WriteItem {
    pub value: WriteValue,
    pub width: Option<Expr>,
}

/// A parameter of `write` or `writeln` without its width.
#[derive(Debug, Drop)]
pub enum WriteValue {
    Value(Expr),
    /// The bytes that a string stands for, with one quote for each two and without those around it. `at` is the place
    /// of its opening quote.
    Text { bytes: Items<u8>, at: u32 },
}
