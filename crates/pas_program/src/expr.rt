use px_base::{BinOp, UnOp};
use sqlite_items::{Boxed, Items};

/// An expression with a scalar value.
#[cycle(expr)]
#[derive(Debug, Drop)]
pub struct Expr {
    /// The place of its first token.
    pub first: u32,
    pub form: ExprForm,
}

/// What an expression is. `at` is the place of the operator or of the routine's name.
#[cycle(expr)]
#[derive(Debug, Drop)]
pub enum ExprForm {
    Const {
        boolean: bool,
        value: i32,
    },
    Value(Access),
    Unary {
        op: UnOp,
        of: Boxed<Expr>,
        at: u32,
    },
    Binary {
        op: BinOp,
        left: Boxed<Expr>,
        right: Boxed<Expr>,
        at: u32,
    },
    /// A function with its actuals. The call is made before the expression is evaluated, and then its value is that of
    /// the variable `slot`.
    Call {
        routine: u32,
        actuals: Items<Actual>,
        slot: u32,
        at: u32,
    },
}

/// A variable, or with subscripts an element of it.
#[cycle(expr)]
#[derive(Debug, Drop)]
pub struct Access {
    pub var: u32,
    pub subscripts: Items<Expr>,
    /// The place of the variable's name.
    pub at: u32,
}

/// An actual parameter.
#[cycle(expr)]
#[derive(Debug, Drop)]
pub enum Actual {
    /// A scalar for a value parameter.
    Value(Expr),
    /// A whole array for a value parameter.
    Whole(Access),
    /// A variable for a variable parameter.
    Var(Access),
}
