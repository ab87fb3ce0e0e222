/// An operator with two operands (ISO 7185, 6.7.2).
#[derive(Clone, Copy, Debug, PartialEq, Eq)]
pub enum BinOp {
    Add,
    Sub,
    Mul,
    Div,
    Mod,
    And,
    Or,
    Eq,
    Ne,
    Lt,
    Le,
    Gt,
    Ge,
}

/// A sign, `not`, or a required function with one operand (ISO 7185, 6.7.2 and 6.6.6). `succ` and `pred` come once for
/// each host type, since their result must lie in it.
#[derive(Clone, Copy, Debug, PartialEq, Eq)]
pub enum UnOp {
    Neg,
    Not,
    Abs,
    Sqr,
    Odd,
    SuccInt,
    PredInt,
    SuccBool,
    PredBool,
    OrdOf,
}
