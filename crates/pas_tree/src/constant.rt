use px_base::Span;

/// A sign before a constant or a simple expression.
#[derive(Clone, Copy, Debug, PartialEq, Eq)]
pub enum Sign {
    Plus,
    Minus,
}

/// A constant as a definition, a range or a `case` writes it (ISO 7185, 6.3).
#[derive(Clone, Copy, Debug, PartialEq, Eq)]
pub struct Constant {
    pub sign: Option<Sign>,
    pub value: ConstantValue,
    /// The whole constant, its sign included.
    pub span: Span,
}

/// A constant without its sign.
#[derive(Clone, Copy, Debug, PartialEq, Eq)]
pub enum ConstantValue {
    /// The number that its digits write.
    Number(u32),
    /// The identifier of a constant.
    Name(Span),
}
