use px_base::Span;

/// A variable of a routine.
#[derive(Clone, Copy, Debug, PartialEq, Eq)]
pub struct VarDef {
    /// Its name in the source. A hidden variable has the name of the call, or the word `for`.
    pub name: Span,
    /// The routine that it belongs to.
    pub routine: u32,
    pub kind: VarKind,
    /// Its type.
    pub of_type: u32,
    /// Where it is declared, by which the variables of one kind are ordered.
    pub place: u32,
}

/// What a variable is for.
#[derive(Clone, Copy, Debug, PartialEq, Eq)]
pub enum VarKind {
    /// Declared in a variable part.
    Local,
    /// A value parameter.
    Value,
    /// A variable parameter.
    Var,
    /// The result of a function.
    Result,
    /// A hidden variable for the result of one call.
    Slot,
    /// A hidden variable for the last value of one `for`.
    Bound,
}
