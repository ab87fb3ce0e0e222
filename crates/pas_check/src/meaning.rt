use pas_program::VarKind;

/// What a declared name stands for.
#[derive(Clone, Copy, Debug, PartialEq, Eq)]
pub enum Meaning {
    Constant(Value),
    /// A type, by its number.
    Type(u32),
    Variable(Variable),
    /// A variable or a parameter whose type is still to be read.
    Untyped,
    /// A procedure or a function, by its place among the headings.
    Routine { head: usize, function: bool },
    Required(Required),
    Transput(Transput),
}

/// The value of a constant. `false` is 0 and `true` is 1.
#[derive(Clone, Copy, Debug, PartialEq, Eq)]
pub struct Value {
    pub boolean: bool,
    pub value: i32,
}

/// A variable with what is known of it.
#[derive(Clone, Copy, Debug, PartialEq, Eq)]
pub struct Variable {
    pub number: u32,
    /// The place of its name where it is declared, by which tests know it.
    pub at: u32,
    /// How many routines are around its declaration.
    pub level: u32,
    pub kind: VarKind,
    pub of_type: u32,
}

/// A required function (ISO 7185, 6.6.6).
#[derive(Clone, Copy, Debug, PartialEq, Eq)]
pub enum Required {
    Abs,
    Sqr,
    Odd,
    Succ,
    Pred,
    Ord,
}

/// A required procedure (ISO 7185, 6.9).
#[derive(Clone, Copy, Debug, PartialEq, Eq)]
pub enum Transput {
    Read,
    Readln,
    Write,
    Writeln,
}
