/// A place in the program's text at which a run may stand.
#[derive(Clone, Copy, Debug, PartialEq, Eq)]
pub struct Point {
    /// The routine in whose statement part it lies.
    pub routine: u32,
    pub kind: PointKind,
    /// Its place in the source.
    pub at: u32,
}

/// Where in a routine or a statement a point lies.
#[derive(Clone, Copy, Debug, PartialEq, Eq)]
pub enum PointKind {
    /// The `begin` of a routine's statement part.
    Entry,
    /// Before a statement. Its assertions belong to this point, and a `goto` leads here.
    Before,
    /// After a function call in an action; its place is the call's name.
    AfterCall,
    /// After one parameter of `read`, at its first token.
    AfterRead,
    /// After one parameter of `write`, at its first token.
    AfterWrite,
    /// The word `until`, before its condition.
    Until,
    /// After the statement of a `for`, before the control variable is compared; its place is the word `for`.
    Step,
    /// The `end` of a routine's statement part.
    Exit,
}
