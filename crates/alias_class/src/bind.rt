/// What a name stands for in a class: a cell, or a part of what the cell stands for.
#[derive(Clone, Copy, Debug, PartialEq, Eq, Hash)]
pub struct Bind {
    /// Whether it is the whole of the cell.
    pub whole: bool,
    pub cell: u32,
}

/// A cell of a class that calls, and the cell of the class that is called that stands for the same variable.
#[derive(Clone, Copy, Debug, PartialEq, Eq)]
pub struct Link {
    pub caller: u32,
    pub callee: u32,
}
