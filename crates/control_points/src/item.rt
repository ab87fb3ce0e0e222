/// A piece of the input of a run.
#[derive(Clone, Copy, Debug, PartialEq, Eq)]
pub enum Item {
    /// An integer.
    Number(i32),
    LineEnd,
    /// Anything that is not an integer.
    Junk,
}
