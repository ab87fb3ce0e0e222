//! Conditions on the values that are read.

use interval::Val;

/// What is demanded of a variable that is read.
#[derive(Clone, Copy)]
pub(crate) enum Demand {
    /// What it must hold.
    Holds(Val),
    /// That the run doesn't come to the point behind the read.
    OffTheWay,
}

/// A condition at a point behind a read.
#[derive(Clone, Copy)]
pub(crate) struct Condition {
    pub point: u32,
    /// The variable that is read.
    pub var: u32,
    /// Whether a part of it is.
    pub of_part: bool,
    pub demand: Demand,
}
