//! Solves a system of equations over a lattice inside limits, after Bourdoncle (FMPA 1993): an ascending iteration with
//! widening at the heads of a weak topological order, and a descending one with narrowing. A node is evaluated again only
//! where something that its equation reads has changed.
#![tactic(auto)]

mod ascent;
mod descent;
mod equations;
mod evaluator;
mod marks;
mod reversal;
mod uniqueness;

pub use ascent::ascend;
pub use descent::{descend, pass};
pub use equations::Equations;
pub use reversal::reverse_lists;
pub use uniqueness::solutions_are_unique;

#[cfg(test)]
mod tests;
