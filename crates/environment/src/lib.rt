//! Environments: what each cell of a control point may hold, as a lattice over dense memory.
#![tactic(auto)]

mod env;
mod passes;

pub use env::{Cells, Env};

#[cfg(test)]
mod tests;
