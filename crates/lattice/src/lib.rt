//! The lattice that an abstract interpreter computes over, as a trait with laws, and a counter of evaluations.
#![tactic(auto)]

mod lattice;
mod steps;

pub use lattice::Lattice;
pub use steps::Steps;

#[cfg(test)]
mod tests;
