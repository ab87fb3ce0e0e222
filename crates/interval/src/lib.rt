//! Intervals of the language's numbers, what the operators give at them, and the values of cells.
#![tactic(auto)]

mod answer;
mod ends;
mod forward;
mod itv;
mod steps;
mod tables;
#[cfg(test)]
mod tests;
mod val;
mod val_lattice;

pub use answer::Answer;
pub use ends::product_ends;
pub use forward::{binary, clip, unary};
pub use itv::Itv;
pub use val::Val;
