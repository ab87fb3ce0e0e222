//! What the operands of an operator can still be where its result is wanted in an interval.
#![tactic(auto)]

mod backward;
mod numbers;
mod operands;
mod parts;
mod relation;
mod roots;
mod signs;
#[cfg(test)]
mod tests;
mod truth;

pub use backward::{binary_back, unary_back};
