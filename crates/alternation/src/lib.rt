//! The analysis of a program: the tables of its systems of equations, solved in turn (Bourdoncle, PLDI 1993).
#![tactic(auto)]

mod analysis;
mod dependences;
mod limits;
mod memory;
mod stops;

pub use analysis::Analysis;
pub use memory::reserve;
