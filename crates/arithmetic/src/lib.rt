//! The arithmetic of the language: what each operator gives at numbers, a number or the kind of the error.
#![tactic(auto)]

mod operators;

pub use operators::{binary_result, unary_result};
