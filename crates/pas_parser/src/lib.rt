//! The syntax of the Pascal profile: a list of tokens becomes a tree, or the first fault with its token.
//!
//! Recursive descent, with one function a production. Each takes the number of the token that it begins at, and
//! answers what it read with the number of the token after it. Nested constructs are counted by the levels that are
//! left, so that the depth of the recursion is bounded for every text.
#![tactic(auto)]

mod block;
mod constant;
mod expr;
mod fault;
mod look;
mod operator;
mod program;
mod reading;
mod statement;
#[cfg(test)]
mod tests;
mod type_expr;

pub use fault::ParseFault;
pub use program::parse;
