//! Expressions over environments: the interval of a value, what an environment is still where a value is wanted in an interval, and
//! whether a runtime check can fail.
//!
//! An expression stands in an activation class, in which each variable names a cell, or a part of one. No call takes memory.
#![tactic(auto)]

mod actions;
mod bounds;
mod constants;
mod judge;
mod judging;
mod laws;
mod leaving;
mod names;
mod refining;
mod scope;
mod tables;
mod tally;
mod verdict;
mod walk;

pub use judging::{check_of, mark_open};
pub use laws::{refining_leaves_less, what_is_visible_is_seen};
pub use names::{Names, eval};
pub use refining::refine;
pub use scope::Scope;
pub use verdict::Verdict;
