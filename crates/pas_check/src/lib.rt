//! The rules of names, types, labels and control variables (ISO 7185, 6.2 to 6.9): a tree becomes a checked program, or
//! the first fault with its place.
//!
//! One walk goes through the tree in the order of the text and stops at the first test that fails. What a test needs of
//! text that comes later (which names a block declares, where a label stands) is collected when the block is entered.
#![tactic(auto)]

mod access;
mod actual;
mod block;
mod built;
mod checker;
mod choice;
mod constant;
mod control;
mod expr;
mod fault;
mod frame;
mod heading;
mod hiding;
mod label;
mod laws;
mod meaning;
mod names;
mod plan;
mod routine;
mod scope;
mod seen;
mod statement;
mod transput;
mod type_expr;
mod types;
mod waiting;

pub use checker::check;
pub use fault::CheckFault;
pub use label::places_say_the_same_as_paths;
pub use laws::{
    a_fault_and_a_program_exclude_each_other, a_tree_has_one_answer, a_tree_has_one_first_fault,
    a_tree_has_one_program, places_lie_in_the_text,
};
pub use names::names_mean_by_the_rules;

#[cfg(test)]
mod tests;
