//! Decides whether types, variables, routines and assertions make a valid program.
#![tactic(auto)]

mod expr;
mod ground;
mod parts;
mod refusal;
mod routines;
mod scope;
mod standing;
mod statement;
mod type_list;
mod type_rules;
mod whole;

pub use ground::Ground;
pub use type_list::TypeList;
pub use whole::program_of;

#[cfg(test)]
mod tests;
