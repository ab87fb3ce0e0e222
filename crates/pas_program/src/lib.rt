//! A checked Pascal program: names are numbers, and types and scopes are settled.
//!
//! To contracts each of these types is plain data: an `Items` is the list of its elements and a `Boxed` is what it
//! holds. A variable, type, routine or assertion is a number, counted from 0, into the list of its kind in `Program`. A
//! place is a byte offset from 0 into the source.
#![tactic(auto)]

mod expr;
mod program;
mod readers;
mod routine;
mod statement;
mod type_def;
mod types;
mod variable;

pub use expr::{Access, Actual, Expr, ExprForm};
pub use program::Program;
pub use routine::{Assert, Routine};
pub use statement::{Arm, Body, Statement, WriteItem, WriteValue};
pub use type_def::TypeDef;
pub use variable::{VarDef, VarKind};

#[cfg(test)]
mod tests;
