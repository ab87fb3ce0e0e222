//! The texts that Syntox writes of a source: one line that tells of its fault, or the report of its analysis.
#![tactic(auto)]

mod condition;
mod conditions;
mod counts;
mod fault;
mod hosts;
mod lines;
mod nodes;
mod page;
mod places;
mod points;
mod source;
mod spelling;
mod telling;
#[cfg(test)]
mod tests;
mod verdicts;
mod visible;
mod wording;

pub use counts::{Counts, counts_of};
pub use fault::{SourceFault, fault_text};
pub use telling::report;
