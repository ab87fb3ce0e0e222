//! Weak topological orders of directed graphs, after Bourdoncle (1993): a list of nodes and of nested components, each with its head first.
#![tactic(auto)]

mod adjacency;
mod columns;
mod counts;
mod edges;
mod laws;
mod listing;
mod measures;
mod nesting;
mod parts;
mod queue;
mod readers;
mod walk;

pub use edges::Edges;
pub use laws::{orders_are_one, orders_are_weak};
pub use nesting::order;
pub use readers::Order;

#[cfg(test)]
mod tests;
