//! The unfolding of a program: one node for each activation class and each point of its routine, with arcs between nodes.
//!
//! A class, node, point, edge, call or routine is a number, counted from 0.
#![tactic(auto)]

mod arc;
mod arcs;
mod discovery;
mod drawing;
mod fault;
mod graph;
mod laws;
mod links;
mod node;
mod nodes;
mod routines;
mod silence;
mod unfolding;

pub use arc::Arc;
pub use fault::UnfoldFault;
pub use graph::Graph;
pub use laws::arcs_fit_their_edges;
pub use unfolding::unfold;
