//! Classes of activations, and the cells in which the analysis keeps what their variables may hold.
//!
//! A routine is analysed once for each way in which it is entered: by which call, within which class of the routine around it, and
//! with which variables for its variable parameters. In such a class each variable that the routine sees has one cell, and
//! variables that may be one and the same have the same cell.
//!
//! A class, cell, variable, routine or edge is a number, counted from 0.
#![tactic(auto)]

mod bind;
mod calls;
mod classes;
mod key;
mod laws;
mod outline;
mod passing;
#[cfg(test)]
mod tests;

pub use bind::{Bind, Link};
pub use classes::Classes;
pub use laws::{
    cells_are_disjoint, cells_denote_different_variables, each_activation_has_its_class,
    linked_cells_denote_one_variable, links_join_the_shared_cells, what_is_hidden_is_out_of_reach,
    what_is_in_scope_is_seen,
};
