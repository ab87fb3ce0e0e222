//! The forward system (Bourdoncle, PLDI 1993): what each node of the unfolding may hold, by what comes along its incoming arcs.
//!
//! `Forward` is the system as equations over environments, and `forward_reads` lists which nodes each equation reads. `action` has what each
//! action leaves of an environment, `crossing` what calls and returns carry between classes, and `along` joins what comes along arcs.
#![tactic(auto)]

mod action;
mod along;
mod assigning;
mod crossing;
mod entering;
mod forward;
mod looping;
mod passing;
mod reads;
mod returning;
mod storing;
mod testing;

pub use forward::Forward;
pub use reads::forward_reads;
