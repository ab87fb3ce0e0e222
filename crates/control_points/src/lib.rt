//! The control-flow graph of a checked program, and what the program means.
//!
//! A run stands at a point. Edges lead from point to point, each with one action: an assignment, a test, a call and so
//! on. `build` gives a program's points, edges and runtime checks, which are exactly those of its text (`Flow`). The
//! definitions in `specs/` say over these what a store, a state, a step and a run are.
//!
//! A point, edge, check, variable, routine or assertion is a number, counted from 0, into the list of its kind. A place is
//! a byte offset from 0 into the source.
#![tactic(auto)]

mod actions;
mod assembly;
mod calls;
mod check;
mod constants;
mod copy;
mod edge;
mod fault;
mod flow;
mod graph;
mod hosts;
mod item;
mod judgements;
mod judging;
mod labels;
mod laws;
mod numbering;
mod paths;
mod point;
mod scene;
mod widening;
mod wiring;

pub use assembly::build;
pub use check::Check;
pub use edge::{Act, Edge};
pub use fault::Fault;
pub use flow::Flow;
pub use hosts::is_boolean;
pub use item::Item;
pub use judgements::{
    checks_are_those_of_points, checks_of_a_kind_differ_in_place, each_check_is_judged,
    each_check_judges_a_part, each_judgement_has_a_check,
};
pub use laws::{
    a_call_leaves_its_point_alone, a_run_halts_at_its_exit_alone, assertions_are_of_their_routine,
    constants_of_a_case_differ, each_activation_was_made, each_error_is_foreseen,
    each_step_follows_an_edge, earlier_is_on_the_way, flows_are_well_formed, next_is_valid,
    only_a_case_may_have_no_action, runs_are_valid, spots_exist, start_is_valid,
    values_lie_in_their_hosts, variables_exist,
};
pub use paths::{flows_are_those_of_paths, paths_say_the_same_as_numbers};
pub use point::{Point, PointKind};
pub use widening::thresholds;
