//! What comes along the arcs of an unfolding.

ghost use Rattle.std.specs.Prelude.{◌≡◌, ◌<◌, ◌≤◌, Some, length, true};
ghost use Rattle.alias_class.specs.Outlines.{outline_of};
ghost use Rattle.abstract_expr.specs.Scopes.{cells_of, program_of, scope_of, seen_of};
ghost use Rattle.abstract_expr.specs.Standing.{cells_in, seen_in};
ghost use Rattle.activations.specs.Fitting.{ArcFits, ArcsFit, ComesBack, IsEntered, class_number, exit_of, point_number};
ghost use Rattle.control_points.specs.declared.edge.Act.TheVariants as act;
ghost use Rattle.activations.specs.Calls.{is_call};
ghost use Rattle.control_points.specs.Flows.{chart_of};
ghost use Rattle.control_points.specs.Leading.{goes_on_after};
ghost use Rattle.control_points.specs.Runs.{standing_at};
ghost use Rattle.environment.specs.Environments.{cell_count, env_join, env_ops};
ghost use Rattle.environment.specs.Kept.{room_of};
ghost use Rattle.fixpoint.specs.System.{element};
ghost use Rattle.transfer_fwd.specs.Actions.{after};
ghost use Rattle.transfer_fwd.specs.Crossed.{crossing_of};
ghost use Rattle.transfer_fwd.specs.Crossings.{called, kept_cells, returned};
ghost use Rattle.transfer_fwd.specs.Forward.{action_at, all_assumed, along, cells_at, crossing_by, incoming_at, initial, scope_at};
ghost use Rattle.transfer_fwd.specs.Systems.{FitsGraph, HasRoomFor, LeavesNode, all_joined, environments};

use crate::action::Actions;
use crate::crossing::Crossing;
use crate::storing::truth;
use abstract_expr::{Scope, refining_leaves_less, what_is_visible_is_seen};
use activations::{Arc, Graph};
use control_points::{Act, Flow, assertions_are_of_their_routine};
use environment::Env;
use lattice::Lattice;

/// A flow with its unfolding.
#[derive(Clone, Copy)]
pub(crate) struct Unfolded<'a> {
    pub flow: &'a Flow,
    pub graph: &'a Graph,
    pub ghost outline: { graph.now.table.outline ≡ outline_of flow.now },
    pub ghost fits: { ArcsFit flow.now graph.now },
}

impl<'a> Unfolded<'a> {
    /// The number of a node's class.
    fn class(&self, node: u32) -> u32
        requires { node < length self.now.graph.now.nodes }
        ensures value { result ≡ class_number self.now.graph.now node }
        ensures in_range { result < length self.now.graph.now.table.classes }
    {
        self.graph.class_of(node)
    }

    /// The scope of a node's class.
    pub(crate) fn scope(&self, node: u32) -> Scope<'a>
        requires { node < length self.now.graph.now.nodes }
        ensures scope { scope_of result ≡ scope_at self.now.flow.now self.now.graph.now node }
        ensures program { program_of result ≡ self.now.flow.now.program }
        ensures cells { cells_of result ≡ cells_at self.now.graph.now node }
        ensures seen { seen_of result ≡ seen_in self.now.graph.now.table (class_number self.now.graph.now node) }
    {
        Scope::over(self.flow, self.graph.classes(), self.class(node))
    }

    /// The actions of a node's class.
    fn actions(&self, node: u32) -> Actions<'a>
        requires { node < length self.now.graph.now.nodes }
        ensures scope { scope_of result.scope ≡ scope_at self.now.flow.now self.now.graph.now node }
        ensures program { program_of result.scope ≡ self.now.flow.now.program }
        ensures cells { cells_of result.scope ≡ cells_at self.now.graph.now node }
        ensures seen { seen_of result.scope ≡ seen_in self.now.graph.now.table (class_number self.now.graph.now node) }
    {
        Actions {
            scope: self.scope(node),
        }
    }

    /// The call by the edge `site` from the class of an arc's node into that of the node `inside`.
    fn crossing(&self, arc: &Arc, site: u32, inside: u32) -> Crossing<'a>
        requires arc { ArcFits self.now.flow.now self.now.graph.now arc.now }
        requires inside { inside < length self.now.graph.now.nodes }
        requires entered { IsEntered self.now.flow.now self.now.graph.now arc.now.from inside site arc.now.call }
        requires stands { LeavesNode self.now.flow.now self.now.graph.now site arc.now.from }
        ensures value { crossing_of result ≡ crossing_by self.now.flow.now self.now.graph.now arc.now.from inside arc.now.call (action_at self.now.flow.now self.now.graph.now site) }
        ensures outside { cells_in result.classes.now result.outside ≡ cells_at self.now.graph.now arc.now.from }
        ensures inside { cells_in result.classes.now result.inside ≡ cells_at self.now.graph.now inside }
    {
        match &self.flow.edges()[site as usize].act {
            Act::Call {
                routine,
                actuals,
                slot,
                ..
            } => Crossing {
                flow: self.flow,
                classes: self.graph.classes(),
                outside: self.class(arc.from),
                inside: self.class(inside),
                site,
                links: self.graph.links_of(arc.call),
                routine: *routine,
                actuals: actuals.as_slice(),
                slot: *slot,
            },
            _ => unreachable!(),
        }
    }

    /// Joins what a call gives to the class that it enters to `out`, where `scratch` is the environment of the call.
    fn enter(&self, arc: &Arc, scratch: &mut Env, out: &mut Env)
        requires arc { ArcFits self.now.flow.now self.now.graph.now arc.now }
        requires call { is_call self.now.flow.now.edges arc.now.edge ≡ true }
        requires from { cell_count scratch.old.env ≡ cells_at self.now.graph.now arc.now.from }
        requires out { cell_count out.old.env ≡ cells_at self.now.graph.now arc.now.to }
        ensures value { out.new.env ≡ env_join out.old.env (called (crossing_by self.now.flow.now self.now.graph.now arc.now.from arc.now.to arc.now.call (action_at self.now.flow.now self.now.graph.now arc.now.edge)) scratch.old.env) }
        ensures cells { cell_count out.new.env ≡ cell_count out.old.env }
        ensures room { room_of out.new ≡ room_of out.old }
        ensures scratch { room_of scratch.new ≡ room_of scratch.old }
    {
        let crossing = self.crossing(arc, arc.edge, arc.to);
        crossing.leave(scratch);
        crossing.join_entry(scratch, out);
    }

    /// Joins what comes back from the exit of a routine that was called, where `scratch` is the environment of the call.
    fn come_back(&self, arc: &Arc, site: u32, table: &[Env], scratch: &mut Env, out: &mut Env)
        requires arc { ArcFits self.now.flow.now self.now.graph.now arc.now }
        requires back { ComesBack self.now.flow.now self.now.graph.now arc.now site }
        requires from { cell_count scratch.old.env ≡ cells_at self.now.graph.now arc.now.from }
        requires table { FitsGraph self.now.graph.now (environments table.now) }
        requires out { cell_count out.old.env ≡ cells_at self.now.graph.now arc.now.to }
        ensures value { out.new.env ≡ env_join out.old.env (returned (crossing_by self.now.flow.now self.now.graph.now arc.now.from (exit_of arc.now) arc.now.call (action_at self.now.flow.now self.now.graph.now site)) (element env_ops (environments table.now) (exit_of arc.now)) scratch.old.env) }
        ensures cells { cell_count out.new.env ≡ cell_count out.old.env }
        ensures room { room_of out.new ≡ room_of out.old }
        ensures scratch { room_of scratch.new ≡ room_of scratch.old }
    {
        let exit = match arc.other {
            Some(exit) => exit,
            None => unreachable!(),
        };
        let crossing = self.crossing(arc, site, exit);
        crossing.leave(scratch);
        crossing.come_back(scratch, &table[exit as usize]);
        out.join_from(scratch);
    }

    /// Joins what a `goto` keeps of an environment to `out`.
    fn go(&self, arc: &Arc, left: &Env, scratch: &mut Env, out: &mut Env)
        requires left { cells_at self.now.graph.now arc.now.to ≤ cell_count left.now.env }
        requires room { cells_at self.now.graph.now arc.now.to ≤ room_of scratch.old }
        requires out { cell_count out.old.env ≡ cells_at self.now.graph.now arc.now.to }
        ensures value { out.new.env ≡ env_join out.old.env (kept_cells (cells_at self.now.graph.now arc.now.to) left.now.env) }
        ensures cells { cell_count out.new.env ≡ cell_count out.old.env }
        ensures room { room_of out.new ≡ room_of out.old }
        ensures scratch { room_of scratch.new ≡ room_of scratch.old }
    {
        keep_cells(scratch, left, out.cells());
        out.join_from(scratch);
    }

    /// Joins what an action that stays in its class leaves to `out`, where `scratch` is the environment in which it is done.
    fn stay(&self, arc: &Arc, scratch: &mut Env, out: &mut Env)
        requires arc { ArcFits self.now.flow.now self.now.graph.now arc.now }
        requires stays { goes_on_after (action_at self.now.flow.now self.now.graph.now arc.now.edge) ≡ true }
        requires from { cell_count scratch.old.env ≡ cells_at self.now.graph.now arc.now.from }
        requires out { cell_count out.old.env ≡ cells_at self.now.graph.now arc.now.to }
        ensures value { out.new.env ≡ env_join out.old.env (after (scope_at self.now.flow.now self.now.graph.now arc.now.from) (action_at self.now.flow.now self.now.graph.now arc.now.edge) scratch.old.env) }
        ensures cells { cell_count out.new.env ≡ cell_count out.old.env }
        ensures room { room_of out.new ≡ room_of out.old }
        ensures scratch { room_of scratch.new ≡ room_of scratch.old }
    {
        what_is_visible_is_seen();
        self.graph.classes().count();
        self.actions(arc.from)
            .act(scratch, &self.flow.edges()[arc.edge as usize].act);
        out.join_from(scratch);
    }

    /// Joins what comes along an arc to `out`.
    pub(crate) fn join_arc(&self, arc: &Arc, table: &[Env], scratch: &mut Env, out: &mut Env)
        requires arc { ArcFits self.now.flow.now self.now.graph.now arc.now }
        requires table { FitsGraph self.now.graph.now (environments table.now) }
        requires room { HasRoomFor self.now.graph.now (room_of scratch.old) }
        requires out { cell_count out.old.env ≡ cells_at self.now.graph.now arc.now.to }
        ensures value { out.new.env ≡ env_join out.old.env (along self.now.flow.now self.now.graph.now (environments table.now) arc.now) }
        ensures cells { cell_count out.new.env ≡ cell_count out.old.env }
        ensures room { room_of out.new ≡ room_of out.old }
        ensures scratch { room_of scratch.new ≡ room_of scratch.old }
    {
        refining_leaves_less();
        let left = &table[arc.from as usize];
        if !left.reachable() {
            return;
        }
        match &self.flow.edges()[arc.edge as usize].act {
            Act::Call { .. } => {
                scratch.copy_from(left);
                self.enter(arc, scratch, out)
            }
            Act::Return { call } => {
                scratch.copy_from(left);
                self.come_back(arc, *call, table, scratch, out)
            }
            Act::Goto { .. } => self.go(arc, left, scratch, out),
            Act::Skip | Act::DropLine | Act::EndLine => out.join_from(left),
            _ => {
                scratch.copy_from(left);
                self.stay(arc, scratch, out)
            }
        }
    }

    /// Makes `out` what a node has before anything comes along: nothing, or at the program's entry all cells undefined.
    pub(crate) fn begin(&self, node: u32, origin: bool, out: &mut Env)
        requires node { node < length self.now.graph.now.nodes }
        requires room { cells_at self.now.graph.now node ≤ room_of out.old }
        ensures value { out.new.env ≡ initial self.now.flow.now self.now.graph.now origin node }
        ensures room { room_of out.new ≡ room_of out.old }
    {
        out.reshape(self.graph.classes().cells(self.class(node)));
        if origin && node == 0 {
            out.start();
        }
    }

    /// Joins what comes along the arcs to a node to `out`.
    pub(crate) fn join_all(&self, node: u32, table: &[Env], scratch: &mut Env, out: &mut Env)
        requires node { node < length self.now.graph.now.nodes }
        requires table { FitsGraph self.now.graph.now (environments table.now) }
        requires room { HasRoomFor self.now.graph.now (room_of scratch.old) }
        requires out { cell_count out.old.env ≡ cells_at self.now.graph.now node }
        ensures value { out.new.env ≡ all_joined self.now.flow.now self.now.graph.now (environments table.now) out.old.env (incoming_at self.now.graph.now node) }
        ensures cells { cell_count out.new.env ≡ cell_count out.old.env }
        ensures room { room_of out.new ≡ room_of out.old }
        ensures scratch { room_of scratch.new ≡ room_of scratch.old }
    {
        for arc in self.graph.incoming(node) {
            self.join_arc(arc, table, scratch, out);
        }
    }

    /// The assertions of a node's point that must always hold are true, in order.
    pub(crate) fn assume(&self, node: u32, out: &mut Env)
        requires node { node < length self.now.graph.now.nodes }
        requires out { cell_count out.old.env ≡ cells_at self.now.graph.now node }
        ensures value { out.new.env ≡ all_assumed self.now.flow.now self.now.graph.now (scope_at self.now.flow.now self.now.graph.now node) (standing_at (chart_of self.now.flow.now) (point_number self.now.graph.now node)) out.old.env }
        ensures cells { cell_count out.new.env ≡ cell_count out.old.env }
        ensures room { room_of out.new ≡ room_of out.old }
    {
        what_is_visible_is_seen();
        assertions_are_of_their_routine();
        self.graph.classes().count();
        let scope = self.scope(node);
        for number in self.flow.asserts_at(self.point(node)) {
            let assert = &self.flow.program().asserts.as_slice()[*number as usize];
            if !assert.sometime {
                scope.refine(out, &assert.cond, truth(true));
            }
        }
    }

    /// The number of a node's point.
    fn point(&self, node: u32) -> u32
        requires { node < length self.now.graph.now.nodes }
        ensures value { result ≡ point_number self.now.graph.now node }
        ensures in_range { result < length self.now.flow.now.points }
    {
        self.graph.point_of(node)
    }
}

/// Makes `env` the first cells of an environment, which are those of a class around its own.
fn keep_cells(env: &mut Env, from: &Env, cells: u32)
    requires from { cells ≤ cell_count from.now.env }
    requires room { cells ≤ room_of env.old }
    ensures value { env.new.env ≡ kept_cells cells from.now.env }
    ensures cells { cell_count env.new.env ≡ cells }
    ensures room { room_of env.new ≡ room_of env.old }
{
    env.reshape(cells);
    if from.reachable() {
        env.start();
        for cell in 0..cells {
            env.set(cell, from.get(cell));
        }
    }
}
