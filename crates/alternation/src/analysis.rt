//! The tables, and how they are solved.
ghost use Rattle.std.specs.Prelude.{◌≡◌, ◌≤◌, ◌-◌, false, length};
ghost use Rattle.activations.specs.Fitting.{ArcsFit};
ghost use Rattle.alias_class.specs.Outlines.{outline_of};
ghost use Rattle.control_points.specs.Thresholds.{thresholds_of};
ghost use Rattle.environment.specs.Kept.{room_of};
ghost use Rattle.transfer_fwd.specs.Reads.{AreForwardReads};
ghost use Rattle.transfer_fwd.specs.Systems.{FitsGraph, HasRoomFor, environments};
ghost use Rattle.alternation.specs.Limits.{type_limits};
ghost use Rattle.alternation.specs.Solved.{AreEnough, IsPlain};

use crate::dependences::Dependences;
use crate::stops::Stops;
use activations::Graph;
use control_points::Flow;
use environment::Env;
use fixpoint::{ascend, descend};
use lattice::Steps;
use std::sync::ledger::Ledger;
use transfer_fwd::Forward;

/// The analysis of a flow over its unfolding, with all memory that it needs.
#[derive(Drop)]
pub struct Analysis<'a> {
    pub(crate) flow: &'a Flow,
    pub(crate) graph: &'a Graph,
    pub(crate) forward: Dependences,
    /// The numbers at which a widening stops.
    pub(crate) steps: Stops,
    /// What each cell may hold by the type of its variable.
    pub(crate) limits: Vec<Env>,
    pub(crate) plain: Vec<Env>,
    pub(crate) stale: Vec<bool>,
    pub(crate) value: Env,
    pub(crate) arc: Env,
    pub ghost fits: { ArcsFit flow.now graph.now },
    pub ghost are_reads: { AreForwardReads graph.now forward.reads },
    pub ghost least_first: { forward.greatest_first ≡ false },
    pub ghost are_steps: { steps ≡ thresholds_of flow.now.program },
    pub ghost are_limits: { environments limits.items ≡ type_limits graph.now },
    pub ghost table: { FitsGraph graph.now (environments plain.items) },
    pub ghost marks: { length stale.items ≡ length graph.now.nodes },
    pub ghost value_room: { HasRoomFor graph.now (room_of value) },
    pub ghost arc_room: { HasRoomFor graph.now (room_of arc) },
    pub ghost outline: { graph.now.table.outline ≡ outline_of flow.now },
}

impl Analysis<'_> {
    ghost use Rattle.alternation.specs.Analysed.{flow_of, graph_of, plain_of};

    /// Solves the systems, with so many rounds at most. It takes no memory, and begins anew each time.
    pub fn run<G: Ledger>(&mut self, rounds: u8, count: &mut Steps<G>)
        requires some { 1 ≤ rounds }
        requires few { rounds ≤ 9 }
        ensures flow { flow_of self.new ≡ flow_of self.old }
        ensures graph { graph_of self.new ≡ graph_of self.old }
        ensures plain { IsPlain (flow_of self.old) (graph_of self.old) (plain_of self.new) }
        ensures evaluations { AreEnough (flow_of self.old) (graph_of self.old) (count.new - count.old) }
    {
        let mut forward = Forward::over(
            self.flow,
            self.graph,
            &mut self.arc,
            &self.forward.reads,
            false,
            true,
        );
        ascend(
            &self.forward.order,
            &mut forward,
            &self.limits,
            self.steps.as_slice(),
            &self.forward.read_by,
            &mut self.stale,
            &mut self.plain,
            &mut self.value,
            count,
        );
        descend(
            &self.forward.order,
            &mut forward,
            &self.limits,
            &self.forward.read_by,
            &mut self.stale,
            &mut self.plain,
            &mut self.value,
            count,
        );
    }

    /// For each node what holds whenever a run stands there, whether the run goes well or not.
    pub fn plain(&self) -> &[Env]
        ensures value { environments result.now ≡ plain_of self.now }
        ensures fits { FitsGraph (graph_of self.now) (plain_of self.now) }
    {
        &self.plain
    }

    /// For each node what holds there in each run that goes well.
    pub fn all(&self) -> &[Env]
        ensures value { environments result.now ≡ plain_of self.now }
        ensures fits { FitsGraph (graph_of self.now) (plain_of self.now) }
    {
        &self.plain
    }

    /// For each node what holds there in each run that goes well, while each assertion that need only hold at some time is still met there or
    /// later.
    pub fn way(&self) -> &[Env]
        ensures value { environments result.now ≡ plain_of self.now }
        ensures fits { FitsGraph (graph_of self.now) (plain_of self.now) }
    {
        &self.plain
    }
}
