//! The forward system as equations.

ghost use Rattle.std.specs.Prelude.{◌≡◌, map};
ghost use Rattle.environment.specs.Environments.{env_ops};
ghost use Rattle.fixpoint.specs.System.{IsSystem};
ghost use Rattle.environment.specs.Kept.{room_of};
ghost use Rattle.activations.specs.Fitting.{ArcsFit};
ghost use Rattle.alias_class.specs.Outlines.{outline_of};
ghost use Rattle.transfer_fwd.specs.Reads.{AreForwardReads};
ghost use Rattle.transfer_fwd.specs.Systems.{HasRoomFor, forward_system};

use crate::along::Unfolded;
use abstract_expr::refining_leaves_less;
use activations::Graph;
use control_points::Flow;
use environment::Env;
use fixpoint::Equations;
use lattice::Steps;
use std::sync::ledger::Ledger;

/// The forward equations over the nodes of an unfolding.
#[derive(Drop)]
pub struct Forward<'a> {
    pub(crate) unfolded: Unfolded<'a>,
    pub(crate) scratch: &'a mut Env,
    pub(crate) reads: &'a [Vec<u32>],
    pub(crate) with_asserts: bool,
    pub(crate) origin: bool,
    pub ghost listed: { AreForwardReads unfolded.graph.now (map (λ v. v.items) reads.now) },
    pub ghost is_system: { IsSystem env_ops (forward_system unfolded.flow.now unfolded.graph.now (map (λ v. v.items) reads.now) with_asserts origin) },
    pub ghost room: { HasRoomFor unfolded.graph.now (room_of scratch.now) },
}

impl<'a> Forward<'a> {
    ghost use Rattle.transfer_fwd.specs.Solving.{kept_of, system_of};

    /// The system without assertions or with those that must always hold; where `origin` is false, the program's entry isn't reached.
    pub fn over(
        flow: &'a Flow,
        graph: &'a Graph,
        scratch: &'a mut Env,
        reads: &'a [Vec<u32>],
        with_asserts: bool,
        origin: bool,
    ) -> Forward<'a>
        requires outline { graph.now.table.outline ≡ outline_of flow.now }
        requires fits { ArcsFit flow.now graph.now }
        requires reads { AreForwardReads graph.now (map (λ v. v.items) reads.now) }
        requires room { HasRoomFor graph.now (room_of scratch.old) }
        ensures system { system_of result ≡ forward_system flow.now graph.now (map (λ v. v.items) reads.now) with_asserts origin }
        ensures scratch { (kept_of result).scratch ≡ scratch.entry.ghost_name }
        ensures room { (kept_of result).room ≡ room_of scratch.old }
    {
        refining_leaves_less();
        Forward {
            unfolded: Unfolded { flow, graph },
            scratch,
            reads,
            with_asserts,
            origin,
        }
    }
}

impl Equations<Env> for Forward<'_> {
    ghost use Rattle.transfer_fwd.specs.Solving.{Kept, kept_of, system_of};

    ghost system = { system_of };

    ghost Kept = { Kept };

    ghost kept = { kept_of };

    ghost laws = { λ s. s.is_system };

    fn nodes(&self) -> u32 {
        self.unfolded.graph.nodes()
    }

    fn reads(&self, node: u32) -> &[u32] {
        &self.reads[node as usize]
    }

    fn eval<G: Ledger>(&mut self, node: u32, table: &[Env], out: &mut Env, count: &mut Steps<G>) {
        let unfolded = self.unfolded;
        unfolded.begin(node, self.origin, out);
        unfolded.join_all(node, table, self.scratch, out);
        if self.with_asserts {
            unfolded.assume(node, out);
        }
        count.tick();
    }
}
