ghost use Rattle.std.specs.Prelude.{◌≡◌, ℕ, ◌+◌, ◌<◌, ◌≤◌, map};
ghost use Rattle.fixpoint.specs.Ascent.{met};
ghost use Rattle.fixpoint.specs.System.{IsTable};

use crate::equations::Equations;
use lattice::{Lattice, Steps};
use std::sync::ledger::Ledger;

/// Evaluates equations into a scratch element, and counts how often.
#[derive(Drop)]
pub(crate) struct Evaluator<'q, 's, 'c, L, Q, G: Ledger> {
    pub(crate) eqs: &'q mut Q,
    pub(crate) scratch: &'s mut L,
    pub(crate) count: &'c mut Steps<G>,
}

impl<L: Lattice, Q: Equations<L>, G: Ledger> Evaluator<'_, '_, '_, L, Q, G> {
    /// Makes the scratch the value of the node's equation.
    pub(crate) fn evaluate(&mut self, node: u32, table: &[L])
        requires node { node < (Q.system self.old.eqs.now).nodes }
        requires table { IsTable L.ops (Q.system self.old.eqs.now) (map L.value table.now) }
        requires room { (Q.system self.old.eqs.now).shape node ≤ L.room self.old.scratch.now }
        ensures value { L.value self.new.scratch.now ≡ (Q.system self.old.eqs.now).value node (map L.value table.now) }
        ensures counted { self.new.count.now ≡ self.old.count.now + 1 }
        ensures room { L.room self.new.scratch.now ≡ L.room self.old.scratch.now }
        ensures same { Q.system self.new.eqs.now ≡ Q.system self.old.eqs.now }
        ensures kept { Q.kept self.new.eqs.now ≡ Q.kept self.old.eqs.now }
        ensures eqs_name { self.new.eqs.ghost_name ≡ self.old.eqs.ghost_name }
        ensures scratch_name { self.new.scratch.ghost_name ≡ self.old.scratch.ghost_name }
        ensures count_name { self.new.count.ghost_name ≡ self.old.count.ghost_name }
    {
        self.eqs.eval(node, table, self.scratch, self.count);
    }

    /// Makes the scratch the value of the node's equation, met with its limit.
    pub(crate) fn evaluate_within(&mut self, node: u32, limits: &[L], table: &[L])
        requires node { node < (Q.system self.old.eqs.now).nodes }
        requires limits { IsTable L.ops (Q.system self.old.eqs.now) (map L.value limits.now) }
        requires table { IsTable L.ops (Q.system self.old.eqs.now) (map L.value table.now) }
        requires room { (Q.system self.old.eqs.now).shape node ≤ L.room self.old.scratch.now }
        ensures value { L.value self.new.scratch.now ≡ met L.ops (Q.system self.old.eqs.now) (map L.value limits.now) (map L.value table.now) node }
        ensures counted { self.new.count.now ≡ self.old.count.now + 1 }
        ensures room { L.room self.new.scratch.now ≡ L.room self.old.scratch.now }
        ensures same { Q.system self.new.eqs.now ≡ Q.system self.old.eqs.now }
        ensures kept { Q.kept self.new.eqs.now ≡ Q.kept self.old.eqs.now }
        ensures eqs_name { self.new.eqs.ghost_name ≡ self.old.eqs.ghost_name }
        ensures scratch_name { self.new.scratch.ghost_name ≡ self.old.scratch.ghost_name }
        ensures count_name { self.new.count.ghost_name ≡ self.old.count.ghost_name }
    {
        self.evaluate(node, table);
        self.scratch.meet_from(&limits[node as usize]);
    }
}
