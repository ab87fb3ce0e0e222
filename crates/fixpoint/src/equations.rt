ghost use Rattle.std.specs.Prelude.{◌≡◌, ℕ, ◌+◌, ◌<◌, ◌≤◌, map};
ghost use Rattle.fixpoint.specs.System.{System, IsSystem, IsTable};

use lattice::{Lattice, Steps};
use std::sync::ledger::Ledger;

/// A system of equations, one for each node, over tables that have one element for each node.
pub trait Equations<L: Lattice> {
    /// What contracts see of the equations.
    ghost system: { Self → System L.Plain };

    /// What the implementing type keeps of itself through an evaluation, as the names of what it borrows.
    ghost Kept: { Type 0 };

    ghost kept: { Self → Kept };

    /// How many nodes there are; they are numbered from 0.
    fn nodes(&self) -> u32
        ensures { result ≡ (system self.now).nodes };

    /// The nodes that the equation of a node reads.
    fn reads(&self, node: u32) -> &[u32]
        requires { node < (system self.now).nodes }
        ensures { result.now ≡ (system self.now).reads node };

    /// Makes `out` the value of the node's equation at the table, and counts that.
    fn eval<G: Ledger>(&mut self, node: u32, table: &[L], out: &mut L, count: &mut Steps<G>)
        requires node { node < (system self.old).nodes }
        requires table { IsTable L.ops (system self.old) (map L.value table.now) }
        requires room { (system self.old).shape node ≤ L.room out.old }
        ensures value { L.value out.new ≡ (system self.old).value node (map L.value table.now) }
        ensures room { L.room out.new ≡ L.room out.old }
        ensures same { system self.new ≡ system self.old }
        ensures kept { kept self.new ≡ kept self.old }
        ensures counted { count.new ≡ count.old + 1 };

    /// Each equation is a function of the elements that it reads, and gives a value of its node's shape.
    ghost laws: { (x : Self) → IsSystem L.ops (system x) };
}
