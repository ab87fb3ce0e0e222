//! What a table says of a point over all its nodes.
ghost use Rattle.std.specs.Prelude.{◌≡◌, ◌<◌, length};
ghost use Rattle.interval.specs.Values.{nothing};
ghost use Rattle.activations.specs.Fitting.{point_number};
ghost use Rattle.transfer_fwd.specs.Systems.{FitsGraph, environments};
ghost use Rattle.report.specs.Nodes.{SeesVariable, held, is_reached, joined};

use super::Nodes;
use alias_class::what_is_in_scope_is_seen;
use environment::Env;
use interval::{Itv, Val};
use lattice::Lattice;

impl Nodes<'_> {
    /// Whether a table reaches a point in some class.
    pub(crate) fn is_reached(&self, table: &[Env], point: u32) -> bool
        requires point { point < length self.now.flow.now.points }
        requires fits { FitsGraph self.now.graph.now (environments table.now) }
        ensures { result ≡ is_reached self.now.graph.now (environments table.now) point }
    {
        for node in self.at(point) {
            if table[*node as usize].reachable() {
                return true;
            }
        }
        false
    }

    /// What a variable may hold at a point, joined over the classes of its routine.
    pub(crate) fn joined(&self, table: &[Env], point: u32, var: u32) -> Val
        requires point { point < length self.now.flow.now.points }
        requires fits { FitsGraph self.now.graph.now (environments table.now) }
        requires seen { SeesVariable self.now.flow.now point var }
        ensures { result ≡ joined self.now.graph.now (environments table.now) point var }
    {
        let mut all = no_value();
        for node in self.at(point) {
            all.join_from(&self.held(table, *node, var));
        }
        all
    }

    /// What a variable may hold at a node.
    fn held(&self, table: &[Env], node: u32, var: u32) -> Val
        requires node { node < length self.now.graph.now.nodes }
        requires fits { FitsGraph self.now.graph.now (environments table.now) }
        requires seen { SeesVariable self.now.flow.now (point_number self.now.graph.now node) var }
        ensures { result ≡ held self.now.graph.now (environments table.now) var node }
    {
        let env = &table[node as usize];
        if !env.reachable() {
            return no_value();
        }
        what_is_in_scope_is_seen();
        let classes = self.graph.classes();
        let class = self.graph.class_of(node);
        let _routine = classes.routine(class);
        env.get(classes.resolve(class, var).cell)
    }
}

/// What a cell holds that is not reached.
fn no_value() -> Val
    ensures { result ≡ nothing }
{
    let mut value = Val {
        undef: false,
        itv: Itv::EMPTY,
    };
    value.set_bottom();
    value
}
