//! The nodes of a graph.

ghost use Rattle.std.specs.Prelude.{◌≡◌, ◌≤◌, ◌++◌, Contains, IfOk, OnOk, Some, map, slice_get};
ghost use Rattle.alias_class.specs.Outlines.{outline_of};
ghost use Rattle.activations.specs.Listed.{AreNodesOf, AreNumbered};
ghost use Rattle.activations.specs.Parts.{ArePointsOf};
ghost use Rattle.activations.specs.Unfolding.{most_cells, size_of, unfolding_of};

use crate::node::Node;
use crate::routines::RoutinePoints;
use alias_class::Classes;
use control_points::Flow;
use std::alloc::{AllocError, Global};

/// Nodes by class and then by point, and how the number of one is found.
#[derive(Drop)]
pub(crate) struct Nodes {
    pub list: Vec<Node>,
    /// The first node of each class.
    pub firsts: Vec<u32>,
    /// For each point how many of its routine come before it.
    pub ranks: Vec<u32>,
}

impl Nodes {
    /// Those of the classes of a flow.
    pub(crate) fn of(
        alloc: Global,
        flow: &Flow,
        routines: RoutinePoints,
        classes: &Classes,
    ) -> Result<Nodes, AllocError>
        requires points { ArePointsOf flow.now routines }
        requires outline { classes.now.outline ≡ outline_of flow.now }
        requires few { size_of (unfolding_of flow.now classes.now.classes) classes.now.classes ≤ most_cells }
        ensures { IfOk result (AreNodesOf (unfolding_of flow.now classes.now.classes)) }
    {
        let mut list = Vec::new(alloc);
        let mut firsts = Vec::with_capacity(alloc, classes.count() as usize)?;
        for class in 0..classes.count() {
            firsts.push(list.len() as u32)?;
            add_nodes(
                &mut list,
                class,
                routines.of_routine(classes.routine(class)),
            )?;
        }
        Ok(Nodes {
            list,
            firsts,
            ranks: routines.ranks,
        })
    }

    /// The number of the node of a class and a point.
    pub(crate) fn number(&self, class: u32, point: u32) -> u32
        requires numbered { AreNumbered self.now }
        requires known { Contains self.now.list.items (record { class = class; point = point }) }
        ensures { slice_get self.now.list.items result ≡ Some (record { class = class; point = point }) }
    {
        self.firsts[class as usize] + self.ranks[point as usize]
    }
}

/// Adds the nodes of a class, whose routine has these points.
fn add_nodes(list: &mut Vec<Node>, class: u32, points: &[u32]) -> Result<(), AllocError>
    ensures { OnOk result (list.new.items ≡ list.old.items ++ map (λ p. record { class = class; point = p }) points.now) }
{
    for point in points {
        list.push(Node {
            class,
            point: *point,
        })?;
    }
    Ok(())
}
