//! The nodes of each point: one for each class of its routine.
ghost use Rattle.std.specs.Prelude.{◌≡◌, length};
ghost use Rattle.alias_class.specs.Outlines.{outline_of};
ghost use Rattle.activations.specs.Fitting.{ArcsFit};
ghost use Rattle.activations.specs.Parts.{lists_of};
ghost use Rattle.report.specs.Nodes.{nodes_by_point};

use activations::Graph;
use control_points::Flow;

mod joining;
mod listing;

/// A flow with its unfolding, and for each point its nodes.
#[derive(Drop)]
pub(crate) struct Nodes<'a> {
    pub flow: &'a Flow,
    pub graph: &'a Graph,
    by_point: Vec<Vec<u32>>,
    pub ghost outline: { graph.now.table.outline ≡ outline_of flow.now },
    pub ghost fits: { ArcsFit flow.now graph.now },
    pub ghost listed: { lists_of by_point.items ≡ nodes_by_point graph.now (length flow.now.points) },
}
