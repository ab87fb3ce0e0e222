//! Lists of nodes by their points.
ghost use Rattle.std.specs.Prelude.{◌≡◌, ◌+◌, ◌<◌, ℕ, IfOk, OnOk, length, map};
ghost use Rattle.std.specs.List.{range_with_len};
ghost use Rattle.alias_class.specs.Outlines.{outline_of};
ghost use Rattle.activations.specs.Fitting.{ArcsFit, point_number};
ghost use Rattle.activations.specs.Parts.{lists_of};
ghost use Rattle.report.specs.Nodes.{first_nodes_at, nodes_at};

use super::Nodes;
use activations::Graph;
use control_points::Flow;
use std::alloc::{AllocError, Global};

impl<'a> Nodes<'a> {
    pub(crate) fn of(
        alloc: Global,
        flow: &'a Flow,
        graph: &'a Graph,
    ) -> Result<Nodes<'a>, AllocError>
        requires outline { graph.now.table.outline ≡ outline_of flow.now }
        requires fits { ArcsFit flow.now graph.now }
        ensures flow { IfOk result (λ nodes. nodes.flow.now ≡ flow.now) }
        ensures graph { IfOk result (λ nodes. nodes.graph.now ≡ graph.now) }
    {
        let mut by_point = no_nodes(alloc, graph, flow.points().len() as u32)?;
        for node in 0..graph.nodes() {
            add_node(&mut by_point, graph, node)?;
        }
        Ok(Nodes {
            flow,
            graph,
            by_point,
        })
    }

    /// The nodes of a point, in order of number.
    pub(crate) fn at(&self, point: u32) -> &[u32]
        requires { point < length self.now.flow.now.points }
        ensures { result.now ≡ nodes_at self.now.graph.now point }
    {
        &self.by_point[point as usize]
    }
}

/// An empty list for each point.
fn no_nodes(alloc: Global, graph: &Graph, points: u32) -> Result<Vec<Vec<u32>>, AllocError>
    ensures { IfOk result (λ lists. lists_of lists.items ≡ map (first_nodes_at graph.now 0) (range_with_len 0 points)) }
{
    let mut lists = Vec::with_capacity(alloc, points as usize)?;
    for _ in 0..points {
        lists.push(Vec::new(alloc))?;
    }
    Ok(lists)
}

/// Adds a node to the list of its point, which has the nodes of lower numbers.
fn add_node(lists: &mut Vec<Vec<u32>>, graph: &Graph, node: u32) -> Result<(), AllocError>
    requires node { node < length graph.now.nodes }
    requires point { point_number graph.now node < length lists.old.items }
    ensures listed { OnOk result ((points : ℕ) → lists_of lists.old.items ≡ map (first_nodes_at graph.now node) (range_with_len 0 points) → lists_of lists.new.items ≡ map (first_nodes_at graph.now (node + 1)) (range_with_len 0 points)) }
    ensures length { length lists.new.items ≡ length lists.old.items }
{
    lists[graph.point_of(node) as usize].push(node)?;
    Ok(())
}
