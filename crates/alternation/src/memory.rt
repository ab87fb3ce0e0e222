//! All memory that an analysis needs.
ghost use Rattle.std.specs.Prelude.{◌≡◌, IfOk};
ghost use Rattle.activations.specs.Drawn.{IsUnfolding};
ghost use Rattle.alternation.specs.Analysed.{flow_of, graph_of, plain_of};
ghost use Rattle.alternation.specs.Limits.{unreached};

use crate::analysis::Analysis;
use crate::dependences::Dependences;
use crate::limits::{most_cells, type_limits, unreached};
use crate::stops::Stops;
use activations::{Graph, arcs_fit_their_edges};
use control_points::Flow;
use environment::Env;
use std::alloc::{AllocError, Global};
use transfer_fwd::forward_reads;

/// Takes all memory that the analysis of a flow over its unfolding needs. Until it runs, all elements of its tables are unreached.
pub fn reserve<'a>(
    alloc: Global,
    flow: &'a Flow,
    graph: &'a Graph,
) -> Result<Analysis<'a>, AllocError>
    requires { IsUnfolding flow.now graph.now }
    ensures flow { IfOk result (λ a. flow_of a ≡ flow.now) }
    ensures graph { IfOk result (λ a. graph_of a ≡ graph.now) }
    ensures unreached { IfOk result (λ a. plain_of a ≡ unreached graph.now) }
{
    arcs_fit_their_edges();
    let _classes = graph.classes().count();
    let nodes = graph.nodes();
    let room = most_cells(graph);
    Ok(Analysis {
        flow,
        graph,
        forward: Dependences::of(alloc, forward_reads(alloc, graph)?, false)?,
        steps: Stops::of(alloc, flow)?,
        limits: type_limits(alloc, graph)?,
        plain: unreached(alloc, graph)?,
        stale: vec![in alloc; false; nodes as usize]?,
        value: Env::new(alloc, room, room)?,
        arc: Env::new(alloc, room, room)?,
    })
}
