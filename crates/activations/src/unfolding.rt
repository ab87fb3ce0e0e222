//! From a flow to its unfolding.

ghost use Rattle.std.specs.Prelude.{IfErr, IfOk};
ghost use Rattle.activations.specs.Drawn.{IsCause, IsUnfolding};

use crate::discovery::discover;
use crate::drawing::draw;
use crate::fault::UnfoldFault;
use crate::graph::Graph;
use crate::routines::RoutinePoints;
use crate::silence::left_classes;
use control_points::Flow;
use std::alloc::Global;

/// The unfolding of a flow. The time is linear in nodes, arcs and cells, but for the search for gotos that leave a routine, which goes over the calls
/// once more than the longest chain of callers that is met against their order.
///
/// # Errors
///
/// The sizes of the classes, added in their order, pass 4,000,000, where the size of a class is for each point of its routine one and its cells; or
/// want of memory.
pub fn unfold(alloc: Global, flow: &Flow) -> Result<Graph, UnfoldFault>
    ensures unfolding { IfOk result (IsUnfolding flow.now) }
    ensures cause { IfErr result (IsCause flow.now) }
{
    let routines = RoutinePoints::of(alloc, flow).map_err(UnfoldFault::Memory)?;
    let found = discover(alloc, flow, &routines)?;
    let left = left_classes(alloc, flow, &found).map_err(UnfoldFault::Memory)?;
    draw(alloc, flow, routines, found, left).map_err(UnfoldFault::Memory)
}
