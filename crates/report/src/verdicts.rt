//! Which checks may fail.
ghost use Rattle.std.specs.Prelude.{◌≡◌, ◌<◌, IfOk, length};
ghost use Rattle.control_points.specs.Flows.{chart_of};
ghost use Rattle.control_points.specs.Judgements.{point_judgements};
ghost use Rattle.environment.specs.Kept.{room_of};
ghost use Rattle.activations.specs.Fitting.{class_number, point_number};
ghost use Rattle.abstract_expr.specs.Verdicts.{holds_at, marks_with};
ghost use Rattle.report.specs.Conditions as spec;
ghost use Rattle.environment.specs.Environments.{env_ops};
ghost use Rattle.fixpoint.specs.System.{element};
ghost use Rattle.transfer_fwd.specs.Systems.{FitsGraph, HasRoomFor, environments};

use crate::nodes::Nodes;
use abstract_expr::mark_open;
use activations::Graph;
use control_points::checks_are_those_of_points;
use environment::Env;
use lattice::Lattice;
use std::alloc::{AllocError, Global};

/// For each check whether it may fail from the table in some class of its point's routine.
pub(crate) fn open_checks(
    alloc: Global,
    nodes: &Nodes,
    plain: &[Env],
) -> Result<Vec<bool>, AllocError>
    requires { FitsGraph nodes.now.graph.now (environments plain.now) }
    ensures { IfOk result (λ marks. marks.items ≡ spec.open_checks nodes.now.flow.now nodes.now.graph.now (environments plain.now)) }
{
    let mut all = Vec::with_capacity(alloc, nodes.flow.checks().len())?;
    let room = most_cells(nodes.graph);
    let mut scratch = Env::new(alloc, room, room)?;
    for point in 0..nodes.flow.points().len() as u32 {
        let marks = open_at(alloc, nodes, plain, point, &mut scratch)?;
        all.extend_from_slice(&marks)?;
    }
    Ok(all)
}

/// The same for the checks of a point. It uses an environment with room for the cells of each class as scratch.
fn open_at(
    alloc: Global,
    nodes: &Nodes,
    plain: &[Env],
    point: u32,
    scratch: &mut Env,
) -> Result<Vec<bool>, AllocError>
    requires point { point < length nodes.now.flow.now.points }
    requires fits { FitsGraph nodes.now.graph.now (environments plain.now) }
    requires room { HasRoomFor nodes.now.graph.now (room_of scratch.old) }
    ensures value { IfOk result (λ marks. marks.items ≡ spec.open_at nodes.now.flow.now nodes.now.graph.now (environments plain.now) point) }
    ensures room { room_of scratch.new ≡ room_of scratch.old }
{
    let mut marks = vec![in alloc; false; count_checks(nodes, point)]?;
    for node in nodes.at(point) {
        mark_at(nodes, plain, *node, scratch, &mut marks);
    }
    Ok(marks)
}

/// How many checks a point has.
fn count_checks(nodes: &Nodes, point: u32) -> usize
    requires { point < length nodes.now.flow.now.points }
    ensures { result ≡ length (point_judgements (chart_of nodes.now.flow.now) point) }
{
    checks_are_those_of_points();
    let range = nodes.flow.checks_at(point);
    range.end - range.start
}

/// Marks the checks of a node's point that may fail there.
fn mark_at(nodes: &Nodes, plain: &[Env], node: u32, scratch: &mut Env, marks: &mut [bool])
    requires node { node < length nodes.now.graph.now.nodes }
    requires fits { FitsGraph nodes.now.graph.now (environments plain.now) }
    requires room { HasRoomFor nodes.now.graph.now (room_of scratch.old) }
    requires long { length marks.old ≡ length (point_judgements (chart_of nodes.now.flow.now) (point_number nodes.now.graph.now node)) }
    ensures marks { marks.new ≡ marks_with marks.old (holds_at nodes.now.flow.now nodes.now.graph.now.table (class_number nodes.now.graph.now node) (point_number nodes.now.graph.now node) (element env_ops (environments plain.now) node)) }
    ensures room { room_of scratch.new ≡ room_of scratch.old }
{
    let graph = nodes.graph;
    scratch.copy_from(&plain[node as usize]);
    mark_open(
        scratch,
        nodes.flow,
        graph.classes(),
        graph.class_of(node),
        graph.point_of(node),
        marks,
    );
}

/// The number of cells of the class that has most.
fn most_cells(graph: &Graph) -> u32
    ensures { HasRoomFor graph.now result }
{
    let classes = graph.classes();
    let mut most = 0;
    for class in 0..classes.count() {
        most = most.max(classes.cells(class));
    }
    most
}
