//! The conditions on the values that are read.
ghost use Rattle.std.specs.Prelude.{◌≡◌, ◌<◌, All, IfOk, IfSome, length, option_copied, option_to_list};
ghost use Rattle.pas_program.specs.declared.expr.Actual.TheViews.{out-Access};
ghost use Rattle.report.specs.Conditions as spec;
ghost use Rattle.transfer_fwd.specs.Systems.{FitsGraph, environments};
ghost use Rattle.report.specs.Nodes.{SeesVariable};

use crate::condition::{Condition, Demand};
use crate::nodes::Nodes;
use control_points::{Act, Flow, PointKind};
use environment::Env;
use pas_program::Access;
use std::alloc::{AllocError, Global};

/// The conditions of all points behind a read, in order of their points.
pub(crate) fn conditions(
    alloc: Global,
    nodes: &Nodes,
    plain: &[Env],
    way: &[Env],
) -> Result<Vec<Condition>, AllocError>
    requires plain { FitsGraph nodes.now.graph.now (environments plain.now) }
    requires way { FitsGraph nodes.now.graph.now (environments way.now) }
    ensures each { IfOk result (λ conditions. All (spec.IsOf nodes.now.flow.now) conditions.items) }
    ensures value { IfOk result (λ conditions. conditions.items ≡ spec.conditions nodes.now.flow.now nodes.now.graph.now (environments plain.now) (environments way.now)) }
{
    let mut conditions = Vec::new(alloc);
    if is_possible(way) {
        for point in 0..nodes.flow.points().len() as u32 {
            if let Some(condition) = condition_at(nodes, plain, way, point) {
                conditions.push(condition)?;
            }
        }
    }
    Ok(conditions)
}

/// The condition at a point behind a read.
fn condition_at(nodes: &Nodes, plain: &[Env], way: &[Env], point: u32) -> Option<Condition>
    requires point { point < length nodes.now.flow.now.points }
    requires plain { FitsGraph nodes.now.graph.now (environments plain.now) }
    requires way { FitsGraph nodes.now.graph.now (environments way.now) }
    ensures each { IfSome result (spec.IsOf nodes.now.flow.now) }
    ensures value { option_to_list result ≡ spec.conditions_at nodes.now.flow.now nodes.now.graph.now (environments plain.now) (environments way.now) point }
{
    let access = read_at(nodes.flow, point)?;
    let demand = demand_at(nodes, plain, way, point, access.var)?;
    Some(Condition {
        point,
        var: access.var,
        of_part: !access.subscripts.is_empty(),
        demand,
    })
}

/// What is demanded of a variable that is read, where the table of the way says more of it than the plain one.
fn demand_at(nodes: &Nodes, plain: &[Env], way: &[Env], point: u32, var: u32) -> Option<Demand>
    requires point { point < length nodes.now.flow.now.points }
    requires plain { FitsGraph nodes.now.graph.now (environments plain.now) }
    requires way { FitsGraph nodes.now.graph.now (environments way.now) }
    requires seen { SeesVariable nodes.now.flow.now point var }
    ensures { result ≡ spec.demand_at nodes.now.flow.now nodes.now.graph.now (environments plain.now) (environments way.now) point var }
{
    if !nodes.is_reached(plain, point) {
        return None;
    }
    if !nodes.is_reached(way, point) {
        return Some(Demand::OffTheWay);
    }
    let held = nodes.joined(way, point, var);
    if held == nodes.joined(plain, point, var) {
        return None;
    }
    Some(Demand::Holds(held))
}

/// What is read on the way to a point.
fn read_at(flow: &Flow, point: u32) -> Option<&Access>
    requires { point < length flow.now.points }
    ensures value { option_copied result ≡ spec.read_at flow.now point }
    ensures seen { IfSome result (λ access. SeesVariable flow.now point (out-Access access.now).var) }
{
    if flow.points()[point as usize].kind != PointKind::AfterRead {
        return None;
    }
    match flow.incoming(point) {
        [edge, ..] => match &flow.edges()[*edge as usize].act {
            Act::Read { to } => Some(to),
            _ => None,
        },
        [] => None,
    }
}

/// Whether the way begins at the program's entry, so that a good run is possible.
pub(crate) fn is_possible(way: &[Env]) -> bool
    ensures { result ≡ spec.is_possible (environments way.now) }
{
    match way {
        [entry, ..] => entry.reachable(),
        [] => false,
    }
}
