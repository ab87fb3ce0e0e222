//! The lines of points.
ghost use Rattle.std.specs.Prelude.{◌≡◌, ◌++◌, ◌<◌, All, OnOk, length};
ghost use Rattle.std.specs.List.{flat_map, range_with_len};
ghost use Rattle.transfer_fwd.specs.Systems.{FitsGraph, environments};
ghost use Rattle.report.specs.Nodes.{SeesVariable};
ghost use Rattle.report.specs.Report as spec;

use crate::nodes::Nodes;
use crate::page::Page;
use crate::source::Source;
use crate::visible::visible;
use crate::wording::point_word;
use control_points::Point;
use environment::Env;
use std::alloc::{AllocError, Global};

/// The lines of all points.
pub(crate) fn put_points(
    alloc: Global,
    page: &mut Page,
    source: &Source,
    nodes: &Nodes,
    way: &[Env],
) -> Result<(), AllocError>
    requires flow { nodes.now.flow.now ≡ source.now.flow.now }
    requires fits { FitsGraph nodes.now.graph.now (environments way.now) }
    ensures { OnOk result (page.new.bytes.items ≡ page.old.bytes.items ++ flat_map (spec.point_lines source.now.text.now source.now.flow.now nodes.now.graph.now (environments way.now)) (range_with_len 0 (length source.now.flow.now.points))) }
{
    let lists = visible(alloc, source.text, source.flow.program())?;
    for point in 0..source.flow.points().len() as u32 {
        let at = source.flow.points()[point as usize];
        put_label(page, source, at)?;
        put_reached(page, source, nodes, way, point, &lists[at.routine as usize])?;
    }
    Ok(())
}

/// `point LINE:COL WORD`
fn put_label(page: &mut Page, source: &Source, point: Point) -> Result<(), AllocError>
    ensures { OnOk result (page.new.bytes.items ≡ page.old.bytes.items ++ spec.point_label source.now.text.now source.now.flow.now point) }
{
    page.put("point ")?;
    source.put_place(page, point.at)?;
    page.put(" ")?;
    page.put(point_word(point.kind))
}

/// The end of the line of a point, and the lines of variables where it is on the way.
fn put_reached(
    page: &mut Page,
    source: &Source,
    nodes: &Nodes,
    way: &[Env],
    point: u32,
    vars: &[u32],
) -> Result<(), AllocError>
    requires flow { nodes.now.flow.now ≡ source.now.flow.now }
    requires fits { FitsGraph nodes.now.graph.now (environments way.now) }
    requires point { point < length source.now.flow.now.points }
    requires seen { All (SeesVariable source.now.flow.now point) vars.now }
    ensures { OnOk result (page.new.bytes.items ≡ page.old.bytes.items ++ spec.reached_lines source.now.text.now source.now.flow.now nodes.now.graph.now (environments way.now) point vars.now) }
{
    if !nodes.is_reached(way, point) {
        return page.put(" not on the way\n");
    }
    page.put("\n")?;
    put_variables(page, source, nodes, way, point, vars)
}

/// A line for each of these variables.
fn put_variables(
    page: &mut Page,
    source: &Source,
    nodes: &Nodes,
    way: &[Env],
    point: u32,
    vars: &[u32],
) -> Result<(), AllocError>
    requires flow { nodes.now.flow.now ≡ source.now.flow.now }
    requires fits { FitsGraph nodes.now.graph.now (environments way.now) }
    requires point { point < length source.now.flow.now.points }
    requires seen { All (SeesVariable source.now.flow.now point) vars.now }
    ensures { OnOk result (page.new.bytes.items ≡ page.old.bytes.items ++ flat_map (spec.variable_line source.now.text.now source.now.flow.now nodes.now.graph.now (environments way.now) point) vars.now) }
{
    for var in vars {
        put_variable(page, source, nodes, way, point, *var)?;
    }
    Ok(())
}

/// `  NAME in LO..HI`
fn put_variable(
    page: &mut Page,
    source: &Source,
    nodes: &Nodes,
    way: &[Env],
    point: u32,
    var: u32,
) -> Result<(), AllocError>
    requires flow { nodes.now.flow.now ≡ source.now.flow.now }
    requires fits { FitsGraph nodes.now.graph.now (environments way.now) }
    requires point { point < length source.now.flow.now.points }
    requires seen { SeesVariable source.now.flow.now point var }
    ensures { OnOk result (page.new.bytes.items ≡ page.old.bytes.items ++ spec.variable_line source.now.text.now source.now.flow.now nodes.now.graph.now (environments way.now) point var) }
{
    page.put("  ")?;
    source.put_name(page, var)?;
    page.put(" ")?;
    source.put_value(page, var, nodes.joined(way, point, var))?;
    page.put("\n")
}
