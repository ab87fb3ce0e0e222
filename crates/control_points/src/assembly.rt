ghost use Rattle.std.specs.Prelude.{◌≡◌, IfOk};
ghost use Rattle.control_points.specs.Wired as wired;

use crate::flow::Flow;
use crate::graph::{End, by_point};
use crate::labels::label_tables;
use crate::numbering::{Mark, Numbering};
use crate::point::Point;
use crate::wiring::wire;
use pas_program::Program;
use sqlite_items::Items;
use std::alloc::{AllocError, Global};

/// The points, edges and checks of a program. The only error is that memory is lacking, and then the program is dropped.
pub fn build(alloc: Global, program: Program) -> Result<Flow, AllocError>
    ensures { IfOk result (λ f. f.program ≡ program) }
{
    let numbering = Numbering::of_program(alloc, &program)?;
    let labels = label_tables(alloc, &numbering, program.routines.len())?;
    let graph = wire(alloc, &program, &numbering, labels.as_slice())?;
    let points = points_of(alloc, numbering.marks.as_slice())?;
    let asserts = asserts_of(alloc, numbering.marks.as_slice())?;
    let count = points.len();
    let outgoing = by_point(alloc, count, End::Source, graph.edges.as_slice())?;
    let incoming = by_point(alloc, count, End::Target, graph.edges.as_slice())?;
    Ok(Flow {
        program,
        points,
        edges: graph.edges,
        checks: graph.checks,
        asserts,
        outgoing,
        incoming,
    })
}

fn points_of(alloc: Global, marks: &[Mark]) -> Result<Items<Point>, AllocError>
    ensures { IfOk result (λ points. points ≡ wired.points_of marks.now) }
{
    let mut points = Items::new(alloc);
    for mark in marks {
        points.push(mark.point)?;
    }
    Ok(points)
}

fn asserts_of(alloc: Global, marks: &[Mark]) -> Result<Items<Items<u32>>, AllocError>
    ensures { IfOk result (λ asserts. asserts ≡ wired.asserts_of marks.now) }
{
    let mut asserts = Items::new(alloc);
    for mark in marks {
        asserts.push(Items::from_slice(alloc, mark.asserts.as_slice())?)?;
    }
    Ok(asserts)
}
