//! The limits of cells by the types of their variables.
ghost use Rattle.std.specs.Prelude.{◌≡◌, ◌≤◌, ◌<◌, ℕ, IfOk, length};
ghost use Rattle.abstract_expr.specs.Standing.{cells_in};
ghost use Rattle.environment.specs.Environments.{cell_count};
ghost use Rattle.activations.specs.Fitting.{class_number};
ghost use Rattle.transfer_fwd.specs.Systems.{environments};
ghost use Rattle.alternation.specs.Limits.{class_limit, type_limits, unreached};

use activations::Graph;
use environment::Env;
use interval::Val;
use std::alloc::{AllocError, Global};

/// An unreached environment for each node.
pub(crate) fn unreached(alloc: Global, graph: &Graph) -> Result<Vec<Env>, AllocError>
    requires { (node : ℕ) → node < length graph.now.nodes → class_number graph.now node < length graph.now.table.classes }
    ensures { IfOk result (λ table. environments table.items ≡ unreached graph.now) }
{
    let mut table = Vec::with_capacity(alloc, graph.nodes() as usize)?;
    for node in 0..graph.nodes() {
        let cells = graph.classes().cells(graph.class_of(node));
        table.push(Env::new(alloc, cells, cells)?)?;
    }
    Ok(table)
}

/// For each node, that each cell may be undefined or hold each number of its variable's type.
pub(crate) fn type_limits(alloc: Global, graph: &Graph) -> Result<Vec<Env>, AllocError>
    requires { (node : ℕ) → node < length graph.now.nodes → class_number graph.now node < length graph.now.table.classes }
    ensures { IfOk result (λ table. environments table.items ≡ type_limits graph.now) }
{
    let mut table = Vec::with_capacity(alloc, graph.nodes() as usize)?;
    for node in 0..graph.nodes() {
        table.push(class_limit(alloc, graph, graph.class_of(node))?)?;
    }
    Ok(table)
}

/// The limit of the nodes of a class.
fn class_limit(alloc: Global, graph: &Graph, class: u32) -> Result<Env, AllocError>
    requires { class < length graph.now.table.classes }
    ensures { IfOk result (λ limit. limit.env ≡ class_limit graph.now.table class) }
{
    let classes = graph.classes();
    let cells = classes.cells(class);
    let mut limit = Env::new(alloc, cells, cells)?;
    limit.start();
    for cell in 0..cells {
        let itv = classes.range(class, cell);
        limit.set(cell, Val { undef: true, itv });
    }
    Ok(limit)
}

/// The greatest number of cells of a class.
pub(crate) fn most_cells(graph: &Graph) -> u32
    ensures { (class : ℕ) → class < length graph.now.table.classes → cells_in graph.now.table class ≤ result }
{
    let classes = graph.classes();
    let mut most = 0;
    for class in 0..classes.count() {
        most = most.max(classes.cells(class));
    }
    most
}
