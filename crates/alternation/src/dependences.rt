//! Which nodes the equations of a system read, and in which order the engine goes over them.
ghost use Rattle.std.specs.Prelude.{◌≡◌, ◌++◌, ◌<◌, ◌^◌, ℕ, Contains, IfOk, OnOk, length, map};
ghost use Rattle.std.specs.List.{All};

use fixpoint::reverse_lists;
use std::alloc::{AllocError, Global};
use std::marker::Model;
use weak_order::{Edges, Order, order};

/// The nodes that each equation reads and those whose equations read it, and the weak topological order.
#[derive(Drop)]
pub(crate) struct Dependences {
    /// Whether the greatest of several nodes comes first.
    pub greatest_first: bool,
    pub reads: Vec<Vec<u32>>,
    pub read_by: Vec<Vec<u32>>,
    pub order: Order,
}

/// Adds an edge from each node that an equation reads to its own.
fn add_reads(edges: &mut Edges, reads: &[u32], node: u32) -> Result<(), AllocError>
    requires node { node < edges.old.nodes }
    requires reads { (r : ℕ) → Contains reads.now r → r < edges.old.nodes }
    ensures nodes { edges.new.nodes ≡ edges.old.nodes }
    ensures pairs { OnOk result (edges.new.pairs ≡ edges.old.pairs ++ map (λ r. (r, node)) reads.now) }
{
    for &read in reads {
        edges.add(read, node)?;
    }
    Ok(())
}

impl Model for Dependences {
    ghost use Rattle.std.specs.Prelude.{map};
    ghost use Rattle.alternation.specs.Kept.{IsListed, Listed};

    ghost Value = { Listed };

    ghost view = { λ d. record { greatest_first = d.greatest_first; reads = map (λ v. v.items) d.reads.items; read_by = map (λ v. v.items) d.read_by.items; order = d.order } };

    ghost invariant = { λ d. IsListed (record { greatest_first = d.greatest_first; reads = map (λ v. v.items) d.reads.items; read_by = map (λ v. v.items) d.read_by.items; order = d.order }) };
}

impl Dependences {
    /// Those of equations that read these nodes, of which there are as many as lists.
    pub(crate) fn of(
        alloc: Global,
        reads: Vec<Vec<u32>>,
        greatest_first: bool,
    ) -> Result<Dependences, AllocError>
        requires few { length reads.items < 2 ^ 32 }
        requires below { All (λ list. All (λ n. n < length reads.items) list.items) reads.items }
        ensures reads { IfOk result (λ d. d.reads ≡ map (λ v. v.items) reads.items) }
        ensures greatest_first { IfOk result (λ d. d.greatest_first ≡ greatest_first) }
    {
        let mut edges = Edges::new(alloc, reads.len() as u32)?;
        for (node, read) in reads.iter().enumerate() {
            add_reads(&mut edges, read, node as u32)?;
        }
        let order = order(alloc, &edges, greatest_first)?;
        let read_by = reverse_lists(alloc, &reads)?;
        Ok(Dependences {
            greatest_first,
            reads,
            read_by,
            order,
        })
    }
}
