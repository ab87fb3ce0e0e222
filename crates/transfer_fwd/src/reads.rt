//! Which nodes the forward equation of each node reads.

ghost use Rattle.std.specs.Prelude.{◌≡◌, ℕ, ◌<◌, IfOk, length, map};
ghost use Rattle.std.specs.List.Sorted.{IsStrictlyIncreasing};
ghost use Rattle.transfer_fwd.specs.Reads.{AreForwardReads, all_read, is_in};

use activations::Graph;
use std::alloc::{AllocError, Global};

/// For each node the nodes that its forward equation reads, in rising order without repeats: where each incoming arc comes from, and for a
/// return the exit of the routine.
pub fn forward_reads(alloc: Global, graph: &Graph) -> Result<Vec<Vec<u32>>, AllocError>
    ensures { IfOk result (λ lists. AreForwardReads graph.now (map (λ v. v.items) lists.items)) }
{
    let mut lists = Vec::with_capacity(alloc, graph.nodes() as usize)?;
    for node in 0..graph.nodes() {
        lists.push(reads_of(alloc, graph, node)?)?;
    }
    Ok(lists)
}

/// Those of one node.
fn reads_of(alloc: Global, graph: &Graph, node: u32) -> Result<Vec<u32>, AllocError>
    requires { node < length graph.now.nodes }
    ensures rising { IfOk result (λ reads. IsStrictlyIncreasing reads.items) }
    ensures members { IfOk result (λ reads. (read : ℕ) → is_in reads.items read ≡ is_in (all_read graph.now node) read) }
{
    let mut reads = all_reads(alloc, graph, node)?;
    reads.sort_unstable();
    reads.dedup();
    Ok(reads)
}

/// The same in the order of the arcs, with repeats.
fn all_reads(alloc: Global, graph: &Graph, node: u32) -> Result<Vec<u32>, AllocError>
    requires { node < length graph.now.nodes }
    ensures { IfOk result (λ reads. reads.items ≡ all_read graph.now node) }
{
    let mut reads = Vec::new(alloc);
    for arc in graph.incoming(node) {
        reads.push(arc.from)?;
        if let Some(exit) = arc.other {
            reads.push(exit)?;
        }
    }
    Ok(reads)
}
