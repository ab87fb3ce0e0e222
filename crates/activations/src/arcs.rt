//! Arcs by the nodes that they belong to.

ghost use Rattle.std.specs.Prelude.{◌≡◌, ◌<◌, ◌++◌, ℕ, IfOk, List, OnOk, [], ◌∷◌, length, map};
ghost use Rattle.activations.specs.declared.arc.Arc.{Arc};
ghost use Rattle.std.specs.List.{range_with_len};
ghost use Rattle.activations.specs.Arcs.{arcs_into, left_by};
ghost use Rattle.activations.specs.Listed.{AreListed};
ghost use Rattle.activations.specs.Parts.{lists_of};

use crate::arc::Arc;
use std::alloc::{AllocError, Global};

/// For each node the arcs that lead to it and those that leave it, in the order in which they were added.
#[derive(Drop)]
pub(crate) struct Arcs {
    pub incoming: Vec<Vec<Arc>>,
    pub outgoing: Vec<Vec<Arc>>,
}

impl Arcs {
    /// Of no arcs.
    pub(crate) fn new(alloc: Global, nodes: u32) -> Result<Arcs, AllocError>
        ensures { IfOk result (AreListed nodes []) }
    {
        Ok(Arcs {
            incoming: no_arcs(alloc, nodes)?,
            outgoing: no_arcs(alloc, nodes)?,
        })
    }

    /// Adds an arc.
    pub(crate) fn add(&mut self, arc: Arc) -> Result<(), AllocError>
        requires to { arc.to < length self.old.incoming.items }
        requires leaves { left_by arc < length self.old.outgoing.items }
        ensures listed { OnOk result ((nodes : ℕ) (arcs : List Arc) → AreListed nodes arcs self.old → AreListed nodes (arcs ++ arc ∷ []) self.new) }
        ensures incoming { length self.new.incoming.items ≡ length self.old.incoming.items }
        ensures outgoing { length self.new.outgoing.items ≡ length self.old.outgoing.items }
    {
        self.incoming[arc.to as usize].push(arc)?;
        self.outgoing[node_left(&arc) as usize].push(arc)?;
        Ok(())
    }
}

/// The node that an arc leaves: the one whose action it is, and for a return the callee's exit.
fn node_left(arc: &Arc) -> u32
    ensures { result ≡ left_by arc.now }
{
    arc.other.unwrap_or(arc.from)
}

/// An empty list for each node.
fn no_arcs(alloc: Global, nodes: u32) -> Result<Vec<Vec<Arc>>, AllocError>
    ensures { IfOk result (λ lists. lists_of lists.items ≡ map (arcs_into []) (range_with_len 0 nodes)) }
{
    let mut lists = Vec::with_capacity(alloc, nodes as usize)?;
    for _ in 0..nodes {
        lists.push(Vec::new(alloc))?;
    }
    Ok(lists)
}
