ghost use Rattle.std.specs.Prelude.{◌≡◌, ◌<◌, [], ◌∷◌, ◌++◌, IfOk, OnOk, OnErr};
ghost use Rattle.std.specs.List.{All};

use std::alloc::{AllocError, Global};
use std::marker::Model;

/// A directed graph whose nodes are numbered from 0: its edges, each of which may stand more than once.
#[derive(Debug, Drop)]
pub struct Edges {
    nodes: u32,
    pairs: Vec<(u32, u32)>,
}

impl Model for Edges {
    ghost use Rattle.std.specs.Prelude.{◌<◌};
    ghost use Rattle.std.specs.List.{All};
    ghost use Rattle.weak_order.specs.Edges.{Graph};

    ghost Value = { Graph };

    ghost view = { λ e. record { nodes = e.nodes; pairs = e.pairs.items } };

    ghost invariant = { λ e. All (λ pair. (pair.0 < e.nodes) × (pair.1 < e.nodes)) e.pairs.items };
}

impl Edges {
    /// No edges yet between so many nodes. Memory for one edge a node is taken at once.
    pub fn new(alloc: Global, nodes: u32) -> Result<Edges, AllocError>
        ensures { IfOk result (λ edges. edges ≡ record { nodes = nodes; pairs = [] }) }
    {
        let pairs = Vec::with_capacity(alloc, nodes as usize)?;
        Ok(Edges { nodes, pairs })
    }

    /// Adds an edge. For want of memory it stays out.
    pub fn add(&mut self, from: u32, to: u32) -> Result<(), AllocError>
        requires from { from < self.old.nodes }
        requires to { to < self.old.nodes }
        ensures added { OnOk result (self.new ≡ record { nodes = self.old.nodes; pairs = self.old.pairs ++ (from, to) ∷ [] }) }
        ensures refused { OnErr result (self.new ≡ self.old) }
    {
        self.pairs.push((from, to))?;
        Ok(())
    }

    pub(crate) fn nodes(&self) -> u32
        ensures { result ≡ self.now.nodes }
    {
        self.nodes
    }

    pub(crate) fn pairs(&self) -> &[(u32, u32)]
        ensures value { result.now ≡ self.now.pairs }
        ensures in_range { All (λ pair. (pair.0 < self.now.nodes) × (pair.1 < self.now.nodes)) result.now }
    {
        self.pairs.as_slice()
    }
}
