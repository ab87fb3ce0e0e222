ghost use Rattle.std.specs.Prelude.{◌≡◌, ℕ, ◌<◌, ◌^◌, length, slice_index, nat_lt, vec_len, IfOk};
ghost use Rattle.weak_order.specs.Order.{IsHeadAround, IsLayout, depth_at};

use crate::measures::{depths, heads, heads_around};
use std::alloc::{AllocError, Global};
use std::marker::Model;

/// A weak topological order: each node once, from left to right, in nested components.
#[derive(Debug, Drop)]
pub struct Order {
    nodes: Vec<u32>,
    ends: Vec<u32>,
    depths: Vec<u32>,
    heads: Vec<bool>,
    around: Vec<Option<u32>>,
}

impl Model for Order {
    ghost use Rattle.weak_order.specs.Order.{AreColumns, Layout};

    ghost Value = { Layout };

    ghost view = { λ o. record { nodes = o.nodes.items; ends = o.ends.items } };

    ghost invariant = { λ o. AreColumns o.nodes.items o.ends.items o.depths.items o.heads.items o.around.items };
}

impl Order {
    /// The order whose columns are given: the node at each place, and one past the component that begins there, or the
    /// place itself. It fails for want of memory alone.
    pub fn from_columns(alloc: Global, nodes: Vec<u32>, ends: Vec<u32>) -> Result<Order, AllocError>
        requires few { vec_len nodes < 2 ^ 32 }
        requires layout { IsLayout (record { nodes = nodes.items; ends = ends.items }) }
        ensures { IfOk result (λ order. order ≡ record { nodes = nodes.items; ends = ends.items }) }
    {
        let around = heads_around(alloc, &ends)?;
        let depths = depths(alloc, &nodes, &ends, &around)?;
        let heads = heads(alloc, &nodes, &ends)?;
        Ok(Order {
            nodes,
            ends,
            depths,
            heads,
            around,
        })
    }

    /// How many nodes there are, which is how many places there are.
    pub fn len(&self) -> u32
        ensures { result ≡ length self.now.nodes }
    {
        self.nodes.len() as u32
    }

    /// The node at a place.
    pub fn node(&self, place: u32) -> u32
        requires { place < length self.now.nodes }
        ensures { result ≡ slice_index self.now.nodes place }
    {
        self.nodes[place as usize]
    }

    /// One past the component that begins at the place, or the place itself where none does.
    pub fn end(&self, place: u32) -> u32
        requires { place < length self.now.nodes }
        ensures { result ≡ slice_index self.now.ends place }
    {
        self.ends[place as usize]
    }

    /// How many components contain the node.
    pub fn depth(&self, node: u32) -> u32
        requires { node < length self.now.nodes }
        ensures { (p : ℕ) → p < length self.now.nodes → slice_index self.now.nodes p ≡ node → result ≡ depth_at self.now.ends p }
    {
        self.depths[node as usize]
    }

    /// Whether the node is the head of a component.
    pub fn is_head(&self, node: u32) -> bool
        requires { node < length self.now.nodes }
        ensures { (p : ℕ) → p < length self.now.nodes → slice_index self.now.nodes p ≡ node → result ≡ nat_lt p (slice_index self.now.ends p) }
    {
        self.heads[node as usize]
    }

    /// The place of the head of the innermost component around the place, other than one that begins there.
    pub fn head_around(&self, place: u32) -> Option<u32>
        requires { place < length self.now.nodes }
        ensures { IsHeadAround self.now.ends place result }
    {
        self.around[place as usize]
    }
}
