//! The unfolding, and its readers.

ghost use Rattle.std.specs.Prelude.{◌≡◌, ◌<◌, Contains, Some, length, map, slice_get};
ghost use Rattle.activations.specs.declared.node.Node.{Node};

use crate::arc::Arc;
use crate::arcs::Arcs;
use crate::discovery::Call;
use crate::nodes::Nodes;
use alias_class::{Classes, Link};
use std::marker::Model;

/// The unfolding of a flow. Its nodes are numbered by class and then by point, and its calls likewise.
#[derive(Drop)]
pub struct Graph {
    pub(crate) classes: Classes,
    pub(crate) nodes: Nodes,
    pub(crate) arcs: Arcs,
    pub(crate) calls: Vec<Call>,
    pub(crate) links: Vec<Vec<Link>>,
    /// For each class whether one of its reach has a `goto` to a label of another routine.
    pub(crate) left: Vec<bool>,
    pub(crate) size: u64,
}

impl Model for Graph {
    ghost use Rattle.activations.specs.Drawn.{Drawn};
    ghost use Rattle.activations.specs.Kept.{IsKept};
    ghost use Rattle.activations.specs.Parts.{lists_of};

    ghost Value = { Drawn };

    ghost view = { λ g. record {
      table = g.classes;
      nodes = g.nodes.list.items;
      incoming = lists_of g.arcs.incoming.items;
      outgoing = lists_of g.arcs.outgoing.items;
      calls = g.calls.items;
      links = lists_of g.links.items;
      left = g.left.items;
      size = g.size;
    } };

    ghost invariant = { λ g. IsKept g.nodes g.arcs };
}

/// Each takes constant time.
impl Graph {
    /// How many nodes there are.
    pub fn nodes(&self) -> u32
        ensures { result ≡ length self.now.nodes }
    {
        self.nodes.list.len() as u32
    }

    pub fn classes(&self) -> &Classes
        ensures { result.now ≡ self.now.table }
    {
        &self.classes
    }

    pub fn class_of(&self, node: u32) -> u32
        requires { node < length self.now.nodes }
        ensures { slice_get (map (λ (n : Node). n.class) self.now.nodes) node ≡ Some result }
    {
        self.nodes.list[node as usize].class
    }

    pub fn point_of(&self, node: u32) -> u32
        requires { node < length self.now.nodes }
        ensures { slice_get (map (λ (n : Node). n.point) self.now.nodes) node ≡ Some result }
    {
        self.nodes.list[node as usize].point
    }

    /// The node of a class and a point of its routine.
    pub fn node_at(&self, class: u32, point: u32) -> u32
        requires { Contains self.now.nodes (record { class = class; point = point }) }
        ensures { slice_get self.now.nodes result ≡ Some (record { class = class; point = point }) }
    {
        self.nodes.number(class, point)
    }

    /// The sum over the nodes of one and the cells of the node's class.
    pub fn size(&self) -> u64
        ensures { result ≡ self.now.size }
    {
        self.size
    }

    /// The arcs that lead to a node, by the nodes whose actions they are.
    pub fn incoming(&self, node: u32) -> &[Arc]
        requires { node < length self.now.nodes }
        ensures { slice_get self.now.incoming node ≡ Some result.now }
    {
        &self.arcs.incoming[node as usize]
    }

    /// The arcs that leave a node, a return at the callee's exit, by the nodes whose actions they are.
    pub fn outgoing(&self, node: u32) -> &[Arc]
        requires { node < length self.now.nodes }
        ensures { slice_get self.now.outgoing node ≡ Some result.now }
    {
        &self.arcs.outgoing[node as usize]
    }

    /// The links of a call, in rising order of the caller's cells.
    pub fn links_of(&self, call: u32) -> &[Link]
        requires { call < length self.now.links }
        ensures { slice_get self.now.links call ≡ Some result.now }
    {
        &self.links[call as usize]
    }

    /// Whether a class of the reach of this one has a `goto` to a label of another routine. The reach of a class is the class and those that it
    /// calls, with their reaches.
    pub fn is_left(&self, class: u32) -> bool
        requires { class < length self.now.left }
        ensures { slice_get self.now.left class ≡ Some result }
    {
        self.left[class as usize]
    }
}
