//! The arcs of the classes, and the graph of them.

ghost use Rattle.std.specs.Prelude.{◌≡◌, ◌+◌, ◌++◌, ℕ, IfOk, List, OnOk, Some, [], ◌∷◌, filter, length, slice_get, true};
ghost use Rattle.control_points.specs.declared.edge.Edge.{Edge};
ghost use Rattle.activations.specs.declared.arc.Arc.{Arc};
ghost use Rattle.activations.specs.Arcs.{arcs, arcs_of_edge, arcs_of_node, local_arc, sites_of_node};
ghost use Rattle.activations.specs.Calls.{is_call};
ghost use Rattle.activations.specs.Drawn.{IsUnfolding};
ghost use Rattle.activations.specs.Listed.{AreListed, AreNodesOf};
ghost use Rattle.activations.specs.Parts.{ArePointsOf, IsDiscovery};
ghost use Rattle.activations.specs.Silence.{AreLeft};
ghost use Rattle.activations.specs.Unfolding.{unfolding_of};
ghost use Rattle.activations.specs.Walks.{IsCallNumber, IsFromClass, IsNext, IsSame, IsSet, LeadsInto, drawn_of};

use crate::arc::Arc;
use crate::arcs::Arcs;
use crate::discovery::{Call, Discovery};
use crate::graph::Graph;
use crate::links::all_links;
use crate::node::Node;
use crate::nodes::Nodes;
use crate::routines::RoutinePoints;
use alias_class::{Classes, what_is_in_scope_is_seen};
use control_points::{Act, Flow, a_call_leaves_its_point_alone};
use std::alloc::{AllocError, Global};

/// What is drawn from, and the arcs so far.
#[derive(Drop)]
struct Drawing<'a> {
    flow: &'a Flow,
    nodes: &'a Nodes,
    classes: &'a Classes,
    calls: &'a [Call],
    arcs: Arcs,
    /// How many calls have been drawn.
    drawn: u32,
}

impl<'a> Drawing<'a> {
    /// Nothing is drawn yet.
    fn over(
        alloc: Global,
        flow: &'a Flow,
        nodes: &'a Nodes,
        found: &'a Discovery,
    ) -> Result<Drawing<'a>, AllocError>
        requires found { IsDiscovery flow.now found.now }
        requires nodes { AreNodesOf (unfolding_of flow.now found.now.classes.classes) nodes.now }
        ensures unfolding { IfOk result (λ d. drawn_of d ≡ unfolding_of flow.now found.now.classes.classes) }
        ensures set { IfOk result IsSet }
        ensures arcs { IfOk result (λ d. AreListed (length nodes.now.list.items) [] d.arcs) }
        ensures drawn { IfOk result (λ d. d.drawn ≡ 0) }
    {
        a_call_leaves_its_point_alone();
        let arcs = Arcs::new(alloc, nodes.list.len() as u32)?;
        Ok(Drawing {
            flow,
            nodes,
            classes: &found.classes,
            calls: &found.calls,
            arcs,
            drawn: 0,
        })
    }

    /// A call and its return.
    fn call(&mut self, class: u32, edge: u32) -> Result<(), AllocError>
        requires set { IsSet self.old }
        requires from { IsFromClass (drawn_of self.old) class edge }
        requires call { is_call self.old.flow.now.edges edge ≡ true }
        requires next { IsCallNumber (drawn_of self.old) class edge self.old.drawn }
        ensures same { OnOk result (IsSame self.old self.new) }
        ensures arcs { OnOk result ((nodes : ℕ) (arcs : List Arc) → AreListed nodes arcs self.old.arcs → AreListed nodes (arcs ++ arcs_of_edge (drawn_of self.old) class edge) self.new.arcs) }
        ensures drawn { OnOk result (self.new.drawn ≡ self.old.drawn + 1) }
    {
        let call = self.drawn;
        let callee = self.calls[call as usize].callee;
        let edges = self.flow.edges();
        let (there, back) = (&edges[edge as usize], &edges[edge as usize + 1]);
        let from = self.nodes.number(class, there.from);
        let exit = self.nodes.number(callee, back.from);
        let (entry, end) = (
            self.nodes.number(callee, there.to),
            self.nodes.number(class, back.to),
        );
        self.arcs.add(Arc {
            from,
            to: entry,
            edge,
            other: None,
            call,
        })?;
        self.arcs.add(Arc {
            from,
            to: end,
            edge: edge + 1,
            other: Some(exit),
            call,
        })?;
        self.drawn += 1;
        Ok(())
    }

    /// An edge from a class to one that is the same or around it.
    fn local(&mut self, class: u32, into: u32, edge: u32) -> Result<(), AllocError>
        requires set { IsSet self.old }
        requires from { IsFromClass (drawn_of self.old) class edge }
        requires into { LeadsInto (drawn_of self.old) into edge }
        ensures same { OnOk result (IsSame self.old self.new) }
        ensures arcs { OnOk result ((nodes : ℕ) (arcs : List Arc) (e : Edge) → slice_get self.old.flow.now.edges edge ≡ Some e → AreListed nodes arcs self.old.arcs → AreListed nodes (arcs ++ local_arc (drawn_of self.old) class into edge e ∷ []) self.new.arcs) }
        ensures drawn { OnOk result (self.new.drawn ≡ self.old.drawn) }
    {
        let way = &self.flow.edges()[edge as usize];
        let (from, to) = (
            self.nodes.number(class, way.from),
            self.nodes.number(into, way.to),
        );
        self.arcs.add(Arc {
            from,
            to,
            edge,
            other: None,
            call: 0,
        })
    }

    /// The arcs of an edge in a class. Returns come with their calls.
    fn edge(&mut self, class: u32, edge: u32) -> Result<(), AllocError>
        requires set { IsSet self.old }
        requires from { IsFromClass (drawn_of self.old) class edge }
        requires next { is_call self.old.flow.now.edges edge ≡ true → IsCallNumber (drawn_of self.old) class edge self.old.drawn }
        ensures same { OnOk result (IsSame self.old self.new) }
        ensures arcs { OnOk result ((nodes : ℕ) (arcs : List Arc) → AreListed nodes arcs self.old.arcs → AreListed nodes (arcs ++ arcs_of_edge (drawn_of self.old) class edge) self.new.arcs) }
        ensures drawn { OnOk result (self.new.drawn ≡ self.old.drawn + length (filter (is_call self.old.flow.now.edges) (edge ∷ []))) }
    {
        match &self.flow.edges()[edge as usize].act {
            Act::Return { .. } => Ok(()),
            Act::Call { .. } => self.call(class, edge),
            Act::Goto { routine } => {
                what_is_in_scope_is_seen();
                self.local(class, self.classes.around(class, *routine), edge)
            }
            _ => self.local(class, class, edge),
        }
    }

    /// The arcs of a node's edges.
    fn node(&mut self, node: Node) -> Result<(), AllocError>
        requires set { IsSet self.old }
        requires next { IsNext (drawn_of self.old) node self.old.drawn }
        ensures same { OnOk result (IsSame self.old self.new) }
        ensures arcs { OnOk result ((nodes : ℕ) (arcs : List Arc) → AreListed nodes arcs self.old.arcs → AreListed nodes (arcs ++ arcs_of_node (drawn_of self.old) node) self.new.arcs) }
        ensures drawn { OnOk result (self.new.drawn ≡ self.old.drawn + length (sites_of_node (drawn_of self.old) node)) }
    {
        for edge in self.flow.outgoing(node.point) {
            self.edge(node.class, *edge)?;
        }
        Ok(())
    }
}

/// All arcs, by the nodes that they lead to and that they leave.
fn all_arcs(
    alloc: Global,
    flow: &Flow,
    nodes: &Nodes,
    found: &Discovery,
) -> Result<Arcs, AllocError>
    requires found { IsDiscovery flow.now found.now }
    requires nodes { AreNodesOf (unfolding_of flow.now found.now.classes.classes) nodes.now }
    ensures { IfOk result (AreListed (length nodes.now.list.items) (arcs (unfolding_of flow.now found.now.classes.classes))) }
{
    let mut drawing = Drawing::over(alloc, flow, nodes, found)?;
    for node in &nodes.list {
        drawing.node(*node)?;
    }
    Ok(drawing.arcs)
}

/// The graph of the classes that were found.
pub(crate) fn draw(
    alloc: Global,
    flow: &Flow,
    routines: RoutinePoints,
    found: Discovery,
    left: Vec<bool>,
) -> Result<Graph, AllocError>
    requires points { ArePointsOf flow.now routines }
    requires found { IsDiscovery flow.now found }
    requires left { AreLeft (unfolding_of flow.now found.classes.classes) left.items }
    ensures { IfOk result (IsUnfolding flow.now) }
{
    let nodes = Nodes::of(alloc, flow, routines, &found.classes)?;
    let arcs = all_arcs(alloc, flow, &nodes, &found)?;
    let links = all_links(alloc, flow, &found)?;
    Ok(Graph {
        nodes,
        arcs,
        links,
        left,
        size: found.size,
        calls: found.calls,
        classes: found.classes,
    })
}
