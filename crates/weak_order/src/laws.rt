//! Laws of the definition alone.

ghost use Rattle.std.specs.Prelude.{◌≡◌, List, ℕ, Bool};
ghost use Rattle.weak_order.specs.Edges.{Graph, HasEdge};
ghost use Rattle.weak_order.specs.Order.{Elements, Orders, Layout, IsOrderOf, IsWeakOrder};

/// A law: two orders of one set of nodes of a graph are equal.
pub fn orders_are_one()
    ensures { (graph : Graph) (greatest_first : Bool) (set : List ℕ) (xs ys : Elements) → Orders (HasEdge graph) greatest_first set xs → Orders (HasEdge graph) greatest_first set ys → xs ≡ ys }
{}

/// A law: an order of all nodes of a graph is a weak topological order of it.
pub fn orders_are_weak()
    ensures { (graph : Graph) (greatest_first : Bool) (layout : Layout) → IsOrderOf graph greatest_first layout → IsWeakOrder (HasEdge graph) graph.nodes layout }
{}
