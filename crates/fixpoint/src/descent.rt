ghost use Rattle.std.specs.Prelude.{◌≡◌, ◌≢◌, ℕ, ℤ, ◌+◌, ◌*◌, ◌<◌, ◌≤◌, List, map, length, slice_set, sum_by, if◌then◌else◌, IsFalse};
ghost use Rattle.std.specs.Bool.{MatchBool, OnTrue, OnFalse};
ghost use Rattle.lattice.specs.Lattice.{AreAlike};
ghost use Rattle.weak_order.specs.Order.{Elements, IsWeakOrder};
ghost use Rattle.fixpoint.specs.Ascent.{AreAtMost};
ghost use Rattle.fixpoint.specs.Descent.{heads_of, descent_changes, pass, pass_changes, IsDescent, KeepsHeads};
ghost use Rattle.fixpoint.specs.Marks.{Visits, has_mark, marked};
ghost use Rattle.fixpoint.specs.Passing.{node_at, stepped, slack, ChangesHead, IsUpToDate, KeepsHead};
ghost use Rattle.fixpoint.specs.Progress.{IsGiven};
ghost use Rattle.fixpoint.specs.Reversal.{IsReversal};
ghost use Rattle.fixpoint.specs.System.{Reads, element, readers, AreTables, HasRoom, IsLayoutOf, IsTable};

use crate::equations::Equations;
use crate::evaluator::Evaluator;
use crate::marks::{Marks, mark_all};
use lattice::{Lattice, Steps};
use std::sync::ledger::Ledger;
use weak_order::Order;

/// Meets the element of the table with the scratch, and answers whether it changed.
fn lower<L: Lattice>(node: u32, table: &mut [L], scratch: &L) -> bool
    requires node { node < length table.old }
    requires shape { L.ops.shape (element L.ops (map L.value table.old) node) ≡ L.ops.shape (L.value scratch.now) }
    ensures value { map L.value table.new ≡ slice_set (map L.value table.old) node
        (L.ops.meet (element L.ops (map L.value table.old) node) (L.value scratch.now)) }
    ensures changed { OnTrue result (element L.ops (map L.value table.new) node ≢ element L.ops (map L.value table.old) node) }
    ensures same { OnFalse result (map L.value table.new ≡ map L.value table.old) }
{
    let element = &mut table[node as usize];
    if element.leq(scratch) {
        return false;
    }
    element.meet_from(scratch);
    true
}

/// Narrows the element of the table by the scratch, and answers whether it changed.
fn narrow<L: Lattice>(node: u32, limits: &[L], table: &mut [L], scratch: &L) -> bool
    requires node { node < length table.old }
    requires limit { node < length limits.now }
    requires alike { AreAlike L.ops (element L.ops (map L.value table.old) node) (L.value scratch.now) (element L.ops (map L.value limits.now) node) }
    ensures value { map L.value table.new ≡ slice_set (map L.value table.old) node
        (L.ops.narrow (element L.ops (map L.value table.old) node) (L.value scratch.now) (element L.ops (map L.value limits.now) node)) }
    ensures changed { OnTrue result (element L.ops (map L.value table.new) node ≢ element L.ops (map L.value table.old) node) }
    ensures same { OnFalse result (map L.value table.new ≡ map L.value table.old) }
{
    table[node as usize].narrow_from(scratch, &limits[node as usize])
}

/// Narrows the element of the table by the scratch if it is a head's, and else meets it with the scratch, and answers whether it
/// changed.
fn shrink<L: Lattice>(node: u32, is_head: bool, limits: &[L], table: &mut [L], scratch: &L) -> bool
    requires node { node < length table.old }
    requires limit { node < length limits.now }
    requires alike { AreAlike L.ops (element L.ops (map L.value table.old) node) (L.value scratch.now) (element L.ops (map L.value limits.now) node) }
    ensures value { map L.value table.new ≡ slice_set (map L.value table.old) node
        (if is_head then L.ops.narrow (element L.ops (map L.value table.old) node) (L.value scratch.now) (element L.ops (map L.value limits.now) node)
        else L.ops.meet (element L.ops (map L.value table.old) node) (L.value scratch.now)) }
    ensures changed { OnTrue result (element L.ops (map L.value table.new) node ≢ element L.ops (map L.value table.old) node) }
    ensures same { OnFalse result (map L.value table.new ≡ map L.value table.old) }
{
    if is_head {
        return narrow(node, limits, table, scratch);
    }
    lower(node, table, scratch)
}

/// Lowers the node at a place, or narrows it if it is a head, and answers whether a head changed.
fn step<L: Lattice, Q: Equations<L>, G: Ledger>(
    place: u32,
    order: &Order,
    limits: &[L],
    table: &mut [L],
    marks: &mut Marks,
    evaluator: &mut Evaluator<L, Q, G>,
) -> bool
    requires order { IsWeakOrder (Reads (Q.system evaluator.old.eqs.now)) (Q.system evaluator.old.eqs.now).nodes order.now }
    requires given { IsGiven L.ops (Q.system evaluator.old.eqs.now) (map L.value limits.now) (map (λ v. v.items) marks.old.read_by.now) (L.room evaluator.old.scratch.now) }
    requires marks { length marks.old.stale.now ≡ (Q.system evaluator.old.eqs.now).nodes }
    requires table { IsTable L.ops (Q.system evaluator.old.eqs.now) (map L.value table.old) }
    requires place { place < (Q.system evaluator.old.eqs.now).nodes }
    requires unmarked { IsFalse (has_mark marks.old.stale.now (node_at order.now place))
        → stepped L.ops (Q.system evaluator.old.eqs.now) order.now (map L.value limits.now) place (map L.value table.old) ≡ map L.value table.old }
    ensures value { map L.value table.new
        ≡ stepped L.ops (Q.system evaluator.old.eqs.now) order.now (map L.value limits.now) place (map L.value table.old) }
    ensures changed { OnTrue result (ChangesHead L.ops order.now (map L.value table.old) (map L.value table.new) place) }
    ensures unchanged { OnFalse result (KeepsHead L.ops order.now (map L.value table.old) (map L.value table.new) place) }
    ensures visits { Visits L.ops (Q.system evaluator.old.eqs.now) (node_at order.now place) (map L.value table.old) (map L.value table.new)
        marks.old.stale.now marks.new.stale.now evaluator.old.count.now evaluator.new.count.now }
    ensures room { L.room evaluator.new.scratch.now ≡ L.room evaluator.old.scratch.now }
    ensures same { Q.system evaluator.new.eqs.now ≡ Q.system evaluator.old.eqs.now }
    ensures kept { Q.kept evaluator.new.eqs.now ≡ Q.kept evaluator.old.eqs.now }
    ensures eqs_name { evaluator.new.eqs.ghost_name ≡ evaluator.old.eqs.ghost_name }
    ensures scratch_name { evaluator.new.scratch.ghost_name ≡ evaluator.old.scratch.ghost_name }
    ensures count_name { evaluator.new.count.ghost_name ≡ evaluator.old.count.ghost_name }
    ensures stale_name { marks.new.stale.ghost_name ≡ marks.old.stale.ghost_name }
    ensures read_by { marks.new.read_by ≡ marks.old.read_by }
{
    let node = order.node(place);
    if !marks.take(node) {
        return false;
    }
    evaluator.evaluate(node, table);
    let is_head = order.end(place) > place;
    if !shrink(node, is_head, limits, table, evaluator.scratch) {
        return false;
    }
    marks.mark_readers(node);
    is_head
}

/// Makes one pass of a descent over all nodes, in the order, and answers whether a head changed.
///
/// Each head is narrowed by its equation's value, and each other node is met with its own. Only marked nodes are evaluated:
/// `stale` may leave out those that the pass would leave as they are, and afterwards does so for the next pass. At most one
/// evaluation is made for each node, and each is paid for by a mark: one that was there, or one of the marks of the readers of
/// a node that changed. No memory is taken.
pub fn pass<L: Lattice, Q: Equations<L>, G: Ledger>(
    order: &Order,
    eqs: &mut Q,
    limits: &[L],
    read_by: &[Vec<u32>],
    stale: &mut [bool],
    table: &mut [L],
    scratch: &mut L,
    count: &mut Steps<G>,
) -> bool
    requires order { IsWeakOrder (Reads (Q.system eqs.old)) (Q.system eqs.old).nodes order.now }
    requires tables { AreTables L.ops (Q.system eqs.old) (map L.value limits.now) (map L.value table.old) }
    requires readers { IsReversal (Q.system eqs.old).nodes (Q.system eqs.old).reads (map (λ v. v.items) read_by.now) }
    requires stale { length stale.old ≡ (Q.system eqs.old).nodes }
    requires unmarked { IsUpToDate L.ops (Q.system eqs.old) order.now (map L.value limits.now) stale.old (map L.value table.old) }
    requires scratch { HasRoom (Q.system eqs.old) (L.room scratch.old) }
    ensures passed { (elements : Elements) → IsLayoutOf elements order.now
        → map L.value table.new ≡ pass L.ops (Q.system eqs.old) (map L.value limits.now) elements (map L.value table.old) }
    ensures heads { (elements : Elements) → IsLayoutOf elements order.now
        → MatchBool result (¬ KeepsHeads L.ops elements (map L.value table.old) (map L.value table.new)) (KeepsHeads L.ops elements (map L.value table.old) (map L.value table.new)) }
    ensures shrinks { OnTrue result (slack L.ops order.now (map L.value limits.now) (map L.value table.new) (Q.system eqs.old).nodes
        < slack L.ops order.now (map L.value limits.now) (map L.value table.old) (Q.system eqs.old).nodes) }
    ensures table { IsTable L.ops (Q.system eqs.old) (map L.value table.new) }
    ensures unmarked { IsUpToDate L.ops (Q.system eqs.old) order.now (map L.value limits.now) stale.new (map L.value table.new) }

    ensures evaluations { count.new ≤ count.old + (Q.system eqs.old).nodes }
    ensures skips { (elements : Elements) → IsLayoutOf elements order.now
        → count.new + marked stale.new ≤ count.old + marked stale.old
        + sum_by (readers (Q.system eqs.old)) (pass_changes L.ops (Q.system eqs.old) (map L.value limits.now) elements (map L.value table.old)) }

    ensures room { L.room scratch.new ≡ L.room scratch.old }
    ensures equations { Q.system eqs.new ≡ Q.system eqs.old }
    ensures kept { Q.kept eqs.new ≡ Q.kept eqs.old }
{
    let mut marks = Marks { read_by, stale };
    let mut evaluator = Evaluator {
        eqs,
        scratch,
        count,
    };
    let mut changed = false;
    for place in 0..order.len() {
        changed |= step(place, order, limits, table, &mut marks, &mut evaluator);
    }
    changed
}

/// Solves the equations downwards from the table, which an ascent has left, whatever the marks hold before the call.
///
/// The table becomes the descent: passes over all nodes, in the order, in which each head is narrowed by its equation's value
/// and each other node is met with its own; they end after one that changes no head.
///
/// A node is evaluated again only where a node that it reads has changed since, as in `ascend`. With h the greatest height of
/// a limit, at most `nodes * (2 + heads * h)` evaluations are made, and in all at most one for each node and, for each change,
/// one for each of the nodes that read the changed one. No memory is taken, and nothing recurses.
pub fn descend<L: Lattice, Q: Equations<L>, G: Ledger>(
    order: &Order,
    eqs: &mut Q,
    limits: &[L],
    read_by: &[Vec<u32>],
    stale: &mut [bool],
    table: &mut [L],
    scratch: &mut L,
    count: &mut Steps<G>,
)
    requires order { IsWeakOrder (Reads (Q.system eqs.old)) (Q.system eqs.old).nodes order.now }
    requires tables { AreTables L.ops (Q.system eqs.old) (map L.value limits.now) (map L.value table.old) }
    requires readers { IsReversal (Q.system eqs.old).nodes (Q.system eqs.old).reads (map (λ v. v.items) read_by.now) }
    requires stale { length stale.old ≡ (Q.system eqs.old).nodes }
    requires scratch { HasRoom (Q.system eqs.old) (L.room scratch.old) }
    ensures descent { (elements : Elements) → IsLayoutOf elements order.now
        → IsDescent L.ops (Q.system eqs.old) (map L.value limits.now) elements (map L.value table.old) (map L.value table.new) }
    ensures table { IsTable L.ops (Q.system eqs.old) (map L.value table.new) }

    ensures evaluations { (elements : Elements) (steps : List ℤ) (h : ℕ) → IsLayoutOf elements order.now
        → AreAtMost L.ops (Q.system eqs.old) (map L.value limits.now) steps h
        → count.new ≤ count.old + (Q.system eqs.old).nodes * (2 + length (heads_of elements) * h) }
    // No more than one for each node, and for each change one for each node that reads the changed one.
    ensures skips { (elements : Elements) (way : IsDescent L.ops (Q.system eqs.old) (map L.value limits.now) elements (map L.value table.old) (map L.value table.new))
        → IsLayoutOf elements order.now → count.new ≤ count.old + (Q.system eqs.old).nodes
        + sum_by (readers (Q.system eqs.old)) (descent_changes L.ops (Q.system eqs.old) (map L.value limits.now) elements (map L.value table.old) (map L.value table.new) way) }

    ensures room { L.room scratch.new ≡ L.room scratch.old }
    ensures equations { Q.system eqs.new ≡ Q.system eqs.old }
    ensures kept { Q.kept eqs.new ≡ Q.kept eqs.old }
{
    mark_all(stale);
    'passes: while pass(order, eqs, limits, read_by, stale, table, scratch, count) {}
}
