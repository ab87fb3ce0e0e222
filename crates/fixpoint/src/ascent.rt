ghost use Rattle.std.specs.Prelude.{◌≡◌, ◌≢◌, ℕ, ◌+◌, ◌<◌, ◌≤◌, true, not, if◌then◌else◌, map, length, slice_set, sum_by, IsFalse, MatchOption};
ghost use Rattle.std.specs.Bool.{OnTrue, OnFalse};
ghost use Rattle.lattice.specs.Lattice.{AreSteps, AreWithin};
ghost use Rattle.weak_order.specs.Order.{Elements, IsWeakOrder};
ghost use Rattle.fixpoint.specs.Ascent.{met, evaluated, widened, is_done, bottoms, changes, IsAscent, IsWithin, IsStable, IsStableAt, AreAtMost, ascent_bound};
ghost use Rattle.fixpoint.specs.Marks.{Visits, has_mark};
ghost use Rattle.fixpoint.specs.Passing.{end_at};
ghost use Rattle.fixpoint.specs.Progress.{IsGiven, IsInside};
ghost use Rattle.fixpoint.specs.Reversal.{IsReversal};
ghost use Rattle.fixpoint.specs.System.{Reads, element, readers, AreTables, IsTable, HasRoom, IsLayoutOf};

use crate::equations::Equations;
use crate::evaluator::Evaluator;
use crate::marks::{Marks, mark_all};
use lattice::{Lattice, Steps};
use std::sync::ledger::Ledger;
use weak_order::Order;

/// Whether the scratch lies within the element of the table.
fn lies_within<L: Lattice>(node: u32, table: &[L], scratch: &L) -> bool
    requires node { node < length table.now }
    requires shape { L.ops.shape (L.value scratch.now) ≡ L.ops.shape (element L.ops (map L.value table.now) node) }
    ensures { result ≡ L.ops.below (L.value scratch.now) (element L.ops (map L.value table.now) node) }
{
    scratch.leq(&table[node as usize])
}

/// Makes the element of the table the scratch, and answers whether it changed.
fn replace<L: Lattice>(node: u32, table: &mut [L], scratch: &L) -> bool
    requires node { node < length table.old }
    requires shape { L.ops.shape (L.value scratch.now) ≡ L.ops.shape (element L.ops (map L.value table.old) node) }
    ensures value { map L.value table.new ≡ slice_set (map L.value table.old) node (L.value scratch.now) }
    ensures changed { OnTrue result (element L.ops (map L.value table.new) node ≢ element L.ops (map L.value table.old) node) }
    ensures same { OnFalse result (map L.value table.new ≡ map L.value table.old) }
{
    let element = &mut table[node as usize];
    if scratch.leq(element) && element.leq(scratch) {
        return false;
    }
    element.copy_from(scratch);
    true
}

/// Widens the element of the table by the scratch, and answers whether it changed.
fn widen<L: Lattice>(node: u32, limits: &[L], steps: &[i32], table: &mut [L], scratch: &L) -> bool
    requires node { node < length table.old }
    requires limit { node < length limits.now }
    requires within { AreWithin L.ops (element L.ops (map L.value table.old) node) (L.value scratch.now) (element L.ops (map L.value limits.now) node) }
    requires steps { AreSteps steps.now }
    ensures value { map L.value table.new ≡ slice_set (map L.value table.old) node
        (L.ops.widen (element L.ops (map L.value table.old) node) (L.value scratch.now) (element L.ops (map L.value limits.now) node) steps.now) }
    ensures changed { OnTrue result (element L.ops (map L.value table.new) node ≢ element L.ops (map L.value table.old) node) }
    ensures same { OnFalse result (map L.value table.new ≡ map L.value table.old) }
{
    table[node as usize].widen_from(scratch, &limits[node as usize], steps)
}

/// Handles a node that is no head: it becomes its equation's value, met with its limit.
fn update<L: Lattice, Q: Equations<L>, G: Ledger>(
    node: u32,
    limits: &[L],
    table: &mut [L],
    marks: &mut Marks,
    evaluator: &mut Evaluator<L, Q, G>,
)
    requires given { IsGiven L.ops (Q.system evaluator.old.eqs.now) (map L.value limits.now) (map (λ v. v.items) marks.old.read_by.now) (L.room evaluator.old.scratch.now) }
    requires marks { length marks.old.stale.now ≡ (Q.system evaluator.old.eqs.now).nodes }
    requires inside { IsInside L.ops (Q.system evaluator.old.eqs.now) (map L.value limits.now) (map L.value table.old) }
    requires node { node < (Q.system evaluator.old.eqs.now).nodes }
    requires unmarked { IsFalse (has_mark marks.old.stale.now node) → element L.ops (map L.value table.old) node
        ≡ met L.ops (Q.system evaluator.old.eqs.now) (map L.value limits.now) (map L.value table.old) node }
    ensures value { map L.value table.new ≡ evaluated L.ops (Q.system evaluator.old.eqs.now) (map L.value limits.now) (map L.value table.old) node }
    ensures visits { Visits L.ops (Q.system evaluator.old.eqs.now) node (map L.value table.old) (map L.value table.new)
        marks.old.stale.now marks.new.stale.now evaluator.old.count.now evaluator.new.count.now }
    ensures room { L.room evaluator.new.scratch.now ≡ L.room evaluator.old.scratch.now }
    ensures same { Q.system evaluator.new.eqs.now ≡ Q.system evaluator.old.eqs.now }
    ensures kept { Q.kept evaluator.new.eqs.now ≡ Q.kept evaluator.old.eqs.now }
    ensures eqs_name { evaluator.new.eqs.ghost_name ≡ evaluator.old.eqs.ghost_name }
    ensures scratch_name { evaluator.new.scratch.ghost_name ≡ evaluator.old.scratch.ghost_name }
    ensures count_name { evaluator.new.count.ghost_name ≡ evaluator.old.count.ghost_name }
    ensures stale_name { marks.new.stale.ghost_name ≡ marks.old.stale.ghost_name }
    ensures read_by { marks.new.read_by ≡ marks.old.read_by }
{
    if !marks.take(node) {
        return;
    }
    evaluator.evaluate_within(node, limits, table);
    if replace(node, table, evaluator.scratch) {
        marks.mark_readers(node);
    }
}

/// Begins the first turn of a component: its head is widened by its equation's value.
fn enter<L: Lattice, Q: Equations<L>, G: Ledger>(
    head: u32,
    limits: &[L],
    steps: &[i32],
    table: &mut [L],
    marks: &mut Marks,
    evaluator: &mut Evaluator<L, Q, G>,
)
    requires given { IsGiven L.ops (Q.system evaluator.old.eqs.now) (map L.value limits.now) (map (λ v. v.items) marks.old.read_by.now) (L.room evaluator.old.scratch.now) }
    requires marks { length marks.old.stale.now ≡ (Q.system evaluator.old.eqs.now).nodes }
    requires inside { IsInside L.ops (Q.system evaluator.old.eqs.now) (map L.value limits.now) (map L.value table.old) }
    requires head { head < (Q.system evaluator.old.eqs.now).nodes }
    requires unmarked { IsFalse (has_mark marks.old.stale.now head) → IsStableAt L.ops (Q.system evaluator.old.eqs.now) (map L.value limits.now) (map L.value table.old) head }
    requires steps { AreSteps steps.now }
    ensures value { map L.value table.new ≡ widened L.ops (Q.system evaluator.old.eqs.now) (map L.value limits.now) steps.now (map L.value table.old) head }
    ensures visits { Visits L.ops (Q.system evaluator.old.eqs.now) head (map L.value table.old) (map L.value table.new)
        marks.old.stale.now marks.new.stale.now evaluator.old.count.now evaluator.new.count.now }
    ensures room { L.room evaluator.new.scratch.now ≡ L.room evaluator.old.scratch.now }
    ensures same { Q.system evaluator.new.eqs.now ≡ Q.system evaluator.old.eqs.now }
    ensures kept { Q.kept evaluator.new.eqs.now ≡ Q.kept evaluator.old.eqs.now }
    ensures eqs_name { evaluator.new.eqs.ghost_name ≡ evaluator.old.eqs.ghost_name }
    ensures scratch_name { evaluator.new.scratch.ghost_name ≡ evaluator.old.scratch.ghost_name }
    ensures count_name { evaluator.new.count.ghost_name ≡ evaluator.old.count.ghost_name }
    ensures stale_name { marks.new.stale.ghost_name ≡ marks.old.stale.ghost_name }
    ensures read_by { marks.new.read_by ≡ marks.old.read_by }
{
    if !marks.take(head) {
        return;
    }
    evaluator.evaluate_within(head, limits, table);
    if widen(head, limits, steps, table, evaluator.scratch) {
        marks.mark_readers(head);
    }
}

/// After a turn of a component, begins another unless the value for its head lies within it, and answers whether it does.
fn turn<L: Lattice, Q: Equations<L>, G: Ledger>(
    head: u32,
    limits: &[L],
    steps: &[i32],
    table: &mut [L],
    marks: &mut Marks,
    evaluator: &mut Evaluator<L, Q, G>,
) -> bool
    requires given { IsGiven L.ops (Q.system evaluator.old.eqs.now) (map L.value limits.now) (map (λ v. v.items) marks.old.read_by.now) (L.room evaluator.old.scratch.now) }
    requires marks { length marks.old.stale.now ≡ (Q.system evaluator.old.eqs.now).nodes }
    requires inside { IsInside L.ops (Q.system evaluator.old.eqs.now) (map L.value limits.now) (map L.value table.old) }
    requires head { head < (Q.system evaluator.old.eqs.now).nodes }
    requires unmarked { IsFalse (has_mark marks.old.stale.now head) → IsStableAt L.ops (Q.system evaluator.old.eqs.now) (map L.value limits.now) (map L.value table.old) head }
    requires steps { AreSteps steps.now }
    ensures unsettled { result ≡ not (is_done L.ops (Q.system evaluator.old.eqs.now) (map L.value limits.now) head true (map L.value table.old)) }
    ensures value { map L.value table.new
        ≡ (if result then widened L.ops (Q.system evaluator.old.eqs.now) (map L.value limits.now) steps.now (map L.value table.old) head else map L.value table.old) }
    ensures visits { Visits L.ops (Q.system evaluator.old.eqs.now) head (map L.value table.old) (map L.value table.new)
        marks.old.stale.now marks.new.stale.now evaluator.old.count.now evaluator.new.count.now }
    ensures room { L.room evaluator.new.scratch.now ≡ L.room evaluator.old.scratch.now }
    ensures same { Q.system evaluator.new.eqs.now ≡ Q.system evaluator.old.eqs.now }
    ensures kept { Q.kept evaluator.new.eqs.now ≡ Q.kept evaluator.old.eqs.now }
    ensures eqs_name { evaluator.new.eqs.ghost_name ≡ evaluator.old.eqs.ghost_name }
    ensures scratch_name { evaluator.new.scratch.ghost_name ≡ evaluator.old.scratch.ghost_name }
    ensures count_name { evaluator.new.count.ghost_name ≡ evaluator.old.count.ghost_name }
    ensures stale_name { marks.new.stale.ghost_name ≡ marks.old.stale.ghost_name }
    ensures read_by { marks.new.read_by ≡ marks.old.read_by }
{
    if !marks.take(head) {
        return false; // its value lies within it, and nothing that it reads has changed
    }
    evaluator.evaluate_within(head, limits, table);
    if lies_within(head, table, evaluator.scratch) {
        return false;
    }
    if widen(head, limits, steps, table, evaluator.scratch) {
        marks.mark_readers(head);
    }
    true
}

/// Of the component that a walk is in, the place of the head, if it ends where the walk stands.
fn ended(order: &Order, inside: Option<u32>, place: u32) -> Option<u32>
    requires { (head : ℕ) → inside ≡ Some head → head < length order.now.nodes }
    ensures { MatchOption result ((head : ℕ) → inside ≡ Some head → end_at order.now head ≢ place)
        (λ head. (inside ≡ Some head) × (end_at order.now head ≡ place)) }
{
    inside.filter(|&head| order.end(head) == place)
}

/// Makes each element the bottom of its shape.
fn clear<L: Lattice>(table: &mut [L])
    ensures { map L.value table.new ≡ bottoms L.ops (map L.value table.old) }
{
    for element in table.iter_mut() {
        element.set_bottom();
    }
}

/// Solves the equations upwards inside the limits, from the bottom, whatever the table and the marks hold before the call.
///
/// The table becomes the ascent of Bourdoncle's recursive strategy over the order: a node takes its equation's value, met
/// with its limit; a component repeats turns in which its head is widened by its equation's value, until one whole turn
/// was made and the value lies within the head. Each equation is then satisfied inside its limit.
///
/// A node is evaluated again only where a node that it reads has changed since: `read_by` says which nodes read a node, and
/// `stale` marks those that are to be evaluated. With h the greatest height of a limit, at most `2 * (1 + depth * h)`
/// evaluations are made for each node, and in all at most one for each node and, for each change, one for each of the nodes
/// that read the changed one. No memory is taken, and nothing recurses.
pub fn ascend<L: Lattice, Q: Equations<L>, G: Ledger>(
    order: &Order,
    eqs: &mut Q,
    limits: &[L],
    steps: &[i32],
    read_by: &[Vec<u32>],
    stale: &mut [bool],
    table: &mut [L],
    scratch: &mut L,
    count: &mut Steps<G>,
)
    requires order { IsWeakOrder (Reads (Q.system eqs.old)) (Q.system eqs.old).nodes order.now }
    requires tables { AreTables L.ops (Q.system eqs.old) (map L.value limits.now) (map L.value table.old) }
    requires steps { AreSteps steps.now }
    requires readers { IsReversal (Q.system eqs.old).nodes (Q.system eqs.old).reads (map (λ v. v.items) read_by.now) }
    requires stale { length stale.old ≡ (Q.system eqs.old).nodes }
    requires scratch { HasRoom (Q.system eqs.old) (L.room scratch.old) }
    ensures ascent { (elements : Elements) → IsLayoutOf elements order.now
        → IsAscent L.ops (Q.system eqs.old) (map L.value limits.now) steps.now elements (map L.value table.new) }
    ensures table { IsTable L.ops (Q.system eqs.old) (map L.value table.new) }
    ensures within { IsWithin L.ops (Q.system eqs.old) (map L.value limits.now) (map L.value table.new) }
    ensures stable { IsStable L.ops (Q.system eqs.old) (map L.value limits.now) (map L.value table.new) }

    ensures evaluations { (elements : Elements) (h : ℕ) → IsLayoutOf elements order.now
        → AreAtMost L.ops (Q.system eqs.old) (map L.value limits.now) steps.now h → count.new ≤ count.old + ascent_bound h 0 elements }
    // No more than one for each node, and for each change one for each node that reads the changed one.
    ensures skips { (elements : Elements) (way : IsAscent L.ops (Q.system eqs.old) (map L.value limits.now) steps.now elements (map L.value table.new))
        → IsLayoutOf elements order.now → count.new ≤ count.old + (Q.system eqs.old).nodes
        + sum_by (readers (Q.system eqs.old)) (changes L.ops (Q.system eqs.old) (map L.value limits.now) steps.now elements (bottoms L.ops (map L.value limits.now)) (map L.value table.new) way) }

    ensures room { L.room scratch.new ≡ L.room scratch.old }
    ensures equations { Q.system eqs.new ≡ Q.system eqs.old }
    ensures kept { Q.kept eqs.new ≡ Q.kept eqs.old }
{
    clear(table);
    mark_all(stale);
    let mut marks = Marks { read_by, stale };
    let mut evaluator = Evaluator {
        eqs,
        scratch,
        count,
    };
    let places = order.len();
    let mut place = 0;
    // The place of the head of the innermost component that the walk is in.
    let mut inside = None;
    'walk: while inside.is_some() || place < places {
        match ended(order, inside, place) {
            Some(head) => {
                let node = order.node(head);
                if turn(node, limits, steps, table, &mut marks, &mut evaluator) {
                    place = head + 1;
                } else {
                    inside = order.head_around(head);
                }
            }
            None if order.end(place) > place => {
                let node = order.node(place);
                enter(node, limits, steps, table, &mut marks, &mut evaluator);
                inside = Some(place);
                place += 1;
            }
            None => {
                let node = order.node(place);
                update(node, limits, table, &mut marks, &mut evaluator);
                place += 1;
            }
        }
    }
}
