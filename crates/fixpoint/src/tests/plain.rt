//! An engine without marks, which evaluates each node that it comes to.
ghost use Rattle.std.specs.Ordering.{int_cmp};
ghost use Rattle.std.proofs.lemmas.Map.Keys.{IsStrictlySortedBy-prop};
ghost use Rattle.lattice.specs.Lattice.{AreSteps};

use super::{Equation, anything, flow};
use interval::Val;
use lattice::Lattice;
use std::process::Abort;
use weak_order::Order;

/// No component of the drawn systems makes so many turns, and none is nested so deep.
const MOST_TURNS: u32 = 1000;

pub(super) const MOST_DEPTH: u8 = 20;

#[derive(Drop)]
pub(super) struct Plain<'o, 'e, 'r, 's> {
    pub(super) order: &'o Order,
    pub(super) equations: &'e [Equation],
    pub(super) reads: &'r [Vec<u32>],
    pub(super) steps: &'s [i32],
    pub(super) evaluated: u32,
    ghost rising: { AreSteps steps.now } by { IsStrictlySortedBy-prop int_cmp steps.now },
}

impl Plain<'_, '_, '_, '_> {
    /// The value of a node's equation.
    fn value(&mut self, rt: &impl Abort, node: u32, table: &[Val]) -> Val {
        self.evaluated = self.evaluated.saturating_add(1);
        let node = node as usize;
        assert!(rt; node < self.equations.len() && node < self.reads.len());
        let equation = &self.equations[node];
        let mut all = equation.start;
        for &read in &self.reads[node] {
            assert!(rt; (read as usize) < table.len());
            all.join_from(&flow(table[read as usize], equation.part, equation.step));
        }
        all
    }

    /// Handles the elements at the places from `from` up to `to`.
    #[cycle(ascent)]
    pub(super) fn ascend(
        &mut self,
        rt: &impl Abort,
        table: &mut [Val],
        from: u32,
        to: u32,
        depth: u8,
    ) {
        let mut place = from;
        for _ in from..to {
            if place >= to {
                return;
            }
            assert!(rt; place < self.order.len());
            let node = self.order.node(place);
            let end = self.order.end(place);
            if end > place {
                self.ascend_component(rt, table, place, depth);
            } else {
                assert!(rt; (node as usize) < table.len());
                table[node as usize] = self.value(rt, node, table);
            }
            place = end.max(place.saturating_add(1));
        }
    }

    /// Repeats the turns of the component at a place.
    #[cycle(ascent)]
    fn ascend_component(&mut self, rt: &impl Abort, table: &mut [Val], place: u32, depth: u8) {
        assert!(rt; depth > 0 && place < self.order.len());
        let head = self.order.node(place);
        let end = self.order.end(place);
        for turn in 0..MOST_TURNS {
            let value = self.value(rt, head, table);
            assert!(rt; (head as usize) < table.len());
            let element = table[head as usize];
            if turn > 0 && value.leq(&element) {
                return;
            }
            table[head as usize] = self.widened(rt, element, value);
            self.ascend(rt, table, place.saturating_add(1), end, depth - 1);
        }
        assert!(rt; false, "too many turns");
    }

    fn widened(&self, rt: &impl Abort, element: Val, value: Val) -> Val {
        let limit = anything();
        assert!(rt; element.leq(&limit) && value.leq(&limit));
        let mut wide = element;
        wide.widen_from(&value, &limit, self.steps);
        wide
    }

    /// Makes one pass, and answers whether a head changed.
    fn pass(&mut self, rt: &impl Abort, table: &mut [Val]) -> bool {
        let order = self.order;
        let mut changed = false;
        for place in 0..order.len() {
            let node = order.node(place);
            let value = self.value(rt, node, table);
            assert!(rt; (node as usize) < table.len());
            if order.end(place) > place {
                changed |= table[node as usize].narrow_from(&value, &anything());
            } else {
                table[node as usize].meet_from(&value);
            }
        }
        changed
    }

    /// Makes passes until one changes no head.
    pub(super) fn descend(&mut self, rt: &impl Abort, table: &mut [Val]) {
        for _ in 0..MOST_TURNS {
            if !self.pass(rt, table) {
                return;
            }
        }
        assert!(rt; false, "too many passes");
    }
}
