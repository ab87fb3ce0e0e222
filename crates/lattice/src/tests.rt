ghost use Rattle.std.proofs.Common.{◌≡◌, ◌<◌, zero-le};
ghost use Rattle.lattice.specs.Reached.{and_itself, reached_ops, reached_has, reached_laws};

use crate::{Lattice, Steps};
use std::marker::Brand;
use std::mem::size_of;
use std::sync::ledger::{Blank, Ledger};

#[derive(Clone, Copy, Debug, PartialEq, Eq)]
struct Reached(bool);

impl Lattice for Reached {
    type Plain = bool;

    ghost Point = { Unit {0} };

    ghost value = { λ x. x.0 };

    ghost room = { λ _. 0 };

    ghost has = { reached_has };

    ghost ops = { reached_ops };

    ghost laws = { reached_laws };

    ghost elements = { λ x. and_itself x.0 };

    ghost fits = { λ _. zero-le };

    fn is_bottom(&self) -> bool {
        !self.0
    }

    fn set_bottom(&mut self) {
        self.0 = false;
    }

    fn copy_from(&mut self, other: &Self) {
        self.0 = other.0;
    }

    fn join_from(&mut self, other: &Self) {
        self.0 = self.0 | other.0;
    }

    fn meet_from(&mut self, other: &Self) {
        self.0 = self.0 & other.0;
    }

    fn leq(&self, other: &Self) -> bool {
        !self.0 | other.0
    }

    fn widen_from(&mut self, y: &Self, _limit: &Self, _steps: &[i32]) -> bool {
        let changed = y.0 & !self.0;
        self.0 = self.0 | y.0;
        changed
    }

    fn narrow_from(&mut self, y: &Self, _limit: &Self) -> bool {
        let changed = self.0 & !y.0;
        self.0 = self.0 & y.0;
        changed
    }
}

/// What a call through the bound answers, with the element as it leaves it.
fn joined<L: Lattice + Copy>(x: L, y: L) -> L
    requires { L.ops.shape (L.value x) ≡ L.ops.shape (L.value y) }
    ensures { L.value result ≡ L.ops.join (L.value x) (L.value y) }
{
    let mut all = x;
    all.join_from(&y);
    all
}

#[test]
fn the_calls_compute_the_functions(rt: HostRuntime) {
    let (no, yes) = (Reached(false), Reached(true));
    // x, y, the join, the meet, x below y, whether widening x by y and narrowing x by y change x
    let cases = [
        (no, no, no, no, true, false, false),
        (no, yes, yes, no, true, true, false),
        (yes, no, yes, no, false, false, true),
        (yes, yes, yes, yes, true, false, false),
    ];
    for (x, y, join, meet, below, grows, shrinks) in cases {
        assert!(rt; joined(x, y) == join);
        let mut both = x;
        both.meet_from(&y);
        assert!(rt; both == meet);
        assert!(rt; x.leq(&y) == below);
        let mut wide = x;
        assert!(rt; wide.widen_from(&y, &yes, &[]) == grows);
        assert!(rt; wide == join);
        let mut narrow = x;
        assert!(rt; narrow.narrow_from(&y, &yes) == shrinks);
        assert!(rt; narrow == meet);
    }
}

/// How many bytes a counter takes, after two steps.
fn two_steps<G: Ledger>(blank: Blank) -> usize
    requires name { blank.name ≡ G.name }
    requires parts { blank.parts ≡ G.parts }
    requires some { 0 < G.parts }
{
    let mut steps = Steps::<G>::new(blank);
    steps.tick();
    steps.tick();
    size_of::<Steps<G>>()
}

#[test]
fn a_counter_takes_no_bytes(rt: HostRuntime) {
    assert!(rt; two_steps::<Brand>(Blank::new(1)) == 0);
}
