//! Values of cells as a lattice.
ghost use Rattle.std.specs.Prelude.{◌≡◌, ◌≢◌, ℤ, Option, IsTrue};
ghost use Rattle.std.specs.Bool.{OnTrue, OnFalse};
ghost use Rattle.std.proofs.Common.{zero-le};
ghost use Rattle.lattice.specs.Lattice.{AreSteps};
ghost use Rattle.interval.specs.Values.{Allows, val_ops, val_below, val_narrow, widen, narrow, widened_low, widened_high, narrowed_low, narrowed_high, is_low_end, is_high_end};
ghost use Rattle.interval.specs.ValueLaws.{val_laws, val_element};

use crate::steps::{step_down, step_up};
use crate::{Itv, Val};
use lattice::Lattice;

impl Lattice for Val {
    type Plain = Val;

    ghost Point = { Option ℤ };

    ghost value = { λ v. v };

    ghost room = { λ _. 0 };

    ghost has = { Allows };

    ghost ops = { val_ops };

    ghost laws = { val_laws };

    ghost elements = { val_element };

    ghost fits = { λ _. zero-le };

    fn is_bottom(&self) -> bool {
        !self.undef && self.itv.is_empty()
    }

    fn set_bottom(&mut self) {
        *self = Val {
            undef: false,
            itv: Itv::none(),
        };
    }

    fn copy_from(&mut self, other: &Self) {
        *self = *other;
    }

    fn join_from(&mut self, other: &Self) {
        if spans(self, other) {
            return;
        }
        *self = Val {
            undef: self.undef || other.undef,
            itv: self.itv.join(other.itv),
        };
    }

    fn meet_from(&mut self, other: &Self) {
        if spans(other, self) {
            return;
        }
        *self = Val {
            undef: self.undef && other.undef,
            itv: self.itv.meet(other.itv),
        };
    }

    fn leq(&self, other: &Self) -> bool {
        spans(other, self) || (!self.undef || other.undef) && self.itv.is_within(other.itv)
    }

    fn widen_from(&mut self, y: &Self, limit: &Self, steps: &[i32]) -> bool {
        if spans(self, y) {
            return false;
        }
        let wider = Val {
            undef: self.undef || y.undef,
            itv: widen(steps, self.itv, y.itv, limit.itv),
        };
        replace(self, wider)
    }

    fn narrow_from(&mut self, y: &Self, limit: &Self) -> bool {
        if spans(y, self) || stays(self, y, limit) {
            return false;
        }
        let narrower = Val {
            undef: self.undef && y.undef,
            itv: narrow(self.itv, y.itv, limit.itv),
        };
        replace(self, narrower)
    }
}

/// Whether the bounds of `v` lie around those of `w`, which is then below it. Calls that change nothing mostly end here.
fn spans(v: &Val, w: &Val) -> bool
    ensures { OnTrue result (IsTrue (val_below w.now v.now)) }
{
    v.itv.lo <= w.itv.lo && w.itv.hi <= v.itv.hi && (v.undef || !w.undef)
}

/// Whether `y` has numbers, and narrows nothing of `v` within the limit.
fn stays(v: &Val, y: &Val, limit: &Val) -> bool
    ensures { OnTrue result (val_narrow v.now y.now limit.now ≡ v.now) }
{
    low_stays(v.itv, y.itv, limit.itv)
        && high_stays(v.itv, y.itv, limit.itv)
        && (y.undef || !v.undef)
        && !y.itv.is_empty()
}

fn low_stays(x: Itv, y: Itv, limit: Itv) -> bool
    ensures { OnTrue result (narrowed_low x y limit ≡ x.lo) }
{
    y.lo <= x.lo || x.lo != limit.lo
}

fn high_stays(x: Itv, y: Itv, limit: Itv) -> bool
    ensures { OnTrue result (narrowed_high x y limit ≡ x.hi) }
{
    x.hi <= y.hi || x.hi != limit.hi
}

/// Puts `v` in the place of a value, and answers whether that changed it.
fn replace(place: &mut Val, v: Val) -> bool
    ensures value { place.new ≡ v }
    ensures changed { OnTrue result (v ≢ place.old) }
    ensures same { OnFalse result (v ≡ place.old) }
{
    let changed = *place != v;
    *place = v;
    changed
}

/// `x` widened by `y`: a bound of `y` that lies outside `x` moves to the next step, and not beyond that of the limit.
fn widen(steps: &[i32], x: Itv, y: Itv, limit: Itv) -> Itv
    requires { AreSteps steps.now }
    ensures { result ≡ widen steps.now x y limit }
{
    if x.is_empty() {
        y
    } else if y.is_empty() {
        x
    } else {
        Itv::between(
            widened_low(steps, x, y, limit),
            widened_high(steps, x, y, limit),
        )
    }
}

fn widened_low(steps: &[i32], x: Itv, y: Itv, limit: Itv) -> i64
    requires { AreSteps steps.now }
    ensures { result ≡ widened_low steps.now x y limit }
{
    i64::from(if y.lo < x.lo {
        step_down(steps, y.lo, limit.lo)
    } else {
        x.lo
    })
}

fn widened_high(steps: &[i32], x: Itv, y: Itv, limit: Itv) -> i64
    requires { AreSteps steps.now }
    ensures { result ≡ widened_high steps.now x y limit }
{
    i64::from(if x.hi < y.hi {
        step_up(steps, y.hi, limit.hi)
    } else {
        x.hi
    })
}

/// `x` narrowed by `y`: a bound of `x` that is the limit's becomes the tighter one of `x` and `y`.
fn narrow(x: Itv, y: Itv, limit: Itv) -> Itv
    ensures { result ≡ narrow x y limit }
{
    if x.is_empty() || y.is_empty() {
        return Itv::none();
    }
    Itv::between(narrowed_low(x, y, limit), narrowed_high(x, y, limit))
}

fn narrowed_low(x: Itv, y: Itv, limit: Itv) -> i64
    ensures { result ≡ narrowed_low x y limit }
{
    i64::from(if is_low_end(x, limit) {
        x.lo.max(y.lo)
    } else {
        x.lo
    })
}

fn narrowed_high(x: Itv, y: Itv, limit: Itv) -> i64
    ensures { result ≡ narrowed_high x y limit }
{
    i64::from(if is_high_end(x, limit) {
        x.hi.min(y.hi)
    } else {
        x.hi
    })
}

fn is_low_end(x: Itv, limit: Itv) -> bool
    ensures { result ≡ is_low_end x limit }
{
    !limit.is_empty() && x.lo == limit.lo
}

fn is_high_end(x: Itv, limit: Itv) -> bool
    ensures { result ≡ is_high_end x limit }
{
    !limit.is_empty() && x.hi == limit.hi
}
