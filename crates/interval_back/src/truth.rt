//! The operands of the operators that give Booleans.
ghost use Rattle.std.specs.Prelude.{◌≡◌};
ghost use Rattle.interval_back.specs.Backward.{conjuncts, disjuncts, without, related, decided};

use crate::parts::{MAXINT, trimmed, within};
use crate::relation::Relation;
use interval::Itv;

/// The numbers of `x` that are with some number of `y` the lesser of two in `w`.
pub fn conjuncts(w: Itv, x: Itv, y: Itv) -> Itv
    ensures { result ≡ conjuncts w x y }
{
    if y.lo <= w.hi {
        within(i64::from(w.lo), MAXINT, x)
    } else {
        w.meet(x)
    }
}

/// The numbers of `x` that are with some number of `y` the greater of two in `w`.
pub fn disjuncts(w: Itv, x: Itv, y: Itv) -> Itv
    ensures { result ≡ disjuncts w x y }
{
    if w.lo <= y.hi {
        within(-MAXINT, i64::from(w.hi), x)
    } else {
        w.meet(x)
    }
}

/// The numbers of `x` whose relation with some number of `y` has its truth in `w`.
pub fn decided(relation: Relation, w: Itv, x: Itv, y: Itv) -> Itv
    ensures { result ≡ decided relation w x y }
{
    if w.hi <= 0 {
        related(relation.opposite(), x, y)
    } else if 1 <= w.lo {
        related(relation, x, y)
    } else {
        x
    }
}

/// The numbers of `x` that are in a relation with some number of `y`.
fn related(relation: Relation, x: Itv, y: Itv) -> Itv
    ensures { result ≡ related relation x y }
{
    match relation {
        Relation::Equal => x.meet(y),
        Relation::Different => different(x, y),
        Relation::Less => less(x, y),
        Relation::AtMost => within(-MAXINT, i64::from(y.hi), x),
        Relation::Greater => greater(x, y),
        Relation::AtLeast => within(i64::from(y.lo), MAXINT, x),
    }
}

/// The numbers of `x` below some number of `y`.
fn less(x: Itv, y: Itv) -> Itv
    ensures { result ≡ related Relation.Less x y }
{
    within(-MAXINT, i64::from(y.hi) - 1, x)
}

/// The numbers of `x` above some number of `y`.
fn greater(x: Itv, y: Itv) -> Itv
    ensures { result ≡ related Relation.Greater x y }
{
    within(i64::from(y.lo) + 1, MAXINT, x)
}

/// The numbers of `x` without one that is an end of it and the only number of `y`.
fn different(x: Itv, y: Itv) -> Itv
    ensures { result ≡ related Relation.Different x y }
{
    if y.lo == y.hi { without(x, y.lo) } else { x }
}

/// `x` without the number `n` where that is an end.
fn without(x: Itv, n: i32) -> Itv
    ensures { result ≡ without x n }
{
    trimmed(x.lo == n, x.hi == n, x)
}
