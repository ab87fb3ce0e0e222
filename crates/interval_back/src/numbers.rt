//! The operands of the operators on integers.
ghost use Rattle.std.specs.Prelude.{◌≡◌, ◌≢◌, ◌&&◌, ℤ, pos, neg_ℤ, ◌*ℤ◌, ◌≤ℤ◌, int_div};
ghost use Rattle.interval.specs.Intervals.{IsIn, is_in};
ghost use Rattle.interval_back.specs.Backward.{addends, minuends, subtrahends, factors, dividends, slack, divisors, is_reduced, reduced, moduli};

use crate::parts::{MAXINT, within};
use interval::{Itv, binary, product_ends};
use px_base::BinOp;

/// The numbers of `x` that have a sum in `w` with a number of `y`.
pub fn addends(w: Itv, x: Itv, y: Itv) -> Itv
    ensures { result ≡ addends w x y }
{
    within(
        i64::from(w.lo) - i64::from(y.hi),
        i64::from(w.hi) - i64::from(y.lo),
        x,
    )
}

/// The numbers of `x` from which a number of `y` can be taken to give one of `w`.
pub fn minuends(w: Itv, x: Itv, y: Itv) -> Itv
    ensures { result ≡ minuends w x y }
{
    within(
        i64::from(w.lo) + i64::from(y.lo),
        i64::from(w.hi) + i64::from(y.hi),
        x,
    )
}

/// The numbers of `y` that can be taken from a number of `x` to give one of `w`.
pub fn subtrahends(w: Itv, x: Itv, y: Itv) -> Itv
    ensures { result ≡ subtrahends w x y }
{
    within(
        i64::from(x.lo) - i64::from(w.hi),
        i64::from(x.hi) - i64::from(w.lo),
        y,
    )
}

/// The factors in `x` of products in `w` with numbers of `y`. Where 0 times 0 is wanted, each number is one.
pub fn factors(w: Itv, x: Itv, y: Itv) -> Itv
    ensures value { result ≡ factors w x y }
    ensures kept { (a b : ℤ) → IsIn x a → IsIn y b → IsIn w (a *ℤ b) → IsIn result a }
{
    if allows_any_factor(w, y) {
        x
    } else {
        binary(BinOp::Div, w, y).value.meet(x)
    }
}

/// Whether 0 is wanted and the other factor can be 0.
fn allows_any_factor(w: Itv, y: Itv) -> bool
    ensures { result ≡ (is_in y (pos 0) && is_in w (pos 0)) }
{
    y.contains(0) && w.contains(0)
}

/// The dividends in `x` of quotients in `w` by numbers of `y`.
pub fn dividends(w: Itv, x: Itv, y: Itv) -> Itv
    ensures value { result ≡ dividends w x y }
    ensures kept { (a b : ℤ) → IsIn x a → IsIn y b → b ≢ pos 0 → IsIn w (int_div a b) → IsIn result a }
{
    let (least, greatest) = product_ends(w, y);
    within(least - slack(y), greatest + slack(y), x)
}

/// The most by which a dividend can be away from the product of divisor and quotient.
fn slack(y: Itv) -> i64
    ensures value { result ≡ slack y }
    ensures low { neg_ℤ (pos 1) ≤ℤ result }
    ensures high { result ≤ℤ pos 2147483647 }
{
    i64::from(y.lo.abs().max(y.hi.abs())) - 1
}

/// `y` without 0 at an end.
pub fn divisors(y: Itv) -> Itv
    ensures { result ≡ divisors y }
{
    if y.lo == 0 {
        Itv::between(1, i64::from(y.hi))
    } else if y.hi == 0 {
        Itv::between(i64::from(y.lo), -1)
    } else {
        y
    }
}

/// The numbers of `x` that have a remainder in `w` by a number of `y`.
pub fn reduced(w: Itv, x: Itv, y: Itv) -> Itv
    ensures { result ≡ reduced w x y }
{
    if is_reduced(x, y) { w.meet(x) } else { x }
}

/// Whether each remainder is the number itself.
fn is_reduced(x: Itv, y: Itv) -> bool
    ensures { result ≡ is_reduced x y }
{
    0 <= x.lo && x.hi < y.lo.max(1)
}

/// The numbers of `y` that are above a remainder in `w`.
pub fn moduli(w: Itv, y: Itv) -> Itv
    ensures { result ≡ moduli w y }
{
    within((i64::from(w.lo) + 1).max(1), MAXINT, y)
}
