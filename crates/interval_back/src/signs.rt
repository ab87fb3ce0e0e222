//! The operands of signs and of functions of one integer.
ghost use Rattle.std.specs.Prelude.{◌≡◌, not, pos, neg_ℤ, ◌≤ℤ◌};
ghost use Rattle.std.specs.Ordering.{int_eq};
ghost use Rattle.arithmetic.specs.Numbers.{truth};
ghost use Rattle.interval.specs.Forward.{is_odd};
ghost use Rattle.interval_back.specs.Backward.{operand, of_either_sign, of_parity};

use crate::parts::{trimmed, within};
use crate::roots::{root_above, root_below};
use interval::Itv;
use px_base::UnOp;

/// The numbers of `x` whose opposites are numbers of `w`.
pub fn opposites(w: Itv, x: Itv) -> Itv
    ensures { result ≡ operand UnOp.Neg w x }
{
    within(-i64::from(w.hi), -i64::from(w.lo), x)
}

/// The Booleans of `x` whose opposites are in `w`.
pub fn negations(w: Itv, x: Itv) -> Itv
    ensures { result ≡ operand UnOp.Not w x }
{
    within(1 - i64::from(w.hi), 1 - i64::from(w.lo), x)
}

/// The numbers of `x` whose absolute values are in `w`.
pub fn of_magnitude(w: Itv, x: Itv) -> Itv
    ensures { result ≡ operand UnOp.Abs w x }
{
    of_either_sign(i64::from(w.lo), i64::from(w.hi), x)
}

/// The numbers of `x` whose squares are in `w`.
pub fn square_roots(w: Itv, x: Itv) -> Itv
    ensures { result ≡ operand UnOp.Sqr w x }
{
    of_either_sign(root_above(w.lo), root_below(w.hi), x)
}

/// The numbers of `x` from `lo` to `hi`, and those whose opposite is one from `lo` to `hi`.
fn of_either_sign(lo: i64, hi: i64, x: Itv) -> Itv
    requires low { neg_ℤ (pos 2147483648) ≤ℤ lo }
    requires high { neg_ℤ (pos 2147483648) ≤ℤ hi }
    ensures { result ≡ of_either_sign lo hi x }
{
    within(lo, hi, x).join(within(-hi, -lo, x))
}

/// `x` without ends of the other parity, where `w` has one truth.
pub fn of_parity(w: Itv, x: Itv) -> Itv
    ensures { result ≡ of_parity w x }
{
    if w.lo == w.hi {
        trimmed(differs(x.lo, w.lo), differs(x.hi, w.lo), x)
    } else {
        x
    }
}

/// Whether the parity of `z`, 1 for an odd number and else 0, is another one.
fn differs(z: i32, parity: i32) -> bool
    ensures { result ≡ not (int_eq (truth (is_odd z)) parity) }
{
    i32::from(z % 2 != 0) != parity
}

/// The numbers of `x` whose successors are in `w`.
pub fn predecessors(w: Itv, x: Itv) -> Itv
    ensures { result ≡ operand UnOp.SuccInt w x }
{
    within(i64::from(w.lo) - 1, i64::from(w.hi) - 1, x)
}

/// The numbers of `x` whose predecessors are in `w`.
pub fn successors(w: Itv, x: Itv) -> Itv
    ensures { result ≡ operand UnOp.PredInt w x }
{
    within(i64::from(w.lo) + 1, i64::from(w.hi) + 1, x)
}
