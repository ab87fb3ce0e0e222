//! Products and quotients at the ends of intervals, over `i64`.
ghost use Rattle.std.specs.Prelude.{◌≡◌, ◌≢◌, ℤ, ◌*ℤ◌, ◌≤ℤ◌, int_div, pos};
ghost use Rattle.arithmetic.specs.Numbers.{IsNumber};
ghost use Rattle.interval.specs.Ends.{IsProductSized, least_of, greatest_of};
ghost use Rattle.interval.specs.Forward.{least_product, greatest_product};
ghost use Rattle.interval.specs.Intervals.{IsIn};

use crate::Itv;

/// The least and the greatest product of a number of `x` and one of `y`, where both have some.
pub fn product_ends(x: Itv, y: Itv) -> (i64, i64)
    ensures least { result.0 ≡ least_product x y }
    ensures greatest { result.1 ≡ greatest_product x y }
    ensures least_sized { IsProductSized result.0 }
    ensures greatest_sized { IsProductSized result.1 }
    ensures between { (a b : ℤ) → IsIn x a → IsIn y b → (result.0 ≤ℤ (a *ℤ b)) × ((a *ℤ b) ≤ℤ result.1) }
{
    let (p, q) = (times(x.lo, y.lo), times(x.lo, y.hi));
    let (r, s) = (times(x.hi, y.lo), times(x.hi, y.hi));
    (least_of(p, q, r, s), greatest_of(p, q, r, s))
}

/// `x * y`.
pub fn times(x: i32, y: i32) -> i64
    ensures value { result ≡ x *ℤ y }
    ensures sized { IsProductSized result }
{
    i64::from(x) * i64::from(y)
}

/// `x / y`, truncated towards zero.
pub fn over(x: i32, y: i32) -> i64
    requires dividend { IsNumber x }
    requires divisor { y ≢ pos 0 }
    ensures { result ≡ int_div x y }
{
    i64::from(x / y)
}

/// The least of four numbers.
pub fn least_of(p: i64, q: i64, r: i64, s: i64) -> i64
    ensures { result ≡ least_of p q r s }
{
    p.min(q).min(r.min(s))
}

/// The greatest of four numbers.
pub fn greatest_of(p: i64, q: i64, r: i64, s: i64) -> i64
    ensures { result ≡ greatest_of p q r s }
{
    p.max(q).max(r.max(s))
}
