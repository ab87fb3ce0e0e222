//! The answers of operators at intervals, as their definitions compute them.
ghost use Rattle.std.specs.Prelude.{◌≡◌, ◌≢◌, ◌≤ℤ◌, ◌+ℤ◌, ◌-ℤ◌, pos, false};
ghost use Rattle.interval.specs.Answers.{always, clipped};
ghost use Rattle.interval.specs.Intervals.{is_in, is_empty, empty};
ghost use Rattle.interval.specs.Forward.{binary_answer, binary_table, unary_answer, unary_table, product, quotients, quotient, quotient_hull, above_zero, below_zero, remainders, remainder, is_in_one_block, remainders_in_block, remainders_over_blocks, truths, can_be_equal, can_differ, magnitude, opposite, negation, parity, square};

use crate::ends::{greatest_of, least_of, over, product_ends, times};
use crate::{Answer, Itv};
use px_base::{BinOp, UnOp};

/// The numbers above zero.
const POSITIVES: Itv = Itv {
    lo: 1,
    hi: i32::MAX,
};

/// The numbers below zero.
const NEGATIVES: Itv = Itv {
    lo: -i32::MAX,
    hi: -1,
};

pub fn binary_answer(op: BinOp, x: Itv, y: Itv) -> Answer
    ensures { result ≡ binary_answer op x y }
{
    if x.is_empty() || y.is_empty() {
        return nothing();
    }
    match op {
        BinOp::Add => sum(x, y),
        BinOp::Sub => difference(x, y),
        BinOp::Mul => product(x, y),
        BinOp::Div => quotient(x, y),
        BinOp::Mod => remainder(x, y),
        BinOp::And => Answer::always(lesser(x, y)),
        BinOp::Or => Answer::always(greater(x, y)),
        BinOp::Eq => truths(can_be_equal(x, y), can_differ(x, y)),
        BinOp::Ne => truths(can_differ(x, y), can_be_equal(x, y)),
        BinOp::Lt => truths(x.lo < y.hi, y.lo <= x.hi),
        BinOp::Le => truths(x.lo <= y.hi, y.lo < x.hi),
        BinOp::Gt => truths(y.lo < x.hi, x.lo <= y.hi),
        BinOp::Ge => truths(y.lo <= x.hi, x.lo < y.hi),
    }
}

pub fn unary_answer(op: UnOp, x: Itv) -> Answer
    ensures { result ≡ unary_answer op x }
{
    if x.is_empty() {
        return nothing();
    }
    match op {
        UnOp::Neg => Answer::always(opposite(x)),
        UnOp::Not => Answer::always(negation(x)),
        UnOp::Abs => Answer::always(magnitude(x)),
        UnOp::Sqr => square(magnitude(x)),
        UnOp::Odd => Answer::always(parity(x)),
        UnOp::SuccInt => successor(Itv::NUMBERS, x),
        UnOp::PredInt => predecessor(Itv::NUMBERS, x),
        UnOp::SuccBool => successor(Itv::BOOLEANS, x),
        UnOp::PredBool => predecessor(Itv::BOOLEANS, x),
        UnOp::OrdOf => Answer::always(x),
    }
}

/// Without numbers of an operand there is neither a result nor an error.
fn nothing() -> Answer
    ensures { result ≡ always empty }
{
    Answer::always(Itv::none())
}

fn sum(x: Itv, y: Itv) -> Answer
    ensures { result ≡ binary_table BinOp.Add x y }
{
    Answer::clipped(
        Itv::NUMBERS,
        i64::from(x.lo) + i64::from(y.lo),
        i64::from(x.hi) + i64::from(y.hi),
    )
}

fn difference(x: Itv, y: Itv) -> Answer
    ensures { result ≡ binary_table BinOp.Sub x y }
{
    Answer::clipped(
        Itv::NUMBERS,
        i64::from(x.lo) - i64::from(y.hi),
        i64::from(x.hi) - i64::from(y.lo),
    )
}

fn product(x: Itv, y: Itv) -> Answer
    ensures { result ≡ product x y }
{
    let (least, greatest) = product_ends(x, y);
    Answer::clipped(Itv::NUMBERS, least, greatest)
}

fn quotient(x: Itv, y: Itv) -> Answer
    ensures { result ≡ quotient x y }
{
    Answer {
        value: quotients(x, above_zero(y)).join(quotients(x, below_zero(y))),
        holds: !y.contains(0),
    }
}

/// The hull of the quotients by numbers of one sign.
fn quotients(x: Itv, y: Itv) -> Itv
    requires { is_in y (pos 0) ≡ false }
    ensures { result ≡ quotients x y }
{
    if y.is_empty() { y } else { quotient_hull(x, y) }
}

fn quotient_hull(x: Itv, y: Itv) -> Itv
    requires by_least { y.lo ≢ pos 0 }
    requires by_greatest { y.hi ≢ pos 0 }
    ensures { result ≡ quotient_hull x y }
{
    let (p, q) = (over(x.lo, y.lo), over(x.lo, y.hi));
    let (r, s) = (over(x.hi, y.lo), over(x.hi, y.hi));
    Itv::between(least_of(p, q, r, s), greatest_of(p, q, r, s))
}

fn above_zero(y: Itv) -> Itv
    ensures value { result ≡ above_zero y }
    ensures nonzero { is_in result (pos 0) ≡ false }
    ensures least { pos 1 ≤ℤ result.lo }
{
    y.meet(POSITIVES)
}

fn below_zero(y: Itv) -> Itv
    ensures value { result ≡ below_zero y }
    ensures nonzero { is_in result (pos 0) ≡ false }
{
    y.meet(NEGATIVES)
}

fn remainder(x: Itv, y: Itv) -> Answer
    ensures { result ≡ remainder x y }
{
    Answer {
        value: remainders(x, above_zero(y)),
        holds: 1 <= y.lo,
    }
}

/// The hull of the remainders by numbers above zero.
fn remainders(x: Itv, y: Itv) -> Itv
    requires { pos 1 ≤ℤ y.lo }
    ensures { result ≡ remainders x y }
{
    if y.is_empty() {
        y
    } else if y.lo == y.hi && is_in_one_block(x, y.lo) {
        remainders_in_block(x, y.lo)
    } else {
        remainders_over_blocks(x, y)
    }
}

fn remainders_over_blocks(x: Itv, y: Itv) -> Itv
    ensures { result ≡ remainders_over_blocks x y }
{
    let greatest = i64::from(y.hi) - 1;
    if x.lo < 0 {
        Itv::between(0, greatest)
    } else if x.hi < y.lo {
        x
    } else {
        Itv::between(0, greatest.min(i64::from(x.hi)))
    }
}

/// Whether all numbers of `x` have one quotient by `divisor`, rounded down.
fn is_in_one_block(x: Itv, divisor: i32) -> bool
    requires { pos 1 ≤ℤ divisor }
    ensures { result ≡ is_in_one_block x divisor }
{
    x.lo.div_euclid(divisor) == x.hi.div_euclid(divisor)
}

fn remainders_in_block(x: Itv, divisor: i32) -> Itv
    requires { pos 1 ≤ℤ divisor }
    ensures { result ≡ remainders_in_block x divisor }
{
    Itv::between(
        i64::from(x.lo.rem_euclid(divisor)),
        i64::from(x.hi.rem_euclid(divisor)),
    )
}

/// The lesser ones of two numbers, which at Booleans is their conjunction.
fn lesser(x: Itv, y: Itv) -> Itv
    ensures { result ≡ (binary_table BinOp.And x y).value }
{
    Itv::between(i64::from(x.lo.min(y.lo)), i64::from(x.hi.min(y.hi)))
}

/// The greater ones of two numbers, which at Booleans is their disjunction.
fn greater(x: Itv, y: Itv) -> Itv
    ensures { result ≡ (binary_table BinOp.Or x y).value }
{
    Itv::between(i64::from(x.lo.max(y.lo)), i64::from(x.hi.max(y.hi)))
}

/// The numbers of the Booleans that are possible.
fn truths(can_hold: bool, can_fail: bool) -> Answer
    ensures { result ≡ always (truths can_hold can_fail) }
{
    Answer::always(Itv::between(i64::from(!can_fail), i64::from(can_hold)))
}

fn can_be_equal(x: Itv, y: Itv) -> bool
    ensures { result ≡ can_be_equal x y }
{
    !x.meet(y).is_empty()
}

fn can_differ(x: Itv, y: Itv) -> bool
    ensures { result ≡ can_differ x y }
{
    !(x.lo == x.hi && y.lo == y.hi && x.lo == y.lo)
}

fn opposite(x: Itv) -> Itv
    ensures { result ≡ opposite x }
{
    Itv::between(-i64::from(x.hi), -i64::from(x.lo))
}

/// The opposite Booleans.
fn negation(x: Itv) -> Itv
    ensures { result ≡ negation x }
{
    Itv::between(1 - i64::from(x.hi), 1 - i64::from(x.lo))
}

/// The absolute values.
fn magnitude(x: Itv) -> Itv
    ensures { result ≡ magnitude x }
{
    if 0 <= x.lo {
        x
    } else if x.hi <= 0 {
        opposite(x)
    } else {
        Itv::between(0, i64::from((-x.lo).max(x.hi)))
    }
}

/// The squares of numbers that are not negative.
fn square(x: Itv) -> Answer
    ensures { result ≡ square x }
{
    Answer::clipped(Itv::NUMBERS, times(x.lo, x.lo), times(x.hi, x.hi))
}

/// Whether the numbers are odd.
fn parity(x: Itv) -> Itv
    ensures { result ≡ parity x }
{
    if x.lo != x.hi {
        return Itv::BOOLEANS;
    }
    let odd = i64::from(x.lo % 2 != 0);
    Itv::between(odd, odd)
}

fn successor(host: Itv, x: Itv) -> Answer
    ensures { result ≡ clipped host (x.lo +ℤ pos 1) (x.hi +ℤ pos 1) }
{
    Answer::clipped(host, i64::from(x.lo) + 1, i64::from(x.hi) + 1)
}

fn predecessor(host: Itv, x: Itv) -> Answer
    ensures { result ≡ clipped host (x.lo -ℤ pos 1) (x.hi -ℤ pos 1) }
{
    Answer::clipped(host, i64::from(x.lo) - 1, i64::from(x.hi) - 1)
}
