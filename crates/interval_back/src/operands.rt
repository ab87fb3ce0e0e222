//! The operands of each operator, where the wanted results are among the possible ones and aren't empty.
ghost use Rattle.std.specs.Prelude.{◌≡◌};
ghost use Rattle.interval_back.specs.Backward.{left_operand, right_operand, operand};
ghost use Rattle.interval_back.specs.Kept.{KeepsLeft, KeepsRight};

use crate::numbers::{
    addends, dividends, divisors, factors, minuends, moduli, reduced, subtrahends,
};
use crate::relation::Relation;
use crate::signs::{
    negations, of_magnitude, of_parity, opposites, predecessors, square_roots, successors,
};
use crate::truth::{conjuncts, decided, disjuncts};
use interval::Itv;
use px_base::{BinOp, UnOp};

/// The numbers of `x` that are kept for results in `w`.
pub fn left_operand(op: BinOp, w: Itv, x: Itv, y: Itv) -> Itv
    ensures value { result ≡ left_operand op w x y }
    ensures kept { KeepsLeft op w x y result }
{
    match op {
        BinOp::Add => addends(w, x, y),
        BinOp::Sub => minuends(w, x, y),
        BinOp::Mul => factors(w, x, y),
        BinOp::Div => dividends(w, x, y),
        BinOp::Mod => reduced(w, x, y),
        BinOp::And => conjuncts(w, x, y),
        BinOp::Or => disjuncts(w, x, y),
        BinOp::Eq => decided(Relation::Equal, w, x, y),
        BinOp::Ne => decided(Relation::Different, w, x, y),
        BinOp::Lt => decided(Relation::Less, w, x, y),
        BinOp::Le => decided(Relation::AtMost, w, x, y),
        BinOp::Gt => decided(Relation::Greater, w, x, y),
        BinOp::Ge => decided(Relation::AtLeast, w, x, y),
    }
}

/// The numbers of `y` that are kept for results in `w`.
pub fn right_operand(op: BinOp, w: Itv, x: Itv, y: Itv) -> Itv
    ensures value { result ≡ right_operand op w x y }
    ensures kept { KeepsRight op w x y result }
{
    match op {
        BinOp::Add => addends(w, y, x),
        BinOp::Sub => subtrahends(w, x, y),
        BinOp::Mul => factors(w, y, x),
        BinOp::Div => divisors(y),
        BinOp::Mod => moduli(w, y),
        BinOp::And => conjuncts(w, y, x),
        BinOp::Or => disjuncts(w, y, x),
        BinOp::Eq => decided(Relation::Equal, w, y, x),
        BinOp::Ne => decided(Relation::Different, w, y, x),
        BinOp::Lt => decided(Relation::Greater, w, y, x),
        BinOp::Le => decided(Relation::AtLeast, w, y, x),
        BinOp::Gt => decided(Relation::Less, w, y, x),
        BinOp::Ge => decided(Relation::AtMost, w, y, x),
    }
}

/// The numbers of `x` that are kept for results in `w`.
pub fn operand(op: UnOp, w: Itv, x: Itv) -> Itv
    ensures { result ≡ operand op w x }
{
    match op {
        UnOp::Neg => opposites(w, x),
        UnOp::Not => negations(w, x),
        UnOp::Abs => of_magnitude(w, x),
        UnOp::Sqr => square_roots(w, x),
        UnOp::Odd => of_parity(w, x),
        UnOp::SuccInt | UnOp::SuccBool => predecessors(w, x),
        UnOp::PredInt | UnOp::PredBool => successors(w, x),
        UnOp::OrdOf => w.meet(x),
    }
}
