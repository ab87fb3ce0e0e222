//! What the operators give at intervals, and what that says of them at numbers.
ghost use Rattle.std.specs.Prelude.{IsTrue, ℤ, ◌≡◌};
ghost use Rattle.interval.specs.Intervals.{IsIn};
ghost use Rattle.interval.specs.Forward.{binary_answer, unary_answer, clip};
ghost use Rattle.interval.specs.Soundness.{HasBinaryResults, BinaryNeverFails, HasUnaryResults, UnaryNeverFails};

use crate::tables::{binary_answer, unary_answer};
use crate::{Answer, Itv};
use px_base::{BinOp, UnOp};

/// What `x op y` gives: an interval around the results at numbers of `x` and `y`, and whether none of them is an error.
///
/// Without numbers of an operand the value is empty and the check holds.
pub fn binary(op: BinOp, x: Itv, y: Itv) -> Answer
    ensures answer { result ≡ binary_answer op x y }
    ensures sound { HasBinaryResults op x y result.value }
    ensures safe { IsTrue result.holds → BinaryNeverFails op x y }
{
    binary_answer(op, x, y)
}

/// What `op` gives at `x`: an interval around the results at numbers of `x`, and whether none of them is an error.
///
/// `not` has results for Booleans alone, and its check always holds.
pub fn unary(op: UnOp, x: Itv) -> Answer
    ensures answer { result ≡ unary_answer op x }
    ensures sound { HasUnaryResults op x result.value }
    ensures safe { IsTrue result.holds → UnaryNeverFails op x }
{
    unary_answer(op, x)
}

/// The part of `x` in `range`, and whether that is all of it.
pub fn clip(x: Itv, range: Itv) -> Answer
    ensures answer { result ≡ clip x range }
    ensures sound { (z : ℤ) → IsIn x z → IsIn range z → IsIn result.value z }
    ensures safe { IsTrue result.holds → (z : ℤ) → IsIn x z → IsIn range z }
{
    Answer {
        value: x.meet(range),
        holds: x.is_within(range),
    }
}
