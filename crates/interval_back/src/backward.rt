//! What the operands of an operator can still be where its result is wanted in an interval.
ghost use Rattle.std.specs.Prelude.{◌≡◌, IsTrue};
ghost use Rattle.interval.specs.Intervals.{is_within};
ghost use Rattle.interval_back.specs.Backward.{left_back, right_back, operand_back};
ghost use Rattle.interval_back.specs.Kept.{KeepsLeft, KeepsRight, KeepsOperand, IsLogical, LeftIsPossible, RightIsPossible};

use crate::operands::{left_operand, operand, right_operand};
use interval::{Itv, binary, unary};
use px_base::{BinOp, UnOp};

/// The numbers of `x` and those of `y` that are left where `x op y` is wanted in an interval and makes no error.
///
/// Each answer has the numbers of its operand that can give a wanted result with some number of the other one. For `and`
/// and `or` these are all that it has; else it may have more. Both are empty where no result is wanted.
#[tactic(auto, unfolding(crate::specs::Backward::left_back, crate::specs::Backward::right_back))]
pub fn binary_back(op: BinOp, wanted: Itv, x: Itv, y: Itv) -> (Itv, Itv)
    ensures left { result.0 ≡ left_back op wanted x y }
    ensures right { result.1 ≡ right_back op wanted x y }
    ensures left_kept { KeepsLeft op wanted x y result.0 }
    ensures right_kept { KeepsRight op wanted x y result.1 }
    ensures left_possible { IsLogical op → LeftIsPossible op wanted y result.0 }
    ensures right_possible { IsLogical op → RightIsPossible op wanted x result.1 }
    ensures left_within { IsTrue (is_within result.0 x) }
    ensures right_within { IsTrue (is_within result.1 y) }
{
    let possible = wanted.meet(binary(op, x, y).value);
    if possible.is_empty() {
        return (Itv::EMPTY, Itv::EMPTY);
    }
    (
        left_operand(op, possible, x, y),
        right_operand(op, possible, x, y),
    )
}

/// The numbers of `x` that are left where `op` at `x` is wanted in an interval and makes no error.
#[tactic(auto, unfolding(crate::specs::Backward::operand_back))]
pub fn unary_back(op: UnOp, wanted: Itv, x: Itv) -> Itv
    ensures answer { result ≡ operand_back op wanted x }
    ensures kept { KeepsOperand op wanted x result }
    ensures within { IsTrue (is_within result x) }
{
    let possible = wanted.meet(unary(op, x).value);
    if possible.is_empty() {
        return Itv::EMPTY;
    }
    operand(op, possible, x)
}
