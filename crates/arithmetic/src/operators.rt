//! The operators over `i32`, exact by way of `i64`.
ghost use Rattle.std.specs.Prelude.{IfOk, ◌≡◌, ◌≤ℤ◌, ◌-ℤ◌, ◌*ℤ◌, pos, neg_ℤ};
ghost use Rattle.arithmetic.specs.Numbers.{IsNumber, is_number, is_boolean, truth, maxint};
ghost use Rattle.arithmetic.specs.Operators.{binary_result, unary_result, checked, quotient, modulus, negation};

use px_base::{BinOp, Kind, UnOp};

/// The greatest integer of the language, `maxint`; the least one is its negative.
const MAXINT: i64 = 2_147_483_647;

/// The result of `x op y`, or the kind of the error that it is. A Boolean is 0 or 1.
pub fn binary_result(op: BinOp, x: i32, y: i32) -> Result<i32, Kind>
    requires left { IsNumber x }
    requires right { IsNumber y }
    ensures value { result ≡ binary_result op x y }
    ensures number { IfOk result IsNumber }
{
    match op {
        BinOp::Add => number(i64::from(x) + i64::from(y), Kind::Overflow),
        BinOp::Sub => difference(x, y),
        BinOp::Mul => product(x, y),
        BinOp::Div => quotient(x, y),
        BinOp::Mod => modulus(x, y),
        BinOp::And => Ok(x.min(y)),
        BinOp::Or => Ok(x.max(y)),
        BinOp::Eq => Ok(truth(x == y)),
        BinOp::Ne => Ok(truth(x != y)),
        BinOp::Lt => Ok(truth(x < y)),
        BinOp::Le => Ok(truth(x <= y)),
        BinOp::Gt => Ok(truth(x > y)),
        BinOp::Ge => Ok(truth(x >= y)),
    }
}

/// The result of `op` at `x`, or the kind of the error that it is.
pub fn unary_result(op: UnOp, x: i32) -> Result<i32, Kind>
    requires { IsNumber x }
    ensures value { result ≡ unary_result op x }
    ensures number { IfOk result IsNumber }
{
    match op {
        UnOp::Neg => Ok(-x),
        UnOp::Not => negation(x),
        UnOp::Abs => Ok(x.abs()),
        UnOp::Sqr => product(x, x),
        UnOp::Odd => Ok(truth(x % 2 != 0)),
        UnOp::SuccInt => number(i64::from(x) + 1, Kind::NoNeighbour),
        UnOp::PredInt => number(i64::from(x) - 1, Kind::NoNeighbour),
        UnOp::SuccBool => boolean(i64::from(x) + 1, Kind::NoNeighbour),
        UnOp::PredBool => boolean(i64::from(x) - 1, Kind::NoNeighbour),
        UnOp::OrdOf => Ok(x),
    }
}

/// `z` where it is an integer of the language, and else the error.
fn number(z: i64, kind: Kind) -> Result<i32, Kind>
    ensures { result ≡ checked is_number kind z }
{
    if -MAXINT <= z && z <= MAXINT {
        Ok(z as i32)
    } else {
        Err(kind)
    }
}

/// `z` where it is 0 or 1, and else the error.
fn boolean(z: i64, kind: Kind) -> Result<i32, Kind>
    ensures { result ≡ checked is_boolean kind z }
{
    if 0 <= z && z <= 1 {
        Ok(z as i32)
    } else {
        Err(kind)
    }
}

/// `x - y`.
fn difference(x: i32, y: i32) -> Result<i32, Kind>
    ensures { result ≡ checked is_number Kind.Overflow (x -ℤ y) }
{
    number(i64::from(x) - i64::from(y), Kind::Overflow)
}

/// `x * y`.
fn product(x: i32, y: i32) -> Result<i32, Kind>
    ensures { result ≡ checked is_number Kind.Overflow (x *ℤ y) }
{
    number(i64::from(x) * i64::from(y), Kind::Overflow)
}

/// `x div y`, truncated towards zero.
fn quotient(x: i32, y: i32) -> Result<i32, Kind>
    requires left { IsNumber x }
    requires right { IsNumber y }
    ensures { result ≡ quotient x y }
{
    if y == 0 {
        Err(Kind::DivisionByZero)
    } else {
        Ok(x / y)
    }
}

/// `x mod y`, from 0 to `y - 1`.
fn modulus(x: i32, y: i32) -> Result<i32, Kind>
    requires left { IsNumber x }
    requires right { IsNumber y }
    ensures { result ≡ modulus x y }
{
    if y > 0 {
        Ok(x.rem_euclid(y))
    } else {
        Err(Kind::ModulusNotPositive)
    }
}

/// The opposite Boolean; another number has none.
fn negation(x: i32) -> Result<i32, Kind>
    ensures { result ≡ negation x }
{
    if x == 0 || x == 1 {
        Ok(1 - x)
    } else {
        Err(Kind::NoResult)
    }
}

/// The number of a Boolean.
fn truth(b: bool) -> i32
    ensures { result ≡ truth b }
{
    i32::from(b)
}

#[cfg(test)]
mod tests {
    use super::*;

    const MAX: i32 = i32::MAX;

    /// The examples of ISO 7185, 6.7.2.2, and the ends of the range.
    #[test]
    fn of_two_operands(rt: HostRuntime) {
        let cases = [
            (BinOp::Add, MAX, 0, Ok(MAX)),
            (BinOp::Add, MAX, 1, Err(Kind::Overflow)),
            (BinOp::Sub, -MAX, 0, Ok(-MAX)),
            (BinOp::Sub, -MAX, 1, Err(Kind::Overflow)),
            (BinOp::Mul, 46340, 46340, Ok(2_147_395_600)),
            (BinOp::Mul, -46341, 46341, Err(Kind::Overflow)),
            (BinOp::Mul, MAX, -1, Ok(-MAX)),
            (BinOp::Div, -7, 2, Ok(-3)),
            (BinOp::Div, 7, -2, Ok(-3)),
            (BinOp::Div, -MAX, -1, Ok(MAX)),
            (BinOp::Div, 1, 0, Err(Kind::DivisionByZero)),
            (BinOp::Mod, 7, 3, Ok(1)),
            (BinOp::Mod, -7, 3, Ok(2)),
            (BinOp::Mod, -6, 3, Ok(0)),
            (BinOp::Mod, 7, 0, Err(Kind::ModulusNotPositive)),
            (BinOp::Mod, 7, -3, Err(Kind::ModulusNotPositive)),
            (BinOp::And, 1, 0, Ok(0)),
            (BinOp::Or, 1, 0, Ok(1)),
            (BinOp::Eq, 3, 3, Ok(1)),
            (BinOp::Ne, 3, 3, Ok(0)),
            (BinOp::Lt, -1, 0, Ok(1)),
            (BinOp::Le, 0, 0, Ok(1)),
            (BinOp::Gt, 0, 0, Ok(0)),
            (BinOp::Ge, -1, 0, Ok(0)),
        ];
        for (op, x, y, expected) in cases {
            assert!(rt; x != i32::MIN && y != i32::MIN);
            assert_eq!(rt; binary_result(op, x, y), expected, "{x} {op:?} {y}");
        }
    }

    #[test]
    fn of_one_operand(rt: HostRuntime) {
        let cases = [
            (UnOp::Neg, -MAX, Ok(MAX)),
            (UnOp::Not, 0, Ok(1)),
            (UnOp::Not, 1, Ok(0)),
            (UnOp::Not, 2, Err(Kind::NoResult)),
            (UnOp::Abs, -5, Ok(5)),
            (UnOp::Sqr, -46340, Ok(2_147_395_600)),
            (UnOp::Sqr, 46341, Err(Kind::Overflow)),
            (UnOp::Odd, -3, Ok(1)),
            (UnOp::Odd, -4, Ok(0)),
            (UnOp::SuccInt, MAX, Err(Kind::NoNeighbour)),
            (UnOp::SuccInt, -1, Ok(0)),
            (UnOp::PredInt, -MAX, Err(Kind::NoNeighbour)),
            (UnOp::PredInt, 0, Ok(-1)),
            (UnOp::SuccBool, 0, Ok(1)),
            (UnOp::SuccBool, 1, Err(Kind::NoNeighbour)),
            (UnOp::PredBool, 1, Ok(0)),
            (UnOp::PredBool, 0, Err(Kind::NoNeighbour)),
            (UnOp::OrdOf, 7, Ok(7)),
        ];
        for (op, x, expected) in cases {
            assert!(rt; x != i32::MIN);
            assert_eq!(rt; unary_result(op, x), expected, "{op:?} {x}");
        }
    }
}
