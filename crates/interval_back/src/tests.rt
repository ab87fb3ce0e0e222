//! The inverses against values from outside, and against plain enumeration of the numbers of small intervals.
use crate::{binary_back, unary_back};
use arithmetic::{binary_result, unary_result};
use interval::Itv;
use px_base::{BinOp, Kind, UnOp};
use std::alloc::{AllocError, Global};
use std::test::Fail;

const MAX: i64 = 2_147_483_647;

fn itv(ends: (i64, i64)) -> Itv {
    Itv::between(ends.0, ends.1)
}

#[test]
fn of_two_operands(rt: HostRuntime) {
    // the operator, the wanted interval, both operands, and what is left of them
    let cases = [
        (BinOp::Mul, (6, 6), (2, 3), (0, 10), (2, 3), (2, 3)),
        (BinOp::Ne, (1, 1), (1, 100), (100, 100), (1, 99), (100, 100)),
        // sums and differences
        (BinOp::Add, (10, 12), (0, 9), (0, 5), (5, 9), (1, 5)),
        (
            BinOp::Add,
            (MAX, MAX),
            (-MAX, MAX),
            (0, 1),
            (MAX - 1, MAX),
            (0, 1),
        ),
        (BinOp::Sub, (5, 9), (0, 10), (2, 4), (7, 10), (2, 4)),
        (BinOp::Sub, (8, 9), (0, 10), (0, 4), (8, 10), (0, 2)),
        // any factor gives 0 where the other one can be 0
        (BinOp::Mul, (0, 6), (-9, 9), (0, 2), (-9, 9), (0, 2)),
        (BinOp::Mul, (4, 6), (-9, 9), (-2, 2), (-6, 6), (-2, 2)),
        (
            BinOp::Mul,
            (MAX, MAX),
            (2, MAX),
            (1, 3),
            (MAX / 3, MAX),
            (1, 3),
        ),
        // a quotient is rounded towards zero
        (BinOp::Div, (3, 3), (0, 100), (10, 10), (21, 39), (10, 10)),
        (BinOp::Div, (0, 0), (-100, 100), (-3, 0), (-2, 2), (-3, -1)),
        (BinOp::Div, (1, 9), (-5, 5), (0, 3), (-2, 5), (1, 3)),
        (BinOp::Div, (1, 9), (1, 5), (-2, 2), (1, 5), (-2, 2)),
        (BinOp::Div, (1, 1), (5, 5), (0, 0), (1, 0), (1, 0)),
        // remainders below each modulus are the numbers themselves
        (BinOp::Mod, (2, 4), (0, 6), (7, 9), (2, 4), (7, 9)),
        (BinOp::Mod, (2, 4), (-1, 6), (7, 9), (-1, 6), (7, 9)),
        (BinOp::Mod, (3, 9), (0, 50), (-5, 20), (0, 50), (4, 20)),
        // truth
        (BinOp::And, (1, 1), (0, 1), (0, 1), (1, 1), (1, 1)),
        (BinOp::And, (0, 0), (0, 1), (1, 1), (0, 0), (1, 1)),
        (BinOp::And, (0, 0), (0, 1), (0, 1), (0, 1), (0, 1)),
        (BinOp::Or, (0, 0), (0, 1), (0, 1), (0, 0), (0, 0)),
        (BinOp::Or, (1, 1), (0, 0), (0, 1), (0, 0), (1, 1)),
        (BinOp::Or, (1, 1), (0, 1), (0, 1), (0, 1), (0, 1)),
        (BinOp::Eq, (1, 1), (0, 5), (3, 9), (3, 5), (3, 5)),
        (BinOp::Eq, (0, 0), (3, 3), (3, 9), (3, 3), (4, 9)),
        (BinOp::Ne, (1, 1), (1, 9), (5, 5), (1, 9), (5, 5)),
        (BinOp::Lt, (1, 1), (0, 9), (2, 5), (0, 4), (2, 5)),
        (BinOp::Lt, (0, 0), (0, 3), (2, 5), (2, 3), (2, 3)),
        (BinOp::Le, (1, 1), (3, 9), (2, 5), (3, 5), (3, 5)),
        (BinOp::Gt, (1, 1), (0, 3), (2, 5), (3, 3), (2, 2)),
        (BinOp::Ge, (1, 1), (0, 3), (2, 5), (2, 3), (2, 3)),
        (BinOp::Ge, (0, 1), (0, 3), (2, 5), (0, 3), (2, 5)),
        // nothing is left without operands or where no result is wanted
        (BinOp::Add, (0, 9), (1, 0), (2, 5), (1, 0), (1, 0)),
        (BinOp::Add, (20, 30), (0, 3), (2, 5), (1, 0), (1, 0)),
        (BinOp::Lt, (1, 1), (5, 9), (2, 5), (1, 0), (1, 0)),
        (BinOp::Mod, (1, 0), (5, 9), (2, 5), (1, 0), (1, 0)),
    ];
    for (op, wanted, x, y, left, right) in cases {
        let found = binary_back(op, itv(wanted), itv(x), itv(y));
        assert!(rt; found.0 == itv(left), "{op:?} at {}..{}: left", x.0, x.1);
        assert!(rt; found.1 == itv(right), "{op:?} at {}..{}: right", x.0, x.1);
    }
}

#[test]
fn of_one_operand(rt: HostRuntime) {
    let cases = [
        (UnOp::Sqr, (10, 30), (-9, 9), (-5, 5)),
        (UnOp::Sqr, (10, 30), (0, 9), (4, 5)),
        (UnOp::Sqr, (16, 25), (0, 9), (4, 5)),
        (UnOp::Sqr, (17, 24), (0, 9), (1, 0)),
        (UnOp::Sqr, (0, 0), (-9, 9), (0, 0)),
        (UnOp::Sqr, (2_147_395_600, MAX), (0, MAX), (46340, 46340)),
        (UnOp::Sqr, (2_147_395_599, MAX), (0, MAX), (46340, 46340)),
        (
            UnOp::Sqr,
            (2_147_302_921, 2_147_395_599),
            (-MAX, 0),
            (-46339, -46339),
        ),
        (UnOp::Neg, (-3, 5), (-9, 2), (-5, 2)),
        (UnOp::Abs, (3, 5), (-9, 9), (-5, 5)),
        (UnOp::Abs, (3, 5), (-4, 2), (-4, -3)),
        (UnOp::Abs, (MAX, MAX), (-MAX, 0), (-MAX, -MAX)),
        (UnOp::Odd, (1, 1), (2, 8), (3, 7)),
        (UnOp::Odd, (0, 0), (-3, 8), (-2, 8)),
        (UnOp::Odd, (0, 1), (2, 8), (2, 8)),
        (UnOp::Not, (1, 1), (0, 1), (0, 0)),
        (UnOp::SuccInt, (3, 5), (0, 9), (2, 4)),
        (UnOp::SuccInt, (-MAX, MAX), (5, MAX), (5, MAX - 1)),
        (UnOp::PredInt, (3, 5), (0, 9), (4, 6)),
        (UnOp::SuccBool, (0, 1), (0, 1), (0, 0)),
        (UnOp::PredBool, (0, 1), (0, 1), (1, 1)),
        (UnOp::OrdOf, (1, 5), (0, 3), (1, 3)),
        (UnOp::Abs, (-9, -1), (0, 3), (1, 0)),
        (UnOp::Neg, (0, 1), (1, 0), (1, 0)),
    ];
    for (op, wanted, x, left) in cases {
        let found = unary_back(op, itv(wanted), itv(x));
        assert!(rt; found == itv(left), "{op:?} at {}..{}", x.0, x.1);
    }
}

/// The least interval around the numbers that plain enumeration found so far.
#[derive(Clone, Copy)]
struct Found {
    hull: Itv,
}

impl Found {
    const NOTHING: Found = Found { hull: Itv::EMPTY };

    fn take(&mut self, z: i32) {
        self.hull = self.hull.join(Itv::between(i64::from(z), i64::from(z)));
    }
}

/// The least intervals around the operands that give a wanted result.
fn enumerated_of_two(op: BinOp, wanted: Itv, x: Itv, y: Itv) -> (Itv, Itv) {
    let mut left = Found::NOTHING;
    let mut right = Found::NOTHING;
    for a in x.lo..=x.hi {
        for b in y.lo..=y.hi {
            if gives(binary_result(op, a, b), wanted) {
                left.take(a);
                right.take(b);
            }
        }
    }
    (left.hull, right.hull)
}

fn enumerated_of_one(op: UnOp, wanted: Itv, x: Itv) -> Itv {
    let mut left = Found::NOTHING;
    for a in x.lo..=x.hi {
        if gives(unary_result(op, a), wanted) {
            left.take(a);
        }
    }
    left.hull
}

fn gives(outcome: Result<i32, Kind>, wanted: Itv) -> bool {
    match outcome {
        Ok(z) => wanted.contains(z),
        Err(_) => false,
    }
}

/// The intervals with ends from -3 to 3, and the empty one.
fn small_intervals(alloc: Global) -> Result<Vec<Itv>, AllocError> {
    let mut all = Vec::new(alloc);
    all.push(Itv::EMPTY)?;
    for lo in -3..=3 {
        for hi in lo..=3 {
            all.push(Itv::between(lo, hi))?;
        }
    }
    Ok(all)
}

/// Every answer has the possible operands and lies within the operand, and that of these operators is no wider than it
/// must be.
#[test]
fn of_small_intervals(rt: HostRuntime) -> Result<(), Fail> {
    let all = small_intervals(rt.alloc())?;
    let least = [
        BinOp::Add,
        BinOp::Sub,
        BinOp::And,
        BinOp::Or,
        BinOp::Eq,
        BinOp::Ne,
        BinOp::Lt,
        BinOp::Le,
        BinOp::Gt,
        BinOp::Ge,
    ];
    for &wanted in all.iter() {
        for &x in all.iter() {
            for &y in all.iter() {
                for op in least {
                    let found = binary_back(op, wanted, x, y);
                    let expected = enumerated_of_two(op, wanted, x, y);
                    assert!(rt;
                        found.0 == expected.0,
                        "{op:?} for {wanted:?} at {x:?} and {y:?}"
                    );
                    assert!(rt;
                        found.1 == expected.1,
                        "{op:?} for {wanted:?} at {x:?} and {y:?}"
                    );
                }
                for op in [BinOp::Mul, BinOp::Div, BinOp::Mod] {
                    let found = binary_back(op, wanted, x, y);
                    let expected = enumerated_of_two(op, wanted, x, y);
                    assert!(rt;
                        expected.0.is_within(found.0) && found.0.is_within(x),
                        "{op:?} for {wanted:?} at {x:?} and {y:?}"
                    );
                    assert!(rt;
                        expected.1.is_within(found.1) && found.1.is_within(y),
                        "{op:?} for {wanted:?} at {x:?} and {y:?}"
                    );
                }
            }
        }
    }
    Ok(())
}

/// `not` has a result at Booleans alone.
#[test]
fn of_a_small_interval(rt: HostRuntime) -> Result<(), Fail> {
    let all = small_intervals(rt.alloc())?;
    let least = [
        UnOp::Neg,
        UnOp::Abs,
        UnOp::Sqr,
        UnOp::Odd,
        UnOp::SuccInt,
        UnOp::PredInt,
        UnOp::SuccBool,
        UnOp::PredBool,
        UnOp::OrdOf,
    ];
    for &wanted in all.iter() {
        for &x in all.iter() {
            for op in least {
                let found = unary_back(op, wanted, x);
                assert!(rt;
                    found == enumerated_of_one(op, wanted, x),
                    "{op:?} for {wanted:?} at {x:?}"
                );
            }
            let found = unary_back(UnOp::Not, wanted, x);
            assert!(rt;
                enumerated_of_one(UnOp::Not, wanted, x).is_within(found),
                "not for {wanted:?} at {x:?}"
            );
        }
    }
    Ok(())
}
