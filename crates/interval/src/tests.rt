//! The tables against the ends of the range, and against plain enumeration of the numbers of small intervals.
use crate::{Answer, Itv, Val, binary, clip, unary};
use arithmetic::{binary_result, unary_result};
use lattice::Lattice;
use px_base::{BinOp, Kind, UnOp};
use std::alloc::{AllocError, Global};
use std::test::Fail;

const MAX: i64 = 2_147_483_647;

const BINARY: [BinOp; 13] = [
    BinOp::Add,
    BinOp::Sub,
    BinOp::Mul,
    BinOp::Div,
    BinOp::Mod,
    BinOp::And,
    BinOp::Or,
    BinOp::Eq,
    BinOp::Ne,
    BinOp::Lt,
    BinOp::Le,
    BinOp::Gt,
    BinOp::Ge,
];

const UNARY: [UnOp; 10] = [
    UnOp::Neg,
    UnOp::Not,
    UnOp::Abs,
    UnOp::Sqr,
    UnOp::Odd,
    UnOp::SuccInt,
    UnOp::PredInt,
    UnOp::SuccBool,
    UnOp::PredBool,
    UnOp::OrdOf,
];

fn answer(lo: i64, hi: i64, holds: bool) -> Answer {
    Answer {
        value: Itv::between(lo, hi),
        holds,
    }
}

#[test]
fn of_two_operands(rt: HostRuntime) {
    // the operator, the ends of both operands, and the value's ends with whether the check holds
    let cases = [
        (BinOp::Div, (10, 20), (-1, 2), (-20, 20, false)),
        (BinOp::Mod, (-7, 7), (3, 3), (0, 2, true)),
        (BinOp::Add, (1, MAX), (1, 1), (2, MAX, false)),
        // without numbers there is no error
        (BinOp::Add, (1, 0), (MAX, MAX), (1, 0, true)),
        (BinOp::Div, (1, 1), (1, 0), (1, 0, true)),
        // the ends of the range
        (BinOp::Add, (MAX, MAX), (1, 1), (1, 0, false)),
        (BinOp::Add, (0, MAX), (0, 0), (0, MAX, true)),
        (BinOp::Sub, (-MAX, 0), (1, 1), (-MAX, -1, false)),
        (BinOp::Mul, (-MAX, MAX), (-MAX, MAX), (-MAX, MAX, false)),
        (
            BinOp::Mul,
            (46340, 46340),
            (46340, 46341),
            (2_147_395_600, 2_147_441_940, true),
        ),
        (BinOp::Mul, (-46341, -46341), (46341, 46341), (1, 0, false)),
        // divisors around 0
        (BinOp::Div, (-MAX, MAX), (-1, -1), (-MAX, MAX, true)),
        (BinOp::Div, (-MAX, MAX), (1, 1), (-MAX, MAX, true)),
        (BinOp::Div, (-7, 7), (0, 0), (1, 0, false)),
        (BinOp::Div, (7, 9), (0, 2), (3, 9, false)),
        (BinOp::Div, (-9, -7), (-3, -2), (2, 4, true)),
        (BinOp::Div, (7, 7), (-3, 3), (-7, 7, false)),
        // one floor quotient, several, and moduli that aren't positive
        (BinOp::Mod, (-5, -4), (3, 3), (1, 2, true)),
        (BinOp::Mod, (7, 8), (3, 3), (1, 2, true)),
        (BinOp::Mod, (8, 9), (3, 3), (0, 2, true)),
        (BinOp::Mod, (0, 2), (3, 9), (0, 2, true)),
        (BinOp::Mod, (0, 5), (3, 9), (0, 5, true)),
        (BinOp::Mod, (-1, 5), (-2, 9), (0, 8, false)),
        (BinOp::Mod, (5, 5), (-3, 0), (1, 0, false)),
        (BinOp::Mod, (-MAX, MAX), (MAX, MAX), (0, MAX - 1, true)),
        // relations with one number a side
        (BinOp::Eq, (3, 3), (3, 3), (1, 1, true)),
        (BinOp::Ne, (3, 3), (3, 4), (0, 1, true)),
        (BinOp::Lt, (1, 3), (3, 3), (0, 1, true)),
        (BinOp::Le, (1, 3), (3, 3), (1, 1, true)),
        (BinOp::Gt, (1, 3), (3, 3), (0, 0, true)),
        (BinOp::Ge, (1, 2), (3, 3), (0, 0, true)),
    ];
    for (op, x, y, value) in cases {
        let found = binary(op, Itv::between(x.0, x.1), Itv::between(y.0, y.1));
        let expected = answer(value.0, value.1, value.2);
        assert_eq!(rt;
            found,
            expected,
            "{op:?} at {}..{} and {}..{}",
            x.0, x.1, y.0, y.1
        );
    }
}

#[test]
fn of_one_operand(rt: HostRuntime) {
    let cases = [
        (UnOp::Neg, (-MAX, 5), (-5, MAX, true)),
        (UnOp::Not, (0, 1), (0, 1, true)),
        (UnOp::Not, (-MAX, -MAX), (1, 0, true)),
        (UnOp::Abs, (-MAX, 3), (0, MAX, true)),
        (UnOp::Abs, (-5, -3), (3, 5, true)),
        (UnOp::Sqr, (-46340, 2), (0, 2_147_395_600, true)),
        (UnOp::Sqr, (-46341, 2), (0, MAX, false)),
        (UnOp::Sqr, (46341, 46341), (1, 0, false)),
        (UnOp::Odd, (-3, -3), (1, 1, true)),
        (UnOp::Odd, (2, 3), (0, 1, true)),
        (UnOp::SuccInt, (3, MAX), (4, MAX, false)),
        (UnOp::PredInt, (-MAX, -MAX), (1, 0, false)),
        (UnOp::SuccBool, (0, 0), (1, 1, true)),
        (UnOp::SuccBool, (0, 1), (1, 1, false)),
        (UnOp::PredBool, (0, 1), (0, 0, false)),
        (UnOp::OrdOf, (1, 0), (1, 0, true)),
    ];
    for (op, x, value) in cases {
        let found = unary(op, Itv::between(x.0, x.1));
        let expected = answer(value.0, value.1, value.2);
        assert_eq!(rt; found, expected, "{op:?} at {}..{}", x.0, x.1);
    }
}

#[test]
fn of_a_range(rt: HostRuntime) {
    let cases = [
        ((1, 9), (3, 5), (3, 5, false)),
        ((4, 5), (3, 5), (4, 5, true)),
        ((1, 0), (3, 5), (1, 0, true)),
        ((1, 9), (1, 0), (1, 0, false)),
    ];
    for (x, range, value) in cases {
        let found = clip(Itv::between(x.0, x.1), Itv::between(range.0, range.1));
        assert_eq!(rt;
            found,
            answer(value.0, value.1, value.2),
            "{}..{}",
            x.0,
            x.1
        );
    }
}

/// The value of a cell that is defined, with the numbers from `lo` to `hi`.
fn defined(lo: i64, hi: i64) -> Val {
    Val {
        undef: false,
        itv: Itv::between(lo, hi),
    }
}

#[test]
fn widens_by_steps(rt: HostRuntime) {
    let limit = defined(-10, 10);
    // x, y, and x widened by y within -10..10
    let cases = [
        // to the next step, which may be the bound itself
        ((1, 1), (1, 2), (1, 5)),
        ((1, 1), (1, 5), (1, 5)),
        ((1, 1), (0, 1), (0, 1)),
        ((1, 1), (-1, 1), (-5, 1)),
        // to the limit, where no step comes before its bound
        ((1, 1), (1, 6), (1, 10)),
        ((1, 1), (-6, 1), (-10, 1)),
        // both bounds, and none
        ((1, 1), (-4, 6), (-5, 10)),
        ((1, 3), (2, 2), (1, 3)),
        // without numbers on one side
        ((1, 0), (2, 2), (2, 2)),
        ((2, 2), (1, 0), (2, 2)),
    ];
    for (x, y, wider) in cases {
        let mut found = defined(x.0, x.1);
        let y = defined(y.0, y.1);
        assert!(rt; found.leq(&limit) && y.leq(&limit));
        assert_eq!(rt;
            found.widen_from(&y, &limit, &[-5, 0, 5, 10]),
            x != wider,
            "{x:?} by {y:?}"
        );
        assert_eq!(rt; found, defined(wider.0, wider.1), "{x:?} by {y:?}");
    }
}

/// What plain enumeration of operands finds: the least interval around the results, and whether there is an error.
#[derive(Clone, Copy)]
struct Found {
    hull: Itv,
    fails: bool,
}

impl Found {
    const NOTHING: Found = Found {
        hull: Itv::EMPTY,
        fails: false,
    };

    fn take(&mut self, outcome: Result<i32, Kind>) {
        match outcome {
            Ok(z) => self.hull = self.hull.join(Itv::between(i64::from(z), i64::from(z))),
            Err(_) => self.fails = true,
        }
    }
}

fn enumerated_of_two(op: BinOp, x: Itv, y: Itv) -> Found {
    let mut found = Found::NOTHING;
    for a in x.lo..=x.hi {
        for b in y.lo..=y.hi {
            found.take(binary_result(op, a, b));
        }
    }
    found
}

fn enumerated_of_one(op: UnOp, x: Itv) -> Found {
    let mut found = Found::NOTHING;
    for a in x.lo..=x.hi {
        found.take(unary_result(op, a));
    }
    found
}

/// The intervals with ends from -4 to 4, and the empty one.
fn small_intervals(alloc: Global) -> Result<Vec<Itv>, AllocError> {
    let mut all = Vec::new(alloc);
    all.push(Itv::EMPTY)?;
    for lo in -4..=4 {
        for hi in lo..=4 {
            all.push(Itv::between(lo, hi))?;
        }
    }
    Ok(all)
}

/// Every table but that of `mod` gives the least interval around the results. Small numbers don't overflow, so that
/// each check holds exactly where no numbers make an error.
#[test]
fn of_small_intervals(rt: HostRuntime) -> Result<(), Fail> {
    let all = small_intervals(rt.alloc())?;
    for op in BINARY {
        for &x in all.iter() {
            for &y in all.iter() {
                let found = binary(op, x, y);
                let expected = enumerated_of_two(op, x, y);
                assert!(rt;
                    expected.hull.is_within(found.value),
                    "{op:?} at {x:?} and {y:?}"
                );
                assert!(rt;
                    op == BinOp::Mod || expected.hull == found.value,
                    "{op:?} at {x:?} and {y:?}"
                );
                assert!(rt; found.holds != expected.fails, "{op:?} at {x:?} and {y:?}");
            }
        }
    }
    Ok(())
}

/// `not` is for Booleans: at other numbers it has no result, and no check guards against that.
#[test]
fn of_a_small_interval(rt: HostRuntime) -> Result<(), Fail> {
    let all = small_intervals(rt.alloc())?;
    for op in UNARY {
        for &x in all.iter() {
            let found = unary(op, x);
            let expected = enumerated_of_one(op, x);
            let guarded = op != UnOp::Not || x.is_within(Itv::between(0, 1));
            assert!(rt; expected.hull.is_within(found.value), "{op:?} at {x:?}");
            assert!(rt; !guarded || expected.hull == found.value, "{op:?} at {x:?}");
            assert!(rt;
                found.holds != (guarded && expected.fails),
                "{op:?} at {x:?}"
            );
        }
    }
    Ok(())
}
