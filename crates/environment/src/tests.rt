ghost use Rattle.std.specs.Prelude.{◌≡◌};

use crate::Env;
use interval::{Itv, Val};
use lattice::Lattice;
use std::alloc::{AllocError, Global};
use std::mem::size_of;
use std::test::Fail;

/// The values of two cells, or nothing where the environment is unreachable.
type Two = Option<(Val, Val)>;

/// Two environments within a limit, and what a call leaves of the first.
#[derive(Clone, Copy)]
struct Case {
    x: Two,
    y: Two,
    limit: Two,
    result: Two,
    /// Whether the call answers true.
    answer: bool,
}

/// The numbers from `lo` to `hi`, of which there are none where these are crossed.
fn numbers(lo: i64, hi: i64) -> Val {
    Val {
        undef: false,
        itv: Itv::between(lo, hi),
    }
}

/// The same, or undefined.
fn maybe(lo: i64, hi: i64) -> Val {
    Val {
        undef: true,
        itv: Itv::between(lo, hi),
    }
}

fn put(env: &mut Env, cell: u32, v: Val) {
    if env.reachable() && cell < env.cells() {
        env.set(cell, v);
    }
}

fn at(env: &Env, cell: u32) -> Option<Val> {
    if env.reachable() && cell < env.cells() {
        Some(env.get(cell))
    } else {
        None
    }
}

fn two(alloc: Global, cells: Two) -> Result<Env, AllocError> {
    let mut env = Env::new(alloc, 2, 2)?;
    if let Some((first, second)) = cells {
        env.start();
        put(&mut env, 0, first);
        put(&mut env, 1, second);
    }
    Ok(env)
}

fn holds(env: &Env, cells: Two) -> bool {
    match cells {
        Some((first, second)) => at(env, 0) == Some(first) && at(env, 1) == Some(second),
        None => !env.reachable(),
    }
}

/// What a call through the bound leaves.
fn joined<L: Lattice>(x: &mut L, y: &L)
    requires { L.ops.shape (L.value x.old) ≡ L.ops.shape (L.value y.now) }
    ensures { L.value x.new ≡ L.ops.join (L.value x.old) (L.value y.now) }
{
    x.join_from(y);
}

#[test]
fn joins_and_meets(rt: HostRuntime) -> Result<(), Fail> {
    let low = Some((numbers(1, 3), maybe(0, 0)));
    let high = Some((numbers(2, 9), numbers(0, 5)));
    let other = Some((numbers(1, 3), numbers(7, 8)));
    // x, y, the join, the meet, x below y
    let cases = [
        (None, None, None, None, true),
        (None, low, low, None, true),
        (low, None, low, None, false),
        (low, low, low, low, true),
        (
            low,
            high,
            Some((numbers(1, 9), maybe(0, 5))),
            Some((numbers(2, 3), numbers(0, 0))),
            false,
        ),
        // the last cell has nothing left
        (low, other, Some((numbers(1, 3), maybe(0, 8))), None, false),
        // the first cell is below, and the second one is not
        (
            Some((numbers(2, 2), maybe(0, 0))),
            high,
            Some((numbers(2, 9), maybe(0, 5))),
            Some((numbers(2, 2), numbers(0, 0))),
            false,
        ),
    ];
    for (first, second, join, meet, below) in cases {
        let y = two(rt.alloc(), second)?;
        let mut x = two(rt.alloc(), first)?;
        assert_eq!(rt; x.cells(), y.cells());
        assert_eq!(rt; x.leq(&y), below);
        joined(&mut x, &y);
        assert!(rt; holds(&x, join));
        let mut x = two(rt.alloc(), first)?;
        assert_eq!(rt; x.cells(), y.cells());
        x.meet_from(&y);
        assert!(rt; holds(&x, meet));
    }
    Ok(())
}

#[test]
fn widens_by_steps(rt: HostRuntime) -> Result<(), Fail> {
    let limit = Some((maybe(-10, 10), maybe(0, 1)));
    let start = Some((numbers(1, 1), numbers(0, 0)));
    let cases = [
        // reached for the first time, and not at all
        Case {
            x: None,
            y: start,
            limit,
            result: start,
            answer: true,
        },
        Case {
            x: start,
            y: None,
            limit,
            result: start,
            answer: false,
        },
        // a bound that grows becomes the next step, and where none is left the limit's; the other one stays
        Case {
            x: start,
            y: Some((numbers(1, 2), numbers(0, 0))),
            limit,
            result: Some((numbers(1, 5), numbers(0, 0))),
            answer: true,
        },
        Case {
            x: Some((numbers(1, 5), numbers(0, 0))),
            y: Some((numbers(0, 6), numbers(0, 1))),
            limit,
            result: Some((numbers(-2, 10), numbers(0, 1))),
            answer: true,
        },
        // the second cell alone, which may be undefined now
        Case {
            x: start,
            y: Some((numbers(1, 1), maybe(1, 0))),
            limit,
            result: Some((numbers(1, 1), maybe(0, 0))),
            answer: true,
        },
        // a bound at the limit's can't grow
        Case {
            x: Some((numbers(-10, 10), maybe(0, 1))),
            y: Some((numbers(-10, 10), numbers(0, 1))),
            limit,
            result: Some((numbers(-10, 10), maybe(0, 1))),
            answer: false,
        },
    ];
    for case in cases {
        let mut x = two(rt.alloc(), case.x)?;
        let y = two(rt.alloc(), case.y)?;
        let limit = two(rt.alloc(), case.limit)?;
        assert_eq!(rt; x.cells(), limit.cells());
        assert_eq!(rt; y.cells(), limit.cells());
        assert!(rt; x.leq(&limit));
        assert!(rt; y.leq(&limit));
        assert_eq!(rt; x.widen_from(&y, &limit, &[-2, 5]), case.answer);
        assert!(rt; holds(&x, case.result));
    }
    Ok(())
}

#[test]
fn narrows_from_the_limit(rt: HostRuntime) -> Result<(), Fail> {
    let limit = Some((maybe(-10, 10), maybe(0, 1)));
    let wide = Some((numbers(1, 10), maybe(0, 1)));
    let cases = [
        Case {
            x: None,
            y: wide,
            limit,
            result: None,
            answer: false,
        },
        Case {
            x: wide,
            y: None,
            limit,
            result: None,
            answer: true,
        },
        // a bound at the limit's moves, and one that is not there stays
        Case {
            x: wide,
            y: Some((numbers(2, 7), maybe(0, 1))),
            limit,
            result: Some((numbers(1, 7), maybe(0, 1))),
            answer: true,
        },
        Case {
            x: wide,
            y: wide,
            limit,
            result: wide,
            answer: false,
        },
        // a cell with nothing left
        Case {
            x: Some((numbers(1, 10), numbers(0, 0))),
            y: Some((numbers(1, 10), maybe(1, 0))),
            limit,
            result: None,
            answer: true,
        },
        // an unreachable limit has no bound
        Case {
            x: wide,
            y: Some((numbers(2, 7), numbers(0, 0))),
            limit: None,
            result: Some((numbers(1, 10), numbers(0, 1))),
            answer: true,
        },
    ];
    for case in cases {
        let mut x = two(rt.alloc(), case.x)?;
        let y = two(rt.alloc(), case.y)?;
        let limit = two(rt.alloc(), case.limit)?;
        assert_eq!(rt; x.cells(), limit.cells());
        assert_eq!(rt; y.cells(), limit.cells());
        assert_eq!(rt; x.narrow_from(&y, &limit), case.answer);
        assert!(rt; holds(&x, case.result));
    }
    Ok(())
}

#[test]
fn changes_single_cells(rt: HostRuntime) -> Result<(), Fail> {
    let undefined = maybe(1, 0);
    let nothing = numbers(1, 0);
    let mut env = two(rt.alloc(), Some((numbers(1, 3), undefined)))?;
    assert!(rt; env.reachable() && env.cells() == 2);
    // a part of a cell: the interval grows, and undefined stays where it was
    env.weak_set(0, numbers(5, 5));
    assert!(rt; holds(&env, Some((numbers(1, 5), undefined))));
    assert!(rt; env.reachable() && env.cells() == 2);
    env.weak_set(1, numbers(2, 2));
    assert!(rt; holds(&env, Some((numbers(1, 5), maybe(2, 2)))));
    assert!(rt; env.reachable() && env.cells() == 2);
    env.weak_set(0, nothing);
    assert!(rt; holds(&env, Some((numbers(1, 5), maybe(2, 2)))));
    assert!(rt; env.reachable() && env.cells() == 2);
    env.forget(0);
    assert!(rt; holds(&env, Some((undefined, maybe(2, 2)))));
    assert!(rt; env.reachable() && env.cells() == 2);
    env.set(1, nothing);
    assert!(rt; holds(&env, None));
    Ok(())
}

#[test]
fn takes_other_shapes_within_its_room(rt: HostRuntime) -> Result<(), Fail> {
    let mut env = Env::new(rt.alloc(), 5, 0)?;
    assert!(rt; !env.reachable() && env.cells() == 0 && env.is_bottom());
    // no cells: reached or not is all there is
    env.start();
    assert!(rt; env.reachable() && env.cells() == 0 && !env.is_bottom());
    env.set_bottom();
    assert!(rt; env.is_bottom());
    env.reshape(5);
    assert!(rt; !env.reachable() && env.cells() == 5);
    env.start();
    assert!(rt; env.reachable() && env.cells() == 5);
    assert!(rt; at(&env, 4) == Some(maybe(1, 0)) && at(&env, 5) == None);
    let mut small = Env::new(rt.alloc(), 2, 2)?;
    small.start();
    env.copy_from(&small);
    assert!(rt; holds(&env, Some((maybe(1, 0), maybe(1, 0)))) && env.cells() == 2);
    assert!(rt; size_of::<Env>() <= 64 && size_of::<Val>() <= 12);
    Ok(())
}
