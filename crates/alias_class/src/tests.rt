//! What calls pass, in cases that are worked out by hand from the rules: the bindings of variable parameters, and the links of cells.
ghost use Rattle.std.specs.Prelude.{◌+◌, ◌<◌, ◌≤◌, ◌^◌, length};

use crate::bind::{Bind, Link};
use crate::passing::Passing;
use std::alloc::{AllocError, Global};
use std::test::Fail;

const fn whole(cell: u32) -> Bind {
    Bind { whole: true, cell }
}

const fn part(cell: u32) -> Bind {
    Bind { whole: false, cell }
}

/// What is passed by names where so many cells are inherited, and the first foreign one is this. The parameters are 7 and 8.
fn passed(
    alloc: Global,
    inherited: u32,
    first_foreign: u32,
    named: &[Bind],
) -> Result<(Vec<Bind>, Vec<u32>, Vec<Link>), AllocError>
    requires few { first_foreign + 2 < 2 ^ 32 }
    requires two { length named.now ≤ 2 }
    requires behind { inherited ≤ first_foreign }
{
    let passing = Passing::new(alloc, inherited, first_foreign, &[7, 8], named)?;
    let links = passing.links(alloc)?;
    let (bindings, namers) = passing.into_parts();
    let namers = Vec::from_slice(alloc, namers.as_slice())?;
    Ok((bindings, namers, links))
}

/// Links from and to these cells.
fn linked(alloc: Global, pairs: &[(u32, u32)]) -> Result<Vec<Link>, AllocError> {
    let mut links = Vec::new(alloc);
    for &(caller, callee) in pairs {
        links.push(Link { caller, callee })?;
    }
    Ok(links)
}

#[test]
fn calls_pass_names_and_cells(rt: HostRuntime) -> Result<(), Fail> {
    let alloc = rt.alloc();
    // a procedure of the block with no variables of its own: one variable twice, and two
    let (bindings, namers, links) = passed(alloc, 2, 2, &[whole(0), whole(0)])?;
    assert_eq!(rt; bindings.as_slice(), [whole(0), whole(0)].as_slice());
    assert!(rt; namers.is_empty());
    assert_eq!(rt;
        links.as_slice(),
        linked(alloc, &[(0, 0), (1, 1)])?.as_slice()
    );

    let (bindings, _, _) = passed(alloc, 2, 2, &[whole(0), whole(1)])?;
    assert_eq!(rt; bindings.as_slice(), [whole(0), whole(1)].as_slice());

    // elements of an array of the block
    let (bindings, _, _) = passed(alloc, 3, 3, &[part(2), part(2)])?;
    assert_eq!(rt; bindings.as_slice(), [part(2), part(2)].as_slice());

    // a recursive procedure with three variables of its own, which passes the second of them and a variable of the block
    let (bindings, namers, links) = passed(alloc, 1, 4, &[whole(2), whole(0)])?;
    assert_eq!(rt; bindings.as_slice(), [whole(4), whole(0)].as_slice());
    assert_eq!(rt; namers.as_slice(), [7].as_slice());
    assert_eq!(rt;
        links.as_slice(),
        linked(alloc, &[(0, 0), (2, 4)])?.as_slice()
    );

    // two names of one foreign cell, the second of a part of it
    let (bindings, namers, links) = passed(alloc, 1, 4, &[whole(2), part(2)])?;
    assert_eq!(rt; bindings.as_slice(), [whole(4), part(4)].as_slice());
    assert_eq!(rt; namers.as_slice(), [7].as_slice());
    assert_eq!(rt;
        links.as_slice(),
        linked(alloc, &[(0, 0), (2, 4)])?.as_slice()
    );

    // foreign cells are numbered by who names them first, and links stand by the caller's cells
    let (bindings, namers, links) = passed(alloc, 1, 4, &[whole(3), whole(2)])?;
    assert_eq!(rt; bindings.as_slice(), [whole(4), whole(5)].as_slice());
    assert_eq!(rt; namers.as_slice(), [7, 8].as_slice());
    assert_eq!(rt;
        links.as_slice(),
        linked(alloc, &[(0, 0), (2, 5), (3, 4)])?.as_slice()
    );
    Ok(())
}
