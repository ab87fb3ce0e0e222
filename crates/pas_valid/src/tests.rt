use super::*;
use pas_program::{Body, Routine, Statement, TypeDef};
use px_base::Span;
use sqlite_items::Items;
use std::alloc::{AllocError, Global};
use std::test::Fail;

/// The program's block with one empty statement, and with this level.
fn block(alloc: Global, level: u32) -> Result<Items<Routine>, AllocError> {
    let mut statements = Items::new(alloc);
    statements.push(Statement {
        at: 17,
        label: None,
        asserts: Items::new(alloc),
        body: Body::Empty,
    })?;
    let mut routines = Items::new(alloc);
    routines.push(Routine {
        name: Span { start: 8, end: 9 },
        parent: None,
        level,
        names: Items::new(alloc),
        formals: Items::new(alloc),
        vars: Items::new(alloc),
        result: None,
        body: Statement {
            at: 11,
            label: None,
            asserts: Items::new(alloc),
            body: Body::Begin {
                body: statements,
                end: 17,
            },
        },
    })?;
    Ok(routines)
}

#[test]
fn a_block_is_a_program_only_at_level_zero(rt: HostRuntime) -> Result<(), Fail> {
    for level in 0..2u32 {
        let mut types = TypeList::new(rt.alloc());
        let integer = TypeDef::Scalar {
            boolean: false,
            lo: -5,
            hi: 5,
        };
        if types.takes(integer) {
            types.add(integer)?;
        }
        let routines = block(rt.alloc(), level)?;
        let made = program_of(
            rt.alloc(),
            types,
            Items::new(rt.alloc()),
            routines,
            Items::new(rt.alloc()),
        )?;
        assert_eq!(rt; made.is_some(), level == 0);
    }
    Ok(())
}
