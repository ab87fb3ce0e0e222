use super::*;
use pas_tree::{Access, Block, Body, Expr, Statement, Tree, TypeExpr, VarDecl};
use px_base::Span;
use sqlite_items::Items;
use std::alloc::{AllocError, Global};
use std::test::Fail;

fn span(start: u32, end: u32) -> Span {
    Span { start, end }
}

fn one<T: Drop>(alloc: Global, item: T) -> Result<Items<T>, AllocError> {
    let mut items = Items::new(alloc);
    items.push(item)?;
    Ok(items)
}

/// The tree of `program p; var x, y: integer; begin x := y end.`, whose names are read off the text.
fn tree(alloc: Global) -> Result<Tree, AllocError> {
    let mut names = one(alloc, span(15, 16))?;
    names.push(span(18, 19))?;
    let assignment = Statement {
        label: None,
        asserts: Items::new(alloc),
        body: Body::Assign {
            to: Access {
                name: span(36, 37),
                subscripts: Items::new(alloc),
                span: span(36, 37),
            },
            value: Expr::Name {
                name: span(41, 42),
                actuals: Items::new(alloc),
                span: span(41, 42),
            },
        },
        at: span(36, 37),
    };
    let vars = VarDecl {
        names,
        of_type: TypeExpr::Name { name: span(21, 28) },
    };
    Ok(Tree {
        name: span(8, 9),
        block: Block {
            labels: Items::new(alloc),
            consts: Items::new(alloc),
            types: Items::new(alloc),
            vars: one(alloc, vars)?,
            routines: Items::new(alloc),
            begin: span(30, 35),
            body: one(alloc, assignment)?,
            end: span(43, 46),
        },
    })
}

/// The code and the place of the fault, or zeros where there is none.
fn outcome(alloc: Global, text: &str) -> Result<(u8, u32), AllocError> {
    match check(alloc, text.as_bytes(), &tree(alloc)?) {
        Ok(_) => Ok((0, 0)),
        Err(CheckFault::Wrong { code, at }) => Ok((code, at)),
        Err(CheckFault::Memory(error)) => Err(error),
    }
}

#[test]
fn names_and_types(rt: HostRuntime) -> Result<(), Fail> {
    let cases = [
        ("program p; var x, y: integer; begin x := y end.", 0, 0),
        ("PROGRAM P; VAR X, y: BOOLEAN; BEGIN x := Y END.", 0, 0),
        ("program p; var x, y: integer; begin z := y end.", 1, 36),
        ("program p; var x, y: integer; begin x := p end.", 1, 41),
        ("program p; var x, x: integer; begin x := y end.", 2, 18),
        ("program p; var x, y: writeln; begin x := y end.", 4, 21),
    ];
    for (text, code, at) in cases {
        assert_eq!(rt; outcome(rt.alloc(), text)?, (code, at), "in {text}");
    }
    Ok(())
}
