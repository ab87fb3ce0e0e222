use super::*;
use pas_tree::{Body, Expr, Statement};

/// An expression with its places: operators before their operands.
fn form(alloc: Global, e: &Expr) -> Result<String, Fail> {
    Ok(match e {
        Expr::Number { span, .. } => format!(in alloc; "{}-{}", span.start, span.end)?,
        Expr::Name { actuals, span, .. } => {
            format!(in alloc; "{}-{}{{{}}}", span.start, span.end, actuals.len())?
        }
        Expr::Indexed { access, span } => {
            format!(in alloc; "{}-{}[{}]", span.start, span.end, access.subscripts.len())?
        }
        Expr::Paren { inner, span } => {
            let inner = form(alloc, inner.get())?;
            format!(in alloc; "{}-{}(Paren {inner})", span.start, span.end)?
        }
        Expr::Not { inner, span } => {
            let inner = form(alloc, inner.get())?;
            format!(in alloc; "{}-{}(Not {inner})", span.start, span.end)?
        }
        Expr::Signed { sign, inner, span } => {
            let inner = form(alloc, inner.get())?;
            format!(in alloc; "{}-{}({sign:?} {inner})", span.start, span.end)?
        }
        Expr::Binary {
            op,
            left,
            right,
            at,
            span,
        } => {
            let left = form(alloc, left.get())?;
            let right = form(alloc, right.get())?;
            format!(in alloc;
                "{}-{}({op:?}@{} {left} {right})",
                span.start, span.end, at.start
            )?
        }
    })
}

/// A statement by its label, its assertions and what it does.
fn outline(alloc: Global, statement: &Statement) -> Result<String, Fail> {
    let body = match &statement.body {
        Body::Empty => format!(in alloc; "empty")?,
        Body::Call { actuals, .. } => format!(in alloc; "call {}", actuals.len())?,
        Body::Assign { to, .. } => format!(in alloc; "assign {}", to.subscripts.len())?,
        Body::Goto { label } => format!(in alloc; "goto {}", label.value)?,
        Body::Begin { body } => format!(in alloc; "begin {}", body.len())?,
        Body::If { yes, no: None, .. } => {
            let yes = outline(alloc, yes.get())?;
            format!(in alloc; "if ({yes})")?
        }
        Body::If {
            yes,
            no: Some(no),
            ..
        } => {
            let yes = outline(alloc, yes.get())?;
            let no = outline(alloc, no.get())?;
            format!(in alloc; "if ({yes}) else ({no})")?
        }
        Body::Case { arms, .. } => format!(in alloc; "case {}", arms.len())?,
        Body::While { body, .. } => {
            let body = outline(alloc, body.get())?;
            format!(in alloc; "while ({body})")?
        }
        Body::Repeat { body, .. } => format!(in alloc; "repeat {}", body.len())?,
        Body::For { down, body, .. } => {
            let body = outline(alloc, body.get())?;
            format!(in alloc; "for {down} ({body})")?
        }
    };
    let asserts = statement.asserts.len();
    Ok(match &statement.label {
        None => format!(in alloc; "{asserts} {body}")?,
        Some(label) => format!(in alloc; "{}: {asserts} {body}", label.value)?,
    })
}

/// The places are those in the whole source, in which the expression begins at 22.
#[test]
fn expressions(rt: HostRuntime) -> Result<(), Fail> {
    for (source, want) in [
        ("-1", "22-24(Minus 23-24)"),
        ("f", "22-23{0}"),
        ("f(a, 'b': 2)", "22-34{2}"),
        ("a[1,2][3]", "22-31[3]"),
        (
            "1+2*3-4",
            "22-29(Sub@27 22-27(Add@23 22-23 24-27(Mul@25 24-25 26-27)) 28-29)",
        ),
        (
            "-a*b+c",
            "22-28(Add@26 22-26(Minus 23-26(Mul@24 23-24{0} 25-26{0})) 27-28{0})",
        ),
        ("not a and b", "22-33(And@28 22-27(Not 26-27{0}) 32-33{0})"),
        (
            "(a=b)=c",
            "22-29(Eq@27 22-27(Paren 23-26(Eq@24 23-24{0} 25-26{0})) 28-29{0})",
        ),
        (
            "a or b and c",
            "22-34(Or@24 22-23{0} 27-34(And@29 27-28{0} 33-34{0}))",
        ),
        (
            "1 div 2 mod 3",
            "22-35(Mod@30 22-29(Div@24 22-23 28-29) 34-35)",
        ),
    ] {
        let source = program_with(rt.alloc(), &format!(in rt.alloc(); "x := {source}")?)?;
        let tokens = tokens_of(&rt, rt.alloc(), &source)?;
        assert!(rt; tokens.len() <= 1048576);
        let tree = parse(rt.alloc(), &tokens)?;
        let found = match tree.block.body.get(0).map(|statement| &statement.body) {
            Some(Body::Assign { value, .. }) => form(rt.alloc(), value)?,
            _ => String::from_str(rt.alloc(), "no assignment")?,
        };
        assert_eq!(rt; found.as_str(), want, "{source}");
    }
    Ok(())
}

/// A statement in each form, with a label or without, and with empty statements wherever one may stand.
#[test]
fn statements(rt: HostRuntime) -> Result<(), Fail> {
    for (source, want) in [
        ("", "0 empty"),
        ("1:", "1: 0 empty"),
        ("{% a %} {% b ? %}", "2 empty"),
        ("1: {% a %} ; x := 1", "1: 1 empty"),
        ("2: x := 1", "2: 0 assign 0"),
        ("{% a %} x[1][2, 3] := 1", "1 assign 3"),
        ("3: goto 3", "3: 0 goto 3"),
        ("4: begin end", "4: 0 begin 1"),
        ("begin ; ; end", "0 begin 3"),
        ("begin 1: ; 2: end", "0 begin 2"),
        ("5: if a then", "5: 0 if (0 empty)"),
        ("if a then else", "0 if (0 empty) else (0 empty)"),
        (
            "if a then if b then else",
            "0 if (0 if (0 empty) else (0 empty))",
        ),
        (
            "if a then if b then else else x := 1",
            "0 if (0 if (0 empty) else (0 empty)) else (0 assign 0)",
        ),
        (
            "if a then begin if b then end else",
            "0 if (0 begin 1) else (0 empty)",
        ),
        (
            "if a then while b do if c then else",
            "0 if (0 while (0 if (0 empty) else (0 empty)))",
        ),
        ("6: case a of 1: end", "6: 0 case 1"),
        ("case a of 1: ; 2, -c: ; end", "0 case 2"),
        ("7: while a do", "7: 0 while (0 empty)"),
        ("8: repeat until a", "8: 0 repeat 1"),
        ("repeat ; until a", "0 repeat 2"),
        ("9: for i := 1 to 2 do 8:", "9: 0 for false (8: 0 empty)"),
        ("for i := 2 downto 1 do {% i > 0 %}", "0 for true (1 empty)"),
        ("10: p", "10: 0 call 0"),
        ("p(1, 'it''s', b: 3, (c): d + 1)", "0 call 4"),
    ] {
        let source = program_with(rt.alloc(), source)?;
        let tokens = tokens_of(&rt, rt.alloc(), &source)?;
        assert!(rt; tokens.len() <= 1048576);
        let tree = parse(rt.alloc(), &tokens)?;
        let found = match tree.block.body.get(0) {
            Some(statement) => outline(rt.alloc(), statement)?,
            None => String::from_str(rt.alloc(), "no statement")?,
        };
        assert_eq!(rt; found.as_str(), want, "{source}");
    }
    Ok(())
}
