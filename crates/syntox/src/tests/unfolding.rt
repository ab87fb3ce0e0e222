//! Unfoldings of small programs and at the limit: classes, nodes and sizes, counted by hand. A routine has a point for its entry and its
//! exit, one before each statement, one more after `read`, and one before each call within a statement.
use crate::source::flow_of;
use activations::{Graph, UnfoldFault, unfold};
use std::alloc::{AllocError, Global};
use std::test::Fail;

struct Case<'a> {
    text: &'a str,
    classes: u32,
    nodes: u32,
    /// For each node one and the cells of its class.
    size: u64,
}

const CASES: [Case<'static>; 12] = [
    Case {
        text: "program e; begin end.",
        classes: 1,
        nodes: 3,
        size: 3,
    },
    // A routine that nothing calls has no class.
    Case {
        text: "program u; procedure p; begin end; begin end.",
        classes: 1,
        nodes: 3,
        size: 3,
    },
    // Two calls, one with one variable for both parameters: 5 points of two cells and a one, and twice 4 points of the same.
    Case {
        text: "program r5;\nvar x, y: integer;\nprocedure p(var u, v: integer);\nbegin\n  u := 1;\n  v := 2\nend;\nbegin\n  p(x, x);\n  {% x = 2 %} p(x, y);\n  {% x = 1 %}\nend.\n",
        classes: 3,
        nodes: 13,
        size: 39,
    },
    // McCarthy's function: the call of the block and the two of the function, each of which enters one class however often it is made. Two
    // variables and a slot are the block's cells, and a parameter, a result and two slots come to them in the function.
    Case {
        text: "program mc(input, output);\nvar n, m: integer;\nfunction f(n: integer): integer;\nbegin\n  if n > 100 then f := n - 10\n  else f := f(f(n + 11))\nend;\nbegin\n  read(n);\n  m := f(n);\n  {% m = 91 ? %}\nend.\n",
        classes: 4,
        nodes: 28,
        size: 196,
    },
    // A recursive procedure whose parameter is its caller's local: 4 points of the block with a cell, and then a class for the call
    // of the block and one for its own, each with 4 points. The first has the cell of the block, a local and no other, since the parameter is
    // bound to that cell; the second has the caller's local beside.
    Case {
        text: "program r7;\nvar x: integer;\nprocedure p(var u: integer);\nvar y: integer;\nbegin\n  y := 1;\n  p(y)\nend;\nbegin\n  p(x);\nend.\n",
        classes: 3,
        nodes: 12,
        size: 36,
    },
    // Two procedures that call each other: the block calls the first, and each the other, the first anew from the second.
    Case {
        text: "program m; procedure p(n: integer); forward; procedure q(n: integer); begin p(n) end; procedure p; begin q(n) end; begin p(1) end.",
        classes: 4,
        nodes: 12,
        size: 21,
    },
    // A variable parameter handed on: all have the block's cell.
    Case {
        text: "program h; var x: integer; procedure q(var v: integer); begin v := 1 end; procedure p(var u: integer); begin q(u) end; begin p(x) end.",
        classes: 3,
        nodes: 9,
        size: 18,
    },
    // Elements of an array for variable parameters: parts of the block's cell.
    Case {
        text: "program a; var t: array[1..3] of integer; procedure p(var u, v: integer); begin u := 1; v := 2 end; begin p(t[1], t[2]); p(t[1], t[1]) end.",
        classes: 3,
        nodes: 12,
        size: 24,
    },
    // A variable two blocks out that the procedure sees by its own name and by that of its parameter.
    Case {
        text: "program o; var x: integer; procedure p; procedure q(var u: integer); begin u := x end; begin q(x) end; begin p end.",
        classes: 3,
        nodes: 9,
        size: 18,
    },
    // A local of the caller for both parameters, and then two: one foreign cell, and two.
    Case {
        text: "program f; procedure q(var u, v: integer); begin u := v end; procedure p; var y: integer; begin q(y, y) end; begin p end.",
        classes: 3,
        nodes: 9,
        size: 15,
    },
    Case {
        text: "program g; procedure q(var u, v: integer); begin u := v end; procedure p; var y, z: integer; begin q(y, z) end; begin p end.",
        classes: 3,
        nodes: 9,
        size: 21,
    },
    // A call in the actual of another: the block has a variable and two slots, and two more points; the function a parameter and a result.
    Case {
        text: "program c; var x: integer; function g(n: integer): integer; begin g := n end; begin x := g(g(1)) end.",
        classes: 3,
        nodes: 11,
        size: 56,
    },
];

/// The unfolding of the program in a text.
fn unfolding_of(alloc: Global, text: &str) -> Result<Result<Graph, UnfoldFault>, Fail> {
    if text.len() > 1_048_576 {
        return Err(Fail::new("the source is too large"));
    }
    let Ok(flow) = flow_of(alloc, text.as_bytes()) else {
        return Err(Fail::new("the source has no flow"));
    };
    Ok(unfold(alloc, &flow))
}

#[test]
fn unfoldings(rt: HostRuntime) -> Result<(), Fail> {
    for case in CASES.iter() {
        let text = case.text;
        let Ok(graph) = unfolding_of(rt.alloc(), text)? else {
            return Err(Fail::new("the program has no unfolding"));
        };
        assert_eq!(rt; graph.classes().count(), case.classes, "classes of {text}");
        assert_eq!(rt; graph.nodes(), case.nodes, "nodes of {text}");
        assert_eq!(rt; graph.size(), case.size, "size of {text}");
    }
    Ok(())
}

fn letter(n: u32) -> char {
    char::from(b'a' + (n % 26) as u8)
}

/// A name of four letters, another for each number below 17,576.
fn push_name(text: &mut String, first: char, n: u32) -> Result<(), AllocError> {
    text.push(first)?;
    text.push(letter(n / 676))?;
    text.push(letter(n / 26))?;
    text.push(letter(n))
}

/// A program of 999 variables and so many procedures, each of which is called once.
pub fn wide(alloc: Global, procedures: u32) -> Result<String, AllocError> {
    let mut text = String::from_str(alloc, "program big;\nvar x")?;
    for n in 0..998 {
        text.push_str(", ")?;
        push_name(&mut text, 'x', n)?;
    }
    text.push_str(": integer;\n")?;
    for n in 0..procedures {
        text.push_str("procedure ")?;
        push_name(&mut text, 'y', n)?;
        text.push_str("; begin end;\n")?;
    }
    text.push_str("begin\n  ")?;
    for n in 0..procedures {
        if n > 0 {
            text.push_str(";\n  ")?;
        }
        push_name(&mut text, 'y', n)?;
    }
    text.push_str("\nend.\n")?;
    Ok(text)
}

#[test]
fn limit(rt: HostRuntime) -> Result<(), Fail> {
    let accepted = wide(rt.alloc(), 999)?;
    let refused = wide(rt.alloc(), 1000)?;
    let Ok(graph) = unfolding_of(rt.alloc(), accepted.as_str())? else {
        return Err(Fail::new("the program has no unfolding"));
    };
    assert_eq!(rt; graph.classes().count(), 1000);
    assert_eq!(rt; graph.size(), 3_998_000);
    let Err(UnfoldFault::TooMany { cells }) = unfolding_of(rt.alloc(), refused.as_str())? else {
        return Err(Fail::new("the program has an unfolding"));
    };
    assert_eq!(rt; cells, 4_002_000);
    Ok(())
}

/// Words of a text, so many times.
fn push_times(text: &mut String, word: &str, times: u32) -> Result<(), AllocError> {
    for _ in 0..times {
        text.push_str(word)?;
    }
    Ok(())
}

/// A list of names of this many variables.
fn push_names(text: &mut String, first: char, count: u32) -> Result<(), AllocError> {
    for n in 0..count {
        if n > 0 {
            text.push_str(", ")?;
        }
        push_name(text, first, n)?;
    }
    Ok(())
}

/// Sixteen procedures, each in the one before it, with a variable each, as the block has one.
fn nested(alloc: Global) -> Result<String, AllocError> {
    let mut text = String::from_str(alloc, "program n; var x: integer;")?;
    push_times(&mut text, " procedure p; var x: integer;", 16)?;
    text.push_str(" begin end;")?;
    push_times(&mut text, " begin p end;", 15)?;
    text.push_str(" begin p end.")?;
    Ok(text)
}

/// A procedure of thirty variable parameters, called with thirty locals of another.
fn with_formals(alloc: Global) -> Result<String, AllocError> {
    let mut text = String::from_str(alloc, "program t; procedure p(var ")?;
    push_names(&mut text, 'x', 30)?;
    text.push_str(": integer); begin end; procedure q; var ")?;
    push_names(&mut text, 'y', 30)?;
    text.push_str(": integer; begin p(")?;
    push_names(&mut text, 'y', 30)?;
    text.push_str(") end; begin q end.")?;
    Ok(text)
}

/// A procedure called at a thousand places, which calls another where `calls` says so.
fn many_sites(alloc: Global, calls: bool) -> Result<String, AllocError> {
    let mut text = String::from_str(
        alloc,
        "program s; procedure q; begin end; procedure p; begin ",
    )?;
    if calls {
        text.push_str("q ")?;
    }
    text.push_str("end; begin p")?;
    push_times(&mut text, "; p", 999)?;
    text.push_str(" end.")?;
    Ok(text)
}

/// Two thousand procedures, each called once.
fn many_routines(alloc: Global) -> Result<String, AllocError> {
    let mut text = String::from_str(alloc, "program r;")?;
    for n in 0..2000 {
        text.push_str(" procedure ")?;
        push_name(&mut text, 'y', n)?;
        text.push_str("; begin end;")?;
    }
    text.push_str(" begin ")?;
    for n in 0..2000 {
        if n > 0 {
            text.push_str("; ")?;
        }
        push_name(&mut text, 'y', n)?;
    }
    text.push_str(" end.")?;
    Ok(text)
}

#[test]
fn large_unfoldings(rt: HostRuntime) -> Result<(), Fail> {
    let alloc = rt.alloc();
    // The text, and its classes, nodes and size: a routine has three points, and the block one more for each call but the first.
    let cases = [
        // One cell more at each level: three times the sum of 2 to 18.
        (nested(alloc)?, 17, 51, 510),
        // No cell, thirty and thirty.
        (with_formals(alloc)?, 3, 9, 189),
        (many_sites(alloc, false)?, 1001, 4002, 4002),
        // A thousand classes call one.
        (many_sites(alloc, true)?, 1002, 4005, 4005),
        (many_routines(alloc)?, 2001, 8002, 8002),
    ];
    for (text, classes, nodes, size) in cases.iter() {
        let Ok(graph) = unfolding_of(alloc, text.as_str())? else {
            return Err(Fail::new("the program has no unfolding"));
        };
        assert_eq!(rt; graph.classes().count(), *classes);
        assert_eq!(rt; graph.nodes(), *nodes);
        assert_eq!(rt; graph.size(), *size);
    }
    Ok(())
}
