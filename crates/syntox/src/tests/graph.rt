//! The points, edges and checks of small programs, counted by hand from their texts.
use crate::source::flow_of;
use std::test::Fail;

/// What `flow_of` makes of a source: how many points and checks there are, and each edge as its two points.
struct Case<'a> {
    text: &'a str,
    points: usize,
    checks: usize,
    edges: &'a [(u32, u32)],
}

const CASES: [Case<'static>; 6] = [
    Case {
        text: "program e; begin end.",
        points: 3,
        checks: 0,
        edges: &[(0, 1), (1, 2)],
    },
    Case {
        text: "program r(input);\nvar n: integer; a: array[1..10] of integer;\nbegin\n  read(n);\n  a[n] := 0\nend.\n",
        points: 5,
        checks: 3,
        edges: &[(0, 1), (1, 2), (2, 3), (3, 4)],
    },
    // The body of a `repeat` comes before its condition, which leads on where it holds.
    Case {
        text: "program l; var i: integer;\nbegin repeat i := 1 until i = 1 end.\n",
        points: 5,
        checks: 1,
        edges: &[(0, 1), (1, 2), (2, 3), (3, 4), (3, 2)],
    },
    Case {
        text: "program w; var b: boolean;\nbegin if b then b := true else while b do b := false end.\n",
        points: 6,
        checks: 2,
        edges: &[(0, 1), (1, 2), (1, 3), (2, 5), (3, 4), (3, 5), (4, 3)],
    },
    Case {
        text: "program c;\nprocedure p; begin end;\nbegin p end.\n",
        points: 6,
        checks: 0,
        edges: &[(0, 1), (1, 2), (3, 4), (4, 0), (2, 5)],
    },
    Case {
        text: "program made(input);\nvar n: integer; a: array[1..100] of integer;\nprocedure p1(k: integer);\nvar i: integer;\nbegin\n  for i := 1 to 2 do a[i] := k\nend;\nbegin\n  read(n);\n  p1(n);\n  a[n] := 0;\n  {% true ? %}\nend.\n",
        points: 12,
        checks: 7,
        edges: &[
            (0, 1),
            (1, 2),
            (1, 4),
            (2, 3),
            (3, 2),
            (3, 4),
            (5, 6),
            (6, 7),
            (7, 8),
            (8, 0),
            (4, 9),
            (9, 10),
            (10, 11),
        ],
    },
];

#[test]
fn graphs(rt: HostRuntime) -> Result<(), Fail> {
    for case in CASES.iter() {
        let text = case.text;
        let Ok(flow) = flow_of(rt.alloc(), text.as_bytes()) else {
            return Err(Fail::new("the source has no flow"));
        };
        assert_eq!(rt; flow.points().len(), case.points, "points of {text}");
        assert_eq!(rt; flow.checks().len(), case.checks, "checks of {text}");
        assert_eq!(rt; flow.edges().len(), case.edges.len(), "edges of {text}");
        for (edge, want) in flow.edges().iter().zip(case.edges.iter()) {
            assert_eq!(rt; (edge.from, edge.to), *want, "an edge of {text}");
        }
    }
    Ok(())
}
