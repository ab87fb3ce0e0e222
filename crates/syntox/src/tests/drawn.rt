//! Points, actions and checks of small programs, written out by hand from the rules for points and for checks.
use crate::source::flow_of;
use control_points::{Act, Edge, PointKind};
use px_base::{Kind, Pos, pos_of};
use std::test::Fail;

/// The points of a source, each with its kind and its place; the edges, each with its points and a word for its action; and
/// the checks, each with its kind, its place and its point. A place is a line and a column.
struct Case<'a> {
    text: &'a str,
    points: &'a [(PointKind, u32, u32)],
    edges: &'a [(u32, &'a str, u32)],
    checks: &'a [(Kind, u32, u32, u32)],
}

const CASES: [Case<'static>; 3] = [
    Case {
        text: "program r1(input);\nvar n: integer; a: array[1..10] of integer;\nbegin\n  read(n);\n  a[n] := 0\nend.\n",
        points: &[
            (PointKind::Entry, 3, 1),
            (PointKind::Before, 4, 3),
            (PointKind::AfterRead, 4, 8),
            (PointKind::Before, 5, 3),
            (PointKind::Exit, 6, 1),
        ],
        edges: &[
            (0, "skip", 1),
            (1, "read", 2),
            (2, "skip", 3),
            (3, "assign", 4),
        ],
        checks: &[
            (Kind::NoNumber, 4, 8, 1),
            (Kind::UndefinedValue, 5, 5, 3),
            (Kind::IndexOutOfRange, 5, 5, 3),
        ],
    },
    // The inner call comes first, and each call returns to a point of its own.
    Case {
        text: "program mc(input, output);\nvar n, m: integer;\nfunction f(n: integer): integer;\nbegin\n  if n > 100 then f := n - 10\n  else f := f(f(n + 11))\nend;\nbegin\n  read(n);\n  m := f(n);\n  {% m = 91 ? %}\nend.\n",
        points: &[
            (PointKind::Entry, 4, 1),
            (PointKind::Before, 5, 3),
            (PointKind::Before, 5, 19),
            (PointKind::Before, 6, 8),
            (PointKind::AfterCall, 6, 15),
            (PointKind::AfterCall, 6, 13),
            (PointKind::Exit, 7, 1),
            (PointKind::Entry, 8, 1),
            (PointKind::Before, 9, 3),
            (PointKind::AfterRead, 9, 8),
            (PointKind::Before, 10, 3),
            (PointKind::AfterCall, 10, 8),
            (PointKind::Before, 12, 1),
            (PointKind::Exit, 12, 1),
        ],
        edges: &[
            (0, "skip", 1),
            (1, "test true", 2),
            (1, "test false", 3),
            (2, "assign", 6),
            (3, "call", 0),
            (6, "return", 4),
            (4, "call", 0),
            (6, "return", 5),
            (5, "assign", 6),
            (7, "skip", 8),
            (8, "read", 9),
            (9, "skip", 10),
            (10, "call", 0),
            (6, "return", 11),
            (11, "assign", 12),
            (12, "skip", 13),
        ],
        checks: &[
            (Kind::UndefinedValue, 5, 6, 1),
            (Kind::UndefinedValue, 5, 24, 2),
            (Kind::Overflow, 5, 26, 2),
            (Kind::UndefinedValue, 6, 17, 3),
            (Kind::Overflow, 6, 19, 3),
            (Kind::NoResult, 7, 1, 6),
            (Kind::NoNumber, 9, 8, 8),
            (Kind::UndefinedValue, 10, 10, 10),
        ],
    },
    // A copy, a `for` over a subrange, a `case`, a `repeat`, an assertion with a `writeln`, and a `goto` to itself.
    Case {
        text: "program x(output);\nlabel 9;\ntype few = 1..3; row = array[few] of integer;\nvar a, b: row; i: few; k: integer;\nbegin\n  b := a;\n  for i := 1 to 3 do a[i] := sqr(k);\n  case k of 1: k := k div 2; 2, 3: i := k mod 2 end;\n  repeat k := succ(k) until k > 3;\n  {% k = 3 %}\n  writeln(k: 5, 'a');\n  9: goto 9\nend.\n",
        points: &[
            (PointKind::Entry, 5, 1),
            (PointKind::Before, 6, 3),
            (PointKind::Before, 7, 3),
            (PointKind::Before, 7, 22),
            (PointKind::Step, 7, 3),
            (PointKind::Before, 8, 3),
            (PointKind::Before, 8, 16),
            (PointKind::Before, 8, 36),
            (PointKind::Before, 9, 3),
            (PointKind::Before, 9, 10),
            (PointKind::Until, 9, 23),
            (PointKind::Before, 11, 3),
            (PointKind::AfterWrite, 11, 11),
            (PointKind::AfterWrite, 11, 17),
            (PointKind::Before, 12, 6),
            (PointKind::Exit, 13, 1),
        ],
        edges: &[
            (0, "skip", 1),
            (1, "copy", 2),
            (2, "enter", 3),
            (2, "bypass", 5),
            (3, "assign", 4),
            (4, "next", 3),
            (4, "finish", 5),
            (5, "arm", 6),
            (6, "assign", 8),
            (5, "arm", 7),
            (7, "assign", 8),
            (8, "skip", 9),
            (9, "assign", 10),
            (10, "test true", 11),
            (10, "test false", 9),
            (11, "write", 12),
            (12, "write", 13),
            (13, "end line", 14),
            (14, "goto", 14),
        ],
        checks: &[
            (Kind::ValueOutOfRange, 7, 12, 2),
            (Kind::ValueOutOfRange, 7, 17, 2),
            (Kind::UndefinedValue, 7, 24, 3),
            (Kind::IndexOutOfRange, 7, 24, 3),
            (Kind::UndefinedValue, 7, 34, 3),
            (Kind::Overflow, 7, 30, 3),
            (Kind::UndefinedValue, 8, 8, 5),
            (Kind::NoCaseLabel, 8, 8, 5),
            (Kind::UndefinedValue, 8, 21, 6),
            (Kind::DivisionByZero, 8, 23, 6),
            (Kind::UndefinedValue, 8, 41, 7),
            (Kind::ModulusNotPositive, 8, 43, 7),
            (Kind::ValueOutOfRange, 8, 41, 7),
            (Kind::UndefinedValue, 9, 20, 9),
            (Kind::NoNeighbour, 9, 15, 9),
            (Kind::UndefinedValue, 9, 29, 10),
            (Kind::Assertion, 10, 6, 11),
            (Kind::UndefinedValue, 11, 11, 11),
            (Kind::WidthOutOfRange, 11, 14, 11),
        ],
    },
];

fn word_of(act: &Act) -> &'static str {
    match act {
        Act::Skip => "skip",
        Act::Assign { .. } => "assign",
        Act::Copy { .. } => "copy",
        Act::Call { .. } => "call",
        Act::Return { .. } => "return",
        Act::Goto { .. } => "goto",
        Act::Test { wanted: true, .. } => "test true",
        Act::Test { wanted: false, .. } => "test false",
        Act::Arm { .. } => "arm",
        Act::Enter { .. } => "enter",
        Act::Bypass { .. } => "bypass",
        Act::Next { .. } => "next",
        Act::Finish { .. } => "finish",
        Act::Read { .. } => "read",
        Act::DropLine => "drop line",
        Act::Write { .. } => "write",
        Act::EndLine => "end line",
    }
}

fn drawn(edge: &Edge) -> (u32, &'static str, u32) {
    (edge.from, word_of(&edge.act), edge.to)
}

/// The line and the column of a place in a text.
fn place_of(text: &[u8], at: u32) -> Option<Pos> {
    if (at as usize) < text.len() && at < u32::MAX {
        return Some(pos_of(text, at));
    }
    None
}

#[test]
fn drawings(rt: HostRuntime) -> Result<(), Fail> {
    for case in CASES.iter() {
        let text = case.text;
        let bytes = text.as_bytes();
        let Ok(flow) = flow_of(rt.alloc(), bytes) else {
            return Err(Fail::new("the source has no flow"));
        };
        assert_eq!(rt; flow.points().len(), case.points.len(), "points of {text}");
        for (point, (kind, line, col)) in flow.points().iter().zip(case.points.iter()) {
            let at = Pos {
                line: *line,
                col: *col,
            };
            assert_eq!(rt; point.kind, *kind, "a kind at {line}:{col} of {text}");
            assert_eq!(rt; place_of(bytes, point.at), Some(at), "a point of {text}");
        }
        assert_eq!(rt; flow.edges().len(), case.edges.len(), "edges of {text}");
        for (edge, want) in flow.edges().iter().zip(case.edges.iter()) {
            assert_eq!(rt; drawn(edge), *want, "an edge of {text}");
        }
        assert_eq!(rt; flow.checks().len(), case.checks.len(), "checks of {text}");
        for (check, (kind, line, col, point)) in flow.checks().iter().zip(case.checks.iter()) {
            let at = Pos {
                line: *line,
                col: *col,
            };
            assert_eq!(rt;
                (check.kind, check.point),
                (*kind, *point),
                "a check at {line}:{col} of {text}"
            );
            assert_eq!(rt;
                place_of(bytes, check.at),
                Some(at),
                "the place of a check of {text}"
            );
        }
    }
    Ok(())
}
