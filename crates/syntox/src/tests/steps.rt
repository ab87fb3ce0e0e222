//! The steps of widening, written out from the constants in the texts.
use crate::source::flow_of;
use control_points::thresholds;
use std::test::Fail;

struct Case<'a> {
    text: &'a str,
    steps: &'a [i32],
}

const CASES: [Case<'static>; 5] = [
    Case {
        text: "program t1;\nvar i: integer;\nbegin\n  i := 1;\n  while i <> 100 do\n    i := i + 1\nend.\n",
        steps: &[0, 1, 2, 99, 100, 101],
    },
    Case {
        text: "program e; begin end.",
        steps: &[],
    },
    // A sign is no part of a factor, but of a constant of a `case`; Booleans don't count, and constants of declarations only
    // where they are used.
    Case {
        text: "program s(output);\nconst k = 7; far = 1000;\nvar i: integer; b: Boolean;\nbegin\n  i := -5;\n  case i of -20: i := k end;\n  case b of true: b := false end;\n  write(maxint: 3)\nend.\n",
        steps: &[-21, -20, -19, 2, 3, 4, 5, 6, 7, 8, 2147483646, 2147483647],
    },
    // An assertion stands before the body of its statement, a routine before the program's block, and the rest doesn't count.
    Case {
        text: "program m;\nvar a: array[1..9] of integer; i: integer;\nprocedure p(n: integer); begin n := 900 end;\nbegin\n  {% i = 10 %} a[20] := 30 + 40;\n  p(50); p(60 * 70);\n  for i := 80 to 90 do a[100] := 110;\n  repeat i := 120 until i = 130;\n  if i = 140 then i := 150 else i := 160;\n  i := abs(170) + 180; i := 190; i := 200; i := 210\nend.\n",
        steps: &[
            9, 10, 11, 19, 20, 21, 29, 30, 31, 39, 40, 41, 49, 50, 51, 59, 60, 61, 69, 70, 71, 79,
            80, 81, 89, 90, 91, 99, 100, 101, 109, 110, 111, 119, 120, 121, 129, 130, 131, 139,
            140, 141, 149, 150, 151, 159, 160, 161, 169, 170, 171, 179, 180, 181, 189, 190, 191,
            899, 900, 901,
        ],
    },
    // The same constant counts once, and so does a number next to two.
    Case {
        text: "program d; var i: integer; begin i := 2; i := 1 + 2 end.",
        steps: &[0, 1, 2, 3],
    },
];

#[test]
fn steps(rt: HostRuntime) -> Result<(), Fail> {
    for case in CASES.iter() {
        let text = case.text;
        let Ok(flow) = flow_of(rt.alloc(), text.as_bytes()) else {
            return Err(Fail::new("the source has no flow"));
        };
        let found = thresholds(rt.alloc(), &flow)?;
        assert_eq!(rt; found.as_slice(), case.steps, "steps of {text}");
    }
    Ok(())
}
