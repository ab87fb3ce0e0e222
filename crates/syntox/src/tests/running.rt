//! `run`.
use super::{PLAIN, Setting, answer_to};
use crate::status::number_of;
use std::test::Fail;

const FILES: [(&str, &str); 19] = [
    (
        "div.pas",
        "program r14(output);\nbegin\n  writeln(-7 div 2, ' ', -7 mod 2, ' ', (-7) mod 2)\nend.\n",
    ),
    ("mod.pas", "program r14b; begin write(7 mod 0) end.\n"),
    ("plus.pas", "program r14c; begin write(maxint + 1) end.\n"),
    (
        "for.pas",
        "program r16(output);\nvar i: 1..3;\nbegin\n  for i := 9 to 5 do;\n  writeln(i)\nend.\n",
    ),
    ("case.pas", "program r16b; begin case 2 of 1: end end.\n"),
    (
        "twice.pas",
        "program r18(input, output);\nvar n: integer;\nbegin\n  read(n);\n  writeln(n * 2)\nend.\n",
    ),
    (
        "width.pas",
        "program r22(output); begin write('abc':2, true:6, 5:3) end.\n",
    ),
    (
        "lines.pas",
        "program r22b; var a, b: integer; begin readln(a); read(b); write(a + b) end.\n",
    ),
    (
        "alias.pas",
        "program r5;\nvar x, y: integer;\nprocedure p(var u, v: integer);\nbegin\n  u := 1;\n  v := 2\nend;\nbegin\n  p(x, x);\n  {% x = 2 %} p(x, y);\n  {% x = 1 %}\nend.\n",
    ),
    ("u.pas", "program p; begin x := 1 end.\n"),
    ("s.pas", "program p; begin x = 1 end.\n"),
    ("empty.pas", ""),
    ("end.pas", "program p; begin"),
    ("byte.pas", "program p;\nbegin # end.\n"),
    ("comment.pas", "program p; begin (* } *) end. { "),
    ("string.pas", "program p; begin write('a\n') end.\n"),
    ("number.pas", "program p; begin write(2147483648) end.\n"),
    ("open.pas", "program p; begin {% true"),
    (
        "label.pas",
        "PROGRAM MIX; { mixed *) LABEL 10000;\nBEGIN 10000: END.\n",
    ),
];

fn run_of<'a>(words: &'a [&'a str], input: &'a [u8]) -> Setting<'a> {
    Setting {
        words,
        input,
        ..PLAIN
    }
}

/// Each with the number of its status and what `out` and `err` take.
#[test]
fn answers(rt: HostRuntime) -> Result<(), Fail> {
    let cases: [(&[&str], &[u8], u8, &str, &str); 25] = [
        (
            &["run", "div.pas"],
            b"",
            0,
            "-3 -1 1\n-- halted after 7 steps\n",
            "",
        ),
        (
            &["run", "mod.pas"],
            b"",
            6,
            "-- error 1:29 modulus not positive\n",
            "",
        ),
        (&["run", "plus.pas"], b"", 6, "-- error 1:34 overflow\n", ""),
        (
            &["run", "for.pas"],
            b"",
            6,
            "-- error 5:11 undefined value\n",
            "",
        ),
        (
            &["run", "case.pas"],
            b"",
            6,
            "-- error 1:26 no case label\n",
            "",
        ),
        (
            &["run", "twice.pas"],
            b"21",
            0,
            "42\n-- halted after 5 steps\n",
            "",
        ),
        (
            &["run", "twice.pas"],
            b"",
            6,
            "-- error 4:8 no number to read\n",
            "",
        ),
        (
            &["run", "twice.pas"],
            b"x",
            6,
            "-- error 4:8 no number to read\n",
            "",
        ),
        (
            &["run", "twice.pas", "--steps", "5"],
            b"21",
            0,
            "42\n-- halted after 5 steps\n",
            "",
        ),
        (
            &["run", "twice.pas", "--steps", "4"],
            b"21",
            7,
            "42\n-- out of steps after 4\n",
            "",
        ),
        (
            &["run", "twice.pas", "--steps", "1"],
            b"21",
            7,
            "-- out of steps after 1\n",
            "",
        ),
        (
            &["run", "width.pas"],
            b"",
            0,
            "ab  true  5\n-- halted after 5 steps\n",
            "",
        ),
        (
            &["run", "lines.pas"],
            b"1 2\n3",
            0,
            "4\n-- halted after 7 steps\n",
            "",
        ),
        (
            &["run", "alias.pas"],
            b"",
            0,
            "-- halted after 12 steps\n",
            "",
        ),
        (&["run", "u.pas"], b"", 1, "", "u.pas:1:18: unknown name\n"),
        (
            &["run", "s.pas"],
            b"",
            1,
            "",
            "s.pas:1:20: unexpected token\n",
        ),
        (
            &["run", "empty.pas"],
            b"",
            1,
            "",
            "empty.pas:1:1: unexpected end\n",
        ),
        (
            &["run", "end.pas"],
            b"",
            1,
            "",
            "end.pas:1:17: unexpected end\n",
        ),
        (&["run", "byte.pas"], b"", 1, "", "byte.pas:2:7: bad byte\n"),
        (
            &["run", "comment.pas"],
            b"",
            1,
            "",
            "comment.pas:1:31: unclosed comment\n",
        ),
        (
            &["run", "string.pas"],
            b"",
            1,
            "",
            "string.pas:1:24: unclosed string\n",
        ),
        (
            &["run", "number.pas"],
            b"",
            1,
            "",
            "number.pas:1:24: number too large\n",
        ),
        (
            &["run", "open.pas"],
            b"",
            1,
            "",
            "open.pas:1:18: unclosed assertion\n",
        ),
        (
            &["run", "label.pas"],
            b"",
            1,
            "",
            "label.pas:1:31: label above 9999\n",
        ),
        (
            &["run", "missing.pas"],
            b"",
            3,
            "",
            "missing.pas: cannot be read\n",
        ),
    ];
    for (words, input, number, out, err) in cases {
        let outcome = answer_to(rt.alloc(), &FILES, &run_of(words, input))?;
        assert_eq!(rt; number_of(&outcome.status), number);
        assert_eq!(rt; outcome.out.bytes(), out.as_bytes());
        assert_eq!(rt; outcome.err.bytes(), err.as_bytes());
    }
    Ok(())
}

/// Faults of the outside. The source's faults come before those of the input.
#[test]
fn faults(rt: HostRuntime) -> Result<(), Fail> {
    let twice = run_of(&["run", "twice.pas"], b"21");
    let wrong = run_of(&["run", "u.pas"], b"");
    let unread = "twice.pas: cannot be read\n";
    let no_input = "input: cannot be read\n";
    let text = "42\n-- halted after 5 steps\n";
    let cases: [(Setting, u8, &str, &str); 9] = [
        (
            Setting {
                out_most: 5,
                out_fails: 2,
                ..twice
            },
            4,
            "42\n--",
            "",
        ),
        (
            Setting {
                out_most: 1,
                ..twice
            },
            0,
            text,
            "",
        ),
        (
            Setting {
                out_room: 26,
                ..twice
            },
            4,
            "42\n-- halted after 5 steps",
            "",
        ),
        (
            Setting {
                given_fails: 1,
                ..twice
            },
            3,
            "",
            no_input,
        ),
        (
            Setting {
                given_fails: 2,
                ..twice
            },
            3,
            "",
            no_input,
        ),
        (
            Setting {
                given_fails: 1,
                err_fails: 1,
                ..twice
            },
            4,
            "",
            "",
        ),
        (
            Setting {
                shelf_fails: 1,
                given_fails: 1,
                ..twice
            },
            3,
            "",
            unread,
        ),
        (
            Setting {
                shelf_fails: 2,
                ..twice
            },
            3,
            "",
            unread,
        ),
        (
            Setting {
                given_fails: 1,
                ..wrong
            },
            1,
            "",
            "u.pas:1:18: unknown name\n",
        ),
    ];
    for (setting, number, out, err) in cases {
        let outcome = answer_to(rt.alloc(), &FILES, &setting)?;
        assert_eq!(rt; number_of(&outcome.status), number);
        assert_eq!(rt; outcome.out.bytes(), out.as_bytes());
        assert_eq!(rt; outcome.err.bytes(), err.as_bytes());
    }
    Ok(())
}
