//! `analyse`.
use super::large::repeated;
use super::unfolding::wide;
use super::{EMPTY, PLAIN, Setting, USAGE, answer_to};
use crate::status::number_of;
use std::test::Fail;

const FILES: [(&str, &str); 4] = [
    ("e.pas", EMPTY),
    ("lexical.pas", "program p; begin % end.\n"),
    ("syntax.pas", "program p; begin end"),
    ("rule.pas", "program p; begin x := 1 end.\n"),
];

const REPORT: &str = "file e.pas
origin possible
total 0 conditions, 0 needless, 0 open
";

const WITH_POINTS: &str = "file e.pas
origin possible
point 1:12 entry
point 1:18 before
point 1:18 exit
total 0 conditions, 0 needless, 0 open
";

const ANALYSE: Setting<'static> = Setting {
    words: &["analyse", "e.pas"],
    ..PLAIN
};

/// Words, with the status and what `out` and `err` take.
#[test]
fn answers(rt: HostRuntime) -> Result<(), Fail> {
    let cases: [(&[&str], u8, &str, &str); 8] = [
        (&["analyse", "e.pas"], 0, REPORT, ""),
        (&["analyse", "e.pas", "--points"], 0, WITH_POINTS, ""),
        (
            &["analyse", "missing.pas"],
            3,
            "",
            "missing.pas: cannot be read\n",
        ),
        (
            &["analyse", "lexical.pas"],
            1,
            "",
            "lexical.pas:1:18: bad byte\n",
        ),
        (
            &["analyse", "syntax.pas", "--points"],
            1,
            "",
            "syntax.pas:1:21: unexpected end\n",
        ),
        (
            &["analyse", "rule.pas"],
            1,
            "",
            "rule.pas:1:18: unknown name\n",
        ),
        (&[], 2, "", USAGE),
        (&["analyse"], 2, "", USAGE),
    ];
    for (words, number, out, err) in cases {
        let setting = Setting { words, ..PLAIN };
        let outcome = answer_to(rt.alloc(), &FILES, &setting)?;
        assert_eq!(rt; number_of(&outcome.status), number);
        assert_eq!(rt; outcome.out.bytes(), out.as_bytes());
        assert_eq!(rt; outcome.err.bytes(), err.as_bytes());
    }
    Ok(())
}

/// Calls of the shelf, of the input's source and of the sinks that fail, and sinks that take a part.
#[test]
fn failures(rt: HostRuntime) -> Result<(), Fail> {
    let unread = "e.pas: cannot be read\n";
    // The numbers of the calls that fail: of the shelf, of the input, of `out` and of `err`; and the room of `out`.
    let cases: [(u32, u32, u32, u32, usize, u8, &str, &str); 9] = [
        (1, 0, 0, 0, 4096, 3, "", unread),
        (2, 0, 0, 0, 4096, 3, "", unread),
        (4, 0, 0, 0, 4096, 0, REPORT, ""),
        (0, 1, 0, 0, 4096, 0, REPORT, ""),
        (0, 0, 1, 0, 4096, 4, "", ""),
        (0, 0, 0, 1, 4096, 0, REPORT, ""),
        (0, 0, 0, 0, 10, 4, "file e.pas", ""),
        (1, 0, 0, 1, 4096, 4, "", ""),
        (2, 0, 0, 2, 4096, 4, "", "e.pas: "),
    ];
    for (shelf_fails, given_fails, out_fails, err_fails, out_room, number, out, err) in cases {
        let setting = Setting {
            shelf_fails,
            given_fails,
            out_fails,
            err_fails,
            out_room,
            ..ANALYSE
        };
        let outcome = answer_to(rt.alloc(), &FILES, &setting)?;
        assert_eq!(rt; number_of(&outcome.status), number);
        assert_eq!(rt; outcome.out.bytes(), out.as_bytes());
        assert_eq!(rt; outcome.err.bytes(), err.as_bytes());
    }
    Ok(())
}

/// A file of one byte too many; and 999 variables with 1,000 procedures, of which each is called once.
#[test]
fn too_large(rt: HostRuntime) -> Result<(), Fail> {
    let over = repeated(rt.alloc(), EMPTY, " ", 1_048_555, "")?;
    let big = wide(rt.alloc(), 1000)?;
    let cases: [(&str, &str, &str); 2] = [
        ("over.pas", over.as_str(), "over.pas: too large\n"),
        (
            "big.pas",
            big.as_str(),
            "big.pas: too many cells: 4002000\n",
        ),
    ];
    for (file, text, line) in cases {
        let words = ["analyse", file];
        let files = [(file, text)];
        let setting = Setting {
            words: &words,
            ..PLAIN
        };
        let outcome = answer_to(rt.alloc(), &files, &setting)?;
        assert_eq!(rt; number_of(&outcome.status), 1);
        assert_eq!(rt; outcome.out.bytes(), b"".as_slice());
        assert_eq!(rt; outcome.err.bytes(), line.as_bytes());
    }
    Ok(())
}
