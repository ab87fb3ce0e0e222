//! The words of the command line.
use super::{EMPTY, PLAIN, Setting, USAGE, answer_to};
use crate::status::number_of;
use std::test::Fail;

/// A program that halts after two steps, under names that are words of their own.
const FILES: [(&str, &str); 3] = [("p", EMPTY), ("-", EMPTY), ("", EMPTY)];

const HALTED: &str = "-- halted after 2 steps\n";

/// A number has digits alone, any number of them.
#[test]
fn served(rt: HostRuntime) -> Result<(), Fail> {
    let cases: [&[&str]; 8] = [
        &["run", "p"],
        &["run", "-"],
        &["run", ""],
        &["run", "p", "--steps", "2"],
        &["run", "p", "--steps", "02"],
        &["run", "p", "--steps", "000000000000000000000000000002"],
        &["run", "p", "--steps", "1000000"],
        &["run", "p", "--steps", "1000000000"],
    ];
    for words in cases {
        let setting = Setting { words, ..PLAIN };
        let outcome = answer_to(rt.alloc(), &FILES, &setting)?;
        assert_eq!(rt; number_of(&outcome.status), 0);
        assert_eq!(rt; outcome.out.bytes(), HALTED.as_bytes());
        assert_eq!(rt; outcome.err.bytes(), b"".as_slice());
    }
    Ok(())
}

#[test]
fn refused(rt: HostRuntime) -> Result<(), Fail> {
    let cases: [&[&str]; 31] = [
        &[""],
        &["analyse"],
        &["run"],
        &["p"],
        &["analyse", "-x"],
        &["run", "-x"],
        &["run", "--"],
        &["Run", "p"],
        &["make", "1"],
        &["analyse", "--points"],
        &["analyse", "--points", "p"],
        &["analyse", "p", "--point"],
        &["analyse", "p", "--points", "p"],
        &["analyse", "p", "--points", "--points"],
        &["analyse", "p", "--rounds", "0"],
        &["run", "p", "--points"],
        &["analyse", "p", "--steps", "2"],
        &["run", "p", "p"],
        &["run", "p", "--steps"],
        &["run", "p", "--step", "1"],
        &["run", "--x", "--steps", "1"],
        &["run", "p", "--steps", "1", "p"],
        &["run", "p", "--steps", ""],
        &["run", "p", "--steps", "0"],
        &["run", "p", "--steps", "1000000001"],
        &["run", "p", "--steps", "4294967297"],
        &["run", "p", "--steps", "+1"],
        &["run", "p", "--steps", "-1"],
        &["run", "p", "--steps", "1 "],
        &["run", "p", "--steps", "1a"],
        &["run", "p", "--steps", "1_0"],
    ];
    for words in cases {
        let setting = Setting { words, ..PLAIN };
        let outcome = answer_to(rt.alloc(), &FILES, &setting)?;
        assert_eq!(rt; number_of(&outcome.status), 2);
        assert_eq!(rt; outcome.out.bytes(), b"".as_slice());
        assert_eq!(rt; outcome.err.bytes(), USAGE.as_bytes());
    }
    Ok(())
}
