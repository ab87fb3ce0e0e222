//! Sources and inputs at the limits.
use super::{EMPTY, PLAIN, Setting, answer_to};
use crate::status::number_of;
use std::alloc::{AllocError, Global};
use std::test::Fail;

/// A text with a piece so many times, between a head and an end.
pub fn repeated(
    alloc: Global,
    head: &str,
    piece: &str,
    times: u32,
    end: &str,
) -> Result<String, AllocError> {
    let mut text = String::from_str(alloc, head)?;
    for _ in 0..times {
        text.push_str(piece)?;
    }
    text.push_str(end)?;
    Ok(text)
}

/// A program whose statement part has so many others in one another.
fn nested(alloc: Global, times: u32) -> Result<String, AllocError> {
    let body = repeated(alloc, "program p; begin ", "begin ", times, "")?;
    repeated(alloc, body.as_str(), "end ", times, "end.")
}

#[test]
fn limits(rt: HostRuntime) -> Result<(), Fail> {
    let alloc = rt.alloc();
    // With its line feed the program has 22 bytes.
    let full = repeated(alloc, EMPTY, " ", 1_048_554, "")?;
    let over = repeated(alloc, EMPTY, " ", 1_048_555, "")?;
    let deep = nested(alloc, 199)?;
    let deeper = nested(alloc, 200)?;
    let files = [
        ("full", full.as_str()),
        ("over", over.as_str()),
        ("deep", deep.as_str()),
        ("deeper", deeper.as_str()),
        ("wrong", "program p; begin x := 1 end.\n"),
    ];
    let input = repeated(alloc, "", "\n", 1_048_576, "")?;
    let large = repeated(alloc, "", "\n", 1_048_577, "")?;
    let halted = "-- halted after 2 steps\n";
    let cases: [(&str, &str, u8, &str, &str); 7] = [
        ("full", "", 0, halted, ""),
        ("over", "", 1, "", "over: too large\n"),
        ("deep", "", 0, "-- halted after 201 steps\n", ""),
        ("deeper", "", 1, "", "deeper:1:1212: nesting too deep\n"),
        ("full", input.as_str(), 0, halted, ""),
        ("full", large.as_str(), 8, "", "input: too large\n"),
        ("wrong", large.as_str(), 1, "", "wrong:1:18: unknown name\n"),
    ];
    for (file, input, number, out, err) in cases {
        let words = ["run", file];
        let setting = Setting {
            words: &words,
            input: input.as_bytes(),
            ..PLAIN
        };
        let outcome = answer_to(alloc, &files, &setting)?;
        assert_eq!(rt; number_of(&outcome.status), number);
        assert_eq!(rt; outcome.out.bytes(), out.as_bytes());
        assert_eq!(rt; outcome.err.bytes(), err.as_bytes());
    }
    Ok(())
}
