//! What no contract says: that the answers come, and the texts as people read them. Expected texts are written out from
//! the rules of the language.
mod analysis;
mod checking;
mod drawn;
mod graph;
mod large;
mod running;
mod steps;
mod unfolding;
mod words;

use crate::status::Status;
use crate::top::top;
use px_base::{MemShelf, MemSink, MemSource, SureShelf, SureSink, SureSource};
use std::alloc::{AllocError, Global};
use std::test::Fail;

const USAGE: &str =
    "usage: syntox analyse FILE [--rounds N] [--points] | run FILE [--steps N] | make N\n";

/// A program of 22 bytes that does nothing.
const EMPTY: &str = "program p; begin end.\n";

/// What a call is made with: the words, the bytes of the input, the numbers of the calls of each object that fail (0 for
/// none), and how many bytes `out` takes at most, in all and at once.
#[derive(Clone, Copy)]
struct Setting<'a> {
    words: &'a [&'a str],
    input: &'a [u8],
    shelf_fails: u32,
    given_fails: u32,
    out_fails: u32,
    err_fails: u32,
    out_room: usize,
    out_most: usize,
}

const PLAIN: Setting<'static> = Setting {
    words: &[],
    input: b"",
    shelf_fails: 0,
    given_fails: 0,
    out_fails: 0,
    err_fails: 0,
    out_room: 4096,
    out_most: 100,
};

#[derive(Drop)]
struct Outcome {
    status: Result<Status, AllocError>,
    out: MemSink,
    err: MemSink,
}

fn shelf_of(alloc: Global, files: &[(&str, &str)], failing: u32) -> Result<MemShelf, AllocError> {
    let mut all = Vec::new(alloc);
    for (name, text) in files {
        all.push((
            String::from_str(alloc, name)?,
            text.as_bytes().to_vec(alloc)?,
        ))?;
    }
    Ok(MemShelf::new(all, vec![in alloc; failing]?))
}

fn words_of(alloc: Global, words: &[&str]) -> Result<Vec<String>, AllocError> {
    let mut all = Vec::new(alloc);
    for word in words {
        all.push(String::from_str(alloc, word)?)?;
    }
    Ok(all)
}

fn answer_to(
    alloc: Global,
    files: &[(&str, &str)],
    setting: &Setting,
) -> Result<Outcome, AllocError> {
    let words = words_of(alloc, setting.words)?;
    let mut shelf = shelf_of(alloc, files, setting.shelf_fails)?;
    let given_fails = vec![in alloc; setting.given_fails]?;
    let mut given = MemSource::new(setting.input.to_vec(alloc)?, given_fails);
    let out_fails = vec![in alloc; setting.out_fails]?;
    let err_fails = vec![in alloc; setting.err_fails]?;
    let mut out = MemSink::new(alloc, setting.out_room, setting.out_most.max(1), out_fails)?;
    let mut err = MemSink::new(alloc, 4096, 7, err_fails)?;
    let status = top(alloc, &words, &mut shelf, &mut given, &mut out, &mut err);
    Ok(Outcome { status, out, err })
}

/// Over objects that never fail no fault is answered.
#[test]
fn sure_objects(rt: HostRuntime) -> Result<(), Fail> {
    for command in ["analyse", "run"] {
        let words = words_of(rt.alloc(), &[command, "any.pas"])?;
        let mut shelf = SureShelf::new(EMPTY.as_bytes().to_vec(rt.alloc())?);
        let mut given = SureSource::new(Vec::new(rt.alloc()));
        let (mut out, mut err) = (SureSink::new(), SureSink::new());
        let answer = top(
            rt.alloc(),
            &words,
            &mut shelf,
            &mut given,
            &mut out,
            &mut err,
        );
        assert_eq!(rt; answer, Ok(Status::Done));
    }
    Ok(())
}
