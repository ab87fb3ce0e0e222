//! Syntox analyses a Pascal program without running it, and runs one. `top` is all that the program does; `main` makes the real
//! shelf, source and sinks, calls it and ends with the number of its status.
#![tactic(auto)]

mod adapters;
mod analyse;
mod command;
mod due;
mod limit;
mod opening;
mod run;
mod source;
mod status;
#[cfg(test)]
mod tests;
mod top;

use adapters::{FileShelf, StdSink, StdSource};
use status::Status;
use std::process::ExitCode;
use std::{env, io};
use top::top;

/// The command's words, without the program's own name.
fn words(rt: &HostRuntime) -> io::Result<Vec<String>> {
    let mut words = Vec::new(rt.alloc());
    for word in env::args(rt)?.skip(1) {
        words.push(word)?;
    }
    Ok(words)
}

fn main(rt: HostRuntime) -> ExitCode {
    let words = match words(&rt) {
        Ok(words) => words,
        Err(error) if error.kind() == io::ErrorKind::InvalidData => {
            return ExitCode::from(Status::Usage.number());
        }
        Err(_) => return ExitCode::from(status::NO_MEMORY),
    };
    let mut shelf = FileShelf::new(&rt);
    let mut given = StdSource::new(rt.stdin());
    let mut out = StdSink::new(rt.stdout());
    let mut err = StdSink::new(rt.stderr());
    let answer = top(
        rt.alloc(),
        &words,
        &mut shelf,
        &mut given,
        &mut out,
        &mut err,
    );
    ExitCode::from(status::number_of(&answer))
}
