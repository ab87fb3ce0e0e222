//! The command `run`.
ghost use Rattle.std.specs.Prelude.{◌≡◌, ◌≤◌, ◌↔◌, ◌⊎◌, ℕ, List, Option, Some, length, IfOk};
ghost use Rattle.syntox.specs.Files.{HasFlow, IsFaultless, IsUnopened};
ghost use Rattle.syntox.specs.Lines.{max_input, max_source};
ghost use Rattle.syntox.specs.Running.{IsRun, IsRunDue, input_of, status_of};

use crate::due::{Due, Stream, line, unreadable};
use crate::limit::MAX_INPUT;
use crate::opening::{Opening, open_file};
use crate::status::Status;
use control_points::Flow;
use interp::{Ending, items_of, run as run_flow, text as run_text};
use px_base::{ReadEnd, Shelf, Source, read_all};
use std::alloc::{AllocError, Global};

/// The status of a run that ended so.
fn status_of(ending: Ending) -> Status
    ensures { result ≡ status_of ending }
{
    match ending {
        Ending::Halted => Status::Done,
        Ending::Error(_) => Status::RunError,
        Ending::OutOfSteps => Status::OutOfSteps,
    }
}

/// The text of a run on the bytes of an input.
fn run_on(
    alloc: Global,
    text: &[u8],
    flow: &Flow,
    steps: u32,
    input: &[u8],
) -> Result<Due, AllocError>
    requires source { length text.now ≤ max_source }
    requires input { length input.now ≤ max_input }
    ensures stream { IfOk result (λ due. due.to ≡ Stream.Answers) }
    ensures run { (told : Option (Option (List ℕ))) → HasFlow told text.now flow.now
        → IfOk result (λ due. IsRun told (Some input.now) steps due.status due.text.items) }
{
    let items = items_of(alloc, input)?;
    let ended = run_flow(alloc, flow, &items, steps)?;
    let status = status_of(ended.ending);
    let text = run_text(alloc, ended, text)?;
    let to = Stream::Answers;
    Ok(Due { to, text, status })
}

/// What is due for a run of a source without fault: the text, or the line that there is no input for it.
fn run_with<D: Source>(
    alloc: Global,
    text: &[u8],
    flow: &Flow,
    steps: u32,
    given: &mut D,
) -> Result<Due, AllocError>
    requires { length text.now ≤ max_source }
    ensures { (told : Option (Option (List ℕ))) → HasFlow told text.now flow.now → IfOk result (λ due. IsRunDue told
        (input_of (D.left given.old) (D.faults given.old) (D.faults given.new)) steps due.to due.text.items due.status) }
{
    match read_all(alloc, given, MAX_INPUT) {
        Ok(input) => run_on(alloc, text, flow, steps, &input),
        Err(ReadEnd::TooLarge) => line(alloc, "input", "too large", Status::DataTooLarge),
        Err(ReadEnd::Failed) => unreadable(alloc, "input"),
        Err(ReadEnd::Memory(error)) => Err(error),
    }
}

/// What is due for a run of the program in a file, of at most so many steps.
pub fn run<P: Shelf, D: Source>(
    alloc: Global,
    file: &str,
    steps: u32,
    shelf: &mut P,
    given: &mut D,
) -> Result<Due, AllocError>
    requires { P.may_ask shelf.old file.now }
    ensures due { IfOk result (λ due.
        IsRunDue (P.file shelf.old file.now) (input_of (D.left given.old) (D.faults given.old) (D.faults given.new)) steps
        due.to due.text.items due.status
        ⊎ IsUnopened file.now (P.file shelf.old file.now) (P.faults shelf.old) (P.faults shelf.new) due.to due.text.items due.status) }
    ensures names { (n : List ℕ) → P.may_ask shelf.new n ↔ P.may_ask shelf.old n }
    ensures files { (n : List ℕ) → P.file shelf.new n ≡ P.file shelf.old n }
    ensures given { (given.new ≡ given.old) ⊎ IsFaultless (P.file shelf.old file.now) }
{
    match open_file(alloc, file, shelf)? {
        Opening::Source { text, flow } => run_with(alloc, &text, &flow, steps, given),
        Opening::Line(due) => Ok(due),
    }
}
