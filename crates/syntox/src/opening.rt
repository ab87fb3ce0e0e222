//! The source in a file with its flow, or the line that says why there is none.
ghost use Rattle.std.specs.Prelude.{◌≡◌, ◌≤◌, ◌↔◌, ℕ, List, Option, length, IfOk};
ghost use Rattle.px_base.specs.Bytes.{ForFile};
ghost use Rattle.report.specs.Wording.{CanTell, fault_line};
ghost use Rattle.syntox.specs.Files.{IsOpening};
ghost use Rattle.syntox.specs.Lines.{max_source};

use crate::due::{Due, Stream, unreadable};
use crate::limit::MAX_SOURCE;
use crate::source::{Refusal, flow_of};
use crate::status::Status;
use control_points::Flow;
use px_base::{ReadEnd, Shelf, read_file};
use report::{SourceFault, fault_text};
use std::alloc::{AllocError, Global};

/// What a command has of the file that it names.
#[derive(Debug, Drop)]
pub enum Opening {
    /// The bytes of a source without fault, and its flow.
    Source { text: Vec<u8>, flow: Flow },
    /// The line that it cannot be read, or that tells its fault.
    Line(Due),
}

/// The line of a source's fault.
pub fn refuse(
    alloc: Global,
    file: &str,
    text: &[u8],
    fault: &SourceFault,
) -> Result<Due, AllocError>
    requires small { length text.now ≤ max_source }
    requires told { CanTell (length text.now) fault.now }
    ensures stream { IfOk result (λ due. due.to ≡ Stream.Complaints) }
    ensures text { IfOk result (λ due. due.text.items ≡ fault_line file.now text.now fault.now) }
    ensures status { IfOk result (λ due. due.status ≡ Status.Refused) }
{
    let text = fault_text(alloc, file, text, fault)?;
    let to = Stream::Complaints;
    let status = Status::Refused;
    Ok(Due { to, text, status })
}

/// What a command has of a file with these bytes.
fn open_text(alloc: Global, file: &str, text: Vec<u8>) -> Result<Opening, AllocError>
    requires { length text.items ≤ max_source }
    ensures { (told : Option (Option (List ℕ))) (before after : ℕ) → ForFile told (λ known. text.items ≡ known)
        → IfOk result (IsOpening file.now told before after) }
{
    match flow_of(alloc, &text) {
        Ok(flow) => Ok(Opening::Source { text, flow }),
        Err(Refusal::Fault(fault)) => {
            let due = refuse(alloc, file, &text, &fault)?;
            Ok(Opening::Line(due))
        }
        Err(Refusal::Memory(error)) => Err(error),
    }
}

/// Reads a file, and finds the flow of its bytes.
pub fn open_file<P: Shelf>(alloc: Global, file: &str, shelf: &mut P) -> Result<Opening, AllocError>
    requires { P.may_ask shelf.old file.now }
    ensures opening { IfOk result (IsOpening file.now (P.file shelf.old file.now) (P.faults shelf.old) (P.faults shelf.new)) }
    ensures names { (n : List ℕ) → P.may_ask shelf.new n ↔ P.may_ask shelf.old n }
    ensures files { (n : List ℕ) → P.file shelf.new n ≡ P.file shelf.old n }
{
    match read_file(alloc, shelf, file, MAX_SOURCE) {
        Ok(text) => open_text(alloc, file, text),
        Err(ReadEnd::TooLarge) => {
            let due = refuse(alloc, file, b"", &SourceFault::TooLarge)?;
            Ok(Opening::Line(due))
        }
        Err(ReadEnd::Failed) => {
            let due = unreadable(alloc, file)?;
            Ok(Opening::Line(due))
        }
        Err(ReadEnd::Memory(error)) => Err(error),
    }
}
