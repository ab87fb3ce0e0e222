//! What a command owes: a text for one of the two sinks, and the status once it was written whole.
ghost use Rattle.std.specs.Prelude.{◌≡◌, IfOk};
ghost use Rattle.syntox.specs.Lines.{line, unreadable_line, usage_line};
ghost use Rattle.syntox.specs.Sinks.{Delivers, Says, Spares, at, sinks};

use crate::command::USAGE;
use crate::status::Status;
use px_base::{Failed, Sink, write_all};
use std::alloc::{AllocError, Global};

/// Where a text goes.
#[derive(Clone, Copy, Debug, PartialEq, Eq)]
pub enum Stream {
    /// To `out`, what was asked for.
    Answers,
    /// To `err`, a line that says why there is none.
    Complaints,
}

/// A text that is due to a sink, and the status that stands once the sink took all of it.
#[derive(Debug, Drop)]
pub struct Due {
    pub to: Stream,
    pub text: Vec<u8>,
    pub status: Status,
}

/// The line `WHO: why`.
pub fn line(alloc: Global, who: &str, why: &str, status: Status) -> Result<Due, AllocError>
    ensures stream { IfOk result (λ due. due.to ≡ Stream.Complaints) }
    ensures text { IfOk result (λ due. due.text.items ≡ line who.now why.now) }
    ensures status { IfOk result (λ due. due.status ≡ status) }
{
    let mut text = Vec::from_slice(alloc, who.as_bytes())?;
    text.extend_from_slice(b": ")?;
    text.extend_from_slice(why.as_bytes())?;
    text.extend_from_slice(b"\n")?;
    let to = Stream::Complaints;
    Ok(Due { to, text, status })
}

/// The line that a file, or the input, cannot be read.
pub fn unreadable(alloc: Global, who: &str) -> Result<Due, AllocError>
    ensures stream { IfOk result (λ due. due.to ≡ Stream.Complaints) }
    ensures text { IfOk result (λ due. due.text.items ≡ unreadable_line who.now) }
    ensures status { IfOk result (λ due. due.status ≡ Status.ReadFault) }
{
    line(alloc, who, "cannot be read", Status::ReadFault)
}

/// The usage line.
pub fn usage(alloc: Global) -> Result<Due, AllocError>
    ensures stream { IfOk result (λ due. due.to ≡ Stream.Complaints) }
    ensures text { IfOk result (λ due. due.text.items ≡ usage_line) }
    ensures status { IfOk result (λ due. due.status ≡ Status.Usage) }
{
    let text = Vec::from_slice(alloc, USAGE.as_bytes())?;
    let to = Stream::Complaints;
    let status = Status::Usage;
    Ok(Due { to, text, status })
}

/// Writes a text to a sink. The status stands unless the sink fails.
fn say<W: Sink>(sink: &mut W, text: &[u8], meant: Status) -> Status
    ensures { Says meant (at (W.taken sink.old) (W.faults sink.old)) (at (W.taken sink.new) (W.faults sink.new)) text.now result }
{
    match write_all(sink, text) {
        Ok(()) => meant,
        Err(Failed) => Status::WriteFault,
    }
}

/// Writes what is due. Its status stands unless the sink fails. The other sink isn't called.
pub fn deliver<O: Sink, E: Sink>(due: &Due, out: &mut O, err: &mut E) -> Status
    ensures delivers { Delivers due.now.to due.now.text.items due.now.status (sinks
        (at (O.taken out.old) (O.faults out.old)) (at (O.taken out.new) (O.faults out.new))
        (at (E.taken err.old) (E.faults err.old)) (at (E.taken err.new) (E.faults err.new))) result }
    ensures spares { Spares due.now.to (out.new ≡ out.old) (err.new ≡ err.old) }
{
    match due.to {
        Stream::Answers => say(out, &due.text, due.status),
        Stream::Complaints => say(err, &due.text, due.status),
    }
}
