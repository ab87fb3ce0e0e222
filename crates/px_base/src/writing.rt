//! Writing whole texts.
ghost use Rattle.std.specs.Prelude.{OnOk, OnErr, is_err};
ghost use Rattle.px_base.specs.Bytes.{Adds, AddsPrefix};
ghost use Rattle.px_base.specs.Faults.{HasCause};

use crate::{Failed, Sink};

/// Writes all the bytes, piece by piece as the sink takes them. After a fault the sink has taken a prefix of them.
#[tactic(auto, using(crate::proofs::Pieces::written_more))]
pub fn write_all<W: Sink>(sink: &mut W, bytes: &[u8]) -> Result<(), Failed>
    ensures whole { OnOk result (Adds (W.taken sink.old) (W.taken sink.new) bytes.now) }
    ensures prefix { OnErr result (AddsPrefix (W.taken sink.old) (W.taken sink.new) bytes.now) }
    ensures cause { HasCause (W.faults sink.old) (W.faults sink.new) (is_err result) }
{
    let mut written = 0;
    while written < bytes.len() {
        written += sink.write(&bytes[written..])?;
    }
    Ok(())
}
