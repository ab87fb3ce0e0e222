ghost use Rattle.std.specs.Prelude.{◌≡◌, ◌<◌, length, string_bytes, IfOk};
ghost use Rattle.px_base.specs.Place.{place_at};
ghost use Rattle.interp.specs.RunText as spec;

use crate::running::{Ended, Ending};
use control_points::Fault;
use px_base::{Kind, Pos, pos_of};
use std::alloc::{AllocError, Global};

/// What the user is shown of a run of the program with this source: its output, a line feed where that does not end in one,
/// and a line that says how it ended.
///
/// # Errors
///
/// Where memory is lacking.
pub fn text(alloc: Global, ended: Ended, source: &[u8]) -> Result<Vec<u8>, AllocError>
    requires { length source.now < 4294967295 }
    ensures { IfOk result (λ text. text.items ≡ spec.run_text source.now ended) }
{
    let line = last_line(alloc, ended.ending, ended.steps, source)?;
    let mut text = ended.output;
    if let Some(last) = text.last()
        && *last != b'\n'
    {
        text.push(b'\n')?;
    }
    text.extend_from_slice(line.as_bytes())?;
    Ok(text)
}

/// The line that says how a run ended.
fn last_line(alloc: Global, ending: Ending, steps: u32, source: &[u8]) -> Result<String, AllocError>
    requires { length source.now < 4294967295 }
    ensures { IfOk result (λ line. string_bytes line ≡ spec.last_line source.now steps ending) }
{
    match ending {
        Ending::Halted => format!(in alloc; "-- halted after {steps} steps\n"),
        Ending::Error(fault) => error_line(alloc, fault, source),
        Ending::OutOfSteps => format!(in alloc; "-- out of steps after {steps}\n"),
    }
}

fn error_line(alloc: Global, fault: Fault, source: &[u8]) -> Result<String, AllocError>
    requires { length source.now < 4294967295 }
    ensures { IfOk result (λ line. string_bytes line ≡ spec.error_line source.now fault) }
{
    let pos = place_of(source, fault.at);
    let line = pos.line;
    let col = pos.col;
    let mut text = format!(in alloc; "-- error {line}:{col} ")?;
    text.push_str(kind_text(fault.kind))?;
    let end = "\n";
    text.push_str(end)?;
    Ok(text)
}

/// Line and column of a place of the source, or of its end.
fn place_of(source: &[u8], at: u32) -> Pos
    requires { length source.now < 4294967295 }
    ensures { result ≡ place_at source.now at }
{
    let end = source.len() as u32;
    if at < end {
        pos_of(source, at)
    } else {
        pos_of(source, end)
    }
}

/// The words for a kind of error.
pub fn kind_text(kind: Kind) -> &'static str
    ensures { result.now ≡ spec.kind_text kind }
{
    match kind {
        Kind::Overflow => "overflow",
        Kind::DivisionByZero => "division by zero",
        Kind::ModulusNotPositive => "modulus not positive",
        Kind::UndefinedValue => "undefined value",
        Kind::IndexOutOfRange => "index out of range",
        Kind::ValueOutOfRange => "value out of range",
        Kind::NoCaseLabel => "no case label",
        Kind::NoNeighbour => "no successor or predecessor",
        Kind::NoNumber => "no number to read",
        Kind::WidthOutOfRange => "width out of range",
        Kind::NoResult => "no function result",
        Kind::Assertion => "assertion",
    }
}

#[cfg(test)]
mod tests {
    use super::*;
    use std::test::Fail;

    #[test]
    fn of_a_run(rt: HostRuntime) -> Result<(), Fail> {
        let fault = Fault {
            kind: Kind::DivisionByZero,
            at: 4,
        };
        let cases = [
            ("", Ending::Halted, 5, "-- halted after 5 steps\n"),
            ("a", Ending::Halted, 1, "a\n-- halted after 1 steps\n"),
            ("a\n", Ending::OutOfSteps, 7, "a\n-- out of steps after 7\n"),
            (
                "a\n\n",
                Ending::Error(fault),
                7,
                "a\n\n-- error 2:2 division by zero\n",
            ),
        ];
        for (output, ending, steps, want) in cases {
            let ended = Ended {
                ending,
                steps,
                output: output.as_bytes().to_vec(rt.alloc())?,
            };
            let shown = text(rt.alloc(), ended, b"ab\ncd\n")?;
            assert_eq!(rt; shown.as_slice(), want.as_bytes(), "after {output:?}");
        }
        Ok(())
    }
}
