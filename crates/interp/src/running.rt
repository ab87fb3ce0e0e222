ghost use Rattle.std.specs.Prelude.{◌≡◌, IfOk};
ghost use Rattle.control_points.specs.Flows.{chart_of};
ghost use Rattle.control_points.specs.Runs.{IsInput};
ghost use Rattle.interp.specs.RunText.{IsBounded, IsEnd};

use crate::machine::{Machine, Progress};
use control_points::{Fault, Flow, Item};
use std::alloc::{AllocError, Global};

/// How a run ended, or that its steps were used up.
#[derive(Clone, Copy, Debug, PartialEq, Eq)]
pub enum Ending {
    /// At the exit of the program's block.
    Halted,
    /// The next step is this error.
    Error(Fault),
    /// There is a next state, but no more steps were allowed.
    OutOfSteps,
}

/// What came of a run.
#[derive(Debug, Drop)]
pub struct Ended {
    pub ending: Ending,
    /// The number of steps that were made.
    pub steps: u32,
    /// The output up to there.
    pub output: Vec<u8>,
}

/// Runs a program on an input until it halts, meets an error or has made `limit` steps.
///
/// # Errors
///
/// Where memory is lacking.
pub fn run(alloc: Global, flow: &Flow, items: &[Item], limit: u32) -> Result<Ended, AllocError>
    requires input { IsInput items.now }
    ensures ended { IfOk result (IsEnd (chart_of flow.now) items.now limit) }
    ensures bounded { IfOk result (IsBounded limit) }
{
    let mut machine = Machine::new(alloc, flow, items)?;
    for steps in 0..limit {
        match machine.step()? {
            Progress::Moved => {}
            Progress::Halted => return Ok(stopped(machine, Ending::Halted, steps)),
            Progress::Error { kind, at } => {
                return Ok(stopped(machine, Ending::Error(Fault { kind, at }), steps));
            }
        }
    }
    let before = machine.output().len();
    let ending = match machine.step()? {
        Progress::Moved => Ending::OutOfSteps,
        Progress::Halted => Ending::Halted,
        Progress::Error { kind, at } => Ending::Error(Fault { kind, at }),
    };
    let mut ended = stopped(machine, ending, limit);
    ended.output.truncate(before);
    Ok(ended)
}

/// What came of a run that is to stop here.
fn stopped(machine: Machine<'_>, ending: Ending, steps: u32) -> Ended
    ensures ending { result.ending ≡ ending }
    ensures steps { result.steps ≡ steps }
    ensures output { result.output ≡ machine.entry.output }
{
    Ended {
        ending,
        steps,
        output: machine.into_output(),
    }
}
