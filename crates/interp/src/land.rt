//! What an action does to the machine.
ghost use Rattle.std.specs.Prelude.{◌≡◌, ◌≤◌, length, slice_get, OnErr, OnOk, Some};
ghost use Rattle.control_points.specs.Actions as meaning;
ghost use Rattle.control_points.specs.Actions.{Outcome};
ghost use Rattle.control_points.specs.Fits.{routine_at};
ghost use Rattle.control_points.specs.Steps.{after};
ghost use Rattle.interp.specs.Deeds.{changed, FitsIn, IsDeedOf, IsEffect};
ghost use Rattle.interp.specs.Machines.{routine_of};
ghost use Rattle.interp.specs.Meant.{InState, IsAfter, IsDone, IsEffectOf, after_edge};
ghost use Rattle.interp.specs.Standing.{StandsFor};

use crate::call::Refusal;
use crate::decide::{Change, Deed, Effect};
use crate::machine::{Machine, Progress, error};
use crate::write::write_any;
use std::alloc::AllocError;

impl<'a> Machine<'a> {
    /// Does what an edge asks.
    pub(crate) fn follow(&mut self, edge: u32, deed: Deed<'a>) -> Result<Progress, AllocError>
        requires { IsDeedOf self.old.flow.now self.old.frames.items edge deed }
        ensures flow { self.new.flow.now ≡ self.old.flow.now }
        ensures exact { InState self.old (λ s. (outcome : Outcome) → IsDone self.old s edge outcome deed.entry → IsAfter (after_edge self.old s edge outcome) s self.new result) }
    {
        let flow = self.flow;
        let target = flow.edges()[edge as usize].to as usize;
        match deed {
            Deed::Lands(effect) => {
                self.land(effect, target)?;
                Ok(Progress::Moved)
            }
            Deed::Calls { routine, actuals } => match self.call(edge, routine, actuals, target) {
                Ok(()) => Ok(Progress::Moved),
                Err(Refusal::Memory(e)) => Err(e),
                Err(Refusal::Fault(fault)) => Ok(error(fault)),
            },
        }
    }

    /// Does what an action does that is no call, and goes on at the point.
    ///
    /// # Errors
    ///
    /// Where memory is lacking, and the machine is as it was.
    pub(crate) fn land(&mut self, effect: Effect<'a>, point: usize) -> Result<(), AllocError>
        requires effect { IsEffect self.old.flow.now.program self.old.frames.items effect }
        requires point { routine_at self.old.flow.now.points point ≡ routine_of self.old.frames.items effect.depth }
        ensures flow { self.new.flow.now ≡ self.old.flow.now }
        ensures landed { InState self.old (λ s. (defined : meaning.Effect) → IsEffectOf self.old s defined effect.entry → OnOk result (StandsFor self.new (after s point defined))) }
        ensures kept { InState self.old (λ s. OnErr result (StandsFor self.new s)) }
    {
        write_any(&mut self.output, effect.output)?;
        change(&mut self.scalars, effect.change);
        self.frames.truncate(effect.depth + 1);
        self.frames[effect.depth].point = point;
        self.items = effect.items;
        Ok(())
    }
}

/// Changes the storage.
pub(crate) fn change(scalars: &mut Vec<Option<i32>>, change: Change)
    requires { FitsIn (length scalars.old.items) change }
    ensures { scalars.new.items ≡ changed scalars.old.items change }
{
    match change {
        Change::Nothing => {}
        Change::Set { address, value } => scalars[address] = value,
        Change::Start {
            control,
            first,
            bound,
            last,
        } => {
            scalars[control] = Some(first);
            scalars[bound] = Some(last);
        }
        Change::Copy { to, from, count } => scalars.copy_within(from..from + count, to),
    }
}
