//! The points of each routine.

ghost use Rattle.std.specs.Prelude.{◌≡◌, ◌+◌, ◌<◌, IfOk, OnOk, Some, length, slice_get};
ghost use Rattle.control_points.specs.Fits.{routine_at};
ghost use Rattle.activations.specs.Found.{AreFirstPoints};
ghost use Rattle.activations.specs.Parts.{ArePointsOf, lists_of};

use control_points::Flow;
use std::alloc::{AllocError, Global};

/// The points of each routine, in order of number.
#[derive(Drop)]
pub(crate) struct RoutinePoints {
    pub lists: Vec<Vec<u32>>,
    /// For each point how many of its routine come before it.
    pub ranks: Vec<u32>,
}

impl RoutinePoints {
    /// Those of a flow.
    pub(crate) fn of(alloc: Global, flow: &Flow) -> Result<RoutinePoints, AllocError>
        ensures { IfOk result (ArePointsOf flow.now) }
    {
        let mut points = RoutinePoints::none(alloc, flow)?;
        for number in 0..flow.points().len() as u32 {
            points.add(flow, number)?;
        }
        Ok(points)
    }

    /// No point of any routine of a flow.
    fn none(alloc: Global, flow: &Flow) -> Result<RoutinePoints, AllocError>
        ensures { IfOk result (AreFirstPoints flow.now 0) }
    {
        let count = flow.program().routines.as_slice().len();
        let mut lists = Vec::with_capacity(alloc, count)?;
        for _ in 0..count {
            lists.push(Vec::new(alloc))?;
        }
        Ok(RoutinePoints {
            lists,
            ranks: Vec::with_capacity(alloc, flow.points().len())?,
        })
    }

    /// Adds the point of a number to those of lower ones.
    fn add(&mut self, flow: &Flow, number: u32) -> Result<(), AllocError>
        requires known { number < length flow.now.points }
        requires lower { AreFirstPoints flow.now number self.old }
        ensures { OnOk result (AreFirstPoints flow.now (number + 1) self.new) }
    {
        let routine = routine_of_point(flow, number) as usize;
        self.ranks.push(self.lists[routine].len() as u32)?;
        self.lists[routine].push(number)?;
        Ok(())
    }

    /// The points of a routine, in order of number.
    pub(crate) fn of_routine(&self, routine: u32) -> &[u32]
        requires { routine < length self.now.lists.items }
        ensures { slice_get (lists_of self.now.lists.items) routine ≡ Some result.now }
    {
        &self.lists[routine as usize]
    }
}

/// The routine of a point.
pub(crate) fn routine_of_point(flow: &Flow, point: u32) -> u32
    requires { point < length flow.now.points }
    ensures { routine_at flow.now.points point ≡ Some result }
{
    flow.points()[point as usize].routine
}
