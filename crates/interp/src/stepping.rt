//! The first state of a machine, and its steps.
ghost use Rattle.std.specs.Prelude.{◌≡◌, IfOk};
ghost use Rattle.control_points.specs.Flows.{chart_of};
ghost use Rattle.control_points.specs.Runs.{IsInput, start};
ghost use Rattle.control_points.specs.Steps.{is_halted, next};
ghost use Rattle.interp.specs.Meant.{InState, IsStep};
ghost use Rattle.interp.specs.Standing.{StandsFor};

use crate::frame::{Extent, Frame};
use crate::layout::Layout;
use crate::machine::{Machine, Progress, entry_of, error};
use control_points::{Flow, Item};
use std::alloc::{AllocError, Global};

impl<'a> Machine<'a> {
    /// The program's block at its entry, with nothing stored.
    pub fn new(alloc: Global, flow: &'a Flow, items: &'a [Item]) -> Result<Machine<'a>, AllocError>
        requires input { IsInput items.now }
        ensures flow { IfOk result (λ m. m.flow.now ≡ flow.now) }
        ensures started { IfOk result (λ m. StandsFor m (start (chart_of flow.now) items.now)) }
    {
        let layout = Layout::new(alloc, flow.program())?;
        let routine = flow.program().routines.len() - 1;
        let extent = layout.extents[routine];
        let mut scalars = Vec::new(alloc);
        scalars.resize(extent.scalars, None)?;
        let links = vec![in alloc; 0; extent.links]?;
        let mut frames = Vec::new(alloc);
        frames.push(Frame {
            routine,
            call: None,
            parent: None,
            point: entry_of(flow, routine),
            base: Extent {
                scalars: 0,
                links: 0,
            },
        })?;
        Ok(Machine {
            flow,
            layout,
            items,
            frames,
            links,
            scalars,
            output: Vec::new(alloc),
        })
    }

    /// Goes to the next state. After `Halted` or `Error` each call answers the same.
    ///
    /// # Errors
    ///
    /// Where memory is lacking, and the machine is as it was.
    pub fn step(&mut self) -> Result<Progress, AllocError>
        ensures flow { self.new.flow.now ≡ self.old.flow.now }
        ensures exact { InState self.old (λ s. IsStep (next (chart_of self.old.flow.now) s) s self.new result) }
    {
        if self.is_halted() {
            return Ok(Progress::Halted);
        }
        match self.decide() {
            Err(fault) => Ok(error(fault)),
            Ok(None) => Ok(error(self.no_case_label())),
            Ok(Some((edge, deed))) => self.follow(edge, deed),
        }
    }

    /// Whether it stands at the exit of the program's block, which is the last point.
    fn is_halted(&self) -> bool
        ensures exact { InState self.now (λ s. is_halted (chart_of self.now.flow.now) s.stack ≡ result) }
    {
        self.frames.len() == 1 && self.frames[0].point == self.flow.points().len() - 1
    }
}
