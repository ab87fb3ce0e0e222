//! Which classes there are, in the order in which they are met.

ghost use Rattle.std.specs.Prelude.{◌≡◌, ◌+◌, ◌*◌, ◌<◌, ◌≤◌, ◌^◌, ◌∷◌, [], Err, IfErr, IfOk, OnErr, OnOk, Some, length, map};
ghost use Rattle.std.specs.List.{flat_map};
ghost use Rattle.std.specs.Option.{is_some, option_to_list};
ghost use Rattle.control_points.specs.Fits.{callee_of, routine_at};
ghost use Rattle.alias_class.specs.Calls.{IsSite};
ghost use Rattle.alias_class.specs.Cells.{cell_count, routine_of};
ghost use Rattle.alias_class.specs.Classes.{class_at};
ghost use Rattle.alias_class.specs.Outlines.{outline_of};
ghost use Rattle.activations.specs.Calls.{points_of, sites_at};
ghost use Rattle.activations.specs.Drawn.{IsCause};
ghost use Rattle.activations.specs.Passed.{IsPassed};
ghost use Rattle.activations.specs.Parts.{ArePointsOf, IsDiscovery};
ghost use Rattle.activations.specs.Unfolding.{most_cells};

use crate::fault::UnfoldFault;
use crate::routines::RoutinePoints;
use alias_class::Classes;
use control_points::{Act, Flow, a_call_leaves_its_point_alone};
use std::alloc::{AllocError, Global};

/// The most that the sizes of all classes may come to.
const MOST_CELLS: u64 = 4_000_000;

/// A call from a class.
#[derive(Clone, Copy, Debug)]
pub(crate) struct Call {
    pub caller: u32,
    /// The edge of the call.
    pub site: u32,
    /// The class that it enters.
    pub callee: u32,
}

/// The classes, and the calls of each, in order.
#[derive(Drop)]
pub(crate) struct Discovery {
    pub classes: Classes,
    pub calls: Vec<Call>,
    pub size: u64,
}

impl Discovery {
    ghost use Rattle.activations.specs.Distinct.{AreApart};
    ghost use Rattle.activations.specs.Found.{HasEntered, IsFound};

    /// The class of the program's block, whose calls are still to be made.
    fn of_block(alloc: Global, flow: &Flow) -> Result<Discovery, AllocError>
        ensures { IfOk result (IsFound flow.now 0) }
    {
        Ok(Discovery {
            classes: Classes::new(alloc, flow)?,
            calls: Vec::new(alloc),
            size: 0,
        })
    }

    /// Makes a call of a class.
    fn enter(&mut self, flow: &Flow, class: u32, site: u32) -> Result<(), AllocError>
        requires flow { self.old.classes.outline ≡ outline_of flow.now }
        requires class { class < length self.old.classes.classes }
        requires site { IsSite flow.now.points flow.now.edges (routine_of self.old.classes.outline (class_at self.old.classes.classes class)) site }
        requires apart { AreApart self.old.classes.classes }
        requires room { length self.old.classes.classes < 4294967295 }
        ensures { OnOk result (HasEntered flow.now class (site ∷ []) self.old self.new) }
    {
        let callee = self.classes.enter(flow, class, site)?;
        self.calls.push(Call {
            caller: class,
            site,
            callee,
        })?;
        Ok(())
    }

    /// Makes the call of a class at a point of its routine, if one stands there.
    fn enter_at(&mut self, flow: &Flow, class: u32, point: u32) -> Result<(), AllocError>
        requires flow { self.old.classes.outline ≡ outline_of flow.now }
        requires class { class < length self.old.classes.classes }
        requires point { routine_at flow.now.points point ≡ Some (routine_of self.old.classes.outline (class_at self.old.classes.classes class)) }
        requires apart { AreApart self.old.classes.classes }
        requires room { length self.old.classes.classes < 4294967295 }
        ensures { OnOk result (HasEntered flow.now class (sites_at flow.now.edges point) self.old self.new) }
    {
        match call_at(flow, point) {
            Some(site) => self.enter(flow, class, site),
            None => Ok(()),
        }
    }

    /// Makes the calls of a class, in the order of the points of its routine.
    fn handle(&mut self, flow: &Flow, points: &[u32], class: u32) -> Result<(), AllocError>
        requires flow { self.old.classes.outline ≡ outline_of flow.now }
        requires class { class < length self.old.classes.classes }
        requires points { points.now ≡ points_of flow.now.points (routine_of self.old.classes.outline (class_at self.old.classes.classes class)) }
        requires apart { AreApart self.old.classes.classes }
        requires room { length self.old.classes.classes + length points.now ≤ 4294967295 }
        ensures { OnOk result (HasEntered flow.now class (flat_map (sites_at flow.now.edges) points.now) self.old self.new) }
    {
        a_call_leaves_its_point_alone();
        for point in points {
            self.enter_at(flow, class, *point)?;
        }
        Ok(())
    }

    /// Adds the size of a class: for each of its points one and its cells.
    fn count(&mut self, points: &[u32], class: u32) -> Result<(), UnfoldFault>
        requires class { class < length self.old.classes.classes }
        requires points { length points.now < 2 ^ 32 }
        requires within { self.old.size ≤ most_cells }
        ensures counted { OnOk result (self.new ≡ record self.old { size = self.old.size + length points.now * (1 + cell_count self.old.classes.outline (class_at self.old.classes.classes class)) }) }
        ensures within { OnOk result (self.new.size ≤ most_cells) }
        ensures cause { IfErr result (IsPassed (self.old.size + length points.now * (1 + cell_count self.old.classes.outline (class_at self.old.classes.classes class)))) }
    {
        self.size += points.len() as u64 * (1 + u64::from(self.classes.cells(class)));
        if self.size > MOST_CELLS {
            return Err(UnfoldFault::TooMany { cells: self.size });
        }
        Ok(())
    }

    /// Counts a class and makes its calls, where the classes before it have done so.
    fn take_in(
        &mut self,
        flow: &Flow,
        routines: &RoutinePoints,
        class: u32,
    ) -> Result<(), UnfoldFault>
        requires routines { ArePointsOf flow.now routines.now }
        requires class { class < length self.old.classes.classes }
        requires found { IsFound flow.now class self.old }
        ensures found { OnOk result (IsFound flow.now (class + 1) self.new) }
        ensures grown { OnOk result (self.old.size < self.new.size) }
        ensures cause { IfErr result (IsCause flow.now) }
    {
        a_call_leaves_its_point_alone();
        let points = routines.of_routine(self.classes.routine(class));
        self.count(points, class)?;
        self.handle(flow, points, class)
            .map_err(UnfoldFault::Memory)?;
        Ok(())
    }
}

/// The edge of the call that stands at a point. No other edge leaves its point.
fn call_at(flow: &Flow, point: u32) -> Option<u32>
    requires { point < length flow.now.points }
    ensures { option_to_list result ≡ sites_at flow.now.edges point }
{
    a_call_leaves_its_point_alone();
    let edge = *flow.outgoing(point).first()?;
    if is_call(&flow.edges()[edge as usize].act) {
        Some(edge)
    } else {
        None
    }
}

fn is_call(act: &Act) -> bool
    ensures { result ≡ is_some (callee_of act.now) }
{
    matches!(act, Act::Call { .. })
}

/// All classes of a flow, with their calls and the sum of their sizes.
///
/// # Errors
///
/// The sum passes the most that it may come to, or want of memory.
pub(crate) fn discover(
    alloc: Global,
    flow: &Flow,
    routines: &RoutinePoints,
) -> Result<Discovery, UnfoldFault>
    requires { ArePointsOf flow.now routines.now }
    ensures found { IfOk result (IsDiscovery flow.now) }
    ensures cause { IfErr result (IsCause flow.now) }
{
    let mut found = Discovery::of_block(alloc, flow).map_err(UnfoldFault::Memory)?;
    let mut class = 0;
    while class < found.classes.count() {
        found.take_in(flow, routines, class)?;
        class += 1;
    }
    Ok(found)
}
