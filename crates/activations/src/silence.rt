//! What the classes that a class calls, and they in turn, may do.

ghost use Rattle.std.specs.Prelude.{◌≡◌, ◌<◌, ◌↔◌, IfOk, IsTrue, Some, length, slice_get};
ghost use Rattle.pas_program.specs.declared.routine.Assert.{Assert};
ghost use Rattle.alias_class.specs.Cells.{routine_of};
ghost use Rattle.alias_class.specs.Classes.{class_at};
ghost use Rattle.activations.specs.Drawn.{IsUnfolding};
ghost use Rattle.activations.specs.Marks.{AreClosedFrom, AreWalked, AreWithin, IsHandedOn, MarksSome};
ghost use Rattle.activations.specs.Outside.{AreLeaving, AreOfRoutines, IsOther, LeadsOut};
ghost use Rattle.activations.specs.Parts.{IsDiscovery};
ghost use Rattle.activations.specs.Silence.{AreLeft, AreSilent};
ghost use Rattle.activations.specs.Unfolding.{unfolding_of};

use crate::discovery::{Call, Discovery};
use crate::graph::Graph;
use crate::routines::routine_of_point;
use alias_class::Classes;
use control_points::{Act, Flow};
use std::alloc::{AllocError, Global};

/// Marks the caller of a call whose callee is marked. Whether that mark is new.
fn hand_on(call: Call, marks: &mut [bool], mark: bool) -> bool
    requires caller { call.caller < length marks.old }
    requires callee { call.callee < length marks.old }
    ensures { IsHandedOn call mark result marks.old marks.new }
{
    let is_new = marks[call.callee as usize] == mark && marks[call.caller as usize] != mark;
    if is_new {
        marks[call.caller as usize] = mark;
    }
    is_new
}

/// Goes backward over the calls and marks the callers of marked classes. Whether a mark is new.
fn walk_back(calls: &[Call], marks: &mut [bool], mark: bool) -> bool
    requires { AreWithin (length marks.old) calls.now }
    ensures { AreWalked calls.now mark 0 result marks.old marks.new }
{
    let mut changed = false;
    let mut left = calls.len();
    while left > 0 {
        left -= 1;
        if hand_on(calls[left], marks, mark) {
            changed = true;
        }
    }
    changed
}

/// Marks the callers of marked classes until none is left to be marked. The calls stand in the order of their callers, of which most are met before
/// their callees, so each walk goes backward.
fn mark_callers(calls: &[Call], marks: &mut [bool], mark: bool)
    requires { AreWithin (length marks.old) calls.now }
    ensures marks { MarksSome calls.now mark marks.old marks.new }
    ensures closed { AreClosedFrom 0 calls.now mark marks.new }
{
    let mut changed = true;
    while changed {
        changed = walk_back(calls, marks, mark);
    }
}

/// The marks of the routines that have a `goto` to a label of another one.
fn leaving_routines(alloc: Global, flow: &Flow) -> Result<Vec<bool>, AllocError>
    ensures { IfOk result (λ marks. AreLeaving flow.now (length flow.now.edges) marks.items) }
{
    let mut routines = vec![in alloc; false; flow.program().routines.as_slice().len()]?;
    for edge in flow.edges() {
        let stands = routine_of_point(flow, edge.from);
        if leads_out(&edge.act, stands) {
            routines[stands as usize] = true;
        }
    }
    Ok(routines)
}

/// Whether an action in a routine is a `goto` to a label of another one.
fn leads_out(act: &Act, stands: u32) -> bool
    ensures { IsTrue result ↔ LeadsOut act.now stands }
{
    match act {
        Act::Goto { routine } => *routine != stands,
        _ => false,
    }
}

/// The marks of the classes of these routines.
fn classes_of(alloc: Global, classes: &Classes, routines: &[bool]) -> Result<Vec<bool>, AllocError>
    requires main { classes.now.outline.main < length routines.now }
    requires all { length routines.now ≡ length classes.now.outline.routines }
    ensures { IfOk result (λ marks. AreOfRoutines classes.now routines.now (length classes.now.classes) marks.items) }
{
    let mut marks = Vec::with_capacity(alloc, classes.count() as usize)?;
    for class in 0..classes.count() {
        marks.push(routines[classes.routine(class) as usize])?;
    }
    Ok(marks)
}

/// For each class whether one of its reach has a `goto` to a label of another routine.
pub(crate) fn left_classes(
    alloc: Global,
    flow: &Flow,
    found: &Discovery,
) -> Result<Vec<bool>, AllocError>
    requires { IsDiscovery flow.now found.now }
    ensures { IfOk result (λ left. AreLeft (unfolding_of flow.now found.now.classes.classes) left.items) }
{
    let routines = leaving_routines(alloc, flow)?;
    let mut marks = classes_of(alloc, &found.classes, &routines)?;
    mark_callers(&found.calls, &mut marks, true);
    Ok(marks)
}

impl Graph {
    /// Sets for each class whether it is silent for an assertion that need only hold at some time: no class of its reach is of the routine in which
    /// the assertion stands, and none has a `goto` to a label of another routine. It goes over the calls once more than the longest chain of
    /// callers that is met against their order, and twice where each callee is met after its callers.
    pub fn silent_into(&self, flow: &Flow, assert: u32, out: &mut [bool])
        requires unfolding { IsUnfolding flow.now self.now }
        requires assertion { assert < length flow.now.program.asserts }
        requires room { length out.old ≡ length self.now.table.classes }
        ensures { (a : Assert) → slice_get flow.now.program.asserts assert ≡ Some a → AreSilent (unfolding_of flow.now self.now.table.classes) a.routine out.new }
    {
        let stands = flow.program().assertion(assert).routine;
        for class in 0..self.classes.count() {
            out[class as usize] = self.is_other(class, stands);
        }
        mark_callers(&self.calls, out, false);
    }

    /// Whether a class is neither left nor of a routine.
    fn is_other(&self, class: u32, stands: u32) -> bool
        requires class { class < length self.now.table.classes }
        requires left { length self.now.left ≡ length self.now.table.classes }
        ensures { IsOther self.now.left stands class (routine_of self.now.table.outline (class_at self.now.table.classes class)) result }
    {
        !self.is_left(class) && self.classes.routine(class) != stands
    }
}
