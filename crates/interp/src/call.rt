//! Calls (ISO 7185, 6.6.3, 6.7.3 and 6.8.2.3).
ghost use Rattle.std.specs.Prelude.{◌≡◌, ◌<◌, length, map, slice_get, IfOk, OnOk, Some, true};
ghost use Rattle.std.specs.Option.{option_and_then};
ghost use Rattle.pas_program.specs.declared.expr.Actual.TheViews.{out-Actual};
ghost use Rattle.pas_program.specs.Checked.{numbers_in, scope_in, tables};
ghost use Rattle.pas_program.specs.Each.{all_true, each_actual};
ghost use Rattle.pas_program.specs.Tables.{Head, holds_of, is_callable};
ghost use Rattle.pas_program.specs.Typed.{is_passed_to, passed};
ghost use Rattle.control_points.specs.Actions as meaning;
ghost use Rattle.control_points.specs.Evaluation.{var_type};
ghost use Rattle.control_points.specs.Finding.{around};
ghost use Rattle.control_points.specs.Flows.{chart_of};
ghost use Rattle.interp.specs.Calls.{AreLinked, HasNew, HasNewFor, IsArgument, IsCallOf, IsGivenLink, IsParent, are_passed};
ghost use Rattle.interp.specs.Deeds.{target_of};
ghost use Rattle.interp.specs.Machines.{end_of, top_routine};
ghost use Rattle.interp.specs.Meant.{InState, IsCalled};
ghost use Rattle.interp.specs.Passed.{AreAllPassed, AreUndefined, HasPassed, IsGivenScalars, IsPassedAs};
ghost use Rattle.interp.specs.Same.{SameActivations};
ghost use Rattle.interp.specs.Standing.{StandsFor};

use crate::decide::Change;
use crate::frame::{Extent, Frame};
use crate::land::change;
use crate::machine::Machine;
use control_points::Fault;
use pas_program::Actual;
use std::alloc::AllocError;

/// Why a call was not made.
#[derive(Clone, Copy, Debug)]
pub(crate) enum Refusal {
    /// An error of the run.
    Fault(Fault),
    /// Memory is lacking.
    Memory(AllocError),
}

/// What an actual gives its formal.
#[derive(Clone, Copy, Debug)]
pub(crate) enum Argument {
    Number(i32),
    /// The scalars of a whole array.
    Array { from: usize, count: usize },
    /// The first scalar of a variable.
    Variable { address: usize },
}

impl<'a> Machine<'a> {
    /// Makes the call of an edge. Its activation stands at the point. A refusal leaves the machine as it was.
    pub(crate) fn call(
        &mut self,
        edge: u32,
        routine: u32,
        actuals: &[Actual],
        point: usize,
    ) -> Result<(), Refusal>
        requires call { IsCallOf self.old.flow.now self.old.frames.items edge routine actuals.now }
        requires target { target_of self.old.flow.now.edges edge ≡ Some point }
        ensures flow { self.new.flow.now ≡ self.old.flow.now }
        ensures exact { InState self.old (λ s. IsCalled (meaning.call (chart_of self.old.flow.now) s edge routine actuals.now) point s self.new result) }
    {
        let base = self.end();
        let parent = self.parent_of(routine);
        match self.make_room(base, routine) {
            Ok(()) => {}
            Err(e) => return Err(Refusal::Memory(e)),
        }
        match self.pass(routine, actuals, base) {
            Ok(()) => {}
            Err(fault) => return Err(Refusal::Fault(fault)),
        }
        let frame = Frame {
            routine: routine as usize,
            call: Some(edge),
            parent,
            point,
            base,
        };
        match self.frames.push(frame) {
            Ok(()) => Ok(()),
            Err(e) => Err(Refusal::Memory(e.into())),
        }
    }

    /// The depth of the activation within which one of the routine lies.
    fn parent_of(&self, routine: u32) -> Option<usize>
        requires in_range { routine < length self.now.flow.now.program.routines }
        requires callable { is_callable (tables self.now.flow.now.program) (top_routine self.now.frames.items) routine ≡ true }
        ensures parent { IsParent self.now.flow.now self.now.frames.items routine result }
        ensures exact { InState self.now (λ s. option_and_then (λ (h : Head). option_and_then (λ p. around s.stack (meaning.top_depth s.stack) p) h.parent) ((tables self.now.flow.now.program).head_at routine) ≡ result) }
    {
        match self.flow.program.routine(routine).parent {
            Some(parent) => Some(self.depth_of(parent as usize)),
            None => None,
        }
    }

    /// Makes room behind the storage of all activations for one of the routine, in which nothing is defined.
    fn make_room(&mut self, base: Extent, routine: u32) -> Result<(), AllocError>
        requires in_range { routine < length self.old.flow.now.program.routines }
        requires base { base ≡ end_of self.old.flow.now.program self.old.frames.items }
        ensures kept { SameActivations self.old self.new }
        ensures room { OnOk result (HasNew self.old.flow.now.program self.old.frames.items routine self.new.links.items self.new.scalars.items) }
        ensures fresh { OnOk result (AreUndefined base.scalars self.new.scalars.items) }
        ensures state { InState self.old (λ s. StandsFor self.new s) }
    {
        let extent = self.extent_of(routine as usize);
        self.scalars.truncate(base.scalars);
        self.scalars.resize(base.scalars + extent.scalars, None)?;
        self.links.resize(base.links + extent.links, 0)
    }

    /// Evaluates the actuals from left to right, and gives them to the formals, whose storage begins at the base.
    fn pass(&mut self, routine: u32, actuals: &[Actual], base: Extent) -> Result<(), Fault>
        requires in_range { routine < length self.old.flow.now.program.routines }
        requires base { base ≡ end_of self.old.flow.now.program self.old.frames.items }
        requires room { HasNew self.old.flow.now.program self.old.frames.items routine self.old.links.items self.old.scalars.items }
        requires fresh { AreUndefined base.scalars self.old.scalars.items }
        requires numbers { all_true (map (each_actual (numbers_in self.old.flow.now.program)) actuals.now) ≡ true }
        requires scopes { all_true (map (each_actual (scope_in self.old.flow.now.program (top_routine self.old.frames.items))) actuals.now) ≡ true }
        requires fits { holds_of (are_passed (tables self.old.flow.now.program) actuals.now) ((tables self.old.flow.now.program).head_at routine) ≡ true }
        ensures kept { SameActivations self.old self.new }
        ensures room { OnOk result (HasNew self.old.flow.now.program self.old.frames.items routine self.new.links.items self.new.scalars.items) }
        ensures linked { OnOk result (AreLinked self.old.flow.now.program self.old.frames.items routine self.new.links.items) }
        ensures state { InState self.old (λ s. StandsFor self.new s) }
        ensures exact { InState self.old (λ s. AreAllPassed (meaning.pass (chart_of self.old.flow.now) s actuals.now (meaning.formals_of (chart_of self.old.flow.now) s ((tables self.old.flow.now.program).head_at routine))) (HasPassed self.old.flow.now self.old.frames.items routine self.new.links.items self.new.scalars.items s) result) }
    {
        let flow = self.flow;
        let formals = flow.program.routine(routine).formals.as_slice();
        for (i, actual) in actuals.iter().enumerate() {
            let argument = self.argument(actual, formals[i])?;
            self.give(argument, formals[i], base);
        }
        Ok(())
    }

    /// Gives a formal its argument.
    fn give(&mut self, argument: Argument, formal: u32, base: Extent)
        requires in_range { formal < length self.old.flow.now.program.vars }
        requires base { base ≡ end_of self.old.flow.now.program self.old.frames.items }
        requires room { HasNewFor self.old.flow.now.program self.old.frames.items formal self.old.links.items self.old.scalars.items }
        requires argument { IsArgument self.old.flow.now.program self.old.frames.items formal argument }
        ensures kept { SameActivations self.old self.new }
        ensures scalars { length self.new.scalars.items ≡ length self.old.scalars.items }
        ensures links { IsGivenLink self.old.flow.now.program self.old.frames.items formal argument self.old.links.items self.new.links.items }
        ensures given { IsGivenScalars self.old.flow.now.program self.old.frames.items formal argument self.old.scalars.items self.new.scalars.items }
    {
        let offset = self.offset_of(formal);
        let to = base.scalars + offset.scalars;
        match argument {
            Argument::Number(z) => change(
                &mut self.scalars,
                Change::Set {
                    address: to,
                    value: Some(z),
                },
            ),
            Argument::Array { from, count } => {
                change(&mut self.scalars, Change::Copy { to, from, count })
            }
            Argument::Variable { address } => self.links[base.links + offset.links] = address,
        }
    }

    /// What an actual gives a formal.
    fn argument(&self, actual: &Actual, formal: u32) -> Result<Argument, Fault>
        requires numbers { each_actual (numbers_in self.now.flow.now.program) actual.now ≡ true }
        requires scopes { each_actual (scope_in self.now.flow.now.program (top_routine self.now.frames.items)) actual.now ≡ true }
        requires fits { holds_of (is_passed_to (tables self.now.flow.now.program) (passed (tables self.now.flow.now.program) actual.now)) (slice_get self.now.flow.now.program.vars formal) ≡ true }
        ensures safe { IfOk result (IsArgument self.now.flow.now.program self.now.frames.items formal) }
        ensures exact { InState self.now (λ s. IsPassedAs self.now.flow.now.program self.now.frames.items (length s.stack) formal (var_type (tables self.now.flow.now.program) formal) (meaning.pass_to (chart_of self.now.flow.now) s formal (out-Actual actual.now)) result) }
    {
        let of_type = self.flow.program.var_def(formal).of_type;
        match actual {
            Actual::Value(e) => Ok(Argument::Number(self.assigned(of_type, e)?)),
            Actual::Whole(source) => Ok(Argument::Array {
                from: self.spot(source)?,
                count: self.count_of(of_type),
            }),
            Actual::Var(target) => Ok(Argument::Variable {
                address: self.spot(target)?,
            }),
        }
    }
}
