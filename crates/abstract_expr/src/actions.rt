//! The checks of an action but for the bounds of a `for`, and those of assertions and results.
ghost use Rattle.std.specs.Prelude.{◌≡◌, ℕ, ◌<◌, ◌++◌, length, slice_get, true};
ghost use Rattle.std.specs.List.{list_all};
ghost use Rattle.control_points.specs.Acts.{act_types_fit, each_act};
ghost use Rattle.control_points.specs.Evaluation.{access_type};
ghost use Rattle.control_points.specs.Flows.{chart_of};
ghost use Rattle.control_points.specs.Judgements as parts;
ghost use Rattle.control_points.specs.Judgements.{access_judgements, act_judgements, assert_judgement, assert_judgements, asserted_condition, assigned_judgements, read_judgements, result_judgements, result_of, selector_judgements};
ghost use Rattle.pas_program.specs.declared.expr.Actual.TheViews.{out-Expr};
ghost use Rattle.pas_program.specs.Each.{each_access, each_expr};
ghost use Rattle.pas_program.specs.Typed.{reached};
ghost use Rattle.px_base.specs.declared.kind.Kind.TheVariants.{Assertion};
ghost use Rattle.abstract_expr.specs.Judging.{after_parts, assertion_stands, is_plain, known, result_stands, seen_by};
ghost use Rattle.abstract_expr.specs.Scopes.{program_of};
ghost use Rattle.abstract_expr.specs.Tallies.{tallied};
ghost use Rattle.abstract_expr.specs.Verdicts.{is_true};

use crate::constants::are_constants;
use crate::judge::Judge;
use crate::tables::{formals_of, is_narrow, result_of, type_at};
use crate::tally::Tally;
use control_points::Act;
use interval::Itv;
use pas_program::{Access, Expr};

impl Judge<'_> {
    /// An action that is not the beginning of a `for`, and no return.
    pub fn action(&self, tally: &mut Tally, marks: &mut [bool], act: &Act)
        requires plain { is_plain act.now ≡ true }
        requires seen { each_act (seen_by self.now) act.now ≡ true }
        requires types { act_types_fit (known self.now) act.now ≡ true }
        requires point { self.now.point < length self.now.scope.flow.now.points }
        ensures { (place : ℕ) → tallied tally.new marks.new ≡ after_parts self.now (act_judgements (chart_of self.now.scope.flow.now) place act.now) (tallied tally.old marks.old) }
    {
        match act {
            Act::Assign { to, value } => self.assignment(tally, marks, to, value),
            Act::Copy { to, from } => self.copying(tally, marks, to, from),
            Act::Call {
                routine,
                actuals,
                ..
            } => {
                let formals = formals_of(self.scope.program(), *routine);
                self.actuals(tally, marks, actuals.as_slice(), formals);
            }
            Act::Test { cond, .. } => {
                self.expr(tally, marks, cond);
            }
            Act::Arm { of, .. } => self.selector(tally, marks, of),
            Act::Read { to } => self.read(tally, marks, to),
            Act::Write { item } => self.item(tally, marks, item),
            _ => {}
        }
    }

    /// The assignment of a scalar.
    fn assignment(&self, tally: &mut Tally, marks: &mut [bool], to: &Access, value: &Expr)
        requires target { each_access (seen_by self.now) to.now ≡ true }
        requires value { each_expr (seen_by self.now) value.now ≡ true }
        requires types { (reached (known self.now) to.now).fits ≡ true }
        ensures { tallied tally.new marks.new ≡ after_parts self.now (access_judgements (known self.now) to.now ++ assigned_judgements (known self.now) (access_type (known self.now) to.now) value.now) (tallied tally.old marks.old) }
    {
        self.access(tally, marks, to);
        self.assigned(tally, marks, self.scope.access_type(to), value);
    }

    /// The assignment of a whole array.
    fn copying(&self, tally: &mut Tally, marks: &mut [bool], to: &Access, from: &Access)
        requires target { each_access (seen_by self.now) to.now ≡ true }
        requires source { each_access (seen_by self.now) from.now ≡ true }
        ensures { tallied tally.new marks.new ≡ after_parts self.now (access_judgements (known self.now) to.now ++ access_judgements (known self.now) from.now) (tallied tally.old marks.old) }
    {
        self.access(tally, marks, to);
        self.access(tally, marks, from);
    }

    /// The number that is read, of which nothing is known.
    fn read(&self, tally: &mut Tally, marks: &mut [bool], access: &Access)
        requires seen { each_access (seen_by self.now) access.now ≡ true }
        requires types { (reached (known self.now) access.now).fits ≡ true }
        ensures { tallied tally.new marks.new ≡ after_parts self.now (read_judgements (known self.now) (access_type (known self.now) access.now) access.now) (tallied tally.old marks.old) }
    {
        self.access(tally, marks, access);
        tally.add(marks, false);
        let range = type_at(self.scope.program(), self.scope.access_type(access));
        tally.add_if(marks, is_narrow(range), false);
    }

    /// The selector of a `case`, whose constants are those of all edges that leave the point.
    fn selector(&self, tally: &mut Tally, marks: &mut [bool], e: &Expr)
        requires seen { each_expr (seen_by self.now) e.now ≡ true }
        requires point { self.now.point < length self.now.scope.flow.now.points }
        ensures { tallied tally.new marks.new ≡ after_parts self.now (selector_judgements (known self.now) e.now) (tallied tally.old marks.old) }
    {
        let x = self.expr(tally, marks, e);
        tally.add(marks, are_constants(self.scope.flow, self.point, x));
    }

    /// The result of a function at its exit, which must be defined.
    pub fn result(&self, tally: &mut Tally, marks: &mut [bool], routine: u32)
        requires { result_stands self.now.scope routine ≡ true }
        ensures { (place : ℕ) → tallied tally.new marks.new ≡ after_parts self.now (result_judgements (result_of (known self.now) routine) place) (tallied tally.old marks.old) }
    {
        if let Some(var) = result_of(self.scope.program(), routine) {
            let held = self.scope.names.held(self.env, var);
            tally.add(marks, !held.undef);
        }
    }

    /// Assertions by their numbers.
    pub fn assertions(&self, tally: &mut Tally, marks: &mut [bool], listed: &[u32])
        requires { list_all (assertion_stands self.now.scope) listed.now ≡ true }
        ensures { tallied tally.new marks.new ≡ after_parts self.now (assert_judgements (program_of self.now.scope).asserts listed.now) (tallied tally.old marks.old) }
    {
        for number in listed {
            self.assertion(tally, marks, *number);
        }
    }

    /// An assertion. One that need only hold at some time has no check.
    fn assertion(&self, tally: &mut Tally, marks: &mut [bool], number: u32)
        requires { assertion_stands self.now.scope number ≡ true }
        ensures { tallied tally.new marks.new ≡ after_parts self.now (assert_judgement (slice_get (program_of self.now.scope).asserts number)) (tallied tally.old marks.old) }
    {
        let assertion = self.scope.program().assertion(number);
        if !assertion.sometime {
            self.condition(tally, marks, &assertion.cond);
        }
    }

    /// The condition of an assertion that must always hold: it is true alone, and no check in it may fail.
    fn condition(&self, tally: &mut Tally, marks: &mut [bool], cond: &Expr)
        requires { each_expr (seen_by self.now) cond.now ≡ true }
        ensures { tallied tally.new marks.new ≡ after_parts self.now (parts.one Assertion (out-Expr cond.now).first (asserted_condition cond.now)) (tallied tally.old marks.old) }
    {
        let mut inner = Tally::new(0);
        let x = self.expr(&mut inner, &mut [], cond);
        inner.add(&mut [], is_true(x));
        tally.add(marks, inner.all_hold);
    }
}

/// Whether a value is true alone.
fn is_true(x: Itv) -> bool
    ensures { result ≡ is_true x }
{
    x.lo == 1 && x.hi == 1
}
