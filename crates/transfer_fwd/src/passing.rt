//! The actuals of a call.

ghost use Rattle.std.specs.Prelude.{◌≡◌, ◌<◌, IsTrue, length};
ghost use Rattle.abstract_expr.specs.Scopes.{cells_of, program_of, scope_of, seen_of};
ghost use Rattle.control_points.specs.Checking.{formals_of};
ghost use Rattle.environment.specs.Environments.{cell_count, is_reachable};
ghost use Rattle.environment.specs.Kept.{room_of};
ghost use Rattle.pas_program.specs.declared.expr.Actual.TheViews.{out-Actual};
ghost use Rattle.transfer_fwd.specs.Crossings.{actual_refined, actuals_refined, passed_value};
ghost use Rattle.transfer_fwd.specs.Standing.{ActualStands, ActualsStand};

use crate::action::Actions;
use environment::Env;
use interval::Val;
use pas_program::Actual;

impl Actions<'_> {
    /// Each actual is refined, in order: a value by the range of its formal, a variable by its index ranges.
    pub(crate) fn pass(&self, env: &mut Env, routine: u32, actuals: &[Actual])
        requires cells { cell_count env.old.env ≡ cells_of self.now.scope }
        requires routine { routine < length (program_of self.now.scope).routines }
        requires stand { ActualsStand (program_of self.now.scope) (seen_of self.now.scope) routine actuals.now }
        ensures value { env.new.env ≡ actuals_refined (scope_of self.now.scope) actuals.now (formals_of ((scope_of self.now.scope).tables.head_at routine)) env.old.env }
        ensures cells { cell_count env.new.env ≡ cell_count env.old.env }
        ensures room { room_of env.new ≡ room_of env.old }
    {
        let formals = self.scope.formals(routine);
        for (actual, formal) in actuals.iter().zip(formals) {
            self.pass_one(env, *formal, actual);
        }
    }

    /// One of them.
    fn pass_one(&self, env: &mut Env, formal: u32, actual: &Actual)
        requires cells { cell_count env.old.env ≡ cells_of self.now.scope }
        requires formal { formal < length (program_of self.now.scope).vars }
        requires stands { ActualStands (program_of self.now.scope) (seen_of self.now.scope) actual.now }
        ensures value { env.new.env ≡ actual_refined (scope_of self.now.scope) formal (out-Actual actual.now) env.old.env }
        ensures cells { cell_count env.new.env ≡ cell_count env.old.env }
        ensures room { room_of env.new ≡ room_of env.old }
    {
        match actual {
            Actual::Value(e) => self.in_type(env, self.scope.var_type(formal), e),
            Actual::Whole(access) | Actual::Var(access) => {
                self.scope.refine_subscripts(env, access)
            }
        }
    }

    /// The value of an actual for a value parameter.
    pub(crate) fn passed(&self, left: &Env, formal: u32, actual: &Actual) -> Option<Val>
        requires reached { IsTrue (is_reachable left.now.env) }
        requires cells { cell_count left.now.env ≡ cells_of self.now.scope }
        requires formal { formal < length (program_of self.now.scope).vars }
        requires stands { ActualStands (program_of self.now.scope) (seen_of self.now.scope) actual.now }
        ensures { result ≡ passed_value (scope_of self.now.scope) left.now.env formal (out-Actual actual.now) }
    {
        match actual {
            Actual::Value(e) => Some(self.value_for(left, self.scope.var_type(formal), e)),
            Actual::Whole(access) => Some(left.get(self.scope.target(access).cell)),
            Actual::Var(_) => None,
        }
    }
}
