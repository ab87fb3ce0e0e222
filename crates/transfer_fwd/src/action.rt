//! What is left of an environment where an action of a routine has been done.
//!
//! Each action first refines its expressions in the order of evaluation: a subscript by its index range, a value by the range of the variable
//! that it is for, a width by the widths, all else by its host.

ghost use Rattle.std.specs.Prelude.{◌≡◌, ◌<◌, length, true};
ghost use Rattle.abstract_expr.specs.Scopes.{Stands, cells_of, program_of, scope_of, seen_of};
ghost use Rattle.environment.specs.Environments.{cell_count};
ghost use Rattle.environment.specs.Kept.{room_of};
ghost use Rattle.pas_program.specs.Each.{each_expr};
ghost use Rattle.transfer_fwd.specs.Actions.{after, in_host, in_type, value_for};
ghost use Rattle.transfer_fwd.specs.Standing.{ActStands};

use crate::looping::Range;
use crate::storing::number_in;
use abstract_expr::Scope;
use control_points::Act;
use environment::Env;
use interval::Val;
use pas_program::Expr;

/// The actions of a routine in one of its classes.
#[derive(Clone, Copy)]
pub(crate) struct Actions<'a> {
    pub scope: Scope<'a>,
}

impl Actions<'_> {
    /// An expression is refined by the numbers of its host.
    pub(crate) fn in_host(&self, env: &mut Env, e: &Expr)
        requires cells { cell_count env.old.env ≡ cells_of self.now.scope }
        requires stands { Stands self.now.scope e.now }
        ensures value { env.new.env ≡ in_host (scope_of self.now.scope) e.now env.old.env }
        ensures cells { cell_count env.new.env ≡ cell_count env.old.env }
        ensures room { room_of env.new ≡ room_of env.old }
    {
        self.scope.refine(env, e, self.scope.host_of(e));
    }

    /// An expression is refined by the range of a type.
    pub(crate) fn in_type(&self, env: &mut Env, of_type: u32, e: &Expr)
        requires cells { cell_count env.old.env ≡ cells_of self.now.scope }
        requires typed { of_type < length (program_of self.now.scope).types }
        requires stands { Stands self.now.scope e.now }
        ensures value { env.new.env ≡ in_type (scope_of self.now.scope) of_type e.now env.old.env }
        ensures cells { cell_count env.new.env ≡ cell_count env.old.env }
        ensures room { room_of env.new ≡ room_of env.old }
    {
        self.scope.refine(env, e, self.scope.range_of(of_type));
    }

    /// The value of an expression for a variable of a type.
    pub(crate) fn value_for(&self, env: &Env, of_type: u32, e: &Expr) -> Val
        requires cells { cell_count env.now.env ≡ cells_of self.now.scope }
        requires typed { of_type < length (program_of self.now.scope).types }
        requires seen { each_expr (seen_of self.now.scope) e.now ≡ true }
        ensures { result ≡ value_for (scope_of self.now.scope) of_type e.now env.now.env }
    {
        number_in(self.scope.range_of(of_type), self.scope.value(env, e))
    }

    /// Does an action that neither enters nor leaves an activation.
    pub(crate) fn act(&self, env: &mut Env, act: &Act)
        requires cells { cell_count env.old.env ≡ cells_of self.now.scope }
        requires stands { ActStands self.now.scope act.now }
        ensures value { env.new.env ≡ after (scope_of self.now.scope) act.now env.old.env }
        ensures cells { cell_count env.new.env ≡ cell_count env.old.env }
        ensures room { room_of env.new ≡ room_of env.old }
    {
        match act {
            Act::Assign { to, value } => self.assign(env, to, value),
            Act::Copy { to, from } => self.copy(env, to, from),
            Act::Test { cond, wanted } => self.test(env, cond, *wanted),
            Act::Arm { of, consts } => self.choose(env, of, consts.as_slice()),
            Act::Enter {
                control,
                bound,
                first,
                down,
                last,
            } => {
                let down = *down;
                self.enter(env, *control, *bound, &Range { first, down, last })
            }
            Act::Bypass {
                control,
                first,
                down,
                last,
                ..
            } => {
                let down = *down;
                self.bypass(env, *control, &Range { first, down, last })
            }
            Act::Next {
                control,
                bound,
                down,
            } => self.turn(env, (*control, *bound), *down),
            Act::Finish {
                control,
                bound,
                down,
            } => self.finish(env, (*control, *bound), *down),
            Act::Read { to } => self.read(env, to),
            Act::Write { item } => self.write(env, item),
            _ => {}
        }
    }
}
