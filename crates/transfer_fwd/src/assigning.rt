//! Assignments and input.

ghost use Rattle.std.specs.Prelude.{◌≡◌};
ghost use Rattle.abstract_expr.specs.Scopes.{AccessStands, Stands, cells_of, scope_of};
ghost use Rattle.environment.specs.Environments.{cell_count};
ghost use Rattle.environment.specs.Kept.{room_of};
ghost use Rattle.transfer_fwd.specs.Actions.{assigned, copied, read};

use crate::action::Actions;
use crate::storing::{number_in, store};
use environment::Env;
use pas_program::{Access, Expr};

impl Actions<'_> {
    /// An assignment of a scalar.
    pub(crate) fn assign(&self, env: &mut Env, to: &Access, value: &Expr)
        requires cells { cell_count env.old.env ≡ cells_of self.now.scope }
        requires target { AccessStands self.now.scope to.now }
        requires source { Stands self.now.scope value.now }
        ensures value { env.new.env ≡ assigned (scope_of self.now.scope) to.now value.now env.old.env }
        ensures cells { cell_count env.new.env ≡ cell_count env.old.env }
        ensures room { room_of env.new ≡ room_of env.old }
    {
        let of_type = self.scope.access_type(to);
        self.scope.refine_subscripts(env, to);
        self.in_type(env, of_type, value);
        let v = self.value_for(env, of_type, value);
        store(env, self.scope.target(to), v);
    }

    /// An assignment of a whole array.
    pub(crate) fn copy(&self, env: &mut Env, to: &Access, from: &Access)
        requires cells { cell_count env.old.env ≡ cells_of self.now.scope }
        requires target { AccessStands self.now.scope to.now }
        requires source { AccessStands self.now.scope from.now }
        ensures value { env.new.env ≡ copied (scope_of self.now.scope) to.now from.now env.old.env }
        ensures cells { cell_count env.new.env ≡ cell_count env.old.env }
        ensures room { room_of env.new ≡ room_of env.old }
    {
        self.scope.refine_subscripts(env, to);
        self.scope.refine_subscripts(env, from);
        if env.reachable() {
            let v = env.get(self.scope.target(from).cell);
            store(env, self.scope.target(to), v);
        }
    }

    /// One parameter of `read`, which may be any number of its type.
    pub(crate) fn read(&self, env: &mut Env, to: &Access)
        requires cells { cell_count env.old.env ≡ cells_of self.now.scope }
        requires target { AccessStands self.now.scope to.now }
        ensures value { env.new.env ≡ read (scope_of self.now.scope) to.now env.old.env }
        ensures cells { cell_count env.new.env ≡ cell_count env.old.env }
        ensures room { room_of env.new ≡ room_of env.old }
    {
        let range = self.scope.range_of(self.scope.access_type(to));
        self.scope.refine_subscripts(env, to);
        store(env, self.scope.target(to), number_in(range, range));
    }
}
