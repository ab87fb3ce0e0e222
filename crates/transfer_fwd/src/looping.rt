//! The bounds of a `for`, and its turns.

ghost use Rattle.std.specs.Prelude.{◌≡◌, ◌<◌, if◌then◌else◌, length, true};
ghost use Rattle.abstract_expr.specs.Scopes.{Stands, cells_of, program_of, scope_of, seen_of};
ghost use Rattle.environment.specs.Environments.{cell_count};
ghost use Rattle.environment.specs.Kept.{room_of};
ghost use Rattle.px_base.specs.declared.operator.BinOp.TheVariants as binary;
ghost use Rattle.transfer_fwd.specs.Actions.{bypassed, entered, entered_if, finished, stepped, turned, turned_if};

use crate::action::Actions;
use crate::storing::{forget, store, truth};
use environment::Env;
use interval::{Itv, Val, binary};
use pas_program::Expr;
use px_base::BinOp;

/// The bounds of a `for`.
#[derive(Clone, Copy)]
pub(crate) struct Range<'a> {
    pub first: &'a Expr,
    pub down: bool,
    pub last: &'a Expr,
}

/// How the first bound relates to the last one where there is a turn.
fn bounds_relation(down: bool) -> BinOp
    ensures { result ≡ if down then binary.Ge else binary.Le }
{
    if down { BinOp::Ge } else { BinOp::Le }
}

/// How the control variable relates to the bound where there is a further turn.
fn turn_relation(down: bool) -> BinOp
    ensures { result ≡ if down then binary.Gt else binary.Lt }
{
    if down { BinOp::Gt } else { BinOp::Lt }
}

/// The control variable of the next turn.
fn next_value(down: bool, control: Itv) -> Itv
    ensures { result ≡ stepped down control }
{
    let op = if down { BinOp::Sub } else { BinOp::Add };
    binary(op, control, truth(true)).value
}

impl Actions<'_> {
    /// Both bounds lie in their host, and there is a turn or none.
    fn enter_if(&self, env: &mut Env, holds: bool, range: &Range)
        requires cells { cell_count env.old.env ≡ cells_of self.now.scope }
        requires first { Stands self.now.scope range.now.first.now }
        requires last { Stands self.now.scope range.now.last.now }
        ensures value { env.new.env ≡ entered_if (scope_of self.now.scope) holds range.now.first.now range.now.down range.now.last.now env.old.env }
        ensures cells { cell_count env.new.env ≡ cell_count env.old.env }
        ensures room { room_of env.new ≡ room_of env.old }
    {
        self.in_host(env, range.first);
        self.in_host(env, range.last);
        self.scope.refine_relation(
            env,
            bounds_relation(range.down),
            range.first,
            range.last,
            holds,
        );
    }

    /// Into the statement of a `for`.
    pub(crate) fn enter(&self, env: &mut Env, control: u32, bound: u32, range: &Range)
        requires cells { cell_count env.old.env ≡ cells_of self.now.scope }
        requires first { Stands self.now.scope range.now.first.now }
        requires last { Stands self.now.scope range.now.last.now }
        requires typed { control < length (program_of self.now.scope).vars }
        requires control { (seen_of self.now.scope).variable control ≡ true }
        requires bound { (seen_of self.now.scope).variable bound ≡ true }
        ensures value { env.new.env ≡ entered (scope_of self.now.scope) control bound range.now.first.now range.now.down range.now.last.now env.old.env }
        ensures cells { cell_count env.new.env ≡ cell_count env.old.env }
        ensures room { room_of env.new ≡ room_of env.old }
    {
        let of_type = self.scope.var_type(control);
        self.enter_if(env, true, range);
        self.in_type(env, of_type, range.first);
        self.in_type(env, of_type, range.last);
        let first = self.value_for(env, of_type, range.first);
        let last = self.value_for(env, of_type, range.last);
        store(env, self.scope.bind(control), first);
        store(env, self.scope.bind(bound), last);
    }

    /// Past a `for` whose range is empty.
    pub(crate) fn bypass(&self, env: &mut Env, control: u32, range: &Range)
        requires cells { cell_count env.old.env ≡ cells_of self.now.scope }
        requires first { Stands self.now.scope range.now.first.now }
        requires last { Stands self.now.scope range.now.last.now }
        requires control { (seen_of self.now.scope).variable control ≡ true }
        ensures value { env.new.env ≡ bypassed (scope_of self.now.scope) control range.now.first.now range.now.down range.now.last.now env.old.env }
        ensures cells { cell_count env.new.env ≡ cell_count env.old.env }
        ensures room { room_of env.new ≡ room_of env.old }
    {
        self.enter_if(env, false, range);
        forget(env, self.scope.bind(control).cell);
    }

    /// There is a further turn, or none.
    fn turn_if(&self, env: &mut Env, holds: bool, names: (u32, u32), down: bool)
        requires cells { cell_count env.old.env ≡ cells_of self.now.scope }
        requires control { (seen_of self.now.scope).variable names.0 ≡ true }
        requires bound { (seen_of self.now.scope).variable names.1 ≡ true }
        ensures value { env.new.env ≡ turned_if (scope_of self.now.scope) holds names.0 names.1 down env.old.env }
        ensures cells { cell_count env.new.env ≡ cell_count env.old.env }
        ensures room { room_of env.new ≡ room_of env.old }
    {
        self.scope
            .refine_names(env, turn_relation(down), names, holds);
    }

    /// To the next turn of a `for`, of the control variable and the bound.
    pub(crate) fn turn(&self, env: &mut Env, names: (u32, u32), down: bool)
        requires cells { cell_count env.old.env ≡ cells_of self.now.scope }
        requires control { (seen_of self.now.scope).variable names.0 ≡ true }
        requires bound { (seen_of self.now.scope).variable names.1 ≡ true }
        ensures value { env.new.env ≡ turned (scope_of self.now.scope) names.0 names.1 down env.old.env }
        ensures cells { cell_count env.new.env ≡ cell_count env.old.env }
        ensures room { room_of env.new ≡ room_of env.old }
    {
        self.turn_if(env, true, names, down);
        if env.reachable() {
            let control = self.scope.bind(names.0);
            let itv = next_value(down, env.get(control.cell).itv);
            store(env, control, Val { undef: false, itv });
        }
    }

    /// Out of a `for`, of the control variable and the bound.
    pub(crate) fn finish(&self, env: &mut Env, names: (u32, u32), down: bool)
        requires cells { cell_count env.old.env ≡ cells_of self.now.scope }
        requires control { (seen_of self.now.scope).variable names.0 ≡ true }
        requires bound { (seen_of self.now.scope).variable names.1 ≡ true }
        ensures value { env.new.env ≡ finished (scope_of self.now.scope) names.0 names.1 down env.old.env }
        ensures cells { cell_count env.new.env ≡ cell_count env.old.env }
        ensures room { room_of env.new ≡ room_of env.old }
    {
        self.turn_if(env, false, names, down);
        forget(env, self.scope.bind(names.0).cell);
    }
}
