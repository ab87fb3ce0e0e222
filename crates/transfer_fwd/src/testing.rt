//! Conditions and output.

ghost use Rattle.std.specs.Prelude.{◌≡◌};
ghost use Rattle.abstract_expr.specs.Scopes.{Stands, cells_of, scope_of};
ghost use Rattle.environment.specs.Environments.{cell_count};
ghost use Rattle.environment.specs.Kept.{room_of};
ghost use Rattle.transfer_fwd.specs.Actions.{chosen, hull_of, tested, written_out};
ghost use Rattle.transfer_fwd.specs.Standing.{ItemStands};

use crate::action::Actions;
use crate::storing::truth;
use environment::Env;
use interval::Itv;
use pas_program::{Expr, WriteItem, WriteValue};

/// The least interval around the constants of an arm.
fn hull_of(constants: &[i32]) -> Itv
    ensures { result ≡ hull_of constants.now }
{
    let Some((first, others)) = constants.split_first() else {
        return Itv::EMPTY;
    };
    let (mut least, mut greatest) = (*first, *first);
    for z in others {
        least = least.min(*z);
        greatest = greatest.max(*z);
    }
    Itv::between(i64::from(least), i64::from(greatest))
}

impl Actions<'_> {
    /// A condition that has this value.
    pub(crate) fn test(&self, env: &mut Env, cond: &Expr, wanted: bool)
        requires cells { cell_count env.old.env ≡ cells_of self.now.scope }
        requires stands { Stands self.now.scope cond.now }
        ensures value { env.new.env ≡ tested (scope_of self.now.scope) cond.now wanted env.old.env }
        ensures cells { cell_count env.new.env ≡ cell_count env.old.env }
        ensures room { room_of env.new ≡ room_of env.old }
    {
        self.in_host(env, cond);
        self.scope.refine(env, cond, truth(wanted));
    }

    /// The selector of a `case` is one of the constants.
    pub(crate) fn choose(&self, env: &mut Env, selector: &Expr, constants: &[i32])
        requires cells { cell_count env.old.env ≡ cells_of self.now.scope }
        requires stands { Stands self.now.scope selector.now }
        ensures value { env.new.env ≡ chosen (scope_of self.now.scope) selector.now constants.now env.old.env }
        ensures cells { cell_count env.new.env ≡ cell_count env.old.env }
        ensures room { room_of env.new ≡ room_of env.old }
    {
        self.in_host(env, selector);
        self.scope.refine(env, selector, hull_of(constants));
    }

    /// One parameter of `write`.
    pub(crate) fn write(&self, env: &mut Env, item: &WriteItem)
        requires cells { cell_count env.old.env ≡ cells_of self.now.scope }
        requires stands { ItemStands self.now.scope item.now }
        ensures value { env.new.env ≡ written_out (scope_of self.now.scope) item.now env.old.env }
        ensures cells { cell_count env.new.env ≡ cell_count env.old.env }
        ensures room { room_of env.new ≡ room_of env.old }
    {
        if let WriteValue::Value(e) = &item.value {
            self.in_host(env, e);
        }
        if let Some(width) = &item.width {
            self.scope.refine(env, width, Itv::between(1, 10_000));
        }
    }
}
