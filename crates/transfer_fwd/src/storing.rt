//! How a variable gets a value.

ghost use Rattle.std.specs.Prelude.{◌≡◌, ◌<◌};
ghost use Rattle.abstract_expr.specs.Expressions.{truth_of};
ghost use Rattle.environment.specs.Environments.{cell_count};
ghost use Rattle.environment.specs.Kept.{room_of};
ghost use Rattle.transfer_fwd.specs.Actions.{forgotten, number_in, stored};

use alias_class::Bind;
use environment::Env;
use interval::{Itv, Val};

/// A number that lies in a range, which a variable gets.
pub(crate) fn number_in(range: Itv, x: Itv) -> Val
    ensures { result ≡ number_in range x }
{
    Val {
        undef: false,
        itv: x.meet(range),
    }
}

/// The number that stands for a truth.
pub(crate) fn truth(holds: bool) -> Itv
    ensures { result ≡ truth_of holds }
{
    if holds {
        Itv::between(1, 1)
    } else {
        Itv::between(0, 0)
    }
}

/// All of a cell becomes the value, and a part of it may.
pub(crate) fn store(env: &mut Env, to: Bind, v: Val)
    requires { to.cell < cell_count env.old.env }
    ensures value { env.new.env ≡ stored to v env.old.env }
    ensures cells { cell_count env.new.env ≡ cell_count env.old.env }
    ensures room { room_of env.new ≡ room_of env.old }
{
    if !env.reachable() {
        return;
    }
    if to.whole {
        env.set(to.cell, v);
    } else {
        env.weak_set(to.cell, v);
    }
}

/// A whole cell is undefined.
pub(crate) fn forget(env: &mut Env, cell: u32)
    requires { cell < cell_count env.old.env }
    ensures value { env.new.env ≡ forgotten cell env.old.env }
    ensures cells { cell_count env.new.env ≡ cell_count env.old.env }
    ensures room { room_of env.new ≡ room_of env.old }
{
    if env.reachable() {
        env.forget(cell);
    }
}
