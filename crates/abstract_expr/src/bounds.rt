//! The bounds of a `for`, which are judged where it has a turn.
ghost use Rattle.std.specs.Prelude.{◌≡◌, IsTrue, true};
ghost use Rattle.control_points.specs.Judgements.{bounds_judgements};
ghost use Rattle.environment.specs.Environments.{cell_count, env_below, is_reachable};
ghost use Rattle.environment.specs.Kept.{room_of};
ghost use Rattle.interval.specs.Intervals.{is_within};
ghost use Rattle.pas_program.specs.Each.{each_expr};
ghost use Rattle.abstract_expr.specs.Expressions as meaning;
ghost use Rattle.abstract_expr.specs.Expressions.{value_in};
ghost use Rattle.abstract_expr.specs.Verdicts.{turn_relation};

use crate::judge::Judge;
use crate::laws::refining_leaves_less;
use crate::scope::Scope;
use crate::tables::{is_narrow, range_of, type_at};
use crate::tally::Tally;
use environment::Env;
use pas_program::Expr;
use px_base::BinOp;

/// The bounds of a `for` over a variable of a type.
#[derive(Clone, Copy)]
pub(crate) struct Bounds<'a> {
    pub of_type: u32,
    pub first: &'a Expr,
    pub down: bool,
    pub last: &'a Expr,
}

impl Scope<'_> {
    ghost use Rattle.abstract_expr.specs.Judging.{after_point, turns_of};
    ghost use Rattle.abstract_expr.specs.Scopes.{Stands, cells_of, program_of, scope_of, seen_of};
    ghost use Rattle.abstract_expr.specs.Tallies.{after_verdict, tallied};
    ghost use Rattle.abstract_expr.specs.Verdicts.{first_holds, last_holds};

    /// Both bounds, after the evaluation of both.
    pub(crate) fn judge_bounds(
        &self,
        tally: &mut Tally,
        marks: &mut [bool],
        env: &mut Env,
        point: u32,
        bounds: &Bounds,
    )
        requires reached { IsTrue (is_reachable env.old.env) }
        requires cells { cell_count env.old.env ≡ cells_of self.now }
        requires first { Stands self.now bounds.now.first.now }
        requires last { Stands self.now bounds.now.last.now }
        ensures verdicts { tallied tally.new marks.new ≡ after_point self.now point env.old.env (bounds_judgements (scope_of self.now).tables bounds.now.of_type bounds.now.first.now bounds.now.down bounds.now.last.now) (tallied tally.old marks.old) }
        ensures below { env_below env.new.env env.old.env ≡ true }
        ensures cells { cell_count env.new.env ≡ cell_count env.old.env }
        ensures room { room_of env.new ≡ room_of env.old }
    {
        let judge = Judge {
            scope: *self,
            env: &*env,
            point,
        };
        judge.expr(tally, marks, bounds.first);
        judge.expr(tally, marks, bounds.last);
        if is_narrow(type_at(self.program(), bounds.of_type)) {
            self.judge_turn(tally, marks, env, bounds);
        }
    }

    /// Both bounds, where there is a turn.
    fn judge_turn(&self, tally: &mut Tally, marks: &mut [bool], env: &mut Env, bounds: &Bounds)
        requires cells { cell_count env.old.env ≡ cells_of self.now }
        requires first { Stands self.now bounds.now.first.now }
        requires last { Stands self.now bounds.now.last.now }
        ensures verdicts { tallied tally.new marks.new ≡ after_verdict (after_verdict (tallied tally.old marks.old) (first_holds (scope_of self.now) env.old.env (turns_of bounds.now))) (last_holds (scope_of self.now) env.old.env (turns_of bounds.now)) }
        ensures below { env_below env.new.env env.old.env ≡ true }
        ensures cells { cell_count env.new.env ≡ cell_count env.old.env }
        ensures room { room_of env.new ≡ room_of env.old }
    {
        refining_leaves_less();
        self.refine_relation(
            env,
            turn_relation(bounds.down),
            bounds.first,
            bounds.last,
            true,
        );
        self.judge_bound(tally, marks, env, bounds.of_type, bounds.first);
        self.judge_bound(tally, marks, env, bounds.of_type, bounds.last);
    }

    /// A bound, where there is a turn.
    fn judge_bound(&self, tally: &mut Tally, marks: &mut [bool], env: &Env, of_type: u32, e: &Expr)
        requires cells { cell_count env.now.env ≡ cells_of self.now }
        requires seen { each_expr (seen_of self.now) e.now ≡ true }
        ensures { tallied tally.new marks.new ≡ after_verdict (tallied tally.old marks.old) (is_within (value_in (scope_of self.now).bind env.now.env e.now) (meaning.range_of ((scope_of self.now).tables.type_at of_type))) }
    {
        let x = self.value(env, e);
        tally.add(
            marks,
            x.is_within(range_of(type_at(self.program(), of_type))),
        );
    }
}

/// How the bounds lie where there is a turn.
fn turn_relation(down: bool) -> BinOp
    ensures { result ≡ turn_relation down }
{
    if down { BinOp::Ge } else { BinOp::Le }
}
